// Each object in memory once, through its trait.
use crate::tests::same::assert_same;
use aql_outside::{
    Failed, Files, MemFiles, MemSink, MemSource, Sink, Source, SureFiles, SureSink, SureSource,
};
use aql_value::Memory;
use aql_value::made::both;
use std::alloc::Global;
use std::collections::BTreeMap;

// What five reads into a piece of four bytes answer, 9 standing for a failure.
fn five_reads(source: &mut impl Source) -> [usize; 5] {
    let mut counts = [0; 5];
    for i in 0..5 {
        let mut piece = [0u8; 4];
        counts[i] = source.read(&mut piece).unwrap_or(9);
    }
    counts
}

// What five writes of a piece of three bytes answer, 9 standing for a failure.
fn five_writes(sink: &mut impl Sink) -> [usize; 5] {
    let mut counts = [0; 5];
    for i in 0..5 {
        counts[i] = sink.write(b"abc").unwrap_or(9);
    }
    counts
}

// What five reads answer, and how many failed.
fn reads_of(source: Result<MemSource, Memory>) -> Result<([usize; 5], u64), Memory> {
    let mut source = source?;
    let counts = five_reads(&mut source);
    let faults = source.faults();
    drop(source);
    Ok((counts, faults))
}

fn list(alloc: Global, all: &[u64]) -> Result<Vec<u64>, Memory> {
    Ok(all.to_vec(alloc)?)
}

fn digits(alloc: Global) -> Result<Vec<u8>, Memory> {
    Ok(b"0123456789".to_vec(alloc)?)
}

fn cut_source(alloc: Global, pieces: &[u64], fails: &[u64]) -> Result<MemSource, Memory> {
    let lists = both(list(alloc, pieces), list(alloc, fails));
    let (content, (pieces, fails)) = both(digits(alloc), lists)?;
    Ok(MemSource::cut(content, pieces, fails))
}

fn plain_source(alloc: Global, fails: &[u64]) -> Result<MemSource, Memory> {
    let (content, fails) = both(digits(alloc), list(alloc, fails))?;
    Ok(MemSource::new(content, fails))
}

// The pieces that a source is cut into, the reads that fail, what five reads answer, and how many
// failed.
const SOURCES: &[(&[u64], &[u64], [usize; 5], u64)] = &[
    (&[], &[], [4, 4, 2, 0, 0], 0),
    (&[], &[1, 3], [9, 4, 9, 4, 2], 2),
    (&[1, 2, 7], &[], [1, 2, 4, 3, 0], 0),
    (&[0, 1], &[2], [1, 9, 4, 4, 1], 1),
    (&[3], &[0, 5], [3, 4, 3, 0, 9], 1),
];

#[test]
fn sources(rt: HostRuntime) {
    for row in SOURCES {
        let read = reads_of(cut_source(rt.alloc(), row.0, row.1));
        assert_same(&rt, read, Ok((row.2, row.3)));
    }
}

fn sure_reads(alloc: Global) -> Result<[usize; 5], Memory> {
    let mut sure = SureSource::new(digits(alloc)?);
    let counts = five_reads(&mut sure);
    drop(sure);
    Ok(counts)
}

#[test]
fn uncut_sources(rt: HostRuntime) {
    let read = reads_of(plain_source(rt.alloc(), &[1]));
    assert_same(&rt, read, Ok(([9, 4, 4, 2, 0], 1)));
    assert_same(&rt, sure_reads(rt.alloc()), Ok([4, 4, 2, 0, 0]));
}

fn room(alloc: Global, size: usize) -> Result<Vec<u8>, Memory> {
    Ok(vec![in alloc; 0; size]?)
}

fn cut_sink(alloc: Global, size: usize, pieces: &[u64], fails: &[u64]) -> Result<MemSink, Memory> {
    let lists = both(list(alloc, pieces), list(alloc, fails));
    let (room, (pieces, fails)) = both(room(alloc, size), lists)?;
    Ok(MemSink::cut(room, pieces, fails))
}

fn plain_sink(alloc: Global, size: usize, fails: &[u64]) -> Result<MemSink, Memory> {
    let (room, fails) = both(room(alloc, size), list(alloc, fails))?;
    Ok(MemSink::new(room, fails))
}

// What five writes answer, how many failed, and whether this was written.
fn writes_of(
    sink: Result<MemSink, Memory>,
    written: &[u8],
) -> Result<([usize; 5], u64, bool), Memory> {
    let mut sink = sink?;
    let counts = five_writes(&mut sink);
    let faults = sink.faults();
    let is_written = sink.written_bytes() == written;
    drop(sink);
    Ok((counts, faults, is_written))
}

// A room, the pieces that a sink is cut into, the writes that fail, what five writes answer, what
// is written, and how many failed.
const SINKS: &[(usize, &[u64], &[u64], [usize; 5], &[u8], u64)] = &[
    (20, &[], &[], [3, 3, 3, 3, 3], b"abcabcabcabcabc", 0),
    (7, &[], &[2], [3, 9, 3, 1, 9], b"abcabca", 2),
    (20, &[1, 0, 2], &[], [1, 1, 2, 3, 3], b"aaababcabc", 0),
    (0, &[], &[], [9, 9, 9, 9, 9], b"", 5),
];

#[test]
fn sinks(rt: HostRuntime) {
    for row in SINKS {
        let sink = cut_sink(rt.alloc(), row.0, row.1, row.2);
        assert_same(&rt, writes_of(sink, row.4), Ok((row.3, row.5, true)));
    }
}

fn sure_writes() -> [usize; 5] {
    let mut sure = SureSink::new();
    five_writes(&mut sure)
}

#[test]
fn uncut_sinks(rt: HostRuntime) {
    let taken = writes_of(plain_sink(rt.alloc(), 4, &[1]), b"abca");
    assert_same(&rt, taken, Ok(([9, 3, 1, 9, 9], 3, true)));
    assert_same(&rt, sure_writes(), [3, 3, 3, 3, 3]);
}

type Answers = [Result<Option<u64>, Failed>; 4];

// What is answered of a file of ten bytes and of one that isn't there.
fn ask(files: &mut impl Files) -> Answers {
    let mut piece = [0u8; 4];
    let first = files.size("ten");
    let second = files.size("none");
    let third = files.read_at("ten", 8, &mut piece).map(|n| Some(n as u64));
    let fourth = files.read_at("ten", 10, &mut piece).map(|n| Some(n as u64));
    [first, second, third, fourth]
}

fn name(alloc: Global) -> Result<String, Memory> {
    Ok(String::from_str(alloc, "ten")?)
}

// The one file `ten`.
fn folder(alloc: Global) -> Result<BTreeMap<String, Vec<u8>>, Memory> {
    let (name, digits) = both(name(alloc), digits(alloc))?;
    let mut content = BTreeMap::new(alloc);
    content.insert(name, digits)?;
    Ok(content)
}

fn told_files(alloc: Global, fails: &[u64]) -> Result<MemFiles, Memory> {
    let (content, fails) = both(folder(alloc), list(alloc, fails))?;
    Ok(MemFiles::new(content, fails))
}

// What is answered of told files, and how many calls failed.
fn answers_of(files: Result<MemFiles, Memory>) -> Result<(Answers, u64), Memory> {
    let mut files = files?;
    let answers = ask(&mut files);
    let faults = files.faults();
    drop(files);
    Ok((answers, faults))
}

// The calls that fail, what is answered, and how many failed.
const FILES: &[(&[u64], Answers, u64)] = &[
    (&[], [Ok(Some(10)), Ok(None), Ok(Some(2)), Ok(Some(0))], 0),
    (
        &[2, 3],
        [Ok(Some(10)), Err(Failed), Err(Failed), Ok(Some(0))],
        2,
    ),
];

#[test]
fn files(rt: HostRuntime) {
    for row in FILES {
        let found = answers_of(told_files(rt.alloc(), row.0));
        assert_same(&rt, found, Ok((row.1, row.2)));
    }
}

fn sure_answers(alloc: Global) -> Answers {
    let mut sure = SureFiles::new(BTreeMap::new(alloc));
    let answers = ask(&mut sure);
    drop(sure);
    answers
}

#[test]
fn no_files(rt: HostRuntime) {
    let answers = [Ok(None), Ok(None), Ok(Some(0)), Ok(Some(0))];
    assert_same(&rt, sure_answers(rt.alloc()), answers);
}
