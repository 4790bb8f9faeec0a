// A run of the program over devices in memory.
use aql_outside::{Files, FreeGate, Gate, MemFiles, MemSink, MemSource};
use aql_run::{Report, Stop, run};
use aql_value::Memory;
use aql_value::made::both;
use std::alloc::Global;
use std::collections::BTreeMap;
use std::fmt::Debug;
use std::process::Abort;
use std::thread::Threads;

/// How often the devices give or take a few bytes, and which of their calls fail.
#[derive(Clone, Copy)]
pub(crate) struct Devices<'a> {
    pub pieces: &'a [u64],
    pub source_fails: &'a [u64],
    pub sink_fails: &'a [u64],
    pub files_fail: &'a [u64],
}

/// Devices that give and take all at once, and never fail.
pub(crate) const SURE: Devices<'static> = Devices {
    pieces: &[],
    source_fails: &[],
    sink_fails: &[],
    files_fail: &[],
};

/// How many calls on each device failed in a run.
#[derive(Clone, Copy, Debug, PartialEq, Eq)]
pub(crate) struct Failures {
    pub source: u64,
    pub sink: u64,
    pub files: u64,
}

/// What came of a run: its status, what was written, how many calls failed, how many declarations were answered, and the cells that a
/// readval asked for past the budget.
#[derive(Drop)]
pub(crate) struct Ran {
    pub status: u8,
    pub output: Vec<u8>,
    pub failures: Failures,
    pub answered: usize,
    pub cells: Option<u128>,
}

/// The files of a run, by their names.
pub(crate) type Folder = BTreeMap<String, Vec<u8>>;

/// A list of these bytes.
pub(crate) fn bytes(alloc: Global, all: &[u8]) -> Result<Vec<u8>, Memory> {
    Ok(all.to_vec(alloc)?)
}

fn list(alloc: Global, all: &[u64]) -> Result<Vec<u64>, Memory> {
    Ok(all.to_vec(alloc)?)
}

fn room(alloc: Global) -> Result<Vec<u8>, Memory> {
    Ok(vec![in alloc; 0; 4096]?)
}

fn source_of(alloc: Global, script: &[u8], devices: &Devices<'_>) -> Result<MemSource, Memory> {
    let lists = both(
        list(alloc, devices.pieces),
        list(alloc, devices.source_fails),
    );
    let (content, lists) = both(bytes(alloc, script), lists)?;
    Ok(MemSource::cut(content, lists.0, lists.1))
}

fn sink_of(alloc: Global, devices: &Devices<'_>) -> Result<MemSink, Memory> {
    let lists = both(list(alloc, devices.pieces), list(alloc, devices.sink_fails));
    let (room, lists) = both(room(alloc), lists)?;
    Ok(MemSink::cut(room, lists.0, lists.1))
}

fn files_of(
    alloc: Global,
    folder: Result<Folder, Memory>,
    devices: &Devices<'_>,
) -> Result<MemFiles, Memory> {
    let (folder, fails) = both(folder, list(alloc, devices.files_fail))?;
    Ok(MemFiles::new(folder, fails))
}

fn put_word(alloc: Global, all: &mut Vec<String>, word: &str) -> Result<(), Memory> {
    all.push(String::from_str(alloc, word)?)?;
    Ok(())
}

fn put_words(alloc: Global, all: &mut Vec<String>, words: &[&str]) -> Result<(), Memory> {
    for word in words {
        put_word(alloc, all, word)?;
    }
    Ok(())
}

fn all_words(alloc: Global, words: &[&str]) -> Result<Vec<String>, Memory> {
    let mut all = Vec::new(alloc);
    put_word(alloc, &mut all, "aql")?;
    put_words(alloc, &mut all, words)?;
    Ok(all)
}

// How a run ended: its status, how many declarations were answered, and the cells that a readval asked for, where it ended by them.
#[derive(Clone, Copy)]
struct Ended {
    status: u8,
    answered: usize,
    cells: Option<u128>,
}

fn cells_of(stop: &Stop) -> Option<u128> {
    match stop {
        Stop::Cells { cells } => Some(*cells),
        _ => None,
    }
}

fn ended_by(report: Report) -> Ended {
    let ended = Ended {
        status: report.status,
        answered: report.answers.items.len(),
        cells: cells_of(&report.stop),
    };
    drop(report);
    ended
}

// A run that ended so, wrote this, and in which so many calls failed.
fn ran_to(
    ended: Ended,
    written: Result<Vec<u8>, Memory>,
    failures: Failures,
) -> Result<Ran, Memory> {
    let output = written?;
    Ok(Ran {
        status: ended.status,
        output,
        failures,
        answered: ended.answered,
        cells: ended.cells,
    })
}

// Runs the program over these devices; of the files it tells no failing call.
fn run_in<R: Threads + Sync, F: Files, G: Gate>(
    rt: &R,
    alloc: Global,
    words: Vec<String>,
    streams: (MemSource, MemSink),
    files: &mut F,
    gate: &G,
) -> Result<Ran, Memory> {
    let (mut input, mut output) = streams;
    let ended = ended_by(run(rt, alloc, &words, &mut input, &mut output, files, gate));
    drop(words);
    let written = bytes(alloc, output.written_bytes());
    let failures = Failures {
        source: input.faults(),
        sink: output.faults(),
        files: 0,
    };
    drop(input);
    drop(output);
    ran_to(ended, written, failures)
}

// The same run, in which so many calls on the files failed.
fn with_faults(ran: Result<Ran, Memory>, faults: u64) -> Result<Ran, Memory> {
    let mut ran = ran?;
    ran.failures.files = faults;
    Ok(ran)
}

/// Runs a script with these words behind the program's name, over these files.
pub(crate) fn run_over<R: Threads + Sync, G: Gate>(
    rt: &R,
    alloc: Global,
    words: &[&str],
    script: &[u8],
    folder: Result<Folder, Memory>,
    devices: &Devices<'_>,
    gate: &G,
) -> Result<Ran, Memory> {
    let streams = both(source_of(alloc, script, devices), sink_of(alloc, devices));
    let inside = both(streams, all_words(alloc, words));
    let (inside, mut files) = both(inside, files_of(alloc, folder, devices))?;
    let ran = run_in(rt, alloc, inside.1, inside.0, &mut files, gate);
    let faults = files.faults();
    drop(files);
    with_faults(ran, faults)
}

/// Runs a script over files that no call of `run_over` makes, and streams that never fail.
pub(crate) fn run_files<R: Threads + Sync, F: Files + Drop>(
    rt: &R,
    alloc: Global,
    script: &[u8],
    files: Result<F, Memory>,
) -> Result<Ran, Memory> {
    let streams = both(source_of(alloc, script, &SURE), sink_of(alloc, &SURE));
    let inside = both(streams, all_words(alloc, &[]));
    let (inside, mut files) = both(inside, files)?;
    let ran = run_in(rt, alloc, inside.1, inside.0, &mut files, &FreeGate);
    drop(files);
    ran
}

/// Runs a script without files over devices that never fail.
pub(crate) fn run_script<R: Threads + Sync>(
    rt: &R,
    alloc: Global,
    words: &[&str],
    script: &[u8],
) -> Result<Ran, Memory> {
    let folder = Ok(BTreeMap::new(alloc));
    run_over(rt, alloc, words, script, folder, &SURE, &FreeGate)
}

/// What was found is what is wanted. As a call: a test that makes several has no early end of its own for each of them.
pub(crate) fn assert_same<R: Abort, T: PartialEq + Debug + Copy>(rt: &R, found: T, wanted: T) {
    assert_eq!(rt; found, wanted);
}

/// Fails where a run did not end with this status, or did not write this.
pub(crate) fn assert_ran<R: Abort>(rt: &R, ran: Result<Ran, Memory>, status: u8, output: &[u8]) {
    let ran = ran.expect(rt, "memory for a run");
    assert_same(rt, ran.status, status);
    assert_same(rt, ran.output.as_slice(), output);
    drop(ran);
}

/// Fails where a run did not end in the first declaration, by so many cells or bytes past the budget.
pub(crate) fn assert_past<R: Abort>(rt: &R, ran: Ran, cells: u128) {
    assert_same(rt, ran.cells, Some(cells));
    assert_same(rt, ran.answered, 0);
    assert_ran(rt, Ok(ran), 12, b"fault budget in declaration 1\n");
}

/// The words behind the program's name, a script, the status of its run, and what is written.
#[derive(Clone, Copy)]
pub(crate) struct Row<'a>(pub &'a [&'a str], pub &'a str, pub u8, pub &'a str);

/// Fails where a run of a script without files is not as its row says.
pub(crate) fn assert_rows<R: Threads + Sync + Abort>(rt: &R, alloc: Global, rows: &[Row<'_>]) {
    for row in rows {
        let ran = run_script(rt, alloc, row.0, row.1.as_bytes());
        assert_ran(rt, ran, row.2, row.3.as_bytes());
    }
}
