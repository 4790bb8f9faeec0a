// Each adapter once, over what a test can hold.
ghost use Rattle.std.specs.Prelude.{None};

use crate::tests::same::assert_same;
use aql_outside::{Failed, Files, Sink, Source};
use aql_system::{Disk, DiskFile, FileSystem, InputStream, OutputStream, SystemDisk, read_full};
use std::alloc::Global;
use std::collections::VecDeque;
use std::io::{self, Read};
use std::process::Abort;
use std::test::Fail;
use std::{env, fs, process, rt};

// What three reads of at most three bytes answer of a stream of five, and the first piece.
fn reads() -> ([Result<usize, Failed>; 3], [u8; 3]) {
    let mut input = InputStream::new("hello".as_bytes());
    let mut piece = [0u8; 3];
    let first = input.read(&mut piece);
    let front = piece;
    let second = input.read(&mut piece);
    let third = input.read(&mut piece);
    ([first, second, third], front)
}

// What writes of five bytes and of none answer.
fn writes(alloc: Global) -> [Result<usize, Failed>; 2] {
    let mut output = OutputStream::new(VecDeque::new(alloc));
    let first = output.write(b"hello");
    let second = output.write(b"");
    drop(output);
    [first, second]
}

// What writes of five and then of three bytes answer where there is room for two, and the count of
// faults after each.
fn writes_past_the_room() -> [(Result<usize, Failed>, u64); 2] {
    let mut room = [0u8; 2];
    let mut full = OutputStream::new(room.as_mut_slice());
    let first = full.write(b"hello");
    let before = full.faults();
    let second = full.write(b"llo");
    [(first, before), (second, full.faults())]
}

// A reader that fails.
#[derive(Drop)]
struct FailingReader;

impl Read for FailingReader {
    fn read(&mut self, _into: &mut [u8]) -> io::Result<usize> {
        Err(io::Error::from(io::ErrorKind::Other))
    }
}

// What a read of a reader that fails answers, and the count of faults before and after.
fn read_of_a_failing_reader() -> (u64, Result<usize, Failed>, u64) {
    let mut failing = InputStream::new(FailingReader);
    let before = failing.faults();
    let read = failing.read(&mut [0u8; 3]);
    (before, read, failing.faults())
}

#[test]
fn streams(rt: HostRuntime) {
    assert_same(&rt, reads(), ([Ok(3), Ok(2), Ok(0)], *b"hel"));
    assert_same(&rt, writes(rt.alloc()), [Ok(5), Ok(0)]);
    let past = [(Ok(2), 0), (Err(Failed), 1)];
    assert_same(&rt, writes_past_the_room(), past);
    let failing = (0, Err(Failed), 1);
    assert_same(&rt, read_of_a_failing_reader(), failing);
}

// A reader that gives one byte at a time.
#[derive(Drop)]
struct OneByteReader<'a> {
    left: &'a [u8],
}

impl DiskFile for OneByteReader<'_> {
    ghost bytes = { λ _. None };

    ghost left = { λ _. None };

    fn start_at(&mut self, _at: u64) -> io::Result<()> {
        Err(io::Error::from(io::ErrorKind::Unsupported))
    }

    fn read(&mut self, into: &mut [u8]) -> io::Result<usize> {
        match (self.left.split_first(), into.first_mut()) {
            (Some((next, rest)), Some(place)) => {
                *place = *next;
                self.left = rest;
                Ok(1)
            }
            _ => Ok(0),
        }
    }
}

// How many bytes three full reads of a piece of seven give, of ten that come one at a time, and
// what the first two read.
fn three_full_reads() -> ([Option<usize>; 3], [u8; 7], [u8; 3]) {
    let mut reader = OneByteReader {
        left: b"0123456789",
    };
    let mut piece = [0u8; 7];
    let first = read_full(&mut reader, &mut piece).ok();
    let front = piece;
    let second = read_full(&mut reader, &mut piece).ok();
    let [a, b, c, ..] = piece;
    let third = read_full(&mut reader, &mut piece).ok();
    ([first, second, third], front, [a, b, c])
}

#[test]
fn full_reads(rt: HostRuntime) {
    let wanted = ([Some(7), Some(3), Some(0)], *b"0123456", *b"789");
    assert_same(&rt, three_full_reads(), wanted);
}

type Size = Result<Option<u64>, Failed>;

type Count = Result<usize, Failed>;

type Told = (Size, Count, [u8; 3], Count);

type OfAFile = (bool, Told, bool, (Size, u64));

type Refused = ((Size, u64), (Count, u64), Size, (Size, u64));

// Of a file of ten bytes: its size, what a read of four from its byte 7 on answers, the three that
// it has there, and what a read behind them answers.
fn tell<D: Disk + Drop>(files: &mut FileSystem<D>, name: &str) -> Told {
    let mut piece = [0u8; 4];
    let size = files.size(name);
    let last = files.read_at(name, 7, &mut piece);
    let [a, b, c, _] = piece;
    (size, last, [a, b, c], files.read_at(name, 10, &mut piece))
}

// The size of what has the name, and the count of faults behind it.
fn size_and_faults<D: Disk + Drop>(files: &mut FileSystem<D>, name: &str) -> (Size, u64) {
    let size = files.size(name);
    (size, files.faults())
}

// What a read of it answers, and the count of faults behind it.
fn read_and_faults<D: Disk + Drop>(files: &mut FileSystem<D>, name: &str) -> (Count, u64) {
    let read = files.read_at(name, 0, &mut [0u8; 4]);
    (read, files.faults())
}

// What is answered of a file of ten bytes, and of its name once it is removed; whether it was
// written and removed.
fn of_a_file<R: rt::Files, D: Disk + Drop>(
    files: &mut FileSystem<D>,
    rt: &R,
    name: &str,
) -> OfAFile {
    let is_written = fs::write(rt, name, "0123456789").is_ok();
    let there = tell(files, name);
    let is_removed = fs::remove_file(rt, name).is_ok();
    (is_written, there, is_removed, size_and_faults(files, name))
}

// What is answered of a folder, of a name with a zero byte and of a device, each of which fails.
fn refuse<D: Disk + Drop>(files: &mut FileSystem<D>, folder: &str) -> Refused {
    let size = size_and_faults(files, folder);
    let read = read_and_faults(files, folder);
    let zero = files.size("a\0b");
    (size, read, zero, size_and_faults(files, "/dev/null"))
}

fn answers<R: rt::Files>(rt: &R, folder: &str, name: &str) -> (OfAFile, Refused) {
    let mut files = FileSystem::new(SystemDisk::new(rt));
    let of_a_file = of_a_file(&mut files, rt, name);
    let refused = refuse(&mut files, folder);
    drop(files);
    (of_a_file, refused)
}

// A file of ten bytes with that name, which is removed, and the folder that it is in.
fn assert_files<R: rt::Files + Abort>(rt: &R, folder: &str, name: &str) {
    let (of_a_file, refused) = answers(rt, folder, name);
    let there = (Ok(Some(10)), Ok(3), *b"789", Ok(0));
    assert_same(rt, of_a_file, (true, there, true, (Ok(None), 0)));
    let (size, read) = ((Err(Failed), 1), (Err(Failed), 2));
    assert_same(rt, refused, (size, read, Err(Failed), (Err(Failed), 4)));
}

// The same of a file with this number in its name.
fn assert_numbered<R: rt::Files + Abort>(
    rt: &R,
    alloc: Global,
    folder: &str,
    number: u32,
) -> Result<(), Fail> {
    let name = format!(in alloc; "{folder}/aql_adapter_of_files_{number}")?;
    assert_files(rt, folder, name.as_str());
    Ok(())
}

#[test]
fn files(rt: HostRuntime) -> Result<(), Fail> {
    let folder = env::temp_dir(&rt)?;
    let number = process::id(rt.process());
    match folder.to_str() {
        Some(folder) => assert_numbered(&rt, rt.alloc(), folder, number),
        None => Err(Fail::new("the folder has a name")),
    }
}
