// Reading the header of a file.
ghost use Rattle.std.specs.Prelude.{◌≡◌, ◌+◌, ◌≤◌, ◌<◌, min, length, take, IfOk, IfErr, IsErr, IsTrue, Err, true};
ghost use Rattle.std.specs.Str.{IsUtf8};
ghost use Rattle.aql_outside.specs.Contents.{WhereTold, IsAbsent};
ghost use Rattle.aql_outside.specs.Frames.{Leaves};
ghost use Rattle.cdf_header.specs.File.{IsFront, StaysFront, IsReadBehind, IsOutside, IsDevice, AnswersIfAble, IsClassic, IsVersion, IsLost, IsOfHeader, fields_of, header_of};
ghost use Rattle.cdf_header.specs.Limits.{most_header_bytes};

use crate::fault::{CdfFault, FieldFault, ReadError};
use crate::front::Front;
use crate::header::Header;
use crate::limits::MOST_HEADER_BYTES;
use crate::lists::header_of;
use aql_outside::Files;
use aql_value::Str;
use std::alloc::Global;
use std::str;

/// The most bytes that one read asks for.
const PIECE: usize = 65536;

/// The bytes that are read first, unless the file has fewer.
const FIRST: usize = 4096;

// Takes the next piece of the file, and says whether it came whole.
fn read_piece<F: Files>(
    files: &mut F,
    name: &str,
    front: &mut Vec<u8>,
    target: usize,
) -> Result<bool, CdfFault>
    requires room { length front.old.items < target }
    requires limit { target ≤ most_header_bytes }
    ensures frame { Leaves F.holds F.faults F.quiet (IsDevice result) files.old files.new }
    ensures causes { IfErr result IsOutside }
    ensures within { IfOk result (λ whole. length front.new.items ≤ target) }
    ensures grows { IfOk result
        (λ whole. IsTrue whole → length front.old.items < length front.new.items) }
    ensures longer { IfOk result (λ whole. length front.old.items ≤ length front.new.items) }
    ensures told { WhereTold (F.holds files.old) name.now
        (λ bytes. StaysFront bytes target front.old.items front.new.items result) }
{
    let start = front.len();
    let room = (target - start).min(PIECE);
    if front.resize(start + room, 0).is_err() {
        return Err(CdfFault::Memory);
    }
    let count = read_behind(files, name, front, start)?;
    front.truncate(start + count);
    Ok(count == room)
}

// Reads a file from an offset on over the memory behind it, and answers how many bytes came.
fn read_behind<F: Files>(
    files: &mut F,
    name: &str,
    memory: &mut [u8],
    start: usize,
) -> Result<usize, CdfFault>
    requires { start ≤ length memory.old }
    ensures frame { Leaves F.holds F.faults F.quiet (IsDevice result) files.old files.new }
    ensures causes { IfErr result IsOutside }
    ensures within { IfOk result (λ count. start + count ≤ length memory.new) }
    ensures kept { take start memory.new ≡ take start memory.old }
    ensures told { WhereTold (F.holds files.old) name.now
        (λ bytes. IsReadBehind bytes start memory.new result) }
{
    match files.read_at(name, start as u64, &mut memory[start..]) {
        Ok(count) => Ok(count),
        Err(_) => Err(CdfFault::Device),
    }
}

// Reads the front of the file up to a length, and says whether it came whole.
fn grow<F: Files>(
    files: &mut F,
    name: &str,
    front: &mut Vec<u8>,
    target: usize,
) -> Result<bool, CdfFault>
    requires room { length front.old.items ≤ target }
    requires limit { target ≤ most_header_bytes }
    ensures frame { Leaves F.holds F.faults F.quiet (IsDevice result) files.old files.new }
    ensures causes { IfErr result IsOutside }
    ensures within { IfOk result (λ whole. length front.new.items ≤ target) }
    ensures whole { IfOk result (λ whole. IsTrue whole → target ≤ length front.new.items) }
    ensures longer { IfOk result (λ whole. length front.old.items ≤ length front.new.items) }
    ensures told { WhereTold (F.holds files.old) name.now
        (λ bytes. StaysFront bytes target front.old.items front.new.items result) }
{
    'pieces: while front.len() < target {
        if !read_piece(files, name, front, target)? {
            return Ok(false);
        }
    }
    Ok(true)
}

// Reads the fields behind the first four bytes. The front of the file that is read doubles until
// they stand in it.
fn read_fields<F: Files>(
    alloc: Global,
    files: &mut F,
    name: &str,
    start: Vec<u8>,
    whole: bool,
    v: u8,
    size: u64,
) -> Result<Header, CdfFault>
    requires magic { 4 ≤ length start.items }
    requires room { length start.items ≤ min size most_header_bytes }
    ensures frame { Leaves F.holds F.faults F.quiet (IsDevice result) files.old files.new }
    ensures causes { IfErr result IsOfHeader }
    ensures told { WhereTold (F.holds files.old) name.now
        (λ bytes. size ≡ length bytes → whole ≡ true → IsFront bytes start.items
        → AnswersIfAble (fields_of size v bytes) result) }
{
    let most = size.min(MOST_HEADER_BYTES) as usize;
    let mut front = start;
    let mut ended = !whole;
    'fronts: loop {
        let read = Front {
            bytes: &front,
            version: v,
        };
        match header_of(alloc, &read, size) {
            Ok((found, _)) => return Ok(found),
            Err(ReadError::Memory) => return Err(CdfFault::Memory),
            Err(ReadError::Fault(FieldFault::Malformed { at })) => return Err(CdfFault::Malformed {
                at: at as u64,
            }),
            Err(ReadError::Fault(FieldFault::TooMany { list })) => return Err(CdfFault::TooMany {
                list,
            }),
            Err(ReadError::Fault(FieldFault::Short { at })) => {
                if ended {
                    return Err(CdfFault::Malformed { at: at as u64 });
                }
                if front.len() == most {
                    return Err(CdfFault::Malformed { at: at as u64 });
                }
            }
        }
        let target = (front.len() * 2).min(most);
        ended = !grow(files, name, &mut front, target)?;
    }
}

// Whether the bytes begin as a netCDF classic file.
fn is_classic(front: &[u8]) -> bool
    ensures yes { IsTrue result → IsClassic front.now }
    ensures no { IsClassic front.now → IsTrue result }
{
    front.len() >= 4 && front[0] == 67 && front[1] == 68 && front[2] == 70
}

fn is_known(v: u8) -> bool
    ensures yes { IsTrue result → IsVersion v }
    ensures no { IsVersion v → IsTrue result }
{
    v == 1 || v == 2 || v == 5
}

// The header of the file of a name.
fn header_or_fault<F: Files>(alloc: Global, files: &mut F, name: &str) -> Result<Header, CdfFault>
    ensures frame { Leaves F.holds F.faults F.quiet (IsDevice result) files.old files.new }
    ensures causes { IfErr result IsOfHeader }
    // Where the file is told and there.
    ensures told { WhereTold (F.holds files.old) name.now
        (λ bytes. AnswersIfAble (header_of bytes) result) }
    // Where it is told that the file isn't there.
    ensures absent { IsAbsent (F.holds files.old) name.now → IfErr result IsLost × IsErr result }
{
    let size = match files.size(name) {
        Ok(Some(size)) => size,
        Ok(None) => return Err(CdfFault::Absent),
        Err(_) => return Err(CdfFault::Device),
    };
    let most = size.min(MOST_HEADER_BYTES) as usize;
    let mut front = Vec::new(alloc);
    let target = most.min(FIRST);
    let whole = grow(files, name, &mut front, target)?;
    if !is_classic(&front) {
        return Err(CdfFault::NotClassic);
    }
    let v = front[3];
    if !is_known(v) {
        return Err(CdfFault::Version { found: v });
    }
    read_fields(alloc, files, name, front, whole, v, size)
}

/// The header of a file. The faults are tested in the order in which they stand in `CdfFault`. Each
/// byte is asked for once, and none behind the first 16,777,216. Where the files do not tell their
/// bytes, a read that gives fewer bytes than asked is the end of the file.
pub fn read_header<F: Files>(alloc: Global, files: &mut F, name: &Str) -> Result<Header, CdfFault>
    // The files hold what they held. Where `Device` is answered the count of faults rose; of quiet
    // files it is greater only there.
    ensures frame { Leaves F.holds F.faults F.quiet (IsDevice result) files.old files.new }
    // A fault is one of a header, of the device or of memory, whatever the files tell.
    ensures causes { IfErr result IsOfHeader }
    // Where the file is told and there, the header of its bytes is answered, or the first fault.
    ensures told { IsUtf8 name.now
        → WhereTold (F.holds files.old) name.now (λ bytes. AnswersIfAble (header_of bytes) result) }
    // Where it is told that no file has the name.
    ensures absent { IsAbsent (F.holds files.old) name.now → IfErr result IsLost × IsErr result }
    // A name that is not UTF-8 names no file, and no call is made on the files.
    ensures unnamed { ¬ (IsUtf8 name.now) → result ≡ Err CdfFault.Absent }
    ensures untouched { ¬ (IsUtf8 name.now) → files.new ≡ files.old }
{
    match str::from_utf8(&name.bytes) {
        Ok(text) => header_or_fault(alloc, files, text),
        Err(_) => Err(CdfFault::Absent),
    }
}
