// Reading a file of records.
ghost use Rattle.std.specs.Prelude.{◌≡◌, ◌≤◌, Some, Err, length, IfOk, IfErr};
ghost use Rattle.std.specs.Str.{IsUtf8};
ghost use Rattle.aql_outside.specs.Contents.{WhereTold};
ghost use Rattle.aql_outside.specs.Frames.{Leaves};
ghost use Rattle.aql_value.specs.Meaning.{datum};
ghost use Rattle.aql_csv.specs.Rows.{GivesValue, IsOfRecords, result_map};
ghost use Rattle.aql_csv.specs.File.{IsCsvAnswer, IsDevice, IsGiven, IsOfReading, IsTold, IsReadWhole, read_by, set_of};
ghost use Rattle.aql_csv.specs.Typed.{IsOfReader};

use crate::fault::CsvFault;
use crate::rows::read_members;
use crate::sets::set_of_values;
use aql_outside::Files;
use aql_syntax::ast::CsvReader;
use aql_value::{Str, Value};
use std::alloc::Global;
use std::str;

/// What was read of a file of records: the set of its records' values, and the file's size in
/// bytes.
#[derive(Drop)]
pub struct Csv {
    pub value: Value,
    pub bytes: u64,
}

/// The set of the values of a file's records: of a single kind the fields themselves, else tuples.
/// Where the reader says so the first record names the fields, and is passed over untested. The
/// faults are tested in the order in which they stand in `CsvFault`. A file within the budget of
/// bytes is asked for by one call, and kept until its records are read.
pub fn read_csv<F: Files>(
    alloc: Global,
    files: &mut F,
    name: &Str,
    reader: &CsvReader,
    budget: u64,
) -> Result<Csv, CsvFault>
    requires some { 1 ≤ length reader.now.kinds.items.items }
    // The files hold what they held. Where `Device` is answered the count of faults rose; of quiet
    // files it is greater only there.
    ensures frame { Leaves F.holds F.faults F.quiet (IsDevice result) files.old files.new }
    // Where the files tell their bytes: the set and the size, or the first fault.
    ensures told { IsUtf8 name.now → IsTold (F.holds files.old) name.now reader.now budget result }
    // Whatever they tell: what some bytes give.
    ensures given { IsGiven reader.now budget result }
    // What was read has the type that the reader says.
    ensures typed { IfOk result (λ csv. IsOfReader reader.now (datum csv.value)) }
    // A name that is not UTF-8 names no file, and no call is made on the files.
    ensures unnamed { ¬ (IsUtf8 name.now) → result ≡ Err CsvFault.Absent }
    ensures untouched { ¬ (IsUtf8 name.now) → files.new ≡ files.old }
{
    match str::from_utf8(&name.bytes) {
        Ok(text) => read_named(alloc, files, text, reader, budget),
        Err(_) => Err(CsvFault::Absent),
    }
}

// The same for a name that is text.
fn read_named<F: Files>(
    alloc: Global,
    files: &mut F,
    name: &str,
    reader: &CsvReader,
    budget: u64,
) -> Result<Csv, CsvFault>
    requires some { 1 ≤ length reader.now.kinds.items.items }
    ensures frame { Leaves F.holds F.faults F.quiet (IsDevice result) files.old files.new }
    ensures told { IsTold (F.holds files.old) name.now reader.now budget result }
    ensures given { IsGiven reader.now budget result }
    ensures typed { IfOk result (λ csv. IsOfReader reader.now (datum csv.value)) }
{
    let size = match files.size(name) {
        Ok(Some(size)) => size,
        Ok(None) => return Err(CsvFault::Absent),
        Err(_) => return Err(CsvFault::Device),
    };
    if size > budget {
        return Err(CsvFault::Long { bytes: size });
    }
    let bytes = read_whole(alloc, files, name, size as usize)?;
    found_in(alloc, &bytes, reader, budget)
}

// Reads so many bytes of the file, by one call.
fn read_whole<F: Files>(
    alloc: Global,
    files: &mut F,
    name: &str,
    size: usize,
) -> Result<Vec<u8>, CsvFault>
    ensures frame { Leaves F.holds F.faults F.quiet (IsDevice result) files.old files.new }
    ensures causes { IfErr result (IsOfReading size) }
    ensures many { IfOk result (λ bytes. length bytes.items ≡ size) }
    ensures told { WhereTold (F.holds files.old) name.now
        (λ bytes. IsReadWhole bytes size (result_map (λ v. v.items) result)) }
{
    let mut bytes = vec![in alloc; 0u8; size]?;
    match files.read_at(name, 0, &mut bytes) {
        Ok(count) => {
            if count == size {
                Ok(bytes)
            } else {
                Err(CsvFault::Cut { at: count as u64 })
            }
        }
        Err(_) => Err(CsvFault::Device),
    }
}

// What the bytes of a file give.
fn found_in(alloc: Global, bytes: &[u8], reader: &CsvReader, budget: u64) -> Result<Csv, CsvFault>
    requires some { 1 ≤ length reader.now.kinds.items.items }
    requires within { length bytes.now ≤ budget }
    ensures told { IsCsvAnswer (read_by reader.now budget (Some bytes.now)) result }
    ensures typed { IfOk result (λ csv. IsOfReader reader.now (datum csv.value)) }
    ensures causes { IfErr result IsOfRecords }
{
    Ok(Csv {
        value: set_in(alloc, bytes, reader)?,
        bytes: bytes.len() as u64,
    })
}

// The set of the values of the records.
fn set_in(alloc: Global, bytes: &[u8], reader: &CsvReader) -> Result<Value, CsvFault>
    requires some { 1 ≤ length reader.now.kinds.items.items }
    ensures causes { IfErr result IsOfRecords }
    ensures meant { GivesValue datum
        (set_of reader.now.header reader.now.kinds.items.items bytes.now) result }
    ensures typed { IfOk result (λ value. IsOfReader reader.now (datum value)) }
{
    let values = read_members(alloc, bytes, reader.header, &reader.kinds.items)?;
    Ok(Value::Members(set_of_values(alloc, values)?))
}
