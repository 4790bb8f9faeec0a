// The values of the records of bytes.
ghost use Rattle.std.specs.Prelude.{◌≡◌, ◌≤◌, ◌∷◌, ◌++◌, [], map, length, IfOk, OnOk, IfErr};
ghost use Rattle.csv.specs.Reading.{error_kind};
ghost use Rattle.csv.specs.Records.{fields_of};
ghost use Rattle.aql_value.specs.Canon.{canon};
ghost use Rattle.aql_value.specs.Meaning.{datum};
ghost use Rattle.aql_csv.specs.Records.{IsReadError};
ghost use Rattle.aql_csv.specs.Rows.{AddsValues, GivesValue, IsOfRecords, FailsWith, field_value, field_values, or_fault, record_value, result_map, row, rows};
ghost use Rattle.aql_csv.specs.declared.fault.CsvFault.TheVariants as faults;

use crate::fault::CsvFault;
use crate::number::number;
use crate::sets::set_of_values;
use aql_syntax::ast::Kind;
use aql_value::{Items, Parts, Str, Value};
use csv::{ByteRecord, Error, ErrorKind, ReaderBuilder};
use std::alloc::Global;

// The least number of values that are made a set before the last record is read.
const FEW: usize = 65536;

/// Values that make the same set as those of the records of the bytes, or the fault of the first
/// record that has one. They are made a set now and then, so that many records with few different
/// values take little memory.
pub(crate) fn read_members(
    alloc: Global,
    bytes: &[u8],
    header: bool,
    kinds: &[Kind],
) -> Result<Items, CsvFault>
    requires some { 1 ≤ length kinds.now }
    ensures causes { IfErr result IsOfRecords }
    ensures meant { GivesValue canon (result_map canon (rows header kinds.now bytes.now)) result }
{
    let mut reader = ReaderBuilder::new()
        .has_headers(false)
        .flexible(true)
        .from_reader(alloc, bytes);
    let mut entry = ByteRecord::new(alloc);
    let mut values = Vec::new(alloc);
    let mut place: u64 = 1;
    let mut most: usize = FEW;
    'records: loop {
        match reader.read_byte_record(&mut entry) {
            Ok(true) => {}
            Ok(false) => return Ok(Items { items: values }),
            Err(error) => return Err(memory_fault(&error)),
        }
        add_row(alloc, &mut values, &entry, header, place, kinds)?;
        values = kept_small(alloc, values, &mut most)?;
        place += 1;
    }
}

// The fault for an error of the reader, over bytes in memory and where records may have any length:
// memory was wanting. The reader's contract does not rule out that reading the bytes fails; that
// counts as the same.
fn memory_fault(error: &Error) -> CsvFault
    requires { IsReadError (error_kind error.now) }
    ensures { result ≡ faults.Memory }
{
    match error.kind() {
        ErrorKind::Io(_) => CsvFault::Memory,
        ErrorKind::OutOfMemory => CsvFault::Memory,
        _ => unreachable!(),
    }
}

// The members of the values, each once, where there are as many values as `most`, which then
// becomes twice as many as are left; else the values as they are. `most` grows only here: if it
// grew with each record, no set would be made.
#[tactic(auto, using(aql_value::specs::Laws::Set::canon_canon))]
fn kept_small(alloc: Global, values: Vec<Value>, most: &mut usize) -> Result<Vec<Value>, CsvFault>
    ensures same { IfOk result
        (λ kept. canon (map datum kept.items) ≡ canon (map datum values.items)) }
    ensures cause { IfErr result (λ e. e ≡ faults.Memory) }
{
    if values.len() < *most {
        return Ok(values);
    }
    let members = set_of_values(alloc, Items { items: values })?;
    let kept = members.into_items().items;
    *most = kept.len().saturating_mul(2).max(FEW);
    Ok(kept)
}

// AddsValues the value of record number `place`, unless it names the fields.
fn add_row(
    alloc: Global,
    values: &mut Vec<Value>,
    entry: &ByteRecord,
    header: bool,
    place: u64,
    kinds: &[Kind],
) -> Result<(), CsvFault>
    requires some { 1 ≤ length kinds.now }
    requires counted { 1 ≤ place }
    ensures causes { IfErr result IsOfRecords }
    ensures added { OnOk result
        (AddsValues header kinds.now place (fields_of entry.now) values.old.items
        values.new.items) }
    ensures stopped { IfErr result
        (FailsWith header kinds.now place (fields_of entry.now) values.old.items) }
{
    if header && place == 1 {
        return Ok(());
    }
    let value = row_value(alloc, entry, place, kinds)?;
    keep(values, value)
}

// AddsValues a value.
fn keep(values: &mut Vec<Value>, value: Value) -> Result<(), CsvFault>
    ensures kept { OnOk result
        (map datum values.new.items ≡ map datum values.old.items ++ (datum value ∷ [])) }
    ensures cause { IfErr result (λ e. e ≡ faults.Memory) }
{
    values.push(value)?;
    Ok(())
}

// The value of record number `place`.
fn row_value(
    alloc: Global,
    entry: &ByteRecord,
    place: u64,
    kinds: &[Kind],
) -> Result<Value, CsvFault>
    requires some { 1 ≤ length kinds.now }
    ensures causes { IfErr result IsOfRecords }
    ensures meant { GivesValue datum (row kinds.now place (fields_of entry.now)) result }
{
    let found = entry.len();
    if found != kinds.len() {
        return Err(CsvFault::Fields {
            row: place,
            found: found as u64,
        });
    }
    let values = field_values(alloc, entry, place, kinds)?;
    Ok(record_value(values))
}

// The value of a record: that of its one field, or a tuple.
fn record_value(values: Items) -> Value
    requires { 1 ≤ length values }
    ensures { datum result ≡ record_value values }
{
    let mut items = values.items;
    if items.len() == 1 {
        return match items.pop() {
            Some(value) => value,
            None => unreachable!(),
        };
    }
    match Parts::new(Items { items }) {
        Some(parts) => Value::Row(parts),
        None => unreachable!(),
    }
}

// The values of the fields, each by its kind.
fn field_values(
    alloc: Global,
    entry: &ByteRecord,
    place: u64,
    kinds: &[Kind],
) -> Result<Items, CsvFault>
    requires same { length (fields_of entry.now) ≡ length kinds.now }
    ensures meant { GivesValue (λ items. items)
        (field_values place 1 kinds.now (fields_of entry.now)) result }
    ensures causes { IfErr result IsOfRecords }
    ensures many { IfOk result (λ items. length items ≡ length kinds.now) }
{
    let mut values = Vec::new(alloc);
    for i in 0..kinds.len() {
        let value = match entry.get(i) {
            Some(field) => field_value(alloc, kinds[i], field, place, i as u64 + 1)?,
            None => unreachable!(),
        };
        keep(&mut values, value)?;
    }
    Ok(Items { items: values })
}

// The value of field number `column` of record number `row`, by its kind.
fn field_value(
    alloc: Global,
    kind: Kind,
    field: &[u8],
    row: u64,
    column: u64,
) -> Result<Value, CsvFault>
    ensures causes { IfErr result IsOfRecords }
    ensures meant { GivesValue datum
        (or_fault (faults.Number row column) (field_value kind field.now)) result }
{
    match kind {
        Kind::Number => match number(field) {
            Some(n) => Ok(Value::Nat(n)),
            None => Err(CsvFault::Number { row, field: column }),
        },
        Kind::Bytes => Ok(Value::Text(Str {
            bytes: Vec::from_slice(alloc, field)?,
        })),
    }
}
