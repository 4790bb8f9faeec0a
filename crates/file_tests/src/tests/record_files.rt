//! Small files of records, and what is read of them.
use crate::tests::devices::{name_of, sure};
use aql_csv::{Csv, CsvFault, read_csv};
use aql_outside::Files;
use aql_syntax::ast::{CsvReader, Kind, Kinds};
use aql_value::made::both;
use aql_value::{Memory, Str};
use std::alloc::Global;

/// Three records, of which two are equal, in 18 bytes.
pub const PAIRS: &[u8] = b"1,ab\n2,\"c,d\"\n1,ab\n";

// The kind of a field.
fn kind_of(letter: u8) -> Option<Kind> {
    match letter {
        b'H' => None,
        b'N' => Some(Kind::Number),
        _ => Some(Kind::Bytes),
    }
}

fn put_kind(items: &mut Vec<Kind>, kind: Option<Kind>) -> Result<(), Memory> {
    if let Some(kind) = kind {
        items.push(kind)?;
    }
    Ok(())
}

fn kinds_of(alloc: Global, letters: &[u8]) -> Result<Vec<Kind>, Memory> {
    let mut items = Vec::new(alloc);
    for letter in letters {
        put_kind(&mut items, kind_of(*letter))?;
    }
    Ok(items)
}

/// The reader of these letters: `N` for a number, `H` for a first record that names the fields, else a string.
pub fn reader_of(alloc: Global, letters: &str) -> Result<CsvReader, Memory> {
    let items = kinds_of(alloc, letters.as_bytes())?;
    Ok(CsvReader {
        header: letters.as_bytes().contains(&b'H'),
        kinds: Kinds { items },
    })
}

fn read_kinds<F: Files>(
    alloc: Global,
    files: &mut F,
    name: &Str,
    reader: &CsvReader,
    budget: u64,
) -> Result<Csv, CsvFault> {
    if reader.kinds.items.is_empty() {
        return Err(CsvFault::Memory);
    }
    read_csv(alloc, files, name, reader, budget)
}

/// What is read of the file of a name.
pub(crate) fn read_file<F: Files>(
    alloc: Global,
    files: &mut F,
    name: &[u8],
    letters: &str,
    budget: u64,
) -> Result<Csv, CsvFault> {
    let (name, reader) = both(name_of(alloc, name), reader_of(alloc, letters))?;
    let found = read_kinds(alloc, files, &name, &reader, budget);
    drop(name);
    drop(reader);
    found
}

/// What is read of a file of these bytes.
pub(crate) fn read_bytes(
    alloc: Global,
    bytes: Result<Vec<u8>, Memory>,
    letters: &str,
    budget: u64,
) -> Result<Csv, CsvFault> {
    let mut files = sure(alloc, bytes)?;
    let found = read_file(alloc, &mut files, b"s", letters, budget);
    drop(files);
    found
}

/// The fault of a file, where it has one.
pub(crate) fn fault_of(found: Result<Csv, CsvFault>) -> Option<CsvFault> {
    match found {
        Ok(csv) => {
            drop(csv);
            None
        }
        Err(fault) => Some(fault),
    }
}

pub fn bytes_of(alloc: Global, bytes: &[u8]) -> Result<Vec<u8>, Memory> {
    Ok(Vec::from_slice(alloc, bytes)?)
}
