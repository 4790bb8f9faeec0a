//! The lines of faults.
ghost use Rattle.std.specs.Prelude.{◌≡◌, ◌++◌, codes, decimal, IfOk, OnOk};
ghost use Rattle.aql_run.specs.Lines.{at_byte, in_declaration, of_file, of_table, kind_text, table_text};

use crate::sample::push_number;
use aql_csv::CsvFault;
use aql_value::Memory;
use cdf_header::CdfFault;
use itoa::Buffer;
use std::alloc::Global;

/// `fault WORD at byte K`.
pub(crate) fn byte_line(alloc: Global, word: &[u8], k: u64) -> Result<Vec<u8>, Memory>
    ensures { IfOk result (λ line. line.items ≡ at_byte word.now k) }
{
    let mut line = Vec::from_slice(alloc, b"fault ")?;
    line.extend_from_slice(word)?;
    line.extend_from_slice(b" at byte ")?;
    push_number(k, &mut line)?;
    line.extend_from_slice(b"\n")?;
    Ok(line)
}

/// `fault WORD in declaration N`.
pub(crate) fn declaration_line(alloc: Global, word: &[u8], n: u64) -> Result<Vec<u8>, Memory>
    ensures { IfOk result (λ line. line.items ≡ in_declaration word.now n) }
{
    let mut line = Vec::from_slice(alloc, b"fault ")?;
    line.extend_from_slice(word)?;
    line.extend_from_slice(b" in declaration ")?;
    push_number(n, &mut line)?;
    line.extend_from_slice(b"\n")?;
    Ok(line)
}

/// `fault file in declaration N: KIND`.
pub(crate) fn file_line(alloc: Global, n: u64, fault: &CdfFault) -> Result<Vec<u8>, Memory>
    ensures { IfOk result (λ line. line.items ≡ of_file n fault.now) }
{
    let mut line = Vec::from_slice(alloc, b"fault file in declaration ")?;
    push_number(n, &mut line)?;
    line.extend_from_slice(b": ")?;
    push_kind(fault, &mut line)?;
    line.extend_from_slice(b"\n")?;
    Ok(line)
}

/// The same of a file of records.
pub(crate) fn table_line(alloc: Global, n: u64, fault: &CsvFault) -> Result<Vec<u8>, Memory>
    ensures { IfOk result (λ line. line.items ≡ of_table n fault.now) }
{
    let mut line = Vec::from_slice(alloc, b"fault file in declaration ")?;
    push_number(n, &mut line)?;
    line.extend_from_slice(b": ")?;
    push_table_kind(fault, &mut line)?;
    line.extend_from_slice(b"\n")?;
    Ok(line)
}

fn push_table_kind(fault: &CsvFault, line: &mut Vec<u8>) -> Result<(), Memory>
    ensures { OnOk result (line.new.items ≡ line.old.items ++ table_text fault.now) }
{
    match fault {
        CsvFault::Absent => push_words(b"absent", line),
        CsvFault::Long { bytes: _ } => Ok(()),
        CsvFault::Cut { at } => push_numbered(b"cut at ", u128::from(*at), line),
        CsvFault::Fields { row, found } => push_two(b"fields ", *found, b" in record ", *row, line),
        CsvFault::Number { row, field } => {
            push_two(b"number in field ", *field, b" of record ", *row, line)
        }
        CsvFault::Device => Ok(()),
        CsvFault::Memory => Ok(()),
    }
}

fn push_kind(fault: &CdfFault, line: &mut Vec<u8>) -> Result<(), Memory>
    ensures { OnOk result (line.new.items ≡ line.old.items ++ kind_text fault.now) }
{
    match fault {
        CdfFault::Absent => push_words(b"absent", line),
        CdfFault::NotClassic => push_words(b"not classic", line),
        CdfFault::Version { found } => push_numbered(b"version ", u128::from(*found), line),
        CdfFault::Malformed { at } => push_numbered(b"malformed at ", u128::from(*at), line),
        CdfFault::TooMany { list } => push_numbered(b"too many in list ", u128::from(*list), line),
        CdfFault::NoVariable => push_words(b"no variable", line),
        CdfFault::Rank { found } => push_numbered(b"rank ", u128::from(*found), line),
        CdfFault::FloatVariable => push_words(b"float variable", line),
        CdfFault::Stride { dimension } => push_numbered(b"stride ", u128::from(*dimension), line),
        CdfFault::Outside { dimension } => {
            push_numbered(b"outside dimension ", u128::from(*dimension), line)
        }
        CdfFault::Cut { at } => push_numbered(b"cut at ", *at, line),
        CdfFault::Negative { cell } => push_numbered(b"negative cell ", u128::from(*cell), line),
        CdfFault::Device => Ok(()),
        CdfFault::Memory => Ok(()),
    }
}

fn push_words(words: &[u8], line: &mut Vec<u8>) -> Result<(), Memory>
    ensures { OnOk result (line.new.items ≡ line.old.items ++ words.now) }
{
    line.extend_from_slice(words)?;
    Ok(())
}

fn push_two(words: &[u8], n: u64, between: &[u8], m: u64, line: &mut Vec<u8>) -> Result<(), Memory>
    ensures { OnOk result (line.new.items ≡ line.old.items
        ++ (words.now ++ (decimal n ++ (between.now ++ decimal m)))) }
{
    line.extend_from_slice(words)?;
    push_number(n, line)?;
    line.extend_from_slice(between)?;
    push_number(m, line)?;
    Ok(())
}

fn push_numbered(words: &[u8], n: u128, line: &mut Vec<u8>) -> Result<(), Memory>
    ensures { OnOk result (line.new.items ≡ line.old.items ++ (words.now ++ decimal n)) }
{
    line.extend_from_slice(words)?;
    let mut buffer = Buffer::new();
    line.extend_from_slice(buffer.format(n).as_bytes())?;
    Ok(())
}
