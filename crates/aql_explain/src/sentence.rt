//! The sentences.
ghost use Rattle.std.specs.Prelude.{◌≡◌, ◌++◌, decimal, OnOk};

use crate::cause::Cause;
use crate::place::Place;
use aql_csv::CsvFault;
use aql_script::ScriptFault;
use aql_value::Memory;
use cdf_header::CdfFault;
use itoa::Buffer;

/// Says what is the matter.
pub(crate) fn push_sentence(
    script: &[u8],
    place: &Place,
    cause: &Cause,
    text: &mut Vec<u8>,
) -> Result<(), Memory> {
    match cause {
        Cause::Script { fault } => push_words(script_words(script, place, *fault), text),
        Cause::Turns { .. } => push_words(
            b"its turns pass the budget of this run: `--budget` goes to 50000000",
            text,
        ),
        Cause::Cells { cells, .. } => push_between(
            b"it asks for ",
            *cells,
            b" cells, or bytes of a file of records, past the budget of this run: `--budget` goes to 50000000",
            text,
        ),
        Cause::File { fault, .. } => push_file(fault, text),
        Cause::Table { fault, .. } => push_table(fault, text),
        Cause::Device { .. } => push_words(b"a call of the system on its file failed", text),
    }
}

// Of the script.
fn script_words(script: &[u8], place: &Place, fault: ScriptFault) -> &'static [u8] {
    match fault {
        ScriptFault::Text { at: _ } => text_words(byte_at(script, place.from)),
        ScriptFault::Deep { at: _ } => {
            b"the 401st step into brackets and behind operators: name parts of this expression by `val`"
        }
        ScriptFault::Syntax { declaration: _ } => b"",
        ScriptFault::Type { declaration: _ } => b"the declaration that begins here has no type",
        ScriptFault::Large { declaration: _ } => {
            b"with its macros put in place it has more than 20000 nodes or 1000 levels: name parts of it by `val`"
        }
        ScriptFault::Memory => b"",
    }
}

// The byte of a script at an offset, 0 behind its end.
fn byte_at(script: &[u8], at: u64) -> u8 {
    if at < script.len() as u64 {
        script[at as usize]
    } else {
        0
    }
}

// Where no token begins, by the byte.
fn text_words(byte: u8) -> &'static [u8] {
    match byte {
        b'"' => {
            b"this string is not closed in its line, or `\\` stands in it for no byte: there are `\\\"`, `\\\\` and `\\x0a`"
        }
        b'\'' => b"strings stand in `\"`",
        b'(' => b"this comment is not closed: it goes to the next `*)`, and comments do not nest",
        b'0'..=b'9' => {
            b"this number is past the greatest one, 340282366920938463463374607431768211455"
        }
        b'.' => b"there are whole numbers alone",
        b'&' => b"`and` is a word",
        b'#' => b"comments stand between `(*` and `*)`",
        b'^' => b"there is no power: write a product",
        _ => b"no sign, word, number or string begins here",
    }
}

// Of a netCDF file.
fn push_file(fault: &CdfFault, text: &mut Vec<u8>) -> Result<(), Memory> {
    match fault {
        CdfFault::Absent => push_words(b"there is no file of this name", text),
        CdfFault::NotClassic => push_words(
            b"the file does not begin with `CDF`, as netCDF classic files do",
            text,
        ),
        CdfFault::Version { found } => push_between(
            b"the file is netCDF of version ",
            u128::from(*found),
            b", and 1, 2 and 5 are read",
            text,
        ),
        CdfFault::Malformed { at } => push_between(
            b"the field at byte ",
            u128::from(*at),
            b" of the file's header is none that the format has there",
            text,
        ),
        CdfFault::TooMany { list } => push_words(list_words(*list), text),
        CdfFault::NoVariable => push_words(b"the file has no variable of this name", text),
        CdfFault::Rank { found } => push_between(
            b"the variable has ",
            u128::from(*found),
            b" dimensions: the reader takes another number of them",
            text,
        ),
        CdfFault::FloatVariable => push_words(
            b"the variable's numbers are floating, and whole ones are read",
            text,
        ),
        CdfFault::Stride { dimension } => push_between(
            b"the stride of dimension ",
            u128::from(*dimension),
            b" is 0",
            text,
        ),
        CdfFault::Outside { dimension } => push_between(
            b"the start and the count pass the end of dimension ",
            u128::from(*dimension),
            b" of the variable",
            text,
        ),
        CdfFault::Cut { at } => push_between(
            b"the file ends before the cell at byte ",
            *at,
            b", so that a part of it is lacking",
            text,
        ),
        CdfFault::Negative { cell } => push_between(
            b"cell ",
            u128::from(*cell),
            b" of those asked for, counted from 0, is below 0, and no number here is",
            text,
        ),
        CdfFault::Device => push_words(b"a call of the system on the file failed", text),
        CdfFault::Memory => push_words(b"memory is wanting", text),
    }
}

// A list of a header that has more entries than are taken.
fn list_words(list: u8) -> &'static [u8] {
    match list {
        1 => b"the file has more dimensions than are taken",
        2 => b"the file has more attributes than are taken",
        3 => b"the file has more variables than are taken",
        _ => b"a variable of the file has more dimensions than are taken",
    }
}

// Of a file of records.
fn push_table(fault: &CsvFault, text: &mut Vec<u8>) -> Result<(), Memory> {
    match fault {
        CsvFault::Absent => push_words(b"there is no file of this name", text),
        CsvFault::Long { bytes } => {
            push_between(b"the file has ", u128::from(*bytes), b" bytes", text)
        }
        CsvFault::Cut { at } => push_between(
            b"the file ends before byte ",
            u128::from(*at),
            b", so that a part of it is lacking",
            text,
        ),
        CsvFault::Fields { row, found } => push_record(
            *row,
            *found,
            b" fields, and the reader wants another number of them",
            text,
        ),
        CsvFault::Number { row, field } => push_field(*row, *field, text),
        CsvFault::Device => push_words(b"a call of the system on the file failed", text),
        CsvFault::Memory => push_words(b"memory is wanting", text),
    }
}

fn push_record(row: u64, found: u64, words: &[u8], text: &mut Vec<u8>) -> Result<(), Memory> {
    push_between(b"record ", u128::from(row), b" of the file has ", text)?;
    push_between(b"", u128::from(found), words, text)
}

fn push_field(row: u64, field: u64, text: &mut Vec<u8>) -> Result<(), Memory> {
    push_between(b"field ", u128::from(field), b" of record ", text)?;
    push_between(b"", u128::from(row), b" of the file is no number", text)
}

/// Words as they are.
pub(crate) fn push_words(words: &[u8], text: &mut Vec<u8>) -> Result<(), Memory>
    ensures { OnOk result (text.new.items ≡ text.old.items ++ words.now) }
{
    text.extend_from_slice(words)?;
    Ok(())
}

// A number between words.
fn push_between(before: &[u8], n: u128, behind: &[u8], text: &mut Vec<u8>) -> Result<(), Memory>
    ensures { OnOk result (text.new.items ≡ text.old.items
        ++ (before.now ++ (decimal n ++ behind.now))) }
{
    text.extend_from_slice(before)?;
    let mut buffer = Buffer::new();
    text.extend_from_slice(buffer.format(n).as_bytes())?;
    text.extend_from_slice(behind)?;
    Ok(())
}

/// A number in decimal.
pub(crate) fn push_number(n: u64, text: &mut Vec<u8>) -> Result<(), Memory>
    ensures { OnOk result (text.new.items ≡ text.old.items ++ decimal n) }
{
    let mut buffer = Buffer::new();
    text.extend_from_slice(buffer.format(n).as_bytes())?;
    Ok(())
}
