//! The picture of a fault.

use crate::cause::Cause;
use crate::place::{Place, line_end};
use crate::row::{Row, push_row};
use crate::sentence::{push_number, push_sentence};
use aql_value::Memory;
use std::alloc::Global;

/// The most bytes of a line that are shown.
const SHOWN: u64 = 100;

/// The most bytes before the mark, where a line is cut.
const BEFORE: u64 = 40;

const BLANKS: &[u8] = b"                                                                ";

/// The line and the column, the line's text, the mark under it, and the sentence.
pub(crate) fn picture_text(
    alloc: Global,
    script: &[u8],
    place: &Place,
    cause: &Cause,
) -> Result<Vec<u8>, Memory> {
    let mut text = lines(alloc, script, place)?;
    push_sentence(script, place, cause, &mut text)?;
    text.extend_from_slice(b"\n")?;
    Ok(text)
}

/// The lines of a picture up to the sentence: the line and the column, the line's text and the mark under it.
pub(crate) fn lines(alloc: Global, script: &[u8], place: &Place) -> Result<Vec<u8>, Memory> {
    let mut row = Row {
        text: Vec::new(alloc),
        under: Vec::new(alloc),
        tail: 0,
    };
    push_line(script, place, &mut row)?;
    row.text.extend_from_slice(b"\n")?;
    row.text.extend_from_slice(&row.under)?;
    row.text.extend_from_slice(b"\naql: ")?;
    Ok(row.text)
}

// The line and the column, and the line with the mark, cut about it where it is long.
fn push_line(script: &[u8], place: &Place, row: &mut Row) -> Result<(), Memory> {
    push_number(place.line, &mut row.text)?;
    row.text.extend_from_slice(b":")?;
    push_number(place.column, &mut row.text)?;
    row.text.extend_from_slice(b": ")?;
    let count = script.len() as u64;
    let from = place.from.min(count);
    let start = from.saturating_sub(place.column.saturating_sub(1));
    let end = line_end(script, from);
    if end.saturating_sub(start) <= SHOWN {
        push_head(row)?;
        return push_row(script, start, end, place, row);
    }
    let begin = start.max(from.saturating_sub(BEFORE));
    let last = end.min(begin.saturating_add(SHOWN));
    if begin > start {
        row.text.extend_from_slice(b"..")?;
    }
    push_head(row)?;
    push_row(script, begin, last, place, row)?;
    if last < end {
        row.text.extend_from_slice(b"..")?;
    }
    Ok(())
}

// Blanks under what stands before the line's text.
fn push_head(row: &mut Row) -> Result<(), Memory> {
    let count = row.text.len().min(BLANKS.len());
    row.under.extend_from_slice(&BLANKS[..count])?;
    Ok(())
}
