//! The shown line of a script, and the mark under it.
ghost use Rattle.std.specs.Prelude.{◌≤◌, length};

use crate::place::Place;
use aql_value::Memory;

/// A line as it is shown, the line under it, and how many bytes of a character of UTF-8 are still to come.
#[derive(Drop)]
pub(crate) struct Row {
    pub text: Vec<u8>,
    pub under: Vec<u8>,
    pub tail: u8,
}

/// Shows the bytes of a script from `begin` up to `last`, and under those of the place a mark.
pub(crate) fn push_row(
    script: &[u8],
    begin: u64,
    last: u64,
    place: &Place,
    row: &mut Row,
) -> Result<(), Memory>
    requires begin { begin ≤ last }
    requires last { last ≤ length script.now }
{
    let mut at = begin;
    let mut rest = &script[begin as usize..last as usize];
    while let Some((first, behind)) = rest.split_first() {
        let next = behind.first().copied().unwrap_or(0);
        push_byte(*first, next, row)?;
        push_under(*first, at, place, row)?;
        at = at.saturating_add(1);
        rest = behind;
    }
    if place.from >= last {
        row.under.push(b'^')?;
    }
    Ok(())
}

// Shows a byte. One that a terminal may obey is shown as `?`, but for a tab.
fn push_byte(byte: u8, next: u8, row: &mut Row) -> Result<(), Memory> {
    if row.tail > 0 && is_tail(byte) {
        row.tail = row.tail.saturating_sub(1);
        row.text.push(byte)?;
        return Ok(());
    }
    row.tail = tail_of(byte, next);
    row.text.push(shown(byte, row.tail))?;
    Ok(())
}

// Marks the byte at this offset, or puts a blank under it, up to the end of the mark. The bytes of a character of UTF-8
// behind its first have no column.
fn push_under(byte: u8, at: u64, place: &Place, row: &mut Row) -> Result<(), Memory> {
    if is_tail(byte) && row.tail_is_shown() {
        return Ok(());
    }
    let end = place.to.max(place.from.saturating_add(1));
    if at >= end {
        return Ok(());
    }
    if byte == b'\t' {
        row.under.push(b'\t')?;
    } else if at < place.from {
        row.under.push(b' ')?;
    } else {
        row.under.push(b'^')?;
    }
    Ok(())
}

impl Row {
    // Whether the last byte was shown as it is, behind the first of its character.
    fn tail_is_shown(&self) -> bool {
        match self.text.last() {
            Some(last) => is_tail(*last),
            None => false,
        }
    }
}

// The bytes of a character of UTF-8 behind its first.
fn is_tail(byte: u8) -> bool {
    byte >= 0x80 && byte <= 0xbf
}

// How many bytes of its character follow a byte: none where it begins none, or a control character.
fn tail_of(byte: u8, next: u8) -> u8 {
    match byte {
        0xc2 => { if next >= 0xa0 { 1 } else { 0 } }
        0xc3..=0xdf => 1,
        0xe0..=0xef => 2,
        0xf0..=0xf4 => 3,
        _ => 0,
    }
}

// What stands for a byte that so many of its character follow.
fn shown(byte: u8, tail: u8) -> u8 {
    if tail > 0 || byte == b'\t' || (byte >= 0x20 && byte <= 0x7e) {
        byte
    } else {
        b'?'
    }
}
