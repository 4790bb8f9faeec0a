//! The names of readers.

ghost use Rattle.std.specs.Prelude.{◌≡◌, Some, None};
ghost use Rattle.aql_syntax.specs.View.{reader_of};
ghost use Rattle.aql_parse_spec.specs.Parsing as grammar;
ghost use Rattle.aql_parse_spec.specs.Parsing.{kind_of_letter, kinds_of, rank_of};
ghost use Rattle.aql_parse.specs.Words.{GivesReading};

use crate::refusal::Refusal;
use aql_syntax::ast::{CsvReader, Kind, Kinds, Reader};
use aql_syntax::token::strip_front;
use std::alloc::Global;

/// The reader that has that name.
#[tactic(auto, unfolding(aql_parse_spec::specs::Parsing::reader_named))]
pub(crate) fn reader_named(alloc: Global, name: &[u8]) -> Result<Reader, Refusal>
    ensures { GivesReading reader_of result (grammar.reader_named name.now) }
{
    match strip_front(b"NETCDF", name) {
        Some(rest) => netcdf_reader(rest),
        None => match strip_front(b"CSV", name) {
            Some(rest) => csv_reader(alloc, rest),
            None => Err(Refusal::Syntax),
        },
    }
}

fn netcdf_reader(bytes: &[u8]) -> Result<Reader, Refusal>
    ensures { GivesReading reader_of result (grammar.netcdf_reader bytes.now) }
{
    match bytes.split_first() {
        None => Err(Refusal::Syntax),
        Some((first, rest)) => {
            if *first == b'Z' {
                match rank(rest) {
                    Some(rank) => Ok(Reader::Signed { rank }),
                    None => Err(Refusal::Syntax),
                }
            } else if *first == b'S' {
                match rank(rest) {
                    Some(rank) => Ok(Reader::Strided { rank }),
                    None => Err(Refusal::Syntax),
                }
            } else {
                match rank(bytes) {
                    Some(rank) => Ok(Reader::Plain { rank }),
                    None => Err(Refusal::Syntax),
                }
            }
        }
    }
}

// A digit from 1 to 8, alone.
fn rank(bytes: &[u8]) -> Option<u64>
    ensures { result ≡ rank_of bytes.now }
{
    let (first, rest) = bytes.split_first()?;
    if !rest.is_empty() {
        return None;
    }
    if *first > 48 && *first < 57 {
        Some((*first - 48) as u64)
    } else {
        None
    }
}

fn csv_reader(alloc: Global, bytes: &[u8]) -> Result<Reader, Refusal>
    ensures { GivesReading reader_of result (grammar.csv_reader bytes.now) }
{
    match bytes.split_first() {
        None => Err(Refusal::Syntax),
        Some((first, rest)) => {
            if *first == b'H' {
                records(alloc, true, rest)
            } else {
                records(alloc, false, bytes)
            }
        }
    }
}

// 1 to 8 fields.
#[tactic(auto, using(crate::proofs::Fields::record_steps))]
fn records(alloc: Global, header: bool, letters: &[u8]) -> Result<Reader, Refusal>
    ensures { GivesReading reader_of result (grammar.records_of header letters.now) }
{
    let items = kinds(alloc, letters)?;
    if items.len() == 0 {
        return Err(Refusal::Syntax);
    }
    if items.len() > 8 {
        return Err(Refusal::Syntax);
    }
    Ok(Reader::Csv(CsvReader {
        header,
        kinds: Kinds { items },
    }))
}

// The kind of each letter.
#[tactic(auto, using(crate::proofs::Fields::kind_steps))]
fn kinds(alloc: Global, letters: &[u8]) -> Result<Vec<Kind>, Refusal>
    ensures { GivesReading (λ v. v.items) result (kinds_of letters.now) }
{
    let mut found = Vec::new(alloc);
    let mut rest = letters;
    while let Some((first, later)) = rest.split_first() {
        match kind(*first) {
            Some(kind) => {
                found.push(kind)?;
            }
            None => return Err(Refusal::Syntax),
        }
        rest = later;
    }
    Ok(found)
}

fn kind(letter: u8) -> Option<Kind>
    ensures { result ≡ kind_of_letter letter }
{
    match letter {
        b'N' => Some(Kind::Number),
        b'S' => Some(Kind::Bytes),
        _ => None,
    }
}
