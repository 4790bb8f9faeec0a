//! Declarations.

ghost use Rattle.aql_syntax.specs.View.{tree_of, reader_of, decl_of};
ghost use Rattle.aql_parse_spec.specs.Scripts.{bare_at};
ghost use Rattle.aql_parse_spec.specs.Parsing.{decl_at, val_at, macro_at, readval_at, ended_at, reader_at};
ghost use Rattle.aql_parse.specs.Words.{Parses};

use crate::expressions::parse;
use crate::parts::binder;
use crate::patterns::pattern_then;
use crate::readers::reader_named;
use crate::refusal::Refusal;
use crate::words::{Word, expect, next};
use aql_lex::scan::text_at;
use aql_syntax::ast::{Decl, Expr, Reader};
use aql_syntax::sign::Sign;
use std::alloc::Global;

/// A declaration and its semicolon.
#[tactic(auto, unfolding(aql_parse_spec::specs::Parsing::decl_at))]
pub fn declaration<'a>(
    alloc: Global,
    source: &[u8],
    words: &'a [Word],
    depth: u64,
) -> Result<(Decl, &'a [Word]), Refusal>
    ensures { Parses decl_of source.now words.now result (decl_at depth) }
{
    match next(words) {
        Some((Word::Mark(Sign::Val), rest)) => val_declaration(alloc, source, rest, depth),
        Some((Word::Mark(Sign::Macro), rest)) => macro_declaration(alloc, source, rest, depth),
        Some((Word::Mark(Sign::Readval), rest)) => read_declaration(alloc, source, rest, depth),
        _ => bare_declaration(alloc, source, words, depth),
    }
}

// Behind the word `val`.
#[tactic(auto, unfolding(aql_parse_spec::specs::Parsing::val_at))]
fn val_declaration<'a>(
    alloc: Global,
    source: &[u8],
    words: &'a [Word],
    depth: u64,
) -> Result<(Decl, &'a [Word]), Refusal>
    ensures { Parses decl_of source.now words.now result (val_at depth) }
{
    let (name, rest) = binder(alloc, source, words, Sign::Equal)?;
    let (expr, rest) = expression_to_semicolon(alloc, source, rest, depth)?;
    Ok((Decl::Val { name, expr }, rest))
}

// Behind the word `macro`.
#[tactic(auto, unfolding(aql_parse_spec::specs::Parsing::macro_at))]
fn macro_declaration<'a>(
    alloc: Global,
    source: &[u8],
    words: &'a [Word],
    depth: u64,
) -> Result<(Decl, &'a [Word]), Refusal>
    ensures { Parses decl_of source.now words.now result (macro_at depth) }
{
    let (name, rest) = binder(alloc, source, words, Sign::Equal)?;
    let rest = expect(source, rest, Sign::Fn)?;
    let (pattern, rest) = pattern_then(alloc, source, rest, Sign::FatArrow, depth)?;
    let (body, rest) = expression_to_semicolon(alloc, source, rest, depth)?;
    Ok((
        Decl::Macro {
            name,
            pattern,
            body,
        },
        rest,
    ))
}

// Behind the word `readval`.
#[tactic(auto, unfolding(aql_parse_spec::specs::Parsing::readval_at))]
fn read_declaration<'a>(
    alloc: Global,
    source: &[u8],
    words: &'a [Word],
    depth: u64,
) -> Result<(Decl, &'a [Word]), Refusal>
    ensures { Parses decl_of source.now words.now result (readval_at depth) }
{
    let (name, rest) = binder(alloc, source, words, Sign::Using)?;
    let (reader, rest) = reader(alloc, source, rest)?;
    let rest = expect(source, rest, Sign::At)?;
    let (expr, rest) = expression_to_semicolon(alloc, source, rest, depth)?;
    Ok((Decl::Read { name, reader, expr }, rest))
}

fn bare_declaration<'a>(
    alloc: Global,
    source: &[u8],
    words: &'a [Word],
    depth: u64,
) -> Result<(Decl, &'a [Word]), Refusal>
    ensures { Parses decl_of source.now words.now result (bare_at depth) }
{
    let (expr, rest) = expression_to_semicolon(alloc, source, words, depth)?;
    Ok((Decl::Bare { expr }, rest))
}

// An expression and a semicolon.
#[tactic(auto, unfolding(aql_parse_spec::specs::Parsing::ended_at))]
fn expression_to_semicolon<'a>(
    alloc: Global,
    source: &[u8],
    words: &'a [Word],
    depth: u64,
) -> Result<(Expr, &'a [Word]), Refusal>
    ensures { Parses tree_of source.now words.now result (ended_at depth) }
{
    let (expr, rest) = parse(alloc, source, 8, words, depth)?;
    let rest = expect(source, rest, Sign::Semicolon)?;
    Ok((expr, rest))
}

// The reader that a name stands for.
#[tactic(auto, unfolding(aql_parse_spec::specs::Parsing::reader_at, aql_parse_spec::specs::Parsing::name_at))]
fn reader<'a>(
    alloc: Global,
    source: &[u8],
    words: &'a [Word],
) -> Result<(Reader, &'a [Word]), Refusal>
    ensures { Parses reader_of source.now words.now result reader_at }
{
    match next(words) {
        Some((Word::Name(token), rest)) => {
            let reader = reader_named(alloc, text_at(source, token))?;
            Ok((reader, rest))
        }
        _ => Err(Refusal::Syntax),
    }
}
