//! Parts of expressions that hold none.

ghost use Rattle.std.specs.Prelude.{◌≡◌, Some, is_some};
ghost use Rattle.aql_syntax.specs.View.{tree_of, pat_of};
ghost use Rattle.aql_parse_spec.specs.Parsing as grammar;
ghost use Rattle.aql_parse_spec.specs.Parsing.{binder_at, def_at, pat_at, front_of, front_at};
ghost use Rattle.aql_parse.specs.Words.{lexemes, GivesReading, Parses};
ghost use Rattle.aql_parse.specs.Forms.{front_seen};
ghost use Rattle.aql_parse.specs.Parts.{leaf_at};

use crate::forms::Front;
use crate::patterns::{name, past_pattern, pattern, pattern_then};
use crate::refusal::Refusal;
use crate::words::{Word, expect, name_in, next, string_in};
use aql_syntax::ast::{Expr, Pattern};
use aql_syntax::sign::Sign;
use aql_value::Str;
use std::alloc::Global;

/// A backslash, a name and that sign.
#[tactic(auto, unfolding(aql_parse_spec::specs::Parsing::binder_at))]
pub fn binder<'a>(
    alloc: Global,
    source: &[u8],
    words: &'a [Word],
    sign: Sign,
) -> Result<(Str, &'a [Word]), Refusal>
    ensures { Parses (λ x. x) source.now words.now result (binder_at sign) }
{
    let rest = expect(source, words, Sign::Backslash)?;
    let (name, rest) = name(alloc, source, rest)?;
    let rest = expect(source, rest, sign)?;
    Ok((name, rest))
}

/// The word `val`, a pattern and `=`.
#[tactic(auto, unfolding(aql_parse_spec::specs::Parsing::def_at))]
pub fn definition<'a>(
    alloc: Global,
    source: &[u8],
    words: &'a [Word],
    depth: u64,
) -> Result<(Pattern, &'a [Word]), Refusal>
    ensures { Parses pat_of source.now words.now result (def_at depth) }
{
    let rest = expect(source, words, Sign::Val)?;
    pattern_then(alloc, source, rest, Sign::Equal, depth)
}

/// Two closing brackets.
#[tactic(auto, unfolding(aql_parse_spec::specs::Parsing::closed_twice))]
pub(crate) fn closed_twice<'a>(source: &[u8], words: &'a [Word]) -> Result<&'a [Word], Refusal>
    ensures { GivesReading (λ x. lexemes source.now x.now) result
        (grammar.closed_twice (lexemes source.now words.now)) }
{
    let rest = expect(source, words, Sign::CloseBracket)?;
    expect(source, rest, Sign::CloseBracket)
}

/// What a qualifier is before its expression. Where no generator and no match begins, it is a test.
#[tactic(auto, unfolding(aql_parse_spec::specs::Parsing::front_at))]
pub fn front<'a>(
    alloc: Global,
    source: &[u8],
    words: &'a [Word],
    depth: u64,
) -> Result<(Front, &'a [Word]), Refusal>
    ensures { GivesReading (λ x. (front_seen x.0, lexemes source.now x.1.now)) result
        (Some (front_at depth (lexemes source.now words.now))) }
{
    match pattern_front(alloc, source, words, depth) {
        Ok((front, rest)) => Ok((front, rest)),
        Err(Refusal::Memory) => Err(Refusal::Memory),
        Err(Refusal::Syntax) => match cells_front(alloc, source, words, depth) {
            Ok((front, rest)) => Ok((front, rest)),
            Err(Refusal::Memory) => Err(Refusal::Memory),
            Err(Refusal::Syntax) => Ok((Front::Test, words)),
        },
    }
}

// A pattern and `<-` or `==`. Its tree is made only where it stands there.
#[tactic(auto, using(crate::proofs::Steps::none_there))]
fn pattern_front<'a>(
    alloc: Global,
    source: &[u8],
    words: &'a [Word],
    depth: u64,
) -> Result<(Front, &'a [Word]), Refusal>
    ensures { GivesReading (λ x. (front_seen x.0, lexemes source.now x.1.now)) result
        (front_of (pat_at depth (lexemes source.now words.now))) }
{
    if !begins_with_pattern(source, words, depth) {
        return Err(Refusal::Syntax);
    }
    let (pattern, rest) = pattern(alloc, source, words, depth)?;
    match next(rest) {
        Some((Word::Mark(Sign::Arrow), rest)) => Ok((Front::Set(pattern), rest)),
        Some((Word::Mark(Sign::DoubleEqual), rest)) => Ok((Front::Match(pattern), rest)),
        _ => Err(Refusal::Syntax),
    }
}

// Whether a pattern stands first, and `<-` or `==` behind it.
#[tactic(auto, using(crate::proofs::Steps::front_behind))]
fn begins_with_pattern(source: &[u8], words: &[Word], depth: u64) -> bool
    ensures { result ≡ is_some (front_of (pat_at depth (lexemes source.now words.now))) }
{
    match past_pattern(source, words, depth) {
        Some(rest) => match next(rest) {
            Some((Word::Mark(Sign::Arrow), _)) => true,
            Some((Word::Mark(Sign::DoubleEqual), _)) => true,
            _ => false,
        },
        None => false,
    }
}

// A generator over an array, up to its expression.
fn cells_front<'a>(
    alloc: Global,
    source: &[u8],
    words: &'a [Word],
    depth: u64,
) -> Result<(Front, &'a [Word]), Refusal>
    ensures { Parses front_seen source.now words.now result (grammar.cells_front depth) }
{
    let rest = expect(source, words, Sign::OpenBracket)?;
    let (index, rest) = pattern(alloc, source, rest, depth)?;
    let rest = expect(source, rest, Sign::Colon)?;
    let (cell, rest) = pattern(alloc, source, rest, depth)?;
    let rest = expect(source, rest, Sign::CloseBracket)?;
    let rest = expect(source, rest, Sign::Arrow)?;
    Ok((Front::Cells(index, cell), rest))
}

/// An expression of one word.
#[tactic(auto, unfolding(crate::specs::Parts::leaf_at))]
pub fn leaf<'a>(
    alloc: Global,
    source: &[u8],
    words: &'a [Word],
) -> Result<(Expr, &'a [Word]), Refusal>
    ensures { Parses tree_of source.now words.now result leaf_at }
{
    match next(words) {
        Some((Word::Name(token), rest)) => Ok((Expr::Name(name_in(alloc, source, token)?), rest)),
        Some((Word::Number(n), rest)) => Ok((Expr::Nat(n), rest)),
        Some((Word::Text(token), rest)) => Ok((Expr::Text(string_in(alloc, source, token)?), rest)),
        Some((Word::Mark(Sign::True), rest)) => Ok((Expr::Bool(true), rest)),
        Some((Word::Mark(Sign::False), rest)) => Ok((Expr::Bool(false), rest)),
        _ => Err(Refusal::Syntax),
    }
}
