//! Patterns.

ghost use Rattle.std.specs.Prelude.{◌≡◌};
ghost use Rattle.aql_syntax.specs.View.{pat_of, pats_of};
ghost use Rattle.aql_parse_spec.specs.Parsing.{name_at, pat_at, pats_at, enclosed_pats, pat_then};
ghost use Rattle.aql_parse.specs.Words.{Parses, Passes};

use crate::refusal::Refusal;
use crate::words::{Word, expect, name_in, next, skip_sign, string_in};
use aql_syntax::ast::Pattern;
use aql_syntax::build::tuple_pattern;
use aql_syntax::sign::Sign;
use aql_value::Str;
use std::alloc::Global;

/// A pattern of at most that depth.
#[cycle(pattern)]
#[tactic(auto, using(crate::proofs::Loops::pattern_steps))]
pub fn pattern<'a>(
    alloc: Global,
    source: &[u8],
    words: &'a [Word],
    depth: u64,
) -> Result<(Pattern, &'a [Word]), Refusal>
    ensures { Parses pat_of source.now words.now result (pat_at depth) }
{
    if depth == 0 {
        return Err(Refusal::Syntax);
    }
    match next(words) {
        Some((Word::Name(token), rest)) => Ok((
            Pattern::Name(name_in(alloc, source, token)?),
            rest,
        )),
        Some((Word::Number(n), rest)) => Ok((Pattern::Nat(n), rest)),
        Some((Word::Text(token), rest)) => Ok((
            Pattern::Text(string_in(alloc, source, token)?),
            rest,
        )),
        Some((Word::Mark(Sign::True), rest)) => Ok((Pattern::Bool(true), rest)),
        Some((Word::Mark(Sign::False), rest)) => Ok((Pattern::Bool(false), rest)),
        Some((Word::Mark(Sign::Underscore), rest)) => Ok((Pattern::Any, rest)),
        Some((Word::Mark(Sign::Backslash), rest)) => {
            let (name, rest) = name(alloc, source, rest)?;
            Ok((Pattern::Bind(name), rest))
        }
        Some((Word::Mark(Sign::Open), rest)) => {
            let (items, rest) = patterns(alloc, source, rest, depth - 1)?;
            let rest = expect(source, rest, Sign::Close)?;
            Ok((enclose(items), rest))
        }
        _ => Err(Refusal::Syntax),
    }
}

// One pattern or more, with commas between them.
#[cycle(pattern)]
#[tactic(auto, using(crate::proofs::Loops::patterns_steps))]
fn patterns<'a>(
    alloc: Global,
    source: &[u8],
    words: &'a [Word],
    depth: u64,
) -> Result<(Vec<Pattern>, &'a [Word]), Refusal>
    ensures { Parses (λ x. pats_of x.items) source.now words.now result
        (pats_at (pat_at depth) depth) }
{
    let mut items = Vec::new(alloc);
    let mut rest = words;
    for _turn in 0..depth {
        let (item, behind) = pattern(alloc, source, rest, depth)?;
        items.push(item)?;
        match next(behind) {
            Some((Word::Mark(Sign::Comma), more)) => {
                rest = more;
            }
            _ => return Ok((items, behind)),
        }
    }
    Err(Refusal::Syntax)
}

/// The words behind a pattern of at most that depth, of which no tree is made: none where none stands first.
#[cycle(past)]
#[tactic(auto, using(crate::proofs::Loops::past_steps))]
pub(crate) fn past_pattern<'a>(source: &[u8], words: &'a [Word], depth: u64) -> Option<&'a [Word]>
    ensures { Passes source.now words.now result (pat_at depth) }
{
    if depth == 0 {
        return None;
    }
    match next(words) {
        Some((Word::Name(_), rest)) => Some(rest),
        Some((Word::Number(_), rest)) => Some(rest),
        Some((Word::Text(_), rest)) => Some(rest),
        Some((Word::Mark(Sign::True), rest)) => Some(rest),
        Some((Word::Mark(Sign::False), rest)) => Some(rest),
        Some((Word::Mark(Sign::Underscore), rest)) => Some(rest),
        Some((Word::Mark(Sign::Backslash), rest)) => past_name(source, rest),
        Some((Word::Mark(Sign::Open), rest)) => {
            let rest = past_patterns(source, rest, depth - 1)?;
            skip_sign(source, rest, Sign::Close)
        }
        _ => None,
    }
}

// The words behind one pattern or more, with commas between them.
#[cycle(past)]
#[tactic(auto, using(crate::proofs::Loops::pasts_steps))]
fn past_patterns<'a>(source: &[u8], words: &'a [Word], depth: u64) -> Option<&'a [Word]>
    ensures { Passes source.now words.now result (pats_at (pat_at depth) depth) }
{
    let mut rest = words;
    for _turn in 0..depth {
        let behind = past_pattern(source, rest, depth)?;
        match next(behind) {
            Some((Word::Mark(Sign::Comma), more)) => {
                rest = more;
            }
            _ => return Some(behind),
        }
    }
    None
}

// The words behind a name.
#[tactic(auto, unfolding(aql_parse_spec::specs::Parsing::name_at))]
fn past_name<'a>(source: &[u8], words: &'a [Word]) -> Option<&'a [Word]>
    ensures { Passes source.now words.now result name_at }
{
    match next(words) {
        Some((Word::Name(_), rest)) => Some(rest),
        _ => None,
    }
}

// What stands in parentheses: one pattern, or a tuple of several.
#[tactic(auto, using(crate::proofs::Steps::enclosed_pats_many))]
fn enclose(items: Vec<Pattern>) -> Pattern
    ensures { pat_of result ≡ enclosed_pats (pats_of items.items) }
{
    if items.len() != 1 {
        return tuple_pattern(items);
    }
    let mut items = items;
    match items.pop() {
        Some(item) => item,
        None => tuple_pattern(items),
    }
}

/// A name.
#[tactic(auto, unfolding(aql_parse_spec::specs::Parsing::name_at))]
pub fn name<'a>(
    alloc: Global,
    source: &[u8],
    words: &'a [Word],
) -> Result<(Str, &'a [Word]), Refusal>
    ensures { Parses (λ x. x) source.now words.now result name_at }
{
    match next(words) {
        Some((Word::Name(token), rest)) => Ok((name_in(alloc, source, token)?, rest)),
        _ => Err(Refusal::Syntax),
    }
}

/// A pattern and then that sign.
#[tactic(auto, unfolding(aql_parse_spec::specs::Parsing::pat_then))]
pub(crate) fn pattern_then<'a>(
    alloc: Global,
    source: &[u8],
    words: &'a [Word],
    sign: Sign,
    depth: u64,
) -> Result<(Pattern, &'a [Word]), Refusal>
    ensures { Parses pat_of source.now words.now result (pat_then sign depth) }
{
    let (pattern, rest) = pattern(alloc, source, words, depth)?;
    let rest = expect(source, rest, sign)?;
    Ok((pattern, rest))
}
