//! Expressions by levels, by recursive descent.
//!
//! Each function is one of the functions on lists of `aql_parse_spec`, or the part of one that its contract names. `depth`
//! bounds how deep a reading may still go, and how many turns a loop may take.

ghost use Rattle.std.specs.Prelude.{◌<◌, ◌≤◌, ◌-◌};
ghost use Rattle.aql_syntax.specs.View.{tree_of};
ghost use Rattle.aql_parse_spec.specs.Parsing as grammar;
ghost use Rattle.aql_parse_spec.specs.Parsing.{parse_at, whole_at, level_at, chain_rest};
ghost use Rattle.aql_parse.specs.Words.{Parses};
ghost use Rattle.aql_parse.specs.Forms.{joiner_of};
ghost use Rattle.aql_parse.specs.Cycle.{joined_at};
ghost use Rattle.aql_parse.specs.Constructs.{progress_at};

use crate::constructs::{Construct, Progress, level_of, read_on};
use crate::forms::{binary, operator_at, second_level, turns};
use crate::primaries::{application, default_rest};
use crate::refusal::Refusal;
use crate::words::{Word, skip_sign};
use aql_syntax::ast::Expr;
use aql_syntax::nodes::Operator;
use aql_syntax::sign::Sign;
use std::alloc::Global;

/// An expression of that level, of at most that depth.
#[cycle(expr)]
#[tactic(auto, using(crate::proofs::CycleLoops::parse_steps))]
pub fn parse<'a>(
    alloc: Global,
    source: &[u8],
    level: u64,
    words: &'a [Word],
    depth: u64,
) -> Result<(Expr, &'a [Word]), Refusal>
    requires { level ≤ 8 }
    ensures { Parses tree_of source.now words.now result (parse_at depth level) }
{
    if depth == 0 {
        return Err(Refusal::Syntax);
    }
    if level == 8 {
        whole(alloc, source, words, depth - 1)
    } else {
        chain(alloc, source, level, words, depth - 1)
    }
}

// An expression of level 8.
#[cycle(expr)]
#[tactic(auto, using(crate::proofs::PrimarySteps::whole_parts))]
fn whole<'a>(
    alloc: Global,
    source: &[u8],
    words: &'a [Word],
    depth: u64,
) -> Result<(Expr, &'a [Word]), Refusal>
    ensures { Parses tree_of source.now words.now result (whole_at (parse_at depth) depth) }
{
    match skip_sign(source, words, Sign::If) {
        Some(rest) => complete(alloc, source, Progress::More(Construct::Test), rest, depth),
        None => {
            let (left, rest) = chain(alloc, source, 7, words, depth)?;
            let (progress, rest) = default_rest(alloc, source, left, rest, depth)?;
            complete(alloc, source, progress, rest, depth)
        }
    }
}

// Levels 0 to 7.
#[cycle(expr)]
#[tactic(auto, using(crate::proofs::CycleLoops::level_steps), unfolding(crate::specs::Cycle::not_at, crate::specs::Constructs::construct_at))]
fn chain<'a>(
    alloc: Global,
    source: &[u8],
    level: u64,
    words: &'a [Word],
    depth: u64,
) -> Result<(Expr, &'a [Word]), Refusal>
    requires { level ≤ 7 }
    ensures { Parses tree_of source.now words.now result (level_at (parse_at depth) depth level) }
{
    if level == 0 {
        let (progress, rest) = application(alloc, source, words, depth)?;
        return complete(alloc, source, progress, rest, depth);
    }
    if level == 5 {
        return match skip_sign(source, words, Sign::Not) {
            Some(rest) => complete(alloc, source, Progress::More(Construct::Not), rest, depth),
            None => chain(alloc, source, 4, words, depth),
        };
    }
    let (left, rest) = chain(alloc, source, level - 1, words, depth)?;
    operators(alloc, source, level, left, rest, depth)
}

// The operators of one level, to the left.
#[cycle(expr)]
#[tactic(auto, using(crate::proofs::CycleLoops::loop_operators))]
fn operators<'a>(
    alloc: Global,
    source: &[u8],
    level: u64,
    left: Expr,
    words: &'a [Word],
    depth: u64,
) -> Result<(Expr, &'a [Word]), Refusal>
    requires above { 0 < level }
    requires below { level ≤ 7 }
    ensures { Parses tree_of source.now words.now result
        (chain_rest (level_at (parse_at depth) depth (level - 1)) level (grammar.turns level depth)
        (tree_of left)) }
{
    let mut left = left;
    let mut rest = words;
    for _turn in 0..turns(level, depth) {
        match operator_at(source, level, rest) {
            Some((operator, right)) => {
                let (both, behind) = operator_rest(
                    alloc, source, level, operator, left, right, depth,
                )?;
                left = both;
                rest = behind;
            }
            None => return Ok((left, rest)),
        }
    }
    Ok((left, rest))
}

// Behind an operator of that level: its second part, joined to the first.
#[cycle(expr)]
#[tactic(auto, unfolding(crate::specs::Cycle::joined_at))]
fn operator_rest<'a>(
    alloc: Global,
    source: &[u8],
    level: u64,
    operator: Operator,
    left: Expr,
    words: &'a [Word],
    depth: u64,
) -> Result<(Expr, &'a [Word]), Refusal>
    requires above { 0 < level }
    requires below { level ≤ 7 }
    ensures { Parses tree_of source.now words.now result
        (joined_at (level_at (parse_at depth) depth (level - 1)) (joiner_of operator)
        (tree_of left)) }
{
    let left = Box::new(alloc, left)?;
    let (right, rest) = chain(alloc, source, second_level(level), words, depth)?;
    let right = Box::new(alloc, right)?;
    Ok((binary(operator, left, right), rest))
}

// What is left of a construct. One of more parts than 64 bits count fits into no memory.
#[cycle(expr)]
#[tactic(auto, unfolding(crate::specs::Constructs::construct_at))]
fn complete<'a>(
    alloc: Global,
    source: &[u8],
    progress: Progress,
    words: &'a [Word],
    depth: u64,
) -> Result<(Expr, &'a [Word]), Refusal>
    ensures { Parses tree_of source.now words.now result
        (progress_at (parse_at depth) depth progress) }
{
    let mut progress = progress;
    let mut rest = words;
    for _turn in 0..u64::MAX {
        match progress {
            Progress::Done(expr) => return Ok((expr, rest)),
            Progress::More(construct) => {
                let level = level_of(&construct);
                let (expr, behind) = parse(alloc, source, level, rest, depth)?;
                let (next, behind) = read_on(alloc, source, construct, expr, behind, depth)?;
                progress = next;
                rest = behind;
            }
        }
    }
    Err(Refusal::Memory)
}
