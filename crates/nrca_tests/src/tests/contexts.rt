//! The facts of places, and contexts that are entered and left.

use crate::tests::places::go;
use crate::tests::{assert_right, words};
use aql_value::Memory;
use nrca_ranges::{Ctx, Fact, GlobalShapes, Known, is_small};
use nrca_subst::same;
use nrca_term::Core;
use std::alloc::Global;

// A term, the steps to a part of it, and the facts of the part's place: each a kind, its number of variables and its words.
const PLACES: &[&str] = &[
    "5 v0 tab1|0|",
    "5 v0 tab1|1|D 1 v0 5 <",
    "5 v0 v0 tup2 tab1|1 1|D 1 v0 5 <",
    "5 6 v0 tab2|2|D 2 v1 5 <;D 2 v0 6 <",
    "5 gen v0 one U|0|",
    "5 gen v0 one U|1|D 1 v0 5 <",
    "5 gen v0 one U|1 0|D 1 v0 5 <",
    "{} v0 one U|1|",
    "5 gen v0 S|1|D 1 v0 5 <",
    "g1 1 < 2 3 if|0|",
    "g1 1 < 2 3 if|1|T 0 g1 1 <",
    "g1 1 < 2 3 if|2|F 0 g1 1 <",
    "T 2 3 if|1|",
    "5 v0 1 < 2 v0 if tab1|1 2|D 1 v0 5 <;F 1 v0 1 <",
    "5 v0 1 < g1 v1 let v0 if tab1|1 1 1|D 1 v0 5 <;T 1 v0 1 <",
    "5 v0 1 < g1 v1 let v0 if tab1|1 1 0|D 1 v0 5 <;T 1 v0 1 <",
    "5 v0 1 < v0 gen v0 one U {} if tab1|1 1 1|D 1 v0 5 <;T 1 v0 1 <;D 2 v0 v1 <",
    "5 v0 gen v0 gen v0 S S tab1|1 1 1|D 1 v0 5 <;D 2 v0 v1 <;D 3 v0 v1 <",
    "5 6 v1 v0 < v0 v1 if tab2|2 1|D 2 v1 5 <;D 2 v0 6 <;T 2 v1 v0 <",
    "5 6 v1 v0 < v0 v1 if tab2|2 2|D 2 v1 5 <;D 2 v0 6 <;F 2 v1 v0 <",
    "5 6 v0 gen v0 v2 < v0 1 if S tab2|2 1 1|D 2 v1 5 <;D 2 v0 6 <;D 3 v0 v1 <;T 3 v0 v2 <",
    "5 6 v0 gen v0 v2 < v0 1 if S tab2|2 1 2|D 2 v1 5 <;D 2 v0 6 <;D 3 v0 v1 <;F 3 v0 v2 <",
    "5 6 v0 gen v0 v2 < v0 1 if S tab2|2 1 0|D 2 v1 5 <;D 2 v0 6 <;D 3 v0 v1 <",
    "g1 2 < 3 gen v0 one U {} if|1 1|T 0 g1 2 <;D 1 v0 3 <",
    "g1 2 < 3 gen v0 one U {} if|1 0|T 0 g1 2 <",
    "5 v0 v0 tab1 tab1|1 0|D 1 v0 5 <",
    "5 v0 v0 tab1 tab1|1 1|D 1 v0 5 <;D 2 v0 v1 <",
    "g1 2 let|1|",
    "g1 2 or|1|",
];

fn known_of(word: &str) -> Option<Known> {
    match word {
        "D" => Some(Known::Domain),
        "T" => Some(Known::Test),
        "F" => Some(Known::Denied),
        _ => None,
    }
}

fn is_equal(comparison: &Core, wanted: Result<Core, Memory>) -> Result<bool, Memory> {
    let wanted = wanted?;
    let equal = same(comparison, &wanted);
    drop(wanted);
    Ok(equal)
}

// Whether the fact is the one of that number of variables and words.
fn is_comparison(alloc: Global, fact: &Fact, wanted: &str) -> Result<bool, Memory> {
    match wanted.split_once(' ') {
        Some((depth, comparison)) if depth.parse() == Ok(fact.depth) => {
            is_equal(&fact.comparison, words::term(alloc, comparison))
        }
        _ => Ok(false),
    }
}

// Whether the fact is the one of that kind, number of variables and words.
fn is_fact(alloc: Global, fact: &Fact, wanted: &str) -> Result<bool, Memory> {
    match wanted.split_once(' ') {
        Some((kind, rest)) if known_of(kind) == Some(fact.known) => is_comparison(
            alloc, fact, rest,
        ),
        _ => Ok(false),
    }
}

fn has_fact(alloc: Global, facts: &[Fact], at: usize, wanted: &str) -> Result<bool, Memory> {
    match facts.get(at) {
        Some(fact) => is_fact(alloc, fact, wanted),
        None => Ok(false),
    }
}

// Whether the facts are those of the row.
fn are_facts(alloc: Global, facts: &[Fact], wanted: &str) -> Result<bool, Memory> {
    let mut count = 0usize;
    if wanted.is_empty() {
        return Ok(facts.is_empty());
    }
    for one in wanted.split(';') {
        if !has_fact(alloc, facts, count, one)? {
            return Ok(false);
        }
        count = count.saturating_add(1);
    }
    Ok(count == facts.len())
}

// The same behind the steps to a place, where they led there.
fn are_facts_there(
    alloc: Global,
    gone: Result<Option<&Core>, Memory>,
    facts: &[Fact],
    wanted: &str,
) -> Result<bool, Memory> {
    match gone {
        Ok(Some(_)) => are_facts(alloc, facts, wanted),
        Ok(None) => Ok(false),
        Err(error) => Err(error),
    }
}

// Whether the place has the facts of the row.
fn has_facts(alloc: Global, term: &Core, steps: &str, wanted: &str) -> Result<bool, Memory> {
    let mut ctx = Ctx::new(alloc, GlobalShapes::new(alloc));
    let gone = go(alloc, &mut ctx, term, steps);
    let found = are_facts_there(alloc, gone, ctx.facts(), wanted);
    drop(ctx);
    found
}

fn has_place(alloc: Global, term: &Core, place: &str) -> Result<bool, Memory> {
    match place.split_once('|') {
        Some((steps, wanted)) => has_facts(alloc, term, steps, wanted),
        None => Ok(false),
    }
}

fn has_place_of(alloc: Global, term: Result<Core, Memory>, place: &str) -> Result<bool, Memory> {
    let term = term?;
    let found = has_place(alloc, &term, place);
    drop(term);
    found
}

fn is_right(alloc: Global, row: &str) -> Result<bool, Memory> {
    match row.split_once('|') {
        Some((words, place)) => has_place_of(alloc, words::term(alloc, words), place),
        None => Ok(false),
    }
}

#[test]
fn facts_of_places(rt: HostRuntime) {
    for row in PLACES {
        assert_right(&rt, is_right(rt.alloc(), row), row);
    }
}

// How many facts and variables there are inside, and again outside.
fn count_inside(
    alloc: Global,
    ctx: &mut Ctx,
    term: &Core,
) -> Result<(usize, u64, usize, u64), Memory> {
    if term.parts() > 1 && is_small(term, ctx.depth()) {
        let mark = ctx.push(alloc, term, 1)?;
        let facts = ctx.facts().len();
        let depth = ctx.depth();
        ctx.take_back(mark);
        return Ok((facts, depth, ctx.facts().len(), ctx.depth()));
    }
    Err(Memory)
}

fn counted_of(
    alloc: Global,
    term: Result<Core, Memory>,
) -> Result<(usize, u64, usize, u64), Memory> {
    let term = term?;
    let mut ctx = Ctx::new(alloc, GlobalShapes::new(alloc));
    let found = count_inside(alloc, &mut ctx, &term);
    drop(term);
    drop(ctx);
    found
}

// A term, and how many facts and variables there are inside its second part.
const PARTS: &[(&str, usize, u64)] = &[
    ("5 v0 tab1", 1, 1),
    ("g1 1 < 2 3 if", 1, 0),
    ("g1 v0 let", 0, 1),
];

fn is_left(alloc: Global, words: &str, facts: usize, depth: u64) -> Result<bool, Memory> {
    let found = counted_of(alloc, words::term(alloc, words))?;
    Ok(found == (facts, depth, 0, 0))
}

#[test]
fn a_part_is_left_as_it_was_entered(rt: HostRuntime) {
    for (words, facts, depth) in PARTS {
        assert_right(&rt, is_left(rt.alloc(), words, *facts, *depth), words);
    }
}
