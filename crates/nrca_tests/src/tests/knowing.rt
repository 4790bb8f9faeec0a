//! What is known of comparisons at their places.

use crate::tests::places::go;
use crate::tests::{assert_right, words};
use aql_value::Memory;
use nrca_checks::{decided, literally};
use nrca_ranges::{Ctx, GlobalShapes, Known};
use nrca_term::Core;
use std::alloc::Global;
use std::process::Abort;

// A term, the steps to a comparison in it, and how that is literally known there: as a fact of a tabulation or a loop,
// of an `if`, or as denied.
const KNOWN: &[&str] = &[
    "5 v0 5 < tab1~1~D",
    "5 v0 5 <= tab1~1~none",
    "5 5 v0 > tab1~1~none",
    "g1 v0 g1 < tab1~1~D",
    "g1 v0 5 < tab1~1~none",
    "g1 2 v1 g1 < let tab1~1 1~D",
    "g1 2 v0 g1 < let tab1~1 1~none",
    "3 g1 v1 3 < tab2~2~D",
    "3 g1 v0 g1 < tab2~2~D",
    "3 g1 v0 3 < tab2~2~none",
    "4 v0 v0 v1 < tab1 tab1~1 1~D",
    "4 v0 v1 4 < tab1 tab1~1 1~D",
    "4 v0 v0 4 < tab1 tab1~1 1~none",
    "g1 gen v0 g1 < one U~1 0~D",
    "g1 gen v0 g1 < 1 2 if S~1 0~D",
    "g1 one v0 g1 < one U~1 0~none",
    "g1 1 < 2 3 if~0~none",
    "g1 1 < g1 1 < 2 if~1~T",
    "g1 1 < 2 g1 1 < if~2~F",
    "g1 1 <= g1 1 <= 2 if~1~T",
    "g1 1 < g1 2 < 2 if~1~none",
    "g1 1 < 7 g1 1 < let F if~1 1~T",
    "5 v0 5 < v0 5 < F if tab1~1 1~D",
    "5 v0 5 < T v0 5 < if tab1~1 2~D",
    "g1 1 < T g1 1 < g1 1 < F if if~2 1~T",
    "g1 1 = 5 g1 1 = 2 3 if tab1 0 sub1 4 if~1 0 1 0~T",
    "5 v0 1 < v0 gen v0 v1 < one U {} if tab1~1 1 1 0~D",
    "5 v0 1 < v0 gen v1 1 < one U {} if tab1~1 1 1 0~T",
    "5 v0 1 < {} v0 gen v1 1 < one U if tab1~1 2 1 0~F",
    "g1 1 < g1 1 < or~1~none",
];

// A term, the steps to a comparison in it, and its truth value, where the ranges of its sides tell.
const DECIDED: &[&str] = &[
    "10 v0 20 < tab1~1~T",
    "10 v0 20 > tab1~1~F",
    "10 v0 20 = tab1~1~F",
    "10 v0 20 <> tab1~1~T",
    "10 v0 20 <= tab1~1~T",
    "10 v0 20 >= tab1~1~F",
    "10 20 v0 < tab1~1~F",
    "10 20 v0 >= tab1~1~T",
    "10 v0 10 < tab1~1~T",
    "10 v0 9 < tab1~1~none",
    "10 v0 9 <= tab1~1~none",
    "10 v0 9 = tab1~1~none",
    "10 v0 v0 = tab1~1~none",
    "10 10 v0 - 11 < tab1~1~T",
    "10 3 v0 - 4 < tab1~1~T",
    "10 3 v0 - 3 <= tab1~1~none",
    "10 10 v0 / 5 % 5 < tab1~1~T",
    "10 v0 3 / 10 < tab1~1~T",
    "10 v0 g1 / 10 < tab1~1~none",
    "10 g1 7 % 7 < tab1~1~T",
    "10 v0 max + 5 > tab1~1~none",
    "10 v0 v0 + 18 > tab1~1~none",
    "10 v0 v0 + 19 >= tab1~1~F",
    "10 5 gen v0 v1 10 + < one U tab1~1 1 0~T",
    "10 gen v0 10 < one U~1 0~T",
    "0 v0 0 < tab1~1~none",
    "0 v0 1 < tab1~1~T",
    "10 v0 v0 20 < let tab1~1 1~none",
    "10 v0 v1 20 < let tab1~1 1~T",
    "3 5 <~.~T",
    "5 5 <~.~none",
    "g1 5 <~.~none",
    "T F <~.~none",
];

// What is told of a comparison at its place.
#[derive(Clone, Copy)]
enum Question {
    Literally,
    Decided,
}

fn known_word(known: Option<Known>) -> &'static str {
    match known {
        Some(Known::Domain) => "D",
        Some(Known::Test) => "T",
        Some(Known::Denied) => "F",
        None => "none",
    }
}

fn truth_word(truth: Option<bool>) -> &'static str {
    match truth {
        Some(true) => "T",
        Some(false) => "F",
        None => "none",
    }
}

fn tell_answer(question: Question, ctx: &Ctx, term: &Core) -> &'static str {
    match question {
        Question::Literally => known_word(literally(ctx, term)),
        Question::Decided => truth_word(decided(ctx, term)),
    }
}

// What is told of the part at the end of the steps; none where they leave the term.
fn told_at(
    alloc: Global,
    question: Question,
    ctx: &mut Ctx,
    term: &Core,
    steps: &str,
) -> Result<Option<&'static str>, Memory> {
    if steps == "." {
        return Ok(Some(tell_answer(question, ctx, term)));
    }
    match go(alloc, ctx, term, steps) {
        Ok(Some(at)) => Ok(Some(tell_answer(question, ctx, at))),
        Ok(None) => Ok(None),
        Err(error) => Err(error),
    }
}

fn told_in(
    alloc: Global,
    question: Question,
    term: Result<Core, Memory>,
    steps: &str,
) -> Result<Option<&'static str>, Memory> {
    let term = term?;
    let mut ctx = Ctx::new(alloc, GlobalShapes::new(alloc));
    let found = told_at(alloc, question, &mut ctx, &term, steps);
    drop(term);
    drop(ctx);
    found
}

// Whether the words' term has the place of the row.
fn is_told(alloc: Global, question: Question, words: &str, place: &str) -> Result<bool, Memory> {
    match place.split_once('~') {
        Some((steps, wanted)) => {
            let found = told_in(alloc, question, words::term(alloc, words), steps)?;
            Ok(found == Some(wanted))
        }
        None => Ok(false),
    }
}

fn is_right(alloc: Global, question: Question, row: &str) -> Result<bool, Memory> {
    match row.split_once('~') {
        Some((words, place)) => is_told(alloc, question, words, place),
        None => Ok(false),
    }
}

fn assert_rows(rt: &impl Abort, alloc: Global, question: Question, rows: &[&str]) {
    for row in rows {
        assert_right(rt, is_right(alloc, question, row), row);
    }
}

#[test]
fn literally_known_comparisons(rt: HostRuntime) {
    assert_rows(&rt, rt.alloc(), Question::Literally, KNOWN);
}

#[test]
fn decided_comparisons(rt: HostRuntime) {
    assert_rows(&rt, rt.alloc(), Question::Decided, DECIDED);
}
