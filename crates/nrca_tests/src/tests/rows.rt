//! What is answered of bodies of a tabulation of one index below a number.

use crate::tests::{assert_right, words};
use aql_value::Memory;
use aql_value::made::{both, make_box, make_list};
use nrca_defined::{FirmSpan, defined, firmness};
use nrca_ranges::{Ctx, GlobalShapes, Interval, is_small, number_of};
use nrca_term::{Core, Terms};
use std::alloc::Global;

// The tabulation of the body below the number.
fn below(alloc: Global, bound: u128, body: Result<Core, Memory>) -> Result<Core, Memory> {
    let (bounds, body) = both(
        make_list(alloc, Ok(Core::Nat(bound))),
        make_box(alloc, body),
    )?;
    Ok(Core::Tab {
        bounds: Terms(bounds),
        body,
    })
}

// What is answered of a body: whether it is sure to have a value, its interval, and whether it is firm and has a span.
#[derive(Clone, Copy)]
struct Told {
    sure: bool,
    number: Interval,
    spanned: bool,
}

fn is_spanned(firmness: Result<FirmSpan, Memory>) -> Result<bool, Memory> {
    let told = firmness?;
    Ok(told.firm && told.span.is_some())
}

fn ask(alloc: Global, ctx: &Ctx, body: &Core) -> Result<Told, Memory> {
    if !is_small(body, ctx.depth()) {
        return Err(Memory);
    }
    let sure = defined(alloc, body, ctx)?;
    let number = number_of(alloc, body, ctx)?;
    let spanned = is_spanned(firmness(alloc, body, ctx))?;
    Ok(Told {
        sure,
        number,
        spanned,
    })
}

// The same of the body of a tabulation, whose context is entered.
fn told_inside(alloc: Global, ctx: &mut Ctx, term: &Core) -> Result<Told, Memory> {
    if term.parts() > 1 && is_small(term, ctx.depth()) {
        let _mark = ctx.push(alloc, term, 1)?;
        return told_of_part(alloc, ctx, term.part(1));
    }
    Err(Memory)
}

fn told_of_part(alloc: Global, ctx: &Ctx, part: Option<&Core>) -> Result<Told, Memory> {
    match part {
        Some(body) => ask(alloc, ctx, body),
        None => Err(Memory),
    }
}

fn told_of(alloc: Global, term: Result<Core, Memory>) -> Result<Told, Memory> {
    let term = term?;
    let mut ctx = Ctx::new(alloc, GlobalShapes::new(alloc));
    let found = told_inside(alloc, &mut ctx, &term);
    drop(term);
    drop(ctx);
    found
}

fn told_below(alloc: Global, bound: u128, words: &str) -> Result<Told, Memory> {
    told_of(alloc, below(alloc, bound, words::term(alloc, words)))
}

// 2 to the power of 64.
const PAST: u128 = 18446744073709551616;

// A number, a body below it, and whether the body is sure to have a value. `i+i`, `10/i`, `i/7`, `i*i`, and finer: a
// quotient by a number from 1 on, inside of a tuple and of a default, a sum over a generated set, cells of arrays of
// rank 1 and 2, and names of a let and of a member.
const SURE: &[(u128, &str, bool)] = &[
    (1000, "v0 v0 +", true),
    (3, "10 v0 /", false),
    (3, "v0 7 /", true),
    (PAST, "v0 v0 *", true),
    (PAST + 1, "v0 v0 *", false),
    (3, "10 v0 1 + /", true),
    (3, "10 v0 1 + / v0 tup2", true),
    (3, "10 v0 / v0 tup2", false),
    (3, "10 v0 / v0 or", true),
    (3, "v0 gen 7 S", true),
    (3, "v0 gen 7 v0 / S", false),
    (3, "3 v0 tab1 v0 sub1", true),
    (4, "3 v0 tab1 v0 sub1", false),
    (3, "3 4 v0 tab2 v0 v0 sub2", true),
    (3, "3 2 v0 tab2 v0 v0 sub2", false),
    (3, "v0 one get", true),
    (3, "v0 gen get", false),
    (3, "7 10 v0 / let", true),
    (3, "v0 10 v0 / let", false),
    (3, "7 one 10 v0 / S", true),
    (3, "v0 one 10 v0 / S", false),
];

fn is_sure(told: Result<Told, Memory>, wanted: bool) -> Result<bool, Memory> {
    let told = told?;
    Ok(told.sure == wanted)
}

#[test]
fn rows_below_a_number(rt: HostRuntime) {
    for (bound, words, wanted) in SURE {
        let told = told_below(rt.alloc(), *bound, words);
        assert_right(&rt, is_sure(told, *wanted), words);
    }
}

// A number, a body below it, the ends of the body's interval, and whether it is firm and has a span. `i+i` below 1000 is
// from 0 to 1998, and `10/(i+1)` from 0 to 10, though it has no span; so is the name of a let or of a member.
#[derive(Clone, Copy)]
struct Row<'a>(u128, &'a str, u128, u128, bool);

const INTERVALS: &[Row<'static>] = &[
    Row(1000, "v0 v0 +", 0, 1998, true),
    Row(3, "10 v0 1 + /", 0, 10, false),
    Row(3, "20 v0 -", 0, 20, true),
    Row(3, "g1 v0 1 + %", 0, 2, false),
    Row(3, "v0 v0 let", 0, 2, false),
    Row(3, "5 one v0 S", 5, 5, false),
    Row(3, "3 v0 5 + tab1 1 sub1", 5, 7, false),
    Row(3, "v0 1 < 5 9 if", 5, 9, false),
];

fn is_interval(told: Result<Told, Memory>, row: &Row<'_>) -> Result<bool, Memory> {
    let told = told?;
    Ok(told.number.low == row.2 && told.number.high == row.3 && told.spanned == row.4)
}

#[test]
fn intervals_below_a_number(rt: HostRuntime) {
    for row in INTERVALS {
        let told = told_below(rt.alloc(), row.0, row.1);
        assert_right(&rt, is_interval(told, row), row.1);
    }
}
