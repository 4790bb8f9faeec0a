//! The array-free forms of terms: printed.

use crate::tests::graph::texts::assert_text;
use aql_print::print_core;
use aql_value::Memory;
use aql_value::made::{both, make_box, make_boxes};
use nrca_graph::{greatest_variable, to_graph};
use nrca_term::{Core, Terms, weight};
use std::alloc::Global;
use std::mem::drop;
use std::process::Abort;

// Above it a variable may not stand in the term.
const ROOM: u64 = 4611686018427387904;

fn made_form(alloc: Global, term: &Core) -> Result<Core, Memory> {
    if weight(term) > 1280000 || greatest_variable(term) >= ROOM {
        return Err(Memory);
    }
    to_graph(alloc, term)
}

fn form(alloc: Global, term: Result<Core, Memory>) -> Result<Core, Memory> {
    let term = term?;
    let made = made_form(alloc, &term);
    drop(term);
    made
}

// The text of the array-free form.
fn text_of_form(alloc: Global, term: Result<Core, Memory>) -> Result<Vec<u8>, Memory> {
    let made = form(alloc, term)?;
    let mut out = Vec::new(alloc);
    let printed = print_core(alloc, &made, &mut out);
    drop(made);
    printed?;
    Ok(out)
}

fn assert_form(rt: &impl Abort, alloc: Global, term: Result<Core, Memory>, want: &[u8]) {
    assert_text(rt, text_of_form(alloc, term), want);
}

// Variable 0, so many times.
fn same(alloc: Global, count: u64) -> Result<Terms, Memory> {
    let mut items = Vec::new(alloc);
    for _i in 0..count {
        items.push(Core::Var(0))?;
    }
    Ok(Terms(items))
}

// The tuple of the variables of an index, and of the next one.
fn cell(alloc: Global, rank: u64) -> Result<Core, Memory> {
    let mut items = Vec::new(alloc);
    for i in 0..rank {
        items.push(Core::Var(rank - 1 - i))?;
    }
    items.push(Core::Var(rank))?;
    Ok(Core::Tuple(Terms(items)))
}

// The body under a let of a position.
fn under_let(alloc: Global, body: Result<Core, Memory>) -> Result<Core, Memory> {
    let (bound, body) = make_boxes(alloc, Ok(Core::Global(1)), body)?;
    Ok(Core::Let(bound, body))
}

fn tabulation(alloc: Global, rank: u64) -> Result<Core, Memory> {
    let (bounds, body) = both(same(alloc, rank), make_box(alloc, cell(alloc, rank)))?;
    Ok(Core::Tab { bounds, body })
}

fn subscript(alloc: Global, rank: u64) -> Result<Core, Memory> {
    let (array, at) = both(make_box(alloc, Ok(Core::Var(0))), same(alloc, rank))?;
    Ok(Core::Sub { array, at })
}

fn dimensions(alloc: Global, rank: u64) -> Result<Core, Memory> {
    let array = make_box(alloc, Ok(Core::Global(1)))?;
    Ok(Core::Dim { rank, array })
}

fn index(alloc: Global, rank: u64) -> Result<Core, Memory> {
    let pairs = make_box(alloc, Ok(Core::Global(1)))?;
    Ok(Core::Index { rank, pairs })
}

fn numbers(alloc: Global, all: &[u128]) -> Result<Terms, Memory> {
    let mut items = Vec::new(alloc);
    for n in all {
        items.push(Core::Nat(*n))?;
    }
    Ok(Terms(items))
}

fn literal(alloc: Global, dims: &[u128], cells: &[u128]) -> Result<Core, Memory> {
    let (dims, cells) = both(numbers(alloc, dims), numbers(alloc, cells))?;
    Ok(Core::Literal { dims, cells })
}

#[test]
fn tabulations(rt: HostRuntime) {
    let alloc = rt.alloc();
    assert_form(
        &rt,
        alloc,
        under_let(alloc, tabulation(alloc, 1)),
        b"(let x0 = @0 in (let x1 = x0 in (x1, U{{(x2, (x2, x0))} | x2 in gen(x1)})))",
    );
    assert_form(
        &rt,
        alloc,
        under_let(alloc, tabulation(alloc, 2)),
        b"(let x0 = @0 in (let x1 = x0 in (let x2 = x0 in ((x1, x2), U{U{{((x3, x4), (x3, x4, x0))} | \
        x4 in gen(x2)} | x3 in gen(x1)}))))",
    );
    assert_form(
        &rt,
        alloc,
        under_let(alloc, tabulation(alloc, 8)),
        b"(let x0 = @0 in (let x1 = x0 in (let x2 = x0 in (let x3 = x0 in (let x4 = x0 in (let x5 = x0 \
        in (let x6 = x0 in (let x7 = x0 in (let x8 = x0 in ((x1, x2, x3, x4, x5, x6, x7, x8), \
        U{U{U{U{U{U{U{U{{((x9, x10, x11, x12, x13, x14, x15, x16), (x9, x10, x11, x12, x13, x14, \
        x15, x16, x0))} | x16 in gen(x8)} | x15 in gen(x7)} | x14 in gen(x6)} | x13 in gen(x5)} | \
        x12 in gen(x4)} | x11 in gen(x3)} | x10 in gen(x2)} | x9 in gen(x1)}))))))))))",
    );
}

#[test]
fn subscripts(rt: HostRuntime) {
    let alloc = rt.alloc();
    assert_form(
        &rt,
        alloc,
        under_let(alloc, subscript(alloc, 1)),
        b"(let x0 = @0 in (let x1 = x0 in (let x2 = x0 in get(U{(if (#1/2(x3) = x2) then {#2/2(x3)} \
        else {}) | x3 in #2/2(x1)}))))",
    );
    assert_form(
        &rt,
        alloc,
        under_let(alloc, subscript(alloc, 2)),
        b"(let x0 = @0 in (let x1 = x0 in (let x2 = (x0, x0) in get(U{(if (#1/2(x3) = x2) then \
        {#2/2(x3)} else {}) | x3 in #2/2(x1)}))))",
    );
    assert_form(
        &rt,
        alloc,
        under_let(alloc, subscript(alloc, 8)),
        b"(let x0 = @0 in (let x1 = x0 in (let x2 = (x0, x0, x0, x0, x0, x0, x0, x0) in get(U{(if \
        (#1/2(x3) = x2) then {#2/2(x3)} else {}) | x3 in #2/2(x1)}))))",
    );
}

#[test]
fn dimensions_of_arrays(rt: HostRuntime) {
    let alloc = rt.alloc();
    assert_form(&rt, alloc, dimensions(alloc, 1), b"#1/2(@0)");
    assert_form(&rt, alloc, dimensions(alloc, 2), b"#1/2(@0)");
    assert_form(&rt, alloc, dimensions(alloc, 8), b"#1/2(@0)");
}

#[test]
fn arrays_from_pairs(rt: HostRuntime) {
    let alloc = rt.alloc();
    assert_form(
        &rt,
        alloc,
        index(alloc, 1),
        b"(let x0 = @0 in (let x1 = (if (x0 = {}) then 0 else (1 + get(U{(if (U{(if (#1/2(x1) < \
        #1/2(x2)) then {#1/2(x2)} else {}) | x2 in x0} = {}) then {#1/2(x1)} else {}) | x1 in x0}))) \
        in (x1, U{{(x2, U{(if (#1/2(x3) = x2) then {#2/2(x3)} else {}) | x3 in x0})} | x2 in \
        gen(x1)})))",
    );
    assert_form(
        &rt,
        alloc,
        index(alloc, 2),
        b"(let x0 = @0 in (let x1 = (if (x0 = {}) then 0 else (1 + get(U{(if (U{(if (#1/2(#1/2(x1)) < \
        #1/2(#1/2(x2))) then {#1/2(#1/2(x2))} else {}) | x2 in x0} = {}) then {#1/2(#1/2(x1))} else \
        {}) | x1 in x0}))) in (let x2 = (if (x0 = {}) then 0 else (1 + get(U{(if (U{(if \
        (#2/2(#1/2(x2)) < #2/2(#1/2(x3))) then {#2/2(#1/2(x3))} else {}) | x3 in x0} = {}) then \
        {#2/2(#1/2(x2))} else {}) | x2 in x0}))) in ((x1, x2), U{U{{((x3, x4), U{(if (#1/2(x5) = \
        (x3, x4)) then {#2/2(x5)} else {}) | x5 in x0})} | x4 in gen(x2)} | x3 in gen(x1)}))))",
    );
    assert_form(
        &rt,
        alloc,
        index(alloc, 8),
        b"(let x0 = @0 in (let x1 = (if (x0 = {}) then 0 else (1 + get(U{(if (U{(if (#1/8(#1/2(x1)) < \
        #1/8(#1/2(x2))) then {#1/8(#1/2(x2))} else {}) | x2 in x0} = {}) then {#1/8(#1/2(x1))} else \
        {}) | x1 in x0}))) in (let x2 = (if (x0 = {}) then 0 else (1 + get(U{(if (U{(if \
        (#2/8(#1/2(x2)) < #2/8(#1/2(x3))) then {#2/8(#1/2(x3))} else {}) | x3 in x0} = {}) then \
        {#2/8(#1/2(x2))} else {}) | x2 in x0}))) in (let x3 = (if (x0 = {}) then 0 else (1 + \
        get(U{(if (U{(if (#3/8(#1/2(x3)) < #3/8(#1/2(x4))) then {#3/8(#1/2(x4))} else {}) | x4 in \
        x0} = {}) then {#3/8(#1/2(x3))} else {}) | x3 in x0}))) in (let x4 = (if (x0 = {}) then 0 \
        else (1 + get(U{(if (U{(if (#4/8(#1/2(x4)) < #4/8(#1/2(x5))) then {#4/8(#1/2(x5))} else {}) \
        | x5 in x0} = {}) then {#4/8(#1/2(x4))} else {}) | x4 in x0}))) in (let x5 = (if (x0 = {}) \
        then 0 else (1 + get(U{(if (U{(if (#5/8(#1/2(x5)) < #5/8(#1/2(x6))) then {#5/8(#1/2(x6))} \
        else {}) | x6 in x0} = {}) then {#5/8(#1/2(x5))} else {}) | x5 in x0}))) in (let x6 = (if \
        (x0 = {}) then 0 else (1 + get(U{(if (U{(if (#6/8(#1/2(x6)) < #6/8(#1/2(x7))) then \
        {#6/8(#1/2(x7))} else {}) | x7 in x0} = {}) then {#6/8(#1/2(x6))} else {}) | x6 in x0}))) in \
        (let x7 = (if (x0 = {}) then 0 else (1 + get(U{(if (U{(if (#7/8(#1/2(x7)) < #7/8(#1/2(x8))) \
        then {#7/8(#1/2(x8))} else {}) | x8 in x0} = {}) then {#7/8(#1/2(x7))} else {}) | x7 in \
        x0}))) in (let x8 = (if (x0 = {}) then 0 else (1 + get(U{(if (U{(if (#8/8(#1/2(x8)) < \
        #8/8(#1/2(x9))) then {#8/8(#1/2(x9))} else {}) | x9 in x0} = {}) then {#8/8(#1/2(x8))} else \
        {}) | x8 in x0}))) in ((x1, x2, x3, x4, x5, x6, x7, x8), U{U{U{U{U{U{U{U{{((x9, x10, x11, \
        x12, x13, x14, x15, x16), U{(if (#1/2(x17) = (x9, x10, x11, x12, x13, x14, x15, x16)) then \
        {#2/2(x17)} else {}) | x17 in x0})} | x16 in gen(x8)} | x15 in gen(x7)} | x14 in gen(x6)} | \
        x13 in gen(x5)} | x12 in gen(x4)} | x11 in gen(x3)} | x10 in gen(x2)} | x9 in \
        gen(x1)}))))))))))",
    );
    assert_form(&rt, alloc, index(alloc, 0), b"(let x0 = @0 in undefined)");
    assert_form(&rt, alloc, index(alloc, 9), b"(let x0 = @0 in undefined)");
}

#[test]
fn literals(rt: HostRuntime) {
    let alloc = rt.alloc();
    assert_form(
        &rt,
        alloc,
        literal(alloc, &[3], &[5, 6, 7]),
        b"(let x0 = 3 in (if (if (x0 = 0) then false else (x0 = 3)) then (x0, (({(0, 5)} union {(1, \
        6)}) union {(2, 7)})) else undefined))",
    );
    assert_form(
        &rt,
        alloc,
        literal(alloc, &[2, 1], &[5, 6]),
        b"(let x0 = 2 in (let x1 = 1 in (if (if (x0 = 0) then false else (if (x1 = 0) then false else \
        ((x0 * x1) = 2))) then ((x0, x1), ({(((0 / x1), (0 % x1)), 5)} union {(((1 / x1), (1 % x1)), \
        6)})) else undefined)))",
    );
    assert_form(
        &rt,
        alloc,
        literal(alloc, &[1, 1, 1, 1, 1, 1, 1, 1], &[5]),
        b"(let x0 = 1 in (let x1 = 1 in (let x2 = 1 in (let x3 = 1 in (let x4 = 1 in (let x5 = 1 in \
        (let x6 = 1 in (let x7 = 1 in (if (if (x0 = 0) then false else (if (x1 = 0) then false else \
        (if (x2 = 0) then false else (if (x3 = 0) then false else (if (x4 = 0) then false else (if \
        (x5 = 0) then false else (if (x6 = 0) then false else (if (x7 = 0) then false else \
        ((((((((x0 * x1) * x2) * x3) * x4) * x5) * x6) * x7) = 1))))))))) then ((x0, x1, x2, x3, x4, \
        x5, x6, x7), {(((0 / ((((((x1 * x2) * x3) * x4) * x5) * x6) * x7)), ((0 / (((((x2 * x3) * \
        x4) * x5) * x6) * x7)) % x1), ((0 / ((((x3 * x4) * x5) * x6) * x7)) % x2), ((0 / (((x4 * x5) \
        * x6) * x7)) % x3), ((0 / ((x5 * x6) * x7)) % x4), ((0 / (x6 * x7)) % x5), ((0 / x7) % x6), \
        (0 % x7)), 5)}) else undefined)))))))))",
    );
    assert_form(
        &rt,
        alloc,
        literal(alloc, &[4, 0], &[]),
        b"(let x0 = 4 in (let x1 = 0 in (if (if (x0 = 0) then true else (if (x1 = 0) then true else \
        ((x0 * x1) = 0))) then ((x0, x1), {}) else undefined)))",
    );
}
