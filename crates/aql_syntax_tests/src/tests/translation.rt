//! Declarations that are translated, with the weights of their terms, and declarations past a limit.

use crate::tests::building::{
    Made, bare, binding, call_macro, collect_set, doublings, letter_name, local, match_first, name,
    sum, tests_alone, three_members,
};
use aql_desugar::fault::Fault;
use aql_desugar::translate::translate;
use aql_infer_steps::typed::Typed;
use aql_syntax::ast::{Bind, Decl, Decls, Expr, LetBind, Pattern, Qual};
use aql_syntax::build::{let_in, tabulation};
use aql_value::Memory;
use aql_value::made::{both, make_box, make_boxes, make_list};
use nrca_term::weight;
use std::alloc::Global;
use std::process::Abort;

// [_:\x] <- it
fn cell_of_it(alloc: Global) -> Result<Qual, Memory> {
    let (cell, over) = both(binding(alloc), letter_name(alloc, b'i', b't'))?;
    Ok(Qual::Cells {
        index: Pattern::Any,
        cell,
        over,
    })
}

// {x | [_:\x] <- it}
fn cells(alloc: Global) -> Made {
    collect_set(alloc, local(alloc), make_list(alloc, cell_of_it(alloc)))
}

// \x<3
fn axis(alloc: Global) -> Result<Bind, Memory> {
    Ok(Bind {
        name: name(alloc, b'x', 0)?,
        bound: Expr::Nat(3),
    })
}

// [[x+1 | \x<3]]
fn count_up(alloc: Global) -> Made {
    let body = make_box(alloc, sum(alloc, local(alloc), Ok(Expr::Nat(1))));
    let (body, axes) = both(body, make_list(alloc, axis(alloc)))?;
    Ok(tabulation(body, axes))
}

// val \x = 1
fn one(alloc: Global) -> Result<LetBind, Memory> {
    Ok(LetBind {
        pattern: binding(alloc)?,
        expr: Expr::Nat(1),
    })
}

fn default(alloc: Global, a: Made, b: Made) -> Made {
    let (a, b) = make_boxes(alloc, a, b)?;
    Ok(Expr::Default(a, b))
}

// let val \x = 1 in x default 2 end
fn default_let(alloc: Global) -> Made {
    let body = make_box(alloc, default(alloc, local(alloc), Ok(Expr::Nat(2))));
    let (body, binds) = both(body, make_list(alloc, one(alloc)))?;
    Ok(let_in(binds, body))
}

// A bare expression after declarations.
fn translate_after(alloc: Global, earlier: Vec<Decl>, e: Expr) -> Result<u128, Fault> {
    let mut items = earlier;
    items.push(Decl::Bare { expr: e })?;
    let n = items.len() as u64;
    let decls = Decls { items };
    let typed = Typed {
        items: Vec::new(alloc),
    };
    let made = translate(alloc, &decls, &typed, n);
    drop(decls);
    drop(typed);
    let made = made?;
    let weight = weight(&made);
    drop(made);
    Ok(weight)
}

// The weight of the term, or the size and the levels.
fn tell_answer(answer: Result<u128, Fault>) -> (u128, u64, u64) {
    match answer {
        Ok(weight) => (weight, 0, 0),
        Err(Fault::Large { size, levels }) => (0, size, levels),
        Err(Fault::Memory) => (0, 0, 0),
    }
}

fn assert_told(
    rt: &impl Abort,
    alloc: Global,
    earlier: Result<Vec<Decl>, Memory>,
    e: Made,
    expected: (u128, u64, u64),
) -> Result<(), Memory> {
    let (earlier, e) = both(earlier, e)?;
    assert_eq!(rt; tell_answer(translate_after(alloc, earlier, e)), expected);
    Ok(())
}

fn assert_alone(
    rt: &impl Abort,
    alloc: Global,
    e: Made,
    expected: (u128, u64, u64),
) -> Result<(), Memory> {
    assert_told(rt, alloc, Ok(Vec::new(alloc)), e, expected)
}

// Each term is counted by hand: a tabulation of one index weighs 12, the dimension of an array of one index 4, each other node 1.
#[test]
fn weights_of_terms(rt: HostRuntime) -> Result<(), Memory> {
    let alloc = rt.alloc();
    assert_alone(&rt, alloc, three_members(alloc), (8, 0, 0))?;
    assert_alone(&rt, alloc, match_first(alloc), (19, 0, 0))?;
    assert_alone(&rt, alloc, count_up(alloc), (16, 0, 0))?;
    assert_alone(&rt, alloc, default_let(alloc), (7, 0, 0))?;
    let arrays = make_list(alloc, bare(count_up(alloc)));
    assert_told(&rt, alloc, arrays, cells(alloc), (17, 0, 0))?;
    let call = call_macro(alloc, 0, Ok(Expr::Nat(5)));
    assert_told(&rt, alloc, doublings(alloc, 10), call, (7, 0, 0))
}

#[test]
fn declarations_past_a_limit(rt: HostRuntime) -> Result<(), Memory> {
    let alloc = rt.alloc();
    let left = call_macro(alloc, 10, Ok(Expr::Nat(1)));
    let right = call_macro(alloc, 10, Ok(Expr::Nat(1)));
    let doubled = sum(alloc, left, right);
    assert_told(&rt, alloc, doublings(alloc, 10), doubled, (0, 20473, 35))?;
    assert_alone(&rt, alloc, tests_alone(alloc, 250), (0, 502, 1002))?;
    assert_alone(&rt, alloc, tests_alone(alloc, 249), (749, 0, 0))
}
