//! Closed terms with their values and turns, worked out one step after the other.

use crate::tests::outcomes::{Outcome, Row, outcome, wanted_outcome};
use crate::tests::same::assert_same;
use crate::tests::values::value;
use crate::tests::words::term;
use aql_value::Value;
use aql_value::made::both;
use nrca_eval::eval;
use nrca_loops::{Env, Globals};
use nrca_par::EvalFault;
use nrca_term::Core;
use std::alloc::Global;
use std::process::Abort;
use std::thread::Threads;

// Some runtime is named for its type.
fn evaluate_term<R: Threads + Sync>(
    _rt: &R,
    alloc: Global,
    term: &Core,
    value: &Option<Value>,
    budget: u64,
) -> Outcome {
    let globals = Globals {
        list: Vec::new(alloc),
    };
    let done = eval::<R>(alloc, term, &globals, &Env::Empty, budget);
    drop(globals);
    let done = done?;
    let found = outcome(alloc, &done.answer, value, u128::from(done.turns));
    drop(done);
    found
}

fn outcome_of_row<R: Threads + Sync>(rt: &R, alloc: Global, row: &Row, budget: u64) -> Outcome {
    let parts = both(term(alloc, row.0), value(alloc, row.1))?;
    let found = evaluate_term(rt, alloc, &parts.0, &parts.1, budget);
    drop(parts);
    found
}

const ROWS: &[Row] = &[
    ("1000 gen v0 S", "499500", 2000),
    ("2 3 v1 10 * v0 + tab2", "2 3 0 1 2 10 11 12 arr2.6", 6),
    ("3 10 v0 / 0 or tab1", "3 0 10 5 arr1.3", 3),
    ("3 10 v0 / tab1 dim1", "undefined", 3),
    ("1000000000000 0 v0 tab2", "1000000000000 0 arr2.0", 0),
    // three members and three cells
    (
        "{} 0 5 tup2 one u 0 6 tup2 one u 2 7 tup2 one u idx1",
        "3 5 6 set2 set0 7 set1 arr1.3",
        6,
    ),
    ("{} idx1", "0 arr1.0", 0),
    // {0, 1, 2} and {1, 2, 3} have four members, each counted once
    (
        "1 one 2 one 0 one 2 one 1 one 3 one {} u u u u u u 1 S",
        "4",
        4,
    ),
];

fn assert_found<R: Threads + Sync + Abort>(rt: &R, alloc: Global, row: &Row, budget: u64) {
    let found = outcome_of_row(rt, alloc, row, budget);
    let wanted = wanted_outcome(row, budget);
    assert_same(rt, (row.0, budget, found), (row.0, budget, wanted));
}

// The value and the turns within just those turns, and Spent at one turn less.
#[test]
fn terms_have_their_values_and_turns(rt: HostRuntime) {
    for row in ROWS {
        let turns = u64::from(row.2);
        assert_found(&rt, rt.alloc(), row, turns.saturating_sub(1));
        assert_found(&rt, rt.alloc(), row, turns);
    }
}

#[test]
fn the_greatest_gen_is_spent(rt: HostRuntime) {
    let row = ("max gen", "undefined", 0);
    let found = outcome_of_row(&rt, rt.alloc(), &row, u64::MAX);
    assert_same(&rt, found, Err(EvalFault::Spent));
}
