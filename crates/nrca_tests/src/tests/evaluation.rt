//! Terms with their values and turns, worked out by hand, for each number of workers.

ghost use Rattle.std.specs.Prelude.{◌≤◌};
ghost use Rattle.aql_value.specs.Limits.{most_budget, most_workers};

use crate::tests::outcomes::{Outcome, Row, outcome, wanted_outcome};
use crate::tests::same::assert_same;
use crate::tests::stacks::push_made;
use crate::tests::values::value;
use crate::tests::words::term;
use aql_outside::{FreeGate, Gate};
use aql_value::made::both;
use aql_value::{MOST_BUDGET, MOST_WORKERS, Memory, Value};
use nrca_array::Held;
use nrca_eval::{Globals, evaluate};
use nrca_par::EvalFault;
use nrca_term::Core;
use std::alloc::Global;
use std::process::Abort;
use std::thread::Threads;

// Position 1 is [[3; 10, 20, 30]], position 2 is undefined, position 3 is {1, 2}, and there is no other.
fn positions(alloc: Global) -> Result<Globals, Memory> {
    let mut list = Vec::new(alloc);
    for words in ["3 10 20 30 arr1.3", "undefined", "1 2 set2"] {
        push_made(&mut list, position(alloc, words))?;
    }
    Ok(Globals { list })
}

fn position(alloc: Global, words: &str) -> Result<Option<Held>, Memory> {
    Ok(match value(alloc, words)? {
        Some(value) => Some(Held::Value(value)),
        None => None,
    })
}

fn workers(number: u64) -> u64
    ensures { (1 ≤ result) × (result ≤ most_workers) }
{
    match number {
        0 => 1,
        1 => 2,
        2 => 3,
        3 => 8,
        _ => MOST_WORKERS,
    }
}

// A term, its value, and the positions that it is evaluated among.
#[derive(Drop)]
struct Case {
    term: Core,
    value: Option<Value>,
    globals: Globals,
}

fn case_of(alloc: Global, words: &str, wanted: &str) -> Result<Case, Memory> {
    let parts = both(term(alloc, words), value(alloc, wanted));
    let ((term, value), globals) = both(parts, positions(alloc))?;
    Ok(Case {
        term,
        value,
        globals,
    })
}

fn evaluate_case<R: Threads + Sync, G: Gate>(
    rt: &R,
    alloc: Global,
    case: &Case,
    budget: u64,
    workers: u64,
    gate: &G,
) -> Outcome
    requires budget { budget ≤ most_budget }
    requires workers { (1 ≤ workers) × (workers ≤ most_workers) }
{
    let done = evaluate(rt, alloc, &case.term, &case.globals, budget, workers, gate)?;
    let found = outcome(alloc, &done.value, &case.value, done.turns);
    drop(done);
    found
}

pub(crate) fn outcome_of_row<R: Threads + Sync, G: Gate>(
    rt: &R,
    alloc: Global,
    row: &Row,
    budget: u64,
    workers: u64,
    gate: &G,
) -> Outcome
    requires budget { budget ≤ most_budget }
    requires workers { (1 ≤ workers) × (workers ≤ most_workers) }
{
    let case = case_of(alloc, row.0, row.1)?;
    let found = evaluate_case(rt, alloc, &case, budget, workers, gate);
    drop(case);
    found
}

fn meets<R: Threads + Sync + Abort>(rt: &R, alloc: Global, rows: &[Row]) {
    for row in rows {
        for number in 0..5 {
            row_meets(rt, alloc, row, number);
        }
    }
}

// The value and the turns within these turns and within more, and Spent within fewer.
fn row_meets<R: Threads + Sync + Abort>(rt: &R, alloc: Global, row: &Row, number: u64) {
    let turns = u64::from(row.2);
    let workers = workers(number);
    for budget in turns.saturating_sub(2)..turns + 2 {
        let found = outcome_of_row(rt, alloc, row, budget, workers, &FreeGate);
        let place = (row.0, workers, budget);
        assert_same(rt, (place, found), (place, wanted_outcome(row, budget)));
    }
}

const CONSTANTS_AND_OPERATIONS: &[Row] = &[
    ("5 T tup2 p2/2", "T", 0),
    ("5 T tup2 p1/3", "undefined", 0),
    ("'ab", "'ab", 0),
    ("3 5 -", "0", 0),
    ("7 2 / 7 2 % tup2", "3 1 tup2", 0),
    ("7 0 %", "undefined", 0),
    ("max 1 +", "undefined", 0),
    ("max 2 *", "undefined", 0),
    ("1 'ab +", "undefined", 0),
    ("{} 0 one < 'a 'ab >= tup2", "T F tup2", 0),
    ("2 one 1 one u 2 one u", "1 2 set2", 0),
    ("7 one get {} get tup2", "undefined", 0),
    ("4 gen get", "undefined", 4),
    ("bot 3 gen tup2", "undefined", 3),
];

#[test]
fn constants_and_operations(rt: HostRuntime) {
    meets(&rt, rt.alloc(), CONSTANTS_AND_OPERATIONS);
}

const VARIABLES_POSITIONS_AND_CHOICES: &[Row] = &[
    ("3 v0 v0 + let", "6", 0),
    ("bot 2 gen let", "undefined", 0),
    ("v0", "undefined", 0),
    ("g2", "undefined", 0),
    ("g4", "undefined", 0),
    ("g3 v0 S", "3", 2),
    ("T 1 bot if", "1", 0),
    ("3 1 2 if", "undefined", 0),
    ("3 gen v0 S 3 = 4 gen v0 S 9 gen v0 S if", "6", 14),
    ("3 gen v0 S 4 = 4 gen v0 S 9 gen v0 S if", "36", 24),
    ("1 0 / 2 gen v0 S or", "1", 4),
    ("6 9 gen v0 S or", "6", 0),
    ("3 gen bot S 2 gen v0 S or", "1", 10),
];

#[test]
fn variables_positions_and_choices(rt: HostRuntime) {
    meets(&rt, rt.alloc(), VARIABLES_POSITIONS_AND_CHOICES);
}

const SUMS_AND_SETS: &[Row] = &[
    ("1000 gen v0 S", "499500", 2000),
    ("0 gen bot S", "0", 0),
    ("5 v0 S", "undefined", 0),
    ("2 gen max S", "undefined", 4),
    ("2 gen T S", "undefined", 4),
    ("1 one 2 one u 2 one u v0 S", "3", 2),
    ("3 gen 5 gen u 1 S", "5", 13),
    ("3 gen 5 gen u v0 one U", "0 1 2 3 4 set5", 13),
    ("1 0 / one 3 gen u 4 gen S", "undefined", 3),
    ("4 gen v0 2 % one U", "0 1 set2", 8),
    ("3 gen 6 v0 / one U", "undefined", 6),
    ("3 gen 2 gen v1 v0 + one U U", "0 1 2 3 set4", 18),
    ("5 gen 4 gen v1 v0 * S S", "60", 50),
    ("10 gen v0 2 % one U 1 S", "2", 22),
    // repeats are dropped as the members come, and none is lost where that happens
    ("3000 gen v0 7 % one U v0 S", "21", 6007),
    ("3000 gen v0 one U v0 S", "4498500", 9000),
    (
        "3000 gen v0 3 % v0 2 % tup2 one U v0 p1/2 10 * v0 p2/2 + S",
        "63",
        6006,
    ),
    // numbers and pairs of 64 bits, and members past them or of another kind between these
    (
        "3 gen 18446744073709551614 v0 + one U v0 18446744073709551614 - S",
        "3",
        9,
    ),
    (
        "3 gen v0 1 = v0 v0 tup2 one v0 one if U",
        "0 2 1 1 tup2 set3",
        6,
    ),
    (
        "2 gen v0 one v0 2 tup2 one u U",
        "0 1 0 2 tup2 1 2 tup2 set4",
        4,
    ),
    (
        "3 gen 5 v0 - 1 tup2 one U",
        "3 1 tup2 4 1 tup2 5 1 tup2 set3",
        6,
    ),
    // one is undefined
    ("3 gen 6 v0 / v0 tup2 one U", "undefined", 6),
    // packed sets beside an unpacked one with the same members
    ("g3 v0 one U g3 =", "T", 2),
    ("g3 v0 one U g3 u", "1 2 set2", 2),
    // and bound, put into a tuple, compared, indexed, and of members of several kinds walked
    ("3 gen v0 v0 S v0 tup2 let", "3 0 1 2 set3 tup2", 6),
    ("2 gen 3 gen <", "T", 5),
    ("3 gen 3 gen <", "F", 6),
    ("2 gen v0 v0 tup2 one U 2 gen >", "T", 6),
    ("g3 v0 v0 tup2 one U g3 v0 1 tup2 one U =", "F", 4),
    ("g3 v0 v0 tup2 one U idx1 2 sub1", "2 set1", 7),
    (
        "g3 v0 1 = v0 v0 tup2 one v0 one if U v0 one U",
        "2 1 1 tup2 set2",
        4,
    ),
];

#[test]
fn sums_and_sets(rt: HostRuntime) {
    meets(&rt, rt.alloc(), SUMS_AND_SETS);
}

const ARRAYS: &[Row] = &[
    ("2 3 v1 10 * v0 + tab2", "2 3 0 1 2 10 11 12 arr2.6", 6),
    ("1000000000000 0 v0 tab2", "1000000000000 0 arr2.0", 0),
    ("bot 3 gen tab1", "undefined", 0),
    ("3 10 v0 / tab1 dim1", "undefined", 3),
    ("3 2 gen v0 S v0 + tab1", "3 1 2 3 arr1.3", 15),
    ("2 3 0 tab2 dim2", "2 3 tup2", 6),
    ("2 3 0 tab2 dim1", "undefined", 6),
    ("g1 1 sub1", "20", 0),
    ("g1 3 sub1", "undefined", 0),
    ("g1 1 1 sub2", "undefined", 0),
    ("g1 dim1 gen g1 v0 sub1 S", "60", 6),
    ("3 v0 v0 * tab1 v0 dim1 gen v1 v0 sub1 S let", "5", 9),
    ("2 7 8 lit1.2", "2 7 8 arr1.2", 0),
    ("3 7 8 lit1.2", "undefined", 0),
    ("0 1000 lit2.0", "0 1000 arr2.0", 0),
    ("3 gen v0 S v0 v0 v1 + tab1 let", "3 3 4 5 arr1.3", 9),
    ("g1 g1 dim1 sub1 7 or", "7", 0),
    ("2 gen g2 dim1 S", "undefined", 4),
];

#[test]
fn arrays(rt: HostRuntime) {
    meets(&rt, rt.alloc(), ARRAYS);
}

const INDICES: &[Row] = &[
    (
        "0 5 tup2 one 2 7 tup2 one u 0 6 tup2 one u idx1",
        "3 5 6 set2 set0 7 set1 arr1.3",
        6,
    ),
    ("0 1 tup2 9 tup2 one idx2", "1 2 set0 9 set1 arr2.2", 3),
    ("{} idx1", "0 arr1.0", 0),
    ("max 1 tup2 one idx1", "undefined", 1),
    ("5 one idx1", "undefined", 1),
    // pairs with equal first numbers, in pieces, and an index past the end
    ("8 gen v0 3 % v0 tup2 one U idx1 2 sub1", "2 5 set2", 27),
    ("8 gen v0 3 % v0 tup2 one U idx1 3 sub1", "undefined", 27),
    ("2 gen 5 v0 tup2 one U idx1 dim1", "6", 12),
    // one index alone, one pair, and members of several kinds
    ("0 5 tup2 one 0 6 tup2 one u idx1 dim1", "1", 3),
    ("1 9 tup2 one idx1", "2 set0 9 set1 arr1.2", 3),
    (
        "0 T tup2 one 1 7 tup2 one u idx1",
        "2 T set1 7 set1 arr1.2",
        4,
    ),
    ("1 max tup2 one idx1", "2 set0 max set1 arr1.2", 3),
    // cells of packed pairs compared with written ones, walked as a loop's set, and put into a tuple
    (
        "0 5 tup2 one 1 6 tup2 one u idx1 2 5 one 6 one lit1.2 =",
        "T",
        4,
    ),
    ("0 5 tup2 one 0 6 tup2 one u idx1 0 sub1 v0 S", "11", 5),
    (
        "0 5 tup2 one 1 6 tup2 one u idx1 2 gen v1 v0 sub1 U let",
        "5 6 set2",
        8,
    ),
    ("1 5 tup2 one idx1 7 tup2", "2 set0 5 set1 arr1.2 7 tup2", 3),
];

#[test]
fn indices(rt: HostRuntime) {
    meets(&rt, rt.alloc(), INDICES);
}

fn is_spent<R: Threads + Sync>(rt: &R, alloc: Global, words: &'static str, budget: u64) -> bool
    requires { budget ≤ most_budget }
{
    let row = (words, "undefined", 0);
    outcome_of_row(rt, alloc, &row, budget, 2, &FreeGate) == Err(EvalFault::Spent)
}

// Within no turn, one, and the most.
fn are_spent<R: Threads + Sync>(rt: &R, alloc: Global, words: &'static str) -> [bool; 3] {
    [
        is_spent(rt, alloc, words, 0),
        is_spent(rt, alloc, words, 1),
        is_spent(rt, alloc, words, MOST_BUDGET),
    ]
}

const GREATEST: &[&str] = &[
    "max gen",
    "max gen v0 S",
    "max v0 tab1",
    "bot max gen tup2",
    "18446744073709551615 1 tup2 one idx1",
];

#[test]
fn the_greatest_loops_are_spent(rt: HostRuntime) {
    for words in GREATEST {
        let found = are_spent(&rt, rt.alloc(), words);
        assert_same(&rt, (*words, found), (*words, [true; 3]));
    }
}

const PARTS_AND_TESTS: &[Row] = &[
    // an array in a tuple, read in its range and past it
    ("3 v0 10 * tab1 7 tup2 v0 p1/2 2 sub1 let", "20", 3),
    ("3 v0 10 * tab1 7 tup2 v0 p1/2 3 sub1 let", "undefined", 3),
    ("3 v0 10 * tab1 7 tup2 v0 p1/2 dim1 let", "3", 3),
    ("3 v0 10 * tab1 7 tup2 v0 p1/2 dim2 let", "undefined", 3),
    ("3 v0 10 * tab1 7 tup2 3 gen v1 p1/2 v0 sub1 S let", "30", 9),
    // a part past the end, of a number, within a part
    ("3 v0 10 * tab1 7 tup2 v0 p1/3 let", "undefined", 3),
    ("5 v0 p1/2 let", "undefined", 0),
    ("1 3 v0 tab1 'ab tup2 tup2 v0 p2/2 p2/2 let", "'ab", 3),
    (
        "1 3 v0 tab1 'ab tup2 tup2 v0 p2/2 p1/2 2 gen v0 S sub1 let",
        "1",
        7,
    ),
    // an array of arrays
    (
        "2 3 v0 v1 + tab1 tab1 5 tup2 v0 p1/2 1 sub1 2 sub1 let",
        "3",
        8,
    ),
    // tests past 64 bits, undefined, of other kinds, and within tests
    ("max max = 1 2 if", "1", 0),
    ("max 1 + 3 = 1 2 if", "undefined", 0),
    ("1 2 < 3 = 1 2 if", "2", 0),
    ("'ab 'b < 1 2 if", "1", 0),
    ("1 1 = 0 1 if 0 = 5 6 if", "5", 0),
    ("2 1 < 0 1 if 0 = 5 6 if", "6", 0),
    ("2 1 < bot 6 if", "6", 0),
    // members of sets that are not made, of one kind and of several, and one that is undefined
    (
        "6 gen v0 2 % 0 = 'even one v0 3 % 0 = 'three one 'odd one if if U",
        "'even 'odd 'three set3",
        12,
    ),
    (
        "3 gen v0 1 = 1 one v0 2 = 'a one {} if if U",
        "1 'a set2",
        6,
    ),
    ("3 gen v0 1 = bot one 'a one if U", "undefined", 6),
    ("2 gen 2 gen one U", "0 1 set2 set1", 8),
];

#[test]
fn parts_and_tests(rt: HostRuntime) {
    meets(&rt, rt.alloc(), PARTS_AND_TESTS);
}

const BLOCKS: &[Row] = &[
    // sums that end in a block, with one and behind one
    ("511 gen v0 v0 * 97 % S", "24343", 1022),
    ("512 gen v0 v0 * 97 % S", "24437", 1024),
    ("513 gen v0 v0 * 97 % S", "24487", 1026),
    ("1024 gen v0 v0 * 97 % S", "49293", 2048),
    ("1025 gen v0 v0 * 97 % S", "49299", 2050),
    // numbers at 2^64-1, and one past it
    (
        "600 gen 18446744073709551615 v0 - S 18446744073709551615 %",
        "18446744073709371915",
        1200,
    ),
    (
        "600 gen 18446744073709551615 v0 - 1 + S 18446744073709551615 %",
        "18446744073709372515",
        1200,
    ),
    // undefined in the middle
    ("600 gen v0 300 = max max * 1 if S", "undefined", 1200),
    ("600 gen 1 v0 300 = 0 1 if / S", "undefined", 1200),
    // branches that are not taken, and undefined there
    ("600 gen v0 0 = 7 1 v0 / if S", "8", 1200),
    ("600 gen v0 599 <= v0 bot if S", "179700", 1200),
    // variables within and without
    ("5 600 gen v0 v1 + S let", "182700", 1200),
    ("600 gen v0 3 * v0 v1 + let S", "718800", 1200),
    // sets of numbers, of pairs and of both, and two sets
    ("600 gen v0 2 * one U v0 S", "359400", 1800),
    (
        "600 gen v0 10 % v0 tup2 one U v0 p1/2 v0 p2/2 * S",
        "813600",
        1800,
    ),
    (
        "600 gen v0 10 % v0 tup2 one U v0 v0 p2/2 v1 p1/2 - let S",
        "177000",
        1800,
    ),
    ("600 gen v0 10 % v0 tup2 one U v0 p1/3 S", "undefined", 1800),
    (
        "600 gen v0 300 < v0 one v0 1 tup2 one if U v0 v0 = 1 0 if S",
        "600",
        1800,
    ),
    ("600 gen 700 gen u v0 S", "244650", 2000),
    // big unions of one member, of none, and of pairs
    ("1025 gen v0 100 % one U v0 S", "4950", 2150),
    ("1025 gen v0 3 % 0 = v0 one {} if U v0 S", "174933", 2392),
    (
        "600 gen v0 7 % v0 5 % tup2 one U v0 p1/2 10 * v0 p2/2 + S",
        "1120",
        1235,
    ),
    ("5 gen 600 gen v1 v0 + one U U v0 S", "182106", 6614),
    (
        "100 gen v0 10 % v0 tup2 one U 100 gen v1 p1/2 v0 10 % = v1 p2/2 1000 * v0 + one {} if U U v0 S",
        "49549500",
        21300,
    ),
    // tabulations of rank 1 to 3, read by cells
    ("1025 v0 v0 * tab1 700 sub1", "490000", 1025),
    (
        "1025 v0 2 * tab1 1025 gen v1 v0 sub1 S let",
        "1049600",
        3075,
    ),
    (
        "1025 v0 2 * tab1 1025 gen v1 v0 1 + sub1 S let",
        "undefined",
        3075,
    ),
    (
        "30 600 v1 1000 * v0 + tab2 30 gen 600 gen v2 v1 v0 sub2 S S let",
        "266391000",
        54060,
    ),
    (
        "3 4 20 v2 100 * v1 10 * + v0 + tab3 2 3 19 sub3",
        "249",
        240,
    ),
    ("3 4 5 v2 100 * v1 10 * + v0 + tab3 2 3 4 sub3", "234", 60),
    ("3 600 5 v2 v1 * v0 + tab3 2 599 3 sub3", "1201", 9000),
    // dimensions 0
    ("600 0 v0 tab2", "600 0 arr2.0", 0),
    ("0 600 v0 tab2", "0 600 arr2.0", 0),
    // an undefined cell in a row
    ("3 600 v0 599 = 1 0 / v0 if tab2", "undefined", 1800),
];

#[test]
fn loops_over_blocks(rt: HostRuntime) {
    meets(&rt, rt.alloc(), BLOCKS);
}
