//! The terms that are found as numbers, or as sets of at most one number of 64 bits, and those that are not.

use crate::tests::same::assert_same;
use crate::tests::stacks::push_made;
use crate::tests::values::value;
use crate::tests::words::term;
use aql_value::made::both;
use aql_value::{Memory, Value};
use nrca_array::{Flat, Held};
use nrca_loops::{Env, Globals};
use nrca_numbers::{AtMostOne, Small, few, quick};
use std::alloc::Global;

// Position 1 is 7, position 2 is [[3; 5, 6, 7]], position 3 is (3, 2^128-1), position 4 is [[2, 1; 8, 9]], and there is no other.
fn positions(alloc: Global) -> Result<Globals, Memory> {
    let mut list = Vec::new(alloc);
    for words in ["7", "3 5 6 7 arr1.3", "3 max tup2", "2 1 8 9 arr2.2"] {
        push_made(&mut list, position(alloc, words))?;
    }
    Ok(Globals { list })
}

// A position that is packed where it can be.
fn position(alloc: Global, words: &str) -> Result<Option<Held>, Memory> {
    Ok(match value(alloc, words)? {
        Some(Value::Grid(cells)) => Some(Held::Flat(Flat::from_cells(alloc, cells)?)),
        Some(value) => Some(Held::Value(value)),
        None => None,
    })
}

// The number that is found of a term, where variable 0 is 4 and variable 1 is 9.
fn find_number(alloc: Global, words: &str) -> Result<Option<u128>, Memory> {
    let (term, globals) = both(term(alloc, words), positions(alloc))?;
    let nine = Held::Value(Value::Nat(9));
    let outer = Env::Bound(&nine, &Env::Empty);
    let number = quick(&term, &globals, &Env::Indices(&[4], &outer));
    drop(term);
    drop(globals);
    drop(nine);
    Ok(number)
}

// The greatest number.
const MOST: u128 = 340282366920938463463374607431768211455;

const ROWS: &[(&str, Option<u128>)] = &[
    ("7", Some(7)),
    ("18446744073709551615", Some(18446744073709551615)),
    ("max", Some(MOST)),
    ("v0", Some(4)),
    ("v1", Some(9)),
    ("v0 v1 *", Some(36)),
    ("18446744073709551614 1 +", Some(18446744073709551615)),
    ("18446744073709551615 1 +", Some(18446744073709551616)),
    // past the greatest number
    ("max 1 +", None),
    ("max max *", None),
    // a number that passes 64 bits on the way
    ("18446744073709551615 1 + 1 -", Some(18446744073709551615)),
    ("4294967296 4294967295 *", Some(18446744069414584320)),
    ("4294967296 4294967296 *", Some(18446744073709551616)),
    ("3 5 -", Some(0)),
    ("17 5 /", Some(3)),
    ("17 5 %", Some(2)),
    // undefined, alone and in the middle
    ("17 0 /", None),
    ("17 0 % 1 +", None),
    ("7 v0 v1 + let", Some(11)),
    ("v0 1 + v0 v0 * let", Some(25)),
    ("17 0 / 1 let", None),
    ("g2 v0 1 sub1 let", Some(6)),
    ("1 2 < 3 17 0 / if", Some(3)),
    ("2 1 < 17 0 / 3 if", Some(3)),
    ("2 1 < 3 17 0 / if", None),
    ("2 2 = 3 4 if", Some(3)),
    ("2 2 <> 3 4 if", Some(4)),
    ("2 2 < 3 4 if", Some(4)),
    ("2 2 <= 3 4 if", Some(3)),
    ("2 2 > 3 4 if", Some(4)),
    ("2 2 >= 3 4 if", Some(3)),
    ("g1", Some(7)),
    ("bot", None),
    ("g3 p1/2", Some(3)),
    ("g3 p2/2", Some(MOST)),
    ("g3 p1/3", None),
    ("g2 1 sub1", Some(6)),
    ("g2 3 sub1", None),
    ("g2 1 1 sub2", None),
    ("g4 1 0 sub2", Some(9)),
    ("g4 1 1 sub2", None),
    ("g2 dim1", Some(3)),
    ("g4 dim2", None),
];

#[test]
fn numbers_are_found(rt: HostRuntime) {
    for row in ROWS {
        let found = find_number(rt.alloc(), row.0);
        assert_same(&rt, (row.0, found), (row.0, Ok(row.1)));
    }
}

// A member that is found: a number, or a pair of two.
type Member = (u64, Option<u64>);

// The members of the set that is found of a term, with the same positions and variables.
fn members(alloc: Global, words: &str) -> Result<Option<Option<Member>>, Memory> {
    let (term, globals) = both(term(alloc, words), positions(alloc))?;
    let nine = Held::Value(Value::Nat(9));
    let outer = Env::Bound(&nine, &Env::Empty);
    let set = few(&term, &globals, &Env::Indices(&[4], &outer));
    drop(term);
    drop(globals);
    drop(nine);
    Ok(match set {
        Some(AtMostOne::Nothing) => Some(None),
        Some(AtMostOne::One(Small::Number(n))) => Some(Some((n, None))),
        Some(AtMostOne::One(Small::Pair(m, n))) => Some(Some((m, Some(n)))),
        None => None,
    })
}

const SETS: &[(&str, Option<Option<Member>>)] = &[
    ("{}", Some(None)),
    ("v0 one", Some(Some((4, None)))),
    (
        "18446744073709551615 one",
        Some(Some((18446744073709551615, None))),
    ),
    ("18446744073709551615 1 + one", None),
    // undefined
    ("17 0 / one", None),
    ("v0 v1 < v0 one {} if", Some(Some((4, None)))),
    ("v1 v0 < v0 one {} if", Some(None)),
    ("v1 0 / v0 < v0 one {} if", None),
    ("v1 v0 < 17 0 / one {} if", Some(None)),
    ("v0 1 + v0 one let", Some(Some((5, None)))),
    ("g2 v0 3 - sub1 v0 one let", Some(Some((6, None)))),
    ("g2 v0 1 sub1 one let", Some(Some((6, None)))),
    ("g3 one", None),
    ("5 gen", None),
    ("v0 v1 tup2 one", Some(Some((4, Some(9))))),
    ("v1 v0 tup2 one", Some(Some((9, Some(4))))),
    (
        "1 18446744073709551615 tup2 one",
        Some(Some((1, Some(18446744073709551615)))),
    ),
    ("1 18446744073709551615 1 + tup2 one", None),
    ("max 1 tup2 one", None),
    ("1 0 / 1 tup2 one", None),
    ("1 2 tup2 3 tup2 one", None),
];

#[test]
fn sets_of_at_most_one_are_found(rt: HostRuntime) {
    for row in SETS {
        let found = members(rt.alloc(), row.0);
        assert_same(&rt, (row.0, found), (row.0, Ok(row.1)));
    }
}

// The number that is found of a term, where variable 0 is ([[3; 5, 6, 7]], (8, [[2, 1; 9, 2^128-1]])).
fn found_in_parts(alloc: Global, words: &str) -> Result<Option<u128>, Memory> {
    let parts = "3 5 6 7 arr1.3 8 2 1 9 max arr2.2 tup2 tup2";
    let (term, held) = both(term(alloc, words), position(alloc, parts))?;
    let globals = Globals {
        list: Vec::new(alloc),
    };
    let number = match &held {
        Some(tuple) => quick(&term, &globals, &Env::Bound(tuple, &Env::Empty)),
        None => None,
    };
    drop(term);
    drop(held);
    drop(globals);
    Ok(number)
}

const PARTS: &[(&str, Option<u128>)] = &[
    ("v0 p2/2 p1/2", Some(8)),
    ("v0 p1/2 1 sub1", Some(6)),
    ("v0 p1/2 v0 p2/2 p1/2 6 - sub1", Some(7)),
    ("v0 p1/2 dim1", Some(3)),
    ("v0 p2/2 p2/2 0 0 sub2", Some(9)),
    // past 64 bits
    ("v0 p2/2 p2/2 1 0 sub2", Some(MOST)),
    // past the end, of another rank, of another kind
    ("v0 p1/2 3 sub1", None),
    ("v0 p2/2 p2/2 0 1 sub2", None),
    ("v0 p1/2 1 1 sub2", None),
    ("v0 p1/2 dim2", None),
    ("v0 p2/2 p2/2 dim2", None),
    ("v0 p1/3", None),
    ("v0 p1/2", None),
    ("v0 p1/2 p1/2", None),
    ("v0 p2/2 p1/2 p1/2", None),
    ("v0 p2/2 p1/2 0 sub1", None),
    ("v0 p2/2 p1/2 dim1", None),
    // about the greatest number of 64 bits
    ("18446744073709551615 1 *", Some(18446744073709551615)),
    ("18446744073709551615 2 *", Some(36893488147419103230)),
    ("0 18446744073709551615 -", Some(0)),
    ("18446744073709551615 18446744073709551614 /", Some(1)),
    ("18446744073709551615 10 %", Some(5)),
    ("4294967297 4294967295 *", Some(18446744073709551615)),
    (
        "9223372036854775808 9223372036854775808 +",
        Some(18446744073709551616),
    ),
];

#[test]
fn parts_are_found(rt: HostRuntime) {
    for row in PARTS {
        let found = found_in_parts(rt.alloc(), row.0);
        assert_same(&rt, (row.0, found), (row.0, Ok(row.1)));
    }
}
