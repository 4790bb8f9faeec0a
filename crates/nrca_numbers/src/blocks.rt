//! Terms over a block of members, all members at once.

ghost use Rattle.std.specs.Prelude.{IfOk, IfSome};
ghost use Rattle.nrca_numbers.specs.Blocks.{AreCellsOf, AreFew, AreLong, AreNumbers, AreSinglePairs, AreSingles, AreTruths};

use crate::columns::{
    Columns, dim_repeated, held_repeated, lent_outside, lent_pairs, part_repeated, variable,
};
use crate::lanes::{
    arith_lanes, cells_lanes, chosen_lanes, compared_lanes, nothing, pair_sets_lanes, parts,
    repeat_number, sets_lanes, table_lanes, truth_repeated,
};
use crate::sets::AtMostOne;
use crate::small::small;
use aql_value::Memory;
use nrca_array::Held;
use nrca_loops::Globals;
use nrca_term::{Core, Terms};
use std::alloc::Global;

/// The numbers that a term is for the first members of a block, where it is one below 2^64 for each of
/// them, found without turns.
#[cycle(numbers)]
pub fn numbers(
    alloc: Global,
    term: &Core,
    globals: &Globals,
    columns: &Columns,
    count: usize,
) -> Result<Option<Vec<u64>>, Memory>
    requires { AreLong columns.now count }
    ensures { IfOk result (λ o. IfSome o (AreNumbers globals.now columns.now term.now count)) }
{
    match term {
        Core::Nat(n) => match small(*n) {
            Some(number) => repeat_number(alloc, number, count),
            None => Ok(None),
        },
        Core::Var(at) => variable(alloc, columns, *at, count),
        Core::Global(_) => match lent_outside(term, &*globals, &*columns) {
            Some(held) => held_repeated(alloc, held, count),
            None => Ok(None),
        },
        Core::Arith(op, first, second) => {
            let Some(a) = numbers(alloc, first, globals, columns, count)? else {
                return Ok(None);
            };
            arith_lanes(*op, a, numbers(alloc, second, globals, columns, count))
        }
        Core::If(test, yes, no) => {
            let Some(test) = truths(alloc, test, globals, columns, count)? else {
                return Ok(None);
            };
            let yes = numbers(alloc, yes, globals, columns, count);
            let no = numbers(alloc, no, globals, columns, count);
            chosen_lanes(test, yes, no)
        }
        Core::Let(bound, body) => match lent_outside(bound, &*globals, &*columns) {
            Some(value) => {
                let inner = Columns::Bound(value, &*columns);
                numbers(alloc, body, &*globals, &inner, count)
            }
            None => match lent_pairs(bound, &*columns, count) {
                Some(pairs) => {
                    let inner = Columns::Pairs(pairs, &*columns);
                    numbers(alloc, body, &*globals, &inner, count)
                }
                None => {
                    let Some(a) = numbers(alloc, bound, &*globals, &*columns, count)? else {
                        return Ok(None);
                    };
                    let inner = Columns::Numbers(a.as_slice(), &*columns);
                    let found = numbers(alloc, body, &*globals, &inner, count);
                    drop(a);
                    found
                }
            },
        },
        Core::Proj { at, of, part } => match lent_pairs(part, &*columns, count) {
            Some(pairs) => parts(alloc, pairs, *at, *of, count),
            None => match lent_outside(part, &*globals, &*columns) {
                Some(held) => part_repeated(alloc, held, *at, *of, count),
                None => Ok(None),
            },
        },
        Core::Sub { array, at } => match lent_outside(array, &*globals, &*columns) {
            Some(held) => cells(alloc, held, at, &*globals, &*columns, count),
            None => Ok(None),
        },
        Core::Dim { rank, array } => match lent_outside(array, &*globals, &*columns) {
            Some(held) => dim_repeated(alloc, held, *rank, count),
            None => Ok(None),
        },
        _ => Ok(None),
    }
}

// The numbers that are cells of an array at the indices that terms are. Arrays of rank 1 and 2 alone
// are read.
#[cycle(numbers)]
#[inline(never)]
fn cells(
    alloc: Global,
    array: &Held,
    at: &Terms,
    globals: &Globals,
    columns: &Columns,
    count: usize,
) -> Result<Option<Vec<u64>>, Memory>
    requires { AreLong columns.now count }
    ensures { IfOk result
        (λ o. IfSome o (AreCellsOf globals.now columns.now array.now at.now count)) }
{
    if at.0.len() == 1 {
        let Some(a) = numbers(alloc, &at.0[0], globals, columns, count)? else {
            return Ok(None);
        };
        return Ok(cells_lanes(array, a));
    }
    if at.0.len() != 2 {
        return Ok(None);
    }
    let Some(a) = numbers(alloc, &at.0[0], globals, columns, count)? else {
        return Ok(None);
    };
    table_lanes(array, a, numbers(alloc, &at.0[1], globals, columns, count))
}

// The truth values that a term is for the first members.
#[cycle(numbers)]
fn truths(
    alloc: Global,
    term: &Core,
    globals: &Globals,
    columns: &Columns,
    count: usize,
) -> Result<Option<Vec<bool>>, Memory>
    requires { AreLong columns.now count }
    ensures { IfOk result (λ o. IfSome o (AreTruths globals.now columns.now term.now count)) }
{
    match term {
        Core::Bool(b) => truth_repeated(alloc, *b, count),
        Core::Compare(op, first, second) => {
            let Some(a) = numbers(alloc, first, globals, columns, count)? else {
                return Ok(None);
            };
            compared_lanes(
                alloc,
                *op,
                a,
                numbers(alloc, second, globals, columns, count),
            )
        }
        Core::If(test, yes, no) => {
            let Some(test) = truths(alloc, test, globals, columns, count)? else {
                return Ok(None);
            };
            let yes = truths(alloc, yes, globals, columns, count);
            let no = truths(alloc, no, globals, columns, count);
            chosen_lanes(test, yes, no)
        }
        _ => Ok(None),
    }
}

/// The sets that a term is for the first members of a block, where it is one of at most one number or
/// pair of numbers for each of them, found without turns.
#[cycle(few_each)]
pub(crate) fn few_each(
    alloc: Global,
    term: &Core,
    globals: &Globals,
    columns: &Columns,
    count: usize,
) -> Result<Option<Vec<AtMostOne>>, Memory>
    requires { AreLong columns.now count }
    ensures { IfOk result (λ o. IfSome o (AreFew globals.now columns.now term.now count)) }
{
    match term {
        Core::Empty => nothing(alloc, count),
        Core::Single(of) => single_each(alloc, of, globals, columns, count),
        Core::If(test, yes, no) => {
            let Some(test) = truths(alloc, test, globals, columns, count)? else {
                return Ok(None);
            };
            let yes = few_each(alloc, yes, globals, columns, count);
            let no = few_each(alloc, no, globals, columns, count);
            chosen_lanes(test, yes, no)
        }
        Core::Let(bound, body) => match lent_outside(bound, &*globals, &*columns) {
            Some(value) => {
                let inner = Columns::Bound(value, &*columns);
                few_each(alloc, body, &*globals, &inner, count)
            }
            None => match lent_pairs(bound, &*columns, count) {
                Some(pairs) => {
                    let inner = Columns::Pairs(pairs, &*columns);
                    few_each(alloc, body, &*globals, &inner, count)
                }
                None => {
                    let Some(a) = numbers(alloc, bound, &*globals, &*columns, count)? else {
                        return Ok(None);
                    };
                    let inner = Columns::Numbers(a.as_slice(), &*columns);
                    let found = few_each(alloc, body, &*globals, &inner, count);
                    drop(a);
                    found
                }
            },
        },
        _ => Ok(None),
    }
}

// The sets of the one number or pair of numbers that a term is.
fn single_each(
    alloc: Global,
    of: &Core,
    globals: &Globals,
    columns: &Columns,
    count: usize,
) -> Result<Option<Vec<AtMostOne>>, Memory>
    requires { AreLong columns.now count }
    ensures { IfOk result (λ o. IfSome o (AreSingles globals.now columns.now of.now count)) }
{
    match of {
        Core::Tuple(parts) => pairs_each(alloc, parts, globals, columns, count),
        _ => {
            let Some(a) = numbers(alloc, of, globals, columns, count)? else {
                return Ok(None);
            };
            let found = sets_lanes(alloc, a.as_slice());
            drop(a);
            found
        }
    }
}

// The sets of the one pair of the two numbers that terms are.
fn pairs_each(
    alloc: Global,
    parts: &Terms,
    globals: &Globals,
    columns: &Columns,
    count: usize,
) -> Result<Option<Vec<AtMostOne>>, Memory>
    requires { AreLong columns.now count }
    ensures { IfOk result (λ o. IfSome o (AreSinglePairs globals.now columns.now parts.now count)) }
{
    if parts.0.len() != 2 {
        return Ok(None);
    }
    let Some(a) = numbers(alloc, &parts.0[0], globals, columns, count)? else {
        return Ok(None);
    };
    pair_sets_lanes(
        alloc,
        a,
        numbers(alloc, &parts.0[1], globals, columns, count),
    )
}
