//! The variables of a block of members.

ghost use Rattle.std.specs.Prelude.{◌≡◌, ◌≤◌, length, Some, IfOk, IfSome};
ghost use Rattle.aql_value.specs.Operations.{dim_of, part_of};
ghost use Rattle.nrca_array.specs.Held.{held_datum};
ghost use Rattle.nrca_term.specs.Meaning.{outcome};
ghost use Rattle.nrca_numbers.specs.Blocks.{AreLong, ArePairs, ArePairsAt, AreVariable, AreAll, IsLent, IsLentVariable};

use crate::lanes::{copy_front, repeat_number};
use crate::small::{small_dim, small_held, small_part, small_variable};
use aql_value::Memory;
use nrca_array::Held;
use nrca_loops::{Env, Globals, lend_value};
use nrca_term::Core;
use std::alloc::Global;

/// The variables of a block of members, the innermost first. A column has a value for each member.
#[derive(Drop)]
pub enum Columns<'a> {
    /// Variables whose values are the same for all members.
    Outside(&'a Env<'a>),
    /// One such variable more.
    Bound(&'a Held, &'a Columns<'a>),
    /// A variable more, whose values are numbers.
    Numbers(&'a [u64], &'a Columns<'a>),
    /// A variable more, whose values are pairs of numbers.
    Pairs(&'a [(u64, u64)], &'a Columns<'a>),
}

/// The numbers that a variable is for the members.
pub(crate) fn variable(
    alloc: Global,
    columns: &Columns,
    at: u64,
    count: usize,
) -> Result<Option<Vec<u64>>, Memory>
    requires { AreLong columns.now count }
    ensures { IfOk result (λ o. IfSome o (λ ns. AreVariable columns.now at count ns.items)) }
{
    match columns {
        Columns::Outside(env) => match small_variable(env, at) {
            Some(number) => repeat_number(alloc, number, count),
            None => Ok(None),
        },
        Columns::Bound(value, rest) => {
            if at > 0 {
                variable(alloc, rest, at - 1, count)
            } else {
                held_repeated(alloc, value, count)
            }
        }
        Columns::Numbers(numbers, rest) => {
            if at > 0 {
                variable(alloc, rest, at - 1, count)
            } else {
                copy_front(alloc, numbers, count)
            }
        }
        Columns::Pairs(_, rest) => {
            if at > 0 {
                variable(alloc, rest, at - 1, count)
            } else {
                Ok(None)
            }
        }
    }
}

/// The number that is held, for each member.
pub(crate) fn held_repeated(
    alloc: Global,
    value: &Held,
    count: usize,
) -> Result<Option<Vec<u64>>, Memory>
    ensures { IfOk result (λ o. IfSome o
        (λ ns. AreAll (Some (held_datum value.now)) count ns.items)) }
{
    match small_held(value) {
        Some(number) => repeat_number(alloc, number, count),
        None => Ok(None),
    }
}

/// The number that a part of a tuple is, for each member.
pub(crate) fn part_repeated(
    alloc: Global,
    value: &Held,
    at: u64,
    of: u64,
    count: usize,
) -> Result<Option<Vec<u64>>, Memory>
    ensures { IfOk result (λ o. IfSome o
        (λ ns. AreAll (part_of at of (held_datum value.now)) count ns.items)) }
{
    match small_part(value, at, of) {
        Some(number) => repeat_number(alloc, number, count),
        None => Ok(None),
    }
}

/// The number that the dimensions of an array of rank 1 are, for each member.
pub(crate) fn dim_repeated(
    alloc: Global,
    array: &Held,
    rank: u64,
    count: usize,
) -> Result<Option<Vec<u64>>, Memory>
    ensures { IfOk result (λ o. IfSome o
        (λ ns. AreAll (dim_of rank (held_datum array.now)) count ns.items)) }
{
    match small_dim(array, rank) {
        Some(number) => repeat_number(alloc, number, count),
        None => Ok(None),
    }
}

/// The value that a term is for all members, where a variable or a position holds it: it is lent and
/// not copied.
pub(crate) fn lent_outside<'a, 'b>(
    term: &Core,
    globals: &'a Globals,
    columns: &'a Columns<'b>,
) -> Option<&'a Held>
    ensures { IfSome result (λ h. IsLent globals.now columns.now term.now h.now) }
{
    match term {
        Core::Var(at) => lent_variable(globals, columns, *at),
        Core::Global(n) => lent_position(globals, columns, *n),
        _ => None,
    }
}

// The value that a variable holds for all members.
fn lent_variable<'a, 'b>(
    globals: &'a Globals,
    columns: &'a Columns<'b>,
    at: u64,
) -> Option<&'a Held>
    ensures { IfSome result (λ h. IsLentVariable columns.now at h.now) }
{
    match columns {
        Columns::Outside(env) => {
            let term = Core::Var(at);
            let found = lend_value(&term, globals, &**env);
            drop(term);
            found
        }
        Columns::Bound(value, rest) => {
            if at > 0 {
                lent_variable(globals, &**rest, at - 1)
            } else {
                Some(&**value)
            }
        }
        Columns::Numbers(_, rest) => {
            if at > 0 {
                lent_variable(globals, &**rest, at - 1)
            } else {
                None
            }
        }
        Columns::Pairs(_, rest) => {
            if at > 0 {
                lent_variable(globals, &**rest, at - 1)
            } else {
                None
            }
        }
    }
}

// The value of a position, which is the same for all members.
fn lent_position<'a, 'b>(globals: &'a Globals, columns: &'a Columns<'b>, n: u64) -> Option<&'a Held>
    ensures { IfSome result (λ h. outcome globals.now n ≡ Some (held_datum h.now)) }
{
    match columns {
        Columns::Outside(env) => {
            let term = Core::Global(n);
            let found = lend_value(&term, globals, &**env);
            drop(term);
            found
        }
        Columns::Bound(_, rest) => lent_position(globals, &**rest, n),
        Columns::Numbers(_, rest) => lent_position(globals, &**rest, n),
        Columns::Pairs(_, rest) => lent_position(globals, &**rest, n),
    }
}

/// The pairs that a term is for the members, where it is a variable and its column has pairs.
pub(crate) fn lent_pairs<'a, 'b>(
    term: &Core,
    columns: &'a Columns<'b>,
    count: usize,
) -> Option<&'a [(u64, u64)]>
    requires { AreLong columns.now count }
    ensures long { IfSome result (λ ps. count ≤ length ps.now) }
    ensures pairs { IfSome result (λ ps. ArePairs columns.now term.now ps.now) }
{
    match term {
        Core::Var(at) => pairs_at(columns, *at, count),
        _ => None,
    }
}

fn pairs_at<'a, 'b>(columns: &'a Columns<'b>, at: u64, count: usize) -> Option<&'a [(u64, u64)]>
    requires { AreLong columns.now count }
    ensures long { IfSome result (λ ps. count ≤ length ps.now) }
    ensures pairs { IfSome result (λ ps. ArePairsAt columns.now at ps.now) }
{
    match columns {
        Columns::Outside(_) => None,
        Columns::Bound(_, rest) => {
            if at > 0 {
                pairs_at(&**rest, at - 1, count)
            } else {
                None
            }
        }
        Columns::Numbers(_, rest) => {
            if at > 0 {
                pairs_at(&**rest, at - 1, count)
            } else {
                None
            }
        }
        Columns::Pairs(pairs, rest) => {
            if at > 0 {
                pairs_at(&**rest, at - 1, count)
            } else {
                Some(&**pairs)
            }
        }
    }
}
