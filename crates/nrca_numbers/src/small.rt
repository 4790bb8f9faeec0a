//! Numbers of 64 bits: what operations make of them, and those that values, cells, dimensions and
//! variables are. Nothing is answered of a number past 2^64-1.

ghost use Rattle.std.specs.Prelude.{◌≡◌, Some, IfSome, slice_get};
ghost use Rattle.std.specs.Ordering.{nat_cmp};
ghost use Rattle.aql_value.specs.Datum.{natural};
ghost use Rattle.aql_value.specs.Operations.{cell_of, dim_of, part_of};
ghost use Rattle.aql_value.specs.Ops.{arith_by, compare_by};
ghost use Rattle.nrca_array.specs.Held.{held_datum};
ghost use Rattle.nrca_loops.specs.Values.{values};

use crate::naturals::{
    cell_number, dim_number, held_number, number_compare, part_number, variable_number,
};
use aql_value::{ArithOp, CompareOp};
use nrca_array::Held;
use nrca_loops::Env;

/// The number, where it has 64 bits.
pub fn small(n: u128) -> Option<u64>
    ensures { IfSome result (λ m. n ≡ m) }
{
    if n <= 18446744073709551615 {
        Some(n as u64)
    } else {
        None
    }
}

/// The number that an operation makes of two, where it has 64 bits.
pub(crate) fn small_arith(op: ArithOp, a: u64, b: u64) -> Option<u64>
    ensures { IfSome result (λ k. arith_by op a b ≡ Some k) }
{
    match op {
        ArithOp::Add => a.checked_add(b),
        ArithOp::Monus => Some(a.saturating_sub(b)),
        ArithOp::Mul => a.checked_mul(b),
        ArithOp::Quotient => a.checked_div(b),
        ArithOp::Remainder => a.checked_rem(b),
    }
}

/// Whether a comparison holds of two numbers.
pub(crate) fn small_compare(op: CompareOp, a: u64, b: u64) -> bool
    ensures { result ≡ compare_by op (nat_cmp a b) }
{
    number_compare(op, u128::from(a), u128::from(b))
}

/// The number that is held.
pub(crate) fn small_held(value: &Held) -> Option<u64>
    ensures { IfSome result (λ n. held_datum value.now ≡ natural n) }
{
    small(held_number(value)?)
}

/// The number that a part of a tuple is, the parts counted from 1.
pub(crate) fn small_part(value: &Held, at: u64, of: u64) -> Option<u64>
    ensures { IfSome result (λ n. part_of at of (held_datum value.now) ≡ Some (natural n)) }
{
    small(part_number(value, at, of)?)
}

/// The number that a cell of an array is.
pub(crate) fn small_cell(array: &Held, at: &[u128]) -> Option<u64>
    ensures { IfSome result (λ n. cell_of (held_datum array.now) at.now ≡ Some (natural n)) }
{
    small(cell_number(array, at)?)
}

/// The number that the dimensions of an array of rank 1 are.
pub(crate) fn small_dim(array: &Held, rank: u64) -> Option<u64>
    ensures { IfSome result (λ n. dim_of rank (held_datum array.now) ≡ Some (natural n)) }
{
    small(dim_number(array, rank)?)
}

/// The number that a variable is.
pub(crate) fn small_variable(env: &Env, at: u64) -> Option<u64>
    ensures { IfSome result (λ n. slice_get (values env.now) at ≡ Some (natural n)) }
{
    small(variable_number(env, at)?)
}
