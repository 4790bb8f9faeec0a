//! Numbers of 128 bits: how two compare, and those that values, cells, dimensions and variables
//! are.

ghost use Rattle.std.specs.Prelude.{◌≡◌, ◌<◌, ◌∷◌, [], length, Some, IfSome, slice_get};
ghost use Rattle.std.specs.Ordering.{nat_cmp};
ghost use Rattle.aql_value.specs.Datum.{natural};
ghost use Rattle.aql_value.specs.Indices.{IsTable, cell};
ghost use Rattle.aql_value.specs.Meaning.{datum};
ghost use Rattle.aql_value.specs.Operations.{cell_of, dim_of, part_of};
ghost use Rattle.aql_value.specs.Ops.{compare_by};
ghost use Rattle.nrca_array.specs.Held.{held_datum};
ghost use Rattle.nrca_array.specs.CellNumbers.{IsCellNumber};
ghost use Rattle.nrca_loops.specs.Values.{values};
ghost use Rattle.nrca_numbers.specs.Lending.{lent_datum};

use crate::lending::{Lent, part_lent};
use aql_value::{Cells, CompareOp, Dims, Items, Value, is_below, offset_at};
use nrca_array::{Flat, Held};
use nrca_loops::{Env, index_variable};

/// Whether a comparison holds of two numbers.
pub(crate) fn number_compare(op: CompareOp, a: u128, b: u128) -> bool
    ensures { result ≡ compare_by op (nat_cmp a b) }
{
    match op {
        CompareOp::Equal => a == b,
        CompareOp::Unequal => a != b,
        CompareOp::Less => a < b,
        CompareOp::LessEqual => a <= b,
        CompareOp::Greater => a > b,
        CompareOp::GreaterEqual => a >= b,
    }
}

/// The number that is held.
pub(crate) fn held_number(value: &Held) -> Option<u128>
    ensures { IfSome result (λ n. held_datum value.now ≡ natural n) }
{
    match value {
        Held::Value(value) => value_number(value),
        _ => None,
    }
}

/// The number that a value is.
pub(crate) fn value_number(value: &Value) -> Option<u128>
    ensures { IfSome result (λ n. datum value.now ≡ natural n) }
{
    match value {
        Value::Nat(n) => Some(*n),
        _ => None,
    }
}

/// The number that a part of a tuple is, the parts counted from 1.
pub(crate) fn part_number(value: &Held, at: u64, of: u64) -> Option<u128>
    ensures { IfSome result (λ n. part_of at of (held_datum value.now) ≡ Some (natural n)) }
{
    match value {
        Held::Value(value) => value_part(value, at, of),
        _ => None,
    }
}

fn value_part(value: &Value, at: u64, of: u64) -> Option<u128>
    ensures { IfSome result (λ n. part_of at of (datum value.now) ≡ Some (natural n)) }
{
    match part_lent(value, at, of) {
        Some(part) => value_number(part),
        None => None,
    }
}

/// The number that a cell of an array that is lent is.
#[inline(never)]
pub(crate) fn lent_cell(array: Lent, at: &[u128]) -> Option<u128>
    ensures { IfSome result (λ n. cell_of (lent_datum array.entry) at.now ≡ Some (natural n)) }
{
    match array {
        Lent::Kept(held) => cell_number(held, at),
        Lent::Part(value) => value_cell(value, at),
    }
}

/// The number that a cell of an array is.
#[tactic(auto, using(aql_value::specs::Laws::Datum::data_lists))]
pub(crate) fn cell_number(array: &Held, at: &[u128]) -> Option<u128>
    ensures { IfSome result (λ n. cell_of (held_datum array.now) at.now ≡ Some (natural n)) }
{
    match array {
        Held::Flat(flat) => flat_cell(flat, at),
        Held::Value(value) => value_cell(value, at),
        _ => None,
    }
}

fn flat_cell(flat: &Flat, at: &[u128]) -> Option<u128>
    ensures { IfSome result (λ n. cell flat.now at.now ≡ Some (natural n)) }
{
    flat.natural_at(at)
}

#[tactic(auto, using(aql_value::specs::Laws::Datum::data_lists))]
fn value_cell(array: &Value, at: &[u128]) -> Option<u128>
    ensures { IfSome result (λ n. cell_of (datum array.now) at.now ≡ Some (natural n)) }
{
    match array {
        Value::Grid(cells) => grid_cell(cells, at),
        _ => None,
    }
}

fn grid_cell(cells: &Cells, at: &[u128]) -> Option<u128>
    ensures { IfSome result (λ n. cell cells.now at.now ≡ Some (natural n)) }
{
    match grid_offset(cells, at) {
        Some(place) => item_number(cells.items(), place),
        None => None,
    }
}

// The row-major number of an index: none where there is no such cell.
fn grid_offset(cells: &Cells, at: &[u128]) -> Option<usize>
    ensures { IsCellNumber cells.now at.now result }
{
    let _count = cell_count(cells);
    let dims = cells.dims().dims.as_slice();
    if is_below(at, dims) {
        let place = offset_at(at, dims);
        Some(place as usize)
    } else {
        None
    }
}

fn cell_count(cells: &Cells) -> usize
    ensures count { result ≡ length cells.now.cells }
    ensures table { IsTable cells.now }
{
    cells.items().items.len()
}

// The number that an item is.
fn item_number(items: &Items, i: usize) -> Option<u128>
    requires { i < length items.now }
    ensures { IfSome result (λ n. slice_get items.now i ≡ Some (natural n)) }
{
    value_number(&items.items[i])
}

/// The number that the dimensions of an array of rank 1 that is lent are.
#[inline(never)]
pub(crate) fn lent_dim(array: Lent, rank: u64) -> Option<u128>
    ensures { IfSome result (λ n. dim_of rank (lent_datum array.entry) ≡ Some (natural n)) }
{
    match array {
        Lent::Kept(held) => dim_number(held, rank),
        Lent::Part(value) => value_dim(value, rank),
    }
}

/// The number that the dimensions of an array of rank 1 are.
#[tactic(auto, using(aql_value::specs::Laws::Datum::data_lists))]
pub(crate) fn dim_number(array: &Held, rank: u64) -> Option<u128>
    ensures { IfSome result (λ n. dim_of rank (held_datum array.now) ≡ Some (natural n)) }
{
    match array {
        Held::Flat(flat) => one_dim(flat.dims(), rank),
        Held::Value(value) => value_dim(value, rank),
        _ => None,
    }
}

#[tactic(auto, using(aql_value::specs::Laws::Datum::data_lists))]
fn value_dim(array: &Value, rank: u64) -> Option<u128>
    ensures { IfSome result (λ n. dim_of rank (datum array.now) ≡ Some (natural n)) }
{
    match array {
        Value::Grid(cells) => one_dim(cells.dims(), rank),
        _ => None,
    }
}

// The one dimension.
fn one_dim(dims: &Dims, rank: u64) -> Option<u128>
    ensures { IfSome result (λ n. (rank ≡ 1) × (dims.now ≡ n ∷ [])) }
{
    if rank == 1 && dims.dims.len() == 1 {
        Some(dims.dims[0])
    } else {
        None
    }
}

/// The number that a variable is.
pub(crate) fn variable_number(env: &Env, at: u64) -> Option<u128>
    ensures { IfSome result (λ n. slice_get (values env.now) at ≡ Some (natural n)) }
{
    match env {
        Env::Empty => None,
        Env::Bound(value, rest) => {
            if at == 0 {
                held_number(value)
            } else {
                variable_number(rest, at - 1)
            }
        }
        Env::Indices(numbers, rest) => match index_variable(numbers, at) {
            Ok(number) => Some(number),
            Err(beyond) => variable_number(rest, beyond),
        },
    }
}
