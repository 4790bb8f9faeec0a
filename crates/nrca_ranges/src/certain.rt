//! Whether a node has a value wherever its parts have, by their shapes.

ghost use Rattle.std.specs.Prelude.{◌≡◌, ◌&&◌, nat_eq, map};
ghost use Rattle.aql_value.specs.Indices.{product};
ghost use Rattle.aql_value.specs.Limits.{saturate};
ghost use Rattle.nrca_term.specs.View.{pure_strict};
ghost use Rattle.nrca_ranges.specs.Certain as certainty;
ghost use Rattle.nrca_ranges.specs.Intervals as intervals;
ghost use Rattle.nrca_ranges.specs.Shapes.{bounds_of, bounds_each, certain_by_form};
ghost use Rattle.nrca_ranges.specs.Transfer.{interval_of};

use crate::interval::Interval;
use crate::operations::{always_fits, is_below, is_one, is_single, sum_fits};
use crate::positions::GlobalShapes;
use crate::shape::{Shape, number_interval};
use crate::transfer::{count_at, number_at};
use nrca_term::{Form, Strict};

/// Whether a node of the form has a value wherever its parts have, by their shapes.
pub(crate) fn form_certain<'a>(form: Form<'a>, shapes: &[Shape], globals: &GlobalShapes) -> bool
    ensures { result ≡ certain_by_form globals.now form.entry shapes.now }
{
    match form {
        Form::Var(_) => true,
        Form::Global(n) => globals.has(n),
        Form::Bind => true,
        Form::Choose => true,
        Form::Default => true,
        Form::BigUnion => true,
        Form::Sum => sum_fits(count_at(shapes, 0), number_at(shapes, 1)),
        Form::Tab(_) => true,
        Form::Strict(strict) => strict_certain(strict, shapes),
    }
}

// Whether an operation has a value wherever its parts have, by their shapes.
fn strict_certain<'a>(form: Strict<'a>, shapes: &[Shape]) -> bool
    ensures { result ≡ certainty.strict_certain (pure_strict form.entry) (bounds_each shapes.now) }
{
    match form {
        Strict::Nat(_) => true,
        Strict::Bool(_) => true,
        Strict::Text(_) => true,
        Strict::Bottom => false,
        Strict::Tuple => true,
        Strict::Proj { at: _, of: _ } => true,
        Strict::Arith(op) => always_fits(op, number_at(shapes, 0), number_at(shapes, 1)),
        Strict::Compare(_) => true,
        Strict::Empty => true,
        Strict::Single => true,
        Strict::Union => true,
        Strict::Gen => true,
        Strict::Get => is_one(count_at(shapes, 0)),
        Strict::Sub => is_cell(shapes),
        Strict::Dim(_) => true,
        Strict::Index(_) => false,
        Strict::Literal(rank) => is_full(rank, shapes),
    }
}

// Whether there are as many numbers as dimensions, each below its own.
fn all_below(dims: &[Interval], at: &[Shape]) -> bool
    ensures { result ≡ certainty.all_below dims.now (bounds_each at.now) }
{
    if dims.len() != at.len() {
        return false;
    }
    for i in 0..dims.len() {
        if !is_below(number_interval(&at[i]), dims[i]) {
            return false;
        }
    }
    true
}

// Whether the numbers are an index of each array that has the shape.
fn is_index(array: &Shape, at: &[Shape]) -> bool
    ensures { result ≡ certainty.is_index (bounds_of array.now) (bounds_each at.now) }
{
    match array {
        Shape::Grid { dims, cell: _ } => all_below(dims.items.as_slice(), at),
        Shape::Unknown => false,
        Shape::Number(_) => false,
        Shape::Row(_) => false,
        Shape::Members {
            count: _,
            member: _,
        } => false,
    }
}

// An array, and then the numbers of an index.
fn is_cell(shapes: &[Shape]) -> bool
    ensures { result ≡ certainty.is_cell (bounds_each shapes.now) }
{
    if shapes.len() > 0 {
        is_index(&shapes[0], &shapes[1..])
    } else {
        false
    }
}

// Whether each is one number alone.
fn all_single(dims: &[Shape]) -> bool
    ensures { result ≡ intervals.all_single (map interval_of (bounds_each dims.now)) }
{
    for i in 0..dims.len() {
        if !is_single(number_interval(&dims[i])) {
            return false;
        }
    }
    true
}

// The product of the least numbers, and 2^128-1 where it is larger.
fn least_product(dims: &[Shape]) -> u128
    ensures { result
        ≡ saturate (product (intervals.lows (map interval_of (bounds_each dims.now)))) }
{
    let mut found: u128 = 1;
    for dim in dims {
        found = found.saturating_mul(number_interval(dim).low);
    }
    found
}

// Whether the first numbers, the dimensions, are each one number alone, and as many cells follow as
// their product.
fn is_full(rank: u64, shapes: &[Shape]) -> bool
    ensures { result ≡ certainty.is_full rank (bounds_each shapes.now) }
{
    let end = rank.min(shapes.len() as u64) as usize;
    let single = all_single(&shapes[..end]);
    let product = least_product(&shapes[..end]);
    are_so_many(single, product, shapes.len() - end)
}

// Whether the one holds, and the number is the count.
fn are_so_many(single: bool, number: u128, count: usize) -> bool
    ensures { result ≡ (single && nat_eq number count) }
{
    single && number == count as u128
}
