//! What is known of a node's value from what is known of its parts' values.

ghost use Rattle.std.specs.Prelude.{◌≡◌, map, IfOk};
ghost use Rattle.nrca_ranges.specs.Bounds as bounds;
ghost use Rattle.nrca_ranges.specs.Bounds.{number};
ghost use Rattle.nrca_ranges.specs.Shapes.{bounds_of, bounds_each, shapes_of, KeepsOthers};
ghost use Rattle.nrca_ranges.specs.Shapes.{bounds_by_strict, bounds_by_form};
ghost use Rattle.nrca_ranges.specs.Transfer.{interval_of, count_of, entry_at, first_intervals};
ghost use Rattle.nrca_ranges.specs.Transfer.{index_bounds, dimensions_of, part_at, part_bounds};
ghost use Rattle.nrca_ranges.specs.Transfer.{union_bounds, loop_bounds, below_bounds, tab_bounds};

use crate::context::Ctx;
use crate::interval::{Interval, Intervals};
use crate::operations::{arith_interval, end_below, everything, loop_count, loop_sum, union_count};
use crate::shape::{
    Shape, Shapes, cell_shape, count_interval, join, member_shape, number_interval,
};
use crate::variables::variable_shape;
use aql_value::Memory;
use nrca_term::{Form, Strict};
use std::alloc::Global;
use std::mem;

// The entry of the list, where it is there, and leaves nothing in its place.
fn take_entry(shapes: &mut Vec<Shape>, i: usize) -> Shape
    ensures value { bounds_of result ≡ entry_at (bounds_each shapes.old.items) i }
    ensures others { KeepsOthers i shapes.old.items shapes.new.items }
{
    if i < shapes.len() {
        mem::replace(&mut shapes[i], Shape::Unknown)
    } else {
        Shape::Unknown
    }
}

/// The interval of the number that an entry is.
pub(crate) fn number_at(shapes: &[Shape], i: usize) -> Interval
    ensures { result ≡ interval_of (entry_at (bounds_each shapes.now) i) }
{
    if i < shapes.len() {
        number_interval(&shapes[i])
    } else {
        everything()
    }
}

/// The interval of the number of members of the set that an entry is.
pub(crate) fn count_at(shapes: &[Shape], i: usize) -> Interval
    ensures { result ≡ count_of (entry_at (bounds_each shapes.now) i) }
{
    if i < shapes.len() {
        count_interval(&shapes[i])
    } else {
        everything()
    }
}

// The intervals of the numbers of a list.
fn intervals_of(alloc: Global, shapes: &[Shape]) -> Result<Intervals, Memory>
    ensures { IfOk result (λ s. s ≡ map interval_of (bounds_each shapes.now)) }
{
    let mut items = Vec::new(alloc);
    for shape in shapes {
        items.push(number_interval(shape))?;
    }
    Ok(Intervals { items })
}

// The intervals of the first numbers of a list.
fn first_numbers(alloc: Global, shapes: &[Shape], n: u64) -> Result<Intervals, Memory>
    ensures { IfOk result (λ s. s ≡ first_intervals n (bounds_each shapes.now)) }
{
    let end = n.min(shapes.len() as u64) as usize;
    let found = intervals_of(alloc, &shapes[..end])?;
    Ok(found)
}

// The shape of sets with so many members of the shape.
fn make_members(alloc: Global, count: Interval, member: Shape) -> Result<Shape, Memory>
    ensures { IfOk result (λ s. bounds_of s ≡ bounds.members count (bounds_of member)) }
{
    let boxed = Box::new(alloc, member)?;
    Ok(Shape::Members {
        count,
        member: boxed,
    })
}

// The shape of arrays with these dimensions and cells of the shape.
fn make_grid(alloc: Global, dims: Intervals, cell: Shape) -> Result<Shape, Memory>
    ensures { IfOk result (λ s. bounds_of s ≡ bounds.grid dims (bounds_of cell)) }
{
    let boxed = Box::new(alloc, cell)?;
    Ok(Shape::Grid { dims, cell: boxed })
}

// The shape of the numbers of the intervals, in order.
fn numbers(alloc: Global, dims: &Intervals) -> Result<Shapes, Memory>
    ensures { IfOk result (λ s. shapes_of s ≡ map number dims.now) }
{
    let mut items = Vec::new(alloc);
    for interval in &dims.items {
        items.push(Shape::Number(*interval))?;
    }
    Ok(Shapes(items))
}

// The shape of an index whose numbers are in the intervals.
fn index_shape(alloc: Global, dims: &Intervals) -> Result<Shape, Memory>
    ensures { IfOk result (λ s. bounds_of s ≡ index_bounds dims.now) }
{
    if dims.items.len() == 1 {
        Ok(Shape::Number(dims.items[0]))
    } else {
        let parts = numbers(alloc, dims)?;
        Ok(Shape::Row(parts))
    }
}

// The shape of the dimensions of an array, from the array's.
fn dimensions(alloc: Global, array: &Shape) -> Result<Shape, Memory>
    ensures { IfOk result (λ s. bounds_of s ≡ dimensions_of (bounds_of array.now)) }
{
    match array {
        Shape::Grid { dims, cell: _ } => index_shape(alloc, dims),
        Shape::Unknown => Ok(Shape::Unknown),
        Shape::Number(_) => Ok(Shape::Unknown),
        Shape::Row(_) => Ok(Shape::Unknown),
        Shape::Members {
            count: _,
            member: _,
        } => Ok(Shape::Unknown),
    }
}

// The shape of a part of a tuple, counted from 1, from the tuple's.
fn part_shape(tuple: Shape, at: u64) -> Shape
    ensures { bounds_of result ≡ part_bounds (bounds_of tuple) at }
{
    match tuple {
        Shape::Row(parts) => entry_shape(parts, at),
        Shape::Unknown => Shape::Unknown,
        Shape::Number(_) => Shape::Unknown,
        Shape::Members {
            count: _,
            member: _,
        } => Shape::Unknown,
        Shape::Grid { dims: _, cell: _ } => Shape::Unknown,
    }
}

// The shape of an entry, counted from 1.
fn entry_shape(parts: Shapes, at: u64) -> Shape
    ensures { bounds_of result ≡ part_at (bounds.row_of (shapes_of parts)) at }
{
    let mut items = parts.0;
    if at > 0 {
        take_entry(&mut items, (at - 1) as usize)
    } else {
        Shape::Unknown
    }
}

// The shape of the union of two sets.
fn union_shape(alloc: Global, a: Shape, b: Shape) -> Result<Shape, Memory>
    ensures { IfOk result (λ s. bounds_of s ≡ union_bounds (bounds_of a) (bounds_of b)) }
{
    let count = union_count(count_interval(&a), count_interval(&b));
    make_members(alloc, count, join(member_shape(a), member_shape(b)))
}

// The shape of the union of a body's sets over the members of a set.
fn loop_shape(alloc: Global, over: &Shape, body: Shape) -> Result<Shape, Memory>
    ensures { IfOk result (λ s. bounds_of s ≡ loop_bounds (bounds_of over.now) (bounds_of body)) }
{
    let count = loop_count(count_interval(over), count_interval(&body));
    make_members(alloc, count, member_shape(body))
}

// The shape of the set of the numbers below a number of the interval.
fn below_shape(alloc: Global, bound: Interval) -> Result<Shape, Memory>
    ensures { IfOk result (λ s. bounds_of s ≡ below_bounds bound) }
{
    let member = Shape::Number(Interval {
        low: 0,
        high: end_below(bound.high),
    });
    make_members(alloc, bound, member)
}

// The shapes of the list.
fn make_shapes(items: Vec<Shape>) -> Shapes
    ensures { shapes_of result ≡ bounds_each items.items }
{
    Shapes(items)
}

/// The shape of tuples with parts of these shapes.
pub(crate) fn row_shape(parts: Shapes) -> Shape
    ensures { bounds_of result ≡ bounds.row (bounds.row_of (shapes_of parts)) }
{
    Shape::Row(parts)
}

// By the shapes of the parts, of a form that evaluates all of them and binds nothing.
fn strict_shape<'a>(alloc: Global, form: Strict<'a>, shapes: Vec<Shape>) -> Result<Shape, Memory>
    ensures { IfOk result (λ s. bounds_of s ≡ bounds_by_strict form.entry shapes.items) }
{
    let mut shapes = shapes;
    match form {
        Strict::Nat(_) => Ok(Shape::Unknown),
        Strict::Bool(_) => Ok(Shape::Unknown),
        Strict::Text(_) => Ok(Shape::Unknown),
        Strict::Bottom => Ok(Shape::Unknown),
        Strict::Tuple => Ok(row_shape(make_shapes(shapes))),
        Strict::Proj { at, of: _ } => {
            let tuple = take_entry(&mut shapes, 0);
            Ok(part_shape(tuple, at))
        }
        Strict::Arith(op) => {
            let left = number_at(shapes.as_slice(), 0);
            let right = number_at(shapes.as_slice(), 1);
            Ok(Shape::Number(arith_interval(op, left, right)))
        }
        Strict::Compare(_) => Ok(Shape::Unknown),
        Strict::Empty => make_members(alloc, Interval { low: 0, high: 0 }, Shape::Unknown),
        Strict::Single => {
            let member = take_entry(&mut shapes, 0);
            make_members(alloc, Interval { low: 1, high: 1 }, member)
        }
        Strict::Union => {
            let first = take_entry(&mut shapes, 0);
            let second = take_entry(&mut shapes, 1);
            union_shape(alloc, first, second)
        }
        Strict::Gen => below_shape(alloc, number_at(shapes.as_slice(), 0)),
        Strict::Get => {
            let set = take_entry(&mut shapes, 0);
            Ok(member_shape(set))
        }
        Strict::Sub => {
            let array = take_entry(&mut shapes, 0);
            Ok(cell_shape(array))
        }
        Strict::Dim(_) => {
            let array = take_entry(&mut shapes, 0);
            dimensions(alloc, &array)
        }
        Strict::Index(_) => Ok(Shape::Unknown),
        Strict::Literal(rank) => {
            let dims = first_numbers(alloc, shapes.as_slice(), rank)?;
            make_grid(alloc, dims, Shape::Unknown)
        }
    }
}

// A tabulation of that rank.
fn tab_shape(alloc: Global, rank: u64, shapes: Vec<Shape>) -> Result<Shape, Memory>
    ensures { IfOk result (λ s. bounds_of s ≡ tab_bounds rank (bounds_each shapes.items)) }
{
    let mut shapes = shapes;
    let dims = first_numbers(alloc, shapes.as_slice(), rank)?;
    make_grid(alloc, dims, take_entry(&mut shapes, rank as usize))
}

/// By the shapes of the parts of a node of the form.
pub(crate) fn node_shape<'a>(
    alloc: Global,
    form: Form<'a>,
    shapes: Vec<Shape>,
    ctx: &Ctx,
    own: &[Shape],
) -> Result<Shape, Memory>
    ensures { IfOk result
        (λ s. bounds_of s ≡ bounds_by_form ctx.now own.now form.entry shapes.items) }
{
    let mut shapes = shapes;
    match form {
        Form::Var(i) => variable_shape(alloc, ctx, own, i),
        Form::Global(n) => ctx.globals.shape(alloc, n),
        Form::Bind => Ok(take_entry(&mut shapes, 1)),
        Form::Choose => {
            let first = take_entry(&mut shapes, 1);
            let second = take_entry(&mut shapes, 2);
            Ok(join(first, second))
        }
        Form::Default => {
            let first = take_entry(&mut shapes, 0);
            let second = take_entry(&mut shapes, 1);
            Ok(join(first, second))
        }
        Form::BigUnion => {
            let over = take_entry(&mut shapes, 0);
            let body = take_entry(&mut shapes, 1);
            loop_shape(alloc, &over, body)
        }
        Form::Sum => {
            let over = count_at(shapes.as_slice(), 0);
            let body = number_at(shapes.as_slice(), 1);
            Ok(Shape::Number(loop_sum(over, body)))
        }
        Form::Tab(rank) => tab_shape(alloc, rank, shapes),
        Form::Strict(strict) => strict_shape(alloc, strict, shapes),
    }
}
