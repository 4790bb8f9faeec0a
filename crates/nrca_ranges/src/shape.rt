//! Shapes: what is known of a value.

ghost use Rattle.std.specs.Prelude.{◌≡◌, IfOk};
ghost use Rattle.nrca_ranges.specs.Shapes.{bounds_of, bounds_each, shapes_of};
ghost use Rattle.nrca_ranges.specs.Transfer.{interval_of, count_of, member_of, cell_of};
ghost use Rattle.nrca_ranges.specs.Transfer.{join_bounds, join_number, join_members, join_grid};

use crate::interval::{Interval, Intervals};
use crate::operations::{everything, hull, hulls};
use aql_value::Memory;
use std::alloc::Global;
use std::mem;

/// What is known of the parts of a tuple, in order.
#[cycle(shape)]
#[derive(Drop)]
pub struct Shapes(pub Vec<Shape>);

/// What is known of a value: nothing; the interval of a number; the shapes of the parts of a tuple; the
/// interval of the number of a set's members, and the shape of each of them; the intervals of the
/// dimensions of an array, and the shape of each cell. A `high` of 2^128-1 means that or more.
#[cycle(shape)]
#[derive(Drop)]
pub enum Shape {
    Unknown,
    Number(Interval),
    Row(Shapes),
    Members { count: Interval, member: Box<Shape> },
    Grid { dims: Intervals, cell: Box<Shape> },
}

impl Shape {
    /// An equal shape.
    #[cycle(copies)]
    pub fn copy(&self, alloc: Global) -> Result<Shape, Memory>
        ensures { IfOk result (λ s. bounds_of s ≡ bounds_of self.now) }
    {
        match self {
            Shape::Unknown => Ok(Shape::Unknown),
            Shape::Number(i) => Ok(Shape::Number(*i)),
            Shape::Row(shapes) => {
                let copied = copy_shapes(alloc, shapes)?;
                Ok(Shape::Row(copied))
            }
            Shape::Members { count, member } => {
                let copied = copy_boxed(alloc, member)?;
                Ok(Shape::Members {
                    count: *count,
                    member: copied,
                })
            }
            Shape::Grid { dims, cell } => {
                let copied = copy_boxed(alloc, cell)?;
                let sizes = dims.copy(alloc)?;
                Ok(Shape::Grid {
                    dims: sizes,
                    cell: copied,
                })
            }
        }
    }
}

#[cycle(copies)]
fn copy_boxed(alloc: Global, shape: &Box<Shape>) -> Result<Box<Shape>, Memory>
    ensures { IfOk result (λ s. bounds_of s.value ≡ bounds_of shape.now.value) }
{
    let copied = shape.copy(alloc)?;
    let boxed = Box::new(alloc, copied)?;
    Ok(boxed)
}

/// Equal shapes.
pub(crate) fn copy_list(alloc: Global, shapes: &[Shape]) -> Result<Vec<Shape>, Memory>
    ensures { IfOk result (λ v. bounds_each v.items ≡ bounds_each shapes.now) }
{
    let mut copied = Vec::new(alloc);
    for shape in shapes {
        let next = shape.copy(alloc)?;
        copied.push(next)?;
    }
    Ok(copied)
}

#[cycle(copies)]
fn copy_shapes(alloc: Global, shapes: &Shapes) -> Result<Shapes, Memory>
    ensures { IfOk result (λ s. shapes_of s ≡ shapes_of shapes.now) }
{
    let mut copied = Vec::new(alloc);
    for shape in &shapes.0 {
        let next = shape.copy(alloc)?;
        copied.push(next)?;
    }
    Ok(Shapes(copied))
}

/// The interval of a number that has the shape.
pub(crate) fn number_interval(shape: &Shape) -> Interval
    ensures { result ≡ interval_of (bounds_of shape.now) }
{
    match shape {
        Shape::Number(i) => *i,
        Shape::Unknown => everything(),
        Shape::Row(_) => everything(),
        Shape::Members {
            count: _,
            member: _,
        } => everything(),
        Shape::Grid { dims: _, cell: _ } => everything(),
    }
}

/// The interval of the number of members of a set that has the shape.
pub(crate) fn count_interval(shape: &Shape) -> Interval
    ensures { result ≡ count_of (bounds_of shape.now) }
{
    match shape {
        Shape::Members { count, member: _ } => *count,
        Shape::Unknown => everything(),
        Shape::Number(_) => everything(),
        Shape::Row(_) => everything(),
        Shape::Grid { dims: _, cell: _ } => everything(),
    }
}

/// The shape of each member of a set that has the shape.
pub(crate) fn member_shape(shape: Shape) -> Shape
    ensures { bounds_of result ≡ member_of (bounds_of shape) }
{
    match shape {
        Shape::Members { count: _, member } => Box::into_inner(member),
        Shape::Unknown => Shape::Unknown,
        Shape::Number(_) => Shape::Unknown,
        Shape::Row(_) => Shape::Unknown,
        Shape::Grid { dims: _, cell: _ } => Shape::Unknown,
    }
}

/// The shape of each cell of an array that has the shape.
pub(crate) fn cell_shape(shape: Shape) -> Shape
    ensures { bounds_of result ≡ cell_of (bounds_of shape) }
{
    match shape {
        Shape::Grid { dims: _, cell } => Box::into_inner(cell),
        Shape::Unknown => Shape::Unknown,
        Shape::Number(_) => Shape::Unknown,
        Shape::Row(_) => Shape::Unknown,
        Shape::Members {
            count: _,
            member: _,
        } => Shape::Unknown,
    }
}

/// A shape of all values that have one of the two.
#[cycle(joins)]
pub fn join(a: Shape, b: Shape) -> Shape
    ensures { bounds_of result ≡ join_bounds (bounds_of a) (bounds_of b) }
{
    match a {
        Shape::Unknown => Shape::Unknown,
        Shape::Number(i) => join_with_number(i, b),
        Shape::Row(_) => Shape::Unknown,
        Shape::Members { count, member } => join_with_members(count, member, b),
        Shape::Grid { dims, cell } => join_with_grid(dims, cell, b),
    }
}

// The same of a number of the interval and a second shape.
fn join_with_number(i: Interval, b: Shape) -> Shape
    ensures { bounds_of result ≡ join_number i (bounds_of b) }
{
    match b {
        Shape::Number(j) => Shape::Number(hull(i, j)),
        Shape::Unknown => Shape::Unknown,
        Shape::Row(_) => Shape::Unknown,
        Shape::Members {
            count: _,
            member: _,
        } => Shape::Unknown,
        Shape::Grid { dims: _, cell: _ } => Shape::Unknown,
    }
}

// The same of a set with so many members.
#[cycle(joins)]
fn join_with_members(i: Interval, member: Box<Shape>, b: Shape) -> Shape
    ensures { bounds_of result ≡ join_members i (bounds_of member.value) (bounds_of b) }
{
    match b {
        Shape::Members {
            count,
            member: other,
        } => Shape::Members {
            count: hull(i, count),
            member: join_boxes(member, other),
        },
        Shape::Unknown => Shape::Unknown,
        Shape::Number(_) => Shape::Unknown,
        Shape::Row(_) => Shape::Unknown,
        Shape::Grid { dims: _, cell: _ } => Shape::Unknown,
    }
}

// The same of an array with these dimensions.
#[cycle(joins)]
fn join_with_grid(dims: Intervals, cell: Box<Shape>, b: Shape) -> Shape
    ensures { bounds_of result ≡ join_grid dims (bounds_of cell.value) (bounds_of b) }
{
    match b {
        Shape::Grid {
            dims: others,
            cell: other,
        } => {
            if dims.items.len() == others.items.len() {
                Shape::Grid {
                    dims: hulls(dims, &others),
                    cell: join_boxes(cell, other),
                }
            } else {
                Shape::Unknown
            }
        }
        Shape::Unknown => Shape::Unknown,
        Shape::Number(_) => Shape::Unknown,
        Shape::Row(_) => Shape::Unknown,
        Shape::Members {
            count: _,
            member: _,
        } => Shape::Unknown,
    }
}

// The same of two boxes, in the first of them.
#[cycle(joins)]
fn join_boxes(mut a: Box<Shape>, b: Box<Shape>) -> Box<Shape>
    ensures { bounds_of result.value ≡ join_bounds (bounds_of a.value) (bounds_of b.value) }
{
    let first = mem::replace(&mut *a, Shape::Unknown);
    let second = Box::into_inner(b);
    *a = join(first, second);
    a
}
