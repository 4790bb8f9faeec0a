//! What is known of the variables that nodes bind.

ghost use Rattle.std.specs.Prelude.{◌≡◌, map, IfOk, OnOk};
ghost use Rattle.nrca_ranges.specs.Bounds.{row, row_of};
ghost use Rattle.nrca_ranges.specs.Shapes.{bounds_of, bounds_each, shapes_of, ranges_below};
ghost use Rattle.nrca_ranges.specs.Transfer.{flat, kept, index_below, member_of, variable_bounds};
ghost use Rattle.nrca_ranges.specs.Walk.{AddsBounds, AddsShape, own_told, first_shape, indices_told, each_index};

use crate::context::Ctx;
use crate::interval::Interval;
use crate::operations::end_below;
use crate::shape::{Shape, Shapes, number_interval};
use crate::transfer::row_shape;
use crate::walk::Told;
use aql_value::Memory;
use nrca_term::Form;
use std::alloc::Global;

/// The shapes of the variables that a node of the form binds in a part, behind those of the list, by what
/// is told of the parts before it.
#[inline(never)]
pub(crate) fn add_variables<'a>(
    alloc: Global,
    shapes: &mut Vec<Shape>,
    form: Form<'a>,
    part: u64,
    told: &[Told],
) -> Result<(), Memory>
    ensures { OnOk result
        (AddsBounds shapes.old.items (own_told form.entry part told.now) shapes.new.items) }
{
    match form {
        Form::Bind => {
            if part == 0 {
                return Ok(());
            }
            let shape = keep_first(alloc, told)?;
            add_shape(shapes, shape)
        }
        Form::BigUnion => {
            if part == 0 {
                return Ok(());
            }
            let shape = keep_member(alloc, told)?;
            add_shape(shapes, shape)
        }
        Form::Sum => {
            if part == 0 {
                return Ok(());
            }
            let shape = keep_member(alloc, told)?;
            add_shape(shapes, shape)
        }
        Form::Tab(rank) => {
            if part < rank {
                return Ok(());
            }
            add_indices(shapes, rank, told)
        }
        Form::Var(_) => Ok(()),
        Form::Global(_) => Ok(()),
        Form::Choose => Ok(()),
        Form::Default => Ok(()),
        Form::Strict(_) => Ok(()),
    }
}

// One shape more.
fn add_shape(shapes: &mut Vec<Shape>, shape: Shape) -> Result<(), Memory>
    ensures { OnOk result (AddsShape shapes.old.items (bounds_of shape) shapes.new.items) }
{
    shapes.push(shape)?;
    Ok(())
}

// The shapes of the indices below the first numbers.
fn add_indices(shapes: &mut Vec<Shape>, rank: u64, told: &[Told]) -> Result<(), Memory>
    ensures { OnOk result
        (AddsBounds shapes.old.items (indices_told rank told.now) shapes.new.items) }
{
    let end = rank.min(told.len() as u64) as usize;
    add_each(shapes, &told[..end])
}

// The shapes of the indices below the numbers.
fn add_each(shapes: &mut Vec<Shape>, told: &[Told]) -> Result<(), Memory>
    ensures { OnOk result (AddsBounds shapes.old.items (each_index told.now) shapes.new.items) }
{
    for bound in told {
        shapes.push(index_shape(number_interval(&bound.shape)))?;
    }
    Ok(())
}

// The shape of an index below a number of the interval.
fn index_shape(bound: Interval) -> Shape
    ensures { bounds_of result ≡ index_below bound }
{
    Shape::Number(Interval {
        low: 0,
        high: end_below(bound.high),
    })
}

// What is kept of the first shape.
fn keep_first(alloc: Global, told: &[Told]) -> Result<Shape, Memory>
    ensures { IfOk result (λ s. bounds_of s ≡ kept (first_shape told.now)) }
{
    if told.len() > 0 {
        keep(alloc, &told[0].shape)
    } else {
        Ok(Shape::Unknown)
    }
}

// What is kept of the members' shape of the first one.
fn keep_member(alloc: Global, told: &[Told]) -> Result<Shape, Memory>
    ensures { IfOk result (λ s. bounds_of s ≡ kept (member_of (first_shape told.now))) }
{
    if told.len() > 0 {
        keep_inner(alloc, &told[0].shape)
    } else {
        Ok(Shape::Unknown)
    }
}

// The same of one shape.
fn keep_inner(alloc: Global, set: &Shape) -> Result<Shape, Memory>
    ensures { IfOk result (λ s. bounds_of s ≡ kept (member_of (bounds_of set.now))) }
{
    match set {
        Shape::Members { count: _, member } => keep(alloc, member),
        Shape::Unknown => Ok(Shape::Unknown),
        Shape::Number(_) => Ok(Shape::Unknown),
        Shape::Row(_) => Ok(Shape::Unknown),
        Shape::Grid { dims: _, cell: _ } => Ok(Shape::Unknown),
    }
}

// What is kept of a shape for a variable.
fn keep(alloc: Global, shape: &Shape) -> Result<Shape, Memory>
    ensures { IfOk result (λ s. bounds_of s ≡ kept (bounds_of shape.now)) }
{
    match shape {
        Shape::Unknown => Ok(Shape::Unknown),
        Shape::Number(i) => Ok(Shape::Number(*i)),
        Shape::Row(parts) => keep_row(alloc, parts),
        Shape::Members { count, member } => {
            let number = Box::new(alloc, flat_shape(member))?;
            Ok(Shape::Members {
                count: *count,
                member: number,
            })
        }
        Shape::Grid { dims, cell } => {
            let number = Box::new(alloc, flat_shape(cell))?;
            let sizes = dims.copy(alloc)?;
            Ok(Shape::Grid {
                dims: sizes,
                cell: number,
            })
        }
    }
}

// What is kept of the shapes of a tuple's parts.
fn keep_row(alloc: Global, parts: &Shapes) -> Result<Shape, Memory>
    ensures { IfOk result (λ s. bounds_of s ≡ kept (row (row_of (shapes_of parts.now)))) }
{
    let numbers = flat_parts(alloc, parts)?;
    Ok(row_shape(numbers))
}

// Of a number its interval, and else nothing.
fn flat_shape(shape: &Shape) -> Shape
    ensures { bounds_of result ≡ flat (bounds_of shape.now) }
{
    match shape {
        Shape::Number(i) => Shape::Number(*i),
        Shape::Unknown => Shape::Unknown,
        Shape::Row(_) => Shape::Unknown,
        Shape::Members {
            count: _,
            member: _,
        } => Shape::Unknown,
        Shape::Grid { dims: _, cell: _ } => Shape::Unknown,
    }
}

// So of the parts of a tuple.
fn flat_parts(alloc: Global, shapes: &Shapes) -> Result<Shapes, Memory>
    ensures { IfOk result (λ s. shapes_of s ≡ map flat (shapes_of shapes.now)) }
{
    let mut flattened = Vec::new(alloc);
    for shape in &shapes.0 {
        flattened.push(flat_shape(shape))?;
    }
    Ok(Shapes(flattened))
}

/// The shape of variable i, by the shapes of a context and then those inside of a term that stands there.
pub(crate) fn variable_shape(
    alloc: Global,
    ctx: &Ctx,
    own: &[Shape],
    i: u64,
) -> Result<Shape, Memory>
    ensures { IfOk result
        (λ s. bounds_of s ≡ variable_bounds (ranges_below ctx.now own.now).variables i) }
{
    let inner = own.len() as u64;
    if i < inner {
        shape_from_end(alloc, own, i)
    } else {
        shape_from_end(alloc, ctx.variables.as_slice(), i - inner)
    }
}

// The shape that stands before the last i ones.
fn shape_from_end(alloc: Global, shapes: &[Shape], i: u64) -> Result<Shape, Memory>
    ensures { IfOk result (λ s. bounds_of s ≡ variable_bounds (bounds_each shapes.now) i) }
{
    if i < shapes.len() as u64 {
        shapes[shapes.len() - 1 - i as usize].copy(alloc)
    } else {
        Ok(Shape::Unknown)
    }
}
