//! What is known of an outcome.
ghost use Rattle.std.specs.Prelude.{◌≡◌, IfOk};
ghost use Rattle.aql_value.specs.Datum.{data_of, set};
ghost use Rattle.nrca_loops.specs.Values.{held_value};
ghost use Rattle.nrca_ranges.specs.Bounds.{HasShape};
ghost use Rattle.nrca_ranges.specs.Exact.{exact_bounds};
ghost use Rattle.nrca_ranges.specs.Shapes.{bounds_of, bounds_there};
ghost use Rattle.aql_session.specs.Known.{HasShapeThere, kept_of};

use aql_value::Memory;
use nrca_array::Held;
use nrca_ranges::{Interval, Shape, shape_of_dims, shape_of_value};
use nrca_sets::Set;
use std::alloc::Global;

/// The shape of an outcome that is a value, and none of any other. Of an array it says the
/// dimensions alone, of a set the number of its members.
pub(crate) fn shape_of_outcome(
    alloc: Global,
    outcome: &Option<Held>,
) -> Result<Option<Shape>, Memory>
    ensures holds { IfOk result (λ s. HasShapeThere (bounds_there s) (held_value outcome.now)) }
    ensures exact { IfOk result (λ s. bounds_there s ≡ kept_of (held_value outcome.now)) }
{
    match outcome {
        Some(Held::Value(value)) => {
            let shape = shape_of_value(alloc, value)?;
            Ok(Some(shape))
        }
        Some(Held::Flat(flat)) => {
            let shape = shape_of_dims(alloc, flat.dims())?;
            Ok(Some(shape))
        }
        Some(Held::Set(set)) => {
            let shape = shape_of_set(alloc, set)?;
            Ok(Some(shape))
        }
        None => Ok(None),
    }
}

// The shape of a set: how many members it has. Of the members it says nothing.
fn shape_of_set(alloc: Global, members: &Set) -> Result<Shape, Memory>
    ensures holds { IfOk result (λ s. HasShape (bounds_of s) (set (data_of members.now))) }
    ensures exact { IfOk result (λ s. bounds_of s ≡ exact_bounds (set (data_of members.now))) }
{
    let count = members.count() as u128;
    let member = Box::new(alloc, Shape::Unknown)?;
    Ok(Shape::Members {
        count: Interval {
            low: count,
            high: count,
        },
        member,
    })
}
