//! What forms make of their parts' values, on the heap.

ghost use Rattle.std.specs.Prelude.{◌≡◌, Some, IfOk};
ghost use Rattle.aql_value.specs.Meaning.{datum};
ghost use Rattle.aql_value.specs.Operations.{dim_of};
ghost use Rattle.nrca_array.specs.Held.{held_datum};
ghost use Rattle.nrca_loops.specs.Parts.{parts_value};
ghost use Rattle.nrca_loops.specs.Values.{boxed_value};
ghost use Rattle.nrca_loops.specs.Within.{Within};
ghost use Rattle.nrca_forms.specs.Made.{kept_cell};
ghost use Rattle.nrca_loops.specs.Evaluates.{Applies, strict_form};

use crate::forms::strict;
use crate::operations::{cell_of_parts, dim, value_cell_of_parts, value_dim};
use aql_value::{Memory, Value};
use nrca_array::Held;
use nrca_loops::{Counted, to_box};
use nrca_par::EvalFault;
use nrca_term::Core;
use std::alloc::Global;

/// The cell of an array at the index that values are, on the heap.
#[inline(never)]
pub fn cell_boxed(
    alloc: Global,
    array: &Held,
    at: Option<Vec<Held>>,
) -> Result<Option<Box<Held>>, Memory>
    ensures { IfOk result (λ v. boxed_value v ≡ kept_cell (held_datum array.now) at) }
{
    let cell = cell_of_parts(alloc, array, at)?;
    to_box(alloc, cell)
}

/// The same of an array that is kept as a value.
#[inline(never)]
pub fn value_cell_boxed(
    alloc: Global,
    array: &Value,
    at: Option<Vec<Held>>,
) -> Result<Option<Box<Held>>, Memory>
    ensures { IfOk result (λ v. boxed_value v ≡ kept_cell (datum array.now) at) }
{
    let cell = value_cell_of_parts(alloc, array, at)?;
    to_box(alloc, cell)
}

/// The dimensions of an array of that rank, on the heap and without turns.
#[inline(never)]
pub fn dim_boxed(
    alloc: Global,
    array: &Held,
    rank: u64,
    budget: u64,
) -> Result<Counted<Option<Box<Held>>>, EvalFault>
    ensures { Within boxed_value budget (dim_of rank (held_datum array.now)) 0 result }
{
    let dims = dim(alloc, array, rank)?;
    Ok(Counted {
        answer: to_box(alloc, dims)?,
        turns: 0,
    })
}

/// The same of an array that is kept as a value.
#[inline(never)]
pub fn value_dim_boxed(
    alloc: Global,
    array: &Value,
    rank: u64,
    budget: u64,
) -> Result<Counted<Option<Box<Held>>>, EvalFault>
    ensures { Within boxed_value budget (dim_of rank (datum array.now)) 0 result }
{
    let dims = value_dim(alloc, array, rank)?;
    Ok(Counted {
        answer: to_box(alloc, dims)?,
        turns: 0,
    })
}

/// A copy of a value, on the heap and without turns.
#[inline(never)]
pub fn copy_boxed(
    alloc: Global,
    value: &Value,
    budget: u64,
) -> Result<Counted<Option<Box<Held>>>, EvalFault>
    ensures { Within boxed_value budget (Some (datum value.now)) 0 result }
{
    let copy = Held::Value(value.copy(alloc)?);
    Ok(Counted {
        answer: to_box(alloc, Some(copy))?,
        turns: 0,
    })
}

/// What a strict form makes of its parts' values, on the heap.
#[inline(never)]
pub fn strict_boxed(
    alloc: Global,
    term: &Core,
    parts: Option<Vec<Held>>,
    budget: u64,
) -> Result<Counted<Option<Box<Held>>>, EvalFault>
    ensures { Applies boxed_value budget (strict_form term.now) (parts_value parts) result }
{
    let made = strict(alloc, term, parts, budget)?;
    Ok(Counted {
        answer: to_box(alloc, made.answer)?,
        turns: made.turns,
    })
}
