//! What is read of arrays that are lent, on the heap.

ghost use Rattle.std.specs.Prelude.{◌≡◌, IfOk};
ghost use Rattle.aql_value.specs.Operations.{dim_of};
ghost use Rattle.nrca_forms.specs.Made.{kept_cell};
ghost use Rattle.nrca_loops.specs.Values.{boxed_value};
ghost use Rattle.nrca_loops.specs.Within.{Within};
ghost use Rattle.nrca_numbers.specs.Lending.{lent_datum};

use aql_value::Memory;
use nrca_array::Held;
use nrca_forms::{cell_boxed, dim_boxed, value_cell_boxed, value_dim_boxed};
use nrca_loops::Counted;
use nrca_numbers::Lent;
use nrca_par::EvalFault;
use std::alloc::Global;

/// The cell of an array that is lent at the index that values are. It alone is copied.
#[inline(never)]
pub(crate) fn cell_of_lent(
    alloc: Global,
    array: Lent,
    at: Option<Vec<Held>>,
) -> Result<Option<Box<Held>>, Memory>
    ensures { IfOk result (λ v. boxed_value v ≡ kept_cell (lent_datum array.entry) at) }
{
    match array {
        Lent::Kept(held) => cell_boxed(alloc, held, at),
        Lent::Part(value) => value_cell_boxed(alloc, value, at),
    }
}

/// The dimensions of an array of that rank that is lent, without turns.
#[inline(never)]
pub(crate) fn dim_of_lent(
    alloc: Global,
    array: Lent,
    rank: u64,
    budget: u64,
) -> Result<Counted<Option<Box<Held>>>, EvalFault>
    ensures { Within boxed_value budget (dim_of rank (lent_datum array.entry)) 0 result }
{
    match array {
        Lent::Kept(held) => dim_boxed(alloc, held, rank, budget),
        Lent::Part(value) => value_dim_boxed(alloc, value, rank, budget),
    }
}
