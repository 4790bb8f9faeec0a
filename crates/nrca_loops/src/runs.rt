//! What a run adds at each member or cell, and what becomes of it.

ghost use Rattle.std.specs.Prelude.{◌≡◌, ◌<◌, ◌++◌, ◌∷◌, [], Some, length, slice_get, IfOk, IsOkAnd};
ghost use Rattle.aql_value.specs.Indices.{product, indices};
ghost use Rattle.aql_value.specs.Meaning.{datum};
ghost use Rattle.nrca_array.specs.Held.{held_datum};
ghost use Rattle.nrca_loops.specs.Values.{held_value};
ghost use Rattle.nrca_loops.specs.Runs.{sum_with, list_with};
ghost use Rattle.nrca_loops.specs.Parts.{AddsPart};

use crate::members::natural;
use aql_value::made::both;
use aql_value::{Memory, Value, add};
use nrca_array::{Builder, Held};
use std::alloc::Global;

/// A sum with one value more.
pub fn sum_and(sum: Option<u128>, value: Option<Held>) -> Option<u128>
    ensures { result ≡ sum_with sum (held_value value) }
{
    match (sum, natural(value)) {
        (Some(m), Some(n)) => add(m, n),
        _ => None,
    }
}

/// The cells so far, and one more.
pub fn cells_and(
    alloc: Global,
    cells: Option<Builder>,
    value: Option<Held>,
) -> Result<Option<Builder>, Memory>
    ensures { IfOk result (λ cs. cs ≡ list_with cells (held_value value)) }
{
    match cells.zip(value) {
        Some((cells, value)) => Ok(Some(with_cell(alloc, cells, into_value(alloc, value))?)),
        None => Ok(None),
    }
}

/// The cells, and one more.
pub fn with_cell(
    alloc: Global,
    cells: Builder,
    cell: Result<Value, Memory>,
) -> Result<Builder, Memory>
    ensures { IfOk result (λ cs. IsOkAnd cell (λ v. cs ≡ cells ++ datum v ∷ [])) }
{
    let (cells, cell) = both(Ok(cells), cell)?;
    Ok(cells.push(alloc, cell)?)
}

/// The parts so far, and one more.
pub(crate) fn parts_and(
    parts: Option<Vec<Held>>,
    value: Option<Held>,
) -> Result<Option<Vec<Held>>, Memory>
    ensures { IfOk result (λ vs. AddsPart parts (held_value value) vs) }
{
    match parts.zip(value) {
        Some((mut parts, value)) => {
            parts.push(value)?;
            Ok(Some(parts))
        }
        None => Ok(None),
    }
}

/// The value, moved where it is not packed.
pub fn into_value(alloc: Global, held: Held) -> Result<Value, Memory>
    ensures { IfOk result (λ v. datum v ≡ held_datum held) }
{
    match held {
        Held::Value(value) => Ok(value),
        Held::Flat(flat) => {
            let cells = flat.to_cells(alloc);
            drop(flat);
            Ok(Value::Grid(cells?))
        }
        Held::Set(set) => set.into_value(alloc),
    }
}

/// As many numbers.
pub fn zeros(alloc: Global, count: usize) -> Result<Vec<u128>, Memory>
    ensures { IfOk result (λ v. length v.items ≡ count) }
{
    let numbers = vec![in alloc; 0u128; count]?;
    Ok(numbers)
}

/// Writes the index that stands at a place in row-major order.
pub fn set_index(dims: &[u128], place: u128, at: &mut [u128])
    requires rank { length at.old ≡ length dims.now }
    requires within { place < product dims.now }
    ensures { slice_get (indices dims.now) place ≡ Some at.new }
{
    let rank = dims.len();
    let mut rest = place;
    for k in 0..rank {
        let j = rank - 1 - k;
        at[j] = rest % dims[j];
        rest /= dims[j];
    }
}
