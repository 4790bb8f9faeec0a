//! Runs of numbers, as cells.

ghost use Rattle.std.specs.Prelude.{◌≡◌, ◌+◌, [], ◌∷◌, false, length, map, IfOk};
ghost use Rattle.cdf_header.specs.File.{IsDevice};
ghost use Rattle.cdf_slab.specs.Going.{AppendsCells};
ghost use Rattle.cdf_slab.specs.Numbers.{number_of};
ghost use Rattle.nrca_array.specs.Runs.{IsWidth, IsWhole, run_numbers};

use crate::format::CellFormat;
use crate::numbers::{lowest_below, number};
use cdf_header::CdfFault;
use nrca_array::{Builder, Run, RunError};
use std::alloc::Global;

/// One cell more, of a number as its bytes spell it.
pub(crate) fn push_number(
    alloc: Global,
    format: CellFormat,
    x: u64,
    cells: Builder,
) -> Result<Builder, CdfFault>
    ensures goes { AppendsCells format.signed (number_of format.kind x ∷ []) cells result }
    ensures many { IfOk result (λ all. length all ≡ length cells + 1) }
    ensures own { IsDevice result → ⊥ }
{
    let (below, far) = number(format.kind, x);
    if format.signed {
        return Ok(cells.push_pair(alloc, below, u128::from(far))?);
    }
    if below {
        return Err(CdfFault::Negative {
            cell: cells.len() as u64,
        });
    }
    Ok(cells.push_natural(alloc, u128::from(far))?)
}

/// The cells of a run of numbers more.
pub(crate) fn push_run(
    alloc: Global,
    format: CellFormat,
    run: Run,
    cells: Builder,
) -> Result<Builder, CdfFault>
    requires size { IsWidth run.size }
    requires whole { IsWhole run }
    ensures goes { AppendsCells format.signed
        (map (number_of format.kind) (run_numbers run.entry)) cells result }
    ensures many { IfOk result (λ all. length all ≡ length cells + run.entry.count) }
    ensures own { IsDevice result → ⊥ }
{
    if format.signed {
        push_each(alloc, format, run, cells)
    } else {
        push_naturals(alloc, format.kind, run, cells)
    }
}

// A cell more for each number.
fn push_each(
    alloc: Global,
    format: CellFormat,
    run: Run,
    cells: Builder,
) -> Result<Builder, CdfFault>
    requires size { IsWidth run.size }
    requires whole { IsWhole run }
    ensures goes { AppendsCells format.signed
        (map (number_of format.kind) (run_numbers run.entry)) cells result }
    ensures many { IfOk result (λ all. length all ≡ length cells + run.entry.count) }
    ensures own { IsDevice result → ⊥ }
{
    let mut all = cells;
    'numbers: for k in 0..run.count {
        match push_number(alloc, format, run.get(k), all) {
            Ok(more) => all = more,
            Err(fault) => return Err(fault),
        }
    }
    Ok(all)
}

// A natural more for each number, up to the first below 0. No memory has so many cells that the
// number of one is too great.
fn push_naturals(alloc: Global, kind: u32, run: Run, cells: Builder) -> Result<Builder, CdfFault>
    requires size { IsWidth run.size }
    requires whole { IsWhole run }
    ensures goes { AppendsCells false (map (number_of kind) (run_numbers run.entry)) cells result }
    ensures many { IfOk result (λ all. length all ≡ length cells + run.entry.count) }
    ensures own { IsDevice result → ⊥ }
{
    let before = cells.len();
    match cells.push_run(alloc, run, lowest_below(kind)) {
        Ok(all) => Ok(all),
        Err(RunError::Memory) => Err(CdfFault::Memory),
        Err(RunError::Reached { at }) => match before.checked_add(at) {
            Some(cell) => Err(CdfFault::Negative { cell: cell as u64 }),
            None => Err(CdfFault::Memory),
        },
    }
}
