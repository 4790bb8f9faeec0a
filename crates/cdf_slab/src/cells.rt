//! The cells of a hyperslab, dimension after dimension.

ghost use Rattle.std.specs.Prelude.{◌≡◌, ◌+◌, ◌-◌, ◌*◌, ◌^◌, ◌≤◌, ◌<◌, min, [], ◌∷◌, length, IfOk, IfErr};
ghost use Rattle.aql_outside.specs.Contents.{WhereTold};
ghost use Rattle.aql_outside.specs.Frames.{Leaves};
ghost use Rattle.cdf_header.specs.File.{IsDevice};
ghost use Rattle.cdf_slab.specs.Going.{count_with, IsPartOf, StaysKind, ReadsOffsets};
ghost use Rattle.cdf_slab.specs.Slab.{IsLate};
ghost use Rattle.cdf_slab.specs.Walk.{step_of, steps_of, walk, HaveRoom, RoomSoFar, Turn};
ghost use Rattle.nrca_array.specs.Runs.{IsWidth};

use crate::axes::Axis;
use crate::faults::last_end;
use crate::format::CellFormat;
use crate::loading::{REACH, run_in};
use crate::runs::push_run;
use crate::window::Window;
use aql_outside::Files;
use cdf_header::CdfFault;
use nrca_array::{Builder, Run};

/// The most numbers that are taken at once.
const RUN: u64 = 8192;

// The place of an index of a dimension, where those behind it have room.
fn offset_along(a: Axis, rest: &[Axis], base: u128, i: u64, format: CellFormat) -> u128
    requires room { RoomSoFar (steps_of rest.now) (step_of a) base i format.size format.end }
    requires below { i < a.count }
    ensures turn { Turn (steps_of rest.now) (step_of a) base i format.size format.end result }
    ensures within { HaveRoom format.size format.end (walk (steps_of rest.now) result) }
{
    let index = u128::from(i)
        .saturating_mul(a.stride)
        .saturating_add(a.start);
    index.saturating_mul(a.pitch).saturating_add(base)
}

// The bytes from one index of a dimension to the next, or 2^64-1 where there are more.
fn step_along(a: Axis) -> u64
    ensures { result ≡ min (a.stride * a.pitch) (2 ^ 64 - 1) }
{
    let step = a.stride.saturating_mul(a.pitch);
    step.min(u128::from(u64::MAX)) as u64
}

// The bytes from the first to the last of the cells of these dimensions.
fn span(axes: &[Axis], size: u64) -> u128 {
    let mut bytes = u128::from(size);
    for a in axes {
        let steps = u128::from(a.count.saturating_sub(1)).saturating_mul(a.stride);
        bytes = bytes.saturating_add(steps.saturating_mul(a.pitch));
    }
    bytes
}

// Whether the cells of one index and those of the next are read apart: they are further from each
// other than `REACH`, and other bytes stand between. What is answered decides what one read asks
// for, and nothing of the cells.
fn is_scattered(a: Axis, rest: &[Axis], size: u64) -> bool {
    a.count > 1 && u128::from(step_along(a)) > span(rest, size).max(u128::from(REACH))
}

// What is read of the cells of one index: where they are read apart, nothing behind the last.
fn block(format: CellFormat, apart: bool, rest: &[Axis], base: u128) -> CellFormat
    requires { HaveRoom format.size format.end (walk (steps_of rest.now) base) }
    ensures part { IsPartOf format result }
    ensures within { HaveRoom result.size result.end (walk (steps_of rest.now) base) }
{
    if apart {
        format.with_end(last_end(format.end, format.size, rest, base))
    } else {
        format
    }
}

// The cells of the last dimension, in runs of numbers that stand in one piece of the file.
fn read_row<F: Files>(
    files: &mut F,
    name: &str,
    window: &mut Window,
    format: CellFormat,
    a: Axis,
    base: u128,
    cells: Builder,
) -> Result<Builder, CdfFault>
    requires size { IsWidth format.size }
    requires within { HaveRoom format.size format.end (walk (step_of a ∷ []) base) }
    ensures frame { Leaves F.holds F.faults F.quiet (IsDevice result) files.old files.new }
    ensures late { IfErr result
        (IsLate format.signed (count_with cells (walk (step_of a ∷ []) base))) }
    ensures many { IfOk result
        (λ all. length all ≡ count_with cells (walk (step_of a ∷ []) base)) }
    ensures kinds { StaysKind format.signed cells result }
    ensures told { WhereTold (F.holds files.old) name.now
        (λ bytes. ReadsOffsets bytes format window.old window.new
        (walk (step_of a ∷ []) base) cells result) }
{
    let alloc = *window.memory.allocator();
    let step = step_along(a);
    let mut all = cells;
    let mut i = 0;
    'row: while i < a.count {
        let here = offset_along(a, &[], base, i, format) as u64;
        let most = (a.count - i).min(RUN);
        match run_in(files, name, window, format, here, step, most) {
            Ok(count) => {
                let run = Run {
                    bytes: window.bytes_from(here),
                    size: format.size as usize,
                    step: step as usize,
                    count: count as usize,
                };
                match push_run(alloc, format, run, all) {
                    Ok(more) => {
                        all = more;
                        i += count;
                    }
                    Err(fault) => return Err(fault),
                }
            }
            Err(fault) => return Err(fault),
        }
    }
    Ok(all)
}

/// The cells at the places that the dimensions lead to from a base, behind those so far. Each place
/// has room for a number before the end.
pub(crate) fn read_cells<F: Files>(
    files: &mut F,
    name: &str,
    window: &mut Window,
    format: CellFormat,
    axes: &[Axis],
    base: u128,
    cells: Builder,
) -> Result<Builder, CdfFault>
    requires size { IsWidth format.size }
    requires some { 1 ≤ length axes.now }
    requires within { HaveRoom format.size format.end (walk (steps_of axes.now) base) }
    ensures frame { Leaves F.holds F.faults F.quiet (IsDevice result) files.old files.new }
    ensures late { IfErr result
        (IsLate format.signed (count_with cells (walk (steps_of axes.now) base))) }
    ensures many { IfOk result
        (λ all. length all ≡ count_with cells (walk (steps_of axes.now) base)) }
    ensures kinds { StaysKind format.signed cells result }
    ensures told { WhereTold (F.holds files.old) name.now
        (λ bytes. ReadsOffsets bytes format window.old window.new
        (walk (steps_of axes.now) base) cells result) }
{
    match axes {
        [] => unreachable!(),
        [a] => read_row(files, name, window, format, *a, base, cells),
        [a, rest @ ..] => {
            let apart = is_scattered(*a, rest, format.size);
            let mut all = cells;
            'cells: for i in 0..a.count {
                let here = offset_along(*a, rest, base, i, format);
                let part = block(format, apart, rest, here);
                match read_cells(files, name, window, part, rest, here, all) {
                    Ok(more) => all = more,
                    Err(fault) => return Err(fault),
                }
            }
            Ok(all)
        }
    }
}
