//! Blocks of the members of a loop and of the cells of a tabulation.

ghost use Rattle.std.specs.Prelude.{◌<◌, ◌≤◌, length, IfOk, IfSome};
ghost use Rattle.aql_value.specs.Datum.{natural};
ghost use Rattle.aql_value.specs.Indices.{product};
ghost use Rattle.nrca_loops.specs.Runs.{member_list};
ghost use Rattle.nrca_numbers.specs.Few.{few_set};
ghost use Rattle.nrca_numbers.specs.Runs.{AreCells, AreRun};
ghost use Rattle.nrca_eval.specs.Loops.{IsSum};

use aql_value::{Dims, Memory};
use nrca_loops::{Env, Globals, Members};
use nrca_numbers::{AtMostOne, cells_run, few_run, numbers_run, sum_all};
use nrca_term::Core;
use std::alloc::Global;

// So many members or cells are looked at together at most.
const MOST: u64 = 512;

// Fewer than so many are looked at one after another.
const FEW: u64 = 8;

/// The members or cells from one number up to another.
#[derive(Clone, Copy)]
pub(crate) struct Span {
    pub(crate) from: u64,
    pub(crate) to: u64,
}

/// Where a block of members ends that begins at one number, of those up to another.
pub(crate) fn block_end(from: u64, to: u64) -> u64
    requires { from < to }
    ensures { (from < result) × (result ≤ to) }
{
    if to - from <= MOST { to } else { from + MOST }
}

/// Whether the last dimension of a tabulation is so long that its cells are looked at by rows.
pub(crate) fn in_rows(dims: &Dims) -> bool {
    match dims.dims.last() {
        Some(width) => *width >= u128::from(FEW),
        None => false,
    }
}

/// Where a block of cells ends that begins at one row-major number, of those up to another. It stays in
/// one row.
pub(crate) fn row_end(dims: &Dims, from: u64, to: u64) -> u64
    requires { from < to }
    ensures { (from < result) × (result ≤ to) }
{
    let end = block_end(from, to);
    match dims.dims.last() {
        Some(width) => {
            if *width == 0 {
                return end;
            }
            let left = *width - u128::from(from) % *width;
            if u128::from(end - from) <= left {
                end
            } else {
                from + left as u64
            }
        }
        None => end,
    }
}

/// The sum of a body over a block of members, where it is a number for each of them.
pub(crate) fn block_sum(
    alloc: Global,
    body: &Core,
    globals: &Globals,
    env: &Env,
    members: &Members,
    from: u64,
    to: u64,
) -> Result<Option<u128>, Memory>
    requires order { from ≤ to }
    requires within { to ≤ length (member_list members.now) }
    ensures { IfOk result (λ o. IfSome o (IsSum globals.now env.now body.now members.now from to)) }
{
    if to - from < FEW {
        return Ok(None);
    }
    let Some(numbers) = numbers_run(alloc, body, globals, env, members, from, to)? else {
        return Ok(None);
    };
    let sum = sum_all(numbers.as_slice());
    drop(numbers);
    Ok(sum)
}

/// The sets that a body is at a block of members, where it is one of at most one member for each.
pub(crate) fn block_sets(
    alloc: Global,
    body: &Core,
    globals: &Globals,
    env: &Env,
    members: &Members,
    span: Span,
) -> Result<Option<Vec<AtMostOne>>, Memory>
    requires order { span.from ≤ span.to }
    requires within { span.to ≤ length (member_list members.now) }
    ensures { IfOk result (λ o. IfSome o
        (λ fs. AreRun few_set globals.now env.now body.now members.now span.from span.to
        fs.items)) }
{
    if span.to - span.from < FEW {
        return Ok(None);
    }
    few_run(alloc, body, globals, env, members, span.from, span.to)
}

/// The numbers that a body is at a block of cells, where it is one for each of them.
pub(crate) fn block_cells(
    alloc: Global,
    body: &Core,
    globals: &Globals,
    env: &Env,
    dims: &Dims,
    span: Span,
) -> Result<Option<Vec<u64>>, Memory>
    requires order { span.from ≤ span.to }
    requires within { span.to ≤ product dims.now }
    ensures { IfOk result (λ o. IfSome o
        (λ ns. AreCells globals.now env.now body.now dims.now span.from span.to ns.items)) }
{
    if span.to - span.from < FEW {
        return Ok(None);
    }
    cells_run(alloc, body, globals, env, dims, span.from, span.to)
}
