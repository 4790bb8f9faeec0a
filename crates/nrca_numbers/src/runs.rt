//! The body of a loop at a run of its members, and that of a tabulation at a run of its cells.

ghost use Rattle.std.specs.Prelude.{◌≡◌, ◌-◌, ◌<◌, ◌≤◌, length, map, IfOk, IfSome};
ghost use Rattle.std.specs.List.{range_with_len};
ghost use Rattle.aql_value.specs.Datum.{natural};
ghost use Rattle.aql_value.specs.Indices.{product};
ghost use Rattle.nrca_loops.specs.Runs.{member_list};
ghost use Rattle.nrca_numbers.specs.Few.{few_set};
ghost use Rattle.nrca_sets.specs.Pairs.{pair_value};
ghost use Rattle.nrca_numbers.specs.Runs.{AreCells, AreOver, AreRow, AreRowOver, AreRun};

use crate::blocks::{few_each, numbers};
use crate::columns::Columns;
use crate::sets::AtMostOne;
use aql_value::{Dims, Memory};
use nrca_loops::{Env, Globals, Members, set_index, zeros};
use nrca_term::Core;
use std::alloc::Global;

/// Whether the members of a loop are packed, so that blocks of them can be looked at: what a loop comes to
/// does not rest on it, only how it goes about it.
pub fn in_blocks(members: &Members) -> bool {
    match members {
        Members::Below(_) => true,
        Members::Listed(set) => set.numbers().is_some() || set.pairs().is_some(),
        Members::Both(_, _) => false,
    }
}

/// The numbers that the body of a loop is at the members from one up to another, where it is one for each
/// of them, found at once and without turns.
pub fn numbers_run(
    alloc: Global,
    body: &Core,
    globals: &Globals,
    env: &Env,
    members: &Members,
    from: u64,
    to: u64,
) -> Result<Option<Vec<u64>>, Memory>
    requires order { from ≤ to }
    requires within { to ≤ length (member_list members.now) }
    ensures { IfOk result (λ o. IfSome o
        (λ ns. AreRun natural globals.now env.now body.now members.now
        from to ns.items)) }
{
    match members {
        Members::Below(_) => {
            let column = count_up(alloc, from, to)?;
            let found = numbers_over(alloc, body, globals, env, column.as_slice());
            drop(column);
            found
        }
        Members::Listed(set) => match set.numbers() {
            Some(column) => {
                numbers_over(
                    alloc,
                    body,
                    globals,
                    env,
                    &column[from as usize..to as usize],
                )
            }
            None => match set.pairs() {
                Some(column) => {
                    numbers_over_pairs(
                        alloc,
                        body,
                        globals,
                        env,
                        &column[from as usize..to as usize],
                    )
                }
                None => Ok(None),
            },
        },
        Members::Both(_, _) => Ok(None),
    }
}

/// The sets that the body of a loop is at the members from one up to another, where it is one of at most
/// one number or pair of numbers for each of them, found at once and without turns.
pub fn few_run(
    alloc: Global,
    body: &Core,
    globals: &Globals,
    env: &Env,
    members: &Members,
    from: u64,
    to: u64,
) -> Result<Option<Vec<AtMostOne>>, Memory>
    requires order { from ≤ to }
    requires within { to ≤ length (member_list members.now) }
    ensures { IfOk result (λ o. IfSome o
        (λ fs. AreRun few_set globals.now env.now body.now members.now
        from to fs.items)) }
{
    match members {
        Members::Below(_) => {
            let column = count_up(alloc, from, to)?;
            let found = few_over(alloc, body, globals, env, column.as_slice());
            drop(column);
            found
        }
        Members::Listed(set) => match set.numbers() {
            Some(column) => {
                few_over(
                    alloc,
                    body,
                    globals,
                    env,
                    &column[from as usize..to as usize],
                )
            }
            None => match set.pairs() {
                Some(column) => {
                    few_over_pairs(
                        alloc,
                        body,
                        globals,
                        env,
                        &column[from as usize..to as usize],
                    )
                }
                None => Ok(None),
            },
        },
        Members::Both(_, _) => Ok(None),
    }
}

// The numbers from one up to another.
fn count_up(alloc: Global, from: u64, to: u64) -> Result<Vec<u64>, Memory>
    requires { from ≤ to }
    ensures { IfOk result (λ ns. ns.items ≡ range_with_len from (to - from)) }
{
    let mut numbers = Vec::with_capacity(alloc, (to - from) as usize)?;
    for number in from..to {
        numbers.push(number)?;
    }
    Ok(numbers)
}

// The body at each number of a column.
fn numbers_over(
    alloc: Global,
    body: &Core,
    globals: &Globals,
    env: &Env,
    column: &[u64],
) -> Result<Option<Vec<u64>>, Memory>
    ensures { IfOk result (λ o. IfSome o
        (λ ns. AreOver natural globals.now env.now body.now (map natural
        column.now) ns.items)) }
{
    let outside = Columns::Outside(&*env);
    let columns = Columns::Numbers(column, &outside);
    numbers(alloc, body, globals, &columns, column.len())
}

fn few_over(
    alloc: Global,
    body: &Core,
    globals: &Globals,
    env: &Env,
    column: &[u64],
) -> Result<Option<Vec<AtMostOne>>, Memory>
    ensures { IfOk result (λ o. IfSome o
        (λ fs. AreOver few_set globals.now env.now body.now (map natural
        column.now) fs.items)) }
{
    let outside = Columns::Outside(&*env);
    let columns = Columns::Numbers(column, &outside);
    few_each(alloc, body, globals, &columns, column.len())
}

// The body at each pair of a column.
fn numbers_over_pairs(
    alloc: Global,
    body: &Core,
    globals: &Globals,
    env: &Env,
    column: &[(u64, u64)],
) -> Result<Option<Vec<u64>>, Memory>
    ensures { IfOk result (λ o. IfSome o (λ ns. AreOver natural globals.now env.now body.now (map
        pair_value column.now) ns.items)) }
{
    let outside = Columns::Outside(&*env);
    let columns = Columns::Pairs(column, &outside);
    numbers(alloc, body, globals, &columns, column.len())
}

fn few_over_pairs(
    alloc: Global,
    body: &Core,
    globals: &Globals,
    env: &Env,
    column: &[(u64, u64)],
) -> Result<Option<Vec<AtMostOne>>, Memory>
    ensures { IfOk result (λ o. IfSome o (λ fs. AreOver few_set globals.now env.now body.now (map
        pair_value column.now) fs.items)) }
{
    let outside = Columns::Outside(&*env);
    let columns = Columns::Pairs(column, &outside);
    few_each(alloc, body, globals, &columns, column.len())
}

/// The numbers that the body of a tabulation is at the cells from one row-major number up to another,
/// where these stand in one row, and the body is a number for each of them, found at once and without
/// turns.
pub fn cells_run(
    alloc: Global,
    body: &Core,
    globals: &Globals,
    env: &Env,
    dims: &Dims,
    from: u64,
    to: u64,
) -> Result<Option<Vec<u64>>, Memory>
    requires order { from < to }
    requires within { to ≤ product dims.now }
    ensures { IfOk result (λ o. IfSome o
        (λ ns. AreCells globals.now env.now body.now dims.now from to
        ns.items)) }
{
    let mut at = zeros(alloc, dims.dims.len())?;
    set_index(dims.dims.as_slice(), u128::from(from), at.as_mut_slice());
    let found = row_run(
        alloc,
        body,
        globals,
        env,
        dims.dims.as_slice(),
        at.as_slice(),
        to - from,
    );
    drop(at);
    found
}

// The body at so many indices of a row, the first of which is given.
fn row_run(
    alloc: Global,
    body: &Core,
    globals: &Globals,
    env: &Env,
    dims: &[u128],
    at: &[u128],
    count: u64,
) -> Result<Option<Vec<u64>>, Memory>
    ensures { IfOk result (λ o. IfSome o
        (λ ns. AreRow globals.now env.now body.now dims.now at.now count
        ns.items)) }
{
    let rank = dims.len();
    if rank == 0 || at.len() != rank {
        return Ok(None);
    }
    let first = at[rank - 1];
    if first > 9223372036854775807 || count > 9223372036854775807 {
        return Ok(None);
    }
    let first = first as u64;
    if u128::from(first + count) > dims[rank - 1] {
        return Ok(None);
    }
    let column = count_up(alloc, first, first + count)?;
    let found = row_over(
        alloc,
        body,
        globals,
        env,
        &at[..rank - 1],
        column.as_slice(),
    );
    drop(column);
    found
}

// The body at the indices of a row whose last numbers stand in a column.
fn row_over(
    alloc: Global,
    body: &Core,
    globals: &Globals,
    env: &Env,
    outer: &[u128],
    column: &[u64],
) -> Result<Option<Vec<u64>>, Memory>
    ensures { IfOk result (λ o. IfSome o
        (λ ns. AreRowOver globals.now env.now body.now outer.now column.now
        ns.items)) }
{
    let inner = Env::Indices(outer, &*env);
    numbers_over(alloc, body, globals, &inner, column)
}
