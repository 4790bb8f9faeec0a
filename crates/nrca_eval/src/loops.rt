//! The loops of sums, big unions and tabulations: in pieces, in blocks, or one after another.

ghost use Rattle.std.specs.Prelude.{◌≤◌, length};
ghost use Rattle.aql_value.specs.Indices.{product};
ghost use Rattle.nrca_term.specs.View.{term_of};
ghost use Rattle.nrca_loops.specs.Runs.{member_list};
ghost use Rattle.nrca_loops.specs.Evaluates.{EvaluatesHeld};
ghost use Rattle.nrca_eval.specs.Added.{EvaluatesAdded};
ghost use Rattle.nrca_eval.specs.Loops.{Adds, Collects, Extends, Fills, Sums, Unites};

use crate::blocks::{Span, block_cells, block_end, block_sets, block_sum, in_rows, row_end};
use crate::evaluator::node;
use crate::machine::{Machine, Mode};
use crate::members::{Added, all_members, finish_members, members_and, one_member};
use crate::pieces::in_pieces;
use aql_outside::Gate;
use aql_value::{Dims, Value};
use nrca_array::{Builder, Held};
use nrca_loops::{
    Counted, Env, Members, Next, cells_and, from_box, join_done, join_sums, joined_cells,
    joined_sets, joined_sums, set_index, sum_and, zeros,
};
use nrca_numbers::{add_cells, add_sets, chosen_branch, few, in_blocks, members_and_few, quick};
use nrca_par::EvalFault;
use nrca_sets::{Gather, Set};
use nrca_term::Core;
use std::thread::Threads;

/// The sum of a body over the first members of a loop, and what the body takes there.
#[cycle(eval)]
#[inline(never)]
pub(crate) fn sum_members<R: Threads + Sync, G: Gate>(
    machine: &Machine<R, G>,
    body: &Core,
    env: &Env,
    members: &Members,
    count: u64,
    budget: u64,
) -> Result<Counted<Option<u128>>, EvalFault>
    requires { count ≤ length (member_list members.now) }
    ensures { Sums budget machine.now.globals.now env.now body.now members.now 0 count result }
{
    let Mode::Pieces(pool) = &machine.mode else {
        return sum_run(machine, body, env, members, 0, count, budget);
    };
    let (alloc, globals) = (machine.alloc, machine.globals);
    let run = move |from: u64, to: u64| -> Result<Counted<Option<u128>>, EvalFault>
        requires { (from ≤ to) × (to ≤ length (member_list members.now)) }
        ensures { Sums budget globals.entry.now env.entry.now body.entry.now members.entry.now from
            to result }
    {
        let here: Machine<R, G> = Machine {
            alloc,
            globals,
            mode: Mode::Here,
        };
        sum_run(&here, body, env, members, from, to, budget)
    };
    let sums = in_pieces(pool, alloc, count, run)?;
    joined_sums(&sums, budget)
}

/// The set of the members that a body gives at the first members of a loop, and what the body
/// takes there.
#[cycle(eval)]
#[inline(never)]
pub(crate) fn union_members<R: Threads + Sync, G: Gate>(
    machine: &Machine<R, G>,
    body: &Core,
    env: &Env,
    members: &Members,
    count: u64,
    budget: u64,
) -> Result<Counted<Option<Set>>, EvalFault>
    requires { count ≤ length (member_list members.now) }
    ensures { Unites budget machine.now.globals.now env.now body.now members.now 0 count result }
{
    let Mode::Pieces(pool) = &machine.mode else {
        let run = members_run(machine, body, env, members, 0, count, budget)?;
        return Ok(Counted {
            answer: finish_members(run.answer),
            turns: run.turns,
        });
    };
    let (alloc, globals) = (machine.alloc, machine.globals);
    let run = move |from: u64, to: u64| -> Result<Counted<Option<Set>>, EvalFault>
        requires { (from ≤ to) × (to ≤ length (member_list members.now)) }
        ensures { Unites budget globals.entry.now env.entry.now body.entry.now members.entry.now
            from to result }
    {
        let here: Machine<R, G> = Machine {
            alloc,
            globals,
            mode: Mode::Here,
        };
        let run = members_run(&here, body, env, members, from, to, budget)?;
        Ok(Counted {
            answer: finish_members(run.answer),
            turns: run.turns,
        })
    };
    let sets = in_pieces(pool, alloc, count, run)?;
    joined_sets(alloc, sets, budget)
}

/// The values of a body at the first indices below the dimensions, in row-major order, and what
/// the body takes there.
#[cycle(eval)]
#[inline(never)]
pub(crate) fn fill_cells<R: Threads + Sync, G: Gate>(
    machine: &Machine<R, G>,
    body: &Core,
    env: &Env,
    dims: &Dims,
    count: u64,
    budget: u64,
) -> Result<Counted<Option<Builder>>, EvalFault>
    requires { count ≤ product dims.now }
    ensures { Fills budget machine.now.globals.now env.now body.now dims.now 0 count result }
{
    let Mode::Pieces(pool) = &machine.mode else {
        return cells_run(machine, body, env, dims, 0, count, budget);
    };
    let (alloc, globals) = (machine.alloc, machine.globals);
    let run = move |from: u64, to: u64| -> Result<Counted<Option<Builder>>, EvalFault>
        requires { (from ≤ to) × (to ≤ product dims.now) }
        ensures { Fills budget globals.entry.now env.entry.now body.entry.now dims.entry.now from to
            result }
    {
        let here: Machine<R, G> = Machine {
            alloc,
            globals,
            mode: Mode::Here,
        };
        cells_run(&here, body, env, dims, from, to, budget)
    };
    let runs = in_pieces(pool, alloc, count, run)?;
    joined_cells(alloc, runs, budget)
}

// The value of the body of a sum or a tabulation, which is tried as a number first: such a body
// makes no values on the heap.
#[cycle(eval)]
#[inline(never)]
fn body_value<R: Threads + Sync, G: Gate>(
    machine: &Machine<R, G>,
    body: &Core,
    env: &Env,
    budget: u64,
) -> Result<Counted<Option<Held>>, EvalFault>
    ensures { EvaluatesHeld budget machine.now.globals.now env.now (term_of body.now) result }
{
    match quick(body, machine.globals, &*env) {
        Some(number) => Ok(Counted {
            answer: Some(Held::Value(Value::Nat(number))),
            turns: 0,
        }),
        None => {
            let done = node(machine, body, env, budget)?;
            Ok(Counted {
                answer: from_box(done.answer),
                turns: done.turns,
            })
        }
    }
}

// The members of the set that the body of a big union is worth. A set of one member is not made.
#[cycle(eval)]
#[inline(never)]
fn body_members<R: Threads + Sync, G: Gate>(
    machine: &Machine<R, G>,
    body: &Core,
    env: &Env,
    budget: u64,
) -> Result<Counted<Option<Added>>, EvalFault>
    ensures { EvaluatesAdded budget machine.now.globals.now env.now (term_of body.now) result }
{
    match body {
        Core::Single(of) => {
            let done = node(machine, of, env, budget)?;
            Ok(Counted {
                answer: one_member(machine.alloc, from_box(done.answer))?,
                turns: done.turns,
            })
        }
        _ => {
            let done = node(machine, body, env, budget)?;
            Ok(Counted {
                answer: all_members(from_box(done.answer)),
                turns: done.turns,
            })
        }
    }
}

// The sum of a body over the members from one number up to another, and what the body takes
// there. The members themselves are not counted. Packed members are looked at in blocks.
#[cycle(eval)]
fn sum_run<R: Threads + Sync, G: Gate>(
    machine: &Machine<R, G>,
    body: &Core,
    env: &Env,
    members: &Members,
    from: u64,
    to: u64,
    budget: u64,
) -> Result<Counted<Option<u128>>, EvalFault>
    requires order { from ≤ to }
    requires within { to ≤ length (member_list members.now) }
    ensures { Sums budget machine.now.globals.now env.now body.now members.now from to result }
{
    if !in_blocks(members) {
        return sum_each(machine, body, env, members, from, to, budget);
    }
    let mut sum = Some(0);
    let mut turns = 0;
    let mut at = from;
    'by_blocks: while at < to {
        let end = block_end(at, to);
        let done = sum_block(machine, body, env, members, at, end, budget - turns)?;
        sum = join_sums(sum, done.answer);
        turns += done.turns;
        at = end;
    }
    Ok(Counted { answer: sum, turns })
}

// The same over a block of members, all at once where its body is a number for each of them.
#[cycle(eval)]
fn sum_block<R: Threads + Sync, G: Gate>(
    machine: &Machine<R, G>,
    body: &Core,
    env: &Env,
    members: &Members,
    from: u64,
    to: u64,
    budget: u64,
) -> Result<Counted<Option<u128>>, EvalFault>
    requires order { from ≤ to }
    requires within { to ≤ length (member_list members.now) }
    ensures { Sums budget machine.now.globals.now env.now body.now members.now from to result }
{
    match block_sum(machine.alloc, body, machine.globals, env, members, from, to)? {
        Some(sum) => Ok(Counted {
            answer: Some(sum),
            turns: 0,
        }),
        None => sum_each(machine, body, env, members, from, to, budget),
    }
}

// The same, one member after another.
#[cycle(eval)]
fn sum_each<R: Threads + Sync, G: Gate>(
    machine: &Machine<R, G>,
    body: &Core,
    env: &Env,
    members: &Members,
    from: u64,
    to: u64,
    budget: u64,
) -> Result<Counted<Option<u128>>, EvalFault>
    requires order { from ≤ to }
    requires within { to ≤ length (member_list members.now) }
    ensures { Sums budget machine.now.globals.now env.now body.now members.now from to result }
{
    let mut sum = Some(0);
    let mut turns = 0;
    let mut sides = members.sides(from);
    for i in from..to {
        let Next {
            member,
            sides: after,
        } = members.get(machine.alloc, i, sides)?;
        sides = after;
        let inner = Env::Bound(&member, &*env);
        let done = body_value(machine, body, &inner, budget - turns);
        drop(member);
        let done = done?;
        sum = sum_and(sum, done.answer);
        turns += done.turns;
    }
    Ok(Counted { answer: sum, turns })
}

// The members that a body gives at the members from one number up to another, gathered as they
// come, and what the body takes there. The members of the loop are not counted. Packed members are
// looked at in blocks.
#[cycle(eval)]
fn members_run<R: Threads + Sync, G: Gate>(
    machine: &Machine<R, G>,
    body: &Core,
    env: &Env,
    members: &Members,
    from: u64,
    to: u64,
    budget: u64,
) -> Result<Counted<Option<Gather>>, EvalFault>
    requires order { from ≤ to }
    requires within { to ≤ length (member_list members.now) }
    ensures { Collects budget machine.now.globals.now env.now body.now members.now from to result }
{
    let mut all = Some(Gather::new(machine.alloc));
    if !in_blocks(members) {
        return members_each(machine, body, env, members, Span { from, to }, all, budget);
    }
    let mut turns = 0;
    let mut at = from;
    'by_blocks: while at < to {
        let span = Span {
            from: at,
            to: block_end(at, to),
        };
        let done = members_block(machine, body, env, members, span, all, budget - turns)?;
        all = done.answer;
        turns += done.turns;
        at = span.to;
    }
    Ok(Counted { answer: all, turns })
}

// The members so far, and those that a body gives at a block of members: all at once where its
// body is a small set for each of them.
#[cycle(eval)]
fn members_block<R: Threads + Sync, G: Gate>(
    machine: &Machine<R, G>,
    body: &Core,
    env: &Env,
    members: &Members,
    span: Span,
    all: Option<Gather>,
    budget: u64,
) -> Result<Counted<Option<Gather>>, EvalFault>
    requires order { span.from ≤ span.to }
    requires within { span.to ≤ length (member_list members.now) }
    ensures { Adds budget machine.now.globals.now env.now body.now members.now span all result }
{
    match block_sets(machine.alloc, body, machine.globals, env, members, span) {
        Ok(Some(sets)) => {
            let all = add_sets(machine.alloc, all, sets.as_slice());
            drop(sets);
            Ok(Counted {
                answer: all?,
                turns: 0,
            })
        }
        Ok(None) => members_each(machine, body, env, members, span, all, budget),
        Err(fault) => {
            drop(all);
            Err(EvalFault::from(fault))
        }
    }
}

// The same, one member after another.
#[cycle(eval)]
fn members_each<R: Threads + Sync, G: Gate>(
    machine: &Machine<R, G>,
    body: &Core,
    env: &Env,
    members: &Members,
    span: Span,
    all: Option<Gather>,
    budget: u64,
) -> Result<Counted<Option<Gather>>, EvalFault>
    requires order { span.from ≤ span.to }
    requires within { span.to ≤ length (member_list members.now) }
    ensures { Adds budget machine.now.globals.now env.now body.now members.now span all result }
{
    let mut all = all;
    let mut turns = 0;
    let mut sides = members.sides(span.from);
    for i in span.from..span.to {
        let Next {
            member,
            sides: after,
        } = members.get(machine.alloc, i, sides)?;
        sides = after;
        let inner = Env::Bound(&member, &*env);
        let branch = chosen_branch(body, machine.globals, &inner);
        if let Some(set) = few(branch, machine.globals, &inner) {
            drop(member);
            all = members_and_few(machine.alloc, all, set)?;
            continue;
        }
        let done = body_members(machine, branch, &inner, budget - turns);
        drop(member);
        let done = done?;
        all = members_and(machine.alloc, all, done.answer)?;
        turns += done.turns;
    }
    Ok(Counted { answer: all, turns })
}

// The values of a body at the indices below the dimensions, from one row-major number up to
// another, and what the body takes there. The cells are not counted. They are packed as they
// come, and looked at in blocks where the rows are not short.
#[cycle(eval)]
fn cells_run<R: Threads + Sync, G: Gate>(
    machine: &Machine<R, G>,
    body: &Core,
    env: &Env,
    dims: &Dims,
    from: u64,
    to: u64,
    budget: u64,
) -> Result<Counted<Option<Builder>>, EvalFault>
    requires order { from ≤ to }
    requires within { to ≤ product dims.now }
    ensures { Fills budget machine.now.globals.now env.now body.now dims.now from to result }
{
    let mut cells = Some(Builder::new(machine.alloc));
    if !in_rows(dims) {
        return cells_each(machine, body, env, dims, Span { from, to }, cells, budget);
    }
    let mut turns = 0;
    let mut at = from;
    'by_blocks: while at < to {
        let span = Span {
            from: at,
            to: row_end(dims, at, to),
        };
        let done = cells_block(machine, body, env, dims, span, cells, budget - turns)?;
        cells = done.answer;
        turns += done.turns;
        at = span.to;
    }
    Ok(Counted {
        answer: cells,
        turns,
    })
}

// The cells so far, and the values of a body at a block of cells: all at once where its body is a
// number for each of them.
#[cycle(eval)]
fn cells_block<R: Threads + Sync, G: Gate>(
    machine: &Machine<R, G>,
    body: &Core,
    env: &Env,
    dims: &Dims,
    span: Span,
    cells: Option<Builder>,
    budget: u64,
) -> Result<Counted<Option<Builder>>, EvalFault>
    requires order { span.from ≤ span.to }
    requires within { span.to ≤ product dims.now }
    ensures { Extends budget machine.now.globals.now env.now body.now dims.now span cells result }
{
    match block_cells(machine.alloc, body, machine.globals, env, dims, span) {
        Ok(Some(numbers)) => {
            let cells = add_cells(machine.alloc, cells, numbers.as_slice());
            drop(numbers);
            Ok(Counted {
                answer: cells?,
                turns: 0,
            })
        }
        Ok(None) => cells_each(machine, body, env, dims, span, cells, budget),
        Err(fault) => {
            drop(cells);
            Err(EvalFault::from(fault))
        }
    }
}

// The same, one cell after another.
#[cycle(eval)]
fn cells_each<R: Threads + Sync, G: Gate>(
    machine: &Machine<R, G>,
    body: &Core,
    env: &Env,
    dims: &Dims,
    span: Span,
    cells: Option<Builder>,
    budget: u64,
) -> Result<Counted<Option<Builder>>, EvalFault>
    requires order { span.from ≤ span.to }
    requires within { span.to ≤ product dims.now }
    ensures { Extends budget machine.now.globals.now env.now body.now dims.now span cells result }
{
    let mut at = zeros(machine.alloc, dims.dims.len())?;
    let mut cells = cells;
    let mut turns = 0;
    for place in span.from..span.to {
        set_index(dims.dims.as_slice(), u128::from(place), at.as_mut_slice());
        let inner = Env::Indices(at.as_slice(), &*env);
        let done = body_value(machine, body, &inner, budget - turns);
        let (kept, done) = join_done(cells, done)?;
        cells = cells_and(machine.alloc, kept, done.answer)?;
        turns += done.turns;
    }
    Ok(Counted {
        answer: cells,
        turns,
    })
}
