//! The evaluation of core terms, whose loops run in pieces beside each other.
//!
//! `evaluate` answers the value and the turns of a term exactly, and Spent exactly where the turns
//! pass the budget, whatever the number of workers. A sum, big union, tabulation or `index` that is
//! not inside a piece is cut into pieces, each of which runs in a thread of its own; a loop inside
//! a piece runs there. `eval` runs every loop where it stands.
//!
//! Read `specs/Parts`, `Runs` and `Loops` with `machine`; then the one recursion of `evaluator`, one
//! function a form, whose laws stand in `specs/Laws/Form`, and of `loops`, with `members`; and last
//! `specs/Gathered` with `pieces` and `index`.
#![tactic(auto)]

mod blocks;
mod evaluator;
mod index;
mod lending;
mod loops;
mod machine;
mod members;
mod pieces;

ghost use Rattle.std.specs.Prelude.{◌≤◌};
ghost use Rattle.aql_value.specs.Limits.{most_budget, most_workers};
ghost use Rattle.nrca_term.specs.View.{term_of};
ghost use Rattle.nrca_loops.specs.Evaluates.{EvaluatesClosed, EvaluatesHeld};

use crate::evaluator::node;
use crate::machine::{Machine, Mode, Pool};
use aql_outside::{FreeGate, Gate};
use nrca_array::Held;
use nrca_loops::{Counted, Env, from_box};
pub use nrca_loops::{Done, Globals};
use nrca_par::EvalFault;
use nrca_term::Core;
use std::alloc::Global;
use std::thread::Threads;

/// The value of a closed term over the outcomes of the positions, none where it is undefined, and the
/// turns that it took. Spent comes exactly where these pass the budget.
pub fn evaluate<R: Threads + Sync, G: Gate>(
    rt: &R,
    alloc: Global,
    term: &Core,
    globals: &Globals,
    budget: u64,
    workers: u64,
    gate: &G,
) -> Result<Done, EvalFault>
    requires budget { budget ≤ most_budget }
    requires workers { (1 ≤ workers) × (workers ≤ most_workers) }
    ensures { EvaluatesClosed budget globals.now (term_of term.now) result }
{
    let machine = Machine {
        alloc,
        globals,
        mode: Mode::Pieces(Pool { rt, workers, gate }),
    };
    let found = node(&machine, term, &Env::Empty, budget)?;
    Ok(Done {
        value: from_box(found.answer),
        turns: u128::from(found.turns),
    })
}

/// The value of a term and its turns, among the outcomes of the positions and the values of the
/// variables. Spent exactly where the turns pass the budget; a loop or tabulation whose members or
/// cells pass what is left is Spent before its first turn, and so is an `index` whose members do. No
/// thread is started: the type of a runtime is named alone.
pub fn eval<R: Threads + Sync>(
    alloc: Global,
    term: &Core,
    globals: &Globals,
    env: &Env,
    budget: u64,
) -> Result<Counted<Option<Held>>, EvalFault>
    ensures { EvaluatesHeld budget globals.now env.now (term_of term.now) result }
{
    let machine: Machine<R, FreeGate> = Machine {
        alloc,
        globals,
        mode: Mode::Here,
    };
    let done = node(&machine, term, &*env, budget)?;
    Ok(Counted {
        answer: from_box(done.answer),
        turns: done.turns,
    })
}
