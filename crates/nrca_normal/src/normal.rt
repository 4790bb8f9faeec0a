//! The plan of a term.

ghost use Rattle.std.specs.Prelude.{◌≡◌, ◌≤◌, ◌<◌, ◌+◌, ◌^◌, IfOk, length};
ghost use Rattle.nrca_term.specs.Term.{weight_of};
ghost use Rattle.nrca_term.specs.TypedPlaces.{KeepsTypes};
ghost use Rattle.nrca_term.specs.Typing.{IsTyped};
ghost use Rattle.nrca_term.specs.View.{term_of};
ghost use Rattle.nrca_ranges.specs.Shapes.{shapes_in};
ghost use Rattle.nrca_normal.specs.Descent.{IsAtRoot};
ghost use Rattle.nrca_normal.specs.Planned.{IsReplayed, IsNormalIn, IsPlanOf};

use crate::descent::{Descent, settle};
use aql_value::Memory;
use nrca_ranges::{Ctx, GlobalShapes};
use nrca_term::{Core, Trace};
use std::alloc::Global;
use std::mem;

/// A normal term, and the rewritings that led to it.
#[derive(Drop)]
pub struct Plan {
    pub term: Core,
    pub trace: Trace,
}

/// The plan of a closed typed term: it is normal wherever the shapes tell which positions have a value, and the trace
/// replays to it from the start, each rewriting's condition holding. The one refusal is want of memory.
pub fn normalise(alloc: Global, start: &Core, globals: &GlobalShapes) -> Result<Plan, Memory>
    requires typed { IsTyped (term_of start.now) }
    requires small { weight_of (term_of start.now) ≤ 1280000 }
    ensures replayed { IfOk result
        (λ p. IsReplayed (shapes_in globals.now) (term_of start.now) p.trace (term_of p.term)) }
    ensures normal { IfOk result (λ p. IsNormalIn (shapes_in globals.now) (term_of p.term)) }
    ensures few { IfOk result (λ p. length p.trace ≤ (weight_of (term_of start.now) + 1) ^ 3) }
    ensures types { IfOk result (λ p. KeepsTypes (term_of start.now) (term_of p.term)) }
{
    let mut shapes = globals.copy(alloc)?;
    let plan = normalise_over(alloc, start, &mut shapes)?;
    Ok(plan)
}

/// The same over shapes that are lent for the while and come back as they were, also where memory is wanting: of them no
/// copy is made, however many positions there are.
pub fn normalise_over(
    alloc: Global,
    start: &Core,
    globals: &mut GlobalShapes,
) -> Result<Plan, Memory>
    requires typed { IsTyped (term_of start.now) }
    requires small { weight_of (term_of start.now) ≤ 1280000 }
    ensures globals { shapes_in globals.new ≡ shapes_in globals.old }
    ensures replayed { IfOk result
        (λ p. IsReplayed (shapes_in globals.old) (term_of start.now) p.trace (term_of p.term)) }
    ensures normal { IfOk result (λ p. IsNormalIn (shapes_in globals.old) (term_of p.term)) }
    ensures few { IfOk result (λ p. length p.trace ≤ (weight_of (term_of start.now) + 1) ^ 3) }
    ensures types { IfOk result (λ p. KeepsTypes (term_of start.now) (term_of p.term)) }
{
    let copied = start.copy(alloc)?;
    let shapes = mem::replace(globals, GlobalShapes::new(alloc));
    let (plan, back) = normal_form(alloc, copied, shapes);
    *globals = back;
    plan
}

// The plan of a term, and the shapes again.
fn normal_form(
    alloc: Global,
    term: Core,
    globals: GlobalShapes,
) -> (Result<Plan, Memory>, GlobalShapes)
    requires typed { IsTyped (term_of term) }
    requires small { weight_of (term_of term) ≤ 1280000 }
    ensures globals { shapes_in result.1 ≡ shapes_in globals }
    ensures plan { IfOk result.0 (IsPlanOf (shapes_in globals) (term_of term)) }
{
    let mut settled = term;
    let mut run = begin(alloc, globals);
    let done = settle(alloc, &mut settled, &mut run);
    let (trace, back) = end(run);
    match done {
        Ok(_) => {
            let term = settled;
            (Ok(Plan { term, trace }), back)
        }
        Err(Memory) => {
            drop(settled);
            drop(trace);
            (Err(Memory), back)
        }
    }
}

// At the root, before any rewriting.
fn begin(alloc: Global, globals: GlobalShapes) -> Descent
    ensures { IsAtRoot (shapes_in globals) result }
{
    Descent {
        ctx: Ctx::new(alloc, globals),
        way: Vec::new(alloc),
        steps: Vec::new(alloc),
    }
}

// The rewritings that were done, and the shapes again.
fn end(run: Descent) -> (Trace, GlobalShapes)
    ensures trace { result.0 ≡ run.steps.items }
    ensures globals { result.1 ≡ run.ctx.globals }
{
    let Descent { ctx, way: _, steps } = run;
    let Ctx {
        facts: _,
        depth: _,
        globals,
        variables: _,
    } = ctx;
    (Trace(steps), globals)
}
