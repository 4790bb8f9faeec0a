//! The plans of queries, what is moved in them, and their evaluation.
ghost use Rattle.std.specs.Prelude.{◌≡◌, ◌≤◌, ◌<◌, [], length, IfOk, IfErr};
ghost use Rattle.aql_infer_steps.specs.Typed.{ArePrincipal};
ghost use Rattle.aql_syntax.specs.Size.{AreWithinLimits};
ghost use Rattle.aql_value.specs.Limits.{most_budget, most_workers};
ghost use Rattle.nrca_encoded.specs.Graphs.{IsTypedOver};
ghost use Rattle.nrca_loops.specs.Evaluates.{EvaluatesClosed};
ghost use Rattle.nrca_ranges.specs.Shapes.{shapes_in};
ghost use Rattle.nrca_term.specs.Term.{weight_of};
ghost use Rattle.nrca_term.specs.Turns.{settle};
ghost use Rattle.nrca_term.specs.View.{term_of};
ghost use Rattle.aql_session.specs.Known.{Knows};
ghost use Rattle.aql_session.specs.Planned.{IsPlanned, KeepsMoved, KeepsValue, IsUnchanged, IsUnmoved, KeepsTerms, IsChosen, PassAll, EvaluatesOne, moved_of};
ghost use Rattle.aql_session.specs.Executions.{IsReadyOver, AreNamesAt, HasWorkers, budget_of, declaration_of, declarations_at, sorts_at, IsQuery, IsStartAt, IsEvaluatedAt, IsSpentAt, IsQueryTermAt};
ghost use Rattle.aql_session.specs.Step.{IsMovedBy};

use crate::answer::{Ran, StepFault};
use crate::executions::CheckedDeclaration;
use aql_desugar::translate::translate_within;
use aql_names::names::Names;
use aql_options::Options;
use aql_outside::Gate;
use aql_value::Memory;
use aql_value::made::make_box;
use nrca_array::Held;
use nrca_eval::{Done, Globals, evaluate};
use nrca_motion::{Moved, motion_over};
use nrca_normal::{Plan, normalise_over};
use nrca_par::EvalFault;
use nrca_ranges::GlobalShapes;
use nrca_term::{Core, Trace, constants};
use std::alloc::Global;
use std::thread::Threads;

/// The start term of a query, its plan, the rewritings that lead from the one to the other, and with
/// the word `--motion` what is moved in the plan.
#[derive(Drop)]
pub(crate) struct Planned {
    pub(crate) start: Core,
    pub(crate) plan: Core,
    pub(crate) trace: Trace,
    pub(crate) moved: Option<Box<Moved>>,
}

/// The terms of a query, which of them was evaluated, what it was worth and the turns that it took.
#[derive(Drop)]
pub(crate) struct Evaluated {
    pub(crate) start: Core,
    pub(crate) plan: Core,
    pub(crate) trace: Trace,
    pub(crate) moved: Option<Box<Moved>>,
    pub(crate) by: Ran,
    pub(crate) value: Option<Held>,
    pub(crate) turns: u128,
}

/// Evaluates the query of a position, of a readval its argument, over the outcomes of the positions
/// before it: by its plan, else as it is translated, else by what is moved in the plan, where the
/// turns of one of these are within the budget.
pub(crate) fn run_query<R: Threads + Sync, G: Gate>(
    rt: &R,
    alloc: Global,
    globals: &Globals,
    names: &Names,
    shapes: &mut GlobalShapes,
    at: &CheckedDeclaration,
    gate: &G,
) -> Result<Evaluated, StepFault>
    requires stands { IsReadyOver at.now globals.now }
    requires named { AreNamesAt at.now names.now }
    requires query { IsQuery (declaration_of at.now) }
    requires workers { HasWorkers at.now }
    requires budget { budget_of at.now ≤ most_budget }
    requires known { Knows (shapes_in shapes.old) globals.now }
    ensures shapes { shapes_in shapes.new ≡ shapes_in shapes.old }
    ensures evaluated { IfOk result (IsEvaluatedAt at.now globals.now) }
    ensures typed { IfOk result (λ q. IsTypedOver globals.now (term_of q.plan)) }
    ensures spent { IfErr result (IsSpentAt at.now globals.now) }
{
    let start = start_of_query(alloc, names, at)?;
    match plan_of(alloc, globals, shapes, start, at.options) {
        Ok(planned) => run_planned(rt, alloc, globals, planned, at.options, gate),
        Err(Memory) => Err(StepFault::Memory),
    }
}

// The start term of a query. It is within the limits, and the names of the positions before it are at
// hand.
fn start_of_query(alloc: Global, names: &Names, at: &CheckedDeclaration) -> Result<Core, Memory>
    requires first { 1 ≤ at.now.n }
    requires last { at.now.n ≤ length at.now.decls.now.items.items }
    requires query { IsQuery (declaration_of at.now) }
    requires named { AreNamesAt at.now names.now }
    requires checked { ArePrincipal [] (declarations_at at.now) (sorts_at at.now) }
    requires limits { AreWithinLimits (declarations_at at.now) at.now.n }
    ensures start { IfOk result (λ c. IsStartAt at.now (term_of c)) }
    ensures query { IfOk result (λ c. IsQueryTermAt at.now (term_of c)) }
{
    translate_within(alloc, at.decls, names, at.typed, at.n)
}

// The plan of a query's term, and with the word `--motion` what is moved in it: both have the term's
// meaning, and their value is one of the language.
fn plan_of(
    alloc: Global,
    globals: &Globals,
    shapes: &mut GlobalShapes,
    start: Core,
    options: &Options,
) -> Result<Planned, Memory>
    requires query { IsTypedOver globals.now (term_of start) }
    requires known { Knows (shapes_in shapes.old) globals.now }
    ensures shapes { shapes_in shapes.new ≡ shapes_in shapes.old }
    ensures planned { IfOk result (IsPlanned options.now.motion globals.now (term_of start)) }
{
    constants(&start);
    match normalise_over(alloc, &start, shapes) {
        Ok(Plan { term, trace }) => match move_out(alloc, globals, shapes, &term, options) {
            Ok(moved) => Ok(Planned {
                start,
                plan: term,
                trace,
                moved,
            }),
            Err(Memory) => {
                drop(start);
                drop(term);
                drop(trace);
                Err(Memory)
            }
        },
        Err(Memory) => {
            drop(start);
            Err(Memory)
        }
    }
}

// With the word `--motion` what is moved in a plan.
fn move_out(
    alloc: Global,
    globals: &Globals,
    shapes: &mut GlobalShapes,
    plan: &Core,
    options: &Options,
) -> Result<Option<Box<Moved>>, Memory>
    requires query { IsTypedOver globals.now (term_of plan.now) }
    requires known { Knows (shapes_in shapes.old) globals.now }
    ensures shapes { shapes_in shapes.new ≡ shapes_in shapes.old }
    ensures moved { IfOk result (IsMovedBy options.now.motion globals.now (term_of plan.now)) }
    ensures keeps { IfOk result (KeepsMoved globals.now (term_of plan.now)) }
{
    if options.motion {
        match make_box(alloc, motion_over(alloc, plan, shapes)) {
            Ok(moved) => Ok(Some(moved)),
            Err(Memory) => Err(Memory),
        }
    } else {
        Ok(None)
    }
}

// The plan is evaluated where its turns are within the budget, and else the other terms.
fn run_planned<R: Threads + Sync, G: Gate>(
    rt: &R,
    alloc: Global,
    globals: &Globals,
    planned: Planned,
    options: &Options,
    gate: &G,
) -> Result<Evaluated, StepFault>
    requires same { KeepsValue globals.now planned }
    requires unchanged { IsUnchanged planned }
    requires unmoved { IsUnmoved planned }
    requires workers { (1 ≤ options.now.workers) × (options.now.workers ≤ most_workers) }
    requires budget { options.now.budget ≤ most_budget }
    ensures evaluated { IfOk result (EvaluatesOne globals.now options.now.budget planned) }
    ensures spent { IfErr result (PassAll globals.now options.now.budget planned) }
{
    match evaluate_term(rt, alloc, &planned.plan, globals, options, gate) {
        Ok(done) => Ok(with_terms(planned, Ran::Plan, done)),
        Err(EvalFault::Spent) => run_start(rt, alloc, globals, planned, options, gate),
        Err(EvalFault::Memory) => {
            drop(planned);
            Err(StepFault::Memory)
        }
    }
}

// The start term, where the turns of the plan pass the budget, and else what is moved.
fn run_start<R: Threads + Sync, G: Gate>(
    rt: &R,
    alloc: Global,
    globals: &Globals,
    planned: Planned,
    options: &Options,
    gate: &G,
) -> Result<Evaluated, StepFault>
    requires spent { options.now.budget < settle globals.now [] (term_of planned.plan) }
    requires same { KeepsValue globals.now planned }
    requires unchanged { IsUnchanged planned }
    requires unmoved { IsUnmoved planned }
    requires workers { (1 ≤ options.now.workers) × (options.now.workers ≤ most_workers) }
    requires budget { options.now.budget ≤ most_budget }
    ensures evaluated { IfOk result (EvaluatesOne globals.now options.now.budget planned) }
    ensures spent { IfErr result (PassAll globals.now options.now.budget planned) }
{
    match evaluate_start(rt, alloc, &planned, globals, options, gate) {
        Ok(done) => Ok(with_terms(planned, Ran::Start, done)),
        Err(EvalFault::Spent) => run_moved(rt, alloc, globals, planned, options, gate),
        Err(EvalFault::Memory) => {
            drop(planned);
            Err(StepFault::Memory)
        }
    }
}

// What is moved in the plan, where the turns of the plan and of the start term pass the budget.
fn run_moved<R: Threads + Sync, G: Gate>(
    rt: &R,
    alloc: Global,
    globals: &Globals,
    planned: Planned,
    options: &Options,
    gate: &G,
) -> Result<Evaluated, StepFault>
    requires spent { options.now.budget < settle globals.now [] (term_of planned.plan) }
    requires spent_start { options.now.budget < settle globals.now [] (term_of planned.start) }
    requires same { KeepsValue globals.now planned }
    requires unmoved { IsUnmoved planned }
    requires workers { (1 ≤ options.now.workers) × (options.now.workers ≤ most_workers) }
    requires budget { options.now.budget ≤ most_budget }
    ensures evaluated { IfOk result (EvaluatesOne globals.now options.now.budget planned) }
    ensures spent { IfErr result (PassAll globals.now options.now.budget planned) }
{
    match evaluate_moved(rt, alloc, &planned, globals, options, gate) {
        Ok(done) => Ok(with_terms(planned, Ran::Moved, done)),
        Err(EvalFault::Spent) => Err(passes_budget(planned)),
        Err(EvalFault::Memory) => {
            drop(planned);
            Err(StepFault::Memory)
        }
    }
}

// The start term. Without a rewriting it is the plan, whose turns pass the budget.
fn evaluate_start<R: Threads + Sync, G: Gate>(
    rt: &R,
    alloc: Global,
    planned: &Planned,
    globals: &Globals,
    options: &Options,
    gate: &G,
) -> Result<Done, EvalFault>
    requires spent { options.now.budget < settle globals.now [] (term_of planned.now.plan) }
    requires unchanged { IsUnchanged planned.now }
    requires workers { (1 ≤ options.now.workers) × (options.now.workers ≤ most_workers) }
    requires budget { options.now.budget ≤ most_budget }
    ensures { EvaluatesClosed options.now.budget globals.now (term_of planned.now.start) result }
{
    if planned.trace.0.is_empty() {
        Err(EvalFault::Spent)
    } else {
        evaluate_term(rt, alloc, &planned.start, globals, options, gate)
    }
}

// What is moved in the plan. Without a move it is the plan, whose turns pass the budget.
fn evaluate_moved<R: Threads + Sync, G: Gate>(
    rt: &R,
    alloc: Global,
    planned: &Planned,
    globals: &Globals,
    options: &Options,
    gate: &G,
) -> Result<Done, EvalFault>
    requires spent { options.now.budget < settle globals.now [] (term_of planned.now.plan) }
    requires unmoved { IsUnmoved planned.now }
    requires workers { (1 ≤ options.now.workers) × (options.now.workers ≤ most_workers) }
    requires budget { options.now.budget ≤ most_budget }
    ensures { EvaluatesClosed options.now.budget globals.now (moved_of planned.now) result }
{
    match &planned.moved {
        Some(moved) => {
            if moved.moves.0.is_empty() {
                Err(EvalFault::Spent)
            } else {
                evaluate_term(rt, alloc, &moved.term, globals, options, gate)
            }
        }
        None => Err(EvalFault::Spent),
    }
}

// A closed term within the budget.
fn evaluate_term<R: Threads + Sync, G: Gate>(
    rt: &R,
    alloc: Global,
    term: &Core,
    globals: &Globals,
    options: &Options,
    gate: &G,
) -> Result<Done, EvalFault>
    requires workers { (1 ≤ options.now.workers) × (options.now.workers ≤ most_workers) }
    requires budget { options.now.budget ≤ most_budget }
    ensures { EvaluatesClosed options.now.budget globals.now (term_of term.now) result }
{
    evaluate(
        rt,
        alloc,
        term,
        globals,
        options.budget,
        options.workers,
        gate,
    )
}

// That the turns of all terms pass the budget, with the terms.
fn passes_budget(planned: Planned) -> StepFault
    ensures { KeepsTerms planned result }
{
    let Planned {
        start,
        plan,
        trace,
        moved,
    } = planned;
    StepFault::Query {
        start,
        plan,
        trace,
        moved,
    }
}

// The terms beside what the evaluation of one of them came to.
fn with_terms(planned: Planned, by: Ran, done: Done) -> Evaluated
    ensures { IsChosen planned by done result }
{
    let Planned {
        start,
        plan,
        trace,
        moved,
    } = planned;
    let Done { value, turns } = done;
    Evaluated {
        start,
        plan,
        trace,
        moved,
        by,
        value,
        turns,
    }
}
