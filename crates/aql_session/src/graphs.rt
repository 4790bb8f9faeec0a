//! The array-free forms of the plans of queries.
ghost use Rattle.std.specs.Prelude.{◌≡◌, ◌≤◌, [], IfOk, IfErr};
ghost use Rattle.aql_value.specs.Limits.{most_budget, most_workers};
ghost use Rattle.nrca_encoded.specs.Encodings.{AreEncodings};
ghost use Rattle.nrca_encoded.specs.Graphs.{IsTypedOver};
ghost use Rattle.nrca_term.specs.Meaning.{cden};
ghost use Rattle.nrca_term.specs.View.{term_of};
ghost use Rattle.aql_session.specs.Executions.{HasWorkers, budget_of, IsExecutionWithGraph, execution_with};
ghost use Rattle.aql_session.specs.Step.{IsGraphBy};

use crate::answer::StepFault;
use crate::executions::{CheckedDeclaration, Execution};
use crate::queries::Evaluated;
use aql_options::Options;
use aql_outside::Gate;
use aql_value::Memory;
use aql_value::made::make_box;
use nrca_encoded::{Graph, graph_of};
use nrca_eval::Globals;
use nrca_term::Core;
use std::alloc::Global;
use std::thread::Threads;

/// The run of a query that was evaluated, with the word `--graph` beside the array-free form of its
/// plan.
pub(crate) fn with_graph<R: Threads + Sync, G: Gate>(
    rt: &R,
    alloc: Global,
    globals: &Globals,
    encodings: &mut Globals,
    at: &CheckedDeclaration,
    evaluated: Evaluated,
    gate: &G,
) -> Result<Execution, StepFault>
    requires typed { IsTypedOver globals.now (term_of evaluated.plan) }
    requires encodings { AreEncodings globals.now encodings.old }
    requires workers { HasWorkers at.now }
    requires budget { budget_of at.now ≤ most_budget }
    ensures ran { IfOk result (IsExecutionWithGraph at.now globals.now evaluated) }
    ensures fault { IfErr result (λ f. f ≡ StepFault.Memory) }
    ensures encodings { AreEncodings globals.now encodings.new }
{
    match graph_by(
        rt,
        alloc,
        &evaluated.plan,
        globals,
        encodings,
        at.options,
        gate,
    ) {
        Ok(graph) => Ok(add_graph(evaluated, graph)),
        Err(Memory) => {
            drop(evaluated);
            Err(StepFault::Memory)
        }
    }
}

// With the word `--graph` the array-free form of a plan, and what it comes to.
fn graph_by<R: Threads + Sync, G: Gate>(
    rt: &R,
    alloc: Global,
    plan: &Core,
    globals: &Globals,
    encodings: &mut Globals,
    options: &Options,
    gate: &G,
) -> Result<Option<Box<Graph>>, Memory>
    requires typed { IsTypedOver globals.now (term_of plan.now) }
    requires encodings { AreEncodings globals.now encodings.old }
    requires workers { (1 ≤ options.now.workers) × (options.now.workers ≤ most_workers) }
    requires budget { options.now.budget ≤ most_budget }
    ensures graph { IfOk result (IsGraphBy options.now.graph globals.now options.now.budget
        (term_of plan.now) (cden globals.now [] (term_of plan.now))) }
    ensures encodings { AreEncodings globals.now encodings.new }
{
    if options.graph {
        let found = graph_of(
            rt,
            alloc,
            plan,
            globals,
            encodings,
            options.budget,
            options.workers,
            gate,
        );
        match make_box(alloc, found) {
            Ok(graph) => Ok(Some(graph)),
            Err(Memory) => Err(Memory),
        }
    } else {
        Ok(None)
    }
}

// What a query came to, beside its graph.
fn add_graph(evaluated: Evaluated, graph: Option<Box<Graph>>) -> Execution
    ensures { result ≡ execution_with evaluated graph }
{
    let Evaluated {
        start,
        plan,
        trace,
        moved,
        by,
        value,
        turns,
    } = evaluated;
    Execution {
        start,
        plan,
        trace,
        moved,
        graph,
        by,
        turns,
        value,
    }
}
