//! An array-free form, evaluated over the encodings of positions.

ghost use Rattle.std.specs.Prelude.{◌≡◌, ◌≤◌, [], map, IfOk};
ghost use Rattle.aql_value.specs.Limits.{most_budget, most_workers};
ghost use Rattle.nrca_graph.specs.Encoding.{encode_outcome};
ghost use Rattle.nrca_loops.specs.Values.{held_value};
ghost use Rattle.nrca_term.specs.Meaning.{cden};
ghost use Rattle.nrca_term.specs.View.{term_of};
ghost use Rattle.nrca_encoded.specs.Encodings.{AreEncodings, KeepsEncodings};
ghost use Rattle.nrca_encoded.specs.Graphs.{IsTypedOver, IsGraph, HasValue, RunsEncoded};

use crate::positions::encode_positions;
use crate::ran::{Graph, GraphRan};
use aql_outside::Gate;
use aql_value::Memory;
use nrca_array::Held;
use nrca_eval::{Globals, evaluate};
use nrca_graph::to_graph;
use nrca_loops::into_value;
use nrca_par::EvalFault;
use nrca_term::Core;
use std::alloc::Global;
use std::thread::Threads;

/// The array-free form of a plan over the outcomes of the positions, and what it comes to within the
/// budget. The encodings of those positions that it uses are made where they are not kept yet, and
/// kept; also where memory is wanting, those that were made. For any number of workers the answer is
/// the same.
pub fn graph_of<R: Threads + Sync, G: Gate>(
    rt: &R,
    alloc: Global,
    plan: &Core,
    globals: &Globals,
    encodings: &mut Globals,
    budget: u64,
    workers: u64,
    gate: &G,
) -> Result<Graph, Memory>
    requires typed { IsTypedOver globals.now (term_of plan.now) }
    requires kept { AreEncodings globals.now encodings.old }
    requires budget { budget ≤ most_budget }
    requires workers { (1 ≤ workers) × (workers ≤ most_workers) }
    ensures graph { IfOk result (IsGraph globals.now budget (term_of plan.now)
        (cden globals.now [] (term_of plan.now))) }
    ensures kept { AreEncodings globals.now encodings.new }
    ensures still { KeepsEncodings globals.now encodings.old encodings.new }
{
    let term = to_graph(alloc, plan)?;
    match run_encoded(rt, alloc, &term, globals, encodings, budget, workers, gate) {
        Ok(ran) => Ok(Graph { term, ran }),
        Err(Memory) => {
            drop(term);
            Err(Memory)
        }
    }
}

// What a term comes to over the encoded outcomes of the positions.
fn run_encoded<R: Threads + Sync, G: Gate>(
    rt: &R,
    alloc: Global,
    term: &Core,
    globals: &Globals,
    encodings: &mut Globals,
    budget: u64,
    workers: u64,
    gate: &G,
) -> Result<GraphRan, Memory>
    requires kept { AreEncodings globals.now encodings.old }
    requires budget { budget ≤ most_budget }
    requires workers { (1 ≤ workers) × (workers ≤ most_workers) }
    ensures ran { IfOk result (RunsEncoded globals.now budget (term_of term.now)) }
    ensures kept { AreEncodings globals.now encodings.new }
    ensures still { KeepsEncodings globals.now encodings.old encodings.new }
{
    encode_positions(alloc, term, globals, encodings)?;
    match evaluate(rt, alloc, term, &*encodings, budget, workers, gate) {
        Ok(done) => ran_with(alloc, done.value),
        Err(EvalFault::Spent) => Ok(GraphRan::Spent),
        Err(EvalFault::Memory) => Err(Memory),
    }
}

// The value that an evaluation within the budget came to, or that there is none.
fn ran_with(alloc: Global, value: Option<Held>) -> Result<GraphRan, Memory>
    ensures { IfOk result (HasValue (held_value value)) }
{
    match value {
        Some(held) => match into_value(alloc, held) {
            Ok(value) => Ok(GraphRan::Value(value)),
            Err(Memory) => Err(Memory),
        },
        None => Ok(GraphRan::Undefined),
    }
}
