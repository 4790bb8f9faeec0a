//! The lines of a declaration.
ghost use Rattle.std.specs.Prelude.{◌≡◌, ◌++◌, [], codes, IfOk, OnOk, if◌then◌else◌};
ghost use Rattle.nrca_term.specs.View.{term_of};
ghost use Rattle.aql_print.specs.CoreText.{core_text};
ghost use Rattle.aql_print.specs.MovesText.{moves_text};
ghost use Rattle.aql_run.specs.Entry.{entry, lent_value, line, type_line, value_line, plan_line, plan_lines, rules_line, turns_line, moved_lines, outcome_text, graph_line, graph_text};

use aql_print::{print_core, print_held, print_moves, print_scheme, print_trace, print_value};
use aql_session::{Answer, Graph, GraphRan, Ran};
use aql_value::Memory;
use itoa::Buffer;
use nrca_array::Held;
use nrca_motion::{Moved, Moves};
use nrca_term::Core;
use std::alloc::Global;

/// The lines of a declaration: its type, its value or that it is a macro, and with `plan` its plan,
/// the rules that made it, its turns, and what is moved in the plan, where there is something; at the
/// end what the array-free form of the plan came to, where there is one.
pub(crate) fn entry_text(
    alloc: Global,
    plan: bool,
    answer: &Answer,
    outcome: Option<&Held>,
) -> Result<Vec<u8>, Memory>
    ensures { IfOk result (λ text. text.items ≡ entry plan answer.now (lent_value outcome.entry)) }
{
    let mut text = Vec::new(alloc);
    push_type(alloc, answer, &mut text)?;
    push_value(alloc, answer, outcome, &mut text)?;
    push_asked(alloc, plan, answer, &mut text)?;
    push_graph(alloc, &answer.name.bytes, &answer.graph, &mut text)?;
    Ok(text)
}

fn push_type(alloc: Global, answer: &Answer, text: &mut Vec<u8>) -> Result<(), Memory>
    ensures { OnOk result (text.new.items ≡ text.old.items ++ type_line answer.now) }
{
    text.extend_from_slice(b"typ ")?;
    text.extend_from_slice(&answer.name.bytes)?;
    text.extend_from_slice(b" : ")?;
    print_scheme(alloc, &answer.ty, text)?;
    text.extend_from_slice(b"\n")?;
    Ok(())
}

fn push_value(
    alloc: Global,
    answer: &Answer,
    outcome: Option<&Held>,
    text: &mut Vec<u8>,
) -> Result<(), Memory>
    ensures { OnOk result (text.new.items ≡ text.old.items
        ++ value_line answer.now.by answer.now.name (lent_value outcome.entry)) }
{
    match answer.by {
        Ran::Declared => {
            text.extend_from_slice(b"mac ")?;
            text.extend_from_slice(&answer.name.bytes)?;
            text.extend_from_slice(b"\n")?;
        }
        Ran::Plan => push_outcome(alloc, &answer.name.bytes, outcome, text)?,
        Ran::Start => push_outcome(alloc, &answer.name.bytes, outcome, text)?,
        Ran::Moved => push_outcome(alloc, &answer.name.bytes, outcome, text)?,
        Ran::Read => push_outcome(alloc, &answer.name.bytes, outcome, text)?,
    }
    Ok(())
}

fn push_outcome(
    alloc: Global,
    name: &[u8],
    outcome: Option<&Held>,
    text: &mut Vec<u8>,
) -> Result<(), Memory>
    ensures { OnOk result (text.new.items ≡ text.old.items
        ++ line (codes "val ") name.now (codes " = ") (outcome_text (lent_value outcome.entry))) }
{
    text.extend_from_slice(b"val ")?;
    text.extend_from_slice(name)?;
    text.extend_from_slice(b" = ")?;
    match outcome {
        Some(value) => print_held(alloc, value, text)?,
        None => text.extend_from_slice(b"undefined")?,
    }
    text.extend_from_slice(b"\n")?;
    Ok(())
}

// With `plan` the lines of the plan.
fn push_asked(alloc: Global, plan: bool, answer: &Answer, text: &mut Vec<u8>) -> Result<(), Memory>
    ensures { OnOk result (text.new.items ≡ text.old.items
        ++ (if plan then plan_lines answer.now.by answer.now else [])) }
{
    if plan {
        push_plan(alloc, answer, text)
    } else {
        Ok(())
    }
}

fn push_plan(alloc: Global, answer: &Answer, text: &mut Vec<u8>) -> Result<(), Memory>
    ensures { OnOk result (text.new.items ≡ text.old.items
        ++ plan_lines answer.now.by answer.now) }
{
    match answer.by {
        Ran::Declared => Ok(()),
        Ran::Plan => push_plan_lines(alloc, answer, text),
        Ran::Start => push_plan_lines(alloc, answer, text),
        Ran::Moved => push_plan_lines(alloc, answer, text),
        Ran::Read => push_plan_lines(alloc, answer, text),
    }
}

fn push_plan_lines(alloc: Global, answer: &Answer, text: &mut Vec<u8>) -> Result<(), Memory>
    ensures { OnOk result (text.new.items ≡ text.old.items ++ plan_lines Ran.Plan answer.now) }
{
    push_term(alloc, answer, text)?;
    push_rules(alloc, answer, text)?;
    push_turns(answer, text)?;
    push_moved(alloc, &answer.name.bytes, &answer.moved, text)
}

fn push_term(alloc: Global, answer: &Answer, text: &mut Vec<u8>) -> Result<(), Memory>
    ensures { OnOk result (text.new.items ≡ text.old.items ++ plan_line answer.now) }
{
    text.extend_from_slice(b"plan ")?;
    text.extend_from_slice(&answer.name.bytes)?;
    text.extend_from_slice(b" = ")?;
    print_core(alloc, &answer.plan, text)?;
    text.extend_from_slice(b"\n")?;
    Ok(())
}

fn push_rules(alloc: Global, answer: &Answer, text: &mut Vec<u8>) -> Result<(), Memory>
    ensures { OnOk result (text.new.items ≡ text.old.items ++ rules_line answer.now) }
{
    text.extend_from_slice(b"rules ")?;
    text.extend_from_slice(&answer.name.bytes)?;
    text.extend_from_slice(b" = ")?;
    print_trace(alloc, &answer.trace, text)?;
    text.extend_from_slice(b"\n")?;
    Ok(())
}

fn push_turns(answer: &Answer, text: &mut Vec<u8>) -> Result<(), Memory>
    ensures { OnOk result (text.new.items ≡ text.old.items ++ turns_line answer.now) }
{
    text.extend_from_slice(b"turns ")?;
    text.extend_from_slice(&answer.name.bytes)?;
    text.extend_from_slice(b" = ")?;
    let mut buffer = Buffer::new();
    text.extend_from_slice(buffer.format(answer.turns).as_bytes())?;
    text.extend_from_slice(b"\n")?;
    Ok(())
}

fn push_moved(
    alloc: Global,
    name: &[u8],
    moved: &Option<Box<Moved>>,
    text: &mut Vec<u8>,
) -> Result<(), Memory>
    ensures { OnOk result (text.new.items ≡ text.old.items ++ moved_lines name.now moved.now) }
{
    match moved {
        Some(moved) => {
            push_moved_term(alloc, name, &moved.term, text)?;
            push_moves(alloc, name, &moved.moves, text)
        }
        None => Ok(()),
    }
}

fn push_moved_term(
    alloc: Global,
    name: &[u8],
    term: &Core,
    text: &mut Vec<u8>,
) -> Result<(), Memory>
    ensures { OnOk result (text.new.items ≡ text.old.items
        ++ line (codes "moved ") name.now (codes " = ") (core_text 0 (term_of term.now))) }
{
    text.extend_from_slice(b"moved ")?;
    text.extend_from_slice(name)?;
    text.extend_from_slice(b" = ")?;
    print_core(alloc, term, text)?;
    text.extend_from_slice(b"\n")?;
    Ok(())
}

fn push_moves(alloc: Global, name: &[u8], moves: &Moves, text: &mut Vec<u8>) -> Result<(), Memory>
    ensures { OnOk result (text.new.items ≡ text.old.items
        ++ line (codes "moves ") name.now (codes " = ") (moves_text moves.now)) }
{
    text.extend_from_slice(b"moves ")?;
    text.extend_from_slice(name)?;
    text.extend_from_slice(b" = ")?;
    print_moves(alloc, moves, text)?;
    text.extend_from_slice(b"\n")?;
    Ok(())
}

fn push_graph(
    alloc: Global,
    name: &[u8],
    graph: &Option<Box<Graph>>,
    text: &mut Vec<u8>,
) -> Result<(), Memory>
    ensures { OnOk result (text.new.items ≡ text.old.items ++ graph_line name.now graph.now) }
{
    match graph {
        Some(graph) => push_ran(alloc, name, &graph.ran, text),
        None => Ok(()),
    }
}

fn push_ran(alloc: Global, name: &[u8], ran: &GraphRan, text: &mut Vec<u8>) -> Result<(), Memory>
    ensures { OnOk result (text.new.items ≡ text.old.items
        ++ line (codes "graph ") name.now (codes " = ") (graph_text ran.now)) }
{
    text.extend_from_slice(b"graph ")?;
    text.extend_from_slice(name)?;
    text.extend_from_slice(b" = ")?;
    match ran {
        GraphRan::Spent => text.extend_from_slice(b"spent")?,
        GraphRan::Undefined => text.extend_from_slice(b"undefined")?,
        GraphRan::Value(value) => print_value(alloc, value, text)?,
    }
    text.extend_from_slice(b"\n")?;
    Ok(())
}
