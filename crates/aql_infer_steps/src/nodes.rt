//! Types under way pushed in a graph. An instance of what a position has is pushed once, whatever the number of its uses.

ghost use Rattle.std.specs.Prelude.{◌≡◌, ◌<◌, ◌∷◌, [], IfOk, OnOk, IfSome, IsOkAnd, length};
ghost use Rattle.aql_types.specs.Shapes as shape;
ghost use Rattle.aql_types.specs.Forms as form;
ghost use Rattle.aql_types.specs.Graphs.{forms_of, Adds};
ghost use Rattle.aql_types.specs.Pushed.{AreNumbered, Pushes, PushesAll, PushesUses, PushesEquations, Makes};
ghost use Rattle.aql_infer_steps.specs.View.{instance_type, sketch_type, sketch_types, sides_of};
ghost use Rattle.aql_infer_steps.specs.Nodes.{IsUnderWay, IsKnown, IsNoted};

use crate::positions::Positions;
use crate::sketch::{Instance, Sketch};
use crate::store::{Sides, Store};
use aql_types::count::to_number;
use aql_types::graph::Graph;
use aql_types::grow::{push_array, push_natural, push_set, push_tuple};
use aql_types::node;
use aql_types::push::{push_type, push_variables};
use aql_value::Memory;
use indexmap::IndexMap;
use std::alloc::Global;

/// A graph under way, and the nodes of the instances that were pushed in it.
#[derive(Drop)]
pub struct Working {
    pub graph: Graph,
    pub known: IndexMap<Instance, u32>,
}

/// The graph of all sides and all types that are used, and the equations between its nodes.
pub(crate) fn make_graph(
    alloc: Global,
    s: Store,
    positions: &Positions,
) -> Result<(Vec<node::Equation>, Graph), Memory>
    ensures { IfOk result (λ r. Makes r.0.items r.1 (sides_of positions.now s.equations.items)
        (sketch_types positions.now s.uses.items)) }
{
    let Store {
        equations,
        uses,
        next,
    } = s;
    let variables = to_number(next)?;
    let graph = push_variables(alloc, variables)?;
    let w = Working {
        graph,
        known: IndexMap::new(alloc),
    };
    let w = push_uses(alloc, w, uses, positions)?;
    let (made, w) = push_equations(alloc, w, equations, positions)?;
    Ok((made, w.graph))
}

// The graph with the types that are used.
fn push_uses(
    alloc: Global,
    w: Working,
    uses: Vec<Sketch>,
    positions: &Positions,
) -> Result<Working, Memory>
    requires { IsUnderWay positions.now w }
    ensures { IfOk result (λ r. PushesUses r.graph w.graph (sketch_types positions.now uses.items)
        × IsUnderWay positions.now r) }
{
    let (_, made) = push_sketches(alloc, w, &uses, positions)?;
    Ok(made)
}

// The graph with both sides of all equations, and the equations between their nodes.
fn push_equations(
    alloc: Global,
    w: Working,
    work: Vec<Sides>,
    positions: &Positions,
) -> Result<(Vec<node::Equation>, Working), Memory>
    requires { IsUnderWay positions.now w }
    ensures { IfOk result (λ r. PushesEquations r.0.items r.1.graph w.graph
        (sides_of positions.now work.items) × IsUnderWay positions.now r.1) }
{
    let mut w = w;
    let mut made = Vec::new(alloc);
    for e in work {
        let (one, more) = push_equation(alloc, w, e, positions)?;
        w = more;
        made.push(one)?;
    }
    Ok((made, w))
}

fn push_equation(
    alloc: Global,
    w: Working,
    e: Sides,
    positions: &Positions,
) -> Result<(node::Equation, Working), Memory>
    requires { IsUnderWay positions.now w }
    ensures { IfOk result (λ r. PushesEquations (r.0 ∷ []) r.1.graph w.graph
        (sides_of positions.now (e ∷ [])) × IsUnderWay positions.now r.1) }
{
    let (left, w) = push_sketch(alloc, w, &e.left, positions)?;
    let (right, w) = push_sketch(alloc, w, &e.right, positions)?;
    Ok((node::Equation { left, right }, w))
}

// A node of a type under way, behind those of its parts.
#[cycle(push)]
fn push_sketch(
    alloc: Global,
    w: Working,
    t: &Sketch,
    positions: &Positions,
) -> Result<(u32, Working), Memory>
    requires { IsUnderWay positions.now w }
    ensures { IfOk result (λ r. Pushes r.0 r.1.graph w.graph (sketch_type positions.now t.now)
        × IsUnderWay positions.now r.1) }
{
    match t {
        Sketch::Plain(t) => {
            let Working { graph, known } = w;
            with_known(push_type(alloc, graph, t, 0), known)
        }
        Sketch::Tuple(ts) => {
            let (parts, w) = push_sketches(alloc, w, &ts.items, positions)?;
            let Working { graph, known } = w;
            with_known(push_tuple(graph, &parts), known)
        }
        Sketch::SetOf(t) => {
            let (member, w) = push_sketch(alloc, w, t, positions)?;
            let Working { graph, known } = w;
            with_known(push_set(graph, member), known)
        }
        Sketch::ArrayOf { rank, cell } => {
            let (cell, w) = push_sketch(alloc, w, cell, positions)?;
            let Working { graph, known } = w;
            with_known(push_array_of(graph, *rank, cell), known)
        }
        Sketch::Instance(i) => push_instance(alloc, w, *i, positions),
    }
}

#[cycle(push)]
fn push_sketches(
    alloc: Global,
    w: Working,
    ts: &[Sketch],
    positions: &Positions,
) -> Result<(Vec<u32>, Working), Memory>
    requires { IsUnderWay positions.now w }
    ensures { IfOk result (λ r. PushesAll r.0.items r.1.graph w.graph
        (sketch_types positions.now ts.now) × IsUnderWay positions.now r.1) }
{
    let mut w = w;
    let mut made = Vec::new(alloc);
    for t in ts {
        let (i, more) = push_sketch(alloc, w, t, positions)?;
        w = more;
        made.push(i)?;
    }
    Ok((made, w))
}

// The type of arrays of that rank with cells of a node's type.
fn push_array_of(g: Graph, rank: u64, cell: u32) -> Result<(u32, Graph), Memory>
    requires { cell < length g.nodes.items }
    ensures { IfOk result (λ r. Adds r.0 r.1 g (form.made (shape.array_of rank cell))) }
{
    let rank = to_number(rank)?;
    push_array(g, rank, cell)
}

// A node of an instance: the one that it has, or one that is noted now.
fn push_instance(
    alloc: Global,
    w: Working,
    i: Instance,
    positions: &Positions,
) -> Result<(u32, Working), Memory>
    requires { IsUnderWay positions.now w }
    ensures { IfOk result (λ r. Pushes r.0 r.1.graph w.graph (instance_type positions.now i)
        × IsUnderWay positions.now r.1) }
{
    match find_node(&w.known, i) {
        Some(n) => Ok((n, w)),
        None => {
            let Working { graph, known } = w;
            note(push_part(alloc, graph, i, positions), known, i)
        }
    }
}

// The node of an instance, where it is known.
fn find_node(known: &IndexMap<Instance, u32>, i: Instance) -> Option<u32>
    ensures { IfSome result (λ n. IsKnown known.now.entries i n) }
{
    known.get(&i).copied()
}

// A new node of an instance.
fn push_part(
    alloc: Global,
    g: Graph,
    i: Instance,
    positions: &Positions,
) -> Result<(u32, Graph), Memory>
    requires { AreNumbered g.variables (forms_of g) }
    ensures { IfOk result (λ r. Pushes r.0 r.1 g (instance_type positions.now i)) }
{
    match positions.part(i) {
        Some(t) => push_type(alloc, g, t, i.first),
        None => push_natural(g),
    }
}

// A node that was made, in its graph, beside those that are known.
fn with_known(
    made: Result<(u32, Graph), Memory>,
    known: IndexMap<Instance, u32>,
) -> Result<(u32, Working), Memory>
    ensures { IfOk result (λ r. IsOkAnd made (λ m. (m.0 ≡ r.0) × (m.1 ≡ r.1.graph))
        × (r.1.known ≡ known)) }
{
    let (number, graph) = made?;
    Ok((number, Working { graph, known }))
}

// The same, with the new node known as that of the instance.
fn note(
    made: Result<(u32, Graph), Memory>,
    known: IndexMap<Instance, u32>,
    i: Instance,
) -> Result<(u32, Working), Memory>
    ensures { IfOk result (λ r. IsOkAnd made (λ m. (m.0 ≡ r.0) × (m.1 ≡ r.1.graph))
        × IsNoted known.entries r.1.known.entries i r.0) }
{
    let (number, graph) = made?;
    let mut known = known;
    learn(&mut known, i, number)?;
    Ok((number, Working { graph, known }))
}

// The node of an instance is known from now on.
fn learn(known: &mut IndexMap<Instance, u32>, i: Instance, number: u32) -> Result<(), Memory>
    ensures { OnOk result (IsNoted known.old.entries known.new.entries i number) }
{
    known.insert(i, number)?;
    Ok(())
}
