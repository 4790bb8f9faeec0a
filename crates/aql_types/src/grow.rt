//! Nodes added to a graph.
//!
//! Each call answers the new node's number and the graph. `Memory` is the answer where an allocation is refused, or
//! where 32 bits do not hold a number.

ghost use Rattle.std.specs.Prelude.{◌≡◌, ◌<◌, ◌≤◌, ◌+◌, ◌++◌, ◌∷◌, [], length, IfOk};
ghost use Rattle.aql_value.specs.Lists.{Every};
ghost use Rattle.aql_types.specs.Shapes as shape;
ghost use Rattle.aql_types.specs.Forms.{form_of};
ghost use Rattle.aql_types.specs.Forms as form;
ghost use Rattle.aql_types.specs.Trees.{Grows};
ghost use Rattle.aql_types.specs.Ranges.{range_end, variable_in};
ghost use Rattle.aql_types.specs.Graphs.{forms_of, Adds};

use crate::count::to_number;
use crate::graph::Graph;
use crate::node::Node;
use aql_value::Memory;
use std::alloc::Global;

/// A graph without nodes.
pub fn empty_graph(alloc: Global) -> Graph
    ensures nodes { forms_of result ≡ [] }
    ensures variables { result.variables ≡ 0 }
{
    Graph {
        nodes: Vec::new(alloc),
        parts: Vec::new(alloc),
        variables: 0,
    }
}

/// A new variable, numbered behind those that are there.
pub fn push_variable(g: Graph) -> Result<(u32, Graph), Memory>
    ensures { IfOk result (λ r. Adds r.0 r.1 g (form.var g.variables)) }
{
    match g.variables.checked_add(1) {
        None => Err(Memory),
        Some(variables) => {
            let (number, nodes) = push_node(g.nodes, Node::Var(g.variables))?;
            let made = Graph {
                nodes,
                parts: g.parts,
                variables,
            };
            Ok((number, made))
        }
    }
}

/// The type of natural numbers.
pub fn push_natural(g: Graph) -> Result<(u32, Graph), Memory>
    ensures { IfOk result (λ r. Adds r.0 r.1 g (form.made shape.natural)) }
{
    push_form(g, Node::Nat)
}

/// The type of truth values.
pub fn push_truth(g: Graph) -> Result<(u32, Graph), Memory>
    ensures { IfOk result (λ r. Adds r.0 r.1 g (form.made shape.truth)) }
{
    push_form(g, Node::Bool)
}

/// The type of strings.
pub(crate) fn push_text(g: Graph) -> Result<(u32, Graph), Memory>
    ensures { IfOk result (λ r. Adds r.0 r.1 g (form.made shape.text)) }
{
    push_form(g, Node::Text)
}

/// The type of sets with members of a node's type.
pub fn push_set(g: Graph, member: u32) -> Result<(u32, Graph), Memory>
    requires { member < length g.nodes.items }
    ensures { IfOk result (λ r. Adds r.0 r.1 g (form.made (shape.set_of member))) }
{
    push_form(g, Node::Set(member))
}

/// The type of arrays of that rank with cells of a node's type.
pub fn push_array(g: Graph, rank: u32, cell: u32) -> Result<(u32, Graph), Memory>
    requires { cell < length g.nodes.items }
    ensures { IfOk result (λ r. Adds r.0 r.1 g (form.made (shape.array_of rank cell))) }
{
    push_form(g, Node::Array { rank, cell })
}

/// The type of tuples with parts of these nodes' types.
pub fn push_tuple(g: Graph, parts: &[u32]) -> Result<(u32, Graph), Memory>
    requires { Every (λ p. p < length g.nodes.items) parts.now }
    ensures { IfOk result (λ r. Adds r.0 r.1 g (form.made (shape.product parts.now))) }
{
    let first = to_number(g.parts.len() as u64)?;
    let count = to_number(parts.len() as u64)?;
    let more = push_parts(g, parts)?;
    push_form(more, Node::Tuple { first, count })
}

// The list of parts made longer.
fn push_parts(g: Graph, parts: &[u32]) -> Result<Graph, Memory>
    ensures nodes { IfOk result (λ m. m.nodes.items ≡ g.nodes.items) }
    ensures parts { IfOk result (λ m. m.parts.items ≡ g.parts.items ++ parts.now) }
    ensures forms { IfOk result (λ m. forms_of m ≡ forms_of g) }
    ensures variables { IfOk result (λ m. m.variables ≡ g.variables) }
{
    let mut all = g.parts;
    all.extend_from_slice(parts)?;
    Ok(Graph {
        nodes: g.nodes,
        parts: all,
        variables: g.variables,
    })
}

// A node that is no variable.
fn push_form(g: Graph, n: Node) -> Result<(u32, Graph), Memory>
    requires inside { range_end n ≤ length g.parts.items }
    requires grows { Grows (form_of g.parts.items n) (length g.nodes.items) }
    requires made { variable_in (form_of g.parts.items n) ≡ [] }
    ensures { IfOk result (λ r. Adds r.0 r.1 g (form_of g.parts.items n)) }
{
    let (number, nodes) = push_node(g.nodes, n)?;
    let made = Graph {
        nodes,
        parts: g.parts,
        variables: g.variables,
    };
    Ok((number, made))
}

fn push_node(nodes: Vec<Node>, n: Node) -> Result<(u32, Vec<Node>), Memory>
    ensures number { IfOk result (λ r. r.0 ≡ length nodes.items) }
    ensures nodes { IfOk result (λ r. r.1.items ≡ nodes.items ++ n ∷ []) }
{
    let mut nodes = nodes;
    let i = to_number(nodes.len() as u64)?;
    nodes.push(n)?;
    Ok((i, nodes))
}
