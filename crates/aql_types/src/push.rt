//! Types and equations written as nodes of a graph.

ghost use Rattle.std.specs.Prelude.{◌∷◌, [], IfOk};
ghost use Rattle.aql_ty.specs.Types as types;
ghost use Rattle.aql_ty.specs.Types.{apply, apply_all};
ghost use Rattle.aql_ty.specs.View.{type_of, types_of};
ghost use Rattle.aql_types.specs.EquationView.{equation_list};
ghost use Rattle.aql_types.specs.Graphs.{forms_of};
ghost use Rattle.aql_types.specs.Pushed.{shift, AreNumbered, IsFresh, Pushes, PushesAll, PushesUses, PushesEquations, Makes};

use crate::count::{count_variables, to_number};
use crate::equation::Equation;
use crate::graph::Graph;
use crate::grow::{
    empty_graph, push_array, push_natural, push_set, push_text, push_truth, push_tuple,
    push_variable,
};
use crate::node;
use aql_ty::ty::Ty;
use aql_value::Memory;
use std::alloc::Global;

/// The graph of all sides and all types that are used, and the equations between its nodes.
pub(crate) fn make_graph(
    alloc: Global,
    work: Vec<Equation>,
    uses: Vec<Ty>,
) -> Result<(Vec<node::Equation>, Graph), Memory>
    ensures { IfOk result
        (λ r. Makes r.0.items r.1 (equation_list work.items) (types_of uses.items)) }
{
    let variables = count_variables(&work, &uses)?;
    let g = push_variables(alloc, variables)?;
    let g = push_uses(alloc, g, uses)?;
    push_equations(alloc, g, work)
}

/// That many variables, each the node of its own number.
pub fn push_variables(alloc: Global, n: u32) -> Result<Graph, Memory>
    ensures { IfOk result (λ g. IsFresh n g) }
{
    let mut g = empty_graph(alloc);
    for _i in 0..n {
        let (_, more) = push_variable(g)?;
        g = more;
    }
    Ok(g)
}

// The graph with the types that are used.
fn push_uses(alloc: Global, g: Graph, uses: Vec<Ty>) -> Result<Graph, Memory>
    requires { AreNumbered g.variables (forms_of g) }
    ensures { IfOk result (λ made. PushesUses made g (types_of uses.items)) }
{
    let (_, made) = push_types(alloc, g, &uses, 0)?;
    Ok(made)
}

// The graph with both sides of all equations, and the equations between their nodes.
fn push_equations(
    alloc: Global,
    g: Graph,
    work: Vec<Equation>,
) -> Result<(Vec<node::Equation>, Graph), Memory>
    requires { AreNumbered g.variables (forms_of g) }
    ensures { IfOk result (λ r. PushesEquations r.0.items r.1 g (equation_list work.items)) }
{
    let mut g = g;
    let mut made = Vec::new(alloc);
    for e in work {
        let (one, more) = push_equation(alloc, g, e)?;
        g = more;
        made.push(one)?;
    }
    Ok((made, g))
}

fn push_equation(alloc: Global, g: Graph, e: Equation) -> Result<(node::Equation, Graph), Memory>
    requires { AreNumbered g.variables (forms_of g) }
    ensures { IfOk result (λ r. PushesEquations (r.0 ∷ []) r.1 g (equation_list (e ∷ []))) }
{
    let (left, g) = push_type(alloc, g, &e.left, 0)?;
    let (right, g) = push_type(alloc, g, &e.right, 0)?;
    Ok((node::Equation { left, right }, g))
}

/// A node of a type whose variables are raised by a number, behind those of its parts; a variable is the node of its own number.
#[cycle(push)]
pub fn push_type(alloc: Global, g: Graph, t: &Ty, by: u64) -> Result<(u32, Graph), Memory>
    requires { AreNumbered g.variables (forms_of g) }
    ensures { IfOk result (λ r. Pushes r.0 r.1 g (apply (shift by) (type_of t.now))) }
{
    match t {
        Ty::Nat => push_natural(g),
        Ty::Bool => push_truth(g),
        Ty::Text => push_text(g),
        Ty::Var(x) => raised_variable(g, *x, by),
        Ty::Tuple(ts) => {
            let (parts, g) = push_types(alloc, g, &ts.items, by)?;
            push_tuple(g, &parts)
        }
        Ty::SetOf(t) => {
            let (member, g) = push_type(alloc, g, t, by)?;
            push_set(g, member)
        }
        Ty::ArrayOf { rank, cell } => {
            let rank = to_number(*rank)?;
            let (cell, g) = push_type(alloc, g, cell, by)?;
            push_array(g, rank, cell)
        }
    }
}

#[cycle(push)]
fn push_types(alloc: Global, g: Graph, ts: &[Ty], by: u64) -> Result<(Vec<u32>, Graph), Memory>
    requires { AreNumbered g.variables (forms_of g) }
    ensures { IfOk result (λ r. PushesAll r.0.items r.1 g (apply_all (shift by)
        (types_of ts.now))) }
{
    let mut g = g;
    let mut made = Vec::new(alloc);
    for t in ts {
        let (i, more) = push_type(alloc, g, t, by)?;
        g = more;
        made.push(i)?;
    }
    Ok((made, g))
}

// The node of a variable that is raised by a number.
fn raised_variable(g: Graph, x: u64, by: u64) -> Result<(u32, Graph), Memory>
    requires { AreNumbered g.variables (forms_of g) }
    ensures { IfOk result (λ r. Pushes r.0 r.1 g (shift by x)) }
{
    match by.checked_add(x) {
        None => Err(Memory),
        Some(y) => find_variable(g, y),
    }
}

// The node of a variable. There is one for each number below that of the variables.
fn find_variable(g: Graph, x: u64) -> Result<(u32, Graph), Memory>
    requires { AreNumbered g.variables (forms_of g) }
    ensures { IfOk result (λ r. Pushes r.0 r.1 g (types.var x)) }
{
    if x < g.variables as u64 {
        Ok((x as u32, g))
    } else {
        Err(Memory)
    }
}
