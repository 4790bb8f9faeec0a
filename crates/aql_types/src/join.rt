//! Two nodes made one.

ghost use Rattle.std.specs.Prelude.{true, ◌≡◌, ◌≢◌, ◌<◌, [], ◌++◌, length, slice_set, IfOk};
ghost use Rattle.aql_types.specs.declared.node.Node.TheVariants as node;
ghost use Rattle.aql_types.specs.Forms.{form_of, forms, at};
ghost use Rattle.aql_types.specs.Valuations.{IsOrdered, AreIn, IsRoot};
ghost use Rattle.aql_types.specs.Steps.{Stepped, Sides, is_var, alike_forms, form_parts, pair_parts};

use crate::cells::{node_at, parts_of, put};
use crate::fault::UnifyFault;
use crate::node::{Equation, Node};
use crate::root::root;
use aql_value::Memory;

/// The equation's two roots are made one, and their parts are to become one.
pub(crate) fn step(
    ns: &mut [Node],
    ps: &[u32],
    e: Equation,
    work: Vec<Equation>,
) -> Result<Vec<Equation>, UnifyFault>
    requires left { e.left < length ns.old }
    requires right { e.right < length ns.old }
    requires ordered { IsOrdered (forms ps.now ns.old) }
    requires inside { AreIn (length ns.old) work.items }
    ensures { Stepped result (forms ps.now ns.old) (forms ps.now ns.new) e work.items }
{
    let left = root(ns, e.left);
    let right = root(ns, e.right);
    if left == right {
        return Ok(work);
    }
    join(ns, ps, lower_first(left, right), work)
}

// The equation of two nodes, the lower first.
fn lower_first(a: u32, b: u32) -> Equation
    requires { a ≢ b }
    ensures below { result.left < result.right }
    ensures sides { Sides result a b }
{
    if a < b {
        Equation { left: a, right: b }
    } else {
        Equation { left: b, right: a }
    }
}

// Two roots are made one, the lower.
fn join(
    ns: &mut [Node],
    ps: &[u32],
    e: Equation,
    work: Vec<Equation>,
) -> Result<Vec<Equation>, UnifyFault>
    requires below { e.left < e.right }
    requires right { e.right < length ns.old }
    requires left_root { IsRoot (at (forms ps.now ns.old) e.left) }
    requires right_root { IsRoot (at (forms ps.now ns.old) e.right) }
    requires ordered { IsOrdered (forms ps.now ns.old) }
    requires inside { AreIn (length ns.old) work.items }
    ensures { Stepped result (forms ps.now ns.old) (forms ps.now ns.new) e work.items }
{
    let low = node_at(ns, e.left as usize);
    let high = node_at(ns, e.right as usize);
    if is_variable(low) {
        unite(ns, e, high);
        return Ok(work);
    }
    if is_variable(high) {
        unite(ns, e, low);
        return Ok(work);
    }
    if !are_alike(ps, low, high) {
        return Err(UnifyFault::Clash);
    }
    unite(ns, e, low);
    let work = push_parts(ps, low, high, work)?;
    Ok(work)
}

// The node is put at the lower place, and the higher one linked to it.
fn unite(ns: &mut [Node], e: Equation, n: Node)
    requires below { e.left < e.right }
    requires right { e.right < length ns.old }
    ensures { ns.new ≡ slice_set (slice_set ns.old e.left n) e.right (node.Link e.left) }
{
    put(ns, e.left as usize, n);
    put(ns, e.right as usize, Node::Link(e.left));
}

fn is_variable(n: Node) -> bool
    ensures { result ≡ is_var (form_of [] n) }
{
    match n {
        Node::Var(_) => true,
        Node::Nat => false,
        Node::Bool => false,
        Node::Text => false,
        Node::Tuple { first: _, count: _ } => false,
        Node::Set(_) => false,
        Node::Array { rank: _, cell: _ } => false,
        Node::Link(_) => false,
    }
}

// Whether two nodes are of one form, with as many parts.
fn are_alike(ps: &[u32], low: Node, high: Node) -> bool
    ensures { result ≡ alike_forms (form_of ps.now low) (form_of ps.now high) }
{
    match (low, high) {
        (Node::Nat, Node::Nat) => true,
        (Node::Bool, Node::Bool) => true,
        (Node::Text, Node::Text) => true,
        (
            Node::Tuple { first, count },
            Node::Tuple {
                first: other,
                count: others,
            },
        ) => parts_of(ps, first, count).len() == parts_of(ps, other, others).len(),
        (Node::Set(_), Node::Set(_)) => true,
        (
            Node::Array { rank, cell: _ },
            Node::Array {
                rank: other,
                cell: _,
            },
        ) => rank == other,
        _ => false,
    }
}

// The parts of two nodes of one form are to become one, place by place.
fn push_parts(
    ps: &[u32],
    low: Node,
    high: Node,
    work: Vec<Equation>,
) -> Result<Vec<Equation>, Memory>
    requires { alike_forms (form_of ps.now low) (form_of ps.now high) ≡ true }
    ensures { IfOk result (λ w. w.items ≡ work.items
        ++ pair_parts (form_parts (form_of ps.now low)) (form_parts (form_of ps.now high))) }
{
    match (low, high) {
        (
            Node::Tuple { first, count },
            Node::Tuple {
                first: other,
                count: others,
            },
        ) => push_pairs(
            parts_of(ps, first, count),
            parts_of(ps, other, others),
            work,
        ),
        (Node::Set(p), Node::Set(q)) => push_pairs(&[p], &[q], work),
        (Node::Array { rank: _, cell: p }, Node::Array { rank: _, cell: q }) => {
            push_pairs(&[p], &[q], work)
        }
        _ => Ok(work),
    }
}

fn push_pairs(lefts: &[u32], rights: &[u32], work: Vec<Equation>) -> Result<Vec<Equation>, Memory>
    requires { length lefts.now ≡ length rights.now }
    ensures { IfOk result (λ w. w.items ≡ work.items ++ pair_parts lefts.now rights.now) }
{
    let mut work = work;
    for i in 0..lefts.len() {
        work.push(Equation {
            left: lefts[i],
            right: rights[i],
        })?;
    }
    Ok(work)
}
