//! The types that the nodes of a solved graph stand for, as trees.

ghost use Rattle.std.specs.Prelude.{◌≡◌, IfOk};
ghost use Rattle.aql_ty.specs.View.{type_of, types_of};
ghost use Rattle.aql_types.specs.Shapes.{types_at};
ghost use Rattle.aql_types.specs.Forms.{forms, at};
ghost use Rattle.aql_types.specs.Trees.{form_type};
ghost use Rattle.aql_types.specs.Extents as extents;
ghost use Rattle.aql_types.specs.Graphs.{solved_forms};

use crate::cells::{node_at, parts_of};
use crate::measure::end_of;
use crate::node::Node;
use crate::solved_graph::{LEVELS, SolvedGraph};
use aql_ty::ty::{Ty, row};
use aql_value::Memory;
use std::alloc::Global;

/// The type that a node of a solved graph stands for.
pub fn node_type(alloc: Global, s: &SolvedGraph, i: u32) -> Result<Ty, Memory>
    ensures { IfOk result (λ t. type_of t ≡ extents.read 400 (solved_forms s.now) i) }
{
    read(alloc, &s.nodes, &s.parts, i as usize, LEVELS)
}

// The same, down to that many levels.
#[cycle(read)]
fn read(alloc: Global, ns: &[Node], ps: &[u32], i: usize, left: u16) -> Result<Ty, Memory>
    ensures { IfOk result (λ t. type_of t ≡ extents.read left (forms ps.now ns.now) i) }
{
    if left == 0 {
        return Ok(Ty::Nat);
    }
    let e = end_of(ns, i);
    read_node(alloc, ns, ps, e, left - 1)
}

// The type of a root, its parts down to that many levels.
#[cycle(read)]
#[tactic(auto, using(aql_ty::specs::Laws::View::type_of_row))]
fn read_node(alloc: Global, ns: &[Node], ps: &[u32], e: usize, left: u16) -> Result<Ty, Memory>
    ensures { IfOk result (λ t. type_of t ≡ form_type (extents.read left (forms ps.now ns.now))
        (at (forms ps.now ns.now) e)) }
{
    match node_at(ns, e) {
        Node::Var(x) => Ok(Ty::Var(x as u64)),
        Node::Nat => Ok(Ty::Nat),
        Node::Bool => Ok(Ty::Bool),
        Node::Text => Ok(Ty::Text),
        Node::Link(_) => Ok(Ty::Nat),
        Node::Set(p) => {
            let member = read(alloc, ns, ps, p as usize, left)?;
            Ok(Ty::SetOf(Box::new(alloc, member)?))
        }
        Node::Array { rank, cell } => {
            let cell = read(alloc, ns, ps, cell as usize, left)?;
            Ok(Ty::ArrayOf {
                rank: rank as u64,
                cell: Box::new(alloc, cell)?,
            })
        }
        Node::Tuple { first, count } => {
            let parts = read_all(alloc, ns, ps, parts_of(ps, first, count), left)?;
            Ok(row(parts))
        }
    }
}

#[cycle(read)]
#[tactic(auto, using(aql_ty::specs::Laws::View::types_last, crate::proofs::ReadOut::types_next))]
fn read_all(
    alloc: Global,
    ns: &[Node],
    ps: &[u32],
    parts: &[u32],
    left: u16,
) -> Result<Vec<Ty>, Memory>
    ensures { IfOk result
        (λ ts. types_of ts.items ≡ types_at (extents.read left (forms ps.now ns.now)) parts.now) }
{
    let mut made = Vec::new(alloc);
    for p in parts {
        let t = read(alloc, ns, ps, *p as usize, left)?;
        made.push(t)?;
    }
    Ok(made)
}
