//! Equations between nodes solved.

ghost use Rattle.std.specs.Prelude.{length};
ghost use Rattle.aql_types.specs.Forms.{forms};
ghost use Rattle.aql_types.specs.Valuations.{AreIn};
ghost use Rattle.aql_types.specs.Trees.{IsBuilt};
ghost use Rattle.aql_types.specs.Solved.{Solved};
ghost use Rattle.aql_types.specs.Graphs.{SolvedBy};

use crate::fault::UnifyFault;
use crate::graph::Graph;
use crate::measure::all_within;
use crate::node::{Equation, Node};
use crate::take::{flatten, take_all};
use std::alloc::Global;

/// The most levels that a type within the limits has.
pub const LEVELS: u16 = 400;

/// The most nodes that a type within the limits has.
pub const NODES: u16 = 10000;

/// A graph of which the equations were solved: each of its nodes stands for a type within the limits.
#[derive(Drop)]
pub struct SolvedGraph {
    pub nodes: Vec<Node>,
    pub parts: Vec<u32>,
}

/// The graph of a most general solution of the equations, in which each node stands for a type within
/// the limits. Clash exactly where there is no solution.
pub fn solve(alloc: Global, g: Graph, work: Vec<Equation>) -> Result<SolvedGraph, UnifyFault>
    requires { AreIn (length g.nodes.items) work.items }
    ensures { SolvedBy result g work.items }
{
    let mut nodes = g.nodes;
    match solve_nodes(alloc, &mut nodes, &g.parts, work) {
        Ok(_) => Ok(SolvedGraph {
            nodes,
            parts: g.parts,
        }),
        Err(fault) => Err(fault),
    }
}

// The same of the nodes alone.
fn solve_nodes(
    alloc: Global,
    ns: &mut [Node],
    ps: &[u32],
    work: Vec<Equation>,
) -> Result<(), UnifyFault>
    requires built { IsBuilt (forms ps.now ns.old) }
    requires inside { AreIn (length ns.old) work.items }
    ensures { Solved result (forms ps.now ns.old) (forms ps.now ns.new) work.items }
{
    match take_all(ns, ps, work) {
        Ok(_) => {}
        Err(fault) => return Err(fault),
    }
    flatten(ns);
    if !all_within(alloc, ns, ps, LEVELS, NODES)? {
        return Err(UnifyFault::Clash);
    }
    Ok(())
}
