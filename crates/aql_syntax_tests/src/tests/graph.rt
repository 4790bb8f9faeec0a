//! What solves and what does not, the limits at their edge, and the types that nodes stand for.

ghost use Rattle.std.specs.Prelude.{◌<◌, ◌↔◌, IsTrue, length};

use crate::tests::same::assert_same;
use aql_ty::ty::Ty;
use aql_types::fault::UnifyFault;
use aql_types::graph::Graph;
use aql_types::grow::{
    empty_graph, push_array, push_natural, push_set, push_truth, push_tuple, push_variable,
};
use aql_types::inside::are_nodes;
use aql_types::node::Equation;
use aql_types::read::node_type;
use aql_types::solved_graph::{SolvedGraph, solve};
use aql_value::Memory;
use std::alloc::{AllocFailed, Global};

// Why a graph was not made: a number that is none of a node's, or want of memory.
#[derive(Clone, Copy, Debug, PartialEq, Eq)]
enum Broken {
    NoNode,
    Memory,
}

impl From<Memory> for Broken {
    fn from(_want: Memory) -> Broken {
        Broken::Memory
    }
}

impl From<AllocFailed<Equation>> for Broken {
    fn from(_want: AllocFailed<Equation>) -> Broken {
        Broken::Memory
    }
}

// A graph under construction, and its last node.
#[derive(Drop)]
struct Made {
    graph: Graph,
    last: u32,
}

type Making = Result<Made, Broken>;

fn end_result(r: Result<(u32, Graph), Memory>) -> Making {
    let (last, graph) = r?;
    Ok(Made { graph, last })
}

fn has_node(g: &Graph, i: u32) -> bool
    ensures { IsTrue result ↔ (i < length g.now.nodes.items) }
{
    (i as usize) < g.nodes.len()
}

fn set(g: Graph, member: u32) -> Making {
    if !has_node(&g, member) {
        return Err(Broken::NoNode);
    }
    end_result(push_set(g, member))
}

fn array(g: Graph, rank: u32, cell: u32) -> Making {
    if !has_node(&g, cell) {
        return Err(Broken::NoNode);
    }
    end_result(push_array(g, rank, cell))
}

fn pair(g: Graph, a: u32, b: u32) -> Making {
    if !has_node(&g, a) || !has_node(&g, b) {
        return Err(Broken::NoNode);
    }
    end_result(push_tuple(g, &[a, b]))
}

fn triple(g: Graph, a: u32, b: u32, c: u32) -> Making {
    if !has_node(&g, a) || !has_node(&g, b) || !has_node(&g, c) {
        return Err(Broken::NoNode);
    }
    end_result(push_tuple(g, &[a, b, c]))
}

fn single(g: Graph, a: u32) -> Making {
    if !has_node(&g, a) {
        return Err(Broken::NoNode);
    }
    end_result(push_tuple(g, &[a]))
}

// The set of a node, behind what was made.
fn then_set(made: Making, member: u32) -> Making {
    let m = made?;
    set(m.graph, member)
}

// The array of a node's type, behind what was made.
fn then_array(made: Making, rank: u32, cell: u32) -> Making {
    let m = made?;
    array(m.graph, rank, cell)
}

// The pair of two nodes, behind what was made.
fn then_pair(made: Making, a: u32, b: u32) -> Making {
    let m = made?;
    pair(m.graph, a, b)
}

// The triple of three nodes, behind what was made.
fn then_triple(made: Making, a: u32, b: u32, c: u32) -> Making {
    let m = made?;
    triple(m.graph, a, b, c)
}

// The pair of a node and the last one.
fn then_pair_with_last(made: Making, a: u32) -> Making {
    let m = made?;
    pair(m.graph, a, m.last)
}

fn then_variable(made: Making) -> Making {
    let m = made?;
    end_result(push_variable(m.graph))
}

fn then_natural(made: Making) -> Making {
    let m = made?;
    end_result(push_natural(m.graph))
}

fn then_truth(made: Making) -> Making {
    let m = made?;
    end_result(push_truth(m.graph))
}

// The same graph, and another of its nodes as the last.
fn at(made: Making, last: u32) -> Making {
    let m = made?;
    Ok(Made {
        graph: m.graph,
        last,
    })
}

fn set_of_last(made: Making) -> Making {
    let m = made?;
    set(m.graph, m.last)
}

fn twice_last(made: Making) -> Making {
    let m = made?;
    pair(m.graph, m.last, m.last)
}

// That many sets around the last node.
fn nest_sets(made: Making, n: u64) -> Making {
    let mut made = made;
    for _ in 0..n {
        made = set_of_last(made);
    }
    made
}

// That many pairs, each of the node before it twice.
fn double_pairs(made: Making, n: u64) -> Making {
    let mut made = made;
    for _ in 0..n {
        made = twice_last(made);
    }
    made
}

fn naturals(alloc: Global) -> Making {
    end_result(push_natural(empty_graph(alloc)))
}

// That many sets around the type of numbers.
fn sets(alloc: Global, n: u64) -> Making {
    nest_sets(naturals(alloc), n)
}

// A chain of that many pairs over the type of numbers.
fn chain(alloc: Global, n: u64) -> Making {
    double_pairs(naturals(alloc), n)
}

// The graph with a variable behind it, which is to be the last node.
fn name_last(made: Making) -> Result<(Graph, Equation), Broken> {
    let m = made?;
    let left = m.last;
    let m = end_result(push_variable(m.graph))?;
    let right = m.last;
    Ok((m.graph, Equation { left, right }))
}

// A type of that many nodes by sharing alone: 8,191 in a chain of 12 pairs, 1,023, 511, 255 and 15
// in four more of its pairs, and sets around the last of these. Node i of the chain is a type of
// 2^(i+1)-1 nodes.
fn share_tree(alloc: Global, more: u64) -> Making {
    let around = nest_sets(at(chain(alloc, 12), 3), more);
    let seven = then_pair_with_last(around, 7);
    let eight = then_pair_with_last(seven, 8);
    let nine = then_pair_with_last(eight, 9);
    then_pair_with_last(nine, 12)
}

fn solve_graph(
    alloc: Global,
    g: Graph,
    work: Vec<Equation>,
) -> Result<Option<SolvedGraph>, Broken> {
    if !are_nodes(&work, g.nodes.len()) {
        return Err(Broken::NoNode);
    }
    match solve(alloc, g, work) {
        Ok(s) => Ok(Some(s)),
        Err(UnifyFault::Clash) => Ok(None),
        Err(UnifyFault::Memory) => Err(Broken::Memory),
    }
}

// Whether there is a solution, the graph alone being asked.
fn stands(alloc: Global, made: Making) -> Result<bool, Broken> {
    let m = made?;
    let found = solve_graph(alloc, m.graph, Vec::new(alloc))?;
    Ok(found.is_some())
}

// Whether there is a solution that makes the last node a new variable's type.
fn stands_named(alloc: Global, made: Making) -> Result<bool, Broken> {
    let (g, e) = name_last(made)?;
    let mut work = Vec::new(alloc);
    work.push(e)?;
    let found = solve_graph(alloc, g, work)?;
    Ok(found.is_some())
}

#[test]
fn levels_at_their_edge(rt: HostRuntime) {
    let alloc = rt.alloc();
    assert_same(&rt, stands(alloc, sets(alloc, 399)), Ok(true));
    assert_same(&rt, stands(alloc, sets(alloc, 400)), Ok(false));
    assert_same(&rt, stands_named(alloc, sets(alloc, 399)), Ok(true));
    assert_same(&rt, stands_named(alloc, sets(alloc, 400)), Ok(false));
}

#[test]
fn nodes_at_their_edge_by_sharing(rt: HostRuntime) {
    let alloc = rt.alloc();
    assert_same(&rt, stands(alloc, share_tree(alloc, 1)), Ok(true));
    assert_same(&rt, stands(alloc, share_tree(alloc, 2)), Ok(false));
    assert_same(&rt, stands_named(alloc, share_tree(alloc, 1)), Ok(true));
    assert_same(&rt, stands_named(alloc, share_tree(alloc, 2)), Ok(false));
}

#[test]
fn chains_that_double(rt: HostRuntime) {
    let alloc = rt.alloc();
    assert_same(&rt, stands_named(alloc, chain(alloc, 12)), Ok(true));
    assert_same(&rt, stands_named(alloc, chain(alloc, 13)), Ok(false));
    assert_same(&rt, stands_named(alloc, chain(alloc, 399)), Ok(false));
    assert_same(&rt, stands_named(alloc, chain(alloc, 400)), Ok(false));
}

fn variable(alloc: Global) -> Making {
    end_result(push_variable(empty_graph(alloc)))
}

// Two new variables, numbers 0 and 1 of the graph's nodes.
fn two_variables(alloc: Global) -> Making {
    then_variable(variable(alloc))
}

// Whether each of these pairs of nodes can be made equal.
fn meet(alloc: Global, made: Making, all: &[(u32, u32)]) -> Result<bool, Broken> {
    let work = equations(alloc, all)?;
    let m = made?;
    let found = solve_graph(alloc, m.graph, work)?;
    Ok(found.is_some())
}

// The equations of these nodes.
fn equations(alloc: Global, all: &[(u32, u32)]) -> Result<Vec<Equation>, Broken> {
    let mut work = Vec::new(alloc);
    for nodes in all {
        work.push(Equation {
            left: nodes.0,
            right: nodes.1,
        })?;
    }
    Ok(work)
}

// A set of the variable, which is to be the variable's type.
fn cycle_of_one(alloc: Global) -> Result<bool, Broken> {
    meet(alloc, then_set(variable(alloc), 0), &[(0, 1)])
}

// Three variables, their sets, numbers 3 to 5 of the nodes, and the type of numbers.
fn three_sets(alloc: Global) -> Making {
    let variables = then_variable(two_variables(alloc));
    let sets = then_set(then_set(then_set(variables, 0), 1), 2);
    then_natural(sets)
}

// Three variables, each of which is to be the set of the next one, or the last one the type of numbers.
fn cycle_of_three(alloc: Global, closed: bool) -> Result<bool, Broken> {
    let last = if closed { 5 } else { 6 };
    meet(alloc, three_sets(alloc), &[(0, 4), (1, last), (2, 3)])
}

#[test]
fn cycles(rt: HostRuntime) {
    let alloc = rt.alloc();
    assert_same(&rt, cycle_of_one(alloc), Ok(false));
    assert_same(&rt, cycle_of_three(alloc, true), Ok(false));
    assert_same(&rt, cycle_of_three(alloc, false), Ok(true));
}

// A pair and a triple of variables.
fn two_and_three(alloc: Global) -> Result<bool, Broken> {
    let pair = then_pair(two_variables(alloc), 0, 1);
    meet(alloc, then_triple(pair, 0, 1, 0), &[(2, 3)])
}

// Arrays of two ranks with cells of two variables' types.
fn two_ranks(alloc: Global, one: u32, other: u32) -> Result<bool, Broken> {
    let array = then_array(two_variables(alloc), one, 0);
    meet(alloc, then_array(array, other, 1), &[(2, 3)])
}

// Numbers and truth values; then in sets.
fn two_constants(alloc: Global) -> Result<bool, Broken> {
    meet(alloc, then_truth(naturals(alloc)), &[(0, 1)])
}

// A set and an array of one variable's type.
fn two_forms(alloc: Global) -> Result<bool, Broken> {
    let set = then_set(two_variables(alloc), 0);
    meet(alloc, then_array(set, 1, 0), &[(2, 3)])
}

#[test]
fn forms_that_differ(rt: HostRuntime) {
    let alloc = rt.alloc();
    assert_same(&rt, two_and_three(alloc), Ok(false));
    assert_same(&rt, two_constants(alloc), Ok(false));
    assert_same(&rt, two_forms(alloc), Ok(false));
}

// Two ranks, and whether arrays of them can be equal.
const RANKS: [(u32, u32, bool); 4] = [(1, 2, false), (8, 8, true), (9, 9, false), (0, 0, false)];

#[test]
fn ranks_that_differ_or_pass_their_limits(rt: HostRuntime) {
    for row in &RANKS {
        assert_same(&rt, two_ranks(rt.alloc(), row.0, row.1), Ok(row.2));
    }
}

// A tuple of one part.
fn alone(alloc: Global) -> Making {
    let m = naturals(alloc)?;
    single(m.graph, m.last)
}

#[test]
fn tuples_of_one_part(rt: HostRuntime) {
    let alloc = rt.alloc();
    assert_same(&rt, stands(alloc, alone(alloc)), Ok(false));
}

fn is_truth(t: &Ty) -> bool {
    matches!(t, Ty::Bool)
}

fn is_set_of_numbers(t: &Ty) -> bool {
    match t {
        Ty::SetOf(member) => matches!(**member, Ty::Nat),
        _ => false,
    }
}

// The nodes of (0, {numbers}) and (truth values, 1), which are numbers 4 and 6.
fn two_sides(alloc: Global) -> Making {
    let set = set_of_last(then_natural(two_variables(alloc)));
    let left = then_pair(set, 0, 3);
    then_pair(then_truth(left), 5, 1)
}

// What the variable stands for where these two are one type.
fn variable_read(alloc: Global, x: u32) -> Result<Ty, Broken> {
    let work = equations(alloc, &[(4, 6)])?;
    let m = two_sides(alloc)?;
    match solve_graph(alloc, m.graph, work)? {
        None => Err(Broken::NoNode),
        Some(s) => Ok(node_type(alloc, &s, x)?),
    }
}

fn reads_truth(alloc: Global, x: u32) -> Result<bool, Broken> {
    let t = variable_read(alloc, x)?;
    Ok(is_truth(&t))
}

fn reads_set_of_numbers(alloc: Global, x: u32) -> Result<bool, Broken> {
    let t = variable_read(alloc, x)?;
    Ok(is_set_of_numbers(&t))
}

#[test]
fn types_are_read_out(rt: HostRuntime) {
    assert_same(&rt, reads_truth(rt.alloc(), 0), Ok(true));
    assert_same(&rt, reads_set_of_numbers(rt.alloc(), 1), Ok(true));
}

// The nodes of the type that a chain of that many pairs is, as a tree.
fn nodes_read(alloc: Global, n: u64) -> Result<u64, Broken> {
    let m = chain(alloc, n)?;
    let last = m.last;
    match solve_graph(alloc, m.graph, Vec::new(alloc))? {
        None => Err(Broken::NoNode),
        Some(s) => {
            let t = node_type(alloc, &s, last)?;
            Ok(t.nodes())
        }
    }
}

#[test]
fn shared_types_are_written_out(rt: HostRuntime) {
    assert_same(&rt, nodes_read(rt.alloc(), 12), Ok(8191));
}
