//! Nodes of parts as these were made.

ghost use Rattle.nrca_term.specs.Nodes.{let_term, proj_term, arith_term, compare_term, single_term};
ghost use Rattle.nrca_term.specs.Nodes.{union_term, big_union_term, gen_term, get_term};
ghost use Rattle.nrca_graph.specs.Made.{MakesOf, MakesOfTwo, MakesChoice, pair_term};

use aql_value::made::{both, make_box, make_boxes, make_pair_list};
use aql_value::{ArithOp, CompareOp, Memory};
use nrca_term::{Core, Terms};
use std::alloc::Global;

pub(crate) fn bind(
    alloc: Global,
    bound: Result<Core, Memory>,
    body: Result<Core, Memory>,
) -> Result<Core, Memory>
    ensures { MakesOfTwo let_term bound body result }
{
    let (bound, body) = make_boxes(alloc, bound, body)?;
    Ok(Core::Let(bound, body))
}

pub(crate) fn choose(
    alloc: Global,
    test: Result<Core, Memory>,
    a: Result<Core, Memory>,
    b: Result<Core, Memory>,
) -> Result<Core, Memory>
    ensures { MakesChoice test a b result }
{
    let (test, branches) = both(make_box(alloc, test), make_boxes(alloc, a, b))?;
    let (a, b) = branches;
    Ok(Core::If(test, a, b))
}

pub(crate) fn pair(
    alloc: Global,
    a: Result<Core, Memory>,
    b: Result<Core, Memory>,
) -> Result<Core, Memory>
    ensures { MakesOfTwo pair_term a b result }
{
    let items = make_pair_list(alloc, a, b)?;
    Ok(Core::Tuple(Terms(items)))
}

pub(crate) fn project(
    alloc: Global,
    at: u64,
    of: u64,
    a: Result<Core, Memory>,
) -> Result<Core, Memory>
    ensures { MakesOf (proj_term at of) a result }
{
    let part = make_box(alloc, a)?;
    Ok(Core::Proj { at, of, part })
}

pub(crate) fn arith(
    alloc: Global,
    op: ArithOp,
    a: Result<Core, Memory>,
    b: Result<Core, Memory>,
) -> Result<Core, Memory>
    ensures { MakesOfTwo (arith_term op) a b result }
{
    let (a, b) = make_boxes(alloc, a, b)?;
    Ok(Core::Arith(op, a, b))
}

pub(crate) fn compare(
    alloc: Global,
    op: CompareOp,
    a: Result<Core, Memory>,
    b: Result<Core, Memory>,
) -> Result<Core, Memory>
    ensures { MakesOfTwo (compare_term op) a b result }
{
    let (a, b) = make_boxes(alloc, a, b)?;
    Ok(Core::Compare(op, a, b))
}

pub(crate) fn single(alloc: Global, a: Result<Core, Memory>) -> Result<Core, Memory>
    ensures { MakesOf single_term a result }
{
    Ok(Core::Single(make_box(alloc, a)?))
}

pub(crate) fn union(
    alloc: Global,
    a: Result<Core, Memory>,
    b: Result<Core, Memory>,
) -> Result<Core, Memory>
    ensures { MakesOfTwo union_term a b result }
{
    let (a, b) = make_boxes(alloc, a, b)?;
    Ok(Core::Union(a, b))
}

pub(crate) fn big_union(
    alloc: Global,
    over: Result<Core, Memory>,
    body: Result<Core, Memory>,
) -> Result<Core, Memory>
    ensures { MakesOfTwo big_union_term over body result }
{
    let (over, body) = make_boxes(alloc, over, body)?;
    Ok(Core::BigUnion { over, body })
}

pub(crate) fn generate(alloc: Global, a: Result<Core, Memory>) -> Result<Core, Memory>
    ensures { MakesOf gen_term a result }
{
    Ok(Core::Gen(make_box(alloc, a)?))
}

pub(crate) fn member(alloc: Global, a: Result<Core, Memory>) -> Result<Core, Memory>
    ensures { MakesOf get_term a result }
{
    Ok(Core::Get(make_box(alloc, a)?))
}
