//! Arrays from sets of pairs of an index and a value.

ghost use Rattle.std.specs.Prelude.{◌≡◌, true};
ghost use Rattle.aql_value.specs.Operations.{is_rank};
ghost use Rattle.nrca_term.specs.Nodes.{variable};
ghost use Rattle.nrca_term.specs.Rules.{sizes_term, index_variables, lets};
ghost use Rattle.nrca_term.specs.Subst.{shift_term};
ghost use Rattle.nrca_term.specs.View.{term_of};
ghost use Rattle.nrca_graph.specs.ArrayFree.{number_at, greater, greatest, dimension_above};
ghost use Rattle.nrca_graph.specs.ArrayFree.{index_graph};
ghost use Rattle.nrca_graph.specs.Made.{Makes, MakesAll, dimensions_above, index_body};
ghost use Rattle.nrca_graph.specs.Made.{pairs_at_index};

use crate::nodes::{arith, big_union, bind, choose, compare, member, project, single};
use crate::subscripts::values_at;
use crate::tables::{bind_all, table, variables};
use aql_value::{ArithOp, CompareOp, Memory};
use nrca_subst::shift;
use nrca_term::{Core, Terms};
use std::alloc::Global;

// A let of the set around the array; Bottom for a rank that no array has.
pub(crate) fn index(alloc: Global, rank: u64, set: Core) -> Result<Core, Memory>
    ensures { Makes result (index_graph rank (term_of set)) }
{
    let array = array(alloc, rank);
    bind(alloc, Ok(set), array)
}

fn array(alloc: Global, rank: u64) -> Result<Core, Memory>
    ensures { Makes result (index_body rank) }
{
    if 1 <= rank && rank <= 8 {
        array_above(alloc, rank)
    } else {
        Ok(Core::Bottom)
    }
}

// Lets of the dimensions around the table of the values at each index.
fn array_above(alloc: Global, rank: u64) -> Result<Core, Memory>
    requires { is_rank rank ≡ true }
    ensures { Makes result (index_body rank) }
{
    let dims = dimensions(alloc, rank)?;
    let inner = table(alloc, rank, values(alloc, rank));
    bind_all(alloc, dims, inner)
}

// The values that the set has at the index.
fn values(alloc: Global, rank: u64) -> Result<Core, Memory>
    requires { is_rank rank ≡ true }
    ensures { Makes result (pairs_at_index rank) }
{
    let index = index_under(alloc, rank);
    values_at(alloc, Ok(Core::Var(2 * rank)), index)
}

// The index under one more variable.
fn index_under(alloc: Global, rank: u64) -> Result<Core, Memory>
    requires { is_rank rank ≡ true }
    ensures { Makes result (shift_term 0 1 (sizes_term (index_variables rank))) }
{
    let index = variables(alloc, rank)?;
    Ok(shift(index, 0, 1))
}

fn dimensions(alloc: Global, rank: u64) -> Result<Terms, Memory>
    requires { is_rank rank ≡ true }
    ensures { MakesAll result (dimensions_above rank) }
{
    let mut dims = Vec::new(alloc);
    for j in 0..rank {
        let above = dimension(alloc, rank, j + 1)?;
        dims.push(above)?;
    }
    Ok(Terms(dims))
}

// 0 where the set is empty, and else 1 plus the greatest of the j-th numbers of its indices.
fn dimension(alloc: Global, rank: u64, j: u64) -> Result<Core, Memory>
    ensures { Makes result (dimension_above rank j) }
{
    let empty = compare(alloc, CompareOp::Equal, Ok(Core::Var(0)), Ok(Core::Empty));
    let greatest = member(alloc, greatest(alloc, rank, j));
    let above = arith(alloc, ArithOp::Add, Ok(Core::Nat(1)), greatest);
    choose(alloc, empty, Ok(Core::Nat(0)), above)
}

// The numbers that no other exceeds.
fn greatest(alloc: Global, rank: u64, j: u64) -> Result<Core, Memory>
    ensures { Makes result (greatest rank j) }
{
    let greater = greater(alloc, rank, j);
    let none = compare(alloc, CompareOp::Equal, greater, Ok(Core::Empty));
    let number = single(alloc, number_of(alloc, rank, j, 0));
    let body = choose(alloc, none, number, Ok(Core::Empty));
    big_union(alloc, Ok(Core::Var(0)), body)
}

// The numbers that exceed the one of the pair variable 0.
fn greater(alloc: Global, rank: u64, j: u64) -> Result<Core, Memory>
    ensures { Makes result (greater rank j) }
{
    let this = number_of(alloc, rank, j, 1);
    let other = number_of(alloc, rank, j, 0);
    let exceeds = compare(alloc, CompareOp::Less, this, other);
    let number = single(alloc, number_of(alloc, rank, j, 0));
    let body = choose(alloc, exceeds, number, Ok(Core::Empty));
    big_union(alloc, Ok(Core::Var(1)), body)
}

// The j-th number of the index of the pair that a variable is.
fn number_of(alloc: Global, rank: u64, j: u64, pair: u64) -> Result<Core, Memory>
    ensures { Makes result (number_at rank j (variable pair)) }
{
    let index = project(alloc, 1, 2, Ok(Core::Var(pair)));
    if rank == 1 {
        index
    } else {
        project(alloc, j, rank, index)
    }
}
