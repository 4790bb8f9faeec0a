//! Literals: their cells beside the index of each, where the dimensions have as many.

ghost use Rattle.std.specs.Prelude.{◌+◌, ◌-◌, ◌<◌, ◌≤◌, ◌^◌, ◌≡◌, ◌∷◌, length, map, nat_eq, Option, option_map};
ghost use Rattle.nrca_term.specs.Nodes.{truth_term, bottom_term};
ghost use Rattle.nrca_term.specs.Rules.{sizes_term, index_variables};
ghost use Rattle.nrca_term.specs.Subst.{top_var, shift_term, list_top};
ghost use Rattle.nrca_term.specs.View.{term_of, terms_of};
ghost use Rattle.nrca_graph.specs.ArrayFree.{product_term, where_zero, is_filled, over_rest};
ghost use Rattle.nrca_graph.specs.ArrayFree.{index_of_cell, cell_pairs, united_neighbours, union_tree};
ghost use Rattle.nrca_graph.specs.ArrayFree.{literal_graph};
ghost use Rattle.nrca_graph.specs.Made.{Makes, MakesAll, MakesOf, MayShift, joined_term};
ghost use Rattle.nrca_graph.specs.Made.{further_number, cell_pair, zero_test, all_pairs};
ghost use Rattle.nrca_graph.specs.Made.{cells_graph};

use crate::nodes::{arith, choose, compare, pair, single, union};
use crate::tables::{bind_all, sizes, variables};
use aql_value::made::make_list;
use aql_value::{ArithOp, CompareOp, Memory};
use nrca_subst::shift;
use nrca_term::{Core, Terms};
use std::alloc::Global;

// Lets of the dimensions around the pairs, and Bottom where the dimensions have not as many cells.
pub(crate) fn literal(alloc: Global, dims: Terms, cells: Terms) -> Result<Core, Memory>
    requires dims { MayShift (terms_of dims) }
    requires cells { list_top (terms_of cells) + length (terms_of dims) < 2 ^ 64 }
    ensures { Makes result (literal_graph (terms_of dims) (terms_of cells)) }
{
    let rank = dims.0.len() as u64;
    let test = test_filled(alloc, rank, cells.0.len() as u128);
    let graph = graph(alloc, rank, cells);
    let table = pair(alloc, variables(alloc, rank), graph);
    let body = choose(alloc, test, table, Ok(Core::Bottom));
    bind_all(alloc, dims, body)
}

// Whether the dimensions, which are the innermost variables, have n cells.
fn test_filled(alloc: Global, rank: u64, n: u128) -> Result<Core, Memory>
    ensures { Makes result (is_filled (index_variables rank) n) }
{
    let full = compare(
        alloc,
        CompareOp::Equal,
        product(alloc, rank),
        Ok(Core::Nat(n)),
    );
    first_zero(alloc, rank, n == 0, full)
}

// The truth value where a dimension is 0, and else the test.
fn first_zero(
    alloc: Global,
    rank: u64,
    empty: bool,
    full: Result<Core, Memory>,
) -> Result<Core, Memory>
    ensures { MakesOf (where_zero (index_variables rank) (truth_term empty)) full result }
{
    let mut inner = full;
    for i in 0..rank {
        inner = zero(alloc, i, empty, inner);
    }
    inner
}

fn zero(alloc: Global, i: u64, empty: bool, inner: Result<Core, Memory>) -> Result<Core, Memory>
    ensures { MakesOf (zero_test i empty) inner result }
{
    let test = compare(alloc, CompareOp::Equal, Ok(Core::Var(i)), Ok(Core::Nat(0)));
    choose(alloc, test, Ok(Core::Bool(empty)), inner)
}

// The product of the innermost variables, the outermost of them first.
fn product(alloc: Global, rank: u64) -> Result<Core, Memory>
    ensures { Makes result (product_term (index_variables rank)) }
{
    if rank == 0 {
        return Ok(Core::Nat(1));
    }
    let mut made = Ok(Core::Var(rank - 1));
    for j in 1..rank {
        made = arith(alloc, ArithOp::Mul, made, Ok(Core::Var(rank - 1 - j)));
    }
    made
}

// The pairs of all cells, united.
fn graph(alloc: Global, rank: u64, cells: Terms) -> Result<Core, Memory>
    requires { list_top (terms_of cells) + rank < 2 ^ 64 }
    ensures { Makes result (cells_graph rank (terms_of cells)) }
{
    let pairs = pairs(alloc, rank, cells)?;
    unite(alloc, pairs)
}

// Each cell beside its index, as the set of one pair.
fn pairs(alloc: Global, rank: u64, cells: Terms) -> Result<Terms, Memory>
    requires { list_top (terms_of cells) + rank < 2 ^ 64 }
    ensures { MakesAll result (all_pairs rank (terms_of cells)) }
{
    let mut made = Vec::new(alloc);
    let mut left = cells.0.into_iter();
    while let Some(cell) = left.next() {
        let number = made.len() as u128;
        let pair = pair_of(alloc, rank, number, cell)?;
        made.push(pair)?;
    }
    Ok(Terms(made))
}

fn pair_of(alloc: Global, rank: u64, number: u128, cell: Core) -> Result<Core, Memory>
    requires { top_var (term_of cell) + rank < 2 ^ 64 }
    ensures { Makes result (cell_pair rank number (term_of cell)) }
{
    let index = index(alloc, number, rank);
    single(alloc, pair(alloc, index, Ok(shift(cell, 0, rank))))
}

// The index of a cell by its number.
fn index(alloc: Global, number: u128, rank: u64) -> Result<Core, Memory>
    ensures { Makes result (sizes_term (index_of_cell number (index_variables rank))) }
{
    let items = index_items(alloc, number, rank)?;
    Ok(sizes(items))
}

fn index_items(alloc: Global, number: u128, rank: u64) -> Result<Terms, Memory>
    ensures { MakesAll result (index_of_cell number (index_variables rank)) }
{
    if rank == 0 {
        return Ok(Terms(Vec::new(alloc)));
    }
    let mut items = make_list(alloc, quotient(alloc, number, rank - 1))?;
    for i in 1..rank {
        let item = remainder(alloc, number, rank - 1 - i)?;
        items.push(item)?;
    }
    Ok(Terms(items))
}

// The number of a cell over the product of the last dimensions.
fn quotient(alloc: Global, number: u128, last: u64) -> Result<Core, Memory>
    ensures { Makes result (over_rest number (index_variables last)) }
{
    if last == 0 {
        return Ok(Core::Nat(number));
    }
    let below = product(alloc, last);
    arith(alloc, ArithOp::Quotient, Ok(Core::Nat(number)), below)
}

// What remains of it over the dimension before these.
fn remainder(alloc: Global, number: u128, last: u64) -> Result<Core, Memory>
    ensures { Makes result (further_number number last) }
{
    let rest = quotient(alloc, number, last);
    arith(alloc, ArithOp::Remainder, rest, Ok(Core::Var(last)))
}

// The union of sets, in rounds of neighbours.
fn unite(alloc: Global, sets: Terms) -> Result<Core, Memory>
    ensures { Makes result (union_tree (length (terms_of sets)) (terms_of sets)) }
{
    let mut sets = sets;
    while sets.0.len() > 1 {
        sets = neighbours(alloc, sets)?;
    }
    match sets.0.pop() {
        Some(set) => Ok(set),
        None => Ok(Core::Empty),
    }
}

// The unions of neighbours.
fn neighbours(alloc: Global, sets: Terms) -> Result<Terms, Memory>
    ensures { MakesAll result (united_neighbours (terms_of sets)) }
{
    let mut made = Vec::new(alloc);
    let mut left = sets.0.into_iter();
    while let Some(set) = left.next() {
        let next = left.next();
        let joined = unite_next(alloc, set, next)?;
        made.push(joined)?;
    }
    Ok(Terms(made))
}

fn unite_next(alloc: Global, set: Core, next: Option<Core>) -> Result<Core, Memory>
    ensures { Makes result (joined_term (term_of set) (option_map term_of next)) }
{
    match next {
        Some(next) => union(alloc, Ok(set), Ok(next)),
        None => Ok(set),
    }
}
