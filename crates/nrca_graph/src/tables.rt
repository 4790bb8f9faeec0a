//! Tabulations, and what other forms share with them: lets, index variables, dimensions beside a set of pairs.

ghost use Rattle.std.specs.Prelude.{◌+◌, ◌-◌, ◌<◌, ◌^◌, ◌≡◌, length};
ghost use Rattle.nrca_term.specs.Nodes.{big_union_term, gen_term, variable};
ghost use Rattle.nrca_term.specs.Rules.{lets, sizes_term, index_variables};
ghost use Rattle.nrca_term.specs.Subst.{top_var};
ghost use Rattle.nrca_term.specs.View.{term_of, terms_of};
ghost use Rattle.nrca_graph.specs.Made.{Makes, MakesAll, MakesOf, MayShift};
ghost use Rattle.nrca_graph.specs.Tabulation.{nest, table_term, tabulation_graph};

use crate::nodes::{big_union, bind, generate, pair, single};
use aql_value::Memory;
use nrca_subst::shift;
use nrca_term::{Core, Terms};
use std::alloc::Global;
use std::mem;

// Lets of the bounds around the dimensions and the pairs of each index and the body.
pub(crate) fn tabulation(alloc: Global, bounds: Terms, body: Core) -> Result<Core, Memory>
    requires bounds { MayShift (terms_of bounds) }
    requires body { top_var (term_of body) + length (terms_of bounds) < 2 ^ 64 }
    ensures { Makes result (tabulation_graph (terms_of bounds) (term_of body)) }
{
    let rank = bounds.0.len() as u64;
    let inner = table(alloc, rank, Ok(shift(body, rank, rank)));
    bind_all(alloc, bounds, inner)
}

// The body under lets of the terms, each under the names of those before it.
pub(crate) fn bind_all(
    alloc: Global,
    terms: Terms,
    body: Result<Core, Memory>,
) -> Result<Core, Memory>
    requires { MayShift (terms_of terms) }
    ensures { MakesOf (lets 0 (terms_of terms)) body result }
{
    let mut terms = terms;
    let mut inner = body;
    while let Some(term) = terms.0.pop() {
        let names = terms.0.len() as u64;
        inner = bind(alloc, Ok(shift(term, 0, names)), inner);
    }
    inner
}

// The dimensions, which are the innermost variables, and the pairs of each index and the body.
pub(crate) fn table(alloc: Global, rank: u64, body: Result<Core, Memory>) -> Result<Core, Memory>
    ensures { MakesOf (table_term rank) body result }
{
    let dims = variables(alloc, rank);
    let index = variables(alloc, rank);
    let pairs = single(alloc, pair(alloc, index, body));
    let graph = loops(alloc, rank, pairs);
    pair(alloc, dims, graph)
}

// The body in loops over the dimensions.
fn loops(alloc: Global, rank: u64, body: Result<Core, Memory>) -> Result<Core, Memory>
    ensures { MakesOf (nest rank (gen_term (variable (rank - 1)))) body result }
{
    let mut inner = body;
    for _level in 0..rank {
        inner = numbers_below(alloc, rank - 1, inner);
    }
    inner
}

// A loop over the numbers below a variable.
fn numbers_below(alloc: Global, at: u64, body: Result<Core, Memory>) -> Result<Core, Memory>
    ensures { MakesOf (big_union_term (gen_term (variable at))) body result }
{
    let set = generate(alloc, Ok(Core::Var(at)));
    big_union(alloc, set, body)
}

// The index that the innermost variables are.
pub(crate) fn variables(alloc: Global, rank: u64) -> Result<Core, Memory>
    ensures { Makes result (sizes_term (index_variables rank)) }
{
    let items = variable_list(alloc, rank)?;
    Ok(sizes(items))
}

fn variable_list(alloc: Global, rank: u64) -> Result<Terms, Memory>
    ensures { MakesAll result (index_variables rank) }
{
    let mut items = Vec::new(alloc);
    for i in 0..rank {
        items.push(Core::Var(rank - 1 - i))?;
    }
    Ok(Terms(items))
}

// One term, or a tuple.
pub(crate) fn sizes(terms: Terms) -> Core
    ensures { term_of result ≡ sizes_term (terms_of terms) }
{
    let mut terms = terms;
    if terms.0.len() == 1 {
        let only = mem::replace(&mut terms.0[0], Core::Bottom);
        only
    } else {
        Core::Tuple(terms)
    }
}
