//! Subscripts: the cells of an array's graph at an index.

ghost use Rattle.std.specs.Prelude.{◌∷◌, ◌+◌, ◌<◌, ◌^◌};
ghost use Rattle.nrca_term.specs.Rules.{sizes_term};
ghost use Rattle.nrca_term.specs.Subst.{top_var};
ghost use Rattle.nrca_term.specs.View.{term_of, terms_of};
ghost use Rattle.nrca_graph.specs.ArrayFree.{subscript_graph};
ghost use Rattle.nrca_graph.specs.Made.{Makes, MakesOfTwo, paired_under};

use crate::nodes::{big_union, bind, choose, compare, member, project, single};
use crate::tables::sizes;
use aql_value::{CompareOp, Memory};
use nrca_subst::shift;
use nrca_term::{Core, Terms};
use std::alloc::Global;

// Lets of the array and the index around the one cell at the index.
pub(crate) fn subscript(alloc: Global, array: Core, at: Terms) -> Result<Core, Memory>
    requires { top_var (sizes_term (terms_of at)) + 1 < 2 ^ 64 }
    ensures { Makes result (subscript_graph (term_of array ∷ terms_of at)) }
{
    let graph = project(alloc, 2, 2, Ok(Core::Var(1)));
    let cell = member(alloc, values_at(alloc, graph, Ok(Core::Var(1))));
    let index = shift(sizes(at), 0, 1);
    bind(alloc, Ok(array), bind(alloc, Ok(index), cell))
}

// The second parts of the pairs of a set whose first part is the index, which stands under the member.
pub(crate) fn values_at(
    alloc: Global,
    set: Result<Core, Memory>,
    index: Result<Core, Memory>,
) -> Result<Core, Memory>
    ensures { MakesOfTwo paired_under set index result }
{
    let first = project(alloc, 1, 2, Ok(Core::Var(0)));
    let test = compare(alloc, CompareOp::Equal, first, index);
    let second = project(alloc, 2, 2, Ok(Core::Var(0)));
    let found = single(alloc, second);
    let body = choose(alloc, test, found, Ok(Core::Empty));
    big_union(alloc, set, body)
}
