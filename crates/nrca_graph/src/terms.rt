//! The array-free form of core terms.

ghost use Rattle.std.specs.Prelude.{◌≡◌, ◌≤◌, ◌<◌, ◌^◌, IfOk, OnOk};
ghost use Rattle.nrca_term.specs.Subst.{top_var};
ghost use Rattle.nrca_term.specs.Term.{weight_of};
ghost use Rattle.nrca_term.specs.View.{term_of};
ghost use Rattle.nrca_graph.specs.ArrayFree.{array_free};
ghost use Rattle.nrca_graph.specs.Kept.{MeansEncoded, HasEncodedTypes, KeepsSums, HasLoops};
ghost use Rattle.nrca_graph.specs.Kept.{TurnsWithin};
ghost use Rattle.nrca_graph.specs.NoArrays.{HasNoArrays};
ghost use Rattle.nrca_graph.specs.Made.{Makes, HasRoom, PartsHaveRoom};
ghost use Rattle.nrca_graph.specs.Made.{with_array_free_parts, array_free_of};

use crate::indexing::index;
use crate::literals::literal;
use crate::subscripts::subscript;
use crate::tables::tabulation;
use aql_value::Memory;
use nrca_term::{Core, discard};
use std::alloc::Global;
use std::mem;

/// The array-free form of a term, whose operations on arrays are loops over sets of pairs of an index and a cell. No
/// variable number of the answer passes 64 bits, since the term is small; of a closed small term each is far below.
pub fn to_graph(alloc: Global, term: &Core) -> Result<Core, Memory>
    requires small { weight_of (term_of term.now) ≤ 1280000 }
    requires variables { top_var (term_of term.now) < 2 ^ 62 }
    ensures free { IfOk result (λ g. term_of g ≡ array_free (term_of term.now)) }
    ensures meaning { IfOk result (λ g. MeansEncoded (term_of term.now) (term_of g)) }
    ensures types { IfOk result (λ g. HasEncodedTypes (term_of term.now) (term_of g)) }
    ensures forms { IfOk result (λ g. HasNoArrays (term_of g)) }
    ensures sums { IfOk result (λ g. KeepsSums (term_of term.now) (term_of g)) }
    ensures loops { IfOk result (λ g. HasLoops (term_of term.now) (term_of g)) }
    ensures turns { IfOk result (λ g. TurnsWithin (term_of term.now) (term_of g)) }
{
    let mut whole = term.copy(alloc)?;
    translate(alloc, &mut whole)?;
    Ok(whole)
}

// In place, so that a level of the recursion keeps little on the stack: first the parts, then the node.
#[cycle(to_graph)]
fn translate(alloc: Global, term: &mut Core) -> Result<(), Memory>
    requires { HasRoom (term_of term.old) }
    ensures { OnOk result (term_of term.new ≡ array_free (term_of term.old)) }
{
    translate_parts(alloc, term)?;
    replace(alloc, term)
}

#[cycle(to_graph)]
fn translate_parts(alloc: Global, term: &mut Core) -> Result<(), Memory>
    requires { HasRoom (term_of term.old) }
    ensures { OnOk result (term_of term.new ≡ with_array_free_parts (term_of term.old)) }
{
    let mut part = Core::Bottom;
    for i in 0..term.parts() {
        term.exchange(i, &mut part);
        match translate(alloc, &mut part) {
            Ok(()) => term.exchange(i, &mut part),
            Err(error) => {
                discard(part);
                return Err(error);
            }
        }
    }
    discard(part);
    Ok(())
}

#[inline(never)]
fn replace(alloc: Global, term: &mut Core) -> Result<(), Memory>
    requires { PartsHaveRoom (term_of term.old) }
    ensures { OnOk result (term_of term.new ≡ array_free_of (term_of term.old)) }
{
    let whole = mem::replace(term, Core::Bottom);
    *term = rebuild(alloc, whole)?;
    Ok(())
}

// The node without arrays, its parts being translated.
#[inline(never)]
fn rebuild(alloc: Global, term: Core) -> Result<Core, Memory>
    requires { PartsHaveRoom (term_of term) }
    ensures { Makes result (array_free_of (term_of term)) }
{
    match term {
        Core::Tab { bounds, body } => tabulation(alloc, bounds, Box::into_inner(body)),
        Core::Sub { array, at } => subscript(alloc, Box::into_inner(array), at),
        Core::Dim { rank: _, array } => Ok(Core::Proj {
            at: 1,
            of: 2,
            part: array,
        }),
        Core::Index { rank, pairs } => index(alloc, rank, Box::into_inner(pairs)),
        Core::Literal { dims, cells } => literal(alloc, dims, cells),
        other => Ok(other),
    }
}
