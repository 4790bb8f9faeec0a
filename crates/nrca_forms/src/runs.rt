//! `index` of pairs of naturals that are packed: the pairs with one index stand in a run, and no pair is read alone.

ghost use Rattle.std.specs.Prelude.{◌≡◌, length, Some, IfSome};
ghost use Rattle.std.specs.List.Sorted.{IsStrictlySortedBy};
ghost use Rattle.nrca_sets.specs.Pairs.{pair_cmp};
ghost use Rattle.nrca_forms.specs.Indexing.{pairs_run, MakesArray};
ghost use Rattle.nrca_forms.specs.Packed.{indexed_numbers};

use nrca_array::{Flat, Held};
use nrca_loops::Counted;
use nrca_par::EvalFault;
use nrca_sets::Set;
use nrca_sets::runs::dimension;
use std::alloc::Global;

/// The members as pairs of numbers, where the rank is 1 and they are packed so. It takes no memory.
#[tactic(auto, using(crate::proofs::Packed::packed_members))]
pub fn packed_pairs(rank: u64, set: &Set) -> Option<&[(u64, u64)]>
    ensures rank { IfSome result (λ ps. rank ≡ 1) }
    ensures ascending { IfSome result (λ ps. IsStrictlySortedBy pair_cmp ps.now) }
    ensures members { IfSome result
        (λ ps. pairs_run rank set.now 0 (length set.now) ≡ Some (indexed_numbers ps.now)) }
{
    if rank == 1 { set.pairs() } else { None }
}

/// The array whose cell at an index is the set of the second numbers of the pairs with that first
/// number, a turn for each cell. Spent exactly where the cells pass the budget, before any is made.
pub fn index_packed(
    alloc: Global,
    pairs: &[(u64, u64)],
    budget: u64,
) -> Result<Counted<Option<Held>>, EvalFault>
    requires { IsStrictlySortedBy pair_cmp pairs.now }
    ensures { MakesArray budget 1 (Some (indexed_numbers pairs.now)) result }
{
    let count = dimension(pairs);
    if count > u128::from(budget) {
        return Err(EvalFault::Spent);
    }
    let flat = Flat::of_pairs(alloc, pairs, count as usize)?;
    Ok(Counted {
        answer: Some(Held::Flat(flat)),
        turns: count as u64,
    })
}
