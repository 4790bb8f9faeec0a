//! The runs of pairs with equal first numbers, in pairs that ascend.

ghost use Rattle.std.specs.Prelude.{◌≡◌, ◌≤◌, ◌∷◌, [], map, IfOk};
ghost use Rattle.std.specs.List.Sorted.{IsStrictlySortedBy};
ghost use Rattle.aql_value.specs.Operations.{dims_above};
ghost use Rattle.nrca_sets.specs.Pairs.{pair_cmp};
ghost use Rattle.nrca_sets.specs.Runs.{count_below, first_index, run_starts};

use aql_value::Memory;
use std::alloc::Global;

/// The least number that all the first numbers are below. It takes no memory.
#[tactic(auto, using(crate::specs::Laws::Runs::dims_of_none, crate::specs::Laws::Runs::dims_of_last))]
pub fn dimension(pairs: &[(u64, u64)]) -> u128
    requires { IsStrictlySortedBy pair_cmp pairs.now }
    ensures { dims_above 1 (map first_index pairs.now) ≡ result ∷ [] }
{
    let count = pairs.len();
    if count == 0 {
        0
    } else {
        pairs[count - 1].0 as u128 + 1
    }
}

/// For each number up to the count, how many of the pairs have a first number below it: the pairs with the first
/// number i stand from the place under i up to the place under i + 1. One pass.
pub fn starts(alloc: Global, pairs: &[(u64, u64)], count: usize) -> Result<Vec<usize>, Memory>
    requires { IsStrictlySortedBy pair_cmp pairs.now }
    ensures { IfOk result (λ starts. starts.items ≡ run_starts count pairs.now) }
{
    let mut starts = Vec::with_capacity(alloc, count.saturating_add(1))?;
    let mut at = 0;
    for i in 0..count {
        at = skip(pairs, at, i as u64);
        starts.push(at)?;
    }
    starts.push(skip(pairs, at, count as u64))?;
    Ok(starts)
}

// How many pairs have a first number below one, where it is known of so many at the front.
fn skip(pairs: &[(u64, u64)], from: usize, below: u64) -> usize
    requires sorted { IsStrictlySortedBy pair_cmp pairs.now }
    requires known { from ≤ count_below below pairs.now }
    ensures { result ≡ count_below below pairs.now }
{
    let mut at = from;
    while at < pairs.len() && pairs[at].0 < below {
        at += 1;
    }
    at
}
