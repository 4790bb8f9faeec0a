//! How the answers of runs that follow each other are joined: of two, and of all the pieces of a loop in their order, with their turns
//! added.

ghost use Rattle.std.specs.Prelude.{◌≡◌, ◌++◌, [], Some, IfOk};
ghost use Rattle.aql_value.specs.Canon.{canon};
ghost use Rattle.nrca_loops.specs.Runs.{sums_join, sets_join, lists_join};
ghost use Rattle.nrca_loops.specs.Within.{Gathers};

use crate::done::Counted;
use aql_value::{Memory, add};
use nrca_array::Builder;
use nrca_par::EvalFault;
use nrca_sets::Set;
use std::alloc::Global;

/// The sum of two sums.
pub fn join_sums(first: Option<u128>, second: Option<u128>) -> Option<u128>
    ensures { result ≡ sums_join first second }
{
    match (first, second) {
        (Some(m), Some(n)) => add(m, n),
        _ => None,
    }
}

// The members of two sets, each moved.
fn join_sets(alloc: Global, first: Option<Set>, second: Option<Set>) -> Result<Option<Set>, Memory>
    ensures { IfOk result (λ set. set ≡ sets_join first second) }
{
    match (first, second) {
        (Some(first), Some(second)) => Ok(Some(merge_sets(alloc, first, second)?)),
        _ => Ok(None),
    }
}

/// The members of two sets. Where one of the sets has none, the other is kept as it is.
#[tactic(auto, using(crate::proofs::Empty::nothing))]
pub fn merge_sets(alloc: Global, first: Set, second: Set) -> Result<Set, Memory>
    ensures { IfOk result (λ set. set ≡ canon (first ++ second)) }
{
    let firsts = first.count();
    let seconds = second.count();
    if firsts == 0 {
        Ok(second)
    } else if seconds == 0 {
        Ok(first)
    } else {
        first.merge(alloc, second)
    }
}

// The cells of one run and then those of another, each moved.
fn join_cells(
    alloc: Global,
    first: Option<Builder>,
    second: Option<Builder>,
) -> Result<Option<Builder>, Memory>
    ensures { IfOk result (λ cells. cells ≡ lists_join first second) }
{
    match first.zip(second) {
        Some((first, second)) => Ok(Some(first.append(alloc, second)?)),
        None => Ok(None),
    }
}

/// The sum of the sums. Spent exactly where the turns pass the budget.
pub fn joined_sums(
    parts: &[Counted<Option<u128>>],
    budget: u64,
) -> Result<Counted<Option<u128>>, EvalFault>
    ensures { Gathers sums_join (Some 0) budget parts.now result }
{
    let mut total = Some(0);
    let mut turns = 0;
    for sum in parts {
        if sum.turns > budget - turns {
            return Err(EvalFault::Spent);
        }
        total = join_sums(total, sum.answer);
        turns += sum.turns;
    }
    Ok(Counted {
        answer: total,
        turns,
    })
}

/// The set of the members of the sets. Spent exactly where the turns pass the budget.
pub fn joined_sets(
    alloc: Global,
    parts: Vec<Counted<Option<Set>>>,
    budget: u64,
) -> Result<Counted<Option<Set>>, EvalFault>
    ensures { Gathers sets_join (Some []) budget parts.items result }
{
    let mut members = Some(Set::new(alloc));
    let mut turns = 0;
    for set in parts {
        if set.turns > budget - turns {
            return Err(EvalFault::Spent);
        }
        members = join_sets(alloc, members, set.answer)?;
        turns += set.turns;
    }
    Ok(Counted {
        answer: members,
        turns,
    })
}

/// The cells, one run after the other. Spent exactly where the turns pass the budget.
pub fn joined_cells(
    alloc: Global,
    parts: Vec<Counted<Option<Builder>>>,
    budget: u64,
) -> Result<Counted<Option<Builder>>, EvalFault>
    ensures { Gathers lists_join (Some []) budget parts.items result }
{
    let mut cells = Some(Builder::new(alloc));
    let mut turns = 0;
    for run in parts {
        if run.turns > budget - turns {
            return Err(EvalFault::Spent);
        }
        cells = join_cells(alloc, cells, run.answer)?;
        turns += run.turns;
    }
    Ok(Counted {
        answer: cells,
        turns,
    })
}
