//! What the numbers and sets of a block add to what a loop came to.

ghost use Rattle.std.specs.Prelude.{◌≡◌, Some, [], ◌∷◌, ◌++◌, map, IfOk};
ghost use Rattle.aql_value.specs.Canon.{canon};
ghost use Rattle.aql_value.specs.Datum.{natural};
ghost use Rattle.aql_value.specs.Partial.{concat};
ghost use Rattle.nrca_loops.specs.Runs.{lists_join, sum_value, sum_with};
ghost use Rattle.nrca_numbers.specs.Few.{few_members, few_set};
ghost use Rattle.nrca_numbers.specs.Recent.{AreMembers};
ghost use Rattle.nrca_numbers.specs.Runs.{AddsSets};

use crate::recent::Recent;
use crate::sets::{AtMostOne, Small};
use aql_value::{Memory, add};
use nrca_array::Builder;
use nrca_sets::Gather;
use std::alloc::Global;

/// The sum of numbers, none past 2^128-1.
pub fn sum_all(numbers: &[u64]) -> Option<u128>
    ensures { result ≡ sum_value (Some (map natural numbers.now)) }
{
    let mut sum = Some(0);
    for number in numbers {
        sum = number_added(sum, *number);
    }
    sum
}

fn number_added(sum: Option<u128>, number: u64) -> Option<u128>
    ensures { result ≡ sum_with sum (Some (natural number)) }
{
    match sum {
        Some(sum) => add(sum, u128::from(number)),
        None => None,
    }
}

/// The members so far, and those of the sets.
#[tactic(auto, using(crate::proofs::Members::adds_all))]
pub fn add_sets(
    alloc: Global,
    members: Option<Gather>,
    sets: &[AtMostOne],
) -> Result<Option<Gather>, Memory>
    ensures { IfOk result (AddsSets members (map few_set sets.now)) }
{
    match members {
        Some(members) => Ok(Some(add_all(alloc, members, sets)?)),
        None => Ok(None),
    }
}

// The same, where no set before was undefined.
fn add_all(alloc: Global, members: Gather, sets: &[AtMostOne]) -> Result<Gather, Memory>
    ensures { IfOk result (λ g. canon g ≡ canon (members ++ concat (map few_members sets.now))) }
{
    let mut recent = Recent::new();
    let mut all = members;
    for set in sets {
        all = add_few(alloc, all, &mut recent, *set)?;
    }
    Ok(all)
}

// The members so far, and those of one set more.
fn add_few(
    alloc: Global,
    members: Gather,
    recent: &mut Recent,
    set: AtMostOne,
) -> Result<Gather, Memory>
    requires { AreMembers recent.old.slots members }
    ensures all { IfOk result (λ g. canon g ≡ canon (members ++ few_members set)) }
    ensures recent { IfOk result (λ g. AreMembers recent.new.slots g) }
{
    match set {
        AtMostOne::Nothing => Ok(members),
        AtMostOne::One(Small::Number(n)) => add_number(alloc, members, recent, n),
        AtMostOne::One(Small::Pair(m, n)) => Ok(members.two(alloc, m, n)?),
    }
}

// A number that was added shortly before is not added again.
fn add_number(alloc: Global, members: Gather, recent: &mut Recent, n: u64) -> Result<Gather, Memory>
    requires { AreMembers recent.old.slots members }
    ensures all { IfOk result (λ g. canon g ≡ canon (members ++ natural n ∷ [])) }
    ensures recent { IfOk result (λ g. AreMembers recent.new.slots g) }
{
    if recent.holds(n) {
        return Ok(members);
    }
    recent.put(n);
    Ok(members.one(alloc, n)?)
}

/// The cells so far, and the numbers behind them.
pub fn add_cells(
    alloc: Global,
    cells: Option<Builder>,
    numbers: &[u64],
) -> Result<Option<Builder>, Memory>
    ensures { IfOk result (λ cs. cs ≡ lists_join cells (Some (map natural numbers.now))) }
{
    match cells {
        Some(cells) => Ok(Some(cells.push_naturals(alloc, numbers)?)),
        None => Ok(None),
    }
}
