ghost use Rattle.std.specs.Prelude.{◌≡◌, ◌<◌, ◌≤◌, length, map, IfOk, slice_get, slice_range, Some};
ghost use Rattle.std.specs.List.Sorted.{IsStrictlySortedBy};
ghost use Rattle.std.specs.Ordering.{nat_cmp};
ghost use Rattle.aql_value.specs.Datum.{data_of};
ghost use Rattle.aql_value.specs.Meaning.{datum};
ghost use Rattle.aql_value.specs.Valid.{AreValues};
ghost use Rattle.nrca_sets.specs.Pairs.{pair_cmp};
ghost use Rattle.nrca_array.specs.Groups.{numbers_set, second_numbers, seconds_below};

use aql_value::{Memory, Value};
use nrca_sets::runs::starts;
use nrca_sets::{ascending, number_items, numbers_fit};
use std::alloc::Global;
use std::marker::Model;

/// Lists of naturals below 2^64, each ascending, one after the other: the list of a number has the members from the place
/// under it up to the place under the next. Contracts see the list of the lists.
#[derive(Drop)]
pub(crate) struct Groups {
    count: usize,
    starts: Vec<usize>,
    members: Vec<u64>,
}

impl Model for Groups {
    ghost use Rattle.std.specs.Prelude.{List, ℕ};
    ghost use Rattle.nrca_array.specs.Groups.{groups_at, AreGroups};

    ghost Value = { List (List ℕ) };

    ghost view = { λ a. groups_at a.count a.starts.items a.members.items };

    ghost invariant = { λ a. AreGroups a.count a.starts.items a.members.items };
}

impl Groups {
    /// For each number below the count the second numbers of the pairs of which it is the first.
    pub(crate) fn of_pairs(
        alloc: Global,
        pairs: &[(u64, u64)],
        count: usize,
    ) -> Result<Groups, Memory>
        requires { IsStrictlySortedBy pair_cmp pairs.now }
        ensures { IfOk result (λ gs. gs ≡ seconds_below count pairs.now) }
    {
        let members = seconds_of(alloc, pairs)?;
        let starts = starts(alloc, pairs, count)?;
        Ok(Groups {
            count,
            starts,
            members,
        })
    }

    /// How many lists.
    #[tactic(auto, using(crate::proofs::GroupsKept::group_count))]
    pub(crate) fn len(&self) -> usize
        ensures { result ≡ length self.now }
    {
        self.count
    }

    /// The set of a list by its place.
    pub(crate) fn get(&self, alloc: Global, at: usize) -> Result<Value, Memory>
        requires { at < length self.now }
        ensures { IfOk result (λ v. slice_get (map numbers_set self.now) at ≡ Some (datum v)) }
    {
        numbers_value(alloc, self.group(at))
    }

    // A list by its place.
    fn group(&self, at: usize) -> &[u64]
        requires { at < length self.now }
        ensures members { slice_get self.now at ≡ Some result.now }
        ensures ascending { IsStrictlySortedBy nat_cmp result.now }
    {
        let from = self.starts[at];
        let to = self.starts[at + 1];
        part(&self.members, from, to)
    }

    /// Shows that the sets are values of the language.
    pub(crate) fn valid(&self)
        ensures { AreValues (data_of (map numbers_set self.now)) }
    {
        numbers_fit(&self.members);
    }

    /// Equal lists.
    pub(crate) fn copy(&self, alloc: Global) -> Result<Groups, Memory>
        ensures { IfOk result (λ gs. gs ≡ self.now) }
    {
        let starts = Vec::from_slice(alloc, &self.starts)?;
        let members = Vec::from_slice(alloc, &self.members)?;
        Ok(Groups {
            count: self.count,
            starts,
            members,
        })
    }
}

// The members from one place up to another.
fn part(members: &[u64], from: usize, to: usize) -> &[u64]
    requires order { from ≤ to }
    requires within { to ≤ length members.now }
    ensures { result.now ≡ slice_range members.now from to }
{
    &members[from..to]
}

// The second numbers of pairs.
fn seconds_of(alloc: Global, pairs: &[(u64, u64)]) -> Result<Vec<u64>, Memory>
    ensures { IfOk result (λ ns. ns.items ≡ second_numbers pairs.now) }
{
    let mut seconds = Vec::with_capacity(alloc, pairs.len())?;
    for pair in pairs {
        seconds.push(pair.1)?;
    }
    Ok(seconds)
}

// The set of numbers that ascend, as a value.
fn numbers_value(alloc: Global, numbers: &[u64]) -> Result<Value, Memory>
    requires { IsStrictlySortedBy nat_cmp numbers.now }
    ensures { IfOk result (λ v. datum v ≡ numbers_set numbers.now) }
{
    let items = number_items(alloc, numbers)?;
    Ok(Value::Members(ascending(items)))
}
