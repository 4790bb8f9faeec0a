ghost use Rattle.std.specs.Prelude.{◌≡◌, ◌<◌, [], ◌++◌, length, map, slice_get, Some, IfOk, IfSome, IsTrue, ◌↔◌};
ghost use Rattle.std.specs.List.Sorted.{IsStrictlySortedBy};
ghost use Rattle.std.specs.Ordering.{nat_cmp};
ghost use Rattle.aql_value.specs.Canon.{canon, IsAscending};
ghost use Rattle.aql_value.specs.Datum.{data_of, natural, set};
ghost use Rattle.aql_value.specs.Lists.{below};
ghost use Rattle.aql_value.specs.Meaning.{datum};
ghost use Rattle.aql_value.specs.Valid.{IsValue};
ghost use Rattle.nrca_sets.specs.Pairs.{number_at, pair_at, pair_cmp, pair_value};
ghost use Rattle.nrca_sets.specs.Places.{places_order};
ghost use Rattle.nrca_sets.specs.Rows.{row_data, set_order};

use crate::order::order;
use crate::rows::Rows;
use crate::validity::valid_rows;
use aql_value::{Ascending, Items, Memory, Value};
use std::alloc::Global;
use std::cmp::Ordering;
use std::marker::Model;

/// A set, packed where its members are all naturals below 2^64 or all pairs of such. Contracts see its members, which
/// ascend.
#[derive(Drop)]
pub struct Set {
    rows: Rows,
}

impl Model for Set {
    ghost use Rattle.std.specs.Prelude.{List};
    ghost use Rattle.aql_value.specs.Datum.{Datum};
    ghost use Rattle.aql_value.specs.DatumCode.{coded_data};

    ghost Value = { List Datum };

    ghost coded = { coded_data };

    ghost use Rattle.nrca_sets.specs.Rows.{row_data};

    ghost view = { λ a. row_data a.rows };

    ghost use Rattle.aql_value.specs.Canon.{IsAscending};

    ghost invariant = { λ a. IsAscending (row_data a.rows) };
}

impl Set {
    /// No members. It takes no memory.
    pub fn new(alloc: Global) -> Set
        ensures { result ≡ [] }
    {
        Set {
            rows: Rows::new(alloc),
        }
    }

    /// The naturals below a number.
    pub fn naturals_below(alloc: Global, n: u64) -> Result<Set, Memory>
        ensures { IfOk result (λ s. s ≡ map natural (below n)) }
    {
        let numbers = numbers_below(alloc, n)?;
        Ok(Set {
            rows: Rows::Ones(numbers),
        })
    }

    // The set whose members are those of the rows, which ascend.
    pub(crate) fn from_distinct(rows: Rows) -> Set
        requires { IsAscending (row_data rows) }
        ensures { result ≡ row_data rows }
    {
        Set { rows }
    }

    // The members, which ascend.
    pub(crate) fn into_rows(self) -> Rows
        ensures members { row_data result ≡ self }
        ensures ascending { IsAscending self }
    {
        self.rows
    }

    /// The same set, its members kept as they are. It takes no memory.
    pub fn plain(members: Ascending) -> Set
        ensures { result ≡ members }
    {
        Set {
            rows: Rows::Plain(members.into_items()),
        }
    }

    /// The same set as `Ascending`.
    pub(crate) fn into_ascending(self, alloc: Global) -> Result<Ascending, Memory>
        ensures { IfOk result (λ members. members ≡ self) }
    {
        Ok(ascending(self.rows.into_items(alloc)?))
    }

    /// The same set as a value.
    pub fn into_value(self, alloc: Global) -> Result<Value, Memory>
        ensures { IfOk result (λ v. datum v ≡ set (data_of self)) }
    {
        Ok(Value::Members(self.into_ascending(alloc)?))
    }

    /// An equal set as a value.
    pub fn to_value(&self, alloc: Global) -> Result<Value, Memory>
        ensures { IfOk result (λ v. datum v ≡ set (data_of self.now)) }
    {
        Ok(Value::Members(ascending(self.rows.to_items(alloc)?)))
    }

    /// Shows that the set obeys the rules of its kind, at every level: any set that there is does. It takes no memory.
    #[tactic(auto, using(aql_value::specs::Laws::Datum::data_lists))]
    pub fn valid(&self)
        ensures { IsValue (set (data_of self.now)) }
    {
        valid_rows(&self.rows);
    }

    /// How many members. It takes no memory.
    pub fn count(&self) -> usize
        ensures count { result ≡ length self.now }
        ensures ascending { IsAscending self.now }
    {
        self.rows.len()
    }

    /// Whether there are no members. It takes no memory.
    pub fn is_empty(&self) -> bool
        ensures { IsTrue result ↔ (self.now ≡ []) }
    {
        self.rows.len() == 0
    }

    /// The member at a place, the least at 0.
    pub fn member(&self, alloc: Global, at: usize) -> Result<Value, Memory>
        requires { at < length self.now }
        ensures { IfOk result (λ v. slice_get self.now at ≡ Some (datum v)) }
    {
        self.rows.get(alloc, at)
    }

    /// The natural that the member at a place is: none where it is no natural, and where there is no such member. It
    /// takes no memory.
    pub fn number_at(&self, at: usize) -> Option<u128>
        ensures { result ≡ number_at self.now at }
    {
        self.rows.number_at(at)
    }

    /// The two naturals that the member at a place is a pair of: none where it is no such pair, and where there is no
    /// such member. It takes no memory.
    pub fn pair_at(&self, at: usize) -> Option<(u128, u128)>
        ensures { result ≡ pair_at self.now at }
    {
        self.rows.pair_at(at)
    }

    /// The order of a member to one of another set, by their places. It takes no memory.
    pub fn order(&self, at: usize, other: &Set, place: usize) -> Option<Ordering>
        ensures { result ≡ places_order self.now at other.now place }
    {
        order(&self.rows, at, &other.rows, place)
    }

    /// The order of the two sets as values. Memory is wanted only where one is packed and the other is not.
    pub fn compare(&self, alloc: Global, other: &Set) -> Result<Ordering, Memory>
        ensures { IfOk result (λ o. o ≡ set_order self.now other.now) }
    {
        self.rows.compare(alloc, &other.rows)
    }

    /// The members as numbers, where they are packed so. It takes no memory.
    #[tactic(auto, using(crate::specs::Laws::Kinds::numbers_ascend))]
    pub fn numbers(&self) -> Option<&[u64]>
        ensures members { IfSome result (λ ns. self.now ≡ map natural ns.now) }
        ensures ascending { IfSome result (λ ns. IsStrictlySortedBy nat_cmp ns.now) }
    {
        match &self.rows {
            Rows::Ones(numbers) => Some(numbers.as_slice()),
            _ => None,
        }
    }

    /// The members as pairs of numbers, where they are packed so. It takes no memory.
    #[tactic(auto, using(crate::specs::Laws::Kinds::pairs_ascend))]
    pub fn pairs(&self) -> Option<&[(u64, u64)]>
        ensures members { IfSome result (λ ps. self.now ≡ map pair_value ps.now) }
        ensures ascending { IfSome result (λ ps. IsStrictlySortedBy pair_cmp ps.now) }
    {
        match &self.rows {
            Rows::Twos(pairs) => Some(pairs.as_slice()),
            _ => None,
        }
    }

    /// The members of both. Where both are packed alike it takes time linear in their number.
    #[tactic(auto, using(crate::specs::Laws::Packed::canon_ascends))]
    pub fn merge(self, alloc: Global, other: Set) -> Result<Set, Memory>
        ensures { IfOk result (λ s. s ≡ canon (self ++ other)) }
    {
        let rows = self.rows.append(alloc, other.rows)?.merge_runs()?;
        Ok(Set { rows })
    }

    /// An equal set, kept in the same way.
    pub fn copy(&self, alloc: Global) -> Result<Set, Memory>
        ensures { IfOk result (λ s. s ≡ self.now) }
    {
        let rows = self.rows.copy(alloc)?;
        Ok(Set { rows })
    }
}

fn numbers_below(alloc: Global, n: u64) -> Result<Vec<u64>, Memory>
    ensures { IfOk result (λ ns. ns.items ≡ below n) }
{
    let mut numbers = Vec::with_capacity(alloc, n as usize)?;
    for i in 0..n {
        numbers.push(i)?;
    }
    Ok(numbers)
}

/// Members that ascend as an `Ascending`.
#[tactic(auto, using(aql_value::specs::Laws::Set::ascending_sorted, aql_value::specs::Laws::Canon::canon_ascending))]
pub fn ascending(items: Items) -> Ascending
    requires { IsAscending items }
    ensures { result ≡ items }
{
    Ascending::from_sorted(items)
}
