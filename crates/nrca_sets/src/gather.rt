ghost use Rattle.std.specs.Prelude.{◌≡◌, ◌≤◌, [], ◌∷◌, ◌++◌, length, IfOk};
ghost use Rattle.aql_value.specs.Canon.{canon};
ghost use Rattle.aql_value.specs.Datum.{natural};
ghost use Rattle.aql_value.specs.Meaning.{datum};
ghost use Rattle.nrca_sets.specs.Bounded.{most_kept};
ghost use Rattle.nrca_sets.specs.Pairs.{pair_value};
ghost use Rattle.nrca_sets.specs.Rows.{row_data};

use crate::rows::Rows;
use crate::set::Set;
use crate::values::{number_below, pair_below};
use aql_value::{Items, Memory, Value};
use std::alloc::Global;
use std::marker::Model;

// So many values are kept before repeats are looked for.
const LEAST_LIMIT: usize = 1024;

/// The members of a set that is being made, taken in any order, a member perhaps several times. When more are kept than
/// the limit says, repeats are dropped, and the limit becomes twice what is left: so a gather keeps at most twice its
/// distinct members, or 1,024. Contracts see the list of what is kept, of which the order and the repeats may change.
#[derive(Drop)]
pub struct Gather {
    rows: Rows,
    limit: usize,
}

impl Model for Gather {
    ghost use Rattle.std.specs.Prelude.{List};
    ghost use Rattle.aql_value.specs.Datum.{Datum};
    ghost use Rattle.aql_value.specs.DatumCode.{coded_data};

    ghost Value = { List Datum };

    ghost coded = { coded_data };

    ghost use Rattle.nrca_sets.specs.Rows.{row_data};

    ghost view = { λ a. row_data a.rows };

    ghost use Rattle.nrca_sets.specs.Bounded.{IsBounded};

    ghost invariant = { λ a. IsBounded a.limit (row_data a.rows) };
}

impl Gather {
    /// No members. It takes no memory.
    pub fn new(alloc: Global) -> Gather
        ensures { result ≡ [] }
    {
        Gather {
            rows: Rows::new(alloc),
            limit: LEAST_LIMIT,
        }
    }

    /// How many values are kept: no more than 1,024, or twice the distinct ones. It takes no memory.
    pub fn len(&self) -> usize
        ensures count { result ≡ length self.now }
        ensures few { length self.now ≤ most_kept self.now }
    {
        self.rows.len()
    }

    /// Any value as a member. What is kept stays packed where the value is as the others.
    #[tactic(auto, using(crate::specs::Laws::Growth::few_still))]
    pub fn add(self, alloc: Global, value: Value) -> Result<Gather, Memory>
        ensures { IfOk result (λ g. canon g ≡ canon (self ++ datum value ∷ [])) }
    {
        match number_below(&value) {
            Some(n) => self.one(alloc, n),
            None => match pair_below(&value) {
                Some((m, n)) => self.two(alloc, m, n),
                None => Ok(limit_repeats(self.rows.push_value(alloc, value)?, self.limit)),
            },
        }
    }

    /// A natural as a member.
    #[tactic(auto, using(crate::specs::Laws::Growth::few_still))]
    pub fn one(self, alloc: Global, n: u64) -> Result<Gather, Memory>
        ensures { IfOk result (λ g. canon g ≡ canon (self ++ natural n ∷ [])) }
    {
        Ok(limit_repeats(self.rows.push_number(alloc, n)?, self.limit))
    }

    /// A pair of naturals as a member.
    #[tactic(auto, using(crate::specs::Laws::Growth::few_still))]
    pub fn two(self, alloc: Global, m: u64, n: u64) -> Result<Gather, Memory>
        ensures { IfOk result (λ g. canon g ≡ canon (self ++ pair_value (m, n) ∷ [])) }
    {
        Ok(limit_repeats(self.rows.push_pair(alloc, (m, n))?, self.limit))
    }

    // Values as members.
    fn add_all(self, alloc: Global, items: Items) -> Result<Gather, Memory>
        ensures { IfOk result (λ g. canon g ≡ canon (self ++ items)) }
    {
        let mut gather = self;
        for value in items.items {
            gather = gather.add(alloc, value)?;
        }
        Ok(gather)
    }

    /// The members of a set. What is kept stays packed where they are as the others.
    #[tactic(auto, using(crate::specs::Laws::Growth::few_still))]
    pub fn append(self, alloc: Global, set: Set) -> Result<Gather, Memory>
        ensures { IfOk result (λ g. canon g ≡ canon (self ++ set)) }
    {
        match set.into_rows() {
            Rows::Plain(items) => self.add_all(alloc, items),
            rows => Ok(limit_repeats(self.rows.append(alloc, rows)?, self.limit)),
        }
    }

    /// The set of all members. It takes no memory.
    #[tactic(auto, using(crate::specs::Laws::Packed::canon_ascends))]
    pub fn finish(self) -> Set
        ensures { result ≡ canon self }
    {
        Set::from_distinct(self.rows.distinct())
    }
}

// A gather of these values, of which repeats are dropped where there are more than the limit says.
fn limit_repeats(rows: Rows, limit: usize) -> Gather
    requires { limit ≤ most_kept (row_data rows) }
    ensures { canon result ≡ canon (row_data rows) }
{
    if rows.len() <= limit {
        Gather { rows, limit }
    } else {
        without_repeats(rows)
    }
}

// A gather of these values, each once.
#[tactic(auto, using(aql_value::specs::Laws::Set::canon_canon, crate::specs::Laws::Growth::distinct_few))]
fn without_repeats(rows: Rows) -> Gather
    ensures { canon result ≡ canon (row_data rows) }
{
    let rows = rows.distinct();
    let limit = rows.len().saturating_mul(2).max(LEAST_LIMIT);
    Gather { rows, limit }
}
