//! The members of a loop.

ghost use Rattle.std.specs.Prelude.{◌≡◌, ◌<◌, IfOk, Some, length, option_map};
ghost use Rattle.aql_value.specs.Operations.{as_set, as_tuple};
ghost use Rattle.nrca_array.specs.Held.{held_datum};
ghost use Rattle.nrca_loops.specs.Values.{held_value, set_in, natural_in, truth_in, union_outcome};
ghost use Rattle.nrca_loops.specs.Runs.{member_list, members_value};
ghost use Rattle.nrca_loops.specs.Walks.{IsAt, IsNext};
ghost use Rattle.nrca_loops.specs.Evaluates.{Generates};

use crate::done::Counted;
use crate::walk::{Sides, count, sides_before, take};
use aql_value::{Items, Memory, Value};
use nrca_array::Held;
use nrca_par::EvalFault;
use nrca_sets::Set;
use std::alloc::Global;

/// The members of a loop: the naturals below a number and those of two sets, which are not kept as
/// a set, or those of a set. Members that are packed are read where they stand.
#[derive(Drop)]
pub enum Members {
    Below(u128),
    Listed(Set),
    Both(Set, Set),
}

/// A member, and how far a walk over two sets has come behind it.
#[derive(Drop)]
pub struct Next {
    pub member: Held,
    pub sides: Sides,
}

impl Members {
    /// How many members.
    #[tactic(auto, using(crate::proofs::Ranges::ranges))]
    pub fn len(&self) -> u128
        ensures { result ≡ length (member_list self.now) }
    {
        match self {
            Members::Below(n) => *n,
            Members::Listed(set) => set.count() as u128,
            Members::Both(left, right) => count(left, right),
        }
    }

    /// How far a walk has come before the member of a number.
    pub fn sides(&self, number: u64) -> Sides
        ensures { IsAt self.now number result }
    {
        match self {
            Members::Both(left, right) => sides_before(left, right, number),
            _ => Sides { left: 0, right: 0 },
        }
    }

    /// A member by its place in ascending order, before which a walk has come so far.
    #[tactic(auto, using(crate::proofs::Ranges::ranges))]
    pub fn get(&self, alloc: Global, at: u64, sides: Sides) -> Result<Next, Memory>
        requires within { at < length (member_list self.now) }
        requires place { IsAt self.now at sides }
        ensures { IfOk result (λ n. IsNext self.now at n) }
    {
        match self {
            Members::Below(_) => {
                let member = Held::Value(Value::Nat(u128::from(at)));
                Ok(Next { member, sides })
            }
            Members::Listed(set) => {
                let member = Held::Value(set.member(alloc, at as usize)?);
                Ok(Next { member, sides })
            }
            Members::Both(left, right) => {
                let taken = take(alloc, left, right, sides)?;
                Ok(Next {
                    member: Held::Value(taken.member),
                    sides: taken.sides,
                })
            }
        }
    }
}

/// The members of the set that a value is.
#[tactic(auto, using(aql_value::specs::Laws::Datum::data_lists))]
pub fn as_members(value: Option<Held>) -> Option<Members>
    ensures { option_map member_list result ≡ set_in (held_value value) }
{
    match set_from(value) {
        Some(set) => Some(Members::Listed(set)),
        None => None,
    }
}

/// The naturals below the number that a value is, a turn for each. Spent exactly where the number
/// passes the budget.
#[tactic(auto, using(aql_value::specs::Laws::Datum::data_lists))]
pub fn members_below(
    value: Option<Held>,
    budget: u64,
) -> Result<Counted<Option<Members>>, EvalFault>
    ensures { Generates budget (held_value value) result }
{
    match natural(value) {
        Some(n) => {
            if n > u128::from(budget) {
                return Err(EvalFault::Spent);
            }
            Ok(Counted {
                answer: Some(Members::Below(n)),
                turns: n as u64,
            })
        }
        None => Ok(Counted {
            answer: None,
            turns: 0,
        }),
    }
}

/// The members of the two sets that values are.
#[tactic(auto, using(aql_value::specs::Laws::Datum::data_lists))]
pub fn members_of_both(first: Option<Held>, second: Option<Held>) -> Option<Members>
    ensures { members_value result ≡ set_in (union_outcome (held_value first) (held_value second)) }
{
    match set_from(first).zip(set_from(second)) {
        Some((first, second)) => Some(Members::Both(first, second)),
        None => None,
    }
}

// The set that a value is.
#[tactic(auto, using(aql_value::specs::Laws::Datum::data_lists))]
fn set_from(value: Option<Held>) -> Option<Set>
    ensures { result ≡ set_in (held_value value) }
{
    match value {
        Some(value) => set_of(value),
        None => None,
    }
}

/// The set that a value is, its members kept as they are.
#[tactic(auto, using(aql_value::specs::Laws::Datum::data_lists))]
pub fn set_of(value: Held) -> Option<Set>
    ensures { result ≡ as_set (held_datum value) }
{
    match value {
        Held::Set(set) => Some(set),
        Held::Value(Value::Members(members)) => Some(Set::plain(members)),
        other => {
            drop(other);
            None
        }
    }
}

/// The parts of the tuple that a value is.
#[tactic(auto, using(aql_value::specs::Laws::Datum::data_lists))]
pub fn row_of(value: Held) -> Option<Items>
    ensures { result ≡ as_tuple (held_datum value) }
{
    match value {
        Held::Value(Value::Row(parts)) => Some(parts.into_items()),
        other => {
            drop(other);
            None
        }
    }
}

/// The natural that a value is.
pub fn natural(value: Option<Held>) -> Option<u128>
    ensures { result ≡ natural_in (held_value value) }
{
    let number = natural_of(&value);
    drop(value);
    number
}

fn natural_of(value: &Option<Held>) -> Option<u128>
    ensures { result ≡ natural_in (held_value value.now) }
{
    match value {
        Some(Held::Value(Value::Nat(n))) => Some(*n),
        _ => None,
    }
}

/// The truth value that a value is.
pub fn truth(value: Option<Held>) -> Option<bool>
    ensures { result ≡ truth_in (held_value value) }
{
    let truth = truth_of(&value);
    drop(value);
    truth
}

fn truth_of(value: &Option<Held>) -> Option<bool>
    ensures { result ≡ truth_in (held_value value.now) }
{
    match value {
        Some(Held::Value(Value::Bool(b))) => Some(*b),
        _ => None,
    }
}
