//! Sets of records as the evaluator keeps sets.

ghost use Rattle.std.specs.Prelude.{◌≡◌, IfOk};
ghost use Rattle.aql_value.specs.Meaning.{datum};
ghost use Rattle.nrca_array.specs.Held.{held_datum};

use aql_value::{Memory, Value};
use nrca_array::Held;
use nrca_sets::{Gather, Set};
use std::alloc::Global;

/// The same value. A set whose members are all naturals below 2^64, or all pairs of such, is packed.
pub(crate) fn packed(alloc: Global, value: Value) -> Result<Held, Memory>
    ensures { IfOk result (λ held. held_datum held ≡ datum value) }
{
    match value {
        Value::Members(members) => Ok(Held::Set(packed_set(alloc, Set::plain(members))?)),
        value => Ok(Held::Value(value)),
    }
}

// The same set. Where its least member is neither a number nor a pair of numbers it is kept as it is.
#[tactic(auto, using(aql_value::specs::Laws::Canon::canon_ascending))]
fn packed_set(alloc: Global, set: Set) -> Result<Set, Memory>
    ensures { IfOk result (λ s. s ≡ set) }
{
    let _count = set.count();
    if set.number_at(0).is_none() && set.pair_at(0).is_none() {
        return Ok(set);
    }
    Ok(Gather::new(alloc).append(alloc, set)?.finish())
}
