//! The members that the body of a big union gives, gathered over a run.

ghost use Rattle.std.specs.Prelude.{◌≡◌, ◌∷◌, [], ◌++◌, IfOk};
ghost use Rattle.std.specs.Option.{option_map};
ghost use Rattle.aql_value.specs.Canon.{canon};
ghost use Rattle.aql_value.specs.Meaning.{datum};
ghost use Rattle.nrca_loops.specs.Values.{held_value, set_in};
ghost use Rattle.nrca_eval.specs.Added.{added_in, added_list, single_list};
ghost use Rattle.nrca_numbers.specs.Few.{AddsSet};

use aql_value::{Memory, Value};
use nrca_array::Held;
use nrca_loops::{into_value, set_of};
use nrca_sets::{Gather, Set};
use std::alloc::Global;

/// The members of one set: the set, or its one member where the set was not made.
#[derive(Drop)]
pub(crate) enum Added {
    All(Set),
    One(Value),
}

/// The members of the set that a value is.
#[tactic(auto, using(aql_value::specs::Laws::Datum::data_lists))]
pub(crate) fn all_members(value: Option<Held>) -> Option<Added>
    ensures { added_in result ≡ set_in (held_value value) }
{
    match value {
        Some(value) => match set_of(value) {
            Some(set) => Some(Added::All(set)),
            None => None,
        },
        None => None,
    }
}

/// The member of the set of a value.
pub(crate) fn one_member(alloc: Global, value: Option<Held>) -> Result<Option<Added>, Memory>
    ensures { IfOk result (λ a. added_in a ≡ option_map single_list (held_value value)) }
{
    match value {
        Some(value) => {
            let member = into_value(alloc, value)?;
            Ok(Some(Added::One(member)))
        }
        None => Ok(None),
    }
}

/// The members so far, and those of one set more.
pub(crate) fn members_and(
    alloc: Global,
    members: Option<Gather>,
    added: Option<Added>,
) -> Result<Option<Gather>, Memory>
    ensures { IfOk result (λ ms. AddsSet members (added_in added) ms) }
{
    match members.zip(added) {
        Some((members, added)) => Ok(Some(with_added(alloc, members, added)?)),
        None => Ok(None),
    }
}

fn with_added(alloc: Global, members: Gather, added: Added) -> Result<Gather, Memory>
    ensures { IfOk result (λ ms. canon ms ≡ canon (canon members ++ added_list added)) }
{
    match added {
        Added::All(set) => extend(alloc, members, set),
        Added::One(value) => with_one(alloc, members, value),
    }
}

#[tactic(auto, using(aql_value::specs::Laws::Set::canon_append_left))]
fn with_one(alloc: Global, members: Gather, value: Value) -> Result<Gather, Memory>
    ensures { IfOk result (λ ms. canon ms ≡ canon (canon members ++ datum value ∷ [])) }
{
    Ok(members.add(alloc, value)?)
}

#[tactic(auto, using(aql_value::specs::Laws::Set::canon_append_left))]
fn extend(alloc: Global, members: Gather, set: Set) -> Result<Gather, Memory>
    ensures { IfOk result (λ ms. canon ms ≡ canon (canon members ++ set)) }
{
    Ok(members.append(alloc, set)?)
}

/// The set of the members, packed as they were gathered. It takes no memory.
pub(crate) fn finish_members(members: Option<Gather>) -> Option<Set>
    ensures { result ≡ option_map canon members }
{
    match members {
        Some(members) => Some(members.finish()),
        None => None,
    }
}
