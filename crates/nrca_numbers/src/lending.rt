//! Values that variables and positions hold, and parts of tuples among these: they are read where
//! they stand, and not copied.

ghost use Rattle.std.specs.Prelude.{◌≡◌, ◌<◌, length, Some, IfSome, slice_get};
ghost use Rattle.aql_value.specs.Meaning.{datum};
ghost use Rattle.aql_value.specs.Operations.{part_of};
ghost use Rattle.nrca_array.specs.Held.{held_datum};
ghost use Rattle.nrca_loops.specs.Evaluates.{TakesNone};
ghost use Rattle.nrca_numbers.specs.Lending.{IsDatum, lent_datum};
ghost use Rattle.nrca_numbers.specs.Quick.{item_of};

use aql_value::{Items, Value};
use nrca_array::Held;
use nrca_loops::{Env, Globals, lend_value};
use nrca_term::Core;

/// A value that is lent: one that a variable or a position holds, as it is kept, or a part of a
/// tuple.
#[derive(Clone, Copy)]
pub enum Lent<'a> {
    Kept(&'a Held),
    Part(&'a Value),
}

/// The value that a variable or a position holds, or the part of a tuple that is lent.
#[inline(never)]
pub fn lent_part<'a, 'b>(term: &Core, globals: &'a Globals, env: &'a Env<'b>) -> Option<Lent<'a>>
    ensures value { IfSome result (λ v. IsDatum globals.now env.now term.now (lent_datum v)) }
    ensures turns { IfSome result (λ v. TakesNone globals.now env.now term.now) }
{
    match term {
        Core::Proj { .. } => match lent_value(term, globals, env) {
            Some(value) => Some(Lent::Part(value)),
            None => None,
        },
        _ => match lend_value(term, globals, env) {
            Some(held) => Some(Lent::Kept(held)),
            None => None,
        },
    }
}

/// The value that a variable or a position holds, or the part of a tuple that is lent: none of an
/// array or a set that is kept packed.
#[inline(never)]
pub fn lent_value<'a, 'b>(term: &Core, globals: &'a Globals, env: &'a Env<'b>) -> Option<&'a Value>
    ensures value { IfSome result (λ v. IsDatum globals.now env.now term.now (datum v.now)) }
    ensures turns { IfSome result (λ v. TakesNone globals.now env.now term.now) }
{
    match term {
        Core::Proj { at, of, part } => match lent_value(part, globals, env) {
            Some(tuple) => part_lent(tuple, *at, *of),
            None => None,
        },
        _ => match lend_value(term, globals, env) {
            Some(held) => plain(held),
            None => None,
        },
    }
}

// The value that is not kept packed.
fn plain(held: &Held) -> Option<&Value>
    ensures { IfSome result (λ v. held_datum held.now ≡ datum v.now) }
{
    match held {
        Held::Value(value) => Some(value),
        _ => None,
    }
}

/// The part of a tuple, the parts counted from 1.
#[tactic(auto, using(aql_value::specs::Laws::Datum::data_lists))]
pub(crate) fn part_lent(value: &Value, at: u64, of: u64) -> Option<&Value>
    ensures { IfSome result (λ v. part_of at of (datum value.now) ≡ Some (datum v.now)) }
{
    match value {
        Value::Row(parts) => item_lent(parts.items(), at, of),
        _ => None,
    }
}

#[tactic(auto, using(crate::proofs::Items::items))]
fn item_lent(items: &Items, at: u64, of: u64) -> Option<&Value>
    ensures { IfSome result (λ v. item_of at of items.now ≡ Some (datum v.now)) }
{
    if items.items.len() as u64 != of || at == 0 {
        return None;
    }
    let i = (at - 1) as usize;
    if i < items.items.len() {
        Some(item_at(items, i))
    } else {
        None
    }
}

fn item_at(items: &Items, i: usize) -> &Value
    requires { i < length items.now }
    ensures { slice_get items.now i ≡ Some (datum result.now) }
{
    &items.items[i]
}
