//! Values on the heap.

ghost use Rattle.std.specs.Prelude.{◌≡◌, IfOk, OnOk};
ghost use Rattle.nrca_loops.specs.Parts.{AddsPart};
ghost use Rattle.nrca_loops.specs.Values.{held_value, boxed_value, truth_in};

use crate::members::truth;
use crate::runs::parts_and;
use aql_value::Memory;
use nrca_array::Held;
use std::alloc::Global;

/// The value on the heap.
#[inline(never)]
pub fn to_box(alloc: Global, value: Option<Held>) -> Result<Option<Box<Held>>, Memory>
    ensures { IfOk result (λ v. boxed_value v ≡ held_value value) }
{
    match value {
        Some(held) => {
            let kept = Box::new(alloc, held)?;
            Ok(Some(kept))
        }
        None => Ok(None),
    }
}

/// The value itself.
#[inline(never)]
pub fn from_box(value: Option<Box<Held>>) -> Option<Held>
    ensures { held_value result ≡ boxed_value value }
{
    match value {
        Some(kept) => Some(Box::into_inner(kept)),
        None => None,
    }
}

/// The truth value that a value is.
#[inline(never)]
pub fn truth_kept(value: Option<Box<Held>>) -> Option<bool>
    ensures { result ≡ truth_in (boxed_value value) }
{
    truth(from_box(value))
}

/// The parts so far, and one more.
#[inline(never)]
pub fn parts_kept(
    parts: Option<Vec<Held>>,
    value: Option<Box<Held>>,
) -> Result<Option<Vec<Held>>, Memory>
    ensures { IfOk result (λ vs. AddsPart parts (boxed_value value) vs) }
{
    parts_and(parts, from_box(value))
}

/// The same in place.
#[inline(never)]
pub fn keep_part(parts: &mut Option<Vec<Held>>, value: Option<Box<Held>>) -> Result<(), Memory>
    ensures { OnOk result (AddsPart parts.old (boxed_value value) parts.new) }
{
    let before = parts.take();
    *parts = parts_kept(before, value)?;
    Ok(())
}
