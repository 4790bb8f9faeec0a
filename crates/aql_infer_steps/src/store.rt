//! Equations as they are written.

ghost use Rattle.std.specs.Prelude.{◌≡◌, IfOk, IsOkAnd, Some};
ghost use Rattle.aql_infer_steps.specs.Constraints.{fresh, equate, within, add_equation, guard};
ghost use Rattle.aql_infer_steps.specs.View.{sketch_type, state_of, MakesState, GivesType, GivesState};

use crate::fault::NoTyping;
use crate::positions::Positions;
use crate::sketch::Sketch;
use aql_ty::ty::Ty;
use aql_value::Memory;
use aql_value::made::both;
use std::alloc::Global;

/// Two types that are to become one.
#[derive(Drop)]
pub struct Sides {
    pub left: Sketch,
    pub right: Sketch,
}

/// The equations so far, the types that are to be within the limits, and the next new variable.
#[derive(Drop)]
pub struct Store {
    pub equations: Vec<Sides>,
    pub uses: Vec<Sketch>,
    pub next: u64,
}

/// A new variable.
#[tactic(auto, unfolding(crate::specs::Constraints::fresh))]
pub fn new_variable(positions: &Positions, s: Store) -> Result<(Sketch, Store), Memory>
    ensures { GivesType positions.now result (fresh (state_of positions.now s)) }
{
    let mut s = s;
    let x = s.next;
    match x.checked_add(1) {
        None => Err(Memory),
        Some(next) => {
            s.next = next;
            Ok((Sketch::Plain(Ty::Var(x)), s))
        }
    }
}

/// Two types are to become one.
#[tactic(auto, unfolding(crate::specs::Constraints::equate), using(crate::proofs::Sketching::sides_last))]
pub fn equal_types(
    alloc: Global,
    a: &Sketch,
    b: &Sketch,
    positions: &Positions,
    s: Store,
) -> Result<Store, Memory>
    ensures { GivesState positions.now result (equate (sketch_type positions.now a.now)
        (sketch_type positions.now b.now) (state_of positions.now s)) }
{
    let mut s = s;
    let (left, right) = both(a.copy(alloc, positions), b.copy(alloc, positions))?;
    s.equations.push(Sides { left, right })?;
    Ok(s)
}

/// A type is to be within the limits.
#[tactic(auto, unfolding(crate::specs::Constraints::within), using(crate::proofs::Sketching::sketches_last))]
pub fn use_type(alloc: Global, t: &Sketch, positions: &Positions, s: Store) -> Result<Store, Memory>
    ensures { GivesState positions.now result
        (within (sketch_type positions.now t.now) (state_of positions.now s)) }
{
    let mut s = s;
    let t = t.copy(alloc, positions)?;
    s.uses.push(t)?;
    Ok(s)
}

/// A type is to become one that was made, and that is to be within the limits.
#[tactic(auto, unfolding(crate::specs::Constraints::equate, crate::specs::Constraints::within))]
pub(crate) fn becomes(
    alloc: Global,
    a: &Sketch,
    made: Result<Sketch, Memory>,
    positions: &Positions,
    s: Store,
) -> Result<Store, Memory>
    ensures { IfOk result (λ x. IsOkAnd made (λ b. state_of positions.now x
        ≡ add_equation (sketch_type positions.now a.now) (sketch_type positions.now b)
        (state_of positions.now s))) }
{
    let b = made?;
    let s = equal_types(alloc, a, &b, positions, s)?;
    use_type(alloc, &b, positions, s)
}

/// No type where the test fails.
#[tactic(auto, unfolding(crate::specs::Constraints::guard))]
pub fn require(holds: bool, positions: &Positions, s: Store) -> Result<Store, NoTyping>
    ensures { MakesState positions.now result (guard holds (state_of positions.now s)) }
{
    if holds { Ok(s) } else { Err(NoTyping::NoType) }
}
