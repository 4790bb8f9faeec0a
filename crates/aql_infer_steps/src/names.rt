//! Local names, and what the earlier positions have.

ghost use Rattle.std.specs.Prelude.{◌≡◌, ◌∷◌, IfOk, OnOk, Some};
ghost use Rattle.aql_ty.specs.Types.{apply};
ghost use Rattle.aql_ty.specs.View.{type_of, sort_of};
ghost use Rattle.aql_syntax.specs.Names.{names_equal, find};
ghost use Rattle.aql_infer_steps.specs.Constraints.{raise_variables, fresh_variables, make_value, make_global, make_name, make_macro, make_call};
ghost use Rattle.aql_infer_steps.specs.View.{sketch_type, sketch_in, sort_at, part_of, state_of, locals_of, schemes_of, Extends, MakesType};
ghost use Rattle.aql_infer_steps.specs.Ground.{is_ground, ground_of};

use crate::fault::NoTyping;
use crate::positions::{Ground, Position, Positions};
use crate::sketch::{Instance, Part, Sketch};
use crate::store::{Store, equal_types, use_type};
use aql_ty::ty::{Scheme, Ty};
use aql_value::made::both;
use aql_value::{Memory, Str};
use std::alloc::Global;

/// A local name and its type.
#[derive(Drop)]
pub struct Local {
    pub name: Str,
    pub ty: Sketch,
}

/// The type of a name that stands for a value: that of the innermost local name, else an instance
/// of what the latest position of that name has.
pub fn name_type(
    alloc: Global,
    x: &Str,
    positions: &Positions,
    env: &[Local],
    s: Store,
) -> Result<(Sketch, Store), NoTyping>
    ensures { MakesType positions.now result (make_name (schemes_of positions.now)
        (find x.now (locals_of positions.now env.now)) x.now (state_of positions.now s)) }
{
    match find_local(alloc, x, positions, env)? {
        Some(t) => Ok((t, s)),
        None => global(alloc, x, positions, s),
    }
}

fn global(
    alloc: Global,
    x: &Str,
    positions: &Positions,
    s: Store,
) -> Result<(Sketch, Store), NoTyping>
    ensures { MakesType positions.now result (make_global (find x.now (schemes_of positions.now))
        (state_of positions.now s)) }
{
    match positions.latest(x) {
        Some((number, p, ground)) => instance(alloc, number, p, ground, positions, s),
        None => Err(NoTyping::NoType),
    }
}

/// The type of an application of a macro to an argument of that type. A local name in head
/// position has none, nor has a name that means no macro.
pub fn application_type(
    alloc: Global,
    f: &Str,
    argument: &Sketch,
    positions: &Positions,
    env: &[Local],
    s: Store,
) -> Result<(Sketch, Store), NoTyping>
    ensures { MakesType positions.now result (make_call (find f.now
        (locals_of positions.now env.now))
        (find f.now (schemes_of positions.now)) (sketch_type positions.now argument.now)
        (state_of positions.now s)) }
{
    match find_local(alloc, f, positions, env)? {
        Some(_) => Err(NoTyping::NoType),
        None => match positions.latest(f) {
            Some((number, p, ground)) => {
                apply_macro(alloc, number, p, ground, argument, positions, s)
            }
            None => Err(NoTyping::NoType),
        },
    }
}

#[tactic(auto, using(crate::proofs::Finding::local_steps))]
fn find_local(
    alloc: Global,
    x: &Str,
    positions: &Positions,
    env: &[Local],
) -> Result<Option<Sketch>, Memory>
    ensures { IfOk result (λ o. sketch_in positions.now o ≡ find x.now
        (locals_of positions.now env.now)) }
{
    let mut rest = env;
    while let Some((last, before)) = rest.split_last() {
        if same_name(x, &last.name) {
            let t = last.ty.copy(alloc, positions)?;
            return Ok(Some(t));
        }
        rest = before;
    }
    Ok(None)
}

fn same_name(a: &Str, b: &Str) -> bool
    ensures { result ≡ names_equal a.now b.now }
{
    a.is(&b.bytes)
}

/// A local name more, the innermost.
#[tactic(auto, using(crate::proofs::Finding::locals_last))]
pub fn push_local(
    alloc: Global,
    name: &Str,
    ty: &Sketch,
    positions: &Positions,
    env: &mut Vec<Local>,
) -> Result<(), Memory>
    ensures names { OnOk result (locals_of positions.now env.new.items
        ≡ (name.now, sketch_type positions.now ty.now) ∷ locals_of positions.now env.old.items) }
    ensures extends { OnOk result (Extends env.old.items env.new.items) }
{
    let (name, ty) = both(name.copy(alloc), ty.copy(alloc, positions))?;
    env.push(Local { name, ty })?;
    Ok(())
}

// An instance, with new variables, of what the position of that number has.
#[tactic(auto, unfolding(crate::specs::Constraints::after))]
fn instance(
    alloc: Global,
    number: usize,
    p: &Position,
    ground: Ground,
    positions: &Positions,
    s: Store,
) -> Result<(Sketch, Store), NoTyping>
    requires here { sort_at positions.now number ≡ sort_of p.now.scheme }
    requires ground { ground ≡ ground_of (sort_of p.now.scheme) }
    ensures { MakesType positions.now result (make_value (sort_of p.now.scheme) p.now.variables
        (state_of positions.now s)) }
{
    match &p.scheme {
        Scheme::Value(t) => {
            let (first, s) = open(p.variables, positions, s)?;
            let part = Instance {
                position: number,
                part: Part::Value,
                first,
            };
            let t = refer(part, t, ground.first, positions);
            let s = use_type(alloc, &t, positions, s)?;
            Ok((t, s))
        }
        Scheme::Macro {
            argument: _,
            result: _,
        } => Err(NoTyping::NoType),
    }
}

// An application of a macro, which the position of that number has, to an argument of that type.
#[tactic(auto, unfolding(crate::specs::Constraints::after))]
fn apply_macro(
    alloc: Global,
    number: usize,
    p: &Position,
    ground: Ground,
    given: &Sketch,
    positions: &Positions,
    s: Store,
) -> Result<(Sketch, Store), NoTyping>
    requires here { sort_at positions.now number ≡ sort_of p.now.scheme }
    requires ground { ground ≡ ground_of (sort_of p.now.scheme) }
    ensures { MakesType positions.now result (make_macro (sort_of p.now.scheme) p.now.variables
        (sketch_type positions.now given.now) (state_of positions.now s)) }
{
    match &p.scheme {
        Scheme::Value(_) => Err(NoTyping::NoType),
        Scheme::Macro {
            argument: from,
            result: to,
        } => {
            let (first, s) = open(p.variables, positions, s)?;
            let argument = Instance {
                position: number,
                part: Part::Argument,
                first,
            };
            let result = Instance {
                position: number,
                part: Part::Result,
                first,
            };
            let a = refer(argument, from, ground.first, positions);
            let b = refer(result, to, ground.result, positions);
            let s = use_type(alloc, &a, positions, s)?;
            let s = use_type(alloc, &b, positions, s)?;
            let s = equal_types(alloc, given, &a, positions, s)?;
            Ok((b, s))
        }
    }
}

// That many new variables: the first.
#[tactic(auto, unfolding(crate::specs::Constraints::fresh_variables))]
fn open(count: u64, positions: &Positions, s: Store) -> Result<(u64, Store), Memory>
    ensures { IfOk result (λ r. fresh_variables count (state_of positions.now s) ≡ Some
        (record { result = raise_variables r.0; state = state_of positions.now r.1 })) }
{
    let mut s = s;
    let first = s.next;
    match first.checked_add(count) {
        None => Err(Memory),
        Some(next) => {
            s.next = next;
            Ok((first, s))
        }
    }
}

// The part, whose type is `t`, as a reference. One without variables is the same at each use.
#[tactic(auto, using(crate::proofs::Sketching::refer_steps))]
fn refer(i: Instance, t: &Ty, ground: bool, positions: &Positions) -> Sketch
    requires here { part_of i.part (sort_at positions.now i.position) ≡ type_of t.now }
    requires ground { ground ≡ is_ground (type_of t.now) }
    ensures { sketch_type positions.now result ≡ apply (raise_variables i.first) (type_of t.now) }
{
    let first = if ground { 0 } else { i.first };
    Sketch::Instance(Instance {
        position: i.position,
        part: i.part,
        first,
    })
}
