//! What an operation asks of the types of its parts, and its own type.

ghost use Rattle.std.specs.Prelude.{◌≡◌, ◌++◌, IfOk, length};
ghost use Rattle.aql_ty.specs.Types as types;
ghost use Rattle.aql_infer_steps.specs.Constraints as constraints;
ghost use Rattle.aql_infer_steps.specs.Constraints.{equate_each, pair_type, made_truth, made_truths, made_either, made_choice, made_empty, made_arith, made_compare, made_union, made_gen, made_get, made_sub, made_dim, made_index, made_literal, made_tuple};
ghost use Rattle.aql_infer_steps.specs.View.{sketch_type, state_of, types_in, MakesType, GivesState};

use crate::fault::NoTyping;
use crate::positions::Positions;
use crate::sketch::{Sketch, tuple_of};
use crate::store::{Store, becomes, equal_types, new_variable, require, use_type};
use aql_ty::index::index_type;
use aql_ty::ty::Ty;
use aql_value::Memory;
use aql_value::made::make_pair_list;
use std::alloc::Global;

/// A number, of two numbers.
#[tactic(auto, unfolding(crate::specs::Constraints::after))]
pub fn arith(
    alloc: Global,
    a: &Sketch,
    b: &Sketch,
    positions: &Positions,
    s: Store,
) -> Result<(Sketch, Store), NoTyping>
    ensures { MakesType positions.now result (made_arith (sketch_type positions.now a.now)
        (sketch_type positions.now b.now) (state_of positions.now s)) }
{
    let s = equal_types(alloc, a, &Sketch::Plain(Ty::Nat), positions, s)?;
    let s = equal_types(alloc, b, &Sketch::Plain(Ty::Nat), positions, s)?;
    Ok((Sketch::Plain(Ty::Nat), s))
}

/// A truth value, of a truth value.
#[tactic(auto, unfolding(crate::specs::Constraints::after))]
pub fn truth(
    alloc: Global,
    a: &Sketch,
    positions: &Positions,
    s: Store,
) -> Result<(Sketch, Store), NoTyping>
    ensures { MakesType positions.now result (made_truth (sketch_type positions.now a.now)
        (state_of positions.now s)) }
{
    let s = equal_types(alloc, a, &Sketch::Plain(Ty::Bool), positions, s)?;
    Ok((Sketch::Plain(Ty::Bool), s))
}

/// A truth value, of two truth values.
#[tactic(auto, unfolding(crate::specs::Constraints::after))]
pub fn truths(
    alloc: Global,
    a: &Sketch,
    b: &Sketch,
    positions: &Positions,
    s: Store,
) -> Result<(Sketch, Store), NoTyping>
    ensures { MakesType positions.now result (made_truths (sketch_type positions.now a.now)
        (sketch_type positions.now b.now) (state_of positions.now s)) }
{
    let s = equal_types(alloc, a, &Sketch::Plain(Ty::Bool), positions, s)?;
    let s = equal_types(alloc, b, &Sketch::Plain(Ty::Bool), positions, s)?;
    Ok((Sketch::Plain(Ty::Bool), s))
}

/// The type of two of one type.
#[tactic(auto, unfolding(crate::specs::Constraints::after))]
pub fn either(
    alloc: Global,
    a: Sketch,
    b: &Sketch,
    positions: &Positions,
    s: Store,
) -> Result<(Sketch, Store), NoTyping>
    ensures { MakesType positions.now result (made_either (sketch_type positions.now a)
        (sketch_type positions.now b.now) (state_of positions.now s)) }
{
    let s = equal_types(alloc, b, &a, positions, s)?;
    Ok((a, s))
}

/// The type of two of one type, under a truth value.
#[tactic(auto, unfolding(crate::specs::Constraints::after))]
pub fn choice(
    alloc: Global,
    c: &Sketch,
    a: Sketch,
    b: &Sketch,
    positions: &Positions,
    s: Store,
) -> Result<(Sketch, Store), NoTyping>
    ensures { MakesType positions.now result (made_choice (sketch_type positions.now c.now)
        (sketch_type positions.now a) (sketch_type positions.now b.now)
        (state_of positions.now s)) }
{
    let s = equal_types(alloc, c, &Sketch::Plain(Ty::Bool), positions, s)?;
    either(alloc, a, b, positions, s)
}

/// The empty set.
#[tactic(auto, unfolding(crate::specs::Constraints::after))]
pub fn empty_set(
    alloc: Global,
    positions: &Positions,
    s: Store,
) -> Result<(Sketch, Store), NoTyping>
    ensures { MakesType positions.now result (made_empty (state_of positions.now s)) }
{
    let (t, s) = new_variable(positions, s)?;
    Ok((set_of(alloc, t, positions)?, s))
}

/// A truth value, of two of one type.
#[tactic(auto, unfolding(crate::specs::Constraints::after))]
pub fn comparison(
    alloc: Global,
    a: &Sketch,
    b: &Sketch,
    positions: &Positions,
    s: Store,
) -> Result<(Sketch, Store), NoTyping>
    ensures { MakesType positions.now result (made_compare (sketch_type positions.now a.now)
        (sketch_type positions.now b.now) (state_of positions.now s)) }
{
    let s = equal_types(alloc, b, a, positions, s)?;
    let s = use_type(alloc, a, positions, s)?;
    Ok((Sketch::Plain(Ty::Bool), s))
}

/// A set, of two of its type.
#[tactic(auto, unfolding(crate::specs::Constraints::after))]
pub fn union(
    alloc: Global,
    a: &Sketch,
    b: &Sketch,
    positions: &Positions,
    s: Store,
) -> Result<(Sketch, Store), NoTyping>
    ensures { MakesType positions.now result (made_union (sketch_type positions.now a.now)
        (sketch_type positions.now b.now) (state_of positions.now s)) }
{
    let (t, s) = new_variable(positions, s)?;
    let set = set_of(alloc, t, positions)?;
    let s = equal_types(alloc, a, &set, positions, s)?;
    let s = equal_types(alloc, b, &set, positions, s)?;
    Ok((set, s))
}

/// A set of numbers, of a number.
#[tactic(auto, unfolding(crate::specs::Constraints::after))]
pub fn generate_type(
    alloc: Global,
    a: &Sketch,
    positions: &Positions,
    s: Store,
) -> Result<(Sketch, Store), NoTyping>
    ensures { MakesType positions.now result (made_gen (sketch_type positions.now a.now)
        (state_of positions.now s)) }
{
    let s = equal_types(alloc, a, &Sketch::Plain(Ty::Nat), positions, s)?;
    Ok((set_of(alloc, Sketch::Plain(Ty::Nat), positions)?, s))
}

/// A member, of a set.
#[tactic(auto, unfolding(crate::specs::Constraints::after, crate::specs::Constraints::equate, crate::specs::Constraints::within))]
pub fn member(
    alloc: Global,
    a: &Sketch,
    positions: &Positions,
    s: Store,
) -> Result<(Sketch, Store), NoTyping>
    ensures { MakesType positions.now result (made_get (sketch_type positions.now a.now)
        (state_of positions.now s)) }
{
    let (t, s) = new_variable(positions, s)?;
    let member = t.copy(alloc, positions)?;
    let s = becomes(alloc, a, set_of(alloc, t, positions), positions, s)?;
    Ok((member, s))
}

/// A cell, of an array and the numbers of an index.
#[tactic(auto, unfolding(crate::specs::Constraints::after, crate::specs::Constraints::equate, crate::specs::Constraints::within), using(crate::proofs::Lists::length_types_in))]
pub fn subscript(
    alloc: Global,
    a: &Sketch,
    at: &[Sketch],
    positions: &Positions,
    s: Store,
) -> Result<(Sketch, Store), NoTyping>
    ensures { MakesType positions.now result (made_sub (sketch_type positions.now a.now)
        (types_in positions.now at.now) (state_of positions.now s)) }
{
    let (t, s) = new_variable(positions, s)?;
    let cell = t.copy(alloc, positions)?;
    let s = becomes(
        alloc,
        a,
        array_of(alloc, at.len() as u64, t, positions),
        positions,
        s,
    )?;
    let s = equal_each(alloc, at, &Sketch::Plain(Ty::Nat), positions, s)?;
    Ok((cell, s))
}

/// The dimensions, of an array of that rank. A rank that is none has no type.
#[tactic(auto, unfolding(crate::specs::Constraints::after, crate::specs::Constraints::equate, crate::specs::Constraints::within))]
pub fn dimensions(
    alloc: Global,
    rank: u64,
    a: &Sketch,
    positions: &Positions,
    s: Store,
) -> Result<(Sketch, Store), NoTyping>
    ensures { MakesType positions.now result (made_dim rank (sketch_type positions.now a.now)
        (state_of positions.now s)) }
{
    let s = require(1 <= rank && rank <= 8, positions, s)?;
    let (t, s) = new_variable(positions, s)?;
    let s = becomes(alloc, a, array_of(alloc, rank, t, positions), positions, s)?;
    Ok((Sketch::Plain(index_type(alloc, rank)?), s))
}

/// An array of sets, of a set of pairs of an index of that rank and a value. A rank that is none has no type.
#[tactic(auto, unfolding(crate::specs::Constraints::after, crate::specs::Constraints::equate, crate::specs::Constraints::within))]
pub fn group_type(
    alloc: Global,
    rank: u64,
    a: &Sketch,
    positions: &Positions,
    s: Store,
) -> Result<(Sketch, Store), NoTyping>
    ensures { MakesType positions.now result (made_index rank (sketch_type positions.now a.now)
        (state_of positions.now s)) }
{
    let s = require(1 <= rank && rank <= 8, positions, s)?;
    let (t, s) = new_variable(positions, s)?;
    let value = t.copy(alloc, positions)?;
    let s = becomes(alloc, a, pairs_of(alloc, rank, t, positions), positions, s)?;
    let set = set_of(alloc, value, positions)?;
    Ok((array_of(alloc, rank, set, positions)?, s))
}

/// A literal array, of its dimensions, which are numbers, and its cells. A rank that is none has no type.
#[tactic(auto, unfolding(crate::specs::Constraints::after))]
pub fn literal(
    alloc: Global,
    dims: &[Sketch],
    cells: &[Sketch],
    positions: &Positions,
    s: Store,
) -> Result<(Sketch, Store), NoTyping>
    ensures { MakesType positions.now result (made_literal (length dims.now)
        (types_in positions.now dims.now ++ types_in positions.now cells.now)
        (state_of positions.now s)) }
{
    let rank = dims.len() as u64;
    let s = require(1 <= rank && rank <= 8, positions, s)?;
    let (t, s) = new_variable(positions, s)?;
    let s = literal_parts(alloc, dims, cells, &t, positions, s)?;
    Ok((array_of(alloc, rank, t, positions)?, s))
}

// The dimensions are to be numbers, and the cells of that type.
#[tactic(auto, unfolding(crate::specs::Constraints::after), using(crate::proofs::Lists::literal_parts_steps))]
fn literal_parts(
    alloc: Global,
    dims: &[Sketch],
    cells: &[Sketch],
    t: &Sketch,
    positions: &Positions,
    s: Store,
) -> Result<Store, Memory>
    ensures { GivesState positions.now result (constraints.literal_parts (length dims.now)
        (sketch_type positions.now t.now)
        (types_in positions.now dims.now ++ types_in positions.now cells.now)
        (state_of positions.now s)) }
{
    let s = equal_each(alloc, dims, &Sketch::Plain(Ty::Nat), positions, s)?;
    equal_each(alloc, cells, t, positions, s)
}

/// A tuple of these parts. Fewer than two have no type.
#[tactic(auto, unfolding(crate::specs::Constraints::after), using(crate::proofs::Lists::tuple_steps))]
pub fn tuple(
    parts: Vec<Sketch>,
    positions: &Positions,
    s: Store,
) -> Result<(Sketch, Store), NoTyping>
    ensures { MakesType positions.now result (made_tuple (types_in positions.now parts.items)
        (state_of positions.now s)) }
{
    let s = require(2 <= parts.len(), positions, s)?;
    Ok((tuple_of(parts, positions), s))
}

/// Each of these is to become that type.
#[tactic(auto, unfolding(crate::specs::Constraints::after), using(crate::proofs::Lists::types_in_steps))]
pub(crate) fn equal_each(
    alloc: Global,
    ts: &[Sketch],
    t: &Sketch,
    positions: &Positions,
    s: Store,
) -> Result<Store, Memory>
    ensures { GivesState positions.now result (equate_each (types_in positions.now ts.now)
        (sketch_type positions.now t.now) (state_of positions.now s)) }
{
    let mut s = s;
    for one in ts {
        s = equal_types(alloc, one, t, positions, s)?;
    }
    Ok(s)
}

/// The type of sets of that type.
pub fn set_of(alloc: Global, t: Sketch, positions: &Positions) -> Result<Sketch, Memory>
    ensures { IfOk result (λ made. sketch_type positions.now made
        ≡ types.set_of (sketch_type positions.now t)) }
{
    Ok(Sketch::SetOf(Box::new(alloc, t)?))
}

/// The type of arrays of that rank and type.
pub fn array_of(
    alloc: Global,
    rank: u64,
    cell: Sketch,
    positions: &Positions,
) -> Result<Sketch, Memory>
    ensures { IfOk result (λ made. sketch_type positions.now made
        ≡ types.array_of rank (sketch_type positions.now cell)) }
{
    Ok(Sketch::ArrayOf {
        rank,
        cell: Box::new(alloc, cell)?,
    })
}

// The type of sets of pairs of an index of that rank and that type.
fn pairs_of(alloc: Global, rank: u64, t: Sketch, positions: &Positions) -> Result<Sketch, Memory>
    ensures { IfOk result (λ made. sketch_type positions.now made
        ≡ types.set_of (pair_type rank (sketch_type positions.now t))) }
{
    let index = Sketch::Plain(index_type(alloc, rank)?);
    let parts = make_pair_list(alloc, Ok(index), Ok(t))?;
    set_of(alloc, tuple_of(parts, positions), positions)
}
