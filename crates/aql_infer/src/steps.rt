//! What an operation makes of the types of its parts, or the fault that a part had.

ghost use Rattle.aql_syntax.specs.Names.{find};
ghost use Rattle.aql_infer_steps.specs.Constraints.{make_call, made_arith, made_choice, made_compare, made_dim, made_either, made_gen, made_get, made_index, made_truth, made_truths, made_tuple, made_union};
ghost use Rattle.aql_infer_steps.specs.View.{sketch_type, state_of, locals_of, schemes_of, types_in, MakesType};
ghost use Rattle.aql_infer.specs.Pairs.{Follows};

use aql_infer_steps::fault::NoTyping;
use aql_infer_steps::names::{Local, application_type};
use aql_infer_steps::operations::{
    arith, choice, comparison, dimensions, either, generate_type, group_type, member, truth,
    truths, tuple, union,
};
use aql_infer_steps::positions::Positions;
use aql_infer_steps::sketch::Sketch;
use aql_infer_steps::store::Store;
use aql_value::Str;
use std::alloc::Global;

/// A tuple of parts.
pub(crate) fn tuple_of(
    parts: Result<(Vec<Sketch>, Store), NoTyping>,
    positions: &Positions,
) -> Result<(Sketch, Store), NoTyping>
    ensures { Follows parts result
        (λ p. MakesType positions.now result (made_tuple (types_in positions.now p.0.items)
        (state_of positions.now p.1))) }
{
    let (ts, s) = parts?;
    tuple(ts, positions, s)
}

/// The negation of a part.
pub(crate) fn truth_of(
    alloc: Global,
    part: Result<(Sketch, Store), NoTyping>,
    positions: &Positions,
) -> Result<(Sketch, Store), NoTyping>
    ensures { Follows part result
        (λ p. MakesType positions.now result (made_truth (sketch_type positions.now p.0)
        (state_of positions.now p.1))) }
{
    let (a, s) = part?;
    truth(alloc, &a, positions, s)
}

/// The numbers below a part.
pub(crate) fn generated_of(
    alloc: Global,
    part: Result<(Sketch, Store), NoTyping>,
    positions: &Positions,
) -> Result<(Sketch, Store), NoTyping>
    ensures { Follows part result (λ p. MakesType positions.now result (made_gen
        (sketch_type positions.now p.0) (state_of positions.now p.1))) }
{
    let (a, s) = part?;
    generate_type(alloc, &a, positions, s)
}

/// The member of a part.
pub(crate) fn member_of(
    alloc: Global,
    part: Result<(Sketch, Store), NoTyping>,
    positions: &Positions,
) -> Result<(Sketch, Store), NoTyping>
    ensures { Follows part result (λ p. MakesType positions.now result (made_get
        (sketch_type positions.now p.0) (state_of positions.now p.1))) }
{
    let (a, s) = part?;
    member(alloc, &a, positions, s)
}

/// The dimensions of a part.
pub(crate) fn dimensions_of(
    alloc: Global,
    rank: u64,
    part: Result<(Sketch, Store), NoTyping>,
    positions: &Positions,
) -> Result<(Sketch, Store), NoTyping>
    ensures { Follows part result
        (λ p. MakesType positions.now result (made_dim rank (sketch_type positions.now p.0)
        (state_of positions.now p.1))) }
{
    let (a, s) = part?;
    dimensions(alloc, rank, &a, positions, s)
}

/// The groups of a part.
pub(crate) fn grouped_of(
    alloc: Global,
    rank: u64,
    part: Result<(Sketch, Store), NoTyping>,
    positions: &Positions,
) -> Result<(Sketch, Store), NoTyping>
    ensures { Follows part result
        (λ p. MakesType positions.now result (made_index rank (sketch_type positions.now p.0)
        (state_of positions.now p.1))) }
{
    let (a, s) = part?;
    group_type(alloc, rank, &a, positions, s)
}

/// The macro of that name, applied to a part.
pub(crate) fn headed_of(
    alloc: Global,
    name: &Str,
    part: Result<(Sketch, Store), NoTyping>,
    positions: &Positions,
    env: &[Local],
) -> Result<(Sketch, Store), NoTyping>
    ensures { Follows part result
        (λ p. MakesType positions.now result (make_call (find name.now
        (locals_of positions.now env.now))
        (find name.now (schemes_of positions.now)) (sketch_type positions.now p.0)
        (state_of positions.now p.1))) }
{
    let (a, s) = part?;
    application_type(alloc, name, &a, positions, env, s)
}

/// A conjunction or disjunction of two parts.
pub(crate) fn truths_of(
    alloc: Global,
    parts: Result<(Sketch, Sketch, Store), NoTyping>,
    positions: &Positions,
) -> Result<(Sketch, Store), NoTyping>
    ensures { Follows parts result (λ p. MakesType positions.now result (made_truths
        (sketch_type positions.now p.0) (sketch_type positions.now p.1)
        (state_of positions.now p.2))) }
{
    let (a, b, s) = parts?;
    truths(alloc, &a, &b, positions, s)
}

/// A comparison of two parts.
pub(crate) fn comparison_of(
    alloc: Global,
    parts: Result<(Sketch, Sketch, Store), NoTyping>,
    positions: &Positions,
) -> Result<(Sketch, Store), NoTyping>
    ensures { Follows parts result (λ p. MakesType positions.now result (made_compare
        (sketch_type positions.now p.0) (sketch_type positions.now p.1)
        (state_of positions.now p.2))) }
{
    let (a, b, s) = parts?;
    comparison(alloc, &a, &b, positions, s)
}

/// A number made of two parts.
pub(crate) fn arith_of(
    alloc: Global,
    parts: Result<(Sketch, Sketch, Store), NoTyping>,
    positions: &Positions,
) -> Result<(Sketch, Store), NoTyping>
    ensures { Follows parts result (λ p. MakesType positions.now result (made_arith
        (sketch_type positions.now p.0) (sketch_type positions.now p.1)
        (state_of positions.now p.2))) }
{
    let (a, b, s) = parts?;
    arith(alloc, &a, &b, positions, s)
}

/// The union of two parts.
pub(crate) fn union_of(
    alloc: Global,
    parts: Result<(Sketch, Sketch, Store), NoTyping>,
    positions: &Positions,
) -> Result<(Sketch, Store), NoTyping>
    ensures { Follows parts result (λ p. MakesType positions.now result (made_union
        (sketch_type positions.now p.0) (sketch_type positions.now p.1)
        (state_of positions.now p.2))) }
{
    let (a, b, s) = parts?;
    union(alloc, &a, &b, positions, s)
}

/// One of two parts.
pub(crate) fn either_of(
    alloc: Global,
    parts: Result<(Sketch, Sketch, Store), NoTyping>,
    positions: &Positions,
) -> Result<(Sketch, Store), NoTyping>
    ensures { Follows parts result (λ p. MakesType positions.now result (made_either
        (sketch_type positions.now p.0) (sketch_type positions.now p.1)
        (state_of positions.now p.2))) }
{
    let (a, b, s) = parts?;
    either(alloc, a, &b, positions, s)
}

/// One of two parts, under a test of that type.
pub(crate) fn choose(
    alloc: Global,
    test: &Sketch,
    parts: Result<(Sketch, Sketch, Store), NoTyping>,
    positions: &Positions,
) -> Result<(Sketch, Store), NoTyping>
    ensures { Follows parts result
        (λ p. MakesType positions.now result (made_choice (sketch_type positions.now test.now)
        (sketch_type positions.now p.0) (sketch_type positions.now p.1)
        (state_of positions.now p.2))) }
{
    let (a, b, s) = parts?;
    choice(alloc, test, a, &b, positions, s)
}
