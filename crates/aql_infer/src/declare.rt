//! One declaration after others.

ghost use Rattle.std.specs.Prelude.{◌≡◌, []};
ghost use Rattle.aql_syntax.specs.Tree as tree;
ghost use Rattle.aql_syntax.specs.View.{tree_of, decl_of, reader_of, pat_of};
ghost use Rattle.aql_infer_steps.specs.Constraints.{initial, make_decl};
ghost use Rattle.aql_infer_steps.specs.View.{state_of, schemes_of, MakesSort};
ghost use Rattle.aql_infer.specs.Inferred.{Inferred, Placed};

use crate::walk::infer;
use aql_infer_steps::fault::NoTyping;
use aql_infer_steps::numbering::{instance_of, renumber_scheme};
use aql_infer_steps::patterns::pattern;
use aql_infer_steps::positions::{Position, Positions};
use aql_infer_steps::readers::{argument_type, has_rank, reader_type};
use aql_infer_steps::sketch::{Draft, Sketch};
use aql_infer_steps::solving::solve_store;
use aql_infer_steps::store::{Store, equal_types, require, use_type};
use aql_syntax::ast::{Decl, Expr, Pattern, Reader};
use aql_ty::ty::Scheme;
use aql_ty::variables::scheme_variables;
use aql_types::fault::UnifyFault;
use aql_value::Memory;
use aql_value::made::{both, make_box};
use std::alloc::Global;

/// What a declaration has over what the earlier positions have: its principal scheme, with its
/// variables numbered by first appearance. NoType exactly where it has no typing.
pub(crate) fn infer_declaration(
    alloc: Global,
    d: &Decl,
    positions: &Positions,
) -> Result<Position, NoTyping>
    ensures { Inferred result (decl_of d.now) (schemes_of positions.now) }
{
    let (draft, s) = constrain(alloc, d, positions, begin(alloc, positions))?;
    match solve_store(alloc, s, positions) {
        Ok(solution) => {
            let scheme = instance_of(alloc, &solution, positions, &draft);
            sort_of_expression(alloc, d, scheme)
        }
        Err(UnifyFault::Clash) => Err(NoTyping::NoType),
        Err(UnifyFault::Memory) => Err(NoTyping::Memory),
    }
}

// What a declaration has, of its scheme before the variables are numbered.
fn sort_of_expression(
    alloc: Global,
    d: &Decl,
    scheme: Result<Scheme, Memory>,
) -> Result<Position, NoTyping>
    ensures { Placed result scheme (decl_of d.now) }
{
    let scheme = make_box(alloc, scheme)?;
    let names = scheme_variables(alloc, &scheme)?;
    let (scheme, name) = both(renumber_scheme(alloc, &scheme, &names), d.name_copy(alloc))?;
    Ok(Position {
        name,
        scheme,
        variables: names.len() as u64,
    })
}

fn begin(alloc: Global, positions: &Positions) -> Store
    ensures { state_of positions.now result ≡ initial }
{
    Store {
        equations: Vec::new(alloc),
        uses: Vec::new(alloc),
        next: 0,
    }
}

// What a declaration asks, and what it has then.
fn constrain(
    alloc: Global,
    d: &Decl,
    positions: &Positions,
    s: Store,
) -> Result<(Draft, Store), NoTyping>
    ensures { MakesSort positions.now result (make_decl (decl_of d.now) (schemes_of positions.now)
        (state_of positions.now s)) }
{
    match d {
        Decl::Val { name: _, expr } => asked_of_value(alloc, expr, positions, s),
        Decl::Macro {
            name: _,
            pattern,
            body,
        } => asked_of_macro(alloc, pattern, body, positions, s),
        Decl::Read {
            name: _,
            reader,
            expr,
        } => asked_of_reader(alloc, reader, expr, positions, s),
        Decl::Bare { expr } => asked_of_value(alloc, expr, positions, s),
    }
}

#[tactic(auto, unfolding(aql_infer_steps::specs::Constraints::after))]
fn asked_of_value(
    alloc: Global,
    e: &Expr,
    positions: &Positions,
    s: Store,
) -> Result<(Draft, Store), NoTyping>
    ensures { MakesSort positions.now result (make_decl (tree.bare (tree_of e.now))
        (schemes_of positions.now)
        (state_of positions.now s)) }
{
    let mut env = Vec::new(alloc);
    let (t, s) = infer(alloc, e, u64::MAX, positions, &mut env, s)?;
    let s = use_type(alloc, &t, positions, s)?;
    Ok((Draft::Value(t), s))
}

#[tactic(auto, unfolding(aql_infer_steps::specs::Constraints::after))]
fn asked_of_macro(
    alloc: Global,
    p: &Pattern,
    body: &Expr,
    positions: &Positions,
    s: Store,
) -> Result<(Draft, Store), NoTyping>
    ensures { MakesSort positions.now result (make_decl (tree.mac [] (pat_of p.now)
        (tree_of body.now))
        (schemes_of positions.now) (state_of positions.now s)) }
{
    let mut env = Vec::new(alloc);
    let (a, s) = pattern(alloc, p, positions, &mut env, s)?;
    let (b, s) = infer(alloc, body, u64::MAX, positions, &mut env, s)?;
    let s = use_type(alloc, &a, positions, s)?;
    let s = use_type(alloc, &b, positions, s)?;
    Ok((
        Draft::Macro {
            argument: a,
            result: b,
        },
        s,
    ))
}

#[tactic(auto, unfolding(aql_infer_steps::specs::Constraints::after))]
fn asked_of_reader(
    alloc: Global,
    reader: &Reader,
    e: &Expr,
    positions: &Positions,
    s: Store,
) -> Result<(Draft, Store), NoTyping>
    ensures { MakesSort positions.now result (make_decl (tree.read [] (reader_of reader.now)
        (tree_of e.now))
        (schemes_of positions.now) (state_of positions.now s)) }
{
    let s = require(has_rank(reader), positions, s)?;
    let mut env = Vec::new(alloc);
    let (t, s) = infer(alloc, e, u64::MAX, positions, &mut env, s)?;
    let argument = Sketch::Plain(argument_type(alloc, reader)?);
    let s = equal_types(alloc, &t, &argument, positions, s)?;
    let s = use_type(alloc, &argument, positions, s)?;
    let given = Sketch::Plain(reader_type(alloc, reader)?);
    let s = use_type(alloc, &given, positions, s)?;
    Ok((Draft::Value(given), s))
}
