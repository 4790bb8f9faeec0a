//! Patterns: the type that one matches, and the local names under it.

ghost use Rattle.std.specs.Prelude.{◌≡◌, OnOk};
ghost use Rattle.aql_syntax.specs.Tree.{pat, no_pat, axes, count_pats};
ghost use Rattle.aql_syntax.specs.View.{pat_of, pats_of};
ghost use Rattle.aql_infer_steps.specs.Constraints as constraints;
ghost use Rattle.aql_infer_steps.specs.Constraints.{make_pat, make_pats};
ghost use Rattle.aql_infer_steps.specs.View.{sketch_type, sketch_types, state_of, locals_of, schemes_of, Makes, Extends, MakesLocals};

use crate::fault::NoTyping;
use crate::names::{Local, name_type, push_local};
use crate::operations::{array_of, set_of};
use crate::positions::Positions;
use crate::sketch::{Sketch, tuple_of};
use crate::store::{Store, becomes, equal_types, new_variable};
use aql_syntax::ast::Pattern;
use aql_ty::ty::Ty;
use std::alloc::Global;

/// The type that a pattern matches. The names that it binds are added to the local names.
#[cycle(pattern)]
#[tactic(auto, unfolding(crate::specs::Constraints::after), using(crate::proofs::Growing::pattern_steps))]
pub fn pattern(
    alloc: Global,
    p: &Pattern,
    positions: &Positions,
    env: &mut Vec<Local>,
    s: Store,
) -> Result<(Sketch, Store), NoTyping>
    ensures made { Makes (λ r. record {
      result = record {
        of = sketch_type positions.now r.0;
        names = locals_of positions.now
            env.new.items;
      };
      state = state_of positions.now r.1;
    }) result (make_pat (pat_of p.now) (schemes_of positions.now)
        (locals_of positions.now env.old.items)
        (state_of positions.now s)) }
    ensures extends { OnOk result (Extends env.old.items env.new.items) }
{
    match p {
        Pattern::Bind(x) => {
            let (t, s) = new_variable(positions, s)?;
            push_local(alloc, x, &t, positions, env)?;
            Ok((t, s))
        }
        Pattern::Any => {
            let (t, s) = new_variable(positions, s)?;
            Ok((t, s))
        }
        Pattern::Nat(_) => Ok((Sketch::Plain(Ty::Nat), s)),
        Pattern::Bool(_) => Ok((Sketch::Plain(Ty::Bool), s)),
        Pattern::Text(_) => Ok((Sketch::Plain(Ty::Text), s)),
        Pattern::Name(x) => {
            let (t, s) = name_type(alloc, x, positions, env, s)?;
            Ok((t, s))
        }
        Pattern::Row(ps) => {
            let (parts, s) = patterns(alloc, &ps.items, positions, env, s)?;
            Ok((tuple_of(parts, positions), s))
        }
    }
}

#[cycle(pattern)]
#[tactic(auto, unfolding(crate::specs::Constraints::after), using(crate::proofs::Growing::patterns_steps))]
fn patterns(
    alloc: Global,
    ps: &[Pattern],
    positions: &Positions,
    env: &mut Vec<Local>,
    s: Store,
) -> Result<(Vec<Sketch>, Store), NoTyping>
    ensures made { Makes (λ r. record {
      result = record {
        of = sketch_types positions.now r.0.items;
        names = locals_of positions.now env.new.items;
      };
      state = state_of positions.now r.1;
    }) result
        (make_pats (pats_of ps.now) (schemes_of positions.now)
        (locals_of positions.now env.old.items)
        (state_of positions.now s)) }
    ensures extends { OnOk result (Extends env.old.items env.new.items) }
{
    let mut s = s;
    let mut parts = Vec::new(alloc);
    for p in ps {
        let (t, then) = pattern(alloc, p, positions, env, s)?;
        parts.push(t)?;
        s = then;
    }
    Ok((parts, s))
}

/// The names under a pattern that matches a value of that type are added to the local names.
#[tactic(auto, unfolding(crate::specs::Constraints::after, crate::specs::Constraints::equate, crate::specs::Constraints::within))]
pub fn match_pattern(
    alloc: Global,
    p: &Pattern,
    t: &Sketch,
    positions: &Positions,
    env: &mut Vec<Local>,
    s: Store,
) -> Result<Store, NoTyping>
    ensures made { MakesLocals positions.now env.new.items result (constraints.make_match
        (pat_of p.now)
        (schemes_of positions.now) (locals_of positions.now env.old.items)
        (sketch_type positions.now t.now) (state_of positions.now s)) }
    ensures extends { OnOk result (Extends env.old.items env.new.items) }
{
    let (of, s) = pattern(alloc, p, positions, env, s)?;
    let s = becomes(alloc, t, Ok(of), positions, s)?;
    Ok(s)
}

/// The names under a pattern that matches the members of a set of that type are added to the local names.
#[tactic(auto, unfolding(crate::specs::Constraints::after, crate::specs::Constraints::equate, crate::specs::Constraints::within))]
pub fn matched_member(
    alloc: Global,
    p: &Pattern,
    t: &Sketch,
    positions: &Positions,
    env: &mut Vec<Local>,
    s: Store,
) -> Result<Store, NoTyping>
    ensures made { MakesLocals positions.now env.new.items result (constraints.matched_member
        (pat_of p.now)
        (schemes_of positions.now) (locals_of positions.now env.old.items)
        (sketch_type positions.now t.now) (state_of positions.now s)) }
    ensures extends { OnOk result (Extends env.old.items env.new.items) }
{
    let (of, s) = pattern(alloc, p, positions, env, s)?;
    let s = becomes(alloc, t, set_of(alloc, of, positions), positions, s)?;
    Ok(s)
}

/// The names under a pattern that matches the cells of an array of that rank and type are added to
/// the local names.
#[tactic(auto, unfolding(crate::specs::Constraints::after, crate::specs::Constraints::equate, crate::specs::Constraints::within))]
pub fn matched_cell(
    alloc: Global,
    q: &Pattern,
    rank: u64,
    t: &Sketch,
    positions: &Positions,
    env: &mut Vec<Local>,
    s: Store,
) -> Result<Store, NoTyping>
    ensures made { MakesLocals positions.now env.new.items result (constraints.matched_cell
        (pat_of q.now) rank
        (schemes_of positions.now) (locals_of positions.now env.old.items)
        (sketch_type positions.now t.now) (state_of positions.now s)) }
    ensures extends { OnOk result (Extends env.old.items env.new.items) }
{
    let (of, s) = pattern(alloc, q, positions, env, s)?;
    let s = becomes(alloc, t, array_of(alloc, rank, of, positions), positions, s)?;
    Ok(s)
}

/// How many parts an index has that the pattern matches: those of a tuple pattern, or one.
#[tactic(auto, using(crate::proofs::Growing::index_rank_steps))]
pub fn index_rank(p: &Pattern) -> u64
    ensures { result ≡ count_pats (axes (pat_of p.now)) }
{
    match p {
        Pattern::Bind(_) => 1,
        Pattern::Any => 1,
        Pattern::Nat(_) => 1,
        Pattern::Bool(_) => 1,
        Pattern::Text(_) => 1,
        Pattern::Name(_) => 1,
        Pattern::Row(ps) => ps.items.len() as u64,
    }
}

/// The names under a pattern that matches an index, whose parts are numbers, are added to the local names.
#[tactic(auto, unfolding(crate::specs::Constraints::after), using(crate::proofs::Growing::pattern_steps))]
pub fn matched_index(
    alloc: Global,
    p: &Pattern,
    positions: &Positions,
    env: &mut Vec<Local>,
    s: Store,
) -> Result<Store, NoTyping>
    ensures made { MakesLocals positions.now env.new.items result (constraints.matched_index (axes
        (pat_of p.now))
        (schemes_of positions.now) (locals_of positions.now env.old.items)
        (state_of positions.now s)) }
    ensures extends { OnOk result (Extends env.old.items env.new.items) }
{
    match p {
        Pattern::Bind(_) => index_part(alloc, p, positions, env, s),
        Pattern::Any => index_part(alloc, p, positions, env, s),
        Pattern::Nat(_) => index_part(alloc, p, positions, env, s),
        Pattern::Bool(_) => index_part(alloc, p, positions, env, s),
        Pattern::Text(_) => index_part(alloc, p, positions, env, s),
        Pattern::Name(_) => index_part(alloc, p, positions, env, s),
        Pattern::Row(ps) => index_parts(alloc, &ps.items, positions, env, s),
    }
}

#[tactic(auto, unfolding(crate::specs::Constraints::after))]
fn index_part(
    alloc: Global,
    p: &Pattern,
    positions: &Positions,
    env: &mut Vec<Local>,
    s: Store,
) -> Result<Store, NoTyping>
    ensures made { MakesLocals positions.now env.new.items result
        (constraints.matched_index (pat (pat_of p.now) no_pat) (schemes_of positions.now)
        (locals_of positions.now env.old.items) (state_of positions.now s)) }
    ensures extends { OnOk result (Extends env.old.items env.new.items) }
{
    let (of, s) = pattern(alloc, p, positions, env, s)?;
    let s = equal_types(alloc, &of, &Sketch::Plain(Ty::Nat), positions, s)?;
    Ok(s)
}

#[tactic(auto, unfolding(crate::specs::Constraints::after), using(crate::proofs::Growing::patterns_steps))]
fn index_parts(
    alloc: Global,
    ps: &[Pattern],
    positions: &Positions,
    env: &mut Vec<Local>,
    s: Store,
) -> Result<Store, NoTyping>
    ensures made { MakesLocals positions.now env.new.items result (constraints.matched_index
        (pats_of ps.now)
        (schemes_of positions.now) (locals_of positions.now env.old.items)
        (state_of positions.now s)) }
    ensures extends { OnOk result (Extends env.old.items env.new.items) }
{
    let mut s = s;
    for p in ps {
        let (of, then) = pattern(alloc, p, positions, env, s)?;
        s = equal_types(alloc, &of, &Sketch::Plain(Ty::Nat), positions, then)?;
    }
    Ok(s)
}
