//! What an expression asks of types, and its own type.

ghost use Rattle.std.specs.Prelude.{◌≡◌, IfOk, OnOk, length};
ghost use Rattle.aql_syntax.specs.Tree as tree;
ghost use Rattle.aql_syntax.specs.Tree.{no_qual};
ghost use Rattle.aql_syntax.specs.Typing.{with_indices};
ghost use Rattle.aql_syntax.specs.View.{pat_of, tree_of, trees_of, quals_of, qual_of, axes_in, defs_in};
ghost use Rattle.aql_infer_steps.specs.Constraints.{make, make_all, make_each, make_bounds, make_rows, make_binds};
ghost use Rattle.aql_infer.specs.Pairs.{make_two, choice_of, subscript_of, literal_of, made_at};
ghost use Rattle.aql_infer_steps.specs.View.{sketch_type, state_of, locals_of, schemes_of, types_in, Makes, Extends, MakesType, MakesState, MakesLocals};

use crate::steps::{
    arith_of, choose, comparison_of, dimensions_of, either_of, generated_of, grouped_of, headed_of,
    member_of, truth_of, truths_of, tuple_of, union_of,
};
use aql_infer_steps::fault::NoTyping;
use aql_infer_steps::names::{Local, name_type, push_local};
use aql_infer_steps::operations::{array_of, empty_set, literal, set_of, subscript};
use aql_infer_steps::patterns::{
    index_rank, match_pattern, matched_cell, matched_index, matched_member,
};
use aql_infer_steps::positions::Positions;
use aql_infer_steps::sketch::Sketch;
use aql_infer_steps::store::{Store, equal_types, new_variable, require};
use aql_syntax::ast::{Bind, Expr, LetBind, Pattern, Qual};
use aql_ty::ty::Ty;
use aql_value::Memory;
use std::alloc::Global;

/// The type of an expression, under what the earlier positions have and the local names, with what
/// it asks of the variables in it. A tree deeper than `fuel` is answered as want of memory; no tree
/// is deeper than the greatest number.
#[cycle(walk)]
#[tactic(auto, unfolding(aql_infer_steps::specs::Constraints::after))]
pub(crate) fn infer(
    alloc: Global,
    e: &Expr,
    fuel: u64,
    positions: &Positions,
    env: &mut Vec<Local>,
    s: Store,
) -> Result<(Sketch, Store), NoTyping>
    ensures made { MakesType positions.now result (made_at (make
        (tree_of e.now)) positions.now env.old.items s) }
    ensures kept { OnOk result (env.new.items ≡ env.old.items) }
{
    match fuel.checked_sub(1) {
        None => Err(NoTyping::Memory),
        Some(below) => infer_form(alloc, e, below, positions, env, s),
    }
}

// The same, where a step down is left.
#[cycle(walk)]
#[tactic(auto, unfolding(aql_infer_steps::specs::Constraints::after), using(crate::proofs::Walking::tree_steps))]
fn infer_form(
    alloc: Global,
    e: &Expr,
    fuel: u64,
    positions: &Positions,
    env: &mut Vec<Local>,
    s: Store,
) -> Result<(Sketch, Store), NoTyping>
    ensures made { MakesType positions.now result (made_at (make
        (tree_of e.now)) positions.now env.old.items s) }
    ensures kept { OnOk result (env.new.items ≡ env.old.items) }
{
    match e {
        Expr::Nat(_) => Ok((Sketch::Plain(Ty::Nat), s)),
        Expr::Bool(_) => Ok((Sketch::Plain(Ty::Bool), s)),
        Expr::Text(_) => Ok((Sketch::Plain(Ty::Text), s)),
        Expr::Name(x) => name_type(alloc, x, positions, env, s),
        Expr::Row(es) => tuple_of(
            infer_all(alloc, &es.items, fuel, positions, env, s),
            positions,
        ),
        Expr::Empty => empty_set(alloc, positions, s),
        Expr::Members(es) => infer_members(alloc, &es.items, fuel, positions, env, s),
        Expr::Comp { head, quals } => {
            infer_comprehension(alloc, head, &quals.items, fuel, positions, env, s)
        }
        Expr::Tab { body, binds } => {
            infer_tabulation(alloc, body, &binds.items, fuel, positions, env, s)
        }
        Expr::Literal { dims, cells } => {
            infer_literal(alloc, &dims.items, &cells.items, fuel, positions, env, s)
        }
        Expr::Let { binds, body } => infer_let(alloc, body, &binds.items, fuel, positions, env, s),
        Expr::Sub { array, at } => infer_subscript(
            alloc, array, &at.items, fuel, positions, env, s,
        ),
        Expr::If(c, a, b) => infer_choice(alloc, c, a, b, fuel, positions, env, s),
        Expr::And(a, b) => truths_of(
            alloc,
            infer_two(alloc, a, b, fuel, positions, env, s),
            positions,
        ),
        Expr::Or(a, b) => truths_of(
            alloc,
            infer_two(alloc, a, b, fuel, positions, env, s),
            positions,
        ),
        Expr::Not(a) => truth_of(alloc, infer(alloc, a, fuel, positions, env, s), positions),
        Expr::Compare(_, a, b) => comparison_of(
            alloc,
            infer_two(alloc, a, b, fuel, positions, env, s),
            positions,
        ),
        Expr::Arith(_, a, b) => arith_of(
            alloc,
            infer_two(alloc, a, b, fuel, positions, env, s),
            positions,
        ),
        Expr::Union(a, b) => union_of(
            alloc,
            infer_two(alloc, a, b, fuel, positions, env, s),
            positions,
        ),
        Expr::Gen(a) => generated_of(alloc, infer(alloc, a, fuel, positions, env, s), positions),
        Expr::Get(a) => member_of(alloc, infer(alloc, a, fuel, positions, env, s), positions),
        Expr::Len(a) => dimensions_of(
            alloc,
            1,
            infer(alloc, a, fuel, positions, env, s),
            positions,
        ),
        Expr::Dim { rank, array } => dimensions_of(
            alloc,
            *rank,
            infer(alloc, array, fuel, positions, env, s),
            positions,
        ),
        Expr::Index { rank, pairs } => grouped_of(
            alloc,
            *rank,
            infer(alloc, pairs, fuel, positions, env, s),
            positions,
        ),
        Expr::Apply { name, argument } => {
            let part = infer(alloc, argument, fuel, positions, env, s);
            headed_of(alloc, name, part, positions, env)
        }
        Expr::Fun {
            pattern,
            body,
            argument,
        } => infer_function(alloc, body, argument, pattern, fuel, positions, env, s),
        Expr::SumMap {
            pattern,
            body,
            over,
        } => infer_sum(alloc, body, over, pattern, fuel, positions, env, s),
        Expr::Default(a, b) => either_of(
            alloc,
            infer_two(alloc, a, b, fuel, positions, env, s),
            positions,
        ),
    }
}

// The types of two expressions.
#[cycle(walk)]
#[tactic(auto, unfolding(aql_infer_steps::specs::Constraints::after))]
fn infer_two(
    alloc: Global,
    a: &Expr,
    b: &Expr,
    fuel: u64,
    positions: &Positions,
    env: &mut Vec<Local>,
    s: Store,
) -> Result<(Sketch, Sketch, Store), NoTyping>
    ensures made { Makes (λ r. record {
      result =
          (sketch_type positions.now r.0, sketch_type positions.now r.1);
      state = state_of
          positions.now r.2;
    })
        result (made_at (make_two (tree_of a.now) (tree_of b.now)) positions.now env.old.items s) }
    ensures kept { OnOk result (env.new.items ≡ env.old.items) }
{
    let (y, s) = infer(alloc, a, fuel, positions, env, s)?;
    let (z, s) = infer(alloc, b, fuel, positions, env, s)?;
    Ok((y, z, s))
}

// The type of one of two expressions, under a test.
#[cycle(walk)]
#[tactic(auto, unfolding(aql_infer_steps::specs::Constraints::after))]
fn infer_choice(
    alloc: Global,
    c: &Expr,
    a: &Expr,
    b: &Expr,
    fuel: u64,
    positions: &Positions,
    env: &mut Vec<Local>,
    s: Store,
) -> Result<(Sketch, Store), NoTyping>
    ensures made { MakesType positions.now result
        (made_at (choice_of (tree_of c.now) (tree_of a.now) (tree_of b.now)) positions.now
        env.old.items s) }
    ensures kept { OnOk result (env.new.items ≡ env.old.items) }
{
    let (t, s) = infer(alloc, c, fuel, positions, env, s)?;
    choose(
        alloc,
        &t,
        infer_two(alloc, a, b, fuel, positions, env, s),
        positions,
    )
}

// A set of members.
#[cycle(walk)]
#[tactic(auto, unfolding(aql_infer_steps::specs::Constraints::after))]
fn infer_members(
    alloc: Global,
    es: &[Expr],
    fuel: u64,
    positions: &Positions,
    env: &mut Vec<Local>,
    s: Store,
) -> Result<(Sketch, Store), NoTyping>
    ensures made { MakesType positions.now result (made_at (make (tree.members
        (trees_of es.now))) positions.now
        env.old.items s) }
    ensures kept { OnOk result (env.new.items ≡ env.old.items) }
{
    let (t, s) = new_variable(positions, s)?;
    let s = infer_each(alloc, es, &t, fuel, positions, env, s)?;
    Ok((set_of(alloc, t, positions)?, s))
}

// A literal array.
#[cycle(walk)]
#[tactic(auto, unfolding(aql_infer_steps::specs::Constraints::after))]
fn infer_literal(
    alloc: Global,
    dims: &[Expr],
    cells: &[Expr],
    fuel: u64,
    positions: &Positions,
    env: &mut Vec<Local>,
    s: Store,
) -> Result<(Sketch, Store), NoTyping>
    ensures made { MakesType positions.now result
        (made_at (literal_of (length dims.now) (trees_of dims.now) (trees_of cells.now))
        positions.now env.old.items s) }
    ensures kept { OnOk result (env.new.items ≡ env.old.items) }
{
    let (ds, s) = infer_all(alloc, dims, fuel, positions, env, s)?;
    let (cs, s) = infer_all(alloc, cells, fuel, positions, env, s)?;
    literal(alloc, &ds, &cs, positions, s)
}

// A subscript.
#[cycle(walk)]
#[tactic(auto, unfolding(aql_infer_steps::specs::Constraints::after))]
fn infer_subscript(
    alloc: Global,
    array: &Expr,
    at: &[Expr],
    fuel: u64,
    positions: &Positions,
    env: &mut Vec<Local>,
    s: Store,
) -> Result<(Sketch, Store), NoTyping>
    ensures made { MakesType positions.now result (made_at (subscript_of (tree_of array.now)
        (trees_of at.now))
        positions.now env.old.items s) }
    ensures kept { OnOk result (env.new.items ≡ env.old.items) }
{
    let (a, s) = infer(alloc, array, fuel, positions, env, s)?;
    let (at, s) = infer_all(alloc, at, fuel, positions, env, s)?;
    subscript(alloc, &a, &at, positions, s)
}

// A comprehension.
#[cycle(walk)]
#[tactic(auto, unfolding(aql_infer_steps::specs::Constraints::after))]
fn infer_comprehension(
    alloc: Global,
    head: &Expr,
    quals: &[Qual],
    fuel: u64,
    positions: &Positions,
    env: &mut Vec<Local>,
    s: Store,
) -> Result<(Sketch, Store), NoTyping>
    ensures made { MakesType positions.now result
        (made_at (make (tree.comp (tree_of head.now) (quals_of quals.now))) positions.now
        env.old.items s) }
    ensures kept { OnOk result (env.new.items ≡ env.old.items) }
{
    let mark = env.len();
    let s = infer_rows(alloc, quals, fuel, positions, env, s)?;
    let (t, s) = infer(alloc, head, fuel, positions, env, s)?;
    env.truncate(mark);
    Ok((set_of(alloc, t, positions)?, s))
}

// A tabulation. A rank that is none has no type.
#[cycle(walk)]
#[tactic(auto, unfolding(aql_infer_steps::specs::Constraints::after), using(crate::proofs::Walking::tabulation_steps))]
fn infer_tabulation(
    alloc: Global,
    body: &Expr,
    binds: &[Bind],
    fuel: u64,
    positions: &Positions,
    env: &mut Vec<Local>,
    s: Store,
) -> Result<(Sketch, Store), NoTyping>
    ensures made { MakesType positions.now result
        (made_at (make (tree.tab (axes_in binds.now) (tree_of body.now)))
        positions.now env.old.items s) }
    ensures kept { OnOk result (env.new.items ≡ env.old.items) }
{
    let rank = binds.len() as u64;
    let s = require(1 <= rank && rank <= 8, positions, s)?;
    let s = infer_bounds(alloc, binds, fuel, positions, env, s)?;
    let mark = env.len();
    push_indices(alloc, binds, positions, env)?;
    let (t, s) = infer(alloc, body, fuel, positions, env, s)?;
    env.truncate(mark);
    Ok((array_of(alloc, rank, t, positions)?, s))
}

// What stands inside a let.
#[cycle(walk)]
#[tactic(auto, unfolding(aql_infer_steps::specs::Constraints::after))]
fn infer_let(
    alloc: Global,
    body: &Expr,
    binds: &[LetBind],
    fuel: u64,
    positions: &Positions,
    env: &mut Vec<Local>,
    s: Store,
) -> Result<(Sketch, Store), NoTyping>
    ensures made { MakesType positions.now result
        (made_at (make (tree.bindings (defs_in binds.now) (tree_of body.now))) positions.now
        env.old.items s) }
    ensures kept { OnOk result (env.new.items ≡ env.old.items) }
{
    let mark = env.len();
    let s = infer_binds(alloc, binds, fuel, positions, env, s)?;
    let (t, s) = infer(alloc, body, fuel, positions, env, s)?;
    env.truncate(mark);
    Ok((t, s))
}

// An application of a function written in place.
#[cycle(walk)]
#[tactic(auto, unfolding(aql_infer_steps::specs::Constraints::after))]
fn infer_function(
    alloc: Global,
    body: &Expr,
    argument: &Expr,
    pattern: &Pattern,
    fuel: u64,
    positions: &Positions,
    env: &mut Vec<Local>,
    s: Store,
) -> Result<(Sketch, Store), NoTyping>
    ensures made { MakesType positions.now result
        (made_at (make (tree.function (pat_of pattern.now) (tree_of body.now)
        (tree_of argument.now))) positions.now env.old.items s) }
    ensures kept { OnOk result (env.new.items ≡ env.old.items) }
{
    let (y, s) = infer(alloc, argument, fuel, positions, env, s)?;
    let mark = env.len();
    let s = match_pattern(alloc, pattern, &y, positions, env, s)?;
    let (t, s) = infer(alloc, body, fuel, positions, env, s)?;
    env.truncate(mark);
    Ok((t, s))
}

// A sum over a set.
#[cycle(walk)]
#[tactic(auto, unfolding(aql_infer_steps::specs::Constraints::after))]
fn infer_sum(
    alloc: Global,
    body: &Expr,
    over: &Expr,
    pattern: &Pattern,
    fuel: u64,
    positions: &Positions,
    env: &mut Vec<Local>,
    s: Store,
) -> Result<(Sketch, Store), NoTyping>
    ensures made { MakesType positions.now result
        (made_at (make (tree.summap (pat_of pattern.now) (tree_of body.now) (tree_of over.now)))
        positions.now env.old.items s) }
    ensures kept { OnOk result (env.new.items ≡ env.old.items) }
{
    let (y, s) = infer(alloc, over, fuel, positions, env, s)?;
    let mark = env.len();
    let s = matched_member(alloc, pattern, &y, positions, env, s)?;
    let (t, s) = infer(alloc, body, fuel, positions, env, s)?;
    env.truncate(mark);
    let s = equal_types(alloc, &t, &Sketch::Plain(Ty::Nat), positions, s)?;
    Ok((Sketch::Plain(Ty::Nat), s))
}

// The types of expressions, one by one.
#[cycle(walk)]
#[tactic(auto, unfolding(aql_infer_steps::specs::Constraints::after), using(crate::proofs::Walking::all_steps))]
fn infer_all(
    alloc: Global,
    es: &[Expr],
    fuel: u64,
    positions: &Positions,
    env: &mut Vec<Local>,
    s: Store,
) -> Result<(Vec<Sketch>, Store), NoTyping>
    ensures made { Makes
        (λ r. record {
          result = types_in positions.now r.0.items;
          state = state_of positions.now r.1;
        }) result
        (made_at (make_all (trees_of es.now)) positions.now env.old.items s) }
    ensures kept { OnOk result (env.new.items ≡ env.old.items) }
    ensures count { IfOk result (λ r. length r.0.items ≡ length es.now) }
{
    let mut s = s;
    let mut made = Vec::new(alloc);
    for e in es {
        let (t, then) = infer(alloc, e, fuel, positions, env, s)?;
        made.push(t)?;
        s = then;
    }
    Ok((made, s))
}

// Each expression is to have that type.
#[cycle(walk)]
#[tactic(auto, unfolding(aql_infer_steps::specs::Constraints::after), using(crate::proofs::Walking::all_steps))]
fn infer_each(
    alloc: Global,
    es: &[Expr],
    t: &Sketch,
    fuel: u64,
    positions: &Positions,
    env: &mut Vec<Local>,
    s: Store,
) -> Result<Store, NoTyping>
    ensures made { MakesState positions.now result (make_each (trees_of es.now)
        (schemes_of positions.now)
        (locals_of positions.now env.old.items) (sketch_type positions.now t.now)
        (state_of positions.now s)) }
    ensures kept { OnOk result (env.new.items ≡ env.old.items) }
{
    let mut s = s;
    for e in es {
        let (y, then) = infer(alloc, e, fuel, positions, env, s)?;
        s = equal_types(alloc, &y, t, positions, then)?;
    }
    Ok(s)
}

// The bounds of a tabulation are to be numbers.
#[cycle(walk)]
#[tactic(auto, unfolding(aql_infer_steps::specs::Constraints::after), using(aql_syntax::specs::Laws::View::axes_steps))]
fn infer_bounds(
    alloc: Global,
    binds: &[Bind],
    fuel: u64,
    positions: &Positions,
    env: &mut Vec<Local>,
    s: Store,
) -> Result<Store, NoTyping>
    ensures made { MakesState positions.now result (made_at (make_bounds
        (axes_in binds.now)) positions.now
        env.old.items s) }
    ensures kept { OnOk result (env.new.items ≡ env.old.items) }
{
    let mut s = s;
    for b in binds {
        let (y, then) = infer(alloc, &b.bound, fuel, positions, env, s)?;
        s = equal_types(alloc, &y, &Sketch::Plain(Ty::Nat), positions, then)?;
    }
    Ok(s)
}

// The names that qualifiers bind are added to the local names.
#[cycle(walk)]
#[tactic(auto, unfolding(aql_infer_steps::specs::Constraints::after), using(crate::proofs::Walking::rows_steps))]
fn infer_rows(
    alloc: Global,
    quals: &[Qual],
    fuel: u64,
    positions: &Positions,
    env: &mut Vec<Local>,
    s: Store,
) -> Result<Store, NoTyping>
    ensures made { MakesLocals positions.now env.new.items result (made_at (make_rows
        (quals_of quals.now))
        positions.now env.old.items s) }
    ensures extends { OnOk result (Extends env.old.items env.new.items) }
{
    let mut s = s;
    for q in quals {
        match infer_row(alloc, q, fuel, positions, env, s) {
            Ok(then) => s = then,
            Err(fault) => return Err(fault),
        }
    }
    Ok(s)
}

#[cycle(walk)]
#[tactic(auto, unfolding(aql_infer_steps::specs::Constraints::after), using(crate::proofs::Walking::row_steps))]
fn infer_row(
    alloc: Global,
    q: &Qual,
    fuel: u64,
    positions: &Positions,
    env: &mut Vec<Local>,
    s: Store,
) -> Result<Store, NoTyping>
    ensures made { MakesLocals positions.now env.new.items result (made_at (make_rows
        (qual_of q.now no_qual))
        positions.now env.old.items s) }
    ensures extends { OnOk result (Extends env.old.items env.new.items) }
{
    match q {
        Qual::From { pattern, over } => {
            let (y, s) = infer(alloc, over, fuel, positions, env, s)?;
            matched_member(alloc, pattern, &y, positions, env, s)
        }
        Qual::Cells { index, cell, over } => {
            let (y, s) = infer(alloc, over, fuel, positions, env, s)?;
            let s = matched_index(alloc, index, positions, env, s)?;
            matched_cell(alloc, cell, index_rank(index), &y, positions, env, s)
        }
        Qual::Match { pattern, of } => {
            let (y, s) = infer(alloc, of, fuel, positions, env, s)?;
            match_pattern(alloc, pattern, &y, positions, env, s)
        }
        Qual::Test(e) => {
            let (y, s) = infer(alloc, e, fuel, positions, env, s)?;
            let s = equal_types(alloc, &y, &Sketch::Plain(Ty::Bool), positions, s)?;
            Ok(s)
        }
    }
}

// The names that the bindings of a let bind are added to the local names.
#[cycle(walk)]
#[tactic(auto, unfolding(aql_infer_steps::specs::Constraints::after), using(crate::proofs::Walking::binds_steps))]
fn infer_binds(
    alloc: Global,
    binds: &[LetBind],
    fuel: u64,
    positions: &Positions,
    env: &mut Vec<Local>,
    s: Store,
) -> Result<Store, NoTyping>
    ensures made { MakesLocals positions.now env.new.items result (made_at (make_binds
        (defs_in binds.now))
        positions.now env.old.items s) }
    ensures extends { OnOk result (Extends env.old.items env.new.items) }
{
    let mut s = s;
    for b in binds {
        let (y, then) = infer(alloc, &b.expr, fuel, positions, env, s)?;
        s = match_pattern(alloc, &b.pattern, &y, positions, env, then)?;
    }
    Ok(s)
}

// The indices of a tabulation, which are numbers, are added to the local names.
#[tactic(auto, using(crate::proofs::Walking::indices_steps))]
fn push_indices(
    alloc: Global,
    binds: &[Bind],
    positions: &Positions,
    env: &mut Vec<Local>,
) -> Result<(), Memory>
    ensures names { OnOk result (locals_of positions.now env.new.items ≡ with_indices
        (axes_in binds.now)
        (locals_of positions.now env.old.items)) }
    ensures extends { OnOk result (Extends env.old.items env.new.items) }
{
    for b in binds {
        push_local(alloc, &b.name, &Sketch::Plain(Ty::Nat), positions, env)?;
    }
    Ok(())
}
