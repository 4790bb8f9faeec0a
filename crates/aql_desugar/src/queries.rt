//! The terms of expressions.

ghost use Rattle.std.specs.Prelude.{◌≡◌, length, take, map, OnOk, IfOk, Some};
ghost use Rattle.aql_syntax.specs.Names as surface_names;
ghost use Rattle.aql_syntax.specs.View.{tree_of, trees_of, quals_of, axes_in, defs_in, pat_of, pats_of, decl_of};
ghost use Rattle.aql_syntax.specs.Tree.{axes};
ghost use Rattle.nrca_term.specs.Nodes.{let_term, empty_term};
ghost use Rattle.nrca_term.specs.Term.{Term};
ghost use Rattle.nrca_term.specs.View.{term_of};
ghost use Rattle.aql_desugar_spec.specs.Start as start_term;
ghost use Rattle.aql_desugar_spec.specs.Start.{matching, starts, bound_terms, under_axes, quals_term, defs_term, array_term};
ghost use Rattle.aql_desugar.specs.Names.{missing_term, binders_in, knowns_in, Enters, IsTermIn};

use crate::arrays::{enter_axes, hide, walk};
use crate::matches::{Missing, add_numbers, close, name_term, open};
use crate::names::index_of;
use crate::nodes::{
    arith, big_union, choose, compare, conjunction, default, dim, disjunction, generate, get,
    guard, index, let_in, literal, single, sub, sum, tab, text, tuple, union,
};
use crate::positions::{Earlier, find};
use crate::unions::unite;
use aql_syntax::ast::{Bind, Decl, Expr, LetBind, Pattern, Qual};
use aql_syntax::build::{bindings_in, indices_in};
use aql_value::made::both;
use aql_value::{Memory, Str};
use nrca_term::Core;
use std::alloc::Global;
use std::slice;

/// The start term of an expression after these declarations, under the names and, around them, `base` variables
/// without a name. Where memory is wanting for a part, those after it are still tried, under whatever names it left, and
/// the answer is `Memory` all the same.
#[cycle(start)]
pub fn start<'a>(
    alloc: Global,
    e: &'a Expr,
    earlier: &Earlier<'a>,
    base: u64,
    names: &mut Vec<Option<&'a Str>>,
) -> Result<Core, Memory>
    ensures made { IfOk result (IsTermIn (start_term.start (tree_of e.now)) earlier.now
        names.old.items base) }
    ensures kept { OnOk result (names.new.items ≡ names.old.items) }
{
    match e {
        Expr::Nat(n) => Ok(Core::Nat(*n)),
        Expr::Bool(b) => Ok(Core::Bool(*b)),
        Expr::Text(s) => text(s.copy(alloc)),
        Expr::Name(x) => Ok(name_term(x, earlier, names)),
        Expr::Row(es) => tuple(all(alloc, &es.items, earlier, base, names)),
        Expr::Empty => Ok(Core::Empty),
        Expr::Members(es) => unite(alloc, all(alloc, &es.items, earlier, base, names)),
        Expr::Comp { head, quals } => {
            comprehend(alloc, &quals.items, head, earlier, base, names)
        }
        Expr::Tab { body, binds } => {
            let axes = indices_in(binds);
            let limits = bounds(alloc, axes, earlier, base, names);
            let inner = index_body(alloc, axes, body, earlier, base, names);
            tab(alloc, limits, inner)
        }
        Expr::Literal { dims, cells } => {
            let dims = all(alloc, &dims.items, earlier, base, names);
            literal(dims, all(alloc, &cells.items, earlier, base, names))
        }
        Expr::Let { binds, body } => {
            let defs = bindings_in(binds);
            bind_all(alloc, defs, body, earlier, base, names)
        }
        Expr::Sub { array, at } => {
            let array = start(alloc, array, earlier, base, names);
            let at = all(alloc, &at.items, earlier, base, names);
            sub(alloc, array, at)
        }
        Expr::If(c, a, b) => {
            let test = start(alloc, c, earlier, base, names);
            choose(alloc, test, pair(alloc, a, b, earlier, base, names))
        }
        Expr::And(a, b) => conjunction(alloc, pair(alloc, a, b, earlier, base, names)),
        Expr::Or(a, b) => disjunction(alloc, pair(alloc, a, b, earlier, base, names)),
        Expr::Not(a) => {
            let test = start(alloc, a, earlier, base, names);
            choose(alloc, test, Ok((Core::Bool(false), Core::Bool(true))))
        }
        Expr::Compare(op, a, b) => compare(alloc, *op, pair(alloc, a, b, earlier, base, names)),
        Expr::Arith(op, a, b) => arith(alloc, *op, pair(alloc, a, b, earlier, base, names)),
        Expr::Union(a, b) => union(alloc, pair(alloc, a, b, earlier, base, names)),
        Expr::Gen(a) => generate(alloc, start(alloc, a, earlier, base, names)),
        Expr::Get(a) => get(alloc, start(alloc, a, earlier, base, names)),
        Expr::Len(a) => dim(alloc, 1, start(alloc, a, earlier, base, names)),
        Expr::Dim { rank, array } => dim(alloc, *rank, start(alloc, array, earlier, base, names)),
        Expr::Index { rank, pairs } => index(
            alloc,
            *rank,
            start(alloc, pairs, earlier, base, names),
        ),
        Expr::Apply { name, argument } => {
            let a = start(alloc, argument, earlier, base, names);
            let_in(alloc, a, call(alloc, name, earlier, base, names))
        }
        Expr::Fun {
            pattern,
            body,
            argument,
        } => {
            let a = start(alloc, argument, earlier, base, names);
            let body = match_body(alloc, pattern, body, earlier, base, names);
            let_in(alloc, a, body)
        }
        Expr::SumMap {
            pattern,
            body,
            over,
        } => {
            let a = start(alloc, over, earlier, base, names);
            let body = match_body(alloc, pattern, body, earlier, base, names);
            sum(alloc, a, body)
        }
        Expr::Default(a, b) => default(alloc, pair(alloc, a, b, earlier, base, names)),
    }
}

// The terms of two expressions.
#[cycle(start)]
fn pair<'a>(
    alloc: Global,
    a: &'a Expr,
    b: &'a Expr,
    earlier: &Earlier<'a>,
    base: u64,
    names: &mut Vec<Option<&'a Str>>,
) -> Result<(Core, Core), Memory>
    ensures first { IfOk result (λ x. IsTermIn (start_term.start (tree_of a.now)) earlier.now
        names.old.items base x.0) }
    ensures second { IfOk result (λ x. IsTermIn (start_term.start (tree_of b.now)) earlier.now
        names.old.items base x.1) }
    ensures kept { OnOk result (names.new.items ≡ names.old.items) }
{
    let a = start(alloc, a, earlier, base, names)?;
    let (a, b) = both(Ok(a), start(alloc, b, earlier, base, names))?;
    Ok((a, b))
}

// The terms of a list.
#[cycle(start)]
#[tactic(auto, using(aql_syntax::specs::Laws::View::trees_steps))]
fn all<'a>(
    alloc: Global,
    es: &'a [Expr],
    earlier: &Earlier<'a>,
    base: u64,
    names: &mut Vec<Option<&'a Str>>,
) -> Result<Vec<Core>, Memory>
    ensures made { IfOk result (λ ts. map term_of ts.items ≡ starts (trees_of es.now)
        (knowns_in earlier.now) (binders_in names.old.items base)) }
    ensures kept { OnOk result (names.new.items ≡ names.old.items) }
{
    let mut made = Vec::new(alloc);
    for e in es {
        let term = start(alloc, e, earlier, base, names)?;
        made.push(term)?;
    }
    Ok(made)
}

// The bounds of a tabulation.
#[cycle(start)]
#[tactic(auto, using(aql_syntax::specs::Laws::View::axes_steps))]
fn bounds<'a>(
    alloc: Global,
    binds: &'a [Bind],
    earlier: &Earlier<'a>,
    base: u64,
    names: &mut Vec<Option<&'a Str>>,
) -> Result<Vec<Core>, Memory>
    ensures made { IfOk result (λ ts. map term_of ts.items ≡ bound_terms (axes_in binds.now)
        (knowns_in earlier.now) (binders_in names.old.items base)) }
    ensures kept { OnOk result (names.new.items ≡ names.old.items) }
{
    let mut made = Vec::new(alloc);
    for b in binds {
        let term = start(alloc, &b.bound, earlier, base, names)?;
        made.push(term)?;
    }
    Ok(made)
}

// Puts on the indices of a tabulation.
fn enter_binds<'a>(binds: &'a [Bind], names: &mut Vec<Option<&'a Str>>) -> Result<(), Memory>
    ensures inside { OnOk result (Enters (under_axes (axes_in binds.now)) names.old.items
        names.new.items) }
    ensures around { OnOk result (take (length names.old.items) names.new.items ≡ names.old.items) }
{
    for b in binds {
        names.push(Some(&b.name))?;
    }
    Ok(())
}

// The body of a tabulation, under its indices.
#[cycle(start)]
fn index_body<'a>(
    alloc: Global,
    binds: &'a [Bind],
    body: &'a Expr,
    earlier: &Earlier<'a>,
    base: u64,
    names: &mut Vec<Option<&'a Str>>,
) -> Result<Core, Memory>
    ensures made { IfOk result (λ c. term_of c ≡ start_term.start (tree_of body.now)
        (knowns_in earlier.now)
        (under_axes (axes_in binds.now) (binders_in names.old.items base))) }
    ensures kept { OnOk result (names.new.items ≡ names.old.items) }
{
    let mark = names.len();
    enter_binds(binds, names)?;
    let inner = start(alloc, body, earlier, base, names)?;
    names.truncate(mark);
    Ok(inner)
}

// A body under the match of the variable that the node around it binds.
#[cycle(start)]
fn match_body<'a>(
    alloc: Global,
    p: &'a Pattern,
    body: &'a Expr,
    earlier: &Earlier<'a>,
    base: u64,
    names: &mut Vec<Option<&'a Str>>,
) -> Result<Core, Memory>
    ensures made { IfOk result (λ c. term_of c ≡ matching (pat_of p.now) (knowns_in earlier.now)
        (binders_in names.old.items base) (start_term.start (tree_of body.now)
        (knowns_in earlier.now)) (missing_term Missing.Undefined)) }
    ensures kept { OnOk result (names.new.items ≡ names.old.items) }
{
    let mark = names.len();
    open(p, names)?;
    let term = start(alloc, body, earlier, base, names)?;
    close(alloc, p, earlier, names, mark, term, Missing::Undefined)
}

// What a name in head position stands for, under the variable of its argument.
#[cycle(start)]
fn call<'a>(
    alloc: Global,
    name: &Str,
    earlier: &Earlier<'a>,
    base: u64,
    names: &[Option<&Str>],
) -> Result<Core, Memory>
    ensures { IfOk result (λ c. term_of c ≡ start_term.call_term
        (start_term.index_of name.now (binders_in names.now base))
        (surface_names.find name.now (knowns_in earlier.now))
        (length (binders_in names.now base))) }
{
    match index_of(names, name) {
        Some(_) => Ok(Core::Bottom),
        None => {
            let depth = add_numbers(base, names.len() as u64)?;
            expand(alloc, name, earlier, depth)
        }
    }
}

// A macro's body under the match of its argument, which is the innermost of `depth` variables without a name and one more.
#[cycle(start)]
fn expand<'a>(alloc: Global, name: &Str, earlier: &Earlier<'a>, depth: u64) -> Result<Core, Memory>
    ensures { IfOk result (λ c. term_of c ≡ start_term.macro_term
        (surface_names.find name.now (knowns_in earlier.now)) depth) }
{
    match find(name, earlier) {
        None => Ok(Core::Bottom),
        Some((d, before)) => match d {
            Decl::Val { name: _, expr: _ } => Ok(Core::Bottom),
            Decl::Macro {
                name: _,
                pattern,
                body,
            } => {
                let mut names = Vec::new(alloc);
                let made = match_body(alloc, pattern, body, &before, depth, &mut names)?;
                Ok(made)
            }
            Decl::Read {
                name: _,
                reader: _,
                expr: _,
            } => Ok(Core::Bottom),
            Decl::Bare { expr: _ } => Ok(Core::Bottom),
        },
    }
}

// Qualifiers around the set of the head.
#[cycle(start)]
fn comprehend<'a>(
    alloc: Global,
    quals: &'a [Qual],
    head: &'a Expr,
    earlier: &Earlier<'a>,
    base: u64,
    names: &mut Vec<Option<&'a Str>>,
) -> Result<Core, Memory>
    ensures made { IfOk result (λ c. term_of c ≡ quals_term (quals_of quals.now)
        (start_term.start (tree_of head.now) (knowns_in earlier.now)) (knowns_in earlier.now)
        (binders_in names.old.items base)) }
    ensures kept { OnOk result (names.new.items ≡ names.old.items) }
{
    match quals.split_first() {
        None => single(alloc, start(alloc, head, earlier, base, names)),
        Some((q, rest)) => match q {
            Qual::From { pattern, over } => {
                let members = start(alloc, over, earlier, base, names);
                let body = match_qualifiers(alloc, pattern, rest, head, earlier, base, names);
                big_union(alloc, members, body)
            }
            Qual::Cells { index, cell, over } => {
                let array = start(alloc, over, earlier, base, names);
                let ps = index_parts(index);
                let walked = grid(alloc, ps, cell, rest, head, earlier, base, names);
                let_in(alloc, array, walked)
            }
            Qual::Match { pattern, of } => {
                let value = start(alloc, of, earlier, base, names);
                let body = match_qualifiers(alloc, pattern, rest, head, earlier, base, names);
                let_in(alloc, value, body)
            }
            Qual::Test(e) => {
                let test = start(alloc, e, earlier, base, names);
                let body = comprehend(alloc, rest, head, earlier, base, names);
                guard(alloc, test, body)
            }
        },
    }
}

// The patterns of the parts of an index: those of a tuple pattern, or any other pattern alone.
#[tactic(auto, using(aql_syntax::specs::Laws::View::pat_of_row))]
fn index_parts(index: &Pattern) -> &[Pattern]
    ensures { pats_of result.now ≡ axes (pat_of index.now) }
{
    match index {
        Pattern::Bind(_) => slice::from_ref(index),
        Pattern::Any => slice::from_ref(index),
        Pattern::Nat(_) => slice::from_ref(index),
        Pattern::Bool(_) => slice::from_ref(index),
        Pattern::Text(_) => slice::from_ref(index),
        Pattern::Name(_) => slice::from_ref(index),
        Pattern::Row(ps) => &ps.items,
    }
}

// Qualifiers under the match of the variable that the node around them binds.
#[cycle(start)]
fn match_qualifiers<'a>(
    alloc: Global,
    p: &'a Pattern,
    rest: &'a [Qual],
    head: &'a Expr,
    earlier: &Earlier<'a>,
    base: u64,
    names: &mut Vec<Option<&'a Str>>,
) -> Result<Core, Memory>
    ensures made { IfOk result (λ c. term_of c ≡ matching (pat_of p.now) (knowns_in earlier.now)
        (binders_in names.old.items base) (quals_term (quals_of rest.now)
        (start_term.start (tree_of head.now) (knowns_in earlier.now)) (knowns_in earlier.now))
        (missing_term Missing.Empty)) }
    ensures kept { OnOk result (names.new.items ≡ names.old.items) }
{
    let mark = names.len();
    open(p, names)?;
    let term = comprehend(alloc, rest, head, earlier, base, names)?;
    close(alloc, p, earlier, names, mark, term, Missing::Empty)
}

// The loops over the array in the variable that the node around them binds, whose index parts match ps and whose cells match p.
#[cycle(start)]
fn grid<'a>(
    alloc: Global,
    ps: &'a [Pattern],
    p: &'a Pattern,
    rest: &'a [Qual],
    head: &'a Expr,
    earlier: &Earlier<'a>,
    base: u64,
    names: &mut Vec<Option<&'a Str>>,
) -> Result<Core, Memory>
    ensures made { IfOk result (λ c. (array : Term) → let_term array (term_of c) ≡ array_term
        (pats_of ps.now) (knowns_in earlier.now) (binders_in names.old.items base) array
        (λ inner. matching (pat_of p.now) (knowns_in earlier.now) inner
        (quals_term (quals_of rest.now) (start_term.start (tree_of head.now)
        (knowns_in earlier.now)) (knowns_in earlier.now)) empty_term) empty_term) }
    ensures kept { OnOk result (names.new.items ≡ names.old.items) }
{
    let mark = names.len();
    names.push(None)?;
    hide(names, ps.len())?;
    let low = names.len();
    enter_axes(ps, names)?;
    let added = (names.len() - low) as u64;
    let body = match_qualifiers(alloc, p, rest, head, earlier, base, names)?;
    let walked = walk(alloc, ps, earlier, names, low, added, body)?;
    names.truncate(mark);
    Ok(walked)
}

// The bindings of a let around its body.
#[cycle(start)]
fn bind_all<'a>(
    alloc: Global,
    binds: &'a [LetBind],
    body: &'a Expr,
    earlier: &Earlier<'a>,
    base: u64,
    names: &mut Vec<Option<&'a Str>>,
) -> Result<Core, Memory>
    ensures made { IfOk result (λ c. term_of c ≡ defs_term (defs_in binds.now)
        (start_term.start (tree_of body.now) (knowns_in earlier.now)) (knowns_in earlier.now)
        (binders_in names.old.items base)) }
    ensures kept { OnOk result (names.new.items ≡ names.old.items) }
{
    match binds.split_first() {
        None => { start(alloc, body, earlier, base, names) }
        Some((b, rest)) => {
            let value = start(alloc, &b.expr, earlier, base, names);
            let matched = bind_rest(alloc, &b.pattern, rest, body, earlier, base, names);
            let_in(alloc, value, matched)
        }
    }
}

// The further bindings of a let under the match of the variable that the node around them binds.
#[cycle(start)]
fn bind_rest<'a>(
    alloc: Global,
    p: &'a Pattern,
    rest: &'a [LetBind],
    body: &'a Expr,
    earlier: &Earlier<'a>,
    base: u64,
    names: &mut Vec<Option<&'a Str>>,
) -> Result<Core, Memory>
    ensures made { IfOk result (λ c. term_of c ≡ matching (pat_of p.now) (knowns_in earlier.now)
        (binders_in names.old.items base)
        (defs_term (defs_in rest.now) (start_term.start (tree_of body.now) (knowns_in earlier.now))
        (knowns_in earlier.now)) (missing_term Missing.Undefined)) }
    ensures kept { OnOk result (names.new.items ≡ names.old.items) }
{
    let mark = names.len();
    open(p, names)?;
    let term = bind_all(alloc, rest, body, earlier, base, names)?;
    close(alloc, p, earlier, names, mark, term, Missing::Undefined)
}
