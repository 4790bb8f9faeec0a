//! The trees that constants stand for.

ghost use Rattle.std.specs.Prelude.{◌≡◌, IfOk};
ghost use Rattle.aql_syntax.specs.Tree.{Quals};
ghost use Rattle.aql_syntax.specs.View.{pat_of, tree_of, qual_of, decl_of, decls_of};
ghost use Rattle.aql_prelude.specs.Constants.{pat_of_constant, tree_of_constant, qual_of_constant, decl_of_constant, decls_of_constants};

use crate::constants::{ConstExpr, ConstMacro, ConstPattern, ConstQual};
use aql_syntax::ast::{Bind, Decl, Expr, Pattern, Qual};
use aql_syntax::build::tuple_pattern;
use aql_syntax::nodes::{
    Functional, application, choice, function, make_comprehension, make_negation, make_subscript,
    make_tabulation, on_one, on_two, tuple,
};
use aql_value::made::{both, make_box, make_list, make_pair_list};
use aql_value::{Memory, Str};
use std::alloc::Global;

fn text(alloc: Global, content: &[u8]) -> Result<Str, Memory>
    ensures { IfOk result (λ s. s ≡ content.now) }
{
    let mut bytes = Vec::new(alloc);
    bytes.extend_from_slice(content)?;
    Ok(Str { bytes })
}

fn make_pattern(alloc: Global, constant: &ConstPattern) -> Result<Pattern, Memory>
    ensures { IfOk result (λ p. pat_of p ≡ pat_of_constant constant.now) }
{
    match constant {
        ConstPattern::Any => Ok(Pattern::Any),
        ConstPattern::Bind(x) => Ok(Pattern::Bind(text(alloc, x)?)),
        ConstPattern::Name(x) => Ok(Pattern::Name(text(alloc, x)?)),
        ConstPattern::Pair(p, q) => {
            let items = make_pair_list(alloc, make_pattern(alloc, p), make_pattern(alloc, q))?;
            Ok(tuple_pattern(items))
        }
        ConstPattern::Triple(p, q, r) => {
            let items = make_pair_list(alloc, make_pattern(alloc, p), make_pattern(alloc, q));
            let (mut items, r) = both(items, make_pattern(alloc, r))?;
            items.push(r)?;
            Ok(tuple_pattern(items))
        }
    }
}

/// The declarations of macros, in order.
#[tactic(auto, using(crate::proofs::Declaring::declaring))]
pub(crate) fn declare_all(alloc: Global, constants: &[ConstMacro]) -> Result<Vec<Decl>, Memory>
    ensures { IfOk result (λ made. decls_of made.items ≡ decls_of_constants constants.now) }
{
    let mut made = Vec::new(alloc);
    for constant in constants {
        let decl = declare(alloc, constant)?;
        made.push(decl)?;
    }
    Ok(made)
}

fn declare(alloc: Global, constant: &ConstMacro) -> Result<Decl, Memory>
    ensures { IfOk result (λ d. decl_of d ≡ decl_of_constant constant.now) }
{
    let pattern = make_pattern(alloc, &constant.pattern);
    let parts = both(pattern, make_expr(alloc, &constant.body));
    let (name, (pattern, body)) = both(text(alloc, constant.name), parts)?;
    Ok(Decl::Macro {
        name,
        pattern,
        body,
    })
}

#[cycle(constant)]
fn make_expr(alloc: Global, constant: &ConstExpr) -> Result<Expr, Memory>
    ensures { IfOk result (λ e. tree_of e ≡ tree_of_constant constant.now) }
{
    match constant {
        ConstExpr::Name(x) => Ok(Expr::Name(text(alloc, x)?)),
        ConstExpr::Nat(n) => Ok(Expr::Nat(*n)),
        ConstExpr::Empty => Ok(Expr::Empty),
        ConstExpr::Pair(a, b) => tuple(make_pair_list(
            alloc,
            make_expr(alloc, a),
            make_expr(alloc, b),
        )),
        ConstExpr::Operator(op, a, b) => on_two(*op, boxed(alloc, a), boxed(alloc, b)),
        ConstExpr::Operation(op, a) => on_one(*op, boxed(alloc, a)),
        ConstExpr::Not(a) => make_negation(boxed(alloc, a)),
        ConstExpr::If(c, a, b) => choice(boxed(alloc, c), boxed(alloc, a), boxed(alloc, b)),
        ConstExpr::Apply(f, a) => application(text(alloc, f), boxed(alloc, a)),
        ConstExpr::Sum(p, body, over) => function(
            Functional::Sum,
            make_pattern(alloc, p),
            boxed(alloc, body),
            boxed(alloc, over),
        ),
        ConstExpr::Comp(head, q) => {
            make_comprehension(boxed(alloc, head), make_list(alloc, make_qual(alloc, q)))
        }
        ConstExpr::CompOfTwo(head, q, r) => {
            let quals = make_pair_list(alloc, make_qual(alloc, q), make_qual(alloc, r));
            make_comprehension(boxed(alloc, head), quals)
        }
        ConstExpr::Tab(body, i, bound) => {
            let binds = make_list(alloc, make_bind(alloc, i, bound));
            make_tabulation(boxed(alloc, body), binds)
        }
        ConstExpr::TabOfTwo(body, i, outer, j, inner) => {
            let first = make_bind(alloc, i, outer);
            let binds = make_pair_list(alloc, first, make_bind(alloc, j, inner));
            make_tabulation(boxed(alloc, body), binds)
        }
        ConstExpr::Cell(a, i) => {
            make_subscript(boxed(alloc, a), make_list(alloc, make_expr(alloc, i)))
        }
        ConstExpr::CellOfTwo(a, i, j) => {
            let at = make_pair_list(alloc, make_expr(alloc, i), make_expr(alloc, j));
            make_subscript(boxed(alloc, a), at)
        }
    }
}

#[cycle(constant)]
fn boxed(alloc: Global, constant: &ConstExpr) -> Result<Box<Expr>, Memory>
    ensures { IfOk result (λ e. tree_of e.value ≡ tree_of_constant constant.now) }
{
    make_box(alloc, make_expr(alloc, constant))
}

#[cycle(constant)]
fn make_bind(alloc: Global, name: &[u8], bound: &ConstExpr) -> Result<Bind, Memory>
    ensures { IfOk result (λ b. (b.name ≡ name.now)
        × (tree_of b.bound ≡ tree_of_constant bound.now)) }
{
    let (name, bound) = both(text(alloc, name), make_expr(alloc, bound))?;
    Ok(Bind { name, bound })
}

#[cycle(constant)]
fn make_qual(alloc: Global, constant: &ConstQual) -> Result<Qual, Memory>
    ensures { IfOk result (λ q. (rest : Quals) → qual_of q rest ≡ qual_of_constant constant.now
        rest) }
{
    match constant {
        ConstQual::From(p, e) => {
            let (pattern, over) = both(make_pattern(alloc, p), make_expr(alloc, e))?;
            Ok(Qual::From { pattern, over })
        }
        ConstQual::Cells(p, q, e) => {
            let patterns = both(make_pattern(alloc, p), make_pattern(alloc, q));
            let ((index, cell), over) = both(patterns, make_expr(alloc, e))?;
            Ok(Qual::Cells { index, cell, over })
        }
        ConstQual::Test(e) => {
            let e = make_expr(alloc, e)?;
            Ok(Qual::Test(e))
        }
    }
}
