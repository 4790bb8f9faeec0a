//! Expressions of parts, and of parts as they were made, where memory may have been wanting for one.
//!
//! `apply_operator`, `apply_operation` and `function_in_place` make an expression of its parts. The others take their parts as they were made, so
//! that no early end of the caller stands between two of them.

ghost use Rattle.std.specs.Prelude.{◌≡◌, IfOk, IsOkAnd};
ghost use Rattle.aql_value.specs.Strict.{Strict};
ghost use Rattle.aql_syntax.specs.Tree as tree;
ghost use Rattle.aql_syntax.specs.Tree.{count_trees, append};
ghost use Rattle.aql_syntax.specs.View.{tree_of, trees_of, quals_of, axes_in, defs_in, pat_of, of_one};
ghost use Rattle.aql_syntax.specs.Nodes.{operation_form, joined_of, functional_of};

use crate::ast::{Bind, Expr, LetBind, Pattern, Qual};
use crate::build::{comprehension, let_in, literal, members, row, subscript, tabulation};
use aql_value::made::both;
use aql_value::{ArithOp, CompareOp, Memory, Str};

/// An operator between two expressions.
#[derive(Clone, Copy)]
pub enum Operator {
    Arith(ArithOp),
    Union,
    Compare(CompareOp),
    And,
    Or,
}

/// An operation on one part, that a reserved word in head position names.
#[derive(Clone, Copy)]
pub enum Operation {
    Gen,
    Get,
    Dim(u64),
    Index(u64),
}

/// A function written in place, or a sum over one.
#[derive(Clone, Copy)]
pub enum Functional {
    Plain,
    Sum,
}

/// An operator applied.
pub fn apply_operator(operator: Operator, left: Box<Expr>, right: Box<Expr>) -> Expr
    ensures { tree_of result ≡ joined_of operator (tree_of left.value) (tree_of right.value) }
{
    match operator {
        Operator::Arith(op) => Expr::Arith(op, left, right),
        Operator::Union => Expr::Union(left, right),
        Operator::Compare(op) => Expr::Compare(op, left, right),
        Operator::And => Expr::And(left, right),
        Operator::Or => Expr::Or(left, right),
    }
}

/// An operation applied.
pub fn apply_operation(operation: Operation, part: Box<Expr>) -> Expr
    ensures { tree_of result ≡ of_one (operation_form operation) (tree_of part.value) }
{
    match operation {
        Operation::Gen => Expr::Gen(part),
        Operation::Get => Expr::Get(part),
        Operation::Dim(rank) => Expr::Dim { rank, array: part },
        Operation::Index(rank) => Expr::Index { rank, pairs: part },
    }
}

/// A function written in place applied, or summed over a set.
pub fn function_in_place(
    functional: Functional,
    pattern: Pattern,
    body: Box<Expr>,
    over: Box<Expr>,
) -> Expr
    ensures { tree_of result ≡ functional_of functional (pat_of pattern) (tree_of body.value)
        (tree_of over.value) }
{
    match functional {
        Functional::Plain => Expr::Fun {
            pattern,
            body,
            argument: over,
        },
        Functional::Sum => Expr::SumMap {
            pattern,
            body,
            over,
        },
    }
}

/// An operation on one part.
pub fn on_one(op: Operation, a: Result<Box<Expr>, Memory>) -> Result<Expr, Memory>
    ensures { IfOk result (λ made. IsOkAnd a (λ x. tree_of made ≡ of_one (operation_form op)
        (tree_of x.value))) }
{
    Ok(apply_operation(op, a?))
}

/// An operator between two parts.
pub fn on_two(
    op: Operator,
    a: Result<Box<Expr>, Memory>,
    b: Result<Box<Expr>, Memory>,
) -> Result<Expr, Memory>
    ensures { IfOk result (λ made. IsOkAnd a
        (λ x. IsOkAnd b (λ y. tree_of made ≡ joined_of op (tree_of x.value) (tree_of y.value)))) }
{
    let (a, b) = both(a, b)?;
    Ok(apply_operator(op, a, b))
}

/// A negation.
pub fn make_negation(a: Result<Box<Expr>, Memory>) -> Result<Expr, Memory>
    ensures { IfOk result (λ made. IsOkAnd a (λ x. tree_of made ≡ tree.negation
        (tree_of x.value))) }
{
    Ok(Expr::Not(a?))
}

/// The length of an array.
pub fn length(a: Result<Box<Expr>, Memory>) -> Result<Expr, Memory>
    ensures { IfOk result (λ made. IsOkAnd a (λ x. tree_of made ≡ of_one (Strict.dim 1)
        (tree_of x.value))) }
{
    Ok(Expr::Len(a?))
}

/// A value and the one in its stead.
pub(crate) fn make_default(
    a: Result<Box<Expr>, Memory>,
    b: Result<Box<Expr>, Memory>,
) -> Result<Expr, Memory>
    ensures { IfOk result (λ made. IsOkAnd a
        (λ x. IsOkAnd b (λ y. tree_of made ≡ tree.default (tree_of x.value) (tree_of y.value)))) }
{
    let (a, b) = both(a, b)?;
    Ok(Expr::Default(a, b))
}

/// A choice by a test.
pub fn choice(
    test: Result<Box<Expr>, Memory>,
    a: Result<Box<Expr>, Memory>,
    b: Result<Box<Expr>, Memory>,
) -> Result<Expr, Memory>
    ensures { IfOk result (λ made. IsOkAnd test
        (λ t. IsOkAnd a (λ x. IsOkAnd b (λ y. tree_of made ≡ tree.choice (tree_of t.value)
        (tree_of x.value) (tree_of y.value))))) }
{
    let (c, (a, b)) = both(test, both(a, b))?;
    Ok(Expr::If(c, a, b))
}

/// The application of a macro.
pub fn application(
    name: Result<Str, Memory>,
    argument: Result<Box<Expr>, Memory>,
) -> Result<Expr, Memory>
    ensures { IfOk result (λ made. IsOkAnd name
        (λ x. IsOkAnd argument (λ y. tree_of made ≡ tree.apply x (tree_of y.value)))) }
{
    let (name, argument) = both(name, argument)?;
    Ok(Expr::Apply { name, argument })
}

/// A function written in place.
pub fn function(
    functional: Functional,
    pattern: Result<Pattern, Memory>,
    body: Result<Box<Expr>, Memory>,
    over: Result<Box<Expr>, Memory>,
) -> Result<Expr, Memory>
    ensures { IfOk result (λ made. IsOkAnd pattern
        (λ p. IsOkAnd body (λ x. IsOkAnd over (λ y. tree_of made ≡ functional_of functional
        (pat_of p) (tree_of x.value) (tree_of y.value))))) }
{
    let (pattern, (body, over)) = both(pattern, both(body, over))?;
    Ok(function_in_place(functional, pattern, body, over))
}

/// A tuple.
pub fn tuple(items: Result<Vec<Expr>, Memory>) -> Result<Expr, Memory>
    ensures { IfOk result (λ made. IsOkAnd items (λ v. tree_of made ≡ tree.op Strict.tuple
        (trees_of v.items))) }
{
    Ok(row(items?))
}

/// A set of members.
pub fn set(items: Result<Vec<Expr>, Memory>) -> Result<Expr, Memory>
    ensures { IfOk result (λ made. IsOkAnd items (λ v. tree_of made ≡ tree.members
        (trees_of v.items))) }
{
    Ok(members(items?))
}

/// A comprehension.
pub fn make_comprehension(
    head: Result<Box<Expr>, Memory>,
    quals: Result<Vec<Qual>, Memory>,
) -> Result<Expr, Memory>
    ensures { IfOk result (λ made. IsOkAnd head
        (λ x. IsOkAnd quals (λ v. tree_of made ≡ tree.comp (tree_of x.value) (quals_of v.items)))) }
{
    let (head, quals) = both(head, quals)?;
    Ok(comprehension(head, quals))
}

/// A tabulation.
pub fn make_tabulation(
    body: Result<Box<Expr>, Memory>,
    binds: Result<Vec<Bind>, Memory>,
) -> Result<Expr, Memory>
    ensures { IfOk result (λ made. IsOkAnd body
        (λ x. IsOkAnd binds (λ v. tree_of made ≡ tree.tab (axes_in v.items) (tree_of x.value)))) }
{
    let (body, binds) = both(body, binds)?;
    Ok(tabulation(body, binds))
}

/// A literal array, of dimensions and cells.
pub(crate) fn make_literal(
    dims: Result<Vec<Expr>, Memory>,
    cells: Result<Vec<Expr>, Memory>,
) -> Result<Expr, Memory>
    ensures { IfOk result (λ made. IsOkAnd dims
        (λ v. IsOkAnd cells (λ w. tree_of made ≡ tree.op
        (Strict.literal (count_trees (trees_of v.items)))
        (append (trees_of v.items) (trees_of w.items))))) }
{
    let (dims, cells) = both(dims, cells)?;
    Ok(literal(dims, cells))
}

/// A let.
pub(crate) fn make_let(
    binds: Result<Vec<LetBind>, Memory>,
    body: Result<Box<Expr>, Memory>,
) -> Result<Expr, Memory>
    ensures { IfOk result (λ made. IsOkAnd binds
        (λ v. IsOkAnd body (λ x. tree_of made ≡ tree.bindings (defs_in v.items)
        (tree_of x.value)))) }
{
    let (binds, body) = both(binds, body)?;
    Ok(let_in(binds, body))
}

/// A subscript.
pub fn make_subscript(
    array: Result<Box<Expr>, Memory>,
    at: Result<Vec<Expr>, Memory>,
) -> Result<Expr, Memory>
    ensures { IfOk result (λ made. IsOkAnd array
        (λ x. IsOkAnd at (λ v. tree_of made ≡ tree.op Strict.sub
        (tree.tree (tree_of x.value) (trees_of v.items))))) }
{
    let (array, at) = both(array, at)?;
    Ok(subscript(array, at))
}
