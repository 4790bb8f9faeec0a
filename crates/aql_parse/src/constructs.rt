//! Constructs of which a part is read.
//!
//! A construct is read one expression at a time: a `Construct` stands before its next one, and `read_on` says what has come of it
//! behind that expression. So the one recursion, in `expressions`, reads expressions of a level and knows no construct.

ghost use Rattle.std.specs.Prelude.{◌≡◌, ◌≤◌};
ghost use Rattle.aql_syntax.specs.Nodes.{functional_of};
ghost use Rattle.aql_syntax.specs.View.{tree_of, pat_of};
ghost use Rattle.aql_parse_spec.specs.Parsing.{parse_at};
ghost use Rattle.aql_parse.specs.Constructs as meaning;
ghost use Rattle.aql_parse.specs.Constructs.{Continues, then_at, else_at, argument_from, behind_part};

use crate::forms::{Front, negated_level};
use crate::lists::{bound_read, definition_read, element_read, qualifier_read};
use crate::primaries::body_read;
use crate::refusal::Refusal;
use crate::words::{Word, expect};
use aql_syntax::ast::{Bind, Expr, LetBind, Pattern, Qual};
use aql_syntax::nodes::{Functional, Operation, apply_operation, function_in_place};
use aql_syntax::sign::Sign;
use aql_value::Str;
use std::alloc::Global;

/// Where a list of expressions stands. `turns` says how many subscripts may follow those.
#[derive(Drop)]
pub enum Enclosure {
    Parentheses,
    Braces,
    Brackets,
    Cells(Vec<Expr>),
    Subscripts { array: Box<Expr>, turns: u64 },
}

/// Expressions of a list so far, and how many more there may be.
#[derive(Drop)]
pub struct Elements {
    pub enclosure: Enclosure,
    pub items: Vec<Expr>,
    pub turns: u64,
}

/// The body of a tabulation, its indices so far, and how many more there may be.
#[derive(Drop)]
pub struct Indices {
    pub body: Box<Expr>,
    pub items: Vec<Bind>,
    pub turns: u64,
}

/// The head of a comprehension, its qualifiers so far, and how many more there may be.
#[derive(Drop)]
pub struct Qualifiers {
    pub head: Box<Expr>,
    pub items: Vec<Qual>,
    pub turns: u64,
}

/// The bindings of a let so far, and how many more there may be.
#[derive(Drop)]
pub struct Definitions {
    pub items: Vec<LetBind>,
    pub turns: u64,
}

/// A construct that is read up to its next expression.
#[derive(Drop)]
pub enum Construct {
    Test,
    First(Box<Expr>),
    Second(Box<Expr>, Box<Expr>),
    Default(Box<Expr>),
    Not,
    Macro(Str),
    Operation(Operation),
    Function(Functional, Pattern),
    Argument(Functional, Pattern, Box<Expr>),
    Element(Elements),
    Bound(Indices, Str),
    Qualifier(Qualifiers, Front),
    Definition(Definitions, Pattern),
    Body(Vec<LetBind>),
}

/// What has been read: an expression, or a construct up to its next one.
#[derive(Drop)]
pub enum Progress {
    Done(Expr),
    More(Construct),
}

/// The level of the next expression of a construct.
pub(crate) fn level_of(construct: &Construct) -> u64
    ensures level { result ≡ meaning.level_of construct.now }
    ensures bounded { result ≤ 8 }
{
    match construct {
        Construct::Not => negated_level(),
        Construct::Macro(_) => 0,
        Construct::Operation(_) => 0,
        Construct::Argument(_, _, _) => 0,
        _ => 8,
    }
}

/// What a construct has become behind its next expression.
pub(crate) fn read_on<'a>(
    alloc: Global,
    source: &[u8],
    construct: Construct,
    expr: Expr,
    words: &'a [Word],
    depth: u64,
) -> Result<(Progress, &'a [Word]), Refusal>
    ensures { Continues (parse_at depth) depth source.now words.now result
        (behind_part (parse_at depth) depth construct (tree_of expr)) }
{
    match construct {
        Construct::Element(elements) => element_read(alloc, source, elements, expr, words, depth),
        Construct::Bound(indices, name) => {
            bound_read(alloc, source, indices, name, expr, words, depth)
        }
        Construct::Qualifier(quals, front) => {
            qualifier_read(alloc, source, quals, front, expr, words, depth)
        }
        Construct::Definition(defs, pattern) => {
            definition_read(alloc, source, defs, pattern, expr, words, depth)
        }
        Construct::Body(binds) => body_read(alloc, source, binds, expr, words, depth),
        Construct::Test => test_read(alloc, source, expr, words, depth),
        Construct::First(test) => first_read(alloc, source, test, expr, words, depth),
        Construct::Function(functional, pattern) => {
            function_read(alloc, source, functional, pattern, expr, words, depth)
        }
        Construct::Second(test, first) => {
            let second = Box::new(alloc, expr)?;
            Ok((Progress::Done(Expr::If(test, first, second)), words))
        }
        Construct::Default(left) => {
            let right = Box::new(alloc, expr)?;
            Ok((Progress::Done(Expr::Default(left, right)), words))
        }
        Construct::Not => {
            let part = Box::new(alloc, expr)?;
            Ok((Progress::Done(Expr::Not(part)), words))
        }
        Construct::Macro(name) => {
            let argument = Box::new(alloc, expr)?;
            Ok((Progress::Done(Expr::Apply { name, argument }), words))
        }
        Construct::Operation(operation) => {
            let part = Box::new(alloc, expr)?;
            Ok((Progress::Done(apply_operation(operation, part)), words))
        }
        Construct::Argument(functional, pattern, body) => {
            let argument = Box::new(alloc, expr)?;
            let applied = function_in_place(functional, pattern, body, argument);
            Ok((Progress::Done(applied), words))
        }
    }
}

// Behind the test of a choice.
#[tactic(auto, unfolding(crate::specs::Constructs::then_at, crate::specs::Constructs::construct_at))]
fn test_read<'a>(
    alloc: Global,
    source: &[u8],
    test: Expr,
    words: &'a [Word],
    depth: u64,
) -> Result<(Progress, &'a [Word]), Refusal>
    ensures { Continues (parse_at depth) depth source.now words.now result
        (then_at (parse_at depth) (tree_of test)) }
{
    let test = Box::new(alloc, test)?;
    let rest = expect(source, words, Sign::Then)?;
    Ok((Progress::More(Construct::First(test)), rest))
}

// Behind the first branch of a choice.
#[tactic(auto, unfolding(crate::specs::Constructs::else_at, crate::specs::Constructs::construct_at))]
fn first_read<'a>(
    alloc: Global,
    source: &[u8],
    test: Box<Expr>,
    first: Expr,
    words: &'a [Word],
    depth: u64,
) -> Result<(Progress, &'a [Word]), Refusal>
    ensures { Continues (parse_at depth) depth source.now words.now result
        (else_at (parse_at depth) (tree_of test.value) (tree_of first)) }
{
    let first = Box::new(alloc, first)?;
    let rest = expect(source, words, Sign::Else)?;
    Ok((Progress::More(Construct::Second(test, first)), rest))
}

// Behind the body of a function.
#[tactic(auto, unfolding(crate::specs::Constructs::argument_from, crate::specs::Constructs::construct_at))]
fn function_read<'a>(
    alloc: Global,
    source: &[u8],
    functional: Functional,
    pattern: Pattern,
    body: Expr,
    words: &'a [Word],
    depth: u64,
) -> Result<(Progress, &'a [Word]), Refusal>
    ensures { Continues (parse_at depth) depth source.now words.now result
        (argument_from (parse_at depth) (functional_of functional) (pat_of pattern)
        (tree_of body)) }
{
    let body = Box::new(alloc, body)?;
    let rest = expect(source, words, Sign::Close)?;
    let rest = expect(source, rest, Sign::Bang)?;
    Ok((
        Progress::More(Construct::Argument(functional, pattern, body)),
        rest,
    ))
}
