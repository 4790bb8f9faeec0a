//! Applications and primary expressions: how they begin, and what closes them.
//!
//! What closes a primary expression is followed by its subscripts.

ghost use Rattle.aql_syntax.specs.Nodes.{functional_of};
ghost use Rattle.aql_syntax.specs.Tree.{no_tree};
ghost use Rattle.aql_syntax.specs.View.{tree_of, trees_of, axes_in, quals_of, defs_in};
ghost use Rattle.aql_parse_spec.specs.Parsing.{parse_at, application_at, postfix_at, function_at, sub_rest};
ghost use Rattle.aql_parse.specs.Cycle.{default_at};
ghost use Rattle.aql_parse.specs.Constructs.{Continues, enclosed_at, members_at, table_closed, comp_closed, let_closed};
ghost use Rattle.aql_parse.specs.Constructs.{body_closed, brace_closed, bracket_closed, braces_from, cells_from, cells_closed};

use crate::constructs::{
    Construct, Definitions, Elements, Enclosure, Indices, Progress, Qualifiers,
};
use crate::forms::{Head, enclose, few, only, opening};
use crate::lists::{next_definition, next_element, next_index, next_qualifier};
use crate::parts::{closed_twice, leaf};
use crate::patterns::pattern_then;
use crate::refusal::Refusal;
use crate::words::{Word, expect, name_in, skip_sign};
use aql_syntax::ast::{Bind, Expr, LetBind, Qual};
use aql_syntax::build::{comprehension, let_in, literal, members, subscript, tabulation};
use aql_syntax::nodes::Functional;
use aql_syntax::sign::Sign;
use std::alloc::Global;

/// The beginning of an application, or of what is tighter.
#[tactic(auto, unfolding(aql_parse_spec::specs::Parsing::application_at, crate::specs::Constructs::construct_at))]
pub fn application<'a>(
    alloc: Global,
    source: &[u8],
    words: &'a [Word],
    depth: u64,
) -> Result<(Progress, &'a [Word]), Refusal>
    ensures { Continues (parse_at depth) depth source.now words.now result
        (application_at (parse_at depth) depth) }
{
    match opening(source, words) {
        Some((Head::Macro(token), rest)) => {
            let name = name_in(alloc, source, token)?;
            Ok((Progress::More(Construct::Macro(name)), rest))
        }
        Some((Head::Operation(operation), rest)) => {
            Ok((Progress::More(Construct::Operation(operation)), rest))
        }
        Some((Head::Function(Functional::Plain), rest)) => {
            function_begun(alloc, source, Functional::Plain, rest, depth)
        }
        Some((Head::Function(Functional::Sum), rest)) => {
            function_begun(alloc, source, Functional::Sum, rest, depth)
        }
        None => postfix(alloc, source, words, depth),
    }
}

// Behind the word `fn`.
#[tactic(auto, unfolding(aql_parse_spec::specs::Parsing::function_at, crate::specs::Constructs::argument_from, crate::specs::Constructs::construct_at))]
fn function_begun<'a>(
    alloc: Global,
    source: &[u8],
    functional: Functional,
    words: &'a [Word],
    depth: u64,
) -> Result<(Progress, &'a [Word]), Refusal>
    ensures { Continues (parse_at depth) depth source.now words.now result
        (function_at (functional_of functional) (parse_at depth) depth) }
{
    let (pattern, rest) = pattern_then(alloc, source, words, Sign::FatArrow, depth)?;
    Ok((
        Progress::More(Construct::Function(functional, pattern)),
        rest,
    ))
}

// The beginning of a primary expression with its subscripts.
#[tactic(auto, using(crate::proofs::PrimarySteps::postfix_parts))]
fn postfix<'a>(
    alloc: Global,
    source: &[u8],
    words: &'a [Word],
    depth: u64,
) -> Result<(Progress, &'a [Word]), Refusal>
    ensures { Continues (parse_at depth) depth source.now words.now result
        (postfix_at (parse_at depth) depth) }
{
    if let Some(rest) = skip_sign(source, words, Sign::Open) {
        return listed(alloc, source, Enclosure::Parentheses, rest, depth);
    }
    if let Some(rest) = skip_sign(source, words, Sign::OpenBrace) {
        return braces(alloc, source, rest, depth);
    }
    if let Some(rest) = skip_sign(source, words, Sign::OpenBracket) {
        let rest = expect(source, rest, Sign::OpenBracket)?;
        return listed(alloc, source, Enclosure::Brackets, rest, depth);
    }
    if let Some(rest) = skip_sign(source, words, Sign::Let) {
        let defs = Definitions {
            items: Vec::new(alloc),
            turns: depth,
        };
        return next_definition(alloc, source, defs, rest, depth);
    }
    let (expr, rest) = leaf(alloc, source, words)?;
    subscripted(alloc, source, expr, rest, depth, depth)
}

// The first expression of a list.
fn listed<'a>(
    alloc: Global,
    source: &[u8],
    enclosure: Enclosure,
    words: &'a [Word],
    depth: u64,
) -> Result<(Progress, &'a [Word]), Refusal>
    ensures { Continues (parse_at depth) depth source.now words.now result
        (members_at (parse_at depth) (enclosed_at (parse_at depth) depth enclosure)
        no_tree depth) }
{
    let elements = Elements {
        enclosure,
        items: Vec::new(alloc),
        turns: depth,
    };
    next_element(source, elements, words, depth)
}

// Behind an opening brace.
#[tactic(auto, unfolding(crate::specs::Constructs::braces_from))]
fn braces<'a>(
    alloc: Global,
    source: &[u8],
    words: &'a [Word],
    depth: u64,
) -> Result<(Progress, &'a [Word]), Refusal>
    ensures { Continues (parse_at depth) depth source.now words.now result
        (braces_from (parse_at depth) depth) }
{
    match skip_sign(source, words, Sign::CloseBrace) {
        Some(rest) => subscripted(alloc, source, Expr::Empty, rest, depth, depth),
        None => listed(alloc, source, Enclosure::Braces, words, depth),
    }
}

// Subscripts behind an expression, so many lists of them at most.
#[tactic(auto, using(crate::proofs::PrimarySteps::sub_steps))]
fn subscripted<'a>(
    alloc: Global,
    source: &[u8],
    expr: Expr,
    words: &'a [Word],
    turns: u64,
    depth: u64,
) -> Result<(Progress, &'a [Word]), Refusal>
    ensures { Continues (parse_at depth) depth source.now words.now result
        (sub_rest (parse_at depth) depth turns (tree_of expr)) }
{
    if turns == 0 {
        return Ok((Progress::Done(expr), words));
    }
    match skip_sign(source, words, Sign::OpenBracket) {
        Some(rest) => {
            let enclosure = Enclosure::Subscripts {
                array: Box::new(alloc, expr)?,
                turns: turns - 1,
            };
            listed(alloc, source, enclosure, rest, depth)
        }
        None => Ok((Progress::Done(expr), words)),
    }
}

/// Behind the expressions of a list.
#[tactic(auto, unfolding(crate::specs::Constructs::paren_closed, crate::specs::Constructs::cells_closed, crate::specs::Constructs::subs_closed))]
pub(crate) fn enclosed<'a>(
    alloc: Global,
    source: &[u8],
    enclosure: Enclosure,
    items: Vec<Expr>,
    words: &'a [Word],
    depth: u64,
) -> Result<(Progress, &'a [Word]), Refusal>
    ensures { Continues (parse_at depth) depth source.now words.now result
        (enclosed_at (parse_at depth) depth enclosure (trees_of items.items)) }
{
    match enclosure {
        Enclosure::Parentheses => {
            let rest = expect(source, words, Sign::Close)?;
            subscripted(alloc, source, enclose(items), rest, depth, depth)
        }
        Enclosure::Braces => in_braces(alloc, source, items, words, depth),
        Enclosure::Brackets => in_brackets(alloc, source, items, words, depth),
        Enclosure::Cells(dims) => {
            let rest = closed_twice(source, words)?;
            subscripted(alloc, source, literal(dims, items), rest, depth, depth)
        }
        Enclosure::Subscripts { array, turns } => {
            let at = few(items)?;
            let rest = expect(source, words, Sign::CloseBracket)?;
            subscripted(alloc, source, subscript(array, at), rest, turns, depth)
        }
    }
}

// Behind the first expressions in braces.
#[tactic(auto, unfolding(crate::specs::Constructs::brace_closed))]
fn in_braces<'a>(
    alloc: Global,
    source: &[u8],
    items: Vec<Expr>,
    words: &'a [Word],
    depth: u64,
) -> Result<(Progress, &'a [Word]), Refusal>
    ensures { Continues (parse_at depth) depth source.now words.now result
        (brace_closed (parse_at depth) depth (trees_of items.items)) }
{
    if let Some(rest) = skip_sign(source, words, Sign::CloseBrace) {
        return subscripted(alloc, source, members(items), rest, depth, depth);
    }
    let rest = expect(source, words, Sign::Bar)?;
    match only(items) {
        Some(head) => {
            let quals = Qualifiers {
                head: Box::new(alloc, head)?,
                items: Vec::new(alloc),
                turns: depth,
            };
            next_qualifier(alloc, source, quals, rest, depth)
        }
        None => Err(Refusal::Syntax),
    }
}

/// Behind the qualifiers of a comprehension.
#[tactic(auto, unfolding(crate::specs::Constructs::comp_closed))]
pub(crate) fn comprehended<'a>(
    alloc: Global,
    source: &[u8],
    head: Box<Expr>,
    quals: Vec<Qual>,
    words: &'a [Word],
    depth: u64,
) -> Result<(Progress, &'a [Word]), Refusal>
    ensures { Continues (parse_at depth) depth source.now words.now result
        (comp_closed (parse_at depth) depth (tree_of head.value) (quals_of quals.items)) }
{
    let rest = expect(source, words, Sign::CloseBrace)?;
    subscripted(
        alloc,
        source,
        comprehension(head, quals),
        rest,
        depth,
        depth,
    )
}

// Behind the first expressions in double brackets.
#[tactic(auto, unfolding(crate::specs::Constructs::bracket_closed))]
fn in_brackets<'a>(
    alloc: Global,
    source: &[u8],
    items: Vec<Expr>,
    words: &'a [Word],
    depth: u64,
) -> Result<(Progress, &'a [Word]), Refusal>
    ensures { Continues (parse_at depth) depth source.now words.now result
        (bracket_closed (parse_at depth) depth (trees_of items.items)) }
{
    if let Some(rest) = skip_sign(source, words, Sign::Semicolon) {
        let dims = few(items)?;
        return cells(alloc, source, dims, rest, depth);
    }
    let rest = expect(source, words, Sign::Bar)?;
    match only(items) {
        Some(body) => {
            let indices = Indices {
                body: Box::new(alloc, body)?,
                items: Vec::new(alloc),
                turns: depth,
            };
            next_index(alloc, source, indices, rest, depth)
        }
        None => Err(Refusal::Syntax),
    }
}

// Behind the dimensions of a literal and their semicolon.
#[tactic(auto, unfolding(crate::specs::Constructs::cells_from, crate::specs::Constructs::cells_closed))]
fn cells<'a>(
    alloc: Global,
    source: &[u8],
    dims: Vec<Expr>,
    words: &'a [Word],
    depth: u64,
) -> Result<(Progress, &'a [Word]), Refusal>
    ensures { Continues (parse_at depth) depth source.now words.now result
        (cells_from (parse_at depth) depth (trees_of dims.items)) }
{
    match skip_sign(source, words, Sign::CloseBracket) {
        Some(_) => {
            let rest = closed_twice(source, words)?;
            let none = Vec::new(alloc);
            subscripted(alloc, source, literal(dims, none), rest, depth, depth)
        }
        None => listed(alloc, source, Enclosure::Cells(dims), words, depth),
    }
}

/// Behind the indices of a tabulation.
#[tactic(auto, using(crate::proofs::PrimarySteps::table_steps), unfolding(crate::specs::Constructs::table_closed))]
pub(crate) fn tabulated<'a>(
    alloc: Global,
    source: &[u8],
    body: Box<Expr>,
    binds: Vec<Bind>,
    words: &'a [Word],
    depth: u64,
) -> Result<(Progress, &'a [Word]), Refusal>
    ensures { Continues (parse_at depth) depth source.now words.now result
        (table_closed (parse_at depth) depth (tree_of body.value) (axes_in binds.items)) }
{
    if binds.len() > 8 {
        return Err(Refusal::Syntax);
    }
    let rest = closed_twice(source, words)?;
    subscripted(alloc, source, tabulation(body, binds), rest, depth, depth)
}

/// Behind the bindings of a let.
#[tactic(auto, unfolding(crate::specs::Constructs::let_closed, crate::specs::Constructs::construct_at))]
pub fn defined<'a>(
    source: &[u8],
    binds: Vec<LetBind>,
    words: &'a [Word],
    depth: u64,
) -> Result<(Progress, &'a [Word]), Refusal>
    ensures { Continues (parse_at depth) depth source.now words.now result
        (let_closed (parse_at depth) depth (defs_in binds.items)) }
{
    let rest = expect(source, words, Sign::In)?;
    Ok((Progress::More(Construct::Body(binds)), rest))
}

/// Behind the body of a let.
#[tactic(auto, unfolding(crate::specs::Constructs::body_closed))]
pub(crate) fn body_read<'a>(
    alloc: Global,
    source: &[u8],
    binds: Vec<LetBind>,
    body: Expr,
    words: &'a [Word],
    depth: u64,
) -> Result<(Progress, &'a [Word]), Refusal>
    ensures { Continues (parse_at depth) depth source.now words.now result
        (body_closed (parse_at depth) depth (defs_in binds.items) (tree_of body)) }
{
    let body = Box::new(alloc, body)?;
    let rest = expect(source, words, Sign::End)?;
    subscripted(alloc, source, let_in(binds, body), rest, depth, depth)
}

/// What may follow the first part of an expression: `default`, before the second.
#[tactic(auto, unfolding(crate::specs::Cycle::default_at, crate::specs::Constructs::construct_at))]
pub(crate) fn default_rest<'a>(
    alloc: Global,
    source: &[u8],
    left: Expr,
    words: &'a [Word],
    depth: u64,
) -> Result<(Progress, &'a [Word]), Refusal>
    ensures { Continues (parse_at depth) depth source.now words.now result
        (default_at (parse_at depth) (tree_of left)) }
{
    match skip_sign(source, words, Sign::Default) {
        Some(rest) => {
            let left = Box::new(alloc, left)?;
            Ok((Progress::More(Construct::Default(left)), rest))
        }
        None => Ok((Progress::Done(left), words)),
    }
}
