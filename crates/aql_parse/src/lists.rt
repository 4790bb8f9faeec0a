//! Lists with expressions in them: of expressions, of indices with their bounds, of qualifiers and of definitions.
//!
//! Of each there are two functions: one reads up to the expression of the next of them, and one goes on behind it.

ghost use Rattle.aql_syntax.specs.View.{tree_of, pat_of};
ghost use Rattle.aql_parse_spec.specs.Parsing.{parse_at};
ghost use Rattle.aql_parse.specs.Forms.{front_seen};
ghost use Rattle.aql_parse.specs.Constructs.{Continues, before_element, behind_element, before_index, behind_bound, before_qualifier, behind_qualifier, before_definition, behind_definition};

use crate::constructs::{Construct, Definitions, Elements, Indices, Progress, Qualifiers};
use crate::forms::{Front, qualifier};
use crate::parts::{binder, definition, front};
use crate::primaries::{comprehended, defined, enclosed, tabulated};
use crate::refusal::Refusal;
use crate::words::{Word, skip_sign};
use aql_syntax::ast::{Bind, Expr, LetBind, Pattern};
use aql_syntax::sign::Sign;
use aql_value::Str;
use std::alloc::Global;

/// Before the next expression of a list.
#[tactic(auto, using(crate::proofs::ListSteps::members_steps), unfolding(crate::specs::Constructs::construct_at))]
pub(crate) fn next_element<'a>(
    source: &[u8],
    elements: Elements,
    words: &'a [Word],
    depth: u64,
) -> Result<(Progress, &'a [Word]), Refusal>
    ensures { Continues (parse_at depth) depth source.now words.now result
        (before_element (parse_at depth) depth elements) }
{
    if elements.turns == 0 {
        return Err(Refusal::Syntax);
    }
    let Elements {
        enclosure,
        items,
        turns,
    } = elements;
    let elements = Elements {
        enclosure,
        items,
        turns: turns - 1,
    };
    Ok((Progress::More(Construct::Element(elements)), words))
}

/// Behind an expression of a list.
#[tactic(auto, using(crate::proofs::ListSteps::member_steps))]
pub(crate) fn element_read<'a>(
    alloc: Global,
    source: &[u8],
    elements: Elements,
    expr: Expr,
    words: &'a [Word],
    depth: u64,
) -> Result<(Progress, &'a [Word]), Refusal>
    ensures { Continues (parse_at depth) depth source.now words.now result
        (behind_element (parse_at depth) depth elements (tree_of expr)) }
{
    let Elements {
        enclosure,
        items,
        turns,
    } = elements;
    let mut items = items;
    items.push(expr)?;
    match skip_sign(source, words, Sign::Comma) {
        Some(rest) => {
            let elements = Elements {
                enclosure,
                items,
                turns,
            };
            next_element(source, elements, rest, depth)
        }
        None => enclosed(alloc, source, enclosure, items, words, depth),
    }
}

/// Before the bound of the next index of a tabulation.
#[tactic(auto, using(crate::proofs::ListSteps::indices_steps), unfolding(crate::specs::Constructs::construct_at))]
pub(crate) fn next_index<'a>(
    alloc: Global,
    source: &[u8],
    indices: Indices,
    words: &'a [Word],
    depth: u64,
) -> Result<(Progress, &'a [Word]), Refusal>
    ensures { Continues (parse_at depth) depth source.now words.now result
        (before_index (parse_at depth) depth indices) }
{
    if indices.turns == 0 {
        return Err(Refusal::Syntax);
    }
    let (name, rest) = binder(alloc, source, words, Sign::Less)?;
    let Indices { body, items, turns } = indices;
    let indices = Indices {
        body,
        items,
        turns: turns - 1,
    };
    Ok((Progress::More(Construct::Bound(indices, name)), rest))
}

/// Behind the bound of an index.
#[tactic(auto, using(crate::proofs::ListSteps::index_steps))]
pub(crate) fn bound_read<'a>(
    alloc: Global,
    source: &[u8],
    indices: Indices,
    name: Str,
    bound: Expr,
    words: &'a [Word],
    depth: u64,
) -> Result<(Progress, &'a [Word]), Refusal>
    ensures { Continues (parse_at depth) depth source.now words.now result
        (behind_bound (parse_at depth) depth indices name (tree_of bound)) }
{
    let Indices { body, items, turns } = indices;
    let mut items = items;
    items.push(Bind { name, bound })?;
    match skip_sign(source, words, Sign::Comma) {
        Some(rest) => {
            let indices = Indices { body, items, turns };
            next_index(alloc, source, indices, rest, depth)
        }
        None => tabulated(alloc, source, body, items, words, depth),
    }
}

/// Before the expression of the next qualifier of a comprehension.
#[tactic(auto, using(crate::proofs::ListSteps::qualifiers_steps), unfolding(crate::specs::Constructs::construct_at))]
pub(crate) fn next_qualifier<'a>(
    alloc: Global,
    source: &[u8],
    quals: Qualifiers,
    words: &'a [Word],
    depth: u64,
) -> Result<(Progress, &'a [Word]), Refusal>
    ensures { Continues (parse_at depth) depth source.now words.now result
        (before_qualifier (parse_at depth) depth quals) }
{
    if quals.turns == 0 {
        return Err(Refusal::Syntax);
    }
    let (front, rest) = front(alloc, source, words, depth)?;
    let Qualifiers { head, items, turns } = quals;
    let quals = Qualifiers {
        head,
        items,
        turns: turns - 1,
    };
    Ok((Progress::More(Construct::Qualifier(quals, front)), rest))
}

/// Behind the expression of a qualifier.
#[tactic(auto, using(crate::proofs::ListSteps::qualifier_steps))]
pub(crate) fn qualifier_read<'a>(
    alloc: Global,
    source: &[u8],
    quals: Qualifiers,
    front: Front,
    expr: Expr,
    words: &'a [Word],
    depth: u64,
) -> Result<(Progress, &'a [Word]), Refusal>
    ensures { Continues (parse_at depth) depth source.now words.now result
        (behind_qualifier (parse_at depth) depth quals (front_seen front) (tree_of expr)) }
{
    let Qualifiers { head, items, turns } = quals;
    let mut items = items;
    items.push(qualifier(front, expr))?;
    match skip_sign(source, words, Sign::Comma) {
        Some(rest) => {
            let quals = Qualifiers { head, items, turns };
            next_qualifier(alloc, source, quals, rest, depth)
        }
        None => comprehended(alloc, source, head, items, words, depth),
    }
}

/// Before the expression of the next binding of a let.
#[tactic(auto, using(crate::proofs::ListSteps::definitions_steps), unfolding(crate::specs::Constructs::construct_at))]
pub(crate) fn next_definition<'a>(
    alloc: Global,
    source: &[u8],
    defs: Definitions,
    words: &'a [Word],
    depth: u64,
) -> Result<(Progress, &'a [Word]), Refusal>
    ensures { Continues (parse_at depth) depth source.now words.now result
        (before_definition (parse_at depth) depth defs) }
{
    if defs.turns == 0 {
        return Err(Refusal::Syntax);
    }
    let (pattern, rest) = definition(alloc, source, words, depth)?;
    let Definitions { items, turns } = defs;
    let defs = Definitions {
        items,
        turns: turns - 1,
    };
    Ok((Progress::More(Construct::Definition(defs, pattern)), rest))
}

/// Behind the expression of a binding.
#[tactic(auto, using(crate::proofs::ListSteps::definition_steps))]
pub(crate) fn definition_read<'a>(
    alloc: Global,
    source: &[u8],
    defs: Definitions,
    pattern: Pattern,
    expr: Expr,
    words: &'a [Word],
    depth: u64,
) -> Result<(Progress, &'a [Word]), Refusal>
    ensures { Continues (parse_at depth) depth source.now words.now result
        (behind_definition (parse_at depth) depth defs (pat_of pattern) (tree_of expr)) }
{
    let Definitions { items, turns } = defs;
    let mut items = items;
    items.push(LetBind { pattern, expr })?;
    match skip_sign(source, words, Sign::Val) {
        Some(_) => {
            let defs = Definitions { items, turns };
            next_definition(alloc, source, defs, words, depth)
        }
        None => defined(source, items, words, depth),
    }
}
