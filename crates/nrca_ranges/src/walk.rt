//! One walk over a term: whether it is firm, whether it is certain to have a value, its span, and its shape.

ghost use Rattle.std.specs.Prelude.{◌≡◌, ◌&&◌, ◌||◌, true, map, is_some, Some, ℕ, IfOk, OnOk};
ghost use Rattle.nrca_term.specs.Term.{form_of};
ghost use Rattle.nrca_term.specs.View.{term_of, pure_form, pure_strict};
ghost use Rattle.nrca_term.specs.Firm as pure;
ghost use Rattle.aql_value.specs.Strict as operations;
ghost use Rattle.nrca_ranges.specs.Context.{IsSmallTerm};
ghost use Rattle.nrca_ranges.specs.Entered.{is_shaped};
ghost use Rattle.nrca_ranges.specs.Shapes.{bounds_of, bounds_each, shapes_in};
ghost use Rattle.nrca_ranges.specs.Spans.{span_of, IsOrdered};
ghost use Rattle.nrca_ranges.specs.Transfer.{by_span};
ghost use Rattle.nrca_ranges.specs.Walk.{span_with, span_below, IsOther, gather_flags};
ghost use Rattle.nrca_ranges.specs.Walk.{IsArithTold, IsGathered};
ghost use Rattle.nrca_ranges.specs.Walk.{told_each, summaries_below, IsSummary};
ghost use Rattle.nrca_ranges.specs.Walk.{KeepsFacts, TellsOf, TellsOfPart, HoldsParts, HoldsFirst, ClosesNode};

use crate::certain::form_certain;
use crate::context::{Ctx, Fact, add_facts};
use crate::interval::{Interval, arith_span, span_among};
use crate::operations::{always_fits, arith_interval};
use crate::positions::GlobalShapes;
use crate::shape::{Shape, number_interval};
use crate::transfer::node_shape;
use crate::variables::add_variables;
use aql_value::{ArithOp, Memory};
use nrca_term::{Core, Form, Strict};
use std::alloc::Global;

/// What a walk over a term tells of it at a place.
#[derive(Drop)]
pub struct Told {
    pub firm: bool,
    pub certain: bool,
    pub span: Option<Interval>,
    pub shape: Shape,
}

/// What a walk keeps: the facts of the parts that it is in, and the shapes of the variables that are bound
/// there, behind those of the context; and what is told of
/// terms whose nodes are not yet told of, in order.
#[derive(Drop)]
pub(crate) struct Progress {
    pub facts: Vec<Fact>,
    pub variables: Vec<Shape>,
    pub told: Vec<Told>,
}

/// What is told of the parts of a node together: of a default of one of them, else of all.
#[derive(Clone, Copy)]
pub(crate) struct Gathered {
    pub firm: bool,
    pub certain: bool,
}

// Whether a node of the form wants all its parts; a default wants one of them.
fn wants_all<'a>(form: Form<'a>) -> bool
    ensures { result ≡ pure.wants_all (pure_form form.entry) }
{
    match form {
        Form::Default => false,
        Form::Var(_) => true,
        Form::Global(_) => true,
        Form::Bind => true,
        Form::Choose => true,
        Form::BigUnion => true,
        Form::Sum => true,
        Form::Tab(_) => true,
        Form::Strict(_) => true,
    }
}

// Whether a strict form is one of those of which a sure term is built.
fn strict_sure<'a>(form: Strict<'a>) -> bool
    ensures { result ≡ pure.strict_sure (pure_strict form.entry) }
{
    match form {
        Strict::Nat(_) => true,
        Strict::Bool(_) => true,
        Strict::Text(_) => true,
        Strict::Bottom => false,
        Strict::Tuple => true,
        Strict::Proj { at: _, of: _ } => true,
        Strict::Arith(op) => is_monus(op),
        Strict::Compare(_) => true,
        Strict::Empty => true,
        Strict::Single => true,
        Strict::Union => true,
        Strict::Gen => true,
        Strict::Get => false,
        Strict::Sub => false,
        Strict::Dim(_) => true,
        Strict::Index(_) => false,
        Strict::Literal(_) => false,
    }
}

// Whether the operation is a difference.
fn is_monus(op: ArithOp) -> bool
    ensures { result ≡ pure.strict_sure (operations.Strict.arith op) }
{
    match op {
        ArithOp::Monus => true,
        ArithOp::Add => false,
        ArithOp::Mul => false,
        ArithOp::Quotient => false,
        ArithOp::Remainder => false,
    }
}

// Whether a node of the form has a value where its parts have.
fn form_sure<'a>(form: Form<'a>, globals: &GlobalShapes) -> bool
    ensures { result ≡ pure.form_sure (is_shaped (shapes_in globals.now)) (pure_form form.entry) }
{
    match form {
        Form::Var(_) => true,
        Form::Global(n) => globals.has(n),
        Form::Bind => true,
        Form::Choose => true,
        Form::Default => true,
        Form::BigUnion => true,
        Form::Sum => false,
        Form::Tab(_) => true,
        Form::Strict(strict) => strict_sure(strict),
    }
}

// Whether there is a number, and it is not 0.
fn divides(n: Option<u128>) -> bool
    ensures { result ≡ is_some {T = ℕ × ℕ} (pure.by_number n (λ m. Some (0, m))) }
{
    match n {
        Some(m) => m != 0,
        None => false,
    }
}

// Whether there is a span.
fn is_told(span: Option<Interval>) -> bool
    ensures { result ≡ is_some {T = ℕ × ℕ} (span_of span) }
{
    match span {
        Some(_) => true,
        None => false,
    }
}

// Whether arithmetic has a value where its sides have, by its span and the number that its second side is.
fn arith_firm(op: ArithOp, span: Option<Interval>, n: Option<u128>) -> bool
    ensures { result ≡ pure.arith_firm op (span_of span) n }
{
    match op {
        ArithOp::Add => is_told(span),
        ArithOp::Mul => is_told(span),
        ArithOp::Monus => true,
        ArithOp::Quotient => divides(n),
        ArithOp::Remainder => divides(n),
    }
}

// Whether the node and both its sides are so.
fn all_of(own: bool, left: bool, right: bool) -> bool
    ensures { result ≡ (own && (left && (right && true))) }
{
    own && left && right
}

// Whether both are so.
fn both(a: bool, b: bool) -> bool
    ensures { result ≡ (a && b) }
{
    a && b
}

// Whether one of them is so.
fn either(a: bool, b: bool) -> bool
    ensures { result ≡ (a || b) }
{
    a || b
}

// Both, or else one of them.
fn gather(all: bool, a: bool, b: bool) -> bool
    ensures { result ≡ gather_flags all a b }
{
    if all { a && b } else { a || b }
}

// The interval, where there is one, and else the shape.
fn narrow_shape(span: Option<Interval>, shape: Shape) -> Shape
    ensures { bounds_of result ≡ by_span (span_of span) (bounds_of shape) }
{
    match span {
        Some(i) => Shape::Number(i),
        None => shape,
    }
}

// The span of a variable, by the facts of the context and then those inside of the term.
fn variable_below(ctx: &Ctx, own: &[Fact], depth: u64, i: u64) -> Option<Interval>
    ensures exact { span_of result ≡ span_below ctx.now own.now depth i }
    ensures ordered { IsOrdered result }
{
    let found = span_among(ctx.facts.as_slice(), depth, i);
    if found.is_some() {
        found
    } else {
        span_among(own, depth, i)
    }
}

// The span of a node that is not arithmetic.
fn node_span(term: &Core, ctx: &Ctx, own: &[Fact], depth: u64) -> Option<Interval>
    requires { IsOther (form_of (term_of term.now)) }
    ensures exact { span_of result ≡ span_with ctx.now own.now depth term.now }
    ensures ordered { IsOrdered result }
{
    match term {
        Core::Var(i) => variable_below(ctx, own, depth, *i),
        Core::Nat(n) => Some(Interval { low: *n, high: *n }),
        _ => None,
    }
}

// An arithmetic node, from its sides and the number that the second one is.
fn arith_told(op: ArithOp, left: &Told, right: &Told, n: Option<u128>) -> Told
    requires left { IsOrdered left.now.span }
    requires right { IsOrdered right.now.span }
    ensures { IsArithTold op left.now right.now n result }
{
    let first = number_interval(&left.shape);
    let second = number_interval(&right.shape);
    let span = arith_span(op, left.span, right.span, n);
    let own = arith_firm(op, span, n);
    let firm = all_of(own, left.firm, right.firm);
    let fits = always_fits(op, first, second);
    let certain = either(firm, all_of(fits, left.certain, right.certain));
    let shape = narrow_shape(span, Shape::Number(arith_interval(op, first, second)));
    Told {
        firm,
        certain,
        span,
        shape,
    }
}

// What is gathered of the parts of a node.
fn gather_all(all: bool, parts: &[Told]) -> Gathered
    ensures { IsGathered all (told_each parts.now) result }
{
    let mut firm = all;
    let mut certain = all;
    for told in parts {
        firm = gather(all, firm, told.firm);
        certain = gather(all, certain, told.certain);
    }
    Gathered { firm, certain }
}

// The shapes of the parts of a node.
fn take_shapes(alloc: Global, parts: Vec<Told>) -> Result<Vec<Shape>, Memory>
    ensures { IfOk result (λ v. bounds_each v.items ≡ map (λ s. s.shape) (told_each parts.items)) }
{
    let mut shapes = Vec::new(alloc);
    for told in parts {
        shapes.push(told.shape)?;
    }
    Ok(shapes)
}

// A node that is not arithmetic, from its parts.
fn other_told(
    alloc: Global,
    term: &Core,
    ctx: &Ctx,
    own: &[Fact],
    variables: &[Shape],
    depth: u64,
    parts: Vec<Told>,
) -> Result<Told, Memory>
    requires other { IsOther (form_of (term_of term.now)) }
    requires parts { told_each parts.items
        ≡ summaries_below ctx.now own.now variables.now depth term.now }
    ensures { IfOk result (λ x. IsSummary ctx.now own.now variables.now depth term.now x) }
{
    let form = term.form();
    let found = gather_all(wants_all(form), parts.as_slice());
    let shapes = take_shapes(alloc, parts)?;
    let span = node_span(term, ctx, own, depth);
    let sure = form_sure(form, &ctx.globals);
    let fits = form_certain(form, shapes.as_slice(), &ctx.globals);
    let told = node_shape(alloc, form, shapes, ctx, variables)?;
    let firm = both(sure, found.firm);
    let certain = either(firm, both(fits, found.certain));
    let shape = narrow_shape(span, told);
    Ok(Told {
        firm,
        certain,
        span,
        shape,
    })
}

// A node, from its parts.
fn node_told(
    alloc: Global,
    term: &Core,
    ctx: &Ctx,
    own: &[Fact],
    variables: &[Shape],
    depth: u64,
    parts: Vec<Told>,
) -> Result<Told, Memory>
    requires parts { told_each parts.items
        ≡ summaries_below ctx.now own.now variables.now depth term.now }
    ensures { IfOk result (λ x. IsSummary ctx.now own.now variables.now depth term.now x) }
{
    match term {
        Core::Arith(op, _, b) => Ok(arith_told(*op, &parts[0], &parts[1], b.number())),
        _ => other_told(alloc, term, ctx, own, variables, depth, parts),
    }
}

// What is told of a node takes the place of what is told of its parts, which stands behind the first `base`.
#[inline(never)]
fn close_node(
    alloc: Global,
    term: &Core,
    ctx: &Ctx,
    depth: u64,
    base: usize,
    progress: &mut Progress,
) -> Result<(), Memory>
    requires parts { HoldsParts ctx.now depth term.now base progress.old }
    ensures back { KeepsFacts progress.old progress.new }
    ensures told { OnOk result (ClosesNode ctx.now depth term.now base progress.old progress.new) }
{
    let parts = progress.told.split_off(base)?;
    let told = node_told(
        alloc,
        term,
        ctx,
        progress.facts.as_slice(),
        progress.variables.as_slice(),
        depth,
        parts,
    )?;
    progress.told.push(told)?;
    Ok(())
}

/// Tells of a term inside of one that stands at the context: `depth` variables are around it.
#[cycle(walk)]
pub(crate) fn walk(
    alloc: Global,
    term: &Core,
    ctx: &Ctx,
    depth: u64,
    progress: &mut Progress,
) -> Result<(), Memory>
    requires inside { IsSmallTerm depth (term_of term.now) }
    ensures back { OnOk result (KeepsFacts progress.old progress.new) }
    ensures told { OnOk result (TellsOf ctx.now depth term.now progress.old progress.new) }
{
    let base = progress.told.len();
    for i in 0..term.parts() {
        walk_part(alloc, term, i, ctx, depth, base, progress)?;
    }
    close_node(alloc, term, ctx, depth, base, progress)?;
    Ok(())
}

// Tells of a part of a node, at its own place. It is written into `walk`, so that a level of the term costs one frame.
#[cycle(walk)]
#[inline(always)]
pub(crate) fn walk_part(
    alloc: Global,
    term: &Core,
    i: u64,
    ctx: &Ctx,
    depth: u64,
    base: usize,
    progress: &mut Progress,
) -> Result<(), Memory>
    requires inside { IsSmallTerm depth (term_of term.now) }
    requires first { HoldsFirst ctx.now depth term.now base i progress.old }
    ensures back { OnOk result (KeepsFacts progress.old progress.new) }
    ensures told { OnOk result (TellsOfPart ctx.now depth term.now i progress.old progress.new) }
{
    if let Some(part) = term.part(i) {
        let before = progress.facts.len();
        let outside = progress.variables.len();
        add_facts(alloc, &mut progress.facts, depth, term, i)?;
        add_variables(
            alloc,
            &mut progress.variables,
            term.form(),
            i,
            &progress.told[base..],
        )?;
        walk(alloc, part, ctx, depth + term.binders(i), progress)?;
        progress.facts.truncate(before);
        progress.variables.truncate(outside);
    }
    Ok(())
}
