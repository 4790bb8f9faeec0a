//! What is known of a term at a place.

ghost use Rattle.std.specs.Prelude.{◌≡◌, ◌↔◌, ◌+◌, ◌≤◌, None, IsTrue, IfOk};
ghost use Rattle.nrca_term.specs.Term.{Closed, weight_of, form_of, variable_of};
ghost use Rattle.nrca_term.specs.View.{term_of, terms_of};
ghost use Rattle.nrca_ranges.specs.Context.{IsSmallTerm};
ghost use Rattle.nrca_ranges.specs.Shapes.{bounds_of, IsShapeIn, IsTightIn, IsNumberIn, IsCountIn, AreNumbersIn};
ghost use Rattle.nrca_ranges.specs.Shapes.{IsExactShape, IsExactNumber, IsExactCount};
ghost use Rattle.nrca_ranges.specs.Bounds.{unknown};
ghost use Rattle.nrca_ranges.specs.Exact.{AreExactNumbers};
ghost use Rattle.nrca_ranges.specs.Spans.{span_of};
ghost use Rattle.nrca_ranges.specs.Transfer.{by_span};
ghost use Rattle.nrca_ranges.specs.Walk.{IsToldIn};

use crate::context::Ctx;
use crate::interval::{Interval, span};
use crate::shape::{Shape, count_interval, number_interval};
use crate::walk::{Progress, Told, walk};
use aql_value::Memory;
use nrca_term::{Core, Terms, weight};
use std::alloc::Global;

/// The most that a term may weigh, with the variables around it.
const MOST: u128 = 1280000;

/// Whether the term's variables are among `depth`, and with them it weighs at most 1,280,000.
pub fn is_small(term: &Core, depth: u64) -> bool
    ensures { IsTrue result ↔ IsSmallTerm depth (term_of term.now) }
{
    if weight(term).saturating_add(depth as u128) > MOST {
        return false;
    }
    is_closed(term, depth)
}

// Whether the term's variables are among `depth`.
#[cycle(closed)]
fn is_closed(term: &Core, depth: u64) -> bool
    requires { depth + weight_of (term_of term.now) ≤ 1280000 }
    ensures { IsTrue result ↔ Closed depth (term_of term.now) }
{
    match term.variable() {
        Some(i) => i < depth,
        None => are_closed(term, depth),
    }
}

// The same of a node that is no variable: of its parts.
#[cycle(closed)]
fn are_closed(term: &Core, depth: u64) -> bool
    requires room { depth + weight_of (term_of term.now) ≤ 1280000 }
    requires other { variable_of (form_of (term_of term.now)) ≡ None }
    ensures { IsTrue result ↔ Closed depth (term_of term.now) }
{
    for i in 0..term.parts() {
        if let Some(part) = term.part(i) {
            if !is_closed(part, depth + term.binders(i)) {
                return false;
            }
        }
    }
    true
}

/// What one walk tells of the term at the place.
pub fn tell(alloc: Global, term: &Core, ctx: &Ctx) -> Result<Told, Memory>
    requires inside { IsSmallTerm ctx.now.depth (term_of term.now) }
    ensures told { IfOk result (λ x. IsToldIn ctx.now (term_of term.now) x) }
    ensures holds { IfOk result (λ x. IsShapeIn ctx.now (term_of term.now) (bounds_of x.shape)) }
{
    let mut progress = Progress {
        facts: Vec::new(alloc),
        variables: Vec::new(alloc),
        told: Vec::new(alloc),
    };
    walk(alloc, term, ctx, ctx.depth, &mut progress)?;
    Ok(progress.told.remove(0))
}

/// The shape of the values that a term may have at the place: its span, where it has one. Of a term that
/// is not small nothing else is known.
pub fn shape_of(alloc: Global, term: &Core, ctx: &Ctx) -> Result<Shape, Memory>
    ensures holds { IfOk result (λ s. IsShapeIn ctx.now (term_of term.now) (bounds_of s)) }
    ensures tight { IfOk result (λ s. IsTightIn ctx.now (term_of term.now) (bounds_of s)) }
    ensures exact { IfOk result (λ s. IsExactShape ctx.now (term_of term.now) (bounds_of s)) }
{
    if is_small(term, ctx.depth) {
        let told = tell(alloc, term, ctx)?;
        Ok(told.shape)
    } else {
        Ok(span_shape(span(term, ctx)))
    }
}

// The interval, where there is one.
fn span_shape(span: Option<Interval>) -> Shape
    ensures { bounds_of result ≡ by_span (span_of span) unknown }
{
    match span {
        Some(i) => Shape::Number(i),
        None => Shape::Unknown,
    }
}

/// The interval of the numbers that a term may be at the place.
pub fn number_of(alloc: Global, term: &Core, ctx: &Ctx) -> Result<Interval, Memory>
    ensures holds { IfOk result (λ i. IsNumberIn ctx.now (term_of term.now) i) }
    ensures exact { IfOk result (λ i. IsExactNumber ctx.now (term_of term.now) i) }
{
    let told = shape_of(alloc, term, ctx)?;
    let interval = number_interval(&told);
    Ok(interval)
}

/// The interval of the number of members of the sets that a term may be at the place.
pub fn count_of(alloc: Global, term: &Core, ctx: &Ctx) -> Result<Interval, Memory>
    ensures holds { IfOk result (λ i. IsCountIn ctx.now (term_of term.now) i) }
    ensures exact { IfOk result (λ i. IsExactCount ctx.now (term_of term.now) i) }
{
    let told = shape_of(alloc, term, ctx)?;
    let interval = count_interval(&told);
    Ok(interval)
}

/// The intervals of the numbers that terms may be at the place.
pub fn numbers_of(alloc: Global, terms: &Terms, ctx: &Ctx) -> Result<Vec<Interval>, Memory>
    ensures holds { IfOk result (λ v. AreNumbersIn ctx.now (terms_of terms.now) v.items) }
    ensures exact { IfOk result (λ v. AreExactNumbers ctx.now (terms_of terms.now) v.items) }
{
    let mut intervals = Vec::new(alloc);
    for term in &terms.0 {
        let told = number_of(alloc, term, ctx)?;
        intervals.push(told)?;
    }
    Ok(intervals)
}
