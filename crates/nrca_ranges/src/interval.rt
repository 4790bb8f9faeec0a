//! Spans: the least and the greatest number that a term may be, as the facts and its form tell them.

ghost use Rattle.std.specs.Prelude.{◌≡◌, IfOk};
ghost use Rattle.nrca_term.specs.View.{term_of};
ghost use Rattle.nrca_term.specs.Firm as firm;
ghost use Rattle.nrca_ranges.specs.Context.{fact_of, facts_in, context_of};
ghost use Rattle.nrca_ranges.specs.Spans.{span_of, IsOrdered, span_of_variable};

use crate::context::{Ctx, Fact, Known};
use aql_value::{ArithOp, CompareOp, Memory};
use nrca_term::Core;
use std::alloc::Global;
use std::marker::Model;

/// The numbers from `low` to `high`, both among them.
#[derive(Clone, Copy)]
pub struct Interval {
    pub low: u128,
    pub high: u128,
}

/// The intervals of the dimensions of an array, the outermost first.
#[derive(Drop)]
pub struct Intervals {
    pub items: Vec<Interval>,
}

impl Model for Intervals {
    ghost use Rattle.std.specs.Prelude.{List};
    ghost use Rattle.nrca_ranges.specs.declared.interval.Interval.{Interval};

    ghost Value = { List Interval };

    ghost view = { λ s. s.items.items };
}

impl Intervals {
    /// Equal intervals.
    pub fn copy(&self, alloc: Global) -> Result<Intervals, Memory>
        ensures { IfOk result (λ s. s ≡ self.now) }
    {
        let mut items = Vec::new(alloc);
        items.extend_from_slice(self.items.as_slice())?;
        Ok(Intervals { items })
    }
}

// The number of the variable that a term is.
fn as_variable(term: &Core) -> Option<u64>
    ensures { result ≡ firm.as_variable (term_of term.now) }
{
    match term {
        Core::Var(i) => Some(*i),
        _ => None,
    }
}

// The span of a sum, where its greatest number is below 2^128.
fn add_spans(a: Option<Interval>, b: Option<Interval>) -> Option<Interval>
    requires a { IsOrdered a }
    requires b { IsOrdered b }
    ensures exact { span_of result ≡ firm.arith_span ArithOp.Add (span_of a) (span_of b) None }
    ensures ordered { IsOrdered result }
{
    match a {
        Some(x) => match b {
            Some(y) => match x.high.checked_add(y.high) {
                Some(high) => Some(Interval {
                    low: x.low + y.low,
                    high,
                }),
                None => None,
            },
            None => None,
        },
        None => None,
    }
}

// The span of a product, where its greatest number is below 2^128.
fn mul_spans(a: Option<Interval>, b: Option<Interval>) -> Option<Interval>
    requires a { IsOrdered a }
    requires b { IsOrdered b }
    ensures exact { span_of result ≡ firm.arith_span ArithOp.Mul (span_of a) (span_of b) None }
    ensures ordered { IsOrdered result }
{
    match a {
        Some(x) => match b {
            Some(y) => match x.high.checked_mul(y.high) {
                Some(high) => Some(Interval {
                    low: x.low * y.low,
                    high,
                }),
                None => None,
            },
            None => None,
        },
        None => None,
    }
}

// From 0 to the greatest number of a span.
fn from_zero(a: Option<Interval>) -> Option<Interval>
    ensures exact { span_of result ≡ firm.arith_span ArithOp.Monus (span_of a) (span_of a) None }
    ensures ordered { IsOrdered result }
{
    match a {
        Some(x) => Some(Interval {
            low: 0,
            high: x.high,
        }),
        None => None,
    }
}

/// The span of an arithmetic node, from those of its sides and the number that its second side is.
pub(crate) fn arith_span(
    op: ArithOp,
    a: Option<Interval>,
    b: Option<Interval>,
    n: Option<u128>,
) -> Option<Interval>
    requires a { IsOrdered a }
    requires b { IsOrdered b }
    ensures exact { span_of result ≡ firm.arith_span op (span_of a) (span_of b) n }
    ensures ordered { IsOrdered result }
{
    match op {
        ArithOp::Add => add_spans(a, b),
        ArithOp::Mul => mul_spans(a, b),
        ArithOp::Monus => from_zero(a),
        ArithOp::Quotient => match n {
            Some(0) => None,
            Some(_) => from_zero(a),
            None => None,
        },
        ArithOp::Remainder => match n {
            Some(0) => None,
            Some(n) => Some(Interval {
                low: 0,
                high: n - 1,
            }),
            None => None,
        },
    }
}

// What a comparison by < says of variable `i`, where `k` variables more stand around the place.
fn bound_of(i: u64, k: u64, a: &Core, b: &Core) -> Option<Interval>
    ensures exact { span_of result ≡ firm.bounded_variable i k (term_of a.now, term_of b.now) }
    ensures ordered { IsOrdered result }
{
    match as_variable(a) {
        Some(j) => match b.number() {
            Some(n) => {
                if i as u128 == j as u128 + k as u128 {
                    Some(Interval {
                        low: 0,
                        high: n.saturating_sub(1),
                    })
                } else {
                    None
                }
            }
            None => None,
        },
        None => None,
    }
}

// What a fact says of variable `i` among `depth` variables: a bound, where it is one that is a number.
fn fact_span(depth: u64, i: u64, fact: &Fact) -> Option<Interval>
    ensures exact { span_of result ≡ firm.fact_span depth i (fact_of fact.now) }
    ensures ordered { IsOrdered result }
{
    match fact.known {
        Known::Domain => match &fact.comparison {
            Core::Compare(CompareOp::Less, a, b) => {
                bound_of(i, depth.saturating_sub(fact.depth), a, b)
            }
            _ => None,
        },
        Known::Test => None,
        Known::Denied => None,
    }
}

/// The span of a variable: what the first fact tells that bounds it.
pub(crate) fn variable_span(ctx: &Ctx, i: u64) -> Option<Interval>
    ensures exact { span_of result ≡ span_of_variable ctx.now i }
    ensures ordered { IsOrdered result }
{
    span_among(ctx.facts.as_slice(), ctx.depth, i)
}

// The same of a list of facts among `depth` variables.
pub(crate) fn span_among(facts: &[Fact], depth: u64, i: u64) -> Option<Interval>
    ensures exact { span_of result ≡ firm.variable_span depth i (facts_in facts.now) }
    ensures ordered { IsOrdered result }
{
    for fact in facts {
        let found = fact_span(depth, i, fact);
        if found.is_some() {
            return found;
        }
    }
    None
}

/// The span of a term at the place.
pub fn span(term: &Core, ctx: &Ctx) -> Option<Interval>
    ensures exact { span_of result ≡ firm.span (context_of ctx.now) (term_of term.now) }
    ensures ordered { IsOrdered result }
{
    match term {
        Core::Var(i) => variable_span(ctx, *i),
        Core::Nat(n) => Some(Interval { low: *n, high: *n }),
        Core::Arith(op, a, b) => {
            let left = span(a, ctx);
            let right = span(b, ctx);
            arith_span(*op, left, right, b.number())
        }
        _ => None,
    }
}
