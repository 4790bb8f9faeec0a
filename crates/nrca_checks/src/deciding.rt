//! Comparisons that the ranges of their sides decide. No call takes memory.

ghost use Rattle.std.specs.Prelude.{◌≡◌};
ghost use Rattle.std.specs.declared.cmp.Ordering.TheVariants.{Less, Greater};
ghost use Rattle.aql_value.specs.Ops.{compare_by};
ghost use Rattle.nrca_term.specs.View.{term_of};
ghost use Rattle.nrca_ranges.specs.Context.{context_of};
ghost use Rattle.nrca_ranges.specs.Spans.{span_of};
ghost use Rattle.nrca_checks.specs.Deciding.{decision, decided_of, DecidesTruth, DecidesApart};

use aql_value::CompareOp;
use nrca_ranges::{Ctx, Interval, span};
use nrca_term::Core;

/// The truth value of a comparison one side of which lies wholly below the other, by their spans.
pub fn decided(ctx: &Ctx, term: &Core) -> Option<bool>
    ensures exact { result ≡ decided_of (context_of ctx.now) (term_of term.now) }
    ensures value { DecidesTruth (context_of ctx.now) (term_of term.now) result }
    ensures apart { DecidesApart (context_of ctx.now) (term_of term.now) result }
{
    by_spans(ctx, term)
}

fn by_spans(ctx: &Ctx, term: &Core) -> Option<bool>
    ensures { result ≡ decided_of (context_of ctx.now) (term_of term.now) }
{
    match term {
        Core::Compare(op, a, b) => decide(*op, span(a, ctx), span(b, ctx)),
        _ => None,
    }
}

// By the spans of the sides.
fn decide(op: CompareOp, a: Option<Interval>, b: Option<Interval>) -> Option<bool>
    ensures { result ≡ decision op (span_of a) (span_of b) }
{
    match a {
        Some(x) => match b {
            Some(y) => {
                if x.high < y.low {
                    return Some(holds_below(op));
                }
                if y.high < x.low {
                    return Some(holds_above(op));
                }
                None
            }
            None => None,
        },
        None => None,
    }
}

// Whether the comparison holds of a number and a greater one.
fn holds_below(op: CompareOp) -> bool
    ensures { result ≡ compare_by op Less }
{
    match op {
        CompareOp::Equal => false,
        CompareOp::Unequal => true,
        CompareOp::Less => true,
        CompareOp::LessEqual => true,
        CompareOp::Greater => false,
        CompareOp::GreaterEqual => false,
    }
}

// Whether the comparison holds of a number and a smaller one.
fn holds_above(op: CompareOp) -> bool
    ensures { result ≡ compare_by op Greater }
{
    match op {
        CompareOp::Equal => false,
        CompareOp::Unequal => true,
        CompareOp::Less => false,
        CompareOp::LessEqual => false,
        CompareOp::Greater => true,
        CompareOp::GreaterEqual => true,
    }
}
