//! Comparisons of values that are lent, and of text that a term says: neither side is copied.

ghost use Rattle.std.specs.Prelude.{◌≡◌, IfSome};
ghost use Rattle.std.specs.Ordering.{nat_cmp};
ghost use Rattle.std.specs.Cmp.Lexicographic.{slice_cmp};
ghost use Rattle.aql_value.specs.Datum.{text};
ghost use Rattle.aql_value.specs.Meaning.{datum};
ghost use Rattle.aql_value.specs.Ops.{compare_by};
ghost use Rattle.nrca_loops.specs.Evaluates.{TakesNone};
ghost use Rattle.nrca_numbers.specs.Lending.{IsDatum};
ghost use Rattle.nrca_numbers.specs.Quick.{IsComparison, ComparesFree};

use crate::lending::lent_value;
use aql_value::{CompareOp, Str, Value};
use nrca_loops::{Env, Globals};
use nrca_term::Core;
use std::cmp::Ordering;

/// Whether a comparison holds of two terms, where both are lent, or are texts.
#[inline(never)]
pub(crate) fn lent_compare(
    op: CompareOp,
    first: &Core,
    second: &Core,
    globals: &Globals,
    env: &Env,
) -> Option<bool>
    ensures value { IfSome result
        (λ b. IsComparison globals.now env.now op first.now second.now b) }
    ensures turns { IfSome result
        (λ b. ComparesFree globals.now env.now op first.now second.now) }
{
    match lent_text(first, globals, env) {
        Some(a) => match lent_text(second, globals, env) {
            Some(b) => Some(text_compare(op, a, b)),
            None => None,
        },
        None => match lent_value(first, globals, env) {
            Some(a) => match lent_value(second, globals, env) {
                Some(b) => Some(op.holds(a, b)),
                None => None,
            },
            None => None,
        },
    }
}

// The text that a term says or that is lent for it.
fn lent_text<'a, 'b, 't: 'a>(
    term: &'t Core,
    globals: &'a Globals,
    env: &'a Env<'b>,
) -> Option<&'a Str>
    ensures value { IfSome result (λ s. IsDatum globals.now env.now term.now (text s.now)) }
    ensures turns { IfSome result (λ s. TakesNone globals.now env.now term.now) }
{
    match term {
        Core::Text(text) => Some(text),
        _ => match lent_value(term, globals, env) {
            Some(value) => text_of(value),
            None => None,
        },
    }
}

fn text_of(value: &Value) -> Option<&Str>
    ensures { IfSome result (λ s. datum value.now ≡ text s.now) }
{
    match value {
        Value::Text(text) => Some(text),
        _ => None,
    }
}

fn text_compare(op: CompareOp, a: &Str, b: &Str) -> bool
    ensures { result ≡ compare_by op (slice_cmp nat_cmp a.now b.now) }
{
    let order = a.bytes.as_slice().cmp(b.bytes.as_slice());
    match op {
        CompareOp::Equal => order == Ordering::Equal,
        CompareOp::Unequal => order != Ordering::Equal,
        CompareOp::Less => order == Ordering::Less,
        CompareOp::LessEqual => order != Ordering::Greater,
        CompareOp::Greater => order == Ordering::Greater,
        CompareOp::GreaterEqual => order != Ordering::Less,
    }
}
