//! What operations make of intervals. An upper end of 2^128-1 means that or more.

ghost use Rattle.std.specs.Prelude.{◌≡◌, length};
ghost use Rattle.nrca_ranges.specs.Intervals as pure;

use crate::interval::{Interval, Intervals};
use aql_value::ArithOp;

/// The interval of all numbers.
pub(crate) fn everything() -> Interval
    ensures { result ≡ pure.everything }
{
    Interval {
        low: 0,
        high: u128::MAX,
    }
}

// Whether an upper end is one.
fn is_end(high: u128) -> bool
    ensures { result ≡ pure.is_end high }
{
    high < u128::MAX
}

/// The upper end of what is below the numbers that have this one.
pub(crate) fn end_below(high: u128) -> u128
    ensures { result ≡ pure.before high }
{
    if is_end(high) {
        high.saturating_sub(1)
    } else {
        high
    }
}

/// The least interval that holds both.
pub(crate) fn hull(a: Interval, b: Interval) -> Interval
    ensures { result ≡ pure.hull a b }
{
    Interval {
        low: a.low.min(b.low),
        high: a.high.max(b.high),
    }
}

/// The least intervals that hold those of both lists, place by place.
pub(crate) fn hulls(a: Intervals, b: &Intervals) -> Intervals
    requires { length a ≡ length b.now }
    ensures { result ≡ pure.hulls a b.now }
{
    let mut items = a.items;
    widen(&mut items, b.items.as_slice());
    Intervals { items }
}

// Widens each interval to hold the other at its place.
fn widen(a: &mut Vec<Interval>, b: &[Interval])
    requires { length a.old.items ≡ length b.now }
    ensures { a.new.items ≡ pure.hulls a.old.items b.now }
{
    for i in 0..b.len() {
        let wide = hull(a[i], b[i]);
        a[i] = wide;
    }
}

// The least that a difference may be, from the least first number and the greatest second one.
fn least_rest(low: u128, high: u128) -> u128
    ensures { result ≡ pure.least_rest low high }
{
    if is_end(high) {
        low.saturating_sub(high)
    } else {
        0
    }
}

/// The interval of what an operation makes of a number of the one and a number of the other.
pub(crate) fn arith_interval(op: ArithOp, a: Interval, b: Interval) -> Interval
    ensures { result ≡ pure.arith_interval op a b }
{
    match op {
        ArithOp::Add => Interval {
            low: a.low.saturating_add(b.low),
            high: a.high.saturating_add(b.high),
        },
        ArithOp::Mul => Interval {
            low: a.low.saturating_mul(b.low),
            high: a.high.saturating_mul(b.high),
        },
        ArithOp::Monus => Interval {
            low: least_rest(a.low, b.high),
            high: a.high,
        },
        ArithOp::Quotient => Interval {
            low: 0,
            high: a.high,
        },
        ArithOp::Remainder => Interval {
            low: 0,
            high: a.high.min(end_below(b.high)),
        },
    }
}

/// The number of members of the union of two sets.
pub(crate) fn union_count(a: Interval, b: Interval) -> Interval
    ensures { result ≡ pure.union_count a b }
{
    Interval {
        low: a.low.max(b.low),
        high: a.high.saturating_add(b.high),
    }
}

/// The number of members of a union of sets: how many sets, and how many members each of them has.
pub(crate) fn loop_count(a: Interval, b: Interval) -> Interval
    ensures { result ≡ pure.loop_count a b }
{
    Interval {
        low: 0,
        high: a.high.saturating_mul(b.high),
    }
}

/// The sum of numbers of the one interval, as many as the other says.
pub(crate) fn loop_sum(a: Interval, b: Interval) -> Interval
    ensures { result ≡ pure.loop_sum a b }
{
    Interval {
        low: a.low.saturating_mul(b.low),
        high: a.high.saturating_mul(b.high),
    }
}

/// Whether a sum of numbers of the one interval, as many as the other says, always has a value.
pub(crate) fn sum_fits(a: Interval, b: Interval) -> bool
    ensures { result ≡ pure.is_end (pure.loop_sum a b).high }
{
    let sum = loop_sum(a, b);
    is_end(sum.high)
}

/// Whether the operation has a value at all numbers of the two intervals.
pub(crate) fn always_fits(op: ArithOp, a: Interval, b: Interval) -> bool
    ensures { result ≡ pure.always_fits op a b }
{
    match op {
        ArithOp::Add => is_end(a.high.saturating_add(b.high)),
        ArithOp::Mul => is_end(a.high.saturating_mul(b.high)),
        ArithOp::Monus => true,
        ArithOp::Quotient => b.low > 0,
        ArithOp::Remainder => b.low > 0,
    }
}

/// Whether all numbers of the first interval are below all those of the second.
pub(crate) fn is_below(x: Interval, d: Interval) -> bool
    ensures { result ≡ pure.is_below x d }
{
    is_end(x.high) && x.high < d.low
}

/// Whether the interval is of one number alone.
pub(crate) fn is_single(i: Interval) -> bool
    ensures { result ≡ pure.is_single i }
{
    i.low == i.high && is_end(i.high)
}

/// Whether sets with so many members have exactly one.
pub(crate) fn is_one(count: Interval) -> bool
    ensures { result ≡ pure.is_one count }
{
    count.low == 1 && count.high == 1
}
