//! The faults of a hyperslab that the header tells.

ghost use Rattle.std.specs.Prelude.{◌≡◌, ◌+◌, ◌<◌, ◌≤◌, min, length};
ghost use Rattle.aql_value.specs.Limits.{saturate};
ghost use Rattle.cdf_header.specs.Places.{variable_at, shape};
ghost use Rattle.cdf_slab.specs.Slab.{first_zero, first_outside, passes, wrong_variable, is_floating};
ghost use Rattle.cdf_slab.specs.Walk.{steps_of, walk, last_offset, first_past, saturate_all, HaveRoom};

use crate::axes::Axis;
use cdf_header::{CdfFault, Header};

/// The variable has another rank, or its numbers are floating.
pub(crate) fn variable_fault(header: &Header, v: u64, rank: u64) -> Option<CdfFault>
    requires { v < length header.now.vars }
    ensures { result ≡ wrong_variable (variable_at header.now v) rank }
{
    let found = header.rank(v);
    if found != rank {
        return Some(CdfFault::Rank { found });
    }
    if is_float_type(header.kind(v)) {
        return Some(CdfFault::FloatVariable);
    }
    None
}

fn is_float_type(kind: u32) -> bool
    ensures { result ≡ is_floating kind }
{
    kind == 5 || kind == 6
}

/// The first stride that is 0, counted from 1.
#[tactic(auto, using(crate::proofs::Firsts::zero_steps))]
pub(crate) fn zero_stride(stride: &[u128]) -> Option<u64>
    ensures { result ≡ first_zero 1 stride.now }
{
    'strides: for j in 0..stride.len() {
        if stride[j] == 0 {
            return Some(j as u64 + 1);
        }
    }
    None
}

// Whether a dimension of a length lacks one of the indices from a start on, so many, so far apart.
fn passes_length(length: u128, start: u128, count: u128, stride: u128) -> bool
    ensures { result ≡ passes length start count stride }
{
    if count == 0 {
        length < start
    } else {
        let last = (count - 1).saturating_mul(stride).saturating_add(start);
        last >= length
    }
}

/// The first dimension, counted from 1, that lacks one of the indices.
#[tactic(auto, using(crate::proofs::Firsts::outside_steps))]
pub(crate) fn outside_dimension(
    header: &Header,
    v: u64,
    start: &[u128],
    count: &[u128],
    stride: &[u128],
) -> Option<u64>
    requires variable { v < length header.now.vars }
    requires rank { length (variable_at header.now v).ids ≡ length start.now }
    requires counts { length count.now ≡ length start.now }
    requires strides { length stride.now ≡ length start.now }
    ensures { result ≡ first_outside 1 (shape header.now (variable_at header.now v))
        start.now count.now stride.now }
{
    'dimensions: for j in 0..start.len() {
        let length = header.length(v, j as u64);
        if passes_length(length, start[j], count[j], stride[j]) {
            return Some(j as u64 + 1);
        }
    }
    None
}

/// The first place in row-major order whose number passes the end, or 2^128-1 where it is larger.
/// Where the last number does not, none does.
pub(crate) fn cut_from(end: u64, size: u64, axes: &[Axis], base: u128) -> Option<u128>
    requires size { size ≤ 8 }
    ensures { result ≡ first_past size end (saturate_all (walk (steps_of axes.now) base)) }
{
    let last = last_from(axes, base);
    let to = last.saturating_add(u128::from(size));
    if to <= u128::from(end) {
        return None;
    }
    cut_in_order(end, size, axes, base)
}

/// The end of the last number, past which no other stands.
pub(crate) fn last_end(end: u64, size: u64, axes: &[Axis], base: u128) -> u64
    requires { HaveRoom size end (walk (steps_of axes.now) base) }
    ensures is { result ≡ min (last_offset (steps_of axes.now) base + size) end }
    ensures within { HaveRoom size result (walk (steps_of axes.now) base) }
{
    let last = last_from(axes, base);
    let to = last.saturating_add(u128::from(size));
    to.min(u128::from(end)) as u64
}

// The place of the last index of each dimension, or 2^128-1 where it is larger.
fn last_from(axes: &[Axis], base: u128) -> u128
    ensures { result ≡ saturate (last_offset (steps_of axes.now) base) }
{
    match axes {
        [] => base,
        [a, rest @ ..] => {
            let index = u128::from(a.count.saturating_sub(1))
                .saturating_mul(a.stride)
                .saturating_add(a.start);
            let here = index.saturating_mul(a.pitch).saturating_add(base);
            last_from(rest, here)
        }
    }
}

// The same as `cut_from`, place after place.
fn cut_in_order(end: u64, size: u64, axes: &[Axis], base: u128) -> Option<u128>
    requires size { size ≤ 8 }
    ensures { result ≡ first_past size end (saturate_all (walk (steps_of axes.now) base)) }
{
    match axes {
        [] => {
            if u128::from(end) < base.saturating_add(u128::from(size)) {
                Some(base)
            } else {
                None
            }
        }
        [a, rest @ ..] => {
            'cells: for i in 0..a.count {
                let index = u128::from(i)
                    .saturating_mul(a.stride)
                    .saturating_add(a.start);
                let here = index.saturating_mul(a.pitch).saturating_add(base);
                match cut_in_order(end, size, rest, here) {
                    Some(found) => return Some(found),
                    None => {}
                }
            }
            None
        }
    }
}
