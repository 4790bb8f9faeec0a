//! The dimensions of a hyperslab, each with the bytes from one index to the next.

ghost use Rattle.std.specs.Prelude.{◌≡◌, ◌<◌, ◌^◌, IfOk, length};
ghost use Rattle.std.specs.List.{All};
ghost use Rattle.cdf_header.specs.Places.{variable_at, pitches};
ghost use Rattle.cdf_slab.specs.Walk.{steps_of, steps, saturate_all};

use aql_value::Memory;
use cdf_header::Header;
use std::alloc::Global;

/// One dimension of a hyperslab: where it starts, how many, how far apart, and the bytes from one
/// index of the variable's dimension to the next, or 2^128-1 where there are more.
#[derive(Clone, Copy, Debug, PartialEq, Eq)]
pub(crate) struct Axis {
    pub start: u128,
    pub count: u64,
    pub stride: u128,
    pub pitch: u128,
}

/// The dimensions of a hyperslab of a variable, whose counts fit 64 bits.
pub(crate) fn axes_of(
    alloc: Global,
    header: &Header,
    v: u64,
    start: &[u128],
    count: &[u128],
    stride: &[u128],
) -> Result<Vec<Axis>, Memory>
    requires variable { v < length header.now.vars }
    requires rank { length (variable_at header.now v).ids ≡ length start.now }
    requires counts { length count.now ≡ length start.now }
    requires strides { length stride.now ≡ length start.now }
    requires fit { All (λ c. c < 2 ^ 64) count.now }
    ensures { IfOk result (λ axes. steps_of axes.items ≡ steps start.now count.now stride.now
        (saturate_all (pitches header.now.dims header.now.vars (variable_at header.now v)))) }
{
    let mut axes = Vec::new(alloc);
    'axes: for j in 0..start.len() {
        axes.push(Axis {
            start: start[j],
            count: count[j] as u64,
            stride: stride[j],
            pitch: header.pitch(v, j as u64),
        })?;
    }
    Ok(axes)
}
