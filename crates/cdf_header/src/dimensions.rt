// The dimensions of a file, as those of a variable are held against them.
ghost use Rattle.std.specs.Prelude.{◌≡◌, ◌≤◌, length};
ghost use Rattle.cdf_header.specs.Format.{record_of};
ghost use Rattle.cdf_header.specs.Limits.{most_dimensions};

/// The lengths of the dimensions, and the number of the record dimension, where there is one.
#[derive(Clone, Copy)]
pub(crate) struct Dimensions<'a> {
    pub lengths: &'a [u64],
    pub unlimited: Option<u64>,
    ghost is: { unlimited ≡ record_of lengths.now },
}

impl Dimensions<'_> {
    /// Those of these lengths.
    pub fn new(lengths: &[u64]) -> Dimensions<'_>
        requires { length lengths.now ≤ most_dimensions }
        ensures { result.lengths.now ≡ lengths.now }
    {
        Dimensions {
            lengths,
            unlimited: record_in(lengths),
        }
    }
}

/// The number of the record dimension, the first of length 0.
pub(crate) fn record_in(lengths: &[u64]) -> Option<u64>
    requires { length lengths.now ≤ most_dimensions }
    ensures { result ≡ record_of lengths.now }
{
    let mut i = 0;
    'dims: for len in lengths {
        if *len == 0 {
            return Some(i);
        }
        i += 1;
    }
    None
}
