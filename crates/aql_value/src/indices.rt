ghost use Rattle.std.specs.Prelude.{◌≡◌, ◌<◌, ◌*◌, ◌^◌, true, min, nat_lt};
ghost use Rattle.std.specs.Cmp.Lexicographic.{pointwise};
ghost use Rattle.aql_value.specs.Indices.{product, offset};

use smallvec::SmallVec;

/// An index of an array, of which the first eight places need no allocation.
pub type Index = SmallVec<u128, 8>;

/// The number of cells of these dimensions, or 2^128-1 where it is larger. A 0 among them gives 0.
#[tactic(auto, using(crate::specs::Laws::Saturation::product_more))]
pub fn saturating_product(dims: &[u128]) -> u128
    ensures { result ≡ min (product dims.now) u128.MAX }
{
    let mut all: u128 = 1;
    for d in dims {
        all = all.saturating_mul(*d);
    }
    all
}

/// Whether there are as many numbers as dimensions, and each is below its own.
pub fn is_below(at: &[u128], dims: &[u128]) -> bool
    ensures { result ≡ pointwise nat_lt at.now dims.now }
{
    if at.len() != dims.len() {
        return false;
    }
    for (j, i) in at.iter().enumerate() {
        if *i >= dims[j] {
            return false;
        }
    }
    true
}

/// The place of an index in row-major order.
pub fn offset_at(at: &[u128], dims: &[u128]) -> u128
    requires below { pointwise nat_lt at.now dims.now ≡ true }
    requires fits { product dims.now < 2 ^ 128 }
    ensures { result ≡ offset dims.now at.now }
{
    let mut place: u128 = 0;
    for (j, i) in at.iter().enumerate() {
        place = place * dims[j] + *i;
    }
    place
}
