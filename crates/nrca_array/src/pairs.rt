ghost use Rattle.std.specs.Prelude.{◌≡◌, ◌<◌, ◌*◌, length, map, IfOk, slice_get, Some};
ghost use Rattle.nrca_array.specs.Packing.{pairs_packing};
ghost use Rattle.nrca_array.specs.Kept.{paired_up, AreSmallPairs};

use crate::bytes::number_at;
use crate::numbers::Numbers;
use crate::truths::Truths;
use crate::width::Width;
use aql_value::Memory;
use std::alloc::Global;
use std::marker::Model;

/// Pairs of a truth value and a natural: the naturals of all, each in the least width in which
/// all of them fit, and then a byte 0 or 1 for each. Contracts see the list of pairs.
#[derive(Drop)]
pub(crate) struct Pairs {
    width: Width,
    count: usize,
    bytes: Vec<u8>,
}

impl Model for Pairs {
    ghost use Rattle.std.specs.Prelude.{List, ℕ, Bool};
    ghost use Rattle.nrca_array.specs.Kept.{width_bytes, pairs_at, ArePairs};

    ghost Value = { List (Bool × ℕ) };

    ghost view = { λ a. pairs_at (width_bytes a.width) a.count a.bytes.items };

    ghost invariant = { λ a. ArePairs (width_bytes a.width) a.count a.bytes.items };
}

impl Pairs {
    /// The pairs of a truth value and a number at each place.
    pub(crate) fn new(numbers: Numbers, truths: Truths) -> Result<Pairs, Memory>
        requires { length truths ≡ length numbers }
        ensures { IfOk result (λ ps. ps ≡ paired_up truths numbers) }
    {
        let (width, count, mut bytes) = numbers.into_parts();
        bytes.extend_from_slice(truths.lend())?;
        Ok(Pairs {
            width,
            count,
            bytes,
        })
    }

    /// How many pairs.
    pub(crate) fn len(&self) -> usize
        ensures { result ≡ length self.now }
    {
        self.count
    }

    /// A pair by its place.
    pub(crate) fn get(&self, at: usize) -> (bool, u128)
        requires { at < length self.now }
        ensures { slice_get self.now at ≡ Some result }
    {
        let truths = self.count * self.width.bytes();
        let b = self.bytes[truths + at] == 1;
        (b, number_at(self.width, &self.bytes, at))
    }

    /// The width in bits, and the bytes.
    pub(crate) fn lend(&self) -> (u64, &[u8])
        ensures width { result.0 ≡ (pairs_packing self.now).0 }
        ensures bytes { result.1.now ≡ (pairs_packing self.now).1 }
    {
        (8 * self.width.bytes() as u64, &self.bytes)
    }

    /// Shows that each number fits 128 bits.
    #[tactic(auto, using(crate::proofs::Fitting::small_pairs))]
    pub(crate) fn fit(&self)
        ensures { AreSmallPairs self.now }
    {
        let _count = self.count;
    }

    /// Equal pairs.
    pub(crate) fn copy(&self, alloc: Global) -> Result<Pairs, Memory>
        ensures { IfOk result (λ ps. ps ≡ self.now) }
    {
        let bytes = Vec::from_slice(alloc, &self.bytes)?;
        Ok(Pairs {
            width: self.width,
            count: self.count,
            bytes,
        })
    }
}
