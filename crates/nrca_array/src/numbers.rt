ghost use Rattle.std.specs.Prelude.{◌≡◌, ◌+◌, ◌*◌, ◌^◌, ◌<◌, [], ◌∷◌, ◌++◌, max, length, slice_index, IfOk};
ghost use Rattle.nrca_array.specs.Packing.{greatest, spell_numbers, width_for};
ghost use Rattle.nrca_array.specs.Kept.{width_bytes, numbers_at, IsWider, Respells, numbers_in, spelled_in};
ghost use Rattle.nrca_array.specs.Runs.{IsWidth, IsWhole, HaveBits, run_numbers, RespellsWith};

use crate::bytes::{number_at, put, put_all};
use crate::put_runs::put_run;
use crate::run::Run;
use crate::width::Width;
use aql_value::Memory;
use std::alloc::Global;
use std::marker::Model;

/// Naturals, each in the least width in which all of them fit. Contracts see the list.
#[derive(Drop)]
pub(crate) struct Numbers {
    width: Width,
    count: usize,
    bytes: Vec<u8>,
}

impl Model for Numbers {
    ghost use Rattle.std.specs.Prelude.{List, ℕ};
    ghost use Rattle.nrca_array.specs.Kept.{width_bytes, numbers_at, AreNumbers};

    ghost Value = { List ℕ };

    ghost view = { λ a. numbers_at (width_bytes a.width) a.count a.bytes.items };

    ghost invariant = { λ a. AreNumbers a.width a.count a.bytes.items };
}

impl Numbers {
    /// No numbers.
    pub(crate) fn new(alloc: Global) -> Numbers
        ensures { result ≡ [] }
    {
        Numbers {
            width: Width::One,
            count: 0,
            bytes: Vec::new(alloc),
        }
    }

    /// How many numbers.
    pub(crate) fn len(&self) -> usize
        ensures { result ≡ length self.now }
    {
        self.count
    }

    /// A number by its place.
    pub(crate) fn get(&self, at: usize) -> u128
        requires { at < length self.now }
        ensures { result ≡ slice_index self.now at }
    {
        number_at(self.width, &self.bytes, at)
    }

    /// One number more.
    pub(crate) fn push(self, alloc: Global, x: u128) -> Result<Numbers, Memory>
        ensures { IfOk result (λ ns. ns ≡ self ++ x ∷ []) }
    {
        let Numbers {
            width,
            count,
            bytes,
        } = self;
        let (width, mut bytes) = widen(alloc, width, count, bytes, Width::least(x))?;
        put(&mut bytes, width, x)?;
        Ok(Numbers {
            width,
            count: count + 1,
            bytes,
        })
    }

    /// Many numbers more.
    pub(crate) fn extend(self, alloc: Global, xs: &[u64]) -> Result<Numbers, Memory>
        ensures { IfOk result (λ ns. ns ≡ self ++ xs.now) }
    {
        let Numbers {
            width,
            count,
            bytes,
        } = self;
        let least = Width::least(u128::from(greatest_of(xs)));
        let (width, mut bytes) = widen(alloc, width, count, bytes, least)?;
        put_all(&mut bytes, width, xs)?;
        Ok(Numbers {
            width,
            count: count + xs.len(),
            bytes,
        })
    }

    /// The numbers of a run more, and the bits that some of them has.
    pub(crate) fn extend_run(self, alloc: Global, run: Run) -> Result<(Numbers, u64), Memory>
        requires size { IsWidth run.size }
        requires whole { IsWhole run }
        ensures numbers { IfOk result (λ r. r.0 ≡ self ++ run_numbers run.entry) }
        ensures bits { IfOk result (λ r. HaveBits (run_numbers run.entry) r.1) }
    {
        let Numbers {
            width,
            count,
            bytes,
        } = self;
        let (width, bytes, bits) = put_widened(alloc, width, count, bytes, run)?;
        let numbers = Numbers {
            width,
            count: count + run.count,
            bytes,
        };
        Ok((numbers, bits))
    }

    /// These numbers, and then the others.
    pub(crate) fn append(self, alloc: Global, others: Numbers) -> Result<Numbers, Memory>
        ensures { IfOk result (λ ns. ns ≡ self ++ others) }
    {
        if self.width.bytes() == others.width.bytes() {
            let Numbers {
                width,
                count,
                mut bytes,
            } = self;
            bytes.extend_from_slice(&others.bytes)?;
            return Ok(Numbers {
                width,
                count: count + others.count,
                bytes,
            });
        }
        let mut all = self;
        for i in 0..others.len() {
            all = all.push(alloc, others.get(i))?;
        }
        Ok(all)
    }

    /// The width, the count and the bytes themselves.
    pub(crate) fn into_parts(self) -> (Width, usize, Vec<u8>)
        ensures width { width_bytes result.0 ≡ width_for self }
        ensures count { result.1 ≡ length self }
        ensures bytes { result.2.items ≡ spell_numbers (width_for self) self }
        ensures small { greatest self < 2 ^ 128 }
    {
        (self.width, self.count, self.bytes)
    }

    /// The width in bits, and the bytes.
    pub(crate) fn lend(&self) -> (u64, &[u8])
        ensures width { result.0 ≡ 8 * width_for self.now }
        ensures bytes { result.1.now ≡ spell_numbers (width_for self.now) self.now }
    {
        (8 * self.width.bytes() as u64, &self.bytes)
    }

    /// Shows that each number fits 128 bits.
    pub(crate) fn fit(&self)
        ensures { greatest self.now < 2 ^ 128 }
    {
        let _count = self.count;
    }

    /// Equal numbers.
    pub(crate) fn copy(&self, alloc: Global) -> Result<Numbers, Memory>
        ensures { IfOk result (λ ns. ns ≡ self.now) }
    {
        let bytes = Vec::from_slice(alloc, &self.bytes)?;
        Ok(Numbers {
            width: self.width,
            count: self.count,
            bytes,
        })
    }
}

// The greatest of the numbers, and 0 of none.
#[tactic(auto, using(crate::proofs::Writing::greatest_more))]
fn greatest_of(xs: &[u64]) -> u64
    ensures { result ≡ greatest xs.now }
{
    let mut most = 0;
    for x in xs {
        if most < *x {
            most = *x;
        }
    }
    most
}

// The first numbers of one width, in the greater of the two widths.
fn widen(
    alloc: Global,
    width: Width,
    count: usize,
    bytes: Vec<u8>,
    least: Width,
) -> Result<(Width, Vec<u8>), Memory>
    requires spells { bytes.items ≡ spelled_in width (numbers_in width count bytes.items) }
    requires fits { greatest (numbers_in width count bytes.items) < 256 ^ width_bytes width }
    ensures width { IfOk result (λ r. IsWider width least r.0) }
    ensures bytes { IfOk result (λ r. Respells width count bytes r) }
{
    if least.bytes() <= width.bytes() {
        return Ok((width, bytes));
    }
    let mut wider = Vec::new(alloc);
    for i in 0..count {
        put(&mut wider, least, number_at(width, &bytes, i))?;
    }
    Ok((least, wider))
}

// The first numbers of one width and then those of a run, in the least width of all of these, and
// the bits that some number of the run has. Most often the width stays; where it does not, what was
// written of the run is written again.
fn put_widened(
    alloc: Global,
    width: Width,
    count: usize,
    mut bytes: Vec<u8>,
    run: Run,
) -> Result<(Width, Vec<u8>, u64), Memory>
    requires spells { bytes.items ≡ spelled_in width (numbers_in width count bytes.items) }
    requires fits { greatest (numbers_in width count bytes.items) < 256 ^ width_bytes width }
    requires size { IsWidth run.size }
    requires whole { IsWhole run }
    ensures width { IfOk result
        (λ r. width_bytes r.0 ≡ max (width_bytes width) (width_for (run_numbers run.entry))) }
    ensures bytes { IfOk result (λ r. RespellsWith width count bytes run.entry r.0 r.1) }
    ensures small { IfOk result (λ _. greatest (run_numbers run.entry) < 2 ^ 128) }
    ensures bits { IfOk result (λ r. HaveBits (run_numbers run.entry) r.2) }
{
    let from = bytes.len();
    let bits = put_run(&mut bytes, width, run)?;
    let least = Width::least(u128::from(bits));
    if least.bytes() <= width.bytes() {
        return Ok((width, bytes, bits));
    }
    bytes.truncate(from);
    let (width, mut bytes) = widen(alloc, width, count, bytes, least)?;
    put_run(&mut bytes, width, run)?;
    Ok((width, bytes, bits))
}
