//! Runs of numbers written in the width of a list.

ghost use Rattle.std.specs.Prelude.{◌≡◌, ◌+◌, ◌*◌, ◌≤◌, ◌++◌, length, drop, IfOk};
ghost use Rattle.byteorder.specs.Endian.{big_number};
ghost use Rattle.nrca_array.specs.Packing.{spell_numbers};
ghost use Rattle.nrca_array.specs.Kept.{width_bytes, little_in, spelled_in};
ghost use Rattle.nrca_array.specs.Runs.{IsWidth, IsWhole, HasAllBytes, HaveBits, run, run_numbers};

use crate::bytes::{end_of, write_low};
use crate::run::Run;
use crate::width::Width;
use byteorder::{BigEndian, ByteOrder, LittleEndian};
use std::alloc::AllocError;

/// Adds the numbers of a run at the end, of each as many of its lowest bytes as the width has, and
/// answers the bits that some of them has.
pub(crate) fn put_run(bytes: &mut Vec<u8>, width: Width, run: Run) -> Result<u64, AllocError>
    requires size { IsWidth run.size }
    requires whole { IsWhole run }
    ensures bytes { IfOk result
        (λ _. bytes.new.items ≡ bytes.old.items ++ spelled_in width (run_numbers run.entry)) }
    ensures bits { IfOk result (HaveBits (run_numbers run.entry)) }
{
    let from = bytes.len();
    let end = end_of(from, width, run.count).ok_or(AllocError)?;
    bytes.resize(end, 0)?;
    Ok(write_run(&mut bytes[from..], width, run))
}

// Writes the numbers of a run over bytes of which there are exactly enough. Where a number keeps
// its width there is a loop of its own, and one of a known step where no gap is between.
fn write_run(buffer: &mut [u8], width: Width, run: Run) -> u64
    requires size { IsWidth run.size }
    requires whole { IsWhole run }
    requires enough { length buffer.old ≡ run.count * width_bytes width }
    ensures bytes { buffer.new ≡ spell_numbers (width_bytes width) (run_numbers run.entry) }
    ensures bits { HaveBits (run_numbers run.entry) result }
{
    match (run.size, run.step, width) {
        (1, 1, Width::One) => write_bytes(buffer, run.bytes, 1, run.count),
        (2, 2, Width::Two) => write_shorts(buffer, run.bytes, 2, run.count),
        (4, 4, Width::Four) => write_ints(buffer, run.bytes, 4, run.count),
        (8, 8, Width::Eight) => write_longs(buffer, run.bytes, 8, run.count),
        (1, step, Width::One) => write_bytes(buffer, run.bytes, step, run.count),
        (2, step, Width::Two) => write_shorts(buffer, run.bytes, step, run.count),
        (4, step, Width::Four) => write_ints(buffer, run.bytes, step, run.count),
        (8, step, Width::Eight) => write_longs(buffer, run.bytes, step, run.count),
        _ => write_others(buffer, width, run),
    }
}

#[inline(always)]
fn write_bytes(buffer: &mut [u8], bytes: &[u8], step: usize, count: usize) -> u64
    requires room { HasAllBytes bytes.now 1 step count }
    requires enough { length buffer.old ≡ count }
    ensures bytes { buffer.new ≡ spell_numbers 1 (run 1 step count bytes.now) }
    ensures bits { HaveBits (run 1 step count bytes.now) result }
{
    let mut bits = 0u8;
    for k in 0..count {
        let n = bytes[k * step];
        bits |= n;
        buffer[k] = n;
    }
    u64::from(bits)
}

#[inline(always)]
fn write_shorts(buffer: &mut [u8], bytes: &[u8], step: usize, count: usize) -> u64
    requires room { HasAllBytes bytes.now 2 step count }
    requires enough { length buffer.old ≡ 2 * count }
    ensures bytes { buffer.new ≡ spell_numbers 2 (run 2 step count bytes.now) }
    ensures bits { HaveBits (run 2 step count bytes.now) result }
{
    let mut bits = 0u16;
    for k in 0..count {
        let n = BigEndian::read_u16(&bytes[k * step..]);
        bits |= n;
        LittleEndian::write_u16(&mut buffer[2 * k..], n);
    }
    u64::from(bits)
}

#[inline(always)]
fn write_ints(buffer: &mut [u8], bytes: &[u8], step: usize, count: usize) -> u64
    requires room { HasAllBytes bytes.now 4 step count }
    requires enough { length buffer.old ≡ 4 * count }
    ensures bytes { buffer.new ≡ spell_numbers 4 (run 4 step count bytes.now) }
    ensures bits { HaveBits (run 4 step count bytes.now) result }
{
    let mut bits = 0u32;
    for k in 0..count {
        let n = BigEndian::read_u32(&bytes[k * step..]);
        bits |= n;
        LittleEndian::write_u32(&mut buffer[4 * k..], n);
    }
    u64::from(bits)
}

#[inline(always)]
fn write_longs(buffer: &mut [u8], bytes: &[u8], step: usize, count: usize) -> u64
    requires room { HasAllBytes bytes.now 8 step count }
    requires enough { length buffer.old ≡ 8 * count }
    ensures bytes { buffer.new ≡ spell_numbers 8 (run 8 step count bytes.now) }
    ensures bits { HaveBits (run 8 step count bytes.now) result }
{
    let mut bits = 0u64;
    for k in 0..count {
        let n = BigEndian::read_u64(&bytes[k * step..]);
        bits |= n;
        LittleEndian::write_u64(&mut buffer[8 * k..], n);
    }
    bits
}

// The same where a number has another width in the file.
fn write_others(buffer: &mut [u8], width: Width, run: Run) -> u64
    requires size { IsWidth run.size }
    requires whole { IsWhole run }
    requires enough { length buffer.old ≡ run.count * width_bytes width }
    ensures bytes { buffer.new ≡ spell_numbers (width_bytes width) (run_numbers run.entry) }
    ensures bits { HaveBits (run_numbers run.entry) result }
{
    let w = width.bytes();
    let mut bits = 0;
    for k in 0..run.count {
        let n = run.get(k);
        bits |= n;
        write_low(&mut buffer[w * k..], width, n);
    }
    bits
}
