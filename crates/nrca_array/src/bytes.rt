//! Numbers in bytes: of what is kept the lowest byte stands first, of what is read the highest.

ghost use Rattle.std.specs.Prelude.{◌≡◌, ◌+◌, ◌*◌, ◌^◌, ◌<◌, ◌≤◌, ◌++◌, length, drop, IfSome, OnOk, OnErr};
ghost use Rattle.byteorder.specs.Endian.{little_number, big_number};
ghost use Rattle.nrca_array.specs.Packing.{greatest, spell_numbers};
ghost use Rattle.nrca_array.specs.Kept.{width_bytes, little_in, spelled_in};
ghost use Rattle.nrca_array.specs.Runs.{IsWidth};

use crate::width::Width;
use byteorder::{BigEndian, ByteOrder, LittleEndian};
use std::alloc::AllocError;

/// The number whose bytes stand at a place.
pub(crate) fn number_at(width: Width, bytes: &[u8], at: usize) -> u128
    requires { at * width_bytes width + width_bytes width ≤ length bytes.now }
    ensures { result ≡ little_number (width_bytes width) (drop (at * width_bytes width) bytes.now) }
{
    first_number(width, &bytes[at * width.bytes()..])
}

/// The number in the first bytes.
fn first_number(width: Width, part: &[u8]) -> u128
    requires { width_bytes width ≤ length part.now }
    ensures { result ≡ little_number (width_bytes width) part.now }
{
    match width {
        Width::One => u128::from(part[0]),
        Width::Two => u128::from(LittleEndian::read_u16(part)),
        Width::Four => u128::from(LittleEndian::read_u32(part)),
        Width::Eight => u128::from(LittleEndian::read_u64(part)),
        Width::Sixteen => LittleEndian::read_u128(part),
    }
}

/// The number in the first bytes, the highest first.
#[inline(always)]
pub(crate) fn first_big(size: usize, part: &[u8]) -> u64
    requires size { IsWidth size }
    requires room { size ≤ length part.now }
    ensures { result ≡ big_number size part.now }
{
    match size {
        1 => u64::from(part[0]),
        2 => u64::from(BigEndian::read_u16(part)),
        4 => u64::from(BigEndian::read_u32(part)),
        _ => BigEndian::read_u64(part),
    }
}

/// Writes the lowest bytes of a number over the first of these, the lowest first.
#[inline(always)]
pub(crate) fn write_low(part: &mut [u8], width: Width, x: u64)
    requires { width_bytes width ≤ length part.old }
    ensures { part.new ≡ little_in width x ++ drop (width_bytes width) part.old }
{
    match width {
        Width::One => part[0] = (x & 0xff) as u8,
        Width::Two => LittleEndian::write_u16(part, (x & 0xffff) as u16),
        Width::Four => LittleEndian::write_u32(part, (x & 0xffff_ffff) as u32),
        Width::Eight => LittleEndian::write_u64(part, x),
        Width::Sixteen => LittleEndian::write_u128(part, u128::from(x)),
    }
}

/// Adds a number's bytes at the end.
pub(crate) fn put(bytes: &mut Vec<u8>, width: Width, x: u128) -> Result<(), AllocError>
    requires { x < 256 ^ width_bytes width }
    ensures ok { OnOk result (bytes.new.items ≡ bytes.old.items ++ little_in width x) }
    ensures err { OnErr result (bytes.new.items ≡ bytes.old.items) }
{
    let mut buffer = [0u8; 16];
    LittleEndian::write_u128(&mut buffer, x);
    bytes.extend_from_slice(&buffer[..width.bytes()])
}

/// Adds the bytes of many numbers at the end.
pub(crate) fn put_all(bytes: &mut Vec<u8>, width: Width, xs: &[u64]) -> Result<(), AllocError>
    requires { greatest xs.now < 256 ^ width_bytes width }
    ensures { OnOk result (bytes.new.items ≡ bytes.old.items ++ spelled_in width xs.now) }
{
    let from = bytes.len();
    let end = end_of(from, width, xs.len()).ok_or(AllocError)?;
    bytes.resize(end, 0)?;
    write_all(&mut bytes[from..], width, xs);
    Ok(())
}

/// Where the bytes of so many numbers end: nowhere, if memory has no such place.
pub(crate) fn end_of(from: usize, width: Width, count: usize) -> Option<usize>
    ensures { IfSome result (λ end. end ≡ from + count * width_bytes width) }
{
    count.checked_mul(width.bytes())?.checked_add(from)
}

// Writes numbers over bytes of which there are exactly enough.
fn write_all(buffer: &mut [u8], width: Width, xs: &[u64])
    requires room { length buffer.old ≡ length xs.now * width_bytes width }
    requires fits { greatest xs.now < 256 ^ width_bytes width }
    ensures { buffer.new ≡ spell_numbers (width_bytes width) xs.now }
{
    match width {
        Width::One => write_in_one(buffer, xs),
        Width::Two => write_in_two(buffer, xs),
        Width::Four => write_in_four(buffer, xs),
        Width::Eight => write_in_eight(buffer, xs),
        Width::Sixteen => write_in_sixteen(buffer, xs),
    }
}

#[tactic(auto, using(crate::proofs::Spelling::get_greatest))]
fn write_in_one(buffer: &mut [u8], xs: &[u64])
    requires room { length buffer.old ≡ length xs.now }
    requires fits { greatest xs.now < 2 ^ 8 }
    ensures { buffer.new ≡ spell_numbers 1 xs.now }
{
    for i in 0..xs.len() {
        buffer[i] = xs[i] as u8;
    }
}

#[tactic(auto, using(crate::proofs::Spelling::get_greatest))]
fn write_in_two(buffer: &mut [u8], xs: &[u64])
    requires room { length buffer.old ≡ 2 * length xs.now }
    requires fits { greatest xs.now < 2 ^ 16 }
    ensures { buffer.new ≡ spell_numbers 2 xs.now }
{
    for i in 0..xs.len() {
        LittleEndian::write_u16(&mut buffer[2 * i..], xs[i] as u16);
    }
}

#[tactic(auto, using(crate::proofs::Spelling::get_greatest))]
fn write_in_four(buffer: &mut [u8], xs: &[u64])
    requires room { length buffer.old ≡ 4 * length xs.now }
    requires fits { greatest xs.now < 2 ^ 32 }
    ensures { buffer.new ≡ spell_numbers 4 xs.now }
{
    for i in 0..xs.len() {
        LittleEndian::write_u32(&mut buffer[4 * i..], xs[i] as u32);
    }
}

fn write_in_eight(buffer: &mut [u8], xs: &[u64])
    requires room { length buffer.old ≡ 8 * length xs.now }
    ensures { buffer.new ≡ spell_numbers 8 xs.now }
{
    for i in 0..xs.len() {
        LittleEndian::write_u64(&mut buffer[8 * i..], xs[i]);
    }
}

fn write_in_sixteen(buffer: &mut [u8], xs: &[u64])
    requires room { length buffer.old ≡ 16 * length xs.now }
    ensures { buffer.new ≡ spell_numbers 16 xs.now }
{
    for i in 0..xs.len() {
        LittleEndian::write_u128(&mut buffer[16 * i..], u128::from(xs[i]));
    }
}
