// The fields of a header, one at a time.
ghost use Rattle.std.specs.Prelude.{◌≡◌, ◌⊎◌, ◌≤◌, ◌<◌, ◌*◌, ◌^◌, List, length, IfOk, None};
ghost use Rattle.cdf_header.specs.Format.{num, flaw, str, name, list, skip};
ghost use Rattle.cdf_header.specs.Gives.{GivesPart};
ghost use Rattle.cdf_header.specs.declared.test.Test.TheVariants.{NcType};

use crate::fault::{FieldFault, ReadError};
use crate::front::Front;
use crate::test::{Test, flaw_of};
use byteorder::{BigEndian, ByteOrder};
use std::alloc::Global;

#[tactic(auto, unfolding(crate::specs::Format::num))]
pub(crate) fn number(
    front: &Front,
    at: usize,
    width: usize,
    test: Test,
) -> Result<(u64, usize), ReadError>
    requires width { (width ≡ 4) ⊎ (width ≡ 8) }
    requires at { at ≤ length front.now.bytes.now }
    ensures read { GivesPart (λ x. x) (num width test) front.now.bytes.now at result }
    ensures good { IfOk result (λ x. flaw test at x.0 ≡ None) }
    ensures narrow { IfOk result (λ x. width ≡ 4 → x.0 < 2 ^ 32) }
{
    if front.bytes.len() - at < width {
        return Err(ReadError::Fault(FieldFault::Short { at }));
    }
    let part = &front.bytes[at..at + width];
    let n = if width == 4 {
        u64::from(BigEndian::read_u32(part))
    } else {
        BigEndian::read_u64(part)
    };
    match flaw_of(test, at, n) {
        Some(fault) => Err(ReadError::Fault(fault)),
        None => Ok((n, at + width)),
    }
}

// The number of a type.
pub(crate) fn type_of(front: &Front, at: usize) -> Result<(u32, usize), ReadError>
    requires at { at ≤ length front.now.bytes.now }
    ensures { GivesPart (λ x. x) (num 4 (NcType front.now.version)) front.now.bytes.now at result }
{
    let (kind, at) = number(
        front,
        at,
        4,
        Test::NcType {
            version: front.version,
        },
    )?;
    Ok((kind as u32, at))
}

#[tactic(auto, unfolding(crate::specs::Format::str))]
fn text(alloc: Global, front: &Front, at: usize, len: u64) -> Result<(Vec<u8>, usize), ReadError>
    requires at { at ≤ length front.now.bytes.now }
    ensures { GivesPart (λ x. x.items) (str len) front.now.bytes.now at result }
{
    let left = (front.bytes.len() - at) as u64;
    if left < len || left < len.div_ceil(4) * 4 {
        return Err(ReadError::Fault(FieldFault::Short { at }));
    }
    let len = len as usize;
    let text = Vec::from_slice(alloc, &front.bytes[at..at + len])?;
    Ok((text, at + (len + 3) / 4 * 4))
}

#[tactic(auto, unfolding(crate::specs::Format::name))]
pub(crate) fn name_of(
    alloc: Global,
    front: &Front,
    at: usize,
) -> Result<(Vec<u8>, usize), ReadError>
    requires at { at ≤ length front.now.bytes.now }
    ensures { GivesPart (λ x. x.items) (name front.now.version) front.now.bytes.now at result }
{
    let (len, at) = number(front, at, front.wide(), Test::Any)?;
    text(alloc, front, at, len)
}

// The count of a list, which may be absent.
#[tactic(auto, unfolding(crate::specs::Format::list))]
pub(crate) fn list_of(
    front: &Front,
    at: usize,
    own: u64,
    which: u8,
    most: u64,
) -> Result<(u64, usize), ReadError>
    requires at { at ≤ length front.now.bytes.now }
    ensures read { GivesPart (λ x. x) (list front.now.version own which most)
        front.now.bytes.now at result }
    ensures limit { IfOk result (λ x. x.0 ≤ most) }
{
    let (before, at) = number(front, at, 4, Test::Tag { own })?;
    number(
        front,
        at,
        front.wide(),
        Test::Count {
            before,
            list: which,
            most,
        },
    )
}

// A field of a count of values, whatever they are.
#[tactic(auto, unfolding(crate::specs::Format::skip))]
pub(crate) fn skip_over(
    front: &Front,
    at: usize,
    count: u64,
    size: u64,
) -> Result<((), usize), ReadError>
    requires at { at ≤ length front.now.bytes.now }
    requires size { (1 ≤ size) × (size ≤ 8) }
    ensures { GivesPart (λ _. tt) (skip (count * size)) front.now.bytes.now at result }
{
    let left = (front.bytes.len() - at) as u64;
    if left < count {
        return Err(ReadError::Fault(FieldFault::Short { at }));
    }
    let len = count * size;
    if left < (len + 3) / 4 * 4 {
        return Err(ReadError::Fault(FieldFault::Short { at }));
    }
    Ok(((), at + ((len + 3) / 4 * 4) as usize))
}
