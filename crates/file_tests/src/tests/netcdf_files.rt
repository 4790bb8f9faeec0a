//! Small netCDF files, word by word.

ghost use Rattle.std.specs.Prelude.{◌≡◌, IfOk};

use crate::tests::devices::{name_of, sure};
use aql_outside::Files;
use aql_value::{Index, Memory};
use cdf_header::{CdfFault, Header, read_header};
use std::alloc::Global;

/// One variable `v` of shorts over the record dimension `x` and `y` of length 3, with two records.
pub const ONE_RECORD_VARIABLE: &[u32] = &[
    0x43444601, 2, 0xa, 2, 1, 0x78000000, 0, 1, 0x79000000, 3, 0, 0, 0xb, 1, 1, 0x76000000, 2, 0,
    1, 0, 0, 3, 8, 0x60, 0x00010002, 0x00030004, 0x00050006,
];

/// A record variable `v` of shorts, with three in a record, and one `w` of single bytes.
pub const TWO_RECORD_VARIABLES: &[u32] = &[
    0x43444601, 2, 0xa, 2, 1, 0x78000000, 0, 1, 0x79000000, 3, 0, 0, 0xb, 2, 1, 0x76000000, 2, 0,
    1, 0, 0, 3, 8, 0x84, 1, 0x77000000, 1, 0, 0, 0, 1, 4, 0x8c, 0x00010002, 0x00030000, 0xff000000,
    0x00040005, 0x00060000, 0x02000000,
];

/// Times, latitudes and longitudes, and temperatures over all three with an attribute.
pub const TEMPERATURES: &[u32] = &[
    0x43444601, 4, 0xa, 3, 4, 0x74696d65, 0, 3, 0x6c617400, 2, 3, 0x6c6f6e00, 3, 0, 0, 0xb, 4, 4,
    0x74696d65, 1, 0, 0, 0, 6, 8, 0x10c, 3, 0x6c617400, 1, 1, 0, 0, 5, 8, 0xf8, 3, 0x6c6f6e00, 1,
    2, 0, 0, 5, 0xc, 0x100, 4, 0x74656d70, 3, 0, 1, 2, 0xc, 1, 0xc, 0x7363616c, 0x655f6661,
    0x63746f72, 5, 1, 0x3f000000, 3, 0xc, 0x114, 0x41200000, 0x41a00000, 0, 0x3f800000, 0x40000000,
    0, 0, 0x50006, 0x70008, 0x9000a, 0x3ff00000, 0, 0x10002, 0x30004, 0x50006, 0x40000000, 0,
    0x3fffe, 1, 0x10001, 0x40080000, 0, 0x40004, 0x40004, 0x40004,
];

/// A variable `u` of three unsigned numbers of 64 bits, in version 5.
pub const VERSION_5: &[u32] = &[
    0x43444605, 0, 0, 0xa, 0, 1, 0, 1, 0x78000000, 0, 3, 0, 0, 0, 0xb, 0, 1, 0, 1, 0x75000000, 0,
    1, 0, 0, 0, 0, 0, 0xb, 0, 0x18, 0, 0x80, 0, 1, 0xffffffff, 0xffffffff, 0, 7,
];

/// The words, each with its greatest byte first.
pub fn bytes_of(alloc: Global, words: &[u32]) -> Result<Vec<u8>, Memory> {
    let mut bytes = Vec::new(alloc);
    for word in words {
        bytes.extend_from_slice(&word.to_be_bytes())?;
    }
    Ok(bytes)
}

fn changed_words(
    alloc: Global,
    words: &[u32],
    changes: &[(usize, u32)],
) -> Result<Vec<u32>, Memory> {
    let mut all = Vec::from_slice(alloc, words)?;
    for (at, word) in changes {
        if *at < all.len() {
            all[*at] = *word;
        }
    }
    Ok(all)
}

/// The first bytes, as many as the size says, of the words, of which some are changed.
pub(crate) fn change_words(
    alloc: Global,
    words: &[u32],
    changes: &[(usize, u32)],
    size: usize,
) -> Result<Vec<u8>, Memory> {
    let words = changed_words(alloc, words, changes)?;
    let mut bytes = bytes_of(alloc, &words)?;
    bytes.truncate(size);
    Ok(bytes)
}

pub fn index_of(alloc: Global, at: &[u128]) -> Result<Index, Memory>
    ensures { IfOk result (λ i. i.items ≡ at.now) }
{
    Ok(Index::from_slice(alloc, at)?)
}

/// The header of a file, read over these files.
pub(crate) fn header_over<F: Files>(
    alloc: Global,
    files: &mut F,
    name: &[u8],
) -> Result<Header, CdfFault> {
    let name = name_of(alloc, name)?;
    read_header(alloc, files, &name)
}

/// The header of the file with these bytes.
pub fn header_of(alloc: Global, bytes: Result<Vec<u8>, Memory>) -> Result<Header, CdfFault> {
    let mut files = sure(alloc, bytes)?;
    header_over(alloc, &mut files, b"s")
}
