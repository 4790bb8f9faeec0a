// Hyperslabs of small files byte by byte.
use crate::tests::asked::{ALL, Answer, Asked, CELLS, agrees, read_sure};
use crate::tests::devices::sure;
use crate::tests::netcdf_files::{
    ONE_RECORD_VARIABLE, TEMPERATURES, TWO_RECORD_VARIABLES, VERSION_5, bytes_of, change_words,
    header_of,
};
use crate::tests::same::assert_same;
use aql_value::Memory;
use cdf_header::CdfFault;
use std::alloc::Global;

// A variable `c` of characters over the record dimension and seven dimensions of length 2, with two
// records; behind the header stand the bytes 0 to 255.
const EIGHT_DIMENSIONS: &[u32] = &[
    0x43444601, 2, 0xa, 8, 1, 0x61000000, 0, 1, 0x62000000, 2, 1, 0x63000000, 2, 1, 0x64000000, 2,
    1, 0x65000000, 2, 1, 0x66000000, 2, 1, 0x67000000, 2, 1, 0x68000000, 2, 0, 0, 0xb, 1, 1,
    0x63000000, 8, 0, 1, 2, 3, 4, 5, 6, 7, 0, 0, 2, 128, 192,
];

// A file's words, the changed words, how many bytes are left, the variable, what is asked, and what is answered.
type Case<'a> = (
    &'a [u32],
    &'a [(usize, u32)],
    usize,
    &'a [u8],
    Asked<'a>,
    Answer<'a>,
);

fn case_agrees(alloc: Global, case: &Case) -> bool {
    let (words, changes, size, variable, request, expected) = *case;
    let files = sure(alloc, change_words(alloc, words, changes, size));
    let header = header_of(alloc, change_words(alloc, words, changes, size));
    agrees(
        &read_sure(alloc, files, header, variable, request),
        expected,
    )
}

// The number of the first case that is answered otherwise.
fn first_other(alloc: Global, cases: &[Case]) -> Option<usize> {
    for (i, case) in cases.iter().enumerate() {
        if !case_agrees(alloc, case) {
            return Some(i);
        }
    }
    None
}

const S: &[u32] = ONE_RECORD_VARIABLE;

const P: &[u32] = TWO_RECORD_VARIABLES;

const T: &[u32] = TEMPERATURES;

const V: &[u32] = VERSION_5;

// A variable `v` of bytes of version 5, three times over one dimension of 2^64-2.
const HUGE_CUBE: &[u32] = &[
    0x43444605, 0, 0, 0xa, 0, 1, 0, 1, 0x78000000, 0xffffffff, 0xfffffffe, 0, 0, 0, 0xb, 0, 1, 0,
    1, 0x76000000, 0, 3, 0, 0, 0, 0, 0, 0, 0, 0, 0, 1, 0, 0, 0, 144,
];

const FAR: u128 = 18446744073709551613;

const HUGE: u128 = 340282366920938463463374607431768211455;

const ANSWERED: &[Case] = &[
    (
        S,
        &[],
        108,
        b"v",
        Asked::Naturals(&[0, 0], &[2, 3], &[1, 1]),
        Ok((8, &[1, 2, 3, 4, 5, 6])),
    ),
    (
        S,
        &[(1, 0xffffffff)],
        108,
        b"v",
        Asked::Naturals(&[0, 0], &[2, 3], &[1, 1]),
        Ok((8, &[1, 2, 3, 4, 5, 6])),
    ),
    (
        P,
        &[],
        156,
        b"v",
        Asked::Naturals(&[0, 0], &[2, 3], &[1, 1]),
        Ok((8, &[1, 2, 3, 4, 5, 6])),
    ),
    (
        S,
        &[],
        108,
        b"v",
        Asked::Naturals(&[0, 0], &[2, 2], &[1, 2]),
        Ok((8, &[1, 3, 4, 6])),
    ),
    (
        S,
        &[],
        108,
        b"v",
        Asked::Naturals(&[2, 0], &[0, 3], &[1, 1]),
        Ok((0, &[])),
    ),
    (
        P,
        &[],
        156,
        b"w",
        Asked::Pairs(&[0], &[2], &[1]),
        Ok((8, &[1, 2, 1, 0])),
    ),
    (
        T,
        &[],
        348,
        b"temp",
        Asked::Pairs(&[1, 0, 0], &[2, 2, 3], &[1, 1, 1]),
        Ok((
            8,
            &[
                1, 2, 3, 4, 5, 6, 3, 2, 0, 1, 1, 1, 0, 0, 0, 0, 0, 0, 0, 1, 0, 0, 0, 0,
            ],
        )),
    ),
    (
        V,
        &[],
        152,
        b"u",
        Asked::Naturals(&[0], &[3], &[1]),
        Ok((
            64,
            &[
                1, 0, 0, 0, 0, 0, 0, 0, 255, 255, 255, 255, 255, 255, 255, 255, 7, 0, 0, 0, 0, 0,
                0, 0,
            ],
        )),
    ),
    (
        V,
        &[],
        152,
        b"u",
        Asked::Naturals(&[0], &[2], &[2]),
        Ok((8, &[1, 7])),
    ),
    (
        V,
        &[(27, 0xa)],
        152,
        b"u",
        Asked::Pairs(&[0], &[3], &[1]),
        Ok((8, &[1, 1, 7, 0, 1, 0])),
    ),
];

const REFUSED: &[Case] = &[
    (
        HUGE_CUBE,
        &[],
        144,
        b"v",
        Asked::Naturals(&[FAR, FAR, FAR], &[1, 1, 1], &[1, 1, 1]),
        Err(CdfFault::Cut { at: HUGE }),
    ),
    (
        HUGE_CUBE,
        &[],
        144,
        b"v",
        Asked::Naturals(&[0, 0, FAR], &[1, 1, 1], &[1, 1, 1]),
        Err(CdfFault::Cut { at: FAR + 144 }),
    ),
    (
        S,
        &[],
        108,
        b"v",
        Asked::Naturals(&[0, 0], &[2, 4], &[1, 1]),
        Err(CdfFault::Outside { dimension: 2 }),
    ),
    (
        S,
        &[],
        108,
        b"v",
        Asked::Naturals(&[0, 0], &[HUGE, 0], &[1, 1]),
        Err(CdfFault::Outside { dimension: 1 }),
    ),
    (
        S,
        &[],
        107,
        b"v",
        Asked::Naturals(&[0, 0], &[2, 3], &[1, 1]),
        Err(CdfFault::Cut { at: 106 }),
    ),
    (
        S,
        &[],
        96,
        b"v",
        Asked::Naturals(&[0, 0], &[2, 3], &[1, 1]),
        Err(CdfFault::Cut { at: 96 }),
    ),
    (
        S,
        &[(23, 0xfffffff0)],
        108,
        b"v",
        Asked::Naturals(&[0, 0], &[2, 3], &[1, 1]),
        Err(CdfFault::Cut { at: 4294967280 }),
    ),
    (
        S,
        &[],
        108,
        b"v",
        Asked::Naturals(&[0], &[1], &[1]),
        Err(CdfFault::Rank { found: 2 }),
    ),
    (
        P,
        &[],
        156,
        b"w",
        Asked::Naturals(&[0], &[2], &[1]),
        Err(CdfFault::Negative { cell: 0 }),
    ),
    (
        T,
        &[],
        348,
        b"lat",
        Asked::Naturals(&[0], &[2], &[1]),
        Err(CdfFault::FloatVariable),
    ),
    (
        V,
        &[],
        152,
        b"u",
        Asked::Naturals(&[0], &[3], &[2]),
        Err(CdfFault::Outside { dimension: 1 }),
    ),
    (
        V,
        &[],
        152,
        b"u",
        Asked::Naturals(&[0], &[1], &[0]),
        Err(CdfFault::Stride { dimension: 1 }),
    ),
];

// Changed words, cut files, and faults that stand together.
const FAULTS: &[Case] = &[
    (S, &[(10, 0xc)], 108, b"v", ALL, Ok((8, CELLS))),
    (
        S,
        &[(21, 4)],
        108,
        b"v",
        Asked::Naturals(&[0, 0], &[1, 3], &[1, 1]),
        Ok((32, &[2, 0, 1, 0, 4, 0, 3, 0, 6, 0, 5, 0])),
    ),
    (
        S,
        &[(21, 4)],
        108,
        b"v",
        ALL,
        Err(CdfFault::Cut { at: 108 }),
    ),
    (
        P,
        &[(35, 0x80000000)],
        156,
        b"w",
        Asked::Pairs(&[0], &[2], &[1]),
        Ok((8, &[128, 2, 1, 0])),
    ),
    (
        P,
        &[(30, 2)],
        156,
        b"w",
        Asked::Naturals(&[0], &[2], &[1]),
        Ok((8, &[255, 2])),
    ),
    (
        S,
        &[(24, 0x80008001)],
        108,
        b"v",
        Asked::Pairs(&[0, 0], &[1, 2], &[1, 1]),
        Ok((16, &[0, 128, 255, 127, 1, 1])),
    ),
    (
        V,
        &[(27, 0xa)],
        152,
        b"u",
        Asked::Naturals(&[0], &[3], &[1]),
        Err(CdfFault::Negative { cell: 1 }),
    ),
    (
        V,
        &[(27, 0xa)],
        152,
        b"u",
        Asked::Naturals(&[0], &[2], &[2]),
        Ok((8, &[1, 7])),
    ),
    (
        P,
        &[],
        152,
        b"w",
        Asked::Naturals(&[0], &[2], &[1]),
        Err(CdfFault::Cut { at: 152 }),
    ),
    (
        S,
        &[],
        96,
        b"v",
        Asked::Naturals(&[0, 3], &[2, 1], &[1, 1]),
        Err(CdfFault::Outside { dimension: 2 }),
    ),
    (
        S,
        &[],
        108,
        b"v",
        Asked::Naturals(&[2, 3], &[1, 1], &[1, 0]),
        Err(CdfFault::Stride { dimension: 2 }),
    ),
    (
        S,
        &[],
        108,
        b"v",
        Asked::Naturals(&[3, 0], &[0, 3], &[1, 1]),
        Err(CdfFault::Outside { dimension: 1 }),
    ),
    (
        S,
        &[],
        108,
        b"v",
        Asked::Naturals(&[0, 0], &[1, 0], &[0, 1]),
        Err(CdfFault::Stride { dimension: 1 }),
    ),
    (
        T,
        &[],
        348,
        b"lat",
        Asked::Naturals(&[0], &[3], &[0]),
        Err(CdfFault::FloatVariable),
    ),
    (T, &[], 348, b"time", ALL, Err(CdfFault::Rank { found: 1 })),
];

fn cut(size: usize) -> Case<'static> {
    let at = size as u128 / 2 * 2;
    (S, &[], size, b"v", ALL, Err(CdfFault::Cut { at }))
}

// The first size that is answered otherwise, where the file is cut behind its header.
fn first_other_cut(alloc: Global) -> Option<usize> {
    for size in 96..108 {
        if !case_agrees(alloc, &cut(size)) {
            return Some(size);
        }
    }
    None
}

#[test]
fn hyperslabs(rt: HostRuntime) {
    assert_same(&rt, first_other(rt.alloc(), ANSWERED), None);
    assert_same(&rt, first_other(rt.alloc(), REFUSED), None);
    assert_same(&rt, first_other(rt.alloc(), FAULTS), None);
    assert_same(&rt, first_other_cut(rt.alloc()), None);
}

fn eight_dimensional(alloc: Global) -> Result<Vec<u8>, Memory> {
    let mut bytes = bytes_of(alloc, EIGHT_DIMENSIONS)?;
    for i in 0..256u32 {
        bytes.push(i as u8)?;
    }
    Ok(bytes)
}

fn eight_dimensions_agree(alloc: Global) -> bool {
    let start: [u128; 8] = [0, 1, 1, 1, 1, 1, 1, 0];
    let count: [u128; 8] = [2, 1, 1, 1, 1, 1, 1, 2];
    let request = Asked::Naturals(&start, &count, &[1; 8]);
    let files = sure(alloc, eight_dimensional(alloc));
    let header = header_of(alloc, eight_dimensional(alloc));
    let found = read_sure(alloc, files, header, b"c", request);
    agrees(&found, Ok((8, &[126, 127, 254, 255])))
}

// The last cell of each dimension but the first, and every second one of the last.
#[test]
fn eight_dimensions(rt: HostRuntime) {
    assert_same(&rt, eight_dimensions_agree(rt.alloc()), true);
}
