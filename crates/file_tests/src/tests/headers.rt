// Headers of small files, of cut and changed ones, and over devices that fail or give few bytes.
use crate::tests::devices::{failing, few_bytes, name_of};
use crate::tests::netcdf_files::{
    ONE_RECORD_VARIABLE, TEMPERATURES, TWO_RECORD_VARIABLES, VERSION_5, bytes_of, change_words,
    header_of, header_over, index_of,
};
use crate::tests::same::assert_same;
use aql_value::made::both;
use aql_value::{Index, Str};
use cdf_header::{CdfFault, Header};
use std::alloc::Global;
use std::process::Abort;

const WHOLE: usize = usize::MAX;

const S: &[u32] = ONE_RECORD_VARIABLE;

const P: &[u32] = TWO_RECORD_VARIABLES;

const T: &[u32] = TEMPERATURES;

const V: &[u32] = VERSION_5;

fn header_in(
    alloc: Global,
    words: &[u32],
    changes: &[(usize, u32)],
    size: usize,
) -> Result<Header, CdfFault> {
    header_of(alloc, change_words(alloc, words, changes, size))
}

fn length_in(header: &Header, name: &Str, j: u64) -> Option<u128> {
    let v = header.find(name)?;
    if j < header.rank(v) {
        Some(header.length(v, j))
    } else {
        None
    }
}

fn place_in(header: &Header, name: &Str, at: &Index) -> Option<u128> {
    let v = header.find(name)?;
    if header.rank(v) == at.len() as u64 {
        Some(header.place(v, at))
    } else {
        None
    }
}

fn kind_in(header: &Header, name: &Str) -> Option<u32> {
    let v = header.find(name)?;
    Some(header.kind(v))
}

// The bytes of the file, and a variable's first length, kind and place of a cell.
type Told = (u64, Option<u128>, Option<u32>, Option<u128>);

fn tell_header(alloc: Global, words: &[u32], name: &[u8], at: &[u128]) -> Result<Told, CdfFault> {
    let header = header_in(alloc, words, &[], WHOLE)?;
    let (name, at) = both(name_of(alloc, name), index_of(alloc, at))?;
    let length = length_in(&header, &name, 0);
    let kind = kind_in(&header, &name);
    Ok((header.bytes(), length, kind, place_in(&header, &name, &at)))
}

// A file's words, a variable, an index, the file's bytes, and the variable's first length, kind and place there.
const PLACES: &[(&[u32], &[u8], &[u128], u64, u128, u32, u128)] = &[
    (S, b"v", &[1, 1], 108, 2, 3, 104),
    (P, b"v", &[1, 1], 156, 2, 3, 146),
    (P, b"w", &[1], 156, 2, 1, 152),
    (T, b"temp", &[2, 1, 1], 348, 4, 3, 324),
    (T, b"time", &[3], 348, 4, 6, 328),
    (T, b"lon", &[2], 348, 3, 5, 264),
    (V, b"u", &[1], 152, 3, 11, 136),
];

#[test]
fn places(rt: HostRuntime) {
    for row in PLACES {
        let found = tell_header(rt.alloc(), row.0, row.1, row.2);
        let wanted = (row.3, Some(row.4), Some(row.5), Some(row.6));
        assert_same(&rt, found, Ok(wanted));
    }
}

#[test]
fn no_places_of_other_names(rt: HostRuntime) {
    for row in PLACES {
        let found = tell_header(rt.alloc(), row.0, b"none", row.2);
        assert_same(&rt, found, Ok((row.3, None, None, None)));
    }
}

// A file's words, the changed words, how many bytes are left, and the fault.
type Case<'a> = (&'a [u32], &'a [(usize, u32)], usize, Option<CdfFault>);

fn fault(alloc: Global, case: &Case) -> Option<CdfFault> {
    let (words, changes, size, _) = *case;
    header_in(alloc, words, changes, size).err()
}

// Each case has its fault.
fn meet(rt: &impl Abort, alloc: Global, cases: &[Case]) {
    for case in cases {
        assert_same(rt, fault(alloc, case), case.3);
    }
}

fn cut(size: usize) -> Case<'static> {
    let fault = if size < 4 {
        Some(CdfFault::NotClassic)
    } else if size < 96 {
        Some(CdfFault::Malformed {
            at: size as u64 / 4 * 4,
        })
    } else {
        None
    };
    (S, &[], size, fault)
}

const CUT: &[Case] = &[
    (V, &[], 122, Some(CdfFault::Malformed { at: 120 })),
    (
        &[0x43444603],
        &[],
        WHOLE,
        Some(CdfFault::Version { found: 3 }),
    ),
];

const CHANGED_WORDS: &[Case] = &[
    (
        S,
        &[(0, 0x43444600)],
        WHOLE,
        Some(CdfFault::Version { found: 0 }),
    ),
    (S, &[(0, 0x43444602)], WHOLE, None),
    (S, &[(2, 0xb)], WHOLE, Some(CdfFault::Malformed { at: 8 })),
    (S, &[(2, 0)], WHOLE, Some(CdfFault::Malformed { at: 12 })),
    (S, &[(3, 0x401)], WHOLE, Some(CdfFault::TooMany { list: 1 })),
    (
        S,
        &[(2, 0), (3, 0x401)],
        WHOLE,
        Some(CdfFault::TooMany { list: 1 }),
    ),
    (
        S,
        &[(4, 0xffffffff)],
        WHOLE,
        Some(CdfFault::Malformed { at: 20 }),
    ),
    (S, &[(5, 0x78ffffff)], WHOLE, None),
    (S, &[(9, 0)], WHOLE, Some(CdfFault::Malformed { at: 36 })),
    (S, &[(10, 0xc)], WHOLE, None),
    (
        S,
        &[(10, 0xc), (11, 0x2001)],
        WHOLE,
        Some(CdfFault::TooMany { list: 2 }),
    ),
    (
        S,
        &[(13, 0x2001)],
        WHOLE,
        Some(CdfFault::TooMany { list: 3 }),
    ),
    (
        S,
        &[(16, 0x401)],
        WHOLE,
        Some(CdfFault::TooMany { list: 4 }),
    ),
    (S, &[(17, 2)], WHOLE, Some(CdfFault::Malformed { at: 68 })),
    (
        S,
        &[(17, 1), (18, 0)],
        WHOLE,
        Some(CdfFault::Malformed { at: 72 }),
    ),
    (S, &[(21, 7)], WHOLE, Some(CdfFault::Malformed { at: 84 })),
];

// Attributes of a variable, and the wide fields of version 5.
const CHANGED_FIELDS: &[Case] = &[
    (T, &[(50, 0)], WHOLE, Some(CdfFault::Malformed { at: 204 })),
    (
        T,
        &[(51, 0x2001)],
        WHOLE,
        Some(CdfFault::TooMany { list: 2 }),
    ),
    (T, &[(56, 0)], WHOLE, Some(CdfFault::Malformed { at: 224 })),
    (T, &[(56, 7)], WHOLE, Some(CdfFault::Malformed { at: 224 })),
    (
        T,
        &[(57, 0xffffffff)],
        WHOLE,
        Some(CdfFault::Malformed { at: 232 }),
    ),
    (V, &[(4, 1)], WHOLE, Some(CdfFault::TooMany { list: 1 })),
    (V, &[(13, 1)], WHOLE, Some(CdfFault::Malformed { at: 48 })),
    (V, &[(22, 1)], WHOLE, Some(CdfFault::Malformed { at: 88 })),
    (V, &[(27, 0)], WHOLE, Some(CdfFault::Malformed { at: 108 })),
    (V, &[(27, 12)], WHOLE, Some(CdfFault::Malformed { at: 108 })),
];

#[test]
fn cut_and_changed_files(rt: HostRuntime) {
    let alloc = rt.alloc();
    for size in 0..108 {
        meet(&rt, alloc, &[cut(size)]);
    }
    meet(&rt, alloc, CUT);
    meet(&rt, alloc, CHANGED_WORDS);
    meet(&rt, alloc, CHANGED_FIELDS);
}

fn stream_changed(
    alloc: Global,
    words: &[u32],
    changes: &[(usize, u32)],
    name: &[u8],
    size: usize,
) -> Result<Option<u128>, CdfFault> {
    let header = header_in(alloc, words, changes, size)?;
    let name = name_of(alloc, name)?;
    Ok(length_in(&header, &name, 0))
}

// A file's words, the changed ones, a variable, how many bytes are left, and the number of records.
type Streamed<'a> = (&'a [u32], &'a [(usize, u32)], &'a [u8], usize, u128);

// In the last a record is longer than the file.
const STREAMED: &[Streamed] = &[
    (S, &[(1, 0xffffffff)], b"v", 108, 2),
    (S, &[(1, 0xffffffff)], b"v", 107, 1),
    (S, &[(1, 0xffffffff)], b"v", 96, 0),
    (P, &[(1, 0xffffffff)], b"w", 156, 2),
    (T, &[(1, 0xffffffff)], b"temp", 347, 3),
    (S, &[(1, 0xffffffff), (9, 0x7fffffff)], b"v", 108, 0),
];

#[test]
fn streaming(rt: HostRuntime) {
    for row in STREAMED {
        let found = stream_changed(rt.alloc(), row.0, row.1, row.2, row.3);
        assert_same(&rt, found, Ok(Some(row.4)));
    }
}

fn kind_of(alloc: Global, words: &[u32], changes: &[(usize, u32)], name: &[u8]) -> Option<u32> {
    match header_in(alloc, words, changes, WHOLE) {
        Ok(header) => match name_of(alloc, name) {
            Ok(name) => kind_in(&header, &name),
            Err(_) => None,
        },
        Err(_) => None,
    }
}

// Of two variables of one name the first counts.
#[test]
fn equal_names(rt: HostRuntime) {
    let renamed = [(25, 0x76000000)];
    let found = [
        kind_of(rt.alloc(), P, &[], b"w"),
        kind_of(rt.alloc(), P, &renamed, b"w"),
        kind_of(rt.alloc(), P, &renamed, b"v"),
    ];
    assert_same(&rt, found, [Some(1), None, Some(3)]);
}

const DEVICES: &[(u64, &[u8], Option<CdfFault>)] = &[
    (1, b"s", Some(CdfFault::Device)),
    (2, b"s", Some(CdfFault::Device)),
    (3, b"s", None),
    (1, b"\xff", Some(CdfFault::Absent)),
    (3, b"none", Some(CdfFault::Absent)),
];

fn fault_failing(alloc: Global, fails: u64, name: &[u8]) -> Option<CdfFault> {
    match failing(alloc, bytes_of(alloc, S), fails) {
        Ok(mut files) => header_over(alloc, &mut files, name).err(),
        Err(_) => Some(CdfFault::Memory),
    }
}

#[test]
fn devices(rt: HostRuntime) {
    for row in DEVICES {
        let found = fault_failing(rt.alloc(), row.0, row.1);
        assert_same(&rt, found, row.2);
    }
}

fn fault_of_few(alloc: Global, most: usize) -> Option<CdfFault> {
    match few_bytes(alloc, bytes_of(alloc, S), most) {
        Ok(mut files) => header_over(alloc, &mut files, b"s").err(),
        Err(_) => Some(CdfFault::Memory),
    }
}

const FEW_BYTES: &[(usize, Option<CdfFault>)] = &[
    (3, Some(CdfFault::NotClassic)),
    (50, Some(CdfFault::Malformed { at: 48 })),
    (97, None),
];

#[test]
fn few_bytes_at_a_time(rt: HostRuntime) {
    for row in FEW_BYTES {
        assert_same(&rt, fault_of_few(rt.alloc(), row.0), row.1);
    }
}
