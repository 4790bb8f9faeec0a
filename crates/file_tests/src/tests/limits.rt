// Headers as long as they may be, and lists that have as many items as they may have.
use crate::tests::devices::name_of;
use crate::tests::netcdf_files::{bytes_of, header_of};
use crate::tests::same::assert_same;
use aql_value::Memory;
use cdf_header::CdfFault;
use std::alloc::Global;
use std::process::Abort;

const MOST_BYTES: u64 = 16_777_216;

fn put(bytes: &mut Vec<u8>, words: &[u32]) -> Result<(), Memory> {
    for word in words {
        bytes.extend_from_slice(&word.to_be_bytes())?;
    }
    Ok(())
}

// A record dimension and one of length 3, an attribute of so many characters, and a variable `v` of shorts over both.
fn with_attribute(alloc: Global, count: u32) -> Result<Vec<u8>, Memory> {
    let front = [
        0x43444601, 2, 0xa, 2, 1, 0x78000000, 0, 1, 0x79000000, 3, 0xc, 1, 1, 0x61000000, 2, count,
    ];
    let mut bytes = bytes_of(alloc, &front)?;
    let len = bytes.len().saturating_add(count as usize);
    bytes.resize(len, 0x20)?;
    let begin = count.saturating_add(112);
    let back = [0xb, 1, 1, 0x76000000, 2, 0, 1, 0, 0, 3, 8, begin];
    put(&mut bytes, &back)?;
    Ok(bytes)
}

fn begin_in(alloc: Global, count: u32) -> Result<Option<u64>, CdfFault> {
    let header = header_of(alloc, with_attribute(alloc, count))?;
    let name = name_of(alloc, b"v")?;
    match header.find(&name) {
        Some(v) => Ok(Some(header.begin(v))),
        None => Ok(None),
    }
}

fn cut_fault(alloc: Global, count: u32, size: usize) -> Result<Option<CdfFault>, Memory> {
    let mut bytes = with_attribute(alloc, count)?;
    bytes.truncate(size);
    Ok(header_of(alloc, Ok(bytes)).err())
}

// An attribute of so many characters, where the variable's place begins, and the last field's
// offset.
type LongHeader = (u32, u64, u64);

const LONG_HEADERS: &[LongHeader] = &[
    (3984, 4096, 4092),
    (3988, 4100, 4096),
    (8000, 8112, 8108),
    (300000, 300112, 300108),
];

fn assert_long_header(rt: &impl Abort, alloc: Global, row: &LongHeader) {
    assert_same(rt, begin_in(alloc, row.0), Ok(Some(row.1)));
    let in_last = cut_fault(alloc, row.0, (row.2 as usize).saturating_add(3));
    let in_attribute = cut_fault(alloc, row.0, (row.0 as usize).saturating_add(63));
    assert_same(
        rt,
        [in_last, in_attribute],
        [malformed_at(row.2), malformed_at(64)],
    );
}

fn malformed_at(at: u64) -> Result<Option<CdfFault>, Memory> {
    Ok(Some(CdfFault::Malformed { at }))
}

// Headers that are longer than what is read first or at once, whole and cut.
#[test]
fn long_headers(rt: HostRuntime) {
    for row in LONG_HEADERS {
        assert_long_header(&rt, rt.alloc(), row);
    }
}

// A header may end where its greatest length does, and no field may pass that.
#[test]
fn longest_header(rt: HostRuntime) {
    let count = (MOST_BYTES - 112) as u32;
    let found = [begin_in(rt.alloc(), count), begin_in(rt.alloc(), count + 4)];
    let past = Err(CdfFault::Malformed { at: MOST_BYTES });
    assert_same(&rt, found, [Ok(Some(MOST_BYTES)), past]);
}

// So many dimensions of length 1, attributes, and bytes as variables over so many of the dimensions, none with a name.
#[derive(Clone, Copy)]
struct Counts {
    dims: u32,
    attributes: u32,
    vars: u32,
    ids: u32,
}

fn with_counts(alloc: Global, counts: Counts) -> Result<Vec<u8>, Memory> {
    let mut bytes = bytes_of(alloc, &[0x43444601, 0])?;
    put_lists(&mut bytes, counts)?;
    Ok(bytes)
}

fn put_lists(bytes: &mut Vec<u8>, counts: Counts) -> Result<(), Memory> {
    put_list(bytes, &[0xa, counts.dims], counts.dims, &[0, 1])?;
    put_list(
        bytes,
        &[0xc, counts.attributes],
        counts.attributes,
        &[0, 1, 0],
    )?;
    put(bytes, &[0xb, counts.vars])?;
    for _ in 0..counts.vars {
        put_variable(bytes, counts.ids)?;
    }
    Ok(())
}

// The head of a list, and so many times the same item.
fn put_list(bytes: &mut Vec<u8>, head: &[u32], count: u32, item: &[u32]) -> Result<(), Memory> {
    put(bytes, head)?;
    for _ in 0..count {
        put(bytes, item)?;
    }
    Ok(())
}

fn put_variable(bytes: &mut Vec<u8>, ids: u32) -> Result<(), Memory> {
    put(bytes, &[0, ids])?;
    for id in 0..ids {
        put(bytes, &[id])?;
    }
    put(bytes, &[0, 0, 1, 0, 0])
}

fn fault_with(alloc: Global, counts: Counts) -> Option<CdfFault> {
    header_of(alloc, with_counts(alloc, counts)).err()
}

const MOST: Counts = Counts {
    dims: 1024,
    attributes: 8192,
    vars: 8192,
    ids: 1,
};

const LISTS: &[(Counts, Option<CdfFault>)] = &[
    (MOST, None),
    (
        Counts { dims: 1025, ..MOST },
        Some(CdfFault::TooMany { list: 1 }),
    ),
    (
        Counts {
            attributes: 8193,
            ..MOST
        },
        Some(CdfFault::TooMany { list: 2 }),
    ),
    (
        Counts { vars: 8193, ..MOST },
        Some(CdfFault::TooMany { list: 3 }),
    ),
    (
        Counts {
            vars: 2,
            ids: 1024,
            ..MOST
        },
        None,
    ),
    (
        Counts {
            vars: 2,
            ids: 1025,
            ..MOST
        },
        Some(CdfFault::TooMany { list: 4 }),
    ),
];

// Each list with as many items as it may have, and with one more.
#[test]
fn longest_lists(rt: HostRuntime) {
    for row in LISTS {
        assert_same(&rt, fault_with(rt.alloc(), row.0), row.1);
    }
}
