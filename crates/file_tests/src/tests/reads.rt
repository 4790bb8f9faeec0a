// Hyperslabs over devices that fail or give few bytes, the bytes that are asked for, and rows longer
// than what is read at once.
use crate::tests::asked::{ALL, Answer, Asked, CELLS, agrees, read_over, read_sure};
use crate::tests::devices::{FewBytes, failing, few_bytes, sure};
use crate::tests::netcdf_files::{ONE_RECORD_VARIABLE, TWO_RECORD_VARIABLES, bytes_of, header_of};
use crate::tests::same::assert_same;
use aql_outside::MemFiles;
use aql_value::Memory;
use cdf_header::{CdfFault, Header};
use nrca_array::Flat;
use std::alloc::Global;

fn read_failing(
    alloc: Global,
    files: Result<MemFiles, Memory>,
    header: Result<Header, CdfFault>,
) -> Result<Flat, CdfFault> {
    let mut files = files?;
    read_over(alloc, &mut files, header, b"v", ALL)
}

fn failing_agrees(alloc: Global, fails: u64, expected: Answer) -> bool {
    let files = failing(alloc, bytes_of(alloc, ONE_RECORD_VARIABLE), fails);
    let header = header_of(alloc, bytes_of(alloc, ONE_RECORD_VARIABLE));
    let found = read_failing(alloc, files, header);
    agrees(&found, expected)
}

// A hyperslab of the variable `v`, the furthest byte that was asked for, and how many were.
#[derive(Drop)]
struct ReadByFew {
    flat: Flat,
    furthest: u64,
    asked: u64,
}

fn read_few(
    alloc: Global,
    files: Result<FewBytes, Memory>,
    header: Result<Header, CdfFault>,
    request: Asked,
) -> Result<ReadByFew, CdfFault> {
    let mut files = files?;
    let flat = read_over(alloc, &mut files, header, b"v", request);
    let (furthest, asked) = (files.furthest(), files.asked());
    drop(files);
    let flat = flat?;
    Ok(ReadByFew {
        flat,
        furthest,
        asked,
    })
}

fn few_agrees(alloc: Global, most: usize, expected: Answer) -> bool {
    let files = few_bytes(alloc, bytes_of(alloc, ONE_RECORD_VARIABLE), most);
    let header = header_of(alloc, bytes_of(alloc, ONE_RECORD_VARIABLE));
    let found = match read_few(alloc, files, header, ALL) {
        Ok(read) => Ok(read.flat),
        Err(fault) => Err(fault),
    };
    agrees(&found, expected)
}

#[test]
fn failing_devices(rt: HostRuntime) {
    let alloc = rt.alloc();
    let first = failing_agrees(alloc, 1, Err(CdfFault::Device));
    let second = failing_agrees(alloc, 2, Ok((8, CELLS)));
    assert_same(&rt, [first, second], [true; 2]);
}

#[test]
fn devices_that_give_few_bytes(rt: HostRuntime) {
    let alloc = rt.alloc();
    let five = few_agrees(alloc, 5, Err(CdfFault::Cut { at: 100 }));
    let twelve = few_agrees(alloc, 12, Ok((8, CELLS)));
    assert_same(&rt, [five, twelve], [true; 2]);
}

// The furthest byte that is asked for, where the hyperslab is read.
fn furthest(alloc: Global, words: &[u32], request: Asked) -> Option<u64> {
    let files = few_bytes(alloc, bytes_of(alloc, words), 1000);
    let header = header_of(alloc, bytes_of(alloc, words));
    match read_few(alloc, files, header, request) {
        Ok(read) => Some(read.furthest),
        Err(_) => None,
    }
}

const FURTHEST: &[(&[u32], Asked, u64)] = &[
    (ONE_RECORD_VARIABLE, ALL, 108),
    (
        ONE_RECORD_VARIABLE,
        Asked::Naturals(&[0, 0], &[1, 2], &[1, 1]),
        100,
    ),
    (
        ONE_RECORD_VARIABLE,
        Asked::Naturals(&[0, 2], &[2, 0], &[1, 1]),
        0,
    ),
    (
        TWO_RECORD_VARIABLES,
        Asked::Naturals(&[0, 0], &[2, 2], &[1, 1]),
        148,
    ),
];

// No byte behind the last cell is asked for.
#[test]
fn furthest_bytes(rt: HostRuntime) {
    for row in FURTHEST {
        let found = furthest(rt.alloc(), row.0, row.1);
        assert_same(&rt, found, Some(row.2));
    }
}

// The header of one variable `v` of 40,000 shorts over one dimension.
const ROW_OF_SHORTS: &[u32] = &[
    0x43444601, 0, 0xa, 1, 1, 0x78000000, 40000, 0, 0, 0xb, 1, 1, 0x76000000, 1, 0, 0, 0, 3, 80000,
    80,
];

// A file of it; the short at i is i * 40503 modulo 32768, but that at `below` is -1.
fn long_row(alloc: Global, below: u32) -> Result<Vec<u8>, Memory> {
    let mut bytes = bytes_of(alloc, ROW_OF_SHORTS)?;
    for i in 0..40000u32 {
        let short = if i == below { 0xffff } else { short_at(i) };
        bytes.extend_from_slice(&short.to_be_bytes())?;
    }
    Ok(bytes)
}

fn short_at(i: u32) -> u16 {
    (i.wrapping_mul(40503) % 32768) as u16
}

// The bytes of every so many-th short from the first.
fn space_out(alloc: Global, stride: u32, count: u32) -> Result<Vec<u8>, Memory> {
    let mut bytes = Vec::new(alloc);
    for i in 0..count {
        let short = short_at(i.wrapping_mul(stride));
        bytes.extend_from_slice(&short.to_le_bytes())?;
    }
    Ok(bytes)
}

fn read_row(alloc: Global, below: u32, count: u128, stride: u128) -> Result<Flat, CdfFault> {
    let (count, stride) = ([count], [stride]);
    let request = Asked::Naturals(&[0], &count, &stride);
    let files = sure(alloc, long_row(alloc, below));
    let header = header_of(alloc, long_row(alloc, below));
    read_sure(alloc, files, header, b"v", request)
}

fn row_agrees(alloc: Global, stride: u32, count: u32) -> Result<bool, Memory> {
    let expected = space_out(alloc, stride, count)?;
    let found = read_row(alloc, 40000, u128::from(count), u128::from(stride));
    Ok(agrees(&found, Ok((16, &expected))))
}

// How many bytes are asked for, where every so many-th short is read.
fn bytes_wanted(alloc: Global, stride: u128, count: u128) -> Option<u64> {
    let (count, stride) = ([count], [stride]);
    let request = Asked::Naturals(&[0], &count, &stride);
    let files = few_bytes(alloc, long_row(alloc, 40000), usize::MAX);
    let header = header_of(alloc, long_row(alloc, 40000));
    match read_few(alloc, files, header, request) {
        Ok(read) => Some(read.asked),
        Err(_) => None,
    }
}

// A stride, a count, and how many bytes are asked for.
const ASKED_FOR: &[(u128, u128, u64)] = &[
    (1, 40000, 80000),
    (2048, 2, 4098),
    (2049, 2, 4),
    (4000, 10, 20),
    (39999, 2, 4),
];

// Numbers that stand far from each other are read alone, others with what is between them.
#[test]
fn bytes_asked_for(rt: HostRuntime) {
    for row in ASKED_FOR {
        let found = bytes_wanted(rt.alloc(), row.0, row.1);
        assert_same(&rt, found, Some(row.2));
    }
}

// A stride and a count.
const LONG_ROWS: &[(u32, u32)] = &[(1, 40000), (7, 5714), (4000, 10), (39999, 2)];

// Rows that are longer than what is read or decoded at once.
#[test]
fn long_rows(rt: HostRuntime) {
    for row in LONG_ROWS {
        assert_same(&rt, row_agrees(rt.alloc(), row.0, row.1), Ok(true));
    }
}

// Which short is below 0, the count, the stride, and the cell that the fault names.
const NEGATIVES: &[(u32, u128, u128, u64)] = &[(39998, 40000, 1, 39998), (21000, 5714, 7, 3000)];

// The first number below 0 in such rows.
#[test]
fn long_rows_with_a_number_below_0(rt: HostRuntime) {
    for row in NEGATIVES {
        let found = read_row(rt.alloc(), row.0, row.1, row.2).err();
        assert_same(&rt, found, Some(CdfFault::Negative { cell: row.3 }));
    }
}

// The short at i of 40,000, each below 256 but perhaps the last.
fn narrow_at(i: u32, last: u16) -> u16 {
    if i == 39999 { last } else { (i % 256) as u16 }
}

// The same file with these shorts.
fn narrow_row(alloc: Global, last: u16) -> Result<Vec<u8>, Memory> {
    let mut bytes = bytes_of(alloc, ROW_OF_SHORTS)?;
    for i in 0..40000u32 {
        bytes.extend_from_slice(&narrow_at(i, last).to_be_bytes())?;
    }
    Ok(bytes)
}

// Their bytes in so many bits, the lowest first.
fn narrow_bytes(alloc: Global, last: u16, width: u64) -> Result<Vec<u8>, Memory> {
    let mut bytes = Vec::new(alloc);
    for i in 0..40000u32 {
        let [low, high] = narrow_at(i, last).to_le_bytes();
        bytes.push(low)?;
        if width == 16 {
            bytes.push(high)?;
        }
    }
    Ok(bytes)
}

fn read_narrow(alloc: Global, last: u16) -> Result<Flat, CdfFault> {
    let files = sure(alloc, narrow_row(alloc, last));
    let header = header_of(alloc, narrow_row(alloc, last));
    let request = Asked::Naturals(&[0], &[40000], &[1]);
    read_sure(alloc, files, header, b"v", request)
}

fn narrow_agrees(alloc: Global, last: u16, width: u64) -> Result<bool, Memory> {
    let expected = narrow_bytes(alloc, last, width)?;
    let found = read_narrow(alloc, last);
    Ok(agrees(&found, Ok((width, &expected))))
}

// Shorts that fit in a byte are kept in one, and in two where one behind all others does not.
#[test]
fn narrow_rows(rt: HostRuntime) {
    let alloc = rt.alloc();
    let found = [narrow_agrees(alloc, 255, 8), narrow_agrees(alloc, 256, 16)];
    assert_same(&rt, found, [Ok(true); 2]);
}
