// Devices that fail or give few bytes, and names without a file.
use crate::tests::devices::{failing, few_bytes};
use crate::tests::record_files::{PAIRS, bytes_of, fault_of, read_file};
use aql_csv::CsvFault;
use aql_value::Memory;
use std::alloc::Global;
use std::process::Abort;

// The fault of a file, and how many calls on the files failed, or how many reads there were.
type Found = Result<(Option<CsvFault>, u64), Memory>;

fn assert_found(rt: &impl Abort, found: Found, wanted: (Option<CsvFault>, u64), which: u64) {
    assert!(rt; found == Ok(wanted), "{which}");
}

// The fault where one call fails, and how many calls failed.
fn failing_call(alloc: Global, name: &[u8], fails: u64) -> Found {
    let mut files = failing(alloc, bytes_of(alloc, PAIRS), fails)?;
    let fault = fault_of(read_file(alloc, &mut files, name, "NS", 18));
    let faults = files.faults();
    drop(files);
    Ok((fault, faults))
}

// The first call asks for the size, the second for the bytes, and there is no third. For a name that is not UTF-8 there is none.
const CALLS: [(&[u8], u64, Option<CsvFault>, u64); 6] = [
    (b"s", 1, Some(CsvFault::Device), 1),
    (b"s", 2, Some(CsvFault::Device), 1),
    (b"s", 3, None, 0),
    (b"t", 1, Some(CsvFault::Device), 1),
    (b"t", 2, Some(CsvFault::Absent), 0),
    (b"s\xff", 1, Some(CsvFault::Absent), 0),
];

#[test]
fn failing_calls(rt: HostRuntime) {
    for (name, fails, fault, faults) in &CALLS {
        let found = failing_call(rt.alloc(), name, *fails);
        assert_found(&rt, found, (*fault, *faults), *fails);
    }
}

// The fault where a read gives few bytes, and how many reads there were.
fn short_read(alloc: Global, most: usize, budget: u64) -> Found {
    let mut files = few_bytes(alloc, bytes_of(alloc, PAIRS), most)?;
    let fault = fault_of(read_file(alloc, &mut files, b"s", "NS", budget));
    let reads = files.reads();
    drop(files);
    Ok((fault, reads))
}

const SHORT: [(usize, u64, Option<CsvFault>, u64); 5] = [
    (0, 18, Some(CsvFault::Cut { at: 0 }), 1),
    (5, 18, Some(CsvFault::Cut { at: 5 }), 1),
    (17, 18, Some(CsvFault::Cut { at: 17 }), 1),
    (18, 18, None, 1),
    (5, 17, Some(CsvFault::Long { bytes: 18 }), 0),
];

#[test]
fn short_reads(rt: HostRuntime) {
    for (most, budget, fault, reads) in &SHORT {
        let found = short_read(rt.alloc(), *most, *budget);
        assert_found(&rt, found, (*fault, *reads), *most as u64);
    }
}
