// Reading files: values, faults, cut files and changed headers.
use crate::tests::running::{
    Folder, Ran, SURE, assert_past, assert_ran, assert_same, bytes, run_over,
};
use aql_outside::FreeGate;
use aql_value::Memory;
use aql_value::made::both;
use std::alloc::Global;
use std::collections::BTreeMap;
use std::process::Abort;
use std::thread::Threads;

// One variable `v` of shorts over the record dimension `x` and `y` of length 3, with two records.
const ONE_RECORD_VARIABLE: &[u32] = &[
    0x43444601, 2, 0xa, 2, 1, 0x78000000, 0, 1, 0x79000000, 3, 0, 0, 0xb, 1, 1, 0x76000000, 2, 0,
    1, 0, 0, 3, 8, 0x60, 0x00010002, 0x00030004, 0x00050006,
];

// A record variable `v` of shorts, with three in a record, and one `w` of single bytes.
const TWO_RECORD_VARIABLES: &[u32] = &[
    0x43444601, 2, 0xa, 2, 1, 0x78000000, 0, 1, 0x79000000, 3, 0, 0, 0xb, 2, 1, 0x76000000, 2, 0,
    1, 0, 0, 3, 8, 0x84, 1, 0x77000000, 1, 0, 0, 0, 1, 4, 0x8c, 0x00010002, 0x00030000, 0xff000000,
    0x00040005, 0x00060000, 0x02000000,
];

// Times, latitudes and longitudes, and temperatures over all three with an attribute.
const TEMPERATURES: &[u32] = &[
    0x43444601, 4, 0xa, 3, 4, 0x74696d65, 0, 3, 0x6c617400, 2, 3, 0x6c6f6e00, 3, 0, 0, 0xb, 4, 4,
    0x74696d65, 1, 0, 0, 0, 6, 8, 0x10c, 3, 0x6c617400, 1, 1, 0, 0, 5, 8, 0xf8, 3, 0x6c6f6e00, 1,
    2, 0, 0, 5, 0xc, 0x100, 4, 0x74656d70, 3, 0, 1, 2, 0xc, 1, 0xc, 0x7363616c, 0x655f6661,
    0x63746f72, 5, 1, 0x3f000000, 3, 0xc, 0x114, 0x41200000, 0x41a00000, 0, 0x3f800000, 0x40000000,
    0, 0, 0x50006, 0x70008, 0x9000a, 0x3ff00000, 0, 0x10002, 0x30004, 0x50006, 0x40000000, 0,
    0x3fffe, 1, 0x10001, 0x40080000, 0, 0x40004, 0x40004, 0x40004,
];

// A variable `u` of three unsigned numbers of 64 bits, in version 5.
const VERSION_5: &[u32] = &[
    0x43444605, 0, 0, 0xa, 0, 1, 0, 1, 0x78000000, 0, 3, 0, 0, 0, 0xb, 0, 1, 0, 1, 0x75000000, 0,
    1, 0, 0, 0, 0, 0, 0xb, 0, 0x18, 0, 0x80, 0, 1, 0xffffffff, 0xffffffff, 0, 7,
];

/// The bytes of these words.
pub(crate) fn bytes_of(alloc: Global, words: &[u32]) -> Result<Vec<u8>, Memory> {
    let mut bytes = Vec::new(alloc);
    for word in words {
        bytes.extend_from_slice(&word.to_be_bytes())?;
    }
    Ok(bytes)
}

fn text(alloc: Global, content: &str) -> Result<String, Memory> {
    Ok(String::from_str(alloc, content)?)
}

/// The folder with one file more.
pub(crate) fn with_file(
    alloc: Global,
    folder: Result<Folder, Memory>,
    name: &str,
    bytes: Result<Vec<u8>, Memory>,
) -> Result<Folder, Memory> {
    let (mut folder, (name, bytes)) = both(folder, both(text(alloc, name), bytes))?;
    folder.insert(name, bytes)?;
    Ok(folder)
}

// A folder with one file.
fn folder_of(alloc: Global, bytes: Result<Vec<u8>, Memory>) -> Result<Folder, Memory> {
    with_file(alloc, Ok(BTreeMap::new(alloc)), "s.nc", bytes)
}

// These words, of which some are changed, each at its offset in bytes.
fn changed_words(
    alloc: Global,
    words: &[u32],
    changes: &[(usize, u32)],
) -> Result<Vec<u32>, Memory> {
    let mut all = words.to_vec(alloc)?;
    for (offset, word) in changes {
        if let Some(place) = all.get_mut(*offset / 4) {
            *place = *word;
        }
    }
    Ok(all)
}

// The bytes of these words, of which some are changed.
fn changed_bytes(
    alloc: Global,
    words: &[u32],
    changes: &[(usize, u32)],
) -> Result<Vec<u8>, Memory> {
    let words = changed_words(alloc, words, changes)?;
    let bytes = bytes_of(alloc, &words);
    drop(words);
    bytes
}

// A file of a streaming number of records.
fn streaming(alloc: Global) -> Result<Vec<u8>, Memory> {
    changed_bytes(alloc, ONE_RECORD_VARIABLE, &[(4, 0xffff_ffff)])
}

// A file of signed numbers.
fn signed_file(alloc: Global) -> Result<Vec<u8>, Memory> {
    changed_bytes(alloc, VERSION_5, &[(108, 0xa)])
}

// The folder with the files of the tables that have values.
fn with_values(alloc: Global) -> Result<Folder, Memory> {
    let all = folder_of(alloc, bytes_of(alloc, ONE_RECORD_VARIABLE));
    let all = with_file(alloc, all, "p.nc", bytes_of(alloc, TWO_RECORD_VARIABLES));
    let all = with_file(alloc, all, "t.nc", bytes_of(alloc, TEMPERATURES));
    with_file(alloc, all, "v.nc", bytes_of(alloc, VERSION_5))
}

/// The files that the tables read.
pub(crate) fn folder(alloc: Global) -> Result<Folder, Memory> {
    let all = with_file(alloc, with_values(alloc), "three", bytes(alloc, b"CDF\x03"));
    let all = with_file(alloc, all, "short", bytes(alloc, b"CDF\x01"));
    let all = with_file(alloc, all, "streaming", streaming(alloc));
    with_file(alloc, all, "signed", signed_file(alloc))
}

// A script and what is written; the status is 0.
#[derive(Clone, Copy)]
struct Row<'a>(&'a str, &'a str);

const VALUES: &[Row<'static>] = &[
    Row(
        "readval \\T using NETCDFZ3 at (\"t.nc\",\"temp\",(1,0,0),(2,2,3)); {h | [(\\h,_,_):(true,_)] <- T};",
        "typ T : [[bool * nat]]_3\nval T = [[2,2,3; (false, 1), (false, 2), (false, 3), (false, 4), (false, 5), (false, 6), (false, 3), (true, 2), (false, 0), (false, 1), (false, 1), (false, 1)]]\ntyp it : {nat}\nval it = {1}\n",
    ),
    Row(
        "readval \\V using NETCDF2 at (\"s.nc\",\"v\",(0,0),(2,3));",
        "typ V : [[nat]]_2\nval V = [[2,3; 1, 2, 3, 4, 5, 6]]\n",
    ),
    Row(
        "readval \\V using NETCDF2 at (\"p.nc\",\"v\",(0,0),(2,3));",
        "typ V : [[nat]]_2\nval V = [[2,3; 1, 2, 3, 4, 5, 6]]\n",
    ),
    Row(
        "readval \\V using NETCDF2 at (\"streaming\",\"v\",(0,0),(2,3));",
        "typ V : [[nat]]_2\nval V = [[2,3; 1, 2, 3, 4, 5, 6]]\n",
    ),
    Row(
        "readval \\V using NETCDF2 at (\"s.nc\",\"v\",(2,0),(0,3));",
        "typ V : [[nat]]_2\nval V = [[0,3; ]]\n",
    ),
    Row(
        "readval \\W using NETCDFZ1 at (\"p.nc\",\"w\",0,2);",
        "typ W : [[bool * nat]]_1\nval W = [[2; (true, 1), (false, 2)]]\n",
    ),
    Row(
        "readval \\V using NETCDF2 at (\"s.nc\",\"v\",(1/0,0),(2,3));",
        "typ V : [[nat]]_2\nval V = undefined\n",
    ),
    Row(
        "readval \\U using NETCDF1 at (\"v.nc\",\"u\",0,3);",
        "typ U : [[nat]]_1\nval U = [[3; 1, 18446744073709551615, 7]]\n",
    ),
    Row(
        "readval \\U using NETCDFS1 at (\"v.nc\",\"u\",0,2,2);",
        "typ U : [[nat]]_1\nval U = [[2; 1, 7]]\n",
    ),
    Row(
        "readval \\U using NETCDFZ1 at (\"signed\",\"u\",0,3);",
        "typ U : [[bool * nat]]_1\nval U = [[3; (false, 1), (true, 1), (false, 7)]]\n",
    ),
];

// The argument of a reader, its name, and what is said of the file.
#[derive(Clone, Copy)]
struct Refused<'a>(&'a str, &'a str, &'a str);

const FAULTS: &[Refused<'static>] = &[
    Refused("NETCDF1", "(\"t.nc\",\"lat\",0,2)", "float variable"),
    Refused(
        "NETCDF2",
        "(\"s.nc\",\"v\",(0,0),(2,4))",
        "outside dimension 2",
    ),
    Refused("NETCDF1", "(\"p.nc\",\"w\",0,2)", "negative cell 0"),
    Refused("NETCDF1", "(\"none.nc\",\"v\",0,1)", "absent"),
    Refused("NETCDF1", "(\"three\",\"v\",0,1)", "version 3"),
    Refused("NETCDF1", "(\"short\",\"v\",0,1)", "malformed at 4"),
    Refused("NETCDF1", "(\"s.nc\",\"q\",0,1)", "no variable"),
    Refused("NETCDF1", "(\"s.nc\",\"v\",0,1)", "rank 2"),
    Refused("NETCDFS1", "(\"v.nc\",\"u\",0,3,2)", "outside dimension 1"),
    Refused("NETCDFS1", "(\"v.nc\",\"u\",0,1,0)", "stride 1"),
    Refused("NETCDF1", "(\"signed\",\"u\",0,3)", "negative cell 1"),
    Refused(
        "NETCDF2",
        "(\"s.nc\",\"v\",(0,0),(340282366920938463463374607431768211455,0))",
        "outside dimension 1",
    ),
];

const READ: &[u8] = b"readval \\V using NETCDF2 at (\"s.nc\",\"v\",(0,0),(2,3));";

const READ_VALUE: &[u8] = b"typ V : [[nat]]_2\nval V = [[2,3; 1, 2, 3, 4, 5, 6]]\n";

// A run of a script over the files of the tables.
fn run_read<R: Threads + Sync>(rt: &R, alloc: Global, script: &[u8]) -> Result<Ran, Memory> {
    run_over(rt, alloc, &[], script, folder(alloc), &SURE, &FreeGate)
}

fn assert_values<R: Threads + Sync + Abort>(rt: &R, alloc: Global) {
    for row in VALUES {
        let ran = run_read(rt, alloc, row.0.as_bytes());
        assert_ran(rt, ran, 0, row.1.as_bytes());
    }
}

// A readval of the reader.
fn readval(alloc: Global, reader: &str, argument: &str) -> Result<String, Memory> {
    Ok(format!(in alloc; "readval \\V using {reader} at {argument};")?)
}

fn read<R: Threads + Sync>(
    rt: &R,
    alloc: Global,
    reader: &str,
    argument: &str,
) -> Result<Ran, Memory> {
    let script = readval(alloc, reader, argument)?;
    let ran = run_read(rt, alloc, script.as_bytes());
    drop(script);
    ran
}

// The line of a fault of the file in the first declaration, of this kind.
fn line(alloc: Global, kind: &str) -> Result<String, Memory> {
    Ok(format!(in alloc; "fault file in declaration 1: {kind}\n")?)
}

// The same, at a byte.
fn line_at(alloc: Global, kind: &str, at: usize) -> Result<String, Memory> {
    Ok(format!(in alloc; "fault file in declaration 1: {kind} at {at}\n")?)
}

// Fails where a run did not end with a fault of the file, or did not write this line.
fn assert_refused<R: Abort>(rt: &R, ran: Result<Ran, Memory>, line: Result<String, Memory>) {
    let line = line.expect(rt, "memory for a line");
    assert_ran(rt, ran, 9, line.as_bytes());
    drop(line);
}

fn assert_faults<R: Threads + Sync + Abort>(rt: &R, alloc: Global) {
    for row in FAULTS {
        assert_refused(rt, read(rt, alloc, row.0, row.1), line(alloc, row.2));
    }
}

// A run of a readval that may take five turns, over files of which the first call fails.
fn read_within_five<R: Threads + Sync>(rt: &R, alloc: Global, script: &str) -> Result<Ran, Memory> {
    let mut devices = SURE;
    devices.files_fail = &[1];
    run_over(
        rt,
        alloc,
        &["--budget", "5"],
        script.as_bytes(),
        folder(alloc),
        &devices,
        &FreeGate,
    )
}

// Fails where a run made a failing call on the files, or did not end by so many cells past the budget.
fn assert_counted<R: Abort>(rt: &R, ran: Result<Ran, Memory>, cells: u128) {
    let ran = ran.expect(rt, "memory for a run");
    assert_same(rt, ran.failures.files, 0);
    assert_past(rt, ran, cells);
}

const CELLS: &[(&str, u128)] = &[
    (
        "readval \\V using NETCDF2 at (\"s.nc\",\"v\",(0,0),(2,3));",
        6,
    ),
    (
        "readval \\V using NETCDF2 at (\"none.nc\",\"v\",(0,0),(2,3));",
        6,
    ),
    (
        "readval \\V using NETCDF2 at (\"s.nc\",\"v\",(0,0),(340282366920938463463374607431768211455,2));",
        u128::MAX,
    ),
];

// The cells are counted before any call is made on the files.
fn assert_cells<R: Threads + Sync + Abort>(rt: &R, alloc: Global) {
    for (script, cells) in CELLS {
        assert_counted(rt, read_within_five(rt, alloc, script), *cells);
    }
}

fn cut(bytes: Result<Vec<u8>, Memory>, length: usize) -> Result<Vec<u8>, Memory> {
    let mut bytes = bytes?;
    bytes.truncate(length);
    Ok(bytes)
}

// A run of a script over a folder with one file, of these bytes.
fn read_in<R: Threads + Sync>(
    rt: &R,
    alloc: Global,
    script: &[u8],
    bytes: Result<Vec<u8>, Memory>,
) -> Result<Ran, Memory> {
    let folder = folder_of(alloc, bytes);
    run_over(rt, alloc, &[], script, folder, &SURE, &FreeGate)
}

// What is said of the file of 108 bytes, cut to this length.
fn line_of_cut(alloc: Global, length: usize) -> Result<String, Memory> {
    if length < 4 {
        line(alloc, "not classic")
    } else if length < 96 {
        line_at(alloc, "malformed", length / 4 * 4)
    } else {
        line_at(alloc, "cut", length / 2 * 2)
    }
}

// A run over that file.
fn read_cut<R: Threads + Sync>(rt: &R, alloc: Global, length: usize) -> Result<Ran, Memory> {
    let bytes = cut(bytes_of(alloc, ONE_RECORD_VARIABLE), length);
    read_in(rt, alloc, READ, bytes)
}

// A run over a file of version 5, cut in the offset of its variable.
fn read_cut_offset<R: Threads + Sync>(rt: &R, alloc: Global) -> Result<Ran, Memory> {
    let bytes = cut(bytes_of(alloc, VERSION_5), 122);
    let script = b"readval \\U using NETCDF1 at (\"s.nc\",\"u\",0,3);";
    read_in(rt, alloc, script, bytes)
}

fn assert_cuts<R: Threads + Sync + Abort>(rt: &R, alloc: Global) {
    for length in 0..108 {
        assert_refused(rt, read_cut(rt, alloc, length), line_of_cut(alloc, length));
    }
    let line = line(alloc, "malformed at 120");
    assert_refused(rt, read_cut_offset(rt, alloc), line);
}

// Words of a header that are changed, each at its offset; then what is said of the file, and nothing where the values are read as
// before.
#[derive(Clone, Copy)]
struct Changed<'a>(&'a [(usize, u32)], &'a str);

const CHANGED: &[Changed<'static>] = &[
    Changed(&[(0, 0x43444600)], "version 0"),
    Changed(&[(8, 0x0b)], "malformed at 8"),
    Changed(&[(8, 0)], "malformed at 12"),
    Changed(&[(12, 0x401)], "too many in list 1"),
    Changed(&[(16, 0xffffffff)], "malformed at 20"),
    Changed(&[(36, 0)], "malformed at 36"),
    Changed(&[(40, 0x0c)], ""),
    Changed(&[(40, 0x0c), (44, 0x2001)], "too many in list 2"),
    Changed(&[(52, 0x2001)], "too many in list 3"),
    Changed(&[(64, 0x401)], "too many in list 4"),
    Changed(&[(68, 2)], "malformed at 68"),
    Changed(&[(68, 1), (72, 0)], "malformed at 72"),
    Changed(&[(84, 7)], "malformed at 84"),
    Changed(&[(92, 0xfffffff0)], "cut at 4294967280"),
];

fn assert_changed<R: Threads + Sync + Abort>(rt: &R, alloc: Global, row: &Changed<'_>) {
    let ran = read_in(
        rt,
        alloc,
        READ,
        changed_bytes(alloc, ONE_RECORD_VARIABLE, row.0),
    );
    if row.1.is_empty() {
        assert_ran(rt, ran, 0, READ_VALUE);
    } else {
        assert_refused(rt, ran, line(alloc, row.1));
    }
}

fn assert_changes<R: Threads + Sync + Abort>(rt: &R, alloc: Global) {
    for row in CHANGED {
        assert_changed(rt, alloc, row);
    }
}

#[test]
fn netcdf_files(rt: HostRuntime) {
    let alloc = rt.alloc();
    assert_values(&rt, alloc);
    assert_faults(&rt, alloc);
    assert_cells(&rt, alloc);
    assert_cuts(&rt, alloc);
    assert_changes(&rt, alloc);
}
