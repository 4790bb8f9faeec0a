// Devices that give and take few bytes, or fail.
use crate::tests::netcdf::folder;
use crate::tests::running::{Devices, Ran, SURE, assert_ran, assert_same, run_over, run_script};
use aql_outside::FreeGate;
use aql_value::Memory;
use std::alloc::Global;
use std::process::Abort;
use std::thread::Threads;

const SCRIPT: &[u8] = b"1; readval \\V using NETCDF2 at (\"s.nc\",\"v\",(0,0),(2,3));";

const OUTPUT: &[u8] =
    b"typ it : nat\nval it = 1\ntyp V : [[nat]]_2\nval V = [[2,3; 1, 2, 3, 4, 5, 6]]\n";

// What is written where a call on the files failed.
const FILES_FAULT: &[u8] = b"typ it : nat\nval it = 1\nfault files\n";

// Fails where two runs did not both end well with one output.
fn assert_alike<R: Abort>(rt: &R, ran: Result<Ran, Memory>, other: Result<Ran, Memory>) {
    let ran = ran.expect(rt, "memory for a run");
    assert_same(rt, ran.status, 0);
    assert_ran(rt, other, 0, &ran.output);
    drop(ran);
}

// A run of a script over streams that give and take so many bytes a call.
fn run_in_pieces<R: Threads + Sync>(
    rt: &R,
    alloc: Global,
    script: &str,
    size: u64,
) -> Result<Ran, Memory> {
    let pieces = [size; 200];
    let mut devices = SURE;
    devices.pieces = &pieces;
    run_over(
        rt,
        alloc,
        &[],
        script.as_bytes(),
        folder(alloc),
        &devices,
        &FreeGate,
    )
}

// Fails where the script is not answered alike, however few bytes a call gives or takes.
fn assert_pieces<R: Threads + Sync + Abort>(rt: &R, alloc: Global, script: &str) {
    for size in [1, 2, 7] {
        let ran = run_in_pieces(rt, alloc, script, size);
        let whole = run_script(rt, alloc, &[], script.as_bytes());
        assert_alike(rt, ran, whole);
    }
}

const SCRIPTS: &[&str] = &[
    "1+2*3;",
    "macro \\f = fn \\a => {a+b | \\b <- gen!2}; {x | \\b <- gen!3, \\x <- f!b};",
    "{(i,j) | [(\\i,\\j):6] <- [[2,3; 4, 6, 5, 6, 0, 6]]};",
];

fn assert_few_bytes<R: Threads + Sync + Abort>(rt: &R, alloc: Global) {
    for script in SCRIPTS {
        assert_pieces(rt, alloc, script);
    }
}

// A run of the script over the files of the tables and these devices.
fn run_on<R: Threads + Sync + Abort>(rt: &R, alloc: Global, devices: &Devices<'_>) -> Ran {
    let ran = run_over(rt, alloc, &[], SCRIPT, folder(alloc), devices, &FreeGate);
    ran.expect(rt, "memory for a run")
}

// Whether a call on the files failed in a run in which the call of this number is to fail.
fn file_fails<R: Threads + Sync + Abort>(rt: &R, alloc: Global, k: u64) -> bool {
    let fails = [k];
    let mut devices = SURE;
    devices.files_fail = &fails;
    let ran = run_on(rt, alloc, &devices);
    let failed = ran.failures.files > 0;
    if failed {
        assert_ran(rt, Ok(ran), 13, FILES_FAULT);
    } else {
        assert_ran(rt, Ok(ran), 0, OUTPUT);
    }
    failed
}

// Each call on the files fails in turn, until a run meets no failure.
fn assert_failing_files<R: Threads + Sync + Abort>(rt: &R, alloc: Global) {
    let mut failed: u64 = 0;
    for k in 1..30 {
        if file_fails(rt, alloc, k) {
            failed = failed.saturating_add(1);
        }
    }
    assert!(rt; 1 < failed && failed < 29);
}

const PIECES: [u64; 60] = [20; 60];

// Whether a run is answered in which the read of this number is to fail.
fn source_serves<R: Threads + Sync + Abort>(rt: &R, alloc: Global, k: u64) -> bool {
    let fails = [k];
    let mut devices = SURE;
    devices.pieces = &PIECES;
    devices.source_fails = &fails;
    let ran = run_on(rt, alloc, &devices);
    let serves = ran.status == 0;
    if serves {
        assert_ran(rt, Ok(ran), 0, OUTPUT);
    } else {
        assert_ran(rt, Ok(ran), 10, b"fault input\n");
    }
    serves
}

// Fails where a run did not end with this status, or what it wrote is no front of this.
fn assert_front<R: Abort>(rt: &R, ran: Ran, status: u8, output: &[u8]) {
    assert_same(rt, ran.status, status);
    assert!(rt; output.starts_with(&ran.output));
    drop(ran);
}

// Whether a run is answered in which the write of this number is to fail. What it wrote is a front of the output.
fn sink_serves<R: Threads + Sync + Abort>(rt: &R, alloc: Global, k: u64) -> bool {
    let fails = [k];
    let mut devices = SURE;
    devices.pieces = &PIECES;
    devices.sink_fails = &fails;
    let ran = run_on(rt, alloc, &devices);
    let serves = ran.status == 0;
    if serves {
        assert_ran(rt, Ok(ran), 0, OUTPUT);
    } else {
        assert_front(rt, ran, 11, OUTPUT);
    }
    serves
}

// Each read of the source fails in turn, and each write to the sink. In pieces of 20 the script and its end take four reads, the
// lines of the two declarations two and three writes.
fn assert_failing_streams<R: Threads + Sync + Abort>(rt: &R, alloc: Global) {
    for k in 1..12 {
        assert_same(rt, source_serves(rt, alloc, k), 4 < k);
        assert_same(rt, sink_serves(rt, alloc, k), 5 < k);
    }
}

// The numbers of calls, from the first on.
const CALLS: [u64; 64] = [
    1, 2, 3, 4, 5, 6, 7, 8, 9, 10, 11, 12, 13, 14, 15, 16, 17, 18, 19, 20, 21, 22, 23, 24, 25, 26,
    27, 28, 29, 30, 31, 32, 33, 34, 35, 36, 37, 38, 39, 40, 41, 42, 43, 44, 45, 46, 47, 48, 49, 50,
    51, 52, 53, 54, 55, 56, 57, 58, 59, 60, 61, 62, 63, 64,
];

// The numbers of all calls behind the first so many.
fn calls_behind(first: usize) -> &'static [u64] {
    match CALLS.get(first..) {
        Some(calls) => calls,
        None => &[],
    }
}

// The words behind the program's name, a script, and the status and the output that it ends with over devices that do not fail.
#[derive(Clone, Copy)]
struct Ending<'a>(&'a [&'a str], &'a [u8], u8, &'a [u8]);

// Fails where a run over these devices did not end as its script says or, where one call failed, with the status for it and a front of what
// it writes then; or where a call followed a failure.
fn assert_stops<R: Threads + Sync + Abort>(
    rt: &R,
    alloc: Global,
    ending: &Ending<'_>,
    devices: &Devices<'_>,
    broken: u8,
    output: &[u8],
) {
    let files = folder(alloc);
    let ran = run_over(rt, alloc, ending.0, ending.1, files, devices, &FreeGate);
    let ran = ran.expect(rt, "memory for a run");
    let failures = ran.failures;
    let failed = failures.source.max(failures.sink).max(failures.files);
    if failed == 0 {
        assert_ran(rt, Ok(ran), ending.2, ending.3);
    } else {
        assert_same(rt, failed, 1);
        assert_front(rt, ran, broken, output);
    }
}

// Runs a script over a source, over a sink and over files of which every call fails behind the first so many.
fn assert_never_asked_again<R: Threads + Sync + Abort>(
    rt: &R,
    alloc: Global,
    ending: &Ending<'_>,
    first: usize,
) {
    let calls = calls_behind(first);
    let mut devices = SURE;
    devices.pieces = &PIECES;
    devices.source_fails = calls;
    assert_stops(rt, alloc, ending, &devices, 10, b"fault input\n");
    devices.source_fails = &[];
    devices.sink_fails = calls;
    assert_stops(rt, alloc, ending, &devices, 11, ending.3);
    devices.sink_fails = &[];
    devices.files_fail = calls;
    assert_stops(rt, alloc, ending, &devices, 13, FILES_FAULT);
}

const ENDINGS: &[Ending<'static>] = &[
    Ending(&[], SCRIPT, 0, OUTPUT),
    Ending(&[], b"1; $", 3, b"fault text at byte 3\n"),
    Ending(&[], b"1; 2", 4, b"fault syntax in declaration 2\n"),
    Ending(&[], b"1; 1 = true;", 5, b"fault type in declaration 2\n"),
    Ending(
        &[],
        b"1; readval \\V using NETCDF1 at (\"s.nc\",\"q\",0,1);",
        9,
        b"typ it : nat\nval it = 1\nfault file in declaration 2: no variable\n",
    ),
    Ending(
        &["--budget", "1000"],
        b"1; summap(fn \\x => x)!(gen!5000);",
        12,
        b"typ it : nat\nval it = 1\nfault budget in declaration 2\n",
    ),
    Ending(
        &["--budget", "5"],
        SCRIPT,
        12,
        b"typ it : nat\nval it = 1\nfault budget in declaration 2\n",
    ),
];

fn assert_each_never<R: Threads + Sync + Abort>(rt: &R, alloc: Global, ending: &Ending<'_>) {
    for first in 0..10 {
        assert_never_asked_again(rt, alloc, ending, first);
    }
}

// No call on a device follows its first failure, whatever line the run ends in. This refuses a write that is tried again after it failed,
// a read that is, and a run that goes on reading or writing behind a failure.
fn assert_not_asked_again<R: Threads + Sync + Abort>(rt: &R, alloc: Global) {
    for ending in ENDINGS {
        assert_each_never(rt, alloc, ending);
    }
}

#[test]
fn devices_that_fail_or_give_few_bytes(rt: HostRuntime) {
    let alloc = rt.alloc();
    assert_few_bytes(&rt, alloc);
    assert_failing_files(&rt, alloc);
    assert_failing_streams(&rt, alloc);
    assert_not_asked_again(&rt, alloc);
}
