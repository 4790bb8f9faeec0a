// Files of records: values, faults, the budget, devices that fail or give few bytes.
use crate::tests::netcdf::{folder as grids, with_file};
use crate::tests::running::{
    Folder, Ran, Row, SURE, assert_past, assert_ran, assert_same, bytes, run_files, run_over,
};
use aql_outside::{Failed, Files, FreeGate, SureFiles};
use aql_value::Memory;
use std::alloc::Global;
use std::process::Abort;
use std::thread::Threads;

// Three records, of which two are alike, in 18 bytes.
const PAIRS: &[u8] = b"1,ab\n2,\"c,d\"\n1,ab\n";

// The files that the tables read, beside those with arrays.
fn folder(alloc: Global) -> Result<Folder, Memory> {
    let all = with_file(alloc, grids(alloc), "a.csv", bytes(alloc, PAIRS));
    with_file(alloc, all, "empty.csv", bytes(alloc, b""))
}

const ROWS: &[Row<'static>] = &[
    Row(
        &["--plan"],
        "readval \\T using CSVNS at \"a.csv\";",
        0,
        "typ T : {nat * string}\nval T = {(1, \"ab\"), (2, \"c,d\")}\nplan T = \"a.csv\"\nrules T = none\nturns T = 18\n",
    ),
    Row(
        &["--plan"],
        "readval \\T using CSVHNS at \"a.csv\";",
        0,
        "typ T : {nat * string}\nval T = {(1, \"ab\"), (2, \"c,d\")}\nplan T = \"a.csv\"\nrules T = none\nturns T = 18\n",
    ),
    Row(
        &[],
        "readval \\T using CSVN at \"a.csv\";",
        9,
        "fault file in declaration 1: fields 2 in record 1\n",
    ),
    Row(
        &[],
        "readval \\T using CSVNN at \"a.csv\";",
        9,
        "fault file in declaration 1: number in field 2 of record 1\n",
    ),
    Row(
        &["--budget", "17"],
        "readval \\T using CSVNS at \"a.csv\";",
        12,
        "fault budget in declaration 1\n",
    ),
    Row(
        &["--plan", "--budget", "1"],
        "readval \\T using CSVHNS at \"empty.csv\";",
        0,
        "typ T : {nat * string}\nval T = {}\nplan T = \"empty.csv\"\nrules T = none\nturns T = 0\n",
    ),
];

// Fails where the run of a script over the files is not as its row says.
fn assert_read<R: Threads + Sync + Abort>(rt: &R, alloc: Global, row: &Row<'_>) {
    let ran = run_over(
        rt,
        alloc,
        row.0,
        row.1.as_bytes(),
        folder(alloc),
        &SURE,
        &FreeGate,
    );
    assert_ran(rt, ran, row.2, row.3.as_bytes());
}

fn assert_reads<R: Threads + Sync + Abort>(rt: &R, alloc: Global) {
    for row in ROWS {
        assert_read(rt, alloc, row);
    }
}

// A run whose file is past the budget, and told by its size.
fn run_past<R: Threads + Sync>(rt: &R, alloc: Global) -> Result<Ran, Memory> {
    let script =
        b"readval \\T using CSVNS at (if summap(fn \\x => x)!(gen!3) = 3 then \"a.csv\" else \"b\");";
    let words = &["--budget", "17"];
    run_over(rt, alloc, words, script, folder(alloc), &SURE, &FreeGate)
}

const SCRIPT: &[u8] = b"1; readval \\T using CSVNS at \"a.csv\";";

const OUTPUT: &[u8] =
    b"typ it : nat\nval it = 1\ntyp T : {nat * string}\nval T = {(1, \"ab\"), (2, \"c,d\")}\n";

// A run in which the call on the files of this number is to fail.
fn run_failing<R: Threads + Sync>(rt: &R, alloc: Global, k: u64) -> Result<Ran, Memory> {
    let fails = [k];
    let mut devices = SURE;
    devices.files_fail = &fails;
    run_over(rt, alloc, &[], SCRIPT, folder(alloc), &devices, &FreeGate)
}

// Fails where a run did not end by a failure of the files.
fn assert_failed<R: Abort>(rt: &R, ran: Result<Ran, Memory>) {
    let ran = ran.expect(rt, "memory for a run");
    assert_same(rt, ran.failures.files, 1);
    assert_ran(rt, Ok(ran), 13, b"typ it : nat\nval it = 1\nfault files\n");
}

// Two calls are made on the files, for the size and for the bytes. Each fails in turn.
fn assert_calls<R: Threads + Sync + Abort>(rt: &R, alloc: Global) {
    for k in 1..3 {
        assert_failed(rt, run_failing(rt, alloc, k));
    }
    for k in 3..5 {
        assert_ran(rt, run_failing(rt, alloc, k), 0, OUTPUT);
    }
}

// Files whose reads give at most so many bytes, which tell none.
#[derive(Drop)]
struct Few {
    files: SureFiles,
    most: usize,
}

impl Files for Few {
    ghost use Rattle.std.specs.Prelude.{None};
    ghost use Rattle.std.proofs.Common.{arith};

    ghost holds = { λ _. None };

    ghost faults = { λ _. 0 };

    ghost counted = { λ _. Prim.omega arith };

    fn size(&mut self, name: &str) -> Result<Option<u64>, Failed> {
        self.files.size(name)
    }

    fn read_at(&mut self, name: &str, at: u64, into: &mut [u8]) -> Result<usize, Failed> {
        let room = into.len().min(self.most);
        self.files.read_at(name, at, &mut into[..room])
    }
}

fn few_of(alloc: Global, most: usize) -> Result<Few, Memory> {
    Ok(Few {
        files: SureFiles::new(folder(alloc)?),
        most,
    })
}

const CUTS: &[(usize, u8, &[u8])] = &[
    (
        0,
        9,
        b"typ it : nat\nval it = 1\nfault file in declaration 2: cut at 0\n",
    ),
    (
        7,
        9,
        b"typ it : nat\nval it = 1\nfault file in declaration 2: cut at 7\n",
    ),
    (
        17,
        9,
        b"typ it : nat\nval it = 1\nfault file in declaration 2: cut at 17\n",
    ),
    (18, 0, OUTPUT),
];

// A file that ends before its size is cut, whatever its records.
fn assert_cuts<R: Threads + Sync + Abort>(rt: &R, alloc: Global) {
    for (most, status, output) in CUTS {
        let ran = run_files(rt, alloc, SCRIPT, few_of(alloc, *most));
        assert_ran(rt, ran, *status, output);
    }
}

#[test]
fn files_of_records(rt: HostRuntime) {
    let alloc = rt.alloc();
    assert_reads(&rt, alloc);
    let past = run_past(&rt, alloc);
    assert_past(&rt, past.expect(&rt, "memory for a run"), 18);
    assert_calls(&rt, alloc);
    assert_cuts(&rt, alloc);
}
