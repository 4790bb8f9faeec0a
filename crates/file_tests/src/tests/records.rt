// Records byte by byte, the fault of the first that has one, sizes, and a large file.
use crate::tests::record_files::{PAIRS, bytes_of, fault_of, read_bytes};
use aql_csv::{Csv, CsvFault};
use aql_print::{print_value, put, put_number};
use aql_value::{Memory, Value};
use std::alloc::Global;
use std::process::Abort;

// Appends a number behind a text.
fn put_with(text: &[u8], n: u64, out: &mut Vec<u8>) -> Result<(), Memory> {
    put(text, out)?;
    put_number(u128::from(n), out)
}

// Appends two numbers, each behind a text.
fn put_place(first: &[u8], a: u64, second: &[u8], b: u64, out: &mut Vec<u8>) -> Result<(), Memory> {
    put_with(first, a, out)?;
    put_with(second, b, out)
}

fn put_fault(fault: CsvFault, out: &mut Vec<u8>) -> Result<(), Memory> {
    match fault {
        CsvFault::Fields { row, found } => put_place(b"fields ", found, b" in record ", row, out),
        CsvFault::Number { row, field } => {
            put_place(b"number in field ", field, b" of record ", row, out)
        }
        _ => put(b"another fault", out),
    }
}

fn put_answer(
    alloc: Global,
    found: Result<Csv, CsvFault>,
    out: &mut Vec<u8>,
) -> Result<(), Memory> {
    match found {
        Ok(csv) => {
            let printed = print_value(alloc, &csv.value, out);
            drop(csv);
            printed
        }
        Err(fault) => put_fault(fault, out),
    }
}

// The text of the value, or of the fault.
fn answer_text(alloc: Global, found: Result<Csv, CsvFault>) -> Result<Vec<u8>, Memory> {
    let mut out = Vec::new(alloc);
    put_answer(alloc, found, &mut out)?;
    Ok(out)
}

// Whether the text is this one.
fn is_text(text: Result<Vec<u8>, Memory>, expected: &str) -> Result<bool, Memory> {
    let text = text?;
    let same = text.as_slice() == expected.as_bytes();
    drop(text);
    Ok(same)
}

fn assert_right(rt: &impl Abort, right: Result<bool, Memory>, row: &str) {
    assert!(rt; right == Ok(true), "{row}");
}

// The byte that a byte of a row stands for, but `^`.
fn stood_for(byte: u8) -> u8 {
    match byte {
        b';' => b'\n',
        b':' => b'\r',
        b'$' => 0,
        b'!' => 255,
        other => other,
    }
}

fn put_byte(byte: u8, bytes: &mut Vec<u8>) -> Result<(), Memory> {
    if byte == b'^' {
        return put(b"\xef\xbb\xbf", bytes);
    }
    put(&[stood_for(byte)], bytes)
}

// The bytes of a row: `;` stands for a line feed, `:` for a carriage return, `^` for a byte order mark, `$` for the byte 0
// and `!` for the byte 255.
fn row_bytes(alloc: Global, text: &str) -> Result<Vec<u8>, Memory> {
    let mut bytes = Vec::new(alloc);
    for byte in text.as_bytes() {
        put_byte(*byte, &mut bytes)?;
    }
    Ok(bytes)
}

// The letters of a reader, and behind ` ~ ` the bytes of a file, and then the value or the fault.
const RECORDS: [&str; 51] = [
    // lines without bytes are no records, and a mark at the start counts for nothing
    "S ~  ~ {}",
    "S ~ ; ~ {}",
    "S ~ :;:; ~ {}",
    "S ~ ^ ~ {}",
    r#"S ~ a ~ {"a"}"#,
    r#"S ~ a; ~ {"a"}"#,
    r#"S ~ a: ~ {"a"}"#,
    r#"S ~ a:; ~ {"a"}"#,
    r#"S ~ a;;;b ~ {"a", "b"}"#,
    r#"S ~ a:b ~ {"a", "b"}"#,
    r#"S ~ a;:b ~ {"a", "b"}"#,
    // a line with a blank is a record
    r#"S ~   ~ {" "}"#,
    "N ~   ~ number in field 1 of record 1",
    // fields
    r#"SS ~ a, ~ {("a", "")}"#,
    r#"SS ~ , ~ {("", "")}"#,
    "SS ~ a,;b ~ fields 1 in record 2",
    "NNNNNNNN ~ 1,2,3,4,5,6,7,8 ~ {(1, 2, 3, 4, 5, 6, 7, 8)}",
    r#"SSS ~ a,a,a ~ {("a", "a", "a")}"#,
    // quotes open at the start of a field alone, and an open one goes to the end
    r#"S ~ "a,b"; ~ {"a,b"}"#,
    r#"S ~ "a;b" ~ {"a\x0ab"}"#,
    r#"S ~ "a""b" ~ {"a\"b"}"#,
    r#"S ~ a"b ~ {"a\"b"}"#,
    r#"S ~ "a"b ~ {"ab"}"#,
    r#"SS ~ "a" ,b ~ {("a ", "b")}"#,
    r#"S ~ "" ~ {""}"#,
    r#"S ~ " ~ {""}"#,
    r#"S ~ "abc ~ {"abc"}"#,
    r#"SS ~ ^"a",b ~ {("a", "b")}"#,
    // a second mark is part of the field, as any other bytes
    r#"S ~ ^^a ~ {"\xef\xbb\xbfa"}"#,
    r#"S ~ $! ~ {"\x00\xff"}"#,
    // numbers
    r#"N ~ "" ~ number in field 1 of record 1"#,
    "NN ~ 1, ~ number in field 2 of record 1",
    "N ~ +1 ~ number in field 1 of record 1",
    "N ~ -1 ~ number in field 1 of record 1",
    "N ~  1 ~ number in field 1 of record 1",
    "N ~ 1  ~ number in field 1 of record 1",
    "N ~ 1.0 ~ number in field 1 of record 1",
    "N ~ 1_0 ~ number in field 1 of record 1",
    "N ~ 340282366920938463463374607431768211456 ~ number in field 1 of record 1",
    "N ~ 340282366920938463463374607431768211455 ~ {340282366920938463463374607431768211455}",
    "N ~ 00000000000000000000000000000000000000000000000001 ~ {1}",
    r#"N ~ "7";007;7 ~ {7}"#,
    // the first record may name the fields, whatever it is
    "HN ~ a ~ {}",
    r#"HN ~ "a;b",c,d;2;1 ~ {1, 2}"#,
    "HN ~ a;1;x ~ number in field 1 of record 3",
    "HNN ~ ;1,2,3;4 ~ fields 1 in record 2",
    // of several faults the first
    "NS ~ x,a,b ~ fields 3 in record 1",
    "NN ~ x,y ~ number in field 1 of record 1",
    "NS ~ 1,a;x,b;1 ~ number in field 1 of record 2",
    "NS ~ 1,a;1;x,b ~ fields 1 in record 2",
    // sets of records
    r#"NS ~ 2,b;1,a;2,b ~ {(1, "a"), (2, "b")}"#,
];

// Whether the bytes are read as this.
fn is_read_as(
    alloc: Global,
    letters: &str,
    bytes: Result<Vec<u8>, Memory>,
    expected: &str,
) -> Result<bool, Memory> {
    let found = read_bytes(alloc, bytes, letters, 1000);
    is_text(answer_text(alloc, found), expected)
}

fn is_read(alloc: Global, letters: &str, rest: &str) -> Result<bool, Memory> {
    match rest.split_once(" ~ ") {
        Some((text, expected)) => is_read_as(alloc, letters, row_bytes(alloc, text), expected),
        None => Ok(false),
    }
}

fn is_right(alloc: Global, row: &str) -> Result<bool, Memory> {
    match row.split_once(" ~ ") {
        Some((letters, rest)) => is_read(alloc, letters, rest),
        None => Ok(false),
    }
}

#[test]
fn records_of_bytes(rt: HostRuntime) {
    for row in &RECORDS {
        assert_right(&rt, is_right(rt.alloc(), row), row);
    }
}

// Puts the size behind the text of what is read, where it is a value.
fn put_size(text: Result<Vec<u8>, Memory>, size: Option<u64>) -> Result<Vec<u8>, Memory> {
    let mut out = text?;
    if let Some(bytes) = size {
        put_with(b" of ", bytes, &mut out)?;
    }
    Ok(out)
}

fn size_of(found: &Result<Csv, CsvFault>) -> Option<u64> {
    match found {
        Ok(csv) => Some(csv.bytes),
        Err(_) => None,
    }
}

// The text of what is read of the file of pairs, and its size.
fn pairs_text(alloc: Global, letters: &str) -> Result<Vec<u8>, Memory> {
    let found = read_bytes(alloc, bytes_of(alloc, PAIRS), letters, 18);
    let size = size_of(&found);
    put_size(answer_text(alloc, found), size)
}

const PAIRS_READ: [(&str, &str); 4] = [
    ("NS", "{(1, \"ab\"), (2, \"c,d\")} of 18"),
    ("HNS", "{(1, \"ab\"), (2, \"c,d\")} of 18"),
    ("N", "fields 2 in record 1"),
    ("NN", "number in field 2 of record 1"),
];

#[test]
fn readers_of_one_file(rt: HostRuntime) {
    for (letters, expected) in &PAIRS_READ {
        let right = is_text(pairs_text(rt.alloc(), letters), expected);
        assert_right(&rt, right, letters);
    }
}

const BUDGETS: [(u64, Option<CsvFault>); 3] = [
    (18, None),
    (17, Some(CsvFault::Long { bytes: 18 })),
    (0, Some(CsvFault::Long { bytes: 18 })),
];

#[test]
fn sizes_around_the_budget(rt: HostRuntime) {
    for (budget, fault) in &BUDGETS {
        let found = read_bytes(rt.alloc(), bytes_of(rt.alloc(), PAIRS), "NS", *budget);
        assert!(rt; fault_of(found) == *fault, "{budget}");
    }
}

// One record.
fn put_record(n: u64, out: &mut Vec<u8>) -> Result<(), Memory> {
    put_number(u128::from(n), out)?;
    put(b",abc\n", out)
}

// So many records, of which so many are different, from the greatest on.
fn many(alloc: Global, records: u64, different: u64) -> Result<Vec<u8>, Memory> {
    let mut out = bytes_of(alloc, b"\"the, number\",name,other\n")?;
    for i in 0..records {
        let past = i.checked_rem(different).unwrap_or(0);
        put_record(different.saturating_sub(past), &mut out)?;
    }
    Ok(out)
}

// How many members a set has.
fn members(value: &Value) -> u64 {
    match value {
        Value::Members(set) => set.items().items.len() as u64,
        _ => 0,
    }
}

// How many members the set of a file has, and whether the file has more than a megabyte.
fn tell_csv(found: Result<Csv, CsvFault>) -> (u64, bool) {
    match found {
        Ok(csv) => {
            let told = (members(&csv.value), csv.bytes > 1048576);
            drop(csv);
            told
        }
        Err(_) => (0, false),
    }
}

// More than a megabyte, under a first record of another length: with more different records than are kept before they are
// made a set, and with few.
#[test]
fn large_files(rt: HostRuntime) {
    let alloc = rt.alloc();
    for different in [70000, 3] {
        let bytes = many(alloc, 180000, different);
        let found = read_bytes(alloc, bytes, "HNS", 50000000);
        assert!(rt; tell_csv(found) == (different, true), "{different}");
    }
}
