// Scripts alone, and what they print; those at the limits of bytes, depth, sizes and types are made of parts.
use crate::tests::running::{assert_ran, run_script};
use crate::tests::texts::{Part, push, text_of};
use aql_value::Memory;
use std::alloc::Global;
use std::process::Abort;
use std::thread::Threads;

// A script, the status of its run, and what is written.
#[derive(Clone, Copy)]
struct Row<'a>(&'a str, u8, &'a str);

const SCRIPTS: &[Row<'static>] = &[
    Row("1+2*3;", 0, "typ it : nat\nval it = 7\n"),
    Row("", 0, ""),
    Row("3-5;", 0, "typ it : nat\nval it = 0\n"),
    Row(
        "340282366920938463463374607431768211455+1;",
        0,
        "typ it : nat\nval it = undefined\n",
    ),
    Row(
        "340282366920938463463374607431768211456;",
        3,
        "fault text at byte 0\n",
    ),
    Row("1/0;", 0, "typ it : nat\nval it = undefined\n"),
    Row("1+;", 4, "fault syntax in declaration 1\n"),
    Row("if 1 then 2 else 3;", 5, "fault type in declaration 1\n"),
    Row(
        "get!({7}); get!(gen!2);",
        0,
        "typ it : nat\nval it = 7\ntyp it : nat\nval it = undefined\n",
    ),
    Row(
        "{x*x | \\x <- gen!4};",
        0,
        "typ it : {nat}\nval it = {0, 1, 4, 9}\n",
    ),
    Row(
        "[[i*10+j | \\i<2, \\j<3]];",
        0,
        "typ it : [[nat]]_2\nval it = [[2,3; 0, 1, 2, 10, 11, 12]]\n",
    ),
    Row(
        "len!([[10/i | \\i<3]]);",
        0,
        "typ it : nat\nval it = undefined\n",
    ),
    Row(
        "summap(fn \\x => 1)!({y%2 | \\y <- gen!10});",
        0,
        "typ it : nat\nval it = 2\n",
    ),
    Row(
        "index_1!({(0,5),(2,7),(0,6)});",
        0,
        "typ it : [[{nat}]]_1\nval it = [[3; {5, 6}, {}, {7}]]\n",
    ),
    Row(
        "index_1!({});",
        0,
        "typ it : [[{'a}]]_1\nval it = [[0; ]]\n",
    ),
    Row("{};", 0, "typ it : {'a}\nval it = {}\n"),
    Row(
        "[[3; 5, 6, 7]][3];",
        0,
        "typ it : nat\nval it = undefined\n",
    ),
    Row("[[2; 5]];", 0, "typ it : [[nat]]_1\nval it = undefined\n"),
    Row("[[i | \\i<3]][3];", 0, "typ it : nat\nval it = undefined\n"),
    Row(
        "let val \\a = [[i*i | \\i<4]] in a[3]+len!a end;",
        0,
        "typ it : nat\nval it = 13\n",
    ),
    Row(
        "[[10/i default 0 | \\i<3]];",
        0,
        "typ it : [[nat]]_1\nval it = [[3; 0, 10, 5]]\n",
    ),
    Row(
        "{gen!2, {0}, {}};",
        0,
        "typ it : {{nat}}\nval it = {{}, {0}, {0, 1}}\n",
    ),
    Row(
        "{\"b\",\"a\",\"b\"};",
        0,
        "typ it : {string}\nval it = {\"a\", \"b\"}\n",
    ),
    Row(
        "{(i,j) | [(\\i,\\j):6] <- [[2,3; 4, 6, 5, 6, 0, 6]]};",
        0,
        "typ it : {nat * nat}\nval it = {(0, 1), (1, 0), (1, 2)}\n",
    ),
    Row(
        "transpose!([[2,3; 1, 2, 3, 4, 5, 6]]);",
        0,
        "typ it : [[nat]]_2\nval it = [[3,2; 1, 4, 2, 5, 3, 6]]\n",
    ),
    Row(
        "macro \\f = fn \\a => {a+b | \\b <- gen!2}; {x | \\b <- gen!3, \\x <- f!b};",
        0,
        "typ f : nat -> {nat}\nmac f\ntyp it : {nat}\nval it = {0, 1, 2, 3}\n",
    ),
    Row("val \\x = 1; 1 = true;", 5, "fault type in declaration 2\n"),
    Row(
        "val \\u = 1/0; if 1 = 1 then 2 else u; {u};",
        0,
        "typ u : nat\nval u = undefined\ntyp it : nat\nval it = 2\ntyp it : {nat}\nval it = undefined\n",
    ),
    Row("1; 2", 4, "fault syntax in declaration 2\n"),
];

fn assert_scripts<R: Threads + Sync + Abort>(rt: &R, alloc: Global) {
    for row in SCRIPTS {
        let ran = run_script(rt, alloc, &[], row.0.as_bytes());
        assert_ran(rt, ran, row.1, row.2.as_bytes());
    }
}

// The parts of a script, the status of its run, and what is written.
#[derive(Clone, Copy)]
struct Limit<'a>(&'a [Part<'a>], u8, &'a str);

// Blanks; a number in brackets; a comprehension with tests; a comment that is not closed.
const LIMITS: &[Limit<'static>] = &[
    Limit(&[Part(" ", 1048576)], 0, ""),
    Limit(&[Part(" ", 1048577)], 8, "fault long\n"),
    Limit(
        &[Part("(", 400), Part("1", 1), Part(")", 400), Part(";", 1)],
        0,
        "typ it : nat\nval it = 1\n",
    ),
    Limit(
        &[Part("(", 401), Part("1", 1), Part(")", 401), Part(";", 1)],
        6,
        "fault deep at byte 400\n",
    ),
    Limit(
        &[Part("{1 | true", 1), Part(", true", 248), Part("};", 1)],
        0,
        "typ it : {nat}\nval it = {1}\n",
    ),
    Limit(
        &[Part("{1 | true", 1), Part(", true", 249), Part("};", 1)],
        7,
        "fault large in declaration 1\n",
    ),
    Limit(&[Part("(* a", 1)], 3, "fault text at byte 0\n"),
];

// Fails where the run of a script did not end with this status, or did not write this.
fn assert_made<R: Threads + Sync + Abort>(
    rt: &R,
    alloc: Global,
    script: Result<Vec<u8>, Memory>,
    status: u8,
    output: &str,
) {
    let script = script.expect(rt, "memory for a script");
    let ran = run_script(rt, alloc, &[], &script);
    drop(script);
    assert_ran(rt, ran, status, output.as_bytes());
}

fn assert_limits<R: Threads + Sync + Abort>(rt: &R, alloc: Global) {
    for row in LIMITS {
        assert_made(rt, alloc, text_of(alloc, row.0), row.1, row.2);
    }
}

fn push_made(text: &mut Vec<u8>, part: Result<String, Memory>) -> Result<(), Memory> {
    let part = part?;
    let pushed = push(text, part.as_str());
    drop(part);
    pushed
}

// The first macro of a chain, and what stands before, between and behind the two applications in each other one.
#[derive(Clone, Copy)]
struct Chain<'a>(&'a str, &'a str, &'a str, &'a str);

// The macro of this number, which applies the one before twice.
fn link(alloc: Global, k: u64, chain: &Chain<'_>) -> Result<String, Memory> {
    let j = k.saturating_sub(1);
    let Chain(_, before, between, behind) = *chain;
    Ok(format!(in alloc; "macro \\m{k} = fn \\x => m{j}!{before}m{j}!{between}{behind};")?)
}

fn push_links(
    alloc: Global,
    text: &mut Vec<u8>,
    most: u64,
    chain: &Chain<'_>,
) -> Result<(), Memory> {
    push(text, chain.0)?;
    for k in 1..most {
        push_made(text, link(alloc, k, chain))?;
    }
    Ok(())
}

// So many macros of a chain.
fn links(alloc: Global, most: u64, chain: &Chain<'_>) -> Result<Vec<u8>, Memory> {
    let mut text = Vec::new(alloc);
    push_links(alloc, &mut text, most, chain)?;
    Ok(text)
}

const SUMS: Chain<'static> = Chain("macro \\m0 = fn \\x => x+x;", "x+", "x", "");

const SETS: Chain<'static> = Chain("macro \\m0 = fn \\x => {x};", "(", "x", ")");

#[test]
fn scripts_print_what_they_must(rt: HostRuntime) {
    let alloc = rt.alloc();
    assert_scripts(&rt, alloc);
    assert_limits(&rt, alloc);
    let sums = links(alloc, 12, &SUMS);
    assert_made(&rt, alloc, sums, 7, "fault large in declaration 12\n");
    let sets = links(alloc, 10, &SETS);
    assert_made(&rt, alloc, sets, 5, "fault type in declaration 10\n");
}
