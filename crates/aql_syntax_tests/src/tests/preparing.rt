mod tree_text;

use crate::tests::preparing::tree_text::tree_text;
use aql_infer::check::check;
use aql_lex::lexer::tokens;
use aql_parse::script;
use aql_prelude::{COUNT, prelude};
use aql_print::print_scheme;
use aql_script::{ScriptFault, prepare};
use aql_syntax::ast::{Decl, Decls};
use aql_ty::ty::Scheme;
use aql_value::Memory;
use std::alloc::{AllocError, Global};
use std::process::Abort;
use std::slice;

// The first fault of a script, or nothing.
fn fault(alloc: Global, source: &[u8]) -> Result<String, AllocError> {
    let (kind, at) = match prepare(alloc, source) {
        Ok(_) => ("", None),
        Err(ScriptFault::Text { at }) => ("text", Some(at)),
        Err(ScriptFault::Deep { at }) => ("deep", Some(at)),
        Err(ScriptFault::Syntax { declaration }) => ("syntax", Some(declaration)),
        Err(ScriptFault::Type { declaration }) => ("type", Some(declaration)),
        Err(ScriptFault::Large { declaration }) => ("large", Some(declaration)),
        Err(ScriptFault::Memory) => ("memory", None),
    };
    match at {
        Some(at) => format!(in alloc; "{kind} {at}"),
        None => String::from_str(alloc, kind),
    }
}

// The types, ` / ` between each two.
fn type_texts(alloc: Global, schemes: &[Scheme]) -> Result<String, Memory> {
    let mut text = Vec::new(alloc);
    for scheme in schemes {
        if !text.is_empty() {
            text.extend_from_slice(b" / ")?;
        }
        print_scheme(alloc, scheme, &mut text)?;
    }
    Ok(String::from_utf8_lossy(alloc, &text)?)
}

// The types of a script's own declarations, or that it has a fault.
fn types(alloc: Global, source: &[u8]) -> Result<String, Memory> {
    match prepare(alloc, source) {
        Ok(prepared) => {
            let own = prepared.typed.items.get(COUNT as usize..).unwrap_or(&[]);
            type_texts(alloc, own)
        }
        Err(_) => Ok(String::from_str(alloc, "refused")?),
    }
}

fn parse_script(alloc: Global, source: &[u8]) -> Option<Decls> {
    let found = tokens(alloc, source).ok()?;
    script(alloc, &found, source).ok()
}

// The types of declarations that no prelude stands before, or that there is a fault.
fn types_alone(alloc: Global, source: &[u8]) -> Result<String, Memory> {
    match parse_script(alloc, source).and_then(|decls| check(alloc, &decls).ok()) {
        Some(typed) => type_texts(alloc, &typed.items),
        None => Ok(String::from_str(alloc, "refused")?),
    }
}

fn assert_text(
    rt: &impl Abort,
    found: Result<String, Memory>,
    expected: &str,
    source: &str,
) -> Result<(), Memory> {
    assert_eq!(rt; found?.as_str(), expected, "{source}");
    Ok(())
}

fn assert_fault(
    rt: &impl Abort,
    alloc: Global,
    source: &str,
    expected: &str,
) -> Result<(), AllocError> {
    assert_eq!(rt;
        fault(alloc, source.as_bytes())?.as_str(),
        expected,
        "{source}"
    );
    Ok(())
}

// Each macro of the prelude, and its type.
const PRELUDE: [(&str, &str); 24] = [
    ("macro \\fst = fn (\\x,_) => x;\n", "'a * 'b -> 'a"),
    ("macro \\snd = fn (_,\\y) => y;\n", "'a * 'b -> 'b"),
    ("macro \\isempty = fn \\s => s = {};\n", "{'a} -> bool"),
    (
        "macro \\member = fn (\\x,\\s) => not ({1 | x <- s} = {});\n",
        "'a * {'a} -> bool",
    ),
    (
        "macro \\count = fn \\s => summap(fn _ => 1)!(s);\n",
        "{'a} -> nat",
    ),
    (
        "macro \\total = fn \\s => summap(fn \\x => x)!(s);\n",
        "{nat} -> nat",
    ),
    (
        "macro \\inter = fn (\\s,\\t) => {x | \\x <- s, x <- t};\n",
        "{'a} * {'a} -> {'a}",
    ),
    (
        "macro \\minus = fn (\\s,\\t) => {x | \\x <- s, not (member!(x,t))};\n",
        "{'a} * {'a} -> {'a}",
    ),
    (
        "macro \\subset = fn (\\s,\\t) => minus!(s,t) = {};\n",
        "{'a} * {'a} -> bool",
    ),
    (
        "macro \\product = fn (\\s,\\t) => {(x,y) | \\x <- s, \\y <- t};\n",
        "{'a} * {'b} -> {'a * 'b}",
    ),
    (
        "macro \\flatten = fn \\s => {x | \\t <- s, \\x <- t};\n",
        "{{'a}} -> {'a}",
    ),
    (
        "macro \\least = fn \\s => get!({x | \\x <- s, {1 | \\y <- s, y < x} = {}});\n",
        "{'a} -> 'a",
    ),
    (
        "macro \\greatest = fn \\s => get!({x | \\x <- s, {1 | \\y <- s, y > x} = {}});\n",
        "{'a} -> 'a",
    ),
    (
        "macro \\min2 = fn (\\a,\\b) => if a < b then a else b;\n",
        "'a * 'a -> 'a",
    ),
    (
        "macro \\max2 = fn (\\a,\\b) => if a < b then b else a;\n",
        "'a * 'a -> 'a",
    ),
    (
        "macro \\range = fn (\\a,\\b) => {a+i | \\i <- gen!(b-a)};\n",
        "nat * nat -> {nat}",
    ),
    (
        "macro \\domain = fn \\a => gen!(len!a);\n",
        "[['a]]_1 -> {nat}",
    ),
    (
        "macro \\cells = fn \\a => {x | [_:\\x] <- a};\n",
        "[['a]]_1 -> {'a}",
    ),
    (
        "macro \\graph = fn \\a => {(i,x) | [\\i:\\x] <- a};\n",
        "[['a]]_1 -> {nat * 'a}",
    ),
    (
        "macro \\reverse = fn \\a => [[a[len!a-i-1] | \\i<len!a]];\n",
        "[['a]]_1 -> [['a]]_1",
    ),
    (
        "macro \\subseq = fn (\\a,\\s,\\n) => [[a[s+i] | \\i<n]];\n",
        "[['a]]_1 * nat * nat -> [['a]]_1",
    ),
    (
        "macro \\append = fn (\\a,\\b) => [[if i < len!a then a[i] else b[i-len!a] | \\i<len!a+len!b]];\n",
        "[['a]]_1 * [['a]]_1 -> [['a]]_1",
    ),
    (
        "macro \\transpose = fn \\a => [[a[j,i] | \\i<snd!(dim_2!a), \\j<fst!(dim_2!a)]];\n",
        "[['a]]_2 -> [['a]]_2",
    ),
    (
        "macro \\zip = fn (\\a,\\b) => [[(a[i],b[i]) | \\i<min2!(len!a,len!b)]];\n",
        "[['a]]_1 * [['b]]_1 -> [['a * 'b]]_1",
    ),
];

#[test]
fn the_types_of_the_prelude(rt: HostRuntime) -> Result<(), Memory> {
    match prepare(rt.alloc(), b"") {
        Ok(prepared) => assert_types_of_the_prelude(&rt, rt.alloc(), &prepared.typed.items),
        Err(_) => Err(Memory),
    }
}

fn assert_types_of_the_prelude(
    rt: &impl Abort,
    alloc: Global,
    schemes: &[Scheme],
) -> Result<(), Memory> {
    assert_eq!(rt; schemes.len(), 24);
    for ((source, expected), scheme) in PRELUDE.iter().zip(schemes) {
        let found = type_texts(alloc, slice::from_ref(scheme));
        assert_text(rt, found, expected, source)?;
    }
    Ok(())
}

// Each text of the prelude is read as the tree that stands for it.
#[test]
fn the_texts_of_the_prelude(rt: HostRuntime) -> Result<(), Memory> {
    let trees = prelude(rt.alloc())?;
    let found = assert_trees(&rt, rt.alloc(), &trees.items);
    drop(trees);
    found
}

fn assert_trees(rt: &impl Abort, alloc: Global, trees: &[Decl]) -> Result<(), Memory> {
    assert_eq!(rt; trees.len(), 24);
    for ((source, _), tree) in PRELUDE.iter().zip(trees) {
        assert_read_as(rt, alloc, source, tree)?;
    }
    Ok(())
}

fn assert_read_as(rt: &impl Abort, alloc: Global, source: &str, tree: &Decl) -> Result<(), Memory> {
    let expected = tree_text(alloc, slice::from_ref(tree))?;
    let found = read_text(alloc, source.as_bytes())?;
    assert_eq!(rt; found.as_slice(), expected.as_slice(), "{source}");
    assert!(rt; !expected.contains(&b'?'), "{source}");
    Ok(())
}

// The trees that a text is read as, in prefix form. Nothing where it has a fault.
fn read_text(alloc: Global, source: &[u8]) -> Result<Vec<u8>, Memory> {
    match parse_script(alloc, source) {
        Some(decls) => tree_text(alloc, &decls.items),
        None => Ok(Vec::new(alloc)),
    }
}

// What a row of a table says: `none` is an empty text.
fn row_text(text: &str) -> &str {
    if text == "none" { "" } else { text }
}

// A script a line, and behind ` ~ ` the types of its declarations.
const TYPES: &str = r#" ~ none
340282366920938463463374607431768211455+1; ~ nat
index_1!({(0,5),(2,7),(0,6)}); index_1!({}); ~ [[{nat}]]_1 / [[{'a}]]_1
index_2!({((0,1),true)}); ~ [[{bool}]]_2
macro \f = fn \a => {a+b | \b <- gen!2}; {x | \b <- gen!3, \x <- f!b}; ~ nat -> {nat} / {nat}
{}; ~ {'a}
{gen!2, {0}, {}}; {"b","a","b"}; ~ {{nat}} / {string}
readval \T using NETCDFZ3 at ("t.nc","temp",(1,0,0),(2,2,3)); {h | [(\h,_,_):(true,_)] <- T}; ~ [[bool * nat]]_3 / {nat}
readval \V using NETCDF2 at ("s.nc","v",(0,0),(2,3)); readval \U using NETCDFS1 at ("v.nc","u",0,2,2); ~ [[nat]]_2 / [[nat]]_1
{(i,j) | [(\i,\j):6] <- [[2,3; 4, 6, 5, 6, 0, 6]]}; ~ {nat * nat}
[[(i,i) | \i<10]][3]; ~ nat * nat
[[10/i default 0 | \i<3]]; ~ [[nat]]_1
macro \f = fn (\x,\s) => {(x,y) | \y <- s}; ~ 'a * {'b} -> {'a * 'b}
macro \d = fn \a => dim_3!a; ~ [['a]]_3 -> nat * nat * nat
macro \e = fn (\x,\y,\z) => x = z; ~ 'a * 'b * 'a -> bool
macro \n = fn (\x,(\y,\z)) => ((z,y),x); ~ 'a * ('b * 'c) -> ('c * 'b) * 'a
# a macro at two types, and one of its own results
macro \f = fn \x => {x}; (f!1, f!true, f!(f!"a")); ~ 'a -> {'a} / {nat} * {bool} * {{string}}
# the type of a global is general
val \s = {}; (s union {1}, s union {true}); ~ {'a} / {nat} * {bool}
# a pattern hides a global, and a later part of it an earlier one
val \x = true; let val \x = 1 in x end; (fn \x => {x})!"a"; ~ bool / nat / {string}
macro \g = fn (\x,\x) => x; ~ 'a * 'b -> 'b
{x | \x <- {1}, \x <- {true}}; ~ {bool}
# a later part of a pattern sees the names of an earlier one
macro \g = fn (\x,x) => x; ~ 'a * 'a -> 'a
val \x = 1; macro \g = fn (x,\y) => y; ~ nat / nat * 'a -> 'a
macro \k = fn \a => {1 | [\i:i] <- a}; ~ [[nat]]_1 -> {nat}
# a tabulation hides a global, but not in its bounds
val \i = true; [[i | \i<2]]; ~ bool / [[nat]]_1
val \i = 2; [[i | \i<3, \j<i]]; ~ nat / [[nat]]_2
# a macro hides a value, a local name hides a macro, and a body sees what stood before it
val \x = 1; macro \x = fn \y => y; x!true; let val \x = 2 in x end; ~ nat / 'a -> 'a / bool / nat
val \x = 1; macro \f = fn \y => (x,y); val \x = true; f!"a"; ~ nat / 'a -> nat * 'a / bool / nat * string
1; it; it; ~ nat / nat / nat
# of positions with one name the latest before a use, and a macro's body keeps those before it
val \x = 1; val \x = true; val \y = x; val \x = "a"; {x}; {y}; ~ nat / bool / bool / string / {string} / {bool}
macro \f = fn \y => {y}; macro \g = fn \y => f!y; macro \f = fn \y => (y,y); (g!1,f!1); ~ 'a -> {'a} / 'a -> {'a} / 'a -> 'a * 'a / {nat} * (nat * nat)
macro \fst = fn (_,\y) => y; fst!(1,true); ~ 'a * 'b -> 'b / bool
let val \x = 1 val (\y,_) = (x,true) in {y} end; ~ {nat}"#;

#[test]
fn types_of_scripts(rt: HostRuntime) -> Result<(), Memory> {
    let mut rows: u64 = 0;
    for line in TYPES.split('\n') {
        if let Some((source, expected)) = line.split_once(" ~ ") {
            assert_text(
                &rt,
                types(rt.alloc(), source.as_bytes()),
                row_text(expected),
                source,
            )?;
            rows = rows.saturating_add(1);
        }
    }
    assert_eq!(rt; rows, 33);
    Ok(())
}

// The types of readers of records.
#[test]
fn types_of_records(rt: HostRuntime) -> Result<(), Memory> {
    let rows: [(&str, &str); 2] = [
        (
            "readval \\R using CSVS at \"a\"; readval \\R using CSVHNSN at \"a\"; {x | (\\x,_,_) <- R};",
            "{string} / {nat * string * nat} / {nat}",
        ),
        ("readval \\R using CSVS at 1;", "refused"),
    ];
    for (source, expected) in rows {
        assert_text(
            &rt,
            types_alone(rt.alloc(), source.as_bytes()),
            expected,
            source,
        )?;
    }
    Ok(())
}

// A script a line, and behind ` ~ ` its first fault.
const FAULTS: &str = r#" ~ none
(* a ~ text 0
(*) ~ text 0
(**) ~ none
1; 2 ~ syntax 2
340282366920938463463374607431768211456; ~ text 0
val \x = 1; 1 = true; ~ type 2
{1, true}; ~ type 1
1 default true; ~ type 1
[[1, true; 1]]; ~ type 1
dim_2!([[1; 1]]); ~ type 1
index_2!({(1,2)}); ~ type 1
{1 | (\x,\y) <- {(1,2,3)}}; ~ type 1
x; ~ type 1
fst; ~ type 1
it!1; ~ type 1
val \x = 1; x!2; ~ type 2
{f!1 | \f <- {1}}; ~ type 1
{fst!(1,2) | \fst <- {1}}; ~ type 1
macro \f = fn \x => f!x; ~ type 1
let val \z = 1 in 2 end; macro \f = fn \x => z; ~ type 2
# no declaration sees its own name, nor a later one
val \x = 1; val \x = x = true; ~ type 2
macro \f = fn \y => x; val \x = 1; ~ type 1
# a local name has one type
let val \s = {} in (s union {1}, s union {true}) end; ~ type 1
# the bounds of a tabulation see none of its indices
val \i = true; [[1 | \i<3, \j<i]]; ~ type 2
readval \V using NETCDF1 at ("a","b",0,true); ~ type 1
readval \V using NETCDF2 at ("a","b",0,1); ~ type 1
readval \R using CSVN at "a"; ~ none
1; readval \R using CSVHNS at "a"; readval \R using CSVS at "a"; ~ none
readval \R using CSVN at 1; ~ type 1
# of several faults the first in the order text, deep, syntax, type, large
1; 2 $ ~ text 5
1 = true; 2 ~ syntax 2
readval \R using CSVN at "a"; 1 = true; ~ type 2
1 = true; readval \R using CSVN at "a"; 2 = true; ~ type 1
readval \R using CSVNNNNNNNNN at "a"; 1 = true; ~ syntax 1"#;

#[test]
fn first_faults(rt: HostRuntime) -> Result<(), Memory> {
    let mut rows: u64 = 0;
    for line in FAULTS.split('\n') {
        if let Some((source, expected)) = line.split_once(" ~ ") {
            assert_fault(&rt, rt.alloc(), source, row_text(expected))?;
            rows = rows.saturating_add(1);
        }
    }
    assert_eq!(rt; rows, 35);
    Ok(())
}

// The same of a script that was made.
fn assert_fault_of(
    rt: &impl Abort,
    alloc: Global,
    source: Result<String, AllocError>,
    expected: &str,
) -> Result<(), AllocError> {
    let source = source?;
    let found = assert_fault(rt, alloc, source.as_str(), expected);
    drop(source);
    found
}

// A text with a part of it repeated that many times.
fn repeat_part(
    alloc: Global,
    before: &str,
    part: &str,
    times: u64,
    after: &str,
) -> Result<String, AllocError> {
    let mut source = String::new(alloc);
    source.push_str(before)?;
    for _ in 0..times {
        source.push_str(part)?;
    }
    source.push_str(after)?;
    Ok(source)
}

#[test]
fn faults_where_a_part_is_repeated(rt: HostRuntime) -> Result<(), Memory> {
    // ten copies of a type of n nodes have 10 * n + 1
    let tens = "macro \\q = fn \\x => (x,x,x,x,x,x,x,x,x,x); val \\v = q!(q!(q!1)); ";
    let rows: [(&str, &str, u64, &str, &str); 9] = [
        ("", "(", 401, "", "deep 400"),
        ("$", "(", 401, "", "text 0"),
        ("", "(", 401, "$", "text 401"),
        ("{1 | true", ",true", 248, "};", ""),
        ("{1 | true", ",true", 249, "};", "large 1"),
        (
            "readval \\R using CSVN at \"a\"; {1 | true",
            ",true",
            249,
            "};",
            "large 2",
        ),
        ("{1 | true", ",true", 249, "}; 1 = true;", "type 2"),
        (tens, "(v,v,v,v,v,v,v,v,v)", 1, ";", ""),
        (tens, "{(v,v,v,v,v,v,v,v,v)}", 1, ";", "type 3"),
    ];
    for (before, part, times, after, expected) in rows {
        let source = repeat_part(rt.alloc(), before, part, times, after);
        assert_fault_of(&rt, rt.alloc(), source, expected)?;
    }
    Ok(())
}

// A macro of that number, whose body has the macro before it for each `?`.
fn put_macro(j: u64, body: &str, source: &mut String) -> Result<(), AllocError> {
    let k = j.wrapping_add(1);
    write!(source, "macro \\f{k} = fn \\x => ")?;
    for letter in body.chars() {
        if letter == '?' {
            write!(source, "f{j}")?;
        } else {
            source.push(letter)?;
        }
    }
    source.push_str(";\n")
}

// Macros `f1` to that many behind the first, `f0`: each has this body, with the macro before it for each `?`.
fn chain_macros(
    alloc: Global,
    first: &str,
    body: &str,
    count: u64,
    last: &str,
) -> Result<String, AllocError> {
    let mut source = String::new(alloc);
    source.push_str(first)?;
    for j in 0..count {
        put_macro(j, body, &mut source)?;
    }
    source.push_str(last)?;
    Ok(source)
}

#[test]
fn faults_of_chained_macros(rt: HostRuntime) -> Result<(), Memory> {
    let doubled = "macro \\f0 = fn \\x => x+x;\n";
    let twice = "?!x+?!x";
    let single = "macro \\f0 = fn \\x => {x};\n";
    let nested = "?!(?!x)";
    let rows: [(&str, &str, u64, &str, &str); 7] = [
        // the size of macro k is 10 * 2^k - 6
        (doubled, twice, 10, "", ""),
        (doubled, twice, 11, "", "large 12"),
        (doubled, twice, 11, "1 = true;", "type 13"),
        // the result of macro k has 2^k levels above its argument's
        (single, nested, 8, "", ""),
        (single, nested, 9, "", "type 10"),
        (single, nested, 8, "f8!(f7!(f3!(f2!(f1!(f0!1)))));", ""),
        (single, nested, 8, "f8!(f7!(f4!1));", "type 10"),
    ];
    for (first, body, count, last, expected) in rows {
        let source = chain_macros(rt.alloc(), first, body, count, last);
        assert_fault_of(&rt, rt.alloc(), source, expected)?;
    }
    Ok(())
}
