use aql_lex::fault::LexFault;
use aql_lex::lexer::tokens;
use aql_parse::{ParseFault, script};
use aql_syntax::ast::{Decl, Decls, Expr};
use aql_syntax::token::Token;
use aql_value::{ArithOp, CompareOp};
use std::alloc::{AllocError, Global};
use std::process::Abort;

// What reading tokens tells: the count of the declarations, or a fault.
fn read(alloc: Global, found: &[Token], source: &[u8]) -> (&'static str, u64) {
    match script(alloc, found, source) {
        Ok(decls) => ("", decls.items.len() as u64),
        Err(ParseFault::Syntax { declaration }) => ("syntax ", declaration),
        Err(ParseFault::Memory) => ("memory ", 0),
    }
}

// How many declarations a script has, or its fault.
fn count_or_fault(alloc: Global, source: &[u8]) -> Result<String, AllocError> {
    let (kind, n) = match tokens(alloc, source) {
        Ok(found) => read(alloc, &found, source),
        Err(LexFault::Text { at }) => ("text ", at),
        Err(LexFault::Deep { at }) => ("deep ", at),
        Err(LexFault::Memory) => ("memory ", 0),
    };
    format!(in alloc; "{kind}{n}")
}

fn assert_seen(
    rt: &impl Abort,
    alloc: Global,
    source: &[u8],
    expected: &str,
) -> Result<(), AllocError> {
    let found = count_or_fault(alloc, source)?;
    assert_eq!(rt; found.as_str(), expected);
    drop(found);
    Ok(())
}

// A script a line, and behind ` ~ ` how many declarations it has.
const PRODUCTIONS: &str = r#" ~ 0
val \x = 1; macro \f = fn \a => a; readval \y using NETCDF3 at x; x; ~ 4
readval \y using NETCDFZ8 at x; readval \y using NETCDFS1 at x; ~ 2
readval \y using CSVNS at x; readval \y using CSVHNNNNNNNN at x; ~ 2
if a then b else c default d; ~ 1
a or b and not not c; ~ 1
a union b + c * d / e % f - g; ~ 1
f!g!x; gen!1; get!len!dim_1!dim_8!index_1!index_8!x; ~ 3
(fn \x => x)!1; summap(fn (\x,_) => x)!(s); ~ 2
a[i][j]; A[B[i]]; a[1,2,3,4,5,6,7,8]; ~ 3
(1); (1,"a",true,false); {}; {1}; {1,2}; ~ 5
{x | \x <- s}; {1 | [(\i,\j):6] <- a, x == 3, b}; ~ 2
[[i | \i<2, \j<3]]; [[0; ]]; [[2,1; 1, 2]]; ~ 3
let val \x = 1 val (_,"a",2,true,x) = y in x end; ~ 1
340282366920938463463374607431768211455+1; ~ 1
{x | [a:b] <- e}; ~ 1
{x | [[1; 2]] = y}; ~ 1
{x | (a,b) <- e}; ~ 1
{x | (a,b) = e}; ~ 1
{x | f!x}; ~ 1
f!(g!x); ~ 1
1 < 2 and 3 = 4 or not 5 <> 6; ~ 1
a - b - c default d default if e then f else g; ~ 1
{((1)) | (((\x))) <- s, ((x)), ((x)) == y}; ~ 1"#;

// A script a line, and behind ` ~ ` its fault.
const FAULTS: &str = r#"1; 2 ~ syntax 2
; ~ syntax 1
1 < 2 < 3; ~ syntax 1
1 + not a; ~ syntax 1
a = not b; ~ syntax 1
1 + if a then b else c; ~ syntax 1
if a then b; ~ syntax 1
a[]; ~ syntax 1
a[1,2,3,4,5,6,7,8,9]; ~ syntax 1
[[1 | ]]; ~ syntax 1
[[1 | \i<1,\i<1,\i<1,\i<1,\i<1,\i<1,\i<1,\i<1,\i<1]]; ~ syntax 1
[[1,1,1,1,1,1,1,1,1; 1]]; ~ syntax 1
[[1]]; ~ syntax 1
[[1,2 | \i<2]]; ~ syntax 1
{1,2 | x <- s}; ~ syntax 1
{1 | }; ~ syntax 1
{1 | \x}; ~ syntax 1
{1 | [1:2] == s}; ~ syntax 1
(); ~ syntax 1
let in 1 end; ~ syntax 1
let val x 1 in 1 end; ~ syntax 1
(fn \x => x); ~ syntax 1
1!x; ~ syntax 1
gen x; ~ syntax 1
val x = 1; ~ syntax 1
1; macro \f = \x => x; ~ syntax 2
readval \y using NETCDF9 at x; ~ syntax 1
readval \y using CSV at x; ~ syntax 1
1; 2; readval \y using CSVNNNNNNNNN at x; ~ syntax 3
{x | f!x <- s}; ~ syntax 1
{x | [[1; 2]] <- y}; ~ syntax 1
{x | (a,1+b) == y}; ~ syntax 1
{1,}; ~ syntax 1
(1,); ~ syntax 1
let val \x = 1 in x; ~ syntax 1
macro \f = fn 1+x => x; ~ syntax 1
f!; ~ syntax 1
1 2; ~ syntax 1
1; a default; 2; ~ syntax 2
1; 2;; 3; ~ syntax 3
340282366920938463463374607431768211456; ~ text 0"#;

// Fails where a script is not seen as its line says, or the lines are not so many.
fn assert_each_seen(
    rt: &impl Abort,
    alloc: Global,
    lines: &str,
    count: u64,
) -> Result<(), AllocError> {
    let mut rows: u64 = 0;
    for line in lines.split('\n') {
        if let Some((source, expected)) = line.split_once(" ~ ") {
            assert_seen(rt, alloc, source.as_bytes(), expected)?;
            rows = rows.saturating_add(1);
        }
    }
    assert_eq!(rt; rows, count);
    Ok(())
}

#[test]
fn productions_are_read_and_faults_named(rt: HostRuntime) -> Result<(), AllocError> {
    assert_each_seen(&rt, rt.alloc(), PRODUCTIONS, 24)?;
    assert_each_seen(&rt, rt.alloc(), FAULTS, 41)
}

// The same of a script that was made.
fn assert_seen_of(
    rt: &impl Abort,
    alloc: Global,
    source: Result<Vec<u8>, AllocError>,
    expected: &str,
) -> Result<(), AllocError> {
    let source = source?;
    let found = assert_seen(rt, alloc, &source, expected);
    drop(source);
    found
}

// A `1` in that many brackets.
fn nest_brackets(
    alloc: Global,
    times: u64,
    open: &[u8],
    close: &[u8],
) -> Result<Vec<u8>, AllocError> {
    let mut source = Vec::new(alloc);
    for _ in 0..times {
        source.extend_from_slice(open)?;
    }
    source.push(b'1')?;
    for _ in 0..times {
        source.extend_from_slice(close)?;
    }
    source.push(b';')?;
    Ok(source)
}

#[test]
fn brackets_nest_to_the_scans_limit(rt: HostRuntime) -> Result<(), AllocError> {
    let rows: [(u64, &[u8], &[u8], &str); 4] = [
        (400, b"(", b")", "1"),
        (401, b"(", b")", "deep 400"),
        (400, b"{1|", b"}", "1"),
        (400, b"a[", b"]", "1"),
    ];
    for (times, open, close, expected) in rows {
        let source = nest_brackets(rt.alloc(), times, open, close);
        assert_seen_of(&rt, rt.alloc(), source, expected)?;
    }
    Ok(())
}

const PRELUDE: &str = r"macro \fst = fn (\x,_) => x;
macro \snd = fn (_,\y) => y;
macro \isempty = fn \s => s = {};
macro \member = fn (\x,\s) => not ({1 | x <- s} = {});
macro \count = fn \s => summap(fn _ => 1)!(s);
macro \total = fn \s => summap(fn \x => x)!(s);
macro \inter = fn (\s,\t) => {x | \x <- s, x <- t};
macro \minus = fn (\s,\t) => {x | \x <- s, not (member!(x,t))};
macro \subset = fn (\s,\t) => minus!(s,t) = {};
macro \product = fn (\s,\t) => {(x,y) | \x <- s, \y <- t};
macro \flatten = fn \s => {x | \t <- s, \x <- t};
macro \least = fn \s => get!({x | \x <- s, {1 | \y <- s, y < x} = {}});
macro \greatest = fn \s => get!({x | \x <- s, {1 | \y <- s, y > x} = {}});
macro \min2 = fn (\a,\b) => if a < b then a else b;
macro \max2 = fn (\a,\b) => if a < b then b else a;
macro \range = fn (\a,\b) => {a+i | \i <- gen!(b-a)};
macro \domain = fn \a => gen!(len!a);
macro \cells = fn \a => {x | [_:\x] <- a};
macro \graph = fn \a => {(i,x) | [\i:\x] <- a};
macro \reverse = fn \a => [[a[len!a-i-1] | \i<len!a]];
macro \subseq = fn (\a,\s,\n) => [[a[s+i] | \i<n]];
macro \append = fn (\a,\b) => [[if i < len!a then a[i] else b[i-len!a] | \i<len!a+len!b]];
macro \transpose = fn \a => [[a[j,i] | \i<snd!(dim_2!a), \j<fst!(dim_2!a)]];
macro \zip = fn (\a,\b) => [[(a[i],b[i]) | \i<min2!(len!a,len!b)]];";

#[test]
fn the_prelude_is_read(rt: HostRuntime) -> Result<(), AllocError> {
    assert_seen(&rt, rt.alloc(), PRELUDE.as_bytes(), "24")
}

// An expression of names in prefix form: a word for each operation, then its parts. Other forms are `?`.
#[cycle(put)]
fn put(e: &Expr, text: &mut Vec<u8>) -> Result<(), AllocError> {
    match e {
        Expr::Name(x) => put_word(&x.bytes, text),
        Expr::Apply { name, argument } => {
            put_word(b"apply", text)?;
            put_one(&name.bytes, argument, text)
        }
        Expr::Gen(a) => put_one(b"gen", a, text),
        Expr::Sub { array, at } => {
            put_one(b"sub", array, text)?;
            put_all(&at.items, text)
        }
        Expr::If(c, a, b) => {
            put_one(b"if", c, text)?;
            put(a, text)?;
            put(b, text)
        }
        Expr::Not(a) => put_one(b"not", a, text),
        Expr::And(a, b) => {
            put_one(b"and", a, text)?;
            put(b, text)
        }
        Expr::Or(a, b) => {
            put_one(b"or", a, text)?;
            put(b, text)
        }
        Expr::Union(a, b) => {
            put_one(b"union", a, text)?;
            put(b, text)
        }
        Expr::Default(a, b) => {
            put_one(b"default", a, text)?;
            put(b, text)
        }
        Expr::Arith(o, a, b) => {
            put_one(arithmetic(*o), a, text)?;
            put(b, text)
        }
        Expr::Compare(o, a, b) => {
            put_one(comparison(*o), a, text)?;
            put(b, text)
        }
        _ => put_word(b"?", text),
    }
}

// A word, then its first part.
#[cycle(put)]
fn put_one(word: &[u8], a: &Expr, text: &mut Vec<u8>) -> Result<(), AllocError> {
    put_word(word, text)?;
    put(a, text)
}

#[cycle(put)]
fn put_all(es: &[Expr], text: &mut Vec<u8>) -> Result<(), AllocError> {
    for e in es {
        put(e, text)?;
    }
    put_word(b"end", text)
}

fn put_word(word: &[u8], text: &mut Vec<u8>) -> Result<(), AllocError> {
    text.extend_from_slice(word)?;
    text.push(b' ')?;
    Ok(())
}

fn arithmetic(o: ArithOp) -> &'static [u8] {
    match o {
        ArithOp::Add => b"+",
        ArithOp::Monus => b"-",
        ArithOp::Mul => b"*",
        ArithOp::Quotient => b"/",
        ArithOp::Remainder => b"%",
    }
}

fn comparison(o: CompareOp) -> &'static [u8] {
    match o {
        CompareOp::Equal => b"=",
        CompareOp::Unequal => b"<>",
        CompareOp::Less => b"<",
        CompareOp::LessEqual => b"<=",
        CompareOp::Greater => b">",
        CompareOp::GreaterEqual => b">=",
    }
}

fn parse_script(alloc: Global, source: &[u8]) -> Option<Decls> {
    let found = tokens(alloc, source).ok()?;
    script(alloc, &found, source).ok()
}

// The text of the first of them, an expression. Nothing where it is none.
fn first_text(alloc: Global, decls: &[Decl]) -> Result<Vec<u8>, AllocError> {
    let mut text = Vec::new(alloc);
    if let Some(Decl::Bare { expr }) = decls.first() {
        put(expr, &mut text)?;
    }
    Ok(text)
}

// The first declaration of a script, an expression. Nothing where it is none.
fn expression(alloc: Global, source: &[u8]) -> Result<Vec<u8>, AllocError> {
    match parse_script(alloc, source) {
        Some(decls) => first_text(alloc, &decls.items),
        None => Ok(Vec::new(alloc)),
    }
}

fn assert_same(
    rt: &impl Abort,
    alloc: Global,
    plain: &[u8],
    parted: &[u8],
) -> Result<(), AllocError> {
    let seen = expression(alloc, plain)?;
    let expected = expression(alloc, parted)?;
    assert!(rt; !seen.is_empty() && !seen.contains(&b'?'));
    assert_eq!(rt; seen.as_slice(), expected.as_slice());
    Ok(())
}

// An expression a line, and behind ` ~ ` the same in parentheses.
const LEVELS: &str = r#"a default b or c; ~ a default (b or c);
a or b default c; ~ (a or b) default c;
a or b and c; ~ a or (b and c);
a and b or c; ~ (a and b) or c;
a and not b; ~ a and (not b);
not a and b; ~ (not a) and b;
not a = b; ~ not (a = b);
not not a <> b; ~ not (not (a <> b));
a < b union c; ~ a < (b union c);
a union b >= c; ~ (a union b) >= c;
a union b + c; ~ a union (b + c);
a + b union c; ~ (a + b) union c;
a + b * c; ~ a + (b * c);
a * b + c; ~ (a * b) + c;
a * f!b; ~ a * (f!b);
f!a * b; ~ (f!a) * b;
gen!a - b; ~ (gen!a) - b;
f!a[b]; ~ f!(a[b]);
gen!f!a; ~ gen!(f!a);
a[b][c]; ~ (a[b])[c];
a[b[c]]; ~ a[(b[c])];
# to the left
a - b - c; ~ (a - b) - c;
a - b + c; ~ (a - b) + c;
a / b * c; ~ (a / b) * c;
a % b / c; ~ (a % b) / c;
a union b union c; ~ (a union b) union c;
a and b and c; ~ (a and b) and c;
a or b or c; ~ (a or b) or c;
# to the right
a default b default c; ~ a default (b default c);
if a then b else c default d; ~ if a then b else (c default d);
if a then b else c or d; ~ if a then b else (c or d);
if a then if b then c else d else e; ~ if a then (if b then c else d) else e;
a default if b then c else d; ~ a default (if b then c else d);"#;

#[test]
fn levels_bind_as_parentheses_say(rt: HostRuntime) -> Result<(), AllocError> {
    let mut rows: u64 = 0;
    for line in LEVELS.split('\n') {
        if let Some((source, expected)) = line.split_once(" ~ ") {
            assert_same(&rt, rt.alloc(), source.as_bytes(), expected.as_bytes())?;
            rows = rows.saturating_add(1);
        }
    }
    assert_eq!(rt; rows, 33);
    Ok(())
}
