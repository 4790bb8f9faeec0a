ghost use Rattle.std.specs.Prelude.{◌≡◌, ◌+◌, ◌-◌, ◌++◌, map, codes, decimal, OnOk, IfOk};
ghost use Rattle.nrca_term.specs.Nodes.{let_term, if_term, tab_term, sub_term, literal_term};
ghost use Rattle.nrca_term.specs.View.{term_of, terms_of};
ghost use Rattle.aql_print.specs.Appends.{AppendsPrefix};
ghost use Rattle.aql_print.specs.CoreText as texts;
ghost use Rattle.aql_print.specs.CoreText.{between, bounds_text, core_text, in_parentheses, loop_text, position_text};
ghost use Rattle.aql_print.specs.Joined.{join_texts};

use crate::bytes::{put, put_before, put_number, put_quoted};
use crate::names::{put_bound, put_variable};
use aql_prelude::COUNT;
use aql_value::{ArithOp, CompareOp, Memory};
use nrca_term::{Core, Terms};
use std::alloc::Global;

/// Appends the text of a term. Where memory runs out, the old bytes and then a prefix of the text are left.
#[tactic(auto, using(crate::specs::Laws::Prefix::prefix_none))]
pub fn print_core(alloc: Global, term: &Core, out: &mut Vec<u8>) -> Result<(), Memory>
    ensures ok { OnOk result (out.new.items ≡ out.old.items ++ core_text 0 (term_of term.now)) }
    ensures prefix { AppendsPrefix out.old.items out.new.items (core_text 0 (term_of term.now)) }
{
    let mut text = Vec::new(alloc);
    put_term(term, 0, &mut text)?;
    put(&text, out)
}

// Adds a position, by the number of its declaration.
#[inline(never)]
fn put_position(n: u64, out: &mut Vec<u8>) -> Result<(), Memory>
    ensures { OnOk result (out.new.items ≡ out.old.items ++ position_text n) }
{
    put(b"@", out)?;
    put_number(u128::from(n.saturating_sub(COUNT)), out)
}

// Adds the text of a term with some binders around it. A level of the recursion keeps little on the stack.
#[cycle(put_term)]
#[tactic(auto, using(crate::proofs::CoreEquations::variants, nrca_term::specs::Laws::Equations::list_variants))]
fn put_term(term: &Core, depth: u64, out: &mut Vec<u8>) -> Result<(), Memory>
    ensures { OnOk result (out.new.items ≡ out.old.items ++ core_text depth (term_of term.now)) }
{
    match term {
        Core::Var(i) => put_variable(depth, *i, out),
        Core::Global(n) => put_position(*n, out),
        Core::Nat(n) => put_number(*n, out),
        Core::Bool(b) => put(if *b { b"true" } else { b"false" }, out),
        Core::Text(s) => put_quoted(s.bytes.as_slice(), out),
        Core::Bottom => put(b"undefined", out),
        Core::Let(a, b) => put_let(a, b, depth, out),
        Core::If(c, a, b) => put_if(c, a, b, depth, out),
        Core::Default(a, b) => put_two(a, b" default ", b, depth, out),
        Core::Tuple(ts) => put_all(b"(", ts, b", ", b")", depth, out),
        Core::Proj { at, of, part } => put_projection(*at, *of, part, depth, out),
        Core::Arith(op, a, b) => put_two(a, arith_sign(*op), b, depth, out),
        Core::Compare(op, a, b) => put_two(a, compare_sign(*op), b, depth, out),
        Core::Empty => put(b"{}", out),
        Core::Single(a) => put_one(b"{", a, b"}", depth, out),
        Core::Union(a, b) => put_two(a, b" union ", b, depth, out),
        Core::BigUnion { over, body } => put_loop(b"U{", over, body, depth, out),
        Core::Sum { over, body } => put_loop(b"S{", over, body, depth, out),
        Core::Gen(a) => put_one(b"gen(", a, b")", depth, out),
        Core::Get(a) => put_one(b"get(", a, b")", depth, out),
        Core::Tab { bounds, body } => put_tabulation(bounds, body, depth, out),
        Core::Sub { array, at } => put_subscript(array, at, depth, out),
        Core::Dim { rank, array } => put_ranked(b"dim_", *rank, array, depth, out),
        Core::Index { rank, pairs } => put_ranked(b"index_", *rank, pairs, depth, out),
        Core::Literal { dims, cells } => put_literal(dims, cells, depth, out),
    }
}

// Adds the text of a term between two others.
#[cycle(put_term)]
fn put_one(
    left: &[u8],
    term: &Core,
    right: &[u8],
    depth: u64,
    out: &mut Vec<u8>,
) -> Result<(), Memory>
    ensures { OnOk result (out.new.items ≡ out.old.items ++ between left.now
        (core_text depth (term_of term.now)) right.now) }
{
    put(left, out)?;
    put_term(term, depth, out)?;
    put(right, out)
}

// Adds the texts of two terms in parentheses, with what stands between them.
#[cycle(put_term)]
fn put_two(a: &Core, middle: &[u8], b: &Core, depth: u64, out: &mut Vec<u8>) -> Result<(), Memory>
    ensures { OnOk result (out.new.items ≡ out.old.items
        ++ in_parentheses (core_text depth (term_of a.now)) middle.now
        (core_text depth (term_of b.now))) }
{
    put(b"(", out)?;
    put_term(a, depth, out)?;
    put(middle, out)?;
    put_term(b, depth, out)?;
    put(b")", out)
}

#[cycle(put_term)]
fn put_let(a: &Core, b: &Core, depth: u64, out: &mut Vec<u8>) -> Result<(), Memory>
    ensures { OnOk result (out.new.items ≡ out.old.items ++ core_text depth
        (let_term (term_of a.now) (term_of b.now))) }
{
    let inner = deeper(depth, 1)?;
    put(b"(let ", out)?;
    put_bound(depth, out)?;
    put(b" = ", out)?;
    put_term(a, depth, out)?;
    put(b" in ", out)?;
    put_term(b, inner, out)?;
    put(b")", out)?;
    Ok(())
}

#[cycle(put_term)]
fn put_if(c: &Core, a: &Core, b: &Core, depth: u64, out: &mut Vec<u8>) -> Result<(), Memory>
    ensures { OnOk result (out.new.items ≡ out.old.items ++ core_text depth
        (if_term (term_of c.now) (term_of a.now) (term_of b.now))) }
{
    put(b"(if ", out)?;
    put_term(c, depth, out)?;
    put(b" then ", out)?;
    put_term(a, depth, out)?;
    put(b" else ", out)?;
    put_term(b, depth, out)?;
    put(b")", out)?;
    Ok(())
}

// Adds the text of a loop, whose body has one variable.
#[cycle(put_term)]
fn put_loop(
    left: &[u8],
    over: &Core,
    body: &Core,
    depth: u64,
    out: &mut Vec<u8>,
) -> Result<(), Memory>
    ensures { OnOk result (out.new.items ≡ out.old.items ++ loop_text left.now depth
        (core_text depth (term_of over.now)) (core_text (depth + 1) (term_of body.now))) }
{
    let inner = deeper(depth, 1)?;
    put(left, out)?;
    put_term(body, inner, out)?;
    put(b" | ", out)?;
    put_bound(depth, out)?;
    put(b" in ", out)?;
    put_term(over, depth, out)?;
    put(b"}", out)?;
    Ok(())
}

#[cycle(put_term)]
fn put_projection(
    at: u64,
    of: u64,
    part: &Core,
    depth: u64,
    out: &mut Vec<u8>,
) -> Result<(), Memory>
    ensures { OnOk result (out.new.items ≡ out.old.items
        ++ (codes "#" ++ (decimal at
        ++ (codes "/" ++ (decimal of ++ between (codes "(") (core_text depth (term_of part.now))
        (codes ")")))))) }
{
    put(b"#", out)?;
    put_number(u128::from(at), out)?;
    put(b"/", out)?;
    put_number(u128::from(of), out)?;
    put_one(b"(", part, b")", depth, out)?;
    Ok(())
}

// Adds a word with a rank, and then a term in parentheses.
#[cycle(put_term)]
fn put_ranked(
    word: &[u8],
    rank: u64,
    term: &Core,
    depth: u64,
    out: &mut Vec<u8>,
) -> Result<(), Memory>
    ensures { OnOk result (out.new.items ≡ out.old.items
        ++ (word.now ++ (decimal rank ++ between (codes "(") (core_text depth (term_of term.now))
        (codes ")")))) }
{
    put(word, out)?;
    put_number(u128::from(rank), out)?;
    put_one(b"(", term, b")", depth, out)
}

#[cycle(put_term)]
fn put_tabulation(bounds: &Terms, body: &Core, depth: u64, out: &mut Vec<u8>) -> Result<(), Memory>
    ensures { OnOk result (out.new.items ≡ out.old.items ++ core_text depth
        (tab_term (terms_of bounds.now) (term_of body.now))) }
{
    let inner = deeper(depth, bounds.0.len() as u64)?;
    put_one(b"[[", body, b" | ", inner, out)?;
    put_bounds(bounds, depth, out)?;
    put(b"]]", out)?;
    Ok(())
}

// Adds the bounds of a tabulation, each behind its index.
#[cycle(put_term)]
fn put_bounds(bounds: &Terms, depth: u64, out: &mut Vec<u8>) -> Result<(), Memory>
    ensures { OnOk result (out.new.items ≡ out.old.items ++ join_texts (codes ", ")
        (bounds_text depth (map (core_text depth) (terms_of bounds.now)))) }
{
    for (i, bound) in bounds.0.iter().enumerate() {
        put_before(i, b", ", out)?;
        put_bound(deeper(depth, i as u64)?, out)?;
        put(b"<", out)?;
        put_term(bound, depth, out)?;
    }
    Ok(())
}

#[cycle(put_term)]
fn put_subscript(array: &Core, at: &Terms, depth: u64, out: &mut Vec<u8>) -> Result<(), Memory>
    ensures { OnOk result (out.new.items ≡ out.old.items ++ core_text depth
        (sub_term (term_of array.now) (terms_of at.now))) }
{
    put_one(b"sub(", array, b"; ", depth, out)?;
    put_all(b"", at, b", ", b")", depth, out)?;
    Ok(())
}

#[cycle(put_term)]
fn put_literal(dims: &Terms, cells: &Terms, depth: u64, out: &mut Vec<u8>) -> Result<(), Memory>
    ensures { OnOk result (out.new.items ≡ out.old.items ++ core_text depth
        (literal_term (terms_of dims.now) (terms_of cells.now))) }
{
    put_all(b"[[", dims, b",", b"; ", depth, out)?;
    put_all(b"", cells, b", ", b"]]", depth, out)?;
    Ok(())
}

// Adds the texts of terms, with a separator between each two, and what stands around them.
#[cycle(put_term)]
fn put_all(
    left: &[u8],
    terms: &Terms,
    separator: &[u8],
    right: &[u8],
    depth: u64,
    out: &mut Vec<u8>,
) -> Result<(), Memory>
    ensures { OnOk result (out.new.items ≡ out.old.items ++ between left.now
        (join_texts separator.now (map (core_text depth) (terms_of terms.now))) right.now) }
{
    put(left, out)?;
    put_each(terms, separator, depth, out)?;
    put(right, out)
}

#[cycle(put_term)]
fn put_each(terms: &Terms, separator: &[u8], depth: u64, out: &mut Vec<u8>) -> Result<(), Memory>
    ensures { OnOk result (out.new.items ≡ out.old.items ++ join_texts separator.now
        (map (core_text depth) (terms_of terms.now))) }
{
    for (i, term) in terms.0.iter().enumerate() {
        put_before(i, separator, out)?;
        put_term(term, depth, out)?;
    }
    Ok(())
}

// More binders: a term with 2^64 of them around it fits into no memory.
fn deeper(depth: u64, by: u64) -> Result<u64, Memory>
    ensures { IfOk result (λ d. d ≡ depth + by) }
{
    depth.checked_add(by).ok_or(Memory)
}

fn arith_sign(op: ArithOp) -> &'static [u8]
    ensures { result.now ≡ texts.arith_text op }
{
    match op {
        ArithOp::Add => b" + ",
        ArithOp::Monus => b" - ",
        ArithOp::Mul => b" * ",
        ArithOp::Quotient => b" / ",
        ArithOp::Remainder => b" % ",
    }
}

fn compare_sign(op: CompareOp) -> &'static [u8]
    ensures { result.now ≡ texts.compare_text op }
{
    match op {
        CompareOp::Equal => b" = ",
        CompareOp::Unequal => b" <> ",
        CompareOp::Less => b" < ",
        CompareOp::LessEqual => b" <= ",
        CompareOp::Greater => b" > ",
        CompareOp::GreaterEqual => b" >= ",
    }
}
