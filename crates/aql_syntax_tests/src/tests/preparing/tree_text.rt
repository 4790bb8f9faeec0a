//! Declarations in prefix form, to compare trees in tests: a word for each node, then its parts. Forms that the prelude has not are `?`.

use aql_syntax::ast::{Bind, Decl, Expr, Pattern, Qual};
use aql_value::{ArithOp, CompareOp, Memory, Str};
use std::alloc::Global;

/// The text of declarations, one after the other.
pub(crate) fn tree_text(alloc: Global, ds: &[Decl]) -> Result<Vec<u8>, Memory> {
    let mut out = Vec::new(alloc);
    for d in ds {
        put_declaration(d, &mut out)?;
    }
    Ok(out)
}

fn put_declaration(d: &Decl, out: &mut Vec<u8>) -> Result<(), Memory> {
    match d {
        Decl::Macro {
            name,
            pattern,
            body,
        } => {
            put_name(b"macro ", name, out)?;
            put_pattern(pattern, out)?;
            put_expression(body, out)?;
            put(b"\n", out)
        }
        _ => put(b"? ", out),
    }
}

fn put(text: &[u8], out: &mut Vec<u8>) -> Result<(), Memory> {
    out.extend_from_slice(text)?;
    Ok(())
}

fn put_name(form: &[u8], x: &Str, out: &mut Vec<u8>) -> Result<(), Memory> {
    put(form, out)?;
    put(&x.bytes, out)?;
    put(b" ", out)
}

// One stroke for each.
fn put_count(n: u64, out: &mut Vec<u8>) -> Result<(), Memory> {
    for _ in 0..n {
        put(b"|", out)?;
    }
    put(b" ", out)
}

#[cycle(put_pattern)]
fn put_pattern(p: &Pattern, out: &mut Vec<u8>) -> Result<(), Memory> {
    match p {
        Pattern::Bind(x) => put_name(b"bind ", x, out),
        Pattern::Any => put(b"any ", out),
        Pattern::Name(x) => put_name(b"refers ", x, out),
        Pattern::Row(ps) => put_patterns(&ps.items, out),
        _ => put(b"? ", out),
    }
}

#[cycle(put_pattern)]
fn put_patterns(ps: &[Pattern], out: &mut Vec<u8>) -> Result<(), Memory> {
    put(b"tuple ", out)?;
    put_count(ps.len() as u64, out)?;
    for p in ps {
        put_pattern(p, out)?;
    }
    Ok(())
}

#[cycle(put_expression)]
fn put_expression(e: &Expr, out: &mut Vec<u8>) -> Result<(), Memory> {
    match e {
        Expr::Nat(n) => put(if *n == 1 { b"1 " } else { b"? " }, out),
        Expr::Name(x) => put_name(b"name ", x, out),
        Expr::Empty => put(b"empty ", out),
        Expr::Row(es) => put_expressions(b"row ", &es.items, out),
        Expr::Comp { head, quals } => {
            put_qualifiers(&quals.items, out)?;
            put_expression(head, out)
        }
        Expr::Tab { body, binds } => {
            put_indices(&binds.items, out)?;
            put_expression(body, out)
        }
        Expr::Sub { array, at } => {
            put_expressions(b"sub ", &at.items, out)?;
            put_expression(array, out)
        }
        Expr::If(c, a, b) => {
            put_one(b"if ", c, out)?;
            put_expression(a, out)?;
            put_expression(b, out)
        }
        Expr::Not(a) => put_one(b"not ", a, out),
        Expr::Compare(o, a, b) => {
            put_one(comparison(*o), a, out)?;
            put_expression(b, out)
        }
        Expr::Arith(o, a, b) => {
            put_one(arithmetic(*o), a, out)?;
            put_expression(b, out)
        }
        Expr::Gen(a) => put_one(b"gen ", a, out),
        Expr::Get(a) => put_one(b"get ", a, out),
        Expr::Len(a) => put_one(b"dim | ", a, out),
        Expr::Dim { rank, array } => {
            put(b"dim ", out)?;
            put_count(*rank, out)?;
            put_expression(array, out)
        }
        Expr::Apply { name, argument } => {
            put_name(b"apply ", name, out)?;
            put_expression(argument, out)
        }
        Expr::SumMap {
            pattern,
            body,
            over,
        } => {
            put(b"summap ", out)?;
            put_pattern(pattern, out)?;
            put_expression(body, out)?;
            put_expression(over, out)
        }
        _ => put(b"? ", out),
    }
}

// A word, then its first part.
#[cycle(put_expression)]
fn put_one(form: &[u8], a: &Expr, out: &mut Vec<u8>) -> Result<(), Memory> {
    put(form, out)?;
    put_expression(a, out)
}

#[cycle(put_expression)]
fn put_expressions(form: &[u8], es: &[Expr], out: &mut Vec<u8>) -> Result<(), Memory> {
    put(form, out)?;
    put_count(es.len() as u64, out)?;
    for e in es {
        put_expression(e, out)?;
    }
    Ok(())
}

#[cycle(put_expression)]
fn put_qualifiers(quals: &[Qual], out: &mut Vec<u8>) -> Result<(), Memory> {
    put(b"comp ", out)?;
    put_count(quals.len() as u64, out)?;
    for q in quals {
        put_qualifier(q, out)?;
    }
    Ok(())
}

#[cycle(put_expression)]
fn put_qualifier(q: &Qual, out: &mut Vec<u8>) -> Result<(), Memory> {
    match q {
        Qual::From { pattern, over } => {
            put(b"from ", out)?;
            put_pattern(pattern, out)?;
            put_expression(over, out)
        }
        Qual::Cells { index, cell, over } => {
            put(b"cells ", out)?;
            put_pattern(index, out)?;
            put_pattern(cell, out)?;
            put_expression(over, out)
        }
        Qual::Match { pattern, of } => {
            put(b"match ", out)?;
            put_pattern(pattern, out)?;
            put_expression(of, out)
        }
        Qual::Test(e) => {
            put(b"test ", out)?;
            put_expression(e, out)
        }
    }
}

#[cycle(put_expression)]
fn put_indices(binds: &[Bind], out: &mut Vec<u8>) -> Result<(), Memory> {
    put(b"tab ", out)?;
    put_count(binds.len() as u64, out)?;
    for b in binds {
        put_name(b"index ", &b.name, out)?;
        put_expression(&b.bound, out)?;
    }
    Ok(())
}

fn comparison(o: CompareOp) -> &'static [u8] {
    match o {
        CompareOp::Equal => b"= ",
        CompareOp::Unequal => b"<> ",
        CompareOp::Less => b"< ",
        CompareOp::LessEqual => b"<= ",
        CompareOp::Greater => b"> ",
        CompareOp::GreaterEqual => b">= ",
    }
}

fn arithmetic(o: ArithOp) -> &'static [u8] {
    match o {
        ArithOp::Add => b"+ ",
        ArithOp::Monus => b"- ",
        ArithOp::Mul => b"* ",
        ArithOp::Quotient => b"/ ",
        ArithOp::Remainder => b"% ",
    }
}
