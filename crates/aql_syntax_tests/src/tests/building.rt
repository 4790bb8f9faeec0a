//! Builders of declarations and expressions, each over its parts as they were made.

use aql_syntax::ast::{Decl, Expr, Pattern, Qual};
use aql_syntax::build::{comprehension, members, tuple_pattern};
use aql_value::made::{both, make_box, make_boxes, make_list, make_pair_list};
use aql_value::{ArithOp, Memory, Str};
use std::alloc::Global;

/// An expression as it was made.
pub type Made = Result<Expr, Memory>;

/// A name: a letter and a number.
pub fn name(alloc: Global, letter: u8, number: u8) -> Result<Str, Memory> {
    let mut bytes = Vec::new(alloc);
    bytes.extend_from_slice(&[letter, number])?;
    Ok(Str { bytes })
}

pub(crate) fn letter_name(alloc: Global, letter: u8, number: u8) -> Made {
    Ok(Expr::Name(name(alloc, letter, number)?))
}

/// x
pub fn local(alloc: Global) -> Made {
    letter_name(alloc, b'x', 0)
}

/// \x
pub fn binding(alloc: Global) -> Result<Pattern, Memory> {
    Ok(Pattern::Bind(name(alloc, b'x', 0)?))
}

/// The call of the macro of that number.
pub(crate) fn call_macro(alloc: Global, number: u8, argument: Made) -> Made {
    let (name, argument) = both(name(alloc, b'm', number), make_box(alloc, argument))?;
    Ok(Expr::Apply { name, argument })
}

pub fn sum(alloc: Global, a: Made, b: Made) -> Made {
    let (a, b) = make_boxes(alloc, a, b)?;
    Ok(Expr::Arith(ArithOp::Add, a, b))
}

/// The macro of that number, with this body over x.
pub fn definition(alloc: Global, number: u8, body: Made) -> Result<Decl, Memory> {
    let head = both(name(alloc, b'm', number), binding(alloc));
    let ((name, pattern), body) = both(head, body)?;
    Ok(Decl::Macro {
        name,
        pattern,
        body,
    })
}

fn put(items: &mut Vec<Decl>, decl: Result<Decl, Memory>) -> Result<(), Memory> {
    items.push(decl?)?;
    Ok(())
}

/// macro \m0 = fn \x => x+x; and then macro \mK = fn \x => mJ!x+mJ!x; with J one less than K, up to the last.
pub(crate) fn doublings(alloc: Global, last: u8) -> Result<Vec<Decl>, Memory> {
    let first = sum(alloc, local(alloc), local(alloc));
    let mut items = make_list(alloc, definition(alloc, 0, first))?;
    for k in 0..last {
        let left = call_macro(alloc, k, local(alloc));
        let right = call_macro(alloc, k, local(alloc));
        let next = definition(alloc, k.wrapping_add(1), sum(alloc, left, right));
        put(&mut items, next)?;
    }
    Ok(items)
}

pub(crate) fn collect_set(alloc: Global, head: Made, quals: Result<Vec<Qual>, Memory>) -> Made {
    let (head, quals) = both(make_box(alloc, head), quals)?;
    Ok(comprehension(head, quals))
}

// That many tests of true.
fn tests(alloc: Global, count: u64) -> Result<Vec<Qual>, Memory> {
    let mut quals = Vec::new(alloc);
    for _ in 0..count {
        quals.push(Qual::Test(Expr::Bool(true)))?;
    }
    Ok(quals)
}

/// {1 | true, .. , true} with that many tests.
pub(crate) fn tests_alone(alloc: Global, count: u64) -> Made {
    collect_set(alloc, Ok(Expr::Nat(1)), tests(alloc, count))
}

// (\x,_) <- {}
fn draw_first(alloc: Global) -> Result<Qual, Memory> {
    let parts = make_pair_list(alloc, binding(alloc), Ok(Pattern::Any))?;
    Ok(Qual::From {
        pattern: tuple_pattern(parts),
        over: Expr::Empty,
    })
}

/// {1 | (\x,_) <- {}, 1 == 2}
pub(crate) fn match_first(alloc: Global) -> Made {
    let test = Qual::Match {
        pattern: Pattern::Nat(1),
        of: Expr::Nat(2),
    };
    let quals = make_pair_list(alloc, draw_first(alloc), Ok(test));
    collect_set(alloc, Ok(Expr::Nat(1)), quals)
}

/// {1, 2, 3}
pub(crate) fn three_members(alloc: Global) -> Made {
    let mut items = Vec::new(alloc);
    for n in [1, 2, 3] {
        items.push(Expr::Nat(n))?;
    }
    Ok(members(items))
}

/// A declaration without a name.
pub fn bare(e: Made) -> Result<Decl, Memory> {
    Ok(Decl::Bare { expr: e? })
}
