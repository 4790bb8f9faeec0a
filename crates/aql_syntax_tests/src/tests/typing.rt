use crate::tests::building::{Made, call_macro, definition, local, name};
use aql_infer::check::{Typed, check};
use aql_infer::fault::TypeFault;
use aql_syntax::ast::{Decl, Decls, Expr};
use aql_syntax::build::members;
use aql_ty::ty::{Scheme, Ty};
use aql_value::made::{make_boxes, make_list, make_pair_list};
use aql_value::{CompareOp, Memory};
use std::alloc::Global;

// The number of the first declaration without a typing, or 0.
fn first_untyped(alloc: Global, items: Result<Vec<Decl>, Memory>) -> Result<u64, Memory> {
    let items = items?;
    match check(alloc, &Decls { items }) {
        Ok(_) => Ok(0),
        Err(TypeFault::NoType { declaration }) => Ok(declaration),
        Err(TypeFault::Memory) => Err(Memory),
    }
}

// Whether the first declaration has every set type.
fn is_any_set(typed: &Typed) -> bool {
    match typed.items.first() {
        Some(Scheme::Value(Ty::SetOf(t))) => t.has_variable(0) && t.nodes() == 1,
        _ => false,
    }
}

#[test]
fn the_empty_set_has_every_set_type(rt: HostRuntime) -> Result<(), Memory> {
    let alloc = rt.alloc();
    let items = make_list(alloc, Ok(Decl::Bare { expr: Expr::Empty }))?;
    match check(alloc, &Decls { items }) {
        Ok(typed) => assert!(rt; is_any_set(&typed)),
        Err(_) => assert!(rt; false),
    }
    Ok(())
}

// `val \x = 1;`
fn one(alloc: Global) -> Result<Decl, Memory> {
    Ok(Decl::Val {
        name: name(alloc, b'x', 0)?,
        expr: Expr::Nat(1),
    })
}

// `1 = true;`
fn unlike(alloc: Global) -> Result<Decl, Memory> {
    let (left, right) = make_boxes(alloc, Ok(Expr::Nat(1)), Ok(Expr::Bool(true)))?;
    Ok(Decl::Bare {
        expr: Expr::Compare(CompareOp::Equal, left, right),
    })
}

#[test]
fn sides_of_two_types(rt: HostRuntime) -> Result<(), Memory> {
    let alloc = rt.alloc();
    let items = make_pair_list(alloc, one(alloc), unlike(alloc));
    assert_eq!(rt; first_untyped(alloc, items)?, 2);
    Ok(())
}

// `{x}`
fn single(alloc: Global) -> Made {
    Ok(members(make_list(alloc, local(alloc))?))
}

// `macro \m0 = fn \x => {x};`, and then `macro \mK = fn \x => mJ!(mJ!x);` with J one less than K, up to m9.
fn nestings(alloc: Global) -> Result<Vec<Decl>, Memory> {
    let mut items = make_list(alloc, definition(alloc, 0, single(alloc)))?;
    for k in 0..9u8 {
        let twice = call_macro(alloc, k, call_macro(alloc, k, local(alloc)));
        items.push(definition(alloc, k.wrapping_add(1), twice)?)?;
    }
    Ok(items)
}

// The result of m8 has 257 levels, and that of m9 would have 513.
#[test]
fn a_doubling_chain_passes_the_levels(rt: HostRuntime) -> Result<(), Memory> {
    let alloc = rt.alloc();
    assert_eq!(rt; first_untyped(alloc, nestings(alloc))?, 10);
    Ok(())
}
