//! Worked sizes, and copies that are made.

use crate::tests::building::{
    Made, bare, definition, doublings, match_first, tests_alone, three_members,
};
use aql_syntax::ast::{Decl, Decls, Expr, Pattern};
use aql_syntax::sizes::{levels, size};
use aql_value::Memory;
use aql_value::made::make_list;
use std::alloc::Global;
use std::process::Abort;

fn alone(alloc: Global, e: Made) -> Result<Decls, Memory> {
    let items = make_list(alloc, bare(e))?;
    Ok(Decls { items })
}

fn copy_made(alloc: Global, e: Made) -> Made {
    let e = e?;
    let made = e.copy(alloc);
    drop(e);
    made
}

#[test]
fn doubled_macros(rt: HostRuntime) -> Result<(), Memory> {
    let items = doublings(rt.alloc(), 11)?;
    let decls = Decls { items };
    assert!(rt; decls.items.len() == 12);
    assert!(rt; size(&decls, 12) == 20474);
    assert!(rt; size(&decls, 1) == 4);
    assert!(rt; levels(&decls, 1) == 3);
    assert!(rt; levels(&decls, 2) == 6);
    Ok(())
}

// The size and the levels of a declaration that stands alone.
fn assert_measures(
    rt: &impl Abort,
    alone: Result<Decls, Memory>,
    expected: (u64, u64),
) -> Result<(), Memory> {
    let decls = alone?;
    let measures = if decls.items.len() == 1 {
        Some((size(&decls, 1), levels(&decls, 1)))
    } else {
        None
    };
    drop(decls);
    assert_eq!(rt; measures, Some(expected));
    Ok(())
}

#[test]
fn comprehensions_and_sets(rt: HostRuntime) -> Result<(), Memory> {
    let alloc = rt.alloc();
    assert_measures(&rt, alone(alloc, tests_alone(alloc, 250)), (502, 1002))?;
    assert_measures(&rt, alone(alloc, match_first(alloc)), (10, 14))?;
    assert_measures(&rt, alone(alloc, three_members(alloc)), (4, 4))
}

fn copied_declaration(alloc: Global, decl: Result<Decl, Memory>) -> Result<Decl, Memory> {
    let decl = decl?;
    let made = decl.copy(alloc);
    drop(decl);
    made
}

#[test]
fn copies_are_made(rt: HostRuntime) -> Result<(), Memory> {
    let alloc = rt.alloc();
    assert_measures(
        &rt,
        alone(alloc, copy_made(alloc, match_first(alloc))),
        (10, 14),
    )?;
    let decl = copied_declaration(alloc, definition(alloc, 0, three_members(alloc)))?;
    let is_macro = matches!(
        decl,
        Decl::Macro {
            name: _,
            pattern: Pattern::Bind(_),
            body: Expr::Members(_)
        }
    );
    drop(decl);
    assert!(rt; is_macro);
    Ok(())
}
