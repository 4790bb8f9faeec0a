//! Worked types: what unifies and what does not, and the limits at their edge.

use crate::tests::same::assert_same;
use aql_ty::ty::{Ty, row};
use aql_types::fault::UnifyFault;
use aql_types::solve::unify;
use aql_value::Memory;
use aql_value::made::{both, make_box, make_pair_list};
use std::alloc::Global;

// A type as it was made.
type Made = Result<Ty, Memory>;

fn set_of(alloc: Global, t: Made) -> Made {
    Ok(Ty::SetOf(make_box(alloc, t)?))
}

fn pair(alloc: Global, a: Made, b: Made) -> Made {
    Ok(row(make_pair_list(alloc, a, b)?))
}

fn array(alloc: Global, rank: u64, cell: Made) -> Made {
    let cell = make_box(alloc, cell)?;
    Ok(Ty::ArrayOf { rank, cell })
}

// That many sets around a variable.
fn nest_sets(alloc: Global, depth: u64) -> Made {
    let mut t = Ok(Ty::Var(0));
    for _ in 0..depth {
        t = set_of(alloc, t);
    }
    t
}

// The variables 1 to n.
fn variables(alloc: Global, n: u64) -> Made {
    let mut items = Vec::new(alloc);
    for i in 0..n {
        items.push(Ty::Var(i.wrapping_add(1)))?;
    }
    Ok(row(items))
}

// The pairs of the variables 0 to n - 1, each with itself.
fn double_pairs(alloc: Global, n: u64) -> Made {
    let mut items = Vec::new(alloc);
    for i in 0..n {
        items.push(pair(alloc, Ok(Ty::Var(i)), Ok(Ty::Var(i)))?)?;
    }
    Ok(row(items))
}

// Whether there is no unifier.
fn clashes(alloc: Global, a: Made, b: Made) -> Result<bool, Memory> {
    let (a, b) = both(a, b)?;
    let found = unify(alloc, &a, &b);
    drop(a);
    drop(b);
    match found {
        Ok(unifier) => {
            drop(unifier);
            Ok(false)
        }
        Err(UnifyFault::Clash) => Ok(true),
        Err(UnifyFault::Memory) => Err(Memory),
    }
}

// A variable, and the set of it.
fn cycle_clashes(alloc: Global) -> Result<bool, Memory> {
    clashes(alloc, Ok(Ty::Var(0)), set_of(alloc, Ok(Ty::Var(0))))
}

// Arrays of numbers of two ranks.
fn ranks_clash(alloc: Global) -> Result<bool, Memory> {
    let one = array(alloc, 1, Ok(Ty::Nat));
    clashes(alloc, one, array(alloc, 2, Ok(Ty::Nat)))
}

// Arrays of one rank, of a variable and of truth values.
fn cells_clash(alloc: Global) -> Result<bool, Memory> {
    let any = array(alloc, 2, Ok(Ty::Var(3)));
    clashes(alloc, any, array(alloc, 2, Ok(Ty::Bool)))
}

#[test]
fn clash_where_no_unifier_is(rt: HostRuntime) {
    let alloc = rt.alloc();
    assert_same(&rt, cycle_clashes(alloc), Ok(true));
    assert_same(&rt, clashes(alloc, Ok(Ty::Nat), Ok(Ty::Text)), Ok(true));
    assert_same(&rt, ranks_clash(alloc), Ok(true));
    assert_same(&rt, cells_clash(alloc), Ok(false));
}

fn deep_clashes(alloc: Global, depth: u64) -> Result<bool, Memory> {
    clashes(alloc, nest_sets(alloc, depth), Ok(Ty::Var(1)))
}

fn wide_clashes(alloc: Global, n: u64) -> Result<bool, Memory> {
    clashes(alloc, variables(alloc, n), double_pairs(alloc, n))
}

#[test]
fn clash_past_a_depth_and_a_width(rt: HostRuntime) {
    for row in &[(399, false), (400, true)] {
        assert_same(&rt, deep_clashes(rt.alloc(), row.0), Ok(row.1));
    }
    for row in &[(11, false), (12, true), (300, true)] {
        assert_same(&rt, wide_clashes(rt.alloc(), row.0), Ok(row.1));
    }
}

// What the most general unifier puts in the place of a variable.
fn instance(alloc: Global, a: Made, b: Made, variable: u64) -> Result<Ty, UnifyFault> {
    let (a, b) = both(a, b)?;
    let found = unify(alloc, &a, &b);
    drop(a);
    drop(b);
    let unifier = found?;
    let made = unifier.apply(alloc, &Ty::Var(variable));
    drop(unifier);
    Ok(made?)
}

// What stands for the variable of the second part, where (x, {x}) and ([text], y) are one type.
fn set_of_arrays(alloc: Global) -> Result<Ty, UnifyFault> {
    let left = pair(alloc, Ok(Ty::Var(0)), set_of(alloc, Ok(Ty::Var(0))));
    let right = pair(alloc, array(alloc, 1, Ok(Ty::Text)), Ok(Ty::Var(7)));
    instance(alloc, left, right, 7)
}

// Whether a type is a set, its levels and its nodes: nothing where there is no type.
fn counts_of(t: Result<Ty, UnifyFault>) -> Option<(bool, u64, u64)> {
    match t {
        Ok(t) => Some((matches!(t, Ty::SetOf(_)), t.levels(), t.nodes())),
        Err(_) => None,
    }
}

// The levels and the nodes of so many sets, and whether it fits.
fn counts_of_sets(alloc: Global, depth: u64) -> Result<(u64, u64, bool), Memory> {
    let deep = nest_sets(alloc, depth)?;
    let counts = (deep.levels(), deep.nodes(), deep.fits());
    drop(deep);
    Ok(counts)
}

#[test]
fn instances_and_counts(rt: HostRuntime) {
    let found = counts_of(set_of_arrays(rt.alloc()));
    assert_same(&rt, found, Some((true, 3, 3)));
    let found = counts_of_sets(rt.alloc(), 512);
    assert_same(&rt, found, Ok((513, 513, false)));
}
