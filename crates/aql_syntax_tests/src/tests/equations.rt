//! Equations between types: what solves and what does not, and instances that are written out.

use crate::tests::same::assert_same;
use aql_ty::ty::{Ty, row};
use aql_types::equation::Equation;
use aql_types::fault::UnifyFault;
use aql_types::solve::solve;
use aql_types::subst::Subst;
use aql_value::Memory;
use aql_value::made::{both, make_box, make_list, make_pair_list};
use std::alloc::Global;

// A type as it was made.
type Made = Result<Ty, Memory>;

fn set_of(alloc: Global, t: Made) -> Made {
    Ok(Ty::SetOf(make_box(alloc, t)?))
}

fn pair(alloc: Global, a: Made, b: Made) -> Made {
    Ok(row(make_pair_list(alloc, a, b)?))
}

fn array(alloc: Global, rank: u64, cell: Made) -> Made {
    let cell = make_box(alloc, cell)?;
    Ok(Ty::ArrayOf { rank, cell })
}

// That many sets around the type of numbers.
fn nest_sets(alloc: Global, depth: u64) -> Made {
    let mut t = Ok(Ty::Nat);
    for _ in 0..depth {
        t = set_of(alloc, t);
    }
    t
}

// What solving answers, want of memory apart.
fn solution_found(r: Result<Subst, UnifyFault>) -> Result<Option<Subst>, Memory> {
    match r {
        Ok(s) => Ok(Some(s)),
        Err(UnifyFault::Clash) => Ok(None),
        Err(UnifyFault::Memory) => Err(Memory),
    }
}

// A solution that makes these types one.
fn equal(alloc: Global, a: Made, b: Made) -> Result<Option<Subst>, Memory> {
    let (left, right) = both(a, b)?;
    let mut work = Vec::new(alloc);
    work.push(Equation { left, right })?;
    solution_found(solve(alloc, work, Vec::new(alloc)))
}

fn unifies(alloc: Global, a: Made, b: Made) -> Result<bool, Memory> {
    let s = equal(alloc, a, b)?;
    Ok(s.is_some())
}

// Whether the type can be used, where there are no equations.
fn usable(alloc: Global, t: Made) -> Result<bool, Memory> {
    let uses = make_list(alloc, t)?;
    let s = solution_found(solve(alloc, Vec::new(alloc), uses))?;
    Ok(s.is_some())
}

// A variable, and the set of it.
fn cycle(alloc: Global) -> Result<bool, Memory> {
    unifies(alloc, Ok(Ty::Var(0)), set_of(alloc, Ok(Ty::Var(0))))
}

// The set and the array of one variable.
fn two_forms(alloc: Global) -> Result<bool, Memory> {
    let set = set_of(alloc, Ok(Ty::Var(0)));
    unifies(alloc, set, array(alloc, 1, Ok(Ty::Var(0))))
}

// Arrays of one rank, of numbers and of this.
fn arrays(alloc: Global, rank: u64, cell: Ty) -> Result<bool, Memory> {
    let numbers = array(alloc, rank, Ok(Ty::Nat));
    unifies(alloc, array(alloc, rank, Ok(cell)), numbers)
}

#[test]
fn forms_and_cycles(rt: HostRuntime) {
    let alloc = rt.alloc();
    assert_same(&rt, unifies(alloc, Ok(Ty::Var(3)), Ok(Ty::Text)), Ok(true));
    assert_same(&rt, unifies(alloc, Ok(Ty::Nat), Ok(Ty::Bool)), Ok(false));
    assert_same(&rt, cycle(alloc), Ok(false));
    assert_same(&rt, two_forms(alloc), Ok(false));
    assert_same(&rt, arrays(alloc, 8, Ty::Var(0)), Ok(true));
    assert_same(&rt, arrays(alloc, 9, Ty::Nat), Ok(false));
}

#[test]
fn uses_at_the_limit(rt: HostRuntime) {
    let alloc = rt.alloc();
    assert_same(&rt, usable(alloc, nest_sets(alloc, 399)), Ok(true));
    assert_same(&rt, usable(alloc, nest_sets(alloc, 400)), Ok(false));
}

// Numbers of variables that 32 bits do not hold.
#[test]
fn large_numbers(rt: HostRuntime) {
    let alloc = rt.alloc();
    assert_same(&rt, usable(alloc, Ok(Ty::Var(4294967295))), Err(Memory));
    assert_same(&rt, usable(alloc, Ok(Ty::Var(u64::MAX))), Err(Memory));
}

fn is_truth(t: &Ty) -> bool {
    matches!(t, Ty::Bool)
}

fn is_set_of_numbers(t: &Ty) -> bool {
    match t {
        Ty::SetOf(member) => matches!(**member, Ty::Nat),
        _ => false,
    }
}

fn is_variable(t: &Ty, n: u64) -> bool {
    match t {
        Ty::Var(x) => *x == n,
        _ => false,
    }
}

// A solution that makes (0, {numbers}) and (truth values, 2) one type.
fn two_sides(alloc: Global) -> Result<Option<Subst>, Memory> {
    let left = pair(alloc, Ok(Ty::Var(0)), set_of(alloc, Ok(Ty::Nat)));
    let right = pair(alloc, Ok(Ty::Bool), Ok(Ty::Var(2)));
    equal(alloc, left, right)
}

// What a variable stands for under it.
fn instance(alloc: Global, x: u64) -> Made {
    match two_sides(alloc)? {
        None => Err(Memory),
        Some(s) => s.apply(alloc, &Ty::Var(x)),
    }
}

fn stands_for_truth(alloc: Global, x: u64) -> Result<bool, Memory> {
    let t = instance(alloc, x)?;
    Ok(is_truth(&t))
}

fn stands_for_set_of_numbers(alloc: Global, x: u64) -> Result<bool, Memory> {
    let t = instance(alloc, x)?;
    Ok(is_set_of_numbers(&t))
}

fn stands_for_itself(alloc: Global, x: u64) -> Result<bool, Memory> {
    let t = instance(alloc, x)?;
    Ok(is_variable(&t, x))
}

#[test]
fn instances(rt: HostRuntime) {
    let alloc = rt.alloc();
    assert_same(&rt, stands_for_truth(alloc, 0), Ok(true));
    assert_same(&rt, stands_for_itself(alloc, 1), Ok(true));
    assert_same(&rt, stands_for_set_of_numbers(alloc, 2), Ok(true));
    assert_same(&rt, stands_for_itself(alloc, 7), Ok(true));
}
