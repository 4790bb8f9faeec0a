//! Substitution: a term in the place of a variable.

ghost use Rattle.std.specs.Prelude.{◌≡◌, ◌<◌, ◌^◌, IfOk, OnOk, None};
ghost use Rattle.nrca_term.specs.Nodes.{variable};
ghost use Rattle.nrca_term.specs.Subst.{subst_term, top_var};
ghost use Rattle.nrca_term.specs.Term.{form_of, variable_of};
ghost use Rattle.nrca_term.specs.View.{term_of};
ghost use Rattle.nrca_subst.specs.Kept.{IsSubst, KeepsMeaning, StaysUndefined, KeepsTypes};
ghost use Rattle.nrca_subst.specs.Depth.{DepthFits, FitsDeeper, SubstitutesIn, SubstitutesBoth, ReplacesVariable};

use crate::shifting::shift;
use aql_value::Memory;
use nrca_term::{Core, discard};
use std::alloc::Global;

/// The term with variable `at` replaced, and those above it lowered by one. `with` is read among the
/// variables of the answer: under binders it is shifted. No variable number may pass 64 bits.
pub fn subst(alloc: Global, term: Core, at: u64, with: &Core) -> Result<Core, Memory>
    requires { top_var (subst_term at (term_of with.now) (term_of term)) < 2 ^ 64 }
    ensures substituted { IfOk result (λ t. IsSubst at with.now term t) }
    ensures meaning { IfOk result (λ t. KeepsMeaning at with.now term t) }
    ensures undefined { IfOk result (λ t. StaysUndefined at with.now term t) }
    ensures types { IfOk result (λ t. KeepsTypes at with.now term t) }
{
    let mut whole = term;
    subst_in(alloc, &mut whole, at, 0, with)?;
    Ok(whole)
}

// In place, under `depth` binders, or under as many that no variable is as high as their number. A walk over a chain of lets, or of
// sums, comes to each node once and takes none apart: where both parts stand in boxes it goes to them where they are.
#[cycle(subst)]
fn subst_in(alloc: Global, term: &mut Core, at: u64, depth: u128, with: &Core) -> Result<(), Memory>
    requires { DepthFits at depth (term_of with.now) (term_of term.old) }
    ensures { OnOk result (SubstitutesIn at depth with.now term.old term.new) }
{
    match term {
        Core::Var(i) => {
            let i = *i;
            subst_variable(alloc, term, i, at, depth, with)
        }
        Core::Nat(_) => Ok(()),
        Core::Let(a, b) => subst_two(alloc, a, b, 1, at, depth, with),
        Core::BigUnion { over, body } => subst_two(alloc, over, body, 1, at, depth, with),
        Core::Sum { over, body } => subst_two(alloc, over, body, 1, at, depth, with),
        Core::Default(a, b) => subst_two(alloc, a, b, 0, at, depth, with),
        Core::Union(a, b) => subst_two(alloc, a, b, 0, at, depth, with),
        Core::Arith(op, a, b) => {
            leave(op);
            subst_two(alloc, a, b, 0, at, depth, with)
        }
        Core::Compare(op, a, b) => {
            leave(op);
            subst_two(alloc, a, b, 0, at, depth, with)
        }
        _ => subst_other(alloc, term, at, depth, with),
    }
}

// A variable that is kept is not written again.
#[inline(never)]
#[tactic(auto, using(crate::proofs::Deeper::variables))]
fn subst_variable(
    alloc: Global,
    term: &mut Core,
    i: u64,
    at: u64,
    depth: u128,
    with: &Core,
) -> Result<(), Memory>
    requires is { term_of term.old ≡ variable i }
    requires fits { DepthFits at depth (term_of with.now) (variable i) }
    ensures { OnOk result (ReplacesVariable at depth with.now i term.new) }
{
    let replaced = depth.saturating_add(at as u128);
    if (i as u128) < replaced {
        return Ok(());
    }
    if i as u128 == replaced {
        let copied = with.copy(alloc)?;
        *term = shift(copied, 0, i - at);
        return Ok(());
    }
    *term = Core::Var(i - 1);
    Ok(())
}

// In both parts of a node, of which the second has so many variables of its own.
#[cycle(subst)]
fn subst_two(
    alloc: Global,
    a: &mut Box<Core>,
    b: &mut Box<Core>,
    binders: u64,
    at: u64,
    depth: u128,
    with: &Core,
) -> Result<(), Memory>
    requires first { DepthFits at depth (term_of with.now) (term_of a.old.value) }
    requires second { FitsDeeper at depth binders with.now b.old.value }
    ensures { OnOk result
        (SubstitutesBoth at depth binders with.now (a.old, b.old) (a.new, b.new)) }
{
    subst_in(alloc, &mut **a, at, depth, with)?;
    let deeper = depth.saturating_add(binders as u128);
    subst_in(alloc, &mut **b, at, deeper, with)
}

// Says that what stands beside the parts stays as it was.
#[inline(always)]
fn leave<T>(_beside: &mut T)
    ensures { _beside.new ≡ _beside.old }
{}

// In a variable, or in the parts of any node, each taken out for the while.
#[cycle(subst)]
#[inline(never)]
fn subst_other(
    alloc: Global,
    term: &mut Core,
    at: u64,
    depth: u128,
    with: &Core,
) -> Result<(), Memory>
    requires { DepthFits at depth (term_of with.now) (term_of term.old) }
    ensures { OnOk result (SubstitutesIn at depth with.now term.old term.new) }
{
    match term.variable() {
        Some(i) => subst_variable(alloc, term, i, at, depth, with),
        None => subst_parts_in(alloc, term, at, depth, with),
    }
}

// In the parts of any node, each taken out for the while.
#[cycle(subst)]
fn subst_parts_in(
    alloc: Global,
    term: &mut Core,
    at: u64,
    depth: u128,
    with: &Core,
) -> Result<(), Memory>
    requires other { variable_of (form_of (term_of term.old)) ≡ None }
    requires fits { DepthFits at depth (term_of with.now) (term_of term.old) }
    ensures { OnOk result (SubstitutesIn at depth with.now term.old term.new) }
{
    let mut part = Core::Bottom;
    for i in 0..term.parts() {
        let deeper = depth.saturating_add(term.binders(i) as u128);
        term.exchange(i, &mut part);
        match subst_in(alloc, &mut part, at, deeper, with) {
            Ok(()) => term.exchange(i, &mut part),
            Err(error) => {
                discard(part);
                return Err(error);
            }
        }
    }
    discard(part);
    Ok(())
}
