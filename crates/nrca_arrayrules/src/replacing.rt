//! The dimensions of a variable: whether a term asks for them, and another term in their place.

ghost use Rattle.std.specs.Prelude.{◌≡◌, ◌↔◌, ◌<◌, ◌≤◌, IsTrue, IfOk, OnOk};
ghost use Rattle.nrca_term.specs.Rules.{dims_of_var, replace_dims};
ghost use Rattle.nrca_term.specs.Term.{parts_of, count};
ghost use Rattle.nrca_term.specs.View.{term_of};
ghost use Rattle.nrca_arrayrules.specs.Replacing.{AsksUnder, AsksInPart, IsNoDim, IsDimOfVariable};
ghost use Rattle.nrca_arrayrules.specs.Replacing.{DimVariable, HasRoom, ReplacesIn};

use aql_value::Memory;
use nrca_subst::shift;
use nrca_term::{Core, discard};
use std::alloc::Global;

// Whether the term has the dimensions of variable `at`.
pub(crate) fn asks(term: &Core, at: u64) -> bool
    ensures { IsTrue result ↔ (1 ≤ dims_of_var at (term_of term.now)) }
{
    let asked = asks_under(term, at as u128);
    asked
}

// The same of a variable whose number may be past those that stand in terms.
#[cycle(asks)]
fn asks_under(term: &Core, at: u128) -> bool
    ensures { AsksUnder at (term_of term.now) result }
{
    match dim_variable(term) {
        Some(i) => i as u128 == at,
        None => asks_in_parts(term, at),
    }
}

// In all parts of a node that is no dimensions of a variable.
#[cycle(asks)]
fn asks_in_parts(term: &Core, at: u128) -> bool
    requires { IsNoDim (term_of term.now) }
    ensures { AsksUnder at (term_of term.now) result }
{
    for i in 0..term.parts() {
        if asks_in_part(term, i, at) {
            return true;
        }
    }
    false
}

// In part i of a node.
#[cycle(asks)]
fn asks_in_part(term: &Core, i: u64, at: u128) -> bool
    requires { i < count (parts_of (term_of term.now)) }
    ensures { AsksInPart at i (term_of term.now) result }
{
    let deeper = at.saturating_add(term.binders(i) as u128);
    match term.part(i) {
        Some(part) => {
            let asked = asks_under(part, deeper);
            asked
        }
        None => unreachable!(),
    }
}

// The variable whose dimensions the term is.
fn dim_variable(term: &Core) -> Option<u64>
    ensures { DimVariable (term_of term.now) result }
{
    match term {
        Core::Dim { rank: _, array } => {
            let variable = array.variable();
            variable
        }
        _ => None,
    }
}

// The term with `size` in the place of each dimensions of variable 0.
pub(crate) fn replace(alloc: Global, term: Core, size: &Core) -> Result<Core, Memory>
    requires { HasRoom 0 (term_of size.now) (term_of term) }
    ensures { IfOk result (λ t. term_of t ≡ replace_dims 0 (term_of size.now) (term_of term)) }
{
    let mut whole = term;
    replace_in(alloc, &mut whole, 0, size)?;
    Ok(whole)
}

// In place, under `depth` binders.
#[cycle(replace)]
fn replace_in(alloc: Global, term: &mut Core, depth: u64, size: &Core) -> Result<(), Memory>
    requires { HasRoom depth (term_of size.now) (term_of term.old) }
    ensures { OnOk result (ReplacesIn depth size.now term.old term.new) }
{
    match dim_variable(term) {
        Some(i) => replace_here(alloc, term, i, depth, size),
        None => replace_in_parts(alloc, term, depth, size),
    }
}

// Of the dimensions of variable i.
#[inline(never)]
fn replace_here(
    alloc: Global,
    term: &mut Core,
    i: u64,
    depth: u64,
    size: &Core,
) -> Result<(), Memory>
    requires dim { IsDimOfVariable i (term_of term.old) }
    requires room { HasRoom depth (term_of size.now) (term_of term.old) }
    ensures { OnOk result (ReplacesIn depth size.now term.old term.new) }
{
    if i != depth {
        return Ok(());
    }
    let copied = size.copy(alloc)?;
    *term = shift(copied, 0, depth);
    Ok(())
}

// In all parts of a node that is no dimensions of a variable.
#[cycle(replace)]
fn replace_in_parts(alloc: Global, term: &mut Core, depth: u64, size: &Core) -> Result<(), Memory>
    requires other { IsNoDim (term_of term.old) }
    requires room { HasRoom depth (term_of size.now) (term_of term.old) }
    ensures { OnOk result (ReplacesIn depth size.now term.old term.new) }
{
    let mut part = Core::Bottom;
    for i in 0..term.parts() {
        let deeper = depth + term.binders(i);
        term.exchange(i, &mut part);
        match replace_in(alloc, &mut part, deeper, size) {
            Ok(()) => term.exchange(i, &mut part),
            Err(error) => {
                discard(part);
                return Err(error);
            }
        }
    }
    discard(part);
    Ok(())
}
