//! Lets of atoms, of what is used once, and of what is not used.

ghost use Rattle.std.specs.Prelude.{true, ◌≡◌, ◌↔◌, IsTrue, IfOk};
ghost use Rattle.nrca_term.specs.View.{term_of};
ghost use Rattle.nrca_term.specs.declared.trace.Rule.TheVariants.{L1, L2, L3};
ghost use Rattle.nrca_rule_laws.specs.Fitting.{RuleFits, IsSmallPart, IsRight};

use aql_value::Memory;
use nrca_subst::{subst, uses, uses_strictly};
use nrca_term::Core;
use std::alloc::Global;

/// Whether the term is a let of an atom: a variable, a position, a number, a truth value, a text or the empty set.
pub fn fits_l1(term: &Core) -> bool
    ensures { RuleFits L1 result (term_of term.now) }
{
    match term {
        Core::Let(bound, _) => match **bound {
            Core::Var(_) => true,
            Core::Global(_) => true,
            Core::Nat(_) => true,
            Core::Bool(_) => true,
            Core::Text(_) => true,
            Core::Empty => true,
            _ => false,
        },
        _ => false,
    }
}

/// The body with the atom for the variable.
pub fn l1(alloc: Global, term: Core) -> Result<Core, Memory>
    requires fits { RuleFits L1 true (term_of term) }
    requires inside { IsSmallPart (term_of term) }
    ensures { IfOk result (λ t. IsRight L1 (term_of term) (term_of t)) }
{
    match term {
        Core::Let(bound, body) => {
            let right = subst(alloc, Box::into_inner(body), 0, &bound)?;
            Ok(right)
        }
        _ => unreachable!(),
    }
}

/// Whether the term is a let whose variable is used once, and there under strict parts alone.
pub fn fits_l2(term: &Core) -> bool
    ensures { RuleFits L2 result (term_of term.now) }
{
    match term {
        Core::Let(_, body) => {
            let all = uses(body, 0);
            let strictly = uses_strictly(body, 0);
            let once = both_one(all, strictly);
            once
        }
        _ => false,
    }
}

/// The body with the bound term for the variable.
pub fn l2(alloc: Global, term: Core) -> Result<Core, Memory>
    requires fits { RuleFits L2 true (term_of term) }
    requires inside { IsSmallPart (term_of term) }
    ensures { IfOk result (λ t. IsRight L2 (term_of term) (term_of t)) }
{
    match term {
        Core::Let(bound, body) => {
            let right = subst(alloc, Box::into_inner(body), 0, &bound)?;
            Ok(right)
        }
        _ => unreachable!(),
    }
}

/// Whether the term is a let whose variable is not used.
pub fn fits_l3(term: &Core) -> bool
    ensures { RuleFits L3 result (term_of term.now) }
{
    match term {
        Core::Let(_, body) => uses(body, 0) == 0,
        _ => false,
    }
}

/// The body, shifted back. That the bound term is defined belongs to the condition.
pub fn l3(alloc: Global, term: Core) -> Result<Core, Memory>
    requires fits { RuleFits L3 true (term_of term) }
    requires inside { IsSmallPart (term_of term) }
    ensures { IfOk result (λ t. IsRight L3 (term_of term) (term_of t)) }
{
    match term {
        Core::Let(_, body) => {
            let right = subst(alloc, Box::into_inner(body), 0, &Core::Bottom)?;
            Ok(right)
        }
        _ => unreachable!(),
    }
}

// Whether both counts are one.
fn both_one(all: u64, strictly: u64) -> bool
    ensures { IsTrue result ↔ ((all ≡ 1) × (strictly ≡ 1)) }
{
    all == 1 && strictly == 1
}
