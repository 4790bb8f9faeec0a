//! Lets of a tabulation whose dimensions the body asks for.

ghost use Rattle.std.specs.Prelude.{true, ◌≡◌, ◌↔◌, ◌<◌, ◌^◌, IsTrue, IfOk, List};
ghost use Rattle.aql_value.specs.Lists.{Every};
ghost use Rattle.nrca_term.specs.Nodes.{tuple_term};
ghost use Rattle.nrca_term.specs.Rules.{IsVariableOrNumber};
ghost use Rattle.nrca_term.specs.Term.{Term};
ghost use Rattle.nrca_term.specs.View.{term_of, terms_of};
ghost use Rattle.nrca_term.specs.declared.trace.Rule.TheVariants.{A4};
ghost use Rattle.nrca_rule_laws.specs.Fitting.{RuleFits, IsSmallPart, IsRight};

use crate::dimensions::sizes;
use crate::replacing::{asks, replace};
use aql_value::Memory;
use nrca_subst::shift;
use nrca_term::{Core, Terms, open, put};
use std::alloc::Global;

/// Whether the term is a let of a tabulation whose bounds are variables and numbers, and its body
/// has the dimensions of the variable somewhere.
pub fn fits_a4(term: &Core) -> bool
    ensures { RuleFits A4 result (term_of term.now) }
{
    match term {
        Core::Let(bound, body) => match &**bound {
            Core::Tab { bounds, body: _ } => {
                let plain = are_plain(bounds);
                let asked = asks(body, 0);
                let both = both(plain, asked);
                both
            }
            _ => false,
        },
        _ => false,
    }
}

/// The let whose body has the bounds in the place of these dimensions: one number, or a tuple.
pub fn a4(alloc: Global, term: Core) -> Result<Core, Memory>
    requires fits { RuleFits A4 true (term_of term) }
    requires inside { IsSmallPart (term_of term) }
    ensures { IfOk result (λ t. IsRight A4 (term_of term) (term_of t)) }
{
    match term {
        Core::Let(bound, body) => {
            let (room, tabulation) = open(bound);
            match tabulation {
                Core::Tab { bounds, body: cell } => {
                    let (kept, copies) = copy_all(alloc, bounds)?;
                    let size = shift(sizes(copies), 0, 1);
                    let (place, inner) = open(body);
                    let made = replace(alloc, inner, &size)?;
                    let bound = put(
                        room,
                        Core::Tab {
                            bounds: kept,
                            body: cell,
                        },
                    );
                    let body = put(place, made);
                    Ok(Core::Let(bound, body))
                }
                _ => unreachable!(),
            }
        }
        _ => unreachable!(),
    }
}

// The terms, and equal ones. They are copied as the parts of a tuple.
fn copy_all(alloc: Global, terms: Terms) -> Result<(Terms, Terms), Memory>
    ensures kept { IfOk result (λ p. terms_of p.0 ≡ terms_of terms) }
    ensures copied { IfOk result (λ p. terms_of p.1 ≡ terms_of terms) }
{
    let tuple = Core::Tuple(terms);
    let copied = tuple.copy(alloc)?;
    let copies = items(copied);
    let kept = items(tuple);
    Ok((kept, copies))
}

// The parts of a tuple.
fn items(tuple: Core) -> Terms
    requires { (ts : List Term) × (term_of tuple ≡ tuple_term ts) }
    ensures { term_of tuple ≡ tuple_term (terms_of result) }
{
    match tuple {
        Core::Tuple(items) => items,
        _ => unreachable!(),
    }
}

// Whether both tests hold.
fn both(plain: bool, asked: bool) -> bool
    ensures { IsTrue result ↔ (IsTrue plain × IsTrue asked) }
{
    plain && asked
}

// Whether each term is a variable or a number.
fn are_plain(terms: &Terms) -> bool
    ensures { IsTrue result ↔ Every IsVariableOrNumber (terms_of terms.now) }
{
    for j in 0..terms.0.len() {
        if !is_plain(&terms.0[j]) {
            return false;
        }
    }
    true
}

// Whether the term is a variable or a number.
fn is_plain(term: &Core) -> bool
    ensures { IsTrue result ↔ IsVariableOrNumber (term_of term.now) }
{
    match term {
        Core::Var(_) => true,
        Core::Nat(_) => true,
        _ => false,
    }
}
