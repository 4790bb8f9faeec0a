//! Components of tuples and of lets.

ghost use Rattle.std.specs.Prelude.{true, ◌≡◌, ◌<◌, ◌≤◌, ◌↔◌, IsTrue, Some};
ghost use Rattle.nrca_term.specs.View.{term_of};
ghost use Rattle.nrca_term.specs.Term.{parts_of, child_of, count};
ghost use Rattle.nrca_term.specs.declared.trace.Rule.TheVariants.{P1, P2};
ghost use Rattle.nrca_rule_laws.specs.Fitting.{RuleFits, IsRight};

use nrca_term::{Core, discard, open, put};

/// Whether the term is a component of a tuple that has it.
pub fn fits_p1(term: &Core) -> bool
    ensures { RuleFits P1 result (term_of term.now) }
{
    match term {
        Core::Proj { at, of, part } => match &**part {
            Core::Tuple(parts) => {
                let inside = is_component(*at, *of, parts.0.len() as u64);
                inside
            }
            _ => false,
        },
        _ => false,
    }
}

/// The component. That the other components are defined belongs to the condition.
pub fn p1(term: Core) -> Core
    requires { RuleFits P1 true (term_of term) }
    ensures { IsRight P1 (term_of term) (term_of result) }
{
    match term {
        Core::Proj { at, of: _, part } => {
            let place = at - 1;
            let component = take_part(Box::into_inner(part), place);
            component
        }
        _ => unreachable!(),
    }
}

/// Whether the term is a component of a let.
pub fn fits_p2(term: &Core) -> bool
    ensures { RuleFits P2 result (term_of term.now) }
{
    match term {
        Core::Proj { at: _, of: _, part } => match **part {
            Core::Let(_, _) => true,
            _ => false,
        },
        _ => false,
    }
}

/// The let around the component of its body.
pub fn p2(term: Core) -> Core
    requires { RuleFits P2 true (term_of term) }
    ensures { IsRight P2 (term_of term) (term_of result) }
{
    match term {
        Core::Proj { at, of, part } => {
            let (room, inner) = open(part);
            match inner {
                Core::Let(bound, body) => {
                    let component = put(room, Core::Proj { at, of, part: body });
                    Core::Let(bound, component)
                }
                _ => unreachable!(),
            }
        }
        _ => unreachable!(),
    }
}

// Whether `at` is the number of a component, counted from 1, and `of` the number of all.
fn is_component(at: u64, of: u64, count: u64) -> bool
    ensures { IsTrue result ↔ ((1 ≤ at) × (at ≤ of) × (of ≡ count)) }
{
    1 <= at && at <= of && of == count
}

// Part i of a term; the rest is dropped.
fn take_part(term: Core, i: u64) -> Core
    requires { i < count (parts_of (term_of term)) }
    ensures { Some (term_of result) ≡ child_of (parts_of (term_of term)) i }
{
    let mut whole = term;
    let mut part = Core::Bottom;
    whole.exchange(i, &mut part);
    discard(whole);
    part
}
