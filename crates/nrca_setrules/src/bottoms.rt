//! Bottom in a strict part.

ghost use Rattle.std.specs.Prelude.{true, ◌≡◌, ◌↔◌, IsTrue};
ghost use Rattle.nrca_term.specs.View.{term_of};
ghost use Rattle.nrca_term.specs.Nodes.{bottom_term};
ghost use Rattle.nrca_term.specs.declared.trace.Rule.TheVariants.{B1};
ghost use Rattle.nrca_setrules.specs.Strictly.{IsStrictBottom};
ghost use Rattle.nrca_rule_laws.specs.Fitting.{RuleFits, IsRight};

use nrca_subst::strict;
use nrca_term::Core;

/// Whether a strict part of the term is Bottom.
pub fn fits_b1(term: &Core) -> bool
    ensures { RuleFits B1 result (term_of term.now) }
{
    for i in 0..term.parts() {
        if spoils(term, i) {
            return true;
        }
    }
    false
}

/// Bottom.
pub fn b1(_term: Core) -> Core
    requires { RuleFits B1 true (term_of _term) }
    ensures { IsRight B1 (term_of _term) (term_of result) }
{
    Core::Bottom
}

// Whether part i is strict, and Bottom.
fn spoils(term: &Core, i: u64) -> bool
    ensures { IsTrue result ↔ IsStrictBottom i (term_of term.now) }
{
    match term.part(i) {
        Some(part) => strict(term, i) && is_bottom(part),
        None => false,
    }
}

// Whether the term is Bottom.
fn is_bottom(term: &Core) -> bool
    ensures { IsTrue result ↔ (term_of term.now ≡ bottom_term) }
{
    match term {
        Core::Bottom => true,
        _ => false,
    }
}
