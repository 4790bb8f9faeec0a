//! The weight of a term.

ghost use Rattle.std.specs.Prelude.{◌≡◌, ◌-◌, ◌^◌, min};
ghost use Rattle.nrca_term.specs.Term.{weight_of};
ghost use Rattle.nrca_term.specs.View.{term_of};

use crate::Core;

/// The weight of a term, or the greatest number where it passes that.
#[cycle(weight)]
pub fn weight(term: &Core) -> u128
    ensures { result ≡ min (weight_of (term_of term.now)) (2 ^ 128 - 1) }
{
    let mut total = term.form().weight();
    for i in 0..term.parts() {
        if let Some(part) = term.part(i) {
            total = total.saturating_add(weight(part));
        }
    }
    total
}
