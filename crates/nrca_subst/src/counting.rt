//! The uses of a variable.

ghost use Rattle.std.specs.Prelude.{◌≡◌, ◌-◌, ◌^◌, min, None};
ghost use Rattle.nrca_term.specs.Subst.{uses_of};
ghost use Rattle.nrca_term.specs.Term.{form_of, variable_of};
ghost use Rattle.nrca_term.specs.View.{term_of};
ghost use Rattle.nrca_subst.specs.Depth.{CountsUses};

use nrca_term::Core;

/// How often variable `at` is used, or the greatest number of 64 bits where it is used more often.
pub fn uses(term: &Core, at: u64) -> u64
    ensures { result ≡ min (uses_of at (term_of term.now)) (2 ^ 64 - 1) }
{
    uses_under(term, at as u128)
}

// Of a variable whose number may be past those that stand in terms.
#[cycle(uses)]
fn uses_under(term: &Core, at: u128) -> u64
    ensures { CountsUses at (term_of term.now) result }
{
    match term.variable() {
        Some(i) => { if i as u128 == at { 1 } else { 0 } }
        None => uses_in_parts(term, at),
    }
}

#[cycle(uses)]
fn uses_in_parts(term: &Core, at: u128) -> u64
    requires { variable_of (form_of (term_of term.now)) ≡ None }
    ensures { CountsUses at (term_of term.now) result }
{
    let mut total = 0u64;
    for i in 0..term.parts() {
        let deeper = at.saturating_add(term.binders(i) as u128);
        if let Some(part) = term.part(i) {
            total = total.saturating_add(uses_under(part, deeper));
        }
    }
    total
}
