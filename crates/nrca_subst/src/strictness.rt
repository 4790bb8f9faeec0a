//! Strict parts, and the uses of a variable under strict parts alone.

ghost use Rattle.std.specs.Prelude.{◌≡◌, ◌<◌, ◌^◌, ◌-◌, min, None};
ghost use Rattle.nrca_term.specs.View.{term_of};
ghost use Rattle.nrca_term.specs.Subst.{is_strict, strict_uses};
ghost use Rattle.nrca_term.specs.Term.{form_of, parts_of, count, variable_of};
ghost use Rattle.nrca_subst.specs.Strictly.{CountsStrict, CountsPart};

use nrca_term::Core;

/// How often variable `at` is used under strict parts alone, or the greatest number of 64 bits where it is used so more often.
pub fn uses_strictly(term: &Core, at: u64) -> u64
    ensures { result ≡ min (strict_uses at (term_of term.now)) (2 ^ 64 - 1) }
{
    strict_under(term, at as u128)
}

// The same of a variable whose number may be past those of 64 bits.
#[cycle(uses_strictly)]
fn strict_under(term: &Core, at: u128) -> u64
    ensures { CountsStrict at (term_of term.now) result }
{
    match term.variable() {
        Some(i) => { if i as u128 == at { 1 } else { 0 } }
        None => strict_in_parts(term, at),
    }
}

// In all parts of a node that is no variable.
#[cycle(uses_strictly)]
fn strict_in_parts(term: &Core, at: u128) -> u64
    requires { variable_of (form_of (term_of term.now)) ≡ None }
    ensures { CountsStrict at (term_of term.now) result }
{
    let mut total = 0u64;
    for i in 0..term.parts() {
        total = total.saturating_add(strict_in_part(term, i, at));
    }
    total
}

// In part i of a node.
#[cycle(uses_strictly)]
fn strict_in_part(term: &Core, i: u64, at: u128) -> u64
    requires { i < count (parts_of (term_of term.now)) }
    ensures { CountsPart at (term_of term.now) i result }
{
    if !strict(term, i) {
        return 0;
    }
    let deeper = at.saturating_add(term.binders(i) as u128);
    match term.part(i) {
        Some(part) => {
            let more = strict_under(part, deeper);
            more
        }
        None => unreachable!(),
    }
}

/// Whether the form always evaluates its part i, and is undefined where that part is.
#[tactic(auto, using(nrca_term::specs::Laws::Equations::list_forms))]
pub fn strict(term: &Core, i: u64) -> bool
    ensures { result ≡ is_strict (form_of (term_of term.now)) i }
{
    match term {
        Core::Var(_) => false,
        Core::Global(_) => false,
        Core::Let(_, _) => i < 2,
        Core::If(_, _, _) => i < 1,
        Core::Default(_, _) => false,
        Core::BigUnion { over: _, body: _ } => i < 1,
        Core::Sum { over: _, body: _ } => i < 1,
        Core::Tab { bounds, body: _ } => i < bounds.0.len() as u64,
        _ => true,
    }
}
