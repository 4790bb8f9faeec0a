//! Shifting: room for further variables.

ghost use Rattle.std.specs.Prelude.{◌≡◌, ◌+◌, ◌<◌, ◌^◌, None};
ghost use Rattle.nrca_term.specs.Nodes.{variable};
ghost use Rattle.nrca_term.specs.Term.{form_of, variable_of};
ghost use Rattle.nrca_term.specs.Subst.{shift_term, top_var};
ghost use Rattle.nrca_term.specs.View.{term_of};
ghost use Rattle.nrca_subst.specs.Kept.{IsShifted, KeepsTypesShifted};

use nrca_term::{Core, discard};

/// Adds `by` to each variable that is free at `from` and above. No variable number may pass 64 bits.
pub fn shift(term: Core, from: u64, by: u64) -> Core
    requires { top_var (shift_term from by (term_of term)) < 2 ^ 64 }
    ensures shifted { term_of result ≡ shift_term from by (term_of term) }
    ensures meaning { IsShifted from by (term_of term) (term_of result) }
    ensures types { KeepsTypesShifted from by (term_of term) (term_of result) }
{
    let mut whole = term;
    shift_in(&mut whole, from, by);
    whole
}

// In place, so that a level of the recursion keeps little on the stack.
#[cycle(shift)]
fn shift_in(term: &mut Core, from: u64, by: u64)
    requires { top_var (shift_term from by (term_of term.old)) < 2 ^ 64 }
    ensures { term_of term.new ≡ shift_term from by (term_of term.old) }
{
    match term.variable() {
        Some(i) => shift_variable(term, i, from, by),
        None => shift_parts_in(term, from, by),
    }
}

#[inline(never)]
fn shift_variable(term: &mut Core, i: u64, from: u64, by: u64)
    requires fits { top_var (shift_term from by (variable i)) < 2 ^ 64 }
    ensures { term_of term.new ≡ shift_term from by (variable i) }
{
    *term = if i < from {
        Core::Var(i)
    } else {
        Core::Var(i + by)
    };
}

#[cycle(shift)]
fn shift_parts_in(term: &mut Core, from: u64, by: u64)
    requires other { variable_of (form_of (term_of term.old)) ≡ None }
    requires fits { top_var (shift_term from by (term_of term.old)) < 2 ^ 64 }
    ensures { term_of term.new ≡ shift_term from by (term_of term.old) }
{
    let mut part = Core::Bottom;
    for i in 0..term.parts() {
        let binders = term.binders(i);
        term.exchange(i, &mut part);
        shift_under(&mut part, from, binders, by);
        term.exchange(i, &mut part);
    }
    discard(part);
}

// Past the greatest number no variable is free.
#[cycle(shift)]
#[tactic(auto, using(nrca_term::specs::Laws::Shift::shifting))]
fn shift_under(part: &mut Core, from: u64, binders: u64, by: u64)
    requires { top_var (shift_term (from + binders) by (term_of part.old)) < 2 ^ 64 }
    ensures { term_of part.new ≡ shift_term (from + binders) by (term_of part.old) }
{
    if let Some(deeper) = from.checked_add(binders) {
        shift_in(part, deeper, by);
    }
}
