//! Equality of terms, across binders too.

ghost use Rattle.std.specs.Prelude.{◌≡◌, ◌↔◌, IsTrue, None};
ghost use Rattle.nrca_term.specs.Nodes.{variable};
ghost use Rattle.nrca_term.specs.Subst.{shift_term};
ghost use Rattle.nrca_term.specs.Term.{form_of, variable_of};
ghost use Rattle.nrca_term.specs.View.{term_of};
ghost use Rattle.nrca_subst.specs.Depth.{TellsShifted};

use nrca_term::Core;

/// Whether two nameless terms are equal.
pub fn same(a: &Core, b: &Core) -> bool
    ensures { IsTrue result ↔ (term_of a.now ≡ term_of b.now) }
{
    same_shifted(a, 0, b)
}

/// Whether `b` is `a` with `by` added to each variable that is free in `a`.
pub fn same_shifted(a: &Core, by: u64, b: &Core) -> bool
    ensures { IsTrue result ↔ (term_of b.now ≡ shift_term 0 by (term_of a.now)) }
{
    same_under(a, 0, by, b)
}

// The same under `depth` binders.
#[cycle(same)]
fn same_under(a: &Core, depth: u128, by: u64, b: &Core) -> bool
    ensures { TellsShifted depth by (term_of a.now) (term_of b.now) result }
{
    match a.variable() {
        Some(i) => same_variable(i, depth, by, b),
        None => a.form().is(b.form()) && same_parts(a, depth, by, b),
    }
}

fn same_variable(i: u64, depth: u128, by: u64, b: &Core) -> bool
    ensures { TellsShifted depth by (variable i) (term_of b.now) result }
{
    match b.variable() {
        Some(j) => {
            let shifted = if (i as u128) < depth {
                i as u128
            } else {
                i as u128 + by as u128
            };
            shifted == j as u128
        }
        None => false,
    }
}

// The parts of two nodes of one form that is no variable.
#[cycle(same)]
fn same_parts(a: &Core, depth: u128, by: u64, b: &Core) -> bool
    requires other { variable_of (form_of (term_of a.now)) ≡ None }
    requires form { form_of (term_of a.now) ≡ form_of (term_of b.now) }
    ensures { TellsShifted depth by (term_of a.now) (term_of b.now) result }
{
    let count = a.parts();
    if count != b.parts() {
        return false;
    }
    for i in 0..count {
        let deeper = depth.saturating_add(a.binders(i) as u128);
        match (a.part(i), b.part(i)) {
            (Some(x), Some(y)) => {
                if !same_under(x, deeper, by, y) {
                    return false;
                }
            }
            _ => return false,
        }
    }
    true
}
