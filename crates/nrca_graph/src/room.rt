//! How high the variables of a term are.

ghost use Rattle.std.specs.Prelude.{◌≡◌, None};
ghost use Rattle.nrca_term.specs.Subst.{top_var};
ghost use Rattle.nrca_term.specs.Term.{form_of, variable_of};
ghost use Rattle.nrca_term.specs.View.{term_of};

use nrca_term::Core;

/// The greatest number of a variable that stands in the term, 0 where none does.
#[cycle(greatest_variable)]
pub fn greatest_variable(term: &Core) -> u64
    ensures { result ≡ top_var (term_of term.now) }
{
    match term.variable() {
        Some(i) => i,
        None => greatest_in_parts(term),
    }
}

#[cycle(greatest_variable)]
fn greatest_in_parts(term: &Core) -> u64
    requires { variable_of (form_of (term_of term.now)) ≡ None }
    ensures { result ≡ top_var (term_of term.now) }
{
    let mut greatest = 0u64;
    for i in 0..term.parts() {
        if let Some(part) = term.part(i) {
            greatest = greatest.max(greatest_variable(part));
        }
    }
    greatest
}
