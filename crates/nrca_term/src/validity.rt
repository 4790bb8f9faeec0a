//! What the types of a term's fields say of its constants.

ghost use Rattle.nrca_term.specs.Term.{form_of};
ghost use Rattle.nrca_term.specs.Valid.{FormConstant, HasConstants};
ghost use Rattle.nrca_term.specs.View.{term_of};

use crate::Core;
use aql_value::bytes_fit;

/// Shows that each number and each string in a term is a value of the language: in any term that
/// there is they are. It takes no memory.
#[cycle(constants)]
pub fn constants(term: &Core)
    ensures { HasConstants (term_of term.now) }
{
    constant(term);
    for i in 0..term.parts() {
        if let Some(part) = term.part(i) {
            constants(part);
        }
    }
}

fn constant(term: &Core)
    ensures { FormConstant (form_of (term_of term.now)) }
{
    match term {
        Core::Nat(n) => {
            let _n = *n;
        }
        Core::Text(s) => bytes_fit(s.bytes.as_slice()),
        _ => (),
    }
}
