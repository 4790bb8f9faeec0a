//! Subscripts and dimensions of a let.

ghost use Rattle.std.specs.Prelude.{true, ◌≡◌, ◌<◌, ◌^◌, map};
ghost use Rattle.nrca_term.specs.View.{term_of, terms_of};
ghost use Rattle.nrca_term.specs.Nodes.{tuple_term};
ghost use Rattle.nrca_term.specs.Subst.{shift_term, top_var};
ghost use Rattle.nrca_term.specs.declared.trace.Rule.TheVariants.{A7};
ghost use Rattle.nrca_rule_laws.specs.Fitting.{RuleFits, IsSmallPart, IsRight};

use nrca_subst::shift;
use nrca_term::{Core, Terms, open, put};

/// Whether the term is a subscript or the dimensions of a let.
pub fn fits_a7(term: &Core) -> bool
    ensures { RuleFits A7 result (term_of term.now) }
{
    match term {
        Core::Sub { array, at: _ } => match **array {
            Core::Let(_, _) => true,
            _ => false,
        },
        Core::Dim { rank: _, array } => match **array {
            Core::Let(_, _) => true,
            _ => false,
        },
        _ => false,
    }
}

/// The let around the subscript, whose indices are shifted, or around the dimensions.
pub fn a7(term: Core) -> Core
    requires fits { RuleFits A7 true (term_of term) }
    requires inside { IsSmallPart (term_of term) }
    ensures { IsRight A7 (term_of term) (term_of result) }
{
    match term {
        Core::Sub { array, at } => {
            let (room, inner) = open(array);
            match inner {
                Core::Let(bound, body) => {
                    let deeper = shift_all(at);
                    let each = put(
                        room,
                        Core::Sub {
                            array: body,
                            at: deeper,
                        },
                    );
                    Core::Let(bound, each)
                }
                _ => unreachable!(),
            }
        }
        Core::Dim { rank, array } => {
            let (room, inner) = open(array);
            match inner {
                Core::Let(bound, body) => {
                    let each = put(room, Core::Dim { rank, array: body });
                    Core::Let(bound, each)
                }
                _ => unreachable!(),
            }
        }
        _ => unreachable!(),
    }
}

// The terms with room for one more variable around each. They are shifted as the parts of a tuple.
fn shift_all(terms: Terms) -> Terms
    requires { top_var (shift_term 0 1 (tuple_term (terms_of terms))) < 2 ^ 64 }
    ensures { terms_of result ≡ map (shift_term 0 1) (terms_of terms) }
{
    let shifted = shift(Core::Tuple(terms), 0, 1);
    match shifted {
        Core::Tuple(deeper) => deeper,
        _ => unreachable!(),
    }
}
