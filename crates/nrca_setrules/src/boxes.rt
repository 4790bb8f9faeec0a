//! Boxes that are used again, so that a right side takes no memory.

ghost use Rattle.std.specs.Prelude.{◌≡◌, ◌<◌, ◌^◌};
ghost use Rattle.nrca_term.specs.View.{term_of};
ghost use Rattle.nrca_term.specs.Subst.{shift_term, top_var};

use nrca_subst::shift;
use nrca_term::{Core, open, put};

// The body of a loop with room for one more variable around it.
pub(crate) fn shift_body(part: Box<Core>) -> Box<Core>
    requires { top_var (shift_term 1 1 (term_of part.value)) < 2 ^ 64 }
    ensures { term_of result.value ≡ shift_term 1 1 (term_of part.value) }
{
    let (room, inner) = open(part);
    let deeper = shift(inner, 1, 1);
    put(room, deeper)
}
