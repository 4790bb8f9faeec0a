//! The parts of a term by their paths.

ghost use Rattle.std.specs.Prelude.{◌≡◌};
ghost use Rattle.nrca_term.specs.Places.{place_of};
ghost use Rattle.nrca_term.specs.View.{term_of, lent_term};

use crate::{Core, Path};

/// The part at a path. None exactly where the path leaves the term.
pub fn place<'a>(term: &'a Core, path: &Path) -> Option<&'a Core>
    ensures { lent_term result ≡ place_of (term_of term.now) path.now }
{
    let mut at = term;
    for i in &path.0 {
        match at.part(u64::from(*i)) {
            Some(part) => at = part,
            None => return None,
        }
    }
    Some(at)
}
