//! Whether equations are between nodes.

ghost use Rattle.std.specs.Prelude.{◌↔◌, IsTrue};
ghost use Rattle.aql_types.specs.Valuations.{AreIn};

use crate::node::Equation;

/// Whether both sides of each equation are numbers of the first n nodes.
pub fn are_nodes(work: &[Equation], n: usize) -> bool
    ensures { IsTrue result ↔ AreIn n work.now }
{
    for e in work {
        if (e.left as usize) >= n || (e.right as usize) >= n {
            return false;
        }
    }
    true
}
