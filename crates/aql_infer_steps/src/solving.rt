//! What a declaration asks, solved.

ghost use Rattle.aql_types.specs.Answers.{SolvedIn};
ghost use Rattle.aql_infer_steps.specs.Constraints.{State};
ghost use Rattle.aql_infer_steps.specs.View.{state_of};

use crate::nodes::make_graph;
use crate::positions::Positions;
use crate::store::Store;
use aql_types::fault::UnifyFault;
use aql_types::solve::solve_graph;
use aql_types::subst::Subst;
use std::alloc::Global;

/// A most general solution of the equations under which the types that are used and both sides of each equation are within the
/// limits. Clash exactly where there is none.
pub fn solve_store(alloc: Global, s: Store, positions: &Positions) -> Result<Subst, UnifyFault>
    ensures { SolvedIn result (state_of positions.now s).eqs (state_of positions.now s).uses }
{
    let (equations, g) = make_graph(alloc, s, positions)?;
    solve_graph(alloc, equations, g)
}
