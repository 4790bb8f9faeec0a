//! Types made one, and equations between types solved.

ghost use Rattle.std.specs.Prelude.{◌≡◌, [], ◌∷◌, IfOk, length};
ghost use Rattle.aql_value.specs.Lists.{onto};
ghost use Rattle.aql_ty.specs.Types.{Tys};
ghost use Rattle.aql_ty.specs.View.{type_of, types_of};
ghost use Rattle.aql_types.specs.Unifiers.{Equations};
ghost use Rattle.aql_types.specs.EquationView.{equations_of};
ghost use Rattle.aql_types.specs.Valuations.{AreIn};
ghost use Rattle.aql_types.specs.Pushed.{Makes};
ghost use Rattle.aql_types.specs.Answers.{SolvedIn, Unified};

use crate::equation::Equation;
use crate::fault::UnifyFault;
use crate::graph::Graph;
use crate::push::make_graph;
use crate::subst::Subst;
use crate::{node, solved_graph};
use aql_ty::ty::Ty;
use aql_value::Memory;
use aql_value::made::{both, make_list};
use std::alloc::Global;

/// A most general unifier that makes one type within the limits of both, or Clash exactly where there is none.
pub fn unify(alloc: Global, a: &Ty, b: &Ty) -> Result<Subst, UnifyFault>
    ensures { Unified result (type_of a.now) (type_of b.now) }
{
    let work = one_equation(alloc, a, b)?;
    solve(alloc, work, Vec::new(alloc))
}

/// A most general solution of the equations under which the types of `uses` and both sides of each equation are within the
/// limits. Clash exactly where there is none.
pub fn solve(alloc: Global, work: Vec<Equation>, uses: Vec<Ty>) -> Result<Subst, UnifyFault>
    ensures { SolvedIn result (equations_of work.items) (types_of uses.items) }
{
    let (equations, g) = make_graph(alloc, work, uses)?;
    solve_graph(alloc, equations, g)
}

/// The same where the equations and the types that are used stand in a graph, the first equation last.
pub fn solve_graph(
    alloc: Global,
    equations: Vec<node::Equation>,
    g: Graph,
) -> Result<Subst, UnifyFault>
    requires { AreIn (length g.nodes.items) equations.items }
    ensures { (w : Equations) → (us : Tys) → Makes equations.items g w us
        → SolvedIn result (onto w []) us }
{
    let variables = g.variables;
    match solved_graph::solve(alloc, g, equations) {
        Ok(graph) => Ok(Subst { graph, variables }),
        Err(fault) => Err(fault),
    }
}

fn one_equation(alloc: Global, a: &Ty, b: &Ty) -> Result<Vec<Equation>, Memory>
    ensures { IfOk result (λ w. equations_of w.items ≡ (type_of a.now, type_of b.now) ∷ []) }
{
    let (left, right) = both(a.copy(alloc), b.copy(alloc))?;
    make_list(alloc, Ok(Equation { left, right }))
}
