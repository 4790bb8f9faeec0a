//! Substitutions.

ghost use Rattle.std.specs.Prelude.{◌≡◌, IfOk};
ghost use Rattle.aql_ty.specs.Types as types;
ghost use Rattle.aql_ty.specs.View.{type_of, types_of};
ghost use Rattle.aql_types.specs.Pushed.{shift};
ghost use Rattle.aql_types.specs.Answers.{subst_of};

use crate::read::node_type;
use crate::solved_graph::SolvedGraph;
use aql_ty::ty::{Ty, row};
use aql_value::Memory;
use std::alloc::Global;

/// What each variable stands for, in a graph: the first nodes are the variables, each by its own number.
#[derive(Drop)]
pub struct Subst {
    pub graph: SolvedGraph,
    pub variables: u32,
}

impl Subst {
    /// The instance of a type.
    #[tactic(auto, using(crate::specs::Laws::Pushing::shift_none))]
    pub fn apply(&self, alloc: Global, t: &Ty) -> Result<Ty, Memory>
        ensures { IfOk result
            (λ made. type_of made ≡ types.apply (subst_of self.now) (type_of t.now)) }
    {
        self.apply_raised(alloc, t, 0)
    }

    /// The instance of a type whose variables are raised by a number.
    #[cycle(apply)]
    #[tactic(auto, using(aql_ty::specs::Laws::View::type_of_row))]
    pub fn apply_raised(&self, alloc: Global, t: &Ty, by: u64) -> Result<Ty, Memory>
        ensures { IfOk result (λ made. type_of made
            ≡ types.apply (subst_of self.now) (types.apply (shift by) (type_of t.now))) }
    {
        match t {
            Ty::Nat => Ok(Ty::Nat),
            Ty::Bool => Ok(Ty::Bool),
            Ty::Text => Ok(Ty::Text),
            Ty::Var(x) => match by.checked_add(*x) {
                None => Err(Memory),
                Some(y) => value_of(alloc, self, y),
            },
            Ty::Tuple(ts) => {
                let items = apply_all(alloc, self, &ts.items, by)?;
                Ok(row(items))
            }
            Ty::SetOf(t) => {
                let t = self.apply_raised(alloc, t, by)?;
                Ok(Ty::SetOf(Box::new(alloc, t)?))
            }
            Ty::ArrayOf { rank, cell } => {
                let cell = self.apply_raised(alloc, cell, by)?;
                Ok(Ty::ArrayOf {
                    rank: *rank,
                    cell: Box::new(alloc, cell)?,
                })
            }
        }
    }
}

#[cycle(apply)]
#[tactic(auto, using(aql_ty::specs::Laws::View::list_steps))]
fn apply_all(alloc: Global, s: &Subst, ts: &[Ty], by: u64) -> Result<Vec<Ty>, Memory>
    ensures { IfOk result (λ made. types_of made.items
        ≡ types.apply_all (subst_of s.now) (types.apply_all (shift by) (types_of ts.now))) }
{
    let mut made = Vec::new(alloc);
    for t in ts {
        let new = s.apply_raised(alloc, t, by)?;
        made.push(new)?;
    }
    Ok(made)
}

// What stands for a variable.
fn value_of(alloc: Global, s: &Subst, x: u64) -> Result<Ty, Memory>
    ensures { IfOk result (λ made. type_of made ≡ subst_of s.now x) }
{
    if x < s.variables as u64 {
        return node_type(alloc, &s.graph, x as u32);
    }
    Ok(Ty::Var(x))
}
