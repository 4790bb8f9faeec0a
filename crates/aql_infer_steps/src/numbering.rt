//! Instances of schemes, and their variables numbered by first appearance.

ghost use Rattle.std.specs.Prelude.{◌≡◌, IfOk};
ghost use Rattle.aql_ty.specs.Types.{apply, apply_all, apply_sort};
ghost use Rattle.aql_ty.specs.View.{type_of, types_of, sort_of};
ghost use Rattle.aql_types.specs.Answers.{subst_of};
ghost use Rattle.aql_infer_steps.specs.Numbering.{renumbering};
ghost use Rattle.aql_infer_steps.specs.View.{draft_sort, sketch_type, sketch_types, instance_type};

use crate::positions::Positions;
use crate::sketch::{Draft, Instance, Sketch};
use aql_ty::ty::{Scheme, Ty, row};
use aql_ty::variables::find_index;
use aql_types::subst::Subst;
use aql_value::Memory;
use aql_value::made::{both, make_box};
use std::alloc::Global;

/// What a declaration has, written out under a solution.
pub fn instance_of(
    alloc: Global,
    solution: &Subst,
    positions: &Positions,
    d: &Draft,
) -> Result<Scheme, Memory>
    ensures { IfOk result (λ made. sort_of made
        ≡ apply_sort (subst_of solution.now) (draft_sort positions.now d.now)) }
{
    match d {
        Draft::Value(t) => {
            let t = write_type(alloc, solution, positions, t)?;
            Ok(Scheme::Value(t))
        }
        Draft::Macro {
            argument: from,
            result: to,
        } => {
            let parts = both(
                write_type(alloc, solution, positions, from),
                write_type(alloc, solution, positions, to),
            );
            let (argument, result) = parts?;
            Ok(Scheme::Macro { argument, result })
        }
    }
}

// A type written out under a solution.
#[cycle(write_type)]
#[tactic(auto, using(crate::proofs::Sketching::sketch_row_is))]
fn write_type(
    alloc: Global,
    solution: &Subst,
    positions: &Positions,
    t: &Sketch,
) -> Result<Ty, Memory>
    ensures { IfOk result (λ made. type_of made
        ≡ apply (subst_of solution.now) (sketch_type positions.now t.now)) }
{
    match t {
        Sketch::Plain(t) => solution.apply(alloc, t),
        Sketch::Tuple(ts) => {
            let items = write_types(alloc, solution, positions, &ts.items)?;
            Ok(row(items))
        }
        Sketch::SetOf(t) => Ok(Ty::SetOf(make_box(
            alloc,
            write_type(alloc, solution, positions, t),
        )?)),
        Sketch::ArrayOf { rank, cell } => Ok(Ty::ArrayOf {
            rank: *rank,
            cell: make_box(alloc, write_type(alloc, solution, positions, cell))?,
        }),
        Sketch::Instance(i) => write_instance(alloc, solution, positions, *i),
    }
}

#[cycle(write_type)]
#[tactic(auto, using(crate::proofs::Sketching::sketch_steps))]
fn write_types(
    alloc: Global,
    solution: &Subst,
    positions: &Positions,
    ts: &[Sketch],
) -> Result<Vec<Ty>, Memory>
    ensures { IfOk result (λ made. types_of made.items
        ≡ apply_all (subst_of solution.now) (sketch_types positions.now ts.now)) }
{
    let mut made = Vec::new(alloc);
    for t in ts {
        let one = write_type(alloc, solution, positions, t)?;
        made.push(one)?;
    }
    Ok(made)
}

// An instance of a part of what a position has, written out under a solution.
fn write_instance(
    alloc: Global,
    solution: &Subst,
    positions: &Positions,
    i: Instance,
) -> Result<Ty, Memory>
    ensures { IfOk result (λ made. type_of made
        ≡ apply (subst_of solution.now) (instance_type positions.now i)) }
{
    match positions.part(i) {
        Some(t) => solution.apply_raised(alloc, t, i.first),
        None => Ok(Ty::Nat),
    }
}

/// The scheme with each variable by its index among these.
pub fn renumber_scheme(alloc: Global, s: &Scheme, names: &[u64]) -> Result<Scheme, Memory>
    ensures { IfOk result
        (λ made. sort_of made ≡ apply_sort (renumbering names.now) (sort_of s.now)) }
{
    match s {
        Scheme::Value(t) => {
            let t = renumber(alloc, t, names)?;
            Ok(Scheme::Value(t))
        }
        Scheme::Macro {
            argument: from,
            result: to,
        } => {
            let parts = both(renumber(alloc, from, names), renumber(alloc, to, names));
            let (argument, result) = parts?;
            Ok(Scheme::Macro { argument, result })
        }
    }
}

// The type with each variable by its index.
#[cycle(renumber)]
#[tactic(auto, using(aql_ty::specs::Laws::View::type_of_row))]
fn renumber(alloc: Global, t: &Ty, names: &[u64]) -> Result<Ty, Memory>
    ensures { IfOk result (λ made. type_of made ≡ apply (renumbering names.now) (type_of t.now)) }
{
    match t {
        Ty::Nat => Ok(Ty::Nat),
        Ty::Bool => Ok(Ty::Bool),
        Ty::Text => Ok(Ty::Text),
        Ty::Var(x) => Ok(Ty::Var(find_index(*x, names) as u64)),
        Ty::Tuple(ts) => {
            let items = renumber_all(alloc, &ts.items, names)?;
            Ok(row(items))
        }
        Ty::SetOf(t) => Ok(Ty::SetOf(make_box(alloc, renumber(alloc, t, names))?)),
        Ty::ArrayOf { rank, cell } => Ok(Ty::ArrayOf {
            rank: *rank,
            cell: make_box(alloc, renumber(alloc, cell, names))?,
        }),
    }
}

#[cycle(renumber)]
#[tactic(auto, using(aql_ty::specs::Laws::View::list_steps))]
fn renumber_all(alloc: Global, ts: &[Ty], names: &[u64]) -> Result<Vec<Ty>, Memory>
    ensures { IfOk result (λ made. types_of made.items ≡ apply_all (renumbering names.now)
        (types_of ts.now)) }
{
    let mut made = Vec::new(alloc);
    for t in ts {
        let one = renumber(alloc, t, names)?;
        made.push(one)?;
    }
    Ok(made)
}
