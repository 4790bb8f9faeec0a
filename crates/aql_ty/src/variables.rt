//! The variables of types by first appearance, and their indices.

ghost use Rattle.std.specs.Prelude.{◌≡◌, IfOk};
ghost use Rattle.aql_ty.specs.Types as types;
ghost use Rattle.aql_ty.specs.View.{type_of, types_of, sort_of};
ghost use Rattle.aql_ty.specs.Variables as variables;
ghost use Rattle.aql_ty.specs.Variables.{is_one_of, variable_index, variables_all, sort_variables};

use crate::ty::{Scheme, Ty};
use aql_value::Memory;
use std::alloc::Global;

/// The variables of a scheme, by first appearance, a macro's argument before its result.
pub fn scheme_variables(alloc: Global, s: &Scheme) -> Result<Vec<u64>, Memory>
    ensures { IfOk result (λ vs. vs.items ≡ sort_variables (sort_of s.now)) }
{
    match s {
        Scheme::Value(t) => variables_of(t, Vec::new(alloc)),
        Scheme::Macro {
            argument: from,
            result: to,
        } => {
            let names = variables_of(from, Vec::new(alloc))?;
            variables_of(to, names)
        }
    }
}

/// The index of a variable among some; their number where it is none of them.
#[tactic(auto, using(crate::proofs::Places::variable_index_steps))]
pub fn find_index(x: u64, names: &[u64]) -> usize
    ensures { result ≡ variable_index x names.now }
{
    for (i, y) in names.iter().enumerate() {
        if *y == x {
            return i;
        }
    }
    names.len()
}

// The variables seen before, and behind them those of a type that are new.
#[cycle(variables_of)]
#[tactic(auto, using(crate::specs::Laws::View::type_of_row))]
fn variables_of(t: &Ty, seen: Vec<u64>) -> Result<Vec<u64>, Memory>
    ensures { IfOk result (λ vs. vs.items ≡ variables.variables (type_of t.now) seen.items) }
{
    match t {
        Ty::Nat => Ok(seen),
        Ty::Bool => Ok(seen),
        Ty::Text => Ok(seen),
        Ty::Var(x) => with_variable(*x, seen),
        Ty::Tuple(ts) => variables_of_all(&ts.items, seen),
        Ty::SetOf(t) => variables_of(t, seen),
        Ty::ArrayOf { rank: _, cell } => variables_of(cell, seen),
    }
}

#[cycle(variables_of)]
#[tactic(auto, using(crate::specs::Laws::View::list_steps))]
fn variables_of_all(ts: &[Ty], seen: Vec<u64>) -> Result<Vec<u64>, Memory>
    ensures { IfOk result (λ vs. vs.items ≡ variables_all (types_of ts.now) seen.items) }
{
    let mut seen = seen;
    for t in ts {
        seen = variables_of(t, seen)?;
    }
    Ok(seen)
}

fn with_variable(x: u64, seen: Vec<u64>) -> Result<Vec<u64>, Memory>
    ensures { IfOk result (λ vs. vs.items ≡ variables.variables (types.var x) seen.items) }
{
    if is_seen(x, &seen) {
        return Ok(seen);
    }
    let mut seen = seen;
    seen.push(x)?;
    Ok(seen)
}

#[tactic(auto, using(crate::proofs::Places::variable_index_steps))]
fn is_seen(x: u64, seen: &[u64]) -> bool
    ensures { result ≡ is_one_of x seen.now }
{
    for y in seen {
        if *y == x {
            return true;
        }
    }
    false
}
