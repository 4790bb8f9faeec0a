//! The type of an index.

ghost use Rattle.std.specs.Prelude.{◌≡◌, IfOk};
ghost use Rattle.aql_ty.specs.Types.{index_type, natural_types};
ghost use Rattle.aql_ty.specs.View.{type_of, types_of};

use crate::ty::{Ty, row};
use aql_value::Memory;
use std::alloc::Global;

/// The type of an index of that rank: a number, or a tuple of numbers.
#[tactic(auto, using(crate::proofs::Indices::index_type_many))]
pub fn index_type(alloc: Global, rank: u64) -> Result<Ty, Memory>
    ensures { IfOk result (λ made. type_of made ≡ index_type rank) }
{
    if rank == 1 {
        return Ok(Ty::Nat);
    }
    let items = naturals(alloc, rank)?;
    Ok(row(items))
}

#[tactic(auto, using(crate::proofs::Indices::naturals))]
fn naturals(alloc: Global, count: u64) -> Result<Vec<Ty>, Memory>
    ensures { IfOk result (λ made. types_of made.items ≡ natural_types count) }
{
    let mut items = Vec::new(alloc);
    for _i in 0..count {
        items.push(Ty::Nat)?;
    }
    Ok(items)
}
