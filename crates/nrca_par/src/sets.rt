ghost use Rattle.std.specs.Prelude.{◌≡◌, OnOk, IfOk};
ghost use Rattle.std.specs.List.Sorted.{IsSorted, IsPermutation};
ghost use Rattle.aql_value.specs.Canon.{canon};

use aql_value::{Ascending, Items, Memory, Value};
use rayon::prelude::*;
use std::alloc::{AllocError, Global};
use std::thread::Threads;

/// The set of the items, as `aql_value::canon` makes it, sorted in as many threads as there are
/// processors.
pub fn canon_wide<R: Threads + Sync>(
    rt: &R,
    alloc: Global,
    items: Items,
) -> Result<Ascending, Memory>
    ensures { IfOk result (λ set. set ≡ canon items) }
{
    let mut values = items.items;
    sort_wide(rt, alloc, &mut values)?;
    Ok(Ascending::from_sorted(Items { items: values }))
}

// Sorts values, in the order of values.
fn sort_wide<R: Threads + Sync>(
    rt: &R,
    alloc: Global,
    list: &mut Vec<Value>,
) -> Result<(), AllocError>
    ensures permutation { IsPermutation list.old.items list.new.items }
    ensures sorted { OnOk result (IsSorted ⟦<Value as Ord>⟧.cmp list.new.items) }
{
    par_sort(rt, alloc, list.as_mut_slice())
}
