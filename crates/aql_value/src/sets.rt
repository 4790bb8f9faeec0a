ghost use Rattle.std.specs.Prelude.{◌≡◌, ◌++◌, IfOk};
ghost use Rattle.std.specs.List.Sorted.{IsSorted};
ghost use Rattle.aql_value.specs.Order.{datum_cmp};
ghost use Rattle.aql_value.specs.Canon.{IsAscending, canon};

use crate::memory::Memory;
use crate::order::compare;
use crate::value::{Ascending, Items, Value};
use std::alloc::Global;
use std::cmp::Ordering;
use std::mem::drop;

/// The set of the items: their strictly ascending list, each once.
#[tactic(auto, using(crate::specs::Laws::Sorted::permutation_canon))]
pub fn canon(alloc: Global, items: Items) -> Result<Ascending, Memory>
    ensures { IfOk result (λ set. set ≡ canon items) }
{
    let mut values = items.items;
    values.sort()?;
    Ok(Ascending::from_sorted(Items { items: values }))
}

/// The members of both, each moved and not copied, in time linear in their number.
pub fn merge(alloc: Global, a: Ascending, b: Ascending) -> Result<Ascending, Memory>
    ensures { IfOk result (λ set. set ≡ canon (a ++ b)) }
{
    let members = merge_items(alloc, a.members, b.members)?;
    Ok(Ascending { members })
}

impl Ascending {
    /// The set of items that stand in order, an item perhaps several times. It takes no memory.
    #[tactic(auto, using(crate::specs::Laws::Sorted::dedup_ascends, crate::specs::Laws::Sorted::dedup_canon))]
    pub fn from_sorted(items: Items) -> Ascending
        requires { IsSorted datum_cmp items }
        ensures { result ≡ canon items }
    {
        let mut values = items.items;
        values.dedup();
        Ascending {
            members: Items { items: values },
        }
    }
}

// Takes the smaller of the two first members again and again, and one of two equal ones.
fn merge_items(alloc: Global, a: Items, b: Items) -> Result<Items, Memory>
    requires left { IsAscending a }
    requires right { IsAscending b }
    ensures { IfOk result (λ members. members ≡ canon (a ++ b)) }
{
    let mut merged = Vec::with_capacity(alloc, a.items.len().saturating_add(b.items.len()))?;
    let mut left = a.items.into_iter();
    let mut right = b.items.into_iter();
    let mut x = left.next();
    let mut y = right.next();
    loop {
        match (x, y) {
            (Some(v), Some(w)) => match compare(&v, &w) {
                Ordering::Less => {
                    merged.push(v)?;
                    x = left.next();
                    y = Some(w);
                }
                Ordering::Equal => {
                    drop(w);
                    merged.push(v)?;
                    x = left.next();
                    y = right.next();
                }
                Ordering::Greater => {
                    merged.push(w)?;
                    x = Some(v);
                    y = right.next();
                }
            },
            (Some(v), None) => {
                merged.push(v)?;
                x = left.next();
                y = None;
            }
            (None, Some(w)) => {
                merged.push(w)?;
                x = None;
                y = right.next();
            }
            (None, None) => return Ok(Items { items: merged }),
        }
    }
}
