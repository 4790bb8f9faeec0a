//! Sets of members, united as a balanced tree.

ghost use Rattle.std.specs.Prelude.{◌≡◌, ◌-◌, ◌≤◌, length, map, take, drop, OnOk, IfOk, IsOkAnd};
ghost use Rattle.nrca_term.specs.View.{term_of};
ghost use Rattle.aql_desugar_spec.specs.Start as start_term;

use crate::nodes::{single, union};
use aql_value::Memory;
use aql_value::made::both;
use nrca_term::Core;
use std::alloc::Global;

/// The sets of one member each of the terms, united; the empty set where there is none.
pub fn unite(alloc: Global, items: Result<Vec<Core>, Memory>) -> Result<Core, Memory>
    ensures { IfOk result (λ c. IsOkAnd items (λ v. term_of c ≡ start_term.balanced_union
        (length (map term_of v.items)) (map term_of v.items))) }
{
    let mut rest = items?;
    let count = rest.len();
    let made = unite_last(alloc, &mut rest, count);
    drop(rest);
    made
}

// Of the last terms, which are taken off.
fn unite_last(alloc: Global, items: &mut Vec<Core>, count: usize) -> Result<Core, Memory>
    requires { count ≤ length items.old.items }
    ensures made { IfOk result (λ c. term_of c ≡ start_term.balanced_union count
        (map term_of (drop (length items.old.items - count) items.old.items))) }
    ensures left { OnOk result (items.new.items ≡ take (length items.old.items - count)
        items.old.items) }
{
    if count == 0 {
        return Ok(Core::Empty);
    }
    if count == 1 {
        return match items.pop() {
            Some(last) => single(alloc, Ok(last)),
            None => Ok(Core::Empty),
        };
    }
    let half = count / 2;
    let right = unite_last(alloc, items, count - half)?;
    let left = unite_last(alloc, items, half);
    union(alloc, both(left, Ok(right)))
}
