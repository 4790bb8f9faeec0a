//! Walking the members of two sets together, in ascending order and each once.

ghost use Rattle.std.specs.Prelude.{◌≡◌, ◌≤◌, ◌++◌, length, drop, IfOk};
ghost use Rattle.aql_value.specs.Canon.{canon};
ghost use Rattle.nrca_loops.specs.Walks.{both_rest, first_order, StepsOn, AreBefore, IsFirst};

use aql_value::{Memory, Value};
use nrca_sets::Set;
use std::alloc::Global;
use std::cmp::Ordering;

/// How far a walk has come on both sides.
#[derive(Clone, Copy)]
pub struct Sides {
    pub left: usize,
    pub right: usize,
}

/// The side on which the least member that is left stands, and how far the walk has then come.
#[derive(Clone, Copy)]
pub(crate) struct Taken {
    pub(crate) from_left: bool,
    pub(crate) left: usize,
    pub(crate) right: usize,
}

/// A member of a walk, and how far it has then come.
#[derive(Drop)]
pub(crate) struct Member {
    pub(crate) member: Value,
    pub(crate) sides: Sides,
}

/// The next member of a walk: none at its end.
#[tactic(auto, using(crate::proofs::Merged::takes))]
pub(crate) fn step(left: &Set, right: &Set, i: usize, j: usize) -> Option<Taken>
    ensures { StepsOn left.now right.now i j result }
{
    let _lefts = left.count();
    let _rights = right.count();
    match order_of(left, right, i, j) {
        Some(Ordering::Less) => Some(Taken {
            from_left: true,
            left: i + 1,
            right: j,
        }),
        Some(Ordering::Equal) => Some(Taken {
            from_left: true,
            left: i + 1,
            right: j + 1,
        }),
        Some(Ordering::Greater) => Some(Taken {
            from_left: false,
            left: i,
            right: j + 1,
        }),
        None => None,
    }
}

// The order of the next members of both sides.
#[tactic(auto, using(crate::proofs::Merged::orders))]
fn order_of(left: &Set, right: &Set, i: usize, j: usize) -> Option<Ordering>
    ensures { result ≡ first_order (drop i left.now) (drop j right.now) }
{
    if i < left.count() {
        if j < right.count() {
            left.order(i, right, j)
        } else {
            Some(Ordering::Less)
        }
    } else if j < right.count() {
        Some(Ordering::Greater)
    } else {
        None
    }
}

/// How many members a walk comes to.
pub(crate) fn count(left: &Set, right: &Set) -> u128
    ensures { result ≡ length (canon (left.now ++ right.now)) }
{
    let _lefts = left.count();
    let _rights = right.count();
    let mut count: u128 = 0;
    let mut i = 0;
    let mut j = 0;
    while let Some(taken) = step(left, right, i, j) {
        i = taken.left;
        j = taken.right;
        count += 1;
    }
    count
}

/// How far a walk has come before the member of a number.
pub(crate) fn sides_before(left: &Set, right: &Set, number: u64) -> Sides
    ensures { AreBefore left.now right.now number result }
{
    let mut sides = Sides { left: 0, right: 0 };
    for _i in 0..number {
        match step(left, right, sides.left, sides.right) {
            Some(taken) => {
                sides = Sides {
                    left: taken.left,
                    right: taken.right,
                }
            }
            None => return sides,
        }
    }
    sides
}

/// The next member of a walk, and how far it has then come.
pub(crate) fn take(alloc: Global, left: &Set, right: &Set, sides: Sides) -> Result<Member, Memory>
    requires some { 1 ≤ length (both_rest left.now right.now sides.left sides.right) }
    ensures { IfOk result (λ m. IsFirst left.now right.now sides m) }
{
    match step(left, right, sides.left, sides.right) {
        Some(taken) => {
            let after = Sides {
                left: taken.left,
                right: taken.right,
            };
            if taken.from_left {
                let member = left.member(alloc, sides.left)?;
                Ok(Member {
                    member,
                    sides: after,
                })
            } else {
                let member = right.member(alloc, sides.right)?;
                Ok(Member {
                    member,
                    sides: after,
                })
            }
        }
        None => unreachable!(),
    }
}
