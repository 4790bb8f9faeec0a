//! Boxes, lists and pairs of what was made, where memory may have been wanting for it.
//!
//! Each call takes its parts as they were made, and answers `Memory` where it was wanting for a part. So a tree is one
//! expression of its parts, and no early end of a function stands between two of them. `naturals` makes values of numbers.

ghost use Rattle.std.specs.Prelude.{◌≡◌, ◌⊎◌, [], ◌∷◌, IfOk, IsOkAnd, IsErr, MatchResult, map};
ghost use Rattle.aql_value.specs.Datum.{natural};

use crate::{Items, Memory, Value};
use std::alloc::Global;

/// Both parts. `Memory` exactly where it is the answer of a part.
pub fn both<A: Drop, B: Drop>(a: Result<A, Memory>, b: Result<B, Memory>) -> Result<(A, B), Memory>
    ensures { MatchResult result (λ x. IsOkAnd a (λ v. v ≡ x.0) × IsOkAnd b (λ w. w ≡ x.1))
        (λ _. IsErr a ⊎ IsErr b) }
{
    let a = a?;
    let b = b?;
    Ok((a, b))
}

/// The part in a box of its own.
pub fn make_box<T: Drop>(alloc: Global, x: Result<T, Memory>) -> Result<Box<T>, Memory>
    ensures { IfOk result (λ b. IsOkAnd x (λ a. a ≡ b.value)) }
{
    let x = x?;
    Ok(Box::new(alloc, x)?)
}

/// Two parts, each in a box of its own.
pub fn make_boxes<A: Drop, B: Drop>(
    alloc: Global,
    a: Result<A, Memory>,
    b: Result<B, Memory>,
) -> Result<(Box<A>, Box<B>), Memory>
    ensures { IfOk result (λ x. IsOkAnd a (λ v. v ≡ x.0.value) × IsOkAnd b (λ w. w ≡ x.1.value)) }
{
    both(make_box(alloc, a), make_box(alloc, b))
}

/// A list of one part.
pub fn make_list<T: Drop>(alloc: Global, x: Result<T, Memory>) -> Result<Vec<T>, Memory>
    ensures { IfOk result (λ v. IsOkAnd x (λ a. v.items ≡ a ∷ [])) }
{
    let x = x?;
    let mut items = Vec::new(alloc);
    items.push(x)?;
    Ok(items)
}

/// A list of two parts.
pub fn make_pair_list<T: Drop>(
    alloc: Global,
    x: Result<T, Memory>,
    y: Result<T, Memory>,
) -> Result<Vec<T>, Memory>
    ensures { IfOk result (λ v. IsOkAnd x (λ a. IsOkAnd y (λ b. v.items ≡ a ∷ b ∷ []))) }
{
    let (x, y) = both(x, y)?;
    let mut items = Vec::new(alloc);
    items.push(x)?;
    items.push(y)?;
    Ok(items)
}

/// Numbers as values, in order.
pub fn naturals(alloc: Global, numbers: &[u128]) -> Result<Items, Memory>
    ensures { IfOk result (λ items. items ≡ map natural numbers.now) }
{
    let mut items = Vec::new(alloc);
    for n in numbers {
        items.push(Value::Nat(*n))?;
    }
    Ok(Items { items })
}
