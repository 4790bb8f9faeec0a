//! Numbers and pairs of numbers as values.

ghost use Rattle.std.specs.Prelude.{◌≡◌, map, IfOk, IfSome};
ghost use Rattle.aql_value.specs.Datum.{natural};
ghost use Rattle.aql_value.specs.Meaning.{datum};
ghost use Rattle.nrca_sets.specs.Pairs.{as_numbers, pair_value, two_numbers};

use aql_value::{Items, Memory, Parts, Value};
use std::alloc::Global;

/// The two numbers, where the value is a pair of naturals.
pub(crate) fn numbers_of(value: &Value) -> Option<(u128, u128)>
    ensures { result ≡ as_numbers (datum value.now) }
{
    match value {
        Value::Row(parts) => numbers_of_parts(parts.items()),
        _ => None,
    }
}

fn numbers_of_parts(parts: &Items) -> Option<(u128, u128)>
    ensures { result ≡ two_numbers parts.now }
{
    if parts.items.len() != 2 {
        return None;
    }
    match (&parts.items[0], &parts.items[1]) {
        (Value::Nat(m), Value::Nat(n)) => Some((*m, *n)),
        _ => None,
    }
}

/// The pair as a value.
pub(crate) fn pair_value(alloc: Global, pair: (u64, u64)) -> Result<Value, Memory>
    ensures { IfOk result (λ v. datum v ≡ pair_value pair) }
{
    let items = Items {
        items: vec![in alloc; Value::Nat(pair.0 as u128), Value::Nat(pair.1 as u128)]?,
    };
    match Parts::new(items) {
        Some(parts) => Ok(Value::Row(parts)),
        None => unreachable!(),
    }
}

/// The numbers as values.
pub fn number_items(alloc: Global, numbers: &[u64]) -> Result<Items, Memory>
    ensures { IfOk result (λ items. items ≡ map natural numbers.now) }
{
    let mut items = Vec::with_capacity(alloc, numbers.len())?;
    for n in numbers {
        items.push(Value::Nat(*n as u128))?;
    }
    Ok(Items { items })
}

/// The pairs as values.
pub(crate) fn pair_items(alloc: Global, pairs: &[(u64, u64)]) -> Result<Items, Memory>
    ensures { IfOk result (λ items. items ≡ map pair_value pairs.now) }
{
    let mut items = Vec::with_capacity(alloc, pairs.len())?;
    for pair in pairs {
        items.push(pair_value(alloc, *pair)?)?;
    }
    Ok(Items { items })
}

/// The number, where the value is one below 2^64.
pub(crate) fn number_below(value: &Value) -> Option<u64>
    ensures { IfSome result (λ n. datum value.now ≡ natural n) }
{
    match value {
        Value::Nat(n) => u64::try_from(*n).ok(),
        _ => None,
    }
}

/// The pair, where the value is one of two numbers below 2^64.
#[tactic(auto, using(crate::specs::Laws::Pairs::as_numbers_is))]
pub(crate) fn pair_below(value: &Value) -> Option<(u64, u64)>
    ensures { IfSome result (λ p. datum value.now ≡ pair_value p) }
{
    let (m, n) = numbers_of(value)?;
    let m = u64::try_from(m).ok()?;
    let n = u64::try_from(n).ok()?;
    Some((m, n))
}
