//! Pairs of a truth value and a natural as values.

ghost use Rattle.std.specs.Prelude.{◌≡◌, IfOk};
ghost use Rattle.aql_value.specs.Meaning.{datum};
ghost use Rattle.nrca_array.specs.Packing.{as_pair, parts_pair, pair_datum};

use aql_value::{Items, Memory, Parts, Value};
use std::alloc::Global;

/// The truth value and the natural, where the value is a pair of those.
pub(crate) fn pair_of(value: &Value) -> Option<(bool, u128)>
    ensures { result ≡ as_pair (datum value.now) }
{
    match value {
        Value::Row(parts) => pair_of_parts(parts.items()),
        _ => None,
    }
}

fn pair_of_parts(parts: &Items) -> Option<(bool, u128)>
    ensures { result ≡ parts_pair parts.now }
{
    if parts.items.len() != 2 {
        return None;
    }
    match (&parts.items[0], &parts.items[1]) {
        (Value::Bool(b), Value::Nat(n)) => Some((*b, *n)),
        _ => None,
    }
}

/// The pair as a value.
pub(crate) fn pair_value(alloc: Global, b: bool, n: u128) -> Result<Value, Memory>
    ensures { IfOk result (λ v. datum v ≡ pair_datum (b, n)) }
{
    let items = Items {
        items: vec![in alloc; Value::Bool(b), Value::Nat(n)]?,
    };
    match Parts::new(items) {
        Some(parts) => Ok(Value::Row(parts)),
        None => unreachable!(),
    }
}
