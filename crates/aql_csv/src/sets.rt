// The set of values that stand in no order.
ghost use Rattle.std.specs.Prelude.{◌≡◌, IfOk, IfErr};
ghost use Rattle.aql_value.specs.Canon.{canon};
ghost use Rattle.aql_csv.specs.declared.fault.CsvFault.TheVariants as faults;

use crate::fault::CsvFault;
use aql_value::{Ascending, Items, Str, Value, canon};
use std::alloc::Global;

/// The set of the items. They are put in the order of their leading numbers first, which are
/// compared side by side and not through the values: most pairs of records differ there, and of
/// items that stand in order the sort behind it makes one pass.
#[tactic(auto, using(aql_value::specs::Laws::Sorted::permutation_canon))]
pub(crate) fn set_of_values(alloc: Global, items: Items) -> Result<Ascending, CsvFault>
    ensures same { IfOk result (λ set. set ≡ canon items) }
    ensures cause { IfErr result (λ e. e ≡ faults.Memory) }
{
    let mut values = items.items;
    values.sort_by_cached_key(|value| leading_number(value))?;
    let set = canon(alloc, Items { items: values })?;
    Ok(set)
}

// A number that is smaller or the same where the value is smaller, for numbers, strings and tuples
// that begin with one: the number, or the largest of 64 bits, or the first eight bytes.
fn leading_number(value: &Value) -> u64 {
    match value {
        Value::Row(parts) => match parts.items().items.first() {
            Some(first) => leading_of_part(first),
            None => 0,
        },
        _ => leading_of_part(value),
    }
}

fn leading_of_part(value: &Value) -> u64 {
    match value {
        Value::Nat(n) => u64::try_from(*n).unwrap_or(u64::MAX),
        Value::Text(text) => first_bytes(text),
        _ => 0,
    }
}

// The first eight bytes, the first of them counting most; where there are fewer, zeros behind them.
fn first_bytes(text: &Str) -> u64 {
    let mut found: u64 = 0;
    for i in 0..8 {
        let byte = match text.bytes.get(i) {
            Some(byte) => *byte,
            None => 0,
        };
        found = (found << 8) | u64::from(byte);
    }
    found
}
