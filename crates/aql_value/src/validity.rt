ghost use Rattle.std.specs.Prelude.{◌<◌, ◌^◌};
ghost use Rattle.std.specs.List.{All};
ghost use Rattle.aql_value.specs.Datum.{data_of};
ghost use Rattle.aql_value.specs.Meaning.{datum};
ghost use Rattle.aql_value.specs.Valid.{IsValue, AreValues};

use crate::value::{Items, Value};

/// Shows that a value obeys the rules of its kind, at every level: any value that there is does.
#[cycle(valid)]
pub fn valid(value: &Value)
    ensures { IsValue (datum value.now) }
{
    match value {
        Value::Nat(n) => {
            let _n = *n;
        }
        Value::Bool(_) => (),
        Value::Text(s) => {
            bytes_fit(s.bytes.as_slice());
        }
        Value::Row(p) => all_valid(p.items()),
        Value::Members(m) => all_valid(m.items()),
        Value::Grid(c) => {
            numbers_fit(c.dims().dims.as_slice());
            all_valid(c.items());
        }
    }
}

/// Shows the same of each value of a list.
#[cycle(valid)]
pub fn all_valid(items: &Items)
    ensures { AreValues (data_of items.now) }
{
    for x in items.items.iter() {
        valid(x);
    }
}

/// Shows that each byte of a slice is below 256, as its type says.
pub fn bytes_fit(bytes: &[u8])
    ensures { All (λ b. b < 256) bytes.now }
{
    let _len = bytes.len();
}

/// Shows that each number of a slice is below 2^128, as its type says.
pub fn numbers_fit(numbers: &[u128])
    ensures { All (λ n. n < 2 ^ 128) numbers.now }
{
    let _len = numbers.len();
}
