//! The order of two values by their places in rows. None of these takes memory.

ghost use Rattle.std.specs.Prelude.{◌≡◌, ◌<◌, length, map, slice_get, Some};
ghost use Rattle.aql_value.specs.Datum.{data_of, natural, tuple};
ghost use Rattle.aql_value.specs.Meaning.{datum};
ghost use Rattle.aql_value.specs.Order.{datum_cmp};
ghost use Rattle.nrca_sets.specs.Pairs.{pair_value};
ghost use Rattle.nrca_sets.specs.Places.{order_to, places_order, rest_order};
ghost use Rattle.nrca_sets.specs.Rows.{row_data};

use crate::rows::Rows;
use aql_value::{Items, Value, compare};
use std::cmp::Ordering;

/// The order of the value at a place to that at a place of other rows: none where one is not there.
#[tactic(auto, using(crate::specs::Laws::Places::places_there, crate::specs::Laws::Places::places_past_pairs))]
pub(crate) fn order(rows: &Rows, at: usize, others: &Rows, place: usize) -> Option<Ordering>
    ensures { result ≡ places_order (row_data rows.now) at (row_data others.now) place }
{
    match rows {
        Rows::Plain(items) => match items.items.get(at) {
            Some(value) => value_order(value, others, place),
            None => None,
        },
        Rows::Ones(numbers) => {
            if at < numbers.len() {
                number_order(numbers[at], others, place)
            } else {
                None
            }
        }
        Rows::Twos(pairs) => {
            if at < pairs.len() {
                pair_order(pair_of(pairs, at), others, place)
            } else {
                None
            }
        }
    }
}

// The order of a value to that at a place.
#[tactic(auto, using(crate::specs::Laws::Places::flipped, crate::specs::Laws::Places::order_there, crate::specs::Laws::Places::order_past_pairs))]
fn value_order(value: &Value, rows: &Rows, at: usize) -> Option<Ordering>
    ensures { result ≡ order_to (datum value.now) (row_data rows.now) at }
{
    match rows {
        Rows::Plain(items) => match items.items.get(at) {
            Some(other) => Some(compare(value, other)),
            None => None,
        },
        Rows::Ones(numbers) => {
            if at < numbers.len() {
                Some(number_to_value(numbers[at], value).reverse())
            } else {
                None
            }
        }
        Rows::Twos(pairs) => {
            if at < pairs.len() {
                Some(pair_to_value(pair_of(pairs, at), value).reverse())
            } else {
                None
            }
        }
    }
}

// The order of a number to the value at a place.
#[tactic(auto, using(crate::specs::Laws::Places::number_to_pairs, crate::specs::Laws::Places::order_past_pairs))]
fn number_order(n: u64, rows: &Rows, at: usize) -> Option<Ordering>
    ensures { result ≡ order_to (natural n) (row_data rows.now) at }
{
    match rows {
        Rows::Plain(items) => match items.items.get(at) {
            Some(other) => Some(number_to_value(n, other)),
            None => None,
        },
        Rows::Ones(numbers) => {
            if at < numbers.len() {
                Some(n.cmp(&numbers[at]))
            } else {
                None
            }
        }
        Rows::Twos(pairs) => {
            if at < pairs.len() {
                Some(Ordering::Less)
            } else {
                None
            }
        }
    }
}

// The order of a pair to the value at a place.
#[tactic(auto, using(crate::specs::Laws::Kinds::pair_order, crate::specs::Laws::Places::order_there, crate::specs::Laws::Places::order_past_pairs, crate::specs::Laws::Places::order_at_numbers, crate::specs::Laws::Places::order_past_numbers))]
fn pair_order(pair: (u64, u64), rows: &Rows, at: usize) -> Option<Ordering>
    ensures { result ≡ order_to (pair_value pair) (row_data rows.now) at }
{
    match rows {
        Rows::Plain(items) => match items.items.get(at) {
            Some(other) => Some(pair_to_value(pair, other)),
            None => None,
        },
        Rows::Ones(numbers) => {
            if at < numbers.len() {
                Some(Ordering::Greater)
            } else {
                None
            }
        }
        Rows::Twos(pairs) => {
            if at < pairs.len() {
                Some(pair.cmp(&pair_of(pairs, at)))
            } else {
                None
            }
        }
    }
}

// The order of a pair to a value.
fn pair_to_value(pair: (u64, u64), value: &Value) -> Ordering
    ensures { result ≡ datum_cmp (pair_value pair) (datum value.now) }
{
    match value {
        Value::Row(parts) => pair_to_parts(pair, parts.items()),
        Value::Nat(_) => Ordering::Greater,
        Value::Bool(_) => Ordering::Greater,
        Value::Text(_) => Ordering::Greater,
        Value::Members(_) => Ordering::Less,
        Value::Grid(_) => Ordering::Less,
    }
}

// The order of a pair to a tuple of these parts.
#[tactic(auto, using(crate::specs::Laws::Places::pair_to_none, crate::specs::Laws::Places::pair_to_one, crate::specs::Laws::Places::pair_to_two))]
fn pair_to_parts(pair: (u64, u64), parts: &Items) -> Ordering
    ensures { result ≡ datum_cmp (pair_value pair) (tuple (data_of parts.now)) }
{
    let count = count_of(parts);
    if count == 0 {
        return Ordering::Greater;
    }
    let first = number_to_value(pair.0, part(parts, 0));
    if count == 1 {
        return first.then(Ordering::Greater);
    }
    let second = number_to_value(pair.1, part(parts, 1));
    first.then(second).then(rest_order(count - 2))
}

// The pair at a place.
#[tactic(auto, using(crate::specs::Laws::Places::pair_there))]
fn pair_of(pairs: &[(u64, u64)], at: usize) -> (u64, u64)
    requires { at < length pairs.now }
    ensures { slice_get (map pair_value pairs.now) at ≡ Some (pair_value result) }
{
    pairs[at]
}

// The part at a place.
fn part(parts: &Items, at: usize) -> &Value
    requires { at < length parts.now }
    ensures { slice_get parts.now at ≡ Some (datum result.now) }
{
    &parts.items[at]
}

// How many parts.
fn count_of(parts: &Items) -> usize
    ensures { result ≡ length parts.now }
{
    parts.items.len()
}

// What the parts behind the second decide.
fn rest_order(count: usize) -> Ordering
    ensures { result ≡ rest_order count }
{
    if count == 0 {
        Ordering::Equal
    } else {
        Ordering::Less
    }
}

// The order of a number to a value.
fn number_to_value(n: u64, value: &Value) -> Ordering
    ensures { result ≡ datum_cmp (natural n) (datum value.now) }
{
    match value {
        Value::Nat(m) => (n as u128).cmp(m),
        _ => Ordering::Less,
    }
}
