//! Values written as words, each behind its parts, and values of numbers.

ghost use Rattle.std.specs.Prelude.{◌≡◌, ◌≤◌, length, IfOk};

use crate::tests::stacks::{last, lasts, push_made};
use crate::tests::tables::entry_at;
use crate::tests::words::{number, string};
use aql_value::made::both;
use aql_value::{Cells, Dims, Items, Memory, Parts, Value, canon};
use std::alloc::Global;

// A form of values with so many parts: `Array` by its rank and its number of cells.
#[derive(Clone, Copy)]
enum Compound {
    Tuple(usize),
    Set(usize),
    Array(usize, usize),
}

const COMPOUNDS: &[(&str, Compound)] = &[
    ("tup2", Compound::Tuple(2)),
    ("set0", Compound::Set(0)),
    ("set1", Compound::Set(1)),
    ("set2", Compound::Set(2)),
    ("set3", Compound::Set(3)),
    ("set4", Compound::Set(4)),
    ("set5", Compound::Set(5)),
    ("arr1.0", Compound::Array(1, 0)),
    ("arr1.2", Compound::Array(1, 2)),
    ("arr1.3", Compound::Array(1, 3)),
    ("arr2.0", Compound::Array(2, 0)),
    ("arr2.2", Compound::Array(2, 2)),
    ("arr2.3", Compound::Array(2, 3)),
    ("arr2.6", Compound::Array(2, 6)),
];

fn compound_of(word: &str) -> Option<Compound> {
    entry_at(COMPOUNDS, word)
}

/// A value: each word makes one of the values before it.
pub fn value(alloc: Global, words: &str) -> Result<Option<Value>, Memory> {
    if words == "undefined" {
        return Ok(None);
    }
    Ok(Some(define_value(alloc, words)?))
}

fn define_value(alloc: Global, words: &str) -> Result<Value, Memory> {
    let mut stack = Vec::new(alloc);
    put_words(alloc, &mut stack, words)?;
    last(&mut stack)
}

fn put_words(alloc: Global, stack: &mut Vec<Value>, words: &str) -> Result<(), Memory> {
    for word in words.split(' ') {
        put_word(alloc, stack, word)?;
    }
    Ok(())
}

fn put_word(alloc: Global, stack: &mut Vec<Value>, word: &str) -> Result<(), Memory> {
    let made = value_of(alloc, stack, word);
    push_made(stack, made)
}

fn value_of(alloc: Global, stack: &mut Vec<Value>, word: &str) -> Result<Value, Memory> {
    match compound_of(word) {
        Some(Compound::Tuple(count)) => tuple(lasts(stack, count)),
        Some(Compound::Set(count)) => members(alloc, lasts(stack, count)),
        Some(Compound::Array(rank, count)) => cells(
            lasts(stack, count),
            sizes(alloc, lasts(stack, rank)),
        ),
        None => constant(alloc, word),
    }
}

fn tuple(items: Result<Vec<Value>, Memory>) -> Result<Value, Memory> {
    match Parts::new(Items { items: items? }) {
        Some(parts) => Ok(Value::Row(parts)),
        None => Err(Memory),
    }
}

fn members(alloc: Global, items: Result<Vec<Value>, Memory>) -> Result<Value, Memory> {
    Ok(Value::Members(canon(alloc, Items { items: items? })?))
}

// The numbers among the values.
fn naturals(alloc: Global, values: &[Value]) -> Result<Vec<u128>, Memory> {
    let mut numbers = Vec::new(alloc);
    for value in values {
        if let Value::Nat(n) = value {
            numbers.push(*n)?;
        }
    }
    Ok(numbers)
}

fn sizes(alloc: Global, values: Result<Vec<Value>, Memory>) -> Result<Vec<u128>, Memory> {
    let values = values?;
    let sizes = naturals(alloc, &values);
    drop(values);
    sizes
}

fn cells(
    cells: Result<Vec<Value>, Memory>,
    sizes: Result<Vec<u128>, Memory>,
) -> Result<Value, Memory> {
    let (items, dims) = both(cells, sizes)?;
    if dims.is_empty() || dims.len() > 8 {
        return Err(Memory);
    }
    match Cells::new(Dims { dims }, Items { items }) {
        Some(cells) => Ok(Value::Grid(cells)),
        None => Err(Memory),
    }
}

fn constant(alloc: Global, word: &str) -> Result<Value, Memory> {
    match word {
        "T" => Ok(Value::Bool(true)),
        "F" => Ok(Value::Bool(false)),
        "max" => Ok(Value::Nat(u128::MAX)),
        _ => string_or_number(alloc, word),
    }
}

fn string_or_number(alloc: Global, word: &str) -> Result<Value, Memory> {
    match word.strip_prefix('\'') {
        Some(text) => Ok(Value::Text(string(alloc, text)?)),
        None => Ok(Value::Nat(number(word)?)),
    }
}

/// These numbers as dimensions.
pub fn dims(alloc: Global, all: &[u128]) -> Result<Dims, Memory>
    ensures { IfOk result (λ d. d ≡ all.now) }
{
    let mut dims = Vec::new(alloc);
    dims.extend_from_slice(all)?;
    Ok(Dims { dims })
}

/// These numbers as values.
pub fn numbers(alloc: Global, all: &[u128]) -> Result<Items, Memory> {
    let mut items = Vec::new(alloc);
    for n in all {
        items.push(Value::Nat(*n))?;
    }
    Ok(Items { items })
}

/// The set of these numbers.
pub fn set(alloc: Global, all: &[u128]) -> Result<Value, Memory> {
    Ok(Value::Members(canon(alloc, numbers(alloc, all)?)?))
}

/// The array of these dimensions and cells.
pub fn grid(alloc: Global, lengths: &[u128], cells: Result<Items, Memory>) -> Result<Value, Memory>
    requires some { 1 ≤ length lengths.now }
    requires few { length lengths.now ≤ 8 }
{
    let (dims, cells) = both(dims(alloc, lengths), cells)?;
    Ok(Value::Grid(Cells::new(dims, cells).ok_or(Memory)?))
}

/// The array of these dimensions whose cells are these numbers.
pub fn array(alloc: Global, lengths: &[u128], cells: &[u128]) -> Result<Value, Memory>
    requires some { 1 ≤ length lengths.now }
    requires few { length lengths.now ≤ 8 }
{
    grid(alloc, lengths, numbers(alloc, cells))
}
