//! Shapes of values, and of terms over positions.

use crate::tests::same::assert_same;
use crate::tests::values::{array, set};
use crate::tests::{assert_right, words};
use aql_value::made::both;
use aql_value::{Memory, Value};
use nrca_ranges::{
    Ctx, GlobalShapes, Interval, Shape, count_of, number_of, shape_of, shape_of_value,
};
use nrca_term::Core;
use std::alloc::Global;

// The value of the only position: a number, a set of numbers, or the array of rank 1 of that size and these cells.
#[derive(Clone, Copy)]
enum Position<'a> {
    Number(u128),
    Set(&'a [u128]),
    Array(u128, &'a [u128]),
}

fn value(alloc: Global, position: Position<'_>) -> Result<Value, Memory> {
    match position {
        Position::Number(n) => Ok(Value::Nat(n)),
        Position::Set(numbers) => set(alloc, numbers),
        Position::Array(size, cells) => array(alloc, &[size], cells),
    }
}

fn shape(alloc: Global, value: Result<Value, Memory>) -> Result<Shape, Memory> {
    let value = value?;
    let shape = shape_of_value(alloc, &value);
    drop(value);
    shape
}

// The shape as that of the only position.
fn positions(alloc: Global, shape: Result<Shape, Memory>) -> Result<GlobalShapes, Memory> {
    let shape = shape?;
    let mut globals = GlobalShapes::new(alloc);
    globals.push(Some(shape))?;
    Ok(globals)
}

fn number_over(alloc: Global, term: &Core, globals: GlobalShapes) -> Result<Interval, Memory> {
    let ctx = Ctx::new(alloc, globals);
    let found = number_of(alloc, term, &ctx);
    drop(ctx);
    found
}

fn number(
    alloc: Global,
    term: Result<Core, Memory>,
    globals: Result<GlobalShapes, Memory>,
) -> Result<Interval, Memory> {
    let (term, globals) = both(term, globals)?;
    let found = number_over(alloc, &term, globals);
    drop(term);
    found
}

// A term, the value of the only position, and the ends of the term's interval: over a number, the sum over a set of 1s, and
// the dimension of an array.
#[derive(Clone, Copy)]
struct Row<'a>(&'a str, Position<'a>, u128, u128);

const NUMBERS: &[Row<'static>] = &[
    Row("g1 1 +", Position::Number(41), 42, 42),
    Row("g1 1 S", Position::Set(&[3, 5, 5]), 2, 2),
    Row("g1 g1 u 1 S", Position::Set(&[3, 5]), 2, 4),
    Row("g1 7 tup2 p1/2", Position::Number(41), 41, 41),
    Row("g1 0 sub1", Position::Array(2, &[3, 5]), 0, u128::MAX),
    Row("g2", Position::Number(41), 0, u128::MAX),
];

fn is_number(alloc: Global, row: &Row<'_>) -> Result<bool, Memory> {
    let globals = positions(alloc, shape(alloc, value(alloc, row.1)));
    let found = number(alloc, words::term(alloc, row.0), globals)?;
    Ok(found.low == row.2 && found.high == row.3)
}

#[test]
fn numbers_over_a_position(rt: HostRuntime) {
    for row in NUMBERS {
        assert_right(&rt, is_number(rt.alloc(), row), row.0);
    }
}

// Whether positions 0 to 3 have a shape.
fn have_shapes(globals: &GlobalShapes) -> [bool; 4] {
    [
        globals.has(0),
        globals.has(1),
        globals.has(2),
        globals.has(3),
    ]
}

// The same where the first has one and the second none.
fn shaped_first(alloc: Global) -> Result<[bool; 4], Memory> {
    let mut globals = GlobalShapes::new(alloc);
    globals.push(Some(Shape::Unknown))?;
    globals.push(None)?;
    let found = have_shapes(&globals);
    drop(globals);
    Ok(found)
}

#[test]
fn positions_count_from_one(rt: HostRuntime) {
    let found = shaped_first(rt.alloc());
    assert_same(&rt, found, Ok([false, true, false, false]));
}

// What the shape of a closed term is.
fn kind(shape: &Shape) -> &'static str {
    match shape {
        Shape::Unknown => "unknown",
        Shape::Number(_) => "number",
        Shape::Row(_) => "row",
        Shape::Members {
            count: _,
            member: _,
        } => "members",
        Shape::Grid { dims: _, cell: _ } => "grid",
    }
}

fn kind_of(shape: Result<Shape, Memory>) -> Result<&'static str, Memory> {
    let shape = shape?;
    let found = kind(&shape);
    drop(shape);
    Ok(found)
}

// Whether the shape is of that kind, with at most so many members.
fn is_kind(
    shape: Result<Shape, Memory>,
    count: Result<Interval, Memory>,
    row: &(&str, &str, u128),
) -> Result<bool, Memory> {
    let kind = kind_of(shape)?;
    let count = count?;
    Ok(kind == row.1 && count.high == row.2)
}

fn is_kind_over(alloc: Global, term: &Core, row: &(&str, &str, u128)) -> Result<bool, Memory> {
    let ctx = Ctx::new(alloc, GlobalShapes::new(alloc));
    let shape = shape_of(alloc, term, &ctx);
    let count = count_of(alloc, term, &ctx);
    drop(ctx);
    is_kind(shape, count, row)
}

fn is_kind_of(
    alloc: Global,
    term: Result<Core, Memory>,
    row: &(&str, &str, u128),
) -> Result<bool, Memory> {
    let term = term?;
    let found = is_kind_over(alloc, &term, row);
    drop(term);
    found
}

// A term, the kind of its shape, and the most members of its sets.
const KINDS: &[(&str, &str, u128)] = &[
    ("{}", "members", 0),
    ("7 gen", "members", 7),
    ("7 gen v0 v0 1 + tup2 one U", "members", 7),
    ("7 gen v0 v0 1 + tup2 one U get", "row", u128::MAX),
    ("2 3 v0 one tab2", "grid", u128::MAX),
    ("2 3 v0 one tab2 0 0 sub2", "members", 1),
    ("2 3 v0 tab2 dim2", "row", u128::MAX),
    ("T 7 gen 3 if", "unknown", u128::MAX),
    ("T", "unknown", u128::MAX),
];

#[test]
fn kinds_of_shapes(rt: HostRuntime) {
    for row in KINDS {
        let right = is_kind_of(rt.alloc(), words::term(rt.alloc(), row.0), row);
        assert_right(&rt, right, row.0);
    }
}
