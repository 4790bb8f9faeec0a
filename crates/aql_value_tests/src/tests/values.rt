ghost use Rattle.std.specs.Prelude.{◌≡◌, ◌≤◌, length, IfOk};

use crate::tests::same::assert_same;
use aql_value::made::both;
use aql_value::{
    ArithOp, Ascending, Cells, CompareOp, Dims, Index, Items, Memory, Parts, Str, Value, add,
    canon, compare, merge, monus, mul, quotient, remainder,
};
use std::alloc::Global;
use std::cmp::Ordering;
use std::process::Abort;

const GREATEST: u128 = 340282366920938463463374607431768211455;

const HALF: u128 = 170141183460469231731687303715884105728;

fn numbers(alloc: Global, all: &[u128]) -> Result<Items, Memory> {
    let mut items = Vec::new(alloc);
    for n in all {
        items.push(Value::Nat(*n))?;
    }
    Ok(Items { items })
}

fn dims(alloc: Global, all: &[u128]) -> Result<Dims, Memory>
    ensures { IfOk result (λ d. d ≡ all.now) }
{
    let mut dims = Vec::new(alloc);
    dims.extend_from_slice(all)?;
    Ok(Dims { dims })
}

fn text(alloc: Global, all: &[u8]) -> Result<Value, Memory> {
    let mut bytes = Vec::new(alloc);
    bytes.extend_from_slice(all)?;
    Ok(Value::Text(Str { bytes }))
}

// Puts what was made behind the others.
fn push_made(all: &mut Vec<Value>, made: Result<Value, Memory>) -> Result<(), Memory> {
    all.push(made?)?;
    Ok(())
}

fn texts(alloc: Global, all: &[&[u8]]) -> Result<Items, Memory> {
    let mut items = Vec::new(alloc);
    for bytes in all {
        push_made(&mut items, text(alloc, bytes))?;
    }
    Ok(Items { items })
}

fn members(alloc: Global, items: Result<Items, Memory>) -> Result<Ascending, Memory> {
    canon(alloc, items?)
}

fn set(alloc: Global, all: &[u128]) -> Result<Value, Memory> {
    Ok(Value::Members(members(alloc, numbers(alloc, all))?))
}

fn sets(alloc: Global, all: &[&[u128]]) -> Result<Items, Memory> {
    let mut items = Vec::new(alloc);
    for members in all {
        push_made(&mut items, set(alloc, members))?;
    }
    Ok(Items { items })
}

fn tuple(alloc: Global, all: &[u128]) -> Result<Option<Parts>, Memory> {
    Ok(Parts::new(numbers(alloc, all)?))
}

fn row(alloc: Global, all: &[u128]) -> Result<Value, Memory> {
    Ok(Value::Row(tuple(alloc, all)?.ok_or(Memory)?))
}

fn array(alloc: Global, lengths: &[u128], cells: &[u128]) -> Result<Option<Cells>, Memory>
    requires some { 1 ≤ length lengths.now }
    requires few { length lengths.now ≤ 8 }
{
    let (dims, cells) = both(dims(alloc, lengths), numbers(alloc, cells))?;
    Ok(Cells::new(dims, cells))
}

fn grid(alloc: Global, lengths: &[u128], cells: &[u128]) -> Result<Value, Memory> {
    if lengths.is_empty() || lengths.len() > 8 {
        return Err(Memory);
    }
    Ok(Value::Grid(array(alloc, lengths, cells)?.ok_or(Memory)?))
}

fn are_equal(a: &Items, b: &Items) -> bool {
    a.items.as_slice() == b.items.as_slice()
}

// An operation, its operands, and its result where there is one.
const OPERATIONS: &[(ArithOp, u128, u128, Option<u128>)] = &[
    (ArithOp::Add, 2, 3, Some(5)),
    (ArithOp::Add, GREATEST, 0, Some(GREATEST)),
    (ArithOp::Add, GREATEST, 1, None),
    (ArithOp::Monus, 3, 5, Some(0)),
    (ArithOp::Monus, 5, 3, Some(2)),
    (ArithOp::Mul, HALF, 1, Some(HALF)),
    (ArithOp::Mul, HALF, 2, None),
    (ArithOp::Quotient, 7, 2, Some(3)),
    (ArithOp::Quotient, 7, 0, None),
    (ArithOp::Remainder, 7, 2, Some(1)),
    (ArithOp::Remainder, 7, 0, None),
];

// What the function of the operation itself answers.
fn direct(op: ArithOp, a: u128, b: u128) -> Option<u128> {
    match op {
        ArithOp::Add => add(a, b),
        ArithOp::Monus => Some(monus(a, b)),
        ArithOp::Mul => mul(a, b),
        ArithOp::Quotient => quotient(a, b),
        ArithOp::Remainder => remainder(a, b),
    }
}

#[test]
fn numbers_end_at_128_bits(rt: HostRuntime) {
    for row in OPERATIONS {
        let found = [direct(row.0, row.1, row.2), row.0.apply(row.1, row.2)];
        assert_same(&rt, found, [row.3; 2]);
    }
}

fn merge_made(
    alloc: Global,
    a: Result<Ascending, Memory>,
    b: Result<Ascending, Memory>,
) -> Result<Ascending, Memory> {
    let (a, b) = both(a, b)?;
    merge(alloc, a, b)
}

// Whether a set lends these members, and whether it gives them.
fn holds(
    set: Result<Ascending, Memory>,
    expected: Result<Items, Memory>,
) -> Result<[bool; 2], Memory> {
    let (set, expected) = both(set, expected)?;
    let lends_members = are_equal(set.items(), &expected);
    Ok([lends_members, are_equal(&set.into_items(), &expected)])
}

fn assert_members(
    rt: &impl Abort,
    set: Result<Ascending, Memory>,
    expected: Result<Items, Memory>,
) {
    assert_same(rt, holds(set, expected), Ok([true; 2]));
}

#[test]
fn sets_have_each_member_once(rt: HostRuntime) {
    let alloc = rt.alloc();
    let strings = members(alloc, texts(alloc, &[b"b", b"a", b"b"]));
    assert_members(&rt, strings, texts(alloc, &[b"a", b"b"]));
    let squares = members(alloc, numbers(alloc, &[9, 0, 4, 1, 4, 0]));
    assert_members(&rt, squares, numbers(alloc, &[0, 1, 4, 9]));
}

// The squares below 10, and 2, 4 and 11.
fn squares_and_others(alloc: Global) -> Result<Ascending, Memory> {
    let squares = members(alloc, numbers(alloc, &[9, 0, 4, 1, 4, 0]));
    merge_made(alloc, squares, members(alloc, numbers(alloc, &[11, 4, 2])))
}

#[test]
fn merged_sets_have_each_member_once(rt: HostRuntime) {
    let alloc = rt.alloc();
    let expected = &[0, 1, 2, 4, 9, 11];
    assert_members(&rt, squares_and_others(alloc), numbers(alloc, expected));
    let none = members(alloc, numbers(alloc, &[]));
    let all = merge_made(alloc, none, squares_and_others(alloc));
    assert_members(&rt, all, numbers(alloc, expected));
}

#[test]
fn sets_of_sets_ascend(rt: HostRuntime) {
    let alloc = rt.alloc();
    let nested = members(alloc, sets(alloc, &[&[0, 1], &[0], &[]]));
    assert_members(&rt, nested, sets(alloc, &[&[], &[0], &[0, 1]]));
}

// A value by what it is made of: an array by its lengths and its cells.
#[derive(Clone, Copy)]
enum Made {
    Nat(u128),
    Bool(bool),
    Text(&'static [u8]),
    Tuple(&'static [u128]),
    Set(&'static [u128]),
    Array(&'static [u128], &'static [u128]),
}

fn make(alloc: Global, made: Made) -> Result<Value, Memory> {
    match made {
        Made::Nat(n) => Ok(Value::Nat(n)),
        Made::Bool(b) => Ok(Value::Bool(b)),
        Made::Text(bytes) => text(alloc, bytes),
        Made::Tuple(parts) => row(alloc, parts),
        Made::Set(members) => set(alloc, members),
        Made::Array(lengths, cells) => grid(alloc, lengths, cells),
    }
}

// Values of each kind, and of each kind several, each above those before it.
const ASCENDING: &[Made] = &[
    Made::Nat(7),
    Made::Nat(GREATEST),
    Made::Bool(false),
    Made::Bool(true),
    Made::Text(b""),
    Made::Text(b"a"),
    Made::Text(b"ab"),
    Made::Text(b"b"),
    Made::Tuple(&[1, 2]),
    Made::Tuple(&[1, 2, 0]),
    Made::Tuple(&[2, 0]),
    Made::Set(&[]),
    Made::Set(&[0]),
    Made::Set(&[0, 1]),
    Made::Set(&[1]),
    Made::Array(&[1], &[9]),
    Made::Array(&[1, 2], &[0, 0]),
    Made::Array(&[2], &[0, 0]),
    Made::Array(&[2], &[0, 1]),
];

fn ascending_values(alloc: Global) -> Result<Vec<Value>, Memory> {
    let mut all = Vec::new(alloc);
    for made in ASCENDING {
        push_made(&mut all, make(alloc, *made))?;
    }
    Ok(all)
}

// The order of two values by each call that tells it, and what each comparison of them says.
type Compared = ([Ordering; 2], bool, [bool; 6]);

fn compare_both(x: &Value, y: &Value) -> Compared {
    let holding = [
        CompareOp::Equal.holds(x, y),
        CompareOp::Unequal.holds(x, y),
        CompareOp::Less.holds(x, y),
        CompareOp::LessEqual.holds(x, y),
        CompareOp::Greater.holds(x, y),
        CompareOp::GreaterEqual.holds(x, y),
    ];
    ([compare(x, y), x.cmp(y)], x == y, holding)
}

// The same of their places.
fn compared_places(i: usize, j: usize) -> Compared {
    let holding = [i == j, i != j, i < j, i <= j, i > j, i >= j];
    ([i.cmp(&j); 2], i == j, holding)
}

// The order of a value with each is that of their places.
fn assert_order(rt: &impl Abort, i: usize, x: &Value, all: &[Value]) {
    for (j, y) in all.iter().enumerate() {
        assert_same(rt, compare_both(x, y), compared_places(i, j));
    }
}

fn assert_ascending(rt: &impl Abort, all: &[Value]) {
    assert_same(rt, all.len(), 19);
    for (i, x) in all.iter().enumerate() {
        assert_order(rt, i, x, all);
    }
}

#[test]
fn values_ascend_by_kind_and_content(rt: HostRuntime) -> Result<(), Memory> {
    let all = ascending_values(rt.alloc())?;
    assert_ascending(&rt, all.as_slice());
    Ok(())
}

fn is_array(alloc: Global, lengths: &[u128], cells: &[u128]) -> Result<bool, Memory>
    requires some { 1 ≤ length lengths.now }
    requires few { length lengths.now ≤ 8 }
{
    let made = array(alloc, lengths, cells)?;
    let found = made.is_some();
    drop(made);
    Ok(found)
}

#[test]
fn arrays_have_a_cell_for_each_index(rt: HostRuntime) {
    let alloc = rt.alloc();
    assert_same(&rt, is_array(alloc, &[2, 3], &[1, 2]), Ok(false));
    assert_same(&rt, is_array(alloc, &[0, 3], &[]), Ok(true));
    assert_same(&rt, is_array(alloc, &[HALF, 4, 0], &[]), Ok(true));
    assert_same(&rt, is_array(alloc, &[HALF, 2], &[]), Ok(false));
}

fn two_by_three(alloc: Global) -> Result<Cells, Memory> {
    array(alloc, &[2, 3], &[10, 11, 12, 13, 14, 15])?.ok_or(Memory)
}

// The number in a cell of it, or nothing where it has no such cell.
fn number_at(alloc: Global, table: &Cells, at: &[u128]) -> Result<Option<u128>, Memory> {
    let at: Index = Index::from_slice(alloc, at)?;
    let found = match table.cell(&at) {
        Some(Value::Nat(n)) => Some(*n),
        _ => None,
    };
    drop(at);
    Ok(found)
}

// An index into it, and the number there where it has such a cell.
const CELLS: &[(&[u128], Option<u128>)] = &[
    (&[0, 0], Some(10)),
    (&[0, 2], Some(12)),
    (&[1, 0], Some(13)),
    (&[1, 2], Some(15)),
    (&[0, 3], None),
    (&[2, 0], None),
    (&[GREATEST, 0], None),
    (&[1], None),
];

fn assert_cells(rt: &impl Abort, alloc: Global, table: &Cells) {
    for row in CELLS {
        assert_same(rt, number_at(alloc, table, row.0), Ok(row.1));
    }
}

#[test]
fn cells_by_index(rt: HostRuntime) -> Result<(), Memory> {
    let table = two_by_three(rt.alloc())?;
    assert_cells(&rt, rt.alloc(), &table);
    Ok(())
}
