use crate::tests::same::assert_same;
use crate::tests::values::{dims, value};
use aql_value::made::both;
use aql_value::{Index, Memory, Value};
use nrca_array::{Builder, Flat, Held};
use std::alloc::Global;

fn naturals(alloc: Global, cells: &[u128]) -> Result<Builder, Memory> {
    let mut packed = Builder::new(alloc);
    for n in cells {
        packed = packed.push_natural(alloc, *n)?;
    }
    Ok(packed)
}

fn pairs(alloc: Global, cells: &[(bool, u128)]) -> Result<Builder, Memory> {
    let mut packed = Builder::new(alloc);
    for (b, n) in cells {
        packed = packed.push_pair(alloc, *b, *n)?;
    }
    Ok(packed)
}

fn truth(alloc: Global) -> Result<Builder, Memory> {
    Builder::new(alloc).push_truth(alloc, true)
}

fn append_made(
    alloc: Global,
    cells: Result<Builder, Memory>,
    others: Result<Builder, Memory>,
) -> Result<Builder, Memory> {
    let (cells, others) = both(cells, others)?;
    cells.append(alloc, others)
}

fn row(alloc: Global, length: u128, cells: Result<Builder, Memory>) -> Result<Flat, Memory> {
    let (dims, cells) = both(dims(alloc, &[length]), cells)?;
    cells.finish(dims)?.ok_or(Memory)
}

fn packs(flat: &Flat, wanted: Option<(u64, &[u8])>) -> bool {
    match (flat.packed(), wanted) {
        (Some((width, bytes)), Some((w, b))) => width == w && bytes == b,
        (None, None) => true,
        _ => false,
    }
}

// Whether a row of these cells is packed in so many bits each, in these bytes.
fn is_packed(
    alloc: Global,
    length: u128,
    cells: Result<Builder, Memory>,
    width: u64,
    bytes: &[u8],
) -> Result<bool, Memory> {
    let flat = row(alloc, length, cells)?;
    let found = packs(&flat, Some((width, bytes)));
    drop(flat);
    Ok(found)
}

fn is_unpacked(
    alloc: Global,
    length: u128,
    cells: Result<Builder, Memory>,
) -> Result<bool, Memory> {
    let flat = row(alloc, length, cells)?;
    let found = packs(&flat, None);
    drop(flat);
    Ok(found)
}

#[test]
fn naturals_are_packed(rt: HostRuntime) {
    let alloc = rt.alloc();
    let all = append_made(alloc, naturals(alloc, &[1]), naturals(alloc, &[300, 2]));
    let bytes = [0x01, 0x00, 0x2c, 0x01, 0x02, 0x00];
    assert_same(&rt, is_packed(alloc, 3, all, 16, &bytes), Ok(true));
    let none = is_unpacked(alloc, 0, naturals(alloc, &[]));
    assert_same(&rt, none, Ok(true));
}

#[test]
fn pairs_are_packed(rt: HostRuntime) {
    let all = pairs(rt.alloc(), &[(true, 1), (false, 2)]);
    let found = is_packed(rt.alloc(), 2, all, 8, &[0x01, 0x02, 0x01, 0x00]);
    assert_same(&rt, found, Ok(true));
}

// One row of 5, true and 7.
fn mixed_row(alloc: Global) -> Result<Flat, Memory> {
    match value(alloc, "1 3 5 T 7 arr2.3")? {
        Some(Value::Grid(cells)) => Flat::from_cells(alloc, cells),
        _ => Err(Memory),
    }
}

// How many cells the window from number 1 up to 3 has: 0 where there are not so many cells.
fn window_length(alloc: Global, flat: &Flat) -> Result<usize, Memory> {
    if flat.len() < 3 {
        return Ok(0);
    }
    Ok(flat.window(alloc, 1, 3)?.items.len())
}

fn cell(alloc: Global, flat: &Flat, at: &[u128]) -> Result<Option<Value>, Memory> {
    let at = Index::from_slice(alloc, at)?;
    let found = flat.cell(alloc, &at);
    drop(at);
    found
}

fn natural_at(alloc: Global, flat: &Flat, at: &[u128]) -> Result<Option<u128>, Memory> {
    match cell(alloc, flat, at)? {
        Some(Value::Nat(n)) => Ok(Some(n)),
        other => {
            drop(other);
            Ok(None)
        }
    }
}

fn kind_of_copy(alloc: Global, held: &Held) -> Result<u8, Memory> {
    let copied = held.copy(alloc)?;
    let value = copied.to_value(alloc);
    drop(copied);
    Ok(value?.kind())
}

#[test]
fn cells_stay(rt: HostRuntime) -> Result<(), Memory> {
    let alloc = rt.alloc();
    let flat = mixed_row(alloc)?;
    let length = window_length(alloc, &flat);
    let cell = natural_at(alloc, &flat, &[0, 2]);
    let held = Held::Flat(flat);
    let kind = kind_of_copy(alloc, &held);
    drop(held);
    assert_same(&rt, length, Ok(2));
    assert_same(&rt, cell, Ok(Some(7)));
    assert_same(&rt, kind, Ok(5));
    Ok(())
}

// Naturals behind a builder's cells, each piece at once.
fn at_once(
    alloc: Global,
    first: Result<Builder, Memory>,
    pieces: &[&[u64]],
) -> Result<Builder, Memory> {
    let mut cells = first?;
    for piece in pieces {
        cells = cells.push_naturals(alloc, piece)?;
    }
    Ok(cells)
}

// The same one at a time.
fn one_at_a_time(
    alloc: Global,
    first: Result<Builder, Memory>,
    pieces: &[&[u64]],
) -> Result<Builder, Memory> {
    let mut cells = first?;
    for piece in pieces {
        for n in *piece {
            cells = cells.push_natural(alloc, u128::from(*n))?;
        }
    }
    Ok(cells)
}

fn cell_alike(alloc: Global, many: &Flat, each: &Flat, i: u128) -> Result<bool, Memory> {
    let (many, each) = both(cell(alloc, many, &[i]), cell(alloc, each, &[i]))?;
    let alike = many == each;
    drop(many);
    drop(each);
    Ok(alike)
}

fn rows_alike(alloc: Global, length: u128, many: &Flat, each: &Flat) -> Result<bool, Memory> {
    for i in 0..length {
        if !cell_alike(alloc, many, each, i)? {
            return Ok(false);
        }
    }
    Ok(packs(many, each.packed()))
}

fn alike(
    alloc: Global,
    length: u128,
    many: Result<Builder, Memory>,
    each: Result<Builder, Memory>,
) -> Result<bool, Memory> {
    let (many, each) = both(row(alloc, length, many), row(alloc, length, each))?;
    let alike = rows_alike(alloc, length, &many, &each);
    drop(many);
    drop(each);
    alike
}

// Whether naturals behind no cells are the same at once and one at a time.
fn alike_alone(alloc: Global, length: u128, pieces: &[&[u64]]) -> Result<bool, Memory> {
    let many = at_once(alloc, naturals(alloc, &[]), pieces);
    let each = one_at_a_time(alloc, naturals(alloc, &[]), pieces);
    alike(alloc, length, many, each)
}

// The same behind a number past 64 bits.
fn alike_behind_a_wide_one(alloc: Global) -> Result<bool, Memory> {
    let wide = [18_446_744_073_709_551_616];
    let many = at_once(alloc, naturals(alloc, &wide), &[&[2, 300]]);
    let each = one_at_a_time(alloc, naturals(alloc, &wide), &[&[2, 300]]);
    alike(alloc, 3, many, each)
}

// The same behind a truth value.
fn alike_behind_a_truth_value(alloc: Global) -> Result<bool, Memory> {
    let many = at_once(alloc, truth(alloc), &[&[0, 70_000]]);
    let each = one_at_a_time(alloc, truth(alloc), &[&[0, 70_000]]);
    alike(alloc, 3, many, each)
}

const PIECES: &[&[u64]] = &[
    &[],
    &[1, 255],
    &[256, 7],
    &[],
    &[8, 65_536],
    &[4_294_967_296, 9, 18_446_744_073_709_551_615],
];

#[test]
fn naturals_at_once_are_packed(rt: HostRuntime) {
    let alloc = rt.alloc();
    let few = at_once(alloc, naturals(alloc, &[]), &[&[1, 255], &[256]]);
    let bytes = [0x01, 0x00, 0xff, 0x00, 0x00, 0x01];
    assert_same(&rt, is_packed(alloc, 3, few, 16, &bytes), Ok(true));
}

#[test]
fn naturals_at_once(rt: HostRuntime) {
    let alloc = rt.alloc();
    assert_same(&rt, alike_alone(alloc, 9, PIECES), Ok(true));
    assert_same(&rt, alike_behind_a_wide_one(alloc), Ok(true));
    assert_same(&rt, alike_behind_a_truth_value(alloc), Ok(true));
}
