//! What the operations make of values as they are kept.

ghost use Rattle.std.specs.Prelude.{◌≡◌, ◌<◌, ◌≤◌, ◌∷◌, [], vec_len, IfOk, Some, length, slice_get};
ghost use Rattle.std.specs.Option.{option_map};
ghost use Rattle.aql_value.specs.Datum.{natural, set, data_of};
ghost use Rattle.aql_value.specs.Meaning.{datum};
ghost use Rattle.aql_value.specs.Operations.{part_of, get_of, dim_of, arith_of, compare_of, union_of as union_datum, tuple_of, set_of, literal_of, cell_of, only, nth};
ghost use Rattle.aql_value.specs.Indices.{cell};
ghost use Rattle.aql_value.specs.Ops.{compare_by};
ghost use Rattle.aql_value.specs.Order.{datum_cmp};
ghost use Rattle.aql_value.specs.Strict.{sub_value, Strict};
ghost use Rattle.nrca_array.specs.Held.{held_datum};
ghost use Rattle.nrca_loops.specs.Values.{held_value};
ghost use Rattle.nrca_loops.specs.Parts.{held_values, parts_value, numbers_in, numbers_with, table_in};
ghost use Rattle.nrca_forms.specs.Made.{dims_datum, items_in, kept_cell};
ghost use Rattle.nrca_loops.specs.Evaluates.{Applies};

use aql_value::made::{both, naturals};
use aql_value::{
    ArithOp, Cells, CompareOp, Dims, Index, Items, Memory, Parts, Value, compare as compare_values,
};
use nrca_array::{Builder, Flat, Held};
use nrca_loops::{Counted, into_value, merge_sets, natural, row_of, set_of, with_cell};
use nrca_par::EvalFault;
use nrca_sets::{Gather, Set};
use std::alloc::Global;
use std::cmp::Ordering;

// A value that takes no turns of its own.
pub(crate) fn free(value: Option<Held>) -> Counted<Option<Held>>
    ensures answer { result.answer ≡ value }
    ensures turns { result.turns ≡ 0 }
{
    Counted {
        answer: value,
        turns: 0,
    }
}

// The naturals below a number as a set, a turn for each.
pub(crate) fn gen_set(
    alloc: Global,
    v: Held,
    budget: u64,
) -> Result<Counted<Option<Held>>, EvalFault>
    ensures { Applies held_value budget Strict.gen (Some (held_datum v ∷ [])) result }
{
    let Some(n) = natural(Some(v)) else {
        return Ok(free(None));
    };
    if n > u128::from(budget) {
        return Err(EvalFault::Spent);
    }
    let set = Set::naturals_below(alloc, n as u64)?;
    Ok(Counted {
        answer: Some(Held::Set(set)),
        turns: n as u64,
    })
}

// A set of one member, packed where the member can be.
pub(crate) fn single(alloc: Global, v: Held) -> Result<Held, Memory>
    ensures { IfOk result (λ r. held_datum r ≡ set_of (held_datum v ∷ [])) }
{
    let value = into_value(alloc, v)?;
    let one = Gather::new(alloc).add(alloc, value)?;
    Ok(Held::Set(one.finish()))
}

#[tactic(auto, using(crate::proofs::Strictly::parts))]
pub(crate) fn get(alloc: Global, v: Held) -> Result<Option<Held>, Memory>
    ensures { IfOk result (λ r. held_value r ≡ get_of (held_datum v)) }
{
    let Some(set) = set_of(v) else {
        return Ok(None);
    };
    let found = only_member(alloc, &set)?;
    Ok(found)
}

#[tactic(auto, using(crate::proofs::Strictly::parts))]
fn only_member(alloc: Global, set: &Set) -> Result<Option<Held>, Memory>
    ensures { IfOk result (λ r. held_value r ≡ only set.now) }
{
    if set.count() == 1 {
        Ok(Some(Held::Value(set.member(alloc, 0)?)))
    } else {
        Ok(None)
    }
}

#[tactic(auto, using(crate::proofs::Strictly::parts))]
pub(crate) fn proj(v: Held, at: u64, of: u64) -> Option<Held>
    ensures { held_value result ≡ part_of at of (held_datum v) }
{
    let Some(items) = row_of(v) else {
        return None;
    };
    if items.items.len() as u64 != of {
        return None;
    }
    nth_item(items, at)
}

// The item of a number counted from 1, moved out of the list.
#[tactic(auto, using(crate::proofs::Strictly::parts))]
fn nth_item(items: Items, at: u64) -> Option<Held>
    ensures { held_value result ≡ nth at items }
{
    if at == 0 {
        return None;
    }
    let i = (at - 1) as usize;
    if i < items.items.len() {
        Some(Held::Value(take_item(items, i)))
    } else {
        None
    }
}

// The item at a place, moved out of the list.
fn take_item(items: Items, i: usize) -> Value
    requires { i < length items }
    ensures { slice_get items i ≡ Some (datum result) }
{
    let mut list = items.items;
    list.swap_remove(i)
}

pub(crate) fn dim(alloc: Global, v: &Held, rank: u64) -> Result<Option<Held>, Memory>
    ensures { IfOk result (λ r. held_value r ≡ dim_of rank (held_datum v.now)) }
{
    match v {
        Held::Value(value) => value_dim(alloc, value, rank),
        Held::Flat(flat) => dims_value(alloc, flat.dims(), rank),
        _ => Ok(None),
    }
}

pub(crate) fn value_dim(alloc: Global, v: &Value, rank: u64) -> Result<Option<Held>, Memory>
    ensures { IfOk result (λ r. held_value r ≡ dim_of rank (datum v.now)) }
{
    match v {
        Value::Grid(cells) => {
            // That the cells are a table says that there is a dimension.
            let _cells = cells.items();
            dims_value(alloc, cells.dims(), rank)
        }
        _ => Ok(None),
    }
}

#[tactic(auto, using(crate::proofs::Strictly::then_map))]
pub(crate) fn arith(op: ArithOp, v: Held, w: Held) -> Option<Held>
    ensures { held_value result ≡ arith_of op (held_datum v) (held_datum w) }
{
    match natural(Some(v)).zip(natural(Some(w))) {
        Some((m, n)) => sum_of(op.apply(m, n)),
        None => None,
    }
}

pub(crate) fn compare(alloc: Global, op: CompareOp, v: Held, w: Held) -> Result<Held, Memory>
    ensures { IfOk result (λ r. Some (held_datum r) ≡ compare_of op (held_datum v) (held_datum w)) }
{
    let order = order_of(alloc, v, w)?;
    Ok(Held::Value(Value::Bool(is_so(op, order))))
}

// The order of two values. Sets that are packed alike are not unpacked.
fn order_of(alloc: Global, v: Held, w: Held) -> Result<Ordering, Memory>
    ensures { IfOk result (λ o. o ≡ datum_cmp (held_datum v) (held_datum w)) }
{
    match v {
        Held::Set(v) => set_order_to(alloc, v, w),
        v => values_order(alloc, v, w),
    }
}

fn set_order_to(alloc: Global, v: Set, w: Held) -> Result<Ordering, Memory>
    ensures { IfOk result (λ o. o ≡ datum_cmp (set (data_of v)) (held_datum w)) }
{
    match w {
        Held::Set(w) => v.compare(alloc, &w),
        w => values_order(alloc, Held::Set(v), w),
    }
}

fn values_order(alloc: Global, v: Held, w: Held) -> Result<Ordering, Memory>
    ensures { IfOk result (λ o. o ≡ datum_cmp (held_datum v) (held_datum w)) }
{
    let both = both(into_value(alloc, v), into_value(alloc, w))?;
    let order = compare_values(&both.0, &both.1);
    drop(both);
    Ok(order)
}

// Whether a comparison holds of two values in that order.
fn is_so(op: CompareOp, order: Ordering) -> bool
    ensures { result ≡ compare_by op order }
{
    match op {
        CompareOp::Equal => order == Ordering::Equal,
        CompareOp::Unequal => order != Ordering::Equal,
        CompareOp::Less => order == Ordering::Less,
        CompareOp::LessEqual => order != Ordering::Greater,
        CompareOp::Greater => order == Ordering::Greater,
        CompareOp::GreaterEqual => order != Ordering::Less,
    }
}

pub(crate) fn union(alloc: Global, v: Held, w: Held) -> Result<Option<Held>, Memory>
    ensures { IfOk result (λ r. held_value r ≡ union_datum (held_datum v) (held_datum w)) }
{
    match set_of(v).zip(set_of(w)) {
        Some((v, w)) => Ok(Some(Held::Set(merge_sets(alloc, v, w)?))),
        None => Ok(None),
    }
}

#[tactic(auto, using(crate::proofs::Strictly::tuples))]
pub(crate) fn tuple(alloc: Global, parts: Vec<Held>) -> Result<Option<Held>, Memory>
    ensures { IfOk result (λ r. held_value r ≡ tuple_of (held_values parts)) }
{
    let items = values(alloc, parts)?;
    match Parts::new(items) {
        Some(parts) => Ok(Some(Held::Value(Value::Row(parts)))),
        None => Ok(None),
    }
}

fn values(alloc: Global, parts: Vec<Held>) -> Result<Items, Memory>
    ensures { IfOk result (λ items. items ≡ held_values parts) }
{
    let mut items = Vec::new(alloc);
    for part in parts {
        items.push(into_value(alloc, part)?)?;
    }
    Ok(Items { items })
}

pub(crate) fn sub(alloc: Global, parts: Vec<Held>) -> Result<Option<Held>, Memory>
    requires { 1 ≤ vec_len parts }
    ensures { IfOk result (λ r. held_value r ≡ sub_value (held_values parts)) }
{
    let mut at = parts;
    let array = at.remove(0);
    let cell = cell_of_parts(alloc, &array, Some(at));
    drop(array);
    cell
}

// The cell of an array at the index that values are.
pub(crate) fn cell_of_parts(
    alloc: Global,
    array: &Held,
    at: Option<Vec<Held>>,
) -> Result<Option<Held>, Memory>
    ensures { IfOk result (λ r. held_value r ≡ kept_cell (held_datum array.now) at) }
{
    match numbers(alloc, at)? {
        Some(at) => cell_at(alloc, array, &at),
        None => Ok(None),
    }
}

fn cell_at(alloc: Global, array: &Held, at: &Dims) -> Result<Option<Held>, Memory>
    ensures { IfOk result (λ r. held_value r ≡ cell_of (held_datum array.now) at.now) }
{
    let at = Index::from_slice(alloc, at.dims.as_slice())?;
    cell(alloc, array, &at)
}

#[tactic(auto, using(aql_value::specs::Laws::Datum::data_lists))]
fn cell(alloc: Global, array: &Held, at: &Index) -> Result<Option<Held>, Memory>
    ensures { IfOk result (λ r. held_value r ≡ cell_of (held_datum array.now) at.now.items) }
{
    match array {
        Held::Value(value) => {
            let found = value_cell(alloc, value, at)?;
            Ok(found)
        }
        Held::Flat(flat) => {
            let found = flat_cell(alloc, flat, at)?;
            Ok(found)
        }
        _ => Ok(None),
    }
}

// The same of an array that is kept as a value.
pub(crate) fn value_cell_of_parts(
    alloc: Global,
    array: &Value,
    at: Option<Vec<Held>>,
) -> Result<Option<Held>, Memory>
    ensures { IfOk result (λ r. held_value r ≡ kept_cell (datum array.now) at) }
{
    match numbers(alloc, at)? {
        Some(at) => value_cell_at(alloc, array, &at),
        None => Ok(None),
    }
}

fn value_cell_at(alloc: Global, array: &Value, at: &Dims) -> Result<Option<Held>, Memory>
    ensures { IfOk result (λ r. held_value r ≡ cell_of (datum array.now) at.now) }
{
    let at = Index::from_slice(alloc, at.dims.as_slice())?;
    value_cell(alloc, array, &at)
}

#[tactic(auto, using(aql_value::specs::Laws::Datum::data_lists))]
fn value_cell(alloc: Global, array: &Value, at: &Index) -> Result<Option<Held>, Memory>
    ensures { IfOk result (λ r. held_value r ≡ cell_of (datum array.now) at.now.items) }
{
    match array {
        Value::Grid(cells) => {
            let found = grid_cell(alloc, cells, at)?;
            Ok(found)
        }
        _ => Ok(None),
    }
}

fn grid_cell(alloc: Global, cells: &Cells, at: &Index) -> Result<Option<Held>, Memory>
    ensures { IfOk result (λ r. held_value r ≡ cell cells.now at.now.items) }
{
    match cells.cell(at) {
        Some(value) => Ok(Some(Held::Value(value.copy(alloc)?))),
        None => Ok(None),
    }
}

fn flat_cell(alloc: Global, flat: &Flat, at: &Index) -> Result<Option<Held>, Memory>
    ensures { IfOk result (λ r. held_value r ≡ cell flat.now at.now.items) }
{
    match flat.cell(alloc, at)? {
        Some(value) => Ok(Some(Held::Value(value))),
        None => Ok(None),
    }
}

pub(crate) fn literal(alloc: Global, rank: usize, parts: Vec<Held>) -> Result<Option<Held>, Memory>
    requires { rank ≤ vec_len parts }
    ensures { IfOk result (λ r. held_value r ≡ literal_of rank (held_values parts)) }
{
    let mut front = parts;
    let back = front.split_off(rank)?;
    let Some(dims) = numbers(alloc, Some(front))? else {
        return Ok(None);
    };
    let cells = pack_cells(alloc, back)?;
    let found = table_of(dims, Some(cells))?;
    Ok(found)
}

fn pack_cells(alloc: Global, cells: Vec<Held>) -> Result<Builder, Memory>
    ensures { IfOk result (λ b. b ≡ held_values cells) }
{
    let mut packed = Builder::new(alloc);
    for cell in cells {
        packed = with_cell(alloc, packed, into_value(alloc, cell))?;
    }
    Ok(packed)
}

// The dimensions of an array of that rank, as a value.
#[tactic(auto, using(crate::proofs::Strictly::indices))]
fn dims_value(alloc: Global, dims: &Dims, rank: u64) -> Result<Option<Held>, Memory>
    requires { 1 ≤ length dims.now }
    ensures { IfOk result (λ r. held_value r ≡ dims_datum rank dims.now) }
{
    if dims.dims.len() as u64 != rank {
        return Ok(None);
    }
    if dims.dims.len() == 1 {
        return Ok(Some(Held::Value(Value::Nat(dims.dims[0]))));
    }
    let items = naturals(alloc, dims.dims.as_slice())?;
    match Parts::new(items) {
        Some(parts) => Ok(Some(Held::Value(Value::Row(parts)))),
        None => unreachable!(),
    }
}

fn dims_and(dims: Option<Vec<u128>>, part: Held) -> Result<Option<Vec<u128>>, Memory>
    ensures { IfOk result (λ ds. items_in ds ≡ numbers_with (items_in dims) (held_datum part)) }
{
    match (dims, natural(Some(part))) {
        (Some(mut dims), Some(n)) => {
            dims.push(n)?;
            Ok(Some(dims))
        }
        _ => Ok(None),
    }
}

/// The numbers that values are.
#[tactic(auto, using(crate::proofs::Strictly::numbers_push))]
pub fn numbers(alloc: Global, parts: Option<Vec<Held>>) -> Result<Option<Dims>, Memory>
    ensures { IfOk result (λ ds. ds ≡ numbers_in (parts_value parts)) }
{
    let Some(parts) = parts else {
        return Ok(None);
    };
    let mut dims = Some(Vec::new(alloc));
    for part in parts {
        dims = dims_and(dims, part)?;
    }
    match dims {
        Some(dims) => Ok(Some(Dims { dims })),
        None => Ok(None),
    }
}

/// A sum as a value.
pub fn sum_of(sum: Option<u128>) -> Option<Held>
    ensures { held_value result ≡ option_map natural sum }
{
    match sum {
        Some(n) => Some(Held::Value(Value::Nat(n))),
        None => None,
    }
}

/// A set as a value.
#[tactic(auto, using(aql_value::specs::Laws::Datum::data_lists))]
pub fn union_of(members: Option<Set>) -> Option<Held>
    ensures { held_value result ≡ option_map (λ ms. set (data_of ms)) members }
{
    match members {
        Some(members) => Some(Held::Set(members)),
        None => None,
    }
}

/// The array of these dimensions and cells, where it has a rank.
pub fn table_of(dims: Dims, cells: Option<Builder>) -> Result<Option<Held>, Memory>
    ensures { IfOk result (λ v. held_value v ≡ table_in dims cells) }
{
    let Some(cells) = cells else {
        return Ok(None);
    };
    let rank = dims.dims.len();
    if rank == 0 || rank > 8 {
        return Ok(None);
    }
    match cells.finish(dims)? {
        Some(flat) => Ok(Some(Held::Flat(flat))),
        None => Ok(None),
    }
}
