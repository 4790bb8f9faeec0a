//! `index`: the array of the sets of values that a set of pairs has at each index.

ghost use Rattle.std.specs.Prelude.{◌≡◌, ◌<◌, ◌≤◌, ◌^◌, ◌∷◌, ◌++◌, [], suc, length, map, max, replicate, Some, IfOk, IfSome};
ghost use Rattle.aql_value.specs.Datum.{natural};
ghost use Rattle.std.specs.Option.{option_map};
ghost use Rattle.aql_value.specs.Indices.{product};
ghost use Rattle.aql_value.specs.Lists.{below};
ghost use Rattle.aql_value.specs.Meaning.{datum};
ghost use Rattle.aql_value.specs.Operations.{as_natural, as_tuple, as_indexed, dims_above, index_numbers, set_of as set_datum};
ghost use Rattle.aql_value.specs.Partial.{each};
ghost use Rattle.nrca_array.specs.Held.{held_datum};
ghost use Rattle.nrca_forms.specs.Indexing.{pair_of, pairs_of, pairs_run, indexed_at, extent, indexed_pair, AreRanked, push_group, ranked_numbers, values_of, AddsPair, MakesArray, groups_in, index_lists, ranged_dims, set_cells, values_by_index, PutsAt, greater_dims, pairs_in};
ghost use Rattle.nrca_loops.specs.Runs.{lists_join};
ghost use Rattle.nrca_loops.specs.Values.{held_value};
ghost use Rattle.aql_value.specs.Strict.{Strict};
ghost use Rattle.nrca_loops.specs.Evaluates.{Applies};

use crate::operations::{free, table_of};
use crate::runs::{index_packed, packed_pairs};
use aql_value::{Dims, Items, Memory, Value, canon, is_below, offset_at, saturating_product};
use nrca_array::{Builder, Held};
use nrca_loops::{Counted, set_of, with_cell};
use nrca_par::EvalFault;
use nrca_sets::Set;
use std::alloc::Global;

/// An index and a value that is paired with it.
#[derive(Drop)]
pub struct Indexed {
    pub at: Dims,
    pub value: Value,
}

/// What `index` makes of a value: a turn for each member, and one for each cell of the array.
/// Spent where the members, or the members and the cells, pass the budget.
pub(crate) fn index_set(
    alloc: Global,
    rank: u64,
    v: Held,
    budget: u64,
) -> Result<Counted<Option<Held>>, EvalFault>
    ensures { Applies held_value budget (Strict.index rank) (Some (held_datum v ∷ [])) result }
{
    let Some(set) = set_of(v) else {
        return Ok(free(None));
    };
    let count = set.count() as u64;
    if count > budget {
        return Err(EvalFault::Spent);
    }
    let made = index_members(alloc, rank, set, budget - count)?;
    Ok(Counted {
        answer: made.answer,
        turns: count + made.turns,
    })
}

// The array that the members of a set make, a turn for each cell. Packed pairs are not read one by one.
fn index_members(
    alloc: Global,
    rank: u64,
    set: Set,
    budget: u64,
) -> Result<Counted<Option<Held>>, EvalFault>
    ensures { MakesArray budget rank (pairs_run rank set 0 (length set)) result }
{
    if let Some(pairs) = packed_pairs(rank, &set) {
        let made = index_packed(alloc, pairs, budget);
        drop(set);
        return made;
    }
    let count = set.count() as u64;
    let pairs = index_run(alloc, rank, &set, 0, count);
    drop(set);
    let pairs = pairs?;
    index_pairs(alloc, rank, pairs, budget)
}

/// The pairs that the members of a set are, from one place up to another: none where one is no
/// pair of an index of that rank and a value.
pub fn index_run(
    alloc: Global,
    rank: u64,
    set: &Set,
    from: u64,
    to: u64,
) -> Result<Option<Vec<Indexed>>, Memory>
    requires order { from ≤ to }
    requires within { to ≤ length set.now }
    ensures { IfOk result (λ ps. pairs_of ps ≡ pairs_run rank set.now from to) }
{
    let mut pairs = Some(Vec::new(alloc));
    for i in from..to {
        let pair = pair_at(alloc, rank, set, i as usize)?;
        pairs = pairs_and(pairs, pair)?;
    }
    Ok(pairs)
}

// The pairs so far, and one more.
fn pairs_and(
    pairs: Option<Vec<Indexed>>,
    pair: Option<Indexed>,
) -> Result<Option<Vec<Indexed>>, Memory>
    ensures { IfOk result (λ ps. AddsPair pairs pair ps) }
{
    match pairs.zip(pair) {
        Some((mut pairs, pair)) => {
            pairs.push(pair)?;
            Ok(Some(pairs))
        }
        None => Ok(None),
    }
}

// The index and the value that the member at a place is a pair of. Two numbers are read where they are packed.
#[tactic(auto, using(crate::proofs::Members::members))]
fn pair_at(alloc: Global, rank: u64, set: &Set, at: usize) -> Result<Option<Indexed>, Memory>
    requires { at < length set.now }
    ensures { IfOk result (λ p. option_map pair_of p ≡ indexed_at rank set.now at) }
{
    match two_at(rank, set, at) {
        Some((index, value)) => Ok(Some(two_numbers(alloc, index, value)?)),
        None => {
            let member = set.member(alloc, at)?;
            let pair = read_pair(alloc, rank, &member);
            drop(member);
            pair
        }
    }
}

// The index of one number and the natural that the member at a place is a pair of.
#[tactic(auto, using(crate::proofs::Members::members))]
fn two_at(rank: u64, set: &Set, at: usize) -> Option<(u128, u128)>
    ensures { IfSome result (λ p. indexed_at rank set.now at ≡ Some (p.0 ∷ [], natural p.1)) }
{
    if rank == 1 { set.pair_at(at) } else { None }
}

fn two_numbers(alloc: Global, index: u128, value: u128) -> Result<Indexed, Memory>
    ensures { IfOk result (λ p. pair_of p ≡ (index ∷ [], natural value)) }
{
    let dims = vec![in alloc; index]?;
    Ok(Indexed {
        at: Dims { dims },
        value: Value::Nat(value),
    })
}

// The index and the value that a member is a pair of.
fn read_pair(alloc: Global, rank: u64, member: &Value) -> Result<Option<Indexed>, Memory>
    ensures { IfOk result (λ p. option_map pair_of p ≡ as_indexed rank (datum member.now)) }
{
    match member {
        Value::Row(parts) => read_parts(alloc, rank, parts.items()),
        _ => Ok(None),
    }
}

fn read_parts(alloc: Global, rank: u64, parts: &Items) -> Result<Option<Indexed>, Memory>
    ensures { IfOk result (λ p. option_map pair_of p ≡ indexed_pair rank parts.now) }
{
    if parts.items.len() != 2 {
        return Ok(None);
    }
    match numbers_of(alloc, rank, &parts.items[0])? {
        Some(at) => {
            let value = parts.items[1].copy(alloc)?;
            Ok(Some(Indexed { at, value }))
        }
        None => Ok(None),
    }
}

// The numbers of an index that is a value.
fn numbers_of(alloc: Global, rank: u64, index: &Value) -> Result<Option<Dims>, Memory>
    ensures { IfOk result (λ at. at ≡ index_numbers rank (datum index.now)) }
{
    if rank == 1 {
        return one_number(alloc, index);
    }
    match row_items(index) {
        Some(items) => {
            let numbers = naturals_of(alloc, items)?;
            Ok(with_rank(numbers, rank))
        }
        None => Ok(None),
    }
}

// The one number of an index of rank 1.
fn one_number(alloc: Global, index: &Value) -> Result<Option<Dims>, Memory>
    ensures { IfOk result (λ at. at ≡ index_numbers 1 (datum index.now)) }
{
    match index {
        Value::Nat(n) => {
            let dims = vec![in alloc; *n]?;
            Ok(Some(Dims { dims }))
        }
        _ => Ok(None),
    }
}

// The numbers that values are.
fn naturals_of(alloc: Global, parts: &Items) -> Result<Option<Dims>, Memory>
    ensures { IfOk result (λ ns. ns ≡ each as_natural parts.now) }
{
    let mut dims = Vec::new(alloc);
    for part in &parts.items {
        match natural_of(part) {
            Some(n) => dims.push(n)?,
            None => return Ok(None),
        }
    }
    Ok(Some(Dims { dims }))
}

// The natural that a value is.
fn natural_of(value: &Value) -> Option<u128>
    ensures { result ≡ as_natural (datum value.now) }
{
    match value {
        Value::Nat(n) => Some(*n),
        _ => None,
    }
}

// The parts of the tuple that a value is.
#[tactic(auto, using(aql_value::specs::Laws::Datum::data_lists))]
fn row_items(value: &Value) -> Option<&Items>
    ensures { option_map (λ items. items.now) result ≡ as_tuple (datum value.now) }
{
    match value {
        Value::Row(parts) => Some(parts.items()),
        _ => None,
    }
}

// The numbers, where there are as many as the rank.
fn with_rank(numbers: Option<Dims>, rank: u64) -> Option<Dims>
    ensures { result ≡ ranked_numbers rank numbers }
{
    match numbers {
        Some(at) => {
            if at.dims.len() as u64 == rank {
                Some(at)
            } else {
                None
            }
        }
        None => None,
    }
}

/// The pairs of one run and then those of another, each moved.
pub fn join_pairs(
    first: Option<Vec<Indexed>>,
    second: Option<Vec<Indexed>>,
) -> Result<Option<Vec<Indexed>>, Memory>
    ensures { IfOk result (λ ps. pairs_of ps ≡ lists_join (pairs_of first) (pairs_of second)) }
{
    match (first, second) {
        (Some(mut first), Some(mut second)) => {
            first.append(&mut second)?;
            Ok(Some(first))
        }
        _ => Ok(None),
    }
}

/// The array whose cell at an index is the set of the values paired with it, a turn for each
/// cell. Spent exactly where the cells pass the budget, before any is made.
pub fn index_pairs(
    alloc: Global,
    rank: u64,
    pairs: Option<Vec<Indexed>>,
    budget: u64,
) -> Result<Counted<Option<Held>>, EvalFault>
    requires { AreRanked rank (pairs_of pairs) }
    ensures { MakesArray budget rank (pairs_of pairs) result }
{
    let Some(pairs) = pairs else {
        return Ok(free(None));
    };
    if rank == 0 || rank > 8 {
        return Ok(free(None));
    }
    let extents = extents_of(alloc, rank, pairs.as_slice())?;
    let Some(dims) = in_range(alloc, extents)? else {
        return Ok(free(None));
    };
    let count = saturating_product(dims.dims.as_slice());
    if count > u128::from(budget) {
        return Err(EvalFault::Spent);
    }
    let cells = cells_of(alloc, &dims, pairs, count as usize)?;
    Ok(Counted {
        answer: table_of(dims, Some(cells))?,
        turns: count as u64,
    })
}

// The least dimensions that all the indices are below, where none stands for 2^128.
fn extents_of(alloc: Global, rank: u64, pairs: &[Indexed]) -> Result<Vec<Option<u128>>, Memory>
    ensures { IfOk result (λ ds. map extent ds.items ≡ dims_above rank (index_lists pairs.now)) }
{
    let mut dims = zero_extents(alloc, rank)?;
    let count = pairs.len();
    for k in 0..count {
        dims = raise_dims(alloc, &pairs[count - 1 - k].at, dims.as_slice())?;
    }
    Ok(dims)
}

fn zero_extents(alloc: Global, rank: u64) -> Result<Vec<Option<u128>>, Memory>
    ensures { IfOk result (λ ds. map extent ds.items ≡ map (λ j. 0) (below rank)) }
{
    let mut dims = Vec::new(alloc);
    for _i in 0..rank {
        dims.push(Some(0))?;
    }
    Ok(dims)
}

// The least dimensions that are no smaller and that one index more is below.
fn raise_dims(alloc: Global, at: &Dims, dims: &[Option<u128>]) -> Result<Vec<Option<u128>>, Memory>
    ensures { IfOk result (λ ds. map extent ds.items ≡ greater_dims at.now dims.now) }
{
    let mut all = Vec::new(alloc);
    let count = at.dims.len().min(dims.len());
    for j in 0..count {
        all.push(greater(at.dims[j], dims[j]))?;
    }
    Ok(all)
}

// The dimension, or one more than the number where that is greater.
fn greater(number: u128, dim: Option<u128>) -> Option<u128>
    ensures { extent result ≡ max (suc number) (extent dim) }
{
    match (number.checked_add(1), dim) {
        (Some(next), Some(dim)) => Some(next.max(dim)),
        _ => None,
    }
}

// The dimensions, where none passes 2^128-1.
fn in_range(alloc: Global, extents: Vec<Option<u128>>) -> Result<Option<Dims>, Memory>
    ensures { IfOk result (λ ds. ds ≡ ranged_dims (map extent extents.items)) }
{
    let mut dims = Vec::new(alloc);
    for dim in &extents {
        match dim {
            Some(dim) => dims = with_dim(dims, *dim)?,
            None => return Ok(None),
        }
    }
    Ok(Some(Dims { dims }))
}

fn with_dim(dims: Vec<u128>, dim: u128) -> Result<Vec<u128>, Memory>
    ensures { IfOk result (λ ds. (ds.items ≡ dims.items ++ dim ∷ []) × (dim < 2 ^ 128)) }
{
    let mut dims = dims;
    dims.push(dim)?;
    Ok(dims)
}

// The set of the values paired with each index.
fn cells_of(
    alloc: Global,
    dims: &Dims,
    pairs: Vec<Indexed>,
    count: usize,
) -> Result<Builder, Memory>
    requires { count ≡ product dims.now }
    ensures { IfOk result (λ cells. cells ≡ set_cells dims.now (pairs_in pairs)) }
{
    let groups = group_values(alloc, dims, pairs, count)?;
    sets_of(alloc, groups)
}

// The values paired with each index, in row-major order.
fn group_values(
    alloc: Global,
    dims: &Dims,
    pairs: Vec<Indexed>,
    count: usize,
) -> Result<Vec<Vec<Value>>, Memory>
    requires { count ≡ product dims.now }
    ensures { IfOk result (λ r. groups_in r ≡ values_by_index dims.now (pairs_in pairs)) }
{
    let mut groups = empty_groups(alloc, count)?;
    for pair in pairs {
        let Indexed { at, value } = pair;
        groups = group_value(groups, dims, &at, value)?;
    }
    Ok(groups)
}

// The values paired with each index, with one more pair.
fn group_value(
    groups: Vec<Vec<Value>>,
    dims: &Dims,
    at: &Dims,
    value: Value,
) -> Result<Vec<Vec<Value>>, Memory>
    requires { length groups.items ≡ product dims.now }
    ensures { IfOk result (λ r. PutsAt dims.now at.now value groups r) }
{
    if !is_below(at.dims.as_slice(), dims.dims.as_slice()) {
        return Ok(groups);
    }
    let number = offset_at(at.dims.as_slice(), dims.dims.as_slice());
    push_at(groups, number as usize, value)
}

fn push_at(groups: Vec<Vec<Value>>, number: usize, value: Value) -> Result<Vec<Vec<Value>>, Memory>
    requires { number < length groups.items }
    ensures { IfOk result (λ r. groups_in r ≡ push_group number (datum value) (groups_in groups)) }
{
    let mut groups = groups;
    groups[number].push(value)?;
    Ok(groups)
}

fn empty_groups(alloc: Global, count: usize) -> Result<Vec<Vec<Value>>, Memory>
    ensures { IfOk result (λ groups. map values_of groups.items ≡ replicate count []) }
{
    let mut groups = Vec::new(alloc);
    for _i in 0..count {
        groups.push(Vec::new(alloc))?;
    }
    Ok(groups)
}

// The set of values, as a value.
fn set_value(alloc: Global, items: Vec<Value>) -> Result<Value, Memory>
    ensures { IfOk result (λ v. datum v ≡ set_datum (values_of items)) }
{
    Ok(Value::Members(canon(alloc, Items { items })?))
}

fn sets_of(alloc: Global, groups: Vec<Vec<Value>>) -> Result<Builder, Memory>
    ensures { IfOk result (λ cells. cells ≡ map (λ g. set_datum (values_of g)) groups.items) }
{
    let mut cells = Builder::new(alloc);
    for items in groups {
        cells = with_cell(alloc, cells, set_value(alloc, items))?;
    }
    Ok(cells)
}
