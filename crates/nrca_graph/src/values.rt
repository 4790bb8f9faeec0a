//! The encoding of values.

ghost use Rattle.std.specs.Prelude.{◌≡◌, ◌<◌, ◌≤◌, length, map, IfOk, IsOkAnd};
ghost use Rattle.aql_value.specs.Datum.{array, data_of};
ghost use Rattle.aql_value.specs.Indices.{product, indices};
ghost use Rattle.aql_value.specs.Meaning.{datum};
ghost use Rattle.aql_value.specs.Operations.{index_value};
ghost use Rattle.nrca_graph.specs.Encoding.{encoding, graph, IsPairAt};
ghost use Rattle.nrca_graph.specs.EncodingOrder.{IsOrderedAs};
ghost use Rattle.nrca_graph.specs.Coded.{IsPair, graph_set};

use aql_value::made::{make_pair_list, naturals};
use aql_value::{Ascending, Cells, Items, Memory, Parts, Value, canon};
use nrca_loops::{set_index, zeros};
use std::alloc::Global;

/// The value without arrays: an array is the pair of its dimensions, a natural or from rank 2 a tuple of naturals, and the
/// set of its pairs of an index and the encoded cell. Any other value keeps its kind, its parts encoded.
pub fn encode(alloc: Global, v: &Value) -> Result<Value, Memory>
    ensures encoded { IfOk result (λ w. datum w ≡ encoding (datum v.now)) }
    ensures order { IfOk result (λ w. IsOrderedAs (datum v.now) (datum w)) }
{
    encode_value(alloc, v)
}

#[cycle(encode)]
fn encode_value(alloc: Global, v: &Value) -> Result<Value, Memory>
    ensures { IfOk result (λ w. datum w ≡ encoding (datum v.now)) }
{
    match v {
        Value::Nat(n) => Ok(Value::Nat(*n)),
        Value::Bool(b) => Ok(Value::Bool(*b)),
        Value::Text(s) => Ok(Value::Text(s.copy(alloc)?)),
        Value::Row(p) => {
            let items = encode_items(alloc, p.items())?;
            match Parts::new(items) {
                Some(parts) => Ok(Value::Row(parts)),
                None => unreachable!(),
            }
        }
        Value::Members(m) => {
            let items = encode_items(alloc, m.items())?;
            Ok(Value::Members(canon(alloc, items)?))
        }
        Value::Grid(c) => encode_array(alloc, c),
    }
}

#[cycle(encode)]
fn encode_items(alloc: Global, items: &Items) -> Result<Items, Memory>
    ensures { IfOk result (λ made. made ≡ map encoding items.now) }
{
    let mut made = Vec::new(alloc);
    for v in items.items.iter() {
        let encoded = encode_value(alloc, v)?;
        made.push(encoded)?;
    }
    Ok(Items { items: made })
}

#[cycle(encode)]
fn encode_array(alloc: Global, c: &Cells) -> Result<Value, Memory>
    ensures { IfOk result (λ w. datum w ≡ encoding (array c.now.dims (data_of c.now.cells))) }
{
    let dims = c.dims().dims.as_slice();
    let graph = encode_graph(alloc, dims, c.items());
    pair_value(alloc, index_value(alloc, dims), graph)
}

#[cycle(encode)]
fn encode_graph(alloc: Global, dims: &[u128], cells: &Items) -> Result<Value, Memory>
    requires some { 1 ≤ length dims.now }
    requires full { product dims.now ≡ length cells.now }
    ensures { IfOk result (λ w. datum w ≡ graph_set dims.now cells.now) }
{
    let mut at = zeros(alloc, dims.len())?;
    let pairs = encode_pairs(alloc, dims, at.as_mut_slice(), cells)?;
    Ok(Value::Members(Ascending::from_sorted(pairs)))
}

// Each index and its encoded cell, in row-major order, in which the pairs ascend.
#[cycle(encode)]
fn encode_pairs(
    alloc: Global,
    dims: &[u128],
    at: &mut [u128],
    cells: &Items,
) -> Result<Items, Memory>
    requires some { 1 ≤ length dims.now }
    requires rank { length at.old ≡ length dims.now }
    requires full { product dims.now ≡ length cells.now }
    ensures { IfOk result (λ made. made ≡ graph (indices dims.now) (map encoding cells.now)) }
{
    let mut pairs = Vec::new(alloc);
    for (place, cell) in cells.items.iter().enumerate() {
        let cell = encode_value(alloc, cell);
        let pair = pair_at(alloc, dims, place as u128, at, cell)?;
        pairs.push(pair)?;
    }
    Ok(Items { items: pairs })
}

// A cell beside the index that stands at its place.
fn pair_at(
    alloc: Global,
    dims: &[u128],
    place: u128,
    at: &mut [u128],
    cell: Result<Value, Memory>,
) -> Result<Value, Memory>
    requires some { 1 ≤ length dims.now }
    requires rank { length at.old ≡ length dims.now }
    requires within { place < product dims.now }
    ensures { IfOk result (λ w. IsOkAnd cell (λ c. IsPairAt dims.now place (datum c) (datum w))) }
{
    set_index(dims, place, at);
    pair_value(alloc, index_value(alloc, at), cell)
}

// Both as a tuple.
fn pair_value(
    alloc: Global,
    v: Result<Value, Memory>,
    w: Result<Value, Memory>,
) -> Result<Value, Memory>
    ensures { IfOk result (λ u. IsOkAnd v (λ a. IsOkAnd w (λ b. IsPair a b u))) }
{
    let items = make_pair_list(alloc, v, w)?;
    match Parts::new(Items { items }) {
        Some(parts) => Ok(Value::Row(parts)),
        None => unreachable!(),
    }
}

// An index as a value: one number, or a tuple of numbers.
#[tactic(auto, using(crate::proofs::ValueSteps::index_steps))]
fn index_value(alloc: Global, at: &[u128]) -> Result<Value, Memory>
    requires { 1 ≤ length at.now }
    ensures { IfOk result (λ made. datum made ≡ index_value at.now) }
{
    if at.len() == 1 {
        return Ok(Value::Nat(at[0]));
    }
    let items = naturals(alloc, at)?;
    match Parts::new(items) {
        Some(parts) => Ok(Value::Row(parts)),
        None => unreachable!(),
    }
}
