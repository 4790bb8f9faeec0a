//! Encoded values and types: printed.

use crate::tests::graph::texts::assert_text;
use crate::tests::values::{array, grid, set};
use aql_print::{print_scheme, print_value};
use aql_ty::ty::{Scheme, Ty};
use aql_value::made::{make_box, make_pair_list};
use aql_value::{Items, Memory, Value, canon};
use nrca_graph::{encode, encode_type};
use std::alloc::Global;
use std::mem::drop;

// 2 to the power of 127.
const HALF: u128 = 170141183460469231731687303715884105728;

fn items(
    alloc: Global,
    a: Result<Value, Memory>,
    b: Result<Value, Memory>,
) -> Result<Items, Memory> {
    Ok(Items {
        items: make_pair_list(alloc, a, b)?,
    })
}

fn set_of_both(
    alloc: Global,
    a: Result<Value, Memory>,
    b: Result<Value, Memory>,
) -> Result<Value, Memory> {
    Ok(Value::Members(canon(alloc, items(alloc, a, b)?)?))
}

fn encode_made(alloc: Global, v: Result<Value, Memory>) -> Result<Value, Memory> {
    let v = v?;
    let encoded = encode(alloc, &v);
    drop(v);
    encoded
}

// The text of the encoded value.
fn encoding(alloc: Global, v: Result<Value, Memory>) -> Result<Vec<u8>, Memory> {
    let encoded = encode_made(alloc, v)?;
    let mut out = Vec::new(alloc);
    let printed = print_value(alloc, &encoded, &mut out);
    drop(encoded);
    printed?;
    Ok(out)
}

#[test]
fn arrays(rt: HostRuntime) {
    let alloc = rt.alloc();
    assert_text(
        &rt,
        encoding(alloc, array(alloc, &[2, 2], &[0, 1, 10, 11])),
        b"((2, 2), {((0, 0), 0), ((0, 1), 1), ((1, 0), 10), ((1, 1), 11)})",
    );
    assert_text(
        &rt,
        encoding(alloc, array(alloc, &[1, 1, 1, 1, 1, 1, 1, 1], &[7])),
        b"((1, 1, 1, 1, 1, 1, 1, 1), {((0, 0, 0, 0, 0, 0, 0, 0), 7)})",
    );
    assert_text(
        &rt,
        encoding(alloc, array(alloc, &[HALF, 4, 0], &[])),
        b"((170141183460469231731687303715884105728, 4, 0), {})",
    );
}

#[test]
fn arrays_in_sets_and_sets_in_arrays(rt: HostRuntime) {
    let alloc = rt.alloc();
    let both = items(alloc, set(alloc, &[5]), set(alloc, &[]));
    assert_text(
        &rt,
        encoding(alloc, grid(alloc, &[2], both)),
        b"(2, {(0, {5}), (1, {})})",
    );
    let long = array(alloc, &[2], &[0, 0]);
    let short = array(alloc, &[1], &[9]);
    assert_text(
        &rt,
        encoding(alloc, set_of_both(alloc, long, short)),
        b"{(1, {(0, 9)}), (2, {(0, 0), (1, 0)})}",
    );
}

// The encoded type of an array of that rank and of numbers.
fn encoded_type(alloc: Global, rank: u64) -> Result<Ty, Memory> {
    let cell = make_box(alloc, Ok(Ty::Nat))?;
    let t = Ty::ArrayOf { rank, cell };
    let encoded = encode_type(alloc, &t);
    drop(t);
    encoded
}

// Its text.
fn encoding_of_type(alloc: Global, rank: u64) -> Result<Vec<u8>, Memory> {
    let scheme = Scheme::Value(encoded_type(alloc, rank)?);
    let mut out = Vec::new(alloc);
    let printed = print_scheme(alloc, &scheme, &mut out);
    drop(scheme);
    printed?;
    Ok(out)
}

#[test]
fn types(rt: HostRuntime) {
    let alloc = rt.alloc();
    assert_text(&rt, encoding_of_type(alloc, 1), b"nat * {nat * nat}");
    assert_text(
        &rt,
        encoding_of_type(alloc, 2),
        b"(nat * nat) * {(nat * nat) * nat}",
    );
}
