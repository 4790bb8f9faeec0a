//! The text of a value.

ghost use Rattle.std.specs.Prelude.{◌≡◌, ◌++◌, map, codes, decimal, OnOk};
ghost use Rattle.aql_value.specs.Datum.{data_of};
ghost use Rattle.aql_value.specs.Meaning.{datum};
ghost use Rattle.aql_print.specs.Appends.{AppendsPrefix};
ghost use Rattle.aql_print.specs.Joined.{join_texts};
ghost use Rattle.aql_print.specs.ValueText.{text, texts, dims_text};

use crate::bytes::{put, put_before, put_number, put_quoted};
use aql_value::{Dims, Items, Memory, Value};
use std::alloc::Global;

/// Appends the text of a value. Where memory runs out, the old bytes and then a prefix of the text are left.
#[cycle(print_value)]
pub fn print_value(alloc: Global, v: &Value, out: &mut Vec<u8>) -> Result<(), Memory>
    ensures ok { OnOk result (out.new.items ≡ out.old.items ++ text (datum v.now)) }
    ensures prefix { AppendsPrefix out.old.items out.new.items (text (datum v.now)) }
{
    match v {
        Value::Nat(n) => put_number(*n, out),
        Value::Bool(b) => put(if *b { b"true" } else { b"false" }, out),
        Value::Text(s) => put_quoted(s.bytes.as_slice(), out),
        Value::Row(p) => put_enclosed(alloc, b"(", p.items(), b")", out),
        Value::Members(m) => put_enclosed(alloc, b"{", m.items(), b"}", out),
        Value::Grid(c) => {
            put(b"[[", out)?;
            put_dims(c.dims(), out)?;
            put_enclosed(alloc, b"; ", c.items(), b"]]", out)
        }
    }
}

// Appends the texts of values, with `, ` between each two, and what stands around them.
#[cycle(print_value)]
fn put_enclosed(
    alloc: Global,
    left: &[u8],
    items: &Items,
    right: &[u8],
    out: &mut Vec<u8>,
) -> Result<(), Memory>
    ensures ok { OnOk result (out.new.items ≡ out.old.items
        ++ (left.now ++ (join_texts (codes ", ") (texts (data_of items.now)) ++ right.now))) }
    ensures prefix { AppendsPrefix out.old.items out.new.items
        (left.now ++ (join_texts (codes ", ") (texts (data_of items.now)) ++ right.now)) }
{
    put(left, out)?;
    put_items(alloc, items, out)?;
    put(right, out)
}

// Appends the texts of values, with `, ` between each two.
#[cycle(print_value)]
fn put_items(alloc: Global, items: &Items, out: &mut Vec<u8>) -> Result<(), Memory>
    ensures ok { OnOk result (out.new.items ≡ out.old.items ++ join_texts (codes ", ")
        (texts (data_of items.now))) }
    ensures prefix { AppendsPrefix out.old.items out.new.items
        (join_texts (codes ", ") (texts (data_of items.now))) }
{
    for (i, x) in items.items.iter().enumerate() {
        put_before(i, b", ", out)?;
        print_value(alloc, x, out)?;
    }
    Ok(())
}

/// Appends dimensions, with `,` between each two.
pub(crate) fn put_dims(dims: &Dims, out: &mut Vec<u8>) -> Result<(), Memory>
    ensures ok { OnOk result (out.new.items ≡ out.old.items ++ dims_text dims.now) }
    ensures prefix { AppendsPrefix out.old.items out.new.items (dims_text dims.now) }
{
    for (i, d) in dims.dims.iter().enumerate() {
        put_before(i, b",", out)?;
        put_number(*d, out)?;
    }
    Ok(())
}
