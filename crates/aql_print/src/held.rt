ghost use Rattle.std.specs.Prelude.{◌≡◌, ◌++◌, codes, OnOk};
ghost use Rattle.aql_value.specs.Datum.{data_of, set};
ghost use Rattle.aql_print.specs.Appends.{AppendsPrefix};
ghost use Rattle.aql_print.specs.Joined.{join_texts};
ghost use Rattle.aql_print.specs.ValueText.{text, texts};
ghost use Rattle.nrca_array.specs.Held.{held_datum, table_datum};

use crate::bytes::{put, put_before};
use crate::value::{print_value, put_dims};
use aql_value::Memory;
use nrca_array::{Flat, Held};
use nrca_sets::Set;
use std::alloc::Global;

/// Appends the text of a value that is held. A packed array or set is unpacked a cell or a member at a time. Where
/// memory runs out, the old bytes and then a prefix of the text are left.
pub fn print_held(alloc: Global, h: &Held, out: &mut Vec<u8>) -> Result<(), Memory>
    ensures ok { OnOk result (out.new.items ≡ out.old.items ++ text (held_datum h.now)) }
    ensures prefix { AppendsPrefix out.old.items out.new.items (text (held_datum h.now)) }
{
    match h {
        Held::Value(v) => print_value(alloc, v, out),
        Held::Flat(a) => put_array(alloc, a, out),
        Held::Set(s) => put_set(alloc, s, out),
    }
}

// Appends the text of an array.
fn put_array(alloc: Global, a: &Flat, out: &mut Vec<u8>) -> Result<(), Memory>
    ensures ok { OnOk result (out.new.items ≡ out.old.items ++ text (table_datum a.now)) }
    ensures prefix { AppendsPrefix out.old.items out.new.items (text (table_datum a.now)) }
{
    put(b"[[", out)?;
    put_dims(a.dims(), out)?;
    put(b"; ", out)?;
    put_cells(alloc, a, out)?;
    put(b"]]", out)?;
    Ok(())
}

// Appends the texts of the cells, with `, ` between each two.
fn put_cells(alloc: Global, a: &Flat, out: &mut Vec<u8>) -> Result<(), Memory>
    ensures ok { OnOk result (out.new.items ≡ out.old.items ++ join_texts (codes ", ")
        (texts (data_of a.now.cells))) }
    ensures prefix { AppendsPrefix out.old.items out.new.items
        (join_texts (codes ", ") (texts (data_of a.now.cells))) }
{
    for i in 0..a.len() {
        put_before(i, b", ", out)?;
        let cell = a.get(alloc, i)?;
        print_value(alloc, &cell, out)?;
    }
    Ok(())
}

// Appends the text of a set.
fn put_set(alloc: Global, s: &Set, out: &mut Vec<u8>) -> Result<(), Memory>
    ensures ok { OnOk result (out.new.items ≡ out.old.items ++ text (set (data_of s.now))) }
    ensures prefix { AppendsPrefix out.old.items out.new.items (text (set (data_of s.now))) }
{
    put(b"{", out)?;
    put_members(alloc, s, out)?;
    put(b"}", out)?;
    Ok(())
}

// Appends the texts of the members, with `, ` between each two.
fn put_members(alloc: Global, s: &Set, out: &mut Vec<u8>) -> Result<(), Memory>
    ensures ok { OnOk result (out.new.items ≡ out.old.items ++ join_texts (codes ", ")
        (texts (data_of s.now))) }
    ensures prefix { AppendsPrefix out.old.items out.new.items
        (join_texts (codes ", ") (texts (data_of s.now))) }
{
    for i in 0..s.count() {
        put_before(i, b", ", out)?;
        let member = s.member(alloc, i)?;
        print_value(alloc, &member, out)?;
    }
    Ok(())
}
