//! The encodings of the positions that terms use.

ghost use Rattle.std.specs.Prelude.{◌≡◌, ◌≤◌, ◌-◌, ◌<◌, IfOk, OnOk, OnErr, Some, length, slice_set, vec_len};
ghost use Rattle.std.specs.Option.{option_map};
ghost use Rattle.aql_value.specs.Meaning.{datum};
ghost use Rattle.nrca_array.specs.Held.{held_datum};
ghost use Rattle.nrca_loops.specs.Values.{held_value};
ghost use Rattle.nrca_graph.specs.Encoding.{encode_outcome, encoding};
ghost use Rattle.nrca_term.specs.Meaning.{outcome};
ghost use Rattle.nrca_term.specs.Term.{form_of, parts_of};
ghost use Rattle.nrca_term.specs.View.{term_of};
ghost use Rattle.nrca_encoded.specs.Encodings.{AreEncodings, IsKept, KeepsEncodings, outcomes_in, PutsValue, ReachesTo, SameOutcomes};
ghost use Rattle.nrca_encoded.specs.Positions.{EachPosition, EachPositionIn, position_of};

use aql_value::{Memory, Value};
use nrca_array::Held;
use nrca_graph::encode;
use nrca_loops::Globals;
use nrca_term::Core;
use std::alloc::Global;

/// Encodes the outcomes of the positions that a term uses, where they are not kept yet, and keeps
/// them.
#[cycle(encode_positions)]
pub(crate) fn encode_positions(
    alloc: Global,
    term: &Core,
    globals: &Globals,
    encodings: &mut Globals,
) -> Result<(), Memory>
    requires kept { AreEncodings globals.now encodings.old }
    ensures kept { AreEncodings globals.now encodings.new }
    ensures still { KeepsEncodings globals.now encodings.old encodings.new }
    ensures used { OnOk result
        (EachPosition (IsKept globals.now encodings.new) (term_of term.now)) }
{
    match position(term) {
        Some(n) => encode_position(alloc, n, globals, encodings),
        None => encode_in_parts(alloc, term, globals, encodings),
    }
}

#[cycle(encode_positions)]
fn encode_in_parts(
    alloc: Global,
    term: &Core,
    globals: &Globals,
    encodings: &mut Globals,
) -> Result<(), Memory>
    requires kept { AreEncodings globals.now encodings.old }
    ensures kept { AreEncodings globals.now encodings.new }
    ensures still { KeepsEncodings globals.now encodings.old encodings.new }
    ensures used { OnOk result
        (EachPositionIn (IsKept globals.now encodings.new) (parts_of (term_of term.now))) }
{
    for i in 0..term.parts() {
        if let Some(part) = term.part(i) {
            encode_positions(alloc, part, globals, encodings)?;
        }
    }
    Ok(())
}

// The number of the position that the term is. None where it is another form.
fn position(term: &Core) -> Option<u64>
    ensures { result ≡ position_of (form_of (term_of term.now)) }
{
    match term {
        Core::Global(n) => Some(*n),
        _ => None,
    }
}

// Encodes the outcome of position n, where it is a value and nothing is kept of it.
fn encode_position(
    alloc: Global,
    n: u64,
    globals: &Globals,
    encodings: &mut Globals,
) -> Result<(), Memory>
    requires kept { AreEncodings globals.now encodings.old }
    ensures kept { AreEncodings globals.now encodings.new }
    ensures still { KeepsEncodings globals.now encodings.old encodings.new }
    ensures there { OnOk result (IsKept globals.now encodings.new n) }
{
    if value_of(encodings, n).is_some() {
        return Ok(());
    }
    match value_of(globals, n) {
        Some(held) => keep_encoding(alloc, n, held, encodings),
        None => Ok(()),
    }
}

// Keeps the encoding of a value at position n.
fn keep_encoding(alloc: Global, n: u64, held: &Held, encodings: &mut Globals) -> Result<(), Memory>
    requires first { 1 ≤ n }
    ensures put { OnOk result
        (PutsValue encodings.old n (encoding (held_datum held.now)) encodings.new) }
    ensures same { OnErr result (SameOutcomes encodings.old encodings.new) }
    ensures few { ReachesTo n encodings.old encodings.new }
{
    make_room(&mut encodings.list, n as usize)?;
    let value = encode_held(alloc, held)?;
    put_value(&mut encodings.list, n as usize, value);
    Ok(())
}

// Places for n positions, those that are new without a value.
fn make_room(list: &mut Vec<Option<Held>>, n: usize) -> Result<(), Memory>
    ensures same { SameOutcomes (outcomes_in list.old.items) (outcomes_in list.new.items) }
    ensures few { ReachesTo n (outcomes_in list.old.items) (outcomes_in list.new.items) }
    ensures room { OnOk result (n ≤ vec_len list.new) }
{
    'places: while list.len() < n {
        list.push(None)?;
    }
    Ok(())
}

// The value at a place that is counted from 1.
fn put_value(list: &mut Vec<Option<Held>>, n: usize, value: Value)
    requires first { 1 ≤ n }
    requires last { n ≤ vec_len list.old }
    ensures put { PutsValue (outcomes_in list.old.items) n (datum value)
        (outcomes_in list.new.items) }
    ensures length { vec_len list.new ≡ vec_len list.old }
{
    list[n - 1] = Some(Held::Value(value));
}

// The encoding of a value as it is held.
fn encode_held(alloc: Global, held: &Held) -> Result<Value, Memory>
    ensures { IfOk result (λ w. datum w ≡ encoding (held_datum held.now)) }
{
    match held {
        Held::Value(value) => encode(alloc, value),
        Held::Flat(flat) => {
            let array = Value::Grid(flat.to_cells(alloc)?);
            let made = encode(alloc, &array);
            drop(array);
            made
        }
        Held::Set(set) => {
            let members = set.to_value(alloc)?;
            let made = encode(alloc, &members);
            drop(members);
            made
        }
    }
}

/// The value of position n, counted from 1: none where it has none or there is no such position.
pub fn value_of(globals: &Globals, n: u64) -> Option<&Held>
    ensures { option_map (λ h. held_datum h.now) result ≡ outcome globals.now n }
{
    value_at(globals.list.as_slice(), n)
}

// The value at a place that is counted from 1.
fn value_at(list: &[Option<Held>], n: u64) -> Option<&Held>
    ensures { option_map (λ h. held_datum h.now) result ≡ outcome (outcomes_in list.now) n }
{
    if n == 0 {
        return None;
    }
    let i = (n - 1) as usize;
    if i < list.len() {
        list[i].as_ref()
    } else {
        None
    }
}
