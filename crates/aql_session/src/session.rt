//! What is kept from one declaration to the next.
ghost use Rattle.std.specs.Prelude.{◌≡◌, ◌+◌, ◌-◌, ◌++◌, ◌∷◌, [], IfOk, OnOk, OnErr, length, map, take};
ghost use Rattle.std.specs.Option.{option_map};
ghost use Rattle.nrca_array.specs.Held.{held_datum};
ghost use Rattle.nrca_loops.specs.Values.{held_value};
ghost use Rattle.nrca_term.specs.Meaning.{outcome};
ghost use Rattle.aql_session.specs.Bound.{outcomes, latest_of};
ghost use Rattle.std.specs.Option.{ForSome};
ghost use Rattle.aql_value.specs.Valid.{IsValue};
ghost use Rattle.nrca_ranges.specs.Shapes.{bounds_there, shapes_in, PushesShape};
ghost use Rattle.aql_session.specs.Known.{HasShapeThere, kept_of};

use crate::shapes::shape_of_outcome;
use aql_names::names::Names;
use aql_value::{Memory, Str};
use nrca_array::Held;
use nrca_encoded::value_of;
use nrca_eval::Globals;
use nrca_ranges::{GlobalShapes, Shape};
use std::alloc::Global;
use std::marker::Model;

/// The positions that are bound, each with its name and its outcome.
#[derive(Drop)]
pub struct Session {
    // The outcomes in order.
    pub(crate) globals: Globals,
    // What is known of each of them.
    pub(crate) shapes: GlobalShapes,
    // The encodings of those that array-free forms used so far.
    pub(crate) encodings: Globals,
    // The names in order.
    pub(crate) names: Names,
}

impl Model for Session {
    ghost use Rattle.std.specs.Coded.{coded×, coded_list, coded_option, coded_ℕ};
    ghost use Rattle.aql_value.specs.DatumCode.{coded_datum};
    ghost use Rattle.aql_session.specs.Bound.{Bound};

    ghost Value = { Bound };

    ghost coded = { coded_list (coded× (coded_list coded_ℕ) (coded_option coded_datum)) };

    ghost use Rattle.std.specs.Prelude.{◌≡◌, length};
    ghost use Rattle.std.specs.List.{zip};
    ghost use Rattle.nrca_ranges.specs.Shapes.{shapes_in};
    ghost use Rattle.nrca_encoded.specs.Encodings.{AreEncodings};
    ghost use Rattle.aql_session.specs.Known.{Knows};

    ghost view = { λ s. zip s.names s.globals };

    ghost invariant = { λ s. (length s.names ≡ length s.globals)
        × Knows (shapes_in s.shapes) s.globals × AreEncodings s.globals s.encodings };
}

impl Session {
    /// A session in which nothing is bound.
    #[tactic(auto, using(nrca_encoded::specs::Laws::Encodings::no_encodings))]
    pub fn new(alloc: Global) -> Result<Session, Memory>
        ensures { IfOk result (λ s. s ≡ []) }
    {
        Ok(Session {
            globals: Globals {
                list: Vec::new(alloc),
            },
            shapes: GlobalShapes::new(alloc),
            encodings: Globals {
                list: Vec::new(alloc),
            },
            names: Names::new(alloc),
        })
    }

    /// The value of position n, counted from 1: none where it is undefined, a macro or not bound.
    pub fn value(&self, n: u64) -> Option<&Held>
        ensures { option_map (λ h. held_datum h.now) result ≡ outcome (outcomes self.now) n }
    {
        value_of(&self.globals, n)
    }

    /// The last position, counted from 1, that bound the name: none where none did.
    pub fn latest(&self, name: &Str) -> Option<u64>
        ensures { result ≡ latest_of self.now name.now }
    {
        let count = self.names.len();
        match self.names.latest(name) {
            Some(i) => {
                prove!(i < count);
                Some(i as u64 + 1)
            }
            None => None,
        }
    }

    /// Binds one position more, to a value of the language or to none. For want of memory nothing is
    /// bound.
    pub(crate) fn bind(
        &mut self,
        alloc: Global,
        name: &Str,
        value: Option<Held>,
    ) -> Result<(), Memory>
        requires valid { ForSome (held_value value) IsValue }
        ensures bound { OnOk result (self.new ≡ self.old ++ (name.now, held_value value) ∷ []) }
        ensures as_before { OnErr result (self.new ≡ self.old) }
    {
        let entry = entry_of(alloc, value)?;
        push_entry(
            alloc,
            &mut self.globals,
            &mut self.shapes,
            &mut self.names,
            name,
            entry,
        )?;
        Ok(())
    }
}

// What is bound at a position: its outcome, and what is known of that.
#[derive(Drop)]
pub(crate) struct Entry {
    value: Option<Held>,
    shape: Option<Shape>,
}

// The entry of an outcome.
fn entry_of(alloc: Global, value: Option<Held>) -> Result<Entry, Memory>
    ensures value { IfOk result (λ e. held_value e.value ≡ held_value value) }
    ensures shape { IfOk result (λ e. HasShapeThere (bounds_there e.shape) (held_value value)) }
    ensures exact { IfOk result (λ e. bounds_there e.shape ≡ kept_of (held_value value)) }
{
    match shape_of_outcome(alloc, &value) {
        Ok(shape) => Ok(Entry { value, shape }),
        Err(Memory) => {
            drop(value);
            Err(Memory)
        }
    }
}

// One outcome more, and what is known of it.
fn push_outcome(
    globals: &mut Globals,
    shapes: &mut GlobalShapes,
    value: Option<Held>,
    shape: Option<Shape>,
) -> Result<(), Memory>
    ensures pushed { OnOk result (globals.new ≡ globals.old ++ held_value value ∷ []) }
    ensures shaped { OnOk result (PushesShape shapes.old shape shapes.new) }
    ensures same_outcomes { OnErr result (globals.new ≡ globals.old) }
    ensures same_shapes { OnErr result (shapes_in shapes.new ≡ shapes_in shapes.old) }
{
    if shapes.push(shape).is_err() {
        drop(value);
        return Err(Memory);
    }
    if globals.list.push(value).is_err() {
        shapes.pop();
        return Err(Memory);
    }
    Ok(())
}

// All outcomes but the last.
fn pop_outcome(globals: &mut Globals, shapes: &mut GlobalShapes)
    ensures outcomes { globals.new ≡ take (length globals.old - 1) globals.old }
    ensures shapes { shapes_in shapes.new
        ≡ take (length (shapes_in shapes.old) - 1) (shapes_in shapes.old) }
{
    shapes.pop();
    drop(globals.list.pop());
}

// One position more, its name the last of the names.
fn push_entry(
    alloc: Global,
    globals: &mut Globals,
    shapes: &mut GlobalShapes,
    names: &mut Names,
    name: &Str,
    entry: Entry,
) -> Result<(), Memory>
    ensures pushed { OnOk result (globals.new ≡ globals.old ++ held_value entry.value ∷ []) }
    ensures shaped { OnOk result (PushesShape shapes.old entry.shape shapes.new) }
    ensures named { OnOk result (names.new ≡ names.old ++ name.now ∷ []) }
    ensures same_outcomes { OnErr result (globals.new ≡ globals.old) }
    ensures same_shapes { OnErr result (shapes_in shapes.new ≡ shapes_in shapes.old) }
    ensures same_names { OnErr result (names.new ≡ names.old) }
{
    let Entry { value, shape } = entry;
    push_outcome(globals, shapes, value, shape)?;
    match names.push(alloc, name) {
        Ok(()) => Ok(()),
        Err(Memory) => {
            pop_outcome(globals, shapes);
            Err(Memory)
        }
    }
}
