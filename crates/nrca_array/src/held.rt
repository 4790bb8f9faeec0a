ghost use Rattle.std.specs.Prelude.{◌≡◌, IfOk};
ghost use Rattle.aql_value.specs.Meaning.{datum};
ghost use Rattle.nrca_array.specs.Held.{held_datum};

use crate::flat::Flat;
use aql_value::{Memory, Value};
use nrca_sets::Set;
use std::alloc::Global;

/// A value as it is kept: an array or a set perhaps packed, every other value as it is.
#[derive(Drop)]
pub enum Held {
    Value(Value),
    Flat(Flat),
    Set(Set),
}

impl Held {
    /// The same value.
    pub fn to_value(&self, alloc: Global) -> Result<Value, Memory>
        ensures { IfOk result (λ v. datum v ≡ held_datum self.now) }
    {
        match self {
            Held::Value(value) => value.copy(alloc),
            Held::Flat(flat) => Ok(Value::Grid(flat.to_cells(alloc)?)),
            Held::Set(set) => set.to_value(alloc),
        }
    }

    /// An equal value, kept in the same way.
    pub fn copy(&self, alloc: Global) -> Result<Held, Memory>
        ensures { IfOk result (λ v. held_datum v ≡ held_datum self.now) }
    {
        match self {
            Held::Value(value) => Ok(Held::Value(value.copy(alloc)?)),
            Held::Flat(flat) => Ok(Held::Flat(flat.copy(alloc)?)),
            Held::Set(set) => Ok(Held::Set(set.copy(alloc)?)),
        }
    }
}
