//! That what is held is a value of the language.

ghost use Rattle.std.specs.Prelude.{◌<◌, ◌^◌};
ghost use Rattle.std.specs.List.{All};
ghost use Rattle.aql_value.specs.Valid.{IsValue};
ghost use Rattle.nrca_array.specs.Held.{held_datum, table_datum};

use crate::flat::Flat;
use crate::held::Held;
use aql_value::{Dims, numbers_fit, valid};

/// Shows that what is held obeys the rules of its kind, at every level: anything that is held does.
/// Packed cells and members are not visited. It takes no memory.
pub fn valid_held(held: &Held)
    ensures { IsValue (held_datum held.now) }
{
    match held {
        Held::Value(value) => valid(value),
        Held::Flat(flat) => valid_flat(flat),
        Held::Set(set) => set.valid(),
    }
}

fn valid_flat(flat: &Flat)
    ensures { IsValue (table_datum flat.now) }
{
    dims_fit(flat.dims());
    flat.valid_cells();
}

// What the types of the dimensions say of them.
fn dims_fit(dims: &Dims)
    ensures { All (λ d. d < 2 ^ 128) dims.now }
{
    numbers_fit(dims.dims.as_slice());
}
