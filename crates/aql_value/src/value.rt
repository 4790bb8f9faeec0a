ghost use Rattle.std.specs.Prelude.{◌≡◌, IfOk, if◌then◌else◌, nat_lt, length};
ghost use Rattle.std.specs.Prelude.{◌≤◌};
ghost use Rattle.std.specs.Option.{option_map};
ghost use Rattle.std.specs.Str.{bytes_eq};
ghost use Rattle.aql_value.specs.Indices.{table, cell, IsTable};
ghost use Rattle.aql_value.specs.Canon.{IsAscending};
ghost use Rattle.aql_value.specs.Meaning.{datum};
ghost use Rattle.aql_value.specs.Order.{kind};

use crate::indices::{Index, is_below, offset_at, saturating_product};
use crate::memory::Memory;
use std::alloc::Global;
use std::marker::Model;

/// A string: any bytes.
#[derive(Drop)]
pub struct Str {
    pub bytes: Vec<u8>,
}

impl Model for Str {
    ghost use Rattle.std.specs.Prelude.{List, ℕ};

    ghost Value = { List ℕ };

    ghost view = { λ s. s.bytes.items };
}

impl Str {
    /// Whether the string is these bytes.
    pub fn is(&self, bytes: &[u8]) -> bool
        ensures { result ≡ bytes_eq self.now bytes.now }
    {
        self.bytes.as_slice() == bytes
    }
}

/// The dimensions of an array, the outermost first.
#[derive(Drop)]
pub struct Dims {
    pub dims: Vec<u128>,
}

impl Model for Dims {
    ghost use Rattle.std.specs.Prelude.{List, ℕ};

    ghost Value = { List ℕ };

    ghost view = { λ s. s.dims.items };
}

/// A value.
#[cycle(value)]
#[derive(Drop)]
pub enum Value {
    Nat(u128),
    Bool(bool),
    Text(Str),
    Row(Parts),
    Members(Ascending),
    Grid(Cells),
}

/// A list of values.
#[cycle(value)]
#[derive(Drop)]
pub struct Items {
    pub items: Vec<Value>,
}

/// The parts of a tuple, of which there are two or more.
#[cycle(value)]
#[derive(Drop)]
pub struct Parts {
    parts: Items,
}

/// The members of a set, strictly ascending in the order of values.
#[cycle(value)]
#[derive(Drop)]
pub struct Ascending {
    pub(crate) members: Items,
}

/// An array: 1 to 8 dimensions, and a cell for each index in row-major order.
#[cycle(value)]
#[derive(Drop)]
pub struct Cells {
    dims: Dims,
    cells: Items,
}

impl Model for Items {
    ghost use Rattle.std.specs.Prelude.{List};
    ghost use Rattle.aql_value.specs.Datum.{Datum};
    ghost use Rattle.aql_value.specs.DatumCode.{coded_data};
    ghost use Rattle.aql_value.specs.NodeCount.{node_count_list};

    ghost Value = { List Datum };

    ghost coded = { coded_data };

    ghost use Rattle.std.specs.Prelude.{map};
    ghost use Rattle.aql_value.specs.Meaning.{datum};

    ghost view = { λ a. map datum a.items.items };

    ghost size = { node_count_list };

    ghost use Rattle.aql_value.specs.Laws.NodeCountFalls.{most_le-node_count};

    ghost size_decreases = { λ a h. most_le-node_count a.items.items };
}

impl Model for Parts {
    ghost use Rattle.std.specs.Prelude.{List, ◌≤◌, length};
    ghost use Rattle.aql_value.specs.Datum.{Datum};
    ghost use Rattle.aql_value.specs.DatumCode.{coded_data};
    ghost use Rattle.aql_value.specs.NodeCount.{node_count_list};

    ghost Value = { List Datum };

    ghost coded = { coded_data };

    ghost view = { λ a. a.parts };

    ghost invariant = { λ a. 2 ≤ length a.parts };

    ghost use Rattle.std.specs.Prelude.{suc};

    ghost size = { λ xs. suc (node_count_list xs) };

    ghost use Rattle.std.proofs.Common.{arith};

    ghost size_decreases = { λ a h. Prim.omega arith };
}

impl Model for Ascending {
    ghost use Rattle.std.specs.Prelude.{List};
    ghost use Rattle.aql_value.specs.Datum.{Datum};
    ghost use Rattle.aql_value.specs.DatumCode.{coded_data};
    ghost use Rattle.aql_value.specs.NodeCount.{node_count_list};

    ghost Value = { List Datum };

    ghost coded = { coded_data };

    ghost view = { λ a. a.members };

    ghost use Rattle.aql_value.specs.Canon.{IsAscending};

    ghost invariant = { λ a. IsAscending a.members };

    ghost use Rattle.std.specs.Prelude.{suc};

    ghost size = { λ xs. suc (node_count_list xs) };

    ghost use Rattle.std.proofs.Common.{arith};

    ghost size_decreases = { λ a h. Prim.omega arith };
}

impl Model for Cells {
    ghost use Rattle.aql_value.specs.Datum.{Table};
    ghost use Rattle.aql_value.specs.DatumCode.{coded_table};
    ghost use Rattle.aql_value.specs.NodeCount.{node_count_list};

    ghost Value = { Table };

    ghost coded = { coded_table };

    ghost view = { λ a. record { dims = a.dims; cells = a.cells } };

    ghost use Rattle.aql_value.specs.Indices.{IsTable};

    ghost invariant = { λ a. IsTable (record { dims = a.dims; cells = a.cells }) };

    ghost use Rattle.std.specs.Prelude.{suc};

    ghost size = { λ t. suc (node_count_list t.cells) };

    ghost use Rattle.std.proofs.Common.{arith};

    ghost size_decreases = { λ a h. Prim.omega arith };
}

impl Value {
    /// The place of the value's kind in the order of kinds.
    pub fn kind(&self) -> u8
        ensures { result ≡ kind (datum self.now) }
    {
        match self {
            Value::Nat(_) => 0,
            Value::Bool(_) => 1,
            Value::Text(_) => 2,
            Value::Row(_) => 3,
            Value::Members(_) => 4,
            Value::Grid(_) => 5,
        }
    }
}

impl Parts {
    /// None exactly where there are fewer than two items. It takes no memory.
    pub fn new(items: Items) -> Option<Parts>
        ensures { result ≡ (if nat_lt (length items) 2 then None else Some items) }
    {
        if items.items.len() < 2 {
            None
        } else {
            Some(Parts { parts: items })
        }
    }

    /// The items, of which there are two or more.
    pub fn items(&self) -> &Items
        ensures items { result.now ≡ self.now }
        ensures two { 2 ≤ length self.now }
    {
        &self.parts
    }

    /// The items themselves. It takes no memory.
    pub fn into_items(self) -> Items
        ensures items { result ≡ self }
        ensures two { 2 ≤ length self }
    {
        self.parts
    }

    /// An equal value of this type.
    #[cycle(copy)]
    pub fn copy(&self, alloc: Global) -> Result<Parts, Memory>
        ensures { IfOk result (λ r. r ≡ self.now) }
    {
        let parts = self.parts.copy(alloc)?;
        Ok(Parts { parts })
    }
}

impl Ascending {
    /// The members, which ascend.
    pub fn items(&self) -> &Items
        ensures items { result.now ≡ self.now }
        ensures ascending { IsAscending self.now }
    {
        &self.members
    }

    /// The members themselves, which ascend. It takes no memory.
    pub fn into_items(self) -> Items
        ensures items { result ≡ self }
        ensures ascending { IsAscending self }
    {
        self.members
    }

    /// An equal value of this type.
    #[cycle(copy)]
    pub fn copy(&self, alloc: Global) -> Result<Ascending, Memory>
        ensures { IfOk result (λ r. r ≡ self.now) }
    {
        let members = self.members.copy(alloc)?;
        Ok(Ascending { members })
    }
}

impl Cells {
    /// None exactly where the product of the dimensions isn't the number of items. The product
    /// has no upper end here, and dimensions may be huge beside a 0. It takes no memory.
    pub fn new(dims: Dims, items: Items) -> Option<Cells>
        requires some { 1 ≤ length dims }
        requires few { length dims ≤ 8 }
        ensures { result ≡ table dims items }
    {
        let count = items.items.len() as u128;
        if saturating_product(dims.dims.as_slice()) == count {
            Some(Cells { dims, cells: items })
        } else {
            None
        }
    }

    /// The cell at an index: none exactly where the number of indices isn't the rank or an index
    /// isn't below its dimension. It takes no memory.
    pub fn cell(&self, at: &Index) -> Option<&Value>
        ensures { option_map (λ v. datum v.now) result ≡ cell self.now at.now.items }
    {
        let kept = &self.dims;
        let cells = &self.cells;
        let dims = kept.dims.as_slice();
        let at = at.as_slice();
        if is_below(at, dims) {
            let place = offset_at(at, dims);
            cells.items.get(place as usize)
        } else {
            None
        }
    }

    /// The cells, of which there is one for each index.
    pub fn items(&self) -> &Items
        ensures items { result.now ≡ self.now.cells }
        ensures table { IsTable self.now }
    {
        &self.cells
    }

    /// The dimensions, of which there are 1 to 8.
    pub fn dims(&self) -> &Dims
        ensures { result.now ≡ self.now.dims }
    {
        &self.dims
    }

    /// The dimensions and the cells themselves. It takes no memory.
    pub fn into_parts(self) -> (Dims, Items)
        ensures dims { result.0 ≡ self.dims }
        ensures cells { result.1 ≡ self.cells }
        ensures table { IsTable self }
    {
        (self.dims, self.cells)
    }

    /// An equal value of this type.
    #[cycle(copy)]
    pub fn copy(&self, alloc: Global) -> Result<Cells, Memory>
        ensures { IfOk result (λ r. r ≡ self.now) }
    {
        let dims = self.dims.copy(alloc)?;
        let cells = self.cells.copy(alloc)?;
        Ok(Cells { dims, cells })
    }
}

// A `Value` may be sent to another thread, and lent to several.
fn crosses_threads<T: Send + Sync>(_value: &T) {}

fn value_crosses_threads(value: &Value) {
    crosses_threads(value);
}
