ghost use Rattle.std.specs.Prelude.{◌≡◌, ◌<◌, ◌≤◌, length, IfOk, slice_get, slice_range, Some, option_map};
ghost use Rattle.std.specs.List.Sorted.{IsStrictlySortedBy};
ghost use Rattle.aql_value.specs.Meaning.{datum};
ghost use Rattle.aql_value.specs.Indices.{cell, IsTable};
ghost use Rattle.aql_value.specs.Datum.{natural, data_of};
ghost use Rattle.aql_value.specs.Valid.{AreValues};
ghost use Rattle.nrca_sets.specs.Pairs.{pair_cmp};
ghost use Rattle.nrca_array.specs.Groups.{seconds_table};
ghost use Rattle.nrca_array.specs.Packing.{packing};
ghost use Rattle.nrca_array.specs.CellNumbers.{IsCellNumber, natural_cell, natural_of};
ghost use Rattle.nrca_array.specs.Stored.{kept_cells, IsKept};

use crate::builder::Builder;
use crate::groups::Groups;
use crate::numbers::Numbers;
use crate::pairs::Pairs;
use crate::truths::Truths;
use crate::values::pair_value;
use aql_value::{Cells, Dims, Index, Items, Memory, Value, all_valid, is_below, offset_at};
use std::alloc::Global;
use std::marker::Model;

/// An array, its cells in row-major order. One cell or more that are all naturals, all truth
/// values or all pairs of a truth value and a natural are packed. Of an array of sets of naturals
/// that is made of pairs the members are kept one after the other. Contracts see the dimensions and
/// the cells.
#[derive(Drop)]
pub struct Flat {
    dims: Dims,
    cells: FlatCells,
}

/// The cells of an array, packed where they can be.
#[derive(Drop)]
pub(crate) enum FlatCells {
    Plain(Items),
    Naturals(Numbers),
    Truths(Truths),
    Pairs(Pairs),
    Groups(Groups),
}

impl Model for Flat {
    ghost use Rattle.aql_value.specs.Datum.{Table};
    ghost use Rattle.aql_value.specs.DatumCode.{coded_table};

    ghost Value = { Table };

    ghost coded = { coded_table };

    ghost use Rattle.nrca_array.specs.Stored.{kept_cells, kept_table, IsKept};

    ghost view = { λ a. record { dims = a.dims; cells = kept_cells a.cells } };

    ghost use Rattle.aql_value.specs.Indices.{IsTable};

    ghost invariant = { λ a. IsTable (kept_table a.dims a.cells) × IsKept a.cells };
}

impl Flat {
    // The array of these dimensions and cells.
    pub(crate) fn new(dims: Dims, cells: FlatCells) -> Flat
        requires table { IsTable (record { dims = dims; cells = kept_cells cells }) }
        requires packed { IsKept cells }
        ensures { result ≡ record { dims = dims; cells = kept_cells cells } }
    {
        Flat { dims, cells }
    }

    /// The same array, packed where it can be.
    pub fn from_cells(alloc: Global, cells: Cells) -> Result<Flat, Memory>
        ensures { IfOk result (λ flat. flat ≡ cells) }
    {
        let (dims, items) = cells.into_parts();
        let mut packed = Builder::new(alloc);
        for value in items.items {
            packed = packed.push(alloc, value)?;
        }
        packed.shape_cells(dims)
    }

    /// The array of rank 1 that has so many cells: at an index the set of the second numbers of the
    /// pairs with that first number. It takes 8 bytes a pair and 8 a cell.
    pub fn of_pairs(alloc: Global, pairs: &[(u64, u64)], count: usize) -> Result<Flat, Memory>
        requires { IsStrictlySortedBy pair_cmp pairs.now }
        ensures { IfOk result (λ flat. flat ≡ seconds_table count pairs.now) }
    {
        let cells = Groups::of_pairs(alloc, pairs, count)?;
        let dims = vec![in alloc; count as u128]?;
        Ok(Flat::new(Dims { dims }, FlatCells::Groups(cells)))
    }

    /// The dimensions, of which there are 1 to 8. It takes no memory.
    pub fn dims(&self) -> &Dims
        ensures dims { result.now ≡ self.now.dims }
        ensures table { IsTable self.now }
    {
        &self.dims
    }

    /// How many cells. It takes no memory.
    pub fn len(&self) -> usize
        ensures { result ≡ length self.now.cells }
    {
        self.cells.len()
    }

    /// The cell of a row-major number.
    pub fn get(&self, alloc: Global, at: usize) -> Result<Value, Memory>
        requires { at < length self.now.cells }
        ensures { IfOk result (λ v. slice_get self.now.cells at ≡ Some (datum v)) }
    {
        self.cells.get(alloc, at)
    }

    /// The cell at an index: none exactly where the number of indices isn't the rank or an index
    /// isn't below its dimension.
    pub fn cell(&self, alloc: Global, at: &Index) -> Result<Option<Value>, Memory>
        ensures { IfOk result (λ v. option_map datum v ≡ cell self.now at.now.items) }
    {
        match self.cell_number(at.as_slice()) {
            Some(place) => Ok(Some(self.cells.get(alloc, place)?)),
            None => Ok(None),
        }
    }

    /// The natural that the cell at an index is, where the cells are all naturals: none of any other
    /// array, and where there is no such cell. It takes no memory.
    pub fn natural_at(&self, at: &[u128]) -> Option<u128>
        ensures { option_map natural result ≡ natural_cell self.now at.now }
    {
        match self.cell_number(at) {
            Some(place) => self.cells.natural_at(place),
            None => None,
        }
    }

    // The row-major number of an index: none where there is no such cell.
    fn cell_number(&self, at: &[u128]) -> Option<usize>
        ensures { IsCellNumber self.now at.now result }
    {
        let _count = self.cells.len();
        let kept = &self.dims;
        let dims = kept.dims.as_slice();
        if is_below(at, dims) {
            let place = offset_at(at, dims);
            Some(place as usize)
        } else {
            None
        }
    }

    /// The cells of the row-major numbers from one up to another.
    pub fn window(&self, alloc: Global, from: u64, to: u64) -> Result<Items, Memory>
        requires order { from ≤ to }
        requires within { to ≤ length self.now.cells }
        ensures { IfOk result (λ items. items ≡ slice_range self.now.cells from to) }
    {
        let mut items = Vec::new(alloc);
        for i in from..to {
            items.push(self.cells.get(alloc, i as usize)?)?;
        }
        Ok(Items { items })
    }

    /// The width in bits and the bytes of an array that is packed: one cell or more, which are
    /// all naturals, or all truth values, or all pairs of a truth value and a natural. None of
    /// any other. The width is the least of 8, 16, 32, 64 and 128 in which each natural fits, and
    /// 8 of truth values. Naturals stand in row-major order, each in its width, the lowest byte
    /// first; a truth value is the byte 0 or 1; of pairs the naturals of all come first, and then
    /// a truth byte for each. It takes no memory.
    pub fn packed(&self) -> Option<(u64, &[u8])>
        ensures { option_map (λ p. (p.0, p.1.now)) result ≡ packing self.now.cells }
    {
        self.cells.packed_bytes()
    }

    // Shows that the cells are values of the language.
    pub(crate) fn valid_cells(&self)
        ensures cells { AreValues (data_of self.now.cells) }
        ensures table { IsTable self.now }
    {
        self.cells.valid();
    }

    /// The same array as `Cells`.
    pub fn to_cells(&self, alloc: Global) -> Result<Cells, Memory>
        ensures { IfOk result (λ cells. cells ≡ self.now) }
    {
        let dims = self.dims.copy(alloc)?;
        let items = self.window(alloc, 0, self.len() as u64)?;
        match Cells::new(dims, items) {
            Some(cells) => Ok(cells),
            None => unreachable!(),
        }
    }

    /// An equal array.
    pub fn copy(&self, alloc: Global) -> Result<Flat, Memory>
        ensures { IfOk result (λ flat. flat ≡ self.now) }
    {
        let dims = self.dims.copy(alloc)?;
        let cells = self.cells.copy(alloc)?;
        Ok(Flat { dims, cells })
    }
}

impl FlatCells {
    // How many cells.
    fn len(&self) -> usize
        ensures { result ≡ length (kept_cells self.now) }
    {
        match self {
            FlatCells::Plain(items) => items.items.len(),
            FlatCells::Naturals(numbers) => numbers.len(),
            FlatCells::Truths(truths) => truths.len(),
            FlatCells::Pairs(pairs) => pairs.len(),
            FlatCells::Groups(groups) => groups.len(),
        }
    }

    // The cell of a row-major number.
    fn get(&self, alloc: Global, at: usize) -> Result<Value, Memory>
        requires { at < length (kept_cells self.now) }
        ensures { IfOk result (λ v. slice_get (kept_cells self.now) at ≡ Some (datum v)) }
    {
        match self {
            FlatCells::Plain(items) => items.items[at].copy(alloc),
            FlatCells::Naturals(numbers) => Ok(Value::Nat(numbers.get(at))),
            FlatCells::Truths(truths) => Ok(Value::Bool(truths.get(at))),
            FlatCells::Pairs(pairs) => {
                let (b, n) = pairs.get(at);
                pair_value(alloc, b, n)
            }
            FlatCells::Groups(groups) => groups.get(alloc, at),
        }
    }

    // The natural of a row-major number, where the cells are all naturals.
    #[tactic(auto, using(crate::proofs::CellKinds::others))]
    fn natural_at(&self, at: usize) -> Option<u128>
        requires within { at < length (kept_cells self.now) }
        requires packed { IsKept self.now }
        ensures { option_map natural result ≡ natural_of (kept_cells self.now) at }
    {
        match self {
            FlatCells::Naturals(numbers) => Some(numbers.get(at)),
            _ => None,
        }
    }

    // The width in bits and the bytes of cells that are packed.
    #[tactic(auto, using(crate::proofs::CellKinds::lent))]
    fn packed_bytes(&self) -> Option<(u64, &[u8])>
        requires { IsKept self.now }
        ensures { option_map (λ p. (p.0, p.1.now)) result ≡ packing (kept_cells self.now) }
    {
        match self {
            FlatCells::Plain(_) => None,
            FlatCells::Naturals(numbers) => Some(numbers.lend()),
            FlatCells::Truths(truths) => Some((8, truths.lend())),
            FlatCells::Pairs(pairs) => Some(pairs.lend()),
            FlatCells::Groups(_) => None,
        }
    }

    // Shows that the cells are values of the language.
    #[tactic(auto, using(crate::proofs::Fitting::naturals_valued, crate::proofs::Fitting::truths_valued, crate::proofs::Fitting::pairs_valued))]
    fn valid(&self)
        ensures { AreValues (data_of (kept_cells self.now)) }
    {
        match self {
            FlatCells::Plain(items) => all_valid(items),
            FlatCells::Naturals(numbers) => numbers.fit(),
            FlatCells::Truths(_) => (),
            FlatCells::Pairs(pairs) => pairs.fit(),
            FlatCells::Groups(groups) => groups.valid(),
        }
    }

    // Equal cells, kept in the same way.
    fn copy(&self, alloc: Global) -> Result<FlatCells, Memory>
        ensures cells { IfOk result (λ cells. kept_cells cells ≡ kept_cells self.now) }
        ensures packed { IfOk result (λ cells. IsKept self.now → IsKept cells) }
    {
        Ok(match self {
            FlatCells::Plain(items) => FlatCells::Plain(items.copy(alloc)?),
            FlatCells::Naturals(numbers) => FlatCells::Naturals(numbers.copy(alloc)?),
            FlatCells::Truths(truths) => FlatCells::Truths(truths.copy(alloc)?),
            FlatCells::Pairs(pairs) => FlatCells::Pairs(pairs.copy(alloc)?),
            FlatCells::Groups(groups) => FlatCells::Groups(groups.copy(alloc)?),
        })
    }
}
