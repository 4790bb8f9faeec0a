ghost use Rattle.std.specs.Prelude.{◌≡◌, ◌≤◌, [], ◌∷◌, ◌++◌, length, map, IfOk};
ghost use Rattle.aql_value.specs.Datum.{natural, truth};
ghost use Rattle.aql_value.specs.Operations.{as_natural, as_truth};
ghost use Rattle.aql_value.specs.Meaning.{datum};
ghost use Rattle.aql_value.specs.Indices.{table, IsTable};
ghost use Rattle.nrca_array.specs.Packing.{as_pair, pair_datum, packing};
ghost use Rattle.nrca_array.specs.Kept.{paired_up};
ghost use Rattle.nrca_array.specs.Runs.{IsWidth, IsWhole, AppendsRun, run_numbers};
ghost use Rattle.nrca_array.specs.Stored.{store_cells, IsStored, kept_cells, IsKept, pair_cells};

use crate::flat::{Flat, FlatCells};
use crate::numbers::Numbers;
use crate::pairs::Pairs;
use crate::run::{Run, RunError};
use crate::truths::Truths;
use crate::values::{pair_of, pair_value};
use aql_value::{Dims, Items, Memory, Value, saturating_product};
use std::alloc::Global;
use std::marker::Model;

/// The cells of an array that is being made, taken one at a time, and packed as they come.
/// Contracts see the list of the cells so far.
#[derive(Drop)]
pub struct Builder {
    cells: Store,
}

/// Cells by their kind. Naturals, truth values and pairs are kept packed, in the least width in
/// which all of them fit; any other list is kept as values.
#[derive(Drop)]
pub(crate) enum Store {
    Plain(Items),
    Naturals(Numbers),
    Truths(Truths),
    Pairs(Numbers, Truths),
}

impl Model for Builder {
    ghost use Rattle.std.specs.Prelude.{List};
    ghost use Rattle.aql_value.specs.Datum.{Datum};
    ghost use Rattle.aql_value.specs.DatumCode.{coded_data};

    ghost Value = { List Datum };

    ghost coded = { coded_data };

    ghost use Rattle.nrca_array.specs.Stored.{store_cells, IsStored};

    ghost view = { λ a. store_cells a.cells };

    ghost invariant = { λ a. IsStored a.cells };
}

impl Builder {
    /// No cells. It takes no memory.
    pub fn new(alloc: Global) -> Builder
        ensures { result ≡ [] }
    {
        Builder {
            cells: Store::Plain(Items {
                items: Vec::new(alloc),
            }),
        }
    }

    /// How many cells. It takes no memory.
    #[tactic(auto, using(crate::proofs::PairsKept::pair_lengths))]
    pub fn len(&self) -> usize
        ensures { result ≡ length self.now }
    {
        match &self.cells {
            Store::Plain(items) => items.items.len(),
            Store::Naturals(numbers) => numbers.len(),
            Store::Truths(truths) => truths.len(),
            Store::Pairs(numbers, _) => numbers.len(),
        }
    }

    /// Any value as the next cell.
    #[tactic(auto, using(crate::proofs::CellKinds::pair_is))]
    pub fn push(self, alloc: Global, value: Value) -> Result<Builder, Memory>
        ensures { IfOk result (λ cells. cells ≡ self ++ datum value ∷ []) }
    {
        match pair_of(&value) {
            Some((b, n)) => self.push_pair(alloc, b, n),
            None => match value {
                Value::Nat(n) => self.push_natural(alloc, n),
                Value::Bool(b) => self.push_truth(alloc, b),
                other => self.push_other(alloc, other),
            },
        }
    }

    /// A natural as the next cell.
    #[tactic(auto, using(crate::proofs::CellKinds::lasts))]
    pub fn push_natural(self, alloc: Global, n: u128) -> Result<Builder, Memory>
        ensures { IfOk result (λ cells. cells ≡ self ++ natural n ∷ []) }
    {
        match self.cells {
            Store::Naturals(numbers) => Ok(Builder {
                cells: Store::Naturals(numbers.push(alloc, n)?),
            }),
            Store::Plain(items) => {
                if items.items.is_empty() {
                    Ok(Builder {
                        cells: Store::Naturals(Numbers::new(alloc).push(alloc, n)?),
                    })
                } else {
                    plain_with(Store::Plain(items), alloc, Value::Nat(n))
                }
            }
            Store::Truths(truths) => plain_with(Store::Truths(truths), alloc, Value::Nat(n)),
            Store::Pairs(numbers, truths) => {
                plain_with(Store::Pairs(numbers, truths), alloc, Value::Nat(n))
            }
        }
    }

    /// Naturals as the next cells.
    pub fn push_naturals(self, alloc: Global, numbers: &[u64]) -> Result<Builder, Memory>
        ensures { IfOk result (λ cells. cells ≡ self ++ map natural numbers.now) }
    {
        if numbers.is_empty() {
            return Ok(self);
        }
        if self.len() == 0 {
            return Ok(Builder {
                cells: Store::Naturals(Numbers::new(alloc).extend(alloc, numbers)?),
            });
        }
        match self.cells {
            Store::Naturals(kept) => Ok(Builder {
                cells: Store::Naturals(kept.extend(alloc, numbers)?),
            }),
            Store::Plain(items) => each_pushed(Store::Plain(items), alloc, numbers),
            Store::Truths(truths) => each_pushed(Store::Truths(truths), alloc, numbers),
            Store::Pairs(pairs, truths) => each_pushed(Store::Pairs(pairs, truths), alloc, numbers),
        }
    }

    /// The numbers of a run as the next cells, naturals, where each is below the limit; with no
    /// limit all are. Else the place of the first that reaches it is answered.
    pub fn push_run(self, alloc: Global, run: Run, limit: Option<u64>) -> Result<Builder, RunError>
        requires size { IsWidth run.size }
        requires whole { IsWhole run }
        ensures { AppendsRun limit (run_numbers run.entry) self result }
    {
        if run.count == 0 {
            return Ok(self);
        }
        match self.cells {
            Store::Naturals(numbers) => run_appended(numbers, alloc, run, limit),
            Store::Plain(items) => {
                if items.items.is_empty() {
                    run_appended(Numbers::new(alloc), alloc, run, limit)
                } else {
                    run_pushed(Store::Plain(items), alloc, run, limit)
                }
            }
            Store::Truths(truths) => run_pushed(Store::Truths(truths), alloc, run, limit),
            Store::Pairs(numbers, truths) => {
                run_pushed(Store::Pairs(numbers, truths), alloc, run, limit)
            }
        }
    }

    /// A truth value as the next cell.
    #[tactic(auto, using(crate::proofs::CellKinds::lasts))]
    pub fn push_truth(self, alloc: Global, b: bool) -> Result<Builder, Memory>
        ensures { IfOk result (λ cells. cells ≡ self ++ truth b ∷ []) }
    {
        match self.cells {
            Store::Truths(truths) => Ok(Builder {
                cells: Store::Truths(truths.push(b)?),
            }),
            Store::Plain(items) => {
                if items.items.is_empty() {
                    Ok(Builder {
                        cells: Store::Truths(Truths::new(alloc).push(b)?),
                    })
                } else {
                    plain_with(Store::Plain(items), alloc, Value::Bool(b))
                }
            }
            Store::Naturals(numbers) => plain_with(Store::Naturals(numbers), alloc, Value::Bool(b)),
            Store::Pairs(numbers, truths) => {
                plain_with(Store::Pairs(numbers, truths), alloc, Value::Bool(b))
            }
        }
    }

    /// A pair of a truth value and a natural as the next cell.
    #[tactic(auto, using(crate::proofs::CellKinds::lasts))]
    pub fn push_pair(self, alloc: Global, b: bool, n: u128) -> Result<Builder, Memory>
        ensures { IfOk result (λ cells. cells ≡ self ++ pair_datum (b, n) ∷ []) }
    {
        match self.cells {
            Store::Pairs(numbers, truths) => pair_pushed(alloc, numbers, truths, b, n),
            Store::Plain(items) => {
                if items.items.is_empty() {
                    let truths = Truths::new(alloc).push(b)?;
                    Ok(Builder {
                        cells: Store::Pairs(Numbers::new(alloc).push(alloc, n)?, truths),
                    })
                } else {
                    let pair = pair_value(alloc, b, n)?;
                    plain_with(Store::Plain(items), alloc, pair)
                }
            }
            Store::Naturals(numbers) => {
                let pair = pair_value(alloc, b, n)?;
                plain_with(Store::Naturals(numbers), alloc, pair)
            }
            Store::Truths(truths) => {
                let pair = pair_value(alloc, b, n)?;
                plain_with(Store::Truths(truths), alloc, pair)
            }
        }
    }

    /// These cells, and then the others, which are moved.
    pub fn append(self, alloc: Global, others: Builder) -> Result<Builder, Memory>
        ensures { IfOk result (λ cells. cells ≡ self ++ others) }
    {
        if self.len() == 0 {
            return Ok(others);
        }
        match (self.cells, others.cells) {
            (Store::Naturals(numbers), Store::Naturals(more)) => Ok(Builder {
                cells: Store::Naturals(numbers.append(alloc, more)?),
            }),
            (Store::Truths(truths), Store::Truths(more)) => Ok(Builder {
                cells: Store::Truths(truths.append(more)?),
            }),
            (Store::Pairs(numbers, truths), Store::Pairs(more_numbers, more_truths)) => {
                pairs_appended(alloc, (numbers, truths), (more_numbers, more_truths))
            }
            (cells, more) => {
                let mut all = Builder { cells };
                for value in values_of(more, alloc)?.items {
                    all = all.push(alloc, value)?;
                }
                Ok(all)
            }
        }
    }

    /// The array of these dimensions: none exactly where their product isn't the number of cells.
    /// The product has no upper end here, and dimensions may be huge beside a 0.
    pub fn finish(self, dims: Dims) -> Result<Option<Flat>, Memory>
        requires some { 1 ≤ length dims }
        requires few { length dims ≤ 8 }
        ensures { IfOk result (λ flat. flat ≡ table dims self) }
    {
        if saturating_product(dims.dims.as_slice()) == self.len() as u128 {
            Ok(Some(self.shape_cells(dims)?))
        } else {
            Ok(None)
        }
    }

    // The array of dimensions whose product is the number of cells.
    pub(crate) fn shape_cells(self, dims: Dims) -> Result<Flat, Memory>
        requires { IsTable (record { dims = dims; cells = self }) }
        ensures { IfOk result (λ flat. flat ≡ record { dims = dims; cells = self }) }
    {
        let cells = pack_cells(self.cells)?;
        Ok(Flat::new(dims, cells))
    }

    // The next cell, of another kind than those so far.
    #[tactic(auto, using(crate::proofs::CellKinds::lasts))]
    fn push_other(self, alloc: Global, value: Value) -> Result<Builder, Memory>
        requires natural { as_natural (datum value) ≡ None }
        requires truth { as_truth (datum value) ≡ None }
        requires pair { as_pair (datum value) ≡ None }
        ensures { IfOk result (λ cells. cells ≡ self ++ datum value ∷ []) }
    {
        plain_with(self.cells, alloc, value)
    }
}

// Cells, and then naturals, taken one at a time.
fn each_pushed(cells: Store, alloc: Global, numbers: &[u64]) -> Result<Builder, Memory>
    requires { IsStored cells }
    ensures { IfOk result (λ all. all ≡ store_cells cells ++ map natural numbers.now) }
{
    let mut all = Builder { cells };
    for n in numbers {
        all = all.push_natural(alloc, u128::from(*n))?;
    }
    Ok(all)
}

// Naturals, and then those of a run, up to the first that reaches the limit.
fn run_appended(
    numbers: Numbers,
    alloc: Global,
    run: Run,
    limit: Option<u64>,
) -> Result<Builder, RunError>
    requires some { 1 ≤ run.count }
    requires size { IsWidth run.size }
    requires whole { IsWhole run }
    ensures { AppendsRun limit (run_numbers run.entry) (map natural numbers) result }
{
    let (numbers, bits) = numbers.extend_run(alloc, run)?;
    match run.first_from(limit, bits) {
        None => Ok(Builder {
            cells: Store::Naturals(numbers),
        }),
        Some(at) => Err(RunError::Reached { at }),
    }
}

// Cells, and then the numbers of a run, up to the first that reaches the limit.
fn run_pushed(
    cells: Store,
    alloc: Global,
    run: Run,
    limit: Option<u64>,
) -> Result<Builder, RunError>
    requires store_cells { IsStored cells }
    requires size { IsWidth run.size }
    requires whole { IsWhole run }
    ensures { AppendsRun limit (run_numbers run.entry) (store_cells cells) result }
{
    match run.first_reached(limit) {
        None => Ok(each_of_run(cells, alloc, run)?),
        Some(at) => Err(RunError::Reached { at }),
    }
}

// Cells, and then the numbers of a run, taken one at a time.
fn each_of_run(cells: Store, alloc: Global, run: Run) -> Result<Builder, Memory>
    requires store_cells { IsStored cells }
    requires size { IsWidth run.size }
    requires whole { IsWhole run }
    ensures { IfOk result (λ all. all ≡ store_cells cells ++ map natural (run_numbers run.entry)) }
{
    let mut all = Builder { cells };
    for k in 0..run.count {
        all = all.push_natural(alloc, u128::from(run.get(k)))?;
    }
    Ok(all)
}

// Pairs and one more.
#[tactic(auto, using(crate::proofs::PairsKept::pair_steps))]
fn pair_pushed(
    alloc: Global,
    numbers: Numbers,
    truths: Truths,
    b: bool,
    n: u128,
) -> Result<Builder, Memory>
    requires { length truths ≡ length numbers }
    ensures { IfOk result (λ cells. cells ≡ pair_cells truths numbers ++ pair_datum (b, n) ∷ []) }
{
    let truths = truths.push(b)?;
    let numbers = numbers.push(alloc, n)?;
    Ok(Builder {
        cells: Store::Pairs(numbers, truths),
    })
}

// Pairs, and then others.
#[tactic(auto, using(crate::proofs::PairsKept::pair_steps))]
fn pairs_appended(
    alloc: Global,
    pairs: (Numbers, Truths),
    more: (Numbers, Truths),
) -> Result<Builder, Memory>
    requires some { 1 ≤ length pairs.0 }
    requires same { length pairs.1 ≡ length pairs.0 }
    requires others { length more.1 ≡ length more.0 }
    ensures { IfOk result (λ all. all ≡ pair_cells pairs.1 pairs.0 ++ pair_cells more.1 more.0) }
{
    let (numbers, truths) = pairs;
    let (more_numbers, more_truths) = more;
    let truths = truths.append(more_truths)?;
    let numbers = numbers.append(alloc, more_numbers)?;
    Ok(Builder {
        cells: Store::Pairs(numbers, truths),
    })
}

// The same cells, no more to be added to.
#[tactic(auto, using(crate::proofs::PairsKept::pair_lengths))]
fn pack_cells(cells: Store) -> Result<FlatCells, Memory>
    requires { IsStored cells }
    ensures cells { IfOk result (λ kept. kept_cells kept ≡ store_cells cells) }
    ensures packed { IfOk result (λ kept. IsKept kept) }
{
    match cells {
        Store::Plain(items) => Ok(FlatCells::Plain(items)),
        Store::Naturals(numbers) => Ok(FlatCells::Naturals(numbers)),
        Store::Truths(truths) => Ok(FlatCells::Truths(truths)),
        Store::Pairs(numbers, truths) => Ok(FlatCells::Pairs(Pairs::new(numbers, truths)?)),
    }
}

// Cells and one more that is not packed with them.
fn plain_with(cells: Store, alloc: Global, value: Value) -> Result<Builder, Memory>
    requires store_cells { IsStored cells }
    requires mixed { packing (store_cells cells ++ datum value ∷ []) ≡ None }
    ensures { IfOk result (λ all. all ≡ store_cells cells ++ datum value ∷ []) }
{
    let mut values = values_of(cells, alloc)?;
    values.items.push(value)?;
    Ok(Builder {
        cells: Store::Plain(values),
    })
}

// The cells as values.
fn values_of(cells: Store, alloc: Global) -> Result<Items, Memory>
    requires { IsStored cells }
    ensures { IfOk result (λ items. items ≡ store_cells cells) }
{
    match cells {
        Store::Plain(items) => Ok(items),
        Store::Naturals(numbers) => natural_values(alloc, &numbers),
        Store::Truths(truths) => truth_values(alloc, &truths),
        Store::Pairs(numbers, truths) => pair_values(alloc, &numbers, &truths),
    }
}

fn natural_values(alloc: Global, numbers: &Numbers) -> Result<Items, Memory>
    ensures { IfOk result (λ items. items ≡ map natural numbers.now) }
{
    let mut items = Vec::new(alloc);
    for i in 0..numbers.len() {
        items.push(Value::Nat(numbers.get(i)))?;
    }
    Ok(Items { items })
}

fn truth_values(alloc: Global, truths: &Truths) -> Result<Items, Memory>
    ensures { IfOk result (λ items. items ≡ map truth truths.now) }
{
    let mut items = Vec::new(alloc);
    for i in 0..truths.len() {
        items.push(Value::Bool(truths.get(i)))?;
    }
    Ok(Items { items })
}

fn pair_values(alloc: Global, numbers: &Numbers, truths: &Truths) -> Result<Items, Memory>
    requires { length truths.now ≡ length numbers.now }
    ensures { IfOk result (λ items. items ≡ map pair_datum (paired_up truths.now numbers.now)) }
{
    let mut items = Vec::new(alloc);
    for i in 0..numbers.len() {
        items.push(pair_value(alloc, truths.get(i), numbers.get(i))?)?;
    }
    Ok(Items { items })
}
