//! The names of positions, by an index.

ghost use Rattle.std.specs.Prelude.{◌≡◌, ◌++◌, ◌∷◌, [], IfOk, OnOk, OnErr, length, take, nat_lt, false};
ghost use Rattle.std.specs.List.Sorted.{IsPartitionedBy};
ghost use Rattle.aql_names.specs.Named.{last_named};
ghost use Rattle.aql_names.specs.Index.{name_positions, has_key, GainsPosition, SamePositions, last_of, count_below};

use aql_value::made::{both, make_list};
use aql_value::{Memory, Str};
use indexmap::IndexMap;
use std::alloc::Global;
use std::marker::Model;

/// The names of positions in order. Positions are counted from 0.
#[derive(Drop)]
pub struct Names {
    // The positions of each name, ascending, by its bytes.
    positions: IndexMap<Vec<u8>, Vec<usize>>,
    // Of each position the number of its name among the keys.
    numbers: Vec<usize>,
}

impl Model for Names {
    ghost use Rattle.std.specs.Coded.{coded_list, coded_ℕ};
    ghost use Rattle.std.specs.Prelude.{List};
    ghost use Rattle.aql_names.specs.Named.{Name};

    ghost Value = { List Name };

    ghost coded = { coded_list (coded_list coded_ℕ) };

    ghost use Rattle.aql_names.specs.Index.{names_in, IsIndex};

    ghost view = { λ s. names_in s.positions s.numbers.items };

    ghost invariant = { λ s. IsIndex s.positions s.numbers.items };
}

impl Names {
    /// No positions.
    pub fn new(alloc: Global) -> Names
        ensures { result ≡ [] }
    {
        Names {
            positions: IndexMap::new(alloc),
            numbers: Vec::new(alloc),
        }
    }

    /// How many positions there are.
    pub fn len(&self) -> usize
        ensures { result ≡ length self.now }
    {
        self.numbers.len()
    }

    /// One position more, of that name. For want of memory nothing is added.
    pub fn push(&mut self, alloc: Global, name: &Str) -> Result<(), Memory>
        ensures pushed { OnOk result (self.new ≡ self.old ++ name.now ∷ []) }
        ensures as_before { OnErr result (self.new ≡ self.old) }
    {
        let n = self.numbers.len();
        self.numbers.push(0)?;
        match add_position(alloc, &mut self.positions, name, n) {
            Ok(k) => {
                self.numbers[n] = k;
                Ok(())
            }
            Err(Memory) => {
                self.numbers.pop();
                Err(Memory)
            }
        }
    }

    /// The last position that has the name: none where none has.
    pub fn latest(&self, name: &Str) -> Option<usize>
        ensures { result ≡ last_named name.now self.now }
    {
        last(positions_of(&self.positions, name))
    }

    /// The last position below n that has the name: none where none has.
    pub fn latest_before(&self, name: &Str, n: usize) -> Option<usize>
        ensures { result ≡ last_named name.now (take n self.now) }
    {
        let positions = positions_of(&self.positions, name);
        last(&positions[..number_below(positions, n)])
    }
}

// The positions of a name, ascending.
fn positions_of<'a>(positions: &'a IndexMap<Vec<u8>, Vec<usize>>, name: &Str) -> &'a [usize]
    ensures { result.now ≡ name_positions positions.now name.now }
{
    match positions.get(name.bytes.as_slice()) {
        Some(list) => list.as_slice(),
        None => &[],
    }
}

// The last of these positions.
fn last(positions: &[usize]) -> Option<usize>
    ensures { result ≡ last_of positions.now }
{
    positions.last().copied()
}

// How many of these positions are below n.
fn number_below(positions: &[usize], n: usize) -> usize
    requires ascending { IsPartitionedBy (λ p. nat_lt p n) positions.now }
    ensures { result ≡ count_below n positions.now }
{
    positions.partition_point(
        |p: &usize| -> bool
            ensures { result ≡ nat_lt p.now n }
        { *p < n },
    )
}

// Position n for a name, behind those that it has: the number of the name among the keys.
fn add_position(
    alloc: Global,
    positions: &mut IndexMap<Vec<u8>, Vec<usize>>,
    name: &Str,
    n: usize,
) -> Result<usize, Memory>
    ensures added { IfOk result (λ k. GainsPosition positions.old positions.new name.now n k) }
    ensures as_before { OnErr result (SamePositions positions.old positions.new) }
{
    match positions.get_index_of(name.bytes.as_slice()) {
        Some(k) => {
            positions[k].push(n)?;
            Ok(k)
        }
        None => add_name(alloc, positions, name, n),
    }
}

// Position n for a name that has none.
fn add_name(
    alloc: Global,
    positions: &mut IndexMap<Vec<u8>, Vec<usize>>,
    name: &Str,
    n: usize,
) -> Result<usize, Memory>
    requires new { has_key positions.old name.now ≡ false }
    ensures added { IfOk result (λ k. GainsPosition positions.old positions.new name.now n k) }
    ensures as_before { OnErr result (SamePositions positions.old positions.new) }
{
    let k = positions.len();
    let (key, list) = both(name.copy(alloc), make_list(alloc, Ok(n)))?;
    positions.insert(key.bytes, list)?;
    Ok(k)
}
