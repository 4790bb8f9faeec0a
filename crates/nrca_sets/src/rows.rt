ghost use Rattle.std.specs.Prelude.{◌≡◌, ◌<◌, [], ◌∷◌, ◌++◌, length, map, slice_get, Some, IfOk};
ghost use Rattle.aql_value.specs.Canon.{canon};
ghost use Rattle.aql_value.specs.Datum.{natural};
ghost use Rattle.aql_value.specs.Meaning.{datum};
ghost use Rattle.nrca_sets.specs.Distinct.{IsDistinct};
ghost use Rattle.nrca_sets.specs.Pairs.{number_at, pair_at, pair_value};
ghost use Rattle.nrca_sets.specs.Rows.{kinds_cmp, row_data, set_order};

use crate::values::{number_items, numbers_of, pair_items, pair_value};
use aql_value::{Items, Memory, Value};
use std::alloc::Global;
use std::cmp::Ordering;

/// Values: as they are, or as the numbers that they all are, or as the pairs of numbers.
#[derive(Drop)]
pub(crate) enum Rows {
    Plain(Items),
    Ones(Vec<u64>),
    Twos(Vec<(u64, u64)>),
}

impl Rows {
    // No values.
    pub(crate) fn new(alloc: Global) -> Rows
        ensures { row_data result ≡ [] }
    {
        Rows::Ones(Vec::new(alloc))
    }

    // The values as they are.
    pub(crate) fn to_items(&self, alloc: Global) -> Result<Items, Memory>
        ensures { IfOk result (λ items. items ≡ row_data self.now) }
    {
        match self {
            Rows::Plain(items) => items.copy(alloc),
            Rows::Ones(numbers) => number_items(alloc, numbers),
            Rows::Twos(pairs) => pair_items(alloc, pairs),
        }
    }

    // The values as they are, moved where they stand so.
    pub(crate) fn into_items(self, alloc: Global) -> Result<Items, Memory>
        ensures { IfOk result (λ items. items ≡ row_data self) }
    {
        match self {
            Rows::Plain(items) => Ok(items),
            Rows::Ones(numbers) => number_items(alloc, &numbers),
            Rows::Twos(pairs) => pair_items(alloc, &pairs),
        }
    }

    // How many values.
    pub(crate) fn len(&self) -> usize
        ensures { result ≡ length (row_data self.now) }
    {
        match self {
            Rows::Plain(items) => items.items.len(),
            Rows::Ones(numbers) => numbers.len(),
            Rows::Twos(pairs) => pairs.len(),
        }
    }

    // The value at a place.
    pub(crate) fn get(&self, alloc: Global, at: usize) -> Result<Value, Memory>
        requires { at < length (row_data self.now) }
        ensures { IfOk result (λ v. slice_get (row_data self.now) at ≡ Some (datum v)) }
    {
        match self {
            Rows::Plain(items) => items.items[at].copy(alloc),
            Rows::Ones(numbers) => Ok(Value::Nat(numbers[at] as u128)),
            Rows::Twos(pairs) => pair_value(alloc, pairs[at]),
        }
    }

    // The natural that the value at a place is.
    #[tactic(auto, using(crate::specs::Laws::Pairs::number_at_pairs))]
    pub(crate) fn number_at(&self, at: usize) -> Option<u128>
        ensures { result ≡ number_at (row_data self.now) at }
    {
        match self {
            Rows::Plain(items) => match items.items.get(at)? {
                Value::Nat(n) => Some(*n),
                _ => None,
            },
            Rows::Ones(numbers) => numbers.get(at).map(|n| *n as u128),
            Rows::Twos(_) => None,
        }
    }

    // The two naturals that the value at a place is a pair of.
    #[tactic(auto, using(crate::specs::Laws::Pairs::pair_at_numbers, crate::specs::Laws::Pairs::pair_at_pairs))]
    pub(crate) fn pair_at(&self, at: usize) -> Option<(u128, u128)>
        ensures { result ≡ pair_at (row_data self.now) at }
    {
        match self {
            Rows::Plain(items) => match items.items.get(at) {
                Some(value) => numbers_of(value),
                None => None,
            },
            Rows::Ones(_) => None,
            Rows::Twos(pairs) => {
                if at < pairs.len() {
                    let (m, n) = pairs[at];
                    Some((m as u128, n as u128))
                } else {
                    None
                }
            }
        }
    }

    // The order of the two lists of values. Memory is wanted only where one is packed and the other is not.
    #[tactic(auto, using(crate::specs::Laws::Kinds::number_before_pair, crate::specs::Laws::Kinds::pair_after_number))]
    pub(crate) fn compare(&self, alloc: Global, other: &Rows) -> Result<Ordering, Memory>
        ensures { IfOk result (λ o. o ≡ set_order (row_data self.now) (row_data other.now)) }
    {
        match (self, other) {
            (Rows::Ones(a), Rows::Ones(b)) => Ok(compare_numbers(a, b)),
            (Rows::Twos(a), Rows::Twos(b)) => Ok(compare_pairs(a, b)),
            (Rows::Plain(a), Rows::Plain(b)) => Ok(compare_items(a, b)),
            (Rows::Ones(a), Rows::Twos(b)) => Ok(lesser_kind(a.len(), b.len())),
            (Rows::Twos(a), Rows::Ones(b)) => Ok(lesser_kind(b.len(), a.len()).reverse()),
            (Rows::Plain(a), b) => {
                let b = b.to_items(alloc)?;
                Ok(compare_items(a, &b))
            }
            (a, Rows::Plain(b)) => {
                let a = a.to_items(alloc)?;
                Ok(compare_items(&a, b))
            }
        }
    }

    // Equal values, kept in the same way.
    pub(crate) fn copy(&self, alloc: Global) -> Result<Rows, Memory>
        ensures { IfOk result (λ rows. row_data rows ≡ row_data self.now) }
    {
        match self {
            Rows::Plain(items) => Ok(Rows::Plain(items.copy(alloc)?)),
            Rows::Ones(numbers) => Ok(Rows::Ones(Vec::from_slice(alloc, numbers)?)),
            Rows::Twos(pairs) => Ok(Rows::Twos(Vec::from_slice(alloc, pairs)?)),
        }
    }

    // A number more.
    pub(crate) fn push_number(self, alloc: Global, n: u64) -> Result<Rows, Memory>
        ensures { IfOk result (λ rows. row_data rows ≡ row_data self ++ natural n ∷ []) }
    {
        match self {
            Rows::Ones(numbers) => number_pushed(numbers, n),
            rows => {
                if rows.len() == 0 {
                    number_pushed(Vec::new(alloc), n)
                } else {
                    rows.push_value(alloc, Value::Nat(n as u128))
                }
            }
        }
    }

    // A pair of numbers more.
    pub(crate) fn push_pair(self, alloc: Global, pair: (u64, u64)) -> Result<Rows, Memory>
        ensures { IfOk result (λ rows. row_data rows ≡ row_data self ++ pair_value pair ∷ []) }
    {
        match self {
            Rows::Twos(pairs) => pair_pushed(pairs, pair),
            rows => {
                if rows.len() == 0 {
                    pair_pushed(Vec::new(alloc), pair)
                } else {
                    let value = pair_value(alloc, pair)?;
                    rows.push_value(alloc, value)
                }
            }
        }
    }

    // A value more, which is kept as it is.
    pub(crate) fn push_value(self, alloc: Global, value: Value) -> Result<Rows, Memory>
        ensures { IfOk result (λ rows. row_data rows ≡ row_data self ++ datum value ∷ []) }
    {
        let mut items = self.into_items(alloc)?;
        items.items.push(value)?;
        Ok(Rows::Plain(items))
    }

    // These values, and then the others.
    pub(crate) fn append(self, alloc: Global, others: Rows) -> Result<Rows, Memory>
        ensures { IfOk result (λ rows. row_data rows ≡ row_data self ++ row_data others) }
    {
        if self.len() == 0 {
            return Ok(others);
        }
        if others.len() == 0 {
            return Ok(self);
        }
        match (self, others) {
            (Rows::Ones(numbers), Rows::Ones(more)) => Ok(Rows::Ones(append_slice(
                numbers, &more,
            )?)),
            (Rows::Twos(pairs), Rows::Twos(more)) => Ok(Rows::Twos(append_slice(pairs, &more)?)),
            (rows, more) => {
                let items = rows.into_items(alloc)?;
                let more = more.into_items(alloc)?;
                Ok(Rows::Plain(items_followed(items, more)?))
            }
        }
    }

    // The set of the values, sorted in place.
    #[tactic(auto, using(crate::specs::Laws::Kinds::numbers_distinct, crate::specs::Laws::Kinds::pairs_distinct, crate::specs::Laws::Kinds::values_distinct))]
    pub(crate) fn distinct(self) -> Rows
        ensures { row_data result ≡ canon (row_data self) }
    {
        match self {
            Rows::Plain(items) => Rows::Plain(Items {
                items: distinct(items.items),
            }),
            Rows::Ones(numbers) => Rows::Ones(distinct(numbers)),
            Rows::Twos(pairs) => Rows::Twos(distinct(pairs)),
        }
    }

    // The set of the values, in linear time where they are a few ascending runs.
    #[tactic(auto, using(crate::specs::Laws::Kinds::numbers_distinct, crate::specs::Laws::Kinds::pairs_distinct, crate::specs::Laws::Kinds::values_distinct))]
    pub(crate) fn merge_runs(self) -> Result<Rows, Memory>
        ensures { IfOk result (λ rows. row_data rows ≡ canon (row_data self)) }
    {
        match self {
            Rows::Plain(items) => Ok(Rows::Plain(Items {
                items: merge_runs(items.items)?,
            })),
            Rows::Ones(numbers) => Ok(Rows::Ones(merge_runs(numbers)?)),
            Rows::Twos(pairs) => Ok(Rows::Twos(merge_runs(pairs)?)),
        }
    }
}

#[tactic(auto, using(crate::specs::Laws::Kinds::numbers_cmp))]
fn compare_numbers(a: &[u64], b: &[u64]) -> Ordering
    ensures { result ≡ set_order (map natural a.now) (map natural b.now) }
{
    a.cmp(b)
}

#[tactic(auto, using(crate::specs::Laws::Kinds::pairs_cmp))]
fn compare_pairs(a: &[(u64, u64)], b: &[(u64, u64)]) -> Ordering
    ensures { result ≡ set_order (map pair_value a.now) (map pair_value b.now) }
{
    a.cmp(b)
}

#[tactic(auto, using(crate::specs::Laws::Kinds::values_cmp))]
fn compare_items(a: &Items, b: &Items) -> Ordering
    ensures { result ≡ set_order a.now b.now }
{
    a.items.as_slice().cmp(b.items.as_slice())
}

// The order of a list of values to one of a greater kind, by their lengths.
fn lesser_kind(a: usize, b: usize) -> Ordering
    ensures { result ≡ kinds_cmp a b }
{
    if b > 0 {
        Ordering::Less
    } else if a > 0 {
        Ordering::Greater
    } else {
        Ordering::Equal
    }
}

fn number_pushed(numbers: Vec<u64>, n: u64) -> Result<Rows, Memory>
    ensures { IfOk result (λ r. row_data r ≡ map natural numbers.items ++ natural n ∷ []) }
{
    let mut numbers = numbers;
    numbers.push(n)?;
    Ok(Rows::Ones(numbers))
}

fn pair_pushed(pairs: Vec<(u64, u64)>, pair: (u64, u64)) -> Result<Rows, Memory>
    ensures { IfOk result (λ r. row_data r ≡ map pair_value pairs.items ++ pair_value pair ∷ []) }
{
    let mut pairs = pairs;
    pairs.push(pair)?;
    Ok(Rows::Twos(pairs))
}

// One list, and then the other.
fn append_slice<T: Copy + Drop>(items: Vec<T>, more: &[T]) -> Result<Vec<T>, Memory>
    ensures { IfOk result (λ all. all.items ≡ items.items ++ more.now) }
{
    let mut items = items;
    items.extend_from_slice(more)?;
    Ok(items)
}

fn items_followed(items: Items, more: Items) -> Result<Items, Memory>
    ensures { IfOk result (λ all. all ≡ items ++ more) }
{
    let mut all = items.items;
    let mut more = more.items;
    all.append(&mut more)?;
    Ok(Items { items: all })
}

// The elements in order, each once. It takes no memory.
fn distinct<T: Ord + Drop>(items: Vec<T>) -> Vec<T>
    ensures { IsDistinct T.cmp T.eq items.items result.items }
{
    let mut items = items;
    items.sort_unstable();
    items.dedup();
    items
}

// The elements in order, each once, in linear time where they are a few ascending runs.
fn merge_runs<T: Ord + Drop>(items: Vec<T>) -> Result<Vec<T>, Memory>
    ensures { IfOk result (λ made. IsDistinct T.cmp T.eq items.items made.items) }
{
    let mut items = items;
    items.sort()?;
    items.dedup();
    Ok(items)
}
