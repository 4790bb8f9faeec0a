//! Loops over vectors, a lane for each member of a block.

ghost use Rattle.std.specs.Prelude.{◌≡◌, ◌≤◌, false, length, IfOk, IfSome, IsTrue, if◌then◌else◌};
ghost use Rattle.nrca_numbers.specs.declared.sets.AtMostOne.TheVariants.{Nothing};
ghost use Rattle.nrca_array.specs.Held.{held_datum};
ghost use Rattle.nrca_numbers.specs.Lanes.{AreArith, AreCellsAt, AreChosen, AreCompared, ArePairSets, AreParts, ArePartsOf, AreSets, AreTable, BeginsWith, FoundAnd, IsFound, Repeats, part_at};

use crate::sets::{AtMostOne, Small};
use crate::small::{small_arith, small_cell, small_compare};
use aql_value::{ArithOp, CompareOp, Memory};
use nrca_array::Held;
use std::alloc::Global;

/// The number in each lane.
pub(crate) fn repeat_number(
    alloc: Global,
    number: u64,
    count: usize,
) -> Result<Option<Vec<u64>>, Memory>
    ensures { IfOk result (λ o. IfSome o (λ ns. Repeats 0 number count ns.items)) }
{
    let all = vec![in alloc; number; count]?;
    Ok(Some(all))
}

/// The truth value in each lane.
pub(crate) fn truth_repeated(
    alloc: Global,
    truth: bool,
    count: usize,
) -> Result<Option<Vec<bool>>, Memory>
    ensures { IfOk result (λ o. IfSome o (λ bs. Repeats false truth count bs.items)) }
{
    let all = vec![in alloc; truth; count]?;
    Ok(Some(all))
}

/// The empty set in each lane.
pub(crate) fn nothing(alloc: Global, count: usize) -> Result<Option<Vec<AtMostOne>>, Memory>
    ensures { IfOk result (λ o. IfSome o (λ fs. Repeats Nothing Nothing count
        fs.items)) }
{
    let all = vec![in alloc; AtMostOne::Nothing; count]?;
    Ok(Some(all))
}

/// The first numbers of a column.
pub(crate) fn copy_front(
    alloc: Global,
    numbers: &[u64],
    count: usize,
) -> Result<Option<Vec<u64>>, Memory>
    requires { count ≤ length numbers.now }
    ensures { IfOk result (λ o. IfSome o (λ ns. BeginsWith numbers.now count ns.items)) }
{
    let first = Vec::from_slice(alloc, &numbers[..count])?;
    Ok(Some(first))
}

/// A part of the pairs of a column, the parts counted from 1.
#[tactic(auto, using(crate::proofs::Arms::parts_of))]
pub(crate) fn parts(
    alloc: Global,
    pairs: &[(u64, u64)],
    at: u64,
    of: u64,
    count: usize,
) -> Result<Option<Vec<u64>>, Memory>
    requires { count ≤ length pairs.now }
    ensures { IfOk result (λ o. IfSome o (λ ns. ArePartsOf at of pairs.now count ns.items)) }
{
    if of != 2 || at == 0 || at > 2 {
        return Ok(None);
    }
    let mut numbers = vec![in alloc; 0u64; count]?;
    parts_into(pairs, at, numbers.as_mut_slice());
    Ok(Some(numbers))
}

fn parts_into(pairs: &[(u64, u64)], at: u64, numbers: &mut [u64])
    requires { length numbers.old ≤ length pairs.now }
    ensures { AreParts at pairs.now (length numbers.old) numbers.new }
{
    for j in 0..numbers.len() {
        numbers[j] = part_of(at, pairs[j]);
    }
}

fn part_of(at: u64, pair: (u64, u64)) -> u64
    ensures { result ≡ part_at at pair }
{
    if at == 1 { pair.0 } else { pair.1 }
}

/// What an operation makes of two numbers in each lane. The memory of the first is used again.
pub(crate) fn arith_lanes(
    op: ArithOp,
    first: Vec<u64>,
    second: Result<Option<Vec<u64>>, Memory>,
) -> Result<Option<Vec<u64>>, Memory>
    ensures { IfOk result (λ o. IfSome o
        (λ ns. FoundAnd second (AreArith op first.items ns.items))) }
{
    match second {
        Ok(Some(second)) => Ok(arith_vectors(op, first, second.as_slice())),
        Ok(None) => Ok(None),
        Err(fault) => Err(fault),
    }
}

fn arith_vectors(op: ArithOp, first: Vec<u64>, second: &[u64]) -> Option<Vec<u64>>
    ensures { IfSome result (λ ns. AreArith op first.items ns.items second.now) }
{
    let mut numbers = first;
    if numbers.len() == second.len() && arith_all(op, numbers.as_mut_slice(), second) {
        Some(numbers)
    } else {
        None
    }
}

// The same in place; whether each lane has a number.
fn arith_all(op: ArithOp, numbers: &mut [u64], second: &[u64]) -> bool
    requires { length numbers.old ≡ length second.now }
    ensures { IsTrue result → AreArith op numbers.old numbers.new second.now }
{
    for j in 0..numbers.len() {
        match small_arith(op, numbers[j], second[j]) {
            Some(number) => numbers[j] = number,
            None => return false,
        }
    }
    true
}

/// Whether a comparison holds of two numbers in each lane.
pub(crate) fn compared_lanes(
    alloc: Global,
    op: CompareOp,
    first: Vec<u64>,
    second: Result<Option<Vec<u64>>, Memory>,
) -> Result<Option<Vec<bool>>, Memory>
    ensures { IfOk result (λ o. IfSome o
        (λ bs. FoundAnd second (AreCompared op first.items bs.items))) }
{
    match second {
        Ok(Some(second)) => compared_vectors(alloc, op, first.as_slice(), second.as_slice()),
        Ok(None) => Ok(None),
        Err(fault) => Err(fault),
    }
}

fn compared_vectors(
    alloc: Global,
    op: CompareOp,
    first: &[u64],
    second: &[u64],
) -> Result<Option<Vec<bool>>, Memory>
    ensures { IfOk result (λ o. IfSome o (λ bs. AreCompared op first.now bs.items second.now)) }
{
    if first.len() != second.len() {
        return Ok(None);
    }
    let mut truths = vec![in alloc; false; first.len()]?;
    compared_all(op, first, second, truths.as_mut_slice());
    Ok(Some(truths))
}

fn compared_all(op: CompareOp, first: &[u64], second: &[u64], truths: &mut [bool])
    requires first { length truths.old ≡ length first.now }
    requires second { length truths.old ≡ length second.now }
    ensures { AreCompared op first.now truths.new second.now }
{
    for j in 0..truths.len() {
        truths[j] = small_compare(op, first[j], second[j]);
    }
}

/// In each lane the one or the other, as the truth value there says.
pub(crate) fn chosen_lanes<T: Copy + Drop>(
    truths: Vec<bool>,
    yes: Result<Option<Vec<T>>, Memory>,
    no: Result<Option<Vec<T>>, Memory>,
) -> Result<Option<Vec<T>>, Memory>
    ensures { IfOk result (λ o. IfSome o (λ xs. FoundAnd yes (λ ys. FoundAnd no (AreChosen
        truths.items ys xs.items)))) }
{
    match both(yes, no)? {
        Some((yes, no)) => Ok(chosen_vectors(truths.as_slice(), yes, no.as_slice())),
        None => Ok(None),
    }
}

// Both, where both were found.
fn both<A: Drop, B: Drop>(
    first: Result<Option<A>, Memory>,
    second: Result<Option<B>, Memory>,
) -> Result<Option<(A, B)>, Memory>
    ensures { IfOk result (λ o. IfSome o (λ p. IsFound first p.0 × IsFound second p.1)) }
{
    match (first, second) {
        (Ok(Some(first)), Ok(Some(second))) => Ok(Some((first, second))),
        (Err(fault), _) => Err(fault),
        (_, Err(fault)) => Err(fault),
        _ => Ok(None),
    }
}

fn chosen_vectors<T: Copy + Drop>(truths: &[bool], yes: Vec<T>, no: &[T]) -> Option<Vec<T>>
    ensures { IfSome result (λ xs. AreChosen truths.now yes.items xs.items no.now) }
{
    let mut all = yes;
    if all.len() != truths.len() || all.len() != no.len() {
        return None;
    }
    choose_all(truths, all.as_mut_slice(), no);
    Some(all)
}

fn choose_all<T: Copy>(truths: &[bool], all: &mut [T], no: &[T])
    requires truths { length all.old ≡ length truths.now }
    requires no { length all.old ≡ length no.now }
    ensures { AreChosen truths.now all.old all.new no.now }
{
    for j in 0..all.len() {
        all[j] = choose(truths[j], all[j], no[j]);
    }
}

fn choose<T: Copy>(truth: bool, yes: T, no: T) -> T
    ensures { result ≡ (if truth then yes else no) }
{
    if truth { yes } else { no }
}

/// The cells of an array of rank 1 at the index in each lane.
pub(crate) fn cells_lanes(array: &Held, first: Vec<u64>) -> Option<Vec<u64>>
    ensures { IfSome result (λ ns. AreCellsAt (held_datum array.now) first.items ns.items) }
{
    let mut numbers = first;
    if cells_all(array, numbers.as_mut_slice()) {
        Some(numbers)
    } else {
        None
    }
}

fn cells_all(array: &Held, numbers: &mut [u64]) -> bool
    ensures { IsTrue result → AreCellsAt (held_datum array.now) numbers.old numbers.new }
{
    for j in 0..numbers.len() {
        match small_cell(array, &[u128::from(numbers[j])]) {
            Some(number) => numbers[j] = number,
            None => return false,
        }
    }
    true
}

/// The cells of an array of rank 2 at the two indices in each lane.
pub(crate) fn table_lanes(
    array: &Held,
    first: Vec<u64>,
    second: Result<Option<Vec<u64>>, Memory>,
) -> Result<Option<Vec<u64>>, Memory>
    ensures { IfOk result (λ o. IfSome o (λ ns. FoundAnd second (AreTable (held_datum array.now)
        first.items ns.items))) }
{
    match second {
        Ok(Some(second)) => Ok(table_vectors(array, first, second.as_slice())),
        Ok(None) => Ok(None),
        Err(fault) => Err(fault),
    }
}

fn table_vectors(array: &Held, first: Vec<u64>, second: &[u64]) -> Option<Vec<u64>>
    ensures { IfSome result
        (λ ns. AreTable (held_datum array.now) first.items ns.items second.now) }
{
    let mut numbers = first;
    if numbers.len() == second.len() && table_all(array, numbers.as_mut_slice(), second) {
        Some(numbers)
    } else {
        None
    }
}

fn table_all(array: &Held, numbers: &mut [u64], second: &[u64]) -> bool
    requires { length numbers.old ≡ length second.now }
    ensures { IsTrue result → AreTable (held_datum array.now) numbers.old numbers.new second.now }
{
    for j in 0..numbers.len() {
        match small_cell(array, &[u128::from(numbers[j]), u128::from(second[j])]) {
            Some(number) => numbers[j] = number,
            None => return false,
        }
    }
    true
}

/// The set of the number in each lane.
pub(crate) fn sets_lanes(alloc: Global, numbers: &[u64]) -> Result<Option<Vec<AtMostOne>>, Memory>
    ensures { IfOk result (λ o. IfSome o (λ fs. AreSets numbers.now fs.items)) }
{
    let mut sets = vec![in alloc; AtMostOne::Nothing; numbers.len()]?;
    sets_all(numbers, sets.as_mut_slice());
    Ok(Some(sets))
}

fn sets_all(numbers: &[u64], sets: &mut [AtMostOne])
    requires { length sets.old ≡ length numbers.now }
    ensures { AreSets numbers.now sets.new }
{
    for j in 0..sets.len() {
        sets[j] = AtMostOne::One(Small::Number(numbers[j]));
    }
}

/// The set of the pair of the two numbers in each lane.
pub(crate) fn pair_sets_lanes(
    alloc: Global,
    first: Vec<u64>,
    second: Result<Option<Vec<u64>>, Memory>,
) -> Result<Option<Vec<AtMostOne>>, Memory>
    ensures { IfOk result (λ o. IfSome o
        (λ fs. FoundAnd second (ArePairSets first.items fs.items))) }
{
    match second {
        Ok(Some(second)) => pair_sets_vectors(alloc, first.as_slice(), second.as_slice()),
        Ok(None) => Ok(None),
        Err(fault) => Err(fault),
    }
}

fn pair_sets_vectors(
    alloc: Global,
    first: &[u64],
    second: &[u64],
) -> Result<Option<Vec<AtMostOne>>, Memory>
    ensures { IfOk result (λ o. IfSome o (λ fs. ArePairSets first.now fs.items second.now)) }
{
    if first.len() != second.len() {
        return Ok(None);
    }
    let mut sets = vec![in alloc; AtMostOne::Nothing; first.len()]?;
    pair_sets_all(first, second, sets.as_mut_slice());
    Ok(Some(sets))
}

fn pair_sets_all(first: &[u64], second: &[u64], sets: &mut [AtMostOne])
    requires first { length sets.old ≡ length first.now }
    requires second { length sets.old ≡ length second.now }
    ensures { ArePairSets first.now sets.new second.now }
{
    for j in 0..sets.len() {
        sets[j] = AtMostOne::One(Small::Pair(first[j], second[j]));
    }
}
