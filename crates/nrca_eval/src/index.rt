//! What the forms that evaluate all their parts make of them: the members of `index` run in pieces. With one worker packed pairs are
//! one piece, which is read as it stands.

ghost use Rattle.std.specs.Prelude.{◌≡◌, ◌≤◌, ◌∷◌, [], None, Some, IfOk, IfSome, length};
ghost use Rattle.std.specs.List.Sorted.{IsStrictlySortedBy};
ghost use Rattle.nrca_array.specs.Held.{held_datum};
ghost use Rattle.nrca_loops.specs.Parts.{held_values, parts_value};
ghost use Rattle.nrca_loops.specs.Values.{boxed_value, held_value};
ghost use Rattle.aql_value.specs.Strict.{Strict};
ghost use Rattle.nrca_loops.specs.Evaluates.{Applies, strict_form};
ghost use Rattle.nrca_sets.specs.Pairs.{pair_cmp};
ghost use Rattle.nrca_forms.specs.Indexing.{pairs_of, pairs_run, MakesArray};
ghost use Rattle.nrca_forms.specs.Packed.{indexed_numbers};
ghost use Rattle.nrca_eval.specs.Gathered.{ReadsPairs, gathered_pairs};

use crate::machine::{Machine, Mode, Pool};
use crate::pieces::in_pieces;
use aql_outside::Gate;
use aql_value::Memory;
use nrca_array::Held;
use nrca_forms::{
    Indexed, index_packed, index_pairs, index_run, join_pairs, one_part, packed_pairs, strict,
    strict_boxed,
};
use nrca_loops::{Counted, set_of, to_box};
use nrca_par::EvalFault;
use nrca_sets::Set;
use nrca_term::Core;
use std::alloc::Global;
use std::thread::Threads;

/// What a form that evaluates all its parts and binds nothing makes of their values, on the heap.
#[inline(never)]
pub(crate) fn strict_kept<R: Threads + Sync, G: Gate>(
    machine: &Machine<R, G>,
    term: &Core,
    parts: Option<Vec<Held>>,
    budget: u64,
) -> Result<Counted<Option<Box<Held>>>, EvalFault>
    ensures { Applies boxed_value budget (strict_form term.now) (parts_value parts) result }
{
    match &machine.mode {
        Mode::Here => strict_boxed(machine.alloc, term, parts, budget),
        Mode::Pieces(pool) => {
            let made = strict_pieces(pool, machine.alloc, term, parts, budget)?;
            Ok(Counted {
                answer: to_box(machine.alloc, made.answer)?,
                turns: made.turns,
            })
        }
    }
}

// The same as `strict` answers it. The members that `index` reads run in pieces, where they are no packed pairs.
fn strict_pieces<R: Threads + Sync, G: Gate>(
    pool: &Pool<R, G>,
    alloc: Global,
    term: &Core,
    parts: Option<Vec<Held>>,
    budget: u64,
) -> Result<Counted<Option<Held>>, EvalFault>
    ensures { Applies held_value budget (strict_form term.now) (parts_value parts) result }
{
    match term {
        Core::Index { rank, pairs: _ } => match parts {
            Some(parts) => index_parts(pool, alloc, *rank, parts, budget),
            None => Ok(undefined_answer()),
        },
        _ => strict(alloc, term, parts, budget),
    }
}

fn undefined_answer() -> Counted<Option<Held>>
    ensures answer { result.answer ≡ None }
    ensures turns { result.turns ≡ 0 }
{
    Counted {
        answer: None,
        turns: 0,
    }
}

#[tactic(auto, using(nrca_forms::proofs::Arities::arities))]
fn index_parts<R: Threads + Sync, G: Gate>(
    pool: &Pool<R, G>,
    alloc: Global,
    rank: u64,
    parts: Vec<Held>,
    budget: u64,
) -> Result<Counted<Option<Held>>, EvalFault>
    ensures { Applies held_value budget (Strict.index rank) (Some (held_values parts)) result }
{
    match one_part(parts) {
        Some(value) => index_value(pool, alloc, rank, value, budget),
        None => Ok(undefined_answer()),
    }
}

// What `index` makes of a value: a turn for each member, and one for each cell of the array.
// Spent where the members, or the members and the cells, pass the budget.
fn index_value<R: Threads + Sync, G: Gate>(
    pool: &Pool<R, G>,
    alloc: Global,
    rank: u64,
    value: Held,
    budget: u64,
) -> Result<Counted<Option<Held>>, EvalFault>
    ensures { Applies held_value budget (Strict.index rank) (Some (held_datum value ∷ [])) result }
{
    let Some(set) = set_of(value) else {
        return Ok(undefined_answer());
    };
    let count = set.count() as u64;
    if count > budget {
        return Err(EvalFault::Spent);
    }
    let made = index_members(pool, alloc, rank, set, budget - count)?;
    Ok(Counted {
        answer: made.answer,
        turns: count + made.turns,
    })
}

// The packed pairs that `index` of rank 1 reads as they stand, in one piece: with one worker. More of them read the members as values.
fn pairs_at_once(workers: u64, rank: u64, set: &Set) -> Option<&[(u64, u64)]>
    ensures rank { IfSome result (λ ps. rank ≡ 1) }
    ensures ascending { IfSome result (λ ps. IsStrictlySortedBy pair_cmp ps.now) }
    ensures members { IfSome result
        (λ ps. pairs_run rank set.now 0 (length set.now) ≡ Some (indexed_numbers ps.now)) }
{
    if workers == 1 {
        packed_pairs(rank, set)
    } else {
        None
    }
}

// The array that the members of a set make, a turn for each cell.
fn index_members<R: Threads + Sync, G: Gate>(
    pool: &Pool<R, G>,
    alloc: Global,
    rank: u64,
    set: Set,
    budget: u64,
) -> Result<Counted<Option<Held>>, EvalFault>
    ensures { MakesArray budget rank (pairs_run rank set 0 (length set)) result }
{
    if let Some(pairs) = pairs_at_once(pool.workers, rank, &set) {
        if !pairs.is_empty() {
            pool.gate.pass(0);
        }
        let made = index_packed(alloc, pairs, budget);
        drop(set);
        return made;
    }
    let count = set.count() as u64;
    let pairs = index_pieces(pool, alloc, rank, &set, count);
    drop(set);
    let pairs = pairs?;
    index_pairs(alloc, rank, pairs, budget)
}

// The pairs that the first members of a set are: none where one is no pair of an index of that
// rank and a value. It is never Spent.
fn index_pieces<R: Threads + Sync, G: Gate>(
    pool: &Pool<R, G>,
    alloc: Global,
    rank: u64,
    set: &Set,
    count: u64,
) -> Result<Option<Vec<Indexed>>, EvalFault>
    requires { count ≤ length set.now }
    ensures { ReadsPairs rank set.now 0 count result }
{
    let run = move |from: u64, to: u64| -> Result<Option<Vec<Indexed>>, EvalFault>
        requires { (from ≤ to) × (to ≤ length set.now) }
        ensures { ReadsPairs rank set.entry.now from to result }
    { Ok(index_run(alloc, rank, set, from, to)?) };
    let pairs = in_pieces(pool, alloc, count, run)?;
    Ok(joined_pairs(alloc, pairs)?)
}

// The pairs, one run after the other.
fn joined_pairs(
    alloc: Global,
    parts: Vec<Option<Vec<Indexed>>>,
) -> Result<Option<Vec<Indexed>>, Memory>
    ensures { IfOk result (λ ps. pairs_of ps ≡ gathered_pairs parts.items) }
{
    let mut pairs = Some(Vec::new(alloc));
    for part in parts {
        pairs = join_pairs(pairs, part)?;
    }
    Ok(pairs)
}
