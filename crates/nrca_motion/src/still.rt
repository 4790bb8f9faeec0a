//! Code motion of a plan.

ghost use Rattle.std.specs.Prelude.{◌≡◌, ◌≤◌, ◌+◌, ◌^◌, IfOk, OnOk, length};
ghost use Rattle.nrca_term.specs.Term.{weight_of};
ghost use Rattle.nrca_term.specs.TypedPlaces.{KeepsTypes};
ghost use Rattle.nrca_term.specs.Typing.{IsTyped};
ghost use Rattle.nrca_term.specs.View.{term_of};
ghost use Rattle.nrca_ranges.specs.Shapes.{shapes_in, known_shapes};
ghost use Rattle.nrca_motion.specs.Moved.{IsChained, IsStillIn, KeepsMeaning, IsMovedFrom};
ghost use Rattle.nrca_motion.specs.Progress.{IsBegun, IsReady, IsSiteOf, HasGone, GoesOn};

use crate::moves::{Move, Moves};
use crate::moving::move_at;
use crate::search::{Site, find};
use aql_value::Memory;
use nrca_ranges::{Ctx, GlobalShapes};
use nrca_term::{Core, Path};
use std::alloc::Global;
use std::mem;

/// A term in which no move is left, and the moves that led to it.
#[derive(Drop)]
pub struct Moved {
    pub term: Core,
    pub moves: Moves,
}

// The term so far, the moves that led to it, the place of the last one, the context of the root, and how many numbers the
// paths of further moves may have.
#[derive(Drop)]
pub(crate) struct Progress {
    pub term: Core,
    pub moves: Vec<Move>,
    pub from: Vec<u64>,
    pub ctx: Ctx,
    pub room: u64,
}

/// Moves tests and lets of a closed typed term out of loops and tabulations, and lets out of the parts without whose value a
/// node has none, until no move is left whose terms are firm, wherever the shapes tell which positions have a value. The moves
/// lead from the plan to the term, each move's terms being defined. The one refusal is want of memory; so it is also where
/// the paths of the moves have more than 2^27 numbers together.
pub fn motion(alloc: Global, plan: &Core, globals: &GlobalShapes) -> Result<Moved, Memory>
    requires typed { IsTyped (term_of plan.now) }
    requires small { weight_of (term_of plan.now) ≤ 1280000 }
    ensures moved { IfOk result
        (λ m. IsChained (shapes_in globals.now) (term_of plan.now) m.moves (term_of m.term)) }
    ensures still { IfOk result (λ m. IsStillIn (shapes_in globals.now) (term_of m.term)) }
    ensures meaning { IfOk result
        (λ m. KeepsMeaning (shapes_in globals.now) (term_of plan.now) (term_of m.term)) }
    ensures types { IfOk result (λ m. KeepsTypes (term_of plan.now) (term_of m.term)) }
    ensures weight { IfOk result
        (λ m. weight_of (term_of m.term) ≡ weight_of (term_of plan.now)) }
    ensures few { IfOk result (λ m. length m.moves ≤ (weight_of (term_of plan.now) + 1) ^ 3) }
{
    let mut shapes = globals.copy(alloc)?;
    let moved = motion_over(alloc, plan, &mut shapes)?;
    Ok(moved)
}

/// The same over shapes that are lent for the while and come back as they were, also where memory is wanting: of them no
/// copy is made, however many positions there are.
pub fn motion_over(alloc: Global, plan: &Core, globals: &mut GlobalShapes) -> Result<Moved, Memory>
    requires typed { IsTyped (term_of plan.now) }
    requires small { weight_of (term_of plan.now) ≤ 1280000 }
    ensures globals { shapes_in globals.new ≡ shapes_in globals.old }
    ensures moved { IfOk result
        (λ m. IsChained (shapes_in globals.old) (term_of plan.now) m.moves (term_of m.term)) }
    ensures still { IfOk result (λ m. IsStillIn (shapes_in globals.old) (term_of m.term)) }
    ensures meaning { IfOk result
        (λ m. KeepsMeaning (shapes_in globals.old) (term_of plan.now) (term_of m.term)) }
    ensures types { IfOk result (λ m. KeepsTypes (term_of plan.now) (term_of m.term)) }
    ensures weight { IfOk result
        (λ m. weight_of (term_of m.term) ≡ weight_of (term_of plan.now)) }
    ensures few { IfOk result (λ m. length m.moves ≤ (weight_of (term_of plan.now) + 1) ^ 3) }
{
    let copied = plan.copy(alloc)?;
    let shapes = mem::replace(globals, GlobalShapes::new(alloc));
    let (moved, back) = still_form(alloc, begin(alloc, copied, shapes));
    *globals = back;
    moved
}

// Nothing moved yet.
fn begin(alloc: Global, term: Core, globals: GlobalShapes) -> Progress
    ensures { IsBegun (shapes_in globals) (term_of term) result }
{
    Progress {
        term,
        moves: Vec::new(alloc),
        from: Vec::new(alloc),
        ctx: Ctx::new(alloc, globals),
        room: 134217728,
    }
}

// Moves to the end, and the shapes again.
fn still_form(alloc: Global, begun: Progress) -> (Result<Moved, Memory>, GlobalShapes)
    requires typed { IsTyped (term_of begun.term) }
    requires small { weight_of (term_of begun.term) ≤ 1280000 }
    requires begun { IsBegun (known_shapes begun.ctx) (term_of begun.term) begun }
    ensures globals { shapes_in result.1 ≡ known_shapes begun.ctx }
    ensures moved { IfOk result.0 (IsMovedFrom (known_shapes begun.ctx) (term_of begun.term)) }
{
    let mut progress = begun;
    loop {
        match go_on(alloc, &mut progress) {
            Ok(true) => (),
            Ok(false) => {
                let (moved, globals) = parts_of_end(progress);
                return (Ok(moved), globals);
            }
            Err(Memory) => {
                let (moved, globals) = parts_of_end(progress);
                drop(moved);
                return (Err(Memory), globals);
            }
        }
    }
}

// The term and the moves so far, and the shapes.
fn parts_of_end(progress: Progress) -> (Moved, GlobalShapes)
    ensures moved { result.0 ≡ record { term = progress.term; moves = progress.moves.items } }
    ensures globals { result.1 ≡ progress.ctx.globals }
{
    let Progress {
        term,
        moves,
        from: _,
        ctx,
        room: _,
    } = progress;
    let Ctx {
        facts: _,
        depth: _,
        globals,
        variables: _,
    } = ctx;
    let moves = Moves(moves);
    (Moved { term, moves }, globals)
}

// One move more, at the first place where one may be made; false where there is none.
fn go_on(alloc: Global, progress: &mut Progress) -> Result<bool, Memory>
    requires { IsReady progress.old }
    ensures more { IfOk result (GoesOn progress.old progress.new) }
    ensures globals { known_shapes progress.new.ctx ≡ known_shapes progress.old.ctx }
{
    match find(alloc, &progress.term, &mut progress.ctx, &progress.from, 0)? {
        Some(site) => {
            take_step(alloc, progress, site)?;
            Ok(true)
        }
        None => Ok(false),
    }
}

// The move of a site.
fn take_step(alloc: Global, progress: &mut Progress, site: Site) -> Result<(), Memory>
    requires { IsSiteOf progress.old site }
    ensures gone { OnOk result (HasGone progress.old progress.new) }
    ensures globals { known_shapes progress.new.ctx ≡ known_shapes progress.old.ctx }
{
    let fit = site.fit;
    let mut path = site.way;
    path.reverse();
    progress.room = reduce_room(progress.room, path.len() as u64)?;
    move_at(alloc, &mut progress.term, &path, 0, fit)?;
    let copied = Path::from_numbers(alloc, &path)?;
    progress.moves.push(Move {
        rule: fit.rule,
        path: copied,
    })?;
    progress.from = path;
    Ok(())
}

// What is left of the room for numbers, where so many fit in.
fn reduce_room(room: u64, numbers: u64) -> Result<u64, Memory> {
    match room.checked_sub(numbers) {
        Some(left) => Ok(left),
        None => Err(Memory),
    }
}
