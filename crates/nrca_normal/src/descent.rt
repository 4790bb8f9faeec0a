//! One descent over a term, in place, that rewrites until no rule may be applied at any place. It comes to a node before
//! its parts, and tries it again where something below it was rewritten. So a rewriting costs its own place, and the nodes
//! above it are tried when the descent comes back to them: nothing is looked for from the root again.

ghost use Rattle.std.specs.Prelude.{◌≡◌, ◌<◌, ◌∷◌, [], ◌++◌, true, IfOk, OnOk};
ghost use Rattle.nrca_term.specs.Term.{parts_of, count};
ghost use Rattle.nrca_term.specs.View.{term_of};
ghost use Rattle.nrca_rule_laws.specs.Fitting.{IsSmallPart};
ghost use Rattle.nrca_ranges.specs.Context.{IsSmallTerm};
ghost use Rattle.nrca_ranges.specs.Shapes.{known_shapes};
ghost use Rattle.nrca_normal.specs.Conditions.{IsApplicable, IsMade};
ghost use Rattle.nrca_normal.specs.Descent.{IsTypedThere, MayFireThere, HasRewritten, HasSettled, HasSettledNode, HasSettledFirst, HasSettledPart, HasEntered, HasLeft, GoesOn, IsQuietIfUnchanged, step_at};

use crate::firing::{Firing, apply, rule_at};
use aql_value::Memory;
use nrca_ranges::{Ctx, GlobalShapes, Mark};
use nrca_term::{Core, Path, Rule, Step};
use std::alloc::Global;
use std::mem;

/// Where the descent is, by the context of the node and the way to it from the root; and the rewritings so far.
#[derive(Drop)]
pub struct Descent {
    pub ctx: Ctx,
    pub way: Vec<u32>,
    pub steps: Vec<Step>,
}

/// Rewrites the term until no rule may be applied at any of its places. True where something was rewritten.
#[cycle(settle)]
pub fn settle(alloc: Global, term: &mut Core, run: &mut Descent) -> Result<bool, Memory>
    requires typed { IsTypedThere run.old (term_of term.old) }
    ensures globals { known_shapes run.new.ctx ≡ known_shapes run.old.ctx }
    ensures settled { IfOk result
        (HasSettled run.old (term_of term.old) run.new (term_of term.new)) }
{
    let (first, settled) = settle_node(alloc, term, run)?;
    let mut changed = first;
    let mut i = settled;
    while i < term.parts() {
        let below = settle_part(alloc, term, i, run)?;
        i = part_after(alloc, term, i, below, run)?;
        changed |= below;
    }
    Ok(changed)
}

// The same of part i of a node. The node stays where it is, and lends the part for the while.
#[cycle(settle)]
fn settle_part(alloc: Global, term: &mut Core, i: u64, run: &mut Descent) -> Result<bool, Memory>
    requires has { i < count (parts_of (term_of term.old)) }
    requires typed { IsTypedThere run.old (term_of term.old) }
    ensures globals { known_shapes run.new.ctx ≡ known_shapes run.old.ctx }
    ensures settled { IfOk result
        (HasSettledPart run.old (term_of term.old) i run.new (term_of term.new)) }
{
    let mark = enter(alloc, term, i, run)?;
    let mut part = Core::Bottom;
    term.exchange(i, &mut part);
    let done = settle(alloc, &mut part, run);
    term.exchange(i, &mut part);
    leave(run, mark);
    drop(part);
    done
}

// The part that comes next behind part i, in which something was rewritten or not: the first one that is not settled where now
// a rule may be applied at the node, which changes all its parts.
#[cycle(settle)]
#[inline(never)]
fn part_after(
    alloc: Global,
    term: &mut Core,
    i: u64,
    below: bool,
    run: &mut Descent,
) -> Result<u64, Memory>
    requires has { i < count (parts_of (term_of term.old)) }
    requires typed { IsTypedThere run.old (term_of term.old) }
    requires quiet { IsQuietIfUnchanged below run.old (term_of term.old) }
    ensures globals { known_shapes run.new.ctx ≡ known_shapes run.old.ctx }
    ensures on { IfOk result
        (GoesOn i below run.old (term_of term.old) run.new (term_of term.new)) }
{
    if !below {
        return Ok(i + 1);
    }
    let (again, settled) = settle_node(alloc, term, run)?;
    if again { Ok(settled) } else { Ok(i + 1) }
}

// Rewrites the node until no rule may be applied there. Answers whether it was rewritten, and the number of its first parts
// that are settled. Where a rewriting puts a let there, what it binds is settled before the let is tried: in a chain of lets a
// term that is put into the next one would else grow, and be walked and copied, at each of them.
#[cycle(settle)]
#[inline(never)]
fn settle_node(alloc: Global, term: &mut Core, run: &mut Descent) -> Result<(bool, u64), Memory>
    requires typed { IsTypedThere run.old (term_of term.old) }
    ensures globals { known_shapes run.new.ctx ≡ known_shapes run.old.ctx }
    ensures settled { IfOk result
        (HasSettledNode run.old (term_of term.old) run.new (term_of term.new)) }
{
    let mut changed = false;
    let mut settled = 0;
    loop {
        match rule_at(alloc, term, &mut run.ctx)? {
            Some(firing) => {
                rewrite(alloc, term, firing, run)?;
                settled = settle_bound(alloc, term, run)?;
                changed = true;
            }
            None => return Ok((changed, settled)),
        }
    }
}

// Settles what a let binds. Answers the number of first parts that are settled: one of a let, none of another node.
#[cycle(settle)]
fn settle_bound(alloc: Global, term: &mut Core, run: &mut Descent) -> Result<u64, Memory>
    requires typed { IsTypedThere run.old (term_of term.old) }
    ensures globals { known_shapes run.new.ctx ≡ known_shapes run.old.ctx }
    ensures settled { IfOk result
        (HasSettledFirst run.old (term_of term.old) run.new (term_of term.new)) }
{
    if !is_let(term) {
        return Ok(0);
    }
    settle_part(alloc, term, 0, run)?;
    Ok(1)
}

// Whether the node is a let. It has parts then.
fn is_let(term: &Core) -> bool
    ensures { result ≡ true → 0 < count (parts_of (term_of term.now)) }
{
    match term {
        Core::Let(_, _) => true,
        _ => false,
    }
}

// One rewriting, at the node.
fn rewrite(alloc: Global, term: &mut Core, firing: Firing, run: &mut Descent) -> Result<(), Memory>
    requires typed { IsTypedThere run.old (term_of term.old) }
    requires fires { MayFireThere run.old (term_of term.old) firing }
    ensures globals { known_shapes run.new.ctx ≡ known_shapes run.old.ctx }
    ensures rewritten { OnOk result
        (HasRewritten run.old (term_of term.old) run.new (term_of term.new) true) }
{
    put_right_side(alloc, term, firing)?;
    record_step(alloc, run, firing.rule())
}

// Puts the right side in the place of the term. Where memory is wanting, Bottom may stand there.
fn put_right_side(alloc: Global, term: &mut Core, firing: Firing) -> Result<(), Memory>
    requires applicable { IsApplicable firing (term_of term.old) }
    requires inside { IsSmallPart (term_of term.old) }
    ensures { OnOk result (IsMade firing (term_of term.old) (term_of term.new)) }
{
    let left = mem::replace(term, Core::Bottom);
    *term = apply(alloc, firing, left)?;
    Ok(())
}

// Records a rewriting at the place of the descent.
fn record_step(alloc: Global, run: &mut Descent, rule: Rule) -> Result<(), Memory>
    ensures context { run.new.ctx ≡ run.old.ctx }
    ensures way { run.new.way ≡ run.old.way }
    ensures steps { OnOk result
        (run.new.steps.items ≡ run.old.steps.items ++ step_at run.old rule ∷ []) }
{
    let numbers = Vec::from_slice(alloc, &run.way)?;
    let path = Path(numbers);
    run.steps.push(Step { rule, path })?;
    Ok(())
}

// Goes down to part i of the node.
#[inline(never)]
fn enter(alloc: Global, term: &Core, i: u64, run: &mut Descent) -> Result<Mark, Memory>
    requires has { i < count (parts_of (term_of term.now)) }
    requires inside { IsSmallTerm run.old.ctx.depth (term_of term.now) }
    ensures globals { known_shapes run.new.ctx ≡ known_shapes run.old.ctx }
    ensures entered { IfOk result (HasEntered run.old (term_of term.now) i run.new) }
{
    let mark = run.ctx.push(alloc, term, i)?;
    run.way.push(i as u32)?;
    Ok(mark)
}

// Comes back to the node.
#[inline(never)]
fn leave(run: &mut Descent, mark: Mark)
    ensures { HasLeft run.old mark run.new }
{
    run.ctx.take_back(mark);
    run.way.pop();
}
