//! The right side of a move.

ghost use Rattle.std.specs.Prelude.{◌<◌, IfOk};
ghost use Rattle.nrca_term.specs.Term.{parts_of, count};
ghost use Rattle.nrca_term.specs.View.{term_of};
ghost use Rattle.nrca_motion.specs.declared.moves.MoveRule.TheVariants.{M1};
ghost use Rattle.nrca_motion.specs.Fitting.{FitsAt, IsMade, IsStrictLet};
ghost use Rattle.nrca_motion.specs.Making.{HasLetBelow, IsTestOut, IsLetOut, IsStrictOut, IsAround};
ghost use Rattle.nrca_motion.specs.Outside.{HasRoom};

use crate::fitting::Fit;
use crate::moves::MoveRule;
use crate::outside::{rotate, strengthen};
use aql_value::Memory;
use nrca_subst::shift;
use nrca_term::{Core, open, put};
use std::alloc::Global;

/// The right side. A call of its own, so that a level of the recursion to the place keeps little on the stack.
#[inline(never)]
pub fn make(alloc: Global, fit: Fit, term: Core) -> Result<Core, Memory>
    requires fits { FitsAt fit.rule fit.part (term_of term) }
    requires room { HasRoom (term_of term) }
    ensures { IfOk result (λ r. IsMade fit (term_of term) (term_of r)) }
{
    match fit.rule {
        MoveRule::M1 => {
            let right = test_out(alloc, term)?;
            Ok(right)
        }
        MoveRule::M2 => {
            let right = let_out(alloc, term, fit.part)?;
            Ok(right)
        }
        MoveRule::M3 => {
            let right = let_out(alloc, term, fit.part)?;
            Ok(right)
        }
        MoveRule::M4 => Ok(strict_out(term, fit.part)),
    }
}

// The loop's test around the loop.
fn test_out(alloc: Global, term: Core) -> Result<Core, Memory>
    requires fits { FitsAt M1 1 (term_of term) }
    requires room { HasRoom (term_of term) }
    ensures { IfOk result (λ r. IsTestOut (term_of term) (term_of r)) }
{
    match term {
        Core::BigUnion { over, body } => {
            let (room, chosen) = open(body);
            match chosen {
                Core::If(test, yes, no) => {
                    let (place, inner) = open(test);
                    match strengthen(alloc, inner, 1)? {
                        Some(outer) => {
                            let looped = put(room, Core::BigUnion { over, body: yes });
                            Ok(Core::If(put(place, outer), looped, no))
                        }
                        None => unreachable!(),
                    }
                }
                _ => unreachable!(),
            }
        }
        Core::Sum { over, body } => {
            let (room, chosen) = open(body);
            match chosen {
                Core::If(test, yes, no) => {
                    let (place, inner) = open(test);
                    match strengthen(alloc, inner, 1)? {
                        Some(outer) => {
                            let looped = put(room, Core::Sum { over, body: yes });
                            Ok(Core::If(put(place, outer), looped, no))
                        }
                        None => unreachable!(),
                    }
                }
                _ => unreachable!(),
            }
        }
        _ => unreachable!(),
    }
}

// The let of part i, which uses none of the part's own variables, around the node.
fn let_out(alloc: Global, term: Core, i: u64) -> Result<Core, Memory>
    requires fits { HasLetBelow (term_of term) i }
    requires room { HasRoom (term_of term) }
    ensures { IfOk result (λ r. IsLetOut (term_of term) i (term_of r)) }
{
    let count = term.binders(i);
    let (rest, part) = term.swap_part(i, Core::Bottom);
    match part {
        Core::Let(bound, body) => {
            let (first, inner) = open(bound);
            let (second, under) = open(body);
            match strengthen(alloc, inner, count)? {
                Some(outer) => {
                    let turned = rotate(alloc, under, count)?;
                    Ok(wrap_in_let(put(first, outer), second, rest, i, turned))
                }
                None => unreachable!(),
            }
        }
        _ => unreachable!(),
    }
}

// The let of part i, which is strict, around the node.
fn strict_out(term: Core, i: u64) -> Core
    requires fits { IsStrictLet (term_of term) i }
    requires room { HasRoom (term_of term) }
    ensures { IsStrictOut (term_of term) i (term_of result) }
{
    let (rest, part) = term.swap_part(i, Core::Bottom);
    match part {
        Core::Let(bound, body) => {
            let (second, under) = open(body);
            wrap_in_let(bound, second, rest, i, under)
        }
        _ => unreachable!(),
    }
}

// A let around the node, which has room for its variable, with another part i.
fn wrap_in_let(bound: Box<Core>, room: Box<Core>, rest: Core, i: u64, part: Core) -> Core
    requires has { i < count (parts_of (term_of rest)) }
    requires room { HasRoom (term_of rest) }
    ensures { IsAround (term_of bound.value) (term_of rest) i (term_of part) (term_of result) }
{
    let deeper = shift(rest, 0, 1);
    Core::Let(bound, put(room, deeper.put_part(i, part)))
}
