//! Which move may be made at a node.

ghost use Rattle.std.specs.Prelude.{◌≡◌, ◌+◌, IfOk};
ghost use Rattle.nrca_term.specs.Term.{Form, form_of};
ghost use Rattle.nrca_term.specs.View.{term_of};
ghost use Rattle.nrca_ranges.specs.Context.{IsSmallTerm};
ghost use Rattle.nrca_motion.specs.declared.moves.MoveRule.TheVariants.{M1};
ghost use Rattle.nrca_motion.specs.Fitting.{TellsPart, TellsStrict, TellsLet, HasForm, TellsForm, TellsOut, TellsOperand, TellsMove, TellsNode};

use crate::moves::MoveRule;
use crate::outside::strengthen;
use aql_value::Memory;
use nrca_defined::defined;
use nrca_ranges::Ctx;
use nrca_subst::{strict, uses};
use nrca_term::Core;
use std::alloc::Global;

/// A move of a node: its rule, and the part out of which it moves something.
#[derive(Clone, Copy, Drop)]
pub struct Fit {
    pub rule: MoveRule,
    pub part: u64,
}

/// The move that may be made at the node, where there is one: M4 before the others, and of M4 that of the first part. All
/// that the rule wants defined is sure to have a value at the place of the node. A call of its own, so that a level of the
/// search keeps little on the stack.
#[inline(never)]
pub(crate) fn fit_at(alloc: Global, term: &Core, ctx: &Ctx) -> Result<Option<Fit>, Memory>
    requires inside { IsSmallTerm ctx.now.depth (term_of term.now) }
    ensures { IfOk result (TellsNode ctx.now (term_of term.now)) }
{
    if let Some(part) = strict_let(term) {
        return Ok(Some(Fit {
            rule: MoveRule::M4,
            part,
        }));
    }
    match form_at(term) {
        Some(fit) => {
            let sure = is_sure(alloc, term, fit, ctx)?;
            if sure { Ok(Some(fit)) } else { Ok(None) }
        }
        None => Ok(None),
    }
}

// The first let in a strict part: one without whose value the node has none.
fn strict_let(term: &Core) -> Option<u64>
    ensures { TellsStrict (term_of term.now) result }
{
    match term {
        Core::Let(_, _) => None,
        _ => first_let(term),
    }
}

// The same of a node that is no let.
fn first_let(term: &Core) -> Option<u64>
    requires { form_of (term_of term.now) ≡ Form.bind → ⊥ }
    ensures { TellsStrict (term_of term.now) result }
{
    for i in 0..term.parts() {
        if is_strict_let(term, i) {
            return Some(i);
        }
    }
    None
}

// Whether part i is a let and strict.
fn is_strict_let(term: &Core, i: u64) -> bool
    requires { form_of (term_of term.now) ≡ Form.bind → ⊥ }
    ensures { TellsPart (term_of term.now) i result }
{
    if !strict(term, i) {
        return false;
    }
    match term.part(i) {
        Some(part) => match part {
            Core::Let(_, _) => true,
            _ => false,
        },
        None => false,
    }
}

// Which of M1, M2 and M3 has the node as its left side, but for what the terms use and whether they are defined.
fn form_at(term: &Core) -> Option<Fit>
    ensures { TellsForm (term_of term.now) result }
{
    match term {
        Core::BigUnion { over: _, body } => match &**body {
            Core::If(_, _, other) => match **other {
                Core::Empty => Some(Fit {
                    rule: MoveRule::M1,
                    part: 1,
                }),
                _ => None,
            },
            Core::Let(_, _) => Some(Fit {
                rule: MoveRule::M2,
                part: 1,
            }),
            _ => None,
        },
        Core::Sum { over: _, body } => match &**body {
            Core::If(_, _, other) => match **other {
                Core::Nat(n) => {
                    if n == 0 {
                        Some(Fit {
                            rule: MoveRule::M1,
                            part: 1,
                        })
                    } else {
                        None
                    }
                }
                _ => None,
            },
            Core::Let(_, _) => Some(Fit {
                rule: MoveRule::M2,
                part: 1,
            }),
            _ => None,
        },
        Core::Tab { bounds, body } => {
            if is_let(body) {
                Some(Fit {
                    rule: MoveRule::M3,
                    part: bounds.0.len() as u64,
                })
            } else {
                None
            }
        }
        _ => None,
    }
}

// Whether the term is a let.
fn is_let(term: &Core) -> bool
    ensures { TellsLet (term_of term.now) result }
{
    match term {
        Core::Let(_, _) => true,
        _ => false,
    }
}

// Whether the terms that the rule wants defined are sure to have a value, and use no variable that they go out of.
fn is_sure(alloc: Global, term: &Core, fit: Fit, ctx: &Ctx) -> Result<bool, Memory>
    requires form { HasForm fit.rule fit.part (term_of term.now) }
    requires inside { IsSmallTerm ctx.now.depth (term_of term.now) }
    ensures { IfOk result (TellsMove ctx.now (term_of term.now) fit) }
{
    match term.part(fit.part) {
        Some(body) => match body.part(0) {
            Some(first) => {
                let sure = is_sure_outside(alloc, first, term.binders(fit.part), ctx)?;
                if !sure {
                    return Ok(false);
                }
                match fit.rule {
                    MoveRule::M1 => {
                        let found = is_operand_sure(alloc, term, ctx)?;
                        Ok(found)
                    }
                    _ => Ok(true),
                }
            }
            None => unreachable!(),
        },
        None => unreachable!(),
    }
}

// Whether a term that stands under `count` further variables uses none of them and is sure to have a value outside of them.
fn is_sure_outside(alloc: Global, term: &Core, count: u64, ctx: &Ctx) -> Result<bool, Memory>
    requires inside { IsSmallTerm (ctx.now.depth + count) (term_of term.now) }
    ensures { IfOk result (TellsOut ctx.now count (term_of term.now)) }
{
    if count > 0 && uses(term, 0) != 0 {
        return Ok(false);
    }
    let copied = term.copy(alloc)?;
    match strengthen(alloc, copied, count)? {
        Some(lowered) => {
            let found = defined(alloc, &lowered, ctx)?;
            Ok(found)
        }
        None => Ok(false),
    }
}

// Whether the first part is sure to have a value.
fn is_operand_sure(alloc: Global, term: &Core, ctx: &Ctx) -> Result<bool, Memory>
    requires form { HasForm M1 1 (term_of term.now) }
    requires inside { IsSmallTerm ctx.now.depth (term_of term.now) }
    ensures { IfOk result (TellsOperand ctx.now (term_of term.now)) }
{
    match term.part(0) {
        Some(over) => {
            let found = defined(alloc, over, ctx)?;
            Ok(found)
        }
        None => unreachable!(),
    }
}
