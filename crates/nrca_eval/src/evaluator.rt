//! The evaluation of a term: one function a form. The loops of sums, big unions and tabulations
//! run in `loops`, which evaluates their bodies here: both are one recursion.

ghost use Rattle.std.specs.Prelude.{◌≡◌, true};
ghost use Rattle.nrca_term.specs.Term.{form_of};
ghost use Rattle.nrca_term.specs.View.{term_of, terms_of};
ghost use Rattle.nrca_eval.specs.Parts.{is_strict_form, part_terms};
ghost use Rattle.nrca_loops.specs.Evaluates.{Evaluates, EvaluatesAll, EvaluatesSet, default_of, if_of, let_of, sum_loop, tab_of, union_loop};
ghost use Rattle.nrca_numbers.specs.Lending.{lent_datum};
ghost use Rattle.nrca_eval.specs.Loops.{EvaluatesCell};

use crate::index::strict_kept;
use crate::lending::{cell_of_lent, dim_of_lent};
use crate::loops::{fill_cells, sum_members, union_members};
use crate::machine::Machine;
use aql_outside::Gate;
use aql_value::saturating_product;
use nrca_array::Held;
use nrca_forms::{copy_boxed, numbers, sum_of, table_of, union_of};
use nrca_loops::{
    Counted, Env, Members, as_members, from_box, keep_part, members_below, members_of_both,
    parts_kept, position, to_box, truth_kept, variable,
};
use nrca_numbers::{Lent, lent_part, lent_value, quick_test};
use nrca_par::EvalFault;
use nrca_term::{Core, Terms};
use std::thread::Threads;

/// The value of a term and its turns, among the outcomes of the positions and the values of the
/// variables. Spent exactly where the turns pass the budget; a loop or tabulation whose members or
/// cells pass what is left is Spent before its first turn, and so is an `index` whose members do. The
/// value stands on the heap, so that a level of the recursion keeps little on the stack.
#[cycle(eval)]
#[inline(never)]
pub(crate) fn node<R: Threads + Sync, G: Gate>(
    machine: &Machine<R, G>,
    term: &Core,
    env: &Env,
    budget: u64,
) -> Result<Counted<Option<Box<Held>>>, EvalFault>
    ensures { Evaluates budget machine.now.globals.now env.now (term_of term.now) result }
{
    match term {
        Core::Var(at) => variable(machine.alloc, env, *at, budget),
        Core::Global(n) => position(machine.alloc, machine.globals, *n, budget),
        Core::Let(bound, body) => eval_let(machine, bound, body, env, budget),
        Core::If(test, yes, no) => eval_if(machine, test, yes, no, env, budget),
        Core::Default(first, second) => eval_default(machine, first, second, env, budget),
        Core::BigUnion { over, body } => eval_union(machine, over, body, env, budget),
        Core::Sum { over, body } => eval_sum(machine, over, body, env, budget),
        Core::Tab { bounds, body } => eval_tab(machine, bounds, body, env, budget),
        Core::Sub { array, at } => match lent_part(array, machine.globals, &*env) {
            Some(array) => eval_cell(machine, array, at, env, budget),
            None => eval_strict(machine, term, env, budget),
        },
        Core::Dim { rank, array } => match lent_part(array, machine.globals, &*env) {
            Some(array) => dim_of_lent(machine.alloc, array, *rank, budget),
            None => eval_strict(machine, term, env, budget),
        },
        Core::Proj { .. } => match lent_value(term, machine.globals, &*env) {
            Some(part) => copy_boxed(machine.alloc, part, budget),
            None => eval_strict(machine, term, env, budget),
        },
        _ => eval_strict(machine, term, env, budget),
    }
}

// The cell of an array that is lent, and is not copied.
#[cycle(eval)]
#[inline(never)]
fn eval_cell<R: Threads + Sync, G: Gate>(
    machine: &Machine<R, G>,
    array: Lent,
    at: &Terms,
    env: &Env,
    budget: u64,
) -> Result<Counted<Option<Box<Held>>>, EvalFault>
    ensures { EvaluatesCell budget machine.now.globals.now env.now (lent_datum array.entry) at.now
        result }
{
    let at = eval_all(machine, at, env, budget)?;
    Ok(Counted {
        answer: cell_of_lent(machine.alloc, array, at.answer)?,
        turns: at.turns,
    })
}

// A form that evaluates all its parts and binds nothing.
#[cycle(eval)]
#[inline(never)]
fn eval_strict<R: Threads + Sync, G: Gate>(
    machine: &Machine<R, G>,
    term: &Core,
    env: &Env,
    budget: u64,
) -> Result<Counted<Option<Box<Held>>>, EvalFault>
    requires { is_strict_form (form_of (term_of term.now)) ≡ true }
    ensures { Evaluates budget machine.now.globals.now env.now (term_of term.now) result }
{
    let parts = eval_parts(machine, term, env, budget)?;
    let whole = strict_kept(machine, term, parts.answer, budget - parts.turns)?;
    Ok(Counted {
        answer: whole.answer,
        turns: parts.turns + whole.turns,
    })
}

// Every part of a node, from the left, under the variables around the node.
#[cycle(eval)]
#[inline(never)]
fn eval_parts<R: Threads + Sync, G: Gate>(
    machine: &Machine<R, G>,
    term: &Core,
    env: &Env,
    budget: u64,
) -> Result<Counted<Option<Vec<Held>>>, EvalFault>
    ensures { EvaluatesAll budget machine.now.globals.now env.now (part_terms term.now) result }
{
    let mut parts = Some(Vec::new(machine.alloc));
    let mut turns = 0;
    for i in 0..term.parts() {
        match term.part(i) {
            Some(part) => {
                let done = node(machine, part, env, budget - turns)?;
                keep_part(&mut parts, done.answer)?;
                turns += done.turns;
            }
            None => unreachable!(),
        }
    }
    Ok(Counted {
        answer: parts,
        turns,
    })
}

// Terms in a row, from the left.
#[cycle(eval)]
#[inline(never)]
fn eval_all<R: Threads + Sync, G: Gate>(
    machine: &Machine<R, G>,
    terms: &Terms,
    env: &Env,
    budget: u64,
) -> Result<Counted<Option<Vec<Held>>>, EvalFault>
    ensures { EvaluatesAll budget machine.now.globals.now env.now (terms_of terms.now) result }
{
    let mut parts = Some(Vec::new(machine.alloc));
    let mut turns = 0;
    for term in &terms.0 {
        let done = node(machine, term, env, budget - turns)?;
        parts = parts_kept(parts, done.answer)?;
        turns += done.turns;
    }
    Ok(Counted {
        answer: parts,
        turns,
    })
}

#[cycle(eval)]
#[inline(never)]
fn eval_let<R: Threads + Sync, G: Gate>(
    machine: &Machine<R, G>,
    bound: &Core,
    body: &Core,
    env: &Env,
    budget: u64,
) -> Result<Counted<Option<Box<Held>>>, EvalFault>
    ensures { Evaluates budget machine.now.globals.now env.now (let_of bound.now body.now) result }
{
    let Counted { answer, turns } = node(machine, bound, env, budget)?;
    match answer {
        Some(value) => {
            let inner = Env::Bound(&value, &*env);
            let done = node(machine, body, &inner, budget - turns)?;
            Ok(Counted {
                answer: done.answer,
                turns: turns + done.turns,
            })
        }
        None => Ok(Counted {
            answer: None,
            turns,
        }),
    }
}

// A choice. Its test is first tried by `quick_test`, which makes no values on the heap.
#[cycle(eval)]
#[inline(never)]
fn eval_if<R: Threads + Sync, G: Gate>(
    machine: &Machine<R, G>,
    test: &Core,
    yes: &Core,
    no: &Core,
    env: &Env,
    budget: u64,
) -> Result<Counted<Option<Box<Held>>>, EvalFault>
    ensures { Evaluates budget machine.now.globals.now env.now (if_of test.now yes.now no.now)
        result }
{
    match quick_test(test, machine.globals, &*env) {
        Some(true) => node(machine, yes, env, budget),
        Some(false) => node(machine, no, env, budget),
        None => eval_choice(machine, test, yes, no, env, budget),
    }
}

// A choice, whose test is evaluated as any other term.
#[cycle(eval)]
#[inline(never)]
fn eval_choice<R: Threads + Sync, G: Gate>(
    machine: &Machine<R, G>,
    test: &Core,
    yes: &Core,
    no: &Core,
    env: &Env,
    budget: u64,
) -> Result<Counted<Option<Box<Held>>>, EvalFault>
    ensures { Evaluates budget machine.now.globals.now env.now (if_of test.now yes.now no.now)
        result }
{
    let Counted { answer, turns } = node(machine, test, env, budget)?;
    let left = budget - turns;
    match truth_kept(answer) {
        Some(true) => {
            let done = node(machine, yes, env, left)?;
            Ok(Counted {
                answer: done.answer,
                turns: turns + done.turns,
            })
        }
        Some(false) => {
            let done = node(machine, no, env, left)?;
            Ok(Counted {
                answer: done.answer,
                turns: turns + done.turns,
            })
        }
        None => Ok(Counted {
            answer: None,
            turns,
        }),
    }
}

#[cycle(eval)]
#[inline(never)]
fn eval_default<R: Threads + Sync, G: Gate>(
    machine: &Machine<R, G>,
    first: &Core,
    second: &Core,
    env: &Env,
    budget: u64,
) -> Result<Counted<Option<Box<Held>>>, EvalFault>
    ensures { Evaluates budget machine.now.globals.now env.now (default_of first.now second.now)
        result }
{
    let Counted { answer, turns } = node(machine, first, env, budget)?;
    match answer {
        Some(value) => Ok(Counted {
            answer: Some(value),
            turns,
        }),
        None => {
            let done = node(machine, second, env, budget - turns)?;
            Ok(Counted {
                answer: done.answer,
                turns: turns + done.turns,
            })
        }
    }
}

// The members of a loop's operand. Those of `gen` and of `union` are not made into a set.
#[cycle(eval)]
#[inline(never)]
fn eval_members<R: Threads + Sync, G: Gate>(
    machine: &Machine<R, G>,
    over: &Core,
    env: &Env,
    budget: u64,
) -> Result<Counted<Option<Members>>, EvalFault>
    ensures { EvaluatesSet budget machine.now.globals.now env.now (term_of over.now) result }
{
    match over {
        Core::Gen(number) => {
            let Counted { answer, turns } = node(machine, number, env, budget)?;
            let members = members_below(from_box(answer), budget - turns)?;
            Ok(Counted {
                answer: members.answer,
                turns: turns + members.turns,
            })
        }
        Core::Union(first, second) => {
            let Counted { answer, turns } = node(machine, first, env, budget)?;
            let other = node(machine, second, env, budget - turns)?;
            Ok(Counted {
                answer: members_of_both(from_box(answer), from_box(other.answer)),
                turns: turns + other.turns,
            })
        }
        _ => {
            let set = node(machine, over, env, budget)?;
            Ok(Counted {
                answer: as_members(from_box(set.answer)),
                turns: set.turns,
            })
        }
    }
}

#[cycle(eval)]
#[inline(never)]
fn eval_sum<R: Threads + Sync, G: Gate>(
    machine: &Machine<R, G>,
    over: &Core,
    body: &Core,
    env: &Env,
    budget: u64,
) -> Result<Counted<Option<Box<Held>>>, EvalFault>
    ensures { Evaluates budget machine.now.globals.now env.now (sum_loop over.now body.now) result }
{
    let Counted { answer, turns } = eval_members(machine, over, env, budget)?;
    let left = budget - turns;
    let Some(members) = answer else {
        return Ok(Counted {
            answer: None,
            turns,
        });
    };
    let count = members.len();
    if count > u128::from(left) {
        drop(members);
        return Err(EvalFault::Spent);
    }
    let count = count as u64;
    let run = sum_members(machine, body, env, &members, count, left - count);
    drop(members);
    let run = run?;
    Ok(Counted {
        answer: to_box(machine.alloc, sum_of(run.answer))?,
        turns: turns + count + run.turns,
    })
}

#[cycle(eval)]
#[inline(never)]
fn eval_union<R: Threads + Sync, G: Gate>(
    machine: &Machine<R, G>,
    over: &Core,
    body: &Core,
    env: &Env,
    budget: u64,
) -> Result<Counted<Option<Box<Held>>>, EvalFault>
    ensures { Evaluates budget machine.now.globals.now env.now
        (union_loop over.now body.now) result }
{
    let Counted { answer, turns } = eval_members(machine, over, env, budget)?;
    let left = budget - turns;
    let Some(members) = answer else {
        return Ok(Counted {
            answer: None,
            turns,
        });
    };
    let count = members.len();
    if count > u128::from(left) {
        drop(members);
        return Err(EvalFault::Spent);
    }
    let count = count as u64;
    let run = union_members(machine, body, env, &members, count, left - count);
    drop(members);
    let run = run?;
    Ok(Counted {
        answer: to_box(machine.alloc, union_of(run.answer))?,
        turns: turns + count + run.turns,
    })
}

#[cycle(eval)]
#[inline(never)]
fn eval_tab<R: Threads + Sync, G: Gate>(
    machine: &Machine<R, G>,
    bounds: &Terms,
    body: &Core,
    env: &Env,
    budget: u64,
) -> Result<Counted<Option<Box<Held>>>, EvalFault>
    ensures { Evaluates budget machine.now.globals.now env.now (tab_of bounds.now body.now) result }
{
    let Counted { answer, turns } = eval_all(machine, bounds, env, budget)?;
    let left = budget - turns;
    let Some(dims) = numbers(machine.alloc, answer)? else {
        return Ok(Counted {
            answer: None,
            turns,
        });
    };
    let count = saturating_product(dims.dims.as_slice());
    if count > u128::from(left) {
        return Err(EvalFault::Spent);
    }
    let count = count as u64;
    let run = fill_cells(machine, body, env, &dims, count, left - count)?;
    Ok(Counted {
        answer: to_box(machine.alloc, table_of(dims, run.answer)?)?,
        turns: turns + count + run.turns,
    })
}
