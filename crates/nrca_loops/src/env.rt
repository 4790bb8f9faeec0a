//! The values among which a term is evaluated: those of the positions and of the variables.

ghost use Rattle.std.specs.Prelude.{◌≡◌, List, Some, IfOk, IfSome, slice_get};
ghost use Rattle.aql_value.specs.Datum.{Datum};
ghost use Rattle.nrca_array.specs.Held.{held_datum};
ghost use Rattle.nrca_term.specs.Meaning.{outcome};
ghost use Rattle.nrca_loops.specs.Values.{values, held_value, boxed_value, FindsIndex};
ghost use Rattle.nrca_loops.specs.Within.{Within};
ghost use Rattle.nrca_loops.specs.Evaluates.{IsWorth, TakesNone};

use crate::boxes::to_box;
use crate::done::Counted;
use aql_value::{Memory, Value};
use nrca_array::Held;
use nrca_par::EvalFault;
use nrca_term::Core;
use std::alloc::Global;
use std::marker::Model;

/// The value of each position, or none where it is undefined or has no value. Contracts see the
/// list of outcomes.
#[derive(Drop)]
pub struct Globals {
    pub list: Vec<Option<Held>>,
}

impl Model for Globals {
    ghost use Rattle.std.specs.Prelude.{List, Option};
    ghost use Rattle.std.specs.Coded.{coded_list, coded_option};
    ghost use Rattle.aql_value.specs.Datum.{Datum};
    ghost use Rattle.aql_value.specs.DatumCode.{coded_datum};

    ghost Value = { List (Option Datum) };

    ghost coded = { coded_list (coded_option coded_datum) };

    ghost use Rattle.std.specs.Prelude.{map};
    ghost use Rattle.std.specs.Option.{option_map};
    ghost use Rattle.nrca_array.specs.Held.{held_datum};

    ghost view = { λ a. map (λ o. option_map held_datum o) a.list.items };
}

impl Globals {
    /// The outcome of a position, counted from 1: none where there is no such position.
    pub fn outcome(&self, alloc: Global, n: u64) -> Result<Option<Held>, Memory>
        ensures { IfOk result (λ v. held_value v ≡ outcome self.now n) }
    {
        if n == 0 {
            return Ok(None);
        }
        let i = (n - 1) as usize;
        if i < self.list.len() {
            copy_env(alloc, &self.list[i])
        } else {
            Ok(None)
        }
    }

    // The value of a position, where it has one.
    fn lend_outcome(&self, n: u64) -> Option<&Held>
        ensures { IfSome result (λ h. outcome self.now n ≡ Some (held_datum h.now)) }
    {
        if n == 0 {
            return None;
        }
        let i = (n - 1) as usize;
        if i < self.list.len() {
            self.list[i].as_ref()
        } else {
            None
        }
    }
}

fn copy_env(alloc: Global, held: &Option<Held>) -> Result<Option<Held>, Memory>
    ensures { IfOk result (λ v. held_value v ≡ held_value held.now) }
{
    match held {
        Some(value) => Ok(Some(value.copy(alloc)?)),
        None => Ok(None),
    }
}

/// The values of the variables, the innermost first.
#[derive(Drop)]
pub enum Env<'a> {
    Empty,
    /// One variable more.
    Bound(&'a Held, &'a Env<'a>),
    /// A variable more for each number of an index, the last number the innermost.
    Indices(&'a [u128], &'a Env<'a>),
}

/// The value of a variable: none where there is no such variable.
pub(crate) fn lookup(alloc: Global, env: &Env, at: u64) -> Result<Option<Held>, Memory>
    ensures { IfOk result (λ v. held_value v ≡ slice_get (values env.now) at) }
{
    match env {
        Env::Empty => Ok(None),
        Env::Bound(value, rest) => {
            if at == 0 {
                Ok(Some(value.copy(alloc)?))
            } else {
                lookup(alloc, rest, at - 1)
            }
        }
        Env::Indices(numbers, rest) => match index_variable(numbers, at) {
            Ok(number) => Ok(Some(Held::Value(Value::Nat(number)))),
            Err(beyond) => lookup(alloc, rest, beyond),
        },
    }
}

/// The number of an index that a variable is, the last being variable 0, or the variable's number
/// beyond the index.
pub fn index_variable(numbers: &[u128], at: u64) -> Result<u128, u64>
    ensures { FindsIndex numbers.now at result }
{
    let count = numbers.len() as u64;
    if at < count {
        Ok(numbers[(count - 1 - at) as usize])
    } else {
        Err(at - count)
    }
}

/// The value that a variable or a position holds, where the term is one of these: it is lent and not
/// copied.
#[inline(never)]
pub fn lend_value<'a, 'b>(term: &Core, globals: &'a Globals, env: &'a Env<'b>) -> Option<&'a Held>
    ensures value { IfSome result (λ h. IsWorth globals.now env.now term.now h.now) }
    ensures turns { IfSome result (λ h. TakesNone globals.now env.now term.now) }
{
    match term {
        Core::Var(at) => lent_variable(env, *at),
        Core::Global(n) => globals.lend_outcome(*n),
        _ => None,
    }
}

// The value that a variable holds. The number of an index is not held.
fn lent_variable<'a, 'b>(env: &'a Env<'b>, at: u64) -> Option<&'a Held>
    ensures { IfSome result (λ h. slice_get (values env.now) at ≡ Some (held_datum h.now)) }
{
    match env {
        Env::Empty => None,
        Env::Bound(value, rest) => {
            if at == 0 {
                Some(&**value)
            } else {
                lent_variable(&**rest, at - 1)
            }
        }
        Env::Indices(numbers, rest) => match index_variable(numbers, at) {
            Ok(_number) => None,
            Err(beyond) => lent_variable(&**rest, beyond),
        },
    }
}

/// The value of a variable, without turns.
#[inline(never)]
pub fn variable(
    alloc: Global,
    env: &Env,
    at: u64,
    budget: u64,
) -> Result<Counted<Option<Box<Held>>>, EvalFault>
    ensures { Within boxed_value budget (slice_get (values env.now) at) 0 result }
{
    let value = lookup(alloc, env, at)?;
    Ok(Counted {
        answer: to_box(alloc, value)?,
        turns: 0,
    })
}

/// The outcome of a position, without turns.
#[inline(never)]
pub fn position(
    alloc: Global,
    globals: &Globals,
    n: u64,
    budget: u64,
) -> Result<Counted<Option<Box<Held>>>, EvalFault>
    ensures { Within boxed_value budget (outcome globals.now n) 0 result }
{
    let value = globals.outcome(alloc, n)?;
    Ok(Counted {
        answer: to_box(alloc, value)?,
        turns: 0,
    })
}
