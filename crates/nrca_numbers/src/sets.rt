//! Terms that are sets of at most one number or pair of numbers: the bodies of most comprehensions.

ghost use Rattle.std.specs.Prelude.{◌≡◌, ◌++◌, Some, IfSome, IfOk};
ghost use Rattle.aql_value.specs.Canon.{canon};
ghost use Rattle.nrca_loops.specs.Evaluates.{TakesNone};
ghost use Rattle.nrca_numbers.specs.Few.{AddsSet, AreTwo, IsFew, IsSmall, few_members};
ghost use Rattle.nrca_numbers.specs.Quick.{IsNumber, TakeNone};

use crate::single::{quick, quick_truth};
use crate::small::small;
use aql_value::Memory;
use nrca_loops::{Env, Globals, lend_value};
use nrca_sets::Gather;
use nrca_term::{Core, Terms};
use std::alloc::Global;

/// A number of 64 bits, or a pair of such.
#[derive(Clone, Copy)]
pub enum Small {
    Number(u64),
    Pair(u64, u64),
}

/// A set of at most one member, a number of 64 bits or a pair of such.
#[derive(Clone, Copy)]
pub enum AtMostOne {
    Nothing,
    One(Small),
}

/// The set that a term is, where it is found to be such a set; it takes no turns then.
#[cycle(few)]
pub fn few(term: &Core, globals: &Globals, env: &Env) -> Option<AtMostOne>
    ensures value { IfSome result (λ f. IsFew globals.now env.now term.now f) }
    ensures turns { IfSome result (λ f. TakesNone globals.now env.now term.now) }
{
    match term {
        Core::Empty => Some(AtMostOne::Nothing),
        Core::Single(of) => match quick_member(of, globals, env) {
            Some(member) => Some(AtMostOne::One(member)),
            None => None,
        },
        Core::If(test, yes, no) => match quick_truth(test, globals, env) {
            Some(true) => few(yes, globals, env),
            Some(false) => few(no, globals, env),
            None => None,
        },
        Core::Let(bound, body) => match lend_value(bound, &*globals, &*env) {
            Some(value) => {
                let inner = Env::Bound(value, &*env);
                few(body, &*globals, &inner)
            }
            None => match quick(bound, &*globals, &*env) {
                Some(number) => {
                    let numbers = [number];
                    let inner = Env::Indices(&numbers, &*env);
                    few(body, &*globals, &inner)
                }
                None => None,
            },
        },
        _ => None,
    }
}

// The number or the pair of numbers that a term is, where it is found to be one.
fn quick_member(term: &Core, globals: &Globals, env: &Env) -> Option<Small>
    ensures value { IfSome result (λ s. IsSmall globals.now env.now term.now s) }
    ensures turns { IfSome result (λ s. TakesNone globals.now env.now term.now) }
{
    match term {
        Core::Tuple(parts) => match quick_pair(parts, globals, env) {
            Some((m, n)) => Some(Small::Pair(m, n)),
            None => None,
        },
        _ => match small_number(term, globals, env) {
            Some(number) => Some(Small::Number(number)),
            None => None,
        },
    }
}

// The two numbers that terms are, where there are two.
fn quick_pair(parts: &Terms, globals: &Globals, env: &Env) -> Option<(u64, u64)>
    ensures value { IfSome result (λ p. AreTwo globals.now env.now parts.now p) }
    ensures turns { IfSome result (λ p. TakeNone globals.now env.now parts.now) }
{
    if parts.0.len() != 2 {
        return None;
    }
    let Some(m) = small_number(&parts.0[0], globals, env) else {
        return None;
    };
    let Some(n) = small_number(&parts.0[1], globals, env) else {
        return None;
    };
    Some((m, n))
}

// The number that a term is, where it is found and has 64 bits.
fn small_number(term: &Core, globals: &Globals, env: &Env) -> Option<u64>
    ensures value { IfSome result (λ n. IsNumber globals.now env.now term.now n) }
    ensures turns { IfSome result (λ n. TakesNone globals.now env.now term.now) }
{
    small(quick(term, globals, env)?)
}

/// The members so far, and those of such a set.
pub fn members_and_few(
    alloc: Global,
    members: Option<Gather>,
    set: AtMostOne,
) -> Result<Option<Gather>, Memory>
    ensures { IfOk result (λ ms. AddsSet members (Some (few_members set)) ms) }
{
    match members {
        Some(members) => Ok(Some(with_few(alloc, members, set)?)),
        None => Ok(None),
    }
}

#[tactic(auto, using(aql_value::specs::Laws::Set::canon_append_left, crate::proofs::Pairs::no_more))]
fn with_few(alloc: Global, members: Gather, set: AtMostOne) -> Result<Gather, Memory>
    ensures { IfOk result (λ ms. canon ms ≡ canon (canon members ++ few_members set)) }
{
    match set {
        AtMostOne::Nothing => Ok(members),
        AtMostOne::One(Small::Number(n)) => Ok(members.one(alloc, n)?),
        AtMostOne::One(Small::Pair(m, n)) => Ok(members.two(alloc, m, n)?),
    }
}
