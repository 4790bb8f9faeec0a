//! Terms that are numbers or truth values.

ghost use Rattle.std.specs.Prelude.{IfSome};
ghost use Rattle.nrca_loops.specs.Evaluates.{TakesNone};
ghost use Rattle.nrca_numbers.specs.Lending.{lent_datum};
ghost use Rattle.nrca_numbers.specs.Quick.{IsNumber, IsTruth, IsCell, TakeNone};

use crate::comparing::lent_compare;
use crate::lending::{Lent, lent_part, lent_value};
use crate::naturals::{
    held_number, lent_cell, lent_dim, number_compare, value_number, variable_number,
};
use nrca_loops::{Env, Globals, lend_value};
use nrca_term::{Core, Terms};

/// The number that a term is, where it is found so; it takes no turns then. Of arrays that are lent
/// the cells that are numbers, and the one dimension of an array of rank 1, are read, and the parts of
/// tuples that are lent.
#[cycle(quick)]
pub fn quick(term: &Core, globals: &Globals, env: &Env) -> Option<u128>
    ensures value { IfSome result (λ n. IsNumber globals.now env.now term.now n) }
    ensures turns { IfSome result (λ n. TakesNone globals.now env.now term.now) }
{
    match term {
        Core::Nat(n) => Some(*n),
        Core::Var(at) => variable_number(env, *at),
        Core::Global(_) => match lend_value(term, &*globals, &*env) {
            Some(held) => held_number(held),
            None => None,
        },
        Core::Arith(op, first, second) => {
            let Some(a) = quick(first, globals, env) else {
                return None;
            };
            let Some(b) = quick(second, globals, env) else {
                return None;
            };
            op.apply(a, b)
        }
        Core::If(test, yes, no) => match quick_truth(test, globals, env) {
            Some(true) => quick(yes, globals, env),
            Some(false) => quick(no, globals, env),
            None => None,
        },
        Core::Let(bound, body) => match lend_value(bound, &*globals, &*env) {
            Some(value) => {
                let inner = Env::Bound(value, &*env);
                quick(body, &*globals, &inner)
            }
            None => match quick(bound, &*globals, &*env) {
                Some(number) => {
                    let numbers = [number];
                    let inner = Env::Indices(&numbers, &*env);
                    quick(body, &*globals, &inner)
                }
                None => None,
            },
        },
        Core::Proj { .. } => quick_part(term, globals, env),
        Core::Sub { array, at } => match lent_part(array, &*globals, &*env) {
            Some(array) => quick_cell(array, at, &*globals, &*env),
            None => None,
        },
        Core::Dim { rank, array } => match lent_part(array, &*globals, &*env) {
            Some(array) => lent_dim(array, *rank),
            None => None,
        },
        _ => None,
    }
}

/// The truth value that a term is, where it is found so; it takes no turns then.
#[cycle(quick)]
pub(crate) fn quick_truth(term: &Core, globals: &Globals, env: &Env) -> Option<bool>
    ensures value { IfSome result (λ b. IsTruth globals.now env.now term.now b) }
    ensures turns { IfSome result (λ b. TakesNone globals.now env.now term.now) }
{
    match term {
        Core::Bool(b) => Some(*b),
        Core::Compare(op, first, second) => match quick(first, globals, env) {
            Some(a) => match quick(second, globals, env) {
                Some(b) => Some(number_compare(*op, a, b)),
                None => None,
            },
            None => lent_compare(*op, first, second, globals, env),
        },
        Core::If(test, yes, no) => match quick_truth(test, globals, env) {
            Some(true) => quick_truth(yes, globals, env),
            Some(false) => quick_truth(no, globals, env),
            None => None,
        },
        _ => None,
    }
}

// The number that a cell of an array is, at the index that terms are. An array has at most 8
// dimensions. The index stands here, so that a level of the recursion keeps little on the stack.
#[cycle(quick)]
#[inline(never)]
fn quick_cell(array: Lent, at: &Terms, globals: &Globals, env: &Env) -> Option<u128>
    ensures value { IfSome result (λ n. IsCell globals.now env.now (lent_datum array.entry) at.now
        n) }
    ensures turns { IfSome result (λ n. TakeNone globals.now env.now at.now) }
{
    let mut index = [0u128; 8];
    let mut count = 0;
    for term in &at.0 {
        let Some(n) = quick(term, globals, env) else {
            return None;
        };
        if count == 8 {
            return None;
        }
        index[count] = n;
        count += 1;
    }
    lent_cell(array, &index[..count])
}

// The number that a part of a tuple that is lent is.
#[inline(never)]
fn quick_part(term: &Core, globals: &Globals, env: &Env) -> Option<u128>
    ensures value { IfSome result (λ n. IsNumber globals.now env.now term.now n) }
    ensures turns { IfSome result (λ n. TakesNone globals.now env.now term.now) }
{
    match lent_value(term, globals, env) {
        Some(value) => value_number(value),
        None => None,
    }
}

/// The truth value that the test of a choice is, where it is found so without a choice within it.
/// A choice in a test is left to its own evaluation: so where tests are nested, and none is found so,
/// each is walked once, and not once for each around it.
pub fn quick_test(test: &Core, globals: &Globals, env: &Env) -> Option<bool>
    ensures value { IfSome result (λ b. IsTruth globals.now env.now test.now b) }
    ensures turns { IfSome result (λ b. TakesNone globals.now env.now test.now) }
{
    match test {
        Core::Compare(_, first, second) => {
            if is_plain(first) && is_plain(second) {
                quick_truth(test, globals, env)
            } else {
                None
            }
        }
        Core::Bool(b) => Some(*b),
        _ => None,
    }
}

// Whether each form in the term is one that `quick` knows, and none of them is a choice.
#[cycle(plain)]
fn is_plain(term: &Core) -> bool {
    match term {
        Core::Nat(_) => true,
        Core::Text(_) => true,
        Core::Var(_) => true,
        Core::Global(_) => true,
        Core::Arith(_, first, second) => is_plain(first) && is_plain(second),
        Core::Let(bound, body) => is_plain(bound) && is_plain(body),
        Core::Proj { part, .. } => is_plain(part),
        Core::Sub { array, at } => is_plain(array) && are_plain(at),
        Core::Dim { array, .. } => is_plain(array),
        _ => false,
    }
}

#[cycle(plain)]
fn are_plain(terms: &Terms) -> bool {
    for term in &terms.0 {
        if !is_plain(term) {
            return false;
        }
    }
    true
}
