//! The branch that a choice comes to, where its test is found without memory, turns or faults.

ghost use Rattle.nrca_numbers.specs.Choices.{AreWorthTheSame, IsNoHeavier, TakeTheSame};

use crate::single::quick_truth;
use nrca_loops::{Env, Globals};
use nrca_term::Core;

/// The branch that a term comes to by tests that `quick_truth` finds, as far as it finds them: the
/// term itself where it is no choice. It is worth what the term is, or undefined as it is, and takes
/// the term's turns.
pub fn chosen_branch<'t>(term: &'t Core, globals: &Globals, env: &Env) -> &'t Core
    ensures value { AreWorthTheSame globals.now env.now result.now term.now }
    ensures turns { TakeTheSame globals.now env.now result.now term.now }
    ensures weight { IsNoHeavier result.now term.now }
{
    match term {
        Core::If(test, yes, no) => match quick_truth(test, globals, env) {
            Some(true) => chosen_branch(yes, globals, env),
            Some(false) => chosen_branch(no, globals, env),
            None => term,
        },
        _ => term,
    }
}
