//! What an evaluation answers.

ghost use Rattle.nrca_loops.specs.Within.{IsBeside};

use nrca_array::Held;
use nrca_par::EvalFault;

/// What an evaluation came to: its value, or none where it is undefined, and the turns it took.
#[derive(Drop)]
pub struct Done {
    pub value: Option<Held>,
    pub turns: u128,
}

/// An answer and the turns that it took.
#[derive(Drop)]
pub struct Counted<T> {
    pub answer: T,
    pub turns: u64,
}

/// The value, and the answer where there is one.
pub fn join_done<A: Drop, B: Drop>(
    value: A,
    answer: Result<B, EvalFault>,
) -> Result<(A, B), EvalFault>
    ensures { IsBeside value answer result }
{
    let answer = answer?;
    Ok((value, answer))
}
