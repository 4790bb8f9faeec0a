//! The outcomes of evaluations.

use aql_value::{Memory, Value};
use nrca_array::Held;
use nrca_par::EvalFault;
use std::alloc::Global;

// Whether a value that was found is the one that is wanted.
fn same(alloc: Global, found: &Option<Held>, wanted: &Option<Value>) -> Result<bool, Memory> {
    match (found, wanted) {
        (Some(found), Some(wanted)) => Ok(found.to_value(alloc)? == *wanted),
        (None, None) => Ok(true),
        _ => Ok(false),
    }
}

/// A term, its value, and its turns.
pub type Row = (&'static str, &'static str, u16);

/// The turns of an evaluation that found the value that is wanted, none of one that found another, or why there is none.
pub type Outcome = Result<Option<u128>, EvalFault>;

/// What a row says of an evaluation within a budget: Spent where its turns pass it.
pub(crate) fn wanted_outcome(row: &Row, budget: u64) -> Outcome {
    if budget < u64::from(row.2) {
        Err(EvalFault::Spent)
    } else {
        Ok(Some(u128::from(row.2)))
    }
}

/// The outcome of an evaluation that found this value in so many turns.
pub fn outcome(
    alloc: Global,
    found: &Option<Held>,
    wanted: &Option<Value>,
    turns: u128,
) -> Outcome {
    if same(alloc, found, wanted)? {
        Ok(Some(turns))
    } else {
        Ok(None)
    }
}
