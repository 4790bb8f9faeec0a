//! Loops that are cut into contiguous pieces, each in a thread of its own, and sets that are sorted
//! in several threads.
//!
//! `map_pieces` gives an answer for each piece: the answers `Joins` from the first member to the
//! last, and `joins_fold` in `specs/Laws/Pieces.antt` makes one answer of them, whatever the cut.
//! `canon_wide` is `canon` of `aql_value`. `EvalFault` is why an evaluation has no answer.
//!
//! Read `pieces.rt` beside `specs/Pieces.antt`, and then `sets.rt` and `fault.rt`.
#![tactic(auto)]

mod fault;
mod pieces;
mod sets;

pub use fault::EvalFault;
pub use pieces::{map_pieces, piece};
pub use sets::canon_wide;

// A fault may be sent to another thread, and lent to several.
fn crosses_threads<T: Send + Sync>(_value: &T) {}

fn fault_crosses_threads(fault: &EvalFault) {
    crosses_threads(fault);
}
