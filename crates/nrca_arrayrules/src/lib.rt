//! Rewriting: rules on subscripts and dimensions of arrays: A1 to A7.
//!
//! For a rule R, `fits_r` says exactly whether the term is a left side of R (`RuleFits`), and `r` makes the right side of one
//! (`IsRight`): it is the right side of the rule's relation, has every type of the left side, and wherever the rule's
//! condition holds, its meaning. Whether the condition holds is for the caller to see. Only A1 and A4 may
//! want memory.
//! Read `dimensions` (A3, A6), `replacing`, `sizes` (A4), `lets` (A7), `subscripts` (A5), `tabulations` (A2), `beta` (A1).
#![tactic(auto)]

mod beta;
mod dimensions;
mod lets;
mod replacing;
mod sizes;
mod subscripts;
mod tabulations;

pub use beta::{a1, fits_a1};
pub use dimensions::{a3, a6, fits_a3, fits_a6};
pub use lets::{a7, fits_a7};
pub use sizes::{a4, fits_a4};
pub use subscripts::{a5, fits_a5, literal_offset};
pub use tabulations::{a2, fits_a2};
