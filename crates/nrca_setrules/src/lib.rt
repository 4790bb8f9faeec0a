//! Rewriting: rules on Bottom, constants, tests, lets, tuples, sets and defaults: B1, K1, I1, I2, L1 to L3, P1, P2, S1 to S9, N1 and N2.
//!
//! For a rule R, `fits_r` says exactly whether the term is a left side of R (`RuleFits`), and `r` makes the right side of one
//! (`IsRight`): it is the right side of the rule's relation, has every type of the left side, and wherever the rule's
//! condition holds, its meaning. Whether the condition holds is for the caller to see. The terms that are shifted or
//! substituted are small (`IsSmallPart`). Only L1, L2 and L3, which substitute, may want memory.
//! Read `boxes`; then `sets`, `tests`, `lets`, `tuples`, `bottoms`, `constants`.
#![tactic(auto)]

mod bottoms;
mod boxes;
mod constants;
mod lets;
mod sets;
mod tests;
mod tuples;

pub use bottoms::{b1, fits_b1};
pub use constants::{fits_k1, k1};
pub use lets::{fits_l1, fits_l2, fits_l3, l1, l2, l3};
pub use sets::{
    fits_s1, fits_s2, fits_s3, fits_s4, fits_s5, fits_s6, fits_s7, fits_s8, fits_s9, s1, s2, s3,
    s4, s5, s6, s7, s8, s9,
};
pub use tests::{fits_i1, fits_i2, fits_n1, fits_n2, i1, i2, n1, n2};
pub use tuples::{fits_p1, fits_p2, p1, p2};
