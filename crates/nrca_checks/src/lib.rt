//! The rules that put a truth value in place of a comparison: C1 to C3 by the facts of its place, C4 by the ranges of its sides.
//! The layers above use that each function answers the right side of its rule, with the meaning and the types that `IsRight`
//! (nrca_rule_laws, `specs/Fitting.antt`) says, that its test is exact, and that `literally` and `decided` tell what is known of a
//! comparison at its place.
//! Whether the comparison is a fact, is denied or is decided is no part of a test: it is the condition of the rule, which the
//! clause on meaning supposes and the caller sees to.
//! Read `tests`, `sides`, `knowing`, `deciding`.
#![tactic(auto)]

mod deciding;
mod knowing;
mod sides;
mod tests;

pub use deciding::decided;
pub use knowing::literally;
pub use sides::{c1, c2, c3, c4};
pub use tests::{compares, fits_c1, fits_c2, fits_c3, fits_c4};
