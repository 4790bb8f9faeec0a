//! Shifting and substitution on core terms, the number of uses of a variable, and equality of terms.
//! The layers above use that `shift` and `subst` answer the terms of the usual definitions
//! (nrca_term, `specs/Subst.antt`), with the meaning and the types that `specs/Kept.antt` says;
//! that `uses` counts the uses, and `uses_strictly` those under strict parts alone, which `strict` tells; and that `same` and
//! `same_shifted` are equality. Read `shifting`, `substituting`, `counting`, `strictness`, `comparing`.
#![tactic(auto)]

mod comparing;
mod counting;
mod shifting;
mod strictness;
mod substituting;

pub use comparing::{same, same_shifted};
pub use counting::uses;
pub use shifting::shift;
pub use strictness::{strict, uses_strictly};
pub use substituting::subst;
