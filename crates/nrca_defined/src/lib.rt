//! Which core terms are sure to have a value at a place: the error analysis of the rewriting.
//!
//! The layers above use that `defined` answers true only where the term has a value at all values of positions and
//! variables that the context of the place allows, and wherever the term is firm (nrca_term, `specs/Firm.antt`).
//! Both calls are answered by the walk of nrca_ranges (`tell`); what stands here is that its answer means that.
//! Read `answers`; of the definitions `specs/Defined`, and `specs/Certain` of nrca_ranges.
#![tactic(auto)]

mod answers;

pub use answers::{FirmSpan, defined, firmness};
