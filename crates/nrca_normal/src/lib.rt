//! Normal forms: rewritings, one after another, until no rule fits whose condition is seen to hold.
//!
//! `normalise` answers the plan of a closed typed term: a term that is normal (nrca_term, `specs/Normal.antt`), and the
//! trace of the rewritings that lead to it. The layers above use that the trace replays from the start to the plan, where
//! the shapes of the positions tell of the outcomes, and that it has at most (W + 1)^3 steps, W being the weight of the
//! start; so the plan has each type and the meaning of the start.
//! Read `ways` (which parts of a left side must have a value), `conditions` (whether they have one), `firing` (which rule
//! may be applied at a node), `descent` (a term rewritten until none may be applied at any of its places), `normal`; of the
//! definitions `specs/Conditions`, `specs/Rewriting` and `specs/Planned`.
#![tactic(auto)]

mod conditions;
mod descent;
mod firing;
mod normal;
mod order;
mod ways;

pub use firing::fits;
pub use normal::{Plan, normalise, normalise_over};
