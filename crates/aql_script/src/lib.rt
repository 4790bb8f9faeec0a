//! The declarations of a script, behind those of the prelude: read, typed and measured before any of them runs.
//!
//! `prepare` is the one call of the layers above: the positions with their principal types, or the first fault of the
//! script, in the order text, depth, syntax, types, sizes.
//!
//! Each declaration is measured once: `Extents` keeps of those so far an index of their names and what an application of each adds,
//! for the walk of aql_syntax over one expression.
//!
//! The bytes of a script are sound or have one of these faults, at one place: `specs/Causes`, and `laws`, which layers above cite.
//!
//! Read `specs/Script`, then `preparing`, `limits`, `extents`.
#![tactic(auto)]

mod extents;
mod fault;
pub mod laws;
mod limits;
mod preparing;

pub use fault::ScriptFault;
pub use preparing::{Prepared, prepare};
