//! Type inference: the principal type of each declaration, or the first that has no typing.
//!
//! `check` is the one call of the layers above; it goes over all declarations. `declare` has the walk of `walk` write what a
//! declaration's expression asks of types (the equations, uses and names of `aql_infer_steps`, in their order), and solves it;
//! `steps` says what an operation makes of its parts' types. Why this is right is said by the laws of `aql_infer_steps`.
//!
//! Read `specs/Checked`, then `check` and `declare`; then `specs/Pairs`, `walk` and `steps`.
#![tactic(auto)]

pub mod check;
mod declare;
pub mod fault;
mod steps;
mod walk;
