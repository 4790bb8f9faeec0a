//! The types of the language.
//!
//! A type, its levels and nodes, the limits on them, and copies. Read `specs/Types`, then `ty`; what the types of the
//! code mean stands in `specs/View`. `variables` lists the variables of a type by first appearance, `index` is the
//! type of an index. `specs/OperationTypes` and `specs/ValueTypes` have the types of operations and of values.
#![tactic(auto)]

pub mod index;
pub mod ty;
pub mod variables;
