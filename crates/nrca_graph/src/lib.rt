//! The array-free form of values, types and core terms: an array is the pair of its dimensions and its graph, the set of its
//! pairs of an index and a cell.
//!
//! The layers above use that `encode` and `encode_type` answer exactly the encoding, that it keeps the order of the values of
//! a type, and that a term's array-free form means the encoded value of the term. Read `specs/Encoding`, `specs/Tabulation`
//! and `specs/ArrayFree`, the definitions, then `laws`, what is proved of them, and `values` and `types`.
#![tactic(auto)]

mod indexing;
pub mod laws;
mod literals;
mod nodes;
mod room;
mod subscripts;
mod tables;
mod terms;
mod types;
mod values;

pub use room::greatest_variable;
pub use terms::to_graph;
pub use types::encode_type;
pub use values::encode;
