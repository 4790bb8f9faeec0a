//! The array-free form of a query's plan, evaluated over the encoded outcomes of the positions.
//!
//! The layer above uses `graph_of`: it makes the array-free form of a plan, encodes those positions that the form uses and
//! that were not encoded before, keeps their encodings, and evaluates the form over them within the budget. What comes of it
//! is `IsGraph`: the form is exactly that of nrca_graph, it is spent exactly where its turns over all encoded outcomes pass
//! the budget, and else it has the encoded value of the plan, or none where the plan has none.
//!
//! Read `ran`, `specs/Graphs` and `running`; then `specs/Encodings`, `Positions` and `positions`.
#![tactic(auto)]

mod positions;
mod ran;
mod running;

pub use positions::value_of;
pub use ran::{Graph, GraphRan};
pub use running::graph_of;
