//! What is answered for a plan.

use aql_value::Value;
use nrca_term::Core;

/// The array-free form of a plan, and what its evaluation came to.
#[derive(Drop)]
pub struct Graph {
    pub term: Core,
    pub ran: GraphRan,
}

/// What the evaluation of an array-free form came to over the encoded outcomes of the positions: its
/// turns passed the budget, or it has no value, as its plan has none, or the encoded value of that.
#[derive(Drop)]
pub enum GraphRan {
    Spent,
    Undefined,
    Value(Value),
}
