//! The declarations of a script, one after another.
//!
//! A contract sees a `Session` as the positions that are bound, each with its name and its outcome.
//! `Session::step` answers the next declaration and binds it: a query to what it denotes, a readval
//! to what its reader reads, a macro to no value. Or it answers a fault and leaves the session as
//! it was. A query is evaluated by its plan, a normal form of the term that it is translated to; where
//! the turns of the plan pass the budget, that term is evaluated as it is; and where those of both do,
//! with the word `--motion`, the plan with what could be moved out of loops. With the word `--graph` a
//! query's answer also has the array-free form of its plan, and what that comes to over the encoded
//! outcomes of the positions, which a session encodes where a query uses them, and keeps.
//!
//! Read `specs/Bound`, `Asked`, `Reading`, `Step` and `Numbered`; then `answer`, `session`, `step`,
//! `executions`, `queries`, `graphs`, `readings`. What a session knows of its outcomes stands in `specs/Known` and
//! `shapes`, what is said of a query's terms in `specs/Planned`.
#![tactic(auto)]

mod answer;
mod executions;
mod graphs;
mod packing;
mod queries;
mod readings;
mod session;
mod shapes;
mod step;

pub use answer::{Answer, Ran, StepFault};
pub use aql_options::Options;
pub use aql_prelude::prelude;
pub use nrca_encoded::{Graph, GraphRan};
pub use session::Session;
