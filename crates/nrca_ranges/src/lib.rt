//! The context of a place in a core term, and what it says of the values that terms have there.
//!
//! A context keeps the comparisons that are known at the place, how many variables stand around it, and the shapes of
//! the values of positions and variables. The layers above use that `push` and `take_back` keep exactly these, that
//! `span` is the span of the definitions (nrca_term, `specs/Firm.antt`), and that each value of the term, at the values
//! of variables and positions that the context allows, has the shape that `shape_of` answers. `tell` answers by one walk
//! what is known of a term: whether it is firm, whether it is certain to have a value, its span and its shape.
//! Read `context`, `entering`, `interval`, `shape`, `positions`, `finding`, then `operations`, `transfer`, `variables`, `certain`, `walk`; of the definitions
//! `specs/Context`, `Spans`, `Bounds`, `Shapes`, `Intervals`, `Transfer`, `Certain`; `specs/Walk` is the walk.
#![tactic(auto)]

mod certain;
mod context;
mod entering;
mod finding;
mod interval;
mod operations;
mod positions;
mod shape;
mod transfer;
mod variables;
mod walk;

pub use context::{Ctx, Fact, Known, Mark};
pub use finding::{count_of, is_small, number_of, numbers_of, shape_of, tell};
pub use interval::{Interval, Intervals, span};
pub use positions::{GlobalShapes, shape_of_dims, shape_of_value};
pub use shape::{Shape, Shapes, join};
pub use walk::Told;
