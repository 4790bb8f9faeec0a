//! The values of the language: numbers, truth values, strings, tuples, sets and arrays.
//!
//! A contract sees a `Value` as `datum v`, a mathematical value. `compare` is the total order
//! `datum_cmp`, `canon` makes the one ascending list of the members of a list, and `Cells::cell`
//! is the cell at an index. What each operation of the language makes of values stands in
//! `specs/Operations.antt` and `specs/Strict.antt`.
//!
//! Read `value.rt`, `order.rt`, `sets.rt`, `indices.rt` and `made.rt`, which has boxes, lists and pairs of what was made; of `specs/` first `Datum`, `Meaning`,
//! `Order`, `Canon` and `Indices`.
#![tactic(auto)]

mod arith;
mod copies;
mod indices;
mod limits;
pub mod made;
mod memory;
mod ops;
mod order;
mod sets;
mod validity;
mod value;

pub use arith::{add, monus, mul, quotient, remainder};
pub use indices::{Index, is_below, offset_at, saturating_product};
pub use limits::{MOST_BUDGET, MOST_WORKERS};
pub use memory::Memory;
pub use ops::{ArithOp, CompareOp};
pub use order::compare;
pub use sets::{canon, merge};
pub use validity::{all_valid, bytes_fit, numbers_fit, valid};
pub use value::{Ascending, Cells, Dims, Items, Parts, Str, Value};
