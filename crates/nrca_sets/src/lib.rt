//! Sets as the evaluator keeps them: packed where all members are naturals below 2^64, or all are pairs of such.
//!
//! A contract sees a `Set` as the ascending list of its members, as it sees `aql_value::Ascending`, and a `Gather` as the
//! list of the values that it keeps, in no order. A gather is given members one at a time or another set's, and only the
//! set of them is promised: `canon g` is `canon` of all that it was given. `Gather::finish` answers that set.
//!
//! Read `set.rt` and `gather.rt` beside `specs/Rows.antt`, then `runs.rt`, the runs of pairs with equal first numbers; what
//! is kept stands in `rows.rt`, over `order.rt` and `values.rt`.
#![tactic(auto)]

mod gather;
mod order;
mod rows;
pub mod runs;
mod set;
mod validity;
mod values;

pub use gather::Gather;
pub use set::{Set, ascending};
pub use validity::numbers_fit;
pub use values::number_items;

// A set may be sent to another thread, and lent to several.
fn crosses_threads<T: Send + Sync>(_value: &T) {}

fn set_crosses_threads(set: &Set) {
    crosses_threads(set);
}

fn gather_crosses_threads(gather: &Gather) {
    crosses_threads(gather);
}
