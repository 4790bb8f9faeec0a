//! Arrays as the evaluator and the reader of files keep them, packed where that can be; and values as they are kept,
//! of which an array or a set (`nrca_sets`) may be packed.
//!
//! A contract sees a `Flat` as its dimensions and its cells, as it sees `aql_value::Cells`, and a
//! `Held` as the value `held_datum h`. `Flat::packed` lends the bytes, which `packing` in
//! `specs/Packing.antt` defines. A `Builder` takes cells one at a time and packs as it goes.
//! `valid_held` shows that what is held is a value of the language.
//!
//! Read `flat.rt` and `builder.rt` beside `specs/Packing.antt`, then `held.rt`; what is kept stands in `numbers.rt`,
//! `truths.rt` and `pairs.rt`, over `bytes.rt` and `width.rt`, and in `groups.rt`, sets of naturals one after the other
//! (`specs/Groups.antt`); `run.rt` and `put_runs.rt` take numbers out of the bytes of a file (`specs/Runs.antt`).
#![tactic(auto)]

mod builder;
mod bytes;
mod flat;
mod groups;
mod held;
mod numbers;
mod pairs;
mod put_runs;
mod run;
mod truths;
mod validity;
mod values;
mod width;

pub use builder::Builder;
pub use flat::Flat;
pub use held::Held;
pub use run::{Run, RunError};
pub use validity::valid_held;

// A kept value may be sent to another thread, and lent to several.
fn crosses_threads<T: Send + Sync>(_value: &T) {}

fn flat_crosses_threads(flat: &Flat) {
    crosses_threads(flat);
}

fn held_crosses_threads(held: &Held) {
    crosses_threads(held);
}
