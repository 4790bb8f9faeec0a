//! Files of comma-separated records, read as the set of their records' values.
//!
//! The contract that the layers above use: where the files tell their bytes, `read_csv` answers the
//! set of the file's records and the file's size, or the first fault in order; whatever they tell,
//! it answers what some bytes give. What the records of bytes are is the word of the crate `csv`,
//! under its defaults but without a header record and with records of any length.
//!
//! Read `specs/Records`, `specs/Number`, `specs/Rows` and `specs/File`; then `fault`, `file`,
//! `rows`, `number` and `sets`.
#![tactic(auto)]

mod fault;
mod file;
mod number;
mod rows;
mod sets;

pub use fault::CsvFault;
pub use file::{Csv, read_csv};
