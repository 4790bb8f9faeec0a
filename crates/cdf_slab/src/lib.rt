//! Hyperslabs of variables of netCDF classic files.
//!
//! The contract that the layers above use: where the file is told, `read_slab` answers the array
//! `slab`, whose cell at an index is the number spelled at its place, or the first fault
//! `slab_fault`; the faults that the header tells alone come whatever the files tell. No call is
//! made on the files where it tells one or no cell is asked for, and of quiet files the count of
//! faults is greater only where `Device` is answered.
//!
//! Read `specs/Numbers` and `specs/Slab`; then `slab`, `request`, `faults`, `axes`, `cells`,
//! `format`, `loading`, `window`, `runs`, `numbers`.
#![tactic(auto)]

mod axes;
mod cells;
mod faults;
mod format;
mod loading;
mod numbers;
mod request;
mod runs;
mod slab;
mod window;

pub use slab::read_slab;
