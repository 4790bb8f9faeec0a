//! What is printed of a value reads back to it: the text of each value, with a semicolon behind it, has one reading, a
//! bare expression that denotes the value. `print_value` appends that text and says so; `laws::texts_read_back` has the
//! law of all values as its contract.
//!
//! Read `specs/RoundTrip.antt`, then `values` and `laws`. In `proofs/` the text's tokens stand in `Numerals`, `Strings`
//! and `Spans`, their reading in `Reading`, and its meaning in `Meaning`.
#![tactic(auto)]

pub mod laws;
mod values;

pub use values::print_value;
