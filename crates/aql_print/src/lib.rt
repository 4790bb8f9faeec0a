//! The texts of values, of types, core terms, rewritings and moves, each appended to a vector of bytes.
//!
//! Each call appends exactly its text where it has memory, and a prefix of it where it runs out: `print_value` the text
//! of a value and `print_held` that of a value as it is held, `print_scheme` that of a declaration's type, `print_core`
//! that of a core term, `print_trace` and `print_moves` the names of the rules that led to it; `put` and its like those of
//! bytes and names.
//!
//! Read `specs/Joined`, `ValueText`, `Names` and `Appends` first, then `bytes`, `value` and `names`; after these `TypeText`,
//! `CoreText`, `TraceText` and `MovesText` with `held`, `scheme`, `term`, `trace` and `moves`. `Laws/Prefix` has the laws of prefixes.
#![tactic(auto)]

mod bytes;
mod held;
mod moves;
mod names;
mod scheme;
mod term;
mod trace;
mod value;

pub use bytes::{put, put_number};
pub use held::print_held;
pub use moves::print_moves;
pub use names::put_variable;
pub use scheme::print_scheme;
pub use term::print_core;
pub use trace::print_trace;
pub use value::print_value;
