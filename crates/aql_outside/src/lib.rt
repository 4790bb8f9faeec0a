//! What a run meets outside itself: a source and a sink of bytes, files by name, and a gate that
//! pieces of work pass, each with what it tells of its bytes and how it fails.
//!
//! The contract that the layers above use: a call answers `Failed` only where the object's count
//! of faults rose in that call, a count never falls, and told bytes are given, taken and kept.
//!
//! Read `device`, then `specs/Causes` and `specs/Contents`; then `specs/Calls`, `specs/Memory` and
//! the objects in memory.
#![tactic(auto)]

mod copying;
mod counter;
mod device;
mod gates;
mod memory_files;
mod memory_sink;
mod memory_source;

pub use device::{Failed, Files, Sink, Source};
pub use gates::{FreeGate, Gate};
pub use memory_files::{MemFiles, SureFiles};
pub use memory_sink::{MemSink, SureSink};
pub use memory_source::{MemSource, SureSource};
