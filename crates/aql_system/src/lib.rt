//! The outside over the system: its streams as a source and a sink, and its files by name.
//!
//! The adapters meet the traits of `aql_outside` over any reader, any writer and any disk: a call
//! answers `Failed` only where the count of faults rose in that call, no read gives more than its
//! place holds, a write that takes nothing of a piece that isn't empty has failed, and sizes and
//! reads are those of the bytes that the disk tells. Of what the system's streams and files hold
//! nothing is promised: that is asked of the library in the four calls of `system`.
//!
//! Read `streams`, then `disk`, `file_system`, `opened` and `system`.
#![tactic(auto)]

mod disk;
mod file_system;
mod opened;
mod streams;
mod system;

pub use disk::{Disk, DiskFile};
pub use file_system::{FileSystem, read_full};
pub use streams::{InputStream, OutputStream};
pub use system::{SystemDisk, SystemFile};
