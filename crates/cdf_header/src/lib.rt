//! The header of a netCDF classic file of version 1, 2 or 5, and where its variables' cells stand.
//!
//! The contract that the layers above use: where the file is told, `read_header` answers the header
//! `header_of` its bytes, or the first fault in order with its offset: what good fields spell, as
//! the laws of `specs/Laws/Header` say. Of quiet files it leaves no fault of a device unsaid. A
//! contract sees a `Header` as a `Head`, and `Header::place` is the offset of a cell as `place`
//! says.
//!
//! Read `specs/Header`, `specs/Format` (which field comes next), `specs/Limits`, `specs/File` (a file and its
//! header) and `specs/Places`; then `file`, `front`, `lists`, `fields` and `places`.
#![tactic(auto)]

mod dimensions;
mod fault;
mod fields;
mod file;
mod front;
mod header;
pub mod laws;
mod limits;
mod lists;
mod places;
mod test;

pub use fault::{CdfFault, FieldFault};
pub use file::read_header;
pub use header::Header;
pub use limits::{MOST_ATTRIBUTES, MOST_DIMENSIONS, MOST_HEADER_BYTES, MOST_RANK, MOST_VARIABLES};
pub use test::Test;
