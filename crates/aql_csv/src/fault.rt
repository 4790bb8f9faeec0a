// Why a file of records cannot be read.
ghost use Rattle.std.specs.Prelude.{◌≡◌};
ghost use Rattle.aql_csv.specs.declared.fault.CsvFault.TheVariants as faults;

use aql_value::Memory;
use std::alloc::{AllocError, AllocFailed};

/// Why a file of records gives no value. The faults of a file stand in the order in which they are
/// tested; those of records are tested record by record. Records and fields are counted from 1, a
/// record that names the fields too.
#[derive(Clone, Copy, Debug, PartialEq, Eq)]
pub enum CsvFault {
    /// The name is not UTF-8, or no file has it.
    Absent,
    /// The file has so many bytes, more than the budget.
    Long { bytes: u64 },
    /// A read gave fewer bytes than asked: the first missing one stands at this offset.
    Cut { at: u64 },
    /// The first record with a fault has so many fields, and not as many as there are kinds.
    Fields { row: u64, found: u64 },
    /// The first record with a fault has as many fields as there are kinds, and this is its first
    /// field that should be a number and is none.
    Number { row: u64, field: u64 },
    /// The device failed.
    Device,
    /// Memory was wanting.
    Memory,
}

impl From<AllocError> for CsvFault {
    ghost from_gives = { λ _ e. e ≡ faults.Memory };

    fn from(_: AllocError) -> Self {
        CsvFault::Memory
    }
}

impl<T: Drop> From<AllocFailed<T>> for CsvFault {
    ghost from_gives = { λ _ e. e ≡ faults.Memory };

    fn from(_: AllocFailed<T>) -> Self {
        CsvFault::Memory
    }
}

impl From<Memory> for CsvFault {
    ghost from_gives = { λ _ e. e ≡ faults.Memory };

    fn from(_: Memory) -> Self {
        CsvFault::Memory
    }
}
