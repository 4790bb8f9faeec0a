// Why a file cannot be read.
ghost use Rattle.std.specs.Prelude.{◌≡◌};
ghost use Rattle.cdf_header.specs.declared.fault.CdfFault.TheVariants as faults;
ghost use Rattle.cdf_header.specs.declared.fault.ReadError.TheVariants as errors;

use aql_value::Memory;
use std::alloc::{AllocError, AllocFailed};

/// Why a file, or a hyperslab of one of its variables, was not read. The faults of a file stand in
/// the order in which they are tested.
#[derive(Clone, Copy, Debug, PartialEq, Eq)]
pub enum CdfFault {
    /// The name is not UTF-8, or no file has it.
    Absent,
    /// There are fewer than four bytes, or the first three are not `CDF`.
    NotClassic,
    /// The fourth byte is none of 1, 2 and 5.
    Version { found: u8 },
    /// The first field of the header that fails stands at this offset, and is no count past its
    /// limit.
    Malformed { at: u64 },
    /// The first field that fails is a count past its limit: of dimensions (1), attributes (2),
    /// variables (3) or dimensions of a variable (4).
    TooMany { list: u8 },
    /// No variable has the name.
    NoVariable,
    /// The variable has another rank.
    Rank { found: u64 },
    /// The variable's numbers are floating.
    FloatVariable,
    /// The first stride that is 0, counted from 1.
    Stride { dimension: u64 },
    /// The first dimension, counted from 1, that the hyperslab passes.
    Outside { dimension: u64 },
    /// The first cell whose bytes pass the end of the file stands at this offset.
    Cut { at: u128 },
    /// The first cell below 0, counted from 0 in row-major order.
    Negative { cell: u64 },
    /// The device failed.
    Device,
    /// Memory was wanting.
    Memory,
}

impl From<AllocError> for CdfFault {
    ghost from_gives = { λ _ e. e ≡ faults.Memory };

    fn from(_: AllocError) -> Self {
        CdfFault::Memory
    }
}

impl<T: Drop> From<AllocFailed<T>> for CdfFault {
    ghost from_gives = { λ _ e. e ≡ faults.Memory };

    fn from(_: AllocFailed<T>) -> Self {
        CdfFault::Memory
    }
}

impl From<Memory> for CdfFault {
    ghost from_gives = { λ _ e. e ≡ faults.Memory };

    fn from(_: Memory) -> Self {
        CdfFault::Memory
    }
}

/// What is wrong with the first field that fails.
#[derive(Clone, Copy, Debug, PartialEq, Eq)]
pub enum FieldFault {
    /// It passes the end of the bytes.
    Short { at: usize },
    /// It is none of those that may stand there.
    Malformed { at: usize },
    /// It is a count past its limit.
    TooMany { list: u8 },
}

/// Why a field was not read.
#[derive(Debug, Drop)]
pub(crate) enum ReadError {
    Memory,
    Fault(FieldFault),
}

impl From<AllocError> for ReadError {
    ghost from_gives = { λ _ e. e ≡ errors.Memory };

    fn from(_: AllocError) -> ReadError {
        ReadError::Memory
    }
}

impl<T: Drop> From<AllocFailed<T>> for ReadError {
    ghost from_gives = { λ _ e. e ≡ errors.Memory };

    fn from(_: AllocFailed<T>) -> ReadError {
        ReadError::Memory
    }
}
