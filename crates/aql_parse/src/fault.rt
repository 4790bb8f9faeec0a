//! Why tokens have no reading.

use aql_value::Memory;
use std::alloc::{AllocError, AllocFailed};

/// The first declaration that has no reading, counted from 1; or memory was wanting.
#[derive(Debug, Drop)]
pub enum ParseFault {
    Syntax { declaration: u64 },
    Memory,
}

impl From<Memory> for ParseFault {
    ghost use Rattle.std.specs.Prelude.{◌≡◌};
    ghost use Rattle.aql_parse.specs.declared.fault.ParseFault.TheVariants as faults;

    ghost from_gives = { λ _ e. e ≡ faults.Memory };

    fn from(_memory: Memory) -> ParseFault {
        ParseFault::Memory
    }
}

impl From<AllocError> for ParseFault {
    ghost use Rattle.std.specs.Prelude.{◌≡◌};
    ghost use Rattle.aql_parse.specs.declared.fault.ParseFault.TheVariants as faults;

    ghost from_gives = { λ _ e. e ≡ faults.Memory };

    fn from(_error: AllocError) -> ParseFault {
        ParseFault::Memory
    }
}

impl<T: Drop> From<AllocFailed<T>> for ParseFault {
    ghost use Rattle.std.specs.Prelude.{◌≡◌};
    ghost use Rattle.aql_parse.specs.declared.fault.ParseFault.TheVariants as faults;

    ghost from_gives = { λ _ e. e ≡ faults.Memory };

    fn from(_failed: AllocFailed<T>) -> ParseFault {
        ParseFault::Memory
    }
}
