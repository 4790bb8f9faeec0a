//! Why a script has no tokens.

use aql_value::Memory;
use std::alloc::{AllocError, AllocFailed};

/// The first byte where neither a blank nor a token begins; where there is none, the first byte of the first token
/// after which the scan passes 400. Or memory was wanting.
#[derive(Debug, Drop)]
pub enum LexFault {
    Text { at: u64 },
    Deep { at: u64 },
    Memory,
}

impl From<Memory> for LexFault {
    ghost use Rattle.std.specs.Prelude.{◌≡◌};
    ghost use Rattle.aql_lex.specs.declared.fault.LexFault.TheVariants as faults;

    ghost from_gives = { λ _ e. e ≡ faults.Memory };

    fn from(_memory: Memory) -> LexFault {
        LexFault::Memory
    }
}

impl From<AllocError> for LexFault {
    ghost use Rattle.std.specs.Prelude.{◌≡◌};
    ghost use Rattle.aql_lex.specs.declared.fault.LexFault.TheVariants as faults;

    ghost from_gives = { λ _ e. e ≡ faults.Memory };

    fn from(_error: AllocError) -> LexFault {
        LexFault::Memory
    }
}

impl<T: Drop> From<AllocFailed<T>> for LexFault {
    ghost use Rattle.std.specs.Prelude.{◌≡◌};
    ghost use Rattle.aql_lex.specs.declared.fault.LexFault.TheVariants as faults;

    ghost from_gives = { λ _ e. e ≡ faults.Memory };

    fn from(_failed: AllocFailed<T>) -> LexFault {
        LexFault::Memory
    }
}
