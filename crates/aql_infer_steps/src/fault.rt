//! Why a declaration gets no type.

use aql_types::fault::UnifyFault;
use aql_value::Memory;
use std::alloc::{AllocError, AllocFailed};

/// The declaration has no typing, or memory ran out.
#[derive(Debug, Drop)]
pub enum NoTyping {
    NoType,
    Memory,
}

impl From<AllocError> for NoTyping {
    ghost use Rattle.std.specs.Prelude.{◌≡◌};
    ghost use Rattle.aql_infer_steps.specs.declared.fault.NoTyping.TheVariants as faults;

    ghost from_gives = { λ _ e. e ≡ faults.Memory };

    fn from(_error: AllocError) -> NoTyping {
        NoTyping::Memory
    }
}

impl<T: Drop> From<AllocFailed<T>> for NoTyping {
    ghost use Rattle.std.specs.Prelude.{◌≡◌};
    ghost use Rattle.aql_infer_steps.specs.declared.fault.NoTyping.TheVariants as faults;

    ghost from_gives = { λ _ e. e ≡ faults.Memory };

    fn from(_failed: AllocFailed<T>) -> NoTyping {
        NoTyping::Memory
    }
}

impl From<Memory> for NoTyping {
    ghost use Rattle.std.specs.Prelude.{◌≡◌};
    ghost use Rattle.aql_infer_steps.specs.declared.fault.NoTyping.TheVariants as faults;

    ghost from_gives = { λ _ e. e ≡ faults.Memory };

    fn from(_want: Memory) -> NoTyping {
        NoTyping::Memory
    }
}
