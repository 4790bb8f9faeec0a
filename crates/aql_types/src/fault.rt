//! What `unify` and `solve` answer beside a substitution.

use aql_value::Memory;
use std::alloc::{AllocError, AllocFailed};

/// No substitution makes the types equal within the limits, or memory ran out.
#[derive(Debug, Drop)]
pub enum UnifyFault {
    Clash,
    Memory,
}

impl From<AllocError> for UnifyFault {
    ghost use Rattle.std.specs.Prelude.{◌≡◌};
    ghost use Rattle.aql_types.specs.declared.fault.UnifyFault.TheVariants as faults;

    ghost from_gives = { λ _ e. e ≡ faults.Memory };

    fn from(_error: AllocError) -> UnifyFault {
        UnifyFault::Memory
    }
}

impl<T: Drop> From<AllocFailed<T>> for UnifyFault {
    ghost use Rattle.std.specs.Prelude.{◌≡◌};
    ghost use Rattle.aql_types.specs.declared.fault.UnifyFault.TheVariants as faults;

    ghost from_gives = { λ _ e. e ≡ faults.Memory };

    fn from(_failed: AllocFailed<T>) -> UnifyFault {
        UnifyFault::Memory
    }
}

impl From<Memory> for UnifyFault {
    ghost use Rattle.std.specs.Prelude.{◌≡◌};
    ghost use Rattle.aql_types.specs.declared.fault.UnifyFault.TheVariants as faults;

    ghost from_gives = { λ _ e. e ≡ faults.Memory };

    fn from(_want: Memory) -> UnifyFault {
        UnifyFault::Memory
    }
}
