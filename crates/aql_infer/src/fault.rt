//! Why declarations get no types.

use aql_value::Memory;
use std::alloc::{AllocError, AllocFailed};

/// The declaration of that number, counted from 1, is the first without a typing, or memory ran out.
#[derive(Debug, Drop)]
pub enum TypeFault {
    NoType { declaration: u64 },
    Memory,
}

impl From<AllocError> for TypeFault {
    ghost use Rattle.std.specs.Prelude.{◌≡◌};
    ghost use Rattle.aql_infer.specs.declared.fault.TypeFault.TheVariants as faults;

    ghost from_gives = { λ _ e. e ≡ faults.Memory };

    fn from(_error: AllocError) -> TypeFault {
        TypeFault::Memory
    }
}

impl<T: Drop> From<AllocFailed<T>> for TypeFault {
    ghost use Rattle.std.specs.Prelude.{◌≡◌};
    ghost use Rattle.aql_infer.specs.declared.fault.TypeFault.TheVariants as faults;

    ghost from_gives = { λ _ e. e ≡ faults.Memory };

    fn from(_failed: AllocFailed<T>) -> TypeFault {
        TypeFault::Memory
    }
}

impl From<Memory> for TypeFault {
    ghost use Rattle.std.specs.Prelude.{◌≡◌};
    ghost use Rattle.aql_infer.specs.declared.fault.TypeFault.TheVariants as faults;

    ghost from_gives = { λ _ e. e ≡ faults.Memory };

    fn from(_want: Memory) -> TypeFault {
        TypeFault::Memory
    }
}
