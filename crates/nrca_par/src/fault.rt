ghost use Rattle.std.specs.Prelude.{◌≡◌};

use std::alloc::{AllocError, AllocFailed};

/// Why an evaluation has no answer: its turns pass the budget, or memory was refused.
#[derive(Debug, PartialEq, Eq, Drop)]
pub enum EvalFault {
    Spent,
    Memory,
}

impl From<AllocError> for EvalFault {
    ghost use Rattle.nrca_par.specs.declared.fault.EvalFault.TheVariants as fault;

    ghost from_gives = { λ _ e. e ≡ fault.Memory };

    fn from(_: AllocError) -> EvalFault {
        EvalFault::Memory
    }
}

impl<T: Drop> From<AllocFailed<T>> for EvalFault {
    ghost use Rattle.nrca_par.specs.declared.fault.EvalFault.TheVariants as fault;

    ghost from_gives = { λ _ e. e ≡ fault.Memory };

    fn from(_: AllocFailed<T>) -> EvalFault {
        EvalFault::Memory
    }
}

impl From<aql_value::Memory> for EvalFault {
    ghost use Rattle.nrca_par.specs.declared.fault.EvalFault.TheVariants as fault;

    ghost from_gives = { λ _ e. e ≡ fault.Memory };

    fn from(_: aql_value::Memory) -> EvalFault {
        EvalFault::Memory
    }
}
