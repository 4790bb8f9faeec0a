//! Why a script has no positions.

ghost use Rattle.std.specs.Prelude.{◌≡◌};
ghost use Rattle.aql_script.specs.declared.fault.ScriptFault.TheVariants.{Memory as NoMemory};

use aql_value::Memory;
use std::alloc::{AllocError, AllocFailed};

/// The first fault of a script. Declarations are those of the script, counted from 1.
#[derive(Clone, Copy, Debug, PartialEq, Eq)]
pub enum ScriptFault {
    /// Neither a blank nor a token begins at this byte.
    Text { at: u64 },
    /// The scan first passes 400 at the token that begins at this byte.
    Deep { at: u64 },
    /// The tokens begin with the declarations before this one, not with it, and are not all read.
    Syntax { declaration: u64 },
    /// The first declaration without a typing.
    Type { declaration: u64 },
    /// The first declaration whose expanded size passes 20,000 or whose levels pass 1,000.
    Large { declaration: u64 },
    Memory,
}

impl From<Memory> for ScriptFault {
    ghost from_gives = { λ _ e. e ≡ NoMemory };

    fn from(_: Memory) -> Self {
        ScriptFault::Memory
    }
}

impl From<AllocError> for ScriptFault {
    ghost from_gives = { λ _ e. e ≡ NoMemory };

    fn from(_: AllocError) -> Self {
        ScriptFault::Memory
    }
}

impl<T: Drop> From<AllocFailed<T>> for ScriptFault {
    ghost from_gives = { λ _ e. e ≡ NoMemory };

    fn from(_: AllocFailed<T>) -> Self {
        ScriptFault::Memory
    }
}
