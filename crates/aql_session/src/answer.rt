//! What a step answers.
ghost use Rattle.std.specs.Prelude.{◌≡◌};
ghost use Rattle.aql_session.specs.declared.answer.StepFault.TheVariants as faults;

use aql_csv::CsvFault;
use aql_ty::ty::Scheme;
use aql_value::{Memory, Str};
use cdf_header::CdfFault;
use nrca_encoded::Graph;
use nrca_motion::Moved;
use nrca_term::{Core, Trace};
use std::alloc::{AllocError, AllocFailed};

/// The answer of a declaration. The outcome is kept by the session.
#[derive(Drop)]
pub struct Answer {
    /// The name that it binds: `it` for a bare expression.
    pub name: Str,
    /// Its principal type.
    pub ty: Scheme,
    /// The start term: of a readval that of its argument, of a macro `Bottom`.
    pub start: Core,
    /// The plan: a normal form of the start term.
    pub plan: Core,
    /// The rewritings that lead from the start term to the plan.
    pub trace: Trace,
    /// With the word `--motion` what is moved in the plan, and the moves that lead from the plan to
    /// it. None without the word, and of a macro: the plan stands for it, and there is no move.
    pub moved: Option<Box<Moved>>,
    /// With the word `--graph`, of a query, the array-free form of the plan and what that came to over
    /// the encoded outcomes of the positions. None without the word, of a macro and of a readval.
    pub graph: Option<Box<Graph>>,
    pub by: Ran,
    /// Loop turns of the term that was evaluated, and of a readval besides the cells that were read,
    /// or the bytes of a file of records.
    pub turns: u128,
}

/// What was evaluated: the plan of a query, its start term where the plan's turns pass the budget, or
/// what is moved in the plan where those of both do; a readval's argument, by the same choice, and
/// then its file; or nothing, for a macro.
#[derive(Clone, Copy, Debug, PartialEq, Eq)]
pub enum Ran {
    Plan,
    Start,
    Moved,
    Read,
    Declared,
}

/// Why a declaration has no answer.
#[derive(Drop)]
pub enum StepFault {
    /// The turns of the query, or of a readval's argument, pass the budget: those of its start term,
    /// those of its plan, and with the word `--motion` those of what is moved in the plan.
    Query {
        start: Core,
        plan: Core,
        trace: Trace,
        moved: Option<Box<Moved>>,
    },
    /// The cells that are asked for pass the budget, or the bytes of a file of records do. Their
    /// number, or 2^128-1 where it is larger.
    Cells {
        cells: u128,
    },
    /// The netCDF file cannot be read. It is neither `Device` nor `Memory`.
    File {
        fault: CdfFault,
    },
    /// The file of records cannot be read: `Absent`, `Cut`, `Fields` or `Number`.
    Csv {
        fault: CsvFault,
    },
    /// A call on the files failed.
    Device,
    /// Memory was wanting.
    Memory,
}

impl From<AllocError> for StepFault {
    ghost from_gives = { λ _ e. e ≡ faults.Memory };

    fn from(_: AllocError) -> StepFault {
        StepFault::Memory
    }
}

impl<T: Drop> From<AllocFailed<T>> for StepFault {
    ghost from_gives = { λ _ e. e ≡ faults.Memory };

    fn from(_: AllocFailed<T>) -> StepFault {
        StepFault::Memory
    }
}

impl From<Memory> for StepFault {
    ghost from_gives = { λ _ e. e ≡ faults.Memory };

    fn from(_: Memory) -> StepFault {
        StepFault::Memory
    }
}
