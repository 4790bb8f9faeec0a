//! What a run answers.
ghost use Rattle.std.specs.Prelude.{◌≡◌};

use crate::status::Status;
use aql_csv::CsvFault;
use aql_script::ScriptFault;
use aql_session::Answer;
use cdf_header::CdfFault;
use nrca_motion::Moved;
use nrca_term::{Core, Trace};

/// The answers of a run's declarations, in order. The prelude has none.
#[derive(Drop)]
pub struct Answers {
    pub items: Vec<Answer>,
}

/// What is kept of the end of a run.
#[derive(Drop)]
pub enum Stop {
    /// Every declaration was answered.
    Done,
    /// The turns of a query, or of a readval's argument, passed the budget: those of its start term,
    /// those of its plan, and with the word `--motion` those of what is moved in the plan.
    Query {
        start: Core,
        plan: Core,
        trace: Trace,
        moved: Option<Box<Moved>>,
    },
    /// The cells that a readval asks for passed the budget, or the bytes of its file of records did:
    /// their number, or 2^128-1 where it is larger.
    Cells {
        cells: u128,
    },
    /// A netCDF file could not be read as it was asked for.
    File {
        fault: CdfFault,
    },
    /// A file of records could not be read as it was asked for.
    Csv {
        fault: CsvFault,
    },
    /// Any other end.
    Other,
}

/// What a run answers: the program's exit status, the answers that were made, and what is kept of
/// the end.
#[derive(Drop)]
pub struct Report {
    pub status: u8,
    pub answers: Answers,
    pub stop: Stop,
}

/// The exit status of a program that ran so.
pub fn exit_of(report: &Report) -> u8
    ensures { result ≡ report.now.status }
{
    report.status
}

/// What is kept of a run beside its report, so that its fault can be explained: the bytes of the script
/// with the statuses 0, 3 to 7, 9, 12 and 13, else some bytes; and the fault of the script, where it
/// has one.
#[derive(Drop)]
pub struct Kept {
    pub report: Report,
    pub script: Vec<u8>,
    pub fault: Option<ScriptFault>,
}

/// How a run ended, and what is kept of it.
#[derive(Drop)]
pub(crate) struct End {
    pub status: Status,
    pub stop: Stop,
}
