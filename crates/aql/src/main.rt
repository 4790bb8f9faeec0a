//! The program: runs the script of standard input over the files of the system, writes its answers to standard output,
//! and ends with the status of the run. Behind the line of a fault it writes the picture of the fault to standard error.
//!
//! What it does is `aql_run::start_keeping`, and of what that keeps `aql_explain::explain`.
#![tactic(auto)]

ghost use Rattle.std.specs.Prelude.{◌≡◌, None};

use aql_explain::{Cause, explain};
use aql_run::{Kept, Stop, start_keeping};
use std::io::Write;
use std::process::ExitCode;

fn main(rt: HostRuntime) -> ExitCode {
    let ended = start_keeping(&rt, rt.stdin(), rt.stdout());
    if let Some(kept) = &ended.kept {
        show_fault(&rt, kept);
    }
    ExitCode::from(ended.status)
}

// Writes the picture of the fault of a run to standard error. A failure there, or memory that is wanting, changes nothing.
fn show_fault(rt: &HostRuntime, kept: &Kept) {
    if let Some(cause) = cause_of(kept) {
        if let Ok(Some(picture)) = explain(rt.alloc(), &kept.script, &cause) {
            let _ = rt.stderr().write_all(&picture.text);
        }
    }
}

// The cause of the fault's line, where the run ended with one that is told of a place in the script.
fn cause_of(kept: &Kept) -> Option<Cause>
    ensures { kept.now.report.status ≡ 0 → result ≡ None }
{
    let declaration = kept.report.answers.items.len() as u64 + 1;
    match kept.report.status {
        3..=7 => match kept.fault {
            Some(fault) => Some(Cause::Script { fault }),
            None => None,
        },
        9 => match &kept.report.stop {
            Stop::File { fault } => Some(Cause::File {
                declaration,
                fault: *fault,
            }),
            Stop::Csv { fault } => Some(Cause::Table {
                declaration,
                fault: *fault,
            }),
            _ => None,
        },
        12 => match &kept.report.stop {
            Stop::Cells { cells } => Some(Cause::Cells {
                declaration,
                cells: *cells,
            }),
            _ => Some(Cause::Turns { declaration }),
        },
        13 => Some(Cause::Device { declaration }),
        _ => None,
    }
}
