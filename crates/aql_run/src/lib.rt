//! Runs a script from a source to a sink over files: reads the words and the script, finds the types, answers each
//! declaration, and writes its lines.
//!
//! The contract that the program uses is that of `run`: which bytes are written for the bytes read, whatever the number
//! of workers, and the cause of each status.
//!
//! Read `specs/Headline` beside `run`, which has all that is promised; then `specs/Outcome` and `specs/Complete`, the
//! cause and the output of each status; then `serving`, `closed`, `reading`, `report`, `status`, `laws`. The declarations
//! are answered one after another by `steps` (`specs/Answered`, `Steps`; what follows for a script's values stands in
//! `Laws/Answered`), and the text of every line is that of `entries`, `lines` and `sample`, which `writing` writes.
//! `program` has what each program does: it calls `run` over the devices of the system.
#![tactic(auto)]

ghost use Rattle.std.specs.Prelude.{◌≡◌, ◌≤◌, ◌<◌, ◌⊎◌, ℕ, map};
ghost use Rattle.std.specs.String.{string_bytes};
ghost use Rattle.aql_session.specs.Device.{source_of, sink_of, files_of, BlamesSink};
ghost use Rattle.aql_run.specs.Headline.{Headline};
ghost use Rattle.aql_run.specs.Ending.{HasSample, Reported};
ghost use Rattle.aql_run.specs.Keeping.{Keeps};

mod closed;
mod entries;
mod laws;
mod lines;
mod program;
mod reading;
mod report;
mod sample;
mod serving;
mod status;
mod steps;
mod writing;

pub use crate::sample::sample_script;
pub use aql_options::{WordFault, read_words};
use aql_outside::{Files, Gate, Sink, Source};
pub use aql_script::ScriptFault;
pub use aql_session::Options;
use closed::Machine;
use laws::tokens_exist;
pub use program::{Ended, start, start_keeping};
pub use report::{Answers, Kept, Report, Stop, exit_of};
use serving::end_of;
use std::alloc::Global;
use std::thread::Threads;

/// Runs the script of the source, or the built-in one, and writes what its declarations print to
/// the sink. The words are those of the command line, the program's name first.
///
/// The order is: the words; reading the source; then the script's tokens, depth, grammar, types and
/// sizes; then the declarations, each of which is answered and its lines written before the next one
/// starts.
pub fn run<R: Threads + Sync, S: Source, O: Sink, F: Files, G: Gate>(
    rt: &R,
    alloc: Global,
    words: &[String],
    input: &mut S,
    output: &mut O,
    files: &mut F,
    gate: &G,
) -> Report
    ensures { Headline (map string_bytes words.now) (record {
      source = source_of S.Source input.old input.new;
      sink = sink_of O.Sink output.old output.new;
      files = files_of F.Files files.old files.new;
    }) result }
{
    let kept = run_keeping(rt, alloc, words, input, output, files, gate);
    kept.report
}

/// The same run, whose report is that of `run`. Beside it the bytes of the script are handed out, and the
/// fault of the script where its line was the last one, so that the fault can be explained.
pub fn run_keeping<R: Threads + Sync, S: Source, O: Sink, F: Files, G: Gate>(
    rt: &R,
    alloc: Global,
    words: &[String],
    input: &mut S,
    output: &mut O,
    files: &mut F,
    gate: &G,
) -> Kept
    ensures headline { Headline (map string_bytes words.now) (record {
      source = source_of S.Source input.old input.new;
      sink = sink_of O.Sink output.old output.new;
      files = files_of F.Files files.old files.new;
    }) result.report }
    ensures keeps { Keeps (map string_bytes words.now) (source_of S.Source input.old input.new)
        (sink_of O.Sink output.old output.new) result.report.status result.script.items
        result.fault }
{
    tokens_exist();
    report_run(rt, alloc, words, input, output, files, gate)
}

// Runs the script, and says the outcome under one word.
fn report_run<R: Threads + Sync, S: Source, O: Sink, F: Files, G: Gate>(
    rt: &R,
    alloc: Global,
    words: &[String],
    input: &mut S,
    output: &mut O,
    files: &mut F,
    gate: &G,
) -> Kept
    ensures serves { Reported (map string_bytes words.now) (record {
      source = source_of S.Source input.old input.new;
      sink = sink_of O.Sink output.old output.new;
      files = files_of F.Files files.old files.new;
    }) result.report }
    ensures keeps { Keeps (map string_bytes words.now) (source_of S.Source input.old input.new)
        (sink_of O.Sink output.old output.new) result.report.status result.script.items
        result.fault }
    ensures untouched_input { result.report.status ≡ 2 → input.new ≡ input.old }
    ensures untouched_output { result.report.status ≡ 2 → output.new ≡ output.old }
    ensures sample { (n : ℕ) → HasSample (map string_bytes words.now) n →
        input.new ≡ input.old }
    ensures output { BlamesSink O.Sink output.old output.new (result.report.status ≡ 11) }
    ensures kept { F.holds files.new ≡ F.holds files.old }
    ensures later_input { S.faults input.old ≤ S.faults input.new }
    ensures later_files { F.faults files.old ≤ F.faults files.new }
    ensures noticed_input { S.quiet → S.faults input.old < S.faults input.new →
        (result.report.status ≡ 10) ⊎ (result.report.status ≡ 11) }
    ensures noticed_files { F.quiet → F.faults files.old < F.faults files.new →
        (result.report.status ≡ 13) ⊎ (result.report.status ≡ 11) }
{
    let mut answers = Vec::new(alloc);
    let mut script = Vec::new(alloc);
    let mut fault = None;
    let machine = Machine { rt, alloc, gate };
    let end = end_of(
        &machine,
        words,
        input,
        output,
        files,
        &mut answers,
        &mut script,
        &mut fault,
    );
    let status = end.status.code();
    Kept {
        report: Report {
            status,
            answers: Answers { items: answers },
            stop: end.stop,
        },
        script,
        fault,
    }
}
