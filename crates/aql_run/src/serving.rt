//! A run, from the words to the last line.
ghost use Rattle.std.specs.Prelude.{◌≡◌, ◌≢◌, ◌≤◌, ◌+◌, ◌⊎◌, List, ℕ, [], codes, map, IfOk, None, Some};
ghost use Rattle.std.specs.String.{string_bytes};
ghost use Rattle.aql_options.specs.Words.{AreInRange};
ghost use Rattle.aql_session.specs.Device.{source_of, sink_of, files_of, BlamesSink};
ghost use Rattle.aql_run.specs.Lines.{in_declaration};
ghost use Rattle.aql_run.specs.Reading.{ReadsWhole};
ghost use Rattle.aql_run.specs.Sample.{sample_text};
ghost use Rattle.aql_options.specs.Settings.{settings_of};
ghost use Rattle.aql_run.specs.Devices.{NoticesFiles, NoticesInput};
ghost use Rattle.aql_run.specs.Keeping.{HasScript, IsOfScript, IsRead, IsRefused, ReadsScript};
ghost use Rattle.aql_run.specs.Ending.{AnswersEach, HasSample, EndsWith, IsReady, Refused, Responds, Running, Samples, Serving, Stopped};

use crate::closed::{Machine, answer_each, prepare_script, read_options};
use crate::lines::{byte_line, declaration_line, file_line, table_line};
use crate::reading::{ReadFault, read_script};
use crate::report::{End, Stop};
use crate::sample::sample_script;
use crate::status::Status;
use crate::steps::Halt;
use crate::writing::write_all;
use aql_options::WordFault;
use aql_outside::{Files, Gate, Sink, Source};
use aql_script::{Prepared, ScriptFault};
use aql_session::{Answer, Options, StepFault};
use aql_value::Memory;
use std::alloc::Global;
use std::thread::Threads;

/// Reads the words, and then runs the script that they ask for, which is kept, with its fault where it
/// has one.
pub(crate) fn end_of<R: Threads + Sync, S: Source, O: Sink, F: Files, G: Gate>(
    machine: &Machine<R, G>,
    words: &[String],
    input: &mut S,
    output: &mut O,
    files: &mut F,
    answers: &mut Vec<Answer>,
    kept: &mut Vec<u8>,
    found: &mut Option<ScriptFault>,
) -> End
    requires none { answers.old.items ≡ [] }
    requires no_fault { found.old ≡ None }
    ensures serves { Running (map string_bytes words.now) answers.new.items (record {
      source = source_of S.Source input.old input.new;
      sink = sink_of O.Sink output.old output.new;
      files = files_of F.Files files.old files.new;
    }) result }
    ensures untouched_input { result.status ≡ Status.Usage → input.new ≡ input.old }
    ensures untouched_output { result.status ≡ Status.Usage → output.new ≡ output.old }
    ensures sample { (n : ℕ) → HasSample (map string_bytes words.now) n →
        input.new ≡ input.old }
    ensures output { BlamesSink O.Sink output.old output.new (result.status ≡ Status.Output) }
    ensures kept { F.holds files.new ≡ F.holds files.old }
    ensures later_input { S.faults input.old ≤ S.faults input.new }
    ensures noticed_input { NoticesInput S.Source input.old input.new result.status }
    ensures later_files { F.faults files.old ≤ F.faults files.new }
    ensures noticed_files { NoticesFiles F.Files files.old files.new result.status }
    ensures script { HasScript result.status → ReadsScript (map string_bytes words.now)
        (source_of S.Source input.old input.new) kept.new.items }
    ensures refused { IsRefused kept.new.items (sink_of O.Sink output.old output.new)
        result.status found.new }
{
    match read_options(machine.alloc, words) {
        Ok(options) => serve(
            machine, &options, input, output, files, answers, kept, found,
        ),
        Err(WordFault::Usage) => End {
            status: Status::Usage,
            stop: Stop::Other,
        },
        Err(WordFault::Memory) => End {
            status: Status::Memory,
            stop: Stop::Other,
        },
    }
}

// Runs the script that the options ask for: the built-in one, or that of the source.
fn serve<R: Threads + Sync, S: Source, O: Sink, F: Files, G: Gate>(
    machine: &Machine<R, G>,
    options: &Options,
    input: &mut S,
    output: &mut O,
    files: &mut F,
    answers: &mut Vec<Answer>,
    kept: &mut Vec<u8>,
    found: &mut Option<ScriptFault>,
) -> End
    requires none { answers.old.items ≡ [] }
    requires no_fault { found.old ≡ None }
    requires options { AreInRange options.now }
    ensures serves { Serving (settings_of options.now) answers.new.items (record {
      source = source_of S.Source input.old input.new;
      sink = sink_of O.Sink output.old output.new;
      files = files_of F.Files files.old files.new;
    }) result }
    ensures sample { (n : ℕ) → options.now.sample ≡ Some n → input.new ≡ input.old }
    ensures output { BlamesSink O.Sink output.old output.new (result.status ≡ Status.Output) }
    ensures kept { F.holds files.new ≡ F.holds files.old }
    ensures later_input { S.faults input.old ≤ S.faults input.new }
    ensures noticed_input { NoticesInput S.Source input.old input.new result.status }
    ensures later_files { F.faults files.old ≤ F.faults files.new }
    ensures noticed_files { NoticesFiles F.Files files.old files.new result.status }
    ensures script { HasScript result.status → IsRead options.now.sample
        (source_of S.Source input.old input.new) kept.new.items }
    ensures refused { IsRefused kept.new.items (sink_of O.Sink output.old output.new)
        result.status found.new }
{
    match options.sample {
        Some(n) => serve_sample(machine, options, n, output, files, answers, kept, found),
        None => serve_source(machine, options, input, output, files, answers, kept, found),
    }
}

// Runs the built-in script of n cells.
fn serve_sample<R: Threads + Sync, O: Sink, F: Files, G: Gate>(
    machine: &Machine<R, G>,
    options: &Options,
    n: u64,
    output: &mut O,
    files: &mut F,
    answers: &mut Vec<Answer>,
    kept: &mut Vec<u8>,
    found: &mut Option<ScriptFault>,
) -> End
    requires none { answers.old.items ≡ [] }
    requires no_fault { found.old ≡ None }
    requires options { AreInRange options.now }
    ensures written { Samples n (settings_of options.now) answers.new.items
        (sink_of O.Sink output.old output.new) (files_of F.Files files.old files.new) result }
    ensures output { BlamesSink O.Sink output.old output.new (result.status ≡ Status.Output) }
    ensures kept { F.holds files.new ≡ F.holds files.old }
    ensures later_files { F.faults files.old ≤ F.faults files.new }
    ensures noticed_files { NoticesFiles F.Files files.old files.new result.status }
    ensures script { HasScript result.status → kept.new.items ≡ sample_text n }
    ensures refused { IsRefused kept.new.items (sink_of O.Sink output.old output.new)
        result.status found.new }
{
    match sample_script(machine.alloc, n) {
        Ok(script) => {
            let end = respond(machine, options, &script, output, files, answers, found);
            *kept = script;
            end
        }
        Err(_) => End {
            status: Status::Memory,
            stop: Stop::Other,
        },
    }
}

// Runs the script of the source.
fn serve_source<R: Threads + Sync, S: Source, O: Sink, F: Files, G: Gate>(
    machine: &Machine<R, G>,
    options: &Options,
    input: &mut S,
    output: &mut O,
    files: &mut F,
    answers: &mut Vec<Answer>,
    kept: &mut Vec<u8>,
    found: &mut Option<ScriptFault>,
) -> End
    requires none { answers.old.items ≡ [] }
    requires no_fault { found.old ≡ None }
    requires options { AreInRange options.now }
    requires no_sample { options.now.sample ≡ None }
    ensures serves { Serving (settings_of options.now) answers.new.items (record {
      source = source_of S.Source input.old input.new;
      sink = sink_of O.Sink output.old output.new;
      files = files_of F.Files files.old files.new;
    }) result }
    ensures output { BlamesSink O.Sink output.old output.new (result.status ≡ Status.Output) }
    ensures kept { F.holds files.new ≡ F.holds files.old }
    ensures later_input { S.faults input.old ≤ S.faults input.new }
    ensures noticed_input { NoticesInput S.Source input.old input.new result.status }
    ensures later_files { F.faults files.old ≤ F.faults files.new }
    ensures noticed_files { NoticesFiles F.Files files.old files.new result.status }
    ensures script { HasScript result.status →
        ReadsWhole (S.left input.old) (S.left input.new) kept.new.items }
    ensures refused { IsRefused kept.new.items (sink_of O.Sink output.old output.new)
        result.status found.new }
{
    match read_script(machine.alloc, input) {
        Ok(script) => {
            let end = respond(machine, options, &script, output, files, answers, found);
            *kept = script;
            end
        }
        Err(ReadFault::Memory) => End {
            status: Status::Memory,
            stop: Stop::Other,
        },
        Err(ReadFault::Long) => End {
            status: end_with(output, b"fault long\n", Status::Long),
            stop: Stop::Other,
        },
        Err(ReadFault::Failed) => End {
            status: end_with(output, b"fault input\n", Status::Input),
            stop: Stop::Other,
        },
    }
}

// Runs a script that was read whole, and keeps its fault.
fn respond<R: Threads + Sync, O: Sink, F: Files, G: Gate>(
    machine: &Machine<R, G>,
    options: &Options,
    script: &[u8],
    output: &mut O,
    files: &mut F,
    answers: &mut Vec<Answer>,
    found: &mut Option<ScriptFault>,
) -> End
    requires none { answers.old.items ≡ [] }
    requires no_fault { found.old ≡ None }
    requires options { AreInRange options.now }
    ensures written { Responds script.now (settings_of options.now) answers.new.items
        (sink_of O.Sink output.old output.new) (files_of F.Files files.old files.new) result }
    ensures output { BlamesSink O.Sink output.old output.new (result.status ≡ Status.Output) }
    ensures kept { F.holds files.new ≡ F.holds files.old }
    ensures later_files { F.faults files.old ≤ F.faults files.new }
    ensures noticed_files { NoticesFiles F.Files files.old files.new result.status }
    ensures refused { IsRefused script.now (sink_of O.Sink output.old output.new)
        result.status found.new }
{
    match prepare_script(machine.alloc, script) {
        Ok(prepared) => answer(machine, &prepared, options, output, files, answers),
        Err(fault) => {
            *found = Some(fault);
            End {
                status: refuse(machine.alloc, fault, output),
                stop: Stop::Other,
            }
        }
    }
}

// Answers the declarations of a script, and writes the line of a fault.
fn answer<R: Threads + Sync, O: Sink, F: Files, G: Gate>(
    machine: &Machine<R, G>,
    prepared: &Prepared,
    options: &Options,
    output: &mut O,
    files: &mut F,
    answers: &mut Vec<Answer>,
) -> End
    requires prepared { IsReady prepared.now }
    requires none { answers.old.items ≡ [] }
    requires options { AreInRange options.now }
    ensures written { AnswersEach prepared.now (settings_of options.now) answers.new.items
        (sink_of O.Sink output.old output.new) (files_of F.Files files.old files.new) result }
    ensures output { BlamesSink O.Sink output.old output.new (result.status ≡ Status.Output) }
    ensures kept { F.holds files.new ≡ F.holds files.old }
    ensures later_files { F.faults files.old ≤ F.faults files.new }
    ensures noticed_files { NoticesFiles F.Files files.old files.new result.status }
    ensures later { IsOfScript result.status → ⊥ }
{
    match answer_each(machine, prepared, options, output, files, answers) {
        Ok(()) => End {
            status: Status::Done,
            stop: Stop::Done,
        },
        Err(Halt::Memory) => End {
            status: Status::Memory,
            stop: Stop::Other,
        },
        Err(Halt::Sink) => End {
            status: Status::Output,
            stop: Stop::Other,
        },
        Err(Halt::Fault(fault)) => {
            let n = answers.len() as u64 + 1;
            stop_at(machine.alloc, n, fault, output)
        }
    }
}

// Writes the line of the fault of declaration n.
fn stop_at<O: Sink>(alloc: Global, n: u64, fault: StepFault, output: &mut O) -> End
    ensures written { Stopped n fault (sink_of O.Sink output.old output.new) result }
    ensures device { fault ≡ StepFault.Device →
        (result.status ≡ Status.Files) ⊎ (result.status ≡ Status.Output) }
    ensures output { BlamesSink O.Sink output.old output.new (result.status ≡ Status.Output) }
{
    match fault {
        StepFault::Query {
            start,
            plan,
            trace,
            moved,
        } => {
            let line = declaration_line(alloc, b"budget", n);
            let status = end_with_made(output, line, Status::Spent);
            let stop = Stop::Query {
                start,
                plan,
                trace,
                moved,
            };
            keep_stop(status, Status::Spent, stop)
        }
        StepFault::Cells { cells } => {
            let line = declaration_line(alloc, b"budget", n);
            let status = end_with_made(output, line, Status::Spent);
            keep_stop(status, Status::Spent, Stop::Cells { cells })
        }
        StepFault::File { fault } => {
            let line = file_line(alloc, n, &fault);
            let status = end_with_made(output, line, Status::File);
            keep_stop(status, Status::File, Stop::File { fault })
        }
        StepFault::Csv { fault } => {
            let line = table_line(alloc, n, &fault);
            let status = end_with_made(output, line, Status::File);
            keep_stop(status, Status::File, Stop::Csv { fault })
        }
        StepFault::Device => End {
            status: end_with(output, b"fault files\n", Status::Files),
            stop: Stop::Other,
        },
        StepFault::Memory => End {
            status: Status::Memory,
            stop: Stop::Other,
        },
    }
}

// Keeps the end of a run that has the status that was meant.
fn keep_stop(status: Status, wanted: Status, stop: Stop) -> End
    ensures status { result.status ≡ status }
    ensures kept { status ≡ wanted → result.stop ≡ stop }
    ensures other { status ≢ wanted → result.stop ≡ Stop.Other }
{
    if status == wanted {
        End { status, stop }
    } else {
        drop(stop);
        End {
            status,
            stop: Stop::Other,
        }
    }
}

// Writes the line of a script's fault.
fn refuse<O: Sink>(alloc: Global, fault: ScriptFault, output: &mut O) -> Status
    ensures written { Refused fault (sink_of O.Sink output.old output.new) result }
    ensures output { BlamesSink O.Sink output.old output.new (result ≡ Status.Output) }
{
    match fault {
        ScriptFault::Text { at } => {
            end_with_made(output, byte_line(alloc, b"text", at), Status::Text)
        }
        ScriptFault::Deep { at } => {
            end_with_made(output, byte_line(alloc, b"deep", at), Status::Deep)
        }
        ScriptFault::Syntax { declaration } => end_with_made(
            output,
            declaration_line(alloc, b"syntax", declaration),
            Status::Syntax,
        ),
        ScriptFault::Type { declaration } => end_with_made(
            output,
            declaration_line(alloc, b"type", declaration),
            Status::Type,
        ),
        ScriptFault::Large { declaration } => end_with_made(
            output,
            declaration_line(alloc, b"large", declaration),
            Status::Large,
        ),
        ScriptFault::Memory => Status::Memory,
    }
}

// Writes a line, where there was memory for it.
fn end_with_made<O: Sink>(output: &mut O, line: Result<Vec<u8>, Memory>, status: Status) -> Status
    requires real { status ≢ Status.Output }
    ensures written { (text : List ℕ) → IfOk line (λ l. l.items ≡ text) →
        EndsWith (sink_of O.Sink output.old output.new) text status result }
    ensures output { BlamesSink O.Sink output.old output.new (result ≡ Status.Output) }
{
    match line {
        Ok(text) => end_with(output, &text, status),
        Err(_) => Status::Memory,
    }
}

// Writes the line of a fault.
fn end_with<O: Sink>(output: &mut O, line: &[u8], status: Status) -> Status
    requires real { status ≢ Status.Output }
    ensures written { EndsWith (sink_of O.Sink output.old output.new) line.now status result }
    ensures ends { (result ≡ status) ⊎ (result ≡ Status.Output) }
    ensures output { BlamesSink O.Sink output.old output.new (result ≡ Status.Output) }
{
    match write_all(output, line) {
        Ok(()) => status,
        Err(_) => Status::Output,
    }
}
