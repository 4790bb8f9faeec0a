//! The calls of a run whose contracts speak of the words' command and of the prelude, under words
//! that stay closed in the proofs above.
ghost use Rattle.std.specs.Prelude.{◌≡◌, [], map, IfOk, IsErrOf};
ghost use Rattle.std.specs.String.{string_bytes};
ghost use Rattle.aql_options.specs.Words.{AreInRange};
ghost use Rattle.aql_session.specs.Device.{sink_of, files_of, BlamesSink, BlamesFiles};
ghost use Rattle.aql_options.specs.Settings.{settings_of};
ghost use Rattle.aql_run.specs.Steps.{IsOfDevice};
ghost use Rattle.aql_run.specs.Ending.{Answering, ReadsOptions, IsReady, Readies};

use crate::steps::{Halt, answer_all};
use aql_options::{WordFault, read_words};
use aql_outside::{Files, Gate, Sink};
use aql_script::{Prepared, ScriptFault, prepare};
use aql_session::{Answer, Options};
use std::alloc::Global;
use std::thread::Threads;

/// The threads, the memory and the gate that a run works with.
#[derive(Drop)]
pub(crate) struct Machine<'a, R, G> {
    pub(crate) rt: &'a R,
    pub(crate) alloc: Global,
    pub(crate) gate: &'a G,
}

// The options that the words ask for.
pub(crate) fn read_options(alloc: Global, words: &[String]) -> Result<Options, WordFault>
    ensures asks { ReadsOptions (map string_bytes words.now) result }
    ensures ranges { IfOk result AreInRange }
{
    read_words(alloc, words)
}

// The positions of a script.
pub(crate) fn prepare_script(alloc: Global, script: &[u8]) -> Result<Prepared, ScriptFault>
    ensures { Readies script.now result }
{
    prepare(alloc, script)
}

// Answers the declarations, and writes their lines.
pub(crate) fn answer_each<R: Threads + Sync, O: Sink, F: Files, G: Gate>(
    machine: &Machine<R, G>,
    prepared: &Prepared,
    options: &Options,
    output: &mut O,
    files: &mut F,
    answers: &mut Vec<Answer>,
) -> Result<(), Halt>
    requires prepared { IsReady prepared.now }
    requires none { answers.old.items ≡ [] }
    requires options { AreInRange options.now }
    ensures written { Answering prepared.now (settings_of options.now) answers.new.items
        (sink_of O.Sink output.old output.new) (files_of F.Files files.old files.new) result }
    ensures kept { F.holds files.new ≡ F.holds files.old }
    ensures files { BlamesFiles F.Files files.old files.new (IsOfDevice result) }
    ensures output { BlamesSink O.Sink output.old output.new (IsErrOf result Halt.Sink) }
{
    make_room(answers, prepared.decls.items.len());
    answer_all(
        machine.rt,
        machine.alloc,
        prepared,
        options,
        output,
        files,
        machine.gate,
        answers,
    )
}

// Room for so many answers at once, where there is memory for it, so that none is moved when others
// come.
fn make_room(answers: &mut Vec<Answer>, count: usize)
    ensures { answers.new.items ≡ answers.old.items }
{
    let _ = answers.reserve(count);
}
