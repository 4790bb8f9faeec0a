//! The declarations of a script, one after another.
ghost use Rattle.std.specs.Prelude.{◌≡◌, ◌≤◌, ◌<◌, ◌+◌, ◌-◌, ◌∷◌, [], length, vec_len, OnOk, IfOk, IfErr, IsOk, IsErrOf, Some};
ghost use Rattle.aql_options.specs.Words.{AreInRange};
ghost use Rattle.aql_prelude.specs.Prelude.{prelude_count};
ghost use Rattle.aql_session.specs.Bound.{outcomes};
ghost use Rattle.aql_session.specs.Device.{sink_of, files_of, BlamesSink, BlamesFiles};
ghost use Rattle.aql_run.specs.Entry.{entry, lent_value};
ghost use Rattle.aql_options.specs.Settings.{settings_of};
ghost use Rattle.aql_run.specs.Steps.{IsPrepared, Progress, AnswersOne, Halts, IsNoFault, IsOver, Declared, NextReadsNoFile, AnswersAll, EndsAt, IsOfDevice};
ghost use Rattle.aql_run.specs.Writing.{WritesFront};

use crate::entries::entry_text;
use crate::writing::write_all;
use aql_outside::{Files, Gate, Sink};
use aql_prelude::COUNT;
use aql_script::Prepared;
use aql_session::{Answer, Options, Session, StepFault};
use aql_value::Memory;
use nrca_array::Held;
use std::alloc::Global;
use std::thread::Threads;

/// Why a declaration has no answer, or its lines were not all written.
#[derive(Drop)]
pub enum Halt {
    /// The declaration has a fault, which is not want of memory.
    Fault(StepFault),
    /// Memory was wanting.
    Memory,
    /// The sink failed.
    Sink,
}

// A script, and what its declarations are answered with.
#[derive(Drop)]
struct Script<'a, R, G> {
    rt: &'a R,
    alloc: Global,
    prepared: &'a Prepared,
    options: &'a Options,
    gate: &'a G,
}

/// Answers every declaration of a script, and writes the lines of each before the next one is run.
/// The prelude's declarations come first and print nothing.
pub(crate) fn answer_all<R: Threads + Sync, O: Sink, F: Files, G: Gate>(
    rt: &R,
    alloc: Global,
    prepared: &Prepared,
    options: &Options,
    output: &mut O,
    files: &mut F,
    gate: &G,
    answers: &mut Vec<Answer>,
) -> Result<(), Halt>
    requires prepared { IsPrepared prepared.now }
    requires none { answers.old.items ≡ [] }
    requires options { AreInRange options.now }
    ensures done { OnOk result (AnswersAll prepared.now (settings_of options.now) answers.new.items
        (sink_of O.Sink output.old output.new) (files_of F.Files files.old files.new)) }
    ensures early { IfErr result (EndsAt prepared.now (settings_of options.now) answers.new.items
        (sink_of O.Sink output.old output.new) (files_of F.Files files.old files.new)) }
    ensures kept { F.holds files.new ≡ F.holds files.old }
    ensures files { BlamesFiles F.Files files.old files.new (IsOfDevice result) }
    ensures output { BlamesSink O.Sink output.old output.new (IsErrOf result Halt.Sink) }
{
    let script = Script {
        rt,
        alloc,
        prepared,
        options,
        gate,
    };
    let Ok(mut session) = declare_prelude(&script, files) else {
        return Err(Halt::Memory);
    };
    let count = prepared.decls.items.len() as u64;
    'positions: for n in COUNT + 1..count + 1 {
        match answer_next(&script, &mut session, n, output, files, answers) {
            Ok(()) => {}
            Err(halt) => return Err(halt),
        }
    }
    Ok(())
}

// A session with the positions of the prelude.
fn declare_prelude<R: Threads + Sync, F: Files, G: Gate>(
    script: &Script<R, G>,
    files: &mut F,
) -> Result<Session, Memory>
    requires prepared { IsPrepared script.now.prepared.now }
    requires options { AreInRange script.now.options.now }
    ensures made { IfOk result (λ s. Declared script.now.prepared.now prelude_count s) }
    ensures untouched { files.new ≡ files.old }
{
    let mut session = Session::new(script.alloc)?;
    'prelude: for n in 1..COUNT + 1 {
        declare_next(script, &mut session, n, files)?;
    }
    Ok(session)
}

// Binds declaration n of the prelude.
fn declare_next<R: Threads + Sync, F: Files, G: Gate>(
    script: &Script<R, G>,
    session: &mut Session,
    n: u64,
    files: &mut F,
) -> Result<(), Memory>
    requires prepared { IsPrepared script.now.prepared.now }
    requires first { 1 ≤ n }
    requires last { n < prelude_count + 1 }
    requires so_far { Declared script.now.prepared.now (n - 1) session.old }
    requires options { AreInRange script.now.options.now }
    ensures made { OnOk result (Declared script.now.prepared.now (n + 1 - 1) session.new) }
    ensures untouched { files.new ≡ files.old }
{
    let stepped = session.step(
        script.rt,
        script.alloc,
        &script.prepared.decls,
        &script.prepared.typed,
        n,
        script.options,
        files,
        script.gate,
    );
    // A macro has no fault but want of memory.
    discard_made(stepped)
}

// That something was made. A fault is taken for want of memory.
fn discard_made<T: Drop, E: Drop>(made: Result<T, E>) -> Result<(), Memory>
    ensures { OnOk result (IsOk made) }
{
    match made {
        Ok(_) => Ok(()),
        Err(_) => Err(Memory),
    }
}

// Answers declaration n of the positions, counted from 1, and writes its lines.
fn answer_next<R: Threads + Sync, O: Sink, F: Files, G: Gate>(
    script: &Script<R, G>,
    session: &mut Session,
    n: u64,
    output: &mut O,
    files: &mut F,
    answers: &mut Vec<Answer>,
) -> Result<(), Halt>
    requires prepared { IsPrepared script.now.prepared.now }
    requires next { n ≡ prelude_count + 1 + length answers.old.items }
    requires last { n ≤ length script.now.prepared.now.decls.items.items }
    requires so_far { Progress script.now.prepared.now (settings_of script.now.options.now)
        (F.holds files.old) answers.old.items session.old }
    requires options { AreInRange script.now.options.now }
    ensures goes { OnOk result (AnswersOne script.now.prepared.now
        (settings_of script.now.options.now)
        (F.holds files.old) answers.old.items answers.new.items session.old session.new
        (O.holds output.old) (O.holds output.new)) }
    ensures halts { IfErr result (Halts script.now.prepared.now
        (settings_of script.now.options.now) (F.holds files.old) (F.faults files.old)
        (F.faults files.new) answers.old.items answers.new.items (outcomes session.old)
        (O.holds output.old) (O.holds output.new)) }
    ensures untouched { NextReadsNoFile script.now.prepared.now script.now.options.now.budget
        (length answers.old.items) (outcomes session.old) → files.new ≡ files.old }
    ensures unread { IfErr result (λ h. IsOver h → files.new ≡ files.old) }
    ensures kept { F.holds files.new ≡ F.holds files.old }
    ensures files { BlamesFiles F.Files files.old files.new (IsOfDevice result) }
    ensures output { BlamesSink O.Sink output.old output.new (IsErrOf result Halt.Sink) }
{
    if answers.reserve(1).is_err() {
        return Err(Halt::Memory);
    }
    match session.step(
        script.rt,
        script.alloc,
        &script.prepared.decls,
        &script.prepared.typed,
        n,
        script.options,
        files,
        script.gate,
    ) {
        Ok(answer) => {
            let written = write_entry(
                script.alloc,
                output,
                script.options.plan,
                &answer,
                session.value(n),
            );
            answers.push_reserved(answer);
            written
        }
        Err(StepFault::Memory) => Err(Halt::Memory),
        Err(fault) => Err(Halt::Fault(fault)),
    }
}

// Writes the lines of a declaration.
fn write_entry<O: Sink>(
    alloc: Global,
    output: &mut O,
    plan: bool,
    answer: &Answer,
    outcome: Option<&Held>,
) -> Result<(), Halt>
    ensures written { WritesFront (O.holds output.old) (O.holds output.new)
        (entry plan answer.now (lent_value outcome.entry)) result }
    ensures output { BlamesSink O.Sink output.old output.new (IsErrOf result Halt.Sink) }
    ensures causes { IfErr result IsNoFault }
{
    let Ok(text) = entry_text(alloc, plan, answer, outcome) else {
        return Err(Halt::Memory);
    };
    match write_all(output, &text) {
        Ok(()) => Ok(()),
        Err(_) => Err(Halt::Sink),
    }
}
