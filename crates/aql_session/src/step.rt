//! One declaration after another.
ghost use Rattle.std.specs.Prelude.{◌≡◌, ◌≤◌, ◌-◌, [], length, Some, IfOk, IfErr, IsErrOf, OnOk, OnErr};
ghost use Rattle.std.specs.List.{slice_get};
ghost use Rattle.std.specs.Option.{ForSome};
ghost use Rattle.aql_infer_steps.specs.Typed.{ArePrincipal, sorts_of};
ghost use Rattle.aql_syntax.specs.Size.{AreWithinLimits};
ghost use Rattle.aql_ty.specs.View.{sort_of};
ghost use Rattle.aql_value.specs.Limits.{most_budget, most_workers};
ghost use Rattle.aql_value.specs.Valid.{IsValue};
ghost use Rattle.nrca_loops.specs.Values.{held_value};
ghost use Rattle.aql_options.specs.Settings.{settings_of};
ghost use Rattle.aql_session.specs.Bound.{AreBound, names, outcomes};
ghost use Rattle.aql_session.specs.Device.{BlamesFiles};
ghost use Rattle.aql_session.specs.Numbered.{declarations, sorts, declaration_numbered, sort_numbered, so_far, IsAnswerTo, MayBeAnswered, BindsNext, StepFails, UnlessRead};
ghost use Rattle.aql_session.specs.Executions.{IsReadyOver, AreNamesAt, HasWorkers, budget_of, declaration_of, declarations_at, sorts_at, RunsPosition, PositionFails, UnlessReadAt, AnswersExecution, IsNameAt, BindsExecution};
ghost use Rattle.aql_session.specs.Step.{OutcomesFit, IsOverTurns};

use crate::answer::{Answer, StepFault};
use crate::executions::{CheckedDeclaration, Execution, declaration, run_declaration};
use crate::session::Session;
use aql_infer_steps::typed::Typed;
use aql_options::Options;
use aql_outside::{Files, Gate};
use aql_syntax::ast::Decls;
use aql_ty::ty::Scheme;
use aql_value::Memory;
use aql_value::made::both;
use nrca_array::Held;
use std::alloc::Global;
use std::thread::Threads;

impl Session {
    /// Answers declaration n, counted from 1, and binds it under its name.
    ///
    /// A query is evaluated by its plan where the turns of that are within the budget, else as it is
    /// translated, where those are; else, with the word `--motion`, by what is moved in the plan, where
    /// those are. With the word the plan is moved in every case, before anything is evaluated. With the
    /// word `--graph` the array-free form of a query's plan is evaluated after the query, within the
    /// same budget; what comes of it has no fault but want of memory.
    /// Of a readval first the argument is evaluated; where it is undefined, so is the readval, and no
    /// call is made on the files. Faults come in this order:
    /// `Query` (the argument of a readval, too), `Cells`, then those of the file; of a file of
    /// records `Csv` with `Absent`, `Cells`, then the others. After a fault the session is as before.
    pub fn step<R: Threads + Sync, F: Files, G: Gate>(
        &mut self,
        rt: &R,
        alloc: Global,
        decls: &Decls,
        typed: &Typed,
        n: u64,
        options: &Options,
        files: &mut F,
        gate: &G,
    ) -> Result<Answer, StepFault>
        // n is the first position that is not bound, and `typed` is what the check answered.
        requires first { 1 ≤ n }
        requires last { n ≤ length decls.now.items.items }
        requires bound { AreBound (declarations decls.now) n self.old }
        requires checked { ArePrincipal [] (declarations decls.now) (sorts typed.now) }
        requires types { OutcomesFit (so_far decls.now (outcomes self.old)) }
        requires limits { AreWithinLimits (declarations decls.now) n }
        requires workers { (1 ≤ options.now.workers) × (options.now.workers ≤ most_workers) }
        requires budget { options.now.budget ≤ most_budget }

        // The answer, which comes only within the budget.
        ensures answer { IfOk result
            (IsAnswerTo decls.now typed.now n (outcomes self.old) (settings_of options.now)) }
        ensures answerable { OnOk result
            (MayBeAnswered decls.now n (outcomes self.old) (settings_of options.now)
            (F.holds files.old)) }
        // The session has one position more, with the declaration's outcome; and the answer says
        // what was evaluated, and what that and reading the outcome took.
        ensures binds { IfOk result
            (BindsNext decls.now n (settings_of options.now) (F.holds files.old)
            self.old self.new) }

        // Each fault has its cause, and leaves the session as it was.
        ensures cause { IfErr result
            (StepFails decls.now n (outcomes self.old) (settings_of options.now)
            F.Files files.old files.new) }
        ensures as_before { OnErr result (self.new ≡ self.old) }

        // The files keep what they hold, their faults end in `Device`, and no call is made on them
        // unless a file is read.
        ensures kept { F.holds files.new ≡ F.holds files.old }
        ensures blamed { BlamesFiles F.Files files.old files.new (IsErrOf result StepFault.Device) }
        ensures untouched { UnlessRead decls.now n (outcomes self.old) (settings_of options.now)
            (files.new ≡ files.old) }
        ensures unread { IfErr result (λ f. IsOverTurns f → files.new ≡ files.old) }
    {
        let at = CheckedDeclaration {
            decls,
            typed,
            n,
            options,
        };
        match self.run_next(rt, alloc, &at, files, gate) {
            Ok(run) => Ok(self.keep(alloc, &at, run)?),
            Err(fault) => Err(fault),
        }
    }

    // Runs the next declaration over the outcomes so far, and binds nothing.
    fn run_next<R: Threads + Sync, F: Files, G: Gate>(
        &mut self,
        rt: &R,
        alloc: Global,
        at: &CheckedDeclaration,
        files: &mut F,
        gate: &G,
    ) -> Result<Execution, StepFault>
        requires stands { IsReadyOver at.now (outcomes self.old) }
        requires named { AreNamesAt at.now (names self.old) }
        requires workers { HasWorkers at.now }
        requires budget { budget_of at.now ≤ most_budget }
        ensures as_before { self.new ≡ self.old }
        ensures ran { IfOk result (RunsPosition at.now (outcomes self.old) (F.holds files.old)) }
        ensures cause { IfErr result
            (PositionFails at.now (outcomes self.old) F.Files files.old files.new) }
        ensures kept { F.holds files.new ≡ F.holds files.old }
        ensures blamed { BlamesFiles F.Files files.old files.new (IsErrOf result StepFault.Device) }
        ensures untouched { UnlessReadAt at.now (outcomes self.old) (files.new ≡ files.old) }
        ensures unread { IfErr result (λ f. IsOverTurns f → files.new ≡ files.old) }
    {
        run_declaration(
            rt,
            alloc,
            &self.globals,
            &self.names,
            &mut self.shapes,
            &mut self.encodings,
            at,
            files,
            gate,
        )
    }

    // The answer of a run, with the position bound.
    fn keep(
        &mut self,
        alloc: Global,
        at: &CheckedDeclaration,
        run: Execution,
    ) -> Result<Answer, Memory>
        requires first { 1 ≤ at.now.n }
        requires last { at.now.n ≤ length (declarations_at at.now) }
        requires typed { length (sorts_at at.now) ≡ length (declarations_at at.now) }
        requires valid { ForSome (held_value run.value) IsValue }
        ensures answer { IfOk result (AnswersExecution at.now run) }
        ensures bound { OnOk result (BindsExecution at.now run self.old self.new) }
        ensures as_before { OnErr result (self.new ≡ self.old) }
    {
        let (answer, value) = answer_of(alloc, at, run)?;
        match self.bind(alloc, &answer.name, value) {
            Ok(()) => Ok(answer),
            Err(Memory) => {
                drop(answer);
                Err(Memory)
            }
        }
    }
}

// The answer of a run, and its value.
fn answer_of(
    alloc: Global,
    at: &CheckedDeclaration,
    run: Execution,
) -> Result<(Answer, Option<Held>), Memory>
    requires first { 1 ≤ at.now.n }
    requires last { at.now.n ≤ length (declarations_at at.now) }
    requires typed { length (sorts_at at.now) ≡ length (declarations_at at.now) }
    ensures answer { IfOk result (λ x. AnswersExecution at.now run x.0) }
    ensures name { IfOk result (λ x. IsNameAt at.now x.0.name) }
    ensures value { IfOk result (λ x. held_value x.1 ≡ held_value run.value) }
{
    let name = declaration(at.decls, at.n).name_copy(alloc);
    match both(name, scheme(at.typed, at.n).copy(alloc)) {
        Ok((name, ty)) => {
            let Execution {
                start,
                plan,
                trace,
                moved,
                graph,
                by,
                turns,
                value,
            } = run;
            let answer = Answer {
                name,
                ty,
                start,
                plan,
                trace,
                moved,
                graph,
                by,
                turns,
            };
            Ok((answer, value))
        }
        Err(Memory) => {
            drop(run);
            Err(Memory)
        }
    }
}

// The scheme of declaration n.
fn scheme(typed: &Typed, n: u64) -> &Scheme
    requires first { 1 ≤ n }
    requires last { n ≤ length (sorts typed.now) }
    ensures { sort_numbered typed.now n ≡ Some (sort_of result.now) }
{
    scheme_at(&typed.items, n)
}

fn scheme_at(schemes: &[Scheme], n: u64) -> &Scheme
    requires first { 1 ≤ n }
    requires last { n ≤ length schemes.now }
    ensures { slice_get (sorts_of schemes.now) (n - 1) ≡ Some (sort_of result.now) }
{
    &schemes[(n - 1) as usize]
}
