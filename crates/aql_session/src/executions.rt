//! The run of a declaration, which binds nothing.
ghost use Rattle.std.specs.Prelude.{◌≡◌, ◌≤◌, ℕ, length, Some, Option, IfOk, IfErr, IsErrOf};
ghost use Rattle.std.specs.Option.{ForSome};
ghost use Rattle.aql_outside.specs.Contents.{Content};
ghost use Rattle.aql_syntax.specs.View.{decl_of, reader_of};
ghost use Rattle.aql_value.specs.Limits.{most_budget};
ghost use Rattle.nrca_ranges.specs.Shapes.{shapes_in};
ghost use Rattle.nrca_encoded.specs.Encodings.{AreEncodings};
ghost use Rattle.aql_session.specs.Device.{BlamesFiles};
ghost use Rattle.aql_session.specs.Known.{Knows};
ghost use Rattle.aql_session.specs.Numbered.{declarations, declaration_numbered};
ghost use Rattle.aql_session.specs.Step.{IsOverTurns};
ghost use Rattle.aql_session.specs.Executions.{IsReadyOver, AreNamesAt, HasWorkers, budget_of, declaration_of, IsQuery, IsValueDeclaration, IsReadval, RunsPosition, IsPositionCause, PositionFails, UnlessReadAt};

use crate::answer::{Ran, StepFault};
use crate::graphs::with_graph;
use crate::queries::{Evaluated, run_query};
use crate::readings::{Read, read_argument};
use aql_infer_steps::typed::Typed;
use aql_names::names::Names;
use aql_options::Options;
use aql_outside::{Files, Gate};
use aql_syntax::ast::{Decl, Decls, Reader};
use aql_syntax::positions::declaration_at;
use nrca_array::Held;
use nrca_encoded::Graph;
use nrca_eval::Globals;
use nrca_motion::Moved;
use nrca_ranges::GlobalShapes;
use nrca_term::{Core, Trace};
use std::alloc::Global;
use std::thread::Threads;

/// Declaration n of a script that was checked, counted from 1, and how it is run.
#[derive(Drop)]
pub(crate) struct CheckedDeclaration<'a> {
    pub(crate) decls: &'a Decls,
    // What the check answered.
    pub(crate) typed: &'a Typed,
    pub(crate) n: u64,
    pub(crate) options: &'a Options,
}

/// What the run of a declaration came to.
#[derive(Drop)]
pub(crate) struct Execution {
    pub(crate) start: Core,
    pub(crate) plan: Core,
    pub(crate) trace: Trace,
    pub(crate) moved: Option<Box<Moved>>,
    pub(crate) graph: Option<Box<Graph>>,
    pub(crate) by: Ran,
    pub(crate) turns: u128,
    pub(crate) value: Option<Held>,
}

/// Runs the declaration of a position over the outcomes of those before it.
pub(crate) fn run_declaration<R: Threads + Sync, F: Files, G: Gate>(
    rt: &R,
    alloc: Global,
    globals: &Globals,
    names: &Names,
    shapes: &mut GlobalShapes,
    encodings: &mut Globals,
    at: &CheckedDeclaration,
    files: &mut F,
    gate: &G,
) -> Result<Execution, StepFault>
    requires stands { IsReadyOver at.now globals.now }
    requires named { AreNamesAt at.now names.now }
    requires workers { HasWorkers at.now }
    requires budget { budget_of at.now ≤ most_budget }
    requires known { Knows (shapes_in shapes.old) globals.now }
    requires encodings { AreEncodings globals.now encodings.old }
    ensures encodings { AreEncodings globals.now encodings.new }
    ensures shapes { shapes_in shapes.new ≡ shapes_in shapes.old }
    ensures ran { IfOk result (RunsPosition at.now globals.now (F.holds files.old)) }
    ensures cause { IfErr result (PositionFails at.now globals.now F.Files files.old files.new) }
    ensures kept { F.holds files.new ≡ F.holds files.old }
    ensures blamed { BlamesFiles F.Files files.old files.new (IsErrOf result StepFault.Device) }
    ensures untouched { UnlessReadAt at.now globals.now (files.new ≡ files.old) }
    ensures unread { IfErr result (λ f. IsOverTurns f → files.new ≡ files.old) }
{
    match declaration(at.decls, at.n) {
        Decl::Val { name: _, expr: _ } => {
            run_plain(rt, alloc, globals, names, shapes, encodings, at, gate)
        }
        Decl::Macro {
            name: _,
            pattern: _,
            body: _,
        } => Ok(Execution {
            start: Core::Bottom,
            plan: Core::Bottom,
            trace: Trace(Vec::new(alloc)),
            moved: None,
            graph: None,
            by: Ran::Declared,
            turns: 0,
            value: None,
        }),
        Decl::Read {
            name: _,
            reader,
            expr: _,
        } => run_readval(rt, alloc, globals, names, shapes, at, reader, files, gate),
        Decl::Bare { expr: _ } => run_plain(rt, alloc, globals, names, shapes, encodings, at, gate),
    }
}

/// Declaration n, counted from 1.
pub(crate) fn declaration(decls: &Decls, n: u64) -> &Decl
    requires first { 1 ≤ n }
    requires last { n ≤ length (declarations decls.now) }
    ensures { declaration_numbered decls.now n ≡ Some (decl_of result.now) }
{
    declaration_at(&decls.items, n)
}

// A query that is no readval's argument, and with the word `--graph` the array-free form of its plan.
fn run_plain<R: Threads + Sync, G: Gate>(
    rt: &R,
    alloc: Global,
    globals: &Globals,
    names: &Names,
    shapes: &mut GlobalShapes,
    encodings: &mut Globals,
    at: &CheckedDeclaration,
    gate: &G,
) -> Result<Execution, StepFault>
    requires stands { IsReadyOver at.now globals.now }
    requires named { AreNamesAt at.now names.now }
    requires query { IsQuery (declaration_of at.now) }
    requires plain { ForSome (declaration_of at.now) IsValueDeclaration }
    requires workers { HasWorkers at.now }
    requires budget { budget_of at.now ≤ most_budget }
    requires known { Knows (shapes_in shapes.old) globals.now }
    requires encodings { AreEncodings globals.now encodings.old }
    ensures encodings { AreEncodings globals.now encodings.new }
    ensures shapes { shapes_in shapes.new ≡ shapes_in shapes.old }
    ensures ran { (holds : Option Content) → IfOk result (RunsPosition at.now globals.now holds) }
    ensures cause { (holds : Option Content) (before now : ℕ) →
        IfErr result (IsPositionCause at.now globals.now holds before now) }
{
    match run_query(rt, alloc, globals, names, shapes, at, gate) {
        Ok(evaluated) => with_graph(rt, alloc, globals, encodings, at, evaluated, gate),
        Err(fault) => Err(fault),
    }
}

// A readval: its argument, and then the file.
fn run_readval<R: Threads + Sync, F: Files, G: Gate>(
    rt: &R,
    alloc: Global,
    globals: &Globals,
    names: &Names,
    shapes: &mut GlobalShapes,
    at: &CheckedDeclaration,
    reader: &Reader,
    files: &mut F,
    gate: &G,
) -> Result<Execution, StepFault>
    requires stands { IsReadyOver at.now globals.now }
    requires named { AreNamesAt at.now names.now }
    requires reads { IsReadval (declaration_of at.now) (reader_of reader.now) }
    requires workers { HasWorkers at.now }
    requires budget { budget_of at.now ≤ most_budget }
    requires known { Knows (shapes_in shapes.old) globals.now }
    ensures shapes { shapes_in shapes.new ≡ shapes_in shapes.old }
    ensures ran { IfOk result (RunsPosition at.now globals.now (F.holds files.old)) }
    ensures cause { IfErr result (PositionFails at.now globals.now F.Files files.old files.new) }
    ensures kept { F.holds files.new ≡ F.holds files.old }
    ensures blamed { BlamesFiles F.Files files.old files.new (IsErrOf result StepFault.Device) }
    ensures untouched { UnlessReadAt at.now globals.now (files.new ≡ files.old) }
    ensures unread { IfErr result (λ f. IsOverTurns f → files.new ≡ files.old) }
{
    match run_query(rt, alloc, globals, names, shapes, at, gate) {
        Ok(
            Evaluated {
                start,
                plan,
                trace,
                moved,
                by: _,
                value,
                turns,
            },
        ) => match read_argument(alloc, files, reader, value, at.options.budget) {
            Ok(Read { value, turns: read }) => Ok(Execution {
                start,
                plan,
                trace,
                moved,
                graph: None,
                by: Ran::Read,
                turns: turns + read,
                value,
            }),
            Err(fault) => {
                drop(start);
                drop(plan);
                drop(trace);
                drop(moved);
                Err(fault)
            }
        },
        Err(fault) => Err(fault),
    }
}
