//! From the bytes of a script to its positions.

ghost use Rattle.std.specs.Prelude.{◌≡◌, ◌++◌, ◌+◌, ◌≤◌, List, length, IfOk, Result, Ok, Err};
ghost use Rattle.aql_syntax.specs.Tree.{Declaration};
ghost use Rattle.aql_syntax.specs.View.{decls_of};
ghost use Rattle.aql_prelude.specs.Prelude.{prelude_decls};
ghost use Rattle.aql_script.specs.Script.{Prepares, Declares, Types, IsFirstPast, IsPreparedAs, positions};

use crate::fault::ScriptFault;
use crate::limits::first_large;
use aql_infer::check::check;
use aql_infer::fault::TypeFault;
use aql_infer_steps::typed::Typed;
use aql_lex::fault::LexFault;
use aql_lex::laws::one_answer;
use aql_lex::lexer::tokens;
use aql_parse::{ParseFault, script as parsed};
use aql_parse_spec::laws::one_reading;
use aql_prelude::{COUNT, prelude};
use aql_syntax::ast::Decls;
use aql_value::Memory;
use std::alloc::Global;

/// The positions of a script, those of the prelude first, each with its principal type.
#[derive(Drop)]
pub struct Prepared {
    pub decls: Decls,
    pub typed: Typed,
}

/// The positions of a script.
///
/// The faults are looked for in this order: `Text`, `Deep`, `Syntax`, `Type`, `Large`.
pub fn prepare(alloc: Global, script: &[u8]) -> Result<Prepared, ScriptFault>
    ensures { Prepares script.now result }
{
    match parse(alloc, script) {
        Ok(own) => prepare_positions(alloc, own),
        Err(fault) => Err(fault),
    }
}

// The declarations that the bytes are.
fn parse(alloc: Global, script: &[u8]) -> Result<Decls, ScriptFault>
    ensures { Declares script.now result }
{
    match tokens(alloc, script) {
        Ok(found) => {
            let own = parsed(alloc, &found, script);
            one_answer();
            one_reading();
            match own {
                Ok(decls) => Ok(decls),
                Err(ParseFault::Syntax { declaration }) => Err(ScriptFault::Syntax { declaration }),
                Err(ParseFault::Memory) => Err(ScriptFault::Memory),
            }
        }
        Err(LexFault::Text { at }) => Err(ScriptFault::Text { at }),
        Err(LexFault::Deep { at }) => Err(ScriptFault::Deep { at }),
        Err(LexFault::Memory) => Err(ScriptFault::Memory),
    }
}

// The positions of a script with these declarations.
fn prepare_positions(alloc: Global, own: Decls) -> Result<Prepared, ScriptFault>
    ensures { IsPreparedAs (decls_of own.items.items) result }
{
    let decls = behind_prelude(alloc, own)?;
    match infer_types(alloc, &decls) {
        Ok(typed) => match first_past_limit(alloc, &decls) {
            Ok(Some(declaration)) => Err(ScriptFault::Large { declaration }),
            Ok(None) => Ok(Prepared { decls, typed }),
            Err(Memory) => Err(ScriptFault::Memory),
        },
        Err(fault) => Err(fault),
    }
}

// The prelude's declarations and then these.
#[tactic(auto, using(crate::proofs::Positions::preparing))]
fn behind_prelude(alloc: Global, own: Decls) -> Result<Decls, Memory>
    ensures { IfOk result (λ all. decls_of all.items.items ≡ positions (decls_of own.items.items)) }
{
    let mut all = prelude(alloc)?;
    for d in own.items {
        all.items.push(d)?;
    }
    Ok(all)
}

// The principal types of positions, or the first declaration behind the prelude without a typing.
fn infer_types(alloc: Global, decls: &Decls) -> Result<Typed, ScriptFault>
    requires { (ds : List Declaration) × (decls_of decls.now.items.items ≡ positions ds) }
    ensures { (ds : List Declaration) → decls_of decls.now.items.items ≡ positions ds
        → Types ds result }
{
    match check(alloc, decls) {
        Ok(typed) => Ok(typed),
        Err(TypeFault::NoType { declaration }) => Err(ScriptFault::Type {
            declaration: declaration - COUNT,
        }),
        Err(TypeFault::Memory) => Err(ScriptFault::Memory),
    }
}

// The first declaration behind the prelude that passes a limit, counted from behind it.
fn first_past_limit(alloc: Global, decls: &Decls) -> Result<Option<u64>, Memory>
    requires { (ds : List Declaration) × (decls_of decls.now.items.items ≡ positions ds) }
    ensures { (ds : List Declaration) → decls_of decls.now.items.items ≡ positions ds
        → IfOk result (IsFirstPast ds) }
{
    first_large(alloc, decls)
}
