//! The core terms of scripts.

ghost use Rattle.std.specs.Prelude.{◌≤◌, length, IfOk};
ghost use Rattle.nrca_term.specs.Typing.{IsTyped};
ghost use Rattle.nrca_term.specs.View.{term_of};
ghost use Rattle.nrca_tests.specs.Checked.{IsChecked, IsBareAt};

use aql_desugar::translate::translate;
use aql_script::{Prepared, prepare};
use aql_syntax::ast::Decl;
use aql_syntax::positions::declaration_at;
use aql_value::Memory;
use nrca_term::Core;
use std::alloc::Global;

/// The term of the last declaration of a script, where that is a bare expression.
pub fn start(alloc: Global, script: &str) -> Result<Core, Memory>
    ensures { IfOk result (λ c. IsTyped (term_of c)) }
{
    match prepare(alloc, script.as_bytes()) {
        Ok(prepared) => {
            let made = last_term(alloc, &prepared);
            drop(prepared);
            made
        }
        Err(_) => Err(Memory),
    }
}

// The term of the last position.
fn last_term(alloc: Global, prepared: &Prepared) -> Result<Core, Memory>
    requires { IsChecked prepared.now }
    ensures { IfOk result (λ c. IsTyped (term_of c)) }
{
    let n = prepared.decls.items.len() as u64;
    if n == 0 {
        return Err(Memory);
    }
    match declaration_at(&prepared.decls.items, n) {
        Decl::Bare { expr: _ } => term_at(alloc, prepared, n),
        _ => Err(Memory),
    }
}

// The term of a bare expression.
fn term_at(alloc: Global, prepared: &Prepared, n: u64) -> Result<Core, Memory>
    requires first { 1 ≤ n }
    requires last { n ≤ length prepared.now.decls.items.items }
    requires checked { IsChecked prepared.now }
    requires bare { IsBareAt prepared.now n }
    ensures { IfOk result (λ c. IsTyped (term_of c)) }
{
    match translate(alloc, &prepared.decls, &prepared.typed, n) {
        Ok(term) => Ok(term),
        Err(_) => Err(Memory),
    }
}
