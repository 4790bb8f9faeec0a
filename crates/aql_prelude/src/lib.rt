//! The prelude: the 24 macros that stand before the declarations of every script.
//!
//! `prelude` is the one call. `specs/Prelude.antt` has each declaration as a tree, under its text. The code has each as a constant, in
//! `macros`, of the forms in `constants`, and one recursion over these, in `trees`, makes the trees; `specs/Constants.antt` says which
//! tree a constant stands for.
#![tactic(auto)]

ghost use Rattle.std.specs.Prelude.{◌≡◌, length, IfOk};
ghost use Rattle.aql_syntax.specs.View.{decls_of};
ghost use Rattle.aql_prelude.specs.Prelude.{prelude_decls, prelude_count};

mod constants;
pub mod laws;
mod macros;
mod trees;

use crate::macros::MACROS;
use crate::trees::declare_all;
use aql_syntax::ast::Decls;
use aql_value::Memory;
use std::alloc::Global;

/// How many declarations the prelude has.
pub const COUNT: u64 = 24;

/// The declarations of the prelude, in order.
pub fn prelude(alloc: Global) -> Result<Decls, Memory>
    ensures declarations { IfOk result (λ d. decls_of d.items.items ≡ prelude_decls) }
    ensures count { IfOk result (λ d. length d.items.items ≡ prelude_count) }
{
    let items = declare_all(alloc, &MACROS)?;
    Ok(Decls { items })
}
