//! All declarations, one after another.

ghost use Rattle.std.specs.Prelude.{◌≡◌, IfOk};
ghost use Rattle.aql_syntax.specs.View.{decls_of};
ghost use Rattle.aql_infer_steps.specs.Typed.{sorts_of};
ghost use Rattle.aql_infer.specs.Checked.{IsChecked, AllFound, found_sorts};

use crate::declare::infer_declaration;
use crate::fault::TypeFault;
use aql_infer_steps::fault::NoTyping;
use aql_infer_steps::positions::{Position, Positions};
pub use aql_infer_steps::typed::Typed;
use aql_syntax::ast::{Decl, Decls};
use aql_ty::ty::Scheme;
use aql_value::Memory;
use std::alloc::Global;

/// The principal scheme of each declaration over those before it, with its variables numbered by
/// first appearance; or the first declaration that has no typing.
pub fn check(alloc: Global, decls: &Decls) -> Result<Typed, TypeFault>
    ensures { IsChecked result (decls_of decls.now.items.items) }
{
    let found = infer_all_declarations(alloc, &decls.items)?;
    let items = schemes(alloc, found.items())?;
    Ok(Typed { items })
}

#[tactic(auto, using(crate::proofs::Progress::checked_steps))]
fn infer_all_declarations(alloc: Global, decls: &[Decl]) -> Result<Positions, TypeFault>
    ensures { AllFound result (decls_of decls.now) }
{
    let mut found = Positions::new(alloc);
    for d in decls {
        match infer_declaration(alloc, d, &found) {
            Ok(p) => found.push(alloc, p)?,
            Err(NoTyping::NoType) => {
                let declaration = (found.len() as u64).saturating_add(1);
                return Err(TypeFault::NoType { declaration });
            }
            Err(NoTyping::Memory) => return Err(TypeFault::Memory),
        }
    }
    Ok(found)
}

// The schemes of positions.
#[tactic(auto, using(crate::proofs::Progress::schemes_steps))]
fn schemes(alloc: Global, found: &[Position]) -> Result<Vec<Scheme>, Memory>
    ensures { IfOk result (λ made. sorts_of made.items ≡ found_sorts found.now) }
{
    let mut made = Vec::new(alloc);
    for p in found {
        let scheme = p.scheme.copy(alloc)?;
        made.push(scheme)?;
    }
    Ok(made)
}
