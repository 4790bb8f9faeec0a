//! Terms as they stand outside of variables that they do not use, and the body of a let that goes out past variables.

ghost use Rattle.std.specs.Prelude.{◌≡◌, ◌≤◌, IfOk};
ghost use Rattle.nrca_term.specs.View.{term_of};
ghost use Rattle.nrca_motion.specs.Moves.{rotate_term};
ghost use Rattle.nrca_motion.specs.Outside.{HasRoom, IsOutside};

use aql_value::Memory;
use nrca_subst::{shift, subst, uses};
use nrca_term::Core;
use std::alloc::Global;

/// The term without its `count` innermost variables, where it uses none of them.
pub(crate) fn strengthen(alloc: Global, term: Core, count: u64) -> Result<Option<Core>, Memory>
    requires { HasRoom (term_of term) }
    ensures { IfOk result (IsOutside count (term_of term)) }
{
    let mut lowered = term;
    for _ in 0..count {
        if uses(&lowered, 0) != 0 {
            return Ok(None);
        }
        lowered = subst(alloc, lowered, 0, &Core::Bottom)?;
    }
    Ok(Some(lowered))
}

/// The body of a let as it stands where its let has gone out past `count` variables.
pub(crate) fn rotate(alloc: Global, body: Core, count: u64) -> Result<Core, Memory>
    requires room { HasRoom (term_of body) }
    requires few { count ≤ 4000000 }
    ensures { IfOk result (λ t. term_of t ≡ rotate_term count (term_of body)) }
{
    let wide = shift(body, count + 1, 1);
    let turned = subst(alloc, wide, 0, &Core::Var(count))?;
    Ok(turned)
}
