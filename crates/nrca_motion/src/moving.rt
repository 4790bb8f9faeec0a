//! One move, in place.

ghost use Rattle.std.specs.Prelude.{◌≡◌, ◌≤◌, OnOk, drop, length};
ghost use Rattle.nrca_term.specs.View.{term_of};
ghost use Rattle.nrca_motion.specs.Moving.{MayMoveAt, IsMovedAt};

use crate::fitting::Fit;
use crate::making::make;
use aql_value::Memory;
use nrca_term::Core;
use std::alloc::Global;
use std::mem;

/// Puts the right side in the place of the term at the end of the path, from its number `at` on. Where memory is wanting,
/// Bottom may stand there.
pub(crate) fn move_at(
    alloc: Global,
    term: &mut Core,
    path: &[u64],
    at: usize,
    fit: Fit,
) -> Result<(), Memory>
    requires within { at ≤ length path.now }
    requires place { MayMoveAt fit (term_of term.old) (drop at path.now) }
    ensures { OnOk result
        (IsMovedAt fit (term_of term.old) (drop at path.now) (term_of term.new)) }
{
    if at < path.len() {
        let mut part = Core::Bottom;
        term.exchange(path[at], &mut part);
        let done = move_at(alloc, &mut part, path, at + 1, fit);
        term.exchange(path[at], &mut part);
        done
    } else {
        let left = mem::replace(term, Core::Bottom);
        *term = make(alloc, fit, left)?;
        Ok(())
    }
}
