//! The limits on a declaration.

ghost use Rattle.std.specs.Prelude.{◌≡◌, ◌≤◌, ◌<◌, ◌+◌, IfOk, List, true, false, length, take};
ghost use Rattle.aql_prelude.specs.Prelude.{prelude_count};
ghost use Rattle.aql_syntax.specs.Measured.{latest};
ghost use Rattle.aql_syntax.specs.Size.{AreWithin, PassLimits, decl_size, decl_levels, extents_of};
ghost use Rattle.aql_syntax.specs.View.{decl_of};
ghost use Rattle.aql_syntax.specs.declared.ast.Decl.{Decl};
ghost use Rattle.aql_syntax.specs.Kept.{extents_after};
ghost use Rattle.aql_script.specs.Limits.{SearchesLarge};

use crate::extents::Extents;
use aql_prelude::COUNT;
use aql_syntax::ast::{Decl, Decls};
use aql_syntax::sizes::{MOST_LEVELS, MOST_NODES};
use aql_value::Memory;
use std::alloc::Global;

/// The first declaration behind the prelude that passes a limit, counted from behind it. Each is measured once.
pub(crate) fn first_large(alloc: Global, decls: &Decls) -> Result<Option<u64>, Memory>
    requires { prelude_count ≤ length decls.now.items.items }
    ensures { IfOk result (SearchesLarge decls.now.items.items) }
{
    let mut earlier = Extents::new(alloc);
    'positions: for i in 0..decls.items.len() {
        let d = &decls.items[i];
        if is_past(&earlier, d, i as u64 + 1) {
            return Ok(Some(i as u64 + 1 - COUNT));
        }
        earlier.push(alloc, d)?;
    }
    Ok(None)
}

// Whether a declaration after these, of that number, stands behind the prelude and passes a limit.
fn is_past(earlier: &Extents, d: &Decl, n: u64) -> bool
    ensures behind { result ≡ true → prelude_count < n }
    ensures large { (ds : List Decl) → earlier.now ≡ extents_after ds → result ≡ true
        → PassLimits (decl_size (decl_of d.now) (extents_of (latest ds)))
        (decl_levels (decl_of d.now) (extents_of (latest ds))) }
    ensures within { (ds : List Decl) → earlier.now ≡ extents_after ds → result ≡ false
        → prelude_count < n
        → AreWithin (decl_size (decl_of d.now) (extents_of (latest ds)))
        (decl_levels (decl_of d.now) (extents_of (latest ds))) }
{
    if n <= COUNT {
        return false;
    }
    let counts = earlier.declaration(d);
    counts.size > MOST_NODES || counts.levels > MOST_LEVELS
}
