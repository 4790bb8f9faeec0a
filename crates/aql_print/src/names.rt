//! The names of variables.

ghost use Rattle.std.specs.Prelude.{◌≡◌, ◌++◌, OnOk};
ghost use Rattle.aql_print.specs.Names.{bound_text, variable_text};

use crate::bytes::{put, put_number};
use aql_value::Memory;

/// Appends a bound variable, by the number of binders around its own.
#[inline(never)]
pub(crate) fn put_bound(binders: u64, out: &mut Vec<u8>) -> Result<(), Memory>
    ensures { OnOk result (out.new.items ≡ out.old.items ++ bound_text binders) }
{
    put(b"x", out)?;
    put_number(u128::from(binders), out)
}

/// Appends variable `i` where `depth` binders stand around it.
pub fn put_variable(depth: u64, i: u64, out: &mut Vec<u8>) -> Result<(), Memory>
    ensures { OnOk result (out.new.items ≡ out.old.items ++ variable_text depth i) }
{
    put_bound(depth.saturating_sub(1).saturating_sub(i), out)
}
