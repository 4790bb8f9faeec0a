//! The declaration at a position.

ghost use Rattle.std.specs.Prelude.{◌≡◌, ◌≤◌, ◌-◌, length, Some};
ghost use Rattle.std.specs.List.{slice_get};
ghost use Rattle.aql_syntax.specs.View.{decl_of, decls_of};

use crate::ast::Decl;

/// Declaration n, counted from 1.
pub fn declaration_at(decls: &[Decl], n: u64) -> &Decl
    requires first { 1 ≤ n }
    requires last { n ≤ length decls.now }
    ensures { slice_get (decls_of decls.now) (n - 1) ≡ Some (decl_of result.now) }
{
    &decls[(n - 1) as usize]
}
