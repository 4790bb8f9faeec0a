//! The names that declarations bind.

ghost use Rattle.std.specs.Prelude.{◌≡◌, IfOk};
ghost use Rattle.aql_syntax.specs.Names.{names_equal};
ghost use Rattle.aql_syntax.specs.Tree.{declared_name};
ghost use Rattle.aql_syntax.specs.View.{decl_of};

use crate::ast::Decl;
use aql_value::{Memory, Str};
use std::alloc::Global;

impl Decl {
    /// The name that the declaration binds; a bare expression binds `it`.
    pub fn name(&self) -> &[u8]
        ensures { result.now ≡ declared_name (decl_of self.now) }
    {
        match self {
            Decl::Val { name, expr: _ } => name.bytes.as_slice(),
            Decl::Macro {
                name,
                pattern: _,
                body: _,
            } => name.bytes.as_slice(),
            Decl::Read {
                name,
                reader: _,
                expr: _,
            } => name.bytes.as_slice(),
            Decl::Bare { expr: _ } => b"it",
        }
    }

    /// A string that is the name.
    pub fn name_copy(&self, alloc: Global) -> Result<Str, Memory>
        ensures { IfOk result (λ x. x ≡ declared_name (decl_of self.now)) }
    {
        let bytes = Vec::from_slice(alloc, self.name())?;
        Ok(Str { bytes })
    }

    /// Whether the declaration binds that name.
    pub fn declares(&self, name: &Str) -> bool
        ensures { result ≡ names_equal name.now (declared_name (decl_of self.now)) }
    {
        name.is(self.name())
    }
}
