//! The declarations so far, as the sizes of what comes after them want them.

ghost use Rattle.std.specs.Prelude.{◌≡◌, ◌-◌, ◌^◌, ◌++◌, ◌∷◌, [], min, OnOk, OnErr, List, Some};
ghost use Rattle.aql_syntax.specs.View.{tree_of, decl_of};
ghost use Rattle.aql_syntax.specs.Size as sizes;
ghost use Rattle.aql_syntax.specs.Size.{extents_of, decl_size, decl_levels};
ghost use Rattle.aql_syntax.specs.Measured.{latest, names_of};
ghost use Rattle.aql_syntax.specs.declared.ast.Decl.{Decl};
ghost use Rattle.aql_syntax.specs.Kept.{extent_in, extents_after};

use aql_names::names::Names;
use aql_syntax::ast::{Decl, Expr};
use aql_syntax::counts::{Counts, add_node};
use aql_syntax::walk;
use aql_syntax::walk::{Added, Macros};
use aql_value::{Memory, Str};
use std::alloc::Global;
use std::marker::Model;

/// The declarations so far: their names in order, and what an application of each adds.
#[derive(Drop)]
pub struct Extents {
    names: Names,
    added: Vec<Added>,
}

impl Model for Extents {
    ghost use Rattle.std.specs.Prelude.{◌≡◌, List, ℕ, Option, length};
    ghost use Rattle.aql_syntax.specs.Size.{Extent};

    ghost Value = { List (List ℕ × Option Extent) };

    ghost use Rattle.aql_script.specs.Entries.{entries};

    ghost view = { λ s. entries s.names s.added.items };

    ghost invariant = { λ s. length s.names ≡ length s.added.items };
}

impl Extents {
    /// Of no declarations.
    pub fn new(alloc: Global) -> Extents
        ensures { result ≡ extents_after [] }
    {
        Extents {
            names: Names::new(alloc),
            added: Vec::new(alloc),
        }
    }

    /// One declaration more, the latest. For want of memory nothing is added.
    pub fn push(&mut self, alloc: Global, d: &Decl) -> Result<(), Memory>
        ensures pushed { OnOk result ((ds : List Decl) → self.old ≡ extents_after ds →
            self.new ≡ extents_after (ds ++ d.now ∷ [])) }
        ensures as_before { OnErr result (self.new ≡ self.old) }
    {
        let added = Added::by(d, self);
        let name = d.name_copy(alloc)?;
        self.add(alloc, &name, added)
    }

    /// The size and the levels of an expression after the declarations.
    pub fn measure(&self, e: &Expr) -> Counts
        ensures size { (ds : List Decl) → self.now ≡ extents_after ds →
            result.size ≡ min (sizes.size (tree_of e.now) (extents_of (latest ds))) (2 ^ 64 - 1) }
        ensures levels { (ds : List Decl) → self.now ≡ extents_after ds →
            result.levels ≡ min (sizes.levels (tree_of e.now) (extents_of (latest ds)))
            (2 ^ 64 - 1) }
    {
        walk::measure(e, self)
    }

    /// The size and the levels of a declaration after the declarations.
    pub fn declaration(&self, d: &Decl) -> Counts
        ensures size { (ds : List Decl) → self.now ≡ extents_after ds →
            result.size ≡ min (decl_size (decl_of d.now) (extents_of (latest ds))) (2 ^ 64 - 1) }
        ensures levels { (ds : List Decl) → self.now ≡ extents_after ds →
            result.levels ≡ min (decl_levels (decl_of d.now) (extents_of (latest ds)))
            (2 ^ 64 - 1) }
    {
        match d {
            Decl::Val { name: _, expr } => self.measure(expr),
            Decl::Macro {
                name: _,
                pattern,
                body,
            } => {
                let own = pattern.nodes();
                add_node(own, own, self.measure(body))
            }
            Decl::Read {
                name: _,
                reader: _,
                expr,
            } => self.measure(expr),
            Decl::Bare { expr } => self.measure(expr),
        }
    }

    /// The names that the declarations bind, in order.
    pub fn names(&self) -> &Names
        ensures { (ds : List Decl) → self.now ≡ extents_after ds → result.now ≡ names_of ds }
    {
        &self.names
    }

    // One position more, of that name.
    fn add(&mut self, alloc: Global, name: &Str, added: Added) -> Result<(), Memory>
        ensures pushed { OnOk result (self.new ≡ (name.now, Some (extent_in added)) ∷ self.old) }
        ensures as_before { OnErr result (self.new ≡ self.old) }
    {
        self.added.push(added)?;
        match self.names.push(alloc, name) {
            Ok(()) => Ok(()),
            Err(Memory) => {
                self.added.pop();
                Err(Memory)
            }
        }
    }
}

impl Macros for Extents {
    ghost extents = { λ ms. ms };

    fn addition(&self, name: &Str) -> Added {
        match self.names.latest(name) {
            Some(i) => self.added[i],
            None => Added::none(),
        }
    }
}
