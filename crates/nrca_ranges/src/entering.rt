//! The way into the parts of the node that stands at a place, and back.

ghost use Rattle.std.specs.Prelude.{◌≡◌, ◌<◌, IfOk, OnOk};
ghost use Rattle.nrca_term.specs.Term.{parts_of, count};
ghost use Rattle.nrca_term.specs.View.{term_of};
ghost use Rattle.nrca_ranges.specs.Context.{context_of, at_mark, ranges_at_mark, IsSmallTerm, IsEntered};
ghost use Rattle.nrca_ranges.specs.Shapes.{ranges_of, EntersRanges, AllowsInside};
ghost use Rattle.nrca_ranges.specs.Walk.{AddsBounds, HasFirst, entered_bounds};

use crate::context::{Ctx, Mark, add_facts};
use crate::shape::Shape;
use crate::variables::add_variables;
use crate::walk::{Progress, Told, walk_part};
use aql_value::Memory;
use nrca_term::Core;
use std::alloc::Global;

impl Ctx {
    /// The context of a part, counted from 0, of the node that stands at the place: a copy, entered.
    pub fn enter(&self, alloc: Global, parent: &Core, part: u64) -> Result<Ctx, Memory>
        requires has { part < count (parts_of (term_of parent.now)) }
        requires inside { IsSmallTerm self.now.depth (term_of parent.now) }
        ensures entered { IfOk result (λ c. IsEntered self.now parent.now part c) }
        ensures ranges { IfOk result (λ c. EntersRanges self.now parent.now part c) }
        ensures allows { IfOk result (λ c. AllowsInside self.now parent.now part c) }
    {
        let mut inner = self.copy(alloc)?;
        let _mark = inner.push(alloc, parent, part)?;
        Ok(inner)
    }

    /// Enters a part of the node that stands at the place, counted from 0. Of the facts that it adds
    /// it keeps copies, and of the variables that the node binds there the shapes. Where memory is
    /// wanting, some of them may have been added.
    pub fn push(&mut self, alloc: Global, parent: &Core, part: u64) -> Result<Mark, Memory>
        requires has { part < count (parts_of (term_of parent.now)) }
        requires inside { IsSmallTerm self.old.depth (term_of parent.now) }
        ensures entered { OnOk result (IsEntered self.old parent.now part self.new) }
        ensures ranges { OnOk result (EntersRanges self.old parent.now part self.new) }
        ensures back { IfOk result (λ m. at_mark m (context_of self.new) ≡ context_of self.old) }
        ensures values { IfOk result
            (λ m. ranges_at_mark m (ranges_of self.new) ≡ ranges_of self.old) }
        ensures globals { self.new.globals ≡ self.old.globals }
    {
        let mark = Mark {
            facts: self.facts.len(),
            depth: self.depth,
            variables: self.variables.len(),
        };
        let told = first_told(alloc, self, parent, part)?;
        add_own(alloc, &mut self.variables, parent, part, told)?;
        add_facts(alloc, &mut self.facts, self.depth, parent, part)?;
        self.depth += parent.binders(part);
        Ok(mark)
    }

    /// Leaves the part that was entered at the mark, with all parts inside it.
    pub fn take_back(&mut self, mark: Mark)
        ensures back { context_of self.new ≡ at_mark mark (context_of self.old) }
        ensures ranges { ranges_of self.new ≡ ranges_at_mark mark (ranges_of self.old) }
        ensures globals { self.new.globals ≡ self.old.globals }
    {
        self.facts.truncate(mark.facts);
        self.variables.truncate(mark.variables);
        self.depth = mark.depth;
    }
}

// The shapes of the variables that the node binds in the part, behind the others.
fn add_own(
    alloc: Global,
    shapes: &mut Vec<Shape>,
    parent: &Core,
    part: u64,
    told: Vec<Told>,
) -> Result<(), Memory>
    ensures { OnOk result
        (AddsBounds shapes.old.items (entered_bounds parent.now part told.items) shapes.new.items) }
{
    add_variables(alloc, shapes, parent.form(), part, told.as_slice())
}

// What is told of the parts before the one of that number, where the node binds variables in that one.
fn first_told(alloc: Global, ctx: &Ctx, parent: &Core, part: u64) -> Result<Vec<Told>, Memory>
    requires has { part < count (parts_of (term_of parent.now)) }
    requires inside { IsSmallTerm ctx.now.depth (term_of parent.now) }
    ensures { IfOk result (λ v. HasFirst ctx.now parent.now part v.items) }
{
    let mut progress = Progress {
        facts: Vec::new(alloc),
        variables: Vec::new(alloc),
        told: Vec::new(alloc),
    };
    if parent.binders(part) > 0 {
        for i in 0..part {
            walk_part(alloc, parent, i, ctx, ctx.depth, 0, &mut progress)?;
        }
    }
    Ok(progress.told)
}
