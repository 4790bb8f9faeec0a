//! The context of a place: the comparisons known there, the number of variables, the shapes of variables and positions.

ghost use Rattle.std.specs.Prelude.{◌≡◌, ◌<◌, IfOk, OnOk};
ghost use Rattle.nrca_term.specs.View.{term_of};
ghost use Rattle.nrca_term.specs.Facts.{no_facts};
ghost use Rattle.nrca_ranges.specs.Context.{fact_of, facts_in, known_facts, around};
ghost use Rattle.nrca_ranges.specs.Bounds.{at_root};
ghost use Rattle.nrca_ranges.specs.Shapes.{shapes_in, ranges_of};
ghost use Rattle.nrca_ranges.specs.Context.{context_of, IsSmallTerm, HasRoom, AddsTo, LeaveRoom, bound_fact, bounds_facts, loop_facts, part_facts, test_facts};

use crate::positions::GlobalShapes;
use crate::shape::{Shape, copy_list};
use aql_value::{CompareOp, Memory};
use nrca_subst::shift;
use nrca_term::{Core, Terms};
use std::alloc::Global;

/// How a comparison is known: from a tabulation or a loop over a generated set, from the test of an
/// if in its first branch, or in its second, where the test is false.
#[derive(Clone, Copy, PartialEq, Eq)]
pub enum Known {
    Domain,
    Test,
    Denied,
}

/// A comparison, as it is written among `depth` variables.
#[derive(Drop)]
pub struct Fact {
    pub comparison: Core,
    pub known: Known,
    pub depth: u64,
}

/// The facts of a place, those of the outermost node first; its number of variables; for each
/// position, counted from 1, the shape of its value, or none where it has no value; and the shapes of
/// the variables, the outermost first.
#[derive(Drop)]
pub struct Ctx {
    pub facts: Vec<Fact>,
    pub depth: u64,
    pub globals: GlobalShapes,
    pub variables: Vec<Shape>,
}

/// How many facts, variables and shapes of variables a context had before a part was entered.
#[derive(Drop)]
pub struct Mark {
    pub facts: usize,
    pub depth: u64,
    pub variables: usize,
}

impl Ctx {
    /// The context of the root of a closed term. It takes no memory.
    pub fn new(alloc: Global, globals: GlobalShapes) -> Ctx
        ensures context { context_of result ≡ no_facts }
        ensures globals { result.globals ≡ globals }
        ensures ranges { ranges_of result ≡ at_root (shapes_in globals) }
    {
        Ctx {
            facts: Vec::new(alloc),
            depth: 0,
            globals,
            variables: Vec::new(alloc),
        }
    }

    /// The facts of the place, those of the outermost node first. It takes no memory.
    pub fn facts(&self) -> &[Fact]
        ensures { facts_in result.now ≡ known_facts self.now }
    {
        self.facts.as_slice()
    }

    /// The number of variables of the place. It takes no memory.
    pub fn depth(&self) -> u64
        ensures { result ≡ around self.now }
    {
        self.depth
    }

    /// The shapes of the positions' values. It takes no memory.
    pub fn globals(&self) -> &GlobalShapes
        ensures { result.now ≡ self.now.globals }
    {
        &self.globals
    }

    /// A context with the same facts, variables and shapes.
    pub fn copy(&self, alloc: Global) -> Result<Ctx, Memory>
        ensures context { IfOk result (λ c. context_of c ≡ context_of self.now) }
        ensures ranges { IfOk result (λ c. ranges_of c ≡ ranges_of self.now) }
    {
        let facts = copy_facts(alloc, self.facts.as_slice())?;
        let globals = self.globals.copy(alloc)?;
        let variables = copy_list(alloc, self.variables.as_slice())?;
        Ok(Ctx {
            facts,
            depth: self.depth,
            globals,
            variables,
        })
    }
}

// Equal facts.
fn copy_facts(alloc: Global, facts: &[Fact]) -> Result<Vec<Fact>, Memory>
    ensures { IfOk result (λ v. facts_in v.items ≡ facts_in facts.now) }
{
    let mut copied = Vec::new(alloc);
    for fact in facts {
        let next = copy_fact(alloc, fact)?;
        copied.push(next)?;
    }
    Ok(copied)
}

// An equal fact.
fn copy_fact(alloc: Global, fact: &Fact) -> Result<Fact, Memory>
    ensures { IfOk result (λ f. fact_of f ≡ fact_of fact.now) }
{
    let comparison = fact.comparison.copy(alloc)?;
    Ok(Fact {
        comparison,
        known: fact.known,
        depth: fact.depth,
    })
}

// The facts that a part of a node has beside those around the node.
#[inline(never)]
pub(crate) fn add_facts(
    alloc: Global,
    facts: &mut Vec<Fact>,
    depth: u64,
    parent: &Core,
    part: u64,
) -> Result<(), Memory>
    requires { IsSmallTerm depth (term_of parent.now) }
    ensures { OnOk result (AddsTo facts.old (part_facts depth parent.now part) facts.new) }
{
    match parent {
        Core::If(test, _, _) => {
            if part == 1 {
                return add_test(alloc, facts, depth, test, Known::Test);
            }
            if part == 2 {
                return add_test(alloc, facts, depth, test, Known::Denied);
            }
            Ok(())
        }
        Core::BigUnion { over, body: _ } => {
            if part == 1 {
                return add_loop(alloc, facts, depth, over);
            }
            Ok(())
        }
        Core::Sum { over, body: _ } => {
            if part == 1 {
                return add_loop(alloc, facts, depth, over);
            }
            Ok(())
        }
        Core::Tab { bounds, body: _ } => {
            if part >= bounds.0.len() as u64 {
                return add_bounds(alloc, facts, depth, bounds);
            }
            Ok(())
        }
        _ => Ok(()),
    }
}

// The test of an if, where it is a comparison.
fn add_test(
    alloc: Global,
    facts: &mut Vec<Fact>,
    depth: u64,
    test: &Core,
    known: Known,
) -> Result<(), Memory>
    ensures { OnOk result (AddsTo facts.old (test_facts test.now known depth) facts.new) }
{
    match test {
        Core::Compare(_, _, _) => {
            let comparison = test.copy(alloc)?;
            facts.push(Fact {
                comparison,
                known,
                depth,
            })?;
            Ok(())
        }
        _ => Ok(()),
    }
}

// A member of a generated set is below the number that generates it.
fn add_loop(alloc: Global, facts: &mut Vec<Fact>, depth: u64, over: &Core) -> Result<(), Memory>
    requires { (depth < 2000000) × HasRoom 1 (term_of over.now) }
    ensures { OnOk result (AddsTo facts.old (loop_facts over.now depth) facts.new) }
{
    match over {
        Core::Gen(bound) => add_below(alloc, facts, depth + 1, 0, bound, 1),
        _ => Ok(()),
    }
}

// Variable `index` is below the bound, which stands outside of `rank` variables.
fn add_below(
    alloc: Global,
    facts: &mut Vec<Fact>,
    depth: u64,
    index: u64,
    bound: &Core,
    rank: u64,
) -> Result<(), Memory>
    requires { HasRoom rank (term_of bound.now) }
    ensures { OnOk result (AddsTo facts.old (bound_fact index rank bound.now depth) facts.new) }
{
    let copied = bound.copy(alloc)?;
    let shifted = shift(copied, 0, rank);
    let left = Box::new(alloc, Core::Var(index))?;
    let right = Box::new(alloc, shifted)?;
    facts.push(Fact {
        comparison: Core::Compare(CompareOp::Less, left, right),
        known: Known::Domain,
        depth,
    })?;
    Ok(())
}

// Each index of a tabulation is below its bound.
fn add_bounds(
    alloc: Global,
    facts: &mut Vec<Fact>,
    depth: u64,
    bounds: &Terms,
) -> Result<(), Memory>
    requires { LeaveRoom depth bounds.now }
    ensures { OnOk result (AddsTo facts.old (bounds_facts bounds.now depth) facts.new) }
{
    let rank = bounds.0.len() as u64;
    let mut index = rank;
    for bound in &bounds.0 {
        index -= 1;
        add_below(alloc, facts, depth + rank, index, bound, rank)?;
    }
    Ok(())
}
