//! The size and the levels of a declaration with every macro put in place.

ghost use Rattle.std.specs.Prelude.{◌≡◌, ◌-◌, ◌+◌, ◌^◌, ◌≤◌, min, length, take, reverse, ◌<◌};
ghost use Rattle.std.specs.List.{slice_get};
ghost use Rattle.aql_syntax.specs.View.{tree_of, pat_of, pats_of, decl_of, decls_of};
ghost use Rattle.aql_syntax.specs.Size as sizes;
ghost use Rattle.aql_syntax.specs.Size.{pat_nodes, pats_nodes, expanded_size, expanded_levels, extents_of, decl_size, decl_levels, size_at, levels_at};
ghost use Rattle.aql_syntax.specs.Measured.{latest};
ghost use Rattle.aql_syntax.specs.Kept.{kept_onto, chain_extents};

use crate::ast::{Decl, Decls, Expr, Pattern};
use crate::counts::{Counts, add_node};
use crate::walk::{self, Added, Macros};
use aql_value::Str;

/// The most nodes of a declaration, with every macro put in place.
pub const MOST_NODES: u64 = 20_000;

/// The most levels of it.
pub const MOST_LEVELS: u64 = 1_000;

/// The expanded size of declaration n, counted from 1.
pub fn size(decls: &Decls, n: u64) -> u64
    requires first { 1 ≤ n }
    requires last { n ≤ length decls.now.items.items }
    ensures { result ≡ min (expanded_size (decls_of decls.now.items.items) n) (2 ^ 64 - 1) }
{
    measure_at(&decls.items, n as usize - 1).size
}

/// The expanded levels of declaration n, counted from 1.
pub fn levels(decls: &Decls, n: u64) -> u64
    requires first { 1 ≤ n }
    requires last { n ≤ length decls.now.items.items }
    ensures { result ≡ min (expanded_levels (decls_of decls.now.items.items) n) (2 ^ 64 - 1) }
{
    measure_at(&decls.items, n as usize - 1).levels
}

#[tactic(auto, using(crate::specs::Laws::Measuring::latest_last))]
fn measure_at(decls: &[Decl], i: usize) -> Counts
    requires { i < length decls.now }
    ensures size { result.size ≡ min (size_at (slice_get (decls_of decls.now) i)
        (extents_of (reverse (take i (decls_of decls.now))))) (2 ^ 64 - 1) }
    ensures levels { result.levels ≡ min (levels_at (slice_get (decls_of decls.now) i)
        (extents_of (reverse (take i (decls_of decls.now))))) (2 ^ 64 - 1) }
{
    measure_own(&decls[i], &decls[..i])
}

// A declaration after others.
fn measure_own(d: &Decl, before: &[Decl]) -> Counts
    ensures size { result.size ≡ min (decl_size (decl_of d.now) (extents_of (latest before.now)))
        (2 ^ 64 - 1) }
    ensures levels { result.levels ≡ min
        (decl_levels (decl_of d.now) (extents_of (latest before.now))) (2 ^ 64 - 1) }
{
    match d {
        Decl::Val { name: _, expr } => measure(expr, before),
        Decl::Macro {
            name: _,
            pattern,
            body,
        } => {
            let own = pattern.nodes();
            add_node(own, own, measure(body, before))
        }
        Decl::Read {
            name: _,
            reader: _,
            expr,
        } => measure(expr, before),
        Decl::Bare { expr } => measure(expr, before),
    }
}

/// The size and the levels of an expression after these declarations.
///
/// Nothing is kept of the declarations but on the stack: the room of one call for each.
pub fn measure(e: &Expr, earlier: &[Decl]) -> Counts
    ensures size { result.size ≡ min (sizes.size (tree_of e.now) (extents_of (latest earlier.now)))
        (2 ^ 64 - 1) }
    ensures levels { result.levels ≡ min
        (sizes.levels (tree_of e.now) (extents_of (latest earlier.now))) (2 ^ 64 - 1) }
{
    measure_onto(e, earlier, &Chain::Start)
}

// An expression after the declarations of which that is kept, and then these.
fn measure_onto<'a>(e: &Expr, later: &'a [Decl], kept: &Chain<'a>) -> Counts
    ensures size { result.size ≡ min
        (sizes.size (tree_of e.now) (kept_onto later.now (chain_extents kept.now))) (2 ^ 64 - 1) }
    ensures levels { result.levels ≡ min
        (sizes.levels (tree_of e.now) (kept_onto later.now (chain_extents kept.now)))
        (2 ^ 64 - 1) }
{
    match later.split_first() {
        None => walk::measure(e, kept),
        Some((decl, rest)) => {
            let added = Added::by(decl, kept);
            let next = Chain::Then {
                decl,
                added,
                before: &*kept,
            };
            measure_onto(e, rest, &next)
        }
    }
}

/// What is kept of declarations, one in front of those before it, without memory.
#[derive(Clone, Copy)]
enum Chain<'a> {
    Start,
    Then {
        decl: &'a Decl,
        added: Added,
        before: &'a Chain<'a>,
    },
}

impl<'b> Macros for Chain<'b> {
    ghost extents = { chain_extents };

    fn addition(&self, name: &Str) -> Added {
        match self {
            Chain::Start => Added::none(),
            Chain::Then {
                decl,
                added,
                before,
            } => {
                if decl.declares(name) {
                    *added
                } else {
                    before.addition(name)
                }
            }
        }
    }
}

impl Pattern {
    /// The number of nodes, or the greatest number of 64 bits where there are more.
    #[cycle(pattern_nodes)]
    #[tactic(auto, using(crate::specs::Laws::View::pat_of_row))]
    pub fn nodes(&self) -> u64
        ensures { result ≡ min (pat_nodes (pat_of self.now)) (2 ^ 64 - 1) }
    {
        match self {
            Pattern::Bind(_) => 1,
            Pattern::Any => 1,
            Pattern::Nat(_) => 1,
            Pattern::Bool(_) => 1,
            Pattern::Text(_) => 1,
            Pattern::Name(_) => 1,
            Pattern::Row(ps) => patterns_nodes(&ps.items).saturating_add(1),
        }
    }
}

#[cycle(pattern_nodes)]
#[tactic(auto, using(crate::specs::Laws::View::pats_steps))]
fn patterns_nodes(ps: &[Pattern]) -> u64
    ensures { result ≡ min (pats_nodes (pats_of ps.now)) (2 ^ 64 - 1) }
{
    let mut total: u64 = 0;
    for p in ps {
        total = total.saturating_add(p.nodes());
    }
    total
}
