//! The walk over one expression, which takes what an application adds from what is kept of the declarations before it.

ghost use Rattle.std.specs.Prelude.{◌≡◌, ◌-◌, ◌+◌, ◌^◌, min, max, Some};
ghost use Rattle.aql_syntax.specs.Names.{find};
ghost use Rattle.aql_syntax.specs.View.{tree_of, trees_of, quals_of, axes_in, defs_in, decl_of};
ghost use Rattle.aql_syntax.specs.Size as sizes;
ghost use Rattle.aql_syntax.specs.Size.{Extents, extent_of, extent};
ghost use Rattle.aql_syntax.specs.Measured.{qual_part};
ghost use Rattle.aql_syntax.specs.Kept.{saturate_extent, extent_in};

use crate::ast::{Bind, Decl, Expr, LetBind, Qual};
use crate::counts::{Counts, add_node, add_parts, digits, leaf, lets_nodes, nothing, quals_nodes};
use aql_value::Str;

/// What an application of a declaration adds: the nodes of its pattern, and the size and the levels of its body. Each is the
/// greatest number of 64 bits where it passes it, and 0 where the declaration is no macro.
#[derive(Clone, Copy)]
pub struct Added {
    pub pattern: u64,
    pub size: u64,
    pub levels: u64,
}

/// What is kept of declarations for the sizes of what comes after them. A contract sees it as extents, the latest first.
pub trait Macros {
    ghost extents: { Self → Extents };

    /// What an application of the name adds: nothing where it is no macro.
    fn addition(&self, name: &Str) -> Added
        ensures pattern { result.pattern ≡ (extent_of (find name.now (extents self.now))).pattern }
        ensures size { result.size ≡ (extent_of (find name.now (extents self.now))).size }
        ensures levels { result.levels ≡ (extent_of (find name.now (extents self.now))).levels };
}

impl Added {
    /// Of a declaration that is no macro.
    pub fn none() -> Added
        ensures pattern { result.pattern ≡ 0 }
        ensures size { result.size ≡ 0 }
        ensures levels { result.levels ≡ 0 }
    {
        Added {
            pattern: 0,
            size: 0,
            levels: 0,
        }
    }

    /// Of a declaration after declarations of which that is kept.
    pub fn by<M: Macros>(d: &Decl, macros: &M) -> Added
        ensures { extent_in result
            ≡ saturate_extent (extent_of (Some (extent (decl_of d.now) (M.extents macros.now)))) }
    {
        match d {
            Decl::Val { name: _, expr: _ } => Added::none(),
            Decl::Macro {
                name: _,
                pattern,
                body,
            } => {
                let counts = measure(body, macros);
                Added {
                    pattern: pattern.nodes(),
                    size: counts.size,
                    levels: counts.levels,
                }
            }
            Decl::Read {
                name: _,
                reader: _,
                expr: _,
            } => Added::none(),
            Decl::Bare { expr: _ } => Added::none(),
        }
    }
}

/// The size and the levels of an expression after declarations of which that is kept.
#[cycle(measure)]
#[tactic(auto, using(crate::specs::Laws::Measuring::measure_views))]
pub fn measure<M: Macros>(e: &Expr, macros: &M) -> Counts
    ensures size { result.size ≡ min
        (sizes.size (tree_of e.now) (M.extents macros.now)) (2 ^ 64 - 1) }
    ensures levels { result.levels ≡ min
        (sizes.levels (tree_of e.now) (M.extents macros.now)) (2 ^ 64 - 1) }
{
    match e {
        Expr::Nat(_) => leaf(),
        Expr::Bool(_) => leaf(),
        Expr::Text(_) => leaf(),
        Expr::Name(_) => leaf(),
        Expr::Row(es) => add_node(1, 1, measure_all(&es.items, macros)),
        Expr::Empty => leaf(),
        Expr::Members(es) => add_node(
            1,
            digits(es.items.len()).saturating_add(1),
            measure_all(&es.items, macros),
        ),
        Expr::Comp { head, quals } => {
            let parts = add_parts(measure_quals(&quals.items, macros), measure(head, macros));
            let patterns = quals_nodes(&quals.items);
            let count = quals.items.len() as u64;
            add_node(
                count.saturating_add(patterns).saturating_add(1),
                count
                    .saturating_mul(4)
                    .saturating_add(patterns)
                    .saturating_add(1),
                parts,
            )
        }
        Expr::Tab { body, binds } => {
            let parts = add_parts(measure_binds(&binds.items, macros), measure(body, macros));
            let count = binds.items.len() as u64;
            add_node(count.saturating_add(1), 1, parts)
        }
        Expr::Literal { dims, cells } => {
            add_node(
                1,
                1,
                add_parts(
                    measure_all(&dims.items, macros),
                    measure_all(&cells.items, macros),
                ),
            )
        }
        Expr::Let { binds, body } => {
            let parts = add_parts(measure_lets(&binds.items, macros), measure(body, macros));
            let patterns = lets_nodes(&binds.items);
            let count = binds.items.len() as u64;
            let own = count.saturating_add(patterns).saturating_add(1);
            add_node(own, own, parts)
        }
        Expr::Sub { array, at } => add_node(
            1,
            1,
            add_parts(measure(array, macros), measure_all(&at.items, macros)),
        ),
        Expr::If(c, a, b) => add_node(1, 1, add_parts(measure(c, macros), two(a, b, macros))),
        Expr::And(a, b) => add_node(1, 1, two(a, b, macros)),
        Expr::Or(a, b) => add_node(1, 1, two(a, b, macros)),
        Expr::Not(a) => add_node(1, 1, measure(a, macros)),
        Expr::Compare(_, a, b) => add_node(1, 1, two(a, b, macros)),
        Expr::Arith(_, a, b) => add_node(1, 1, two(a, b, macros)),
        Expr::Union(a, b) => add_node(1, 1, two(a, b, macros)),
        Expr::Gen(a) => add_node(1, 1, measure(a, macros)),
        Expr::Get(a) => add_node(1, 1, measure(a, macros)),
        Expr::Len(a) => add_node(1, 1, measure(a, macros)),
        Expr::Dim { rank: _, array } => add_node(1, 1, measure(array, macros)),
        Expr::Index { rank: _, pairs } => add_node(1, 1, measure(pairs, macros)),
        Expr::Apply { name, argument } => {
            let added = macros.addition(name);
            let own = added.pattern.saturating_add(1);
            let body = Counts {
                size: added.size,
                levels: added.levels,
            };
            add_node(own, own, add_parts(body, measure(argument, macros)))
        }
        Expr::Fun {
            pattern,
            body,
            argument,
        } => {
            let own = pattern.nodes().saturating_add(1);
            add_node(own, own, two(body, argument, macros))
        }
        Expr::SumMap {
            pattern,
            body,
            over,
        } => {
            let own = pattern.nodes().saturating_add(1);
            add_node(own, own, two(body, over, macros))
        }
        Expr::Default(a, b) => add_node(1, 1, two(a, b, macros)),
    }
}

#[cycle(measure)]
fn two<M: Macros>(a: &Expr, b: &Expr, macros: &M) -> Counts
    ensures size { result.size ≡ min (sizes.size (tree_of a.now) (M.extents macros.now)
        + sizes.size (tree_of b.now) (M.extents macros.now)) (2 ^ 64 - 1) }
    ensures levels { result.levels ≡ min (max (sizes.levels (tree_of a.now) (M.extents macros.now))
        (sizes.levels (tree_of b.now) (M.extents macros.now))) (2 ^ 64 - 1) }
{
    add_parts(measure(a, macros), measure(b, macros))
}

#[cycle(measure)]
#[tactic(auto, using(crate::specs::Laws::View::trees_steps))]
fn measure_all<M: Macros>(es: &[Expr], macros: &M) -> Counts
    ensures size { result.size ≡ min
        (sizes.sizes (trees_of es.now) (M.extents macros.now)) (2 ^ 64 - 1) }
    ensures levels { result.levels ≡ min
        (sizes.greatest (trees_of es.now) (M.extents macros.now)) (2 ^ 64 - 1) }
{
    let mut total = nothing();
    for e in es {
        total = add_parts(total, measure(e, macros));
    }
    total
}

#[cycle(measure)]
#[tactic(auto, using(crate::specs::Laws::Measuring::qual_sums))]
fn measure_quals<M: Macros>(quals: &[Qual], macros: &M) -> Counts
    ensures size { result.size ≡ min
        (sizes.quals_sizes (quals_of quals.now) (M.extents macros.now)) (2 ^ 64 - 1) }
    ensures levels { result.levels ≡ min
        (sizes.quals_greatest (quals_of quals.now) (M.extents macros.now)) (2 ^ 64 - 1) }
{
    let mut total = nothing();
    for q in quals {
        total = add_parts(total, measure_qual(q, macros));
    }
    total
}

// The parts of a qualifier, before others.
#[cycle(measure)]
fn measure_qual<M: Macros>(q: &Qual, macros: &M) -> Counts
    ensures size { result.size ≡ min
        (sizes.size (qual_part q.now) (M.extents macros.now)) (2 ^ 64 - 1) }
    ensures levels { result.levels ≡ min
        (sizes.levels (qual_part q.now) (M.extents macros.now)) (2 ^ 64 - 1) }
{
    match q {
        Qual::From { pattern: _, over } => measure(over, macros),
        Qual::Cells {
            index: _,
            cell: _,
            over,
        } => measure(over, macros),
        Qual::Match { pattern: _, of } => measure(of, macros),
        Qual::Test(e) => measure(e, macros),
    }
}

#[cycle(measure)]
#[tactic(auto, using(crate::specs::Laws::View::axes_steps))]
fn measure_binds<M: Macros>(binds: &[Bind], macros: &M) -> Counts
    ensures size { result.size ≡ min
        (sizes.axes_sizes (axes_in binds.now) (M.extents macros.now)) (2 ^ 64 - 1) }
    ensures levels { result.levels ≡ min
        (sizes.axes_greatest (axes_in binds.now) (M.extents macros.now)) (2 ^ 64 - 1) }
{
    let mut total = nothing();
    for b in binds {
        total = add_parts(total, measure(&b.bound, macros));
    }
    total
}

#[cycle(measure)]
#[tactic(auto, using(crate::specs::Laws::View::defs_steps))]
fn measure_lets<M: Macros>(binds: &[LetBind], macros: &M) -> Counts
    ensures size { result.size ≡ min
        (sizes.defs_sizes (defs_in binds.now) (M.extents macros.now)) (2 ^ 64 - 1) }
    ensures levels { result.levels ≡ min
        (sizes.defs_greatest (defs_in binds.now) (M.extents macros.now)) (2 ^ 64 - 1) }
{
    let mut total = nothing();
    for b in binds {
        total = add_parts(total, measure(&b.expr, macros));
    }
    total
}
