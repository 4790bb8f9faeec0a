//! Counts put together, each the greatest number of 64 bits where it passes it.

ghost use Rattle.std.specs.Prelude.{◌≡◌, ◌-◌, ◌+◌, ◌^◌, min, max};
ghost use Rattle.aql_syntax.specs.View.{quals_of, defs_in};
ghost use Rattle.aql_syntax.specs.Size.{quals_patterns, defs_patterns, binary_digits};
ghost use Rattle.aql_syntax.specs.Measured.{qual_pattern};

use crate::ast::{LetBind, Qual};

/// A size and levels, each the greatest number of 64 bits where it passes it.
#[derive(Clone, Copy, Debug)]
pub struct Counts {
    pub size: u64,
    pub levels: u64,
}

/// No nodes.
pub fn nothing() -> Counts
    ensures size { result.size ≡ 0 }
    ensures levels { result.levels ≡ 0 }
{
    Counts { size: 0, levels: 0 }
}

/// A node without parts.
pub fn leaf() -> Counts
    ensures size { result.size ≡ 1 }
    ensures levels { result.levels ≡ 1 }
{
    Counts { size: 1, levels: 1 }
}

/// Parts side by side.
pub fn add_parts(a: Counts, b: Counts) -> Counts
    ensures size { result.size ≡ min (a.size + b.size) (2 ^ 64 - 1) }
    ensures levels { result.levels ≡ max a.levels b.levels }
{
    Counts {
        size: a.size.saturating_add(b.size),
        levels: a.levels.max(b.levels),
    }
}

/// A node above its parts.
pub fn add_node(size: u64, levels: u64, parts: Counts) -> Counts
    ensures size { result.size ≡ min (size + parts.size) (2 ^ 64 - 1) }
    ensures levels { result.levels ≡ min (levels + parts.levels) (2 ^ 64 - 1) }
{
    Counts {
        size: size.saturating_add(parts.size),
        levels: levels.saturating_add(parts.levels),
    }
}

/// How many binary digits a number has.
#[tactic(auto, using(crate::specs::Laws::Measuring::digit_steps))]
pub fn digits(n: usize) -> u64
    ensures { result ≡ binary_digits n }
{
    let mut rest = n;
    let mut found: u64 = 0;
    while rest != 0 {
        rest /= 2;
        found = found.saturating_add(1);
    }
    found
}

/// The nodes of the patterns of qualifiers.
#[tactic(auto, using(crate::specs::Laws::Measuring::qual_sums))]
pub(crate) fn quals_nodes(quals: &[Qual]) -> u64
    ensures { result ≡ min (quals_patterns (quals_of quals.now)) (2 ^ 64 - 1) }
{
    let mut total: u64 = 0;
    for q in quals {
        total = total.saturating_add(qual_nodes(q));
    }
    total
}

fn qual_nodes(q: &Qual) -> u64
    ensures { result ≡ min (qual_pattern q.now) (2 ^ 64 - 1) }
{
    match q {
        Qual::From { pattern, over: _ } => pattern.nodes(),
        Qual::Cells {
            index,
            cell,
            over: _,
        } => index.nodes().saturating_add(cell.nodes()),
        Qual::Match { pattern, of: _ } => pattern.nodes(),
        Qual::Test(_) => 0,
    }
}

/// The nodes of the patterns of bindings.
#[tactic(auto, using(crate::specs::Laws::View::defs_steps))]
pub(crate) fn lets_nodes(binds: &[LetBind]) -> u64
    ensures { result ≡ min (defs_patterns (defs_in binds.now)) (2 ^ 64 - 1) }
{
    let mut total: u64 = 0;
    for b in binds {
        total = total.saturating_add(b.pattern.nodes());
    }
    total
}
