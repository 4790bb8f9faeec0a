//! How large the types are that the nodes of a solved graph stand for.

ghost use Rattle.std.specs.Prelude.{ℕ, List, ◌≡◌, ◌<◌, ◌≤◌, ◌+◌, ◌^◌, length, IfOk, IfSome, Some, replicate, slice_set};
ghost use Rattle.aql_types.specs.Forms.{forms, at, parts_from};
ghost use Rattle.aql_types.specs.Steps.{IsFlat};
ghost use Rattle.aql_types.specs.Extents as extents;
ghost use Rattle.aql_types.specs.Extents.{IsMemo, Measured, nothing, kept_extent, together, over, end};

use crate::cells::{node_at, parts_of};
use crate::extent::Extent;
use crate::node::Node;
use crate::root::link_of;
use std::alloc::{AllocError, Global};

const NOTHING: Extent = Extent {
    levels: 0,
    nodes: 0,
};

/// Whether each node stands for a type of the language with at most that many levels and nodes. Each
/// node is gone into once.
pub(crate) fn all_within(
    alloc: Global,
    ns: &[Node],
    ps: &[u32],
    limit: u16,
    most: u16,
) -> Result<bool, AllocError>
    requires flat { IsFlat (forms ps.now ns.now) }
    ensures { IfOk result (λ b. Measured b limit most (forms ps.now ns.now)) }
{
    let mut memo = empty_memo(alloc, ns.len())?;
    Ok(are_within(ns, ps, &mut memo, limit, most))
}

fn are_within(ns: &[Node], ps: &[u32], memo: &mut [Extent], limit: u16, most: u16) -> bool
    requires flat { IsFlat (forms ps.now ns.now) }
    requires memo { IsMemo most memo.old (forms ps.now ns.now) }
    ensures { Measured result limit most (forms ps.now ns.now) }
{
    for i in 0..ns.len() {
        if extent(ns, ps, memo, i, limit, most).is_none() {
            return false;
        }
    }
    true
}

fn empty_memo(alloc: Global, n: usize) -> Result<Vec<Extent>, AllocError>
    ensures { IfOk result (λ v. v.items ≡ replicate n nothing) }
{
    vec![in alloc; NOTHING; n]
}

// The extent of the type that a node stands for, if it has at most so many levels and nodes.
#[cycle(extent)]
fn extent(
    ns: &[Node],
    ps: &[u32],
    memo: &mut [Extent],
    i: usize,
    left: u16,
    most: u16,
) -> Option<Extent>
    requires flat { IsFlat (forms ps.now ns.now) }
    requires memo { IsMemo most memo.old (forms ps.now ns.now) }
    ensures found { result ≡ extents.extent most left (forms ps.now ns.now) i }
    ensures memo { IsMemo most memo.new (forms ps.now ns.now) }
{
    if left == 0 {
        return None;
    }
    let e = end_of(ns, i);
    let known = extent_at(memo, e);
    if known.levels > left {
        return None;
    }
    if known.levels > 0 {
        return Some(known);
    }
    let found = extent_here(ns, ps, memo, e, left - 1, most)?;
    put_extent(memo, e, found);
    Some(found)
}

// The extent of the type of a root, if each part has at most so many levels.
#[cycle(extent)]
fn extent_here(
    ns: &[Node],
    ps: &[u32],
    memo: &mut [Extent],
    e: usize,
    left: u16,
    most: u16,
) -> Option<Extent>
    requires left { left + 1 < 2 ^ 16 }
    requires flat { IsFlat (forms ps.now ns.now) }
    requires memo { IsMemo most memo.old (forms ps.now ns.now) }
    ensures found { result ≡ over most (extents.extent most left (forms ps.now ns.now))
        (at (forms ps.now ns.now) e) }
    ensures memo { IsMemo most memo.new (forms ps.now ns.now) }
{
    match node_at(ns, e) {
        Node::Var(_) => enclose_extent(NOTHING, most),
        Node::Nat => enclose_extent(NOTHING, most),
        Node::Bool => enclose_extent(NOTHING, most),
        Node::Text => enclose_extent(NOTHING, most),
        Node::Link(_) => enclose_extent(NOTHING, most),
        Node::Set(p) => enclose_extent(extent_together(ns, ps, memo, &[p], left, most)?, most),
        Node::Array { rank, cell } => {
            if rank < 1 || rank > 8 {
                return None;
            }
            enclose_extent(extent_together(ns, ps, memo, &[cell], left, most)?, most)
        }
        Node::Tuple { first, count } => {
            let row = parts_of(ps, first, count);
            if row.len() < 2 {
                return None;
            }
            enclose_extent(extent_together(ns, ps, memo, row, left, most)?, most)
        }
    }
}

// The extent of the parts of a type, the last measured first.
#[cycle(extent)]
fn extent_together(
    ns: &[Node],
    ps: &[u32],
    memo: &mut [Extent],
    row: &[u32],
    left: u16,
    most: u16,
) -> Option<Extent>
    requires flat { IsFlat (forms ps.now ns.now) }
    requires memo { IsMemo most memo.old (forms ps.now ns.now) }
    ensures found { result ≡ together most (extents.extent most left (forms ps.now ns.now))
        row.now }
    ensures memo { IsMemo most memo.new (forms ps.now ns.now) }
    ensures few { IfSome result (λ e. e.levels ≤ left) }
{
    let mut total = NOTHING;
    let mut i = row.len();
    while i > 0 {
        i -= 1;
        let here = extent(ns, ps, memo, row[i] as usize, left, most)?;
        total = add_extents(here, total, most)?;
    }
    Some(total)
}

fn add_extents(a: Extent, b: Extent, most: u16) -> Option<Extent>
    ensures { result ≡ extents.beside most (Some a) (Some b) }
{
    let nodes = a.nodes.checked_add(b.nodes)?;
    if nodes > most {
        return None;
    }
    Some(Extent {
        levels: a.levels.max(b.levels),
        nodes,
    })
}

fn enclose_extent(a: Extent, most: u16) -> Option<Extent>
    requires { a.levels + 1 < 2 ^ 16 }
    ensures { result ≡ extents.above most (Some a) }
{
    if a.nodes >= most {
        return None;
    }
    Some(Extent {
        levels: a.levels + 1,
        nodes: a.nodes + 1,
    })
}

fn extent_at(memo: &[Extent], k: usize) -> Extent
    ensures { result ≡ kept_extent memo.now k }
{
    if k < memo.len() { memo[k] } else { NOTHING }
}

fn put_extent(memo: &mut [Extent], k: usize, e: Extent)
    ensures { memo.new ≡ slice_set memo.old k e }
{
    if k < memo.len() {
        memo[k] = e;
    }
}

/// The node that stands for a node, where links lead to roots.
pub(crate) fn end_of(ns: &[Node], i: usize) -> usize
    ensures { (ps : List ℕ) → result ≡ end (forms ps ns.now) i }
{
    match link_of(ns, i) {
        Some(j) => j as usize,
        None => i,
    }
}
