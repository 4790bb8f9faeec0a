//! The node that stands for another.

ghost use Rattle.std.specs.Prelude.{ℕ, List, ◌≡◌, ◌<◌, ◌≤◌, length, Some};
ghost use Rattle.aql_types.specs.Shapes.{Valuation};
ghost use Rattle.aql_types.specs.Forms.{forms, at};
ghost use Rattle.aql_types.specs.Valuations.{Holds, IsRoot};
ghost use Rattle.aql_types.specs.Steps.{KeepsNodes, LinksDown, bare, link_in, shorter};

use crate::cells::{node_at, put};
use crate::node::Node;

/// The root of a node. Each link on the way is made to lead to the next but one.
pub(crate) fn root(ns: &mut [Node], start: u32) -> u32
    requires start { start < length ns.old }
    requires down { LinksDown (bare ns.old) }
    ensures keeps { KeepsNodes ns.old ns.new }
    ensures down { LinksDown (bare ns.new) }
    ensures below { result ≤ start }
    ensures root { IsRoot (at (bare ns.new) result) }
    ensures same { (ps : List ℕ) (v : Valuation) → Holds v (forms ps ns.new) → v start ≡ v result }
{
    let mut here = start;
    while let Some(up) = link_of(ns, here as usize) {
        shorten(ns, here as usize, up);
        here = up;
    }
    here
}

/// A link is made to lead to the next but one, where there is one.
pub(crate) fn shorten(ns: &mut [Node], here: usize, up: u32)
    requires here { here < length ns.old }
    requires down { LinksDown (bare ns.old) }
    requires up { link_in (at (bare ns.old) here) ≡ Some up }
    ensures keeps { KeepsNodes ns.old ns.new }
    ensures down { LinksDown (bare ns.new) }
    ensures exact { ns.new ≡ shorter ns.old here (link_in (at (bare ns.old) up)) }
{
    match link_of(ns, up as usize) {
        Some(next) => put(ns, here, Node::Link(next)),
        None => {}
    }
}

/// Where a link leads; none where the node stands for itself.
pub(crate) fn link_of(ns: &[Node], i: usize) -> Option<u32>
    ensures { result ≡ link_in (at (bare ns.now) i) }
{
    match node_at(ns, i) {
        Node::Link(j) => Some(j),
        Node::Var(_) => None,
        Node::Nat => None,
        Node::Bool => None,
        Node::Text => None,
        Node::Tuple { first: _, count: _ } => None,
        Node::Set(_) => None,
        Node::Array { rank: _, cell: _ } => None,
    }
}
