//! One node read and written, and the parts of a tuple.

ghost use Rattle.std.specs.Prelude.{◌≡◌, ◌<◌, length, slice_set, slice_index_or};
ghost use Rattle.aql_types.specs.declared.node.Node.TheVariants as node;
ghost use Rattle.aql_types.specs.Forms.{parts_from};

use crate::node::Node;

/// The node of that number; past the end that of a variable.
pub(crate) fn node_at(ns: &[Node], i: usize) -> Node
    ensures { result ≡ slice_index_or ns.now i (node.Var 0) }
{
    if i < ns.len() { ns[i] } else { Node::Var(0) }
}

/// Writes a node.
pub(crate) fn put(ns: &mut [Node], i: usize, n: Node)
    requires { i < length ns.old }
    ensures { ns.new ≡ slice_set ns.old i n }
{
    ns[i] = n;
}

/// The parts of a tuple, as far as the list goes.
pub(crate) fn parts_of(ps: &[u32], first: u32, count: u32) -> &[u32]
    ensures { result.now ≡ parts_from ps.now first count }
{
    let from = ps.len().min(first as usize);
    let rest = &ps[from..];
    let n = rest.len().min(count as usize);
    &rest[..n]
}
