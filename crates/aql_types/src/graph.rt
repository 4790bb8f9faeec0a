//! Graphs that types are made in.

ghost use Rattle.std.specs.Prelude.{◌≡◌};
ghost use Rattle.std.specs.Coded.{Coded-set, coded_list, coded_ℕ};
ghost use Rattle.aql_value.specs.Lists.{below};
ghost use Rattle.aql_types.specs.Forms.{forms};
ghost use Rattle.aql_types.specs.Trees.{IsBuilt};
ghost use Rattle.aql_types.specs.Ranges.{AreInside, variables_in};
ghost use Rattle.aql_types.specs.Laws.Kept.{IsBuilt-prop, AreInside-prop};

use crate::node::Node;

/// Nodes, of which each was made after its parts, the parts of their tuples, and how many of the nodes
/// are variables. Variables are numbered in the order of their nodes.
#[derive(Drop)]
pub struct Graph {
    pub nodes: Vec<Node>,
    pub parts: Vec<u32>,
    pub variables: u32,
    ghost built: { IsBuilt (forms parts.items nodes.items) } by { IsBuilt-prop
        (forms parts.items nodes.items) },
    ghost inside: { AreInside parts.items nodes.items } by { AreInside-prop
        parts.items nodes.items },
    ghost numbered: { variables_in (forms parts.items nodes.items)
        ≡ below variables } by { Coded-set (coded_list coded_ℕ)
            (variables_in (forms parts.items nodes.items)) (below variables) },
}
