//! The nodes of a graph of types, and equations between them.

/// A node of a graph: a variable, a type whose parts are nodes by their numbers, or a link to the node
/// that stands in its place. The parts of a tuple stand in a list beside the nodes, `count` of them
/// from place `first` on.
#[derive(Clone, Copy, Drop)]
pub enum Node {
    Var(u32),
    Nat,
    Bool,
    Text,
    Tuple { first: u32, count: u32 },
    Set(u32),
    Array { rank: u32, cell: u32 },
    Link(u32),
}

/// Two nodes that are to be one type.
#[derive(Clone, Copy, Drop)]
pub struct Equation {
    pub left: u32,
    pub right: u32,
}
