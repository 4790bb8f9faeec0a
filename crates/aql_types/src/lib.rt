//! Types and most general unifiers.
//!
//! `unify` answers a substitution that makes two types one type within the limits, and after which each other such
//! substitution can be taken; it answers `Clash` exactly where there is none. `solve` is the same of many equations.
//! Both write types as nodes of a graph (`push`) and solve that: a node is a variable, a type whose parts are nodes by
//! their numbers, or a link to the node that stands in its place. So a part that many types have stands once, and
//! nothing is copied by solving. The solution stays a graph, of which `Subst::apply` writes out one instance. Types are those of aql_ty.
//! Read `specs/Unifiers` and `specs/Answers`, then `solve`; of the graph `node`, `specs/Shapes`, `Forms`, `Trees` and
//! `Solved`, then `solved_graph`, its steps in `root`, `join` and `take`, and the limits in `measure`.
#![tactic(auto)]

mod cells;
pub mod count;
pub mod equation;
mod extent;
pub mod fault;
pub mod graph;
pub mod grow;
pub mod inside;
mod join;
mod measure;
pub mod node;
pub mod push;
pub mod read;
mod root;
pub mod solve;
pub mod solved_graph;
pub mod subst;
mod take;

pub use aql_ty::{index, ty, variables};
