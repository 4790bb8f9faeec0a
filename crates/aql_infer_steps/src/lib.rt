//! What a declaration asks of types, as equations.
//!
//! `specs/Constraints` walks over a tree and writes equations, and types that are to be within the limits; it solves nothing.
//! `Sound`, `Complete` and `Principal` of `specs/Laws` say what that is for: whatever solves the equations gives a typing,
//! each typing comes from such a solution, and a most general solution gives the principal type. The code makes the same
//! steps: `store`, `positions`, `names`, `operations`, `patterns`, `readers`, on the types of `sketch`, in which what an earlier
//! position has stands as a reference. `solving` solves it in a graph that `nodes` makes; `numbering` writes out what comes of it.
//!
//! Read `specs/Constraints`, `specs/Describes` and `specs/View`, then the laws.
#![tactic(auto)]

pub mod fault;
pub mod names;
pub mod nodes;
pub mod numbering;
pub mod operations;
pub mod patterns;
pub mod positions;
pub mod readers;
pub mod sketch;
pub mod solving;
pub mod store;
pub mod typed;
