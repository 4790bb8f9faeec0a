//! The translation of declarations to core terms.
//!
//! `translate` answers the start term of a declaration's expression, or that the declaration is large; `translate_within` the
//! same of one that is known to be within the limits, by an index of the names before it. The start term is a definition of
//! aql_desugar_spec (`specs/Start`), and what it means, weighs and is typed is proved there.
//!
//! Read `specs/Translation`, then `translate` and `fault`. Beneath them `queries` is the recursion on expressions; `names` the
//! scope that the code's names make, `positions` the declaration that a name stands for, `nodes` a node over its parts,
//! `matches` the match of a pattern around a term, `arrays` the loops over an array's indices, and `unions` the set of members.
#![tactic(auto)]

mod arrays;
pub mod fault;
mod matches;
mod names;
mod nodes;
mod positions;
mod queries;
pub mod translate;
mod unions;
