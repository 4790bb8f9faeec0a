//! The grammar of scripts as functions on lists of lexemes, and the laws that tie them to the grammar's relations.
//!
//! `specs/Parsing` has the functions, one for each function of the parser above; `laws` says that they read exactly what
//! the grammar reads, and that a script has one reading or one first fault. The laws stand in `specs/`, where a crate
//! above can cite them: `Scripts` for declarations, `Sound` and `Complete` for expressions.
#![tactic(auto)]

pub mod laws;
