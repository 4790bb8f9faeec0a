//! What follows from the definitions of nrca_term for the analysis and the rewriting of core terms: no code of its own.
//!
//! `laws` has the main laws, each the contract of a function that does nothing; `specs/Laws.antt` says what they claim.
//! Crates above cite the laws in `specs/` directly: a function of a rule promises `IsRight` of `Fitting` for its right side.
//! Read `Laws`, `Fitting`, `Steps`; of the conditions `Ways`, `Firms`, `Spans`; of the search `Search`, `Lefts`, `Unique`,
//! `Uses`; then the proofs rule by rule: of the meaning `Keeping` (over `Meanings`, `Sets`, `Beta`, `Arrays`, `Dims`), of
//! the types `Types` (over `Typed`), of constants `Constants`, of the measure `Lowering` (over `Weights`).
#![tactic(auto)]

pub mod laws;
