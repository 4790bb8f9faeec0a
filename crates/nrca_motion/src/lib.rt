//! Code motion: tests and lets out of loops and tabulations, and lets out of the parts without whose value a node has none.
//!
//! `motion` answers, for a closed typed term and the shapes of its positions, a term in which no move is left (`IsStill`),
//! and the moves that lead to it (`MoveChain`). It has the meaning, the types and the weight of the plan, and the moves are
//! at most (W + 1)^3. `laws` has the main laws of moves and chains, each the contract of a function that does nothing.
//! Read `moves`; `still` (one move after another), `search` (the first place of a move), `fitting` (which move may be made at
//! a node), `making` (its right side), `outside`, `moving`; of `specs/` `Moves`, `Moved`, `Laws`, `Fitting`, then of the laws
//! `Rotating`, `LetMoves`, `TestMoves` on meaning, `LetTypes`, `TestTypes`, `LetTurns` on turns, `Lowering`, `Bounds`, `Weights`.
#![tactic(auto)]

mod fitting;
pub mod laws;
mod making;
mod moves;
mod moving;
mod outside;
mod search;
mod still;

pub use moves::{Move, MoveRule, Moves};
pub use still::{Moved, motion, motion_over};
