//! The moves, and lists of them.

use nrca_term::Path;
use std::marker::Model;

/// How a part goes out of a node: the test of an `If` (M1) or a `Let` (M2) out of a loop, a `Let` out of a tabulation (M3), a `Let` out
/// of a part without whose value the node has none (M4).
#[derive(Clone, Copy, Debug, PartialEq, Eq)]
pub enum MoveRule {
    M1,
    M2,
    M3,
    M4,
}

/// One move: its rule and the place where it was made.
#[derive(Drop)]
pub struct Move {
    pub rule: MoveRule,
    pub path: Path,
}

/// The moves that led to a term, the first one first.
#[derive(Drop)]
pub struct Moves(pub Vec<Move>);

impl Model for Moves {
    ghost use Rattle.std.specs.Prelude.{List};
    ghost use Rattle.nrca_motion.specs.declared.moves.Move.{Move};

    ghost Value = { List Move };

    ghost view = { λ m. m.0.items };
}
