//! What is proved of the moves, each law the contract of a function that does nothing.

ghost use Rattle.nrca_motion.specs.Laws.{RedexesKeepMeaning, RedexesKeepTypes, RedexesKeepWeight};
ghost use Rattle.nrca_motion.specs.Laws.{MovesKeepMeaning, MovesKeepTypes, MovesKeepWeight, MovesLower};
ghost use Rattle.nrca_motion.specs.Laws.{ChainsKeepMeaning, ChainsKeepTypes, ChainsKeepWeight, ChainsAreShort};
ghost use Rattle.nrca_motion.specs.Laws.{TestsTurn, LetsTurn, StrictLetsTurn};

/// The right side of each kind of move keeps meaning, types and weight.
pub fn redexes()
    ensures meaning { RedexesKeepMeaning }
    ensures types { RedexesKeepTypes }
    ensures weight { RedexesKeepWeight }
{}

/// A move of a closed typed term keeps its meaning, its types and its weight, and lowers its measure.
pub fn moves()
    ensures meaning { MovesKeepMeaning }
    ensures types { MovesKeepTypes }
    ensures weight { MovesKeepWeight }
    ensures measure { MovesLower }
{}

/// A chain of moves keeps meaning, types and weight, and is short.
pub fn chains()
    ensures meaning { ChainsKeepMeaning }
    ensures types { ChainsKeepTypes }
    ensures weight { ChainsKeepWeight }
    ensures short { ChainsAreShort }
{}

/// What moves do to the turns: what goes out of a loop or tabulation takes its turns once, and no more at each entry of the body.
/// So turns may rise, where the body is not entered.
pub fn turns()
    ensures tests { TestsTurn }
    ensures lets { LetsTurn }
    ensures strict { StrictLetsTurn }
{}
