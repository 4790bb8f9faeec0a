//! Laws of the language, each the contract of a function that does nothing.

ghost use Rattle.aql_syntax.specs.Rows.{OthersAtEachRow, LoopsAreRowMajor, LoopsTakeTurns};
ghost use Rattle.aql_syntax.specs.Scopes.{InnermostIsMeant, LatestIsMeant, MacroIsItsBody, UnusedKeepsValue, UnusedKeepsTurns};
ghost use Rattle.aql_syntax.specs.Uses.{ExpressionUses, DeclarationUses};

/// A name is the innermost local name, and else the latest position that declares it; the application of the latest macro
/// is its body under the match of its pattern alone, over the positions before it.
pub fn names()
    ensures locals { InnermostIsMeant }
    ensures positions { LatestIsMeant }
    ensures macros { MacroIsItsBody }
{}

/// A position that an expression does not use changes neither its value nor its turns.
pub fn unused_positions()
    ensures value { UnusedKeepsValue }
    ensures turns { UnusedKeepsTurns }
{}

/// Qualifiers followed by others go over those others at each row; an array generator goes over the indices in row-major
/// order, and takes twice the sum of the prefix products of the dimensions in turns.
pub fn rows()
    ensures others { OthersAtEachRow }
    ensures order { LoopsAreRowMajor }
    ensures turns { LoopsTakeTurns }
{}

/// Each type that a typing uses is within the limits.
pub fn typings()
    ensures expressions { ExpressionUses }
    ensures declarations { DeclarationUses }
{}
