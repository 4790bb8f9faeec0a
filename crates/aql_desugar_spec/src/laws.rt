//! What is proved of the start term, each law the contract of a function that does nothing.

ghost use Rattle.aql_desugar_spec.specs.Laws.{StartMeans, StartTurns, StartCloses, StartIsWellFormed, StartWeighs, StartTyped};

/// A query's start term is worth what the query denotes, undefined at the same places, and takes its turns as written.
pub fn meaning_and_turns()
    ensures meaning { StartMeans }
    ensures turns { StartTurns }
{}

/// A query's start term is closed.
pub fn closedness()
    ensures { StartCloses }
{}

/// A query's start term is well formed.
pub fn well_formedness()
    ensures { StartIsWellFormed }
{}

/// The start term of a query that has a type weighs at most 64 times the query's expanded size.
pub fn weight()
    ensures { StartWeighs }
{}

/// Each type of a query, over the principal types of the positions before it, is a type of its start term.
pub fn types()
    ensures { StartTyped }
{}
