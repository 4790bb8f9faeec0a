//! What is proved of encoding and of the array-free form, each law the contract of a function that does nothing.

ghost use Rattle.nrca_graph.specs.Laws.{EncodingKeepsOrder, EncodingKeepsTypes, EncodedTypesAreTypes, EncodingKeepsInstances, ArrayFreeMeans, ArrayFreeHasNone, ArrayFreeTyped};
ghost use Rattle.nrca_graph.specs.Laws.{ArrayFreeKeepsSums, ArrayFreeHasLoops, ArrayFreeTurns};

/// Encoding keeps the order of two values of one type.
pub fn order()
    ensures { EncodingKeepsOrder }
{}

/// An encoded value has the encoded types of the value; an encoded type is a type; and encoding commutes with instances.
pub fn types()
    ensures values { EncodingKeepsTypes }
    ensures types { EncodedTypesAreTypes }
    ensures instances { EncodingKeepsInstances }
{}

/// The array-free form of a typed term that weighs less than 2^128 means the encoded value of the term, and is undefined
/// exactly where the term is.
pub fn meaning()
    ensures { ArrayFreeMeans }
{}

/// An array-free form has none of the five forms of arrays: no tabulation, subscript, dimensions, index or literal.
pub fn forms()
    ensures { ArrayFreeHasNone }
{}

/// Each type of a term, encoded, is a type of its array-free form.
pub fn typing()
    ensures { ArrayFreeTyped }
{}

/// The array-free form of a typed term has as many sums as the term, and at least its big unions and one more for each
/// rank of its tabulations.
pub fn counts()
    ensures sums { ArrayFreeKeepsSums }
    ensures loops { ArrayFreeHasLoops }
{}

/// The array-free form of a typed term that weighs less than 2^128 takes at most the turns of the bound.
pub fn turns()
    ensures { ArrayFreeTurns }
{}
