//! Laws of the grammar, each the contract of a function that does nothing.

ghost use Rattle.aql_parse_spec.specs.Readings.{PatternsSound, PatternsComplete, ExpressionsSound, ExpressionsComplete, DeclarationsSound, DeclarationsComplete};
ghost use Rattle.aql_parse_spec.specs.Scripts.{OneReading, OneFault, ReadsOrFaults};

/// A script has one reading at most, one first fault at most, and not both.
pub fn one_reading()
    ensures reading { OneReading }
    ensures fault { OneFault }
    ensures either { ReadsOrFaults }
{}

/// What the functions on lists read, the grammar reads.
pub fn sound()
    ensures patterns { PatternsSound }
    ensures expressions { ExpressionsSound }
    ensures declarations { DeclarationsSound }
{}

/// What the grammar reads, the functions on lists read, where the depth passes the number of lexemes; an expression where
/// the next lexeme goes on in no expression.
pub fn complete()
    ensures patterns { PatternsComplete }
    ensures expressions { ExpressionsComplete }
    ensures declarations { DeclarationsComplete }
{}
