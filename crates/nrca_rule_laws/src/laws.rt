//! What is proved of the rewriting, each law the contract of a function that does nothing.

ghost use Rattle.nrca_rule_laws.specs.Laws.{RulesKeepMeaning, RulesKeepTypes, RulesKeepConstants, RulesLower, RulesFixWays};
ghost use Rattle.nrca_rule_laws.specs.Laws.{SpansHold, FirmTermsAreDefined, FirmWaysAreDefined};
ghost use Rattle.nrca_rule_laws.specs.Laws.{StepsKeepMeaning, StepsKeepTypes, StepsKeepConstants, StepsLower};
ghost use Rattle.nrca_rule_laws.specs.Laws.{ChainsKeepMeaning, ChainsKeepTypes, ChainsAreShort, SearchKeeps};

/// The right side of each rule keeps meaning, types and valid constants and is lower in the measure; its left side alone
/// says what must be defined.
pub fn rules()
    ensures meaning { RulesKeepMeaning }
    ensures types { RulesKeepTypes }
    ensures constants { RulesKeepConstants }
    ensures measure { RulesLower }
    ensures ways { RulesFixWays }
{}

/// What the analysis of a term sees: values are within spans, and firm terms are defined.
pub fn analysis()
    ensures spans { SpansHold }
    ensures firm { FirmTermsAreDefined }
    ensures ways { FirmWaysAreDefined }
{}

/// A step keeps meaning, types and valid constants of a closed term, and lowers its measure.
pub fn steps()
    ensures meaning { StepsKeepMeaning }
    ensures types { StepsKeepTypes }
    ensures constants { StepsKeepConstants }
    ensures measure { StepsLower }
{}

/// A chain of steps keeps meaning and type, and is short.
pub fn chains()
    ensures meaning { ChainsKeepMeaning }
    ensures types { ChainsKeepTypes }
    ensures short { ChainsAreShort }
{}

/// After a step the search goes on at its place: what it has passed stays normal.
pub fn search()
    ensures { SearchKeeps }
{}
