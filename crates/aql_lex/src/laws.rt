//! Laws of the lexis, each the contract of a function that does nothing.

ghost use Rattle.aql_lex.specs.Lexed.{OneList, OneTextFault, TokensOrTextFault, OneDeepFault, ShallowOrDeep, SpansAndTexts};

/// A script has one list of tokens at most, one text fault at most, one deep token at most, and no two of the three.
pub fn one_answer()
    ensures list { OneList }
    ensures text { OneTextFault }
    ensures either { TokensOrTextFault }
    ensures deep { OneDeepFault }
    ensures shallow { ShallowOrDeep }
{}

/// The spans of tokens ascend within the script, and the bytes of each say its lexeme.
pub fn spans_and_texts()
    ensures { SpansAndTexts }
{}
