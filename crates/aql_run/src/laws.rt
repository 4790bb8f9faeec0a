//! What is known of the tokens of every script.
ghost use Rattle.aql_run.specs.Complete.{Tokenised};

use aql_lex::laws::one_answer;

/// Each script has one list of tokens, or a byte where none begins; and its depth is within the
/// limit or passes it.
pub(crate) fn tokens_exist()
    ensures { Tokenised }
{
    one_answer();
}
