//! The law of a script's causes, the contract of a function that does nothing.

ghost use Rattle.aql_script.specs.Causes.{OneCause};

use aql_lex::laws::one_answer;
use aql_parse_spec::laws::one_reading;

/// The bytes of a script have one first fault at most, at one place, and none where they can be prepared.
pub fn one_cause()
    ensures { OneCause }
{
    one_answer();
    one_reading();
}
