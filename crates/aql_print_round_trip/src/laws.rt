//! The law, as the contract of a function that does nothing.

ghost use Rattle.aql_print_round_trip.specs.RoundTrip.{TextsReadBack};

use aql_lex::laws::one_answer;
use aql_parse_spec::laws::one_reading;

/// The text of each value, with a semicolon behind it, is a script of one declaration and of no other: a bare expression
/// that denotes the value.
pub fn texts_read_back()
    ensures { TextsReadBack }
{
    one_answer();
    one_reading();
}
