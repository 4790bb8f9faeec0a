//! The text of a value, with what is read of it.

ghost use Rattle.std.specs.Prelude.{◌≡◌, ◌++◌, OnOk};
ghost use Rattle.aql_value.specs.Meaning.{datum};
ghost use Rattle.aql_print.specs.Appends.{AppendsPrefix};
ghost use Rattle.aql_print.specs.ValueText.{text};
ghost use Rattle.aql_print_round_trip.specs.RoundTrip.{ReadsBack};

use crate::laws::texts_read_back;
use aql_value::{Memory, Value, valid};
use std::alloc::Global;

/// Appends the text of a value, which with a semicolon behind it reads back to the value. Where
/// memory runs out, the old bytes and then a prefix of the text are left.
pub fn print_value(alloc: Global, v: &Value, out: &mut Vec<u8>) -> Result<(), Memory>
    ensures ok { OnOk result (out.new.items ≡ out.old.items ++ text (datum v.now)) }
    ensures prefix { AppendsPrefix out.old.items out.new.items (text (datum v.now)) }
    ensures reads_back { OnOk result (ReadsBack (datum v.now)) }
{
    valid(v);
    texts_read_back();
    aql_print::print_value(alloc, v, out)
}
