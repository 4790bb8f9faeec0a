// Writing a text to a sink.
ghost use Rattle.aql_outside.specs.Causes.{HasCause};
ghost use Rattle.aql_run.specs.Writing.{WritesFront};

use aql_outside::{Failed, Sink};

/// Writes a text, in as many pieces as the sink takes it.
pub fn write_all<O: Sink>(output: &mut O, text: &[u8]) -> Result<(), Failed>
    ensures written { WritesFront (O.holds output.old) (O.holds output.new) text.now result }
    ensures cause { HasCause O.quiet (O.faults output.old) (O.faults output.new) result }
{
    let mut done = 0;
    'pieces: while done < text.len() {
        done += output.write(&text[done..])?;
    }
    Ok(())
}
