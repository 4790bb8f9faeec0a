// Reading a source to its end.
ghost use Rattle.std.specs.Prelude.{◌≡◌, ◌≤◌, vec_len, IfOk, IfErr, IsErrOf};
ghost use Rattle.aql_session.specs.Device.{BlamesSource};
ghost use Rattle.aql_run.specs.Reading.{most_bytes, TakesPiece, PieceFails, ReadFails, ReadsWhole};
ghost use Rattle.aql_run.specs.declared.reading.ReadFault.TheVariants.{Memory};

use aql_outside::Source;
use std::alloc::{AllocError, Global};

/// The most bytes of a script.
const MOST_BYTES: usize = 1_048_576;

/// The most bytes that one call takes.
const PIECE: usize = 4096;

/// Why a source was not read to its end.
#[derive(Clone, Copy, Debug, PartialEq, Eq)]
pub enum ReadFault {
    Memory,
    /// It gave more bytes than a script may have.
    Long,
    /// It failed.
    Failed,
}

impl From<AllocError> for ReadFault {
    ghost from_gives = { λ _ e. e ≡ Memory };

    fn from(_: AllocError) -> Self {
        ReadFault::Memory
    }
}

/// Reads the source to its end, which comes within the limit on a script.
pub(crate) fn read_script<S: Source>(alloc: Global, input: &mut S) -> Result<Vec<u8>, ReadFault>
    ensures whole { IfOk result (λ script.
        ReadsWhole (S.left input.old) (S.left input.new) script.items) }
    ensures fails { IfErr result (ReadFails (S.left input.old) (S.left input.new)) }
    ensures input { BlamesSource S.Source input.old input.new (IsErrOf result ReadFault.Failed) }
{
    let mut script = Vec::new(alloc);
    'pieces: while script.len() <= MOST_BYTES {
        if read_piece(input, &mut script)? == 0 {
            return Ok(script);
        }
    }
    Err(ReadFault::Long)
}

// Takes the next piece of the source, and says how many bytes came.
fn read_piece<S: Source>(input: &mut S, script: &mut Vec<u8>) -> Result<usize, ReadFault>
    requires { vec_len script.old ≤ most_bytes }
    ensures taken { IfOk result (TakesPiece (S.left input.old) (S.left input.new)
        script.old.items script.new.items) }
    ensures fails { IfErr result (PieceFails (S.left input.old) (S.left input.new)
        script.old.items) }
    ensures input { BlamesSource S.Source input.old input.new (IsErrOf result ReadFault.Failed) }
{
    let mut piece = [0u8; PIECE];
    let room = (MOST_BYTES + 1 - script.len()).min(PIECE);
    match input.read(&mut piece[..room]) {
        Ok(count) => {
            script.extend_from_slice(&piece[..count])?;
            Ok(count)
        }
        Err(_) => Err(ReadFault::Failed),
    }
}
