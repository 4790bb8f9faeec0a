use aql_value::Memory;
use std::process::Abort;

fn text_of(printed: &Result<Vec<u8>, Memory>) -> Result<&[u8], Memory> {
    match printed {
        Ok(text) => Ok(text.as_slice()),
        Err(want) => Err(*want),
    }
}

/// What was printed is this text.
pub fn assert_text(rt: &impl Abort, printed: Result<Vec<u8>, Memory>, want: &[u8]) {
    assert_eq!(rt; text_of(&printed), Ok(want));
}
