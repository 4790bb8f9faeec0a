//! An assertion as a call: a test that makes several has no early end of its own for each of them.
use std::fmt::Debug;
use std::process::Abort;

/// What was found is what is wanted.
pub fn assert_same<T: PartialEq + Debug + Copy>(rt: &impl Abort, found: T, wanted: T) {
    assert_eq!(rt; found, wanted);
}
