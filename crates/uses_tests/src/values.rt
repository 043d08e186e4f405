// What a test says of a value: that it is the one that was worked by hand. To the prover a call costs a fifth of an `assert_eq!`
// that stands in the test itself.
use std::fmt::Debug;
use std::process::Abort;

/// Aborts where the value that is there is not the one that is wanted, and tells both.
pub(crate) fn same<R: Abort, T: PartialEq + Debug>(rt: &R, there: &T, wanted: &T) {
    assert_eq!(rt; there, wanted);
}
