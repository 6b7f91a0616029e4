// A comparison that shows both values.
use std::fmt::Debug;
use std::process::Abort;

// Ends the test where the two differ, and shows both. Each `assert_eq!` costs its function some seconds of proof, a call of this less than one.
pub fn expect_same<T: PartialEq + Debug>(rt: &impl Abort, found: &T, wanted: &T) {
    assert_eq!(rt; found, wanted);
}
