// What tests expect of what they find. A test's run compares and its proof doesn't, so that each comparison stands
// here once.
use std::fmt::Debug;
use std::process::Abort;

/// Ends the test where the two differ, and shows both.
pub fn expect_same<T: PartialEq + Debug>(rt: &impl Abort, found: &T, wanted: &T) {
    assert_eq!(rt; found, wanted);
}

/// The same, with the name of the case.
pub fn expect_named<T: PartialEq + Debug>(rt: &impl Abort, found: &T, wanted: &T, name: &str) {
    assert_eq!(rt; found, wanted, "{name}");
}
