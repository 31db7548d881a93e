//! The checks of the tests. Each check is a call of a function here, which is proved once. An assertion inside a test
//! would be proved there, with the text that it prints. A failure names a line of this module, so each call passes a
//! text that says what it checks, or a place: the row or turn that it checks.
use std::fmt::Debug;
use std::process::Abort;
use std::test::*;

/// Checks that `is_so` is true; `what` says what is checked, and is printed if it is false.
pub fn sees(rt: &impl Abort, is_so: bool, what: &str) {
    assert!(rt; is_so, "{what}");
}

/// Checks that `is_so` is true; `place` names the row of a table or the turn of a loop, and is printed if it is false.
pub fn sees_at<P: Debug>(rt: &impl Abort, is_so: bool, place: &P) {
    assert!(rt; is_so, "at {place:?}");
}

/// Checks that `found` equals `wanted`; `place` names the row of a table or the turn of a loop.
pub fn same_at<T: PartialEq + Debug, P: Debug>(rt: &impl Abort, found: &T, wanted: &T, place: &P) {
    assert_eq!(rt; found, wanted, "at {place:?}");
}
