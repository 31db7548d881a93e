//! The checks of the tests. Each check is a call of a function here, which is proved once. An assertion inside a test
//! would be proved there, with the text that it prints. A failure names a line of this module, so most calls pass a
//! text that says what they check.
ghost use Rattle.std.specs.Prelude.{◌≡◌, Some};

use std::fmt::Debug;
use std::process::Abort;

/// Checks that `is_so` is true; `what` says what is checked, and is printed if it is false.
pub fn sees(rt: &impl Abort, is_so: bool, what: &str) {
    assert!(rt; is_so, "{what}");
}

/// Checks that `is_so` is true. `what` says what is checked, and `place` names the row of a table or the turn of a
/// loop; both are printed if it is false.
pub fn sees_at<P: Debug>(rt: &impl Abort, is_so: bool, what: &str, place: &P) {
    assert!(rt; is_so, "{what} at {place:?}");
}

/// Checks that `got` equals `wanted`; `what` says what is checked.
pub fn same<T: PartialEq + Debug>(rt: &impl Abort, got: &T, wanted: &T, what: &str) {
    assert_eq!(rt; *got, *wanted, "{what}");
}

/// Checks that `got` equals `wanted`. `what` says what is checked, and `place` names the row of a table or the turn of
/// a loop.
pub fn same_at<T: PartialEq + Debug, P: Debug>(
    rt: &impl Abort,
    got: &T,
    wanted: &T,
    what: &str,
    place: &P,
) {
    assert_eq!(rt; *got, *wanted, "{what} at {place:?}");
}

/// Checks that the text `got` equals `wanted`; `what` says what is checked.
pub fn same_text(rt: &impl Abort, got: &str, wanted: &str, what: &str) {
    assert_eq!(rt; got, wanted, "{what}");
}

/// Checks that `count` equals `links`, the number of links, as the calls after it require.
pub fn as_many(rt: &impl Abort, count: usize, links: usize)
    ensures { count ≡ links }
{
    assert!(rt; count == links, "as many as there are links");
}

/// The value, if there is one; otherwise the test fails.
pub fn there<T: Drop>(rt: &impl Abort, value: Option<T>, what: &str) -> T
    ensures { value ≡ Some result }
{
    match value {
        Some(value) => value,
        None => panic!(rt; "{what} is not there"),
    }
}

/// Fails the test, and prints `what`: for a case that must not come.
pub fn ends(rt: &impl Abort, what: &str) -> ! {
    panic!(rt; "{what}")
}
