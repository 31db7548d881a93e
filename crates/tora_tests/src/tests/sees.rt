//! The checks that the tests call. A function here is proved once; an assertion inside a test would be proved there,
//! with the text that it prints. The message of a failed check names a line of this module, so most calls pass a text
//! that says what they check.
use std::alloc::Global;
use std::fmt::{Debug, Display};
use std::process::Abort;

/// Checks that `is_so` is true; `what` is the message if it is not.
pub fn sees(rt: &impl Abort, is_so: bool, what: &str) {
    assert!(rt; is_so, "{what}");
}

/// Checks that `is_so` is true; `what` is the message if it is not, and `place` names the row of a table or the turn of
/// a loop.
pub fn sees_at<P: Debug>(rt: &impl Abort, is_so: bool, what: &str, place: &P) {
    assert!(rt; is_so, "{what} at {place:?}");
}

/// Checks that `got` equals `wanted`; `what` is the message if not.
pub fn same<T: PartialEq + Debug>(rt: &impl Abort, got: &T, wanted: &T, what: &str) {
    assert_eq!(rt; *got, *wanted, "{what}");
}

/// Checks that `got` equals `wanted`; `what` is the message if not, and `place` names the row of a table or the turn of
/// a loop.
pub fn same_at<T: PartialEq + Debug, P: Debug>(
    rt: &impl Abort,
    got: &T,
    wanted: &T,
    what: &str,
    place: &P,
) {
    assert_eq!(rt; *got, *wanted, "{what} at {place:?}");
}

/// Checks that the text `got` equals `wanted`; `what` is the message if not.
pub fn same_text(rt: &impl Abort, got: &str, wanted: &str, what: &str) {
    assert_eq!(rt; got, wanted, "{what}");
}

/// Checks that the bytes `got` equal `wanted`; `what` is the message if not.
pub fn same_bytes(rt: &impl Abort, got: &[u8], wanted: &[u8], what: &str) {
    assert_eq!(rt; got, wanted, "{what}");
}

/// Checks that the bytes `got` equal `wanted`; the message names the row of a table, counted from 0.
pub fn same_bytes_at(rt: &impl Abort, got: &[u8], wanted: &[u8], row: usize) {
    assert_eq!(rt; got, wanted, "row {row}");
}

/// Checks that `value`, written with `Display`, gives the text `wanted`.
pub fn prints<T: Display>(rt: &impl Abort, alloc: Global, value: &T, wanted: &str) {
    let printed = format!(in alloc; "{value}").expect(rt, "memory");
    same_text(rt, printed.as_str(), wanted, "printed");
}

/// Checks for each row that its value, written with `Display`, gives its text.
pub fn prints_each<T: Display>(rt: &impl Abort, alloc: Global, rows: &[(T, &str)]) {
    for (value, wanted) in rows {
        prints(rt, alloc, value, wanted);
    }
}

/// The bytes that these hexadecimal digits spell, two digits a byte; the test fails if they are not pairs of such
/// digits.
pub fn bytes_of(rt: &impl Abort, alloc: Global, digits: &str) -> Vec<u8> {
    hex::decode(alloc, digits).expect(rt, "hexadecimal digits")
}

/// Fails the test with the message `what`, and never returns.
pub fn ends(rt: &impl Abort, what: &str) -> ! {
    panic!(rt; "{what}")
}
