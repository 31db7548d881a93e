//! The reports on standard error: a function for each form of a line.
use std::fmt::Display;

/// Reports why something failed: writes `tora: CAUSE` to standard error.
pub fn report(rt: &impl Eprint, cause: &impl Display) {
    let _ = rt.eprintln(format_args!("tora: {cause}"));
}

/// Reports why something failed, and at which place: writes `tora: PLACE: CAUSE` to standard error. `word` goes before
/// PLACE: a word with a colon and a blank, or nothing.
pub fn report_at(rt: &impl Eprint, word: &str, place: &str, cause: &impl Display) {
    let _ = rt.eprintln(format_args!("tora: {word}{place}: {cause}"));
}
