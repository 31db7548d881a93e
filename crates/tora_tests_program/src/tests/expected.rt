//! The checks of a run: how it ends, and what it writes.
use super::failing_streams::Lines;
use super::sees::{same_at, sees_at};
use std::process::Abort;
use tora_lines::{Ended, ReplayError};

/// Checks that `found`, the end or the error of a run, equals `wanted`; `lines` names the run.
pub fn expect_ended(
    rt: &impl Abort,
    lines: Lines<'_>,
    found: Result<Ended, ReplayError>,
    wanted: Result<Ended, ReplayError>,
) {
    same_at(rt, &found, &wanted, &lines);
}

/// Checks that `written`, the output of a run, equals `text`; `lines` names the run.
pub fn expect_written(rt: &impl Abort, lines: Lines<'_>, written: &[u8], text: &str) {
    same_at(rt, &written, &text.as_bytes(), &lines);
}

/// Checks that at most one case failed: a run of the tests lets one request for memory fail. `refused` counts the cases
/// that did not have their wanted result.
pub fn expect_few_refusals(rt: &impl Abort, refused: u64) {
    sees_at(rt, refused <= 1, &("so many refusals of memory", refused));
}

/// Whether a run ended with the error `Memory`.
pub fn is_memory(found: Result<Ended, ReplayError>) -> bool {
    matches!(found, Err(ReplayError::Memory))
}

/// Whether `found`, the end or the error of a run, equals `wanted`.
pub fn is_end(found: Result<Ended, ReplayError>, wanted: Result<Ended, ReplayError>) -> bool {
    found == wanted
}
