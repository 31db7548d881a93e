//! Replays of files of lines, and why their lines are faults.
use super::replay_rows::*;
use super::runs::{Way, expect_files, expect_lines, expect_rows};
use super::sees::same_at;
use std::alloc::Global;
use std::process::Abort;
use tora_script::{ReplayCause, replay_cause};

#[test]
fn query_is_answered_by_the_destinations_neighbour(rt: HostRuntime) {
    expect_rows(&rt, Way::Replay, QUERY);
}

#[test]
fn partition_is_detected_by_the_reflected_level(rt: HostRuntime) {
    expect_rows(&rt, Way::Replay, PARTITION);
}

#[test]
fn delta_out_of_range_gives_no_height(rt: HostRuntime) {
    expect_rows(&rt, Way::Replay, DELTA_OUT_OF_RANGE);
}

#[test]
fn told_neighbour_gets_no_second_answer(rt: HostRuntime) {
    expect_rows(&rt, Way::Replay, TOLD_NEIGHBOUR);
}

#[test]
fn refused_packets(rt: HostRuntime) {
    expect_rows(&rt, Way::Replay, REFUSED_PACKETS);
}

#[test]
fn refused_inputs(rt: HostRuntime) {
    expect_rows(&rt, Way::Replay, REFUSED_INPUTS);
}

#[test]
fn empty_replay_is_a_fault_of_line_one(rt: HostRuntime) {
    expect_rows(&rt, Way::Replay, EMPTY);
}

#[test]
fn sends_are_listed_by_destination(rt: HostRuntime) {
    expect_rows(&rt, Way::Replay, TWO_DESTINATIONS);
}

#[test]
fn first_lines_accepted_and_refused(rt: HostRuntime) {
    expect_rows(&rt, Way::Replay, FIRST_LINES);
}

#[test]
fn lines_that_are_faults(rt: HostRuntime) {
    expect_rows(&rt, Way::Replay, FAULTS);
}

#[test]
fn lines_at_the_ends_of_ranges(rt: HostRuntime) {
    expect_lines(&rt, Way::Replay, FIRST, ENDS_OF_RANGES);
    expect_rows(&rt, Way::Replay, EMPTY_LINE);
}

#[test]
fn longest_line(rt: HostRuntime) {
    expect_files(&rt, Way::Replay, LONGEST_LINES);
}

/// Checks that the line with this number (`None`: there is no such line) is a fault for this cause. If another cause is
/// found, it checks once more, since memory may have run out.
fn expect_cause(
    rt: &impl Abort,
    alloc: Global,
    number: u64,
    line: Option<&str>,
    cause: ReplayCause,
) {
    let bytes = match line {
        Some(line) => Some(line.as_bytes()),
        None => None,
    };
    let mut found = replay_cause(alloc, number, bytes);
    if found != cause {
        found = replay_cause(alloc, number, bytes);
    }
    same_at(rt, &found, &cause, &line);
}

/// Checks that each line, with this number, is a fault for its cause.
fn expect_causes(
    rt: &impl Abort,
    alloc: Global,
    number: u64,
    rows: &[(Option<&str>, ReplayCause)],
) {
    for (line, cause) in rows {
        expect_cause(rt, alloc, number, *line, *cause);
    }
}

/// Why a line after the first is a fault, as `-v` reports it.
#[test]
fn causes_of_faults(rt: HostRuntime) {
    expect_causes(&rt, rt.alloc(), 2, CAUSES);
    let long = replay_cause(rt.alloc(), 2, Some(&TOO_LONG));
    same_at(
        &rt,
        &long,
        &ReplayCause::TooLong,
        &"a line that is too long",
    );
}

const TOO_LONG: [u8; 4097] = [b' '; 4097];

/// Why a first line is a fault, as `-v` reports it.
#[test]
fn causes_of_first_faults(rt: HostRuntime) {
    expect_causes(&rt, rt.alloc(), 1, FIRST_CAUSES);
}
