//! Readers and writers that fail, under replays and simulations.
use super::expected::{expect_few_refusals, is_end, is_memory};
use super::failing_streams::{ArrayWriter, Fails, Lines, LinesReader};
use super::replay_rows::{LOSS_TEXT, ROUTE, ROUTE_AND_LOSS, ROUTE_TEXT};
use super::route_rows::{FOUND_AND_LOST, FOUR_FOUND_AND_LOST};
use super::runs::{Way, expect_run};
use super::sees::sees_at;
use std::alloc::Global;
use std::io::ErrorKind as IoErrorKind;
use std::process::Abort;
use tora_lines::{Ended, ReplayError};
use tora_script::replay;
use tora_simulate::Recent;

/// How lines are run, the lines, their output, and the bound of a test: it tries each number from 1 to below it.
type Run = (Way, &'static str, &'static str, usize);

/// Runs the lines with reads of at most `size` bytes, of which the one numbered `interrupted_read`, from 1, is
/// interrupted; 0 for none. Checks that all lines are accepted, and the output. Returns false, and checks nothing, if
/// memory runs out.
fn expect_whole<T: AllocGlobal + Eprint + Abort>(
    rt: &T,
    (way, lines, text, _): Run,
    size: usize,
    interrupted_read: u64,
) -> bool {
    let mut reader = LinesReader::new((lines, "", 0, ""));
    reader.size = size;
    reader.until_failure = interrupted_read;
    reader.kind = IoErrorKind::Interrupted;
    let mut writer = ArrayWriter::new(Fails::Never);
    let found = way.run(rt, &mut reader, &mut writer);
    if is_memory(found) {
        return false;
    }
    let is_whole = is_end(found, Ok(Ended::Whole)) && writer.text() == text.as_bytes();
    sees_at(rt, is_whole, &("pieces of", size, "read", interrupted_read));
    true
}

/// Runs the lines with reads of at most `size` bytes, of which the one numbered `failing_read`, from 1, fails (0 for
/// none), and a writer that fails. Checks that the run ends with `error`, or with `Memory` before, and that what was
/// written is a prefix of the whole output.
fn expect_failure<T: AllocGlobal + Eprint + Abort>(
    rt: &T,
    (way, lines, text, _): Run,
    (size, failing_read, fails): (usize, u64, Fails),
    error: ReplayError,
) {
    let mut reader = LinesReader::new((lines, "", 0, ""));
    reader.size = size;
    reader.until_failure = failing_read;
    let mut writer = ArrayWriter::new(fails);
    let found = way.run(rt, &mut reader, &mut writer);
    let is_told = is_end(found, Err(error)) || is_memory(found);
    let begins = text.as_bytes().starts_with(writer.text());
    sees_at(rt, is_told && begins, &("read", failing_read, fails));
}

/// Runs, each with a bound in bytes: the input is read in pieces of each size below it.
const PIECES: &[Run] = &[
    (Way::Replay, ROUTE_AND_LOSS, LOSS_TEXT, 80),
    (Way::Simulation, FOUR_FOUND_AND_LOST, FOUND_AND_LOST, 40),
];

/// Runs, each with a bound: each read with a number below it fails, one in each try.
const READS: &[Run] = &[
    (Way::Replay, ROUTE_AND_LOSS, LOSS_TEXT, 64),
    (Way::Simulation, FOUR_FOUND_AND_LOST, FOUND_AND_LOST, 20),
];

/// Runs, each with a bound: each read with a number below it is interrupted, one in each try.
const INTERRUPTED: &[Run] = &[
    (Way::Replay, ROUTE_AND_LOSS, LOSS_TEXT, 80),
    (Way::Simulation, FOUR_FOUND_AND_LOST, FOUND_AND_LOST, 20),
];

/// Runs, each with a bound: for each number below it, the write with that number and all later ones fail in one try.
const WRITES: &[Run] = &[
    (Way::Replay, ROUTE_AND_LOSS, LOSS_TEXT, 6),
    (Way::Simulation, FOUR_FOUND_AND_LOST, FOUND_AND_LOST, 3),
];

#[test]
fn input_in_pieces(rt: HostRuntime) {
    for run in PIECES {
        for size in 1..run.3 {
            let is_whole = expect_whole(&rt, *run, size, 0) || expect_whole(&rt, *run, size, 0);
            sees_at(&rt, is_whole, &("pieces of", size));
        }
    }
}

#[test]
fn failed_reads(rt: HostRuntime) {
    for run in READS {
        for call in 1..run.3 {
            expect_failure(&rt, *run, (5, call as u64, Fails::Never), ReplayError::Read);
        }
    }
}

#[test]
fn interrupted_reads_are_made_again(rt: HostRuntime) {
    let mut refused = 0u64;
    for run in INTERRUPTED {
        for call in 1..run.3 {
            if !expect_whole(&rt, *run, 5, call as u64) {
                refused = refused.saturating_add(1);
            }
        }
    }
    expect_few_refusals(&rt, refused);
}

#[test]
fn failed_writes(rt: HostRuntime) {
    for run in WRITES {
        for call in 1..run.3 {
            expect_failure(
                &rt,
                *run,
                (1000, 0, Fails::Write(call as u64)),
                ReplayError::Write,
            );
        }
    }
}

/// Whether the third line, read in pieces of this size, is a fault that ends the replay, and is among the remembered
/// lines.
fn is_third_line_kept(alloc: Global, size: usize) -> bool {
    let mut pieces = LinesReader::new((
        "node 3 links 2 dests 4\n1 up 2\n1 shows\n1 show\n",
        "",
        0,
        "",
    ));
    pieces.size = size;
    let mut reader = Recent::new(alloc, pieces);
    let mut writer = ArrayWriter::new(Fails::Never);
    let found = replay(alloc, &mut reader, &mut writer);
    is_end(found, Ok(Ended::Fault(3))) && reader.line(3) == Some(b"1 shows".as_slice())
}

/// The line of a fault is remembered, whatever the size of the pieces.
#[test]
fn recent_lines_are_kept(rt: HostRuntime) {
    let mut refused = 0u64;
    for size in 1..60 {
        if !is_third_line_kept(rt.alloc(), size) {
            refused = refused.saturating_add(1);
        }
    }
    expect_few_refusals(&rt, refused);
}

/// Lines for a call that flushes at the end, their output, and how they end if the flush succeeds.
type Handed = (Way, &'static str, &'static str, Ended);

/// Checks the output of each row, and how the call ends: as the row says, or with `Write` if the flush fails.
fn expect_handed<T: AllocGlobal + Eprint + Abort>(rt: &T, rows: &[Handed]) {
    for (way, lines, text, ended) in rows {
        let lines: Lines<'_> = (*lines, "", 0, "");
        expect_run(rt, *way, lines, Fails::Never, *text, Ok(*ended));
        expect_run(
            rt,
            *way,
            lines,
            Fails::Flush,
            *text,
            Err(ReplayError::Write),
        );
    }
}

const HANDED_REPLAYS: &[Handed] = &[
    (Way::FlushedReplay, ROUTE, ROUTE_TEXT, Ended::Whole),
    (Way::FlushedReplay, "", "fault 1\n", Ended::Fault(1)),
];

const HANDED_SIMULATIONS: &[Handed] = &[(
    Way::FlushedSimulation,
    FOUR_FOUND_AND_LOST,
    FOUND_AND_LOST,
    Ended::Whole,
)];

/// If the last flush of a replay fails, the result is `Write`, also after a fault; all output was written.
#[test]
fn failed_flushes(rt: HostRuntime) {
    expect_handed(&rt, HANDED_REPLAYS);
}

/// If the last flush of a simulation fails, the result is `Write`; all output was written.
#[test]
fn failed_flushes_of_a_simulation(rt: HostRuntime) {
    expect_handed(&rt, HANDED_SIMULATIONS);
}

/// If memory runs out, the call reports it, and the text written is a prefix of the whole text.
#[test]
fn want_of_memory_in_a_simulation(rt: HostRuntime) {
    let lines = (FOUR_FOUND_AND_LOST, "", 0, "");
    let (found, writer) = Way::Simulation.once(&rt, lines, Fails::Never);
    let begins = FOUND_AND_LOST.as_bytes().starts_with(writer.text());
    let is_all = begins && FOUND_AND_LOST.len() == writer.text().len();
    let is_whole = is_end(found, Ok(Ended::Whole)) && is_all;
    sees_at(&rt, is_whole || is_memory(found) && begins, &found);
}
