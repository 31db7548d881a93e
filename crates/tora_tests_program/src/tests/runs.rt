//! Runs of files of lines by the calls of the crates: their output, and how they end.
use super::expected::{expect_ended, expect_written, is_memory};
use super::failing_streams::{ArrayWriter, Fails, Lines, LinesReader};
use std::alloc::Global;
use std::process::Abort;
use tora_arq::Times;
use tora_commands::{replay_and_flush, simulate_and_flush, simulate_with_reports_and_flush};
use tora_core::Erasure;
use tora_drive::{DriveSetup, drive_in};
use tora_lines::{Ended, ReplayError};
use tora_script::{ChannelTable, FaultReports, Setup, WorldOptions, replay, replay_with};
use tora_sim::{Limits, Sim};
use tora_simulate::{simulate, simulate_report_and_flush, simulate_with};

/// A call that runs the lines of a file.
#[derive(Clone, Copy)]
pub enum Way {
    Replay,
    /// A replay of a node that remembers erased levels.
    RememberedReplay,
    /// A replay that flushes its output at the end.
    FlushedReplay,
    Simulation,
    /// A simulation that flushes its output at the end.
    FlushedSimulation,
    /// A simulation that reports causes on standard error.
    ToldSimulation,
    /// A simulation whose times are given, and are the standard ones.
    StandardTimes,
    /// A simulation whose link ends are silent after 20 ticks.
    ShortSilence,
    /// A simulation of a world within the greatest limits.
    LargeSimulation,
    /// A drive.
    Drive,
    /// A drive of a world within the greatest limits.
    LargeDrive,
}

/// The standard times, except that a link end is silent after 20 ticks and not 50.
pub const SHORT_SILENCE: Times = Times {
    hello: 10,
    silent: 20,
    retry: 5,
    tries: 8,
};

/// Drives a world within these limits by the lines of `reader`, and writes the answers to `writer`.
fn driven(
    alloc: Global,
    limits: Limits,
    reader: &mut LinesReader<'_>,
    writer: &mut ArrayWriter,
) -> Result<Ended, ReplayError> {
    let setup = DriveSetup {
        options: WorldOptions::within(limits),
        times: Times::STANDARD,
    };
    drive_in::<Sim, LinesReader<'_>, ArrayWriter>(alloc, setup, reader, writer)
}

/// Simulates within the greatest limits, and flushes the output.
fn simulated_large<T: AllocGlobal + Eprint>(
    rt: &T,
    reader: &mut LinesReader<'_>,
    writer: &mut ArrayWriter,
) -> Result<Ended, ReplayError> {
    let reports = FaultReports {
        rt,
        is_verbose: false,
    };
    let setup = Setup {
        options: WorldOptions::within(Limits::GREATEST),
        ..Setup::plain(Times::STANDARD)
    };
    let table = ChannelTable::none();
    simulate_report_and_flush::<Sim, T, LinesReader<'_>, ArrayWriter>(
        reports,
        rt.alloc(),
        setup,
        table,
        reader,
        writer,
    )
}

impl Way {
    /// Runs the lines of a reader. Calls with long contracts are in functions without a contract, here and in the
    /// tests, so that the proofs of their callers leave those contracts out.
    pub fn run<T: AllocGlobal + Eprint>(
        self,
        rt: &T,
        reader: &mut LinesReader<'_>,
        writer: &mut ArrayWriter,
    ) -> Result<Ended, ReplayError> {
        let alloc = rt.alloc();
        match self {
            Way::Replay => replay(alloc, reader, writer),
            Way::RememberedReplay => replay_with(alloc, Erasure::Remembered, reader, writer),
            Way::FlushedReplay => replay_and_flush(alloc, Erasure::Plain, reader, writer),
            Way::Simulation => simulate(alloc, reader, writer),
            Way::FlushedSimulation => simulate_and_flush::<Sim, LinesReader<'_>, ArrayWriter>(
                alloc,
                Times::STANDARD,
                reader,
                writer,
            ),
            Way::ToldSimulation => simulate_with_reports_and_flush::<
                Sim,
                T,
                LinesReader<'_>,
                ArrayWriter,
            >(rt, alloc, Times::STANDARD, reader, writer),
            Way::StandardTimes => simulate_with(alloc, Times::STANDARD, reader, writer),
            Way::ShortSilence => simulate_with(alloc, SHORT_SILENCE, reader, writer),
            Way::LargeSimulation => simulated_large(rt, reader, writer),
            Way::Drive => driven(alloc, Limits::STANDARD, reader, writer),
            Way::LargeDrive => driven(alloc, Limits::GREATEST, reader, writer),
        }
    }

    /// Runs lines once, with a writer that fails in this way.
    pub fn once<T: AllocGlobal + Eprint>(
        self,
        rt: &T,
        lines: Lines<'_>,
        fails: Fails,
    ) -> (Result<Ended, ReplayError>, ArrayWriter) {
        let mut writer = ArrayWriter::new(fails);
        let mut reader = LinesReader::new(lines);
        let found = self.run(rt, &mut reader, &mut writer);
        (found, writer)
    }
}

/// Checks the output of lines and how they end, with a writer that fails in this way. If memory runs out, they are run
/// once more, since only one request for memory fails.
pub fn expect_run<T: AllocGlobal + Eprint + Abort>(
    rt: &T,
    way: Way,
    lines: Lines<'_>,
    fails: Fails,
    text: &str,
    wanted: Result<Ended, ReplayError>,
) {
    let (mut found, mut writer) = way.once(rt, lines, fails);
    if is_memory(found) {
        (found, writer) = way.once(rt, lines, fails);
    }
    expect_ended(rt, lines, found, wanted);
    expect_written(rt, lines, writer.text(), text);
}

/// Files with the same output that end in the same way: each front followed by each end; the output, and how the files
/// end.
pub type Row = (
    &'static [&'static str],
    &'static [&'static str],
    &'static str,
    Ended,
);

/// The empty text alone, as the front or the end of a row's files.
pub const NOTHING: &[&str] = &[""];

/// Checks the output of each file, and how it ends.
pub fn expect_rows<T: AllocGlobal + Eprint + Abort>(rt: &T, way: Way, rows: &[Row]) {
    for (fronts, ends, text, ended) in rows {
        for front in *fronts {
            for end in *ends {
                let lines = (*front, "", 0, *end);
                expect_run(rt, way, lines, Fails::Never, *text, Ok(*ended));
            }
        }
    }
}

/// Files with the same output `text` that end in the same way, one for each of `middles`: `front`, the middle `times`
/// times, and `end`.
pub struct Files {
    pub front: &'static str,
    pub middles: &'static [&'static str],
    pub times: usize,
    pub end: &'static str,
    pub text: &'static str,
    pub ended: Ended,
}

/// Checks the output of each file, and how it ends.
pub fn expect_files<T: AllocGlobal + Eprint + Abort>(rt: &T, way: Way, rows: &[Files]) {
    for files in rows {
        for middle in files.middles {
            let lines = (files.front, *middle, files.times, files.end);
            expect_run(rt, way, lines, Fails::Never, files.text, Ok(files.ended));
        }
    }
}

/// Checks that these lines after the front are accepted, and their outputs.
pub fn expect_lines<T: AllocGlobal + Eprint + Abort>(
    rt: &T,
    way: Way,
    front: &str,
    rows: &[(&str, &str)],
) {
    for (end, text) in rows {
        let lines = (front, "", 0, *end);
        expect_run(rt, way, lines, Fails::Never, *text, Ok(Ended::Whole));
    }
}
