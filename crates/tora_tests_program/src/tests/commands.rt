//! The commands that run the engines: statuses, flushed output, real files, and the statuses of command lines.
use super::expected::{expect_few_refusals, expect_written};
use super::failing_streams::{ArrayWriter, Fails, LinesReader};
use super::replay_rows::{LOSS_TEXT, ROUTE_AND_LOSS};
use super::route_rows::{FOUND_AND_LOST, FOUR_FOUND_AND_LOST};
use super::sees::{same_at, sees, sees_at};
use super::words::parsed;
use std::fs::{self, File, Files};
use std::io::Read;
use std::process::{Abort, ExitCode};
use std::test::Fail;
use std::time::Clock;
use tora_arq::Times;
use tora_commands::drive_command::DriveWords;
use tora_commands::{
    ChannelFile, INPUT, MEMORY, SetupWords, Shown, SimulationOptions, USAGE, drive_command,
    replay_command, sim_command, simulate_file, traced_command, usage,
};
use tora_script::{ChannelTable, FaultReports, Setup, TraceOut};
use tora_sim::Sim;

/// No options of `tora drive`.
fn no_words() -> DriveWords<'static> {
    DriveWords {
        times: None,
        erasure: None,
        is_large: false,
    }
}

/// A command that runs a file of lines; `Traced` also writes a trace.
#[derive(Clone, Copy)]
enum Run {
    Replay,
    Simulation,
    Traced,
    Drive,
}

impl Run {
    /// Runs `lines` by this command: writes the output to `writer`, and only for `Traced` a trace to `out`. Returns the
    /// exit status.
    fn status<T: AllocGlobal + Eprint>(
        self,
        rt: &T,
        lines: &str,
        is_verbose: bool,
        writer: &mut ArrayWriter,
        out: &mut TraceOut<ArrayWriter>,
    ) -> ExitCode {
        let reader = LinesReader::new((lines, "", 0, ""));
        match self {
            Run::Replay => replay_command::run(rt, None, reader, is_verbose, writer),
            Run::Drive => drive_command::run(rt, no_words(), reader, writer),
            Run::Simulation => sim_command::run_over::<Sim, T, LinesReader<'_>, ArrayWriter>(
                FaultReports { rt, is_verbose },
                Setup::plain(Times::STANDARD),
                ChannelTable::none(),
                reader,
                writer,
            ),
            Run::Traced => {
                traced_command::run_over::<Sim, T, LinesReader<'_>, ArrayWriter, ArrayWriter>(
                    FaultReports { rt, is_verbose },
                    SimulationOptions {
                        setup: Setup::plain(Times::STANDARD),
                        file: ChannelFile::none(),
                    },
                    reader,
                    writer,
                    "trace",
                    out,
                )
            }
        }
    }
}

/// A command, its lines, their output, where the writers of the output and of the trace fail, and the status.
type Row = (Run, &'static str, &'static str, (Fails, Fails), u8);

/// Whether an exit status is this number.
fn is_status(status: ExitCode, wanted: u8) -> bool {
    status == ExitCode::from(wanted)
}

/// Runs a row once. Returns the exit status, the output, and whether the trace is reported lost.
fn left<T: AllocGlobal + Eprint>(
    rt: &T,
    (run, lines, _, (output, trace), _): Row,
    is_verbose: bool,
) -> (ExitCode, ArrayWriter, bool) {
    let mut writer = ArrayWriter::new(output);
    let mut out = TraceOut::new(ArrayWriter::new(trace));
    let status = run.status(rt, lines, is_verbose, &mut writer, &mut out);
    (status, writer, out.failure().is_some())
}

/// Runs a row, and checks the output, the exit status, and that the trace is reported lost exactly if its writer fails.
/// If memory runs out, it runs once more.
fn expect_status<T: AllocGlobal + Eprint + Abort>(rt: &T, row: Row, is_verbose: bool) {
    let (_, lines, text, (output, trace), wanted) = row;
    let (mut status, mut writer, mut is_lost) = left(rt, row, is_verbose);
    if is_status(status, MEMORY) {
        (status, writer, is_lost) = left(rt, row, is_verbose);
    }
    let place = (lines, output, trace, wanted);
    sees_at(rt, is_status(status, wanted), &place);
    expect_written(rt, (lines, "", 0, ""), writer.text(), text);
    sees_at(rt, is_lost == (trace != Fails::Never), &place);
}

/// Checks the output and the status of each run, without `-v` and with it.
fn expect_statuses<T: AllocGlobal + Eprint + Abort>(rt: &T, rows: &[Row]) {
    for row in rows {
        expect_status(rt, *row, false);
        expect_status(rt, *row, true);
    }
}

/// The exit status of a run that ends without a fault.
const SUCCESS: u8 = 0;

const FINE: (Fails, Fails) = (Fails::Never, Fails::Never);

/// Lines without a fault, and lines with one.
const WHOLE: &[Row] = &[
    (Run::Replay, ROUTE_AND_LOSS, LOSS_TEXT, FINE, SUCCESS),
    (
        Run::Simulation,
        FOUR_FOUND_AND_LOST,
        FOUND_AND_LOST,
        FINE,
        SUCCESS,
    ),
    (
        Run::Traced,
        FOUR_FOUND_AND_LOST,
        FOUND_AND_LOST,
        FINE,
        SUCCESS,
    ),
    (
        Run::Drive,
        "dests 2\nlink 1 2\ntick",
        "tora drive 1\nok\nok\nok\n",
        FINE,
        SUCCESS,
    ),
    (Run::Replay, "", "fault 1\n", FINE, INPUT),
    (Run::Simulation, "", "fault 1\n", FINE, INPUT),
    (Run::Traced, "", "fault 1\n", FINE, INPUT),
];

/// The status is 0 at the end of the lines and 1 at a fault, and all output is written, without `-v` and with it.
#[test]
fn statuses_of_runs(rt: HostRuntime) {
    expect_statuses(&rt, WHOLE);
}

const NO_WRITE: (Fails, Fails) = (Fails::Write(1), Fails::Never);

const NO_FLUSH: (Fails, Fails) = (Fails::Flush, Fails::Never);

const FAILED_OUTPUTS: &[Row] = &[
    (Run::Replay, ROUTE_AND_LOSS, "", NO_WRITE, INPUT),
    (Run::Drive, "", "", NO_WRITE, INPUT),
    (Run::Drive, "", "tora drive 1\n", NO_FLUSH, INPUT),
    (Run::Replay, ROUTE_AND_LOSS, LOSS_TEXT, NO_FLUSH, INPUT),
    (Run::Simulation, FOUR_FOUND_AND_LOST, "", NO_WRITE, INPUT),
    (
        Run::Simulation,
        FOUR_FOUND_AND_LOST,
        FOUND_AND_LOST,
        NO_FLUSH,
        INPUT,
    ),
    (Run::Traced, FOUR_FOUND_AND_LOST, "", NO_WRITE, INPUT),
    (
        Run::Traced,
        FOUR_FOUND_AND_LOST,
        FOUND_AND_LOST,
        NO_FLUSH,
        INPUT,
    ),
];

/// The status is 1 if the first write fails, and then nothing is written; it is also 1 if only the last flush fails,
/// and then all output is written.
#[test]
fn statuses_of_failed_outputs(rt: HostRuntime) {
    expect_statuses(&rt, FAILED_OUTPUTS);
}

const LOST_TRACES: &[Row] = &[
    (
        Run::Traced,
        FOUR_FOUND_AND_LOST,
        FOUND_AND_LOST,
        (Fails::Never, Fails::Write(1)),
        INPUT,
    ),
    (
        Run::Traced,
        FOUR_FOUND_AND_LOST,
        FOUND_AND_LOST,
        (Fails::Never, Fails::Write(2)),
        INPUT,
    ),
    (
        Run::Traced,
        FOUR_FOUND_AND_LOST,
        FOUND_AND_LOST,
        (Fails::Never, Fails::Flush),
        INPUT,
    ),
];

/// The status is 1 if the trace cannot be written or flushed; the output is complete.
#[test]
fn statuses_of_lost_traces(rt: HostRuntime) {
    expect_statuses(&rt, LOST_TRACES);
}

const FOLDER: &str = "tora_commands_test";

const FILE: &str = "tora_commands_test/two.sim";

const MISSING: &str = "tora_commands_test/none.sim";

const TRACE: &str = "tora_commands_test/two.trace";

const LINES: &str = "dests 2\nlink 1 2\nneed 1 2\nturn 1\nneed 3 2\n";

const RECORDS: &str =
    "0 trace 1 10 50 5 8 0 0 0 0 0 0\n0 need 1 2\n0 qry 1 2 0\n0 end 652b4c0ca01d6f1b2dfde35446f8e556bd5a6cf9edd9c63af90c38f5fea5dde8\n";

/// The words for a simulation: times and a channel, the path of its file, and the path of its trace. `None` for an
/// option that is not given.
type Asked = (
    (Option<&'static str>, Option<&'static str>),
    &'static str,
    Option<&'static str>,
);

/// Simulates a file once with these words, writes the output to `writer`, and returns the exit status.
fn simulated_once<T: Files + AllocGlobal + Eprint + Clock>(
    rt: &T,
    ((times, channel), path, trace): Asked,
    writer: &mut ArrayWriter,
) -> ExitCode {
    let words = SetupWords {
        times,
        channel,
        seed: None,
        has_notice: false,
        is_large: false,
        until: None,
        erasure: None,
        channel_file: None,
    };
    let shown = Shown {
        is_verbose: false,
        has_bar: false,
    };
    simulate_file(rt, words, path, trace, shown, writer)
}

/// Simulates a file, and checks that the exit status is `wanted` and the output is `text`. If memory runs out, it
/// simulates once more.
fn expect_simulated<T: Files + AllocGlobal + Eprint + Clock + Abort>(
    rt: &T,
    asked: Asked,
    wanted: u8,
    text: &str,
) {
    let mut writer = ArrayWriter::new(Fails::Never);
    let mut status = simulated_once(rt, asked, &mut writer);
    if is_status(status, MEMORY) {
        writer = ArrayWriter::new(Fails::Never);
        status = simulated_once(rt, asked, &mut writer);
    }
    sees_at(rt, is_status(status, wanted), &(asked, wanted));
    expect_written(rt, (asked.1, "", 0, ""), writer.text(), text);
}

/// Whether the file at `path` has exactly this text, of at most 256 bytes; false if it cannot be read.
fn holds<R: Files<File = File>>(rt: &R, path: &str, text: &str) -> bool {
    let mut bytes = [0; 256];
    let Ok(mut file) = fs::open(rt, path) else {
        return false;
    };
    match file.read(&mut bytes) {
        Ok(n) => bytes.get(..n) == Some(text.as_bytes()),
        Err(_) => false,
    }
}

/// Makes the directory anew, with only the simulation file.
fn make_folder<R: Files<File = File> + AllocGlobal>(rt: &R) -> Result<(), Fail> {
    let _ = fs::remove_dir_all(rt, FOLDER);
    fs::create_dir(rt, FOLDER)?;
    fs::write(rt, FILE, LINES)?;
    Ok(())
}

/// The words for simulations that run one after another in one directory, the exit status, the output, and whether the
/// file `TRACE` has the text `RECORDS` afterwards.
const ASKED: &[(Asked, u8, &str, bool)] = &[
    (((None, None), FILE, None), SUCCESS, "refused 2\n", false),
    (
        ((None, None), FILE, Some(TRACE)),
        SUCCESS,
        "refused 2\n",
        true,
    ),
    (((None, None), FILE, Some(FILE)), INPUT, "", true),
    (((None, None), MISSING, None), INPUT, "", true),
    (((None, None), MISSING, Some(TRACE)), INPUT, "", true),
    (((None, None), FILE, Some(FOLDER)), INPUT, "", true),
    (((Some("10,50,5"), None), FILE, None), USAGE, "", true),
    (((None, Some("loss=2")), FILE, None), USAGE, "", true),
    (
        ((Some("10,0,5,8"), None), FILE, Some(FILE)),
        USAGE,
        "",
        true,
    ),
];

/// The named file is read, the trace is written to the other named file, and neither replaces the other.
#[test]
fn files_are_those_named(rt: HostRuntime) -> Result<(), Fail> {
    make_folder(&rt)?;
    for (asked, wanted, text, has_trace) in ASKED {
        expect_simulated(&rt, *asked, *wanted, *text);
        same_at(&rt, &holds(&rt, TRACE, RECORDS), has_trace, asked);
        sees(&rt, holds(&rt, FILE, LINES), "the file stays");
    }
    fs::remove_dir_all(&rt, FOLDER)?;
    Ok(())
}

/// Prints help, the version or a fault of usage, and returns the exit status.
fn status_of_fault<R: Print + Eprint>(rt: &R, error: &clap::Error) -> ExitCode {
    usage(rt, error)
}

/// The status of words that are not a command line or ask for help; `None` if they are a command line, or memory runs
/// out.
fn status_of_words<R: AllocGlobal + Print + Eprint>(rt: &R, words: &[&str]) -> Option<ExitCode> {
    match parsed(rt.alloc(), words)? {
        Ok(_) => None,
        Err(error) => Some(status_of_fault(rt, &error)),
    }
}

/// Words that are not a command line or ask for help, and their status.
const STATUSES: &[(&[&str], u8)] = &[
    (&["tora", "route"], USAGE),
    (&["tora", "replay", "file"], USAGE),
    (&["tora", "sim"], USAGE),
    (&["tora", "sim", "file", "other"], USAGE),
    (&["tora", "sim", "file", "--trace"], USAGE),
    (&["tora", "sim", "file", "--channel-file"], USAGE),
    (&["tora", "sim", "file", "--until"], USAGE),
    (&["tora", "sim", "file", "--check"], USAGE),
    (&["tora", "drive", "--small"], USAGE),
    (&["tora", "drive", "file"], USAGE),
    (&["tora", "node"], USAGE),
    (&["tora", "node", "file", "--trace", "other"], USAGE),
    (&["tora", "--help"], SUCCESS),
    (&["tora", "sim", "--help"], SUCCESS),
    (&["tora", "--version"], SUCCESS),
];

/// The status is 2 for words that are not a command line, and 0 for help and the version.
#[test]
fn statuses_of_words(rt: HostRuntime) {
    let mut refused = 0u64;
    for (words, wanted) in STATUSES {
        if status_of_words(&rt, *words) != Some(ExitCode::from(*wanted)) {
            refused = refused.saturating_add(1);
        }
    }
    expect_few_refusals(&rt, refused);
}
