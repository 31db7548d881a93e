//! `tora sim --channel-file` and `--until` over files: what is read, what is refused, and what the trace has of both.
use super::expected::expect_written;
use super::failing_streams::{ArrayWriter, Fails};
use super::sees::sees_at;
use std::fs::{self, File, Files};
use std::io::Read;
use std::process::{Abort, ExitCode};
use std::test::Fail;
use std::time::Clock;
use tora_commands::{INPUT, MEMORY, SetupWords, Shown, USAGE, simulate_file};

const FOLDER: &str = "tora_channel_file_test";

const FILE: &str = "tora_channel_file_test/two.sim";

const CHANNEL: &str = "tora_channel_file_test/two.channel";

const BROKEN: &str = "tora_channel_file_test/broken.channel";

const MISSING: &str = "tora_channel_file_test/none.channel";

const TRACE: &str = "tora_channel_file_test/two.trace";

const LINES: &str = "dests 2\nlink 1 2\npart 1 2\nneed 1 2\nturn 1\nneed 3 2\n";

const CHANNEL_LINES: &str = "0 1 2 loss=0.1\n300 2 1 loss=0.25,delay=0-1\n600 1 2 loss=0\n";

const BROKEN_LINES: &str = "0 1 2 loss=0.1\n300 2 1 loss=25%\n";

/// The trace of `LINES` if 1 is the last round: all lines have an effect.
const LAST_ROUND: &str =
    "0 trace 1 10 50 5 8 0 0 0 0 0 0 1 -\n0 part 1 2\n0 need 1 2\n0 qry 1 2 0\n\
    0 end 4114bfe19002c726291e51542d4c6c2a68c4ff93e949bc510031bcfb0d3e22fe\n";

/// The trace of `LINES` if 0 is the last round: no line has an effect.
const NO_ROUND: &str = "0 trace 1 10 50 5 8 0 0 0 0 0 0 0 -\n\
    0 end 4114bfe19002c726291e51542d4c6c2a68c4ff93e949bc510031bcfb0d3e22fe\n";

/// The trace of `LINES` over the channel file, whose digest ends the first record; all lines have an effect.
const OVER_FILE: &str =
    "0 trace 1 10 50 5 8 0 0 0 0 0 0 - 0984e32aaf385429c24dd0c6b6237c10e10166ca96fb09baea4ea861489f3134\n\
    0 part 1 2\n0 need 1 2\n0 qry 1 2 0\n\
    0 end 4114bfe19002c726291e51542d4c6c2a68c4ff93e949bc510031bcfb0d3e22fe\n";

/// The trace of `LINES` over the channel file, with seed 7, if 0 is the last round: no line has an effect.
const BOTH: &str =
    "0 trace 1 10 50 5 8 0 0 0 0 7 0 0 0984e32aaf385429c24dd0c6b6237c10e10166ca96fb09baea4ea861489f3134\n\
    0 end 4114bfe19002c726291e51542d4c6c2a68c4ff93e949bc510031bcfb0d3e22fe\n";

/// The words for a simulation: the path of the channel file, the seed, the last round, and the path of the trace.
/// `None` for an option that is not given.
type Asked = (
    Option<&'static str>,
    Option<&'static str>,
    Option<&'static str>,
    Option<&'static str>,
);

/// The words for a simulation, its exit status, its output, and the text of the file `TRACE` afterwards; `None` if
/// there is no such file.
const ASKED: &[(Asked, u8, &str, Option<&str>)] = &[
    (
        (None, None, Some("1"), Some(TRACE)),
        0,
        "refused 2\n",
        Some(LAST_ROUND),
    ),
    ((None, None, Some("0"), Some(TRACE)), 0, "", Some(NO_ROUND)),
    (
        (Some(CHANNEL), None, None, Some(TRACE)),
        0,
        "refused 2\n",
        Some(OVER_FILE),
    ),
    (
        (Some(CHANNEL), Some("7"), Some("0"), Some(TRACE)),
        0,
        "",
        Some(BOTH),
    ),
    ((Some(CHANNEL), None, None, None), 0, "refused 2\n", None),
    ((Some(BROKEN), None, None, Some(TRACE)), INPUT, "", None),
    ((Some(MISSING), None, None, Some(TRACE)), INPUT, "", None),
    ((Some(CHANNEL), None, None, Some(CHANNEL)), INPUT, "", None),
    ((None, None, Some("01"), Some(TRACE)), USAGE, "", None),
    ((Some(BROKEN), None, Some(""), None), USAGE, "", None),
    ((Some(BROKEN), Some("x"), None, None), USAGE, "", None),
    ((None, Some("7"), None, None), USAGE, "", None),
];

/// Simulates `FILE` once with these words, with a progress bar if `has_bar`. Writes the output to `writer`, and returns
/// the exit status.
fn simulated_once<T: Files + AllocGlobal + Eprint + Clock>(
    rt: &T,
    (channel_file, seed, until, trace): Asked,
    has_bar: bool,
    writer: &mut ArrayWriter,
) -> ExitCode {
    let words = SetupWords {
        times: None,
        channel: None,
        seed,
        has_notice: false,
        is_large: false,
        until,
        erasure: None,
        channel_file,
    };
    let shown = Shown {
        is_verbose: false,
        has_bar,
    };
    simulate_file(rt, words, FILE, trace, shown, writer)
}

/// Simulates `FILE`, and checks that the exit status is `wanted` and the output is `text`. If memory runs out, it
/// simulates once more.
fn expect_simulated<T: Files + AllocGlobal + Eprint + Clock + Abort>(
    rt: &T,
    asked: Asked,
    has_bar: bool,
    wanted: u8,
    text: &str,
) {
    let mut writer = ArrayWriter::new(Fails::Never);
    let mut status = simulated_once(rt, asked, has_bar, &mut writer);
    if status == ExitCode::from(MEMORY) {
        writer = ArrayWriter::new(Fails::Never);
        status = simulated_once(rt, asked, has_bar, &mut writer);
    }
    sees_at(rt, status == ExitCode::from(wanted), &(asked, has_bar));
    expect_written(rt, (FILE, "", 0, ""), writer.text(), text);
}

/// Whether the file at `path` has exactly this text, of at most 256 bytes; if `text` is `None`, whether it cannot be
/// opened.
fn holds<R: Files<File = File>>(rt: &R, path: &str, text: Option<&str>) -> bool {
    let mut bytes = [0; 256];
    let Ok(mut file) = fs::open(rt, path) else {
        return text.is_none();
    };
    let Some(text) = text else {
        return false;
    };
    match file.read(&mut bytes) {
        Ok(n) => bytes.get(..n) == Some(text.as_bytes()),
        Err(_) => false,
    }
}

/// Makes the directory anew, with the simulation file and both channel files, and without a trace.
fn make_folder<R: Files<File = File> + AllocGlobal>(rt: &R) -> Result<(), Fail> {
    let _ = fs::remove_dir_all(rt, FOLDER);
    fs::create_dir(rt, FOLDER)?;
    fs::write(rt, FILE, LINES)?;
    fs::write(rt, CHANNEL, CHANNEL_LINES)?;
    fs::write(rt, BROKEN, BROKEN_LINES)?;
    Ok(())
}

/// Simulates each row of `ASKED`, with a progress bar if `has_bar`. Checks the status, the output and the trace, and
/// that the channel file is unchanged.
fn expect_all<T: Files<File = File> + AllocGlobal + Eprint + Clock + Abort>(
    rt: &T,
    has_bar: bool,
) -> Result<(), Fail> {
    for (asked, wanted, text, trace) in ASKED {
        make_folder(rt)?;
        expect_simulated(rt, *asked, has_bar, *wanted, *text);
        sees_at(rt, holds(rt, TRACE, *trace), asked);
        sees_at(rt, holds(rt, CHANNEL, Some(CHANNEL_LINES)), asked);
    }
    Ok(())
}

/// If the channel file is missing or faulty, nothing is simulated and no trace is made. A trace at the path of the
/// channel file is refused, and the file stays. A trace has the file's digest and the last round. All this is the same
/// with a bar.
#[test]
fn channel_files_are_read(rt: HostRuntime) -> Result<(), Fail> {
    expect_all(&rt, false)?;
    expect_all(&rt, true)?;
    fs::remove_dir_all(&rt, FOLDER)?;
    Ok(())
}
