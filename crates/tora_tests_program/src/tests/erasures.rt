//! `--erasure` and the lines `erasure N WORD`: the accepted words, and what the trace has of the option.
use super::expected::expect_written;
use super::failing_streams::{ArrayWriter, Fails};
use super::runs::{Row, Way, expect_rows};
use super::sees::sees_at;
use std::fs::{self, File, Files};
use std::io::Read;
use std::process::{Abort, ExitCode};
use std::test::Fail;
use std::time::Clock;
use tora_commands::{MEMORY, SetupWords, Shown, USAGE, simulate_file};
use tora_lines::Ended;

const FOLDER: &str = "tora_erasure_test";

const FILE: &str = "tora_erasure_test/two.sim";

const TRACE: &str = "tora_erasure_test/two.trace";

const LINES: &str = "dests 2\nlink 1 2\npart 1 2\nneed 1 2\nturn 1\nneed 3 2\n";

const PLAIN: &str = "0 trace 1 10 50 5 8 0 0 0 0 0 0\n0 part 1 2\n0 need 1 2\n0 qry 1 2 0\n\
    0 end 4114bfe19002c726291e51542d4c6c2a68c4ff93e949bc510031bcfb0d3e22fe\n";

const REMEMBERED: &str =
    "0 trace 1 10 50 5 8 0 0 0 0 0 0 - - remembered\n0 part 1 2\n0 need 1 2\n0 qry 1 2 0\n\
    0 end 4114bfe19002c726291e51542d4c6c2a68c4ff93e949bc510031bcfb0d3e22fe\n";

const LAST_ROUND: &str =
    "0 trace 1 10 50 5 8 0 0 0 0 0 0 1 - remembered\n0 part 1 2\n0 need 1 2\n0 qry 1 2 0\n\
    0 end 4114bfe19002c726291e51542d4c6c2a68c4ff93e949bc510031bcfb0d3e22fe\n";

/// The words for a simulation: the erasure, and the last round. `None` for an option that is not given.
type Asked = (Option<&'static str>, Option<&'static str>);

/// The words for a simulation, its exit status, its output, and the text of the file `TRACE` afterwards; `None` if
/// there is no such file.
const ASKED: &[(Asked, u8, &str, Option<&str>)] = &[
    ((None, None), 0, "refused 2\n", Some(PLAIN)),
    ((Some("plain"), None), 0, "refused 2\n", Some(PLAIN)),
    (
        (Some("remembered"), None),
        0,
        "refused 2\n",
        Some(REMEMBERED),
    ),
    (
        (Some("remembered"), Some("1")),
        0,
        "refused 2\n",
        Some(LAST_ROUND),
    ),
    ((Some("Plain"), None), USAGE, "", None),
    ((Some(""), None), USAGE, "", None),
    ((Some("remember"), None), USAGE, "", None),
];

/// Simulates `FILE` once with these words and a trace, writes the output to `writer`, and returns the exit status.
fn simulated_once<T: Files + AllocGlobal + Eprint + Clock>(
    rt: &T,
    (erasure, until): Asked,
    writer: &mut ArrayWriter,
) -> ExitCode {
    let words = SetupWords {
        times: None,
        channel: None,
        seed: None,
        has_notice: false,
        is_large: false,
        until,
        erasure,
        channel_file: None,
    };
    let shown = Shown {
        is_verbose: false,
        has_bar: false,
    };
    simulate_file(rt, words, FILE, Some(TRACE), shown, writer)
}

/// Simulates `FILE`, and checks that the exit status is `wanted` and the output is `text`. If memory runs out, it
/// simulates once more.
fn expect_simulated<T: Files + AllocGlobal + Eprint + Clock + Abort>(
    rt: &T,
    asked: Asked,
    wanted: u8,
    text: &str,
) {
    let mut writer = ArrayWriter::new(Fails::Never);
    let mut status = simulated_once(rt, asked, &mut writer);
    if status == ExitCode::from(MEMORY) {
        writer = ArrayWriter::new(Fails::Never);
        status = simulated_once(rt, asked, &mut writer);
    }
    sees_at(rt, status == ExitCode::from(wanted), &asked);
    expect_written(rt, (FILE, "", 0, ""), writer.text(), text);
}

/// Whether the file at `path` has exactly this text, of at most 256 bytes; if `text` is `None`, whether it cannot be
/// opened.
fn holds<R: Files<File = File>>(rt: &R, path: &str, text: Option<&str>) -> bool {
    let mut bytes = [0; 256];
    let Ok(mut file) = fs::open(rt, path) else {
        return text.is_none();
    };
    let Some(text) = text else {
        return false;
    };
    match file.read(&mut bytes) {
        Ok(n) => bytes.get(..n) == Some(text.as_bytes()),
        Err(_) => false,
    }
}

/// `plain` and `remembered` are accepted, any other word is a fault of the command line, and the first record of the
/// trace names a choice other than `plain`.
#[test]
fn words_behind_the_option(rt: HostRuntime) -> Result<(), Fail> {
    for (asked, wanted, text, trace) in ASKED {
        let _ = fs::remove_dir_all(&rt, FOLDER);
        fs::create_dir(&rt, FOLDER)?;
        fs::write(&rt, FILE, LINES)?;
        expect_simulated(&rt, *asked, *wanted, *text);
        sees_at(&rt, holds(&rt, TRACE, *trace), asked);
    }
    fs::remove_dir_all(&rt, FOLDER)?;
    Ok(())
}

/// Lines `erasure N WORD` among lines `old N`, in any order; a node may have several.
const CHOSEN: &[Row] = &[(
    &["dests 3\nlink 1 2\nlink 2 3\n"],
    &[
        "erasure 1 remembered\nneed 1 3\nrounds 3\nheights 3\n",
        "erasure 2 remembered\nold 2\nerasure 2 plain\nneed 1 3\nrounds 3\nheights 3\n",
        "old 2\nerasure 3 remembered\nold 2\nneed 1 3\nrounds 3\nheights 3\n",
    ],
    "node 1 (0,0,0,2,1) hop 2\nnode 2 (0,0,0,1,2) hop 3\nnode 3 (0,0,0,0,3) hop -\n",
    Ended::Whole,
)];

/// Lines `erasure N WORD` directly after the links that are faults: with another word, with too few or too many words,
/// or with a node that does not exist.
const FAULTS: &[Row] = &[(
    &["dests 3\nlink 1 2\n"],
    &[
        "erasure 1 Plain\n",
        "erasure 1\n",
        "erasure 1 plain 2\n",
        "erasure 3 plain\n",
    ],
    "fault 3\n",
    Ended::Fault(3),
)];

const LATE: &[Row] = &[(
    &["dests 3\nlink 1 2\n"],
    &[
        "erasure 1 plain\nlink 2 3\n",
        "tick\nerasure 1 plain\n",
        "old 1\nerasure 3 plain\n",
    ],
    "fault 4\n",
    Ended::Fault(4),
)];

#[test]
fn lines_of_single_nodes(rt: HostRuntime) {
    expect_rows(&rt, Way::Simulation, CHOSEN);
    expect_rows(&rt, Way::Simulation, FAULTS);
    expect_rows(&rt, Way::Simulation, LATE);
}

/// A level is cleared that is not the level of node 2. If node 2 remembers erased levels, the clear removes the
/// sender's entry, and so the last downstream link, and a later update at that level is ignored. Otherwise the clear
/// removes nothing, and the update leads to a new level.
const CLEARED: &str = "node 2 links 1,3 dests 4\n1 up 1\n1 up 3\n\
    2 from 3 0102000000000004000000000000000000000000000000000000000100000003\n\
    3 from 1 0101000000000004\n4 from 3 0103000000000004000000000000000700000003\n4 show\n\
    5 from 3 010200000000000400000000000000070000000301000000ffffffff00000003\n5 show\n";

const CLEARED_REMEMBERED: &[Row] = &[(
    &[CLEARED],
    &[""],
    "send 0102000000000004000000000000000000000000000000000000000200000002\n\
    to 4 height - flag 0 hop -\nvia 1 - none\nvia 3 - none\n\
    to 4 height - flag 0 hop -\nvia 1 - none\nvia 3 - none\n",
    Ended::Whole,
)];

const CLEARED_PLAIN: &[Row] = &[(
    &[CLEARED],
    &[""],
    "send 0102000000000004000000000000000000000000000000000000000200000002\n\
    to 4 height (0,0,0,2,2) flag 0 hop 3\nvia 1 - none\nvia 3 (0,0,0,1,3) down\n\
    send 0102000000000004000000000000000800000002000000000000000000000002\n\
    to 4 height (8,2,0,0,2) flag 0 hop 3\nvia 1 - none\nvia 3 (7,3,1,-1,3) down\n",
    Ended::Whole,
)];

#[test]
fn replays_of_either_node(rt: HostRuntime) {
    expect_rows(&rt, Way::RememberedReplay, CLEARED_REMEMBERED);
    expect_rows(&rt, Way::Replay, CLEARED_PLAIN);
}
