//! The lines of a node's log.
use super::failing_streams::{ArrayWriter, Fails};
use super::sees::same_at;
use log::{LevelFilter, Log, Logged, debug, info, warn};
use std::cell::RefCell;
use std::fmt::Display;
use std::io::{Error, ErrorKind as IoErrorKind, Write};
use std::process::Abort;
use std::time::{Clock, Duration};
use std::{io, str};
use tora_commands::LogLines;

/// A standard error that stores its text, and a clock that does not advance, or cannot be read.
#[derive(Drop)]
pub struct Desk {
    told: RefCell<ArrayWriter>,
    now: Option<Duration>,
}

impl Desk {
    /// An empty text, and a clock that reads this many milliseconds since 1970; `None` for a clock that cannot be read.
    pub fn new(now: Option<u64>) -> Desk {
        Desk {
            told: RefCell::new(ArrayWriter::new(Fails::Never)),
            now: now.map(Duration::from_millis),
        }
    }

    /// The text that was written.
    pub fn into_told(self) -> ArrayWriter {
        self.told.into_inner()
    }

    /// Appends a value and `end` to the text. It fails if the array of the text is full, or the text is in use.
    fn tell<D: Display + Drop>(&self, value: D, end: &str) -> io::Result<()> {
        match self.told.try_borrow_mut() {
            Ok(mut told) => write!(told, "{value}{end}"),
            Err(_) => Err(Error::from(IoErrorKind::Other)),
        }
    }
}

impl Eprint for Desk {
    fn eprint<D: Display + Drop>(&self, value: D) -> io::Result<()> {
        self.tell(value, "")
    }

    fn eprintln<D: Display + Drop>(&self, value: D) -> io::Result<()> {
        self.tell(value, "\n")
    }
}

impl Clock for Desk {
    fn monotonic(&self) -> io::Result<Duration> {
        Ok(Duration::ZERO)
    }

    fn since_1970(&self) -> io::Result<Duration> {
        self.now.ok_or(Error::from(IoErrorKind::Other))
    }
}

/// Logs three records: `one` as a warning, `link 2 up` as information, and `three` for debugging.
fn log_three<L: Log>(log: &L) {
    warn!(log; target: "a", "one");
    info!(log; target: "a", "link {} up", 2);
    debug!(log; target: "a", "three");
}

/// The reading of the clock in milliseconds since 1970 (`None`: it cannot be read), whether lines have the time, the
/// most detailed level that is logged, and the text.
type Row = (Option<u64>, bool, LevelFilter, &'static str);

const ROWS: &[Row] = &[
    (
        Some(1_795_618_802_125),
        true,
        LevelFilter::Info,
        "2026-11-25T15:00:02.125Z [WARN  a] one\n2026-11-25T15:00:02.125Z [INFO  a] link 2 up\n",
    ),
    (
        Some(0),
        true,
        LevelFilter::Warn,
        "1970-01-01T00:00:00.000Z [WARN  a] one\n",
    ),
    (
        Some(1_795_618_802_000),
        false,
        LevelFilter::Trace,
        "[WARN  a] one\n[INFO  a] link 2 up\n[DEBUG a] three\n",
    ),
    (None, true, LevelFilter::Warn, "[WARN  a] one\n"),
    (Some(0), true, LevelFilter::Off, ""),
];

/// Logs the three records of `log_three` as a row says, and checks the text.
fn expect_lines<T: Abort>(rt: &T, row: &Row) {
    let (now, has_time, level, wanted) = *row;
    let desk = Desk::new(now);
    log_three(&Logged::new(&desk, level, LogLines::new(&desk, has_time)));
    let told = desk.into_told();
    same_at(rt, &str::from_utf8(told.text()).unwrap_or(""), &wanted, row);
}

/// Lines have their level and module, and the time if it is requested and the clock can be read.
#[test]
fn log_lines_have_levels_and_times(rt: HostRuntime) {
    for row in ROWS {
        expect_lines(&rt, row);
    }
}
