//! The bar of a simulation: its texts, the rounds of a file, and when it is drawn.
use super::failing_streams::{ArrayWriter, Fails, LinesReader};
use super::sees::same_at;
use std::cell::{Cell, RefCell};
use std::fmt::{Debug, Display};
use std::io::{Error, ErrorKind as IoErrorKind, Write};
use std::process::Abort;
use std::time::{Clock, Duration};
use std::{io, str};
use tora_commands::{Paced, Progress, RoundCount, Wiping};
use tora_lines::Input;

/// A terminal that stores its text, and a clock that advances by `step` milliseconds at each reading.
#[derive(Drop)]
struct Terminal {
    told: RefCell<ArrayWriter>,
    now: Cell<u64>,
    step: u64,
}

impl Terminal {
    /// A terminal with an empty text, whose clock advances by `step` milliseconds at each reading.
    fn new(step: u64) -> Terminal {
        Terminal {
            told: RefCell::new(ArrayWriter::new(Fails::Never)),
            now: Cell::new(1000),
            step,
        }
    }

    /// Appends a value and `end` to the text. It fails if the array of the text is full, or the text is in use.
    fn tell<D: Display + Drop>(&self, value: D, end: &str) -> io::Result<()> {
        match self.told.try_borrow_mut() {
            Ok(mut told) => write!(told, "{value}{end}"),
            Err(_) => Err(Error::from(IoErrorKind::Other)),
        }
    }
}

impl Eprint for Terminal {
    fn eprint<D: Display + Drop>(&self, value: D) -> io::Result<()> {
        self.tell(value, "")
    }

    fn eprintln<D: Display + Drop>(&self, value: D) -> io::Result<()> {
        self.tell(value, "\n")
    }
}

impl Clock for Terminal {
    fn monotonic(&self) -> io::Result<Duration> {
        self.now.set(self.now.get().saturating_add(self.step));
        Ok(Duration::from_millis(self.now.get()))
    }

    fn since_1970(&self) -> io::Result<Duration> {
        Ok(Duration::ZERO)
    }
}

/// Checks that the text of a terminal is `wanted`; `place` names the case.
fn expect_told<T: Abort, P: Debug>(rt: &T, terminal: Terminal, wanted: &str, place: &P) {
    let told = terminal.told.into_inner();
    same_at(
        rt,
        &str::from_utf8(told.text()).unwrap_or(""),
        &wanted,
        place,
    );
}

/// Rounds done, rounds in all (`None`: not known), milliseconds so far, and the text for them.
const TEXTS: &[((u64, Option<u64>, u64), &str)] = &[
    (
        (0, Some(100), 0),
        "[          ] 0 of 100 rounds, 0 a second",
    ),
    (
        (0, Some(100), 500),
        "[          ] 0 of 100 rounds, 0 a second",
    ),
    (
        (9, Some(100), 1000),
        "[          ] 9 of 100 rounds, 9 a second, 11 s left",
    ),
    (
        (10, Some(100), 4000),
        "[#         ] 10 of 100 rounds, 2 a second, 36 s left",
    ),
    (
        (50, Some(100), 1),
        "[#####     ] 50 of 100 rounds, 50000 a second, 1 s left",
    ),
    (
        (99, Some(100), 1000),
        "[######### ] 99 of 100 rounds, 99 a second, 1 s left",
    ),
    (
        (100, Some(100), 1000),
        "[##########] 100 of 100 rounds, 100 a second, 0 s left",
    ),
    (
        (101, Some(100), 1000),
        "[##########] 101 of 100 rounds, 101 a second, 0 s left",
    ),
    ((0, Some(0), 10), "[##########] 0 of 0 rounds, 0 a second"),
    ((7, None, 2000), "7 rounds, 3 a second"),
];

/// The bar has a mark for each tenth of the rounds, and the remaining seconds are computed from the time of the rounds
/// so far. If the rounds in all are not known, there is neither.
#[test]
fn texts_of_a_bar(rt: HostRuntime) {
    for ((done, total, millis), wanted) in TEXTS {
        let progress = Progress {
            done: *done,
            total: *total,
            millis: *millis,
        };
        let terminal = Terminal::new(0);
        let _ = terminal.eprint(progress);
        expect_told(&rt, terminal, *wanted, wanted);
    }
}

/// Texts of lines, and how many rounds they request.
const COUNTS: &[(&str, u64)] = &[
    ("", 0),
    ("rounds 5", 5),
    ("rounds 5\n", 5),
    (
        "dests 2\nlink 1 2\nrounds 10\nneed 1 2\nrounds 10000\n",
        10_010,
    ),
    (
        "rounds 10001\nrounds 01\nrounds\nrounds 5 \nrounds 1000000000\n xrounds 5\n\nrounds 7\n",
        7,
    ),
];

/// Only valid lines `rounds R` count, with R at most 10,000; also a last one without LF.
#[test]
fn rounds_of_lines(rt: HostRuntime) {
    for (text, wanted) in COUNTS {
        let mut count = RoundCount::new();
        count.take(text.as_bytes());
        count.end_line();
        same_at(&rt, &count.rounds, wanted, text);
    }
}

/// Reads from a reader until its end or its first error, at most 64 times.
fn read_all<R: Input>(reader: &mut R) {
    let mut bytes = [0u8; 64];
    for _ in 0..64u64 {
        match reader.get_some(&mut bytes) {
            Ok(n) if n > 0 => {}
            _ => return,
        }
    }
}

const FILE: &str = "dests 2\nlink 1 2\nrounds 10\nheights 2\nrounds 30\nheights 2\n";

/// The milliseconds between two readings of the clock, the rounds of `FILE` (`None`: not known), the last round
/// (`None`: no limit), and what is drawn.
const DRAWN: &[(u64, Option<u64>, Option<u64>, &str)] = &[
    (
        1,
        Some(40),
        None,
        "\r\x1b[K[##########] 40 of 40 rounds, 6666 a second, 0 s left\n",
    ),
    (
        100,
        Some(40),
        None,
        "\r\x1b[K[          ] 0 of 40 rounds, 0 a second\
        \r\x1b[K[          ] 0 of 40 rounds, 0 a second\
        \r\x1b[K[##        ] 10 of 40 rounds, 33 a second, 1 s left\
        \r\x1b[K[##########] 40 of 40 rounds, 100 a second, 0 s left\
        \r\x1b[K[##########] 40 of 40 rounds, 80 a second, 0 s left\
        \r\x1b[K[##########] 40 of 40 rounds, 66 a second, 0 s left\n",
    ),
    (
        1,
        Some(40),
        Some(15),
        "\r\x1b[K[##########] 15 of 15 rounds, 2500 a second, 0 s left\n",
    ),
    (1, None, None, "\r\x1b[K40 rounds, 6666 a second\n"),
];

/// The bar is drawn at most each tenth of a second, for the lines that were read before, and once at the end of the
/// file.
#[test]
fn bars_are_drawn(rt: HostRuntime) {
    for (step, total, until, wanted) in DRAWN {
        let terminal = Terminal::new(*step);
        let reader = LinesReader::new((FILE, "", 0, ""));
        read_all(&mut Paced::new(&terminal, *total, *until, reader));
        expect_told(&rt, terminal, *wanted, wanted);
    }
}

/// A message erases the bar first.
#[test]
fn messages_take_the_place_of_a_bar(rt: HostRuntime) {
    let terminal = Terminal::new(0);
    let wiping = Wiping::new(&terminal);
    let _ = wiping.eprint("a");
    let _ = wiping.eprintln("b");
    expect_told(&rt, terminal, "\r\x1b[Ka\r\x1b[Kb\n", &"two messages");
}
