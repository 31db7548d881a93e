//! The progress of a simulation: the number of rounds in its file, and the text of the bar.
use std::fmt::{self, Display, Formatter, Write};
use std::fs;
use std::io::Read;
use std::rt::Files;
use tora_script::{SimulationLine, simulation_line};

/// One byte more than the longest line `rounds R`: a line with this many stored bytes is not such a line.
const FRONT: usize = 13;

/// The most reads in which the rounds of a file are counted: 2^32.
const MOST_READS: u64 = 0x1_0000_0000;

/// How many rounds the lines of a simulation file ask for, counted while its bytes are read.
#[derive(Clone, Copy)]
pub struct RoundCount {
    /// The first bytes of the unfinished line.
    front: [u8; FRONT],
    /// How many of these bytes are stored.
    len: usize,
    /// The number of rounds in the finished lines.
    pub rounds: u64,
}

impl RoundCount {
    /// The count before the first byte.
    pub fn new() -> RoundCount {
        RoundCount {
            front: [0; FRONT],
            len: 0,
            rounds: 0,
        }
    }

    /// Ends the unfinished line, and adds its rounds if it is `rounds R`. The count stops at 2^64 - 1.
    pub fn end_line(&mut self) {
        let line = self.front.get(..self.len).unwrap_or(&[]);
        if let Some(SimulationLine::Rounds(count)) = simulation_line(line) {
            self.rounds = self.rounds.saturating_add(count);
        }
        self.len = 0;
    }

    /// Adds a byte to the unfinished line; bytes after the first `FRONT` are not stored.
    fn put(&mut self, byte: u8) {
        if self.len < FRONT {
            self.front[self.len] = byte;
            self.len += 1;
        }
    }

    /// Counts the rounds in further bytes.
    pub fn take(&mut self, bytes: &[u8]) {
        for byte in bytes {
            if *byte == b'\n' {
                self.end_line();
            } else {
                self.put(*byte);
            }
        }
    }
}

/// How many rounds the file at a path asks for. `None` if it cannot be read in `MOST_READS` reads, or is not a regular
/// file, which could not be read again.
pub(crate) fn rounds_of<T: Files>(rt: &T, path: &str) -> Option<u64> {
    let about = rt.metadata(path).ok()?;
    if !about.is_file() {
        return None;
    }
    let mut file = fs::open(rt, path).ok()?;
    let mut count = RoundCount::new();
    let mut chunk = [0u8; 8192];
    for _ in 0..MOST_READS {
        let n = file.read(&mut chunk).ok()?;
        if n == 0 {
            count.end_line();
            return Some(count.rounds);
        }
        count.take(chunk.get(..n)?);
    }
    None
}

/// The smaller one of `number` and `most`; `number` if `most` is `None`.
pub(crate) fn within(number: u64, most: Option<u64>) -> u64 {
    match most {
        None => number,
        Some(most) => number.min(most),
    }
}

/// The progress of a simulation.
#[derive(Clone, Copy, Debug, PartialEq, Eq)]
pub struct Progress {
    /// The rounds that are done.
    pub done: u64,
    /// The number of rounds in all; `None` if it is not known.
    pub total: Option<u64>,
    /// The milliseconds since it began.
    pub millis: u64,
}

/// The bars for 0 to 9 tenths of the rounds.
const BARS: &[&str] = &[
    "[          ]",
    "[#         ]",
    "[##        ]",
    "[###       ]",
    "[####      ]",
    "[#####     ]",
    "[######    ]",
    "[#######   ]",
    "[########  ]",
    "[######### ]",
];

/// The bar of all tenths.
const WHOLE: &str = "[##########]";

impl Progress {
    /// The rounds per second, rounded down; 0 if no millisecond has passed.
    fn rate(&self) -> u64 {
        let thousandths = self.done.saturating_mul(1000);
        thousandths.checked_div(self.millis).unwrap_or(0)
    }

    /// The bar for `done` of `total` rounds; the whole bar if `total` is 0.
    fn bar(&self, total: u64) -> &'static str {
        let tenths = self.done.saturating_mul(10).checked_div(total);
        match tenths {
            Some(tenths) if tenths < 10 => BARS.get(tenths as usize).copied().unwrap_or(WHOLE),
            _ => WHOLE,
        }
    }

    /// The seconds until the end, rounded up, if each remaining round takes as long as those done. `None` if none is
    /// done.
    fn left(&self, total: u64) -> Option<u64> {
        let rest = total.saturating_sub(self.done);
        let millis = rest.saturating_mul(self.millis).checked_div(self.done)?;
        Some(millis.saturating_add(999) / 1000)
    }
}

impl Display for Progress {
    fn fmt<W: Write>(&self, f: &mut Formatter<W>) -> fmt::Result {
        let (done, rate) = (self.done, self.rate());
        match self.total {
            None => write!(f, "{done} rounds, {rate} a second"),
            Some(total) => {
                let bar = self.bar(total);
                write!(f, "{bar} {done} of {total} rounds, {rate} a second")?;
                match self.left(total) {
                    None => Ok(()),
                    Some(left) => write!(f, ", {left} s left"),
                }
            }
        }
    }
}
