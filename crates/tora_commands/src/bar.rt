//! `--progress` of `tora sim`: a bar on a terminal, drawn while the lines of the file are read.
ghost use Rattle.std.specs.Prelude.{◌≡◌};
ghost use Rattle.std.specs.Io.{ReadsAtMost};
ghost use Rattle.std.specs.Io.KnownBytes.{ReadConsumes};
ghost use Rattle.tora_lines.specs.Reads.{given_by};

use crate::progress::{Progress, RoundCount, within};
use std::alloc::Global;
use std::fmt::Display;
use std::io;
use std::time::Clock;
use tora_lines::Input;

/// The most bytes read at once: about a line or two, so that earlier lines are carried out before the next are read.
const PIECE: usize = 16;

/// The milliseconds between two drawings.
const PAUSE: u64 = 100;

/// The text that erases the line of a terminal.
const WIPE: &str = "\r\x1b[K";

/// The milliseconds of a clock; 0 if it cannot be read.
fn millis<T: Clock>(clock: &T) -> u64 {
    match clock.monotonic() {
        Ok(now) => u64::try_from(now.as_millis()).unwrap_or(0),
        Err(_) => 0,
    }
}

/// A runtime whose messages erase the bar first.
#[derive(Clone, Copy)]
pub struct Wiping<'a, T> {
    rt: &'a T,
}

impl<'a, T> Wiping<'a, T> {
    /// Messages to the standard error of this runtime.
    pub fn new(rt: &'a T) -> Wiping<'a, T> {
        Wiping { rt }
    }
}

impl<T: AllocGlobal> Alloc for Wiping<'_, T> {
    type A = Global;

    fn alloc(&self) -> Global {
        self.rt.alloc()
    }
}

impl<T: Eprint> Eprint for Wiping<'_, T> {
    fn eprint<D: Display + Drop>(&self, value: D) -> io::Result<()> {
        self.rt.eprint(WIPE)?;
        self.rt.eprint(value)
    }

    fn eprintln<D: Display + Drop>(&self, value: D) -> io::Result<()> {
        self.rt.eprint(WIPE)?;
        self.rt.eprintln(value)
    }
}

/// The bar of a simulation.
#[derive(Drop)]
struct Bar<'a, T> {
    rt: &'a T,
    count: RoundCount,
    /// The number of rounds after which the simulation stops; `None` if there is no such limit.
    until: Option<u64>,
    /// The number of rounds in all; `None` if it is not known.
    total: Option<u64>,
    /// The clock in milliseconds when the simulation began.
    begun: u64,
    /// The clock in milliseconds at the last drawing.
    drawn: u64,
}

impl<T: Eprint + Clock> Bar<'_, T> {
    /// Draws the progress at the clock `now`, in milliseconds.
    fn draw(&mut self, now: u64) {
        self.drawn = now;
        let progress = Progress {
            done: within(self.count.rounds, self.until),
            total: self.total,
            millis: now.saturating_sub(self.begun),
        };
        let wipe = WIPE;
        let _ = self.rt.eprint(format_args!("{wipe}{progress}"));
    }

    /// Draws the progress, if the last drawing was at least `PAUSE` ago.
    fn show(&mut self) {
        let now = millis(self.rt);
        if now.saturating_sub(self.drawn) >= PAUSE {
            self.draw(now);
        }
    }

    /// Draws the progress at the end of the file, and ends the line of the terminal.
    fn end(&mut self) {
        self.count.end_line();
        let now = millis(self.rt);
        self.draw(now);
        let _ = self.rt.eprintln("");
    }
}

/// Reads once, at most `PIECE` bytes, into the front of `buf`. Returns their count, which is 0 at the end of the input.
/// Errors of the reader are passed on.
fn read_piece<R: Input>(reader: &mut R, buf: &mut [u8]) -> io::Result<usize>
    ensures call { R.did_read reader.old (given_by result buf.new) reader.new }
    ensures bound { ReadsAtMost result buf.new }
    ensures bytes { ReadConsumes (R.remaining reader.old) (R.remaining reader.new) result buf.new }
{
    let most = buf.len().min(PIECE);
    let n = reader.get_some(&mut buf[..most])?;
    Ok(n)
}

/// Passes on what a reader gives, piece by piece, and draws the progress of the simulation.
#[derive(Drop)]
pub struct Paced<'a, T, R> {
    pub(crate) reader: R,
    bar: Bar<'a, T>,
}

impl<'a, T: Eprint + Clock, R> Paced<'a, T, R> {
    /// A bar before the first line. `total` is the number of rounds that the lines ask for, if it is known; no more
    /// than `until` are done.
    pub fn new(rt: &'a T, total: Option<u64>, until: Option<u64>, reader: R) -> Paced<'a, T, R>
        ensures { result.reader ≡ reader }
    {
        let begun = millis(rt);
        Paced {
            reader,
            bar: Bar {
                rt,
                count: RoundCount::new(),
                until,
                total: total.map(|rounds| within(rounds, until)),
                begun,
                drawn: begun,
            },
        }
    }
}

impl<T: Eprint + Clock, R: Input> Input for Paced<'_, T, R> {
    ghost remaining = { λ p. R.remaining p.reader };

    ghost did_read = { λ old given new. R.did_read old.reader given new.reader };

    fn get_some(&mut self, buf: &mut [u8]) -> io::Result<usize> {
        self.bar.show();
        let n = read_piece(&mut self.reader, buf)?;
        match buf.get(..n) {
            Some(given) if n > 0 => self.bar.count.take(given),
            _ => self.bar.end(),
        }
        Ok(n)
    }
}
