//! Log lines on standard error, with the time if requested.
ghost use Rattle.std.specs.Prelude.{◌≡◌, true, [], Some};

use jiff::Timestamp;
use log::kv::Source;
use log::span::Spans;
use log::{Line, Log, Metadata, Record};
use std::fmt::Display;
use std::time::Clock;

/// Writes each record to the standard error of `R`, a line each; if a write fails, the line is lost.
///
/// With `has_time` each line begins with the time: in UTC, by RFC 3339, with thousandths of a second and a blank, such
/// as `2026-11-25T15:00:02.125Z `. If the clock cannot be read, or its time is outside the range of dates, the line has
/// no time. The rest of the line has the form of the crate `log`: `[INFO  tora_node::log_hub] link 2 up 5 9`.
#[derive(Clone, Copy, Debug, Drop)]
pub struct LogLines<R> {
    rt: R,
    has_time: bool,
}

impl<R> LogLines<R> {
    /// Lines to the standard error of `rt`.
    pub fn new(rt: R, has_time: bool) -> LogLines<R>
        ensures { result ≡ record { rt = rt; has_time = has_time } }
    {
        LogLines { rt, has_time }
    }
}

impl<R: Eprint + Clock> LogLines<R> {
    /// The time to write before a line; `None` if no time is wanted, or the clock gives none.
    fn time(&self) -> Option<Timestamp> {
        if self.has_time {
            Timestamp::now(&self.rt).ok()
        } else {
            None
        }
    }
}

impl<R: Eprint + Clock> Log for LogLines<R> {
    ghost enables = { λ _ _ _. Some true };

    ghost target_of = { λ _. Some [] };

    fn enabled(&self, _metadata: &Metadata<'_>) -> bool {
        true
    }

    fn log<D: Display, K: Source, S: Spans>(&self, entry: &Record<'_, D, K, S>) {
        let line = Line::new(entry);
        let _ = match self.time() {
            Some(time) => self.rt.eprintln(format_args!("{time:.3} {line}")),
            None => self.rt.eprintln(line),
        };
    }

    fn flush(&self) {}

    fn target(&self) -> &str {
        ""
    }
}
