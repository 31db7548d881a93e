//! How a node treats erased reference levels.
ghost use Rattle.std.specs.Prelude.{◌≡◌};
ghost use Rattle.tora_core.specs.Rules.{erased_after, hearing_clear, is_outdated, is_outdated_by};

use crate::destination::Destination;
use crate::rows::is_at;
use tora_height::{Height, Id, Level};

/// How a node treats erased reference levels, for all its destinations.
#[derive(Clone, Copy, Debug, Default, PartialEq, Eq, Hash)]
pub enum Erasure {
    /// No level is remembered: an update replaces its sender's entry whatever its level is.
    #[default]
    Plain,
    /// The level of the last clear, sent or received, is remembered. A clear also removes its sender's entry and mark,
    /// and an update at the remembered level removes its sender's entry instead of replacing it; an entry of the
    /// destination itself stays.
    Remembered,
}

/// The remembered level after a clear of `level` was sent or received: `level` under `Remembered`; `old` under `Plain`.
pub fn erased_after(erasure: Erasure, old: Option<Level>, level: Level) -> Option<Level>
    ensures { result ≡ erased_after erasure old level }
{
    match erasure {
        Erasure::Plain => old,
        Erasure::Remembered => Some(level),
    }
}

/// Whether an update with this height counts as older than the clear of its level: its level is the remembered one.
/// Always `false` under `Plain`.
fn is_outdated(erasure: Erasure, erased: Option<Level>, height: Height) -> bool
    ensures { result ≡ is_outdated_by erasure erased height }
{
    match erasure {
        Erasure::Plain => false,
        Erasure::Remembered => match erased {
            None => false,
            Some(level) => is_at(level, height),
        },
    }
}

impl Destination {
    /// Whether an update with this height counts as older than the clear of its level: its level is the remembered one.
    /// Always `false` under `Plain`.
    pub(crate) fn is_outdated(&self, height: Height) -> bool
        ensures { result ≡ is_outdated self.now.view height }
    {
        is_outdated(self.erasure, self.erased, height)
    }

    /// Notes a clear of a level from the neighbour `k`. Under `Remembered` it remembers the level, and removes the mark
    /// of `k` and, unless `k` is the destination, its entry: the sender of a clear has no height. Under `Plain` nothing
    /// changes.
    pub(crate) fn hear_clear(&mut self, k: Id, level: Level)
        ensures view { self.new.view ≡ hearing_clear self.old.view k level }
        ensures neighbours { self.new.neighbours ≡ self.old.neighbours }
    {
        self.erased = erased_after(self.erasure, self.erased, level);
        match self.erasure {
            Erasure::Plain => {}
            Erasure::Remembered => {
                self.links.withdraw(self.destination, k);
                self.links.untell(k);
            }
        }
    }
}
