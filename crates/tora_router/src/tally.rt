//! Counts of the datagrams of a neighbour, by outcome.
ghost use Rattle.std.specs.Prelude.{◌≡◌};
ghost use Rattle.tora_router.specs.Links.{first_tally, counted};

use crate::intake::Intake;
use tora_arq::Verdict;

/// How many datagrams of a neighbour had each verdict, and how many were not frames.
///
/// Each datagram of a neighbour adds 1 to exactly one of the counts. A count stops at 2^64 - 1.
#[derive(Clone, Copy, Debug, PartialEq, Eq)]
pub struct Tally {
    pub accepted: u64,
    pub repeated: u64,
    pub ahead: u64,
    pub stale: u64,
    pub foreign: u64,
    pub busy: u64,
    /// How many datagrams were not frames.
    pub bad: u64,
}

impl Tally {
    /// A tally of no datagram.
    pub(crate) fn new() -> Tally
        ensures { result ≡ first_tally }
    {
        Tally {
            accepted: 0,
            repeated: 0,
            ahead: 0,
            stale: 0,
            foreign: 0,
            busy: 0,
            bad: 0,
        }
    }

    /// Adds 1 to the count of frames with this verdict, at most 2^64 - 1.
    fn count_verdict(&mut self, verdict: Verdict)
        ensures { self.new ≡ counted (Intake.Seen verdict) self.old }
    {
        match verdict {
            Verdict::Accepted => self.accepted = self.accepted.saturating_add(1),
            Verdict::Repeated => self.repeated = self.repeated.saturating_add(1),
            Verdict::Ahead => self.ahead = self.ahead.saturating_add(1),
            Verdict::Stale => self.stale = self.stale.saturating_add(1),
            Verdict::Foreign => self.foreign = self.foreign.saturating_add(1),
            Verdict::Busy => self.busy = self.busy.saturating_add(1),
        }
    }

    /// Adds 1 to the count of a datagram's outcome, at most 2^64 - 1. `NoNeighbour` is not counted.
    pub(crate) fn count(&mut self, intake: Intake)
        ensures { self.new ≡ counted intake self.old }
    {
        match intake {
            Intake::NoNeighbour => {}
            Intake::Bad(_) => self.bad = self.bad.saturating_add(1),
            Intake::Seen(verdict) => self.count_verdict(verdict),
        }
    }
}
