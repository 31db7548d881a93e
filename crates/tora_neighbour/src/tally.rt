//! Counts of the received datagrams of a link.
ghost use Rattle.std.specs.Prelude.{◌≡◌};
ghost use Rattle.tora_neighbour.specs.Tally.{first_tally, with_verdict, with_fault, counted, count_of_verdict};
ghost use Rattle.tora_neighbour.specs.Tally.{count_of_fault};

use crate::intake::Intake;
use tora_arq::Verdict;
use tora_frame::FrameError;

/// Counts of a link's received datagrams: one count for each verdict, and one for each error of bytes that are not a
/// frame.
///
/// Each datagram that is passed to `take_in` adds 1 to exactly one count. A count stops at 2^64 - 1.
#[derive(Clone, Copy, Debug, PartialEq, Eq, Hash)]
pub struct Tally {
    accepted: u64,
    repeated: u64,
    ahead: u64,
    stale: u64,
    foreign: u64,
    busy: u64,
    short: u64,
    long: u64,
    version: u64,
    kind: u64,
    length: u64,
    id: u64,
    life: u64,
    number: u64,
    packet: u64,
    count: u64,
}

/// A tally whose counts are all 0.
impl Default for Tally {
    ghost use Rattle.std.specs.Prelude.{◌≡◌};
    ghost use Rattle.tora_neighbour.specs.Tally.{first_tally};

    ghost is_default = { λ t. t ≡ first_tally };

    fn default() -> Tally {
        Tally::new()
    }
}

impl Tally {
    /// A tally whose counts are all 0.
    pub fn new() -> Tally
        ensures { result ≡ first_tally }
    {
        Tally {
            accepted: 0,
            repeated: 0,
            ahead: 0,
            stale: 0,
            foreign: 0,
            busy: 0,
            short: 0,
            long: 0,
            version: 0,
            kind: 0,
            length: 0,
            id: 0,
            life: 0,
            number: 0,
            packet: 0,
            count: 0,
        }
    }

    /// The number of frames with this verdict, at most 2^64 - 1.
    pub fn of_verdict(&self, verdict: Verdict) -> u64
        ensures { result ≡ count_of_verdict verdict self.now }
    {
        match verdict {
            Verdict::Accepted => self.accepted,
            Verdict::Repeated => self.repeated,
            Verdict::Ahead => self.ahead,
            Verdict::Stale => self.stale,
            Verdict::Foreign => self.foreign,
            Verdict::Busy => self.busy,
        }
    }

    /// The number of datagrams that were not a frame because of the error with this number (`FrameError::number`, 1 to
    /// 10), at most 2^64 - 1. It is 0 for any other number.
    pub fn of_bad(&self, n: u8) -> u64
        ensures { result ≡ count_of_fault n self.now }
    {
        match n {
            1 => self.short,
            2 => self.long,
            3 => self.version,
            4 => self.kind,
            5 => self.length,
            6 => self.id,
            7 => self.life,
            8 => self.number,
            9 => self.packet,
            10 => self.count,
            _ => 0,
        }
    }

    /// Adds 1 to the count of frames with this verdict, at most 2^64 - 1.
    fn add_verdict(&mut self, verdict: Verdict)
        ensures { self.new ≡ with_verdict verdict self.old }
    {
        match verdict {
            Verdict::Accepted => self.accepted = self.accepted.saturating_add(1),
            Verdict::Repeated => self.repeated = self.repeated.saturating_add(1),
            Verdict::Ahead => self.ahead = self.ahead.saturating_add(1),
            Verdict::Stale => self.stale = self.stale.saturating_add(1),
            Verdict::Foreign => self.foreign = self.foreign.saturating_add(1),
            Verdict::Busy => self.busy = self.busy.saturating_add(1),
        }
    }

    /// Adds 1 to the count of datagrams with this error, at most 2^64 - 1. All errors of a packet have one count.
    fn add_fault(&mut self, error: FrameError)
        ensures { self.new ≡ with_fault error self.old }
    {
        match error {
            FrameError::Short => self.short = self.short.saturating_add(1),
            FrameError::Long => self.long = self.long.saturating_add(1),
            FrameError::Version => self.version = self.version.saturating_add(1),
            FrameError::Kind => self.kind = self.kind.saturating_add(1),
            FrameError::Length => self.length = self.length.saturating_add(1),
            FrameError::Id => self.id = self.id.saturating_add(1),
            FrameError::Life => self.life = self.life.saturating_add(1),
            FrameError::Number => self.number = self.number.saturating_add(1),
            FrameError::Packet(_) => self.packet = self.packet.saturating_add(1),
            FrameError::Count => self.count = self.count.saturating_add(1),
        }
    }

    /// Counts the result of passing a datagram to the end.
    pub(crate) fn add(&mut self, intake: Intake)
        ensures { self.new ≡ counted intake self.old }
    {
        match intake {
            Intake::Bad(error) => self.add_fault(error),
            Intake::Seen(verdict) => self.add_verdict(verdict),
        }
    }
}
