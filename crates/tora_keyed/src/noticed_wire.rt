//! Log lines that report how many datagrams of a link were rejected. Each line names this module.
ghost use Rattle.std.specs.Prelude.{◌≡◌, None};
ghost use Rattle.tora_keyed.specs.Notices.{is_new, has_passed, is_told, after_count};

use log::{Log, info, warn};
use std::marker::Model;
use tora_height::Id;
use tora_neighbour::Clock;

/// The ticks in a minute, of 100 ms each.
const MINUTE: u64 = 600;

/// The log of the link to `peer`. It logs a count that differs from the last one logged, at most once a minute, or
/// sooner if the clock goes back.
#[derive(Drop)]
pub(crate) struct Notices<'a, C, L> {
    peer: Id,
    clock: C,
    log: &'a L,
    told: u64,
    last: Option<u64>,
}

impl<'a, C, L> Model for Notices<'a, C, L> {
    ghost use Rattle.tora_keyed.specs.Notices.{NoticesView};

    ghost Value = { NoticesView };

    ghost view = { λ n. record { told = n.told; last = n.last } };
}

impl<'a, C: Clock, L: Log> Notices<'a, C, L> {
    /// A log with no line yet; the last logged count is 0.
    pub(crate) fn new(peer: Id, clock: C, log: &'a L) -> Notices<'a, C, L>
        ensures { result ≡ record { told = 0; last = None } }
    {
        Notices {
            peer,
            clock,
            log,
            told: 0,
            last: None,
        }
    }

    /// Logs `count` as a warning if `is_told` says that it is due now.
    pub(crate) fn notice(&mut self, count: u64) {
        if !self.is_new(count) {
            return;
        }
        let now = self.clock.now();
        if self.is_told(count, now) {
            let peer = self.peer;
            warn!(self.log; "link {peer} unauthenticated datagrams {count}");
        }
    }

    /// Logs `count`, the last one of the link, in any case.
    pub(crate) fn close(&self, count: u64) {
        let peer = self.peer;
        info!(self.log; "link {peer} unauthenticated datagrams {count}");
    }

    /// Whether a count differs from the last one that was logged.
    fn is_new(&self, count: u64) -> bool
        ensures { result ≡ is_new self.now count }
    {
        count != self.told
    }

    /// Whether a count is due at this tick: it differs from the last one that was logged (0 at first), and there was no
    /// line yet, a minute has passed since the last line, or the clock has gone back. If so, it becomes the last one.
    fn is_told(&mut self, count: u64, now: u64) -> bool
        ensures told { result ≡ is_told self.old count now }
        ensures after { self.new ≡ after_count self.old count now }
    {
        if !self.is_new(count) || !has_passed(self.last, now) {
            return false;
        }
        self.told = count;
        self.last = Some(now);
        true
    }
}

/// Whether a minute has passed since the tick `last`, or the clock has gone back; true if there is no such tick.
fn has_passed(last: Option<u64>, now: u64) -> bool
    ensures { result ≡ has_passed last now }
{
    match last {
        None => true,
        Some(last) => now < last || now - last >= MINUTE,
    }
}
