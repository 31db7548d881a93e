//! A packet of the send queue.
ghost use Rattle.std.specs.Prelude.{◌≡◌, ◌<◌, ◌≤◌, ◌+◌, ◌^◌, IsTrue, MatchOption, is_some, option_map, ◌||◌, ℕ, Some};
ghost use Rattle.std.specs.Prelude.{IfSome};
ghost use Rattle.tora_arq.specs.SendQueue.{untried, retried, is_retry_time, is_ready, is_given_up};
ghost use Rattle.tora_arq.specs.NextDue.{has_begun, is_packet_due};

use crate::Times;
use crate::settings::{earlier, tick_behind, ticks_passed};
use tora_packet::Packet;

/// A packet that was submitted and is not acknowledged.
#[derive(Clone, Copy, Debug, PartialEq, Eq, Hash)]
pub struct QueuedPacket {
    pub packet: Packet,
    /// How many times it was transmitted.
    pub tries: u64,
    /// The tick at which it was transmitted last; 0 before the first time.
    pub last_try: u64,
}

impl QueuedPacket {
    /// A packet that was never transmitted.
    pub fn untried(packet: Packet) -> QueuedPacket
        ensures { result ≡ untried packet }
    {
        QueuedPacket {
            packet,
            tries: 0,
            last_try: 0,
        }
    }

    /// The packet after it was transmitted once more.
    pub fn retried(self, now: u64) -> QueuedPacket
        requires { self.tries + 1 < 2 ^ 64 }
        ensures { result ≡ retried self now }
    {
        QueuedPacket {
            packet: self.packet,
            tries: self.tries + 1,
            last_try: now,
        }
    }

    /// Whether `retry` ticks have passed since the last try.
    pub fn is_retry_time(&self, times: &Times, now: u64) -> bool
        ensures { result ≡ is_retry_time times.now now self.now }
    {
        ticks_passed(self.last_try, now) >= times.retry
    }

    /// Whether the packet is due: it was never transmitted, or fewer than `tries` times and the last time at least
    /// `retry` ticks ago.
    pub fn is_ready(&self, times: &Times, now: u64) -> bool
        ensures ready { result ≡ is_ready times.now now self.now }
        ensures room { IsTrue result → self.now.tries + 1 < 2 ^ 64 }
    {
        self.tries == 0 || (self.tries < times.tries && self.is_retry_time(times, now))
    }

    /// Whether the packet was transmitted `tries` times, the last time at least `retry` ticks ago.
    pub fn is_given_up(&self, times: &Times, now: u64) -> bool
        ensures { result ≡ is_given_up times.now now self.now }
    {
        self.tries >= times.tries && self.is_retry_time(times, now)
    }

    /// The first tick at which the packet is due or is given up: 0 if it was never transmitted; `None` if that tick
    /// does not fit into 64 bits.
    pub fn due_tick(&self, times: &Times) -> Option<u64>
        requires retry { 0 < times.now.retry }
        requires tries { 0 < times.now.tries }
        ensures { (tick : ℕ) → tick < 2 ^ 64 → has_begun result tick ≡ is_packet_due times.now tick self.now }
    {
        if self.tries == 0 {
            return Some(0);
        }
        tick_behind(self.last_try, times.retry)
    }
}
