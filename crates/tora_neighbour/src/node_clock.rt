//! The clock of a node, which returns the last tick once its core has ended.
ghost use Rattle.std.specs.Prelude.{◌≡◌, ◌≤◌, ◌⊎◌, ◌-◌, ◌^◌};
ghost use Rattle.std.specs.Duration.{as_nanos};
ghost use Rattle.tora_neighbour.specs.SystemTicks.{IsTickRead};

use crate::clock::{Clock, SystemClock, TICK, tick_of};
use std::sync::atomic::{AtomicBool, Ordering};
use std::time::{Duration, UNIX_EPOCH};

/// The milliseconds until the next tick, from 1 to 100, at a moment in milliseconds.
fn rest_of_tick(moment: u128) -> u64
    ensures { result ≤ TICK }
{
    (TICK - moment % TICK) as u64
}

/// The clock of a node: Unix time in ticks of 100 ms (0 if it cannot be read or is before 1970), and the last tick,
/// 2^64 - 1, once the core has ended.
///
/// A link's thread ends when a put is refused because the core takes no more items. At the last tick a beat is due, so
/// the thread's next turn is its last one. All threads of a node share the clock by reference, and each reference is a
/// clock. Contracts see that each tick is the last tick or that of a reading of the system's clock, but not which of
/// the two, because another thread reports the core's end.
#[derive(Drop)]
pub struct NodeClock<R> {
    rt: R,
    has_ended: AtomicBool,
}

impl<R: SystemClock> NodeClock<R> {
    /// A clock that reads the time through this runtime, for a node whose core has not ended.
    pub fn new(rt: R) -> NodeClock<R> {
        NodeClock {
            rt,
            has_ended: AtomicBool::new(false),
        }
    }

    /// Notes that the core has ended: from now on the clock returns the last tick.
    pub fn end(&self) {
        self.has_ended.store(true, Ordering::SeqCst);
    }

    /// The time until the next tick begins: at most 100 ms; 100 ms if the time cannot be read or is before 1970; 0 once
    /// the core has ended.
    pub fn until_next_tick(&self) -> Duration
        ensures { as_nanos result ≤ 100_000_000 }
    {
        if self.has_ended.load(Ordering::SeqCst) {
            return Duration::ZERO;
        }
        let Ok(time) = self.rt.read_clock() else {
            return Duration::from_millis(TICK as u64);
        };
        match time.duration_since(UNIX_EPOCH) {
            Ok(since) => Duration::from_millis(rest_of_tick(since.as_millis())),
            Err(_) => Duration::from_millis(TICK as u64),
        }
    }
}

impl<R: SystemClock> Clock for &NodeClock<R> {
    ghost did_tell = { λ c tick after. ((tick ≡ 2 ^ 64 - 1) ⊎ IsTickRead (R.did_read c.now.rt) tick) × (after ≡ c) };

    fn now(&mut self) -> u64 {
        if self.has_ended.load(Ordering::SeqCst) {
            return u64::MAX;
        }
        tick_of(self.rt.read_clock())
    }
}
