//! The tick until which a link end has nothing to do.
ghost use Rattle.std.specs.Prelude.{◌≡◌, ◌<◌, ◌≤◌, ℕ, false, nat_le, ◌||◌, is_some, drop};
ghost use Rattle.tora_arq.specs.EndRange.{AreUntried, IsEndState};
ghost use Rattle.tora_arq.specs.LinkEnd.{after_tick, frame_due, is_hello_due, is_old_hello_due};
ghost use Rattle.tora_arq.specs.NextDue.{is_due_in, has_begun};
ghost use Rattle.tora_arq.specs.SendQueue.{first_due, has_given_up};
ghost use Rattle.tora_arq.specs.Settings.{ticks_passed};
ghost use Rattle.tora_arq.specs.StateView.{settings_in, state_in};
ghost use Rattle.tora_arq.specs.Still.{last_tick, IsStillUntil};
ghost use Rattle.tora_arq.specs.declared.life.Life.{Life};

use crate::phase::Phase;
use crate::queue::SendQueue;
use crate::settings::Settings;
use crate::state::State;
use crate::{Times, WINDOW};

/// The tick that is `ticks` ticks after another one, at most 2^64 - 1.
fn tick_behind(earlier: u64, ticks: u64) -> u64
    requires { 0 < ticks }
    ensures { (tick : ℕ) → tick < last_tick → nat_le result tick ≡ nat_le ticks (ticks_passed earlier tick) }
{
    earlier.saturating_add(ticks)
}

/// The earlier one of two ticks, where `None` means never.
fn earliest(first: u64, other: Option<u64>) -> u64
    ensures { (tick : ℕ) → nat_le result tick ≡ nat_le first tick || has_begun other tick }
{
    match other {
        Some(other) => first.min(other),
        None => first,
    }
}

impl SendQueue {
    /// The tick `first`, or the first tick at which a packet within the window is due or is given up, whichever is
    /// earlier. It reads at most a window of packets.
    #[inline(always)]
    fn deadline(&self, times: &Times, first: u64) -> u64
        requires retry { 0 < times.now.retry }
        requires tries { 0 < times.now.tries }
        requires untried { AreUntried (drop WINDOW self.now.items) }
        ensures { (most number tick : ℕ) → tick < last_tick → nat_le result tick
            ≡ nat_le first tick || (is_some (first_due times.now tick most number WINDOW self.now.items) || has_given_up
            times.now tick self.now.items) }
    {
        if self.len() == 0 {
            return first;
        }
        earliest(first, self.due_tick(times))
    }
}

impl State {
    /// Whether a HELLO is due whatever the tick is.
    fn owes_any_hello(&self) -> bool
        ensures { result ≡ self.now.owes_hello || is_old_hello_due (state_in self.now) }
    {
        self.owes_hello || (self.owes_old_hello && !self.speaks_two)
    }

    /// The first tick at which a HELLO is due: 0 if one is owed; 2^64 - 1 if no smaller tick is one.
    #[inline(always)]
    fn next_hello(&self, settings: &Settings) -> u64
        requires { 0 < settings.now.times.hello }
        ensures { (tick : ℕ) → tick < last_tick → nat_le result tick
            ≡ is_hello_due (settings_in settings.now) (state_in self.now) tick || is_old_hello_due (state_in self.now) }
    {
        if self.owes_any_hello() {
            return 0;
        }
        match self.last_hello {
            Some(last) => tick_behind(last, settings.times.hello),
            None => u64::MAX,
        }
    }

    /// The first tick at which a frame of a bound end is due, or its session times out: 0 if a frame is due whatever
    /// the tick is; 2^64 - 1 if no smaller tick is one.
    #[inline(always)]
    fn still_in_life(&self, settings: &Settings) -> u64
        requires { IsEndState (settings_in settings.now) (state_in self.now) }
        ensures { (life : Life) (tick : ℕ) → tick < last_tick → nat_le result tick
            ≡ is_due_in (settings_in settings.now) (state_in self.now) life tick }
    {
        if self.owes_ack {
            return 0;
        }
        let times = &settings.times;
        let silent = tick_behind(self.last_hearing, times.silent);
        let first = self.next_hello(settings).min(silent);
        self.queue.deadline(times, first)
    }

    /// Computes `deadline`.
    #[tactic(auto, unfolding(crate::specs::LinkEnd::on_transmit, crate::specs::LinkEnd::on_transmit_in, crate::specs::LinkEnd::after_tick))]
    #[inline(always)]
    fn due_from(&self, settings: &Settings) -> u64
        requires { IsEndState (settings_in settings.now) (state_in self.now) }
        ensures { IsStillUntil (settings_in settings.now) (state_in self.now) result }
    {
        match self.phase {
            Phase::Closed => u64::MAX,
            Phase::Unbound(_) => self.next_hello(settings),
            Phase::Bound(_) => self.still_in_life(settings),
        }
    }

    /// As `LinkEnd::deadline`.
    #[inline(always)]
    pub fn deadline(&self, settings: &Settings) -> u64
        requires { IsEndState (settings_in settings.now) (state_in self.now) }
        ensures exact { IsStillUntil (settings_in settings.now) (state_in self.now) result }
        ensures frames { (tick : ℕ) → tick < result → is_some (frame_due (settings_in settings.now) (state_in self.now)
            tick) ≡ false }
        ensures ticks { (tick : ℕ) → tick < result → after_tick (settings_in settings.now) (state_in self.now) tick
            ≡ state_in self.now }
    {
        self.due_from(settings)
    }
}
