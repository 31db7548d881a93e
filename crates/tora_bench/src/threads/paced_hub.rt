//! The hubs of the two ends of the timed link.
ghost use Rattle.std.specs.Prelude.{◌≡◌};

use std::sync::Wait;
use std::sync::atomic::{AtomicU64, Ordering};
use std::time::{Clock, Instant};
use tora_lane::{Cargo, Gone, What};
use tora_neighbour::{Hub, ListHub};

/// How many packets the sender may be ahead of the delivered ones; its queue holds 256.
const MOST_AHEAD: u64 = 200;

/// What the two ends share.
#[derive(Drop)]
pub struct Course {
    /// The moment from which times are counted.
    pub base: Instant,
    /// How many packets are to be delivered.
    pub count: u64,
    /// How many were delivered.
    pub delivered: AtomicU64,
    /// Nanoseconds from `base` to the first packet that was submitted.
    pub began: AtomicU64,
    /// Nanoseconds from `base` to the last packet that was delivered.
    pub ended: AtomicU64,
}

impl Course {
    /// Nanoseconds from `base` to now; 0 if the clock cannot be read.
    fn passed<C: Clock>(&self, clock: &C) -> u64 {
        match self.base.elapsed(clock) {
            Ok(passed) => u64::try_from(passed.as_nanos()).unwrap_or(0),
            Err(_) => 0,
        }
    }

    /// Whether every packet was delivered.
    fn is_over(&self) -> bool {
        self.delivered.load(Ordering::SeqCst) >= self.count
    }
}

/// A hub that gives its end outbound messages once the session has begun, while fewer than `MOST_AHEAD` are
/// undelivered, and that returns `Gone` once all were delivered or its list has no room for an item.
#[derive(Drop)]
pub struct PacedHub<'a, C> {
    /// The outbound messages to give, and the items that were put.
    pub list: ListHub,
    /// What both ends share.
    pub course: &'a Course,
    /// The clock of the machine.
    pub clock: &'a C,
    /// Whether the link is up.
    pub is_up: bool,
    /// How many outbound messages were given.
    pub given: u64,
    /// Whether `Gone` was returned.
    pub over: bool,
}

impl<C: Clock> PacedHub<'_, C> {
    /// Records from an item that was put that the link is up, or that a packet was delivered, and when the last one
    /// was.
    fn note(&mut self, what: &What)
        ensures list { self.new.list ≡ self.old.list }
        ensures over { self.new.over ≡ self.old.over }
    {
        match what {
            What::Up(_) => self.is_up = true,
            What::Packet(_, _) => {
                let before = self.course.delivered.fetch_add(1, Ordering::SeqCst);
                if before.wrapping_add(1) == self.course.count {
                    let passed = self.course.passed(self.clock);
                    self.course.ended.store(passed, Ordering::SeqCst);
                }
            }
            _ => {}
        }
    }

    /// Whether the next outbound message may be given: the link is up, and fewer than `MOST_AHEAD` are undelivered.
    fn may_give(&self) -> bool {
        let delivered = self.course.delivered.load(Ordering::SeqCst);
        self.is_up && self.given < delivered.saturating_add(MOST_AHEAD)
    }
}

impl<C: Clock> Hub for PacedHub<'_, C> {
    ghost puts = { λ h. h.list.puts };

    ghost takes = { λ h. h.list.takes };

    ghost gone = { λ h. h.over };

    ghost did_put = { λ h now what answer after. Unit {0} };

    ghost did_take = { λ h answer after. Unit {0} };

    fn put<R: Wait>(&mut self, rt: &R, now: u64, what: What) -> Result<(), Gone> {
        if self.course.is_over() {
            self.over = true;
            return Err(Gone);
        }
        match self.list.put(rt, now, what) {
            Ok(()) => {
                self.note(&what);
                Ok(())
            }
            Err(gone) => {
                self.over = true;
                Err(gone)
            }
        }
    }

    fn take<R: Wait>(&mut self, rt: &R) -> Option<Cargo> {
        if !self.may_give() {
            return None;
        }
        if self.given == 0 {
            let passed = self.course.passed(self.clock);
            self.course.began.store(passed, Ordering::SeqCst);
        }
        self.given = self.given.saturating_add(1);
        self.list.take(rt)
    }
}
