//! The deadline of each link end: the tick before which the end has nothing to do.
//!
//! Deadlines are stored in four bytes, and sixteen are compared at once. A later tick is stored as the greatest number
//! of four bytes. Therefore, when the clock is at 2^32 - 1 or later, the deadline of every end counts as come.
ghost use Rattle.std.specs.Prelude.{◌≡◌, ◌+◌, ◌<◌, ◌≤◌, ℕ, IfNone, IfSome, MatchResult, length, replicate, slice_index};
ghost use Rattle.std.specs.Prelude.{slice_set};
ghost use Rattle.tora_sim.specs.Quiet.{AreForgotten};
ghost use Rattle.tora_sim.specs.Deadlines.{AreLater, due_bits, short};

use crate::SimError;
use crate::due_bits::due_bits;
use std::alloc::Global;
use std::marker::Model;

/// The number of link ends whose deadlines are compared at once.
const SIXTEEN: usize = 16;

/// The deadline of each link end, in the order of the ends. A deadline that has come, such as 0, gives no information.
#[derive(Drop)]
pub struct Deadlines {
    ticks: Vec<u32>,
}

impl Model for Deadlines {
    ghost use Rattle.std.specs.Prelude.{ℕ, List};

    ghost Value = { List ℕ };

    ghost view = { λ s. s.ticks.items };
}

/// A tick in four bytes; a later tick becomes the greatest number of four bytes.
#[inline(always)]
pub fn short(tick: u64) -> u32
    ensures { result ≡ short tick }
{
    u32::try_from(tick).unwrap_or(u32::MAX)
}

/// Deadlines of `count` ends, all 0.
///
/// # Errors
/// `Memory`.
pub fn no_deadlines(alloc: Global, count: usize) -> Result<Deadlines, SimError>
    ensures { MatchResult result (λ deadlines. deadlines ≡ replicate count 0) (λ e. e ≡ SimError.Memory) }
{
    let mut ticks = Vec::new(alloc);
    match ticks.resize(count, 0) {
        Ok(()) => Ok(Deadlines { ticks }),
        Err(_) => Err(SimError::Memory),
    }
}

/// The number of ends.
#[inline(always)]
pub fn end_count(deadlines: &Deadlines) -> usize
    ensures { result ≡ length deadlines.now }
{
    deadlines.ticks.len()
}

/// The stored deadline of the end at an index; 2^32 - 1 stands for every later tick, too.
#[inline(always)]
pub fn deadline_at(deadlines: &Deadlines, at: usize) -> u64
    requires { at < length deadlines.now }
    ensures { result ≡ slice_index deadlines.now at }
{
    u64::from(deadlines.ticks[at])
}

/// Stores the deadline of an end.
#[inline(always)]
pub fn set_deadline(deadlines: &mut Deadlines, at: usize, until: u32)
    requires { at < length deadlines.old }
    ensures { deadlines.new ≡ slice_set deadlines.old at until }
{
    deadlines.ticks[at] = until;
}

/// Sets the deadlines of the `count` ends from the index `first` on to 0.
pub fn forget(deadlines: &mut Deadlines, first: usize, count: usize)
    requires { first + count ≤ length deadlines.old }
    ensures { AreForgotten deadlines.old deadlines.new first count }
{
    let _many = end_count(deadlines);
    for place in 0..count {
        let at = first + place;
        set_deadline(deadlines, at, 0);
    }
}

/// The first index from `place` on whose deadline has come. If there is none, the number of ends, or `place` if that is
/// greater.
#[inline(always)]
pub fn next_due(deadlines: &Deadlines, now: u64, place: usize) -> usize
    ensures onward { place ≤ result }
    ensures passed { (at : ℕ) → place ≤ at → at < result → now < slice_index deadlines.now at }
{
    let many = end_count(deadlines);
    if place >= many {
        return place;
    }
    if deadline_at(deadlines, place) <= now {
        return place;
    }
    let mut at = place;
    while many - at >= SIXTEEN {
        if let Some(due) = due_of_sixteen(deadlines, now, at) {
            return due;
        }
        at += SIXTEEN;
    }
    due_within(deadlines, now, at, many).unwrap_or(many)
}

/// A bit for each of the 16 ends from the index `first` on, the lowest for the first: it is set if the deadline has
/// come.
#[inline(always)]
fn dues_of(deadlines: &Deadlines, first: usize, now: u64) -> u16
    requires { first + 16 ≤ length deadlines.now }
    ensures { result ≡ due_bits now first deadlines.now }
{
    due_bits(deadlines.ticks.as_slice(), first, now)
}

/// The first of the 16 indexes from `from` on whose deadline has come; `None` if there is none. All are compared at
/// once.
#[inline(always)]
fn due_of_sixteen(deadlines: &Deadlines, now: u64, from: usize) -> Option<usize>
    requires { from + 16 ≤ length deadlines.now }
    ensures none { IfNone result (AreLater now from (from + 16) deadlines.now) }
    ensures onward { IfSome result (λ at. from ≤ at) }
    ensures passed { IfSome result (λ at. AreLater now from at deadlines.now) }
    ensures within { IfSome result (λ at. at < from + 16) }
{
    let _many = end_count(deadlines);
    let dues = dues_of(deadlines, from, now);
    if dues == 0 {
        None
    } else {
        Some(from + dues.trailing_zeros() as usize)
    }
}

/// The first index from `from` to below `to` whose deadline has come; `None` if there is none.
fn due_within(deadlines: &Deadlines, now: u64, from: usize, to: usize) -> Option<usize>
    requires { to ≤ length deadlines.now }
    ensures none { IfNone result (AreLater now from to deadlines.now) }
    ensures onward { IfSome result (λ at. from ≤ at) }
    ensures passed { IfSome result (λ at. AreLater now from at deadlines.now) }
    ensures within { IfSome result (λ at. at < to) }
{
    for at in from..to {
        if deadline_at(deadlines, at) <= now {
            return Some(at);
        }
    }
    None
}
