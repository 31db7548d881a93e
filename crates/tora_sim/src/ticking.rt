//! A tick of all link ends.
ghost use Rattle.std.specs.Prelude.{◌≡◌, ◌<◌, Some, length, map, slice_get, slice_set};
ghost use Rattle.tora_sim.specs.Links.{LinkView, ticked};
ghost use Rattle.tora_sim.specs.Quiet.{AreDeadlines};

use crate::deadlines::{Deadlines, end_count, next_due};
use crate::link_slot::LinkSlot;

/// Passes the tick `now` to every end whose deadline has come. It would change no other end.
pub fn tick(links: &mut Vec<LinkSlot>, deadlines: &Deadlines, now: u64)
    requires { AreDeadlines now deadlines.now links.old.items }
    ensures { links.new.items ≡ map (ticked now) links.old.items }
{
    let mut at = next_due(deadlines, now, 0);
    while at < end_count(deadlines) {
        tick_end(links, at, now);
        at = next_due(deadlines, now, at + 1);
    }
}

/// Passes the tick to the end at an index.
#[inline(always)]
fn tick_end(links: &mut Vec<LinkSlot>, at: usize, now: u64)
    requires { at < length links.old.items }
    ensures { (link : LinkView) → slice_get links.old.items at ≡ Some link
        → links.new.items ≡ slice_set links.old.items at (ticked now link) }
{
    links[at].tick(now);
}
