//! The new deadlines of the link ends whose deadline has come.
ghost use Rattle.std.specs.Prelude.{◌≡◌, ◌<◌, length};
ghost use Rattle.tora_sim.specs.Quiet.{AreDeadlines};

use crate::deadlines::{Deadlines, end_count, next_due, set_deadline, short};
use crate::link_slot::LinkSlot;

/// Stores the new deadline of each link end whose deadline has come.
pub fn look_at_ends(links: &Vec<LinkSlot>, deadlines: &mut Deadlines, now: u64)
    requires { AreDeadlines now deadlines.old links.now.items }
    ensures { AreDeadlines now deadlines.new links.now.items }
{
    let mut at = next_due(deadlines, now, 0);
    while at < end_count(deadlines) {
        look(links, deadlines, at, now);
        at = next_due(deadlines, now, at + 1);
    }
}

/// Stores the new deadline of the end at the index `place`.
#[inline(always)]
fn look(links: &Vec<LinkSlot>, deadlines: &mut Deadlines, place: usize, _now: u64)
    requires within { place < length deadlines.old }
    requires holds { AreDeadlines _now deadlines.old links.now.items }
    ensures many { length deadlines.new ≡ length deadlines.old }
    ensures holds { AreDeadlines _now deadlines.new links.now.items }
{
    let until = short(links[place].deadline());
    set_deadline(deadlines, place, until);
}
