//! Turns of a node's core.
ghost use Rattle.std.specs.Prelude.{◌≡◌, ◌+◌, ◌<◌, ◌≤◌, length};
ghost use Rattle.tora_sim.specs.Lane.{AreWhole};
ghost use Rattle.tora_sim.specs.Lanes.{bare_between, AreOthersKept, HaveRoom};
ghost use Rattle.tora_sim.specs.Quiet.{AreForgottenWhere, IsForgottenWhere};
ghost use Rattle.tora_sim.specs.Taking.{AreTaken, TakesItems};
ghost use Rattle.tora_sim.specs.Turns.{Turns};

use crate::SimError;
use crate::deadlines::{Deadlines, set_deadline};
use crate::lanes::{NodeLanes, make_room};
use crate::link_slot::LinkSlot;
use crate::nodes::NodeSlot;
use crate::store::Pool;
use std::mem;
use tora_core::Sends;
use tora_seat::offers_are_their_own_answers;

/// Serves the first item of a node's queue. The node's link ends must have memory for all that the item can put.
///
/// # Errors
/// `Memory`. Nothing changes then.
pub fn turn(
    node: &mut NodeSlot,
    links: &mut Vec<LinkSlot>,
    pool: &mut Pool,
    sends: &mut Sends,
) -> Result<(), SimError>
    requires within { node.old.first + node.old.count ≤ length links.old.items }
    requires room { HaveRoom links.old.items node.old.first node.old.count }
    requires whole { AreWhole pool.old node.old.count }
    requires waits { 0 < length node.old.items }
    requires neighbours { length node.old.seat.core.neighbours ≡ node.old.count }
    ensures turned { Turns node.old (bare_between node.old.first node.old.count links.old.items) result node.new
        (bare_between node.old.first node.old.count links.new.items) }
    ensures others { AreOthersKept links.old.items links.new.items node.old.first node.old.count }
{
    let alloc = *links.allocator();
    let ends = mem::replace(links, Vec::new(alloc));
    let lists = mem::replace(pool, Pool::new(alloc));
    let mut lanes = NodeLanes::new(ends, node.first(), node.count(), lists);
    match node.serve(sends, &mut lanes) {
        Ok(item) => {
            offers_are_their_own_answers();
            *links = lanes.into_links(item.seat, node.stepped(), pool);
            Ok(())
        }
        Err(error) => {
            *links = lanes.into_links(0, None, pool);
            Err(error)
        }
    }
}

/// Serves the items of a node's queue until none waits, at most `most`, and returns whether any was served. Before each
/// item, memory is allocated for all that it can put.
///
/// # Errors
/// `Memory`. The earlier items were served.
pub fn take_items(
    node: &mut NodeSlot,
    links: &mut Vec<LinkSlot>,
    pool: &mut Pool,
    sends: &mut Sends,
    most: u64,
) -> Result<bool, SimError>
    requires within { node.old.first + node.old.count ≤ length links.old.items }
    requires neighbours { length node.old.seat.core.neighbours ≡ node.old.count }
    ensures taken { AreTaken node.old links.old.items node.new links.new.items }
    ensures items { TakesItems most node.old links.old.items result node.new links.new.items }
{
    let mut some = false;
    for _ in 0..most {
        if node.waiting() == 0 {
            return Ok(some);
        }
        let (first, count) = (node.first(), node.count());
        match make_room(links, pool, first, count) {
            Ok(()) => {}
            Err(error) => return Err(error),
        }
        match turn(node, links, pool, sends) {
            Ok(()) => some = true,
            Err(error) => return Err(error),
        }
    }
    Ok(some)
}

/// Sets the deadline to 0 where an outbound message waits, for the `count` link ends from the index `first` on. The
/// other deadlines stay, because a turn changes only outbound queues and the records of packets taken.
pub fn forget_waiting(links: &Vec<LinkSlot>, deadlines: &mut Deadlines, first: usize, count: usize)
    requires within { first + count ≤ length links.now.items }
    requires deadlines { length deadlines.old ≡ length links.now.items }
    ensures { AreForgottenWhere links.now.items deadlines.old deadlines.new first count }
{
    for place in 0..count {
        let at = first + place;
        forget_if_waiting(links, deadlines, at);
    }
}

/// `forget_waiting` for the link end at the index `at`.
#[inline(always)]
fn forget_if_waiting(links: &Vec<LinkSlot>, deadlines: &mut Deadlines, at: usize)
    requires within { at < length links.now.items }
    requires deadlines { at < length deadlines.old }
    ensures { IsForgottenWhere links.now.items deadlines.old deadlines.new at }
{
    if !links[at].has_cargo() {
        return;
    }
    set_deadline(deadlines, at, 0);
}
