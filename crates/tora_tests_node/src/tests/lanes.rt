//! The queues (lanes) of a node, used by one thread and by many.
ghost use Rattle.std.specs.Prelude.{◌≡◌};

use super::sees::{same, same_at, sees, sees_at, there};
use std::alloc::Global;
use std::process::Abort;
use std::sync::Wait;
use std::test::Fail;
use tora_arq::Life;
use tora_lane::*;

mod documented;
mod most_links;
mod threads;
mod two_links;

/// An outbound message that the tests recognize by its number: the cut of the session {`number`, 1}.
fn cargo(number: u64) -> Cargo {
    Cargo::Cut(Life {
        own: number,
        peer: 1,
    })
}

/// Puts `what` at the tick `now`, and checks the result.
fn put_is<R: Wait + Abort>(
    rt: &R,
    port: &mut InPort,
    now: u64,
    what: What,
    wanted: Result<(), Gone>,
)
    ensures { port.new.lane ≡ port.old.lane }
{
    same_at(rt, &port.put(rt, now, what), &wanted, "a put", &now);
}

/// Takes twice from the core's port, and checks that each call returns `Gone`: the ports of all seats have ended, and
/// no item is left.
fn seats_have_ended<R: Wait + Abort>(rt: &R, core: &mut CorePort) {
    for at in 0..2 {
        same_at(rt, &core.take(rt), &Err(Gone), "the seats have ended", &at);
    }
}

/// Numbers of links, and whether `lanes` makes queues for that many.
const LINKS: &[(usize, bool)] = &[(0, false), (1, true), (32, true), (33, false)];

/// Checks for each number of links that `lanes` makes queues for that many links, or returns `TooMany`, error number 2.
fn each_has_lanes<R: Wait + Abort>(rt: &R, alloc: Global, rows: &[(usize, bool)]) {
    for (links, wanted) in rows {
        let is_so = match lanes(rt, alloc, *links) {
            Ok(made) => *wanted && made.links.len() == *links && made.outs.len() == *links,
            Err(error) => !*wanted && error == LaneError::TooMany && error.number() == 2,
        };
        sees_at(rt, is_so, "the lanes of so many links", links);
    }
}

#[test]
fn node_has_one_to_32_links(rt: HostRuntime) {
    each_has_lanes(&rt, rt.alloc(), LINKS);
    let number = LaneError::Memory.number();
    same(&rt, &number, &1, "the number of an error");
}

/// Puts a beat at tick 7 at the new port of this seat, and checks that the core takes it as the seat's item number 1.
fn use_port<R: Wait + Abort>(rt: &R, port: &mut InPort, core: &mut CorePort, seat: usize) {
    put_is(rt, port, 7, What::Beat, Ok(()));
    let item = there(rt, core.take(rt).ok(), "the item");
    let found = (item.seat, item.number, item.now);
    same(rt, &found, &(seat, 1, 7), "the item");
}

/// Sends message 1 through a new queue, and checks that the link takes it, and none before or after it.
fn use_out(rt: &impl Abort, out: &mut OutPut, take: &mut OutTake) {
    same(rt, &take.take(), &None, "no cargo at first");
    same(rt, &out.send(cargo(1)), &Ok(()), "a send");
    same(rt, &take.take(), &Some(cargo(1)), "the cargo");
    same(rt, &take.take(), &None, "no cargo behind it");
}

/// Uses the new queues of a node, in one thread. Checks that there are `links` ports of links and as many queues to
/// links, and that an item and a message of the last link arrive.
fn use_lanes<R: Wait + Abort>(rt: &R, lanes: Lanes, links: usize) {
    let Lanes {
        mut core,
        command: _,
        links: mut sides,
        mut outs,
    } = lanes;
    same(rt, &(sides.len(), outs.len()), &(links, links), "the links");
    let (mut port, mut take) = there(rt, sides.pop(), "a link");
    let mut out = there(rt, outs.pop(), "its lane");
    use_port(rt, &mut port, &mut core, links.wrapping_sub(1));
    use_out(rt, &mut out, &mut take);
}

/// Uses the queues of nodes with each of these numbers of links, unless memory runs out for them.
fn use_new_lanes<R: Wait + Abort>(rt: &R, alloc: Global, rows: &[usize]) {
    for links in rows {
        match lanes(rt, alloc, *links) {
            Err(error) => same_at(rt, &error, &LaneError::Memory, "no memory", links),
            Ok(made) => use_lanes(rt, made, *links),
        }
    }
}

// If memory runs out, `lanes` reports it and frees what it has made, so the next call finds the memory that it needs.
// No other call of a queue allocates memory, except one that waits.
#[test]
fn want_of_memory_is_answered(rt: HostRuntime) {
    use_new_lanes(&rt, rt.alloc(), &[1, 2, 32]);
}
