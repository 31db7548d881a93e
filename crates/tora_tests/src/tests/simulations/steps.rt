//! Runs of a simulated world as tables of steps, and the functions that make them.
use super::super::made::{Parts, entry_of};
use super::super::sees::same_at;
use super::topologies::topology_of;
use std::alloc::Global;
use std::process::Abort;
use tora_arq::Life;
use tora_height::Id;
use tora_packet::{Packet, Update};
use tora_sim::{Event, Sim, SimError};

/// A step of a run: an action, or an observation of the world with its expected result, the last field.
#[derive(Clone, Copy, Debug)]
pub enum Step {
    /// An event happens.
    Does(Event),
    /// An event is not possible.
    Cannot(Event),
    /// The due frame of the first node to the second is sent and delivered.
    HandsOver(Id, Id),
    /// The next event of the first node's link end to the second is put into the queue into the node's core, and the
    /// core serves the first item of that queue.
    Tells(Id, Id),
    /// Whether an event may be possible, by the index of its node or end.
    MayHappen(usize, Event, bool),
    /// The clock, in ticks.
    Clock(u64),
    /// How many datagrams were sent.
    Datagrams(u64),
    /// The sender and the receiver of the datagram with this number, counted from 1; `None` if there is none.
    Datagram(u64, Option<(Id, Id)>),
    /// A node, a destination, the height there and the next hop. The height is `Some(None)` if it is NULL, and `None`
    /// if there is no such node or destination.
    Route(Id, Id, Option<Option<Parts>>, Option<Id>),
    /// The core of the first node put exactly these packets into the queue to the second in a session, as the first
    /// writes it: updates for destination 2 with these heights.
    Sent(Id, Id, Life, &'static [Parts]),
    /// The core of the first node stepped exactly these packets of the second in a session, as the first writes it:
    /// updates for destination 2 with these heights.
    Taken(Id, Id, Life, &'static [Parts]),
    /// Whether the entries for a destination are exact.
    Exact(Id, bool),
    /// The walk of a node to a destination, with both; `None` if there is none.
    Walk(Id, Id, Option<&'static [Id]>),
    /// The walk of this node to this destination is refused with `NoNode`: one of the two does not exist.
    NoNode(Id, Id),
    /// Whether the world is at rest.
    Rests(bool),
    /// `settle` is called.
    Settles,
    /// Whether it is known that nothing is to be done.
    Quiet(bool),
    /// Whether the world has exactly these link ends, in this order.
    HasEnds(&'static [(Id, Id)], bool),
    /// The index from which a search for an end that may have something to do begins, and the index that it finds. If
    /// there is no such end, it finds the number of ends, or the first index if that is greater.
    NextDue(usize, usize),
}

/// The simulator of a topology with these links and destinations at its start; the test fails if one of the two is not
/// made.
pub fn first_world(rt: &impl Abort, alloc: Global, links: &[(Id, Id)], destinations: &[Id]) -> Sim {
    let topology = topology_of(rt, alloc, links, destinations);
    Sim::new(alloc, &topology).expect(rt, "a simulator")
}

/// Makes an event happen, and checks that it is possible.
fn happens(rt: &impl Abort, sim: &mut Sim, event: Event, row: &Step) {
    same_at(rt, &sim.step(&event), &Ok(()), "the answer", row);
}

/// Checks that packets are the updates with these heights for 2.
fn are_updates(rt: &impl Abort, packets: &[Packet], heights: &[Parts], row: &Step) {
    same_at(rt, &packets.len(), &heights.len(), "how many packets", row);
    for (packet, parts) in packets.iter().zip(heights.iter()) {
        let height = entry_of(rt, Some(*parts)).expect(rt, "a height");
        let update = Update::new(2, height).expect(rt, "an update");
        same_at(rt, packet, &Packet::Upd(update), "the packet", row);
    }
}

/// Checks that `count` is the number of `heights`.
fn are_as_many(rt: &impl Abort, count: usize, heights: &[Parts], row: &Step) {
    same_at(rt, &count, &heights.len(), "the count of packets", row);
}

/// Checks that a walk visits exactly these nodes, in this order, or for `None` that there is no walk.
fn visits(rt: &impl Abort, walk: Option<Vec<Id>>, nodes: Option<&[Id]>, row: &Step) {
    match walk {
        Some(walk) => same_at(rt, &Some(walk.as_slice()), &nodes, "the walk", row),
        None => same_at(rt, &None, &nodes, "the walk", row),
    }
}

/// Checks the observation of a step.
fn reads(rt: &impl Abort, alloc: Global, sim: &Sim, row: &Step) {
    match *row {
        Step::MayHappen(place, event, may) => {
            let found = sim.may_happen(place, &event);
            same_at(rt, &found, &may, "whether it may happen", row);
        }
        Step::Clock(clock) => same_at(rt, &sim.clock(), &clock, "the clock", row),
        Step::Datagrams(count) => same_at(rt, &sim.datagrams(), &count, "how many", row),
        Step::Datagram(i, way) => same_at(rt, &sim.datagram(i), &way, "the datagram", row),
        Step::Route(n, d, known, hop) => {
            let height = known.map(|parts| entry_of(rt, parts));
            same_at(rt, &sim.height(n, d), &height, "the height", row);
            same_at(rt, &sim.next_hop(n, d), &hop, "the next hop", row);
        }
        Step::Sent(a, b, life, heights) => {
            let sent = sim.sent(alloc, a, b, life).expect(rt, "memory");
            are_updates(rt, sent.as_slice(), heights, row);
            are_as_many(rt, sim.sent_count(a, b, life), heights, row);
        }
        Step::Taken(b, a, life, heights) => {
            let taken = sim.taken(alloc, b, a, life).expect(rt, "memory");
            are_updates(rt, taken.as_slice(), heights, row);
            are_as_many(rt, sim.taken_count(b, a, life), heights, row);
        }
        Step::Exact(d, is_exact) => same_at(rt, &sim.exact(d), &is_exact, "exact entries", row),
        Step::Walk(n, d, nodes) => {
            let walk = sim.walk(alloc, n, d).expect(rt, "an answer");
            visits(rt, walk, nodes, row);
        }
        Step::NoNode(n, d) => {
            let error = sim.walk(alloc, n, d).err();
            same_at(rt, &error, &Some(SimError::NoNode), "the error", row);
        }
        Step::Rests(rests) => same_at(rt, &sim.is_at_rest(), &rests, "at rest", row),
        Step::Quiet(quiet) => same_at(rt, &sim.is_quiet(), &quiet, "quiet", row),
        Step::HasEnds(ends, has) => same_at(rt, &sim.has_ends(ends), &has, "the ends", row),
        Step::NextDue(place, next) => same_at(rt, &sim.next_due(place), &next, "next", row),
        _ => {}
    }
}

/// Makes one step of a table.
fn does(rt: &impl Abort, alloc: Global, sim: &mut Sim, row: &Step) {
    match *row {
        Step::Does(event) => happens(rt, sim, event, row),
        Step::Cannot(event) => {
            let refusal = Err(SimError::NotPossible);
            same_at(rt, &sim.step(&event), &refusal, "the answer", row);
        }
        Step::HandsOver(a, b) => {
            happens(rt, sim, Event::Transmit(a, b), row);
            let last = sim.datagrams();
            happens(rt, sim, Event::Deliver(last), row);
        }
        Step::Tells(n, k) => {
            happens(rt, sim, Event::Pump(n, k), row);
            happens(rt, sim, Event::CoreTurn(n), row);
        }
        Step::Settles => sim.settle(),
        _ => reads(rt, alloc, sim, row),
    }
}

/// Makes the steps of a table, in order.
pub fn runs(rt: &impl Abort, alloc: Global, sim: &mut Sim, rows: &[Step]) {
    for row in rows {
        does(rt, alloc, sim, row);
    }
}
