//! Worlds at rest, and worlds that violate each condition of rest alone.
use super::steps::Step::{Does, HandsOver, Rests, Tells};
use super::steps::{Step, first_world, runs};
use tora_sim::Event;

/// The link of nodes 1 and 2 comes up, with the destination 3, which is neither.
const MEETING: &[Step] = &[
    Rests(true), // no link is up
    Does(Event::Open(1, 2)),
    Does(Event::Open(2, 1)),
    HandsOver(1, 2),
    HandsOver(2, 1),
    HandsOver(1, 2),
    Tells(1, 2),
    Tells(2, 1),
    Rests(true),
];

/// Node 1 asks for a route, and node 2 acknowledges its query and asks as well.
const ASKING: &[Step] = &[
    Does(Event::Need(1, 3)),
    Rests(false), // an item waits for the core of node 1
    Does(Event::CoreTurn(1)),
    Rests(false), // a message waits in the queue from node 1 to node 2
    Does(Event::Pull(1, 2)),
    Rests(false), // the query is submitted and not acknowledged
    HandsOver(1, 2),
    HandsOver(2, 1),
    Rests(false), // an event waits in the link end of node 2
    Does(Event::Pump(2, 1)),
    Rests(false), // an item waits for the core of node 2
    Does(Event::CoreTurn(2)),
    Does(Event::Pull(2, 1)),
    HandsOver(2, 1),
    HandsOver(1, 2),
    Tells(1, 2),
    Rests(true), // node 2 has asked, too, and no node answers
    Does(Event::Deliver(1)),
    Rests(true), // an old datagram changes nothing
];

#[test]
fn each_clause_of_rest_is_looked_at(rt: HostRuntime) {
    let mut sim = first_world(&rt, rt.alloc(), &[(1, 2)], &[3]);
    runs(&rt, rt.alloc(), &mut sim, MEETING);
    runs(&rt, rt.alloc(), &mut sim, ASKING);
}

/// Both nodes restart, one after the other.
const RESTARTING: &[Step] = &[
    Does(Event::Restart(1, None)),
    Rests(false),
    Does(Event::Restart(2, None)),
    Rests(true), // the link is up at neither core
];

#[test]
fn link_up_at_one_core_is_no_rest(rt: HostRuntime) {
    let mut sim = first_world(&rt, rt.alloc(), &[(1, 2)], &[3]);
    runs(&rt, rt.alloc(), &mut sim, MEETING);
    runs(&rt, rt.alloc(), &mut sim, RESTARTING);
}
