//! A simulator at its start, runs of events, and walks.
use super::sees::same;
use std::alloc::Global;
use std::process::Abort;
use std::test::Fail;
use steps::Step::{
    Cannot, Clock, Datagram, Datagrams, Does, Exact, HandsOver, MayHappen, NoNode, Route, Sent,
    Taken, Walk,
};
use steps::{Step, first_world, runs};
use topologies::topology_of;
use tora_arq::{Life, Times};
use tora_height::Id;
use tora_sim::{Event, Sim};

mod choices;
mod memory;
mod quiet;
mod rest;
mod steps;
mod topologies;

/// The links of nodes 1, 2 and 3 in a row.
const ROW: &[(Id, Id)] = &[(3, 2), (1, 2)];

/// The link ends of nodes 1, 2 and 3 in a row.
const ROW_ENDS: &[(Id, Id)] = &[(1, 2), (2, 1), (2, 3), (3, 2)];

/// The simulator of nodes 1, 2 and 3 in a row, with the destination 3.
fn row(rt: &impl Abort, alloc: Global) -> Sim {
    first_world(rt, alloc, ROW, &[3])
}

/// The state of nodes 1, 2 and 3 in a row at the start.
const FIRST: &[Step] = &[
    Clock(0),
    Datagrams(0),
    Datagram(0, None),
    Datagram(1, None),
    Route(3, 3, Some(Some((0, 0, 0, 0, 3))), None),
    Route(1, 3, Some(None), None),
    Route(1, 2, None, None),
    Route(4, 3, None, None),
];

#[test]
fn first_world_is_read(rt: HostRuntime) -> Result<(), Fail> {
    let alloc = rt.alloc();
    let mut sim = row(&rt, alloc);
    let nodes = sim.nodes(alloc)?;
    same(&rt, &nodes.as_slice(), &[1, 2, 3].as_slice(), "the nodes");
    let ends = sim.ends(alloc)?;
    same(&rt, &ends.as_slice(), &ROW_ENDS, "the link ends");
    same(&rt, &sim.topology().links(), &ROW, "the links");
    runs(&rt, alloc, &mut sim, FIRST);
    Ok(())
}

/// The first session of a link.
const LIFE: Life = Life { own: 1, peer: 1 };

/// Nothing was sent or stepped over a link that was never up, nor between nodes without a link.
const NOTHING_SENT: &[Step] = &[
    Sent(1, 2, LIFE, &[]),
    Taken(2, 1, LIFE, &[]),
    Sent(1, 3, LIFE, &[]),
    Taken(3, 1, LIFE, &[]),
];

#[test]
fn nothing_is_sent_or_taken_yet(rt: HostRuntime) {
    let mut sim = row(&rt, rt.alloc());
    runs(&rt, rt.alloc(), &mut sim, NOTHING_SENT);
}

/// The end of node 2 sends its first HELLO to node 3 at tick 1.
const SENDING: &[Step] = &[
    Does(Event::Tick),
    Does(Event::Open(2, 3)),
    Does(Event::Transmit(2, 3)),
    Clock(1),
    Datagrams(1),
    Datagram(1, Some((2, 3))),
    Datagram(2, None),
];

#[test]
fn sent_datagram_is_read(rt: HostRuntime) {
    let mut sim = row(&rt, rt.alloc());
    runs(&rt, rt.alloc(), &mut sim, SENDING);
}

/// Which events may be possible, by the indexes of their nodes and ends. At the index of another node or end the answer
/// is true.
const PLACES: &[Step] = &[
    Does(Event::Open(2, 3)),
    Does(Event::Need(2, 3)),
    MayHappen(2, Event::Open(2, 3), false),
    MayHappen(3, Event::Open(3, 2), true),
    MayHappen(2, Event::Transmit(2, 3), true),
    MayHappen(3, Event::Transmit(3, 2), false),
    MayHappen(2, Event::Pull(2, 3), false),
    MayHappen(2, Event::Pump(2, 3), false),
    MayHappen(1, Event::CoreTurn(2), true),
    MayHappen(0, Event::CoreTurn(1), false),
    MayHappen(1, Event::Open(2, 3), true),
];

#[test]
fn places_tell_what_is_impossible(rt: HostRuntime) {
    let mut sim = row(&rt, rt.alloc());
    runs(&rt, rt.alloc(), &mut sim, PLACES);
}

/// The events after which the link of nodes 1 and 2 is up.
const MEETING: &[Event] = &[
    Event::Need(1, 2),
    Event::CoreTurn(1),
    Event::Open(1, 2),
    Event::Open(2, 1),
    Event::Transmit(1, 2),
    Event::Deliver(1),
    Event::Transmit(2, 1),
    Event::Deliver(2),
    Event::Transmit(1, 2),
    Event::Deliver(3),
    Event::Pump(1, 2),
    Event::Pump(2, 1),
    Event::CoreTurn(2),
    Event::CoreTurn(1),
];

/// The events after which node 2 has stepped an update of node 1 for the destination 2. The datagram of the update is
/// delivered twice.
const UPDATING: &[Event] = &[
    Event::Pull(1, 2),
    Event::Transmit(1, 2),
    Event::Deliver(4),
    Event::Deliver(4),
    Event::Pump(2, 1),
    Event::CoreTurn(2),
];

/// A session that the link of nodes 1 and 2 never had.
const OTHER: Life = Life { own: 1, peer: 2 };

/// The state of nodes 1 and 2 after their meeting and the update.
const UPDATED: &[Step] = &[
    Datagrams(4),
    Datagram(2, Some((2, 1))),
    Datagram(4, Some((1, 2))),
    Route(1, 2, Some(Some((0, 0, 0, 1, 1))), Some(2)),
    Route(2, 2, Some(Some((0, 0, 0, 0, 2))), None),
    Sent(1, 2, LIFE, &[(0, 0, 0, 1, 1)]),
    Taken(2, 1, LIFE, &[(0, 0, 0, 1, 1)]),
    Sent(1, 2, OTHER, &[]),
    Taken(2, 1, OTHER, &[]),
    Sent(2, 1, LIFE, &[]),
    Taken(1, 2, LIFE, &[]),
];

/// Makes events happen, and checks that each is possible.
fn happen(rt: &impl Abort, sim: &mut Sim, events: &[Event]) {
    same(rt, &sim.run(events), &Ok(()), "the events");
}

#[test]
fn sent_and_taken_packets_are_read(rt: HostRuntime) {
    let mut sim = first_world(&rt, rt.alloc(), &[(1, 2)], &[2]);
    happen(&rt, &mut sim, MEETING);
    happen(&rt, &mut sim, UPDATING);
    runs(&rt, rt.alloc(), &mut sim, UPDATED);
}

/// The end of node 1 sends its first HELLO, and no message waits.
const DOCUMENTED: &[Step] = &[
    Does(Event::Open(1, 2)),
    Does(Event::Transmit(1, 2)),
    Datagram(1, Some((1, 2))),
    Cannot(Event::Pull(1, 2)),
    Route(2, 2, Some(Some((0, 0, 0, 0, 2))), None),
];

#[test]
fn example_of_the_documentation(rt: HostRuntime) {
    let mut sim = first_world(&rt, rt.alloc(), &[(1, 2)], &[2]);
    runs(&rt, rt.alloc(), &mut sim, DOCUMENTED);
}

/// The link of nodes 1 and 2 comes up, if node 2 speaks only version 1: node 1 sends each HELLO in both versions until
/// it has heard node 2.
const MIXED: &[Step] = &[
    Does(Event::Open(1, 2)),
    Does(Event::Open(2, 1)),
    Does(Event::Transmit(1, 2)),
    Does(Event::Transmit(1, 2)),
    Does(Event::Deliver(1)),
    Does(Event::Deliver(2)),
    HandsOver(2, 1),
    Does(Event::Transmit(1, 2)),
    Does(Event::Transmit(1, 2)),
    Does(Event::Deliver(4)),
    Does(Event::Deliver(5)),
    Does(Event::Pump(1, 2)),
    Does(Event::Pump(2, 1)),
    Datagrams(5),
    Cannot(Event::Transmit(1, 2)),
];

#[test]
fn old_node_is_met(rt: HostRuntime) {
    let mut topology = topology_of(&rt, rt.alloc(), &[(1, 2)], &[2]);
    same(&rt, &topology.set_old(2), &Ok(()), "the answer for node 2");
    let mut sim = Sim::new(rt.alloc(), &topology).expect(&rt, "a simulator");
    runs(&rt, rt.alloc(), &mut sim, MIXED);
}

/// The link ends of nodes 1 to 4 in a row.
const ENDS: &[(Id, Id)] = &[(1, 2), (2, 1), (2, 3), (3, 2), (3, 4), (4, 3)];

/// Makes an event happen if it is possible, and returns whether it happened.
fn tries(sim: &mut Sim, event: Event) -> bool {
    sim.step(&event).is_ok()
}

/// At each end of `ENDS` in order: opens it, pulls a message, sends a frame and delivers it, pumps an event, and makes
/// a turn of the node's core, each once and only if it is possible.
pub fn pass(sim: &mut Sim) {
    for end in ENDS {
        let (n, k) = *end;
        tries(sim, Event::Open(n, k));
        tries(sim, Event::Pull(n, k));
        if tries(sim, Event::Transmit(n, k)) {
            let sent = sim.datagrams();
            tries(sim, Event::Deliver(sent));
        }
        tries(sim, Event::Pump(n, k));
        tries(sim, Event::CoreTurn(n));
    }
}

/// The state of nodes 1 to 4 in a row once their entries are exact, and after a restart of node 2.
const WALKS: &[Step] = &[
    Exact(4, true),
    Walk(1, 4, Some(&[1, 2, 3, 4])),
    Walk(3, 4, Some(&[3, 4])),
    Walk(4, 4, Some(&[4])),
    Does(Event::Restart(2, None)),
    Exact(4, false),
    Walk(1, 4, None),
    Walk(3, 4, Some(&[3, 4])),
    NoNode(5, 4),
    NoNode(1, 3),
];

#[test]
fn exact_entries_give_a_walk(rt: HostRuntime) {
    let mut sim = first_world(&rt, rt.alloc(), &[(1, 2), (2, 3), (3, 4)], &[4]);
    happen(&rt, &mut sim, &[Event::Need(1, 4)]);
    for _ in 0..40 {
        pass(&mut sim);
    }
    runs(&rt, rt.alloc(), &mut sim, WALKS);
}

/// Times that are not the standard ones.
pub const TIMES: Times = Times {
    hello: 2,
    silent: 3,
    retry: 1,
    tries: 2,
};

/// The end of node 1 sends a HELLO in both versions, and the next HELLO two ticks later, as `TIMES` says.
const HELLOS: &[Step] = &[
    Does(Event::Open(1, 2)),
    Does(Event::Transmit(1, 2)),
    Does(Event::Transmit(1, 2)),
    Does(Event::Tick),
    Cannot(Event::Transmit(1, 2)),
    Does(Event::Tick),
    Does(Event::Transmit(1, 2)),
];

#[test]
fn times_are_those_given(rt: HostRuntime) {
    let topology = topology_of(&rt, rt.alloc(), &[(1, 2)], &[2]);
    let mut sim = Sim::with_times(rt.alloc(), &topology, TIMES).expect(&rt, "a simulator");
    runs(&rt, rt.alloc(), &mut sim, HELLOS);
}
