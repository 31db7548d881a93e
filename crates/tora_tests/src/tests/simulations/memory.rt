//! The state after memory runs out: for a topology, for a first world, and at an event. Each test accepts `Memory` or
//! success, so it passes whichever request for memory `bench/refused-memory.sh` refuses.
use super::super::sees::{same, sees};
use super::steps::Step::{Clock, Datagrams, Route};
use super::steps::{Step, runs};
use super::topologies::{Links, ages, keeps, links_of, made, made_within, refused};
use super::{LIFE, MEETING, ROW_ENDS, TIMES};
use std::alloc::Global;
use std::process::Abort;
use tora_core::CoreError;
use tora_height::Id;
use tora_sim::{Event, Limits, Sim, SimError, Topology};

/// The topology with these links and destinations; `None` after an error, which must be `Memory`.
fn made_or_refused(
    rt: &impl Abort,
    alloc: Global,
    links: &[(Id, Id)],
    destinations: &[Id],
) -> Option<Topology> {
    match made(rt, alloc, links, destinations) {
        Ok(topology) => Some(topology),
        Err(error) => {
            same(rt, &error, &CoreError::Memory, "the error");
            None
        }
    }
}

/// If memory runs out for a topology, the error is `Memory`. Another fault is reported without memory.
#[test]
fn want_of_memory_for_a_topology(rt: HostRuntime) {
    let alloc = rt.alloc();
    if let Some(topology) = made_or_refused(&rt, alloc, &[(3, 2), (1, 2)], &[3, 1]) {
        keeps(&rt, &topology, &[(3, 2), (1, 2)], &[3, 1]);
    }
    let links = [(1, 2), (2, 1)];
    refused(&rt, alloc, &links, &[1], Some(CoreError::Repeated), 0);
}

/// The first world of nodes 1, 2 and 3 in a row, with the destination 3.
const FIRST: &[Step] = &[
    Clock(0),
    Datagrams(0),
    Route(3, 3, Some(Some((0, 0, 0, 0, 3))), None),
    Route(1, 3, Some(None), None),
];

/// Checks the first world of nodes 1, 2 and 3 in a row; for an error, checks that it is `Memory`.
fn sees_first(rt: &impl Abort, alloc: Global, found: Result<Sim, SimError>) {
    match found {
        Err(error) => same(rt, &error, &SimError::Memory, "the error"),
        Ok(mut sim) => {
            runs(rt, alloc, &mut sim, FIRST);
            if let Ok(nodes) = sim.nodes(alloc) {
                same(rt, &nodes.as_slice(), &[1, 2, 3].as_slice(), "the nodes");
            }
            if let Ok(ends) = sim.ends(alloc) {
                same(rt, &ends.as_slice(), &ROW_ENDS, "the link ends");
            }
        }
    }
}

/// If memory runs out for a first world, the error is `Memory`, and the topology does not change.
#[test]
fn want_of_memory_for_a_first_world(rt: HostRuntime) {
    let alloc = rt.alloc();
    let Some(mut topology) = made_or_refused(&rt, alloc, &[(3, 2), (1, 2)], &[3]) else {
        return;
    };
    ages(&rt, &mut topology, &[(1, Ok(()), &[1])]);
    sees_first(&rt, alloc, Sim::new(alloc, &topology));
    sees_first(&rt, alloc, Sim::with_times(alloc, &topology, TIMES));
    keeps(&rt, &topology, &[(3, 2), (1, 2)], &[3]);
    same(&rt, &topology.olds(), &[1].as_slice(), "the old nodes");
}

/// Makes one event happen, and returns true. Returns false after an error, which must be `Memory`.
fn happens(rt: &impl Abort, sim: &mut Sim, event: &Event) -> bool {
    match sim.step(event) {
        Ok(()) => true,
        Err(error) => {
            same(rt, &error, &SimError::Memory, "the error");
            false
        }
    }
}

/// The world of nodes 1 and 2 after these events, each of which is possible; `None` if memory runs out.
fn world_after(rt: &impl Abort, alloc: Global, events: &[Event]) -> Option<Sim> {
    let topology = made_or_refused(rt, alloc, &[(1, 2)], &[2])?;
    let Ok(mut sim) = Sim::new(alloc, &topology) else {
        return None;
    };
    for event in events {
        if !happens(rt, &mut sim, event) {
            return None;
        }
    }
    Some(sim)
}

/// Whether two worlds have the same clock, as many datagrams, and for each of the first nine the same sender and
/// receiver.
fn are_datagrams_same(one: &Sim, other: &Sim) -> bool {
    let mut are_same = one.clock() == other.clock() && one.datagrams() == other.datagrams();
    for i in 0..10 {
        are_same = are_same && one.datagram(i) == other.datagram(i);
    }
    are_same
}

/// Whether node `n` has in both worlds the same height and next hop for destination 2, the same first item, and as many
/// accepted inputs.
fn is_node_same(one: &Sim, other: &Sim, n: Id) -> bool {
    one.height(n, 2) == other.height(n, 2)
        && one.next_hop(n, 2) == other.next_hop(n, 2)
        && one.first_item(n) == other.first_item(n)
        && one.inputs(n).len() == other.inputs(n).len()
}

/// Whether two worlds agree on how many packets were sent and stepped at a link end in the first session of the link.
fn is_lane_same(one: &Sim, other: &Sim, n: Id, k: Id) -> bool {
    one.sent_count(n, k, LIFE) == other.sent_count(n, k, LIFE)
        && one.taken_count(n, k, LIFE) == other.taken_count(n, k, LIFE)
}

/// Whether `is_lane_same` holds for the link end of `n` to `k`, which has the index `place`, and whether the same
/// events may be possible at it in both worlds.
fn is_end_same(one: &Sim, other: &Sim, place: usize, n: Id, k: Id) -> bool {
    let events = [
        Event::Open(n, k),
        Event::Pull(n, k),
        Event::Transmit(n, k),
        Event::Pump(n, k),
    ];
    let mut is_same = is_lane_same(one, other, n, k);
    for event in events.iter() {
        is_same = is_same && one.may_happen(place, event) == other.may_happen(place, event);
    }
    is_same
}

/// Whether two worlds of nodes 1 and 2 agree in all that the test reads.
fn are_same(one: &Sim, other: &Sim) -> bool {
    are_datagrams_same(one, other)
        && is_node_same(one, other, 1)
        && is_node_same(one, other, 2)
        && is_end_same(one, other, 0, 1, 2)
        && is_end_same(one, other, 1, 2, 1)
}

/// Whether an event can need memory in a world with as few packets as `sees_run` sends.
fn takes_memory(event: &Event) -> bool {
    match event {
        Event::Need(_, _) => true,
        Event::Tick => false,
        Event::Open(_, _) => false,
        Event::Pull(_, _) => false,
        Event::Transmit(_, _) => true,
        Event::Deliver(_) => false,
        Event::Pump(_, _) => true,
        Event::CoreTurn(_) => true,
        Event::Arm(_, _) => false,
        Event::Restart(_, _) => true,
    }
}

/// Checks that a run of possible events leads to the same world as the events one by one. If memory ran out at one
/// event, the world must be that before this event, and this event and those after it can then happen.
fn sees_run(rt: &impl Abort, alloc: Global, before: &[Event], events: &[Event]) {
    let Some(mut sim) = world_after(rt, alloc, before) else {
        return;
    };
    let ran = sim.run(events);
    let Some(mut other) = world_after(rt, alloc, before) else {
        return;
    };
    let mut goes_on = false;
    for event in events {
        if ran.is_err() && takes_memory(event) && !goes_on {
            goes_on = are_same(&sim, &other);
        }
        if goes_on && !happens(rt, &mut sim, event) {
            return;
        }
        if !happens(rt, &mut other, event) {
            return;
        }
    }
    if ran.is_err() {
        same(rt, &ran, &Err(SimError::Memory), "the run's error");
        sees(rt, goes_on, "the world is that before an event");
    }
    sees(
        rt,
        are_same(&sim, &other),
        "the worlds are the same after all events",
    );
}

/// Memory may run out for the world of nodes 1 and 2, or at an event of `MEETING`.
#[test]
fn want_of_memory_at_a_meeting(rt: HostRuntime) {
    sees_run(&rt, rt.alloc(), &[], MEETING);
}

/// The events after which an update went over the link, its sender restarted, and the receiver heard of that.
const RESTARTING: &[Event] = &[
    Event::Pull(1, 2),
    Event::Transmit(1, 2),
    Event::Deliver(4),
    Event::Pump(2, 1),
    Event::CoreTurn(2),
    Event::Transmit(2, 1),
    Event::Deliver(5),
    Event::Tick,
    Event::Restart(1, None),
    Event::Open(1, 2),
    Event::Transmit(1, 2),
    Event::Deliver(6),
    Event::Pump(2, 1),
    Event::CoreTurn(2),
    Event::Need(2, 2),
];

#[test]
fn want_of_memory_at_a_restart(rt: HostRuntime) {
    sees_run(&rt, rt.alloc(), MEETING, RESTARTING);
}

/// The topology of a line of 200 nodes, with the destination 200; `None` after an error, which must be `Memory`.
fn wide_or_refused(rt: &impl Abort, alloc: Global) -> Option<Topology> {
    let Ok(links) = links_of(alloc, Links::Chain(200)) else {
        return None;
    };
    match made_within(rt, alloc, Limits::GREATEST, &links, &[200]) {
        Ok(topology) => Some(topology),
        Err(error) => {
            same(rt, &error, &CoreError::Memory, "the error");
            None
        }
    }
}

/// The events after which the last link of the line is up, that of nodes 199 and 200.
const LAST_MEETING: &[Event] = &[
    Event::Need(199, 200),
    Event::CoreTurn(199),
    Event::Open(199, 200),
    Event::Open(200, 199),
    Event::Transmit(199, 200),
    Event::Deliver(1),
    Event::Transmit(200, 199),
    Event::Deliver(2),
    Event::Transmit(199, 200),
    Event::Deliver(3),
    Event::Pump(199, 200),
    Event::Pump(200, 199),
    Event::CoreTurn(200),
    Event::CoreTurn(199),
];

/// The state of the line of 200 nodes after `LAST_MEETING`.
const LAST_MET: &[Step] = &[
    Clock(0),
    Datagrams(3),
    Route(1, 200, Some(None), None),
    Route(199, 200, Some(Some((0, 0, 0, 1, 199))), Some(200)),
    Route(200, 200, Some(Some((0, 0, 0, 0, 200))), None),
];

/// Makes an event happen, at the second attempt if memory ran out at the first; the test fails if it then does not
/// happen.
fn happens_at_last(rt: &impl Abort, sim: &mut Sim, event: &Event) {
    if !happens(rt, sim, event) {
        let has_memory = happens(rt, sim, event);
        sees(rt, has_memory, "memory was refused once");
    }
}

/// Makes the events of `LAST_MEETING` in the first world of the line, and checks `LAST_MET`; for an error, checks that
/// it is `Memory`.
fn sees_last_meet(rt: &impl Abort, alloc: Global, found: Result<Sim, SimError>) {
    match found {
        Err(error) => same(rt, &error, &SimError::Memory, "the error"),
        Ok(mut sim) => {
            for event in LAST_MEETING {
                happens_at_last(rt, &mut sim, event);
            }
            runs(rt, alloc, &mut sim, LAST_MET);
        }
    }
}

/// If memory runs out for a world of 200 nodes, or at an event in it, the error is `Memory`. The event can then happen,
/// with the same effect as without the error.
#[test]
fn want_of_memory_in_a_world_of_200_nodes(rt: HostRuntime) {
    let alloc = rt.alloc();
    if let Some(topology) = wide_or_refused(&rt, alloc) {
        sees_last_meet(&rt, alloc, Sim::new(alloc, &topology));
    }
}

/// The events after which five queries went over one link at once. A queue and a link end that store messages inline
/// have room for fewer, so both allocate their lists, and so does the link end that receives the frame.
const ASKING: &[Event] = &[
    Event::Open(1, 2),
    Event::Open(2, 1),
    Event::Transmit(1, 2),
    Event::Deliver(1),
    Event::Transmit(2, 1),
    Event::Deliver(2),
    Event::Transmit(1, 2),
    Event::Deliver(3),
    Event::Pump(1, 2),
    Event::Pump(2, 1),
    Event::CoreTurn(1),
    Event::CoreTurn(2),
    Event::Need(1, 3),
    Event::CoreTurn(1),
    Event::Need(1, 4),
    Event::CoreTurn(1),
    Event::Need(1, 5),
    Event::CoreTurn(1),
    Event::Need(1, 6),
    Event::CoreTurn(1),
    Event::Need(1, 7),
    Event::CoreTurn(1),
    Event::Pull(1, 2),
    Event::Pull(1, 2),
    Event::Pull(1, 2),
    Event::Pull(1, 2),
    Event::Pull(1, 2),
    Event::Transmit(1, 2),
    Event::Deliver(4),
    Event::Pump(2, 1),
    Event::Pump(2, 1),
    Event::Pump(2, 1),
    Event::Pump(2, 1),
    Event::Pump(2, 1),
    Event::CoreTurn(2),
    Event::CoreTurn(2),
    Event::CoreTurn(2),
    Event::CoreTurn(2),
    Event::CoreTurn(2),
];

/// Makes each event of `ASKING`, at the second attempt if memory ran out, and checks that 4 datagrams and 5 packets
/// were sent, and that the core of node 2 stepped all 5. For an error, checks that it is `Memory`.
fn sees_asked(rt: &impl Abort, found: Result<Sim, SimError>) {
    match found {
        Err(error) => same(rt, &error, &SimError::Memory, "the error"),
        Ok(mut sim) => {
            for event in ASKING {
                happens_at_last(rt, &mut sim, event);
            }
            same(rt, &sim.datagrams(), &4, "the datagrams");
            same(rt, &sim.sent_count(1, 2, LIFE), &5, "what was sent");
            same(rt, &sim.taken_count(2, 1, LIFE), &5, "what was taken");
        }
    }
}

/// If memory runs out for the lists of a queue or a link end, the error is `Memory`, and nothing is lost: the event can
/// then happen.
#[test]
fn want_of_memory_for_lists(rt: HostRuntime) {
    let alloc = rt.alloc();
    let links = [(1, 2), (2, 3), (3, 4), (4, 5), (5, 6), (6, 7)];
    let destinations = [3, 4, 5, 6, 7];
    if let Some(topology) = made_or_refused(&rt, alloc, &links, &destinations) {
        sees_asked(&rt, Sim::new(alloc, &topology));
    }
}
