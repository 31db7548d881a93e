//! Whether a simulated world has nothing to do, and which of its link ends may have something to do.
use super::steps::Step::{Cannot, Does, HandsOver, HasEnds, NextDue, Quiet, Settles, Tells};
use super::steps::{Step, first_world, runs};
use super::topologies::topology_of;
use super::{TIMES, pass};
use std::alloc::Global;
use std::process::Abort;
use tora_sim::{Event, Sim};

/// Two closed ends: they can be opened, so the world is not quiet, and each end is due.
const CLOSED: &[Step] = &[
    Quiet(false),
    Settles,
    Quiet(false),
    HasEnds(&[(1, 2), (2, 1)], true),
    HasEnds(&[(2, 1), (1, 2)], false),
    HasEnds(&[(1, 2)], false),
    NextDue(0, 0),
    NextDue(1, 1),
    NextDue(3, 3),
];

/// Two bound ends that have sent their HELLOs: the world is quiet once it is settled, until the next HELLOs are due
/// after two ticks, and again after they are sent. A need ends the quiet until the core has served it.
const BOUND: &[Step] = &[
    Quiet(false),
    Settles,
    Quiet(true),
    NextDue(0, 2),
    Cannot(Event::CoreTurn(1)),
    Cannot(Event::Open(1, 2)),
    Cannot(Event::Pull(1, 2)),
    Cannot(Event::Transmit(1, 2)),
    Cannot(Event::Pump(1, 2)),
    Quiet(true),
    Does(Event::Tick),
    Quiet(true),
    Does(Event::Tick),
    Quiet(false),
    Settles,
    Quiet(false),
    NextDue(0, 0),
    Does(Event::Transmit(1, 2)),
    Settles,
    Quiet(false),
    NextDue(0, 1),
    NextDue(1, 1),
    Does(Event::Transmit(2, 1)),
    Settles,
    Quiet(true),
    NextDue(0, 2),
    Does(Event::Need(1, 2)),
    Quiet(false),
    Settles,
    Quiet(false),
    Does(Event::CoreTurn(1)),
    Quiet(true),
    Settles,
    Quiet(true),
    NextDue(0, 2),
];

/// A need makes node 1 send an update once the link is up: the update waits in the queue, and then for an
/// acknowledgement.
const WAITING: &[Step] = &[
    Does(Event::Need(1, 2)),
    Does(Event::CoreTurn(1)),
    Does(Event::Open(1, 2)),
    Does(Event::Open(2, 1)),
    HandsOver(1, 2),
    HandsOver(2, 1),
    HandsOver(1, 2),
    Tells(1, 2),
    Tells(2, 1),
    Settles,
    Quiet(false),
    NextDue(0, 0),
    Does(Event::Pull(1, 2)),
    Settles,
    Quiet(false),
];

/// The HELLOs of both ends of a link are sent at tick 2 and not delivered. At tick 3 no frame has come for three ticks:
/// the session ends, and node 1's end has an event and can then be opened.
const SILENT: &[Step] = &[
    Settles,
    Quiet(true),
    Does(Event::Tick),
    Does(Event::Tick),
    Does(Event::Transmit(1, 2)),
    Does(Event::Transmit(2, 1)),
    Settles,
    Quiet(true),
    NextDue(0, 2),
    Does(Event::Tick),
    Quiet(false),
    NextDue(0, 0),
    Does(Event::Pump(1, 2)),
    Does(Event::Open(1, 2)),
];

/// Makes the steps `first` in a new world of nodes 1 and 2 with `TIMES`, calls `pass` ten times, which binds the ends
/// unless they are bound, and makes the steps `then`.
fn bound(rt: &impl Abort, alloc: Global, first: &[Step], then: &[Step]) {
    let topology = topology_of(rt, alloc, &[(1, 2)], &[2]);
    let mut sim = Sim::with_times(alloc, &topology, TIMES).expect(rt, "a simulator");
    runs(rt, alloc, &mut sim, first);
    for _ in 0..10 {
        pass(&mut sim);
    }
    runs(rt, alloc, &mut sim, then);
}

#[test]
fn quiet_world_is_so_until_a_hello_is_due(rt: HostRuntime) {
    bound(&rt, rt.alloc(), CLOSED, BOUND);
}

#[test]
fn silent_ends_are_not_quiet(rt: HostRuntime) {
    bound(&rt, rt.alloc(), &[], SILENT);
}

#[test]
fn world_with_a_packet_is_not_quiet(rt: HostRuntime) {
    let mut sim = first_world(&rt, rt.alloc(), &[(1, 2)], &[2]);
    runs(&rt, rt.alloc(), &mut sim, WAITING);
}
