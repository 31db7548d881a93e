//! Worked exchanges of frames of version 1, and frames that no honest peer sends.
use super::carried::Carried::{Ack, Data, Hello, Query};
use super::carried::Parts;
use super::link_steps::End::{First, Second};
use super::link_steps::Step::{
    At, Cuts, Delivers, Gets, Hears, HearsEach, IsForeign, LivesIn, Opens, Sends, SendsNone,
    Submits, Tells, TellsNone, Waits,
};
use super::link_steps::Told::{Down, Up};
use super::link_steps::{End, LIFE, REVERSED, Step};
use super::link_turns::{does, ends_do, first_end};
use std::alloc::Global;
use std::process::Abort;
use tora_arq::Verdict::{Accepted, Ahead, Busy, Foreign, Repeated, Stale};
use tora_arq::{Life, Reason};
use tora_frame::Version;

/// Makes the steps of `BOUND` and then `steps` at a new end of node 1, which speaks version 1. The tick is 0 before
/// `steps`.
pub fn first_does(rt: &impl Abort, alloc: Global, steps: &[Step]) {
    let mut end = first_end(rt, alloc, Version::One);
    does(rt, alloc, &mut end, BOUND);
    does(rt, alloc, &mut end, steps);
}

/// A HELLO of node 2 at tick 0 binds the end of node 1 to the session `LIFE`; the event is polled, and the HELLO that
/// answers is sent.
pub const BOUND: &[Step] = &[
    Hears(9, 5, Hello, Accepted),
    Tells(Up(LIFE)),
    Sends(Version::One, 5, 9, Hello),
    SendsNone,
];

/// Three HELLOs at tick 0 bind the first end and then the second; all events are polled.
const THREE_HELLOS: &[(End, Step)] = &[
    (First, Sends(Version::One, 5, 0, Hello)),
    (Second, Gets(0, Accepted)),
    (First, LivesIn(None)),
    (Second, Sends(Version::One, 9, 5, Hello)),
    (First, Gets(1, Accepted)),
    (First, Tells(Up(LIFE))),
    (Second, TellsNone),
    (First, Sends(Version::One, 5, 9, Hello)),
    (Second, Gets(2, Accepted)),
    (Second, Tells(Up(REVERSED))),
    (First, LivesIn(Some(LIFE))),
];

#[test]
fn three_hellos_bind_both_ends(rt: HostRuntime) {
    ends_do(&rt, rt.alloc(), Version::One, &[THREE_HELLOS]);
}

const DELIVERED_ONCE: &[Step] = &[
    Hears(9, 5, Query(1), Accepted),
    Hears(9, 5, Query(3), Ahead),
    Hears(9, 5, Query(2), Accepted),
    Hears(9, 5, Query(2), Repeated),
    Delivers(LIFE, 1, 3),
    TellsNone,
    Sends(Version::One, 5, 9, Ack(3)),
    SendsNone,
];

#[test]
fn data_is_delivered_once_in_order(rt: HostRuntime) {
    first_does(&rt, rt.alloc(), DELIVERED_ONCE);
}

/// The first of three frames is lost, and all three are sent again at tick 5.
const LOSS: &[(End, Step)] = &[
    (First, Submits(1, 3)),
    (First, Sends(Version::One, 5, 9, Query(1))),
    (First, Sends(Version::One, 5, 9, Query(2))),
    (Second, Gets(1, Ahead)),
    (First, Sends(Version::One, 5, 9, Query(3))),
    (Second, Gets(2, Ahead)),
    (First, SendsNone),
    (Second, TellsNone),
    (Second, Sends(Version::One, 9, 5, Ack(0))),
    (First, Gets(3, Repeated)),
    (Second, SendsNone),
    (First, At(5)),
    (First, Sends(Version::One, 5, 9, Query(1))),
    (Second, Gets(4, Accepted)),
    (First, Sends(Version::One, 5, 9, Query(2))),
    (Second, Gets(5, Repeated)),
    (First, Sends(Version::One, 5, 9, Query(3))),
    (Second, Gets(6, Repeated)),
    (First, SendsNone),
    (Second, Delivers(REVERSED, 1, 3)),
    (Second, TellsNone),
    (Second, Sends(Version::One, 9, 5, Ack(3))),
    (First, Gets(7, Accepted)),
    (Second, SendsNone),
    (First, Waits(0)),
];

#[test]
fn window_delivers_in_order_after_a_loss(rt: HostRuntime) {
    ends_do(&rt, rt.alloc(), Version::One, &[THREE_HELLOS, LOSS]);
}

const WINDOW: &[Step] = &[
    HearsEach(2, 33, Ahead),
    Hears(9, 5, Query(1), Accepted),
    Delivers(LIFE, 1, 32),
    TellsNone,
    Hears(9, 5, Query(33), Accepted),
    Delivers(LIFE, 33, 33),
    TellsNone,
];

#[test]
fn packets_are_held_up_to_the_window(rt: HostRuntime) {
    first_does(&rt, rt.alloc(), WINDOW);
}

/// Packet 2 arrives before packet 1, as the query for destination 7, and then again as the query for 8: it is delivered
/// once, as the query for 7.
const HELD_FIRST: &[Step] = &[
    Hears(9, 5, Data(2, 0, &[Parts::Query(7)]), Ahead),
    Hears(9, 5, Data(2, 0, &[Parts::Query(8)]), Ahead),
    Hears(9, 5, Data(1, 0, &[Parts::Query(6)]), Accepted),
    Delivers(LIFE, 6, 7),
    TellsNone,
];

#[test]
fn packet_held_first_stays(rt: HostRuntime) {
    first_does(&rt, rt.alloc(), HELD_FIRST);
}

const NEWER_LIFE: &[Step] = &[
    Hears(17, 0, Hello, Accepted),
    Tells(Down(LIFE, Reason::NewPeer)),
    Opens(6),
    Hears(9, 5, Query(1), Stale),
    TellsNone,
];

#[test]
fn newer_life_of_the_peer_ends_the_bound_one(rt: HostRuntime) {
    first_does(&rt, rt.alloc(), NEWER_LIFE);
}

const ACKNOWLEDGED: &[Step] = &[
    Submits(1, 2),
    Hears(9, 5, Ack(1), Foreign),
    Sends(Version::One, 5, 9, Query(1)),
    Sends(Version::One, 5, 9, Query(2)),
    SendsNone,
    Waits(2),
    Hears(9, 5, Ack(0), Repeated),
    Hears(9, 5, Ack(3), Foreign),
    Hears(9, 5, Ack(1), Accepted),
    Hears(9, 5, Ack(1), Repeated),
    Waits(1),
    At(5),
    Sends(Version::One, 5, 9, Query(2)),
    SendsNone,
];

#[test]
fn acknowledged_packets_leave_the_queue(rt: HostRuntime) {
    first_does(&rt, rt.alloc(), ACKNOWLEDGED);
}

const NOT_SENT: &[Step] = &[
    Hears(9, 5, Ack(1), Foreign),
    Hears(8, 5, Hello, Stale),
    Hears(9, 4, Hello, Stale),
    Hears(9, 4, Query(1), Stale),
    Hears(9, 5, Query(1 << 62), Ahead),
    Hears(1 << 62, 0, Hello, Accepted),
    Hears(9, 5, Hello, Stale),
    Tells(Down(LIFE, Reason::NewPeer)),
    Opens(6),
    Hears(9, 5, Hello, Accepted),
    Hears(9, 5, Hello, Accepted),
    Hears(8, 5, Hello, Stale),
    Hears(8, 6, Hello, Stale),
    Hears(10, 5, Ack(0), Stale),
    Hears(10, 6, Ack(1), Foreign),
    Hears(10, 6, Ack(0), Accepted),
    Tells(Up(Life { own: 6, peer: 10 })),
];

#[test]
fn frames_that_no_peer_sends(rt: HostRuntime) {
    first_does(&rt, rt.alloc(), NOT_SENT);
}

/// The end of node 1 refuses as `Foreign` HELLOs from 3 to 1, from 2 to 3 and from 1 to 2, and a frame of node 2 with
/// an update whose height is that of node 3.
const OTHER_NODES: &[Step] = &[
    IsForeign(3, 1),
    IsForeign(2, 3),
    IsForeign(1, 2),
    Hears(9, 5, Data(1, 0, &[Parts::Update(0, 0, 0, 1, 3)]), Foreign),
    TellsNone,
];

#[test]
fn frames_of_other_nodes(rt: HostRuntime) {
    first_does(&rt, rt.alloc(), OTHER_NODES);
}

const BUSY: &[Step] = &[
    HearsEach(1, 31, Accepted),
    Hears(9, 5, Query(32), Busy),
    Delivers(LIFE, 1, 1),
    Hears(9, 5, Query(32), Accepted),
    Cuts(Life { own: 4, peer: 9 }),
    LivesIn(Some(LIFE)),
    Cuts(LIFE),
    Delivers(LIFE, 2, 32),
    Tells(Down(LIFE, Reason::Cut)),
];

#[test]
fn busy_end_has_a_place_for_its_down(rt: HostRuntime) {
    first_does(&rt, rt.alloc(), BUSY);
}

/// In each of two turns each end sends all its frames to the other.
const EXAMPLE: &[(End, Step)] = &[
    (First, Sends(Version::One, 5, 0, Hello)),
    (Second, Gets(0, Accepted)),
    (First, SendsNone),
    (Second, Sends(Version::One, 9, 5, Hello)),
    (First, Gets(1, Accepted)),
    (Second, SendsNone),
    (First, Sends(Version::One, 5, 9, Hello)),
    (Second, Gets(2, Accepted)),
    (First, SendsNone),
    (Second, SendsNone),
    (First, Tells(Up(LIFE))),
];

#[test]
fn example_of_the_documentation(rt: HostRuntime) {
    ends_do(&rt, rt.alloc(), Version::One, &[EXAMPLE]);
}
