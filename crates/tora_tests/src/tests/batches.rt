//! Frames of version 2: batches, and links between ends of both versions.
use super::carried::Carried::{Ack, Hello, Queries, Query};
use super::link_steps::End::{First, Old, Second};
use super::link_steps::Step::{
    At, Delivers, Gets, GetsBytes, Lends, Sends, SendsNone, Submits, Tells, TellsNone, Waits,
};
use super::link_steps::Told::Up;
use super::link_steps::{End, LIFE, REVERSED, Step};
use super::link_turns::ends_do;
use tora_arq::Verdict::{Accepted, Ahead, Foreign, Repeated};
use tora_frame::Version;

/// HELLOs at tick 0 bind two ends that speak version 2; then each knows that the other does, no frame is due, and all
/// events are polled.
const NEW_LINK: &[(End, Step)] = &[
    (First, Sends(Version::Two, 5, 0, Hello)),
    (Second, Gets(0, Accepted)),
    (First, Sends(Version::One, 5, 0, Hello)),
    (Second, Gets(1, Accepted)),
    (Second, Sends(Version::Two, 9, 5, Hello)),
    (First, Gets(2, Accepted)),
    (First, Sends(Version::Two, 5, 9, Hello)),
    (Second, Gets(3, Accepted)),
    (First, SendsNone),
    (Second, SendsNone),
    (First, Tells(Up(LIFE))),
    (Second, Tells(Up(REVERSED))),
];

/// As `NEW_LINK`, with an end of node 2 that speaks version 1, whose verdict on each HELLO of version 2 is `Foreign`.
const LINK_WITH_AN_OLD_PEER: &[(End, Step)] = &[
    (First, Sends(Version::Two, 5, 0, Hello)),
    (Old, Gets(0, Foreign)),
    (First, Sends(Version::One, 5, 0, Hello)),
    (Old, Gets(1, Accepted)),
    (Old, Sends(Version::One, 9, 5, Hello)),
    (First, Gets(2, Accepted)),
    (First, Sends(Version::Two, 5, 9, Hello)),
    (Old, Gets(3, Foreign)),
    (First, Sends(Version::One, 5, 9, Hello)),
    (Old, Gets(4, Accepted)),
    (First, SendsNone),
    (Old, SendsNone),
    (First, Tells(Up(LIFE))),
    (Old, Tells(Up(REVERSED))),
];

const BATCHES: &[(End, Step)] = &[
    (First, Submits(1, 20)),
    (First, Sends(Version::Two, 5, 9, Queries(1, 16))),
    (First, Sends(Version::Two, 5, 9, Queries(17, 20))),
    (First, SendsNone),
    (Second, Gets(1, Ahead)),
    (Second, TellsNone),
    (Second, Gets(0, Accepted)),
    (Second, Delivers(REVERSED, 1, 20)),
    (Second, TellsNone),
    (Second, Sends(Version::Two, 9, 5, Ack(20))),
    (Second, Gets(0, Repeated)),
    (Second, TellsNone),
    (First, Gets(2, Accepted)),
    (First, Waits(0)),
];

#[test]
fn batches_of_sixteen_and_four(rt: HostRuntime) {
    ends_do(&rt, rt.alloc(), Version::Two, &[NEW_LINK, BATCHES]);
}

const FLOOD: &[(End, Step)] = &[
    (First, Submits(1, 16)),
    (First, Lends),
    (First, Sends(Version::Two, 5, 9, Queries(1, 16))),
    (First, SendsNone),
    (Second, GetsBytes(0, 48 + 16 * 8, Accepted)),
    (Second, Delivers(REVERSED, 1, 16)),
    (Second, TellsNone),
];

#[test]
fn flood_of_sixteen_queries_is_one_datagram(rt: HostRuntime) {
    ends_do(&rt, rt.alloc(), Version::Two, &[NEW_LINK, FLOOD]);
}

const FRAME_FOR_EACH: &[(End, Step)] = &[
    (First, Submits(1, 20)),
    (First, Sends(Version::One, 5, 9, Query(1))),
    (Old, Gets(0, Accepted)),
    (First, Sends(Version::One, 5, 9, Query(2))),
    (Old, Gets(1, Accepted)),
    (First, Sends(Version::One, 5, 9, Query(3))),
    (Old, Gets(2, Accepted)),
    (First, Sends(Version::One, 5, 9, Query(4))),
    (Old, Gets(3, Accepted)),
    (First, Sends(Version::One, 5, 9, Query(5))),
    (Old, Gets(4, Accepted)),
    (First, Sends(Version::One, 5, 9, Query(6))),
    (Old, Gets(5, Accepted)),
    (First, Sends(Version::One, 5, 9, Query(7))),
    (Old, Gets(6, Accepted)),
    (First, Sends(Version::One, 5, 9, Query(8))),
    (Old, Gets(7, Accepted)),
    (First, Sends(Version::One, 5, 9, Query(9))),
    (Old, Gets(8, Accepted)),
    (First, Sends(Version::One, 5, 9, Query(10))),
    (Old, Gets(9, Accepted)),
    (First, Sends(Version::One, 5, 9, Query(11))),
    (Old, Gets(10, Accepted)),
    (First, Sends(Version::One, 5, 9, Query(12))),
    (Old, Gets(11, Accepted)),
    (First, Sends(Version::One, 5, 9, Query(13))),
    (Old, Gets(12, Accepted)),
    (First, Sends(Version::One, 5, 9, Query(14))),
    (Old, Gets(13, Accepted)),
    (First, Sends(Version::One, 5, 9, Query(15))),
    (Old, Gets(14, Accepted)),
    (First, Sends(Version::One, 5, 9, Query(16))),
    (Old, Gets(15, Accepted)),
    (First, Sends(Version::One, 5, 9, Query(17))),
    (Old, Gets(16, Accepted)),
    (First, Sends(Version::One, 5, 9, Query(18))),
    (Old, Gets(17, Accepted)),
    (First, Sends(Version::One, 5, 9, Query(19))),
    (Old, Gets(18, Accepted)),
    (First, Sends(Version::One, 5, 9, Query(20))),
    (Old, Gets(19, Accepted)),
    (First, SendsNone),
    (Old, Delivers(REVERSED, 1, 20)),
    (Old, TellsNone),
    (Old, Sends(Version::One, 9, 5, Ack(20))),
    (First, Gets(20, Accepted)),
];

#[test]
fn old_peer_gets_a_frame_for_each_packet(rt: HostRuntime) {
    ends_do(
        &rt,
        rt.alloc(),
        Version::Two,
        &[LINK_WITH_AN_OLD_PEER, FRAME_FOR_EACH],
    );
}

/// Of 20 packets, the frame with the first sixteen is lost, and the frame with the last four arrives but is not
/// acknowledged: both are sent again at tick 5.
const LOST_BATCH: &[(End, Step)] = &[
    (First, Submits(1, 20)),
    (First, Sends(Version::Two, 5, 9, Queries(1, 16))),
    (First, Sends(Version::Two, 5, 9, Queries(17, 20))),
    (Second, Gets(1, Ahead)),
    (Second, Sends(Version::Two, 9, 5, Ack(0))),
    (First, Gets(2, Repeated)),
    (First, At(4)),
    (First, SendsNone),
    (First, At(5)),
    (First, Sends(Version::Two, 5, 9, Queries(1, 16))),
    (First, Sends(Version::Two, 5, 9, Queries(17, 20))),
    (First, SendsNone),
];

#[test]
fn lost_packets_of_a_batch_are_due_together(rt: HostRuntime) {
    ends_do(&rt, rt.alloc(), Version::Two, &[NEW_LINK, LOST_BATCH]);
}

/// The first end sends each HELLO in both versions, also after a HELLO of version 1 arrives, until one of version 2
/// arrives. Both arrive at tick 0.
const HELLOS_OF_BOTH: &[(End, Step)] = &[
    (First, Sends(Version::Two, 5, 0, Hello)),
    (First, Sends(Version::One, 5, 0, Hello)),
    (First, SendsNone),
    (First, At(9)),
    (First, SendsNone),
    (First, At(10)),
    (First, Sends(Version::Two, 5, 0, Hello)),
    (First, Sends(Version::One, 5, 0, Hello)),
    (First, SendsNone),
    (Old, At(0)),
    (Old, Sends(Version::One, 9, 0, Hello)),
    (First, Gets(4, Accepted)),
    (First, At(10)),
    (First, Sends(Version::Two, 5, 9, Hello)),
    (First, Sends(Version::One, 5, 9, Hello)),
    (First, SendsNone),
    (Second, At(0)),
    (Second, Sends(Version::Two, 9, 0, Hello)),
    (First, Gets(7, Accepted)),
    (First, At(19)),
    (First, SendsNone),
    (First, At(20)),
    (First, Sends(Version::Two, 5, 9, Hello)),
    (First, SendsNone),
];

#[test]
fn hellos_of_both_versions_until_the_peer_is_known(rt: HostRuntime) {
    ends_do(&rt, rt.alloc(), Version::Two, &[HELLOS_OF_BOTH]);
}

const RIGHT_AFTER: &[(End, Step)] = &[
    (First, Sends(Version::Two, 5, 0, Hello)),
    (Old, Sends(Version::One, 9, 0, Hello)),
    (First, Gets(1, Accepted)),
    (First, Sends(Version::One, 5, 9, Hello)),
    (First, Sends(Version::Two, 5, 9, Hello)),
    (First, Sends(Version::One, 5, 9, Hello)),
    (First, SendsNone),
];

#[test]
fn hello_of_version_one_comes_right_after_its_hello_of_version_two(rt: HostRuntime) {
    ends_do(&rt, rt.alloc(), Version::Two, &[RIGHT_AFTER]);
}

const FOREIGN_TO_AN_OLD_END: &[(End, Step)] = &[
    (First, Submits(1, 20)),
    (First, Sends(Version::Two, 5, 9, Queries(1, 16))),
    (Old, Gets(0, Foreign)),
];

#[test]
fn frame_of_version_two_is_foreign_to_an_old_end(rt: HostRuntime) {
    ends_do(
        &rt,
        rt.alloc(),
        Version::Two,
        &[NEW_LINK, FOREIGN_TO_AN_OLD_END],
    );
}
