//! The tallies of a node after its end.
use super::*;
use tora_arq::Verdict;
use tora_neighbour::Tally;

/// The datagrams on the wire to 2; the node's end has the session number 1. The comment at a row names the fault of the
/// datagram and the number of the fault, which is also how often it arrives, or the verdict on its frame.
const COMING: &[Coming] = &[
    // Too short, 1.
    (1, ""),
    // A HELLO (9,0) with one more byte, 2.
    (
        2,
        "0101000000000002000000010000000000000009000000000000000000",
    ),
    // Of version 3, 3.
    (
        3,
        "03010000000000020000000100000000000000090000000000000000",
    ),
    // Of kind 4, 4.
    (
        4,
        "01040000000000020000000100000000000000090000000000000000",
    ),
    // A HELLO with a payload of one byte, 5.
    (
        5,
        "0101000100000002000000010000000000000009000000000000000000",
    ),
    // A HELLO of node 1 to itself, 6.
    (
        6,
        "01010000000000010000000100000000000000090000000000000000",
    ),
    // The session number 0, 7.
    (
        7,
        "01010000000000020000000100000000000000000000000000000000",
    ),
    // An ACK of 2^62 + 1 packets, 8.
    (
        8,
        "010300080000000200000001000000000000000900000000000000014000000000000001",
    ),
    // A DATA frame whose packet has version 2, 9.
    (
        9,
        "0102001800000002000000010000000000000009000000000000000100000000000000010000000000000000\
         0201000000000004",
    ),
    // A DATA frame of version 2 without a packet, 10.
    (
        10,
        "0202001c00000002000000010000000000000009000000000000000100000000000000010000000000000000\
         000000000101000000000004",
    ),
    // A HELLO of node 3: Foreign.
    (
        2,
        "01010000000000030000000100000000000000090000000000000000",
    ),
    // A DATA frame (9,4), before any HELLO: Stale.
    (
        6,
        "0102001800000002000000010000000000000009000000000000000400000000000000010000000000000000\
         0101000000000004",
    ),
    // A HELLO (9,0): Accepted.
    (
        1,
        "01010000000000020000000100000000000000090000000000000000",
    ),
    // A HELLO (8,0), with a lower session number: Stale.
    (
        1,
        "01010000000000020000000100000000000000080000000000000000",
    ),
    // A HELLO (9,1), which binds the session: Accepted.
    (
        1,
        "01010000000000020000000100000000000000090000000000000001",
    ),
    // The first packet: Accepted once, and then Repeated.
    (
        6,
        "0102001800000002000000010000000000000009000000000000000100000000000000010000000000000000\
         0101000000000004",
    ),
    // The third packet, before the second: Ahead.
    (
        4,
        "0102001800000002000000010000000000000009000000000000000100000000000000030000000000000000\
         0101000000000004",
    ),
];

/// How often each verdict is expected. Busy cannot occur: a link's thread puts the events of a datagram before it
/// receives the next one, so 34 places for events are always free.
const VERDICTS: &[(Verdict, u64)] = &[
    (Verdict::Accepted, 3),
    (Verdict::Repeated, 5),
    (Verdict::Ahead, 4),
    (Verdict::Stale, 7),
    (Verdict::Foreign, 2),
    (Verdict::Busy, 0),
];

/// Runs the node over wires that do not break. These datagrams arrive on the wire to 2, and two that are too short on
/// the wire to 3.
fn run_whole<'a, R: Threads + Wait + Sync + time::Clock + log::Log + Abort>(
    rt: &'a R,
    alloc: Global,
    rows: &[Coming],
    settled: &'a AtomicU64,
) -> Result<Ended, NodeError> {
    let second = wire_of(rt, alloc, WHOLE, 1, rows, settled);
    let third = wire_of(rt, alloc, WHOLE, 0, &[(2, "01")], settled);
    let wires = list_of_two(rt, alloc, second, third);
    let disks = new_disks(rt, alloc);
    let mut paper = paper_of(Output::Whole);
    let mut commands = settled_commands(rt, settled, b"quit\n");
    run_settled(rt, alloc, wires, disks, &mut commands, &mut paper)
}

/// Checks how often each verdict was counted.
fn verdicts_are(rt: &impl Abort, tally: &Tally, wanted: &[(Verdict, u64)]) {
    for (verdict, count) in wanted {
        same_at(rt, &tally.of_verdict(*verdict), count, "the count", verdict);
    }
}

/// Checks that each fault of a frame was counted as often as its number says.
fn faults_are_their_numbers(rt: &impl Abort, tally: &Tally) {
    for number in 1..=10u8 {
        let count = tally.of_bad(number);
        same_at(rt, &count, &u64::from(number), "the count", &number);
    }
}

/// The tally of a neighbour.
fn tally_of(rt: &impl Abort, ended: &Ended, peer: Id) -> Tally {
    there(rt, ended.tally(peer), "the tally of a neighbour")
}

/// Checks that the node has no tally of a neighbour.
fn has_none(rt: &impl Abort, ended: &Ended, peer: Id) {
    sees_at(rt, ended.tally(peer).is_none(), "no tally", &peer);
}

#[test]
fn tallies_count_what_came(rt: HostRuntime) {
    let settled = AtomicU64::new(0);
    let answer = run_whole(&rt, rt.alloc(), COMING, &settled);
    let ended = there(&rt, answer.ok(), "the end of a node");
    let second = tally_of(&rt, &ended, 2);
    verdicts_are(&rt, &second, VERDICTS);
    faults_are_their_numbers(&rt, &second);
    let third = tally_of(&rt, &ended, 3);
    let short = (third.of_bad(1), total(&third));
    same(&rt, &short, &(2, 2), "the tally of 3");
    has_none(&rt, &ended, 1);
    has_none(&rt, &ended, 4);
}
