// Datagrams that no honest peer sends, and how an end counts them.
ghost use Rattle.std.specs.Prelude.{◌≤◌};

use super::*;
use hex::decode_to_slice;
use tora_arq::{LinkEvent, Reason};
use tora_frame::decode;

const LIFE: Life = Life { own: 5, peer: 9 };

/// The frames of the document on formats: two HELLOs, a DATA frame with a query, and an ACK; DATA frames with an update
/// and with a clear; and a DATA frame of version 2 with a query and a clear.
const VECTORS: [&str; 7] = [
    "01010000000000010000000200000000000000050000000000000000",
    "01010000000000020000000100000000000000090000000000000005",
    "0102001800000001000000020000000000000005000000000000000900000000000000010000000000000000\
     0101000000000004",
    "010300080000000200000001000000000000000900000000000000050000000000000001",
    "0102003000000002000000010000000000000009000000000000000500000000000000010000000000000000\
     010200000000000400000000000000070000000300000000ffffffff00000002",
    "0102002400000002000000010000000000000009000000000000000500000000000000020000000000000000\
     0103000000000004000000000000000700000003",
    "0202003000000002000000010000000000000009000000000000000500000000000000010000000000000000\
     0200000001010000000000040103000000000004000000000000000700000003",
];

/// Datagrams, in hexadecimal digits, and the result of `take_in` for each at the end of node 1 to node 2, bound to
/// {5, 9} with no event to poll. In the comments, (a,b) are the session numbers in the frame: the sender's, and the one
/// that it has heard.
const HOSTILE: [(&str, Intake); 11] = [
    ("", Intake::Bad(FrameError::Short)),
    // A HELLO (9,5) with one more byte.
    (
        "0101000000000002000000010000000000000009000000000000000500",
        Intake::Bad(FrameError::Long),
    ),
    // The session number 2^62 + 1.
    (
        "01010000000000020000000140000000000000010000000000000005",
        Intake::Bad(FrameError::Life),
    ),
    // A HELLO of node 3.
    (
        "01010000000000030000000100000000000000090000000000000005",
        Intake::Seen(Verdict::Foreign),
    ),
    // A DATA frame of node 2 with an update whose height is that of node 3.
    (
        "0102003000000002000000010000000000000009000000000000000500000000000000010000000000000000\
         0102000000000004000000000000000700000003000000000000000000000003",
        Intake::Seen(Verdict::Foreign),
    ),
    // An ACK of a packet that was never sent.
    (
        "010300080000000200000001000000000000000900000000000000050000000000000001",
        Intake::Seen(Verdict::Foreign),
    ),
    // A HELLO (8,5).
    (
        "01010000000000020000000100000000000000080000000000000005",
        Intake::Seen(Verdict::Stale),
    ),
    // A DATA frame (9,4).
    (
        "0102001800000002000000010000000000000009000000000000000400000000000000010000000000000000\
         0101000000000004",
        Intake::Seen(Verdict::Stale),
    ),
    // A DATA frame numbered 2^62.
    (
        "0102001800000002000000010000000000000009000000000000000540000000000000000000000000000000\
         0101000000000004",
        Intake::Seen(Verdict::Ahead),
    ),
    // A DATA frame of version 2 without a packet.
    (
        "0202003000000002000000010000000000000009000000000000000500000000000000010000000000000000\
         0000000001010000000000040103000000000004000000000000000700000003",
        Intake::Bad(FrameError::Count),
    ),
    // A HELLO (2^62,0).
    (
        "01010000000000020000000140000000000000000000000000000000",
        Intake::Seen(Verdict::Accepted),
    ),
];

/// The bytes that a text of hexadecimal digits spells, followed by zeros, and their number, at most 76. The test fails
/// for any other text.
fn bytes_of(rt: &impl Abort, text: &str) -> ([u8; 76], usize)
    ensures { result.1 ≤ 76 }
{
    let mut bytes = [0u8; 76];
    let size = text.len() / 2;
    assert!(rt; size <= 76);
    assert!(rt; decode_to_slice(text, &mut bytes[..size]).is_ok());
    (bytes, size)
}

/// Polls an event of an end, and checks that it is `wanted`; `None` if there is none.
fn event_is(rt: &impl Abort, end: &mut LinkEnd, wanted: Option<LinkEvent>, what: &str) {
    same(rt, &end.poll_event(), &wanted, what);
}

/// The end of node 1 to node 2, bound to {5, 9}, with no event to poll.
fn bound(rt: &impl Abort, alloc: Global) -> LinkEnd {
    let mut end = open_end(rt, alloc, 1, 2, 5);
    let (hello, size) = bytes_of(rt, VECTORS[1]);
    let seen = Intake::Seen(Verdict::Accepted);
    takes(
        rt,
        &mut end,
        &mut Tally::new(),
        &hello[..size],
        seen,
        "the HELLO that binds",
    );
    event_is(
        rt,
        &mut end,
        Some(LinkEvent::Up(LIFE)),
        "the life that is bound",
    );
    event_is(rt, &mut end, None, "nothing behind it");
    end
}

/// Checks that exactly one datagram was counted, under this result of `take_in`.
fn counted_once(rt: &impl Abort, tally: &Tally, intake: Intake) {
    same(rt, &total(tally), &1, "the datagrams");
    let count = match intake {
        Intake::Bad(error) => tally.of_bad(error.number()),
        Intake::Seen(verdict) => tally.of_verdict(verdict),
    };
    same(rt, &count, &1, "those of this kind");
}

/// Passes one datagram to a bound end. Checks the result, that it is counted once, under this result, and the next
/// event: the end of the session by `NewPeer` if the datagram is accepted, otherwise none.
fn take_one(rt: &impl Abort, alloc: Global, datagram: &str, expected: Intake) {
    let mut end = bound(rt, alloc);
    let mut tally = Tally::new();
    let (bytes, size) = bytes_of(rt, datagram);
    takes(rt, &mut end, &mut tally, &bytes[..size], expected, datagram);
    counted_once(rt, &tally, expected);
    let ended = LinkEvent::Down(LIFE, Reason::NewPeer);
    let event = if expected == Intake::Seen(Verdict::Accepted) {
        Some(ended)
    } else {
        None
    };
    event_is(rt, &mut end, event, datagram);
}

/// Runs `take_one` for each row: each datagram has a bound end of its own.
fn take_each(rt: &impl Abort, alloc: Global, rows: &[(&str, Intake)]) {
    for (datagram, expected) in rows {
        take_one(rt, alloc, datagram, *expected);
    }
}

#[test]
fn verdicts_of_hostile_frames(rt: HostRuntime) {
    take_each(&rt, rt.alloc(), &HOSTILE);
}

/// Passes to an end DATA frame `number` of the bound session, with the query for destination 4, and checks the verdict.
fn take_data(rt: &impl Abort, end: &mut LinkEnd, tally: &mut Tally, number: u8, verdict: Verdict) {
    let (mut bytes, size) = bytes_of(
        rt,
        "0102001800000002000000010000000000000009000000000000000500000000000000000000000000000000\
         0101000000000004",
    );
    bytes[35] = number;
    let intake = take_in(end, tally, &bytes[..size], 0);
    same_at(rt, &intake, &Intake::Seen(verdict), "a DATA frame", &number);
}

#[test]
fn busy_end_takes_in_no_more(rt: HostRuntime) {
    let mut end = bound(&rt, rt.alloc());
    let mut tally = Tally::new();
    for number in 1..32u8 {
        take_data(&rt, &mut end, &mut tally, number, Verdict::Accepted);
    }
    take_data(&rt, &mut end, &mut tally, 32, Verdict::Busy);
    sees(&rt, end.poll_event().is_some(), "something is told");
    take_data(&rt, &mut end, &mut tally, 32, Verdict::Accepted);
    let accepted = tally.of_verdict(Verdict::Accepted);
    same(&rt, &accepted, &32, "those that were accepted");
    same(&rt, &total(&tally), &33, "all datagrams");
}

/// Passes each proper prefix of `vector` to one bound end. Checks that each counts as too short, and that the end stays
/// bound.
fn take_cut(rt: &impl Abort, alloc: Global, vector: &str) {
    let mut end = bound(rt, alloc);
    let mut tally = Tally::new();
    let (bytes, size) = bytes_of(rt, vector);
    let short = Intake::Bad(FrameError::Short);
    for length in 0..size {
        let intake = take_in(&mut end, &mut tally, &bytes[..length], 0);
        same_at(rt, &intake, &short, vector, &length);
    }
    same(
        rt,
        &tally.of_bad(1),
        &(size as u64),
        "those that are too short",
    );
    life_stays(rt, &end);
}

/// Checks that the end is bound to the session {5, 9}, as `bound` makes it.
fn life_stays(rt: &impl Abort, end: &LinkEnd) {
    same(rt, &end.life(), &Some(LIFE), "the life that is bound");
}

/// Runs `take_cut` for each vector, with a bound end of its own.
fn cut_each(rt: &impl Abort, alloc: Global, vectors: &[&str]) {
    for vector in vectors {
        take_cut(rt, alloc, vector);
    }
}

#[test]
fn vectors_cut_at_every_length(rt: HostRuntime) {
    cut_each(&rt, rt.alloc(), &VECTORS);
}

/// Checks that decoding the bytes fails with the error `bad`, with which they were counted, or succeeds if `bad` is
/// `None`.
fn is_read_so(rt: &impl Abort, bytes: &[u8], bad: Option<FrameError>) {
    same(rt, &decode(bytes).err(), &bad, "what the bytes spell");
}

/// Passes bytes to a bound end. Checks that they are counted once, and as bad exactly if they are not a frame, and that
/// the end stays bound to its session if they are bad.
fn take_any(rt: &impl Abort, alloc: Global, bytes: &[u8]) {
    let mut end = bound(rt, alloc);
    let mut tally = Tally::new();
    match take_in(&mut end, &mut tally, bytes, 0) {
        Intake::Bad(error) => {
            is_read_so(rt, bytes, Some(error));
            life_stays(rt, &end);
        }
        Intake::Seen(_) => is_read_so(rt, bytes, None),
    }
    same(rt, &total(&tally), &1, "the datagrams");
}

/// Runs `take_any` for the vector with one byte at a time set to `byte`, and the other bytes as they are.
fn take_changed(rt: &impl Abort, alloc: Global, vector: &str, byte: u8) {
    let (bytes, size) = bytes_of(rt, vector);
    for place in 0..size {
        let mut changed = bytes;
        changed[place] = byte;
        take_any(rt, alloc, &changed[..size]);
    }
}

/// Runs `take_changed` with `byte` for each vector.
fn change_each(rt: &impl Abort, alloc: Global, vectors: &[&str], byte: u8) {
    for vector in vectors {
        take_changed(rt, alloc, vector, byte);
    }
}

#[test]
fn vectors_with_each_byte_changed(rt: HostRuntime) {
    change_each(&rt, rt.alloc(), &VECTORS, 0);
    change_each(&rt, rt.alloc(), &VECTORS, 1);
    change_each(&rt, rt.alloc(), &VECTORS, 255);
}
