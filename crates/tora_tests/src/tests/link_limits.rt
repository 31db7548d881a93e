//! Link ends of version 1 over time and at their limits: retransmission, silence, a full send queue, memory that runs
//! out; and their texts.
use super::carried::Carried::{Hello, Query};
use super::link_ends::{BOUND, first_does};
use super::link_steps::Step::{
    At, Cuts, Hears, IsRefused, LivesIn, Opens, Rests, Sends, SendsNone, Submits, SubmitsTimes,
    Tells, TellsNone, Ticks, Waits,
};
use super::link_steps::Told::{Down, Up};
use super::link_steps::{LIFE, Refusal, Step};
use super::link_turns::{does, error_of, first_end};
use super::made::query_of;
use super::sees::{prints, same, same_at, same_text, sees};
use std::alloc::Global;
use std::process::Abort;
use std::test::Fail;
use tora_arq::Verdict::{Accepted, Ahead};
use tora_arq::{ArqError, Life, LinkEnd, Reason, Times, Verdict};
use tora_frame::Version;

/// A packet is never acknowledged: its DATA frame is due at tick 0 and every 5 ticks up to 35, after a HELLO at ticks
/// 10, 20 and 30. At tick 40 the session ends as `Silent`.
const UNANSWERED: &[Step] = &[
    Submits(1, 1),
    Ticks(0),
    Sends(Version::One, 5, 9, Query(1)),
    Rests(4),
    Ticks(5),
    Sends(Version::One, 5, 9, Query(1)),
    Rests(9),
    Ticks(10),
    Sends(Version::One, 5, 9, Hello),
    Sends(Version::One, 5, 9, Query(1)),
    Rests(14),
    Ticks(15),
    Sends(Version::One, 5, 9, Query(1)),
    Rests(19),
    Ticks(20),
    Sends(Version::One, 5, 9, Hello),
    Sends(Version::One, 5, 9, Query(1)),
    Rests(24),
    Ticks(25),
    Sends(Version::One, 5, 9, Query(1)),
    Rests(29),
    Ticks(30),
    Sends(Version::One, 5, 9, Hello),
    Sends(Version::One, 5, 9, Query(1)),
    Rests(34),
    Ticks(35),
    Sends(Version::One, 5, 9, Query(1)),
    Rests(39),
    TellsNone,
    Ticks(40),
    Tells(Down(LIFE, Reason::Silent)),
];

#[test]
fn unanswered_packet_is_retried_then_silent(rt: HostRuntime) {
    first_does(&rt, rt.alloc(), UNANSWERED);
}

const UNHEARD: &[Step] = &[
    Ticks(49),
    TellsNone,
    Ticks(50),
    Tells(Down(LIFE, Reason::Silent)),
];

#[test]
fn unheard_peer_ends_the_life(rt: HostRuntime) {
    first_does(&rt, rt.alloc(), UNHEARD);
}

const FULL: &[Step] = &[
    IsRefused(Life { own: 5, peer: 8 }, 4, Refusal::WrongLife),
    SubmitsTimes(256, 4),
    IsRefused(LIFE, 4, Refusal::Full),
    Tells(Down(LIFE, Reason::Full)),
    IsRefused(LIFE, 4, Refusal::WrongLife),
];

#[test]
fn full_send_queue_ends_the_life(rt: HostRuntime) {
    first_does(&rt, rt.alloc(), FULL);
}

const CLOCK: &[Step] = &[
    At(u64::MAX),
    Hears(9, 5, Hello, Accepted),
    Ticks(0),
    SendsNone,
    Ticks(u64::MAX),
    LivesIn(Some(LIFE)),
];

#[test]
fn clock_that_goes_back_counts_as_no_time(rt: HostRuntime) {
    first_does(&rt, rt.alloc(), CLOCK);
}

/// The steps of all rows are made at one end. After those of a row, each pair has a tick and what `next_due` returns
/// for it: the first tick from it on at which a frame is due or the session ends, or `None`. The times are those of the
/// program: a HELLO after 10 ticks, a retransmission after 5.
const DUE: &[(&[Step], &[(u64, Option<u64>)])] = &[
    (&[], &[(0, Some(0)), (7, Some(7))]),
    (BOUND, &[(0, Some(10)), (9, Some(10)), (12, Some(12))]),
    (&[Submits(1, 2)], &[(0, Some(0))]),
    (
        &[
            Sends(Version::One, 5, 9, Query(1)),
            Sends(Version::One, 5, 9, Query(2)),
            SendsNone,
        ],
        &[(0, Some(5)), (6, Some(6)), (u64::MAX, Some(u64::MAX))],
    ),
    (&[Cuts(LIFE)], &[(0, None), (u64::MAX, None)]),
];

#[test]
fn next_due_is_the_first_tick_with_a_frame(rt: HostRuntime) {
    let mut end = first_end(&rt, rt.alloc(), Version::One);
    for (steps, rows) in DUE {
        does(&rt, rt.alloc(), &mut end, steps);
        for (now, wanted) in *rows {
            same_at(&rt, &end.next_due(*now), wanted, "the tick", now);
        }
    }
}

#[test]
fn an_end_is_printed(rt: HostRuntime) -> Result<(), Fail> {
    let end = first_end(&rt, rt.alloc(), Version::One);
    let text = format!(in rt.alloc(); "{end:?}")?;
    let start = "LinkEnd { settings: Settings { version: One, me: 1, peer: 2,";
    sees(&rt, text.as_str().starts_with(start), "the end's text");
    let words = format!(in rt.alloc(); "{} {}", Reason::NewPeer, Verdict::Ahead)?;
    same_text(&rt, words.as_str(), "new peer ahead", "the words");
    Ok(())
}

/// A session is opened and bound, 256 packets fill the send queue, and the next one ends the session. An end needs no
/// memory for these steps.
const LIVES: &[Step] = &[
    Waits(0),
    Opens(5),
    Hears(9, 5, Hello, Accepted),
    Tells(Up(LIFE)),
    Submits(1, 256),
    Hears(9, 5, Query(32), Ahead),
    Waits(256),
    IsRefused(LIFE, 257, Refusal::Full),
    Tells(Down(LIFE, Reason::Full)),
];

/// Makes the steps of `LIVES` at the end of node 1 on the link to node 2; for an error, checks that it is `Memory`.
fn lives(rt: &impl Abort, alloc: Global, made: Result<LinkEnd, ArqError>) {
    match made {
        Err(error) => same(rt, &error, &ArqError::Memory, "the error"),
        Ok(mut end) => {
            same(rt, &(end.me(), end.peer()), &(1, 2), "the nodes");
            does(rt, alloc, &mut end, LIVES);
        }
    }
}

// Makes ends of both versions twice. `bench/refused-memory.sh` runs this with each request for memory refused in turn:
// the only error is `Memory`, and an end that was made needs no memory.
#[test]
fn want_of_memory_is_answered(rt: HostRuntime) {
    for _ in 0..2 {
        lives(
            &rt,
            rt.alloc(),
            LinkEnd::new(rt.alloc(), 1, 2, Times::STANDARD),
        );
        lives(
            &rt,
            rt.alloc(),
            LinkEnd::new_v1(rt.alloc(), 1, 2, Times::STANDARD),
        );
    }
}

const CAUSES: &[(Refusal, &str)] = &[
    (Refusal::WrongLife, "the life is not the bound one"),
    (Refusal::Full, "the send queue is full"),
    (Refusal::Spent, "the numbers of packets are used up"),
];

#[test]
fn errors_are_printed_with_their_cause(rt: HostRuntime) {
    for (refusal, text) in CAUSES {
        let error = error_of(*refusal, query_of(&rt, 4));
        prints(&rt, rt.alloc(), &error, text);
    }
    prints(&rt, rt.alloc(), &ArqError::Memory, "out of memory");
}
