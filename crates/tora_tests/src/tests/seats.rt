//! A core's seat that serves items while its outbound queues fill up.

use super::sees::{prints_each, same_at, same_text};
use std::alloc::Global;
use std::process::Abort;
use std::test::Fail;
use steps::Step::{Counts, Cuts, Fills, Hands, Lives, Offers, Serves, Steps, Waits};
use steps::Told::{Beat, Need};
use steps::{Given, Handed, Step, Told, made, runs};
use tora_arq::Life;
use tora_core::StepError;
use tora_seat::{Answer, Cargo, CoreSeat, Item, OutLanes, What};

mod line;
mod steps;

/// How many messages a queue of the tests holds.
const ROOM: usize = 256;

/// The session of the link to 2.
const FIRST: Life = Life { own: 5, peer: 9 };

/// The session of the link to 3.
const SECOND: Life = Life { own: 1, peer: 1 };

/// A message that was offered to the queue at an index, and whether it was put.
#[derive(Clone, Copy, Debug, PartialEq, Eq)]
struct Offered {
    place: usize,
    cargo: Cargo,
    put: bool,
}

/// Two queues: how many messages wait in each, and what was offered.
#[derive(Drop)]
struct TestLanes {
    first: usize,
    second: usize,
    offers: Vec<Offered>,
}

impl TestLanes {
    /// Empty queues.
    fn new(alloc: Global) -> TestLanes {
        TestLanes {
            first: 0,
            second: 0,
            offers: Vec::new(alloc),
        }
    }

    /// Counts a message into the first queue (index 0) or the second (any other index), and returns true. Returns false
    /// if the queue is full.
    fn put(&mut self, place: usize) -> bool {
        if place == 0 {
            if self.first >= ROOM {
                return false;
            }
            self.first += 1;
        } else {
            if self.second >= ROOM {
                return false;
            }
            self.second += 1;
        }
        true
    }
}

impl OutLanes for TestLanes {
    ghost count = { λ _. 2 };

    ghost did_offer = { λ _ _ _ _ _. Unit {0} };

    fn offer(&mut self, place: usize, cargo: Cargo) -> bool {
        let put = self.put(place);
        let offered = Offered { place, cargo, put };
        match self.offers.push(offered) {
            Ok(()) => {}
            Err(_) => {}
        }
        put
    }
}

/// Node 1 needs a route to each of 4 to 8, and then the link to 2 comes up: five packets are offered to its queue.
const NEEDING: &[Step] = &[
    Serves(2, Need(4)),
    Serves(2, Need(5)),
    Serves(2, Need(6)),
    Serves(2, Need(7)),
    Serves(2, Need(8)),
    Serves(0, Told::Up(FIRST)),
    Counts(5),
];

/// The seat of node 1 after `NEEDING`, and its queues, the first of which holds this many messages.
fn needing(rt: &impl Abort, alloc: Global, waiting: usize) -> (CoreSeat, TestLanes) {
    let (mut seat, mut lanes) = made(rt, alloc, &[4, 5, 6, 7, 8]).expect(rt, "memory");
    runs(rt, &mut seat, &mut lanes, NEEDING);
    lanes.first = waiting;
    (seat, lanes)
}

/// The link to 3 comes up while the queue to 2 has room for two packets: a third is refused, so the session to 2 is
/// cut, and the cut is pending while that queue is full.
const HANDED_BACK: &[Step] = &[
    Serves(1, Told::Up(SECOND)),
    Offers(&[
        (0, Given::Packet(FIRST, 4), true),
        (1, Given::Packet(SECOND, 4), true),
        (0, Given::Packet(FIRST, 5), true),
        (1, Given::Packet(SECOND, 5), true),
        (0, Given::Packet(FIRST, 6), false),
        (1, Given::Packet(SECOND, 6), true),
        (1, Given::Packet(SECOND, 7), true),
        (1, Given::Packet(SECOND, 8), true),
    ]),
    Hands(&[Handed::Up(3), Handed::Down(2)]),
    Lives(0, None),
    Cuts(0, Some(FIRST)),
    Lives(1, Some(SECOND)),
    Serves(0, Told::Packet(FIRST, 4)),
    Offers(&[(0, Given::Cut(FIRST), false)]),
    Hands(&[]),
    Steps(None),
];

#[test]
fn handed_back_packet_cuts_its_life(rt: HostRuntime) {
    let (mut seat, mut lanes) = needing(&rt, rt.alloc(), 254);
    runs(&rt, &mut seat, &mut lanes, HANDED_BACK);
}

/// After a session was cut as in `HANDED_BACK`, the queue to 2 has room again: the next item puts the pending cut,
/// once.
const CUT_ONCE: &[Step] = &[
    Serves(1, Told::Up(SECOND)),
    Counts(8),
    Fills(255),
    Serves(2, Beat),
    Offers(&[(0, Given::Cut(FIRST), true)]),
    Cuts(0, None),
    Serves(2, Beat),
    Offers(&[]),
];

#[test]
fn pending_cut_is_put_once_there_is_room(rt: HostRuntime) {
    let (mut seat, mut lanes) = needing(&rt, rt.alloc(), 254);
    runs(&rt, &mut seat, &mut lanes, CUT_ONCE);
}

/// How many of the offered messages were put into the first queue.
fn put_first(lanes: &TestLanes) -> usize {
    let mut put = 0usize;
    for offered in lanes.offers.iter() {
        if offered.place == 0 && offered.put {
            put = put.saturating_add(1);
        }
    }
    put
}

/// Checks whether the session to 2 is cut: then it has no current session, a cut is pending and the core has the link
/// as down. Otherwise none of the three may hold. `waiting` names the turn.
fn is_cut_first(rt: &impl Abort, seat: &CoreSeat, is_cut: bool, waiting: usize) {
    let found = (
        seat.current(0).is_none(),
        seat.pending(0).is_some(),
        !seat.core().is_up(2),
    );
    let wanted = (is_cut, is_cut, is_cut);
    same_at(rt, &found, &wanted, "cut, to be cut, down", &waiting);
}

/// The link to 3 comes up.
const SECOND_UP: &[Step] = &[Serves(1, Told::Up(SECOND))];

#[test]
fn life_is_cut_where_its_lane_is_short_of_room(rt: HostRuntime) {
    for waiting in 0..257 {
        let (mut seat, mut lanes) = needing(&rt, rt.alloc(), waiting);
        runs(&rt, &mut seat, &mut lanes, SECOND_UP);
        let put = 5.min(256 - waiting);
        same_at(&rt, &put_first(&lanes), &put, "what was put", &waiting);
        is_cut_first(&rt, &seat, waiting > 251, waiting);
    }
}

/// The cut of the session to 2 is requested, while the session to 3 goes on. A second request, and one for a node that
/// is not a neighbour, have no effect.
const CUT_NOW: &[Step] = &[
    Serves(1, Told::Up(SECOND)),
    Counts(10),
    Serves(2, Told::Cut(9)),
    Offers(&[]),
    Hands(&[]),
    Serves(2, Told::Cut(2)),
    Offers(&[(0, Given::Cut(FIRST), true)]),
    Hands(&[Handed::Down(2)]),
    Lives(0, None),
    Cuts(0, None),
    Lives(1, Some(SECOND)),
    Serves(2, Told::Cut(2)),
    Offers(&[]),
    Hands(&[]),
    Serves(0, Told::Packet(FIRST, 4)),
    Steps(None),
];

#[test]
fn cut_that_is_asked_for_ends_its_life_at_once(rt: HostRuntime) {
    let (mut seat, mut lanes) = needing(&rt, rt.alloc(), 0);
    runs(&rt, &mut seat, &mut lanes, CUT_NOW);
}

/// The cut of the session to 2 is requested while the queue to 2 is full: the link is down, and the cut is pending
/// until there is room.
const CUT_LATER: &[Step] = &[
    Serves(2, Told::Cut(2)),
    Offers(&[(0, Given::Cut(FIRST), false)]),
    Hands(&[Handed::Down(2)]),
    Lives(0, None),
    Cuts(0, Some(FIRST)),
    Fills(255),
    Serves(2, Beat),
    Offers(&[(0, Given::Cut(FIRST), true)]),
    Cuts(0, None),
];

#[test]
fn cut_that_is_asked_for_waits_for_room(rt: HostRuntime) {
    let (mut seat, mut lanes) = needing(&rt, rt.alloc(), 256);
    runs(&rt, &mut seat, &mut lanes, CUT_LATER);
}

/// A packet of the current session is passed to the core, and one of another session is not.
const STEPPED: &[Step] = &[
    Serves(0, Told::Packet(FIRST, 4)),
    Steps(Some((2, FIRST, 4))),
    Hands(&[Handed::Packet(2, 4)]),
    Serves(0, Told::Packet(SECOND, 4)),
    Steps(None),
];

#[test]
fn packet_of_the_current_life_is_handed_to_the_core(rt: HostRuntime) {
    let (mut seat, mut lanes) = needing(&rt, rt.alloc(), 0);
    runs(&rt, &mut seat, &mut lanes, STEPPED);
}

/// Steps that need no memory: the link to 2 comes up, a route to 4 is required, and a new session replaces that of the
/// link.
const SERVED: &[Step] = &[
    Serves(0, Told::Up(FIRST)),
    Hands(&[Handed::Up(2)]),
    Serves(2, Need(4)),
    Hands(&[Handed::Need(4)]),
    Waits(1),
    Serves(0, Told::Up(SECOND)),
    Hands(&[Handed::Down(2), Handed::Up(2)]),
    Lives(0, Some(SECOND)),
];

// `bench/refused-memory.sh` runs this with each request for memory refused in turn: there is no seat, or one that
// serves items without memory.
#[test]
fn want_of_memory_is_answered(rt: HostRuntime) {
    if let Some((mut seat, mut lanes)) = made(&rt, rt.alloc(), &[4]) {
        runs(&rt, &mut seat, &mut lanes, SERVED);
    }
}

/// The text of answers.
const ANSWERS: &[(Answer, &str)] = &[
    (Answer::Nothing, "nothing"),
    (
        Answer::Refused(StepError::WrongSender),
        "refused: the update is not of the neighbour that sent it",
    ),
    (Answer::Show, "show"),
    (Answer::Quit, "quit"),
];

#[test]
fn answers_are_shown(rt: HostRuntime) {
    prints_each(&rt, rt.alloc(), ANSWERS);
}

#[test]
fn items_and_cargoes_are_shown(rt: HostRuntime) -> Result<(), Fail> {
    let alloc = rt.alloc();
    let item = Item {
        seat: 0,
        number: 1,
        now: 7,
        what: What::Up(FIRST),
    };
    let cut = Cargo::Cut(FIRST);
    let refused = Answer::Refused(StepError::NotUp);
    let text = format!(in alloc; "{item}, {cut}, {refused}")?;
    let expected = format!(in alloc; "0 1 7 up 5/9, cut 5/9, refused: {}", StepError::NotUp)?;
    same_text(&rt, text.as_str(), expected.as_str(), "the three");
    Ok(())
}
