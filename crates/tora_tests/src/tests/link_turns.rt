//! The functions that make the steps at the ends of a link, and check the observations.
use super::carried::{Carried, body_of, frame_of};
use super::link_steps::{End, LIFE, Refusal, Step, Told};
use super::made::query_of;
use super::sees::{same, same_at};
use std::alloc::Global;
use std::process::Abort;
use tora_arq::{Life, LinkEnd, LinkEvent, SubmitError, Times, Verdict};
use tora_frame::{Frame, GREATEST_NUMBER, Header, Packets, Version, decode_into, encode};
use tora_height::Id;
use tora_packet::Packet;

/// The state that the steps of a table share.
#[derive(Drop)]
struct Course {
    /// The row of the table, from 1.
    row: u64,
    /// The tick.
    now: u64,
    /// The frames that were sent, in order.
    sent: Vec<Frame>,
    /// Whether frames are sent with `poll_transmit_into`, which puts their packets into `packets`.
    is_lent: bool,
    /// The packets of the last frame that used this list.
    packets: Packets,
}

impl Course {
    /// The state before the first row.
    fn new(alloc: Global) -> Course {
        Course {
            row: 0,
            now: 0,
            sent: Vec::new(alloc),
            is_lent: false,
            packets: Packets::new(),
        }
    }

    /// The frame that was sent with this index, counted from 0; the test fails if there is none.
    fn frame(&self, rt: &impl Abort, place: usize) -> &Frame {
        self.sent.get(place).expect(rt, "a frame that was sent")
    }
}

/// The end of node `me` on the link to `peer` that speaks this version, opened with the session number `life` at tick
/// 0. The test fails if memory runs out, or if a number, a time or `life` is out of its range.
pub fn open_end(
    rt: &impl Abort,
    alloc: Global,
    version: Version,
    (me, peer): (Id, Id),
    times: Times,
    life: u64,
) -> LinkEnd {
    assert!(rt; me > 0 && peer > 0 && me != peer);
    assert!(rt; times.hello > 0 && times.silent > 0 && times.retry > 0 && times.tries > 0);
    let end = match version {
        Version::One => LinkEnd::new_v1(alloc, me, peer, times),
        Version::Two => LinkEnd::new(alloc, me, peer, times),
    };
    let mut end = end.expect(rt, "memory");
    same(rt, &(end.me(), end.peer()), &(me, peer), "the nodes");
    same(rt, &end.times(), &times, "the times");
    same(rt, &end.version(), &version, "the version");
    opens(rt, &mut end, life, 0);
    end
}

/// Opens an end with the session number `life` at tick `now`. The test fails if the end is not closed, or if `life` is
/// not above its last number or is above 2^62.
fn opens(rt: &impl Abort, end: &mut LinkEnd, life: u64, now: u64) {
    assert!(rt; end.is_closed());
    assert!(rt; end.last_life() < life && life <= GREATEST_NUMBER);
    end.open(life, now);
    same(rt, &end.last_life(), &life, "the last life");
}

/// The end of node 1 on the link to node 2, with the standard times, opened with the session number 5.
pub fn first_end(rt: &impl Abort, alloc: Global, version: Version) -> LinkEnd {
    open_end(rt, alloc, version, (1, 2), Times::STANDARD, 5)
}

/// The end of node 2 on the link to node 1, with the standard times, opened with the session number 9.
fn second_end(rt: &impl Abort, alloc: Global, version: Version) -> LinkEnd {
    open_end(rt, alloc, version, (2, 1), Times::STANDARD, 9)
}

/// Passes a frame to an end, and checks the verdict.
fn hears(rt: &impl Abort, end: &mut LinkEnd, course: &Course, frame: &Frame, verdict: Verdict) {
    let heard = end.on_frame(frame, course.now);
    same_at(rt, &heard, &verdict, "the verdict", &course.row);
}

/// The header of a frame of version 1 with these nodes and session numbers.
fn header_of((sender, receiver): (Id, Id), (life, heard): (u64, u64)) -> Header {
    Header {
        version: Version::One,
        sender,
        receiver,
        life,
        heard,
    }
}

/// Passes a frame with this header and content to an end, and checks the verdict.
fn hears_made(
    rt: &impl Abort,
    end: &mut LinkEnd,
    course: &Course,
    header: Header,
    carried: Carried,
    verdict: Verdict,
) {
    let frame = frame_of(rt, header, carried);
    hears(rt, end, course, &frame, verdict);
}

/// Passes DATA frames `first` to `last` of the session `LIFE` to the end of node 1, and checks each verdict. Frame n
/// has one packet, `query_of` n, with the packet number n.
fn hears_each(
    rt: &impl Abort,
    end: &mut LinkEnd,
    course: &Course,
    first: u64,
    last: u64,
    verdict: Verdict,
) {
    let header = header_of((2, 1), (9, 5));
    for number in first..=last {
        hears_made(rt, end, course, header, Carried::Query(number), verdict);
    }
}

/// Encodes the frame that was sent with this index, checks that it has `len` bytes, decodes it, passes it to an end,
/// and checks the verdict.
fn gets_bytes(
    rt: &impl Abort,
    end: &mut LinkEnd,
    course: &Course,
    place: usize,
    len: usize,
    verdict: Verdict,
) {
    let datagram = encode(course.frame(rt, place));
    same_at(rt, &datagram.len(), &len, "the length", &course.row);
    let mut packets = Packets::new();
    let read = decode_into(datagram.as_slice(), &mut packets).expect(rt, "a frame");
    let heard = end.on_borrowed_frame(&read, course.now);
    same_at(rt, &heard, &verdict, "the verdict", &course.row);
}

/// Takes the first frame due from an end, which counts it as sent; `None` if no frame is due.
fn due(end: &mut LinkEnd, course: &mut Course) -> Option<Frame> {
    if course.is_lent {
        let frame = end.poll_transmit_into(course.now, &mut course.packets)?;
        return Some(frame.to_frame());
    }
    end.poll_transmit(course.now)
}

/// Takes the first frame due, checks its version, its two session numbers (`wanted`) and its content, and stores it for
/// `Gets`. The test fails if no frame is due.
fn sends(
    rt: &impl Abort,
    end: &mut LinkEnd,
    course: &mut Course,
    wanted: (Version, u64, u64),
    carried: Carried,
) {
    let frame = due(end, course).expect(rt, "a frame");
    let header = *frame.header();
    let got = (header.version, header.life, header.heard);
    same_at(rt, &got, &wanted, "the header", &course.row);
    let body = body_of(rt, carried);
    same_at(rt, frame.body(), &body, "the body", &course.row);
    course.sent.push(frame).expect(rt, "memory");
}

/// Checks that no frame is due.
fn sends_none(rt: &impl Abort, end: &mut LinkEnd, course: &mut Course) {
    let frame = due(end, course);
    same_at(rt, &frame, &None, "no frame", &course.row);
}

/// Checks that no frame is due, now and at each tick up to `last`; each of these ticks is passed to the end.
fn rests(rt: &impl Abort, end: &mut LinkEnd, course: &mut Course, last: u64) {
    sends_none(rt, end, course);
    for tick in course.now.saturating_add(1)..=last {
        course.now = tick;
        end.on_tick(tick);
        sends_none(rt, end, course);
    }
}

/// Submits `query_of` a number in a session, and checks that it is refused with `refusal`, or accepted if that is
/// `None`.
fn submits(
    rt: &impl Abort,
    end: &mut LinkEnd,
    course: &Course,
    life: Life,
    number: u64,
    refusal: Option<Refusal>,
) {
    let answer = end.submit(life, query_of(rt, number));
    let wanted = match refusal {
        None => Ok(()),
        Some(refusal) => Err(error_of(refusal, query_of(rt, number))),
    };
    same_at(rt, &answer, &wanted, "the answer", &course.row);
}

/// The error of `submit` for a refusal; `WrongLife` has the packet.
pub fn error_of(refusal: Refusal, packet: Packet) -> SubmitError {
    match refusal {
        Refusal::WrongLife => SubmitError::WrongLife(packet),
        Refusal::Full => SubmitError::Full,
        Refusal::Spent => SubmitError::Spent,
    }
}

/// Submits in the session `LIFE` `query_of` each number from `first` to `last`, and checks that all are accepted.
fn submits_each(rt: &impl Abort, end: &mut LinkEnd, course: &Course, first: u64, last: u64) {
    for number in first..=last {
        submits(rt, end, course, LIFE, number, None);
    }
}

/// Submits in the session `LIFE` `query_of` a number this many times, and checks that all are accepted.
fn submits_times(rt: &impl Abort, end: &mut LinkEnd, course: &Course, times: u64, number: u64) {
    for _ in 0..times {
        submits(rt, end, course, LIFE, number, None);
    }
}

/// Takes the next event, and checks that it is `event`, or that there is none for `None`.
fn tells(rt: &impl Abort, end: &mut LinkEnd, course: &Course, event: Option<LinkEvent>) {
    same_at(rt, &end.poll_event(), &event, "the event", &course.row);
}

/// Takes an event for each number from `first` to `last`, and checks that it delivers `query_of` the number in a
/// session.
fn delivers(
    rt: &impl Abort,
    end: &mut LinkEnd,
    course: &Course,
    life: Life,
    first: u64,
    last: u64,
) {
    for number in first..=last {
        let event = LinkEvent::Deliver(life, query_of(rt, number));
        tells(rt, end, course, Some(event));
    }
}

/// The event that a row names.
fn event_of(told: Told) -> LinkEvent {
    match told {
        Told::Up(life) => LinkEvent::Up(life),
        Told::Down(life, reason) => LinkEvent::Down(life, reason),
    }
}

/// Makes one step at an end.
fn turn(rt: &impl Abort, end: &mut LinkEnd, course: &mut Course, step: &Step) {
    match *step {
        Step::Opens(life) => opens(rt, end, life, course.now),
        Step::At(tick) => course.now = tick,
        Step::Ticks(tick) => {
            course.now = tick;
            end.on_tick(tick);
        }
        Step::Rests(last) => rests(rt, end, course, last),
        Step::Hears(life, heard, carried, verdict) => {
            let header = header_of((2, 1), (life, heard));
            hears_made(rt, end, course, header, carried, verdict);
        }
        Step::HearsEach(first, last, verdict) => hears_each(rt, end, course, first, last, verdict),
        Step::IsForeign(sender, receiver) => {
            let header = header_of((sender, receiver), (9, 5));
            hears_made(rt, end, course, header, Carried::Hello, Verdict::Foreign);
        }
        Step::Gets(place, verdict) => hears(rt, end, course, course.frame(rt, place), verdict),
        Step::GetsBytes(place, len, verdict) => gets_bytes(rt, end, course, place, len, verdict),
        Step::Sends(version, life, heard, carried) => {
            sends(rt, end, course, (version, life, heard), carried);
        }
        Step::SendsNone => sends_none(rt, end, course),
        Step::Lends => course.is_lent = true,
        Step::Submits(first, last) => submits_each(rt, end, course, first, last),
        Step::SubmitsTimes(times, number) => submits_times(rt, end, course, times, number),
        Step::IsRefused(life, number, refusal) => {
            submits(rt, end, course, life, number, Some(refusal));
        }
        Step::Tells(told) => {
            tells(rt, end, course, Some(event_of(told)));
            tells(rt, end, course, None);
        }
        Step::Delivers(life, first, last) => delivers(rt, end, course, life, first, last),
        Step::TellsNone => tells(rt, end, course, None),
        Step::Cuts(life) => end.cut(life),
        Step::LivesIn(life) => same_at(rt, &end.life(), &life, "the life", &course.row),
        Step::Waits(count) => same_at(rt, &end.waiting(), &count, "how many wait", &course.row),
    }
}

/// Makes the steps of a table at one end. The tick is 0 at first, and frames are counted anew.
pub fn does(rt: &impl Abort, alloc: Global, end: &mut LinkEnd, steps: &[Step]) {
    let mut course = Course::new(alloc);
    for step in steps {
        course.row = course.row.saturating_add(1);
        turn(rt, end, &mut course, step);
    }
}

/// The end of node 1, and two ends of node 2, of which `old` speaks version 1.
#[derive(Drop)]
struct Ends {
    first: LinkEnd,
    second: LinkEnd,
    old: LinkEnd,
}

/// Makes the steps of a table, each at its end. The tick is 0 at first, and frames are counted anew.
fn each_does(rt: &impl Abort, alloc: Global, ends: &mut Ends, steps: &[(End, Step)]) {
    let mut course = Course::new(alloc);
    for (end, step) in steps {
        course.row = course.row.saturating_add(1);
        let end = match end {
            End::First => &mut ends.first,
            End::Second => &mut ends.second,
            End::Old => &mut ends.old,
        };
        turn(rt, end, &mut course, step);
    }
}

/// Makes the steps of tables, one table after the other, at three new ends: `First` and `Second` speak this version,
/// and `Old` speaks version 1.
pub fn ends_do(rt: &impl Abort, alloc: Global, version: Version, tables: &[&[(End, Step)]]) {
    let mut ends = Ends {
        first: first_end(rt, alloc, version),
        second: second_end(rt, alloc, version),
        old: second_end(rt, alloc, Version::One),
    };
    for steps in tables {
        each_does(rt, alloc, &mut ends, steps);
    }
}
