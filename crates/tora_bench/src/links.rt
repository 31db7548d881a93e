//! Two link ends in one thread.
use arrayvec::ArrayVec;
use std::alloc::Global;
use tora_arq::{Life, LinkEnd, Times, WINDOW};
use tora_frame::{BorrowedFrame, LONGEST_FRAME, Packets, Version, decode_into, encode_into};
use tora_height::Height;
use tora_packet::{Packet, Update};

/// How a frame is passed from one end to the other.
#[derive(Clone, Copy, PartialEq, Eq)]
pub enum Passed {
    /// As a value.
    Frame,
    /// As bytes, encoded and decoded.
    Bytes,
}

/// The buffers that are reused for each frame.
#[derive(Drop)]
struct Kept {
    bytes: ArrayVec<u8, LONGEST_FRAME>,
    packets: Packets,
}

impl Kept {
    /// Empty buffers.
    fn new() -> Kept {
        Kept {
            bytes: ArrayVec::new(),
            packets: Packets::new(),
        }
    }

    /// Passes a frame to an end, as it is or encoded and decoded, at tick 0.
    fn pass(&mut self, frame: &BorrowedFrame<'_>, to: &mut LinkEnd, passed: Passed) {
        if passed == Passed::Frame {
            let _verdict = to.on_borrowed_frame(frame, 0);
            return;
        }
        encode_into(frame, &mut self.bytes);
        if let Ok(read) = decode_into(self.bytes.as_slice(), &mut self.packets) {
            let _verdict = to.on_borrowed_frame(&read, 0);
        }
    }
}

/// Passes the frames due at one end, at most four, to the other, and returns their count.
fn exchange(from: &mut LinkEnd, to: &mut LinkEnd, packets: &mut Packets) -> u64 {
    let mut count = 0u64;
    for _ in 0..4 {
        let Some(frame) = from.poll_transmit_into(0, packets) else {
            break;
        };
        let _verdict = to.on_borrowed_frame(&frame, 0);
        count = count.wrapping_add(1);
    }
    count
}

/// Polls the events, at most 64, and returns their count.
fn count_events(end: &mut LinkEnd) -> u64 {
    let mut count = 0u64;
    for _ in 0..64 {
        if end.poll_event().is_none() {
            break;
        }
        count = count.wrapping_add(1);
    }
    count
}

/// Passes the frames due at one end to the other, and polls the events of the other after each, as a node does. Returns
/// the count of frames and events.
fn exchange_all(from: &mut LinkEnd, to: &mut LinkEnd, kept: &mut Kept, passed: Passed) -> u64 {
    let mut packets = Packets::new();
    let mut count = 0u64;
    for _ in 0..WINDOW + 3 {
        let Some(frame) = from.poll_transmit_into(0, &mut packets) else {
            break;
        };
        kept.pass(&frame, to, passed);
        count = count.wrapping_add(1).wrapping_add(count_events(to));
    }
    count
}

/// Two bound ends, and the session as the first one writes it.
struct Link {
    one: LinkEnd,
    two: LinkEnd,
    life: Life,
}

/// The ends of a link of nodes 1 and 2, both of this version, bound by frames at tick 0. `None` if memory runs out, or
/// if the session is not bound after three exchanges each way.
fn bound_link(alloc: Global, version: Version) -> Option<Link> {
    let (mut one, mut two) = match version {
        Version::One => (
            LinkEnd::new_v1(alloc, 1, 2, Times::STANDARD).ok()?,
            LinkEnd::new_v1(alloc, 2, 1, Times::STANDARD).ok()?,
        ),
        Version::Two => (
            LinkEnd::new(alloc, 1, 2, Times::STANDARD).ok()?,
            LinkEnd::new(alloc, 2, 1, Times::STANDARD).ok()?,
        ),
    };
    one.open(5, 0);
    two.open(9, 0);
    let mut packets = Packets::new();
    for _ in 0..3 {
        exchange(&mut one, &mut two, &mut packets);
        exchange(&mut two, &mut one, &mut packets);
    }
    let life = one.life()?;
    Some(Link { one, two, life })
}

/// Sends `packets` queries from one end to the other, each delivered and acknowledged before the next. Returns the
/// count of events and frames; `None` if memory runs out.
pub fn run_link(alloc: Global, packets: u32) -> Option<u64> {
    let Link {
        mut one,
        mut two,
        life,
    } = bound_link(alloc, Version::Two)?;
    let (mut there, mut back) = (Packets::new(), Packets::new());
    let mut sum = 0u64;
    for _ in 0..packets {
        one.submit(life, Packet::qry(4).ok()?).ok()?;
        sum = sum.wrapping_add(exchange(&mut one, &mut two, &mut there));
        for _ in 0..4 {
            if two.poll_event().is_some() {
                sum = sum.wrapping_add(1);
            }
        }
        sum = sum.wrapping_add(exchange(&mut two, &mut one, &mut back));
    }
    Some(sum)
}

/// Updates of one height of node 1, for as many destinations as a window holds packets, from 2 on. `None` if memory
/// runs out.
fn window_of_updates(alloc: Global) -> Option<Vec<Packet>> {
    let height = Height::new(0, 0, 0, 1, 1).ok()?;
    let mut updates = Vec::new(alloc);
    for i in 0..WINDOW as u32 {
        updates
            .push(Packet::Upd(Update::new(2 + i, height).ok()?))
            .ok()?;
    }
    Some(updates)
}

/// Sends `packets` updates of 32 bytes, rounded down to whole windows of 32, from one end to the other: a window is 32
/// frames in version 1, and two frames of sixteen, with one ACK, in version 2. Returns the count of events and frames;
/// `None` if memory runs out.
pub fn run_window(alloc: Global, packets: u32, version: Version, passed: Passed) -> Option<u64> {
    let Link {
        mut one,
        mut two,
        life,
    } = bound_link(alloc, version)?;
    let updates = window_of_updates(alloc)?;
    let mut kept = Kept::new();
    let mut sum = 0u64;
    for _ in 0..u64::from(packets) / WINDOW {
        for update in updates.iter() {
            one.submit(life, *update).ok()?;
        }
        sum = sum.wrapping_add(exchange_all(&mut one, &mut two, &mut kept, passed));
        sum = sum.wrapping_add(exchange_all(&mut two, &mut one, &mut kept, passed));
    }
    Some(sum)
}
