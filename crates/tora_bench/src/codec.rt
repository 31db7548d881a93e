//! The codecs of packets and frames.
use std::alloc::Global;
use tora_frame::{Frame, Header, MOST_PACKETS, Packets, Version, decode_into, encode_into};
use tora_height::Height;
use tora_packet::{Packet, Update};

/// How many values are encoded before they are decoded, so that no value stays in a register.
const BATCH: u32 = 256;

/// The `i`th update.
fn update(i: u32) -> Option<Update> {
    let k = 1 + i % 8;
    let tau = u64::from(i % 3);
    let oid = if tau == 0 { 0 } else { 1 + i % 7 };
    let delta = 2 + (i % 5) as i32;
    let height = Height::new(tau, oid, 0, delta, k).ok()?;
    Update::new(9 + i % 12, height).ok()
}

/// What is encoded and decoded.
#[derive(Clone, Copy, PartialEq, Eq)]
pub enum Coded {
    /// An update.
    Packet,
    /// A DATA frame of version 1 with an update.
    Frame,
    /// A DATA frame of version 2 with sixteen updates.
    Batch,
}

impl Coded {
    /// The name that the printed line begins with.
    pub fn name(self) -> &'static str {
        match self {
            Coded::Packet => "codec-packet",
            Coded::Frame => "codec-frame",
            Coded::Batch => "codec-batch",
        }
    }

    /// Encodes and decodes `count(steps)` updates or frames. Returns a number that depends on each decoded one; `None`
    /// if memory runs out.
    pub fn run(self, alloc: Global, steps: u32) -> Option<u64> {
        match self {
            Coded::Packet => run_packets(alloc, steps),
            Coded::Frame | Coded::Batch => run_frames(alloc, steps, self),
        }
    }
}

/// How many updates or frames a run encodes and decodes: `steps`, rounded down to a multiple of `BATCH`.
pub fn count(steps: u32) -> u64 {
    u64::from(steps / BATCH * BATCH)
}

/// The `i`th DATA frame: of version 2 with the packet sixteen times for `Batch`, otherwise of version 1 with the packet
/// once.
fn data_frame(i: u32, packet: Packet, coded: Coded) -> Frame {
    let version = if coded == Coded::Batch {
        Version::Two
    } else {
        Version::One
    };
    let header = Header {
        version,
        sender: 1 + (i & 3),
        receiver: 9 + (i & 7),
        life: 5 + u64::from(i),
        heard: 9 + u64::from(i),
    };
    let (number, count) = (1 + u64::from(i), u64::from(i));
    match version {
        Version::One => Frame::one(header, number, count, packet),
        Version::Two => Frame::data(header, number, count, Packets::from([packet; MOST_PACKETS])),
    }
}

/// The first `BATCH` updates; `None` if memory runs out.
fn updates(alloc: Global) -> Option<Vec<Packet>> {
    let mut packets = Vec::new(alloc);
    for i in 0..BATCH {
        packets.push(Packet::Upd(update(i)?)).ok()?;
    }
    Some(packets)
}

/// A number that depends on the destination of an update and on tau of its height; 0 for a query, 1 for a clear.
fn told(packet: &Packet) -> u64 {
    match packet {
        Packet::Qry(_) => 0,
        Packet::Upd(update) => update.height().tau() ^ u64::from(update.destination()),
        Packet::Clr(_) => 1,
    }
}

/// Encodes and decodes the first `BATCH` updates `steps / BATCH` times, and returns what `Coded::run` does.
fn run_packets(alloc: Global, steps: u32) -> Option<u64> {
    let packets = updates(alloc)?;
    let mut wires = Vec::new(alloc);
    for packet in packets.as_slice() {
        wires.push(tora_packet::encode(packet)).ok()?;
    }
    let mut sum = 0u64;
    for _ in 0..steps / BATCH {
        for (packet, wire) in packets.iter().zip(wires.iter_mut()) {
            *wire = tora_packet::encode(packet);
        }
        for wire in wires.iter() {
            if let Ok(packet) = tora_packet::decode(wire.as_slice()) {
                sum = sum.wrapping_add(told(&packet));
            }
        }
    }
    Some(sum)
}

/// Encodes and decodes `BATCH` DATA frames `steps / BATCH` times, and returns what `Coded::run` does. The calls are
/// those of a link's thread: the buffers for the bytes and the list for the packets are reused.
fn run_frames(alloc: Global, steps: u32, coded: Coded) -> Option<u64> {
    let mut frames = Vec::new(alloc);
    let mut wires = Vec::new(alloc);
    for i in 0..BATCH {
        let frame = data_frame(i, Packet::Upd(update(i)?), coded);
        wires.push(tora_frame::encode(&frame)).ok()?;
        frames.push(frame).ok()?;
    }
    let mut packets = Packets::new();
    let mut sum = 0u64;
    for _ in 0..steps / BATCH {
        for (frame, wire) in frames.iter().zip(wires.iter_mut()) {
            encode_into(&frame.borrowed(), wire);
        }
        for wire in wires.iter() {
            if let Ok(frame) = decode_into(wire.as_slice(), &mut packets) {
                sum = sum.wrapping_add(frame.header().life);
            }
        }
    }
    Some(sum)
}
