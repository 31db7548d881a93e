//! Packets and frames as rows of a table name them, and the functions that make them.
use super::made::{clear, query_for, query_of, update};
use super::sees::sees;
use std::process::Abort;
use tora_frame::{Body, Frame, GREATEST_NUMBER, Header, Packets, Version};
use tora_height::Id;
use tora_packet::Packet;

/// A packet by its parts.
#[derive(Clone, Copy)]
pub enum Parts {
    /// The query for a destination.
    Query(Id),
    /// The update for destination 4 with the height of this tau, oid, r, delta and id.
    Update(u64, Id, u8, i32, Id),
    /// The clear for destination 4 of the reference level with this tau and oid, and r 1.
    Clear(u64, Id),
}

impl Parts {
    /// The packet with these parts; the test fails if there is no such packet.
    pub fn packet(self, rt: &impl Abort) -> Packet {
        match self {
            Parts::Query(destination) => query_for(rt, destination),
            Parts::Update(tau, oid, r, delta, id) => update(rt, tau, oid, r, delta, id),
            Parts::Clear(tau, oid) => clear(rt, tau, oid),
        }
    }
}

/// The content of a frame.
#[derive(Clone, Copy)]
pub enum Carried {
    /// Nothing: the frame is a HELLO.
    Hello,
    /// An ACK with this count of packets accepted.
    Ack(u64),
    /// DATA with one packet, which is `query_of` this number and has this packet number, and with 0 packets accepted.
    Query(u64),
    /// DATA with the packets of the numbers from the first to the last, each `query_of` its own number, and with 0
    /// packets accepted.
    Queries(u64, u64),
    /// DATA: the number of the first packet, the count of packets accepted, and the packets.
    Data(u64, u64, &'static [Parts]),
}

/// The packets with these parts; the test fails if there are more than 16.
pub fn packets_of(rt: &impl Abort, parts: &[Parts]) -> Packets {
    let mut packets = Packets::new();
    for one in parts {
        push(rt, &mut packets, one.packet(rt));
    }
    packets
}

/// The packets `query_of` each number from `first` to `last`; the test fails if there are more than 16.
fn queries(rt: &impl Abort, first: u64, last: u64) -> Packets {
    let mut packets = Packets::new();
    for number in first..=last {
        push(rt, &mut packets, query_of(rt, number));
    }
    packets
}

/// Appends a packet to a list; the test fails if the list is full.
fn push(rt: &impl Abort, packets: &mut Packets, packet: Packet) {
    sees(rt, packets.try_push(packet).is_ok(), "room for a packet");
}

/// The body of a frame with this content.
pub fn body_of(rt: &impl Abort, carried: Carried) -> Body {
    match carried {
        Carried::Hello => Body::Hello,
        Carried::Ack(count) => Body::Ack(count),
        Carried::Query(number) => Body::Data(number, 0, queries(rt, number, number)),
        Carried::Queries(first, last) => Body::Data(first, 0, queries(rt, first, last)),
        Carried::Data(number, count, parts) => Body::Data(number, count, packets_of(rt, parts)),
    }
}

/// The frame with this header and this content; DATA without packets gives an ACK. The test fails if a field is out of
/// its range, or if a frame of version 1 would have several packets.
pub fn frame_of(rt: &impl Abort, header: Header, carried: Carried) -> Frame {
    let Header {
        sender,
        receiver,
        ..
    } = header;
    assert!(rt; sender > 0 && receiver > 0 && sender != receiver);
    assert!(rt; header.life > 0 && header.life <= GREATEST_NUMBER);
    let (number, count, packets) = match body_of(rt, carried) {
        Body::Hello => {
            assert!(rt; header.heard <= GREATEST_NUMBER);
            return Frame::hello(header);
        }
        Body::Ack(count) => (1, count, Packets::new()),
        Body::Data(number, count, packets) => (number, count, packets),
    };
    assert!(rt; header.heard > 0 && header.heard <= GREATEST_NUMBER);
    assert!(rt; number > 0 && number <= GREATEST_NUMBER && count <= GREATEST_NUMBER);
    match packets.as_slice() {
        [] => Frame::ack(header, count),
        [packet] => Frame::one(header, number, count, *packet),
        more => {
            assert!(rt; header.version == Version::Two);
            assert!(rt; number + more.len() as u64 <= GREATEST_NUMBER + 1);
            Frame::data(header, number, count, packets)
        }
    }
}
