//! Frames and their parts.
ghost use Rattle.std.specs.Prelude.{◌≡◌, ◌+◌, ◌<◌, ◌≤◌, [], ◌∷◌};
ghost use Rattle.std.specs.List.{AllByRecursion};
ghost use Rattle.arrayvec.specs.ArrayVec.{array_vec_len};
ghost use Rattle.tora_packet.specs.AnyPacket.{IsPacket};
ghost use Rattle.tora_frame.specs.FrameParts.{IsHeader, IsBatchSize, IsFrame, batch, frame_of};
ghost use Rattle.tora_frame.specs.FrameGrammar.{version_number};

use arrayvec::ArrayVec;
use std::marker::Model;
use tora_height::Id;
use tora_packet::Packet;

/// The greatest session number, the greatest packet number, and the greatest count of packets: 2^62.
pub const GREATEST_NUMBER: u64 = 0x4000_0000_0000_0000;

/// The most packets that a frame carries.
pub const MOST_PACKETS: usize = 16;

/// The packets of a DATA frame, in the order of their numbers.
pub type Packets = ArrayVec<Packet, MOST_PACKETS>;

/// The version of a frame.
#[derive(Clone, Copy, Debug, PartialEq, Eq, Hash)]
pub enum Version {
    /// Version 1, in which a DATA frame carries one packet.
    One,
    /// Version 2, in which a DATA frame carries one to sixteen packets.
    Two,
}

impl Version {
    /// The number of the version, which is the first byte of a frame.
    pub fn number(self) -> u8
        ensures { result ≡ version_number self }
    {
        match self {
            Version::One => 1,
            Version::Two => 2,
        }
    }
}

/// The header of a frame: its version, its two nodes, and a session number of each end. The header of a `Frame` is in
/// the ranges below; the type `Header` checks nothing.
#[derive(Clone, Copy, Debug, PartialEq, Eq, Hash)]
pub struct Header {
    /// The version of the frame.
    pub version: Version,
    /// The node that sends the frame, not 0.
    pub sender: Id,
    /// The node for which the frame is, neither 0 nor the sender.
    pub receiver: Id,
    /// The session number of the sender's link end, 1 to 2^62.
    pub life: u64,
    /// The session number of the receiver's link end that the sender has heard, 1 to 2^62; 0 if it has heard none.
    pub heard: u64,
}

/// The body of a frame, after its header. The body of a `Frame` is in the ranges below; the type `Body` checks nothing.
#[derive(Debug, PartialEq, Eq, Hash, Drop)]
pub enum Body {
    /// No content: the frame is only its header.
    Hello,
    /// The number of the first packet, 1 to 2^62; the count of packets that the sender has accepted in this session, 0
    /// to 2^62; and the packets, numbered on from the first: one in version 1, one to sixteen in version 2.
    Data(u64, u64, Packets),
    /// The count of packets that the sender has accepted in this session, 0 to 2^62.
    Ack(u64),
}

/// A frame of a neighbour link: its header and its body, with every field in its range.
///
/// The sender and the receiver are different nodes. In a frame that carries a count, `heard` is not 0.
#[derive(Debug, PartialEq, Eq, Hash, Drop)]
pub struct Frame {
    header: Header,
    body: Body,
}

impl Model for Frame {
    ghost use Rattle.tora_frame.specs.FrameParts.{FrameParts, IsFrame, frame_of};

    ghost Value = { FrameParts };

    ghost view = { λ f. frame_of f.header f.body };

    ghost invariant = { λ f. IsFrame (frame_of f.header f.body) };

    ghost inverse = { λ p. record { header = p.header; body = p.body } };
}

/// Does nothing: it shows in proofs that every packet has its parts in range, which the type `Packet` ensures.
pub(crate) fn know(packets: &[Packet])
    ensures { AllByRecursion IsPacket packets.now }
{
    for packet in packets {
        let _destination = packet.destination();
    }
}

impl Frame {
    /// The frame of a header and a body, without checks: the caller ensures their ranges.
    pub(crate) fn of(header: Header, body: Body) -> Frame
        requires { IsFrame (frame_of header body) }
        ensures { result ≡ frame_of header body }
    {
        Frame { header, body }
    }

    /// A HELLO. The fields of `header` are in their ranges.
    pub fn hello(header: Header) -> Frame
        requires { IsHeader header }
        ensures { result ≡ frame_of header Body.Hello }
    {
        Frame::of(header, Body::Hello)
    }

    /// A DATA frame. The fields of `header` are in their ranges, and `heard` is not 0. `number` is the number of the
    /// first packet, at least 1, and the number of the last packet is at most 2^62. `count` is the count of accepted
    /// packets, 0 to 2^62. There is one packet in version 1, and one to sixteen in version 2.
    pub fn data(header: Header, number: u64, count: u64, packets: Packets) -> Frame
        requires header { IsHeader header }
        requires heard { 0 < header.heard }
        requires first { 0 < number }
        requires last { number + array_vec_len packets ≤ GREATEST_NUMBER + 1 }
        requires count { count ≤ GREATEST_NUMBER }
        requires many { IsBatchSize header.version (array_vec_len packets) }
        ensures { result ≡ frame_of header (Body.Data number count packets) }
    {
        know(packets.as_slice());
        Frame::of(header, Body::Data(number, count, packets))
    }

    /// A DATA frame of either version with one packet. The fields of `header` are in their ranges, and `heard` is not
    /// 0. `number` is the packet's number, 1 to 2^62, and `count` is the count of accepted packets, 0 to 2^62.
    pub fn one(header: Header, number: u64, count: u64, packet: Packet) -> Frame
        requires header { IsHeader header }
        requires heard { 0 < header.heard }
        requires number { (0 < number) × (number ≤ GREATEST_NUMBER) }
        requires count { count ≤ GREATEST_NUMBER }
        ensures { result ≡ frame_of header (Body.Data number count (batch (packet ∷ []))) }
    {
        let mut packets = ArrayVec::new();
        packets.push(packet);
        Frame::data(header, number, count, packets)
    }

    /// An ACK. The fields of `header` are in their ranges, and `heard` is not 0. `count` is the count of accepted
    /// packets, 0 to 2^62.
    pub fn ack(header: Header, count: u64) -> Frame
        requires header { IsHeader header }
        requires heard { 0 < header.heard }
        requires count { count ≤ GREATEST_NUMBER }
        ensures { result ≡ frame_of header (Body.Ack count) }
    {
        Frame::of(header, Body::Ack(count))
    }

    /// The version, the two nodes and the two session numbers of the frame.
    pub fn header(&self) -> &Header
        ensures value { result.now ≡ self.now.header }
        ensures valid { IsFrame self.now }
    {
        &self.header
    }

    /// The body of the frame.
    pub fn body(&self) -> &Body
        ensures value { result.now ≡ self.now.body }
        ensures valid { IsFrame self.now }
    {
        &self.body
    }
}
