//! Frames that borrow their packets from a list of the caller.
ghost use Rattle.std.specs.Prelude.{◌≡◌, ◌+◌, ◌<◌, ◌≤◌, length};
ghost use Rattle.tora_frame.specs.declared.parts.TheConstants.{GREATEST_NUMBER};
ghost use Rattle.tora_frame.specs.FrameParts.{IsHeader, IsBatchSize, IsFrame, batch, frame_of};
ghost use Rattle.tora_frame.specs.BorrowedFrames.{body_of};
ghost use Rattle.tora_frame.specs.declared.parts.Body.{Body as OwnedBody};

use crate::parts::know;
use crate::{Body, Frame, Header, Packets};
use std::marker::Model;
use tora_packet::Packet;

/// The body of a frame, like `Body`, with borrowed packets.
#[derive(Clone, Copy, Debug)]
pub enum BorrowedBody<'a> {
    /// No content: the frame is only its header.
    Hello,
    /// The number of the first packet, the count of packets that the sender has accepted in this session, and the
    /// packets.
    Data(u64, u64, &'a [Packet]),
    /// The count of packets that the sender has accepted in this session.
    Ack(u64),
}

/// A frame like `Frame` that borrows its packets, so that making and moving it copies no packet.
#[derive(Debug, Drop)]
pub struct BorrowedFrame<'a> {
    header: Header,
    body: BorrowedBody<'a>,
}

impl<'a> Model for BorrowedFrame<'a> {
    ghost use Rattle.tora_frame.specs.FrameParts.{FrameParts, IsFrame, frame_of};
    ghost use Rattle.tora_frame.specs.BorrowedFrames.{body_of};

    ghost Value = { FrameParts };

    ghost view = { λ f. frame_of f.header (body_of f.body) };

    ghost invariant = { λ f. IsFrame (frame_of f.header (body_of f.body)) };
}

impl<'a> BorrowedFrame<'a> {
    /// The frame of a header and a body, without checks: the caller ensures that they make a valid frame.
    pub(crate) fn of(header: Header, body: BorrowedBody<'a>) -> BorrowedFrame<'a>
        requires { IsFrame (frame_of header (body_of body)) }
        ensures { result ≡ frame_of header (body_of body.entry) }
    {
        BorrowedFrame { header, body }
    }

    /// A HELLO. The fields of `header` are in their ranges.
    pub fn hello(header: Header) -> BorrowedFrame<'a>
        requires { IsHeader header }
        ensures { result ≡ frame_of header OwnedBody.Hello }
    {
        BorrowedFrame::of(header, BorrowedBody::Hello)
    }

    /// A DATA frame. The fields of `header` are in their ranges, and `heard` is not 0. `number` is the number of the
    /// first packet, at least 1, and the number of the last packet is at most 2^62. `count` is the count of accepted
    /// packets, 0 to 2^62. There is one packet in version 1, and one to sixteen in version 2.
    pub fn data(header: Header, number: u64, count: u64, packets: &'a [Packet]) -> BorrowedFrame<'a>
        requires header { IsHeader header }
        requires heard { 0 < header.heard }
        requires first { 0 < number }
        requires last { number + length packets.now ≤ GREATEST_NUMBER + 1 }
        requires count { count ≤ GREATEST_NUMBER }
        requires many { IsBatchSize header.version (length packets.now) }
        ensures { result ≡ frame_of header (OwnedBody.Data number count (batch packets.now)) }
    {
        know(packets);
        BorrowedFrame::of(header, BorrowedBody::Data(number, count, packets))
    }

    /// An ACK. The fields of `header` are in their ranges, and `heard` is not 0. `count` is the count of accepted
    /// packets, 0 to 2^62.
    pub fn ack(header: Header, count: u64) -> BorrowedFrame<'a>
        requires header { IsHeader header }
        requires heard { 0 < header.heard }
        requires count { count ≤ GREATEST_NUMBER }
        ensures { result ≡ frame_of header (OwnedBody.Ack count) }
    {
        BorrowedFrame::of(header, BorrowedBody::Ack(count))
    }

    /// The version, the two nodes and the two session numbers of the frame.
    pub fn header(&self) -> &Header
        ensures value { result.now ≡ self.now.header }
        ensures valid { IsFrame self.now }
    {
        &self.header
    }

    /// The body of the frame.
    pub fn body(&self) -> BorrowedBody<'a>
        ensures value { body_of result ≡ self.now.body }
        ensures valid { IsFrame self.now }
    {
        self.body
    }

    /// The same frame with its own copy of the packets.
    pub fn to_frame(&self) -> Frame
        ensures { result ≡ self.now }
    {
        let header = self.header;
        match self.body {
            BorrowedBody::Hello => Frame::of(header, Body::Hello),
            BorrowedBody::Data(number, count, packets) => {
                let mut list = Packets::new();
                let Ok(()) = list.try_extend_from_slice(packets) else {
                    unreachable!()
                };
                Frame::of(header, Body::Data(number, count, list))
            }
            BorrowedBody::Ack(count) => Frame::of(header, Body::Ack(count)),
        }
    }
}

impl Frame {
    /// The same frame, without a copy of its packets.
    pub fn borrowed(&self) -> BorrowedFrame<'_>
        ensures { result ≡ self.now }
    {
        let body = match self.body() {
            Body::Hello => BorrowedBody::Hello,
            Body::Data(number, count, packets) => {
                BorrowedBody::Data(*number, *count, packets.as_slice())
            }
            Body::Ack(count) => BorrowedBody::Ack(*count),
        };
        BorrowedFrame::of(*self.header(), body)
    }
}
