//! Frames to bytes.
ghost use Rattle.std.specs.Prelude.{◌≡◌, ℕ, ◌+◌, ◌*◌, ◌≤◌, ◌++◌, [], length, replicate};
ghost use Rattle.arrayvec.specs.ArrayVec.{ArrayVec as Items, array_vec_len};
ghost use Rattle.tora_packet.specs.declared.Packet.{Packet as AnyPacket};
ghost use Rattle.tora_packet.specs.PacketParts.{UpdateParts};
ghost use Rattle.tora_frame.specs.FrameGrammar.{SpellsFrame, frame_spelling, header_spelling, packets_length};
ghost use Rattle.tora_frame.specs.FrameGrammar.{packets_spelling, data_head_length, batch_size_spelling};
ghost use Rattle.tora_frame.specs.declared.parts.Header.{Header};
ghost use Rattle.tora_frame.specs.declared.parts.Body.{Body};
ghost use Rattle.tora_frame.specs.FrameParts.{FrameParts, IsFrame, batch, frame_of};

use crate::layout::{
    ACK, BATCH_HEAD, BATCH_OFFSET, DATA, HEADER_LENGTH, HELLO, LONGEST_BATCH, PACKET_HEAD,
};
use crate::{BorrowedBody, BorrowedFrame, Frame, Header, MOST_PACKETS, Version};
use arrayvec::ArrayVec;
use tora_packet::{LONGEST_PACKET, Packet, append, encoded_length};

/// The length of the longest frame in bytes: a DATA frame of version 2 with sixteen updates.
pub const LONGEST_FRAME: usize = HEADER_LENGTH + LONGEST_BATCH;

/// The bytes of a frame that were written so far.
type Bytes = ArrayVec<u8, LONGEST_FRAME>;

/// Appends bytes. There must be room for them.
fn put(out: &mut Bytes, bytes: &[u8])
    requires { array_vec_len out.old + length bytes.now ≤ LONGEST_FRAME }
    ensures { out.new.items ≡ out.old.items ++ bytes.now }
{
    let Ok(()) = out.try_extend_from_slice(bytes) else {
        unreachable!()
    };
}

/// How many bytes the packets of a frame have together.
fn packets_length(packets: &[Packet]) -> usize
    requires { length packets.now ≤ MOST_PACKETS }
    ensures length { result ≡ packets_length packets.now }
    ensures most { result ≤ MOST_PACKETS * LONGEST_PACKET }
{
    let mut len = 0;
    for packet in packets {
        len += encoded_length(packet);
    }
    len
}

/// Writes the header of a frame of this kind whose payload has this many bytes.
#[inline(always)]
fn put_header(kind: u8, len: u16, header: &Header, out: &mut Bytes)
    requires { out.old.items ≡ [] }
    ensures items { out.new.items ≡ header_spelling kind len header.now }
    ensures len { array_vec_len out.new ≡ 28 }
{
    put(out, &[header.version.number(), kind]);
    put(out, &len.to_be_bytes());
    put(out, &header.sender.to_be_bytes());
    put(out, &header.receiver.to_be_bytes());
    put(out, &header.life.to_be_bytes());
    put(out, &header.heard.to_be_bytes());
}

/// How many bytes a DATA frame has between its header and its packets.
fn data_head_length(version: Version) -> usize
    ensures length { result ≡ data_head_length version }
    ensures most { result ≤ BATCH_HEAD }
{
    match version {
        Version::One => PACKET_HEAD,
        Version::Two => BATCH_HEAD,
    }
}

/// In version 2, appends how many packets the frame has, in one byte, and three zeros; in version 1, nothing.
fn put_batch_size(version: Version, many: usize, out: &mut Bytes)
    requires many { many ≤ MOST_PACKETS }
    requires room { array_vec_len out.old + 4 ≤ LONGEST_FRAME }
    ensures { out.new.items ≡ out.old.items ++ batch_size_spelling version many }
{
    match version {
        Version::One => {}
        Version::Two => put(out, &[many as u8, 0, 0, 0]),
    }
}

/// Appends the bytes of packets one after another.
fn put_packets(packets: &[Packet], out: &mut Bytes)
    requires many { length packets.now ≤ MOST_PACKETS }
    requires room { array_vec_len out.old ≤ BATCH_OFFSET }
    ensures { out.new.items ≡ out.old.items ++ packets_spelling packets.now }
{
    for packet in packets {
        append(packet, out);
    }
}

/// Writes a DATA frame to `out`, which is empty.
fn put_data(header: &Header, number: u64, count: u64, packets: &[Packet], out: &mut Bytes)
    requires empty { out.old.items ≡ [] }
    requires many { length packets.now ≤ MOST_PACKETS }
    ensures { out.new.items ≡ frame_spelling (frame_of header.now (Body.Data number count (batch packets.now))) }
{
    let version = header.version;
    let len = data_head_length(version) + packets_length(packets);
    put_header(DATA, len as u16, header, out);
    put(out, &number.to_be_bytes());
    put(out, &count.to_be_bytes());
    put_batch_size(version, packets.len(), out);
    put_packets(packets, out);
}

/// Writes an ACK to `out`, which is empty.
fn put_ack(header: &Header, count: u64, out: &mut Bytes)
    requires { out.old.items ≡ [] }
    ensures { out.new.items ≡ frame_spelling (frame_of header.now (Body.Ack count)) }
{
    put_header(ACK, 8, header, out);
    put(out, &count.to_be_bytes());
}

/// The bytes of a frame: 28 for a HELLO, 36 for an ACK, and for a DATA frame 44 (version 1) or 48 (version 2) plus the
/// bytes of its packets.
pub fn encode(frame: &Frame) -> ArrayVec<u8, LONGEST_FRAME>
    ensures spells { SpellsFrame result.items frame.now }
    ensures exact { result.items ≡ frame_spelling frame.now }
{
    let mut out = ArrayVec::new();
    encode_into(&frame.borrowed(), &mut out);
    out
}

/// As `encode`, but writes the bytes to `out`, which is overwritten.
pub fn encode_into(frame: &BorrowedFrame<'_>, out: &mut ArrayVec<u8, LONGEST_FRAME>)
    ensures spells { SpellsFrame out.new.items frame.now }
    ensures exact { out.new.items ≡ frame_spelling frame.now }
{
    out.clear();
    let header = frame.header();
    match frame.body() {
        BorrowedBody::Hello => put_header(HELLO, 0, header, out),
        BorrowedBody::Data(number, count, packets) => put_data(header, number, count, packets, out),
        BorrowedBody::Ack(count) => put_ack(header, count, out),
    }
}

/// No frame is longer than `LONGEST_FRAME`, the length of a DATA frame of version 2 with sixteen updates.
pub fn longest_frame()
    ensures is { LONGEST_FRAME ≡ 560 }
    ensures most { (frame : FrameParts) → IsFrame frame → length (frame_spelling frame) ≤ LONGEST_FRAME }
    ensures reached { (header : Header) (number count : ℕ) (update : UpdateParts) → header.version ≡ Version.Two
        → length (frame_spelling (frame_of header (Body.Data number count (batch (replicate 16 (Packet.Upd update))))))
        ≡ LONGEST_FRAME }
{}
