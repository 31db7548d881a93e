//! Bytes to frames.
ghost use Rattle.std.specs.Prelude.{◌≡◌, ◌≢◌, ℕ, List, [], ◌++◌, ◌+◌, ◌≤◌, ◌<◌, drop, length, MatchOption};
ghost use Rattle.std.specs.Prelude.{MatchBool, IfOk, OnOk, IsOk, Ok, Err, Some, None};
ghost use Rattle.std.specs.List.{AllByRecursion};
ghost use Rattle.tora_packet.specs.AnyPacket.{IsPacket};
ghost use Rattle.tora_packet.specs.PacketGrammar.{u32_at, u64_at};
ghost use Rattle.tora_frame.specs.FrameParts.{FrameParts, IsHeader, IsFrame, batch, frame_of};
ghost use Rattle.tora_frame.specs.FrameGrammar.{SpellsFrame, u16_at, version_at, version_of, kind_at, version_number};
ghost use Rattle.tora_frame.specs.FrameGrammar.{is_version, is_data_length, is_payload_length, layout_fault, header_at};
ghost use Rattle.tora_frame.specs.FrameGrammar.{header_fault, body_at, body_fault, is_bad_number, packets_inside};
ghost use Rattle.tora_frame.specs.FrameGrammar.{fault_inside, frame_at, frame_fault, frame_spelling, frame_reading};

use crate::layout::{
    ACK, DATA, HEADER_LENGTH, HELLO, LONGEST_BATCH, PACKET_HEAD, PACKET_OFFSET, SHORTEST_BATCH,
};
use crate::packets::read_packets;
use crate::{
    BorrowedBody, BorrowedFrame, Frame, FrameError, GREATEST_NUMBER, Header, Packets, Version,
};
use tora_packet::{SHORTEST_PACKET, is_packet_length};

/// The number in the two bytes from the index `at` on, most significant byte first.
#[tactic(auto, unfolding(crate::specs::FrameGrammar::u16_at))]
fn u16_at(bytes: &[u8], at: usize) -> u16
    requires { at + 2 ≤ length bytes.now }
    ensures { result ≡ u16_at at bytes.now }
{
    let two = &bytes[at..at + 2];
    u16::from_be_bytes([two[0], two[1]])
}

/// The number in the four bytes from the index `at` on, most significant byte first.
#[tactic(auto, unfolding(tora_packet::specs::PacketGrammar::u32_at))]
fn u32_at(bytes: &[u8], at: usize) -> u32
    requires { at + 4 ≤ length bytes.now }
    ensures { result ≡ u32_at at bytes.now }
{
    let four = &bytes[at..at + 4];
    u32::from_be_bytes([four[0], four[1], four[2], four[3]])
}

/// The number in the eight bytes from the index `at` on, most significant byte first.
#[tactic(auto, unfolding(tora_packet::specs::PacketGrammar::u64_at))]
fn u64_at(bytes: &[u8], at: usize) -> u64
    requires { at + 8 ≤ length bytes.now }
    ensures { result ≡ u64_at at bytes.now }
{
    let eight = &bytes[at..at + 8];
    u64::from_be_bytes([
        eight[0], eight[1], eight[2], eight[3], eight[4], eight[5], eight[6], eight[7],
    ])
}

/// The version with this number; `None` if there is none.
fn version_of(number: u8) -> Option<Version>
    ensures { MatchBool (is_version number) (result ≡ Some (version_of number)) (result ≡ None) }
{
    match number {
        1 => Some(Version::One),
        2 => Some(Version::Two),
        _ => None,
    }
}

/// Whether a DATA frame of this version may have a payload of this many bytes: in version 1, 16 more than a packet; in
/// version 2, from `SHORTEST_BATCH` to `LONGEST_BATCH`.
fn is_data_length(version: Version, len: usize) -> bool
    ensures { result ≡ is_data_length (version_number version) len }
{
    match version {
        Version::One => is_packet_length(len.saturating_sub(PACKET_HEAD)),
        Version::Two => len >= SHORTEST_BATCH && len <= LONGEST_BATCH,
    }
}

/// Whether a frame of this version and kind may have a payload of this many bytes: 0 for HELLO, as `is_data_length`
/// says for DATA, and 8 for ACK. A number that is no kind counts as ACK.
fn is_payload_length(version: Version, kind: u8, len: usize) -> bool
    ensures { result ≡ is_payload_length (version_number version) kind len }
{
    match kind {
        HELLO => len == 0,
        DATA => is_data_length(version, len),
        _ => len == 8,
    }
}

/// Reads and checks the version, the kind and the lengths.
#[tactic(auto, unfolding(crate::specs::FrameGrammar::layout_fault))]
fn read_layout(bytes: &[u8]) -> Result<Version, FrameError>
    ensures exact { MatchOption (layout_fault bytes.now) (result ≡ Ok (version_of (version_at bytes.now))) (λ e.
        result ≡ Err e) }
    ensures header { OnOk result (28 ≤ length bytes.now) }
    ensures count { OnOk result (kind_at bytes.now ≢ 1 → 36 ≤ length bytes.now) }
    ensures packet { OnOk result (kind_at bytes.now ≡ 2 → PACKET_OFFSET + SHORTEST_PACKET ≤ length bytes.now) }
{
    if bytes.len() < HEADER_LENGTH {
        return Err(FrameError::Short);
    }
    let Some(version) = version_of(bytes[0]) else {
        return Err(FrameError::Version);
    };
    let kind = bytes[1];
    if kind != HELLO && kind != DATA && kind != ACK {
        return Err(FrameError::Kind);
    }
    let payload = usize::from(u16_at(bytes, 2));
    if !is_payload_length(version, kind, payload) {
        return Err(FrameError::Length);
    }
    let len = HEADER_LENGTH + payload;
    if bytes.len() < len {
        return Err(FrameError::Short);
    }
    if bytes.len() > len {
        return Err(FrameError::Long);
    }
    Ok(version)
}

/// Reads the header, and checks its nodes and session numbers.
#[tactic(auto, unfolding(crate::specs::FrameGrammar::header_fault))]
fn read_header(bytes: &[u8], version: Version) -> Result<Header, FrameError>
    requires len { 28 ≤ length bytes.now }
    requires version { version ≡ version_of (version_at bytes.now) }
    ensures exact { MatchOption (header_fault (kind_at bytes.now) (header_at bytes.now)) (result
        ≡ Ok (header_at bytes.now)) (λ e. result ≡ Err e) }
    ensures valid { IfOk result IsHeader }
    ensures heard { IfOk result (λ h. kind_at bytes.now ≢ 1 → 0 < h.heard) }
{
    let header = Header {
        version,
        sender: u32_at(bytes, 4),
        receiver: u32_at(bytes, 8),
        life: u64_at(bytes, 12),
        heard: u64_at(bytes, 20),
    };
    let (life, heard) = (header.life, header.heard);
    if header.sender == 0 || header.receiver == 0 || header.sender == header.receiver {
        return Err(FrameError::Id);
    }
    if life == 0 || life > GREATEST_NUMBER || heard > GREATEST_NUMBER {
        return Err(FrameError::Life);
    }
    if bytes[1] != HELLO && heard == 0 {
        return Err(FrameError::Life);
    }
    Ok(header)
}

/// Reads and checks the first packet number and the count of accepted packets of a DATA frame.
fn read_numbers(bytes: &[u8]) -> Result<(u64, u64), FrameError>
    requires { 44 ≤ length bytes.now }
    ensures exact { MatchBool (is_bad_number (u64_at 28 bytes.now) (u64_at 36 bytes.now))
        (result ≡ Err FrameError.Number) (result ≡ Ok (u64_at 28 bytes.now, u64_at 36 bytes.now)) }
    ensures valid { IfOk result (λ n. (0 < n.0) × (n.0 ≤ GREATEST_NUMBER) × (n.1 ≤ GREATEST_NUMBER)) }
{
    let (number, count) = (u64_at(bytes, 28), u64_at(bytes, 36));
    if number == 0 || number > GREATEST_NUMBER || count > GREATEST_NUMBER {
        return Err(FrameError::Number);
    }
    Ok((number, count))
}

/// Reads a DATA frame whose header has no fault, and checks its body.
#[tactic(auto, unfolding(crate::specs::FrameGrammar::body_fault, crate::specs::FrameGrammar::body_at))]
fn read_data<'a>(
    bytes: &[u8],
    header: Header,
    packets: &'a mut Packets,
) -> Result<BorrowedFrame<'a>, FrameError>
    requires len { PACKET_OFFSET + SHORTEST_PACKET ≤ length bytes.now }
    requires kind { kind_at bytes.now ≡ 2 }
    requires version { header.version ≡ version_of (version_at bytes.now) }
    requires header { IsHeader header }
    requires heard { 0 < header.heard }
    ensures exact { MatchOption (body_fault bytes.now) (result ≡ Ok (frame_of header (body_at bytes.now))) (λ e.
        result ≡ Err e) }
    ensures valid { IfOk result IsFrame }
{
    let (number, count) = read_numbers(bytes)?;
    packets.clear();
    read_packets(bytes, header.version, number, packets)?;
    let body = BorrowedBody::Data(number, count, packets.as_slice());
    Ok(BorrowedFrame::of(header, body))
}

/// Reads a frame whose header has no fault, and checks its body.
#[tactic(auto, unfolding(crate::specs::FrameGrammar::body_fault, crate::specs::FrameGrammar::body_at))]
fn read_body<'a>(
    bytes: &[u8],
    header: Header,
    packets: &'a mut Packets,
) -> Result<BorrowedFrame<'a>, FrameError>
    requires len { 28 ≤ length bytes.now }
    requires count { kind_at bytes.now ≢ 1 → 36 ≤ length bytes.now }
    requires packet { kind_at bytes.now ≡ 2 → PACKET_OFFSET + SHORTEST_PACKET ≤ length bytes.now }
    requires version { header.version ≡ version_of (version_at bytes.now) }
    requires header { IsHeader header }
    requires heard { kind_at bytes.now ≢ 1 → 0 < header.heard }
    ensures exact { MatchOption (body_fault bytes.now) (result ≡ Ok (frame_of header (body_at bytes.now))) (λ e.
        result ≡ Err e) }
    ensures valid { IfOk result IsFrame }
{
    match bytes[1] {
        HELLO => Ok(BorrowedFrame::of(header, BorrowedBody::Hello)),
        DATA => read_data(bytes, header, packets),
        _ => {
            let count = u64_at(bytes, 28);
            if count > GREATEST_NUMBER {
                return Err(FrameError::Number);
            }
            Ok(BorrowedFrame::of(header, BorrowedBody::Ack(count)))
        }
    }
}

/// Decodes a frame as `decode_into` does, with the same errors.
fn read_frame<'a>(bytes: &[u8], packets: &'a mut Packets) -> Result<BorrowedFrame<'a>, FrameError>
    ensures exact { MatchOption (frame_fault bytes.now) (result ≡ Ok (frame_at bytes.now)) (λ e. result ≡ Err e) }
    ensures valid { IfOk result IsFrame }
{
    let version = read_layout(bytes)?;
    let header = read_header(bytes, version)?;
    read_body(bytes, header, packets)
}

/// Decodes a frame that takes up all of the bytes.
///
/// # Errors
/// The first that applies, in this order: `Short` (under 28 bytes), `Version`, `Kind`, `Length`, `Short` (fewer bytes
/// than the payload length says), `Long`, `Id`, `Life`, `Number`, in version 2 `Count`, and `Packet` for the first
/// packet that is refused, or with `Long` if bytes are left after the last packet.
pub fn decode(bytes: &[u8]) -> Result<Frame, FrameError>
    // The bytes are the encoding of the result.
    ensures found { IfOk result (SpellsFrame bytes.now) }
    // If the bytes are the encoding of a value, the result is that value.
    ensures only { (frame : FrameParts) → SpellsFrame bytes.now frame → result ≡ Ok frame }
    // A fault is reported exactly if the bytes have one, and it is the first one.
    ensures fault { MatchOption (frame_fault bytes.now) (IsOk result) (λ e. result ≡ Err e) }
    // The three clauses above as one function.
    ensures exact { result ≡ frame_reading bytes.now }
{
    let mut packets = Packets::new();
    let frame = decode_into(bytes, &mut packets)?;
    Ok(frame.to_frame())
}

/// As `decode`, but the packets of a DATA frame replace the content of `packets`, from which the frame borrows them.
/// After any other frame or an error, `packets` may have any packets.
///
/// # Errors
/// Those of `decode`, in the same order.
pub fn decode_into<'a>(
    bytes: &[u8],
    packets: &'a mut Packets,
) -> Result<BorrowedFrame<'a>, FrameError>
    // The bytes are the encoding of the result.
    ensures found { IfOk result (SpellsFrame bytes.now) }
    // If the bytes are the encoding of a value, the result is that value.
    ensures only { (frame : FrameParts) → SpellsFrame bytes.now frame → result ≡ Ok frame }
    // A fault is reported exactly if the bytes have one, and it is the first one.
    ensures fault { MatchOption (frame_fault bytes.now) (IsOk result) (λ e. result ≡ Err e) }
    // The three clauses above as one function.
    ensures exact { result ≡ frame_reading bytes.now }
{
    read_frame(bytes, packets)
}

/// Each frame has exactly one encoding, which decodes to that frame, and no encoding is a prefix of another.
pub fn one_frame_spelling()
    ensures one { (a b : List ℕ) (f : FrameParts) → SpellsFrame a f → SpellsFrame b f → a ≡ b }
    ensures read { (f : FrameParts) → IsFrame f → frame_reading (frame_spelling f) ≡ Ok f }
    ensures prefix_free { (a b rest : List ℕ) (f g : FrameParts) → SpellsFrame a f → SpellsFrame b g → a ++ rest ≡ b →
        (rest ≡ []) × (a ≡ b) × (f ≡ g) }
{}
