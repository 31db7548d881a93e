//! Bytes to the packets of a DATA frame.
ghost use Rattle.std.specs.Prelude.{◌≡◌, ◌+◌, ◌<◌, ◌≤◌, [], ◌∷◌, drop, length, MatchOption, MatchBool, IfOk, OnOk};
ghost use Rattle.std.specs.Prelude.{IsOk, Ok, Err};
ghost use Rattle.std.specs.List.{AllByRecursion};
ghost use Rattle.arrayvec.specs.ArrayVec.{array_vec_len};
ghost use Rattle.tora_packet.specs.AnyPacket.{IsPacket};
ghost use Rattle.tora_packet.specs.PacketGrammar.{u64_at};
ghost use Rattle.tora_frame.specs.FrameParts.{IsBatchSize};
ghost use Rattle.tora_frame.specs.FrameGrammar.{version_at, version_of, whole_packet_fault, whole_packet_at};
ghost use Rattle.tora_frame.specs.FrameGrammar.{packets_fault, packets_at, batch_size_at, is_bad_batch_size};
ghost use Rattle.tora_frame.specs.FrameGrammar.{batch_fault, fault_inside, packets_inside};

use crate::layout::{BATCH_OFFSET, PACKET_OFFSET};
use crate::{FrameError, GREATEST_NUMBER, MOST_PACKETS, Packets, Version};
use tora_packet::{Packet, PacketError, cut_packet};

/// Decodes a packet that takes up all of the bytes. The only error is `Packet`, with the cause.
#[inline(always)]
fn read_packet(bytes: &[u8]) -> Result<Packet, FrameError>
    ensures exact { MatchOption (whole_packet_fault bytes.now) (result ≡ Ok (whole_packet_at bytes.now)) (λ e.
        result ≡ Err e) }
    ensures valid { IfOk result IsPacket }
{
    match tora_packet::decode(bytes) {
        Ok(packet) => Ok(packet),
        Err(error) => Err(FrameError::Packet(error)),
    }
}

/// The bytes from an offset on.
fn behind(bytes: &[u8], offset: usize) -> &[u8]
    requires { offset ≤ length bytes.now }
    ensures { result.now ≡ drop offset bytes.now }
{
    let (_, rest) = bytes.split_at(offset);
    rest
}

/// Decodes exactly `many` packets, one after another, which take up all of the bytes, into `packets`, which is empty.
/// The only error is `Packet`, with the cause, which is `Long` if bytes are left. After an error, `packets` may have
/// some of them.
fn read_list(bytes: &[u8], many: usize, packets: &mut Packets) -> Result<(), FrameError>
    requires many { many ≤ MOST_PACKETS }
    requires empty { packets.old.items ≡ [] }
    ensures exact { MatchOption (packets_fault many bytes.now) (IsOk result) (λ e. result ≡ Err e) }
    ensures packets { OnOk result (packets.new.items ≡ packets_at many bytes.now) }
    ensures valid { OnOk result (AllByRecursion IsPacket packets.new.items) }
    ensures len { OnOk result (array_vec_len packets.new ≡ many) }
{
    let mut rest = bytes;
    for _ in 0..many {
        let (first, behind) = cut_packet(rest);
        packets.push(read_packet(first)?);
        rest = behind;
    }
    if !rest.is_empty() {
        return Err(FrameError::Packet(PacketError::Long));
    }
    Ok(())
}

/// Reads how many packets a DATA frame of version 2 has. `number` is the number of the first one. The only error is
/// `Count`: it has none or over 16, three zeros do not follow, or the last number is above 2^62.
fn read_batch_size(bytes: &[u8], number: u64) -> Result<usize, FrameError>
    requires len { 48 ≤ length bytes.now }
    requires number { number ≡ u64_at 28 bytes.now }
    requires fits { number ≤ GREATEST_NUMBER }
    ensures exact { MatchBool (is_bad_batch_size bytes.now) (result ≡ Err FrameError.Count) (result
        ≡ Ok (batch_size_at bytes.now)) }
    ensures valid { IfOk result (λ many. (0 < many) × (many ≤ MOST_PACKETS) × (number + many ≤ GREATEST_NUMBER + 1)) }
{
    let many = bytes[44];
    if many == 0 || usize::from(many) > MOST_PACKETS {
        return Err(FrameError::Count);
    }
    if bytes[45] != 0 || bytes[46] != 0 || bytes[47] != 0 {
        return Err(FrameError::Count);
    }
    if number + u64::from(many) - 1 > GREATEST_NUMBER {
        return Err(FrameError::Count);
    }
    Ok(usize::from(many))
}

/// Reads and checks the packets of a frame of version 2.
#[tactic(auto, unfolding(crate::specs::FrameGrammar::batch_fault))]
fn read_batch(bytes: &[u8], number: u64, packets: &mut Packets) -> Result<(), FrameError>
    requires len { 48 ≤ length bytes.now }
    requires number { number ≡ u64_at 28 bytes.now }
    requires fits { number ≤ GREATEST_NUMBER }
    requires empty { packets.old.items ≡ [] }
    ensures exact { MatchOption (batch_fault bytes.now) (IsOk result) (λ e. result ≡ Err e) }
    ensures packets { OnOk result (packets.new.items ≡ packets_at (batch_size_at bytes.now) (drop 48 bytes.now)) }
    ensures valid { OnOk result (AllByRecursion IsPacket packets.new.items) }
    ensures many { OnOk result ((0 < array_vec_len packets.new) × (array_vec_len packets.new ≤ MOST_PACKETS)
        × (number + array_vec_len packets.new ≤ GREATEST_NUMBER + 1)) }
{
    let many = read_batch_size(bytes, number)?;
    read_list(behind(bytes, BATCH_OFFSET), many, packets)
}

/// Reads the packet of a frame of version 1, which takes up all of the bytes after the number and the count.
fn read_one(bytes: &[u8], packets: &mut Packets) -> Result<(), FrameError>
    requires len { 44 ≤ length bytes.now }
    requires empty { packets.old.items ≡ [] }
    ensures exact { MatchOption (whole_packet_fault (drop 44 bytes.now)) (IsOk result) (λ e. result ≡ Err e) }
    ensures packets { OnOk result (packets.new.items ≡ whole_packet_at (drop 44 bytes.now) ∷ []) }
    ensures valid { OnOk result (AllByRecursion IsPacket packets.new.items) }
{
    packets.push(read_packet(behind(bytes, PACKET_OFFSET))?);
    Ok(())
}

/// Reads and checks the packets of a DATA frame of this version whose first packet has this number. After an error,
/// `packets` may have some of them.
#[tactic(auto, unfolding(crate::specs::FrameGrammar::packets_inside))]
pub fn read_packets(
    bytes: &[u8],
    version: Version,
    number: u64,
    packets: &mut Packets,
) -> Result<(), FrameError>
    requires len { 48 ≤ length bytes.now }
    requires version { version ≡ version_of (version_at bytes.now) }
    requires number { number ≡ u64_at 28 bytes.now }
    requires fits { number ≤ GREATEST_NUMBER }
    requires empty { packets.old.items ≡ [] }
    ensures exact { MatchOption (fault_inside bytes.now) (IsOk result) (λ e. result ≡ Err e) }
    ensures packets { OnOk result (packets.new.items ≡ packets_inside bytes.now) }
    ensures valid { OnOk result (AllByRecursion IsPacket packets.new.items) }
    ensures many { OnOk result (IsBatchSize version (array_vec_len packets.new)) }
    ensures last { OnOk result (number + array_vec_len packets.new ≤ GREATEST_NUMBER + 1) }
{
    match version {
        Version::One => read_one(bytes, packets),
        Version::Two => read_batch(bytes, number, packets),
    }
}
