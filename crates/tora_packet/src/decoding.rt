//! Bytes to packets.
ghost use Rattle.std.specs.Prelude.{◌≡◌, ℕ, List, [], ◌++◌, ◌+◌, ◌≤◌, length, MatchOption, MatchBool, IfOk, IsOk, ◌||◌};
ghost use Rattle.std.specs.Prelude.{◌==◌};
ghost use Rattle.tora_packet.specs.PacketParts.{update_of, is_bad_update};
ghost use Rattle.tora_packet.specs.AnyPacket.{IsPacket};
ghost use Rattle.tora_packet.specs.PacketGrammar.{SpellsPacket, u32_at, u64_at, height_at, is_reserved_zero, kind_of};
ghost use Rattle.tora_packet.specs.PacketGrammar.{packet_spelling, packet_length, packet_fault, packet_at};
ghost use Rattle.tora_packet.specs.PacketGrammar.{packet_reading};
ghost use Rattle.tora_packet.specs.declared.Packet.{Packet as AnyPacket};
ghost use Rattle.tora_packet.specs.declared.Packet.TheVariants.{Upd};

use crate::{CLEAR_LENGTH, Clear, Packet, PacketError, QUERY_LENGTH, Query, UPDATE_LENGTH, Update};
use tora_height::Height;

/// The number in the four bytes from the index `at` on, most significant byte first.
#[tactic(auto, unfolding(crate::specs::PacketGrammar::u32_at))]
fn u32_at(bytes: &[u8], at: usize) -> u32
    requires { at + 4 ≤ length bytes.now }
    ensures { result ≡ u32_at at bytes.now }
{
    let four = &bytes[at..at + 4];
    u32::from_be_bytes([four[0], four[1], four[2], four[3]])
}

/// The number in the eight bytes from the index `at` on, most significant byte first.
#[tactic(auto, unfolding(crate::specs::PacketGrammar::u64_at))]
fn u64_at(bytes: &[u8], at: usize) -> u64
    requires { at + 8 ≤ length bytes.now }
    ensures { result ≡ u64_at at bytes.now }
{
    let eight = &bytes[at..at + 8];
    u64::from_be_bytes([
        eight[0], eight[1], eight[2], eight[3], eight[4], eight[5], eight[6], eight[7],
    ])
}

/// Whether the reserved bytes of a packet are 0: those at 2 and 3, and in an update also those from 21 to 23.
fn is_reserved_zero(bytes: &[u8]) -> bool
    requires short { 4 ≤ length bytes.now }
    requires update { kind_of bytes.now ≡ 2 → UPDATE_LENGTH ≤ length bytes.now }
    ensures { result ≡ is_reserved_zero bytes.now }
{
    if bytes[2] != 0 || bytes[3] != 0 {
        return false;
    }
    bytes[1] != 2 || (bytes[21] == 0 && bytes[22] == 0 && bytes[23] == 0)
}

/// The update in 32 bytes; its version, kind and reserved bytes are not checked. The error is `Height` if its height is
/// invalid, or if `Update::new` refuses it.
#[inline(always)]
#[tactic(auto, unfolding(crate::specs::PacketParts::is_bad_update))]
fn update_at(bytes: &[u8]) -> Result<Packet, PacketError>
    requires { length bytes.now ≡ UPDATE_LENGTH }
    ensures exact { MatchBool ((u32_at 4 bytes.now == 0) || is_bad_update (u32_at 4 bytes.now) (height_at bytes.now))
        (result ≡ Err PacketError.Height) (result ≡ Ok (Upd (update_of (u32_at 4 bytes.now) (height_at bytes.now)))) }
    ensures valid { IfOk result IsPacket }
{
    let delta = u32_at(bytes, 24).cast_signed();
    let (tau, oid, id) = (u64_at(bytes, 8), u32_at(bytes, 16), u32_at(bytes, 28));
    let Ok(height) = Height::new(tau, oid, bytes[20], delta, id) else {
        return Err(PacketError::Height);
    };
    match Update::new(u32_at(bytes, 4), height) {
        Ok(update) => Ok(Packet::Upd(update)),
        Err(error) => Err(error),
    }
}

/// Decodes a packet as `decode` does, with the same errors.
#[inline(always)]
fn packet_at(bytes: &[u8]) -> Result<Packet, PacketError>
    ensures exact { MatchOption (packet_fault bytes.now) (result ≡ Ok (packet_at bytes.now)) (λ e. result ≡ Err e) }
    ensures valid { IfOk result IsPacket }
{
    if bytes.len() < 2 {
        return Err(PacketError::Short);
    }
    if bytes[0] != 1 {
        return Err(PacketError::Version);
    }
    let len = match bytes[1] {
        1 => QUERY_LENGTH,
        2 => UPDATE_LENGTH,
        3 => CLEAR_LENGTH,
        _ => return Err(PacketError::Kind),
    };
    if bytes.len() < len {
        return Err(PacketError::Short);
    }
    if bytes.len() > len {
        return Err(PacketError::Long);
    }
    if !is_reserved_zero(bytes) {
        return Err(PacketError::Reserved);
    }
    match bytes[1] {
        1 => Ok(Packet::Qry(Query::new(u32_at(bytes, 4))?)),
        2 => update_at(bytes),
        _ => Ok(Packet::Clr(Clear::new(u32_at(bytes, 4), u64_at(bytes, 8), u32_at(bytes, 16))?)),
    }
}

/// Decodes a packet that takes up all of the bytes.
///
/// # Errors
/// The first that applies, in this order: `Short` (under 2 bytes), `Version`, `Kind`, `Short` (fewer bytes than the
/// kind has), `Long`, `Reserved`, `Height`.
#[inline(always)]
pub fn decode(bytes: &[u8]) -> Result<Packet, PacketError>
    // The bytes are the encoding of the result.
    ensures found { IfOk result (SpellsPacket bytes.now) }
    // If the bytes are the encoding of a value, the result is that value.
    ensures only { (packet : AnyPacket) → SpellsPacket bytes.now packet → result ≡ Ok packet }
    // A fault is reported exactly if the bytes have one, and it is the first one.
    ensures fault { MatchOption (packet_fault bytes.now) (IsOk result) (λ e. result ≡ Err e) }
    // The three clauses above as one function.
    ensures exact { result ≡ packet_reading bytes.now }
{
    packet_at(bytes)
}

/// Each packet has exactly one encoding, of the length of its kind, and no encoding is a prefix of another.
pub fn one_packet_spelling()
    // The encoding of a packet has the length of its kind.
    ensures length { (p : AnyPacket) → length (packet_spelling p) ≡ packet_length p }
    ensures one { (a b : List ℕ) (p : AnyPacket) → SpellsPacket a p → SpellsPacket b p → a ≡ b }
    ensures prefix_free { (a b rest : List ℕ) (p q : AnyPacket) → SpellsPacket a p → SpellsPacket b q → a ++ rest ≡ b →
        (rest ≡ []) × (a ≡ b) × (p ≡ q) }
{}
