//! The lengths of packets in bytes, and the end of the first of several packets.
ghost use Rattle.std.specs.Prelude.{◌≡◌, ◌≤◌, length, take};
ghost use Rattle.tora_packet.specs.PacketGrammar.{packet_length, is_packet_length, first_packet, behind_first};

use crate::Packet;

/// The length of a query in bytes.
pub const QUERY_LENGTH: usize = 8;

/// The length of an update in bytes.
pub const UPDATE_LENGTH: usize = 32;

/// The length of a clear in bytes.
pub const CLEAR_LENGTH: usize = 20;

/// The length of the shortest packet, a query, in bytes.
pub const SHORTEST_PACKET: usize = QUERY_LENGTH;

/// The length of the longest packet, an update, in bytes.
pub const LONGEST_PACKET: usize = UPDATE_LENGTH;

/// The length of a packet's encoding in bytes.
#[inline(always)]
pub fn encoded_length(packet: &Packet) -> usize
    ensures length { result ≡ packet_length packet.now }
    ensures most { result ≤ LONGEST_PACKET }
{
    match packet {
        Packet::Qry(_) => QUERY_LENGTH,
        Packet::Upd(_) => UPDATE_LENGTH,
        Packet::Clr(_) => CLEAR_LENGTH,
    }
}

/// Whether a kind of packet has this length in bytes: 8, 20 or 32.
#[inline(always)]
pub fn is_packet_length(len: usize) -> bool
    ensures { result ≡ is_packet_length len }
{
    len == QUERY_LENGTH || len == UPDATE_LENGTH || len == CLEAR_LENGTH
}

/// The length in bytes of the first packet: the length of its kind, if the bytes begin with version 1 and a known kind
/// and are at least as many; otherwise the length of all bytes.
#[inline(always)]
#[tactic(auto, unfolding(crate::specs::PacketGrammar::first_packet))]
fn first_length(bytes: &[u8]) -> usize
    ensures length { result ≡ length (first_packet bytes.now) }
    ensures front { take result bytes.now ≡ first_packet bytes.now }
    ensures within { result ≤ length bytes.now }
{
    let all = bytes.len();
    if all < 2 || bytes[0] != 1 {
        return all;
    }
    match bytes[1] {
        1 => all.min(QUERY_LENGTH),
        2 => all.min(UPDATE_LENGTH),
        3 => all.min(CLEAR_LENGTH),
        _ => all,
    }
}

/// Splits bytes into the first packet and the bytes after it, by the length of its kind; it does not check the packet.
/// If the bytes do not begin with version 1 and a known kind, or are fewer than the kind has, the first part is all
/// bytes.
#[inline(always)]
pub fn cut_packet(bytes: &[u8]) -> (&[u8], &[u8])
    ensures first { result.0.now ≡ first_packet bytes.now }
    ensures behind { result.1.now ≡ behind_first bytes.now }
{
    bytes.split_at(first_length(bytes))
}
