//! Packets in hexadecimal digits.
ghost use Rattle.std.specs.Prelude.{◌≡◌, ◌*◌, ◌<◌, ◌≤◌, length, false};
ghost use Rattle.std.specs.Option.{option_map};
ghost use Rattle.tora_packet.specs.PacketGrammar.{packet_reading};
ghost use Rattle.tora_lines.specs.declared.session.TheConstants.{LONGEST_LINE};
ghost use Rattle.tora_lines.specs.Words.{is_dash};
ghost use Rattle.tora_script.specs.ReplayLines.{bytes_of};

use tora_lines::words::is_dash;
use tora_packet::{LONGEST_PACKET, Packet, PacketError, decode};

/// Decodes the packet in a word of hexadecimal digits, with `room` for its bytes. An `Err` inside says why the bytes
/// are not a packet; `None` unless the word is an even number of hexadecimal digits.
#[tactic(auto, unfolding(crate::specs::ReplayLines::bytes_of))]
fn reading(digits: &[u8], room: &mut [u8]) -> Option<Result<Packet, PacketError>>
    requires some { 0 < length digits.now }
    requires plain { is_dash digits.now ≡ false }
    requires room { length digits.now ≤ 2 * length room.old }
    ensures { result ≡ option_map packet_reading (bytes_of digits.now) }
{
    let bytes = &mut room[..digits.len() / 2];
    match hex::decode_to_slice(digits, bytes) {
        Ok(()) => Some(decode(bytes)),
        Err(_) => None,
    }
}

/// As `reading`, for a word of at most `2 * LONGEST_PACKET` digits.
fn short_reading(digits: &[u8]) -> Option<Result<Packet, PacketError>>
    requires some { 0 < length digits.now }
    requires plain { is_dash digits.now ≡ false }
    requires room { length digits.now ≤ 2 * LONGEST_PACKET }
    ensures { result ≡ option_map packet_reading (bytes_of digits.now) }
{
    reading(digits, &mut [0; LONGEST_PACKET])
}

/// As `reading`, for a word of up to 4,096 digits.
fn long_reading(digits: &[u8]) -> Option<Result<Packet, PacketError>>
    requires some { 0 < length digits.now }
    requires plain { is_dash digits.now ≡ false }
    requires room { length digits.now ≤ LONGEST_LINE }
    ensures { result ≡ option_map packet_reading (bytes_of digits.now) }
{
    reading(digits, &mut [0; 2048])
}

/// Decodes the packet in a word of hexadecimal digits, or returns why its bytes are not a packet; `-` means no bytes.
/// `None` for any other word.
#[tactic(auto, unfolding(crate::specs::ReplayLines::bytes_of))]
pub fn packet(text: &[u8]) -> Option<Result<Packet, PacketError>>
    requires { length text.now ≤ LONGEST_LINE }
    ensures { result ≡ option_map packet_reading (bytes_of text.now) }
{
    if text.is_empty() {
        return None;
    }
    if is_dash(text) {
        return Some(decode(&[]));
    }
    if text.len() <= 2 * LONGEST_PACKET {
        short_reading(text)
    } else {
        long_reading(text)
    }
}
