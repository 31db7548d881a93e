//! Frames that are cut or changed, compared with a plain decoder.
ghost use Rattle.std.specs.Prelude.{◌≤◌, length};

use super::super::sees::{bytes_of, same, same_at};
use super::VECTORS;
use std::cmp::Ordering;
use std::process::Abort;
use tora_frame::{FrameError, decode, encode};
use tora_packet::PacketError;

/// The number in `count` bytes from `from` on, the highest byte first. A missing byte counts as 0.
fn plain_number(bytes: &[u8], from: usize, count: usize) -> u64 {
    let mut number = 0u64;
    for at in from..from.saturating_add(count) {
        let byte = bytes.get(at).copied().unwrap_or(0);
        number = (number << 8) | u64::from(byte);
    }
    number
}

/// The number of the error for the length, the version, the kind or the payload length of a frame; `None` if these are
/// right.
fn plain_layout(bytes: &[u8]) -> Option<u8> {
    if bytes.len() < 28 {
        return Some(1);
    }
    if bytes[0] != 1 && bytes[0] != 2 {
        return Some(3);
    }
    let length = plain_number(bytes, 2, 2);
    let is_length = match (bytes[0], bytes[1]) {
        (_, 1) => length == 0,
        (1, 2) => [24, 36, 48].contains(&length),
        (_, 2) => (28..=532).contains(&length),
        (_, 3) => length == 8,
        _ => return Some(4),
    };
    if !is_length {
        return Some(5);
    }
    match (bytes.len() as u64 - 28).cmp(&length) {
        Ordering::Less => Some(1),
        Ordering::Equal => None,
        Ordering::Greater => Some(2),
    }
}

/// The number of the error for a node, a session number, a packet number or a count in a frame whose layout is right;
/// `None` if all are in range.
fn plain_fields(bytes: &[u8]) -> Option<u8> {
    let most = 1u64 << 62;
    let kind = plain_number(bytes, 1, 1);
    let (sender, receiver) = (plain_number(bytes, 4, 4), plain_number(bytes, 8, 4));
    if sender == 0 || receiver == 0 || sender == receiver {
        return Some(6);
    }
    let (life, heard) = (plain_number(bytes, 12, 8), plain_number(bytes, 20, 8));
    let least = if kind == 1 { 0 } else { 1 };
    if !(1..=most).contains(&life) || !(least..=most).contains(&heard) {
        return Some(7);
    }
    let (first, second) = (plain_number(bytes, 28, 8), plain_number(bytes, 36, 8));
    match kind {
        2 if first == 0 || first > most || second > most => Some(8),
        2 if plain_number(bytes, 0, 1) == 2 => plain_count(bytes, first),
        3 if first > most => Some(8),
        _ => None,
    }
}

/// The number of the error (10) for the count of packets in a DATA frame of version 2; `None` if it is 1 to 16, three
/// zero bytes follow it, and no packet number exceeds 2^62. `first` is the number of the first packet.
fn plain_count(bytes: &[u8], first: u64) -> Option<u8> {
    let many = plain_number(bytes, 44, 1);
    let is_zero = plain_number(bytes, 45, 3) == 0;
    if !(1..=16).contains(&many) || !is_zero || first.saturating_add(many) > (1u64 << 62) + 1 {
        return Some(10);
    }
    None
}

/// The length of the first packet in `bytes`, by its kind, but at most the length of `bytes`, which is also the answer
/// if they do not begin with version 1 and a known kind.
fn plain_cut(bytes: &[u8]) -> usize
    ensures { result ≤ length bytes.now }
{
    let kind = match bytes {
        [1, 1, ..] => 8,
        [1, 2, ..] => 32,
        [1, 3, ..] => 20,
        _ => bytes.len(),
    };
    kind.min(bytes.len())
}

/// The error of the first refused packet of a DATA frame, or `Long` if bytes follow its last packet; `None` if neither
/// applies.
fn plain_packets(bytes: &[u8]) -> Option<PacketError> {
    if plain_number(bytes, 0, 1) == 1 {
        return tora_packet::decode(bytes.get(44..).unwrap_or(&[])).err();
    }
    let mut rest = bytes.get(48..).unwrap_or(&[]);
    for _ in 0..plain_number(bytes, 44, 1) {
        let (first, behind) = rest.split_at(plain_cut(rest));
        if let Err(error) = tora_packet::decode(first) {
            return Some(error);
        }
        rest = behind;
    }
    if rest.is_empty() {
        None
    } else {
        Some(PacketError::Long)
    }
}

/// Decodes `bytes`. If the plain decoder finds a fault in the layout or the fields, checks that the error has its
/// number; otherwise checks that encoding the frame gives `bytes` again, or that the error is that of `plain_packets`.
fn check(rt: &impl Abort, bytes: &[u8]) {
    let fault = plain_layout(bytes).or(plain_fields(bytes));
    match (fault, decode(bytes)) {
        (Some(number), answer) => {
            let answer = answer.map_err(FrameError::number);
            same_at(rt, &answer, &Err(number), "the fault", &bytes);
        }
        (None, Ok(frame)) => same(rt, &encode(&frame).as_slice(), &bytes, "the spelling"),
        (None, Err(error)) => {
            let expected = plain_packets(bytes).map(FrameError::Packet);
            same_at(rt, &expected, &Some(error), "the packets' fault", &bytes);
        }
    }
}

/// Runs `check` with each prefix of the bytes, from the empty one to all bytes.
fn check_cut(rt: &impl Abort, bytes: &[u8]) {
    for end in 0..=bytes.len() {
        check(rt, &bytes[..end]);
    }
}

/// Runs `check` with one byte at a time set to 0, 1, 2, 3 and 255, and restores the bytes.
fn check_changed(rt: &impl Abort, bytes: &mut [u8]) {
    for index in 0..bytes.len() {
        let old = bytes[index];
        for value in [0, 1, 2, 3, 255] {
            bytes[index] = value;
            check(rt, bytes);
        }
        bytes[index] = old;
    }
}

#[test]
fn cut_and_changed_frames(rt: HostRuntime) {
    for (_, _, text) in VECTORS {
        let mut bytes = bytes_of(&rt, rt.alloc(), text);
        check_cut(&rt, &bytes);
        check_changed(&rt, &mut bytes);
    }
}
