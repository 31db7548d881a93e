//! A received datagram, found by its bytes.
ghost use Rattle.std.specs.Prelude.{◌≡◌};
ghost use Rattle.std.specs.Result.{result_ok};
ghost use Rattle.hex.specs.Hex.{decode_of};
ghost use Rattle.tora_lines.specs.Gives.{Gives};
ghost use Rattle.tora_drive.specs.Taking.{is_sent_so, is_sent_at, number_of_bytes, taking, line_in};

use crate::driven::Driven;
use crate::line::{DriveLine, drive_line};
use hex::FromHexError;
use std::alloc::Global;
use tora_frame::{Frame, encode};
use tora_height::Id;
use tora_lines::words::LineError;
use tora_lines::{after, words};
use tora_script::{SimulationLine, is_word};
use tora_world::Event;

/// Whether a datagram was sent from one node to another and has these bytes.
fn is_sent_so(frame: &Frame, sender: Id, receiver: Id, bytes: &[u8]) -> bool
    ensures { result ≡ is_sent_so sender receiver bytes.now frame.now }
{
    let header = *frame.header();
    header.sender == sender
        && header.receiver == receiver
        && is_word(bytes, encode(frame).as_slice())
}

/// Whether datagram `i`, counted from 1, was sent from one node to another and has these bytes; `false` if there is no
/// datagram `i`.
fn is_sent_at<S: Driven>(sim: &S, i: u64, sender: Id, receiver: Id, bytes: &[u8]) -> bool
    ensures { result ≡ is_sent_at (S.world sim.now) sender receiver bytes.now i }
{
    match sim.frame(i) {
        Some(frame) => is_sent_so(&frame, sender, receiver, bytes),
        None => false,
    }
}

/// The number of the last datagram from one node to another that has these bytes and is not forgotten; 0 if there is
/// none.
fn number_of_bytes<S: Driven>(
    sim: &S,
    forgotten: u64,
    sender: Id,
    receiver: Id,
    bytes: &[u8],
) -> u64
    ensures { result ≡ number_of_bytes (S.world sim.now) forgotten sender receiver bytes.now }
{
    let mut i = sim.datagrams();
    while 0 < i {
        if i <= forgotten {
            return 0;
        }
        if is_sent_at(sim, i, sender, receiver, bytes) {
            return i;
        }
        i -= 1;
    }
    0
}

/// The bytes that hexadecimal digits of either case encode. The error is `Fault` for other text or an odd number of
/// digits, and `Memory`.
fn bytes_of(alloc: Global, digits: &[u8]) -> Result<Vec<u8>, LineError>
    ensures { Gives (λ v. v.items) result (result_ok (decode_of digits.now)) }
{
    match hex::decode(alloc, digits) {
        Ok(bytes) => Ok(bytes),
        Err(FromHexError::OutOfMemory) => Err(LineError::Memory),
        Err(_) => Err(LineError::Fault),
    }
}

/// Reads `A B HEX`, the rest of a line after `take `: the delivery of the last datagram from B to A that has these
/// bytes and is not forgotten, or of datagram 0, which is refused, if there is none. The error is `Fault` for other
/// text, and `Memory`.
#[tactic(auto, unfolding(crate::specs::Taking::taking))]
fn taking<S: Driven>(
    alloc: Global,
    sim: &S,
    forgotten: u64,
    text: &[u8],
) -> Result<DriveLine, LineError>
    ensures { Gives (λ line. line) result (taking (S.world sim.now) forgotten text.now) }
{
    let Some((receiver, rest)) = words::cut(b' ', text) else {
        return Err(LineError::Fault);
    };
    let Some(receiver) = words::id(receiver) else {
        return Err(LineError::Fault);
    };
    let Some((sender, digits)) = words::cut(b' ', rest) else {
        return Err(LineError::Fault);
    };
    let Some(sender) = words::id(sender) else {
        return Err(LineError::Fault);
    };
    let bytes = bytes_of(alloc, digits)?;
    let i = number_of_bytes(sim, forgotten, sender, receiver, &bytes);
    Ok(DriveLine::Script(SimulationLine::Happens(Event::Deliver(i))))
}

/// Reads a line of a drive after the links; `take A B HEX` is read as the delivery of the datagram with these bytes.
/// The error is `Fault` if the text has none of the forms of such a line, and `Memory` if memory ran out.
#[tactic(auto, unfolding(crate::specs::Taking::line_in))]
pub fn line_in<S: Driven>(
    alloc: Global,
    sim: &S,
    forgotten: u64,
    text: &[u8],
) -> Result<DriveLine, LineError>
    ensures { Gives (λ line. line) result (line_in (S.world sim.now) forgotten text.now) }
{
    if let Some(rest) = after(b"take ", text) {
        return taking(alloc, sim, forgotten, rest);
    }
    match drive_line(text) {
        Some(line) => Ok(line),
        None => Err(LineError::Fault),
    }
}
