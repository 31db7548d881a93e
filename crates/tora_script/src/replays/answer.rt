//! The output for the lines after the first.
ghost use Rattle.std.specs.Prelude.{◌≡◌, [], ◌∷◌, ◌++◌, OnOk, codes, string_bytes, Ok, Err};
ghost use Rattle.tora_core.specs.ShowText.{show_text};
ghost use Rattle.tora_lines.specs.LineText.{numbered, TakesReply};
ghost use Rattle.tora_script.specs.ReplayAnswers.{answer, step_reply, replied, send_line, send_lines};

use crate::replays::line::{Line, Order};
use std::alloc::AllocError;
use tora_core::{Core, Input, Sends};
use tora_lines::numbered;
use tora_packet::{LONGEST_PACKET, Packet, encode};

/// Appends a line `send HEX` to a text, where HEX is `digits`.
fn send_digits(out: &mut String, digits: &str) -> Result<(), AllocError>
    ensures { OnOk result (string_bytes out.new ≡ string_bytes out.old ++ codes "send " ++ digits.now ++ 10 ∷ []) }
{
    writeln!(out, "send {digits}")
}

/// Appends a line `send HEX` to a text, where HEX is the bytes of the packet in lower case. The error says that memory
/// ran out.
fn send(out: &mut String, packet: &Packet) -> Result<(), AllocError>
    ensures { OnOk result (string_bytes out.new ≡ string_bytes out.old ++ send_line packet.now) }
{
    let bytes = encode(packet);
    let mut room = [0; 2 * LONGEST_PACKET];
    let digits = &mut room[..2 * bytes.len()];
    let Ok(()) = hex::encode_to_slice(bytes.as_slice(), digits) else {
        unreachable!()
    };
    let Ok(digits) = str::from_utf8(digits) else {
        unreachable!()
    };
    send_digits(out, digits)
}

/// Appends a line `send HEX` to a text for each packet, where HEX is its bytes in lower case.
fn send_all(out: &mut String, packets: &[Packet]) -> Result<(), AllocError>
    ensures { OnOk result (string_bytes out.new ≡ string_bytes out.old ++ send_lines packets.now) }
{
    for packet in packets {
        send(out, packet)?;
    }
    Ok(())
}

/// Steps the core, and appends a line for each packet sent, or `refused N`, to a text. Afterwards the list has the
/// packets; it is empty after a refusal.
#[tactic(auto, unfolding(crate::specs::ReplayAnswers::step_reply))]
fn step(
    core: &mut Core,
    input: Input,
    now: u64,
    sends: &mut Sends,
    out: &mut String,
) -> Result<(), AllocError>
    ensures { OnOk result (TakesReply (step_reply core.old input now) core.new (string_bytes out.old)
        (string_bytes out.new)) }
{
    match core.step_into(&input, now, sends) {
        Ok(()) => send_all(out, sends.as_slice()),
        Err(error) => numbered(out, "refused ", u64::from(error.number())),
    }
}

/// Appends the table of the core to a text. The error says that memory ran out.
fn show(core: &Core, out: &mut String) -> Result<(), AllocError>
    ensures { OnOk result (string_bytes out.new ≡ string_bytes out.old ++ show_text core.now) }
{
    let Ok(text) = core.show(*out.allocator()) else {
        return Err(AllocError);
    };
    out.push_str(&text)
}

/// Carries out a line, and appends its output to a text. The list of packets is overwritten.
#[tactic(auto, unfolding(crate::specs::ReplayAnswers::answer))]
pub fn answer(
    core: &mut Core,
    line: Line,
    sends: &mut Sends,
    out: &mut String,
) -> Result<(), AllocError>
    ensures { OnOk result (TakesReply (answer core.old line) core.new (string_bytes out.old) (string_bytes out.new)) }
{
    let now = line.now;
    match line.order {
        Order::Up(k) => step(core, Input::LinkUp(k), now, sends, out),
        Order::Down(k) => step(core, Input::LinkDown(k), now, sends, out),
        Order::Need(d) => step(core, Input::Need(d), now, sends, out),
        Order::From(k, Ok(packet)) => { step(core, Input::Packet(k, packet), now, sends, out) }
        Order::From(_, Err(error)) => numbered(out, "bad ", u64::from(error.number())),
        Order::Show => show(core, out),
    }
}
