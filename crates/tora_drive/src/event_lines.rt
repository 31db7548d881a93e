//! The lines of events in a simulation file.
ghost use Rattle.std.specs.Prelude.{◌≡◌, ◌++◌, ◌∷◌, [], codes, OnOk, option_map, string_bytes};
ghost use Rattle.std.specs.Fmt.{decimal};
ghost use Rattle.tora_script.specs.SimulationGrammar.{call_text};
ghost use Rattle.tora_drive.specs.Recording.{torn_text, pair_text, event_text, event_line};

use std::alloc::AllocError;
use tora_height::Id;
use tora_world::{Call, Event};

/// Appends a word and two nodes to a text.
fn write_pair(out: &mut String, word: &str, n: Id, k: Id) -> Result<(), AllocError>
    ensures { OnOk result (string_bytes out.new ≡ string_bytes out.old ++ pair_text word.now n k) }
{
    write!(out, "{word}{n} {k}")
}

/// Appends a word and a number to a text.
fn write_number(out: &mut String, word: &str, n: u64) -> Result<(), AllocError>
    ensures { OnOk result (string_bytes out.new ≡ string_bytes out.old ++ word.now ++ decimal n) }
{
    write!(out, "{word}{n}")
}

/// The word CALL of `arm N CALL` for a call.
fn call_text(call: Call) -> &'static str
    ensures { result.now ≡ call_text call }
{
    match call {
        Call::SendLost => "send-lost",
        Call::SendGone => "send-gone",
        Call::Receive => "receive",
        Call::Read => "read",
        Call::Write => "write",
        Call::Sync => "sync",
    }
}

/// Appends `arm N CALL` to a text.
fn write_arm(out: &mut String, n: Id, call: Call) -> Result<(), AllocError>
    ensures { OnOk result (string_bytes out.new ≡ string_bytes out.old ++ codes "arm " ++ decimal n ++ codes " "
        ++ call_text call) }
{
    let call = call_text(call);
    write!(out, "arm {n} {call}")
}

/// Appends `restart N T` to a text. T is these digits.
fn write_digits(out: &mut String, n: Id, digits: &str) -> Result<(), AllocError>
    ensures { OnOk result (string_bytes out.new ≡ string_bytes out.old ++ codes "restart " ++ decimal n ++ codes " "
        ++ digits.now) }
{
    write!(out, "restart {n} {digits}")
}

/// Appends `restart N T` to a text, where T is the torn bytes as 32 hexadecimal digits in lower case, or `-` for
/// `None`.
fn write_restart(out: &mut String, n: Id, torn: Option<[u8; 16]>) -> Result<(), AllocError>
    ensures { OnOk result (string_bytes out.new ≡ string_bytes out.old ++ codes "restart " ++ decimal n ++ codes " "
        ++ torn_text torn) }
{
    let Some(bytes) = torn else {
        return write_digits(out, n, "-");
    };
    let mut digits = [0; 32];
    let Ok(()) = hex::encode_to_slice(bytes.as_slice(), &mut digits) else {
        unreachable!()
    };
    let Ok(digits) = str::from_utf8(&digits) else {
        unreachable!()
    };
    write_digits(out, n, digits)
}

/// Appends the line of an event, without its LF, to a text.
#[tactic(auto, unfolding(crate::specs::Recording::event_text))]
fn write_event(out: &mut String, event: &Event) -> Result<(), AllocError>
    ensures { OnOk result (string_bytes out.new ≡ string_bytes out.old ++ event_text event.now) }
{
    match event {
        Event::Need(n, d) => write_pair(out, "need ", *n, *d),
        Event::Tick => write!(out, "tick"),
        Event::Open(n, k) => write_pair(out, "open ", *n, *k),
        Event::Pull(n, k) => write_pair(out, "pull ", *n, *k),
        Event::Transmit(n, k) => write_pair(out, "transmit ", *n, *k),
        Event::Deliver(i) => write_number(out, "deliver ", *i),
        Event::Pump(n, k) => write_pair(out, "pump ", *n, *k),
        Event::CoreTurn(n) => write_number(out, "turn ", u64::from(*n)),
        Event::Arm(n, call) => write_arm(out, *n, *call),
        Event::Restart(n, torn) => write_restart(out, *n, *torn),
    }
}

/// Appends the line of an event to a text.
pub fn write_event_line(out: &mut String, event: &Event) -> Result<(), AllocError>
    ensures { OnOk result (string_bytes out.new ≡ string_bytes out.old ++ event_line event.now) }
{
    write_event(out, event)?;
    writeln!(out, "")
}
