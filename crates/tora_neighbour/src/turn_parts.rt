//! The parts of a turn.
ghost use Rattle.std.specs.Prelude.{◌≡◌, [], ◌∷◌, ◌++◌, ◌+◌, ℕ, ◌≤◌, ◌<◌, List, Option, Result, Some, None, is_err};
ghost use Rattle.std.specs.Prelude.{length, map, true, false, IsTrue, IfErr, OnOk, OnErr};
ghost use Rattle.tora_frame.specs.FrameParts.{FrameParts};
ghost use Rattle.tora_frame.specs.FrameGrammar.{frame_spelling};
ghost use Rattle.tora_arq.specs.declared.link_event.LinkEvent.{LinkEvent};
ghost use Rattle.tora_arq.specs.LinkEnd.{is_closed, frame_due, after_transmit};
ghost use Rattle.tora_arq.specs.LinkFacts.{list_of};
ghost use Rattle.tora_seat.specs.declared.cargo.Cargo.{Cargo};
ghost use Rattle.tora_neighbour.specs.Datagrams.{RoseBy};
ghost use Rattle.tora_neighbour.specs.Intake.{came_in, intake_in, after_came};
ghost use Rattle.tora_neighbour.specs.Tally.{counted_in};
ghost use Rattle.tora_neighbour.specs.Turns.{after_opening, after_cargoes, after_frames, IsOpening, AreDue, Tells};
ghost use Rattle.tora_neighbour.specs.Turns.{row_after, IsRow};
ghost use Rattle.tora_neighbour.specs.Traffic.{AreDrawn, Came, entry_of};
ghost use Rattle.tora_neighbour.specs.declared.wire.WireError.{WireError};
ghost use Rattle.tora_neighbour.specs.Calls.{TakesAll, SendsSome, ReceivesOnce, PutsSome, PutsUpTo};
ghost use Rattle.tora_neighbour.specs.Causes.{IsReady, IsLifeCause};

use crate::hub::Hub;
use crate::intake::take_in;
use crate::tally::Tally;
use crate::wire::Wire;
use arrayvec::ArrayVec;
use std::sync::Wait;
use tora_arq::LinkEnd;
use tora_frame::{LONGEST_FRAME, Packets, encode_into};
use tora_lane::Gone;
use tora_life::{Disk, LifeError, LifeFile};
use tora_seat::{MOST_CARGOES, hand_in, what_of};

/// The size of the receive buffer in bytes. No frame is longer.
pub const MOST_BYTES: usize = 2048;

/// How many calls of the wire in a row must fail before the link is given up.
pub const MOST_FAILURES: u64 = 100;

/// A hundred calls of the wire in a row failed.
#[derive(Clone, Copy, Debug, PartialEq, Eq, Hash)]
pub struct Broken;

/// Opens a closed end with the next session number of its life file; leaves any other end as it is. If the file gives
/// no number, the error is that of `draw`, and the end stays closed.
pub fn open_closed<D: Disk>(
    end: &mut LinkEnd,
    file: &mut LifeFile<D>,
    now: u64,
) -> Result<(), LifeError>
    requires { IsReady end.old.state file.old.numbers }
    ensures settings { end.new.settings ≡ end.old.settings }
    ensures ready { OnOk result (IsReady end.new.state file.new.numbers) }
    ensures opened { OnOk result ((opened : Option ℕ) × IsOpening end.old.state opened
        × (end.new.state ≡ after_opening end.old.state opened now)
        × AreDrawn file.old.numbers.drawn (list_of opened) file.new.numbers.drawn) }
    ensures failed { OnOk result (file.new.numbers.failed ≡ file.old.numbers.failed) }
    ensures disk { OnOk result (D.failures file.new.disk ≡ D.failures file.old.disk) }
    ensures closed { OnErr result (IsTrue (is_closed end.old.state)) }
    ensures same { OnErr result (end.new ≡ end.old) }
    ensures none { OnErr result (file.new.numbers.drawn ≡ file.old.numbers.drawn) }
    ensures cause { IfErr result (λ error. IsLifeCause error file.old.numbers file.new.numbers
        (D.failures file.old.disk) (D.failures file.new.disk)) }
{
    if !end.is_closed() {
        return Ok(());
    }
    match file.draw() {
        Ok(number) => {
            end.open(number, now);
            Ok(())
        }
        Err(error) => Err(error),
    }
}

/// Takes the waiting outbound messages from the hub, at most as many as a queue holds (`MOST_CARGOES`), and passes each
/// to the end.
pub fn take_cargoes<R: Wait, H: Hub>(rt: &R, end: &mut LinkEnd, hub: &mut H)
    ensures taken { (cargoes : List Cargo) × (length cargoes ≤ MOST_CARGOES)
        × (end.new ≡ record end.old { state = after_cargoes end.old.state cargoes })
        × (H.takes hub.new ≡ H.takes hub.old ++ cargoes) × TakesAll H.did_take hub.old cargoes hub.new }
    ensures puts { H.puts hub.new ≡ H.puts hub.old }
    ensures gone { H.gone hub.new ≡ H.gone hub.old }
{
    for count in 0..MOST_CARGOES {
        match hub.take(rt) {
            None => break,
            Some(cargo) => hand_in(end, &cargo),
        }
    }
}

/// Puts the events of the link end into the hub, oldest first. `Gone` if the hub refuses one: that event is lost, and
/// those after it stay in the link end.
pub fn put_events<R: Wait, H: Hub>(
    rt: &R,
    end: &mut LinkEnd,
    hub: &mut H,
    now: u64,
) -> Result<(), Gone>
    ensures settings { end.new.settings ≡ end.old.settings }
    ensures takes { H.takes hub.new ≡ H.takes hub.old }
    ensures all { OnOk result ((told : List LinkEvent) × Tells end.old.state told None end.new.state
        × (H.puts hub.new ≡ H.puts hub.old ++ map (entry_of now) told) × PutsSome H.did_put now hub.old told hub.new) }
    ensures some { OnErr result ((told : List LinkEvent) × (event : LinkEvent)
        × Tells end.old.state told (Some event) end.new.state
        × (H.puts hub.new ≡ H.puts hub.old ++ map (entry_of now) told)
        × PutsUpTo H.did_put now hub.old told (Some event) hub.new) }
    ensures gone { OnErr result (H.gone hub.new ≡ true) }
{
    while let Some(event) = end.poll_event() {
        hub.put(rt, now, what_of(event))?;
    }
    Ok(())
}

/// Adds 1 to the count of failures in a row. `Broken` if it is `MOST_FAILURES` then.
pub fn count_failure(row: &mut u64) -> Result<(), Broken>
    requires { row.old < MOST_FAILURES }
    ensures ok { OnOk result (row.new < MOST_FAILURES) }
    ensures err { OnErr result (row.new ≡ MOST_FAILURES) }
    ensures more { row.new ≡ row.old + 1 }
{
    *row += 1;
    if *row == MOST_FAILURES {
        return Err(Broken);
    }
    Ok(())
}

/// Sends a datagram. A failed send adds 1 to the count of failures in a row, and a successful one resets it to 0.
/// `Broken` only if the count is `MOST_FAILURES` then.
pub fn try_send<W: Wire>(wire: &mut W, row: &mut u64, bytes: &[u8]) -> Result<(), Broken>
    requires { row.old < MOST_FAILURES }
    ensures call { (answer : Result (Unit {0}) WireError) × W.did_send wire.old bytes.now answer wire.new
        × (row.new ≡ row_after (is_err answer) row.old) }
    ensures tells { IsTrue (W.tells wire.new) → IsTrue (W.tells wire.old) }
    ensures tried { IsTrue (W.tells wire.new) → W.tries wire.new ≡ W.tries wire.old ++ bytes.now ∷ [] }
    ensures coming { IsTrue (W.tells wire.new) → W.coming wire.new ≡ W.coming wire.old }
    ensures row { OnOk result (row.new < MOST_FAILURES) }
    ensures broken { OnErr result (row.new ≡ MOST_FAILURES) }
    ensures failures { (base : ℕ) → RoseBy row.old base (W.failures wire.old)
        → RoseBy row.new base (W.failures wire.new) }
{
    match wire.send(bytes) {
        Ok(()) => {
            *row = 0;
            Ok(())
        }
        Err(_) => count_failure(row),
    }
}

/// Sends due frames until none is due, each as `try_send` does; ends early at `Broken`. All frames use the same list of
/// packets and the same buffer of bytes.
pub fn send_frames<R: Wait, W: Wire>(
    rt: &R,
    end: &mut LinkEnd,
    wire: &mut W,
    row: &mut u64,
    now: u64,
) -> Result<(), Broken>
    requires { row.old < MOST_FAILURES }
    ensures tells { IsTrue (W.tells wire.new) → IsTrue (W.tells wire.old) }
    ensures coming { IsTrue (W.tells wire.new) → W.coming wire.new ≡ W.coming wire.old }
    ensures row { OnOk result (row.new < MOST_FAILURES) }
    ensures broken { OnErr result (row.new ≡ MOST_FAILURES) }
    ensures failures { (base : ℕ) → RoseBy row.old base (W.failures wire.old)
        → RoseBy row.new base (W.failures wire.new) }
    ensures all { OnOk result ((frames : List FrameParts) × (answers : List (Result (Unit {0}) WireError))
        × AreDue end.old.settings end.old.state now frames
        × (frame_due end.old.settings (after_frames end.old.settings end.old.state now frames) now ≡ None)
        × (end.new ≡ record end.old {
          state = after_transmit end.old.settings (after_frames end.old.settings end.old.state now frames) now;
        })
        × (IsTrue (W.tells wire.new) → W.tries wire.new ≡ W.tries wire.old ++ map frame_spelling frames)
        × SendsSome W.did_send wire.old frames answers wire.new × IsRow row.old (map is_err answers) row.new) }
    ensures some { OnErr result ((frames : List FrameParts) × (answers : List (Result (Unit {0}) WireError))
        × AreDue end.old.settings end.old.state now frames
        × (end.new ≡ record end.old { state = after_frames end.old.settings end.old.state now frames })
        × (IsTrue (W.tells wire.new) → W.tries wire.new ≡ W.tries wire.old ++ map frame_spelling frames)
        × SendsSome W.did_send wire.old frames answers wire.new × IsRow row.old (map is_err answers) row.new) }
{
    let mut packets = Packets::new();
    let mut bytes = ArrayVec::<u8, LONGEST_FRAME>::new();
    for _ in rt.forever() {
        match end.poll_transmit_into(now, &mut packets) {
            None => return Ok(()),
            Some(frame) => encode_into(&frame, &mut bytes),
        }
        try_send(wire, row, bytes.as_slice())?;
    }
    unreachable!()
}

/// Receives once, and passes a received datagram to the end. A failed receive adds 1 to the count of failures in a row,
/// any other resets it to 0. `Broken` only if the count is `MOST_FAILURES` then.
pub fn receive<W: Wire>(
    end: &mut LinkEnd,
    wire: &mut W,
    row: &mut u64,
    tally: &mut Tally,
    now: u64,
) -> Result<(), Broken>
    requires { row.old < MOST_FAILURES }
    ensures tells { IsTrue (W.tells wire.new) → IsTrue (W.tells wire.old) }
    ensures tries { IsTrue (W.tells wire.new) → W.tries wire.new ≡ W.tries wire.old }
    ensures row { OnOk result (row.new < MOST_FAILURES) }
    ensures broken { OnErr result (row.new ≡ MOST_FAILURES) }
    ensures failures { (base : ℕ) → RoseBy row.old base (W.failures wire.old)
        → RoseBy row.new base (W.failures wire.new) }
    ensures came { (answer : Result (Option ℕ) WireError) × (buffer : List ℕ)
        × ReceivesOnce W.did_receive wire.old (Some answer) buffer wire.new
        × (row.new ≡ row_after (is_err answer) row.old)
        × (end.new
        ≡ record end.old { state = after_came end.old.settings end.old.state now (came_in (Some answer) buffer) })
        × (tally.new
        ≡ counted_in (intake_in end.old.settings end.old.state now (came_in (Some answer) buffer)) tally.old)
        × (IsTrue (W.tells wire.new)
        → Came (W.coming wire.old) (list_of (came_in (Some answer) buffer)) (W.coming wire.new))
        × OnErr result (came_in (Some answer) buffer ≡ None) }
{
    let mut buffer = [0; MOST_BYTES];
    match wire.receive(&mut buffer) {
        Ok(Some(count)) => {
            *row = 0;
            take_in(end, tally, &buffer[..count], now);
            Ok(())
        }
        Ok(None) => {
            *row = 0;
            Ok(())
        }
        Err(_) => count_failure(row),
    }
}
