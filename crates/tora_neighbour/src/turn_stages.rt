//! The stages of a turn: it begins, exchanges datagrams, and puts events.
ghost use Rattle.std.specs.Prelude.{◌≡◌, [], ◌∷◌, ◌++◌, ◌+◌, ℕ, ◌≤◌, ◌<◌, List, Option, Result, Err, Some, None};
ghost use Rattle.std.specs.Prelude.{length, map, true, false, IsTrue, IfErr, OnOk, OnErr, if◌then◌else◌};
ghost use Rattle.tora_frame.specs.FrameParts.{FrameParts};
ghost use Rattle.tora_frame.specs.FrameGrammar.{frame_spelling};
ghost use Rattle.tora_arq.specs.declared.link_event.LinkEvent.{LinkEvent};
ghost use Rattle.tora_arq.specs.LinkEnd.{is_closed, bound_life, after_tick};
ghost use Rattle.tora_arq.specs.LinkFacts.{list_of};
ghost use Rattle.tora_seat.specs.declared.cargo.Cargo.{Cargo};
ghost use Rattle.tora_seat.specs.declared.what.What.TheVariants as Says;
ghost use Rattle.tora_seat.specs.declared.TheConstants.{MOST_CARGOES};
ghost use Rattle.tora_lane.specs.declared.ports.Gone.{Gone as AnyGone};
ghost use Rattle.tora_neighbour.specs.Datagrams.{RoseBy};
ghost use Rattle.tora_neighbour.specs.declared.wire.WireError.{WireError};
ghost use Rattle.tora_neighbour.specs.declared.intake.Intake.{Intake};
ghost use Rattle.tora_neighbour.specs.Intake.{came_in};
ghost use Rattle.tora_neighbour.specs.Tally.{counted_in};
ghost use Rattle.tora_seat.specs.Between.{after_cut_of_bound};
ghost use Rattle.tora_neighbour.specs.Turns.{after_opening, after_cargoes, IsOpening, Tells, is_beat_due, failed_calls};
ghost use Rattle.tora_neighbour.specs.Turns.{IsRow};
ghost use Rattle.tora_neighbour.specs.Traffic.{AreDrawn, Came, entry_of, beat_of};
ghost use Rattle.tora_neighbour.specs.Calls.{TakesAll, SendsSome, ReceivesOnce, PutsSome, PutsBeat, PutsUpTo};
ghost use Rattle.tora_neighbour.specs.Calls.{PutsNoMore, ExchangesUpTo};
ghost use Rattle.tora_neighbour.specs.Causes.{IsReady, IsLifeCause, IsExchange};

use crate::ending::BrokenAt;
use crate::hub::Hub;
use crate::tally::Tally;
use crate::turn_parts::{
    MOST_FAILURES, open_closed, put_events, receive, send_frames, take_cargoes,
};
use crate::wire::Wire;
use std::sync::Wait;
use tora_arq::{LinkEnd, lives_are_bound_once};
use tora_lane::{Gone, What};
use tora_life::{Disk, LifeError, LifeFile};
use tora_seat::cut_bound;

/// The number of ticks of 100 ms after which the next beat is due.
pub const BEAT_TICKS: u64 = 10;

/// Opens a closed end, passes the tick to it, and takes the outbound messages for it. If the life file gives no number,
/// the error is that of `draw`, and nothing else is done.
pub fn begin<R: Wait, D: Disk, H: Hub>(
    rt: &R,
    end: &mut LinkEnd,
    file: &mut LifeFile<D>,
    hub: &mut H,
    now: u64,
) -> Result<(), LifeError>
    requires { IsReady end.old.state file.old.numbers }
    ensures puts { H.puts hub.new ≡ H.puts hub.old }
    ensures ready { OnOk result (IsReady end.new.state file.new.numbers) }
    ensures begun { OnOk result ((opened : Option ℕ) × (cargoes : List Cargo) × IsOpening end.old.state opened
        × (length cargoes ≤ MOST_CARGOES)
        × (end.new ≡ record end.old {
          state = after_cargoes (after_tick end.old.settings (after_opening end.old.state opened now) now) cargoes;
        })
        × AreDrawn file.old.numbers.drawn (list_of opened) file.new.numbers.drawn
        × (H.takes hub.new ≡ H.takes hub.old ++ cargoes) × TakesAll H.did_take hub.old cargoes hub.new) }
    ensures failed { OnOk result (file.new.numbers.failed ≡ file.old.numbers.failed) }
    ensures disk { OnOk result (D.failures file.new.disk ≡ D.failures file.old.disk) }
    ensures closed { OnErr result (IsTrue (is_closed end.old.state)) }
    ensures same { OnErr result ((end.new ≡ end.old) × (file.new.numbers.drawn ≡ file.old.numbers.drawn)
        × (H.takes hub.new ≡ H.takes hub.old) × (hub.new ≡ hub.old)) }
    ensures cause { IfErr result (λ error. IsLifeCause error file.old.numbers file.new.numbers
        (D.failures file.old.disk) (D.failures file.new.disk)) }
{
    lives_are_bound_once();
    open_closed(end, file, now)?;
    end.on_tick(now);
    take_cargoes(rt, end, hub);
    Ok(())
}

/// Sends each due frame, and then receives once. The error names the call that was the hundredth failure in a row;
/// after `Send` nothing is received.
pub fn exchange<R: Wait, W: Wire>(
    rt: &R,
    end: &mut LinkEnd,
    wire: &mut W,
    row: &mut u64,
    tally: &mut Tally,
    now: u64,
) -> Result<(), BrokenAt>
    requires { row.old < MOST_FAILURES }
    ensures tells { IsTrue (W.tells wire.new) → IsTrue (W.tells wire.old) }
    ensures row { OnOk result (row.new < MOST_FAILURES) }
    ensures broken { OnErr result (row.new ≡ MOST_FAILURES) }
    ensures failures { (base : ℕ) → RoseBy row.old base (W.failures wire.old)
        → RoseBy row.new base (W.failures wire.new) }
    ensures last { OnOk result (end.new.state.last_life ≡ end.old.state.last_life) }
    ensures exchange { (frames : List FrameParts) × (intake : Option Intake)
        × (answers : List (Result (Unit {0}) WireError)) × (answer : Option (Result (Option ℕ) WireError))
        × (buffer : List ℕ)
        × IsExchange end.old.settings end.old.state now frames (came_in answer buffer) intake result end.new.state
        × (end.new.settings ≡ end.old.settings) × (tally.new ≡ counted_in intake tally.old)
        × (IsTrue (W.tells wire.new) → W.tries wire.new ≡ W.tries wire.old ++ map frame_spelling frames)
        × (IsTrue (W.tells wire.new) → Came (W.coming wire.old) (list_of (came_in answer buffer)) (W.coming wire.new))
        × OnOk result ((sent : W) × SendsSome W.did_send wire.old frames answers sent
        × ReceivesOnce W.did_receive sent answer buffer wire.new)
        × IfErr result (λ at. ExchangesUpTo W.did_send W.did_receive wire.old frames answers answer buffer at wire.new)
        × IsRow row.old (failed_calls answers answer) row.new }
{
    lives_are_bound_once();
    if let Err(_) = send_frames(rt, end, wire, row, now) {
        return Err(BrokenAt::Send);
    }
    if let Err(_) = receive(end, wire, row, tally, now) {
        return Err(BrokenAt::Receive);
    }
    Ok(())
}

/// Cuts the bound session, if there is one, and puts the events that are left, until the hub refuses one.
pub fn give_up<R: Wait, H: Hub>(rt: &R, end: &mut LinkEnd, hub: &mut H, now: u64)
    ensures settings { end.new.settings ≡ end.old.settings }
    ensures takes { H.takes hub.new ≡ H.takes hub.old }
    ensures told { (told : List LinkEvent) × (refused : Option LinkEvent)
        × Tells (after_cut_of_bound end.old.state (bound_life end.old.state)) told refused end.new.state
        × (H.puts hub.new ≡ H.puts hub.old ++ map (entry_of now) told)
        × PutsUpTo H.did_put now hub.old told refused hub.new }
{
    cut_bound(end);
    match put_events(rt, end, hub, now) {
        Ok(()) => {}
        Err(_) => {}
    }
}

/// Puts a beat if none was put before, or at least `BEAT_TICKS` ticks after the last one. `Gone` if the hub refuses it.
pub fn put_beat<R: Wait, H: Hub>(
    rt: &R,
    hub: &mut H,
    last_beat: &mut Option<u64>,
    now: u64,
) -> Result<(), Gone>
    ensures takes { H.takes hub.new ≡ H.takes hub.old }
    ensures last { OnOk result (last_beat.new ≡ (if is_beat_due last_beat.old now then Some now else last_beat.old)) }
    ensures put { OnOk result (H.puts hub.new ≡ H.puts hub.old ++ beat_of (is_beat_due last_beat.old now) now) }
    ensures call { OnOk result (PutsBeat H.did_put now (is_beat_due last_beat.old now) hub.old hub.new) }
    ensures refused { OnErr result (H.puts hub.new ≡ H.puts hub.old) }
    ensures last_call { OnErr result ((gone : AnyGone) × H.did_put hub.old now Says.Beat (Err gone) hub.new) }
    ensures due { OnErr result (is_beat_due last_beat.old now ≡ true) }
    ensures gone { OnErr result (H.gone hub.new ≡ true) }
{
    let due = match last_beat {
        None => true,
        Some(last) => now.saturating_sub(*last) >= BEAT_TICKS,
    };
    if due {
        hub.put(rt, now, What::Beat)?;
        *last_beat = Some(now);
    }
    Ok(())
}

/// Puts the events of the end, and then a beat if one is due, as `put_beat` does. `Gone` at the first that the hub
/// refuses.
pub fn tell<R: Wait, H: Hub>(
    rt: &R,
    end: &mut LinkEnd,
    hub: &mut H,
    last_beat: &mut Option<u64>,
    now: u64,
) -> Result<(), Gone>
    ensures settings { end.new.settings ≡ end.old.settings }
    ensures takes { H.takes hub.new ≡ H.takes hub.old }
    ensures last { OnOk result (last_beat.new ≡ (if is_beat_due last_beat.old now then Some now else last_beat.old)) }
    ensures all { OnOk result ((told : List LinkEvent) × Tells end.old.state told None end.new.state
        × (H.puts hub.new ≡ H.puts hub.old ++ (map (entry_of now) told ++ beat_of (is_beat_due last_beat.old now) now))
        × ((mid : H) × PutsSome H.did_put now hub.old told mid
        × PutsBeat H.did_put now (is_beat_due last_beat.old now) mid hub.new)) }
    ensures some { OnErr result ((told : List LinkEvent) × (refused : Option LinkEvent)
        × Tells end.old.state told refused end.new.state × (H.puts hub.new ≡ H.puts hub.old ++ map (entry_of now) told)
        × PutsNoMore H.did_put now hub.old told refused hub.new
        × (refused ≡ None → IsTrue (is_beat_due last_beat.old now))) }
    ensures gone { OnErr result (H.gone hub.new ≡ true) }
{
    if let Err(gone) = put_events(rt, end, hub, now) {
        return Err(gone);
    }
    if let Err(gone) = put_beat(rt, hub, last_beat, now) {
        return Err(gone);
    }
    Ok(())
}
