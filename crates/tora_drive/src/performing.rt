//! What each line of a running simulation does.
ghost use Rattle.std.specs.Prelude.{◌≡◌, ◌≢◌, ◌++◌, [], OnOk, IfOk, Err, Some, None, string_bytes};
ghost use Rattle.std.specs.Prelude.{is_some, if◌then◌else◌};
ghost use Rattle.std.specs.Option.{option_map_or};
ghost use Rattle.tora_lines.specs.Gives.{Gives};
ghost use Rattle.tora_lines.specs.LineText.{TakesReply};
ghost use Rattle.tora_world.specs.World.{refusal_of};
ghost use Rattle.tora_script.specs.RunningView.{running_view};
ghost use Rattle.tora_script.specs.SimulationText.{refusal_text, event_reply, has_end};
ghost use Rattle.tora_drive.specs.DriveText.{named, with_silent, without_silent, outcome, shown, unnamed, is_forgotten};
ghost use Rattle.tora_drive.specs.DriveText.{event_outcome, bytes_line, silenced, noticed, forgetting};
ghost use Rattle.tora_drive.specs.DriveText.{script_outcome, outcome_of};
ghost use Rattle.tora_drive.specs.DriveView.{state_view, record_view};
ghost use Rattle.tora_drive.specs.Recording.{step_recorded};
ghost use Rattle.tora_drive.specs.declared.line.DriveLine.TheVariants.{Step};

use crate::drive_state::DriveState;
use crate::driven::Driven;
use crate::line::DriveLine;
use crate::needs::write_needs;
use crate::records::write_frame;
use std::alloc::AllocError;
use tora_height::Id;
use tora_lines::numbered;
use tora_lines::words::LineError;
use tora_script::{Running, SimulationLine, has_end};
use tora_world::{Event, SimError};

/// Appends `refused N` to a text.
fn refuse(out: &mut String, error: SimError) -> Result<(), AllocError>
    ensures { OnOk result (string_bytes out.new ≡ string_bytes out.old ++ refusal_text (Some error)) }
{
    numbered(out, "refused ", u64::from(error.number()))
}

/// Makes an event happen and appends its refusal, if any, to a text. Returns whether it was refused.
fn happen<S: Driven>(
    running: &mut Running<S>,
    event: &Event,
    out: &mut String,
) -> Result<bool, AllocError>
    ensures reply { OnOk result (TakesReply (event_reply (running_view S.world running.old) event.now)
        (running_view S.world running.new) (string_bytes out.old) (string_bytes out.new)) }
    ensures refused { IfOk result (λ r. r ≡ is_some (refusal_of (S.world running.old.sim) event.now)) }
{
    let refused = running.sim.happen(event)?;
    match refused {
        None => Ok(false),
        Some(error) => {
            refuse(out, error)?;
            Ok(true)
        }
    }
}

/// Whether an event is the delivery of a forgotten datagram, which can no longer be named.
fn is_forgotten(state: &DriveState, event: &Event) -> bool
    ensures { result ≡ is_forgotten (state_view state.now) event.now }
{
    match event {
        Event::Deliver(i) => *i <= state.forgotten,
        _ => false,
    }
}

/// Makes an event happen, unless it delivers a forgotten datagram, which is refused with `NoDatagram`. Returns whether
/// the event was refused; the refusal is written to an empty text.
fn event<S: Driven>(
    running: &mut Running<S>,
    state: &DriveState,
    event: &Event,
    out: &mut String,
) -> Result<bool, AllocError>
    requires { string_bytes out.old ≡ [] }
    ensures { IfOk result (λ r. outcome (running_view S.world running.new) (state_view state.now) (string_bytes
        out.new) r
        ≡ event_outcome (running_view S.world running.old) (state_view state.now) event.now) }
{
    if is_forgotten(state, event) {
        refuse(out, SimError::NoDatagram)?;
        return Ok(true);
    }
    happen(running, event, out)
}

/// Makes an end silent or ends its silence. A fault if there is no such end.
fn silence<S: Driven>(
    running: &Running<S>,
    state: &mut DriveState,
    end: (Id, Id),
    is_silent: bool,
) -> Result<(), LineError>
    ensures gives { Gives (λ _. shown (running_view S.world running.now) (state_view state.new) []) result
        (silenced (running_view S.world running.now) (state_view state.old) end.0 end.1
        (if is_silent then with_silent end (state_view state.old).silent else without_silent end (state_view
        state.old).silent)) }
    ensures kept { result ≡ Err LineError.Fault → state_view state.new ≡ state_view state.old }
    ensures record { record_view state.new ≡ record_view state.old }
{
    if !has_end(end.0, end.1, &running.ends) {
        return Err(LineError::Fault);
    }
    if is_silent {
        state.silence(end)?;
    } else {
        state.wake(end);
    }
    Ok(())
}

/// Cuts the session of an end. Returns whether that is refused, because the end is not bound; the refusal is written to
/// an empty text. A fault if there is no such end.
fn notice<S: Driven>(
    running: &mut Running<S>,
    state: &DriveState,
    end: (Id, Id),
    out: &mut String,
) -> Result<bool, LineError>
    requires { string_bytes out.old ≡ [] }
    ensures gives { Gives (λ r. outcome (running_view S.world running.new) (state_view state.now) (string_bytes
        out.new) r)
        result
        (if has_end end.0 end.1 (running_view S.world running.old).ends then Some
        (noticed (running_view S.world running.old) (state_view state.now) end.0 end.1) else None) }
    ensures kept { result ≡ Err LineError.Fault → running_view S.world running.new ≡ running_view S.world running.old }
{
    if !has_end(end.0, end.1, &running.ends) {
        return Err(LineError::Fault);
    }
    if running.sim.bound_life(end.0, end.1).is_none() {
        refuse(out, SimError::NotPossible)?;
        return Ok(true);
    }
    running.sim.cut(end.0, end.1);
    Ok(false)
}

/// Writes `bytes ID HEX` for datagram `i` to an empty text. Returns whether that is refused, because there is no such
/// datagram or it is forgotten; then the text is the refusal.
fn write_bytes<S: Driven>(
    running: &Running<S>,
    state: &DriveState,
    i: u64,
    out: &mut String,
) -> Result<bool, AllocError>
    requires { string_bytes out.old ≡ [] }
    ensures { IfOk result (λ r. outcome (running_view S.world running.now) (state_view state.now) (string_bytes
        out.new) r
        ≡ option_map_or (λ f. shown (running_view S.world running.now) (state_view state.now) (bytes_line i f))
        (named (state_view state.now) (S.world running.now.sim) i) (unnamed (running_view S.world running.now)
        (state_view state.now))) }
{
    if i <= state.forgotten {
        refuse(out, SimError::NoDatagram)?;
        return Ok(true);
    }
    match running.sim.frame(i) {
        Some(frame) => {
            write_frame(out, i, &frame)?;
            Ok(false)
        }
        None => {
            refuse(out, SimError::NoDatagram)?;
            Ok(true)
        }
    }
}

/// Forgets the datagrams up to number `i`; those that are forgotten already stay so. Returns whether that is refused,
/// because fewer were sent; the refusal is written to an empty text.
fn forget<S: Driven>(
    running: &Running<S>,
    state: &mut DriveState,
    i: u64,
    out: &mut String,
) -> Result<bool, AllocError>
    requires { string_bytes out.old ≡ [] }
    ensures view { IfOk result (λ r. outcome (running_view S.world running.now) (state_view state.new)
        (string_bytes out.new) r ≡ forgetting (running_view S.world running.now) (state_view state.old) i) }
    ensures record { record_view state.new ≡ record_view state.old }
{
    if i > running.sim.datagrams() {
        refuse(out, SimError::NoDatagram)?;
        return Ok(true);
    }
    if state.forgotten < i {
        state.forgotten = i;
    }
    Ok(false)
}

/// Carries out a line of a simulation file, and writes its first output to an empty text. Returns whether it was
/// refused. The error is `Fault` if the line is no event and names a node, link or destination that does not exist, and
/// `Memory`.
fn perform_script<S: Driven>(
    running: &mut Running<S>,
    state: &DriveState,
    line: SimulationLine,
    out: &mut String,
) -> Result<bool, LineError>
    requires { string_bytes out.old ≡ [] }
    ensures gives { Gives (λ r. outcome (running_view S.world running.new) (state_view state.now) (string_bytes
        out.new) r)
        result (script_outcome (running_view S.world running.old) (state_view state.now) line) }
    ensures kept { result ≡ Err LineError.Fault → running_view S.world running.new ≡ running_view S.world running.old }
{
    match line {
        SimulationLine::Happens(happens) => Ok(event(running, state, &happens, out)?),
        line => {
            running.answer(line, out)?;
            Ok(false)
        }
    }
}

/// Carries out a line other than `step`, and writes its first output to an empty text. Returns whether it was refused.
/// The error is `Fault`, and nothing changes, if the line is no event and names a node, link or destination that does
/// not exist; `Memory` if memory ran out.
#[tactic(auto, unfolding(crate::specs::DriveText::outcome_of))]
pub fn perform<S: Driven>(
    running: &mut Running<S>,
    state: &mut DriveState,
    line: DriveLine,
    out: &mut String,
) -> Result<bool, LineError>
    requires other { line ≢ Step }
    requires empty { string_bytes out.old ≡ [] }
    ensures gives { Gives (λ r. outcome (running_view S.world running.new) (state_view state.new) (string_bytes
        out.new) r)
        result (outcome_of (running_view S.world running.old) (state_view state.old) line) }
    ensures kept { result ≡ Err LineError.Fault → running_view S.world running.new ≡ running_view S.world running.old }
    ensures state { result ≡ Err LineError.Fault → state_view state.new ≡ state_view state.old }
    ensures record { IfOk result (λ r. record_view state.new ≡ step_recorded (record_view state.old)
        (running_view S.world running.old) (state_view state.old) line) }
{
    match line {
        DriveLine::Script(line) => perform_script(running, state, line, out),
        DriveLine::Step => unreachable!(),
        DriveLine::Needs => {
            write_needs(out, &running.sim, &running.nodes, &running.dests)?;
            Ok(false)
        }
        DriveLine::Near(n, k) => {
            silence(running, state, (n, k), false)?;
            Ok(false)
        }
        DriveLine::Far(n, k) => {
            silence(running, state, (n, k), true)?;
            Ok(false)
        }
        DriveLine::Notice(n, k) => notice(running, state, (n, k), out),
        DriveLine::Bytes(i) => Ok(write_bytes(running, state, i, out)?),
        DriveLine::Forget(i) => Ok(forget(running, state, i, out)?),
    }
}
