//! The answer to a line of a running simulation.
ghost use Rattle.std.specs.Prelude.{◌≡◌, ◌≢◌, ◌↔◌, ◌++◌, [], OnOk, IsTrue, Err, Some, string_bytes};
ghost use Rattle.std.specs.Prelude.{option_map};
ghost use Rattle.std.specs.Option.{option_map_or};
ghost use Rattle.tora_lines.specs.Gives.{Gives};
ghost use Rattle.tora_world.specs.World.{world_after_all};
ghost use Rattle.tora_script.specs.declared.rounds.TheConstants.{MOST_PASSES};
ghost use Rattle.tora_script.specs.declared.turns.EndTurn.TheVariants.{Open};
ghost use Rattle.tora_script.specs.Rounds.{plan_then, each_end_once};
ghost use Rattle.tora_script.specs.RunningView.{running_view};
ghost use Rattle.tora_drive.specs.DriveText.{outcome_of, closing, told, answer_to};
ghost use Rattle.tora_drive.specs.DriveView.{state_view, record_view};
ghost use Rattle.tora_drive.specs.Recording.{text_record, with_record, events_text};
ghost use Rattle.tora_drive.specs.Recording.{step_recorded, line_recorded, answer_recorded};
ghost use Rattle.tora_drive.specs.declared.line.DriveLine.TheVariants.{Step};
ghost use Rattle.tora_drive.specs.Records.{sent_text, hops_text};
ghost use Rattle.tora_drive.specs.Steps.{step_passes};

use crate::drive_state::DriveState;
use crate::driven::Driven;
use crate::line::DriveLine;
use crate::performing::perform;
use crate::records::{routes_before, routes_in, write_hops, write_sent};
use crate::stepping::{finish_step, tick};
use crate::taken::line_in;
use std::alloc::{AllocError, Global};
use tora_height::Id;
use tora_lines::words::LineError;
use tora_script::{Running, SimulationLine};

/// Appends a line that is not a fault to the record, if there is one: an event unless it was refused, and each other
/// line of a simulation file, but no line that only a drive has. The events of a step are recorded as they happen.
fn record_line(
    alloc: Global,
    state: &mut DriveState,
    line: &DriveLine,
    text: &[u8],
    was_refused: bool,
) -> Result<(), AllocError>
    ensures view { state_view state.new ≡ state_view state.old }
    ensures record { OnOk result (record_view state.new ≡ line_recorded (record_view state.old) line.now text.now
        was_refused) }
{
    match line {
        DriveLine::Script(SimulationLine::Happens(event)) => {
            if was_refused {
                return Ok(());
            }
            state.put_event(alloc, event)
        }
        DriveLine::Script(_) => state.put_line(text),
        _ => Ok(()),
    }
}

/// Appends `ok` to a text, unless the line was refused.
fn append_ok(out: &mut String, is_refused: bool) -> Result<(), AllocError>
    ensures { OnOk result (string_bytes out.new ≡ string_bytes out.old ++ closing is_refused) }
{
    if is_refused {
        Ok(())
    } else {
        out.push_str("ok\n")
    }
}

/// Whether a line is `step`.
fn is_step(line: &DriveLine) -> bool
    ensures { IsTrue result ↔ (line.now ≡ Step) }
{
    match line {
        DriveLine::Step => true,
        _ => false,
    }
}

/// Does what a step does after its tick, appends what it sent and changed to a text, and the lines of its events to
/// another, if there is one. If nothing is to be done, nothing changes, and no next hop is read.
#[tactic(auto, using(crate::proofs::QuietLaws::quiet_world))]
fn finish<S: Driven>(
    alloc: Global,
    running: &mut Running<S>,
    silent: &[(Id, Id)],
    events: &mut Option<String>,
    out: &mut String,
) -> Result<(), AllocError>
    ensures view { OnOk result (running_view S.world running.new
        ≡ record (running_view S.world running.old) {
          world = world_after_all (S.world running.old.sim)
              (plan_then (each_end_once Open running.old.ends.items) (step_passes MOST_PASSES running.old.nodes.items
              running.old.ends.items silent.now) (S.world running.old.sim));
        }) }
    ensures told { OnOk result (string_bytes out.new ≡ string_bytes out.old
        ++ sent_text (S.world running.old.sim) (S.world running.new.sim)
        ++ hops_text running.old.nodes.items running.old.dests.items (S.world running.old.sim)
        (S.world running.new.sim)) }
    ensures record { OnOk result (text_record events.new ≡ with_record (text_record events.old)
        (events_text (plan_then (each_end_once Open running.old.ends.items) (step_passes MOST_PASSES
        running.old.nodes.items running.old.ends.items silent.now) (S.world running.old.sim)))) }
{
    let is_done = running.sim.is_quiet();
    if is_done {
        return Ok(());
    }
    let first = running.sim.datagrams();
    let before = routes_in(alloc, running)?;
    finish_step(
        &mut running.sim,
        &running.nodes,
        &running.ends,
        silent,
        events,
    )?;
    write_sent(out, &running.sim, first)?;
    write_hops(out, &running.sim, &before)
}

/// Carries out a `step`. Writes the answer to an empty text, and appends the lines of its events to the record, if
/// there is one.
fn answer_step<S: Driven>(
    alloc: Global,
    running: &mut Running<S>,
    state: &mut DriveState,
    out: &mut String,
) -> Result<(), AllocError>
    requires { string_bytes out.old ≡ [] }
    ensures gives { OnOk result (option_map (told (running_view S.world running.old))
        (outcome_of (running_view S.world running.old) (state_view state.old) Step)
        ≡ Some (running_view S.world running.new, state_view state.new, string_bytes out.new)) }
    ensures record { OnOk result (record_view state.new ≡ step_recorded (record_view state.old)
        (running_view S.world running.old) (state_view state.old) Step) }
{
    let mut events = state.new_text(alloc);
    tick(&mut running.sim, &mut events)?;
    finish(alloc, running, &state.silent, &mut events, out)?;
    state.put_text(&events)?;
    append_ok(out, false)
}

/// Carries out a line other than `step`, given with its text. Writes the answer to an empty text, and appends the lines
/// for it to the record, if there is one. The error is `Fault` if the line is no event and names a node, link or
/// destination that does not exist, and `Memory`.
fn answer_line<S: Driven>(
    alloc: Global,
    running: &mut Running<S>,
    state: &mut DriveState,
    line: DriveLine,
    text: &[u8],
    out: &mut String,
) -> Result<(), LineError>
    requires other { line ≢ Step }
    requires empty { string_bytes out.old ≡ [] }
    ensures gives { Gives (λ _. (running_view S.world running.new, state_view state.new, string_bytes out.new)) result
        (option_map (told (running_view S.world running.old)) (outcome_of (running_view S.world running.old)
        (state_view state.old) line)) }
    ensures kept { result ≡ Err LineError.Fault → running_view S.world running.new ≡ running_view S.world running.old }
    ensures state { result ≡ Err LineError.Fault → state_view state.new ≡ state_view state.old }
    ensures record { OnOk result (record_view state.new ≡ option_map_or (λ q.
        line_recorded (step_recorded (record_view state.old) (running_view S.world running.old) (state_view state.old)
        line)
        line text.now q.refused) (outcome_of (running_view S.world running.old) (state_view state.old) line)
        (record_view state.old)) }
{
    let first = running.sim.datagrams();
    let before = routes_before(alloc, running, &line)?;
    let is_refused = perform(running, state, line, out)?;
    record_line(alloc, state, &line, text, is_refused)?;
    write_sent(out, &running.sim, first)?;
    write_hops(out, &running.sim, &before)?;
    append_ok(out, is_refused)?;
    Ok(())
}

/// Takes a line of a running simulation. Writes the answer to an empty text, and appends the lines for it to the
/// record, if there is one. A line that is a fault changes nothing.
#[tactic(auto, unfolding(crate::specs::DriveText::answer_to))]
pub fn answer<S: Driven>(
    alloc: Global,
    running: &mut Running<S>,
    state: &mut DriveState,
    text: &[u8],
    out: &mut String,
) -> Result<(), LineError>
    requires { string_bytes out.old ≡ [] }
    ensures gives { Gives (λ _. (running_view S.world running.new, state_view state.new, string_bytes out.new)) result
        (answer_to (running_view S.world running.old) (state_view state.old) text.now) }
    ensures kept { result ≡ Err LineError.Fault → running_view S.world running.new ≡ running_view S.world running.old }
    ensures state { result ≡ Err LineError.Fault → state_view state.new ≡ state_view state.old }
    ensures record { OnOk result (record_view state.new ≡ answer_recorded (record_view state.old)
        (running_view S.world running.old) (state_view state.old) text.now) }
{
    let line = line_in(alloc, &running.sim, state.forgotten, text)?;
    if is_step(&line) {
        answer_step(alloc, running, state, out)?;
        return Ok(());
    }
    answer_line(alloc, running, state, line, text, out)
}
