//! A simulation whose trace is written.
ghost use Rattle.std.specs.Prelude.{◌≡◌, ◌≢◌, ◌≤◌, [], length, string_bytes, Ok, OnOk, IfOk, IfErr, IfSome};
ghost use Rattle.std.specs.Io.KnownBytes.{IsAtEnd};
ghost use Rattle.tora_arq.specs.Settings.{IsTimes};
ghost use Rattle.tora_lines.specs.LineText.{fault_of};
ghost use Rattle.tora_lines.specs.Session.{TakesLine};
ghost use Rattle.tora_script.specs.SimulationView.{progress_of};
ghost use Rattle.tora_script.specs.SimulationLines.{simulation_line_of};
ghost use Rattle.tora_script.specs.Tracing.{after_line, parted_after};
ghost use Rattle.tora_script.specs.RunningView.{running_view};
ghost use Rattle.tora_script.specs.TracingView.{traced_world, tracing_kind};
ghost use Rattle.tora_script.specs.Table.{lines_of};
ghost use Rattle.tora_script.specs.TraceOuts.{waiting, waiting_behind, emptied, ArePut};
ghost use Rattle.tora_script.specs.SimulationText.{first_fault_with, SimulatesWith, IsBegunWith};
ghost use Rattle.tora_lines.specs.Reads.{IsReadSo, IsUnwritten};

use crate::channel::ChannelTable;
use crate::traced::trace_out::TraceOut;
use crate::traced::traced_simulator::Traced;
use crate::traced::watched::Watched;
use crate::{
    FaultReports, Running, Setup, Simulation, SimulationLine, Stage, Told, simulation_line,
};
use std::alloc::{AllocError, Global};
use tora_lines::words::LineError;
use tora_lines::{Ended, FileKind, Input, Output, ReplayError, read_lines};

/// A simulation file whose trace is written line by line. It reports its fault and its refusals.
#[derive(Drop)]
pub struct Tracing<'a, S, T, W> {
    told: Told<'a, Traced<S>, T>,
    out: &'a mut TraceOut<W>,
}

/// Records what a line did besides its events: a part, a mend, and the datagrams of rounds.
fn note<S: Watched>(running: &mut Running<Traced<S>>, line: &[u8]) -> Result<(), AllocError>
    ensures view { running_view (traced_world S.world) running.new ≡ running_view (traced_world S.world) running.old }
    ensures trace { OnOk result (running.new.sim.trace ≡ after_line (S.world running.old.sim.sim).clock
        (simulation_line_of line.now) running.old.sim.trace) }
    ensures parted { OnOk result (running.new.sim.parted ≡ parted_after (simulation_line_of line.now)
        running.old.sim.parted) }
{
    let now = running.sim.sim.clock();
    match simulation_line(line) {
        Some(SimulationLine::Part(a, b)) => {
            running.sim.parted.part(a, b)?;
            running.sim.trace.part(now, a, b)
        }
        Some(SimulationLine::Mend(a, b)) => {
            running.sim.parted.mend(a, b);
            running.sim.trace.mend(now, a, b)
        }
        Some(SimulationLine::Rounds(_)) => running.sim.trace.frames(now),
        Some(_) => Ok(()),
        None => Ok(()),
    }
}

/// Writes the records that were not written yet.
fn hand_on<S: Watched, W: Output>(stage: &mut Stage<Traced<S>>, out: &mut TraceOut<W>)
    ensures view { progress_of (traced_world S.world) stage.new ≡ progress_of (traced_world S.world) stage.old }
    ensures put { ArePut W.did_write out.old (waiting stage.old) out.new }
    ensures emptied { waiting stage.new ≡ emptied (waiting stage.old) }
{
    if let Stage::Runs(running) = stage {
        let now = running.sim.sim.clock();
        out.put(now, running.sim.trace.text().as_bytes());
        running.sim.trace.clear();
    }
}

/// Records what an accepted line did, and writes the records that were not written yet.
fn write_record_of_line<S: Watched, W: Output>(
    stage: &mut Stage<Traced<S>>,
    line: &[u8],
    out: &mut TraceOut<W>,
) -> Result<(), AllocError>
    ensures view { progress_of (traced_world S.world) stage.new ≡ progress_of (traced_world S.world) stage.old }
    ensures put { OnOk result (ArePut W.did_write out.old (waiting_behind S.world line.now stage.old) out.new) }
    ensures emptied { waiting stage.new ≡ emptied (waiting stage.old) }
{
    let noted = match stage {
        Stage::First => Ok(()),
        Stage::Links(_) => Ok(()),
        Stage::Runs(running) => note(running, line),
    };
    hand_on(stage, out);
    noted
}

impl<S: Watched, T: Eprint, W: Output> FileKind for Tracing<'_, S, T, W> {
    ghost kind = { tracing_kind S.world };

    fn take(&mut self, alloc: Global, line: &[u8], text: &mut String) -> Result<(), LineError> {
        let is_done = self.told.state.is_done();
        match self.told.take(alloc, line, text) {
            Ok(()) if is_done => {
                let state = &mut self.told.state;
                hand_on(&mut state.stage, self.out);
                Ok(())
            }
            Ok(()) => {
                let state = &mut self.told.state;
                write_record_of_line(&mut state.stage, line, self.out)?;
                Ok(())
            }
            Err(error) => {
                let state = &mut self.told.state;
                hand_on(&mut state.stage, self.out);
                Err(error)
            }
        }
    }

    fn end(&self, alloc: Global, number: u64) -> Result<Option<u64>, AllocError> {
        self.told.end(alloc, number)
    }
}

/// Simulates with these settings, over a channel that the table changes by round, and writes the trace of what happened
/// in each line. Reports why a line is a fault, unless it has more than 4,096 bytes, and, if `is_verbose`, why an event
/// is refused.
///
/// The simulation goes on if the trace cannot be written; `out` then has the error.
///
/// # Errors
/// Those of `simulate_and_report`.
#[tactic(auto, unfolding(tora_lines::specs::Engine::text_of))]
pub fn simulate_traced<S: Watched, T: AllocGlobal + Eprint, R: Input, W: Output, V: Output>(
    reports: FaultReports<'_, T>,
    setup: Setup,
    table: ChannelTable,
    reader: &mut R,
    writer: &mut W,
    out: &mut TraceOut<V>,
) -> Result<Ended, ReplayError>
    requires { IsTimes setup.times }
    ensures whole { IfOk result (λ ended. IfSome (R.remaining reader.old) (λ input.
        SimulatesWith setup (lines_of table) input (W.contents writer.old) (W.contents writer.new) ended)) }
    ensures at_end { result ≡ Ok Ended.Whole → IsAtEnd (R.remaining reader.new) }
    ensures fault { IfOk result (λ ended. IfSome (R.remaining reader.old) (λ input.
        fault_of ended ≡ first_fault_with setup (lines_of table) input)) }
    ensures begun { IfErr result (λ e. e ≢ ReplayError.Write →
        IsBegunWith setup (lines_of table) (R.remaining reader.old) (R.remaining reader.new) (W.contents writer.old)
        (W.contents writer.new)) }
    ensures reads { IsReadSo R.did_read reader.old reader.new result }
    ensures failed { IfErr result (λ e. e ≡ ReplayError.Write → IsUnwritten W.did_write writer.new) }
{
    let alloc = reports.rt.alloc();
    let state: Tracing<'_, S, T, V> = Tracing {
        told: Told {
            reports,
            number: 0,
            state: Simulation::with_table(setup, table),
        },
        out,
    };
    read_lines(alloc, state, reader, writer)
}
