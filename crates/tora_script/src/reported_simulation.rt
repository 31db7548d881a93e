//! A simulation that reports refusals and its fault on standard error.
ghost use Rattle.std.specs.Prelude.{◌≡◌, ◌≢◌, Ok, IfOk, IfErr, IfSome};
ghost use Rattle.std.specs.Io.KnownBytes.{IsAtEnd};
ghost use Rattle.tora_arq.specs.Settings.{IsTimes};
ghost use Rattle.tora_lines.specs.LineText.{fault_of};
ghost use Rattle.tora_script.specs.Table.{lines_of};
ghost use Rattle.tora_script.specs.ToldView.{told_kind};
ghost use Rattle.tora_script.specs.SimulationText.{first_simulation_fault, Simulates, IsSimulationBegun};
ghost use Rattle.tora_script.specs.SimulationText.{first_fault_with, SimulatesWith, IsBegunWith};
ghost use Rattle.tora_lines.specs.Reads.{IsReadSo, IsUnwritten};

use crate::causes::{SimulationCause, end_cause, simulation_cause_within};
use crate::channel::ChannelTable;
use crate::parse::simulation_line;
use crate::running_simulation::has_number;
use crate::script_line::SimulationLine;
use crate::setup::Setup;
use crate::simulation::{Simulation, Stage};
use crate::simulator::Simulator;
use std::alloc::{AllocError, Global};
use tora_arq::Times;
use tora_height::Id;
use tora_lines::words::LineError;
use tora_lines::{Ended, FileKind, Input, Output, ReplayError, read_last_lines, read_lines};
use tora_world::Event;

/// Where a simulation reports why a line is a fault and, if `is_verbose`, why an event is refused.
#[derive(Drop)]
pub struct FaultReports<'a, T> {
    pub rt: &'a T,
    pub is_verbose: bool,
}

/// A simulation file, and where to report its fault and its refusals.
#[derive(Drop)]
pub struct Told<'a, S, T> {
    pub reports: FaultReports<'a, T>,
    /// The number of the line that was taken last, from 1; 0 before the first line.
    pub number: u64,
    pub state: Simulation<S>,
}

/// Reports why a line is a fault: writes `tora: line N: CAUSE` to standard error.
pub fn report_cause<T: Eprint>(rt: &T, number: u64, cause: SimulationCause) {
    let _ = rt.eprintln(format_args!("tora: line {number}: {cause}"));
}

/// Reports that a core refuses the need of the line, if the line is a need whose destination is not in the list.
fn report_need<T: Eprint>(rt: &T, number: u64, line: &[u8], dests: &[Id]) {
    if let Some(SimulationLine::Happens(Event::Need(n, d))) = simulation_line(line) {
        if !has_number(d, dests) {
            let _ = rt.eprintln(format_args!(
                "tora: line {number}: the core of {n} refuses the need: {d} is not in the list of the first line"
            ));
        }
    }
}

/// Reports why the event of a line was refused, if it was; otherwise that the core refuses the need of the line, if it
/// does.
fn report_refusal<S, T: Eprint>(rt: &T, number: u64, stage: &Stage<S>, line: &[u8]) {
    if let Stage::Runs(running) = stage {
        match running.refused {
            Some(error) => {
                let _ = rt.eprintln(format_args!("tora: line {number}: refused: {error}"));
            }
            None => report_need(rt, number, line, &running.dests),
        }
    }
}

impl<S: Simulator, T: Eprint> FileKind for Told<'_, S, T> {
    ghost kind = { told_kind S.world };

    fn take(&mut self, alloc: Global, line: &[u8], text: &mut String) -> Result<(), LineError> {
        self.number = self.number.saturating_add(1);
        let tells = self.reports.is_verbose && !self.state.is_done();
        let taken = self.state.take(alloc, line, text);
        match taken {
            Ok(()) if tells => {
                report_refusal(self.reports.rt, self.number, &self.state.stage, line);
            }
            Ok(()) => {}
            Err(LineError::Fault) => {
                let limits = self.state.setup.options.limits;
                let cause = simulation_cause_within(limits, &self.state.stage, line);
                report_cause(self.reports.rt, self.number, cause);
            }
            Err(LineError::Memory) => {}
        }
        taken
    }

    fn end(&self, alloc: Global, number: u64) -> Result<Option<u64>, AllocError> {
        let fault = self.state.end(alloc, number)?;
        match fault {
            Some(line) => {
                let cause = end_cause(self.state.setup.options.limits, &self.state.stage);
                report_cause(self.reports.rt, line, cause);
            }
            None => {}
        }
        Ok(fault)
    }
}

/// Simulates with these settings, over a channel that the table changes by round. Reports why a line is a fault, unless
/// it has more than 4,096 bytes, and, if `is_verbose`, why an event is refused.
///
/// A fault is not an error: `fault N` is written, and the result is `Ended::Fault(N)`.
///
/// # Errors
/// Those of `tora_lines::read_lines`: `Memory`, `Read` or `Write`.
#[tactic(auto, unfolding(tora_lines::specs::Engine::text_of))]
pub fn simulate_and_report<S: Simulator, T: Eprint, R: Input, W: Output>(
    reports: FaultReports<'_, T>,
    alloc: Global,
    setup: Setup,
    table: ChannelTable,
    reader: &mut R,
    writer: &mut W,
) -> Result<Ended, ReplayError>
    requires { IsTimes setup.times }
    ensures whole { IfOk result (λ ended. IfSome (R.remaining reader.old) (λ input.
        SimulatesWith setup (lines_of table) input (W.contents writer.old) (W.contents writer.new) ended)) }
    ensures at_end { result ≡ Ok Ended.Whole → IsAtEnd (R.remaining reader.new) }
    ensures fault { IfOk result (λ ended. IfSome (R.remaining reader.old) (λ input.
        fault_of ended ≡ first_fault_with setup (lines_of table) input)) }
    ensures begun { IfErr result (λ e. e ≢ ReplayError.Write →
        IsBegunWith setup (lines_of table) (R.remaining reader.old) (R.remaining reader.new) (W.contents writer.old)
        (W.contents writer.new)) }
    ensures reads { IsReadSo R.did_read reader.old reader.new result }
    ensures failed { IfErr result (λ e. e ≡ ReplayError.Write → IsUnwritten W.did_write writer.new) }
{
    let state: Told<'_, S, T> = Told {
        reports,
        number: 0,
        state: Simulation::with_table(setup, table),
    };
    read_lines(alloc, state, reader, writer)
}

/// As `simulate_and_report`, for a program that ends afterwards: the memory of the world is not freed, which saves a
/// tenth of the time for a world of a thousand nodes.
#[tactic(auto, unfolding(tora_lines::specs::Engine::text_of))]
pub fn simulate_last_and_report<S: Simulator, T: Eprint, R: Input, W: Output>(
    reports: FaultReports<'_, T>,
    alloc: Global,
    setup: Setup,
    table: ChannelTable,
    reader: &mut R,
    writer: &mut W,
) -> Result<Ended, ReplayError>
    requires { IsTimes setup.times }
    ensures whole { IfOk result (λ ended. IfSome (R.remaining reader.old) (λ input.
        SimulatesWith setup (lines_of table) input (W.contents writer.old) (W.contents writer.new) ended)) }
    ensures at_end { result ≡ Ok Ended.Whole → IsAtEnd (R.remaining reader.new) }
    ensures fault { IfOk result (λ ended. IfSome (R.remaining reader.old) (λ input.
        fault_of ended ≡ first_fault_with setup (lines_of table) input)) }
    ensures begun { IfErr result (λ e. e ≢ ReplayError.Write →
        IsBegunWith setup (lines_of table) (R.remaining reader.old) (R.remaining reader.new) (W.contents writer.old)
        (W.contents writer.new)) }
    ensures reads { IsReadSo R.did_read reader.old reader.new result }
    ensures failed { IfErr result (λ e. e ≡ ReplayError.Write → IsUnwritten W.did_write writer.new) }
{
    let state: Told<'_, S, T> = Told {
        reports,
        number: 0,
        state: Simulation::with_table(setup, table),
    };
    read_last_lines(alloc, state, reader, writer)
}

/// Simulates as `simulate_and_report` does, with these times of each link end, none of which is 0, and otherwise the
/// settings of `Setup::plain`. Reports why an event is refused, and why a line is a fault, unless it has more than
/// 4,096 bytes.
///
/// # Errors
/// Those of `simulate_and_report`.
pub fn simulate_with_reports<S: Simulator, T: Eprint, R: Input, W: Output>(
    rt: &T,
    alloc: Global,
    times: Times,
    reader: &mut R,
    writer: &mut W,
) -> Result<Ended, ReplayError>
    requires { IsTimes times }
    ensures whole { IfOk result (λ ended. IfSome (R.remaining reader.old) (λ input.
        Simulates times input (W.contents writer.old) (W.contents writer.new) ended)) }
    ensures at_end { result ≡ Ok Ended.Whole → IsAtEnd (R.remaining reader.new) }
    ensures fault { IfOk result (λ ended. IfSome (R.remaining reader.old) (λ input.
        fault_of ended ≡ first_simulation_fault times input)) }
    ensures begun { IfErr result (λ e. e ≢ ReplayError.Write →
        IsSimulationBegun times (R.remaining reader.old) (R.remaining reader.new) (W.contents writer.old)
        (W.contents writer.new)) }
    ensures reads { IsReadSo R.did_read reader.old reader.new result }
    ensures failed { IfErr result (λ e. e ≡ ReplayError.Write → IsUnwritten W.did_write writer.new) }
{
    let (setup, table) = (Setup::plain(times), ChannelTable::none());
    let reports = FaultReports {
        rt,
        is_verbose: true,
    };
    simulate_and_report::<S, T, R, W>(reports, alloc, setup, table, reader, writer)
}
