//! The simulation of a file of lines.
ghost use Rattle.std.specs.Prelude.{◌≡◌, ◌≢◌, ◌<◌, ℕ, List, [], string_bytes, Some, Ok, IfOk, IfErr, IfSome};
ghost use Rattle.std.specs.Io.KnownBytes.{IsAtEnd};
ghost use Rattle.tora_script.specs.declared.setup.Setup.{Setup as AnySetup};
ghost use Rattle.tora_arq.specs.Settings.{IsTimes};
ghost use Rattle.tora_lines.specs.Gives.{Gives};
ghost use Rattle.tora_lines.specs.LineText.{fault_of};
ghost use Rattle.tora_lines.specs.Pieces.{pieces_of};
ghost use Rattle.tora_script.specs.declared.channel.line.ChannelLine.{ChannelLine as AnyLine};
ghost use Rattle.tora_script.specs.Table.{lines_of};
ghost use Rattle.tora_script.specs.RunningView.{running_view};
ghost use Rattle.tora_script.specs.SimulationView.{progress_of, simulation_kind};
ghost use Rattle.tora_script.specs.SimulationText.{Progress, first_progress, with_link, is_linked};
ghost use Rattle.tora_script.specs.SimulationText.{with_mark_line, first_run, behind_links, run_begun};
ghost use Rattle.tora_script.specs.SimulationText.{end_of_links, simulation_reply, first_simulation_fault};
ghost use Rattle.tora_script.specs.SimulationText.{first_fault_with, IsFirstFaultWith};
ghost use Rattle.tora_script.specs.SimulationText.{Simulates, IsSimulationBegun};
ghost use Rattle.tora_lines.specs.Reads.{IsReadSo, IsUnwritten};

use crate::channel::ChannelTable;
use crate::link_lines::LinkLines;
use crate::node_marks::Mark;
use crate::parse;
use crate::running_simulation::Running;
use crate::setup::Setup;
use crate::simulation::{Simulation, Stage};
use crate::simulator::Simulator;
use std::alloc::{AllocError, Global};
use tora_arq::Times;
use tora_height::Id;
use tora_lines::words::LineError;
use tora_lines::{Ended, FileKind, Input, Output, ReplayError, read_lines};
use tora_sim::{Limits, topology_fault_within};

/// Takes the first line. The error is `Fault` if it is not `dests LIST`, and `Memory` if memory ran out.
pub fn first_line(alloc: Global, line: &[u8]) -> Result<LinkLines, LineError>
    ensures { Gives (λ lines. Progress.Links lines.dests.items lines.links.items lines.marks.items) result
        (first_progress line.now) }
{
    let dests = parse::dests(alloc, line)?;
    Ok(LinkLines {
        dests,
        links: Vec::new(alloc),
        marks: Vec::new(alloc),
        known: None,
    })
}

/// Takes a link. After a line about a node the error is `Fault`, and nothing changes. The topology is not checked here.
/// `Memory` if memory ran out.
pub fn take_link(lines: &mut LinkLines, link: (Id, Id)) -> Result<(), LineError>
    requires { (0 < link.0) × (0 < link.1) }
    ensures gives { Gives (λ _. Progress.Links lines.new.dests.items lines.new.links.items lines.new.marks.items) result
        (with_link lines.old.dests.items lines.old.links.items lines.old.marks.items link) }
    ensures kept { result ≡ Err LineError.Fault → lines.new ≡ lines.old }
{
    if !lines.marks.is_empty() {
        return Err(LineError::Fault);
    }
    lines.push(link)?;
    Ok(())
}

/// Whether a link names the node.
pub fn is_linked(n: Id, links: &[(Id, Id)]) -> bool
    ensures { result ≡ is_linked n links.now }
{
    links.iter().any(|link| link.0 == n || link.1 == n)
}

/// Takes a line about a node. It is a fault and changes nothing if no link names the node, or if there is no topology
/// of the links within the limits.
///
/// The topology is checked at the first such line, because no link follows it.
pub fn take_mark(limits: Limits, lines: &mut LinkLines, mark: Mark) -> Result<(), LineError>
    ensures gives { Gives (λ _. Progress.Links lines.new.dests.items lines.new.links.items lines.new.marks.items) result
        (with_mark_line limits lines.old.dests.items lines.old.links.items lines.old.marks.items mark) }
    ensures kept { result ≡ Err LineError.Fault → lines.new ≡ lines.old }
{
    if !is_linked(mark.node(), &lines.links) {
        return Err(LineError::Fault);
    }
    if lines.is_known(limits) {
        lines.push_mark(mark)?;
        return Ok(());
    }
    if topology_fault_within(limits, &lines.links, &lines.dests).is_some() {
        return Err(LineError::Fault);
    }
    lines.note(limits);
    lines.push_mark(mark)?;
    Ok(())
}

/// Takes the first line after the links and the lines about nodes, and starts the simulation. The error is `Fault` if
/// the links or destinations are refused or the line is a fault, and `Memory`.
fn first_run<S: Simulator>(
    alloc: Global,
    setup: Setup,
    table: &ChannelTable,
    lines: &LinkLines,
    line: &[u8],
    text: &mut String,
) -> Result<Running<S>, LineError>
    requires times { IsTimes setup.times }
    requires empty { string_bytes text.old ≡ [] }
    ensures { Gives (λ s. (running_view S.world s, string_bytes text.new)) result
        (first_run setup (lines_of table.now) lines.now.dests.items lines.now.links.items lines.now.marks.items
        line.now) }
{
    let mut running = Running::new(alloc, &lines.dests, &lines.links, &lines.marks, setup)?;
    running.take(setup.until, table, line, text)?;
    Ok(running)
}

/// Takes the first line after the links and the lines about nodes as `first_run` does; `Fault` also if there is no
/// link.
fn behind_links<S: Simulator>(
    alloc: Global,
    setup: Setup,
    table: &ChannelTable,
    lines: &LinkLines,
    line: &[u8],
    text: &mut String,
) -> Result<Running<S>, LineError>
    requires times { IsTimes setup.times }
    requires empty { string_bytes text.old ≡ [] }
    ensures { Gives (λ s. (Progress.Runs (running_view S.world s), string_bytes text.new)) result
        (behind_links setup (lines_of table.now) lines.now.dests.items lines.now.links.items lines.now.marks.items
        line.now) }
{
    if lines.links.is_empty() {
        return Err(LineError::Fault);
    }
    first_run(alloc, setup, table, lines, line, text)
}

/// The number of the line that is a fault if the input ends before the simulation runs; `None` if none is.
fn end_of_links(limits: Limits, lines: &LinkLines, number: u64) -> Option<u64>
    ensures { result ≡ end_of_links limits number lines.now.dests.items lines.now.links.items }
{
    if lines.links.is_empty() {
        return Some(number);
    }
    match topology_fault_within(limits, &lines.links, &lines.dests) {
        None => None,
        Some(_) => Some(number.saturating_sub(1)),
    }
}

/// Takes the first line, after which the links follow. The error is `Fault` if it is not `dests LIST`.
///
/// Like `begin_run` it is never inlined; otherwise every line of the file would need stack space for a simulation.
#[inline(never)]
fn begin_links<S: Simulator>(
    stage: &mut Stage<S>,
    alloc: Global,
    line: &[u8],
) -> Result<(), LineError>
    ensures { Gives (λ _. progress_of S.world stage.new) result (first_progress line.now) }
{
    *stage = Stage::Links(first_line(alloc, line)?);
    Ok(())
}

/// Carries out the first line after the links and the lines about nodes, which starts the simulation. At any other
/// stage the error is `Fault`, and nothing changes.
#[inline(never)]
fn begin_run<S: Simulator>(
    stage: &mut Stage<S>,
    setup: Setup,
    table: &ChannelTable,
    alloc: Global,
    line: &[u8],
    text: &mut String,
) -> Result<(), LineError>
    requires times { IsTimes setup.times }
    requires empty { string_bytes text.old ≡ [] }
    ensures { Gives (λ _. (progress_of S.world stage.new, string_bytes text.new)) result
        (run_begun setup (lines_of table.now) (progress_of S.world stage.old) line.now) }
{
    let Stage::Links(lines) = stage else {
        return Err(LineError::Fault);
    };
    *stage = Stage::Runs(behind_links(alloc, setup, table, lines, line, text)?);
    Ok(())
}

/// Takes a line, and writes its output to an empty text.
#[tactic(auto, unfolding(crate::specs::SimulationText::simulation_reply))]
fn take_line<S: Simulator>(
    stage: &mut Stage<S>,
    setup: Setup,
    table: &ChannelTable,
    alloc: Global,
    line: &[u8],
    text: &mut String,
) -> Result<(), LineError>
    requires times { IsTimes setup.times }
    requires empty { string_bytes text.old ≡ [] }
    ensures { Gives (λ _. (progress_of S.world stage.new, string_bytes text.new)) result
        (simulation_reply setup (lines_of table.now) (progress_of S.world stage.old) line.now) }
{
    match stage {
        Stage::First => begin_links(stage, alloc, line),
        Stage::Links(lines) => {
            if let Some(link) = parse::link(line) {
                return take_link(lines, link);
            }
            if let Some(mark) = parse::mark(line) {
                return take_mark(setup.options.limits, lines, mark);
            }
            begin_run(stage, setup, table, alloc, line, text)
        }
        Stage::Runs(running) => running.take(setup.until, table, line, text),
    }
}

impl<S: Simulator> FileKind for Simulation<S> {
    ghost kind = { simulation_kind S.world };

    #[tactic(auto, using(crate::proofs::SimulationLaws::takes))]
    fn take(&mut self, alloc: Global, line: &[u8], text: &mut String) -> Result<(), LineError> {
        let setup = self.setup;
        take_line(&mut self.stage, setup, &self.table, alloc, line, text)
    }

    #[tactic(auto, unfolding(tora_lines::specs::LineText::text_from, crate::specs::SimulationText::simulation_at_end))]
    fn end(&self, _alloc: Global, number: u64) -> Result<Option<u64>, AllocError> {
        match &self.stage {
            Stage::First => Ok(Some(number)),
            Stage::Links(lines) => Ok(end_of_links(self.setup.options.limits, lines, number)),
            Stage::Runs(_) => Ok(None),
        }
    }
}

/// Reads the lines of a simulation file to the end of the input or to the first fault, and writes the output of each
/// line. The simulator is of the kind `S`, and its link ends have these times, none of which is 0. `docs/formats.md`,
/// "Simulation files", defines the file. A fault is not an error: `fault N` is written, and the result is
/// `Ended::Fault(N)`.
///
/// # Errors
/// Those of `tora_lines::read_lines`: `Memory`, `Read` or `Write`.
#[tactic(auto, unfolding(tora_lines::specs::Engine::text_of))]
pub fn simulate_in<S: Simulator, R: Input, W: Output>(
    alloc: Global,
    times: Times,
    reader: &mut R,
    writer: &mut W,
) -> Result<Ended, ReplayError>
    requires { IsTimes times }
    // The written text is the output of the whole input, and the input ends as the result says.
    ensures whole { IfOk result (λ ended. IfSome (R.remaining reader.old) (λ input.
        Simulates times input (W.contents writer.old) (W.contents writer.new) ended)) }
    ensures at_end { result ≡ Ok Ended.Whole → IsAtEnd (R.remaining reader.new) }
    ensures fault { IfOk result (λ ended. IfSome (R.remaining reader.old) (λ input.
        fault_of ended ≡ first_simulation_fault times input)) }
    // The written text is a prefix of the output of the lines that were read.
    ensures begun { IfErr result (λ e. e ≢ ReplayError.Write →
        IsSimulationBegun times (R.remaining reader.old) (R.remaining reader.new) (W.contents writer.old)
        (W.contents writer.new)) }
    ensures reads { IsReadSo R.did_read reader.old reader.new result }
    ensures failed { IfErr result (λ e. e ≡ ReplayError.Write → IsUnwritten W.did_write writer.new) }
{
    let state: Simulation<S> = Simulation::new(Setup::plain(times));
    read_lines(alloc, state, reader, writer)
}

/// The number in a fault is that of the first line that is a fault: every earlier line was accepted.
pub fn simulation_fault_is_the_first()
    ensures found { (setup : AnySetup) (table : List AnyLine) (bytes : List ℕ) (n : ℕ) →
        first_fault_with setup table bytes ≡ Some n → IsFirstFaultWith setup table Progress.First 1 (pieces_of bytes)
        n }
    ensures only { (setup : AnySetup) (table : List AnyLine) (bytes : List ℕ) (n : ℕ) →
        IsFirstFaultWith setup table Progress.First 1 (pieces_of bytes) n
        → first_fault_with setup table bytes ≡ Some n }
{}
