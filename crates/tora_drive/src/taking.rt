//! How a drive takes a line.
ghost use Rattle.std.specs.Prelude.{◌≡◌, ◌++◌, [], length, false, OnOk, IfOk, Err, string_bytes};
ghost use Rattle.tora_arq.specs.Settings.{IsTimes};
ghost use Rattle.tora_lines.specs.Gives.{Gives};
ghost use Rattle.tora_script.specs.RunningView.{running_view};
ghost use Rattle.tora_script.specs.SimulationText.{first_progress};
ghost use Rattle.tora_script.specs.SimulationView.{progress_of};
ghost use Rattle.tora_drive.specs.DriveText.{closing, first_answer, run_begun, placed, place_reply, drive_reply};
ghost use Rattle.tora_drive.specs.DriveView.{state_view, record_view, view_of, drive_kind};
ghost use Rattle.tora_drive.specs.Recording.{with_line, first_recorded, run_recorded, place_recorded, drive_recorded};
ghost use Rattle.tora_drive.specs.Recording.{unrecorded};

use crate::answer::answer;
use crate::cause::{Cause, fault_cause, write_fault};
use crate::drive::Drive;
use crate::drive_state::DriveState;
use crate::driven::Driven;
use crate::setup::DriveSetup;
use std::alloc::{AllocError, Global};
use tora_lines::FileKind;
use tora_lines::words::LineError;
use tora_script::{LinkLines, Running, Setup, Stage, first_line, link, mark, take_link, take_mark};

/// Makes the world, and takes in it the first line after the links and the lines about nodes. The error is `Fault` if
/// there is no link, if the links or destinations are refused, or if the line is a fault; then nothing changes.
fn begin<S: Driven>(
    alloc: Global,
    setup: DriveSetup,
    lines: &LinkLines,
    state: &mut DriveState,
    line: &[u8],
    text: &mut String,
) -> Result<Running<S>, LineError>
    requires times { IsTimes setup.times }
    requires empty { string_bytes text.old ≡ [] }
    ensures gives { Gives (λ s. (running_view S.world s, state_view state.new, string_bytes text.new)) result
        (first_answer setup (state_view state.old) lines.now.dests.items lines.now.links.items lines.now.marks.items
        line.now) }
    ensures state { result ≡ Err LineError.Fault → state_view state.new ≡ state_view state.old }
    ensures record { IfOk result (λ _. record_view state.new ≡ first_recorded (record_view state.old) setup
        (state_view state.old) lines.now.dests.items lines.now.links.items lines.now.marks.items line.now) }
{
    if lines.links.is_empty() {
        return Err(LineError::Fault);
    }
    let world = Setup {
        options: setup.options,
        ..Setup::plain(setup.times)
    };
    let mut running = Running::new(alloc, &lines.dests, &lines.links, &lines.marks, world)?;
    answer(alloc, &mut running, state, line, text)?;
    Ok(running)
}

/// Appends `ok` to a text.
fn acknowledge(text: &mut String) -> Result<(), AllocError>
    ensures { OnOk result (string_bytes text.new ≡ string_bytes text.old ++ closing false) }
{
    writeln!(text, "ok")
}

/// Appends `ok` to a text, and a line to the record, if there is one.
fn take_in(state: &mut DriveState, line: &[u8], text: &mut String) -> Result<(), AllocError>
    ensures text { OnOk result (string_bytes text.new ≡ string_bytes text.old ++ closing false) }
    ensures view { state_view state.new ≡ state_view state.old }
    ensures record { OnOk result (record_view state.new ≡ with_line (record_view state.old) line.now) }
{
    state.put_line(line)?;
    acknowledge(text)
}

/// Takes the first line, after which the links follow. The error is `Fault` if it is not `dests LIST`.
///
/// Like `begin_run` it is never inlined; otherwise every line of a drive would need stack space for a simulation.
#[inline(never)]
fn begin_links<S: Driven>(stage: &mut Stage<S>, alloc: Global, line: &[u8]) -> Result<(), LineError>
    ensures gives { Gives (λ _. progress_of S.world stage.new) result (first_progress line.now) }
    ensures kept { result ≡ Err LineError.Fault → progress_of S.world stage.new ≡ progress_of S.world stage.old }
{
    *stage = Stage::Links(first_line(alloc, line)?);
    Ok(())
}

/// Takes the first line after the links and the lines about nodes, and starts the simulation. The error is `Fault`, and
/// nothing changes, at any other stage and if `begin` returns it.
#[inline(never)]
fn begin_run<S: Driven>(
    stage: &mut Stage<S>,
    state: &mut DriveState,
    setup: DriveSetup,
    alloc: Global,
    line: &[u8],
    text: &mut String,
) -> Result<(), LineError>
    requires times { IsTimes setup.times }
    requires empty { string_bytes text.old ≡ [] }
    ensures gives { Gives (λ _. placed (progress_of S.world stage.new) (state_view state.new) (string_bytes text.new))
        result (run_begun setup (state_view state.old) (progress_of S.world stage.old) line.now) }
    ensures kept { result ≡ Err LineError.Fault → progress_of S.world stage.new ≡ progress_of S.world stage.old }
    ensures state { result ≡ Err LineError.Fault → state_view state.new ≡ state_view state.old }
    ensures record { OnOk result (record_view state.new ≡ run_recorded (record_view state.old) setup
        (state_view state.old) (progress_of S.world stage.old) line.now) }
{
    let Stage::Links(lines) = stage else {
        return Err(LineError::Fault);
    };
    let running = begin(alloc, setup, lines, state, line, text)?;
    *stage = Stage::Runs(running);
    Ok(())
}

/// Takes a line. Writes the answer to an empty text, and appends the lines for it to the record, if there is one. A
/// line that is a fault changes nothing.
#[tactic(auto, unfolding(crate::specs::DriveText::place_reply, crate::specs::Recording::place_recorded))]
fn take_line<S: Driven>(
    stage: &mut Stage<S>,
    state: &mut DriveState,
    setup: DriveSetup,
    alloc: Global,
    line: &[u8],
    text: &mut String,
) -> Result<(), LineError>
    requires times { IsTimes setup.times }
    requires empty { string_bytes text.old ≡ [] }
    ensures gives { Gives (λ _. placed (progress_of S.world stage.new) (state_view state.new) (string_bytes text.new))
        result (place_reply setup (state_view state.old) (progress_of S.world stage.old) line.now) }
    ensures kept { result ≡ Err LineError.Fault → progress_of S.world stage.new ≡ progress_of S.world stage.old }
    ensures state { result ≡ Err LineError.Fault → state_view state.new ≡ state_view state.old }
    ensures record { OnOk result (record_view state.new ≡ place_recorded (record_view state.old) setup
        (state_view state.old) (progress_of S.world stage.old) line.now) }
{
    match stage {
        Stage::First => {
            begin_links(stage, alloc, line)?;
            take_in(state, line, text)?;
            Ok(())
        }
        Stage::Links(lines) => {
            if let Some(link) = link(line) {
                take_link(lines, link)?;
                take_in(state, line, text)?;
                return Ok(());
            }
            if let Some(mark) = mark(line) {
                take_mark(setup.options.limits, lines, mark)?;
                take_in(state, line, text)?;
                return Ok(());
            }
            begin_run(stage, state, setup, alloc, line, text)
        }
        Stage::Runs(running) => answer(alloc, running, state, line, text),
    }
}

impl<S: Driven> Drive<S> {
    /// Carries out a line without its LF, whose length is not checked, and writes its answer to an empty text; a fault
    /// is answered, too. The record, if there is one, then holds the lines for this line alone.
    ///
    /// # Errors
    /// Memory ran out, or the drive has taken 2^64 - 1 lines. After an error the drive may have changed in part.
    pub fn reply(&mut self, alloc: Global, line: &[u8], text: &mut String) -> Result<(), AllocError>
        requires { string_bytes text.old ≡ [] }
        ensures answer { OnOk result ((view_of S.world self.new, string_bytes text.new)
            ≡ drive_reply self.old.setup (view_of S.world self.old) line.now) }
        ensures record { OnOk result (record_view self.new.state ≡ drive_recorded (record_view self.old.state)
            self.old.setup (view_of S.world self.old) line.now) }
        ensures setup { self.new.setup ≡ self.old.setup }
    {
        let Some(number) = self.lines.checked_add(1) else {
            return Err(AllocError);
        };
        let setup = self.setup;
        let is_recorded = self.state.recorded.is_some();
        self.state.clear_record();
        let taken = take_line(&mut self.stage, &mut self.state, setup, alloc, line, text);
        self.lines = number;
        match taken {
            Ok(()) => Ok(()),
            Err(error) => match error {
                LineError::Memory => Err(AllocError),
                LineError::Fault => {
                    self.state.renew_record(alloc, is_recorded);
                    text.clear();
                    let cause = fault_cause(setup.options.limits, &self.stage, line);
                    write_fault(text, number, cause)?;
                    Ok(())
                }
            },
        }
    }

    /// Answers `fault N CAUSE` with the cause `Recorded`, in an empty text, to a line that cannot be recorded. Only the
    /// number of lines changes.
    ///
    /// # Errors
    /// Memory ran out, or the drive has taken 2^64 - 1 lines.
    pub fn refuse(&mut self, text: &mut String) -> Result<(), AllocError>
        requires { string_bytes text.old ≡ [] }
        ensures answer { OnOk result ((view_of S.world self.new, string_bytes text.new)
            ≡ unrecorded (view_of S.world self.old)) }
        ensures setup { self.new.setup ≡ self.old.setup }
    {
        let Some(number) = self.lines.checked_add(1) else {
            return Err(AllocError);
        };
        self.lines = number;
        write_fault(text, number, Cause::Recorded)
    }
}

impl<S: Driven> FileKind for Drive<S> {
    ghost kind = { drive_kind S.world };

    fn take(&mut self, alloc: Global, line: &[u8], text: &mut String) -> Result<(), LineError> {
        self.reply(alloc, line, text)?;
        Ok(())
    }

    #[tactic(auto, unfolding(tora_lines::specs::LineText::text_from))]
    fn end(&self, _alloc: Global, _number: u64) -> Result<Option<u64>, AllocError> {
        Ok(None)
    }
}
