//! A drive whose record is written.
ghost use Rattle.std.specs.Prelude.{◌≡◌, ◌≢◌, Ok, IfOk, IfErr, IfSome};
ghost use Rattle.std.specs.Io.KnownBytes.{IsAtEnd};
ghost use Rattle.tora_arq.specs.Settings.{IsTimes};
ghost use Rattle.tora_script.specs.TraceOuts.{ArePut};
ghost use Rattle.tora_drive.specs.DriveView.{record_view, recording_kind};
ghost use Rattle.tora_drive.specs.Recording.{DrivesRecorded, IsRecordedBegun};
ghost use Rattle.tora_lines.specs.Reads.{IsReadSo, IsUnwritten};

use crate::drive::Drive;
use crate::drive_state::DriveState;
use crate::driven::Driven;
use crate::line::says_notice;
use crate::setup::DriveSetup;
use std::alloc::{AllocError, Global};
use tora_lines::words::LineError;
use tora_lines::{Ended, FileKind, Input, Output, ReplayError, read_shortened_lines};
use tora_script::{Stage, TraceOut};

/// A drive whose record is written line by line.
#[derive(Drop)]
pub struct Recording<'a, S, W> {
    drive: Drive<S>,
    out: &'a mut TraceOut<W>,
}

/// Writes the lines that were recorded for the line taken last; nothing if the drive has no record.
fn hand_on<W: Output>(state: &DriveState, out: &mut TraceOut<W>)
    ensures { ArePut W.did_write out.old (record_view state.now) out.new }
{
    if let Some(bytes) = &state.recorded {
        out.put(0, bytes.as_slice());
    }
}

impl<S: Driven, W: Output> FileKind for Recording<'_, S, W> {
    ghost kind = { recording_kind S.world };

    fn take(&mut self, alloc: Global, line: &[u8], text: &mut String) -> Result<(), LineError> {
        if says_notice(line) {
            self.drive.refuse(text)?;
            return Ok(());
        }
        self.drive.reply(alloc, line, text)?;
        let drive = &self.drive;
        hand_on(&drive.state, self.out);
        Ok(())
    }

    #[tactic(auto, unfolding(tora_lines::specs::LineText::text_from))]
    fn end(&self, _alloc: Global, _number: u64) -> Result<Option<u64>, AllocError> {
        Ok(None)
    }
}

/// Drives as `drive_in` does, and writes a record: a simulation file with the same effect. It has the lines before the
/// world is made, the orders and questions, the line of each event that happened, and the events of each `step`.
/// `needs`, `near`, `far`, `bytes` and `forget` do not change the world and are not recorded. `notice N K` is a fault.
///
/// The drive goes on if the record cannot be written; `out` then has the error.
///
/// # Errors
/// Those of `drive_in`.
#[tactic(auto, unfolding(tora_lines::specs::Shortened::shortened_text_of))]
pub fn drive_recorded<S: Driven, R: Input, W: Output, V: Output>(
    alloc: Global,
    setup: DriveSetup,
    reader: &mut R,
    writer: &mut W,
    out: &mut TraceOut<V>,
) -> Result<Ended, ReplayError>
    requires { IsTimes setup.times }
    // The written text is the answers to all lines, and the input ends as the result says.
    ensures whole { IfOk result (λ ended. IfSome (R.remaining reader.old) (λ input.
        DrivesRecorded setup input (W.contents writer.old) (W.contents writer.new) ended)) }
    ensures at_end { result ≡ Ok Ended.Whole → IsAtEnd (R.remaining reader.new) }
    // The written text is a prefix of the answers to the lines that were read.
    ensures begun { IfErr result (λ e. e ≢ ReplayError.Write →
        IsRecordedBegun setup (R.remaining reader.old) (R.remaining reader.new) (W.contents writer.old)
        (W.contents writer.new)) }
    ensures reads { IsReadSo R.did_read reader.old reader.new result }
    ensures failed { IfErr result (λ e. e ≡ ReplayError.Write → IsUnwritten W.did_write writer.new) }
{
    let state: Recording<'_, S, V> = Recording {
        drive: Drive {
            lines: 0,
            setup,
            stage: Stage::First,
            state: DriveState::recorded(alloc),
        },
        out,
    };
    read_shortened_lines(alloc, state, reader, writer)
}
