//! A drive over a reader and a writer.
ghost use Rattle.std.specs.Prelude.{◌≡◌, ◌≢◌, Ok, IfOk, IfErr, IfSome};
ghost use Rattle.std.specs.Io.KnownBytes.{IsAtEnd};
ghost use Rattle.tora_arq.specs.Settings.{IsTimes};
ghost use Rattle.tora_drive.specs.DriveText.{Drives, IsDriveBegun};
ghost use Rattle.tora_lines.specs.Reads.{IsReadSo, IsUnwritten};

use crate::drive::Drive;
use crate::drive_state::DriveState;
use crate::driven::Driven;
use crate::setup::DriveSetup;
use std::alloc::Global;
use tora_lines::{Ended, Input, Output, ReplayError, read_shortened_lines};
use tora_script::Stage;

/// Reads lines to the end of the input. It answers each line by one call of the writer's `write_all` before it reads
/// on. No time of the settings is 0.
///
/// A fault is answered, changes nothing and does not end the drive, so the result is `Whole` or an error. A line of
/// more than 4,096 bytes counts as an empty one, which is always a fault.
///
/// # Errors
/// `Memory` if memory ran out; `Read` if a read failed, or 2^32 reads did not reach the end of the input; `Write` if a
/// write failed.
#[tactic(auto, unfolding(tora_lines::specs::Shortened::shortened_text_of))]
pub fn drive_in<S: Driven, R: Input, W: Output>(
    alloc: Global,
    setup: DriveSetup,
    reader: &mut R,
    writer: &mut W,
) -> Result<Ended, ReplayError>
    requires { IsTimes setup.times }
    // The written text is the answers to all lines, and the input ends as the result says.
    ensures whole { IfOk result (λ ended. IfSome (R.remaining reader.old) (λ input.
        Drives setup input (W.contents writer.old) (W.contents writer.new) ended)) }
    ensures at_end { result ≡ Ok Ended.Whole → IsAtEnd (R.remaining reader.new) }
    // The written text is a prefix of the answers to the lines that were read.
    ensures begun { IfErr result (λ e. e ≢ ReplayError.Write →
        IsDriveBegun setup (R.remaining reader.old) (R.remaining reader.new) (W.contents writer.old)
        (W.contents writer.new)) }
    ensures reads { IsReadSo R.did_read reader.old reader.new result }
    ensures failed { IfErr result (λ e. e ≡ ReplayError.Write → IsUnwritten W.did_write writer.new) }
{
    let state: Drive<S> = Drive {
        lines: 0,
        setup,
        stage: Stage::First,
        state: DriveState::new(alloc),
    };
    read_shortened_lines(alloc, state, reader, writer)
}
