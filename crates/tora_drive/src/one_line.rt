//! A drive that takes one line per call.
ghost use Rattle.std.specs.Prelude.{◌≡◌, [], None, IfErr, OnOk, string_bytes};
ghost use Rattle.tora_arq.specs.Settings.{IsTimes};
ghost use Rattle.tora_lines.specs.Shortened.{shortened};
ghost use Rattle.tora_drive.specs.DriveText.{drive_reply, drive_rules};
ghost use Rattle.tora_drive.specs.DriveView.{record_view, view_of};
ghost use Rattle.tora_drive.specs.Recording.{drive_recorded};

use crate::drive::Drive;
use crate::drive_state::DriveState;
use crate::driven::Driven;
use crate::setup::DriveSetup;
use std::alloc::{AllocError, Global};
use tora_lines::LONGEST_LINE;
use tora_script::Stage;

/// The line, or an empty one if it has more than 4,096 bytes.
fn shortened(line: &[u8]) -> &[u8]
    ensures { result.now ≡ shortened line.now }
{
    if line.len() > LONGEST_LINE { &[] } else { line }
}

impl<S: Driven> Drive<S> {
    /// A drive before its first line, with these settings, of which no time is 0. It takes no memory.
    pub fn new(alloc: Global, setup: DriveSetup) -> Drive<S>
        requires { IsTimes setup.times }
        ensures view { view_of S.world result ≡ (drive_rules setup).start }
        ensures record { record_view result.state ≡ None }
        ensures setup { result.setup ≡ setup }
    {
        Drive {
            lines: 0,
            setup,
            stage: Stage::First,
            state: DriveState::new(alloc),
        }
    }

    /// Resets the drive to the state that `new` makes.
    fn begin_anew(&mut self, alloc: Global)
        ensures view { view_of S.world self.new ≡ (drive_rules self.old.setup).start }
        ensures record { record_view self.new.state ≡ None }
        ensures setup { self.new.setup ≡ self.old.setup }
    {
        self.lines = 0;
        self.stage = Stage::First;
        self.state = DriveState::new(alloc);
    }

    /// Takes a line without its LF, as `drive_in` takes the lines of its input, and replaces the text by the answer. A
    /// line of more than 4,096 bytes counts as an empty one, which is a fault.
    ///
    /// # Errors
    /// Memory ran out, or the drive has taken 2^64 - 1 lines. Then the text is empty, and the drive is as `new` makes
    /// it.
    pub fn answer(
        &mut self,
        alloc: Global,
        line: &[u8],
        text: &mut String,
    ) -> Result<(), AllocError>
        ensures answer { OnOk result ((view_of S.world self.new, string_bytes text.new)
            ≡ drive_reply self.old.setup (view_of S.world self.old) (shortened line.now)) }
        ensures record { OnOk result (record_view self.new.state ≡ drive_recorded (record_view self.old.state)
            self.old.setup (view_of S.world self.old) (shortened line.now)) }
        ensures anew { IfErr result (λ _.
            view_of S.world self.new ≡ (drive_rules self.old.setup).start) }
        ensures unrecorded { IfErr result (λ _. record_view self.new.state ≡ None) }
        ensures silent { IfErr result (λ _. string_bytes text.new ≡ []) }
        ensures setup { self.new.setup ≡ self.old.setup }
    {
        text.clear();
        match self.reply(alloc, shortened(line), text) {
            Ok(()) => Ok(()),
            Err(error) => {
                text.clear();
                self.begin_anew(alloc);
                Err(error)
            }
        }
    }
}
