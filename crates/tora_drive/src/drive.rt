//! The state of a drive between two lines.
ghost use Rattle.tora_arq.specs.Settings.{IsTimes};

use crate::drive_state::DriveState;
use crate::setup::DriveSetup;
use tora_script::Stage;

/// A drive: the number of its lines so far, its settings (no time is 0), the simulation, and the state that only a
/// drive has.
#[derive(Drop)]
pub struct Drive<S> {
    pub lines: u64,
    pub setup: DriveSetup,
    pub stage: Stage<S>,
    pub state: DriveState,
    ghost are_times: { ∥ IsTimes setup.times ∥₁ },
}
