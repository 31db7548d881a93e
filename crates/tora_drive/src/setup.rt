//! The settings of a drive.
use tora_arq::Times;
use tora_script::WorldOptions;

/// The options of a drive's world, and the times of its link ends.
#[derive(Clone, Copy, Debug, PartialEq, Eq)]
pub struct DriveSetup {
    pub options: WorldOptions,
    pub times: Times,
}
