//! What a command line asks of a simulation besides its file.
use crate::channel_file::ChannelFile;
use tora_script::Setup;

/// The settings of a simulation, and its channel file.
#[derive(Drop)]
pub struct SimulationOptions {
    pub setup: Setup,
    pub file: ChannelFile,
}

/// What standard error shows of a simulation besides its fault.
#[derive(Clone, Copy)]
pub struct Shown {
    /// Whether it reports why events are refused.
    pub is_verbose: bool,
    /// Whether it shows a bar.
    pub has_bar: bool,
}
