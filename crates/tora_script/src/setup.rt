//! The settings of a simulation.
ghost use Rattle.std.specs.Prelude.{◌≡◌};
ghost use Rattle.tora_script.specs.Setup.{options_within, plain};

use crate::channel::Channel;
use tora_arq::Times;
use tora_core::Erasure;
use tora_world::Limits;

/// The limits of a world, and the choice of erasure of all nodes without a line `erasure` of their own.
#[derive(Clone, Copy, Debug, PartialEq, Eq)]
pub struct WorldOptions {
    pub limits: Limits,
    pub erasure: Erasure,
}

impl WorldOptions {
    /// These limits, with nodes that do not remember erased levels.
    pub fn within(limits: Limits) -> WorldOptions
        ensures { result ≡ options_within limits }
    {
        WorldOptions {
            limits,
            erasure: Erasure::Plain,
        }
    }
}

/// The settings of a simulation: the times of each link end, the channel, whether both ends cut the session of a parted
/// link at once, the options of the world, and the greatest number of rounds.
#[derive(Clone, Copy, Debug, PartialEq, Eq)]
pub struct Setup {
    pub times: Times,
    pub channel: Channel,
    pub has_notice: bool,
    pub options: WorldOptions,
    /// The number of rounds after which lines do nothing more; `None` if there is no last round.
    pub until: Option<u64>,
}

impl Setup {
    /// The settings without options: a channel that delivers every datagram at once and once, no notice, the standard
    /// limits, nodes that do not remember erased levels, and no last round.
    pub fn plain(times: Times) -> Setup
        ensures { result ≡ plain times }
    {
        Setup {
            times,
            channel: Channel::CLEAR,
            has_notice: false,
            options: WorldOptions::within(Limits::STANDARD),
            until: None,
        }
    }
}
