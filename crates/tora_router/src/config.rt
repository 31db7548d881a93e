//! The configuration of a router.
use tora_arq::Times;
use tora_core::{CoreLimits, Erasure};
use tora_height::Id;

/// The configuration of a router, except its neighbours and destinations.
#[derive(Clone, Copy, Debug, PartialEq, Eq)]
pub struct Config {
    /// The number of the router's node, not 0.
    pub me: Id,
    /// The times of its link ends, each at least 1.
    pub times: Times,
    /// How it treats erased levels.
    pub erasure: Erasure,
    /// How many neighbours and destinations the router may have.
    pub limits: CoreLimits,
}
