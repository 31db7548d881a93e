//! Why the queues of a node cannot be made.
ghost use Rattle.std.specs.Prelude.{◌≡◌};
ghost use Rattle.tora_lane.specs.Errors.{lane_error_number};

use thiserror::Error;

/// Why `lanes` cannot make the queues of a node.
#[derive(Clone, Copy, Debug, PartialEq, Eq, Hash, Error)]
pub enum LaneError {
    /// There is not enough memory.
    #[error("there is not enough memory")]
    Memory,
    /// There is no link, or there are more than `MOST_LINKS`.
    #[error("there is no link, or there are more than 32")]
    TooMany,
}

impl LaneError {
    /// The number of the error: 1 `Memory`, 2 `TooMany`.
    pub fn number(self) -> u8
        ensures { result ≡ lane_error_number self }
    {
        match self {
            LaneError::Memory => 1,
            LaneError::TooMany => 2,
        }
    }
}
