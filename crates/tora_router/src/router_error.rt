//! Why a router can't be made.
ghost use Rattle.std.specs.Prelude.{◌≡◌};
ghost use Rattle.tora_router.specs.Refusals.{error_of};

use std::fmt;
use thiserror::Error;
use tora_core::CoreError;

/// Why a router can't be made, in the order of the checks.
#[derive(Clone, Copy, Debug, PartialEq, Eq, Error)]
pub enum RouterError {
    /// The number of the node, of a neighbour or of a destination is 0.
    Id,
    /// One of the times is 0.
    Times,
    /// The first session number is 0 or above `GREATEST_LIFE`.
    Life,
    /// There are more neighbours or destinations than the limits in the configuration allow.
    TooMany,
    /// A neighbour or a destination is named twice.
    Repeated,
    /// The node itself is among its neighbours.
    OwnId,
    /// Memory ran out.
    Memory,
}

/// The cause in words.
impl fmt::Display for RouterError {
    ghost use Rattle.std.specs.Prelude.{Some};
    ghost use Rattle.tora_router.specs.Refusals.{written_error};

    ghost output = { λ e. Some (written_error e) };

    fn fmt<W: fmt::Write>(&self, f: &mut fmt::Formatter<W>) -> fmt::Result {
        match self {
            RouterError::Id => f.write_str("a number of a node is 0"),
            RouterError::Times => f.write_str("a time is 0"),
            RouterError::Life => f.write_str("the first life number is out of range"),
            RouterError::TooMany => {
                f.write_str("there are too many neighbours or too many destinations")
            }
            RouterError::Repeated => f.write_str("a neighbour or a destination is named twice"),
            RouterError::OwnId => f.write_str("the node itself is among its neighbours"),
            RouterError::Memory => f.write_str("there is not enough memory"),
        }
    }
}

impl RouterError {
    /// Why a router can't be made, if its core can't be made for this cause.
    pub(crate) fn of_core(error: CoreError) -> RouterError
        ensures { result ≡ error_of error }
    {
        match error {
            CoreError::Memory => RouterError::Memory,
            CoreError::TooMany => RouterError::TooMany,
            CoreError::Repeated => RouterError::Repeated,
            CoreError::OwnId => RouterError::OwnId,
        }
    }
}
