//! Why a core or an input is refused.
ghost use Rattle.std.specs.Prelude.{◌≡◌};
ghost use Rattle.tora_core.specs.Errors.{core_error_number, step_error_number};

use std::fmt;
use thiserror::Error;

/// Why a core, or the text of a core, can't be made.
#[derive(Clone, Copy, Debug, PartialEq, Eq, Hash, Error)]
pub enum CoreError {
    /// There is not enough memory.
    Memory,
    /// There are more neighbours or destinations than the limits allow: `CoreLimits::STANDARD` unless others are given.
    TooMany,
    /// A number occurs twice among the neighbours, or twice among the destinations.
    Repeated,
    /// The node itself is among its neighbours.
    OwnId,
}

/// The cause in words.
impl fmt::Display for CoreError {
    ghost use Rattle.std.specs.Prelude.{Some};
    ghost use Rattle.tora_core.specs.Errors.{written_core_error};

    ghost output = { λ e. Some (written_core_error e) };

    fn fmt<W: fmt::Write>(&self, f: &mut fmt::Formatter<W>) -> fmt::Result {
        match self {
            CoreError::Memory => f.write_str("there is not enough memory"),
            CoreError::TooMany => {
                f.write_str("there are too many neighbours or too many destinations")
            }
            CoreError::Repeated => f.write_str("a neighbour or a destination is named twice"),
            CoreError::OwnId => f.write_str("the node itself is among its neighbours"),
        }
    }
}

impl CoreError {
    /// The number of the error: 1 `Memory`, 2 `TooMany`, 3 `Repeated`, 4 `OwnId`.
    pub fn number(self) -> u8
        ensures { result ≡ core_error_number self }
    {
        match self {
            CoreError::Memory => 1,
            CoreError::TooMany => 2,
            CoreError::Repeated => 3,
            CoreError::OwnId => 4,
        }
    }
}

/// Why an input is refused, in the order of the checks. A refused input changes nothing.
#[derive(Clone, Copy, Debug, PartialEq, Eq, Hash, Error)]
pub enum StepError {
    /// The neighbour is not one of the configured ones.
    UnknownNeighbour,
    /// The link that comes up was already up.
    AlreadyUp,
    /// The link that goes down, or over which a packet came, is not up.
    NotUp,
    /// An update carries the height of a node other than the neighbour that it came from.
    WrongSender,
    /// The destination of a need is not in the table.
    UnknownDestination,
}

/// The cause in words.
impl fmt::Display for StepError {
    ghost use Rattle.std.specs.Prelude.{Some};
    ghost use Rattle.tora_core.specs.Errors.{written_step_error};

    ghost output = { λ e. Some (written_step_error e) };

    fn fmt<W: fmt::Write>(&self, f: &mut fmt::Formatter<W>) -> fmt::Result {
        match self {
            StepError::UnknownNeighbour => f.write_str("the neighbour is not configured"),
            StepError::AlreadyUp => f.write_str("the link is up already"),
            StepError::NotUp => f.write_str("the link is not up"),
            StepError::WrongSender => {
                f.write_str("the update is not of the neighbour that sent it")
            }
            StepError::UnknownDestination => f.write_str("the destination is not in the table"),
        }
    }
}

impl StepError {
    /// The number of the error: 1 `UnknownNeighbour`, 2 `AlreadyUp`, 3 `NotUp`, 4 `WrongSender`, 5
    /// `UnknownDestination`.
    pub fn number(self) -> u8
        ensures { result ≡ step_error_number self }
    {
        match self {
            StepError::UnknownNeighbour => 1,
            StepError::AlreadyUp => 2,
            StepError::NotUp => 3,
            StepError::WrongSender => 4,
            StepError::UnknownDestination => 5,
        }
    }
}
