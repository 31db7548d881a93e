//! The causes for which events are refused.
ghost use Rattle.std.specs.Prelude.{◌≡◌};
ghost use Rattle.tora_world.specs.Errors.{sim_error_number};

use thiserror::Error;

/// Why an event, or another call of the simulator, is refused, in the order of the checks; memory comes last. A refused
/// event changes nothing.
#[derive(Clone, Copy, Debug, PartialEq, Eq, Error)]
pub enum SimError {
    /// There is not enough memory, or a count cannot grow: the clock or a count of items at 2^64 - 1, or the number of
    /// stored datagrams.
    #[error("there is not enough memory")]
    Memory,
    /// There is no such node or link; for a walk also no such destination.
    #[error("there is no such node or link")]
    NoNode,
    /// There is no such datagram.
    #[error("there is no such datagram")]
    NoDatagram,
    /// The event is not possible now: a queue is full, the link end is open already, or there is nothing to take or to
    /// send.
    #[error("the event is not possible now")]
    NotPossible,
}

impl SimError {
    /// The number of the error: 1 `Memory`, 2 `NoNode`, 3 `NoDatagram`, 4 `NotPossible`.
    pub fn number(self) -> u8
        ensures { result ≡ sim_error_number self }
    {
        match self {
            SimError::Memory => 1,
            SimError::NoNode => 2,
            SimError::NoDatagram => 3,
            SimError::NotPossible => 4,
        }
    }
}
