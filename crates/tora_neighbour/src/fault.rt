//! The faults by which a neighbour's thread ends.
use thiserror::Error;
use tora_life::LifeError;

/// By which fault a neighbour's thread ended. A thread that ended because its hub returned `Gone` has no fault.
#[derive(Clone, Copy, Debug, PartialEq, Eq, Hash, Error)]
pub enum LinkFault {
    /// Its life file gave no session number, for this cause.
    #[error("the life file of the link: {0}")]
    Life(#[source] LifeError),
    /// A hundred calls of its wire in a row failed.
    #[error("a hundred calls in a row of the wire failed")]
    Wire,
}
