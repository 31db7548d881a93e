//! Why a node ends by a fault.
ghost use Rattle.std.specs.Prelude.{◌≡◌};
ghost use Rattle.tora_node.specs.Faults.{node_error_number};

use thiserror::Error;
use tora_height::Id;
use tora_life::LifeError;

/// Why a node, or one of its threads, ended by a fault.
#[derive(Clone, Copy, Debug, PartialEq, Eq, Hash, Error)]
pub enum NodeError {
    /// Memory ran out, or a thread could not be started.
    #[error("out of memory")]
    Memory,
    /// There are no links, or more than `MOST_LINKS`.
    #[error("there are no lanes for so many links")]
    Lane,
    /// The life file of the link to this neighbour did not open, or no session number could be drawn.
    #[error("the life file of the link to {0}: {1}")]
    Life(Id, #[source] LifeError),
    /// A hundred calls in a row of the wire to this neighbour failed.
    #[error("a hundred calls in a row of the wire to {0} failed")]
    Wire(Id),
    /// Writing or flushing the output of the commands failed.
    #[error("the output failed")]
    Output,
}

impl NodeError {
    /// The number of the error: 1 `Memory`, 2 `Lane`, 3 `Life`, 4 `Wire`, 5 `Output`.
    pub fn number(self) -> u8
        ensures { result ≡ node_error_number self }
    {
        match self {
            NodeError::Memory => 1,
            NodeError::Lane => 2,
            NodeError::Life(_, _) => 3,
            NodeError::Wire(_) => 4,
            NodeError::Output => 5,
        }
    }
}
