//! All queues of a node.
use crate::out::{OutPut, OutTake};
use crate::ports::{CorePort, InPort};

/// The ports and queues of a node with n links: seats 0 to n - 1 are the links in order, seat n is the command seat.
///
/// The queue into the core has a port for each seat and the core's port. Each link has its own queue from the core: the
/// core's end is in `outs`, the link's end beside the link's port in `links`, at the same place.
#[derive(Drop)]
pub struct Lanes {
    /// The core's port of the queue into the core.
    pub core: CorePort,
    /// The port of the command seat.
    pub command: InPort,
    /// For each link the port of its seat, and its end of the queue from the core.
    pub links: Vec<(InPort, OutTake)>,
    /// For each link the core's end of the queue to it.
    pub outs: Vec<OutPut>,
}
