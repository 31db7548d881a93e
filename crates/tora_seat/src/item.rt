//! An item of the queue into a core.
use crate::What;

/// An item of the queue into a core: what a link or a command reports to the core or asks of it.
#[derive(Clone, Copy, Debug, PartialEq, Eq, Hash)]
pub struct Item {
    /// The source of the item (its seat), as a number from 0: for a link the place of its neighbour in ascending order,
    /// for the commands the number of neighbours.
    pub seat: usize,
    /// The number of the item among those of its source, counted from 1; 0 in a router, which does not count them.
    pub number: u64,
    /// The tick of 100 ms at which it was put into the queue.
    pub now: u64,
    /// The content of the item.
    pub what: What,
}
