//! The lines of a replay file, as values.
use tora_height::Id;
use tora_packet::{Packet, PacketError};

/// The first line: a node's number, its neighbours and the destinations of its table, as written.
#[derive(Debug, Drop)]
pub struct Header {
    pub node: Id,
    pub links: Vec<Id>,
    pub dests: Vec<Id>,
}

/// What a line after the first has after its time: an input of the node, or a question.
#[derive(Clone, Copy, Debug, PartialEq, Eq)]
pub enum Order {
    /// The link to this neighbour comes up.
    Up(Id),
    /// The link to this neighbour goes down.
    Down(Id),
    /// A route to this destination is needed.
    Need(Id),
    /// Bytes came from this neighbour: the decoded packet, or why they are not one.
    From(Id, Result<Packet, PacketError>),
    /// The table is to be printed.
    Show,
}

/// A line after the first.
#[derive(Clone, Copy, Debug, PartialEq, Eq)]
pub struct Line {
    /// The time of the line, in ticks of 100 ms.
    pub now: u64,
    /// The input of the node, or the question.
    pub order: Order,
}
