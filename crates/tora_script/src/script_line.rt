//! The lines of a simulation file as values.
use tora_arq::Life;
use tora_height::Id;
use tora_world::Event;

/// A line after the links.
#[derive(Clone, Copy, Debug)]
pub enum SimulationLine {
    /// Makes an event happen, or prints that it is refused.
    Happens(Event),
    /// Makes this many rounds; a line that is read has at most 10,000.
    Rounds(u64),
    /// Parts two nodes that are linked: rounds deliver no datagram between them, and such datagrams are lost.
    Part(Id, Id),
    /// Mends what `Part` parted: rounds deliver datagrams between the two nodes again, except those that were lost.
    Mend(Id, Id),
    /// Prints the height for a destination, and the next hop, of each node.
    Heights(Id),
    /// Prints how many packets the first node's core sent to the second in a session, as the end of the first writes
    /// it.
    Sent(Id, Id, Life),
    /// Prints how many packets the first node's core took from the second in a session, as the end of the first writes
    /// it.
    Taken(Id, Id, Life),
    /// Prints whether the entries for a destination are exact: each that is not NULL is the height of its neighbour.
    Exact(Id),
    /// Prints the nodes from a node to a destination along next hops, if they lead there.
    Walk(Id, Id),
    /// Prints whether the world is at rest.
    Rest,
}
