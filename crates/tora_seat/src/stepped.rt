//! A packet of a neighbour that was passed to the core.
use tora_arq::Life;
use tora_height::Id;
use tora_packet::Packet;

/// A packet of a neighbour that was passed to the core.
#[derive(Clone, Copy, Debug, PartialEq, Eq, Hash)]
pub struct Stepped {
    /// The neighbour.
    pub from: Id,
    /// The session in which it came.
    pub life: Life,
    /// The packet.
    pub packet: Packet,
}
