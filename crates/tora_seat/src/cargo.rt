//! An outbound message, from the core to a link.
use tora_arq::Life;
use tora_packet::Packet;

/// An outbound message, from the core to a link.
#[derive(Clone, Copy, Debug, PartialEq, Eq, Hash)]
pub enum Cargo {
    /// A packet to send to the neighbour in this session.
    Packet(Life, Packet),
    /// An order to end this session.
    Cut(Life),
}
