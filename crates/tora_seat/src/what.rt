//! The content of an item.
use crate::Status;
use tora_arq::{Life, Reason};
use tora_height::Id;
use tora_packet::Packet;

/// The content of an item. `Up`, `Packet` and `Down` have an effect only in an item of a link, and `Cut` only in an
/// item of the commands.
#[derive(Clone, Copy, Debug, PartialEq, Eq, Hash)]
pub enum What {
    /// This session of the link was bound.
    Up(Life),
    /// A packet of the neighbour in this session.
    Packet(Life, Packet),
    /// This session of the link ended, for this reason.
    Down(Life, Reason),
    /// The link's thread is alive. The core does nothing.
    Beat,
    /// A route to this destination is needed.
    Need(Id),
    /// The current session of this neighbour has to end at once, for instance because the network interface lost its
    /// carrier.
    Cut(Id),
    /// A user asks to print the core.
    Show,
    /// A program asks for this status of the core.
    Status(Status),
    /// A user asks to end the core.
    Quit,
}
