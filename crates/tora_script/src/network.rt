//! The network that rounds run in.
use crate::channel::{Channel, ChannelTable};
use crate::parted::Parted;
use tora_height::Id;

/// The network that rounds run in.
#[derive(Clone, Copy)]
pub struct Network<'a> {
    /// The nodes, in ascending order.
    pub nodes: &'a [Id],
    /// The link ends, each as its node and its neighbour, in ascending order.
    pub ends: &'a [(Id, Id)],
    /// The pairs of nodes that are parted.
    pub parted: &'a Parted,
    /// What happens to datagrams, unless a line of the table says otherwise.
    pub channel: Channel,
    pub table: &'a ChannelTable,
}
