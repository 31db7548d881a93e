//! An event of the world.
use crate::Call;
use tora_height::Id;

/// An event of the world. Of two numbers, the first is the node at which the event happens; the second is its neighbour
/// or, for a need, the destination.
#[derive(Clone, Copy, Debug)]
pub enum Event {
    /// A node (the first number) needs a route to a destination (the second): puts the need into the queue into the
    /// node's core.
    Need(Id, Id),
    /// Adds 1 to the clock, in ticks of 100 ms, and ticks every link end.
    Tick,
    /// Opens the closed link end of a node (the first number) towards a neighbour (the second) with a session number
    /// from its life file. The end stays closed if the file gives no number.
    Open(Id, Id),
    /// Takes an outbound message from the queue of a node (the first number) to a neighbour (the second), and submits
    /// its packet to the link end or cuts its session.
    Pull(Id, Id),
    /// Sends the first frame due from a node (the first number) to a neighbour (the second).
    Transmit(Id, Id),
    /// Delivers a datagram to its receiver. The number is its place among all datagrams ever sent, counted from 1. It
    /// can be delivered again.
    Deliver(u64),
    /// Puts the next event of the link end of a node (the first number) towards a neighbour (the second) into the queue
    /// into the node's core.
    Pump(Id, Id),
    /// The core of this node takes the first item from its queue, and serves it.
    CoreTurn(Id),
    /// Makes the next call of this kind fail at this node.
    Arm(Id, Call),
    /// Restarts this node after a crash. In its life files, each byte that was written and not synced becomes the torn
    /// byte at its offset modulo 16; for `None` each file is as at its last sync.
    Restart(Id, Option<[u8; 16]>),
}
