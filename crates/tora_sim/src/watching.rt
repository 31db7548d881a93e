//! What a trace or an external control reads of a world: the items that wait for a core, the inputs that it accepted,
//! the routes that it requires, and the datagrams that were sent.
ghost use Rattle.std.specs.Prelude.{◌≡◌, slice_get};
ghost use Rattle.tora_world.specs.World.{datagram};
ghost use Rattle.tora_core.specs.CoreRun.{flag_of};
ghost use Rattle.tora_sim.specs.Readers.{flag_at};
ghost use Rattle.tora_sim.specs.Store.{world_of};

use crate::delivering::numbered;
use crate::nodes::{NodeSlot, place as node_place};
use crate::sim::Sim;
use tora_core::Input;
use tora_frame::{BorrowedFrame, Frame};
use tora_height::Id;
use tora_seat::Item;

impl Sim {
    /// The item that the core of a node serves next; `None` if none waits, or there is no such node.
    pub fn first_item(&self, n: Id) -> Option<Item>
        ensures { result ≡ slice_get ((world_of self.now).items n) 0 }
    {
        match node_place(&self.nodes, n) {
            Some(at) => self.nodes[at].first_item(),
            None => None,
        }
    }

    /// The inputs that the core of a node accepted since the node's last restart, each with its tick; none if there is
    /// no such node.
    pub fn inputs(&self, n: Id) -> &[(Input, u64)]
        ensures { result.now ≡ (world_of self.now).inputs n }
    {
        match node_place(&self.nodes, n) {
            Some(at) => self.nodes[at].inputs(),
            None => &[],
        }
    }

    /// Whether the core of a node requires a route to a destination; false if there is no such node or destination.
    pub fn flag(&self, n: Id, d: Id) -> bool
        ensures { result ≡ flag_at (world_of self.now) n d }
    {
        match node_place(&self.nodes, n) {
            Some(at) => self.nodes[at].flag(d),
            None => false,
        }
    }

    /// The datagram with this number, counted from 1, without copying its packets; `None` if there is no such datagram.
    pub fn borrowed_frame(&self, i: u64) -> Option<BorrowedFrame<'_>>
        ensures { result ≡ datagram (world_of self.now) i }
    {
        numbered(&self.datagrams, i)
    }

    /// The datagram with this number, counted from 1; `None` if there is no such datagram.
    pub fn frame(&self, i: u64) -> Option<Frame>
        ensures { result ≡ datagram (world_of self.now) i }
    {
        let frame = numbered(&self.datagrams, i)?;
        Some(frame.to_frame())
    }
}

impl NodeSlot {
    /// The item that the core of this node serves next; `None` if none waits.
    fn first_item(&self) -> Option<Item>
        ensures { result ≡ slice_get self.now.items 0 }
    {
        self.items.first()
    }

    /// Whether the core of this node requires a route to a destination; `false` if there is no such destination.
    fn flag(&self, d: Id) -> bool
        ensures { result ≡ flag_of self.now.seat.core d }
    {
        self.seat.core().flag(d)
    }

    /// The inputs that the core of this node accepted since the node's last restart, each with its tick.
    fn inputs(&self) -> &[(Input, u64)]
        ensures { result.now ≡ self.now.inputs }
    {
        self.inputs.as_slice()
    }
}
