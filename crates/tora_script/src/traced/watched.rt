//! The simulator as a trace uses it.
ghost use Rattle.std.specs.Prelude.{◌≡◌, slice_get};
ghost use Rattle.tora_world.specs.World.{datagram};

use crate::Simulator;
use tora_core::Input;
use tora_frame::Frame;
use tora_height::Id;
use tora_seat::Item;
use tora_sim::Sim;

/// A simulator whose trace can be written.
pub trait Watched: Simulator {
    /// How many ticks have passed.
    fn clock(&self) -> u64
        ensures { result ≡ (Self.world self.now).clock };

    /// The item that the core of a node serves next. `None` if none waits, or if there is no such node.
    fn first_item(&self, n: Id) -> Option<Item>
        ensures { result ≡ slice_get ((Self.world self.now).items n) 0 };

    /// The inputs that the core of a node accepted since the node's last restart, each with its tick; none if there is
    /// no such node.
    fn inputs(&self, n: Id) -> &[(Input, u64)]
        ensures { result.now ≡ (Self.world self.now).inputs n };

    /// The datagram with this number, counted from 1. `None` for 0 and for a number that no datagram has yet.
    fn frame(&self, i: u64) -> Option<Frame>
        ensures { result ≡ datagram (Self.world self.now) i };
}

impl Watched for Sim {
    fn clock(&self) -> u64 {
        Sim::clock(self)
    }

    fn first_item(&self, n: Id) -> Option<Item> {
        Sim::first_item(self, n)
    }

    fn inputs(&self, n: Id) -> &[(Input, u64)] {
        Sim::inputs(self, n)
    }

    fn frame(&self, i: u64) -> Option<Frame> {
        Sim::frame(self, i)
    }
}
