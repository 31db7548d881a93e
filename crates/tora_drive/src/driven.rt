//! The simulator as a drive uses it.
ghost use Rattle.std.specs.Prelude.{◌≡◌};
ghost use Rattle.tora_world.specs.World.{datagram};
ghost use Rattle.tora_arq.specs.LinkEnd.{bound_life};
ghost use Rattle.tora_sim.specs.Readers.{flag_at};

use tora_arq::Life;
use tora_frame::{BorrowedFrame, Frame};
use tora_height::Id;
use tora_script::Simulator;
use tora_sim::Sim;

/// A simulator that `tora drive` can run.
pub trait Driven: Simulator {
    /// The datagram with this number, counted from 1 over all that were ever sent, also a forgotten one. `None` for 0
    /// and for a number that no datagram has yet.
    fn frame(&self, i: u64) -> Option<Frame>
        ensures { result ≡ datagram (Self.world self.now) i };

    /// As `frame`, without a copy of its packets.
    fn borrowed_frame(&self, i: u64) -> Option<BorrowedFrame<'_>>
        ensures { result ≡ datagram (Self.world self.now) i };

    /// Whether the core of node `n` requires a route to destination `d`; false if there is no such node or destination.
    fn flag(&self, n: Id, d: Id) -> bool
        ensures { result ≡ flag_at (Self.world self.now) n d };

    /// The session that the end of a node towards another is bound to. `None` if it is not bound, or if there is no
    /// such end.
    fn bound_life(&self, n: Id, k: Id) -> Option<Life>
        ensures { result ≡ bound_life ((Self.world self.now).ends n k) };
}

impl Driven for Sim {
    fn frame(&self, i: u64) -> Option<Frame> {
        Sim::frame(self, i)
    }

    fn borrowed_frame(&self, i: u64) -> Option<BorrowedFrame<'_>> {
        Sim::borrowed_frame(self, i)
    }

    fn flag(&self, n: Id, d: Id) -> bool {
        Sim::flag(self, n, d)
    }

    fn bound_life(&self, n: Id, k: Id) -> Option<Life> {
        Sim::bound_life(self, n, k)
    }
}
