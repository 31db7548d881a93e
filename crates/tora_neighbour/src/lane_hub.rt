//! The hub of a neighbour's thread over its queues.
use crate::hub::Hub;
use std::sync::Wait;
use tora_lane::{Cargo, Gone, InPort, OutTake, What};

/// The hub over the queues of a link: the port of the link's seat, and the queue of its outbound messages. It never
/// waits for an outbound message.
#[derive(Drop)]
pub struct LaneHub {
    /// The port of the link's seat.
    pub port: InPort,
    /// The queue of outbound messages.
    pub outs: OutTake,
}

impl Hub for LaneHub {
    ghost use Rattle.std.specs.Prelude.{◌≡◌, map};
    ghost use Rattle.tora_neighbour.specs.Puts.{put_in};
    ghost use Rattle.tora_neighbour.specs.LaneHub.{PutsAtPort, TakesFromLane};

    ghost puts = { λ h. map put_in h.port.put };

    ghost takes = { λ h. h.outs.received };

    ghost gone = { λ h. h.port.gone };

    ghost did_put = { λ h now what answer after. (after.outs ≡ h.outs) × PutsAtPort h.port now what answer after.port };

    ghost did_take = { λ h answer after. (after.port ≡ h.port) × TakesFromLane h.outs answer after.outs };

    fn put<R: Wait>(&mut self, rt: &R, now: u64, what: What) -> Result<(), Gone> {
        self.port.put(rt, now, what)
    }

    fn take<R: Wait>(&mut self, _rt: &R) -> Option<Cargo> {
        self.outs.take()
    }
}
