//! The queues from a core to its neighbours, as the seat offers outbound messages to them.
ghost use Rattle.std.specs.Prelude.{◌≡◌, length};

use crate::out::OutPut;
use tora_seat::{Cargo, OutLanes};

/// The core's ends of the queues to its neighbours, one for each, in ascending order of the neighbours.
#[derive(Drop)]
pub struct OutPuts {
    /// The ends, in ascending order of the neighbours.
    pub ends: Vec<OutPut>,
}

impl OutLanes for OutPuts {
    ghost use Rattle.std.specs.Prelude.{length};
    ghost use Rattle.tora_lane.specs.Offering.{DidOffer};

    ghost count = { λ o. length o.ends.items };

    ghost did_offer = { λ before place cargo put after. DidOffer before.ends.items place cargo put after.ends.items };

    fn offer(&mut self, place: usize, cargo: Cargo) -> bool {
        match self.ends[place].send(cargo) {
            Ok(()) => true,
            Err(_) => false,
        }
    }
}
