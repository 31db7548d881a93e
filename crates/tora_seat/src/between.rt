//! What a link end and the seat of a core pass to each other. Routers and the threads of a node call these functions.
//! The simulator calls `what_of`, and has the other two for its own link ends.
ghost use Rattle.std.specs.Prelude.{◌≡◌};
ghost use Rattle.tora_arq.specs.LinkEnd.{bound_life};
ghost use Rattle.tora_seat.specs.Between.{what_of, after_cargo, after_cut_of_bound};

use crate::{Cargo, What};
use tora_arq::{LinkEnd, LinkEvent};

/// The content of the item that reports an event of a link end.
pub fn what_of(event: LinkEvent) -> What
    ensures { result ≡ what_of event }
{
    match event {
        LinkEvent::Up(life) => What::Up(life),
        LinkEvent::Deliver(life, packet) => What::Packet(life, packet),
        LinkEvent::Down(life, reason) => What::Down(life, reason),
    }
}

/// Passes an outbound message to the link end: submits its packet, or cuts its session. A packet is dropped if its
/// session is not the bound one, or if the end can take no more packets, which ends the session.
pub fn hand_in(end: &mut LinkEnd, cargo: &Cargo)
    ensures { end.new ≡ record end.old { state = after_cargo end.old.state cargo.now } }
{
    match cargo {
        Cargo::Packet(life, packet) => {
            let _ = end.submit(*life, *packet);
        }
        Cargo::Cut(life) => end.cut(*life),
    }
}

/// Cuts the session to which the link end is bound, if there is one.
pub fn cut_bound(end: &mut LinkEnd)
    ensures { end.new ≡ record end.old { state = after_cut_of_bound end.old.state (bound_life end.old.state) } }
{
    if let Some(life) = end.life() {
        end.cut(life);
    }
}
