//! The events that a link end reports.
ghost use Rattle.std.specs.Prelude.{◌≡◌};
ghost use Rattle.tora_arq.specs.Lives.{event_life};

use crate::{Life, Reason};
use tora_packet::Packet;

/// An event that a link end reports to its node.
#[derive(Clone, Copy, Debug, PartialEq, Eq, Hash)]
pub enum LinkEvent {
    /// A session was bound: the link is up.
    Up(Life),
    /// The next packet of the peer in a session.
    Deliver(Life, Packet),
    /// A bound session ended, for this reason: the link is down.
    Down(Life, Reason),
}

impl LinkEvent {
    /// The session of the event. This is for hosts of link ends; no crate here calls it.
    pub fn life(&self) -> Life
        ensures { result ≡ event_life self.now }
    {
        match self {
            LinkEvent::Up(life) => *life,
            LinkEvent::Deliver(life, _) => *life,
            LinkEvent::Down(life, _) => *life,
        }
    }
}
