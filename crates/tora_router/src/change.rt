//! A change that a router reports to its host.
use tora_arq::Reason;
use tora_height::Id;

/// A change that a router reports to its host by `poll_change`.
#[derive(Clone, Copy, Debug, PartialEq, Eq)]
pub enum Change {
    /// The link to this neighbour is up.
    LinkUp(Id),
    /// The link to this neighbour is down, for this reason.
    LinkDown(Id, Reason),
    /// The next hop to this destination has changed; `None` if there is none now.
    NextHop(Id, Option<Id>),
}

/// The latest change of a link: it came up, or went down for this reason.
#[derive(Clone, Copy, Debug, PartialEq, Eq)]
pub enum News {
    Up,
    Down(Reason),
}
