//! The links of a node before their threads are started.
ghost use Rattle.std.specs.Prelude.{◌≡◌};
ghost use Rattle.tora_node.specs.NewLinks.{new_end, owner_of};

use tora_arq::LinkEnd;
use tora_life::Disk;
use tora_neighbour::{LaneHub, Link, Wire};

/// A link end of version 2 with the standard times, which was never opened.
#[derive(Drop)]
pub(crate) struct NewEnd {
    pub(crate) end: LinkEnd,
    pub ghost new: { end ≡ new_end end.settings.me end.settings.peer },
}

/// A link with an end that was never opened, and with the life file of that end, open.
#[derive(Drop)]
pub(crate) struct NewLink<D: Disk, W: Wire> {
    pub(crate) link: Link<D, W>,
    pub ghost new: { link.end ≡ new_end link.end.settings.me link.end.settings.peer },
    pub ghost owner: { link.file.owner ≡ owner_of link.end.settings.me link.end.settings.peer },
}

/// The work of a neighbour's thread: a new link, its queues, and its clock.
#[derive(Drop)]
pub(crate) struct Start<D: Disk, W: Wire, C> {
    pub(crate) new: NewLink<D, W>,
    pub(crate) hub: LaneHub,
    pub(crate) clock: C,
}
