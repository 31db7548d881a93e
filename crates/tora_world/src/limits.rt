//! How large a world may be.
ghost use Rattle.std.specs.Prelude.{◌≡◌, ◌≤◌};
ghost use Rattle.tora_world.specs.Topology.{at_most, most_neighbours, most_destinations, most_nodes};

use tora_core::{GREATEST_NEIGHBOURS, MOST_DESTINATIONS, MOST_NEIGHBOURS};

/// The most nodes of a world within the standard limits.
pub const MOST_NODES: usize = 64;

/// The most nodes of a world within any limits.
pub const GREATEST_NODES: usize = 1024;

/// The most neighbours of a node, destinations of a table and nodes of a world.
///
/// A limit above the greatest (255 neighbours, 64 destinations, 1,024 nodes) counts as the greatest.
#[derive(Clone, Copy, Debug, PartialEq, Eq)]
pub struct Limits {
    pub neighbours: usize,
    pub destinations: usize,
    pub nodes: usize,
}

impl Limits {
    /// 32 neighbours of a node, 64 destinations and 64 nodes.
    pub const STANDARD: Limits = Limits {
        neighbours: MOST_NEIGHBOURS,
        destinations: MOST_DESTINATIONS,
        nodes: MOST_NODES,
    };

    /// The greatest limits: 255 neighbours of a node, 64 destinations and 1,024 nodes.
    pub const GREATEST: Limits = Limits {
        neighbours: GREATEST_NEIGHBOURS,
        destinations: MOST_DESTINATIONS,
        nodes: GREATEST_NODES,
    };

    /// How many neighbours a node may have: `neighbours`, but at most 255.
    pub fn most_neighbours(self) -> usize
        ensures value { result ≡ most_neighbours self }
        ensures bound { result ≤ GREATEST_NEIGHBOURS }
    {
        at_most(GREATEST_NEIGHBOURS, self.neighbours)
    }

    /// How many destinations a table may have: `destinations`, but at most 64.
    pub fn most_destinations(self) -> usize
        ensures value { result ≡ most_destinations self }
        ensures bound { result ≤ MOST_DESTINATIONS }
    {
        at_most(MOST_DESTINATIONS, self.destinations)
    }

    /// How many nodes a world may have: `nodes`, but at most 1,024.
    pub fn most_nodes(self) -> usize
        ensures value { result ≡ most_nodes self }
        ensures bound { result ≤ GREATEST_NODES }
    {
        at_most(GREATEST_NODES, self.nodes)
    }
}

/// The smaller one of a limit and the greatest.
fn at_most(greatest: usize, limit: usize) -> usize
    ensures value { result ≡ at_most greatest limit }
    ensures bound { result ≤ greatest }
{
    if limit < greatest { limit } else { greatest }
}
