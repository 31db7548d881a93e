//! How many neighbours and destinations a core may have.
ghost use Rattle.std.specs.Prelude.{◌≡◌, ◌≤◌};
ghost use Rattle.tora_core.specs.Limits.{at_most, most_destinations, most_neighbours};

use crate::{GREATEST_NEIGHBOURS, MOST_DESTINATIONS, MOST_NEIGHBOURS};

/// The most neighbours and destinations of a core.
///
/// A limit above the greatest (255 neighbours, 64 destinations) counts as the greatest.
#[derive(Clone, Copy, Debug, PartialEq, Eq)]
pub struct CoreLimits {
    pub neighbours: usize,
    pub destinations: usize,
}

impl CoreLimits {
    /// 32 neighbours and 64 destinations.
    pub const STANDARD: CoreLimits = CoreLimits {
        neighbours: MOST_NEIGHBOURS,
        destinations: MOST_DESTINATIONS,
    };

    /// The greatest limits that have effect: 255 neighbours and 64 destinations. Greater ones count as these.
    pub const GREATEST: CoreLimits = CoreLimits {
        neighbours: GREATEST_NEIGHBOURS,
        destinations: MOST_DESTINATIONS,
    };

    /// How many neighbours a core may have within these limits: `neighbours`, but at most 255.
    pub fn most_neighbours(self) -> usize
        ensures value { result ≡ most_neighbours self }
        ensures bound { result ≤ GREATEST_NEIGHBOURS }
    {
        at_most(GREATEST_NEIGHBOURS, self.neighbours)
    }

    /// How many destinations a core's table may have within these limits: `destinations`, but at most 64.
    pub fn most_destinations(self) -> usize
        ensures value { result ≡ most_destinations self }
        ensures bound { result ≤ MOST_DESTINATIONS }
    {
        at_most(MOST_DESTINATIONS, self.destinations)
    }
}

/// The smaller one of a limit and the greatest.
fn at_most(greatest: usize, limit: usize) -> usize
    ensures value { result ≡ at_most greatest limit }
    ensures bound { result ≤ greatest }
{
    if limit < greatest { limit } else { greatest }
}
