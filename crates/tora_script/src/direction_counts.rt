//! Counts of datagrams by direction.
ghost use Rattle.std.specs.Prelude.{◌≡◌, ℕ, OnOk};
ghost use Rattle.tora_script.specs.DirectionCounts.{times, IsOneMore};

use std::alloc::{AllocError, Global};
use std::collections::BTreeMap;
use tora_height::Id;

/// For each direction, from a sender to a receiver, how many datagrams were counted.
#[derive(Drop)]
pub struct DirectionCounts {
    counts: BTreeMap<(Id, Id), u64>,
}

impl DirectionCounts {
    /// No counts.
    pub fn new(alloc: Global) -> DirectionCounts
        ensures { (direction : ℕ × ℕ) → times result direction ≡ 0 }
    {
        DirectionCounts {
            counts: BTreeMap::new(alloc),
        }
    }

    /// The count of a direction; 0 if nothing was counted in it.
    pub fn times(&self, direction: (Id, Id)) -> u64
        ensures { result ≡ times self.now direction }
    {
        self.counts.get(&direction).copied().unwrap_or(0)
    }

    /// Counts a datagram in its direction.
    ///
    /// # Errors
    /// Out of memory, also if the count is 2^64 - 1.
    pub fn count(&mut self, direction: (Id, Id)) -> Result<(), AllocError>
        ensures { OnOk result (IsOneMore self.old self.new direction) }
    {
        let before = self.times(direction);
        let Some(next) = before.checked_add(1) else {
            return Err(AllocError);
        };
        self.counts.insert(direction, next)?;
        Ok(())
    }
}
