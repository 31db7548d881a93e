//! The search for link ends that may have something to do.
ghost use Rattle.std.specs.Prelude.{◌≡◌, ◌<◌, ◌≤◌, ℕ, true, Some, slice_get};
ghost use Rattle.tora_sim.specs.Quiet.{IsQuietEnd};
ghost use Rattle.tora_sim.specs.Readers.{ends_in};
ghost use Rattle.tora_sim.specs.Store.{world_of};

use crate::deadlines::next_due;
use crate::sim::Sim;
use tora_height::Id;

impl Sim {
    /// Whether `ends` is the list of the link ends of the world, in their order.
    pub fn has_ends(&self, ends: &[(Id, Id)]) -> bool
        ensures sound { result ≡ true → ends.now ≡ ends_in self.now.topology }
        ensures complete { ends.now ≡ ends_in self.now.topology → result ≡ true }
    {
        are_ends(self.keys.as_slice(), ends)
    }

    /// The first index from `place` on, in the order of `ends`, at which a link end may have something to do. If there
    /// is none, the number of ends, or `place` if that is greater. No skipped end can be opened, take an outbound
    /// message, send a frame or give an event. An end is skipped only if its deadline is stored and has not come.
    #[inline(always)]
    pub fn next_due(&self, place: usize) -> usize
        ensures onward { place ≤ result }
        ensures passed { (at : ℕ) (end : ℕ × ℕ) → place ≤ at → at < result
            → slice_get (ends_in self.now.topology) at ≡ Some end → IsQuietEnd (world_of self.now) end.0 end.1 }
    {
        next_due(&self.deadlines, self.clock, place)
    }
}

/// Whether two lists have the same ends, in the same order. Every end is compared, several at once, which is faster
/// than a search for the first difference.
fn are_ends(keys: &[(Id, Id)], ends: &[(Id, Id)]) -> bool
    ensures sound { result ≡ true → ends.now ≡ keys.now }
    ensures complete { ends.now ≡ keys.now → result ≡ true }
{
    if keys.len() != ends.len() {
        return false;
    }
    let mut apart = 0;
    for (place, end) in ends.iter().enumerate() {
        apart |= ends_apart(keys[place], *end);
    }
    apart == 0
}

/// 0 exactly if the two ends are the same.
#[inline(always)]
fn ends_apart(end: (Id, Id), other: (Id, Id)) -> Id
    ensures same { end ≡ other → result ≡ 0 }
    ensures apart { result ≡ 0 → end ≡ other }
{
    nodes_apart(end.0, other.0) | nodes_apart(end.1, other.1)
}

/// 0 exactly if the two nodes are the same.
#[inline(always)]
fn nodes_apart(n: Id, k: Id) -> Id
    ensures same { n ≡ k → result ≡ 0 }
    ensures apart { result ≡ 0 → n ≡ k }
{
    n.wrapping_sub(k)
}
