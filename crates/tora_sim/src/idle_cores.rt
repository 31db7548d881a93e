//! The search for cores with waiting items.
ghost use Rattle.std.specs.Prelude.{◌≡◌, ◌<◌, ◌≤◌, ℕ, true, Some, is_some, slice_get};
ghost use Rattle.tora_sim.specs.Store.{world_of};
ghost use Rattle.tora_world.specs.World.{refusal_of};
ghost use Rattle.tora_world.specs.declared.event.Event.TheVariants.{CoreTurn};

use crate::Event;
use crate::sim::Sim;
use tora_height::Id;

impl Sim {
    /// The first index from `place` on at which the core of a node may have an item to take: `step` refuses `CoreTurn`
    /// of each skipped node. If there is none, the length of `nodes` (at most the number of nodes of the world), or
    /// `place` if that is greater. A node is skipped only if it is stored at the same index as in `nodes`.
    pub fn next_core(&self, nodes: &[Id], place: usize) -> usize
        ensures onward { place ≤ result }
        ensures passed { (at n : ℕ) → place ≤ at → at < result → slice_get nodes.now at ≡ Some n
            → is_some (refusal_of (world_of self.now) (CoreTurn n)) ≡ true }
    {
        let many = nodes.len().min(self.nodes.len());
        for at in place..many {
            if self.may_happen(at, &Event::CoreTurn(nodes[at])) {
                return at;
            }
        }
        place.max(many)
    }
}
