//! The tests whether anything is to be done now.
ghost use Rattle.std.specs.Prelude.{◌≡◌, ℕ, true, false, is_some};
ghost use Rattle.std.specs.List.{list_all};
ghost use Rattle.tora_sim.specs.Quiet.{IsQuiet, is_idle};
ghost use Rattle.tora_sim.specs.Store.{world_of};
ghost use Rattle.tora_world.specs.World.{refusal_of};
ghost use Rattle.tora_world.specs.declared.event.Event.TheVariants.{CoreTurn};

use crate::deadlines::{end_count, next_due};
use crate::looks::look_at_ends;
use crate::nodes::NodeSlot;
use crate::sim::Sim;

impl Sim {
    /// Whether it is known that nothing is to be done: no core has an item to take, and no link end can be opened, take
    /// an outbound message, send a frame or give an event. If it is not known, `settle` may find it out.
    pub fn is_quiet(&self) -> bool
        ensures { result ≡ true → IsQuiet (world_of self.now) }
    {
        if next_due(&self.deadlines, self.clock, 0) < end_count(&self.deadlines) {
            return false;
        }
        are_idle(&self.nodes)
    }

    /// Whether an item waits for some core.
    pub fn may_turn(&self) -> bool
        ensures { result ≡ false → (n : ℕ) → is_some (refusal_of (world_of self.now) (CoreTurn n)) ≡ true }
    {
        !are_idle(&self.nodes)
    }

    /// Stores the new deadline of each link end whose deadline has come: the tick before which the end has nothing to
    /// do. Until then, or until another event at the end, `next_due` skips the end, and no tick changes it. The world
    /// does not change.
    pub fn settle(&mut self)
        ensures { self.new ≡ self.old }
    {
        look_at_ends(&self.links, &mut self.deadlines, self.clock);
    }
}

/// Whether no item waits for any core.
fn are_idle(nodes: &Vec<NodeSlot>) -> bool
    ensures { result ≡ list_all is_idle nodes.now.items }
{
    nodes.as_slice().iter().all(|node| node.is_idle())
}

impl NodeSlot {
    /// Whether no item waits for its core.
    fn is_idle(&self) -> bool
        ensures { result ≡ is_idle self.now }
    {
        self.waiting() == 0
    }
}
