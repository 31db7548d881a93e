//! The turns of a node's core, one after another.
ghost use Rattle.std.specs.Prelude.{◌<◌, MatchResult};
ghost use Rattle.tora_sim.specs.Keyed.{IsFirst};
ghost use Rattle.tora_sim.specs.Nodes.{is_of};
ghost use Rattle.tora_sim.specs.Steps.{Repeats};
ghost use Rattle.tora_world.specs.declared.event.Event.TheVariants.{CoreTurn};

use crate::nodes::node_near;
use crate::sim::Sim;
use crate::turns::{forget_waiting, take_items};
use std::alloc::AllocError;
use tora_height::Id;

impl Sim {
    /// Repeats `CoreTurn` at node `n` until it is refused, at most `most` times. Returns whether an item was served;
    /// `false` also if there is no such node. The node is looked up once, and the deadlines of its link ends are updated
    /// once.
    ///
    /// `place` is the index of the node among `nodes`. If another node is there, the node is searched for.
    ///
    /// # Errors
    /// Memory ran out for what an item may put. The earlier items were served.
    pub fn turn_all(&mut self, place: usize, n: Id, most: u64) -> Result<bool, AllocError>
        ensures { Repeats self.old most (CoreTurn n) result self.new }
    {
        let Some(home) = node_near(&self.nodes, place, n) else {
            return Ok(false);
        };
        if most == 0 {
            return Ok(false);
        }
        self.turn_from(n, home, most)
    }

    /// `turn_all` for the node at the index `home`; `most` is not 0.
    #[inline(never)]
    pub(crate) fn turn_from(&mut self, _n: Id, home: usize, most: u64) -> Result<bool, AllocError>
        requires first { IsFirst (is_of _n) self.old.nodes home }
        requires some { 0 < most }
        ensures { Repeats self.old most (CoreTurn _n) result self.new }
    {
        if self.nodes[home].waiting() == 0 {
            return Ok(false);
        }
        let first = self.nodes[home].first();
        let count = self.nodes[home].count();
        let taken = take_items(
            &mut self.nodes[home],
            &mut self.links,
            &mut self.buffers.pool,
            &mut self.buffers.sends,
            most,
        );
        forget_waiting(&self.links, &mut self.deadlines, first, count);
        match taken {
            Ok(some) => Ok(some),
            Err(_) => Err(AllocError),
        }
    }
}
