//! Cuts of the session of a link end, as after a broken link.
ghost use Rattle.std.specs.Prelude.{◌≡◌};
ghost use Rattle.tora_arq.specs.LinkEnd.{bound_life};
ghost use Rattle.tora_seat.specs.Between.{after_cut_of_bound};
ghost use Rattle.tora_sim.specs.Links.{with_state};
ghost use Rattle.tora_sim.specs.Cuts.{after_cut_at};
ghost use Rattle.tora_sim.specs.Store.{world_of};

use crate::deadlines::forget;
use crate::end_keys::place;
use crate::links::{LinkParts, cut_bound};
use crate::sim::Sim;
use tora_arq::lives_are_bound_once;
use tora_height::Id;

impl LinkParts {
    /// Cuts the bound session, if there is one.
    pub fn cut_bound(&mut self)
        ensures { self.new ≡ with_state self.old (after_cut_of_bound self.old.state (bound_life self.old.state)) }
    {
        lives_are_bound_once();
        cut_bound(&mut self.end);
    }
}

impl Sim {
    /// Cuts the session to which the end of node `n` towards `k` is bound, as when a link layer reports a broken link.
    /// Nothing changes if there is no such link or session. This is not an event of `step`, but running threads can
    /// reach the same world.
    pub fn cut_bound(&mut self, n: Id, k: Id)
        ensures { world_of self.new ≡ after_cut_at (world_of self.old) n k }
    {
        if let Some(at) = place(&self.links, &self.keys, n, k) {
            forget(&mut self.deadlines, at, 1);
            self.links[at].cut_bound();
        }
    }
}
