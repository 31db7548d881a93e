//! The events `Open`, `Pull` and `Pump` of a link end.
ghost use Rattle.tora_world.specs.declared.event.Event.TheVariants.{Open, Pull, Pump};
ghost use Rattle.tora_sim.specs.Steps.{Does};

use crate::SimError;
use crate::end_keys::{place, place_near};
use crate::nodes::node_near;
use crate::places::home_at;
use crate::sim::Sim;
use tora_height::Id;
use tora_seat::{MOST_ITEMS, what_of};

impl Sim {
    /// Opens the closed end of node `n` towards `k` with a session number from its life file. The end stays closed if
    /// the file gives no number.
    ///
    /// # Errors
    /// In this order: `NoNode` if there is no such link; `NotPossible` if the end is not closed.
    #[inline(never)]
    pub(crate) fn open(&mut self, n: Id, k: Id) -> Result<(), SimError>
        ensures { Does self.old (Open n k) result self.new }
    {
        let Some(at) = place(&self.links, &self.keys, n, k) else {
            return Err(SimError::NoNode);
        };
        if !self.links[at].is_closed() {
            return Err(SimError::NotPossible);
        }
        self.links[at].open(self.clock);
        Ok(())
    }

    /// Takes the first outbound message from the queue of node `n` to `k`, and submits its packet or cuts its session.
    /// The link end is looked for first at the index `guess`.
    ///
    /// # Errors
    /// In this order: `NoNode` if there is no such link; `NotPossible` if no message waits; `Memory`. Nothing changes
    /// then.
    pub(crate) fn pull(&mut self, guess: usize, n: Id, k: Id) -> Result<(), SimError>
        ensures { Does self.old (Pull n k) result self.new }
    {
        let Some(at) = place_near(&self.links, &self.keys, guess, n, k) else {
            return Err(SimError::NoNode);
        };
        if !self.links[at].has_cargo() {
            return Err(SimError::NotPossible);
        }
        if !self.links[at].pull() {
            return Err(SimError::Memory);
        }
        Ok(())
    }

    /// Puts the next event of the end of node `n` towards `k` into the queue into the core of `n`. The link end is
    /// looked for first at the index `guess`.
    ///
    /// # Errors
    /// In this order: `NoNode` if there is no such link; `NotPossible` if the end has no event or `MOST_ITEMS` items
    /// wait; `Memory`. Nothing changes then.
    pub(crate) fn pump(&mut self, guess: usize, n: Id, k: Id) -> Result<(), SimError>
        ensures { Does self.old (Pump n k) result self.new }
    {
        let Some(at) = place_near(&self.links, &self.keys, guess, n, k) else {
            return Err(SimError::NoNode);
        };
        let Some(event) = self.links[at].next_event() else {
            return Err(SimError::NotPossible);
        };
        let Some(home) = node_near(&self.nodes, home_at(&self.places, at), n) else {
            return Err(SimError::NoNode);
        };
        if self.nodes[home].waiting() >= MOST_ITEMS {
            return Err(SimError::NotPossible);
        }
        let seat = self.links[at].seat();
        match self.nodes[home].put_item(seat, self.clock, what_of(event)) {
            Ok(()) => {
                self.links[at].take_event();
                Ok(())
            }
            Err(error) => Err(error),
        }
    }
}
