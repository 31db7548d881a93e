//! The events of a node: needs, turns of its core, restarts and arms.
ghost use Rattle.tora_world.specs.declared.event.Event.TheVariants.{Need, CoreTurn, Arm, Restart};
ghost use Rattle.tora_sim.specs.Nodes.{is_of};
ghost use Rattle.tora_sim.specs.Store.{call_of};
ghost use Rattle.tora_sim.specs.Keyed.{IsFirst};
ghost use Rattle.tora_sim.specs.Steps.{Does};

use crate::deadlines::forget;
use crate::links::arm;
use crate::nodes::{Sending, place as node_place};
use crate::restarts::{new_ends, restart_ends};
use crate::sim::Sim;
use crate::{Call, SimError};
use tora_height::Id;
use tora_life::DiskCall;
use tora_seat::{MOST_ITEMS, What};

impl Sim {
    /// Node `n` needs a route to `d`: puts the need into the queue into the core of `n`.
    ///
    /// # Errors
    /// In this order: `NoNode` if there is no such node; `NotPossible` if `MOST_ITEMS` items wait; `Memory`. Nothing
    /// changes then.
    #[inline(never)]
    pub(crate) fn need(&mut self, n: Id, d: Id) -> Result<(), SimError>
        ensures { Does self.old (Need n d) result self.new }
    {
        let Some(home) = node_place(&self.nodes, n) else {
            return Err(SimError::NoNode);
        };
        if self.nodes[home].waiting() >= MOST_ITEMS {
            return Err(SimError::NotPossible);
        }
        let seat = self.nodes[home].count();
        self.nodes[home].put_item(seat, self.clock, What::Need(d))
    }

    /// The core of node `n` serves the first item of its queue.
    ///
    /// # Errors
    /// In this order: `NoNode` if there is no such node; `NotPossible` if no item waits; `Memory`. Nothing changes
    /// then.
    #[inline(never)]
    pub(crate) fn core_turn(&mut self, n: Id) -> Result<(), SimError>
        ensures { Does self.old (CoreTurn n) result self.new }
    {
        let Some(home) = node_place(&self.nodes, n) else {
            return Err(SimError::NoNode);
        };
        if self.nodes[home].waiting() == 0 {
            return Err(SimError::NotPossible);
        }
        match self.turn_from(n, home, 1) {
            Ok(_) => Ok(()),
            Err(_) => Err(SimError::Memory),
        }
    }

    /// Restarts node `n`: replaces its core and its link ends by new ones, empties its queues, crashes the disks of its
    /// life files as `MemDisk::crash` does with `torn`, and opens the files again.
    ///
    /// # Errors
    /// In this order: `NoNode` if there is no such node; `Memory`. Nothing changes then.
    #[inline(never)]
    pub(crate) fn restart(&mut self, n: Id, torn: Option<[u8; 16]>) -> Result<(), SimError>
        ensures { Does self.old (Restart n torn) result self.new }
    {
        let Some(home) = node_place(&self.nodes, n) else {
            return Err(SimError::NoNode);
        };
        let alloc = *self.nodes.allocator();
        let first = self.nodes[home].first();
        let count = self.nodes[home].count();
        let Ok(seat) = self.nodes[home].new_seat(alloc) else {
            return Err(SimError::Memory);
        };
        let Ok(mut ends) = new_ends(alloc, &self.links, first, count) else {
            return Err(SimError::Memory);
        };
        forget(&mut self.deadlines, first, count);
        restart_ends(&mut self.links, first, &mut ends, torn);
        self.nodes[home].restart(seat);
        Ok(())
    }

    /// Makes the next call of this kind fail at node `n`.
    ///
    /// # Errors
    /// `NoNode` if there is no such node.
    #[inline(never)]
    pub(crate) fn arm(&mut self, n: Id, call: Call) -> Result<(), SimError>
        ensures { Does self.old (Arm n call) result self.new }
    {
        let Some(home) = node_place(&self.nodes, n) else {
            return Err(SimError::NoNode);
        };
        match call {
            Call::SendLost => {
                self.nodes[home].arm_sending(Sending::IsLost);
                Ok(())
            }
            Call::SendGone => {
                self.nodes[home].arm_sending(Sending::IsGone);
                Ok(())
            }
            Call::Receive => {
                self.nodes[home].arm_receive(true);
                Ok(())
            }
            Call::Read => self.arm_files(n, home, DiskCall::Read),
            Call::Write => self.arm_files(n, home, DiskCall::Write),
            Call::Sync => self.arm_files(n, home, DiskCall::Sync),
        }
    }

    /// Makes the next call of this kind fail at each life file of node `n`. The node has the index `home`.
    fn arm_files(&mut self, n: Id, home: usize, call: DiskCall) -> Result<(), SimError>
        requires { IsFirst (is_of n) self.old.nodes home }
        ensures { Does self.old (Arm n (call_of call)) result self.new }
    {
        let first = self.nodes[home].first();
        let count = self.nodes[home].count();
        arm(&mut self.links, first, count, call);
        Ok(())
    }
}
