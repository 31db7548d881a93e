//! The simulator.
ghost use Rattle.tora_world.specs.declared.event.Event.TheVariants.{Tick};
ghost use Rattle.tora_sim.specs.Steps.{Does, Runs};

use crate::deadlines::Deadlines;
use crate::link_slot::LinkSlot;
use crate::nodes::NodeSlot;
use crate::places::Places;
use crate::store::{Datagrams, Pool};
use crate::ticking::tick;
use crate::topology::Topology;
use crate::{Event, SimError};
use std::alloc::Global;
use std::marker::Model;
use tora_arq::Times;
use tora_core::Sends;
use tora_frame::Packets;
use tora_height::Id;

/// Memory that steps use, whose contents mean nothing between two steps. It is kept because making it anew for each step
/// takes time.
#[derive(Drop)]
pub(crate) struct Buffers {
    /// Lists for outbound queues that are longer than their inline places.
    pub(crate) pool: Pool,
    /// The packets of the frame that is being sent.
    pub(crate) packets: Packets,
    /// The packets that a core broadcasts.
    pub(crate) sends: Sends,
}

impl Buffers {
    /// Empty buffers.
    pub(crate) fn new(alloc: Global) -> Buffers {
        Buffers {
            pool: Pool::new(alloc),
            packets: Packets::new(),
            sends: Sends::new(),
        }
    }
}

/// A simulated world: its nodes, link ends, queues and life files, and all datagrams that were ever sent. It changes
/// only by events and by `cut_bound`.
#[derive(Drop)]
pub struct Sim {
    pub(crate) topology: Topology,
    pub(crate) times: Times,
    pub(crate) clock: u64,
    pub(crate) nodes: Vec<NodeSlot>,
    pub(crate) links: Vec<LinkSlot>,
    /// The node and the peer of each link end. The ends are in the order of these keys, and a search reads only them.
    pub(crate) keys: Vec<(Id, Id)>,
    /// For each link end the indexes of the other end of its link and of its node.
    pub(crate) places: Vec<Places>,
    pub(crate) datagrams: Datagrams,
    /// The deadline of each link end: before this tick it has nothing to do. A deadline that has come gives no
    /// information.
    pub(crate) deadlines: Deadlines,
    pub(crate) buffers: Buffers,
}

impl Model for Sim {
    ghost use Rattle.std.specs.Prelude.{◌≡◌};
    ghost use Rattle.tora_sim.specs.Store.{SimState, IsStore, state_of};
    ghost use Rattle.tora_sim.specs.Quiet.{AreDeadlines};
    ghost use Rattle.tora_sim.specs.Readers.{ends_in};

    ghost Value = { SimState };

    ghost view = { λ s. state_of s.topology s.times s.clock s.nodes.items s.links.items s.datagrams.items };

    ghost invariant = { λ s. IsStore (state_of s.topology s.times s.clock s.nodes.items s.links.items s.datagrams.items)
        × AreDeadlines s.clock s.deadlines s.links.items × (s.keys.items ≡ ends_in s.topology) };
}

impl Sim {
    /// Advances the clock by one tick of 100 ms, and ticks every end.
    ///
    /// # Errors
    /// `Memory` if the clock is at 2^64 - 1. Nothing changes then.
    pub(crate) fn tick(&mut self) -> Result<(), SimError>
        ensures { Does self.old Tick result self.new }
    {
        let Some(now) = self.clock.checked_add(1) else {
            return Err(SimError::Memory);
        };
        tick(&mut self.links, &self.deadlines, now);
        self.clock = now;
        Ok(())
    }

    /// Makes one event happen.
    ///
    /// # Errors
    /// `NoNode` if there is no such node or link, `NoDatagram` if there is no such datagram, `NotPossible` if the event
    /// is not possible now, and last `Memory`, also if the clock, a count of items or the number of datagrams cannot
    /// grow. Nothing changes then.
    pub fn step(&mut self, event: &Event) -> Result<(), SimError>
        ensures { Does self.old event.now result self.new }
    {
        self.step_at(0, event)
    }

    /// Makes one event happen as `step` does. For a `Pull` or `Pump`, the link end is looked for first at the index
    /// `place` among `ends`.
    ///
    /// # Errors
    /// Those of `step`.
    #[inline(always)]
    pub fn step_at(&mut self, place: usize, event: &Event) -> Result<(), SimError>
        ensures { Does self.old event.now result self.new }
    {
        // Rare events are not inlined, because every event would pay for their local variables.
        match event {
            Event::Need(n, d) => self.need(*n, *d),
            Event::Tick => self.tick(),
            Event::Open(n, k) => self.open(*n, *k),
            Event::Pull(n, k) => self.pull(place, *n, *k),
            Event::Transmit(n, k) => self.transmit(*n, *k),
            Event::Deliver(i) => self.deliver(*i),
            Event::Pump(n, k) => self.pump(place, *n, *k),
            Event::CoreTurn(n) => self.core_turn(*n),
            Event::Arm(n, call) => self.arm(*n, *call),
            Event::Restart(n, torn) => self.restart(*n, *torn),
        }
    }

    /// Makes events happen, one after another, up to the first that is refused.
    ///
    /// # Errors
    /// Those of `step`. The events before the refused one have happened.
    pub fn run(&mut self, events: &[Event]) -> Result<(), SimError>
        ensures { Runs self.old events.now result self.new }
    {
        for event in events {
            self.step(event)?;
        }
        Ok(())
    }
}
