//! `Sim`, the simulator of the world of all schedules, as a `Simulator`.
ghost use Rattle.std.specs.Prelude.{◌≡◌, ◌⊎◌, None, Some, IfErr, IfOk, OnOk};
ghost use Rattle.tora_world.specs.Topology.{topology_fault_within};
ghost use Rattle.tora_sim.specs.Topologies.{topology_of};
ghost use Rattle.tora_script.specs.Marks.{with_old_node, with_choice, with_mark, with_marks};
ghost use Rattle.tora_script.specs.Simulator.{ArePairs, AreIds, mixed_topology};

use crate::node_marks::Mark;
use crate::setup::WorldOptions;
use crate::simulator::Simulator;
use std::alloc::{AllocError, Global};
use tora_arq::{Life, Times};
use tora_core::{CoreError, Erasure};
use tora_height::{Entry, Id};
use tora_sim::{Sim, Topology};
use tora_world::{Event, SimError};

/// Makes the link ends of a node speak only version 1. If there is no such node, nothing changes.
fn make_old(topology: &mut Topology, n: Id)
    ensures { topology.new ≡ with_old_node topology.old n }
{
    let _ = topology.set_old(n);
}

/// Sets a node's choice of erasure in a topology. If there is no such node, nothing changes.
#[tactic(auto, using(crate::proofs::Starting::not_chosen))]
fn choose(topology: &mut Topology, n: Id, erasure: Erasure) -> Result<(), AllocError>
    ensures { OnOk result (topology.new ≡ with_choice topology.old n erasure) }
{
    match topology.choose(n, erasure) {
        Ok(()) => Ok(()),
        Err(SimError::NoNode) => Ok(()),
        Err(_) => Err(AllocError),
    }
}

/// Applies a line about a node to a topology. If there is no such node, nothing changes.
fn put_mark(topology: &mut Topology, mark: Mark) -> Result<(), AllocError>
    ensures { OnOk result (topology.new ≡ with_mark topology.old mark) }
{
    match mark {
        Mark::Old(n) => {
            make_old(topology, n);
            Ok(())
        }
        Mark::Erases(n, erasure) => choose(topology, n, erasure),
    }
}

/// Applies lines about nodes to a topology, in order.
fn put_marks(topology: &mut Topology, marks: &[Mark]) -> Result<(), AllocError>
    ensures { OnOk result (topology.new ≡ with_marks topology.old marks.now) }
{
    for mark in marks {
        put_mark(topology, *mark)?;
    }
    Ok(())
}

/// The topology of these links and destinations, with the lines about its nodes applied. The error is `TooMany`,
/// `Repeated` or `OwnId` if there is no such topology within the limits, and `Memory` if memory ran out.
fn mixed_topology(
    alloc: Global,
    options: WorldOptions,
    links: &[(Id, Id)],
    dests: &[Id],
    marks: &[Mark],
) -> Result<Topology, CoreError>
    requires links { ArePairs links.now }
    requires dests { AreIds dests.now }
    ensures made { IfOk result (λ t. t ≡ mixed_topology options.erasure links.now dests.now marks.now) }
    ensures sound { IfOk result (λ _. topology_fault_within options.limits (topology_of links.now dests.now) ≡ None) }
    ensures fault { IfErr result (λ e. ((e ≡ CoreError.Memory) × (topology_fault_within options.limits
        (topology_of links.now dests.now) ≡ None))
        ⊎ (topology_fault_within options.limits (topology_of links.now dests.now) ≡ Some e)) }
{
    let mut topology = Topology::with_limits(alloc, options.limits, links, dests)?;
    topology.set_erasure(options.erasure);
    match put_marks(&mut topology, marks) {
        Ok(()) => Ok(topology),
        Err(_) => Err(CoreError::Memory),
    }
}

impl Simulator for Sim {
    ghost use Rattle.tora_sim.specs.Store.{world_of};

    ghost world = { λ sim. world_of sim };

    fn start(
        alloc: Global,
        options: WorldOptions,
        links: &[(Id, Id)],
        dests: &[Id],
        marks: &[Mark],
        times: Times,
    ) -> Result<Sim, CoreError> {
        let topology = mixed_topology(alloc, options, links, dests, marks)?;
        match Sim::with_times(alloc, &topology, times) {
            Ok(sim) => Ok(sim),
            Err(_) => Err(CoreError::Memory),
        }
    }

    #[inline(always)]
    fn may_happen(&self, place: usize, event: &Event) -> bool {
        Sim::may_happen(self, place, event)
    }

    #[inline(always)]
    fn is_quiet(&self) -> bool {
        Sim::is_quiet(self)
    }

    #[inline(always)]
    fn may_turn(&self) -> bool {
        Sim::may_turn(self)
    }

    #[inline(always)]
    fn next_core(&self, nodes: &[Id], place: usize) -> usize {
        Sim::next_core(self, nodes, place)
    }

    fn has_ends(&self, ends: &[(Id, Id)]) -> bool {
        Sim::has_ends(self, ends)
    }

    #[inline(always)]
    fn next_due(&self, place: usize) -> usize {
        Sim::next_due(self, place)
    }

    fn settle(&mut self) {
        Sim::settle(self);
    }

    fn happen(&mut self, event: &Event) -> Result<Option<SimError>, AllocError> {
        self.happen_at(0, event)
    }

    fn happen_at(&mut self, place: usize, event: &Event) -> Result<Option<SimError>, AllocError> {
        match self.step_at(place, event) {
            Ok(()) => Ok(None),
            Err(SimError::Memory) => Err(AllocError),
            Err(SimError::NoNode) => Ok(Some(SimError::NoNode)),
            Err(SimError::NoDatagram) => Ok(Some(SimError::NoDatagram)),
            Err(SimError::NotPossible) => Ok(Some(SimError::NotPossible)),
        }
    }

    fn turn(&mut self, place: usize, n: Id, most: u64) -> Result<bool, AllocError> {
        self.turn_all(place, n, most)
    }

    #[inline(always)]
    fn transmit(&mut self, place: usize, end: (Id, Id), most: u64) -> Result<bool, AllocError> {
        let (n, k) = end;
        self.transmit_all(place, n, k, most)
    }

    #[inline(always)]
    fn deliver(&mut self, i: u64, most: u64) -> Result<bool, AllocError> {
        self.deliver_all(i, most)
    }

    fn cut(&mut self, n: Id, k: Id) {
        self.cut_bound(n, k);
    }

    fn nodes(&self, alloc: Global) -> Result<Vec<Id>, AllocError> {
        Sim::nodes(self, alloc)
    }

    fn ends(&self, alloc: Global) -> Result<Vec<(Id, Id)>, AllocError> {
        Sim::ends(self, alloc)
    }

    fn datagrams(&self) -> u64 {
        Sim::datagrams(self)
    }

    fn datagram(&self, i: u64) -> Option<(Id, Id)> {
        Sim::datagram(self, i)
    }

    fn height(&self, n: Id, d: Id) -> Option<Entry> {
        Sim::height(self, n, d)
    }

    fn next_hop(&self, n: Id, d: Id) -> Option<Id> {
        Sim::next_hop(self, n, d)
    }

    fn sent(&self, a: Id, b: Id, life: Life) -> usize {
        self.sent_count(a, b, life)
    }

    fn taken(&self, b: Id, a: Id, life: Life) -> usize {
        self.taken_count(b, a, life)
    }

    fn exact(&self, d: Id) -> bool {
        Sim::exact(self, d)
    }

    fn walk(&self, alloc: Global, n: Id, d: Id) -> Result<Option<Vec<Id>>, AllocError> {
        match Sim::walk(self, alloc, n, d) {
            Ok(walk) => Ok(walk),
            Err(_) => Err(AllocError),
        }
    }

    fn is_at_rest(&self) -> bool {
        Sim::is_at_rest(self)
    }
}
