//! A world at its start.
ghost use Rattle.std.specs.Prelude.{◌≡◌, ◌≢◌, ◌<◌, ◌++◌, IfErr, IfOk, MatchResult};
ghost use Rattle.tora_arq.specs.declared.times.TheConstants.Times.{STANDARD};
ghost use Rattle.tora_arq.specs.Settings.{IsTimes};
ghost use Rattle.tora_seat.specs.Rows.{first_seat};
ghost use Rattle.tora_world.specs.Topology.{neighbours_of, new_core};
ghost use Rattle.tora_world.specs.World.{first_world};
ghost use Rattle.tora_sim.specs.Store.{world_of};
ghost use Rattle.tora_sim.specs.Topologies.{IsTopology};
ghost use Rattle.tora_sim.specs.Firsts.{IsFirstEnd, AreAdded, IsMade};

use crate::SimError;
use crate::deadlines::no_deadlines;
use crate::end_keys::keys_of;
use crate::files::{apart, open};
use crate::link_slot::LinkSlot;
use crate::links::{LinkParts, end_of};
use crate::nodes::{NodeSlot, Sending, no_counts};
use crate::places::places_of;
use crate::queue::Queue;
use crate::sim::{Buffers, Sim};
use crate::store::{Datagrams, KeptCargoes, Lane};
use crate::topology::Topology;
use std::alloc::Global;
use tora_arq::{Times, standard_times};
use tora_core::{Core, CoreLimits, numbers_are_put_in_order, numbers_come_and_go};
use tora_frame::Version;
use tora_height::Id;
use tora_life::{MemDisk, Owner};
use tora_seat::BareSeat;

impl Sim {
    /// The world of a topology at its start: no link end is open, no life file has given a number, all queues are
    /// empty, no datagram was sent, and the clock is 0.
    ///
    /// Each link end has the standard times: 10 ticks of 100 ms between HELLOs, 50 of silence, 5 between tries, and 8
    /// tries. The lists of the topology are copied.
    ///
    /// # Errors
    /// `Memory`.
    pub fn new(alloc: Global, topology: &Topology) -> Result<Sim, SimError>
        ensures made { IfOk result (λ sim. world_of sim ≡ first_world topology.now STANDARD) }
        ensures refused { IfErr result (λ e. e ≡ SimError.Memory) }
    {
        standard_times();
        Sim::with_times(alloc, topology, Times::STANDARD)
    }

    /// The world of a topology at its start, as `Sim::new` makes it, with these times at each link end. None of them is
    /// 0.
    ///
    /// # Errors
    /// `Memory`.
    pub fn with_times(alloc: Global, topology: &Topology, times: Times) -> Result<Sim, SimError>
        requires { IsTimes times }
        ensures made { IfOk result (λ sim. world_of sim ≡ first_world topology.now times) }
        ensures refused { IfErr result (λ e. e ≡ SimError.Memory) }
    {
        numbers_are_put_in_order();
        numbers_come_and_go();
        let Ok(own) = topology.copied(alloc) else {
            return Err(SimError::Memory);
        };
        let named = own.nodes();
        let mut nodes = Vec::new(alloc);
        let mut links = Vec::new(alloc);
        for n in named.as_slice() {
            add_node(alloc, &own, times, *n, &mut nodes, &mut links)?;
        }
        let count = links.len();
        let deadlines = no_deadlines(alloc, count)?;
        let keys = keys_of(alloc, &links)?;
        let places = places_of(alloc, &keys, &nodes)?;
        Ok(Sim {
            topology: own,
            times,
            clock: 0,
            nodes,
            links,
            keys,
            places,
            datagrams: Datagrams::new(alloc),
            deadlines,
            buffers: Buffers::new(alloc),
        })
    }
}

/// Adds a node, and its link ends.
///
/// # Errors
/// `Memory`.
fn add_node(
    alloc: Global,
    topology: &Topology,
    times: Times,
    n: Id,
    nodes: &mut Vec<NodeSlot>,
    links: &mut Vec<LinkSlot>,
) -> Result<(), SimError>
    requires times { IsTimes times }
    requires me { 0 < n }
    ensures { MatchResult result (λ _. IsMade topology.now times n nodes.old.items links.old.items nodes.new.items
        links.new.items) (λ e. e ≡ SimError.Memory) }
{
    let first = links.len();
    let neighbours = topology.neighbours(n);
    let count = neighbours.len();
    let seat = new_seat(alloc, topology, n, neighbours.as_slice())?;
    let Ok(seat) = Box::new(alloc, seat) else {
        return Err(SimError::Memory);
    };
    let counts = no_counts(alloc, count + 1)?;
    let Ok(items) = Queue::new(alloc) else {
        return Err(SimError::Memory);
    };
    add_links(alloc, topology, times, n, neighbours.as_slice(), links)?;
    let node = NodeSlot {
        node: n,
        first,
        count,
        seat,
        inputs: Vec::new(alloc),
        items,
        counts,
        sending: Sending::Goes,
        receive: false,
    };
    if nodes.push(node).is_err() {
        return Err(SimError::Memory);
    }
    Ok(())
}

/// The seat of the core of a node with these neighbours, before any input.
///
/// # Errors
/// `Memory`.
fn new_seat(
    alloc: Global,
    topology: &Topology,
    n: Id,
    neighbours: &[Id],
) -> Result<BareSeat, SimError>
    requires me { 0 < n }
    requires kept { IsTopology topology.now }
    requires neighbours { neighbours.now ≡ neighbours_of topology.now n }
    ensures { MatchResult result (λ seat. seat ≡ first_seat (new_core topology.now n)) (λ e. e ≡ SimError.Memory) }
{
    let Ok(core) = Core::with_erasure(
        alloc,
        topology.erasure_of(n),
        CoreLimits::GREATEST,
        n,
        neighbours,
        topology.destinations(),
    ) else {
        return Err(SimError::Memory);
    };
    match BareSeat::new(alloc, core) {
        Ok(seat) => Ok(seat),
        Err(_) => Err(SimError::Memory),
    }
}

/// Adds the link ends of a node towards these neighbours.
///
/// # Errors
/// `Memory`.
fn add_links(
    alloc: Global,
    topology: &Topology,
    times: Times,
    n: Id,
    peers: &[Id],
    links: &mut Vec<LinkSlot>,
) -> Result<(), SimError>
    requires times { IsTimes times }
    requires me { 0 < n }
    requires kept { IsTopology topology.now }
    requires peers { peers.now ≡ neighbours_of topology.now n }
    ensures { MatchResult result (λ _. AreAdded topology.now times n links.old.items links.new.items) (λ e.
        e ≡ SimError.Memory) }
{
    numbers_are_put_in_order();
    let version = topology.version_of(n);
    for seat in 0..peers.len() {
        let link = new_link(alloc, version, times, n, peers[seat], seat)?;
        match links.push(link) {
            Ok(()) => {}
            Err(_) => return Err(SimError::Memory),
        }
    }
    Ok(())
}

/// The end of node `n` towards `k` in a new world: it is closed, its life file has given no number, and its outbound
/// queue is empty.
///
/// # Errors
/// `Memory`.
fn new_link(
    alloc: Global,
    version: Version,
    times: Times,
    n: Id,
    k: Id,
    seat: usize,
) -> Result<LinkSlot, SimError>
    requires times { IsTimes times }
    requires me { 0 < n }
    requires peer { 0 < k }
    requires other { n ≢ k }
    ensures { MatchResult result (λ link. IsFirstEnd version times n k seat link) (λ e. e ≡ SimError.Memory) }
{
    let parts = new_parts(alloc, version, times, n, k, seat)?;
    match Box::new(alloc, parts) {
        Ok(parts) => Ok(LinkSlot::new(parts)),
        Err(_) => Err(SimError::Memory),
    }
}

/// The parts of the end that `new_link` makes.
///
/// # Errors
/// `Memory`.
fn new_parts(
    alloc: Global,
    version: Version,
    times: Times,
    n: Id,
    k: Id,
    seat: usize,
) -> Result<LinkParts, SimError>
    requires times { IsTimes times }
    requires me { 0 < n }
    requires peer { 0 < k }
    requires other { n ≢ k }
    ensures { MatchResult result (λ link. IsFirstEnd version times n k seat link) (λ e. e ≡ SimError.Memory) }
{
    let Ok(end) = end_of(alloc, version, n, k, times) else {
        return Err(SimError::Memory);
    };
    let file = apart(alloc, open(MemDisk::new(), Owner { node: n, peer: k }))?;
    let lane = Lane::new(alloc);
    let steps = KeptCargoes::new(alloc);
    Ok(LinkParts {
        seat,
        end,
        file,
        lane,
        steps,
    })
}
