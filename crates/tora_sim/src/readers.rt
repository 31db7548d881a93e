//! Reading the state of a simulated world.
ghost use Rattle.std.specs.Prelude.{◌≡◌, ◌<◌, IfOk, Some, length, map, option_map, ◌++◌, []};
ghost use Rattle.tora_core.specs.CoreRun.{height_of, hop_of};
ghost use Rattle.tora_world.specs.Topology.{is_node, nodes_in, neighbours_of};
ghost use Rattle.tora_world.specs.World.{sent_packets, taken_packets, datagram};
ghost use Rattle.tora_world.specs.Walks.{height_at, hop_at};
ghost use Rattle.tora_world.specs.Lists.{packets_of, parcels_in};
ghost use Rattle.tora_sim.specs.Store.{world_of, numbered};
ghost use Rattle.tora_sim.specs.Datagrams.{way_of};
ghost use Rattle.tora_sim.specs.Readers.{ends_at, ends_in};

use crate::end_keys::place;
use crate::links::LinkParts;
use crate::nodes::{NodeSlot, place as node_place};
use crate::sim::Sim;
use crate::store::{Datagrams, count_kept, list_kept};
use crate::topology::Topology;
use std::alloc::{AllocError, Global};
use tora_arq::Life;
use tora_core::numbers_come_and_go;
use tora_height::{Entry, Id};
use tora_packet::Packet;

impl Sim {
    /// The topology of the world.
    pub fn topology(&self) -> &Topology
        ensures { result.now ≡ self.now.topology }
    {
        &self.topology
    }

    /// The ticks of 100 ms since the start.
    pub fn clock(&self) -> u64
        ensures { result ≡ self.now.clock }
    {
        self.clock
    }

    /// The nodes, in ascending order.
    ///
    /// # Errors
    /// Memory ran out.
    pub fn nodes(&self, alloc: Global) -> Result<Vec<Id>, AllocError>
        ensures { IfOk result (λ v. v.items ≡ nodes_in self.now.topology.links) }
    {
        let nodes = self.topology.nodes();
        Vec::from_slice(alloc, nodes.as_slice())
    }

    /// The link ends, each as its node and its neighbour, by ascending node and then neighbour.
    ///
    /// # Errors
    /// Memory ran out.
    pub fn ends(&self, alloc: Global) -> Result<Vec<(Id, Id)>, AllocError>
        ensures { IfOk result (λ v. v.items ≡ ends_in self.now.topology) }
    {
        let nodes = self.topology.nodes();
        let mut ends = Vec::new(alloc);
        for n in nodes.as_slice() {
            self.put_ends_of(&mut ends, *n)?;
        }
        Ok(ends)
    }

    /// Appends the ends of a node, by the neighbours of its core; nothing if there is no such node. The links of the
    /// topology are not read.
    ///
    /// # Errors
    /// Memory ran out.
    fn put_ends_of(&self, ends: &mut Vec<(Id, Id)>, n: Id) -> Result<(), AllocError>
        ensures { IfOk result (λ _. ends.new.items ≡ ends.old.items ++ ends_at self.now.topology n) }
    {
        match node_place(&self.nodes, n) {
            Some(at) => put_ends(ends, n, self.nodes[at].neighbours()),
            None => Ok(()),
        }
    }

    /// Whether a node has this number; the links of the topology are not read.
    pub(crate) fn has_node(&self, n: Id) -> bool
        ensures { result ≡ is_node self.now.topology n }
    {
        match node_place(&self.nodes, n) {
            Some(_place) => true,
            None => false,
        }
    }

    /// The number of nodes.
    pub(crate) fn node_count(&self) -> usize
        ensures { result ≡ length (nodes_in self.now.topology.links) }
    {
        numbers_come_and_go();
        self.nodes.len()
    }

    /// The neighbours of a node, in ascending order, as its core has them; none if there is no such node.
    pub(crate) fn neighbours(&self, n: Id) -> &[Id]
        ensures { result.now ≡ neighbours_of self.now.topology n }
    {
        match node_place(&self.nodes, n) {
            Some(at) => self.nodes[at].neighbours(),
            None => &[],
        }
    }

    /// How many datagrams were ever sent; those that were lost on sending do not count.
    pub fn datagrams(&self) -> u64
        ensures { result ≡ length self.now.datagrams }
    {
        self.datagrams.len() as u64
    }

    /// The sender and the receiver of the datagram with this number, counted from 1; `None` if there is no such
    /// datagram.
    pub fn datagram(&self, i: u64) -> Option<(Id, Id)>
        ensures { result ≡ option_map way_of (datagram (world_of self.now) i) }
    {
        way_of_numbered(&self.datagrams, i)
    }

    /// The height of a node for a destination, `Some(None)` if it is NULL; `None` if there is no such node or
    /// destination.
    pub fn height(&self, n: Id, d: Id) -> Option<Entry>
        ensures { result ≡ height_at (world_of self.now) n d }
    {
        match node_place(&self.nodes, n) {
            Some(at) => self.nodes[at].height(d),
            None => None,
        }
    }

    /// The next hop of a node to a destination; `None` if the node has none, or there is no such node or destination.
    pub fn next_hop(&self, n: Id, d: Id) -> Option<Id>
        ensures { result ≡ hop_at (world_of self.now) n d }
    {
        match node_place(&self.nodes, n) {
            Some(at) => self.nodes[at].next_hop(d),
            None => None,
        }
    }

    /// How many packets of a session the core of `a` put into the queue to `b`; 0 if there is no such link or session.
    /// `life` is the session as the end of `a` writes it, with its own number first.
    pub fn sent_count(&self, a: Id, b: Id, life: Life) -> usize
        ensures { result ≡ length (sent_packets (world_of self.now) a b life) }
    {
        match place(&self.links, &self.keys, a, b) {
            Some(at) => self.links[at].sent_count(life),
            None => 0,
        }
    }

    /// The packets of a session that the core of `a` put into the queue to `b`, in order; none if there is no such link
    /// or session. `life` is the session as the end of `a` writes it, with its own number first.
    ///
    /// The list is built by a search at each call.
    ///
    /// # Errors
    /// Memory ran out.
    pub fn sent(&self, alloc: Global, a: Id, b: Id, life: Life) -> Result<Vec<Packet>, AllocError>
        ensures { IfOk result (λ v. v.items ≡ sent_packets (world_of self.now) a b life) }
    {
        match place(&self.links, &self.keys, a, b) {
            Some(at) => self.links[at].sent(alloc, life),
            None => Ok(Vec::new(alloc)),
        }
    }

    /// How many packets of `a` the core of `b` took in a session; 0 if there is no such link or session. `life` is the
    /// session as the end of `b` writes it, with its own number first.
    pub fn taken_count(&self, b: Id, a: Id, life: Life) -> usize
        ensures { result ≡ length (taken_packets (world_of self.now) b a life) }
    {
        match place(&self.links, &self.keys, b, a) {
            Some(at) => self.links[at].taken_count(life),
            None => 0,
        }
    }

    /// The packets of `a` that the core of `b` took in a session, in order; none if there is no such link or session.
    /// `life` is the session as the end of `b` writes it, with its own number first.
    ///
    /// The list is built by a search at each call.
    ///
    /// # Errors
    /// Memory ran out.
    pub fn taken(&self, alloc: Global, b: Id, a: Id, life: Life) -> Result<Vec<Packet>, AllocError>
        ensures { IfOk result (λ v. v.items ≡ taken_packets (world_of self.now) b a life) }
    {
        match place(&self.links, &self.keys, b, a) {
            Some(at) => self.links[at].taken(alloc, life),
            None => Ok(Vec::new(alloc)),
        }
    }
}

impl NodeSlot {
    /// The neighbours of the node, in ascending order.
    fn neighbours(&self) -> &[Id]
        ensures { result.now ≡ self.now.seat.core.neighbours }
    {
        self.seat.core().neighbours()
    }

    /// The height of the node for a destination, `Some(None)` if it is NULL; `None` if there is no such destination.
    fn height(&self, d: Id) -> Option<Entry>
        ensures { result ≡ height_of self.now.seat.core d }
    {
        self.seat.core().height(d)
    }

    /// The next hop of the node to a destination; `None` if there is none, or no such destination.
    fn next_hop(&self, d: Id) -> Option<Id>
        ensures { result ≡ hop_of self.now.seat.core d }
    {
        self.seat.core().next_hop(d)
    }
}

impl LinkParts {
    /// How many packets of a session were ever put into the outbound queue.
    pub fn sent_count(&self, life: Life) -> usize
        ensures { result ≡ length (packets_of life (parcels_in self.now.put)) }
    {
        self.lane.sent_count(life)
    }

    /// The packets of a session that were ever put into the outbound queue, in order.
    ///
    /// # Errors
    /// Memory ran out.
    pub fn sent(&self, alloc: Global, life: Life) -> Result<Vec<Packet>, AllocError>
        ensures { IfOk result (λ v. v.items ≡ packets_of life (parcels_in self.now.put)) }
    {
        self.lane.sent(alloc, life)
    }

    /// How many packets of the peer the node's core took in a session.
    pub fn taken_count(&self, life: Life) -> usize
        ensures { result ≡ length (packets_of life self.now.steps) }
    {
        count_kept(&self.steps, life)
    }

    /// The packets of the peer that the node's core took in a session, in order.
    ///
    /// # Errors
    /// Memory ran out.
    pub fn taken(&self, alloc: Global, life: Life) -> Result<Vec<Packet>, AllocError>
        ensures { IfOk result (λ v. v.items ≡ packets_of life self.now.steps) }
    {
        let mut packets = Vec::new(alloc);
        list_kept(&mut packets, &self.steps, life)?;
        Ok(packets)
    }
}

/// Appends the ends of node `n`, one for each of these neighbours.
///
/// # Errors
/// Memory ran out.
fn put_ends(ends: &mut Vec<(Id, Id)>, n: Id, neighbours: &[Id]) -> Result<(), AllocError>
    ensures { IfOk result (λ _. ends.new.items ≡ ends.old.items ++ map (λ k. (n, k)) neighbours.now) }
{
    for k in neighbours {
        ends.push((n, *k))?;
    }
    Ok(())
}

/// The sender and the receiver of datagram `i`, counted from 1; `None` if there is no such datagram.
#[inline(always)]
fn way_of_numbered(datagrams: &Datagrams, i: u64) -> Option<(Id, Id)>
    ensures { result ≡ option_map way_of (numbered i datagrams.now.items) }
{
    let place = usize::try_from(i).ok()?.checked_sub(1)?;
    datagrams.way(place)
}
