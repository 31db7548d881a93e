//! The test whether entries are exact, and the walk along next hops.
ghost use Rattle.std.specs.Prelude.{◌≡◌, ◌&&◌, true, option_map, MatchBool, IfOk, IfErr, Err};
ghost use Rattle.std.specs.List.{list_all};
ghost use Rattle.tora_core.specs.Numbers.{has_number};
ghost use Rattle.tora_core.specs.CoreRun.{entry_of};
ghost use Rattle.tora_world.specs.Topology.{is_node};
ghost use Rattle.tora_world.specs.Walks.{entry_at, height_at, is_exact_entry, is_exact_node, exact_in, walk_within};
ghost use Rattle.tora_world.specs.Walks.{walk_of};
ghost use Rattle.tora_sim.specs.Store.{world_of};

use crate::SimError;
use crate::nodes::{NodeSlot, place as node_place};
use crate::sim::Sim;
use std::alloc::{AllocError, Global};
use std::cmp::Ordering;
use tora_core::numbers_come_and_go;
use tora_height::{Entry, Id};

impl Sim {
    /// Whether the entries for destination `d` are exact: each entry that is not NULL, of any node and any neighbour
    /// whose link is up, is the height of that neighbour.
    ///
    /// For a number that is not a destination of the topology there are no entries. If entries are exact, next hops
    /// lead from any node with a height to `d` within as many hops as there are nodes, and `walk` returns them, as
    /// `tora_world::exact_entries_give_walks` states. It is not proved that entries ever become exact.
    ///
    /// ```rust
    /// let topology = Topology::new(alloc, &[(1, 2)], &[2])?;
    /// let sim = Sim::new(alloc, &topology)?;
    /// assert!(rt; sim.exact(2)); // no link is up, so there are no entries
    /// assert!(rt; sim.walk(alloc, 1, 2)?.is_none()); // node 1 has no next hop
    /// ```
    pub fn exact(&self, d: Id) -> bool
        ensures { result ≡ exact_in (world_of self.now) d }
    {
        numbers_come_and_go();
        self.are_exact(&self.nodes, d)
    }

    /// The nodes on the way from node `n` to destination `d` by next hops, with both of them; `n` alone if it is `d`.
    ///
    /// `None` if a node before `d` has no next hop, or if `d` is not reached within as many hops as there are nodes.
    ///
    /// # Errors
    /// In this order: `NoNode` if `n` is not a node or `d` is not a destination of the topology; `Memory`.
    pub fn walk(&self, alloc: Global, n: Id, d: Id) -> Result<Option<Vec<Id>>, SimError>
        ensures refused { MatchBool (is_node self.now.topology n && has_number d self.now.topology.destinations)
            (IfErr result (λ e. e ≡ SimError.Memory)) (result ≡ Err SimError.NoNode) }
        ensures walk { IfOk result (λ nodes. option_map (λ v. v.items) nodes ≡ walk_of (world_of self.now) n d) }
    {
        if !self.has_node(n) || !self.topology.has_destination(d) {
            return Err(SimError::NoNode);
        }
        match self.walk_within(alloc, self.node_count(), n, d) {
            Ok(walk) => Ok(walk),
            Err(_) => Err(SimError::Memory),
        }
    }

    /// The walk with at most this many hops; `None` if there is none.
    ///
    /// # Errors
    /// Memory ran out.
    fn walk_within(
        &self,
        alloc: Global,
        hops: usize,
        n: Id,
        d: Id,
    ) -> Result<Option<Vec<Id>>, AllocError>
        ensures { IfOk result (λ nodes. option_map (λ v. v.items) nodes ≡ walk_within hops (world_of self.now) n d) }
    {
        let mut nodes = Vec::new(alloc);
        let mut at = n;
        for _ in 0..hops {
            nodes.push(at)?;
            if at == d {
                return Ok(Some(nodes));
            }
            let Some(next) = self.next_hop(at, d) else {
                return Ok(None);
            };
            at = next;
        }
        nodes.push(at)?;
        if at == d { Ok(Some(nodes)) } else { Ok(None) }
    }

    /// Whether the entries of these nodes are exact.
    fn are_exact(&self, nodes: &[NodeSlot], d: Id) -> bool
        ensures { result ≡ list_all (λ node. is_exact_node (world_of self.now) d node.node) nodes.now }
    {
        nodes.iter().all(|node| self.is_exact_node(node.key(), d))
    }

    /// Whether the entries of one node are exact.
    fn is_exact_node(&self, n: Id, d: Id) -> bool
        ensures { result ≡ is_exact_node (world_of self.now) d n }
    {
        let neighbours = self.neighbours(n);
        neighbours.iter().all(|k| self.is_exact_entry(n, *k, d))
    }

    /// Whether node `n` has no entry for neighbour `k`, or the entry is NULL or the present height of `k`.
    fn is_exact_entry(&self, n: Id, k: Id, d: Id) -> bool
        ensures { result ≡ is_exact_entry (entry_at (world_of self.now) n k d) (height_at (world_of self.now) k d) }
    {
        match (self.entry(n, k, d), self.height(k, d)) {
            (Some(Some(entry)), Some(Some(height))) => entry.height_cmp(&height) == Ordering::Equal,
            (Some(Some(_)), _) => false,
            _ => true,
        }
    }

    /// The entry of neighbour `k` at node `n` for a destination; `None` if there is no such node, neighbour or
    /// destination, or the link is not up.
    fn entry(&self, n: Id, k: Id, d: Id) -> Option<Entry>
        ensures { result ≡ entry_at (world_of self.now) n k d }
    {
        match node_place(&self.nodes, n) {
            Some(at) => self.nodes[at].entry(k, d),
            None => None,
        }
    }
}

impl NodeSlot {
    /// The node's entry of neighbour `k` for a destination; `None` if there is no such destination, or the link is not
    /// up.
    fn entry(&self, k: Id, d: Id) -> Option<Entry>
        ensures { result ≡ entry_of self.now.seat.core d k }
    {
        self.seat.core().entry(d, k)
    }
}
