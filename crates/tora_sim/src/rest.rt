//! The test whether the world is at rest.
ghost use Rattle.std.specs.Prelude.{◌≡◌, None, MatchOption, slice_get};
ghost use Rattle.std.specs.List.{list_all};
ghost use Rattle.tora_arq.specs.LinkEnd.{bound_life};
ghost use Rattle.tora_seat.specs.Rows.{current_of};
ghost use Rattle.tora_seat.specs.Serving.{is_current};
ghost use Rattle.tora_world.specs.Topology.{neighbours_of};
ghost use Rattle.tora_world.specs.World.{is_empty};
ghost use Rattle.tora_world.specs.Rest.{life_at, is_idle_end, is_one_life, is_link_at_rest, is_node_at_rest, rests};
ghost use Rattle.tora_sim.specs.Links.{waiting};
ghost use Rattle.tora_sim.specs.Store.{world_of};
ghost use Rattle.tora_sim.specs.Resting.{is_idle};

use crate::end_keys::place;
use crate::links::LinkParts;
use crate::nodes::{NodeSlot, place as node_place};
use crate::sim::Sim;
use tora_arq::Life;
use tora_core::numbers_come_and_go;
use tora_height::Id;

impl Sim {
    /// Whether the world is at rest: no item waits for a core, no outbound message for a link end, and no event in a
    /// link end; all submitted packets are acknowledged; and each link is up at both cores in one session, in which
    /// both its ends are bound, or at neither.
    ///
    /// At rest, HELLOs and repeated ACKs may still be sent, datagrams may be undelivered, and a need may come at any
    /// time. Each entry is then NULL, or the height of its neighbour, or the neighbour has no height, and walks go
    /// down, as `tora_world::entries_at_rest_are_heights` and `tora_world::walks_at_rest_go_down` state.
    ///
    /// ```rust
    /// let topology = Topology::new(alloc, &[(1, 2)], &[2])?;
    /// let mut sim = Sim::new(alloc, &topology)?;
    /// assert!(rt; sim.is_at_rest()); // no link is up
    /// sim.step(&Event::Need(1, 2))?;
    /// assert!(rt; !sim.is_at_rest()); // an item waits for the core of node 1
    /// ```
    pub fn is_at_rest(&self) -> bool
        ensures { result ≡ rests (world_of self.now) }
    {
        numbers_come_and_go();
        self.are_at_rest(&self.nodes)
    }

    /// Whether these nodes are at rest.
    fn are_at_rest(&self, nodes: &[NodeSlot]) -> bool
        ensures { result ≡ list_all (λ node. is_node_at_rest (world_of self.now) node.node) nodes.now }
    {
        nodes.iter().all(|node| self.is_node_at_rest(node.key()))
    }

    /// Whether no item waits for the core of a node, and its link ends are at rest.
    fn is_node_at_rest(&self, n: Id) -> bool
        ensures { result ≡ is_node_at_rest (world_of self.now) n }
    {
        self.has_no_item(n) && self.are_links_at_rest(n)
    }

    /// Whether the ends of a node are at rest.
    fn are_links_at_rest(&self, n: Id) -> bool
        ensures { result ≡ list_all (is_link_at_rest (world_of self.now) n) (neighbours_of self.now.topology n) }
    {
        let neighbours = self.neighbours(n);
        neighbours.iter().all(|k| self.is_link_at_rest(n, *k))
    }

    /// Whether no item waits for the core of a node.
    fn has_no_item(&self, n: Id) -> bool
        ensures { result ≡ is_empty ((world_of self.now).items n) }
    {
        self.first_item(n).is_none()
    }

    /// Whether the end of `n` towards `k` is idle (`is_idle_end`), and the link is up at both cores in one session, to
    /// which the end is bound, or at neither.
    fn is_link_at_rest(&self, n: Id, k: Id) -> bool
        ensures { result ≡ is_link_at_rest (world_of self.now) n k }
    {
        let idle = self.is_idle_end(n, k);
        let here = self.life_at(n, k);
        let there = self.life_at(k, n);
        let bound = self.bound_life(n, k);
        let one = is_one_life(here, there, bound);
        idle && one
    }

    /// Whether no outbound message waits for the end of `n` towards `k`, it has no event, and all that was submitted is
    /// acknowledged. Owed HELLOs and ACKs do not count. `true` if there is no such link.
    fn is_idle_end(&self, n: Id, k: Id) -> bool
        ensures { result ≡ is_idle_end (world_of self.now) n k }
    {
        match place(&self.links, &self.keys, n, k) {
            Some(at) => self.links[at].is_idle(),
            None => true,
        }
    }

    /// The session that the end of node `n` towards `k` is bound in; `None` if it is not bound, or if there is no such
    /// link.
    pub fn bound_life(&self, n: Id, k: Id) -> Option<Life>
        ensures { result ≡ bound_life ((world_of self.now).ends n k) }
    {
        match place(&self.links, &self.keys, n, k) {
            Some(at) => self.links[at].life(),
            None => None,
        }
    }

    /// The session in which the link to `k` is up at the core of `n`; `None` if it is not up, or if there is no such
    /// link.
    fn life_at(&self, n: Id, k: Id) -> Option<Life>
        ensures { result ≡ life_at (world_of self.now) n k }
    {
        match place(&self.links, &self.keys, n, k) {
            Some(end) => {
                let seat = self.links[end].seat();
                match node_place(&self.nodes, n) {
                    Some(at) => self.nodes[at].current(seat),
                    None => None,
                }
            }
            None => None,
        }
    }
}

/// Whether both cores have the same current session and the end is bound in it, or neither core has one.
fn is_one_life(here: Option<Life>, there: Option<Life>, bound: Option<Life>) -> bool
    ensures { result ≡ is_one_life here there bound }
{
    match here {
        Some(life) => match there {
            Some(other) => {
                life.own == other.peer && life.peer == other.own && is_life(life, bound)
            }
            None => false,
        },
        None => there.is_none(),
    }
}

/// Whether `bound` is this session.
fn is_life(life: Life, bound: Option<Life>) -> bool
    ensures { result ≡ is_current life bound }
{
    match bound {
        Some(other) => life.own == other.own && life.peer == other.peer,
        None => false,
    }
}

impl LinkParts {
    /// Whether no message waits in the outbound queue, no event in the end, and all that was submitted is acknowledged.
    pub fn is_idle(&self) -> bool
        ensures { result ≡ is_idle self.now }
    {
        self.has_no_cargo() && self.has_no_event() && self.has_no_packet()
    }

    /// Whether no outbound message waits.
    #[tactic(auto, using(crate::proofs::Resting::empty_lane))]
    fn has_no_cargo(&self) -> bool
        ensures { result ≡ is_empty (waiting self.now) }
    {
        !self.has_cargo()
    }

    /// Whether no event waits in the end.
    fn has_no_event(&self) -> bool
        ensures { result ≡ is_empty self.now.state.events }
    {
        !self.end.has_event()
    }

    /// Whether all packets that were submitted are acknowledged.
    #[tactic(auto, using(crate::proofs::Resting::none_waits))]
    fn has_no_packet(&self) -> bool
        ensures { result ≡ is_empty self.now.state.queue }
    {
        self.end.waiting() == 0
    }

    /// The session in which the end is bound; `None` if it is not bound.
    pub fn life(&self) -> Option<Life>
        ensures { result ≡ bound_life self.now.state }
    {
        self.end.life()
    }
}

impl NodeSlot {
    /// The current session of the neighbour with this index; `None` if it has none, or there is no such neighbour.
    fn current(&self, seat: usize) -> Option<Life>
        ensures { MatchOption (slice_get self.now.seat.core.neighbours seat) (result ≡ None) (λ k.
            result ≡ current_of self.now.seat.rows k) }
    {
        self.seat.current(seat)
    }
}
