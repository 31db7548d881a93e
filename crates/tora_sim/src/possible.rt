//! A quick test whether an event may be possible now.
ghost use Rattle.std.specs.Prelude.{◌≡◌, ◌<◌, Some, true, false, is_some, nat_lt, length, map, slice_get};
ghost use Rattle.tora_arq.specs.LinkEnd.{is_closed, first_event, frame_due};
ghost use Rattle.tora_world.specs.World.{refusal_of};
ghost use Rattle.tora_sim.specs.Links.{LinkView, is_at, key_of};
ghost use Rattle.tora_sim.specs.Store.{world_of};
ghost use Rattle.tora_sim.specs.Possible.{end_may, node_may, may_happen, has_cargo};

use crate::Event;
use crate::end_keys::is_key;
use crate::link_slot::LinkSlot;
use crate::nodes::NodeSlot;
use crate::sim::Sim;
use tora_height::Id;

impl Sim {
    /// Whether an event may be possible now. If the answer is `false`, `step` refuses it.
    ///
    /// `place` is the index of the node among `nodes` for a `CoreTurn`, and of the link end among `ends` for `Open`,
    /// `Pull`, `Transmit` and `Pump`. Only what is stored there is read. If another node or end is there, and for every
    /// other event, the answer is `true`.
    #[inline(always)]
    pub fn may_happen(&self, place: usize, event: &Event) -> bool
        // The node or end at the index has something to do for the event, or is not the one of the event.
        ensures value { result ≡ may_happen self.now.nodes self.now.links self.now.clock place event.now }
        // The answer is true for every event that is possible.
        ensures refused { result ≡ false → is_some (refusal_of (world_of self.now) event.now) ≡ true }
    {
        may_be(
            &self.nodes,
            &self.links,
            &self.keys,
            self.clock,
            place,
            event,
        )
    }
}

/// As `Sim::may_happen`, on the parts of a simulator.
#[inline(always)]
fn may_be(
    nodes: &Vec<NodeSlot>,
    links: &Vec<LinkSlot>,
    keys: &Vec<(Id, Id)>,
    clock: u64,
    place: usize,
    event: &Event,
) -> bool
    requires { keys.now.items ≡ map key_of links.now.items }
    ensures { result ≡ may_happen nodes.now.items links.now.items clock place event.now }
{
    match event {
        Event::Need(_, _) => true,
        Event::Tick => true,
        Event::Open(n, k) => may_open(links, keys, place, *n, *k),
        Event::Pull(n, k) => may_pull(links, keys, place, *n, *k),
        Event::Transmit(n, k) => may_transmit(links, keys, clock, place, *n, *k),
        Event::Deliver(_) => true,
        Event::Pump(n, k) => may_pump(links, keys, place, *n, *k),
        Event::CoreTurn(n) => may_turn(nodes, place, *n),
        Event::Arm(_, _) => true,
        Event::Restart(_, _) => true,
    }
}

/// `false` if node `n` is at the index `place` and no item waits for its core; otherwise `true`.
#[inline(always)]
fn may_turn(nodes: &[NodeSlot], place: usize, n: Id) -> bool
    ensures { result ≡ node_may n (slice_get nodes.now place) }
{
    match nodes.get(place) {
        Some(node) => !node.is_node(n) || node.waiting() > 0,
        None => true,
    }
}

/// Whether the end of node `n` towards `k` is at the index `place`. It reads only the keys.
#[inline(always)]
fn stands_there(_links: &[LinkSlot], keys: &[(Id, Id)], place: usize, n: Id, k: Id) -> bool
    requires keys { keys.now ≡ map key_of _links.now }
    requires within { place < length _links.now }
    ensures { (link : LinkView) → slice_get _links.now place ≡ Some link → result ≡ is_at n k link }
{
    is_key(keys[place], n, k)
}

/// `false` if the end of node `n` towards `k` is at the index `place` and is not closed; otherwise `true`.
#[inline(always)]
fn may_open(links: &[LinkSlot], keys: &[(Id, Id)], place: usize, n: Id, k: Id) -> bool
    requires { keys.now ≡ map key_of links.now }
    ensures { result ≡ end_may n k (λ link. is_closed link.state) (slice_get links.now place) }
{
    match links.get(place) {
        Some(link) => !stands_there(links, keys, place, n, k) || link.is_closed(),
        None => true,
    }
}

/// `false` if the end of node `n` towards `k` is at the index `place` and no outbound message waits for it; otherwise
/// `true`.
#[inline(always)]
fn may_pull(links: &[LinkSlot], keys: &[(Id, Id)], place: usize, n: Id, k: Id) -> bool
    requires { keys.now ≡ map key_of links.now }
    ensures { result ≡ end_may n k has_cargo (slice_get links.now place) }
{
    match links.get(place) {
        Some(link) => !stands_there(links, keys, place, n, k) || link.has_cargo(),
        None => true,
    }
}

/// `false` if the end of node `n` towards `k` is at the index `place` and has no frame due at the tick `clock`;
/// otherwise `true`.
#[inline(always)]
fn may_transmit(
    links: &[LinkSlot],
    keys: &[(Id, Id)],
    clock: u64,
    place: usize,
    n: Id,
    k: Id,
) -> bool
    requires { keys.now ≡ map key_of links.now }
    ensures { result ≡ end_may n k (λ link. is_some (frame_due link.settings link.state clock))
        (slice_get links.now place) }
{
    match links.get(place) {
        Some(link) => !stands_there(links, keys, place, n, k) || link.has_frame_due(clock),
        None => true,
    }
}

/// `false` if the end of node `n` towards `k` is at the index `place` and has no event; otherwise `true`.
#[inline(always)]
fn may_pump(links: &[LinkSlot], keys: &[(Id, Id)], place: usize, n: Id, k: Id) -> bool
    requires { keys.now ≡ map key_of links.now }
    ensures { result ≡ end_may n k (λ link. is_some (first_event link.state)) (slice_get links.now place) }
{
    match links.get(place) {
        Some(link) => !stands_there(links, keys, place, n, k) || link.has_event(),
        None => true,
    }
}
