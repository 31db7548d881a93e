//! The nodes: the core of each, and its queue of items.
ghost use Rattle.std.specs.Prelude.{◌≡◌, ◌<◌, ◌≤◌, ◌+◌, ◌++◌, ℕ, None, Some, IfSome, IfNone, IfOk, IfErr, OnErr, OnOk};
ghost use Rattle.std.specs.Prelude.{MatchResult, find, length, map, replicate, slice_index, vec_len, vec_capacity};
ghost use Rattle.tora_core.specs.CoreRun.{core_refusal_within};
ghost use Rattle.tora_core.specs.declared.TheConstants.{GREATEST_NEIGHBOURS, MOST_DESTINATIONS};
ghost use Rattle.tora_core.specs.Kept.{IsCore, destinations_of};
ghost use Rattle.tora_seat.specs.Rows.{first_seat};
ghost use Rattle.tora_sim.specs.Restarts.{core_again, restarted_node};
ghost use Rattle.tora_sim.specs.Turns.{IsServed};
ghost use Rattle.tora_sim.specs.Keyed.{IsFirst};
ghost use Rattle.tora_sim.specs.Nodes.{NodeView, is_of, AreRising, after_item};

use crate::SimError;
use crate::lanes::NodeLanes;
use crate::queue::Queue;
use std::alloc::{AllocError, Global};
use std::marker::Model;
use tora_core::{Core, CoreLimits, Input, Sends, tables_stay};
use tora_height::Id;
use tora_seat::{
    BareSeat, Item, Stepped, What, accepted_inputs_make_the_core, items_step_few_inputs,
    offers_are_their_own_answers,
};

/// What happens to the next datagram that a node sends: it is sent (`Goes`), the call fails and it is not sent
/// (`IsLost`), or the call fails although it is sent (`IsGone`).
#[derive(Clone, Copy, Debug, PartialEq, Eq)]
pub enum Sending {
    Goes,
    IsLost,
    IsGone,
}

/// A node, with the queue into its core. The fields that a round and a datagram read come first.
#[derive(Drop)]
pub struct NodeSlot {
    pub(crate) node: Id,
    pub(crate) sending: Sending,
    /// Whether the receive of the next datagram for this node is armed to fail.
    pub(crate) receive: bool,
    /// The queue into its core.
    pub(crate) items: Queue<Item>,
    /// The index of its first link end among all link ends.
    pub(crate) first: usize,
    /// The number of its neighbours.
    pub(crate) count: usize,
    /// How many items each source (`Item::seat`) has put since the node's last restart: the neighbours in order, and
    /// then the commands.
    pub(crate) counts: Vec<u64>,
    /// The inputs that its core accepted since the node's last restart, each with its tick.
    pub(crate) inputs: Vec<(Input, u64)>,
    /// The seat of its core, in a box, so that the nodes are close together in memory.
    pub(crate) seat: Box<BareSeat>,
}

impl Model for NodeSlot {
    ghost use Rattle.tora_sim.specs.Nodes.{NodeView, node_of};

    ghost Value = { NodeView };

    ghost view = { λ s. node_of s.node s.first s.count s.seat.value s.inputs.items s.items.items s.counts.items
        s.sending s.receive };
}

impl NodeSlot {
    /// The number of the node; the nodes are in the order of these numbers.
    #[inline(always)]
    pub fn key(&self) -> Id
        ensures { result ≡ self.now.node }
    {
        self.node
    }

    /// Whether this is node `n`.
    #[inline(always)]
    pub fn is_node(&self, n: Id) -> bool
        ensures { result ≡ is_of n self.now }
    {
        self.node == n
    }

    /// The number of neighbours.
    pub fn count(&self) -> usize
        ensures { result ≡ self.now.count }
    {
        self.count
    }

    /// How many items wait for the core.
    #[inline(always)]
    pub fn waiting(&self) -> usize
        ensures { result ≡ length self.now.items }
    {
        self.items.len()
    }

    /// What happens to the next datagram that this node sends.
    #[inline(always)]
    pub fn sending(&self) -> Sending
        ensures { result ≡ self.now.sending }
    {
        self.sending
    }

    /// Sets what happens to the next datagram that this node sends.
    #[inline(always)]
    pub fn arm_sending(&mut self, sending: Sending)
        ensures { self.new ≡ record self.old { sending = sending } }
    {
        self.sending = sending;
    }

    /// Whether the receive of the next datagram for this node is armed to fail.
    #[inline(always)]
    pub fn receive(&self) -> bool
        ensures { result ≡ self.now.receive }
    {
        self.receive
    }

    /// Arms its next receive to fail, or disarms it.
    #[inline(always)]
    pub fn arm_receive(&mut self, receive: bool)
        ensures { self.new ≡ record self.old { receive = receive } }
    {
        self.receive = receive;
    }

    /// Puts an item into the queue.
    ///
    /// # Errors
    /// `Memory`, also if the source `seat` has put 2^64 - 1 items. Nothing changes then.
    pub fn put_item(&mut self, seat: usize, now: u64, what: What) -> Result<(), SimError>
        requires { seat < length self.old.counts }
        ensures { MatchResult result (λ _. self.new ≡ after_item self.old seat now what) (λ e. (e ≡ SimError.Memory)
            × (self.new ≡ self.old)) }
    {
        let Some(number) = self.counts[seat].checked_add(1) else {
            return Err(SimError::Memory);
        };
        let item = Item {
            seat,
            number,
            now,
            what,
        };
        if self.items.push(item).is_err() {
            return Err(SimError::Memory);
        }
        self.counts[seat] = number;
        Ok(())
    }

    /// The index of its first link end among all link ends.
    pub fn first(&self) -> usize
        ensures { result ≡ self.now.first }
    {
        self.first
    }

    /// The packet that the core took for the item served last; `None` if it took none.
    pub fn stepped(&self) -> Option<Stepped>
        ensures { result ≡ self.now.seat.stepped }
    {
        self.seat.stepped()
    }

    /// A new seat, whose core has the same node, choice of erasure, neighbours and destinations.
    ///
    /// # Errors
    /// Only `Memory`: the same lists were accepted before.
    pub fn new_seat(&self, alloc: Global) -> Result<BareSeat, SimError>
        ensures made { IfOk result (λ seat. seat ≡ first_seat (core_again self.now.seat.core)) }
        ensures kept { IsCore self.now.seat.core }
        ensures accepted { core_refusal_within GREATEST_NEIGHBOURS MOST_DESTINATIONS self.now.seat.core.me
            self.now.seat.core.neighbours (destinations_of self.now.seat.core.views) ≡ None }
        ensures memory { IfErr result (λ e. e ≡ SimError.Memory) }
    {
        let core = self.seat.core();
        match Core::with_erasure(
            alloc,
            core.erasure(),
            CoreLimits::GREATEST,
            core.me(),
            core.neighbours(),
            core.destinations(),
        ) {
            Ok(again) => match BareSeat::new(alloc, again) {
                Ok(seat) => Ok(seat),
                Err(_) => Err(SimError::Memory),
            },
            // The core is not refused for another reason.
            Err(_) => Err(SimError::Memory),
        }
    }

    /// Replaces its seat by a new one, empties the queue, forgets the accepted inputs, and sets the counts of items to
    /// 0.
    pub fn restart(&mut self, seat: BareSeat)
        ensures { self.new ≡ restarted_node seat self.old }
    {
        *self.seat = seat;
        self.inputs.clear();
        self.items.clear();
        self.counts.fill(0);
    }

    /// Serves the first item of the queue, and returns that item. Offers outbound messages to the queues to the
    /// neighbours, and records the inputs that the core accepted.
    ///
    /// # Errors
    /// `Memory`. Nothing changes then.
    pub fn serve(&mut self, sends: &mut Sends, lanes: &mut NodeLanes) -> Result<Item, SimError>
        requires waits { 0 < length self.old.items }
        requires neighbours { length self.old.seat.core.neighbours ≤ lanes.old.count }
        ensures served { IfOk result (λ item. IsServed self.old lanes.old item self.new lanes.new) }
        ensures memory { IfErr result (λ e. e ≡ SimError.Memory) }
        ensures kept { OnErr result ((self.new ≡ self.old) × (lanes.new ≡ lanes.old)) }
    {
        let core = self.seat.core();
        let _me = core.me();
        let most = core.neighbours().len() + 2;
        if make_room(&mut self.inputs, most).is_err() {
            return Err(SimError::Memory);
        }
        match self.items.pop() {
            Some(item) => {
                items_step_few_inputs();
                offers_are_their_own_answers();
                accepted_inputs_make_the_core();
                tables_stay();
                self.seat.serve(&item, sends, lanes);
                note_inputs(&mut self.inputs, self.seat.inputs(), item.now);
                Ok(item)
            }
            None => unreachable!(),
        }
    }
}

/// Counts of items for `seats` sources, all 0.
///
/// # Errors
/// `Memory`.
pub fn no_counts(alloc: Global, seats: usize) -> Result<Vec<u64>, SimError>
    ensures { MatchResult result (λ counts. counts.items ≡ replicate seats 0) (λ e. e ≡ SimError.Memory) }
{
    let mut counts = Vec::new(alloc);
    match counts.resize(seats, 0) {
        Ok(()) => Ok(counts),
        Err(_) => Err(SimError::Memory),
    }
}

/// Makes room for `most` more inputs, and for three times as many as there are if the list must grow, so that it seldom
/// moves.
///
/// # Errors
/// Memory ran out.
#[inline(always)]
fn make_room(inputs: &mut Vec<(Input, u64)>, most: usize) -> Result<(), AllocError>
    ensures items { inputs.new.items ≡ inputs.old.items }
    ensures room { OnOk result (vec_len inputs.new + most ≤ vec_capacity inputs.new) }
{
    if most <= inputs.capacity() - inputs.len() {
        return Ok(());
    }
    let more = inputs.len().saturating_mul(3);
    inputs.reserve(most.max(more))
}

/// Appends the inputs that a core accepted at the tick `now`, each with that tick. The list has room for them.
fn note_inputs(inputs: &mut Vec<(Input, u64)>, accepted: &[Input], now: u64)
    requires { vec_len inputs.old + length accepted.now ≤ vec_capacity inputs.old }
    ensures { inputs.new.items ≡ inputs.old.items ++ map (λ input. (input, now)) accepted.now }
{
    for input in accepted {
        inputs.push_reserved((*input, now));
    }
}

/// The index of node `n`; `None` if there is no such node.
pub fn place(nodes: &Vec<NodeSlot>, n: Id) -> Option<usize>
    requires { AreRising nodes.now.items }
    ensures first { IfSome result (λ i. IsFirst (is_of n) nodes.now.items i) }
    ensures none { IfNone result (find (is_of n) nodes.now.items ≡ None) }
{
    search(nodes, n)
}

/// The index of node `n`; `None` if there is no such node. The nodes are searched only if it is not at the index `at`.
#[inline(always)]
pub fn node_near(nodes: &Vec<NodeSlot>, at: usize, n: Id) -> Option<usize>
    requires { AreRising nodes.now.items }
    ensures first { IfSome result (λ i. IsFirst (is_of n) nodes.now.items i) }
    ensures none { IfNone result (find (is_of n) nodes.now.items ≡ None) }
{
    match near(nodes, at, n) {
        Some(at) => Some(at),
        None => search(nodes, n),
    }
}

/// The index `place` if node `n` is there; otherwise `None`.
#[inline(always)]
fn near(nodes: &[NodeSlot], place: usize, n: Id) -> Option<usize>
    requires { AreRising nodes.now }
    ensures { IfSome result (λ i. IsFirst (is_of n) nodes.now i) }
{
    match nodes.get(place) {
        Some(node) => { if node.is_node(n) { Some(place) } else { None } }
        None => None,
    }
}

/// The index of node `n`, found by a binary search; `None` if there is no such node.
fn search(nodes: &[NodeSlot], n: Id) -> Option<usize>
    requires { AreRising nodes.now }
    ensures first { IfSome result (λ i. IsFirst (is_of n) nodes.now i) }
    ensures none { IfNone result (find (is_of n) nodes.now ≡ None) }
{
    nodes.binary_search_by_key(&n, |node| node.key()).ok()
}
