//! The simulator as the engine uses it.
ghost use Rattle.std.specs.Prelude.{◌≡◌, ◌<◌, ◌≤◌, ℕ, true, false, Some, is_some, length, option_map, slice_get, IfOk};
ghost use Rattle.tora_world.specs.World.{World, refusal_of, world_after, datagram, sent_packets, taken_packets};
ghost use Rattle.tora_world.specs.declared.event.Event.TheVariants.{Transmit, Deliver, CoreTurn};
ghost use Rattle.tora_arq.specs.Settings.{IsTimes};
ghost use Rattle.tora_script.specs.Simulator.{ArePairs, AreIds, Starts, nodes_of};
ghost use Rattle.tora_sim.specs.Cuts.{after_cut_at};
ghost use Rattle.tora_sim.specs.Quiet.{IsQuiet, IsQuietEnd};
ghost use Rattle.tora_sim.specs.Readers.{ends_in};
ghost use Rattle.tora_sim.specs.Steps.{repeats, Happened};
ghost use Rattle.tora_world.specs.Walks.{height_at, hop_at, exact_in, walk_of};
ghost use Rattle.tora_world.specs.Rest.{rests};

use crate::node_marks::Mark;
use crate::setup::WorldOptions;
use std::alloc::{AllocError, Global};
use tora_arq::{Life, Times};
use tora_core::CoreError;
use tora_height::{Entry, Id};
use tora_world::{Event, SimError};

/// A simulated world that the engine can run.
pub trait Simulator: Drop {
    ghost world: { Self → World };

    /// The first world of links and destinations, within the limits of `options`.
    ///
    /// `marks` are the lines about single nodes: which nodes have link ends that speak only version 1 of frames, and
    /// how single nodes treat erased levels. A mark of a node that no link names changes nothing. Each link end has
    /// these times.
    ///
    /// # Errors
    /// `TooMany`, `Repeated` or `OwnId` if there is no such topology within the limits; `Memory` if memory ran out.
    fn start(
        alloc: Global,
        options: WorldOptions,
        links: &[(Id, Id)],
        dests: &[Id],
        marks: &[Mark],
        times: Times,
    ) -> Result<Self, CoreError>
        requires links { ArePairs links.now }
        requires dests { AreIds dests.now }
        requires times { IsTimes times }
        ensures { Starts world options links.now dests.now marks.now times result };

    /// Whether an event may be possible now. If the answer is `false`, `happen` refuses the event.
    ///
    /// It costs less than `happen`, and a round calls it before each turn of a core or a link end. `place` is the index
    /// of the event's node among `nodes`, or of its link end among `ends`. If another node or end is there, or the
    /// event has neither, the answer may be `true` for any event.
    fn may_happen(&self, place: usize, event: &Event) -> bool
        ensures { result ≡ false → is_some (refusal_of (world self.now) event.now) ≡ true };

    /// Whether it is known that nothing is to be done: `happen` refuses every `CoreTurn`, `Open`, `Pull`, `Transmit`
    /// and `Pump`.
    ///
    /// A round calls it before it gives the link ends their turns. `Sim` compares a few deadlines, and reads for each
    /// node how many items wait. `settle` may make it known.
    fn is_quiet(&self) -> bool
        ensures { result ≡ true → IsQuiet (world self.now) };

    /// Whether a core may have an item to take. If the answer is `false`, `happen` refuses every `CoreTurn`.
    ///
    /// A round calls it before the turns of the cores. `Sim` reads for each node how many items wait.
    fn may_turn(&self) -> bool
        ensures { result ≡ false → (n : ℕ) → is_some (refusal_of (world self.now) (CoreTurn n)) ≡ true };

    /// The first index of `nodes` from `place` on at which a core may have an item to take. `happen` refuses a
    /// `CoreTurn` of each skipped node. The default body skips none.
    ///
    /// A round calls it before each core's turn.
    fn next_core(&self, _nodes: &[Id], place: usize) -> usize
        ensures onward { place ≤ result }
        ensures passed { (at n : ℕ) → place ≤ at → at < result → slice_get _nodes.now at ≡ Some n
            → is_some (refusal_of (world self.now) (CoreTurn n)) ≡ true }
    {
        place
    }

    /// Whether `ends` is the list of the link ends of the world, in their order.
    fn has_ends(&self, ends: &[(Id, Id)]) -> bool
        ensures { result ≡ true → ends.now ≡ ends_in (world self.now).topology };

    /// The first index from `place` on, in the order of `ends`, at which a link end may have something to do. `happen`
    /// refuses each `Open`, `Pull`, `Transmit` and `Pump` of a skipped end.
    ///
    /// A round calls it before each end's turn. After `settle` it may skip more ends.
    fn next_due(&self, place: usize) -> usize
        ensures onward { place ≤ result }
        ensures passed { (at : ℕ) (end : ℕ × ℕ) → place ≤ at → at < result
            → slice_get (ends_in (world self.now).topology) at ≡ Some end → IsQuietEnd (world self.now) end.0 end.1 };

    /// Finds out, for `is_quiet`, `next_due` and later ticks, whether nothing is to be done, and until which tick. The
    /// world does not change.
    fn settle(&mut self)
        ensures { world self.new ≡ world self.old };

    /// Makes an event happen and returns `Ok(None)`, or returns why it is refused, which is never `Memory`. A refused
    /// event changes nothing. Fails if memory runs out; the event may have happened then.
    fn happen(&mut self, event: &Event) -> Result<Option<SimError>, AllocError>
        ensures refused { IfOk result (λ refused. refused ≡ refusal_of (world self.old) event.now) }
        ensures after { IfOk result (λ _. world self.new ≡ world_after (world self.old) event.now) };

    /// Makes an event happen as `happen` does. `place` says where to look, as for `may_happen`; if another node or end
    /// is there, it is searched for. The default body always searches.
    fn happen_at(&mut self, _place: usize, event: &Event) -> Result<Option<SimError>, AllocError>
        ensures refused { IfOk result (λ refused. refused ≡ refusal_of (world self.old) event.now) }
        ensures after { IfOk result (λ _. world self.new ≡ world_after (world self.old) event.now) }
    {
        self.happen(event)
    }

    /// Repeats `CoreTurn` of a node until `happen` refuses it, at most `most` times, and returns whether it happened at
    /// all. `place` is the index of the node, as for `may_happen`. The default body makes one event after another; a
    /// simulator may look the node up once.
    fn turn(&mut self, place: usize, n: Id, most: u64) -> Result<bool, AllocError>
        ensures { IfOk result (λ some. Happened (world self.old) (repeats most (CoreTurn n) (world self.old))
            (world self.new) some) }
    {
        let mut some = false;
        for _ in 0..most {
            if !self.may_happen(place, &Event::CoreTurn(n)) {
                return Ok(some);
            }
            let refused = self.happen_at(place, &Event::CoreTurn(n))?;
            match refused {
                None => some = true,
                Some(_) => return Ok(some),
            }
        }
        Ok(some)
    }

    /// Repeats `Transmit` at a link end until `happen` refuses it, at most `most` times, and returns whether it
    /// happened at all. `place` is the index of the end among `ends`; if another end is there, it is searched for.
    ///
    /// It costs less than `may_happen` and `happen` in turn. If memory runs out, the earlier frames are sent.
    fn transmit(&mut self, place: usize, end: (Id, Id), most: u64) -> Result<bool, AllocError>
        ensures { IfOk result (λ some. Happened (world self.old) (repeats most (Transmit end.0 end.1) (world self.old))
            (world self.new) some) };

    /// Repeats `Deliver` of a datagram until `happen` refuses it, at most `most` times, and returns whether it happened
    /// at all.
    fn deliver(&mut self, i: u64, most: u64) -> Result<bool, AllocError>
        ensures { IfOk result (λ some. Happened (world self.old) (repeats most (Deliver i) (world self.old))
            (world self.new) some) };

    /// Cuts the session of a link end, if it is bound, as a link layer does that reports a broken link. Nothing changes
    /// if there is no such link.
    fn cut(&mut self, n: Id, k: Id)
        ensures { world self.new ≡ after_cut_at (world self.old) n k };

    /// The nodes, in ascending order.
    fn nodes(&self, alloc: Global) -> Result<Vec<Id>, AllocError>
        ensures { IfOk result (λ v. v.items ≡ nodes_of (world self.now)) };

    /// The link ends, in ascending order of the node and then of the neighbour.
    fn ends(&self, alloc: Global) -> Result<Vec<(Id, Id)>, AllocError>
        ensures { IfOk result (λ v. v.items ≡ ends_in (world self.now).topology) };

    /// How many datagrams were ever sent; their numbers begin with 1. Those that were lost on sending do not count.
    fn datagrams(&self) -> u64
        ensures { result ≡ length (world self.now).datagrams };

    /// The sender and the receiver of a datagram, by its number from 1. `None` for 0 and for a number that no datagram
    /// has yet.
    fn datagram(&self, i: u64) -> Option<(Id, Id)>
        ensures { result ≡ option_map (λ f. (f.header.sender, f.header.receiver)) (datagram (world self.now) i) };

    /// The height of node `n` for destination `d`, where `Some(None)` is NULL. `None` if there is no such node or
    /// destination.
    fn height(&self, n: Id, d: Id) -> Option<Entry>
        ensures { result ≡ height_at (world self.now) n d };

    /// The next hop of node `n` to destination `d`. `None` if the node has none, or there is no such node or
    /// destination.
    fn next_hop(&self, n: Id, d: Id) -> Option<Id>
        ensures { result ≡ hop_at (world self.now) n d };

    /// How many packets the core of `a` sent to `b` in a session, as the end of `a` writes it; 0 if there is no such
    /// link or session.
    fn sent(&self, a: Id, b: Id, life: Life) -> usize
        ensures { result ≡ length (sent_packets (world self.now) a b life) };

    /// How many packets the core of `b` took from `a` in a session, as the end of `b` writes it; 0 if there is no such
    /// link or session.
    fn taken(&self, b: Id, a: Id, life: Life) -> usize
        ensures { result ≡ length (taken_packets (world self.now) b a life) };

    /// Whether the entries for a destination are exact: each that is not NULL, of any node and any neighbour whose link
    /// is up, is the height of that neighbour.
    fn exact(&self, d: Id) -> bool
        ensures { result ≡ exact_in (world self.now) d };

    /// The nodes from node `n` to destination `d` along next hops, including both. `None` if a node before `d` has no
    /// next hop, or if `d` is not reached within as many hops as there are nodes.
    ///
    /// # Errors
    /// Memory ran out; or there is no such node or destination, which the caller excludes.
    fn walk(&self, alloc: Global, n: Id, d: Id) -> Result<Option<Vec<Id>>, AllocError>
        ensures { IfOk result (λ walk. option_map (λ v. v.items) walk ≡ walk_of (world self.now) n d) };

    /// Whether the world is at rest: nothing waits in a queue or a link end, all packets are acknowledged, and each
    /// link is up at both cores in one session, to which both ends are bound, or at neither.
    fn is_at_rest(&self) -> bool
        ensures { result ≡ rests (world self.now) };
}
