//! The turns of cores and link ends.
ghost use Rattle.std.specs.Prelude.{◌≡◌, ◌<◌, ◌≤◌, ◌||◌, ℕ, true, false, Some, is_some, slice_get, IfOk};
ghost use Rattle.tora_sim.specs.Readers.{ends_in};
ghost use Rattle.tora_world.specs.World.{refusal_of};
ghost use Rattle.tora_world.specs.declared.event.Event.TheVariants.{CoreTurn};
ghost use Rattle.tora_script.specs.Rounds.{repeats, while_possible, each, each_core, end_event, Happened, AreKnown};

use crate::simulator::Simulator;
use std::alloc::AllocError;
use tora_height::Id;
use tora_world::Event;

/// The most times that one event is repeated in a turn.
pub const MOST_TIMES: u64 = 1024;

/// A kind of turn of a link end.
#[derive(Clone, Copy, Debug, PartialEq, Eq)]
pub enum EndTurn {
    Open,
    Pull,
    Transmit,
    Pump,
}

impl EndTurn {
    /// The event of this kind of turn at a link end.
    #[inline(always)]
    pub fn event(self, end: (Id, Id)) -> Event
        ensures { result ≡ end_event self end }
    {
        let (n, k) = end;
        match self {
            EndTurn::Open => Event::Open(n, k),
            EndTurn::Pull => Event::Pull(n, k),
            EndTurn::Transmit => Event::Transmit(n, k),
            EndTurn::Pump => Event::Pump(n, k),
        }
    }
}

/// `a` or `b`, computed without a branch.
pub fn either(a: bool, b: bool) -> bool
    ensures { result ≡ (a || b) }
{
    a || b
}

/// Whether an event may happen again. For an event that has not happened yet the answer is true, because the caller has
/// already asked.
#[inline(always)]
fn may_go_on<S: Simulator>(sim: &S, place: usize, event: &Event, some: bool) -> bool
    ensures { result ≡ false → is_some (refusal_of (S.world sim.now) event.now) ≡ true }
{
    if !some {
        return true;
    }
    sim.may_happen(place, event)
}

/// Makes an event happen until it is refused, at most `most` times, and returns whether it happened at all. `place` is
/// the index of its node or link end. Before the first time the caller asks `may_happen`; before each other time this
/// function does.
#[inline(never)]
pub fn repeat<S: Simulator>(
    sim: &mut S,
    place: usize,
    event: &Event,
    most: u64,
) -> Result<bool, AllocError>
    ensures { IfOk result (λ some. Happened (S.world sim.old) (repeats most event.now (S.world sim.old))
        (S.world sim.new) some) }
{
    let mut some = false;
    for _ in 0..most {
        if !may_go_on(sim, place, event, some) {
            return Ok(some);
        }
        let refused = sim.happen_at(place, event)?;
        match refused {
            None => some = true,
            Some(_) => return Ok(some),
        }
    }
    Ok(some)
}

/// Lets a core take items until it has none, at most `MOST_TIMES`, and returns whether it took any. `place` is the
/// index of its node.
#[inline(always)]
fn turn_core<S: Simulator>(sim: &mut S, place: usize, n: Id) -> Result<bool, AllocError>
    ensures { IfOk result (λ some. Happened (S.world sim.old) (while_possible (CoreTurn n) (S.world sim.old))
        (S.world sim.new) some) }
{
    if !sim.may_happen(place, &Event::CoreTurn(n)) {
        return Ok(false);
    }
    sim.turn(place, n, MOST_TIMES)
}

/// Lets each core take its items, and returns whether any core did. Cores of which the simulator knows that they have
/// no item are skipped.
#[inline(always)]
pub fn turn_cores<S: Simulator>(sim: &mut S, nodes: &[Id]) -> Result<bool, AllocError>
    ensures { IfOk result (λ some. Happened (S.world sim.old) (each_core nodes.now (S.world sim.old)) (S.world sim.new)
        some) }
{
    if !sim.may_turn() {
        return Ok(false);
    }
    let mut some = false;
    let mut place = sim.next_core(nodes, 0);
    while place < nodes.len() {
        let any = turn_core(sim, place, nodes[place])?;
        some = either(some, any);
        place = sim.next_core(nodes, place + 1);
    }
    Ok(some)
}

/// Gives a link end its turn, one event at a time, at most `most` events. Returns whether an event happened.
#[inline(always)]
fn repeat_turn<S: Simulator>(
    sim: &mut S,
    kind: EndTurn,
    place: usize,
    end: (Id, Id),
    most: u64,
) -> Result<bool, AllocError>
    ensures { IfOk result (λ some. Happened (S.world sim.old) (repeats most (end_event kind end) (S.world sim.old))
        (S.world sim.new) some) }
{
    if !sim.may_happen(place, &kind.event(end)) {
        return Ok(false);
    }
    repeat(sim, place, &kind.event(end), most)
}

/// Gives a link end its turn, at most `most` events, and returns whether an event happened. Frames are sent by one call
/// of the simulator, because they are what most ends have to do in most rounds.
#[inline(always)]
pub fn turn_end<S: Simulator>(
    sim: &mut S,
    kind: EndTurn,
    place: usize,
    end: (Id, Id),
    most: u64,
) -> Result<bool, AllocError>
    ensures { IfOk result (λ some. Happened (S.world sim.old) (repeats most (end_event kind end) (S.world sim.old))
        (S.world sim.new) some) }
{
    match kind {
        EndTurn::Open => repeat_turn(sim, kind, place, end, most),
        EndTurn::Pull => repeat_turn(sim, kind, place, end, most),
        EndTurn::Transmit => sim.transmit(place, end, most),
        EndTurn::Pump => repeat_turn(sim, kind, place, end, most),
    }
}

/// The first index from `place` on at which a link end may have a turn, if `known` says that `_ends` are the ends of
/// the simulator. Otherwise `place`.
#[inline(always)]
pub fn next_place<S: Simulator>(sim: &S, known: bool, _ends: &[(Id, Id)], place: usize) -> usize
    requires { AreKnown known _ends.now (S.world sim.now) }
    ensures onward { place ≤ result }
    ensures passed { (kind : EndTurn) (at : ℕ) (end : ℕ × ℕ) → place ≤ at → at < result
        → slice_get _ends.now at ≡ Some end
        → is_some (refusal_of (S.world sim.now) (end_event kind end)) ≡ true }
{
    if known { sim.next_due(place) } else { place }
}

/// Gives each link end its turn, at most `most` events each, and returns whether an event happened. If `known`, the
/// ends that have nothing to do are skipped.
#[inline(always)]
pub fn turn_known_ends<S: Simulator>(
    sim: &mut S,
    known: bool,
    ends: &[(Id, Id)],
    kind: EndTurn,
    most: u64,
) -> Result<bool, AllocError>
    requires { AreKnown known ends.now (S.world sim.old) }
    ensures { IfOk result (λ some. Happened (S.world sim.old) (each (λ e. repeats most (end_event kind e)) ends.now
        (S.world sim.old)) (S.world sim.new) some) }
{
    if sim.is_quiet() {
        return Ok(false);
    }
    let mut some = false;
    let mut place = next_place(sim, known, ends, 0);
    while place < ends.len() {
        let any = turn_end(sim, kind, place, ends[place], most)?;
        some = either(some, any);
        place = next_place(sim, known, ends, place + 1);
    }
    Ok(some)
}

/// Whether `ends` are known to be the link ends of the simulator. If nothing is to be done, the answer is false and
/// they are not compared.
#[inline(always)]
pub fn are_known<S: Simulator>(sim: &S, ends: &[(Id, Id)]) -> bool
    ensures { AreKnown result ends.now (S.world sim.now) }
{
    !sim.is_quiet() && sim.has_ends(ends)
}
