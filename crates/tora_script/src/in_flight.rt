//! The copies of datagrams that the channel delays to later rounds. For its random numbers, the earlier datagrams of a
//! round in the same direction are counted.
ghost use Rattle.std.specs.Prelude.{◌≡◌, ◌+◌, ◌-◌, ◌++◌, ◌<◌, Option, Some, length, option_map, IfOk, OnOk, true};
ghost use Rattle.tora_frame.specs.FrameParts.{FrameParts};
ghost use Rattle.tora_script.specs.Table.{over, copies_on};
ghost use Rattle.tora_world.specs.World.{datagram};
ghost use Rattle.tora_script.specs.InFlight.{moment_view, IsClear, goes, gone, copies_in, at_once, is_now, later_copy};
ghost use Rattle.tora_script.specs.InFlight.{later_copies, put_off_of, put_off, still_later, first_in_flight};
ghost use Rattle.tora_script.specs.InFlight.{in_flight_after, in_flight_view};
ghost use Rattle.tora_script.specs.Parted.{is_parted};
ghost use Rattle.tora_script.specs.DirectionCounts.{direction_in, AreCounted};

use crate::channel::{Copies, Place};
use crate::direction_counts::DirectionCounts;
use crate::network::Network;
use crate::simulator::Simulator;
use std::alloc::{AllocError, Global};
use tora_height::Id;

/// The number of rounds so far, and the datagrams that arrive in later rounds.
#[derive(Drop)]
pub struct InFlight {
    /// The number of rounds so far, modulo 2^64.
    pub round: u64,
    /// For each delayed copy: in how many rounds it arrives (1: in the next round), and the number of its datagram.
    pub later: Vec<(u64, u64)>,
}

impl InFlight {
    /// The state before the first round.
    pub fn new(alloc: Global) -> InFlight
        ensures { in_flight_view result ≡ first_in_flight }
    {
        InFlight {
            round: 0,
            later: Vec::new(alloc),
        }
    }
}

/// A round: its network, and how many rounds and datagrams there were before it.
#[derive(Clone, Copy)]
pub struct Moment<'a> {
    pub network: Network<'a>,
    /// Whether it is known that the network's link ends are those of the simulator, in its order.
    pub is_known: bool,
    /// The number of rounds before this one.
    pub round: u64,
    /// The number of datagrams sent before this round.
    pub start: u64,
    /// The allocator that the round uses.
    pub alloc: Global,
}

impl Moment<'_> {
    /// Whether the table has no lines and the channel is clear: then each datagram arrives at once, and once.
    #[inline(always)]
    pub fn is_clear(&self) -> bool
        ensures { result ≡ true → IsClear (moment_view self.now) }
    {
        self.network.table.is_clear(self.network.channel)
    }

    /// Whether two nodes are parted.
    #[inline(always)]
    pub fn is_parted(&self, a: Id, b: Id) -> bool
        ensures { result ≡ is_parted self.now.network.parted.now a b }
    {
        self.network.parted.is_parted(a, b)
    }
}

/// 1 if the datagram exists and was sent in this direction, otherwise 0.
fn goes(direction: (Id, Id), datagram: Option<(Id, Id)>) -> u64
    ensures bound { result < 2 }
    ensures value { (f : Option FrameParts) → datagram ≡ option_map (λ f. (f.header.sender, f.header.receiver)) f
        → result ≡ goes direction f }
{
    let Some((sender, receiver)) = datagram else {
        return 0;
    };
    if sender == direction.0 && receiver == direction.1 {
        1
    } else {
        0
    }
}

/// How many of the datagrams numbered `first` + 1 to `end` were sent in this direction.
#[tactic(auto, unfolding(crate::specs::InFlight::gone))]
fn gone<S: Simulator>(sim: &S, direction: (Id, Id), first: u64, end: u64) -> u64
    ensures { result ≡ gone (S.world sim.now) direction first (end - first) }
{
    let mut gone = 0u64;
    for i in first..end {
        gone += goes(direction, sim.datagram(i + 1));
    }
    gone
}

/// The copies of datagram `i`, which was sent in this direction: how many rounds each is delayed.
pub fn copies<S: Simulator>(sim: &S, moment: &Moment<'_>, i: u64, direction: (Id, Id)) -> Copies
    ensures { result ≡ copies_in (moment_view moment.now) i direction (S.world sim.now) }
{
    if moment.is_clear() {
        return Copies {
            first: Some(0),
            second: None,
        };
    }
    let before = gone(sim, direction, moment.start, i.saturating_sub(1));
    copies_behind(moment, direction, before)
}

/// The copies of a datagram in this direction, after `before` earlier ones of its round in the same direction.
fn copies_behind(moment: &Moment<'_>, direction: (Id, Id), before: u64) -> Copies
    ensures { result ≡ copies_on (over moment.now.network.table.now moment.now.network.channel)
        (record { round = moment.now.round; sender = direction.0; receiver = direction.1; before = before }) }
{
    let place = Place {
        round: moment.round,
        sender: direction.0,
        receiver: direction.1,
        before,
    };
    moment.network.table.copies(moment.network.channel, place)
}

/// As `copies`, for a datagram whose earlier ones in the round are counted in `counts`; afterwards it is counted, too.
/// Fails as `DirectionCounts::count` does.
pub fn counted_copies<S: Simulator>(
    _sim: &S,
    moment: &Moment<'_>,
    i: u64,
    direction: (Id, Id),
    counts: &mut DirectionCounts,
) -> Result<Copies, AllocError>
    requires behind { moment.now.start < i }
    requires going { direction_in (datagram (S.world _sim.now) i) ≡ Some direction }
    requires counted { AreCounted (S.world _sim.now) counts.old moment.now.start (i - 1 - moment.now.start) }
    ensures copies { IfOk result (λ copies. copies ≡ copies_in (moment_view moment.now) i direction (S.world
        _sim.now)) }
    ensures counted { OnOk result (AreCounted (S.world _sim.now) counts.new moment.now.start (i - moment.now.start)) }
{
    let before = counts.times(direction);
    counts.count(direction)?;
    Ok(copies_behind(moment, direction, before))
}

/// How many copies arrive in the pass in which they are sent, for the delay of one copy: 1 for `Some(0)`, 0 for a
/// longer delay, and 0 for `None`, no copy.
fn is_now(delay: Option<u64>) -> u64
    ensures value { result ≡ is_now delay }
    ensures bound { result < 2 }
{
    match delay {
        Some(0) => 1,
        Some(_) => 0,
        None => 0,
    }
}

/// How many copies of a datagram arrive in the pass in which it is sent.
pub fn at_once(copies: Copies) -> u64
    ensures { result ≡ at_once copies }
{
    is_now(copies.first) + is_now(copies.second)
}

impl InFlight {
    /// Stores a copy of datagram `i`, if it arrives in a later round. `delay` is in rounds; 0 means that it arrives at
    /// once, and `None` that there is no copy.
    fn note(&mut self, i: u64, delay: Option<u64>) -> Result<(), AllocError>
        ensures later { OnOk result (self.new.later.items ≡ self.old.later.items ++ later_copy i delay) }
        ensures round { self.new.round ≡ self.old.round }
    {
        match delay {
            None => Ok(()),
            Some(0) => Ok(()),
            Some(rounds) => {
                self.later.push((rounds, i))?;
                Ok(())
            }
        }
    }

    /// Stores those copies of a datagram that arrive in later rounds.
    fn note_both(&mut self, i: u64, copies: Copies) -> Result<(), AllocError>
        ensures later { OnOk result (self.new.later.items ≡ self.old.later.items ++ later_copies i copies) }
        ensures round { self.new.round ≡ self.old.round }
    {
        self.note(i, copies.first)?;
        self.note(i, copies.second)
    }

    /// Stores the copies of a datagram that arrive in later rounds, unless its nodes are parted. Counts the datagram.
    fn put_off_one<S: Simulator>(
        &mut self,
        sim: &S,
        moment: &Moment<'_>,
        i: u64,
        counts: &mut DirectionCounts,
    ) -> Result<(), AllocError>
        requires behind { moment.now.start < i }
        requires counted { AreCounted (S.world sim.now) counts.old moment.now.start (i - 1 - moment.now.start) }
        ensures later { OnOk result (self.new.later.items ≡ self.old.later.items
            ++ put_off_of moment.now.network.parted.now (moment_view moment.now) i (S.world sim.now)
            (datagram (S.world sim.now) i)) }
        ensures round { self.new.round ≡ self.old.round }
        ensures counted { OnOk result (AreCounted (S.world sim.now) counts.new moment.now.start (i -
            moment.now.start)) }
    {
        let Some(direction) = sim.datagram(i) else {
            return Ok(());
        };
        let copies = counted_copies(sim, moment, i, direction, counts)?;
        if moment.is_parted(direction.0, direction.1) {
            return Ok(());
        }
        self.note_both(i, copies)?;
        Ok(())
    }

    /// Stores the copies that arrive in later rounds, of all datagrams sent since the round began. Over a clear channel
    /// there are none.
    #[tactic(auto, unfolding(crate::specs::InFlight::put_off))]
    fn put_off<S: Simulator>(&mut self, sim: &S, moment: &Moment<'_>) -> Result<(), AllocError>
        ensures later { OnOk result (self.new.later.items ≡ self.old.later.items
            ++ put_off moment.now.network.parted.now (moment_view moment.now)
            (length (S.world sim.now).datagrams - moment.now.start) (S.world sim.now)) }
        ensures round { self.new.round ≡ self.old.round }
    {
        if moment.is_clear() {
            return Ok(());
        }
        let mut counts = DirectionCounts::new(moment.alloc);
        for i in moment.start..sim.datagrams() {
            self.put_off_one(sim, moment, i + 1, &mut counts)?;
        }
        Ok(())
    }

    /// Removes the copies that arrived in this round, and lowers the delay of the others by 1.
    fn pass_on(&mut self) -> Result<(), AllocError>
        ensures later { OnOk result (self.new.later.items ≡ still_later self.old.later.items) }
        ensures round { self.new.round ≡ self.old.round }
    {
        if self.later.is_empty() {
            return Ok(());
        }
        let alloc = *self.later.allocator();
        let later = self.later.iter().filter(|p| 1 < p.0);
        self.later = later
            .map(|p| (p.0 - 1, p.1))
            .collect::<Vec<(u64, u64)>>(alloc)?;
        Ok(())
    }

    /// Ends a round after its last pass: updates the delayed copies, and advances the number of the round.
    pub fn go_on<S: Simulator>(&mut self, sim: &S, moment: &Moment<'_>) -> Result<(), AllocError>
        ensures { OnOk result (in_flight_view self.new ≡ in_flight_after moment.now.network.parted.now (moment_view
            moment.now)
            (in_flight_view self.old) (S.world sim.now)) }
    {
        self.pass_on()?;
        self.put_off(sim, moment)?;
        self.round = self.round.wrapping_add(1);
        Ok(())
    }
}
