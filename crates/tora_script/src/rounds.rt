//! Rounds of a simulation.
ghost use Rattle.std.specs.Prelude.{◌≡◌, IfOk};
ghost use Rattle.tora_world.specs.World.{datagram, world_after_all};
ghost use Rattle.tora_script.specs.Table.{over};
ghost use Rattle.tora_script.specs.InFlight.{moment_view};
ghost use Rattle.tora_script.specs.Rounds.{arrival_of, arrival, arrivals, pass, passes, round, after_round, rounds};
ghost use Rattle.tora_script.specs.Rounds.{sky_of, Happened, AreKnown};

use crate::deliveries::deliver_new;
use crate::in_flight::{InFlight, Moment};
use crate::network::Network;
use crate::simulator::Simulator;
use crate::turns::{EndTurn, MOST_TIMES, either, repeat, turn_cores, turn_known_ends};
use std::alloc::AllocError;
use tora_height::Id;
use tora_world::Event;

/// The most passes of a round.
pub const MOST_PASSES: u64 = 1000;

/// Delivers datagram `i`, which was sent before the round, unless its nodes are parted. Returns whether it was
/// delivered.
fn arrive<S: Simulator>(sim: &mut S, moment: &Moment<'_>, i: u64) -> Result<bool, AllocError>
    ensures { IfOk result (λ some. Happened (S.world sim.old) (arrival_of moment.now.network.parted.now i
        (datagram (S.world sim.old) i) (S.world sim.old)) (S.world sim.new) some) }
{
    let Some((sender, receiver)) = sim.datagram(i) else {
        return Ok(false);
    };
    if moment.is_parted(sender, receiver) {
        return Ok(false);
    }
    sim.deliver(i, 1)
}

/// Delivers a delayed datagram, if it arrives in this round and its nodes are not parted. `copy` is in how many rounds
/// it arrives, at most 1 for this one, and its number. Returns whether it was delivered.
fn arrive_in<S: Simulator>(
    sim: &mut S,
    moment: &Moment<'_>,
    copy: (u64, u64),
) -> Result<bool, AllocError>
    ensures { IfOk result (λ some. Happened (S.world sim.old) (arrival moment.now.network.parted.now copy
        (S.world sim.old)) (S.world sim.new) some) }
{
    if 1 < copy.0 {
        return Ok(false);
    }
    arrive(sim, moment, copy.1)
}

/// Delivers the delayed datagrams that arrive in this round, except between parted nodes. Returns whether any was
/// delivered.
fn arrive_all<S: Simulator>(
    sim: &mut S,
    moment: &Moment<'_>,
    later: &[(u64, u64)],
) -> Result<bool, AllocError>
    ensures { IfOk result (λ some. Happened (S.world sim.old) (arrivals moment.now.network.parted.now later.now
        (S.world sim.old)) (S.world sim.new) some) }
{
    let mut some = false;
    for (place, copy) in later.iter().enumerate() {
        let any = arrive_in(sim, moment, *copy)?;
        some = either(some, any);
    }
    Ok(some)
}

/// Makes one pass, and returns whether an event happened in it.
#[tactic(auto, unfolding(crate::specs::Rounds::pass))]
fn pass<S: Simulator>(sim: &mut S, moment: &Moment<'_>) -> Result<bool, AllocError>
    requires { AreKnown moment.now.is_known moment.now.network.ends.now (S.world sim.old) }
    ensures { IfOk result (λ some. Happened (S.world sim.old)
        (pass moment.now.network.nodes.now moment.now.network.ends.now moment.now.network.parted.now
        (moment_view moment.now) (S.world sim.old))
        (S.world sim.new) some) }
{
    let (known, ends) = (moment.is_known, moment.network.ends);
    let first = sim.datagrams();
    let turned = turn_cores(sim, moment.network.nodes)?;
    let pulled = turn_known_ends(sim, known, ends, EndTurn::Pull, MOST_TIMES)?;
    let sent = turn_known_ends(sim, known, ends, EndTurn::Transmit, MOST_TIMES)?;
    let delivered = deliver_new(sim, moment, first)?;
    let pumped = turn_known_ends(sim, known, ends, EndTurn::Pump, MOST_TIMES)?;
    Ok(either(
        turned,
        either(pulled, either(sent, either(delivered, pumped))),
    ))
}

/// Makes passes until one has no event, at most `MOST_PASSES`.
fn make_passes<S: Simulator>(sim: &mut S, moment: &Moment<'_>) -> Result<(), AllocError>
    requires { AreKnown moment.now.is_known moment.now.network.ends.now (S.world sim.old) }
    ensures { IfOk result (λ _. S.world sim.new ≡ world_after_all (S.world sim.old)
        (passes MOST_PASSES moment.now.network.nodes.now moment.now.network.ends.now moment.now.network.parted.now
        (moment_view moment.now)
        (S.world sim.old))) }
{
    for _ in 0..MOST_PASSES {
        if !pass(sim, moment)? {
            return Ok(());
        }
        sim.settle();
    }
    Ok(())
}

/// Makes the events of one round happen: the tick, an opening of each closed end, the delayed datagrams that arrive,
/// and the passes.
#[tactic(auto, unfolding(crate::specs::Rounds::round))]
fn round<S: Simulator>(
    sim: &mut S,
    moment: &Moment<'_>,
    later: &[(u64, u64)],
) -> Result<(), AllocError>
    requires { AreKnown moment.now.is_known moment.now.network.ends.now (S.world sim.old) }
    ensures { IfOk result (λ _. S.world sim.new ≡ world_after_all (S.world sim.old)
        (round moment.now.network.nodes.now moment.now.network.ends.now moment.now.network.parted.now
        (moment_view moment.now) later.now
        (S.world sim.old))) }
{
    repeat(sim, 0, &Event::Tick, 1)?;
    turn_known_ends(sim, moment.is_known, moment.network.ends, EndTurn::Open, 1)?;
    arrive_all(sim, moment, later)?;
    make_passes(sim, moment)?;
    Ok(())
}

/// Makes one round, and updates the datagrams in flight.
#[tactic(auto, unfolding(crate::specs::Rounds::after_round))]
fn make_round<S: Simulator>(
    sim: &mut S,
    is_known: bool,
    network: &Network<'_>,
    in_flight: &mut InFlight,
) -> Result<(), AllocError>
    requires { AreKnown is_known network.now.ends.now (S.world sim.old) }
    ensures { IfOk result (λ _. sky_of S.world sim.new in_flight.new
        ≡ after_round network.now.nodes.now network.now.ends.now network.now.parted.now
        (over network.now.table.now network.now.channel)
        (sky_of S.world sim.old in_flight.old)) }
{
    let alloc = *in_flight.later.allocator();
    let moment = Moment {
        network: *network,
        is_known,
        round: in_flight.round,
        start: sim.datagrams(),
        alloc,
    };
    round(sim, &moment, &in_flight.later)?;
    in_flight.go_on(sim, &moment)
}

/// Makes `count` rounds in a network, and updates the delayed datagrams. With 0 nothing changes.
///
/// # Errors
/// Memory ran out. Some of the events may have happened.
pub fn make_rounds<S: Simulator>(
    sim: &mut S,
    count: u64,
    network: &Network<'_>,
    in_flight: &mut InFlight,
) -> Result<(), AllocError>
    ensures { IfOk result (λ _. sky_of S.world sim.new in_flight.new
        ≡ rounds count network.now.nodes.now network.now.ends.now network.now.parted.now
        (over network.now.table.now network.now.channel)
        (sky_of S.world sim.old in_flight.old)) }
{
    let is_known = sim.has_ends(network.ends);
    for _ in 0..count {
        make_round(sim, is_known, network, in_flight)?;
    }
    Ok(())
}
