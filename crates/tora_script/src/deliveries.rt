//! The deliveries of a pass.
ghost use Rattle.std.specs.Prelude.{◌≡◌, ◌<◌, ◌≤◌, ◌-◌, true, IfOk, OnOk};
ghost use Rattle.tora_world.specs.World.{datagram};
ghost use Rattle.tora_script.specs.InFlight.{moment_view, IsClear};
ghost use Rattle.tora_script.specs.Rounds.{Happened, delivery, new_deliveries};
ghost use Rattle.tora_script.specs.DirectionCounts.{AreCounted};

use crate::direction_counts::DirectionCounts;
use crate::in_flight::{Moment, at_once, copies, counted_copies};
use crate::simulator::Simulator;
use crate::turns::either;
use std::alloc::{AllocError, Global};

/// Delivers the datagrams numbered above `first`, as often as the channel lets each arrive in the pass in which it was
/// sent, but none between parted nodes. Returns whether any was delivered.
///
/// What the channel does with a datagram depends on how many earlier ones of its round were sent in the same direction,
/// so the datagrams are counted as they are delivered.
pub fn deliver_new<S: Simulator>(
    sim: &mut S,
    moment: &Moment<'_>,
    first: u64,
) -> Result<bool, AllocError>
    ensures { IfOk result (λ some. Happened (S.world sim.old) (new_deliveries moment.now.network.parted.now
        (moment_view moment.now) first (S.world sim.old)) (S.world sim.new) some) }
{
    if moment.is_clear() {
        return deliver_clear(sim, moment, first);
    }
    if is_to_count(sim, moment, first) {
        deliver_counted(sim, moment, first)
    } else {
        deliver_each(sim, moment, first)
    }
}

/// Whether there are datagrams numbered above `first`, and all of them were sent in this round, so that they are
/// counted by direction.
fn is_to_count<S: Simulator>(sim: &S, moment: &Moment<'_>, first: u64) -> bool
    ensures { result ≡ true → moment.now.start ≤ first }
{
    if first < moment.start {
        return false;
    }
    first < sim.datagrams()
}

/// Delivers datagram `i` over a clear channel, at once and once, unless its nodes are parted. Returns whether it was
/// delivered.
#[inline(always)]
fn deliver_once<S: Simulator>(sim: &mut S, moment: &Moment<'_>, i: u64) -> Result<bool, AllocError>
    requires { IsClear (moment_view moment.now) }
    ensures { IfOk result (λ some. Happened (S.world sim.old) (delivery moment.now.network.parted.now
        (moment_view moment.now) i (S.world sim.old)) (S.world sim.new) some) }
{
    let Some(direction) = sim.datagram(i) else {
        return Ok(false);
    };
    if moment.is_parted(direction.0, direction.1) {
        return Ok(false);
    }
    let some = sim.deliver(i, 1)?;
    Ok(some)
}

/// Delivers the datagrams numbered above `first` over a clear channel. It is not inlined, so that its loop has
/// registers of its own.
#[inline(never)]
fn deliver_clear<S: Simulator>(
    sim: &mut S,
    moment: &Moment<'_>,
    first: u64,
) -> Result<bool, AllocError>
    requires { IsClear (moment_view moment.now) }
    ensures { IfOk result (λ some. Happened (S.world sim.old) (new_deliveries moment.now.network.parted.now
        (moment_view moment.now) first (S.world sim.old)) (S.world sim.new) some) }
{
    let mut some = false;
    for i in first..sim.datagrams() {
        let any = deliver_once(sim, moment, i + 1)?;
        some = either(some, any);
    }
    Ok(some)
}

/// Delivers datagram `i` as often as the channel lets it arrive in the pass in which it was sent, unless its nodes are
/// parted. Returns whether it was delivered.
fn deliver<S: Simulator>(sim: &mut S, moment: &Moment<'_>, i: u64) -> Result<bool, AllocError>
    ensures { IfOk result (λ some. Happened (S.world sim.old) (delivery moment.now.network.parted.now
        (moment_view moment.now) i (S.world sim.old)) (S.world sim.new) some) }
{
    let Some((sender, receiver)) = sim.datagram(i) else {
        return Ok(false);
    };
    if moment.is_parted(sender, receiver) {
        return Ok(false);
    }
    let copies = copies(sim, moment, i, (sender, receiver));
    sim.deliver(i, at_once(copies))
}

/// Delivers the datagrams numbered above `first` as `deliver` does. For each one, the earlier datagrams of its round
/// are counted anew.
fn deliver_each<S: Simulator>(
    sim: &mut S,
    moment: &Moment<'_>,
    first: u64,
) -> Result<bool, AllocError>
    ensures { IfOk result (λ some. Happened (S.world sim.old) (new_deliveries moment.now.network.parted.now
        (moment_view moment.now) first (S.world sim.old)) (S.world sim.new) some) }
{
    let mut some = false;
    for i in first..sim.datagrams() {
        let any = deliver(sim, moment, i + 1)?;
        some = either(some, any);
    }
    Ok(some)
}

/// Delivers a datagram as `deliver` does, and counts it.
fn deliver_next<S: Simulator>(
    sim: &mut S,
    moment: &Moment<'_>,
    i: u64,
    counts: &mut DirectionCounts,
) -> Result<bool, AllocError>
    requires behind { moment.now.start < i }
    requires counted { AreCounted (S.world sim.old) counts.old moment.now.start (i - 1 - moment.now.start) }
    ensures happened { IfOk result (λ some. Happened (S.world sim.old)
        (delivery moment.now.network.parted.now (moment_view moment.now) i (S.world sim.old)) (S.world sim.new) some) }
    ensures counted { OnOk result (AreCounted (S.world sim.old) counts.new moment.now.start (i - moment.now.start)) }
{
    let Some(direction) = sim.datagram(i) else {
        return Ok(false);
    };
    let copies = counted_copies(sim, moment, i, direction, counts)?;
    if moment.is_parted(direction.0, direction.1) {
        return Ok(false);
    }
    let some = sim.deliver(i, at_once(copies))?;
    Ok(some)
}

/// Counts by direction the datagrams numbered `first` + 1 to `end`.
fn count_gone<S: Simulator>(
    sim: &S,
    alloc: Global,
    first: u64,
    end: u64,
) -> Result<DirectionCounts, AllocError>
    ensures { IfOk result (λ counts. AreCounted (S.world sim.now) counts first (end - first)) }
{
    let mut counts = DirectionCounts::new(alloc);
    for i in first..end {
        count_one(sim, first, i + 1, &mut counts)?;
    }
    Ok(counts)
}

/// Counts datagram `i`. Those from `first` + 1 to `i` - 1 are counted already.
fn count_one<S: Simulator>(
    sim: &S,
    first: u64,
    i: u64,
    counts: &mut DirectionCounts,
) -> Result<(), AllocError>
    requires behind { first < i }
    requires counted { AreCounted (S.world sim.now) counts.old first (i - 1 - first) }
    ensures { OnOk result (AreCounted (S.world sim.now) counts.new first (i - first)) }
{
    let Some(direction) = sim.datagram(i) else {
        return Ok(());
    };
    counts.count(direction)?;
    Ok(())
}

/// Delivers the datagrams numbered above `first`, and counts each.
fn deliver_counted<S: Simulator>(
    sim: &mut S,
    moment: &Moment<'_>,
    first: u64,
) -> Result<bool, AllocError>
    requires { moment.now.start ≤ first }
    ensures { IfOk result (λ some. Happened (S.world sim.old) (new_deliveries moment.now.network.parted.now
        (moment_view moment.now) first (S.world sim.old)) (S.world sim.new) some) }
{
    let mut counts = count_gone(sim, moment.alloc, moment.start, first)?;
    let mut some = false;
    for i in first..sim.datagrams() {
        let any = deliver_next(sim, moment, i + 1, &mut counts)?;
        some = either(some, any);
    }
    Ok(some)
}
