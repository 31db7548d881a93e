//! A node with two links: four threads over its queues, and the reports of its ports.
ghost use Rattle.std.specs.Prelude.{◌≡◌, ℕ};
ghost use Rattle.tora_lane.specs.NodeLanes.{AreLinks};
ghost use Rattle.tora_lane.specs.Out.{AreEndsOf};
ghost use Rattle.tora_lane.specs.Ports.{IsPortOf};

use super::super::sees::{same, same_at};
use super::threads::{put_all, put_from, send_again, take_all, take_items};
use super::{cargo, put_is, seats_have_ended};
use std::alloc::Global;
use std::process::Abort;
use std::sync::Wait;
use std::thread::{Threads, join};
use tora_lane::*;

/// The work of the threads in a run; each does one kind of work before the next.
#[derive(Clone, Copy)]
struct Run {
    /// How many items each link puts.
    puts: u64,
    /// How many items the command seat puts.
    commands: u64,
    /// How many items the core takes while the others run.
    takes: u64,
    /// How many items the core takes after all others have ended.
    rest: u64,
    /// How many messages the core sends to each link, which takes them.
    cargoes: u64,
}

/// The port of a link, its end of the queue from the core, and how many items were put and messages taken as expected.
#[derive(Drop)]
struct LinkSide {
    port: InPort,
    take: OutTake,
    put: u64,
    taken: u64,
}

/// The core's port, its ends of two queues, and how many items were taken as expected.
#[derive(Drop)]
struct CoreSide {
    core: CorePort,
    first: OutPut,
    second: OutPut,
    taken: u64,
}

/// The work of a link's thread: it puts `puts` items, and then takes `cargoes` messages.
fn run_link<R: Wait>(rt: &R, side: LinkSide, seat: usize, run: Run) -> LinkSide
    ensures { (result.port.lane ≡ side.port.lane) × (result.take.ring ≡ side.take.ring) }
{
    let LinkSide {
        mut port,
        mut take,
        put: _,
        taken: _,
    } = side;
    let put = put_all(rt, &mut port, seat, run.puts);
    let taken = take_all(rt, &mut take, run.cargoes);
    LinkSide {
        port,
        take,
        put,
        taken,
    }
}

/// The work of the core's thread: it takes `takes` items, and then sends `cargoes` messages to each link.
fn run_core<R: Wait>(rt: &R, side: CoreSide, run: Run) -> CoreSide
    ensures { (result.core.lane ≡ side.core.lane) × (result.first.ring ≡ side.first.ring)
        × (result.second.ring ≡ side.second.ring) }
{
    let CoreSide {
        mut core,
        mut first,
        mut second,
        taken: _,
    } = side;
    let taken = take_items(rt, &mut core, run.takes);
    for number in 0..run.cargoes {
        send_again(rt, &mut first, cargo(number + 1));
        send_again(rt, &mut second, cargo(number + 1));
    }
    CoreSide {
        core,
        first,
        second,
        taken,
    }
}

/// Runs the two links, each in a thread of its own, and returns their sides.
fn run_links<R: Threads + Wait + Sync>(
    rt: &R,
    first: LinkSide,
    second: LinkSide,
    run: Run,
) -> (LinkSide, LinkSide)
    ensures lanes { (result.0.port.lane ≡ first.port.lane) × (result.1.port.lane ≡ second.port.lane) }
    ensures rings { (result.0.take.ring ≡ first.take.ring) × (result.1.take.ring ≡ second.take.ring) }
{
    join(
        rt,
        move || -> LinkSide
            ensures { (result.port.lane ≡ first.port.lane) × (result.take.ring ≡ first.take.ring) }
        { run_link(rt, first, 0, run) },
        move || -> LinkSide
            ensures { (result.port.lane ≡ second.port.lane) × (result.take.ring ≡ second.take.ring) }
        { run_link(rt, second, 1, run) },
    )
}

/// Runs the seat of the commands and the core, each in a thread of its own. Returns that seat's port, how many items it
/// put, and the core's side.
fn run_others<R: Threads + Wait + Sync>(
    rt: &R,
    command: InPort,
    core: CoreSide,
    run: Run,
) -> ((InPort, u64), CoreSide)
    ensures lanes { (result.0.0.lane ≡ command.lane) × (result.1.core.lane ≡ core.core.lane) }
    ensures rings { (result.1.first.ring ≡ core.first.ring) × (result.1.second.ring ≡ core.second.ring) }
{
    join(
        rt,
        move || -> (InPort, u64)
            ensures { result.0.lane ≡ command.lane }
        { put_from(rt, command, 2, run.commands) },
        move || -> CoreSide
            ensures { (result.core.lane ≡ core.core.lane) × (result.first.ring ≡ core.first.ring)
                × (result.second.ring ≡ core.second.ring) }
        { run_core(rt, core, run) },
    )
}

/// Removes the last link: returns its port, and both ends of its queue.
fn last_link<R: Abort>(
    rt: &R,
    core: &CorePort,
    links: &mut Vec<(InPort, OutTake)>,
    outs: &mut Vec<OutPut>,
) -> (InPort, OutTake, OutPut)
    requires { (n : ℕ) × AreLinks core.now.lane n links.old.items outs.old.items }
    ensures link { (result.0.lane ≡ core.now.lane) × AreEndsOf result.2 result.1 }
    ensures others { (n : ℕ) × AreLinks core.now.lane n links.new.items outs.new.items }
{
    let Some((port, take)) = links.pop() else {
        panic!(rt; "no link");
    };
    let Some(put) = outs.pop() else {
        panic!(rt; "no lane");
    };
    (port, take, put)
}

/// The queues of a node with two links.
fn two_links<R: Wait + Abort>(rt: &R, alloc: Global) -> (CoreSide, LinkSide, LinkSide, InPort)
    ensures ports { IsPortOf result.0.core result.1.port × IsPortOf result.0.core result.2.port
        × IsPortOf result.0.core result.3 }
    ensures rings { AreEndsOf result.0.first result.1.take × AreEndsOf result.0.second result.2.take }
{
    let Ok(
        Lanes {
            core,
            command,
            mut links,
            mut outs,
        },
    ) = lanes(rt, alloc, 2)
    else {
        panic!(rt; "no memory");
    };
    let (port, take, second_put) = last_link(rt, &core, &mut links, &mut outs);
    let second = LinkSide {
        port,
        take,
        put: 0,
        taken: 0,
    };
    let (port, take, first_put) = last_link(rt, &core, &mut links, &mut outs);
    let first = LinkSide {
        port,
        take,
        put: 0,
        taken: 0,
    };
    let core = CoreSide {
        core,
        first: first_put,
        second: second_put,
        taken: 0,
    };
    (core, first, second, command)
}

/// Closes the port of a seat, and checks that it has put `put` items, of which the core has taken `taken` and the
/// others are left.
fn seat_is_settled<R: Wait + Abort>(
    rt: &R,
    core: &mut CorePort,
    port: InPort,
    seat: usize,
    put: u64,
    taken: u64,
)
    requires { IsPortOf core.old port }
    ensures { core.new ≡ core.old }
{
    let wanted = Settled {
        seat,
        put,
        taken,
        left: put.wrapping_sub(taken),
    };
    same_at(rt, &core.settle(rt, port), &wanted, "the items", &seat);
}

/// Closes a queue to a link, and checks that `count` messages were sent and received, and that none is left.
fn lane_is_settled(rt: &impl Abort, put: OutPut, take: OutTake, count: u64)
    requires { AreEndsOf put take }
{
    let whole = OutEnd {
        sent: count,
        received: count,
        waiting: 0,
    };
    same(rt, &settle_out(put, take), &whole, "the cargoes of a lane");
}

/// Runs the links, the commands and the core, each in a thread of its own, and checks that nothing was lost.
fn run_all<R: Threads + Wait + Sync + Abort>(rt: &R, alloc: Global, run: Run) {
    let (core, first, second, command) = two_links(rt, alloc);
    let ((first, second), ((command, put), core)) = join(
        rt,
        move || run_links(rt, first, second, run),
        move || run_others(rt, command, core, run),
    );
    let all_put = (first.put, second.put, put);
    let wanted = (run.puts, run.puts, run.commands);
    same(rt, &all_put, &wanted, "the items that were put");
    let cargoes = (first.taken, second.taken);
    same(rt, &cargoes, &(run.cargoes, run.cargoes), "the cargoes");
    let mut port = core.core;
    let taken = (core.taken, take_items(rt, &mut port, run.rest));
    same(rt, &taken, &(run.takes, run.rest), "those that were taken");
    seat_is_settled(rt, &mut port, first.port, 0, run.puts, run.puts);
    seat_is_settled(rt, &mut port, second.port, 1, run.puts, run.puts);
    seat_is_settled(rt, &mut port, command, 2, run.commands, run.commands);
    lane_is_settled(rt, core.first, first.take, run.cargoes);
    lane_is_settled(rt, core.second, second.take, run.cargoes);
    seats_have_ended(rt, &mut port);
}

/// Each of the three seats puts 1,000 items, and 1,000 messages go to each link.
const ORDER: Run = Run {
    puts: 1000,
    commands: 1000,
    takes: 3000,
    rest: 0,
    cargoes: 1000,
};

#[test]
fn lane_order(rt: HostRuntime) {
    run_all(&rt, rt.alloc(), ORDER);
}

/// The seats put as many items as the queue holds, and the core takes none until they have ended.
const FULL: Run = Run {
    puts: 341,
    commands: 342,
    takes: 0,
    rest: 1024,
    cargoes: 0,
};

#[test]
fn full_lane_is_drained(rt: HostRuntime) {
    run_all(&rt, rt.alloc(), FULL);
}

/// Puts an item, drops the core's port, and checks that each of two further puts returns `Gone`.
fn core_has_ended<R: Wait + Abort>(rt: &R, alloc: Global) {
    let (lanes, first, second, command) = two_links(rt, alloc);
    let mut port = first.port;
    put_is(rt, &mut port, 0, What::Beat, Ok(()));
    drop(lanes);
    put_is(rt, &mut port, 1, What::Beat, Err(Gone));
    put_is(rt, &mut port, 2, What::Beat, Err(Gone));
    drop((port, second, command));
}

#[test]
fn ports_tell_that_the_other_side_ended(rt: HostRuntime) {
    core_has_ended(&rt, rt.alloc());
    let (lanes, first, second, command) = two_links(&rt, rt.alloc());
    let mut port = first.port;
    let mut core = lanes.core;
    put_is(&rt, &mut port, 3, What::Show, Ok(()));
    seat_is_settled(&rt, &mut core, port, 0, 1, 0);
    drop((second, command));
    let left = Item {
        seat: 0,
        number: 1,
        now: 3,
        what: What::Show,
    };
    same(&rt, &core.take(&rt), &Ok(left), "the item that is left");
    seats_have_ended(&rt, &mut core);
}
