//! Threads over the queues of a node with the greatest number of links.
use super::super::sees::{same, same_at, sees};
use super::threads::{put_all, put_from, send_again, take_all, take_items};
use super::{cargo, seats_have_ended};
use std::alloc::Global;
use std::process::Abort;
use std::sync::Wait;
use std::thread;
use std::thread::{Threads, join};
use tora_lane::*;

/// How many items each seat puts, and how many messages go to each link.
const EACH: u64 = 1000;

/// How many items the 33 seats put in all: 32 links and the commands.
const ALL: u64 = 33_000;

/// The port of a link, its end of the queue from the core, and how many items were put and messages taken as expected.
#[derive(Drop)]
struct LinkSide {
    port: InPort,
    take: OutTake,
    put: u64,
    taken: u64,
}

/// The core's port, its ends of all queues, and how many items were taken as expected.
#[derive(Drop)]
struct CoreSide {
    core: CorePort,
    outs: Vec<OutPut>,
    taken: u64,
}

/// The work of a link's thread: it puts `EACH` items, and then takes `EACH` messages.
fn run_side<R: Wait>(rt: &R, side: &mut LinkSide, seat: usize) {
    side.put = put_all(rt, &mut side.port, seat, EACH);
    side.taken = take_all(rt, &mut side.take, EACH);
}

/// Runs each link in a thread of its own.
fn run_sides<R: Threads + Wait + Sync>(rt: &R, sides: Vec<LinkSide>) -> Vec<LinkSide> {
    let mut sides = sides;
    thread::for_each_mut(
        rt,
        &mut sides,
        MOST_LINKS,
        &|seat, side: &mut LinkSide| { run_side(rt, side, seat) },
    );
    sides
}

/// The work of the core's thread: it takes `ALL` items, and then sends `EACH` messages to each link.
fn run_core<R: Wait>(rt: &R, side: CoreSide) -> CoreSide {
    let CoreSide {
        mut core,
        mut outs,
        taken: _,
    } = side;
    let taken = take_items(rt, &mut core, ALL);
    for number in 0..EACH {
        for put in outs.iter_mut() {
            send_again(rt, put, cargo(number + 1));
        }
    }
    CoreSide { core, outs, taken }
}

/// Runs the seat of the commands and the core, each in a thread of its own. Returns how many items that seat put, and
/// the core's side.
fn run_rest<R: Threads + Wait + Sync>(rt: &R, command: InPort, core: CoreSide) -> (u64, CoreSide) {
    join(
        rt,
        move || put_from(rt, command, MOST_LINKS, EACH).1,
        move || run_core(rt, core),
    )
}

/// The queues of a node with the greatest number of links.
fn most_links<R: Wait + Abort>(rt: &R, alloc: Global) -> (CoreSide, Vec<LinkSide>, InPort) {
    let Ok(
        Lanes {
            core,
            command,
            links,
            outs,
        },
    ) = lanes(rt, alloc, MOST_LINKS)
    else {
        panic!(rt; "no memory");
    };
    let mut sides = Vec::new(alloc);
    for (port, take) in links {
        let side = LinkSide {
            port,
            take,
            put: 0,
            taken: 0,
        };
        sees(rt, sides.push(side).is_ok(), "memory for a side");
    }
    let core = CoreSide {
        core,
        outs,
        taken: 0,
    };
    (core, sides, command)
}

// 32 seats of links and that of the commands put 1,000 items each, and 1,000 messages go to each link, all from threads
// of their own.
#[test]
fn lane_order_of_the_most_links(rt: HostRuntime) {
    let (core, sides, command) = most_links(&rt, rt.alloc());
    let (sides, (put, core)) = join(
        &rt,
        move || run_sides(&rt, sides),
        move || run_rest(&rt, command, core),
    );
    let counts = (put, core.taken, sides.len());
    same(&rt, &counts, &(EACH, ALL, 32), "the items, and the links");
    for (seat, side) in sides.iter().enumerate() {
        let counts = (side.put, side.taken);
        same_at(&rt, &counts, &(EACH, EACH), "a link", &seat);
    }
    let mut port = core.core;
    drop(sides);
    seats_have_ended(&rt, &mut port);
}
