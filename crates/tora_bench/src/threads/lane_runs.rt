//! Threads over the queues (lanes) of a node: with two links for the queue into the core, with one for the queue to a
//! neighbour.
use std::alloc::Global;
use std::sync::Wait;
use std::thread;
use std::thread::{Threads, join};
use tora_arq::Life;
use tora_lane::{Cargo, CorePort, InPort, Lanes, OutPut, OutTake, What, lanes};

/// Puts `count` items of one seat, and stops if a put returns `Gone`. Returns how many were put.
fn put_all<R: Wait>(rt: &R, port: InPort, count: u32) -> u64 {
    let mut port = port;
    let mut put = 0u64;
    for number in 0..count {
        let life = Life {
            own: u64::from(number),
            peer: 1,
        };
        if port.put(rt, 0, What::Up(life)).is_err() {
            break;
        }
        put = put.wrapping_add(1);
    }
    put
}

/// Takes items until the ports of all threads have ended, and returns how many were taken.
fn take_all<R: Wait>(rt: &R, core: CorePort) -> u64 {
    let mut core = core;
    let mut taken = 0u64;
    for _ in rt.forever() {
        if core.take(rt).is_err() {
            break;
        }
        taken = taken.wrapping_add(1);
    }
    taken
}

/// Three threads put `count` items each, and one takes them. Returns how many were taken; 0 if memory runs out.
pub fn run_core_lane<R: Threads + Wait + Sync>(rt: &R, alloc: Global, count: u32) -> u64 {
    let Ok(made) = lanes(rt, alloc, 2) else {
        return 0;
    };
    let Lanes {
        core,
        command,
        mut links,
        outs: _,
    } = made;
    let Some((first, _)) = links.pop() else {
        return 0;
    };
    let Some((second, _)) = links.pop() else {
        return 0;
    };
    let (_, (_, taken)) = join(
        rt,
        move || join(
            rt,
            move || put_all(rt, first, count),
            move || put_all(rt, second, count),
        ),
        move || join(
            rt,
            move || put_all(rt, command, count),
            move || take_all(rt, core),
        ),
    );
    taken
}

/// Sends `count` outbound messages, and sends one again if the queue returns it.
fn send_all<R: Wait>(rt: &R, put: OutPut, count: u32) {
    let mut put = put;
    let mut number = 0u32;
    for _ in rt.forever() {
        if number >= count {
            break;
        }
        let cargo = Cargo::Cut(Life {
            own: u64::from(number),
            peer: 1,
        });
        match put.send(cargo) {
            Ok(()) => number += 1,
            Err(_) => thread::yield_now(),
        }
    }
}

/// Receives `count` outbound messages, waits for each, and returns their count.
fn receive_all<R: Wait>(rt: &R, take: OutTake, count: u32) -> u64 {
    let mut take = take;
    let mut taken = 0u32;
    for _ in rt.forever() {
        if taken >= count {
            break;
        }
        match take.take() {
            Some(_) => taken += 1,
            None => thread::yield_now(),
        }
    }
    u64::from(taken)
}

/// One thread sends `count` outbound messages, and another receives them. Returns how many were received; 0 if memory
/// runs out.
pub fn run_out_lane<R: Threads + Wait + Sync>(rt: &R, alloc: Global, count: u32) -> u64 {
    let Ok(made) = lanes(rt, alloc, 1) else {
        return 0;
    };
    let Lanes {
        core: _,
        command: _,
        mut links,
        mut outs,
    } = made;
    let Some((_, take)) = links.pop() else {
        return 0;
    };
    let Some(put) = outs.pop() else {
        return 0;
    };
    let ((), taken) = join(
        rt,
        move || send_all(rt, put, count),
        move || receive_all(rt, take, count),
    );
    taken
}
