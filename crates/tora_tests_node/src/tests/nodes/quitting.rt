//! A node that ends while its threads wait at sockets.
use super::byte_disk::ByteDisk;
use super::{Woken, as_many, config_of, list_of, sees, there, woken_pair};
use std::alloc::Global;
use std::io::{self, Read};
use std::net::{IpAddr, Ipv4Addr};
use std::process::Abort;
use std::sync::Wait;
use std::sync::atomic::{AtomicU64, Ordering};
use std::thread::Threads;
use std::time::Duration;
use std::{thread, time};
use tora_neighbour::{Clock, NodeClock, Wake};
use tora_node::{NodeParts, run_node};

/// What a test observes of the end of a node.
#[derive(Drop)]
struct Course {
    /// How often its clocks were read.
    read: AtomicU64,
    /// How many of its links have the signal that the core has ended.
    told: AtomicU64,
    /// How often its clocks were read after the first link had that signal.
    read_since: AtomicU64,
}

/// A clock that counts its reads.
#[derive(Clone, Copy)]
struct CountingClock<'a, C> {
    clock: C,
    course: &'a Course,
}

impl<C: Clock> Clock for CountingClock<'_, C> {
    ghost did_tell = { λ c tick after. Unit {0} };

    fn now(&mut self) -> u64 {
        self.course.read.fetch_add(1, Ordering::SeqCst);
        if self.course.told.load(Ordering::SeqCst) > 0 {
            self.course.read_since.fetch_add(1, Ordering::SeqCst);
        }
        self.clock.now()
    }
}

/// A waker that counts the signal that the core has ended, and passes all calls on.
#[derive(Drop)]
struct CountingWaker<'a, K> {
    waker: K,
    course: &'a Course,
}

impl<K: Wake> Wake for CountingWaker<'_, K> {
    fn wake(&self) {
        self.waker.wake();
    }

    fn end(&self) {
        self.waker.end();
        self.course.told.fetch_add(1, Ordering::SeqCst);
    }
}

/// Commands without a line, which end after ten reads of the clock, or after ten seconds.
#[derive(Drop)]
struct Running<'a, R> {
    rt: &'a R,
    course: &'a Course,
}

impl<R: time::Clock> Read for Running<'_, R> {
    fn read(&mut self, _buf: &mut [u8]) -> io::Result<usize> {
        for _ in 0..1000 {
            if self.course.read.load(Ordering::SeqCst) >= 10 {
                break;
            }
            thread::sleep(self.rt, Duration::from_millis(10));
        }
        Ok(0)
    }
}

/// Runs node 1 with two links over these wires until its commands end.
fn run_to_the_end<R: Threads + Wait + Sync + time::Clock + log::Log + Abort>(
    rt: &R,
    alloc: Global,
    clock: &NodeClock<&R>,
    (second, waker): Woken<'_, R>,
    (third, other): Woken<'_, R>,
    course: &Course,
) -> bool {
    let mut wires = list_of(rt, alloc, second);
    let mut wakers = list_of(rt, alloc, CountingWaker { waker, course });
    let mut disks = list_of(rt, alloc, ByteDisk::of_zeros(0));
    let other = CountingWaker {
        waker: other,
        course,
    };
    let (has_wire, has_waker) = (wires.push(third).is_ok(), wakers.push(other).is_ok());
    let has_disk = disks.push(ByteDisk::of_zeros(0)).is_ok();
    let is_whole = has_wire && has_waker && has_disk;
    sees(rt, is_whole, "memory for a second link");
    let config = config_of(rt, alloc, 1, &[2, 3]);
    let links = config.peers().len();
    as_many(rt, wires.len(), links);
    as_many(rt, disks.len(), links);
    let counting = CountingClock { clock, course };
    let clocks = there(
        rt,
        vec![in alloc; counting; links].ok(),
        "memory for clocks",
    );
    as_many(rt, clocks.len(), links);
    let mut commands = Running { rt, course };
    let screen = Vec::new(alloc);
    let parts = NodeParts {
        config,
        wires,
        disks,
        wakers,
        clocks,
        command_clock: counting,
    };
    let (ended, screen) = run_node(rt, alloc, parts, &mut commands, screen);
    ended.is_ok() && screen.is_some()
}

/// Each link gets the signal that the core has ended, and its thread makes at most one more turn.
#[test]
fn threads_end_in_one_turn(rt: HostRuntime) {
    let course = Course {
        read: AtomicU64::new(0),
        told: AtomicU64::new(0),
        read_since: AtomicU64::new(0),
    };
    let alloc = rt.alloc();
    let clock = NodeClock::new(&rt);
    let here = IpAddr::V4(Ipv4Addr::LOCALHOST);
    let pair = woken_pair(&rt, alloc, (&clock, &clock), here, 47_400);
    let (second, third) = there(&rt, pair, "a pair of free ports");
    let is_well = run_to_the_end(&rt, alloc, &clock, second, third, &course);
    sees(&rt, is_well, "the node ends well");
    let told = course.told.load(Ordering::SeqCst);
    sees(&rt, told == 2, "each link is told");
    let read = course.read_since.load(Ordering::SeqCst);
    sees(&rt, read <= 2, "one turn of each link");
}
