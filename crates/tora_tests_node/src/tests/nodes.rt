//! Nodes of several threads, in one process.
ghost use Rattle.std.specs.Prelude.{All, ◌<◌};

use super::neighbours::total;
use super::sees::{as_many, same, same_at, sees, sees_at, there};
use super::waking::{Woken, woken_pair};
use byte_disk::ByteDisk;
use std::alloc::Global;
use std::io::{Read, Write};
use std::net::{IpAddr, Ipv4Addr};
use std::process::Abort;
use std::sync::Wait;
use std::sync::atomic::{AtomicU64, Ordering};
use std::thread::Threads;
use std::time::Duration;
use std::{thread, time};
use streams::{Asking, Course, Meeting, Page, Screen, Waiting};
use tora_height::Id;
use tora_life::{Disk, LifeError};
use tora_neighbour::{NodeClock, UnixClock};
use tora_node::*;

mod byte_disk;
mod faults;
mod inputs;
mod quitting;
mod statuses;
mod streams;

/// The configuration of a node with the destination 4.
fn config_of(rt: &impl Abort, alloc: Global, me: u32, peers: &[u32]) -> Config
    requires me { 0 < me }
    requires peers { All (λ n. 0 < n) peers.now }
{
    there(
        rt,
        Config::new(alloc, me, peers, &[4]).ok(),
        "a configuration",
    )
}

/// A list with one item.
fn list_of<T: Drop>(rt: &impl Abort, alloc: Global, value: T) -> Vec<T> {
    let mut list = Vec::new(alloc);
    sees(rt, list.push(value).is_ok(), "memory for a list");
    list
}

/// A node that is not started: its configuration, and a wire and a disk for each link, by ascending neighbour.
#[derive(Drop)]
struct NewNode<W, D> {
    config: Config,
    wires: Vec<W>,
    disks: Vec<D>,
}

/// Runs a node until these commands end it.
fn run_over<
    R: Threads + Wait + Sync + time::Clock + log::Log + Abort,
    W: Wire + Send + Drop,
    D: Disk + Send + Drop,
    C: Read,
    S: Write + Send,
>(
    rt: &R,
    alloc: Global,
    node: NewNode<W, D>,
    commands: &mut C,
    screen: &mut S,
) -> Result<Ended, NodeError> {
    let NewNode {
        config,
        wires,
        disks,
    } = node;
    let links = config.peers().len();
    as_many(rt, wires.len(), links);
    as_many(rt, disks.len(), links);
    let clock = UnixClock::new(rt);
    let clocks = there(rt, vec![in alloc; clock; links].ok(), "memory for clocks");
    as_many(rt, clocks.len(), links);
    let parts = NodeParts {
        config,
        wires,
        disks,
        wakers: Vec::<()>::new(alloc),
        clocks,
        command_clock: clock,
    };
    let (ended, _) = run_node(rt, alloc, parts, commands, screen);
    ended
}

/// A node that is not started, with one link over the loopback: its number and its peer's, the wire with its waker, its
/// clock, and its first commands.
struct LoopbackNode<'a, R> {
    me: Id,
    peer: Id,
    woken: Woken<'a, R>,
    clock: &'a NodeClock<&'a R>,
    first: &'a [u8],
}

/// Runs a node with one link over the loopback, with a waker for the link's thread.
fn run_one<R: Threads + Wait + Sync + time::Clock + log::Log + Abort>(
    rt: &R,
    alloc: Global,
    node: LoopbackNode<'_, R>,
    course: &Course,
) -> bool
    requires me { 0 < node.me }
    requires peer { 0 < node.peer }
{
    let LoopbackNode {
        me,
        peer,
        woken,
        clock,
        first,
    } = node;
    let config = config_of(rt, alloc, me, &[peer]);
    let (wire, waker) = woken;
    let wires = list_of(rt, alloc, wire);
    let wakers = list_of(rt, alloc, waker);
    let disks = list_of(rt, alloc, ByteDisk::of_zeros(0));
    let clocks = list_of(rt, alloc, clock);
    let links = config.peers().len();
    as_many(rt, wires.len(), links);
    as_many(rt, disks.len(), links);
    as_many(rt, clocks.len(), links);
    let mut read = Asking {
        rt,
        first,
        course,
        asked: 0,
    };
    let screen = Screen { course };
    let parts = NodeParts {
        config,
        wires,
        disks,
        wakers,
        clocks,
        command_clock: clock,
    };
    let (ended, screen) = run_node(rt, alloc, parts, &mut read, screen);
    ended.is_ok() && screen.is_some()
}

/// Waits until the other node has printed, at most 10 s.
fn wait_for_print<R: time::Clock>(rt: &R, course: &Course) {
    for _ in 0..100 {
        if course.printed.load(Ordering::SeqCst) == 1 {
            return;
        }
        thread::sleep(rt, Duration::from_millis(100));
    }
}

#[test]
fn two_nodes_on_the_loopback(rt: HostRuntime) {
    let alloc = rt.alloc();
    let here = IpAddr::V4(Ipv4Addr::LOCALHOST);
    let third_clock = NodeClock::new(&rt);
    let fourth_clock = NodeClock::new(&rt);
    let clocks = (&third_clock, &fourth_clock);
    let pair = woken_pair(&rt, alloc, clocks, here, 44_400);
    let (third, fourth) = there(&rt, pair, "a pair of free ports");
    let course = Course {
        printed: AtomicU64::new(0),
        found: AtomicU64::new(0),
    };
    let (runtime, shared) = (&rt, &course);
    let (three, four) = thread::join(
        &rt,
        move || {
            let node = LoopbackNode {
                me: 3,
                peer: 4,
                woken: third,
                clock: clocks.0,
                first: b"need 4\nshow\n",
            };
            run_one(runtime, alloc, node, shared)
        },
        move || {
            wait_for_print(runtime, shared);
            let node = LoopbackNode {
                me: 4,
                peer: 3,
                woken: fourth,
                clock: clocks.1,
                first: b"hello\n",
            };
            run_one(runtime, alloc, node, shared)
        },
    );
    sees(&rt, three && four, "both nodes end well");
    let found = course.found.load(Ordering::SeqCst);
    same(&rt, &found, &1, "the route is found");
}

/// The observations of two wires that wait for each other: whether each was asked for a datagram, and how many of them
/// met the other.
#[derive(Drop)]
struct Asked {
    first: AtomicU64,
    second: AtomicU64,
    met: AtomicU64,
}

/// Runs node 1 with these neighbours, one or two, over wires that wait for each other. The life file of the first
/// neighbour is on this disk. Returns the fault.
fn run_over_meeting<'a, R: Threads + Wait + Sync + time::Clock + log::Log + Abort>(
    rt: &'a R,
    alloc: Global,
    peers: &[u32],
    disk: ByteDisk,
    asked: &'a Asked,
) -> Option<NodeError>
    requires peers { All (λ n. 0 < n) peers.now }
{
    let config = config_of(rt, alloc, 1, peers);
    let wire = Meeting {
        rt,
        own: &asked.first,
        other: &asked.second,
        met: &asked.met,
    };
    let mut wires = list_of(rt, alloc, wire);
    let mut disks = list_of(rt, alloc, disk);
    if peers.len() > 1 {
        let wire = Meeting {
            rt,
            own: &asked.second,
            other: &asked.first,
            met: &asked.met,
        };
        let is_whole = wires.push(wire).is_ok() && disks.push(ByteDisk::of_zeros(0)).is_ok();
        sees(rt, is_whole, "memory for a second link");
    }
    let mut commands = Waiting {
        rt,
        met: &asked.met,
    };
    let mut screen = Vec::new(alloc);
    let node = NewNode {
        config,
        wires,
        disks,
    };
    let ended = run_over(rt, alloc, node, &mut commands, &mut screen);
    ended.err()
}

/// Runs node 1 as `run_over_meeting` does, and returns what the wires observed: the fault, 1 if the first wire was
/// asked for a datagram, and how many of them met the other.
fn run_meeting<R: Threads + Wait + Sync + time::Clock + log::Log + Abort>(
    rt: &R,
    alloc: Global,
    peers: &[u32],
    disk: ByteDisk,
) -> (Option<NodeError>, u64, u64)
    requires peers { All (λ n. 0 < n) peers.now }
{
    let asked = Asked {
        first: AtomicU64::new(0),
        second: AtomicU64::new(0),
        met: AtomicU64::new(0),
    };
    let fault = run_over_meeting(rt, alloc, peers, disk, &asked);
    let received = asked.first.load(Ordering::SeqCst);
    (fault, received, asked.met.load(Ordering::SeqCst))
}

#[test]
fn neighbours_at_once(rt: HostRuntime) {
    let ended = run_meeting(&rt, rt.alloc(), &[2, 3], ByteDisk::of_zeros(0));
    same(&rt, &ended, &(None, 1, 2), "both neighbours have met");
}

/// The tag of node 1 and peer 2.
const TAG: [u8; 32] = [
    0x54, 0x4f, 0x52, 0x41, 0x4c, 0x49, 0x46, 0x32, 0, 0, 0, 1, 0, 0, 0, 2, 0xab, 0xb0, 0xad, 0xbe,
    0xb3, 0xb6, 0xb9, 0xcd, 0xff, 0xff, 0xff, 0xfe, 0xff, 0xff, 0xff, 0xfd,
];

/// Checks the fault of a run with one neighbour, 3, and this life file. No thread is started.
fn fault_is<R: Threads + Wait + Sync + time::Clock + log::Log + Abort>(
    rt: &R,
    alloc: Global,
    disk: ByteDisk,
    wanted: LifeError,
) {
    let ended = run_meeting(rt, alloc, &[3], disk);
    let wanted = (Some(NodeError::Life(3, wanted)), 0, 0);
    same(rt, &ended, &wanted, "the fault, and nothing was received");
}

#[test]
fn a_damaged_life_file_starts_no_thread(rt: HostRuntime) {
    fault_is(&rt, rt.alloc(), ByteDisk::of_zeros(65), LifeError::Damaged);
}

#[test]
fn a_life_file_of_another_link_starts_no_thread(rt: HostRuntime) {
    fault_is(&rt, rt.alloc(), ByteDisk::of_tag(&TAG), LifeError::Foreign);
}

/// Checks that the neighbours are 2 and 3.
fn peers_are(rt: &impl Abort, peers: &[u32]) {
    same(rt, &peers, &[2, 3].as_slice(), "the neighbours");
}

/// Runs node 1 between nodes 2 and 3, with these commands, over wires on which no datagram arrives.
fn run_in_memory<R: Threads + Wait + Sync + time::Clock + log::Log + Abort>(
    rt: &R,
    alloc: Global,
    commands: &[u8],
    page: &mut Page,
) -> Result<Ended, NodeError> {
    let config = match Config::new(alloc, 1, &[3, 2], &[4]) {
        Ok(config) => config,
        Err(_) => return Err(NodeError::Memory),
    };
    let (mut wires, mut disks) = (Vec::new(alloc), Vec::new(alloc));
    for _ in 0..2 {
        let wire = MemWire::<16>::new(Vec::new(alloc));
        if wires.push(wire).is_err() || disks.push(ByteDisk::of_zeros(0)).is_err() {
            return Err(NodeError::Memory);
        }
    }
    let node = NewNode {
        config,
        wires,
        disks,
    };
    let mut reader = commands;
    run_over(rt, alloc, node, &mut reader, page)
}

/// Checks that the node has a link to this peer and counted nothing on it, or that it has no such link.
fn counted_nothing(rt: &impl Abort, ended: &Ended, peer: Id, is_link: bool) {
    match ended.tally(peer) {
        Some(tally) => sees_at(rt, is_link && total(&tally) == 0, "a link", &peer),
        None => sees_at(rt, !is_link, "no link", &peer),
    }
}

/// Checks that the core is that of node 1 with neighbours 2 and 3.
fn is_core_of_1(rt: &impl Abort, ended: &Ended) {
    same(rt, &ended.core().me(), &1, "the node of the core");
    peers_are(rt, ended.core().neighbours());
}

#[test]
fn want_of_memory_ends_a_node(rt: HostRuntime) {
    let mut page = Page {
        bytes: [0; 640],
        length: 0,
    };
    let commands = b"need 9\nhello\nshow\nneed 0\nquit\nshow\n";
    match run_in_memory(&rt, rt.alloc(), commands, &mut page) {
        Err(error) => {
            // The output before the fault is complete.
            same(&rt, &error, &NodeError::Memory, "no memory");
            let is_whole = page.length == 0 || page.length == 10 || page.length == 37;
            sees(&rt, is_whole, "whole lines");
        }
        Ok(ended) => {
            let wanted = b"refused 5\nto 4 height - flag 0 hop -\n".as_slice();
            same(
                &rt,
                &&page.bytes[..page.length],
                &wanted,
                "what was printed",
            );
            is_core_of_1(&rt, &ended);
            counted_nothing(&rt, &ended, 2, true);
            counted_nothing(&rt, &ended, 3, true);
            counted_nothing(&rt, &ended, 1, false);
            counted_nothing(&rt, &ended, 4, false);
        }
    }
}
