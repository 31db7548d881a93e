//! Times a link between two neighbours' threads over UDP.
ghost use Rattle.std.specs.Prelude.{◌≢◌, ◌<◌};

use crate::threads::paced_hub::{Course, PacedHub};
use log::Log;
use std::alloc::Global;
use std::net::{IpAddr, Ipv4Addr, Net, SocketAddr};
use std::sync::Wait;
use std::sync::atomic::{AtomicU64, Ordering};
use std::thread::Threads;
use std::time::{Clock, Instant};
use std::{io, thread};
use tora_arq::{Life, LinkEnd, Times};
use tora_height::{Height, Id};
use tora_keyed::{Key, LinkWire};
use tora_lane::Cargo;
use tora_life::{LifeFile, MemDisk};
use tora_neighbour::{Link, ListHub, NodeClock, UnixClock, WakingWire, Wire, run_neighbour};
use tora_packet::{Packet, Update};

/// Places for the items other than packets: the one that begins a session, and the beats of a run.
const OTHER_PUTS: usize = 10_000;

/// Two wires to each other, on two free ports of the loopback.
fn pair<'a, R: Clock + Net>(
    rt: &'a R,
    alloc: Global,
    clock: &'a NodeClock<&'a R>,
) -> Option<(WakingWire<'a, &'a R>, WakingWire<'a, &'a R>)> {
    let here = IpAddr::V4(Ipv4Addr::LOCALHOST);
    for port in 43_000..43_500u16 {
        let one = SocketAddr::new(here, port);
        let other = SocketAddr::new(here, port + 500);
        let Ok((first, _)) = WakingWire::bind(rt, alloc, clock, one, other) else {
            continue;
        };
        let Ok((second, _)) = WakingWire::bind(rt, alloc, clock, other, one) else {
            continue;
        };
        return Some((first, second));
    }
    None
}

/// A list of `count` updates, in the first session of both ends.
fn cargoes(alloc: Global, count: u32) -> Option<Vec<Cargo>> {
    let height = Height::new(0, 0, 0, 1, 1).ok()?;
    let packet = Packet::Upd(Update::new(4, height).ok()?);
    let life = Life { own: 1, peer: 1 };
    let mut list = Vec::new(alloc);
    for _ in 0..count {
        list.push(Cargo::Packet(life, packet)).ok()?;
    }
    Some(list)
}

/// An end of a link before it runs: its node, the peer, its wire, and the list of what it sends.
#[derive(Drop)]
struct WiredEnd<W> {
    me: Id,
    peer: Id,
    wire: W,
    cargoes: Vec<Cargo>,
}

/// Runs an end until every packet was delivered.
fn run_end<R: Clock + Wait, W: Wire + Drop>(
    rt: &R,
    alloc: Global,
    wired: WiredEnd<W>,
    course: &Course,
) -> Option<u64>
    requires me { 0 < wired.me }
    requires peer { 0 < wired.peer }
    requires other { wired.me ≢ wired.peer }
{
    let WiredEnd {
        me,
        peer,
        wire,
        cargoes,
    } = wired;
    let end = LinkEnd::new(alloc, me, peer, Times::STANDARD).ok()?;
    let Ok(file) = LifeFile::open(MemDisk::new(), me, peer) else {
        return None;
    };
    let room = usize::try_from(course.count)
        .ok()?
        .saturating_add(OTHER_PUTS);
    let hub = PacedHub {
        list: ListHub::new(alloc, room, cargoes).ok()?,
        course,
        clock: rt,
        is_up: false,
        given: 0,
        over: false,
    };
    let mut clock = UnixClock::new(rt);
    let finished = run_neighbour(rt, Link { end, file, wire }, &mut clock, hub);
    Some(finished.hub.given)
}

/// Runs both ends, each over its wire.
fn run_ends<R: Clock + Threads + Wait + Sync, W: Wire + Send + Drop>(
    rt: &R,
    alloc: Global,
    (first, second): (W, W),
    list: Vec<Cargo>,
    course: &Course,
) -> Option<()> {
    let none = Vec::new(alloc);
    let (sent, received) = thread::join(
        rt,
        move || {
            let wired = WiredEnd {
                me: 1,
                peer: 2,
                wire: first,
                cargoes: list,
            };
            run_end(rt, alloc, wired, course)
        },
        move || {
            let wired = WiredEnd {
                me: 2,
                peer: 1,
                wire: second,
                cargoes: none,
            };
            run_end(rt, alloc, wired, course)
        },
    );
    sent?;
    received?;
    Some(())
}

/// The wire of a link to `peer`, over `wire` and with a fixed key.
fn keyed<R: Clock + Log, W: Wire>(rt: &R, peer: Id, wire: W) -> LinkWire<'_, W, UnixClock<&R>, R> {
    LinkWire::new(wire, Some(Key::new(&[7; 32])), peer, UnixClock::new(rt), rt)
}

/// Runs a link, with a key or without one.
fn run_link<R: Clock + Log + Net + Threads + Wait + Sync>(
    rt: &R,
    alloc: Global,
    count: u32,
    is_keyed: bool,
    course: &Course,
) -> Option<()> {
    let clock = NodeClock::new(rt);
    let (first, second) = pair(rt, alloc, &clock)?;
    let list = cargoes(alloc, count)?;
    if is_keyed {
        let wires = (keyed(rt, 2, first), keyed(rt, 1, second));
        return run_ends(rt, alloc, wires, list, course);
    }
    run_ends(rt, alloc, (first, second), list, course)
}

/// Times the link with `count` packets, with a key or without one.
pub fn time_link<R: Clock + Log + Net + Print + Threads + Wait + Sync>(
    rt: &R,
    alloc: Global,
    count: u32,
    is_keyed: bool,
) -> io::Result<()> {
    let course = Course {
        base: Instant::now(rt)?,
        count: u64::from(count),
        delivered: AtomicU64::new(0),
        began: AtomicU64::new(0),
        ended: AtomicU64::new(0),
    };
    let ran = run_link(rt, alloc, count, is_keyed, &course);
    let delivered = course.delivered.load(Ordering::SeqCst);
    let began = course.began.load(Ordering::SeqCst);
    let ended = course.ended.load(Ordering::SeqCst);
    if ran.is_none() || delivered != course.count {
        return println!(rt; "link-udp failed, {delivered} of {count} were delivered");
    }
    let nanoseconds = ended.saturating_sub(began) / u64::from(count.max(1));
    println!(rt; "link-udp {nanoseconds} ns/packet count {delivered}")
}
