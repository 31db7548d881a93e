//! Two nodes in one thread, each with a core and a link end: what routers do with datagrams, without a router.
use crate::inputs::{MOST_DESTINATIONS, core_of_a_pair};
use arrayvec::ArrayVec;
use std::alloc::Global;
use std::io;
use std::time::{Duration, Instant};
use tora_arq::{EVENT_PLACES, LinkEnd, LinkEvent, PLACES_OF_A_FRAME, Times};
use tora_core::{Core, Input, Sends};
use tora_frame::{LONGEST_FRAME, Packets, decode_into, encode_into};
use tora_height::Id;

/// A node, the buffers that it reuses for each frame, and what its core broadcast last.
#[derive(Drop)]
struct Node {
    core: Core,
    end: LinkEnd,
    sends: Sends,
    packets: Packets,
    bytes: ArrayVec<u8, LONGEST_FRAME>,
}

impl Node {
    /// A node with empty buffers.
    fn new(core: Core, end: LinkEnd) -> Node {
        Node {
            core,
            end,
            sends: Sends::new(),
            packets: Packets::new(),
            bytes: ArrayVec::new(),
        }
    }

    /// Steps the core, and passes what it broadcasts to the link end.
    fn step(&mut self, input: &Input, now: u64) {
        if self.core.step_into(input, now, &mut self.sends).is_err() {
            return;
        }
        let Some(life) = self.end.life() else {
            return;
        };
        for packet in self.sends.iter() {
            let _ = self.end.submit(life, *packet);
        }
    }

    /// Steps the core by each event of the link end.
    fn settle(&mut self, now: u64) {
        let peer = self.end.peer();
        for _ in 0..EVENT_PLACES {
            let Some(event) = self.end.poll_event() else {
                return;
            };
            match event {
                LinkEvent::Up(_) => self.step(&Input::LinkUp(peer), now),
                LinkEvent::Deliver(_, packet) => self.step(&Input::Packet(peer, packet), now),
                LinkEvent::Down(_, _) => self.step(&Input::LinkDown(peer), now),
            }
        }
    }

    /// Passes the frames that are due at this node to the node `to`, as bytes, and steps the core of `to` after each.
    /// Returns how many there were.
    fn send(&mut self, to: &mut Node, now: u64) -> u64 {
        let mut count = 0u64;
        for _ in 0..PLACES_OF_A_FRAME {
            let Some(frame) = self.end.poll_transmit_into(now, &mut self.packets) else {
                return count;
            };
            encode_into(&frame, &mut self.bytes);
            if let Ok(read) = decode_into(self.bytes.as_slice(), &mut to.packets) {
                let _verdict = to.end.on_borrowed_frame(&read, now);
            }
            to.settle(now);
            count = count.wrapping_add(1);
        }
        count
    }
}

/// The nodes 1 and 2, whose link is up.
#[derive(Drop)]
struct Pair {
    one: Node,
    two: Node,
}

impl Pair {
    /// Makes the nodes and passes HELLOs at tick 0 until none is due; `None` if memory runs out.
    fn new(alloc: Global) -> Option<Pair> {
        let mut first = LinkEnd::new(alloc, 1, 2, Times::STANDARD).ok()?;
        let mut second = LinkEnd::new(alloc, 2, 1, Times::STANDARD).ok()?;
        first.open(1, 0);
        second.open(1, 0);
        let mut pair = Pair {
            one: Node::new(core_of_a_pair(alloc, 1, 2)?, first),
            two: Node::new(core_of_a_pair(alloc, 2, 1)?, second),
        };
        let _hellos = pair.exchange(0);
        Some(pair)
    }

    /// Passes the frames that are due at both nodes. Returns how many there were.
    fn pass(&mut self, now: u64) -> u64 {
        let there = self.one.send(&mut self.two, now);
        there.wrapping_add(self.two.send(&mut self.one, now))
    }

    /// Passes frames until none is due. Returns how many there were.
    fn exchange(&mut self, now: u64) -> u64 {
        let mut count = 0u64;
        for _ in 0..PLACES_OF_A_FRAME {
            let more = self.pass(now);
            count = count.wrapping_add(more);
            if more == 0 {
                break;
            }
        }
        count
    }

    /// Makes node 1 need a route to each destination, and passes all frames after each need. Returns how many frames
    /// there were.
    fn ask(&mut self) -> u64 {
        let mut count = 0u64;
        for d in MOST_DESTINATIONS {
            self.one.step(&Input::Need(d), 1);
            count = count.wrapping_add(self.exchange(1));
        }
        count
    }
}

/// What the nodes exchange.
#[derive(Clone, Copy, PartialEq, Eq)]
pub enum Talk {
    /// HELLOs alone.
    Hellos,
    /// For each destination a query, the query that answers it, and an acknowledgement.
    Queries,
}

impl Talk {
    /// The name that the printed line begins with.
    pub fn name(self) -> &'static str {
        match self {
            Talk::Hellos => "node-hello",
            Talk::Queries => "node-query",
        }
    }

    /// Exchanges about `steps` datagrams: rounded down to whole rounds of HELLOs, or to whole runs of 192 for
    /// `Queries`. Returns how many, and how long that took without making the nodes; `None` for lack of memory. An
    /// error of the clock is passed on.
    pub fn run(self, rt: &HostRuntime, steps: u32) -> io::Result<Option<(u64, Duration)>> {
        match self {
            Talk::Hellos => time_hellos(rt, steps),
            Talk::Queries => time_queries(rt, steps),
        }
    }
}

/// Makes `steps / 2` rounds, each a HELLO interval after the one before. Returns how many frames there were, and how
/// long the rounds took; `None` if memory runs out. An error of the clock is passed on.
fn time_hellos(rt: &HostRuntime, steps: u32) -> io::Result<Option<(u64, Duration)>> {
    let Some(mut pair) = Pair::new(rt.alloc()) else {
        return Ok(None);
    };
    let mut count = 0u64;
    let start = Instant::now(rt)?;
    for round in 0..steps / 2 {
        let now = (u64::from(round) + 1) * Times::STANDARD.hello;
        count = count.wrapping_add(pair.pass(now));
    }
    Ok(Some((count, start.elapsed(rt)?)))
}

/// Makes `steps / 192` pairs and calls `ask` on each. Returns how many frames there were, and how long the calls took;
/// `None` if memory runs out. An error of the clock is passed on.
fn time_queries(rt: &HostRuntime, steps: u32) -> io::Result<Option<(u64, Duration)>> {
    let mut count = 0u64;
    let mut passed = Duration::ZERO;
    for _ in 0..steps / 192 {
        let Some(mut pair) = Pair::new(rt.alloc()) else {
            return Ok(None);
        };
        let start = Instant::now(rt)?;
        count = count.wrapping_add(pair.ask());
        passed = passed.saturating_add(start.elapsed(rt)?);
    }
    Ok(Some((count, passed)))
}
