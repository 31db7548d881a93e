//! Two link ends whose frames are lost, repeated and reordered.

use super::link_turns::open_end;
use super::made::query_of;
use super::sees::{same, same_at, sees};
use std::alloc::Global;
use std::process::Abort;
use tora_arq::{LinkEnd, LinkEvent, Times};
use tora_frame::{Frame, Version};

/// A generator of pseudo-random numbers; `seed` is its state.
#[derive(Drop)]
struct Dice {
    seed: u64,
}

impl Dice {
    /// A number below `sides`, or 0 if `sides` is 0.
    fn roll(&mut self, sides: u64) -> u64 {
        self.seed = self
            .seed
            .wrapping_mul(6_364_136_223_846_793_005)
            .wrapping_add(1_442_695_040_888_963_407);
        (self.seed >> 33).checked_rem(sides).unwrap_or(0)
    }
}

/// Times with which no loss ends a session.
const PATIENT: Times = Times {
    hello: 10,
    silent: 1_000_000,
    retry: 5,
    tries: 1_000_000,
};

/// The ends of nodes 1 and 2, the frames in flight in both directions, and the generator that decides what is lost,
/// repeated and reordered.
#[derive(Drop)]
struct Network {
    one: LinkEnd,
    two: LinkEnd,
    frames: Vec<Frame>,
    dice: Dice,
}

impl Network {
    /// The ends of nodes 1 and 2, opened with the session numbers 5 and 9, with no frame in flight. That of node 1
    /// speaks version 2, and that of node 2 the version `second`.
    fn new(rt: &impl Abort, alloc: Global, second: Version) -> Network {
        Network {
            one: open_end(rt, alloc, Version::Two, (1, 2), PATIENT, 5),
            two: open_end(rt, alloc, second, (2, 1), PATIENT, 9),
            frames: Vec::new(alloc),
            dice: Dice { seed: 1 },
        }
    }

    /// Takes the first frame due of the first end (`is_first`) or of the second, and puts it in flight, or loses it
    /// with probability 1/8. Nothing happens if no frame is due, or if 64 frames are in flight.
    fn transmit(&mut self, rt: &impl Abort, is_first: bool, now: u64) {
        if self.frames.len() >= 64 {
            return;
        }
        let end = if is_first {
            &mut self.one
        } else {
            &mut self.two
        };
        if let Some(frame) = end.poll_transmit(now) {
            if self.dice.roll(8) > 0 {
                self.frames.push(frame).expect(rt, "memory");
            }
        }
    }

    /// Delivers a frame in flight, chosen by the generator, to its receiver; with probability 1/8 it also stays in
    /// flight. Returns false if no frame is in flight.
    fn hand(&mut self, now: u64) -> bool {
        let place = self.dice.roll(self.frames.len() as u64) as usize;
        let Some(frame) = self.frames.get(place) else {
            return false;
        };
        if frame.header().receiver == 1 {
            self.one.on_frame(frame, now);
        } else {
            self.two.on_frame(frame, now);
        }
        if self.dice.roll(8) > 0 {
            self.frames.swap_remove(place);
        }
        true
    }
}

/// Submits the query for destination `submitted` + 1 at an end, checks that it is accepted, and returns that number. If
/// the end is not bound, or 100 packets or more are not acknowledged, submits nothing and returns `submitted`.
fn submit_next(rt: &impl Abort, end: &mut LinkEnd, submitted: u64) -> u64 {
    let Some(life) = end.life() else {
        return submitted;
    };
    if end.waiting() >= 100 {
        return submitted;
    }
    let next = submitted.saturating_add(1);
    let answer = end.submit(life, query_of(rt, next));
    same_at(rt, &answer, &Ok(()), "submitted", &next);
    next
}

/// Polls an end 64 times, and returns `delivered` plus the count of packets delivered. Checks that packet n is the
/// query for n, that no packet comes before `Up`, and that no `Down` comes.
fn count_delivered(rt: &impl Abort, end: &mut LinkEnd, delivered: u64) -> u64 {
    let mut delivered = delivered;
    for _ in 0..64 {
        match end.poll_event() {
            Some(LinkEvent::Deliver(_, packet)) => {
                delivered = delivered.saturating_add(1);
                same(rt, &packet, &query_of(rt, delivered), "the packet");
            }
            Some(LinkEvent::Up(_)) => same(rt, &delivered, &0, "none before"),
            Some(LinkEvent::Down(_, reason)) => same_at(rt, &false, &true, "up", &reason),
            None => {}
        }
    }
    delivered
}

/// Delivers 10,000 frames, with eight turns in each tick, and checks that each end delivers the other's packets in
/// order, each once, and more than 1,000 of them.
fn packets_come_out(rt: &impl Abort, mut network: Network) {
    let mut sent = 0;
    let mut came = 0;
    let mut back = 0;
    let mut came_back = 0;
    let mut handed = 0u64;
    for turn in 0..40_000u64 {
        if handed < 10_000 {
            let now = turn / 8;
            sent = submit_next(rt, &mut network.one, sent);
            back = submit_next(rt, &mut network.two, back);
            network.transmit(rt, turn % 2 == 0, now);
            network.transmit(rt, turn % 3 == 0, now);
            if network.hand(now) {
                handed = handed.saturating_add(1);
            }
            came = count_delivered(rt, &mut network.two, came);
            came_back = count_delivered(rt, &mut network.one, came_back);
        }
    }
    let counts = [came, sent, came_back, back];
    same(rt, &handed, &10_000, "how many frames");
    let are_many = came > 1_000 && came_back > 1_000;
    same_at(rt, &are_many, &true, "many packets", &counts);
    sees(rt, came <= sent && came_back <= back, "none made up");
}

#[test]
fn packets_come_out_once_in_order_whatever_comes(rt: HostRuntime) {
    packets_come_out(&rt, Network::new(&rt, rt.alloc(), Version::Two));
}

#[test]
fn packets_come_out_of_ends_of_two_versions(rt: HostRuntime) {
    packets_come_out(&rt, Network::new(&rt, rt.alloc(), Version::One));
}
