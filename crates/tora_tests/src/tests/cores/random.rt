//! A core compared with the plain implementation of the rules, on random inputs.
ghost use Rattle.std.specs.Prelude.{◌≤◌};

use super::super::plain_core::{Plain, Told, told_by};
use super::super::sees::same_at;
use std::alloc::Global;
use std::process::Abort;
use tora_core::{Core, CoreLimits, Erasure, Input, Sends};
use tora_height::{Height, Id};
use tora_packet::{Clear, Packet, Update};

/// A generator of pseudo-random numbers: xorshift on 64 bits.
#[derive(Drop)]
struct Random {
    state: u64,
}

impl Random {
    /// The next number of 64 bits.
    fn next(&mut self) -> u64 {
        let mut x = self.state;
        x ^= x.wrapping_shl(13);
        x ^= x.wrapping_shr(7);
        x ^= x.wrapping_shl(17);
        self.state = x;
        x
    }

    /// A pseudo-random number from 0 to `most`.
    fn up_to(&mut self, most: u8) -> u32
        ensures { result ≤ most }
    {
        let n = u64::from(most) + 1;
        ((self.next() >> 11) % n) as u32
    }
}

/// A random packet of neighbour `k` for destination `d`; `None` if its parts are out of range. An update sometimes has
/// the height of node `k` + 1. The time of a reference level is often 7, so that levels occur again.
fn any_packet(random: &mut Random, now: u64, k: Id, d: Id) -> Option<Packet> {
    let tau = if random.up_to(1) == 0 {
        7
    } else {
        now.saturating_sub(u64::from(random.up_to(9)))
    };
    let number = 1 + random.up_to(8);
    let oid = if number == 9 { 100 } else { number };
    match random.up_to(9) {
        0 => Packet::qry(d).ok(),
        1 => Some(Packet::Clr(Clear::new(d, tau.max(1), oid).ok()?)),
        choice => {
            let delta = random.up_to(6) as i32;
            let id = if choice == 2 { k.saturating_add(1) } else { k };
            let height = if random.up_to(2) == 0 {
                Height::new(0, 0, 0, 1 + delta, id)
            } else {
                Height::new(tau, oid, random.up_to(1) as u8, delta - 3, id)
            };
            Some(Packet::Upd(Update::new(d, height.ok()?).ok()?))
        }
    }
}

/// A random input, which may be refused: neighbour 9 and destination 20 do not exist. `None` if `any_packet` returns
/// `None`.
fn any_input(random: &mut Random, now: u64) -> Option<Input> {
    let k = 1 + random.up_to(8);
    let d = 5 + random.up_to(15);
    match random.up_to(19) {
        0 => Some(Input::LinkDown(k)),
        1 | 2 => Some(Input::LinkUp(k)),
        3 => Some(Input::Need(d)),
        _ => Some(Input::Packet(k, any_packet(random, now, k, d)?)),
    }
}

/// Checks that both implementations broadcast the same packets at an input.
fn same_sends(rt: &impl Abort, sends: &Sends, told: &[Told], input: &Input) {
    same_at(rt, &sends.len(), &told.len(), "how many packets", input);
    for (packet, told) in sends.iter().zip(told.iter()) {
        same_at(rt, &told_by(packet), told, "the packet", input);
    }
}

/// Both implementations, after the same inputs.
#[derive(Drop)]
struct Both {
    core: Core,
    plain: Plain,
}

/// Steps an input in both implementations, and checks that the results are the same.
fn same_step(
    rt: &impl Abort,
    alloc: Global,
    both: &mut Both,
    input: &Input,
    now: u64,
    sends: &mut Sends,
) {
    let answer = both.core.step_into(input, now, sends);
    match both.plain.step(alloc, input, now).expect(rt, "memory") {
        Err(error) => {
            same_at(rt, &answer.err(), &Some(error), "the refusal", input);
            same_sends(rt, sends, &[], input);
        }
        Ok(told) => {
            same_at(rt, &answer.err(), &None, "the refusal", input);
            same_sends(rt, sends, told.as_slice(), input);
        }
    }
}

/// Checks that both implementations print the same table.
fn same_tables(rt: &impl Abort, alloc: Global, both: &Both, turn: u32) {
    let shown = both.core.show(alloc).expect(rt, "memory");
    let other = both.plain.show(alloc).expect(rt, "memory");
    same_at(rt, &shown.as_str(), &other.as_str(), "the tables", &turn);
}

/// Steps a random input in each of 10,000 turns, unless `any_input` gives none, at node 100 in both implementations.
/// Checks that the results agree, and the tables after every 100th turn.
fn answer_alike(rt: &impl Abort, alloc: Global, erasure: Erasure) {
    let neighbours = [1, 2, 3, 4, 5, 6, 7, 8];
    let destinations = [5, 6, 7, 8, 9, 10, 11, 12, 13, 14, 15, 16, 17, 18, 19, 100];
    let limits = CoreLimits::STANDARD;
    let core = Core::with_erasure(alloc, erasure, limits, 100, &neighbours, &destinations).expect(
        rt, "a core",
    );
    let remembers = erasure == Erasure::Remembered;
    let plain = Plain::new(alloc, remembers, 100, &neighbours, &destinations).expect(rt, "memory");
    let mut both = Both { core, plain };
    let mut random = Random {
        state: 88172645463325252,
    };
    let mut sends = Sends::new();
    let mut now = 0u64;
    for turn in 0..10_000 {
        now = now.saturating_add(u64::from(random.up_to(2)));
        if let Some(input) = any_input(&mut random, now) {
            same_step(rt, alloc, &mut both, &input, now, &mut sends);
        }
        if turn % 100 == 99 {
            same_tables(rt, alloc, &both, turn);
        }
    }
}

#[test]
fn plain_body_answers_alike(rt: HostRuntime) {
    answer_alike(&rt, rt.alloc(), Erasure::Plain);
}

#[test]
fn plain_body_that_remembers_answers_alike(rt: HostRuntime) {
    answer_alike(&rt, rt.alloc(), Erasure::Remembered);
}
