//! The inputs of the mixes.
ghost use Rattle.std.specs.Prelude.{◌≤◌, ◌<◌};

use arrayvec::ArrayVec;
use std::alloc::{AllocError, Global};
use tora_core::{Core, Input};
use tora_height::{Height, Id};
use tora_packet::{Clear, LONGEST_PACKET, Packet, Update, encode};

/// The neighbours of a small core, whose destinations are `DESTINATIONS`.
const NEIGHBOURS: [Id; 8] = [1, 2, 3, 4, 5, 6, 7, 8];

const DESTINATIONS: [Id; 16] = [5, 6, 7, 8, 9, 10, 11, 12, 13, 14, 15, 16, 17, 18, 19, 20];

/// The neighbours of a large core: as many as the standard limits allow.
const MOST_NEIGHBOURS: [Id; 32] = [
    1, 2, 3, 4, 5, 6, 7, 8, 9, 10, 11, 12, 13, 14, 15, 16, 17, 18, 19, 20, 21, 22, 23, 24, 25, 26,
    27, 28, 29, 30, 31, 32,
];

/// The destinations of a large core and of a core of a pair: as many as the limits allow.
pub const MOST_DESTINATIONS: [Id; 64] = [
    17, 18, 19, 20, 21, 22, 23, 24, 25, 26, 27, 28, 29, 30, 31, 32, 33, 34, 35, 36, 37, 38, 39, 40,
    41, 42, 43, 44, 45, 46, 47, 48, 49, 50, 51, 52, 53, 54, 55, 56, 57, 58, 59, 60, 61, 62, 63, 64,
    65, 66, 67, 68, 69, 70, 71, 72, 73, 74, 75, 76, 77, 78, 79, 80,
];

/// After how many updates `quiet_update` of a small core repeats: 7 neighbours, 12 destinations and 5 values of delta.
const QUIET_UPDATES: u32 = 420;

/// How large the table of a core is.
#[derive(Clone, Copy)]
pub enum Size {
    /// One neighbour and one destination.
    Least,
    /// 8 neighbours and 16 destinations, of which four are neighbours.
    Small,
    /// 32 neighbours and 64 destinations, of which 16 are neighbours.
    Large,
}

impl Size {
    /// The last neighbour; the first is 1.
    fn last_neighbour(self) -> u8
        ensures { (1 ≤ result) × (result ≤ 32) }
    {
        match self {
            Size::Least => 1,
            Size::Small => 8,
            Size::Large => 32,
        }
    }

    /// The name of a mix at this size: `large` for a large core, otherwise `small`.
    pub fn name(self, small: &'static str, large: &'static str) -> &'static str {
        match self {
            Size::Least | Size::Small => small,
            Size::Large => large,
        }
    }

    /// The first destination of a small or large core. For `Least` it is not used.
    fn first_destination(self) -> Id
        ensures { (1 ≤ result) × (result ≤ 17) }
    {
        match self {
            Size::Least => 1,
            Size::Small => 5,
            Size::Large => 17,
        }
    }

    /// The last destination.
    fn last_destination(self) -> u8
        ensures { (17 ≤ result) × (result ≤ 80) }
    {
        match self {
            Size::Least => 17,
            Size::Small => 20,
            Size::Large => 80,
        }
    }
}

/// A generator of numbers: xorshift on 64 bits.
#[derive(Drop)]
pub struct Random {
    state: u64,
}

impl Random {
    /// A generator with this seed. An even seed counts as the next odd number, so that the state is never 0.
    pub fn new(seed: u64) -> Random {
        Random { state: seed | 1 }
    }

    /// The next number of 64 bits.
    fn next(&mut self) -> u64 {
        let mut x = self.state;
        x ^= x.wrapping_shl(13);
        x ^= x.wrapping_shr(7);
        x ^= x.wrapping_shl(17);
        self.state = x;
        x
    }

    /// A number from 0 to `most`, at most 255.
    fn up_to(&mut self, most: u8) -> u32
        ensures { result ≤ most }
    {
        let n = u64::from(most) + 1;
        ((self.next() >> 11) % n) as u32
    }
}

/// The core of node 100 with this size and no link up; `None` if memory runs out.
pub fn fresh_core(alloc: Global, size: Size) -> Option<Core> {
    match size {
        Size::Least => Core::new(alloc, 100, &[1], &[17]).ok(),
        Size::Small => Core::new(alloc, 100, &NEIGHBOURS, &DESTINATIONS).ok(),
        Size::Large => Core::new(alloc, 100, &MOST_NEIGHBOURS, &MOST_DESTINATIONS).ok(),
    }
}

/// The core of node `me` with the neighbour `peer` and the destinations `MOST_DESTINATIONS`. `None` if memory runs out
/// or `me` is `peer`.
pub fn core_of_a_pair(alloc: Global, me: Id, peer: Id) -> Option<Core>
    requires me { 0 < me }
    requires peer { 0 < peer }
{
    Core::new(alloc, me, &[peer], &MOST_DESTINATIONS).ok()
}

/// The core of node 100 with 8 neighbours, all links up, and the one destination 20, to which it requires a route.
/// `None` if memory runs out.
pub fn small_core(alloc: Global) -> Option<Core> {
    let mut core = Core::new(alloc, 100, &NEIGHBOURS, &[20]).ok()?;
    for k in NEIGHBOURS {
        core.step(Input::LinkUp(k), 0).ok()?;
    }
    core.step(Input::Need(20), 0).ok()?;
    Some(core)
}

/// An update from neighbour `k` with this height for a destination; `None` if `height` is `None`.
fn update(k: Id, destination: Id, height: Option<Height>) -> Option<Input> {
    Some(Input::Packet(k, Packet::Upd(Update::new(destination, height?).ok()?)))
}

/// A core with all links up. Its destinations that are not neighbours have a route by neighbour 1. `None` if memory
/// runs out.
pub fn routed_core(alloc: Global, size: Size) -> Option<Core> {
    let mut core = fresh_core(alloc, size)?;
    let last = u32::from(size.last_neighbour());
    for k in 0..last {
        core.step(Input::LinkUp(k + 1), 0).ok()?;
    }
    for d in last + 1..u32::from(size.last_destination()) + 1 {
        core.step(Input::Need(d), 0).ok()?;
        let input = update(1, d, Height::new(0, 0, 0, 1, 1).ok())?;
        core.step(input, 0).ok()?;
    }
    Some(core)
}

/// The `i`th update that leaves the height of a small or large `routed_core` as it is.
pub fn quiet_update(size: Size, i: u32) -> Option<Input> {
    let (k, d) = match size {
        Size::Least => (1, 17),
        Size::Small => (2 + i % 7, 9 + i % 12),
        Size::Large => (2 + i % 31, 33 + i % 48),
    };
    let delta = 2 + (i % 5) as i32;
    update(k, d, Height::new(0, 0, 0, delta, k).ok())
}

/// The bytes of updates that leave the height of a small core as it is, with their neighbours: each `quiet_update`
/// once.
pub fn quiet_bytes(alloc: Global) -> Option<Vec<(Id, ArrayVec<u8, LONGEST_PACKET>)>> {
    let mut found = Vec::new(alloc);
    for i in 0..QUIET_UPDATES {
        if let Some(Input::Packet(k, packet)) = quiet_update(Size::Small, i) {
            found.push((k, encode(&packet))).ok()?;
        }
    }
    Some(found)
}

/// The `i`th update for a `small_core`, of neighbours 1 and 2 in turn, whose heights rise: every second update removes
/// the last downstream link.
pub fn reacting_update(i: u32) -> Option<Input> {
    let k = 1 + i % 2;
    let height = Height::new(1 + u64::from(i), 1 + i % 3, 0, 0, k).ok();
    update(k, 20, height)
}

/// A packet of neighbour `k` for destination `d` at about tick `now`: for a `choice` below 22 a query, below 30 a
/// clear, otherwise an update. `None` if the packet would be invalid.
fn mixed_packet(random: &mut Random, now: u64, k: Id, d: Id, choice: u32) -> Option<Input> {
    let tau = now.saturating_sub(u64::from(random.up_to(11)));
    let number = 1 + random.up_to(8);
    let oid = if number == 9 { 100 } else { number };
    if choice < 22 {
        return Some(Input::Packet(k, Packet::qry(d).ok()?));
    }
    if choice < 30 {
        return Some(Input::Packet(k, Packet::Clr(Clear::new(d, tau.max(1), oid).ok()?)));
    }
    let delta = random.up_to(8) as i32;
    let height = if tau == 0 || random.up_to(3) == 0 {
        Height::new(0, 0, 0, 1 + delta, k)
    } else {
        Height::new(tau, oid, random.up_to(1) as u8, delta - 4, k)
    };
    update(k, d, height.ok())
}

/// Mixed inputs for a core of a size, each with its tick. First all links come up. Of at most `count` further inputs,
/// about one in twenty is a change of a link, one in twenty a need, and the others are packets of neighbours whose
/// links are up.
pub fn mixed_inputs(
    alloc: Global,
    size: Size,
    count: u32,
) -> Result<Vec<(u64, Input)>, AllocError> {
    let mut random = Random::new(88172645463325253);
    let mut up = [true; 32];
    let mut inputs = Vec::new(alloc);
    let last = size.last_neighbour();
    for k in 0..u32::from(last) {
        inputs.push((0, Input::LinkUp(k + 1)))?;
    }
    let first = size.first_destination();
    let more = size.last_destination() - first as u8;
    let mut now = 1u64;
    for _ in 0..count {
        now = now.saturating_add(u64::from(random.up_to(2)));
        let place = random.up_to(last - 1);
        let (k, d) = (place + 1, first + random.up_to(more));
        let choice = random.up_to(99);
        let is_up = up[place as usize];
        let input = if choice < 5 {
            up[place as usize] = !is_up;
            Some(if is_up {
                Input::LinkDown(k)
            } else {
                Input::LinkUp(k)
            })
        } else if choice < 10 {
            Some(Input::Need(d))
        } else if is_up {
            mixed_packet(&mut random, now, k, d, choice)
        } else {
            None
        };
        if let Some(input) = input {
            inputs.push((now, input))?;
        }
    }
    Ok(inputs)
}
