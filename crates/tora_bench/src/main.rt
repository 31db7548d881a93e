//! Times calls of the crates, for the scripts under `bench/`. With no words it prints nothing.
//!
//! `tora_bench hold-least N`, `hold-small N` and `hold-large N` hold N cores at once. `tora_bench core N` times N steps
//! of a core on mixes of inputs: four with 8 neighbours and 16 destinations, three with 32 and 64, and one with 8 and
//! one. `tora_bench link N` times N packets that go from one link end to another and are acknowledged, one at a time
//! and a window at a time: in frames of one and in batches, and each of them as frames and as bytes.
//! `tora_bench codec N` encodes and decodes N updates, then N DATA frames of version 1 with an update each, and then N
//! DATA frames of version 2 with sixteen updates each. `tora_bench node N` passes about N datagrams as bytes between
//! two nodes, each with a core and a link end. Each line is a name, nanoseconds an operation (the best of seven runs),
//! and a number that depends on the results; for nodes it is the number of datagrams.
//!
//! `tora_bench lanes N` puts N items from each of three threads into the queue into the core, while the core takes
//! them, and sends N outbound messages from one thread to another through one queue. Each line has a name, nanoseconds
//! an operation (the best of seven runs), and the number of operations.
//!
//! `tora_bench udp N` binds two sockets of the loopback, runs `run_neighbour` at each end, and passes N updates of 32
//! bytes from one end to the other, in DATA frames of version 2 with up to sixteen updates each, with at most 32
//! unacknowledged. It prints nanoseconds a packet, from the first submission to the last delivery, and the number of
//! delivered packets. With `udp-keyed` the wires have a key.
#![tactic(auto)]

mod codec;
mod inputs;
mod links;
mod nodes;
mod threads;

use codec::Coded;
use inputs::{
    Size, fresh_core, mixed_inputs, quiet_bytes, quiet_update, reacting_update, routed_core,
    small_core,
};
use links::{Passed, run_link, run_window};
use nodes::Talk;
use std::alloc::Global;
use std::io;
use std::time::{Duration, Instant};
use threads::Timed;
use tora_core::{Core, Input, Sends};
use tora_frame::Version;
use tora_packet::{Packet, decode};

/// How many times each mix is run; the best run counts.
const RUNS: u32 = 7;

/// The number N if none, or none from 0 to 2^32 - 1, is given: the steps of one run, or the cores to hold.
const STEPS: u32 = 200_000;

/// Folds a result into a running number.
fn folded(sum: u64, value: u64) -> u64 {
    (sum ^ value).wrapping_mul(0x100000001b3)
}

/// A number that depends on the destination of a packet, on tau and id of an update's height, and on tau and oid of a
/// clear.
fn told(packet: &Packet) -> u64 {
    let parts = match packet {
        Packet::Qry(_) => 1,
        Packet::Upd(update) => update.height().tau() ^ u64::from(update.height().id()),
        Packet::Clr(clear) => clear.tau() ^ u64::from(clear.oid()),
    };
    folded(parts, u64::from(packet.destination()))
}

/// Folds the number of each packet into a running number.
fn folded_sends(sum: u64, sends: &Sends) -> u64 {
    sends
        .iter()
        .fold(sum, |sum, packet| folded(sum, told(packet)))
}

/// Steps the core by each input at its tick. Returns a number that depends on the broadcast packets and on the
/// refusals.
fn run_mixed(core: &mut Core, inputs: &[(u64, Input)]) -> u64 {
    let mut sends = Sends::new();
    let mut sum = 0xcbf29ce484222325u64;
    for (now, input) in inputs {
        sum = match core.step_into(input, *now, &mut sends) {
            Ok(()) => folded_sends(sum, &sends),
            Err(error) => folded(sum, u64::from(error.number())),
        };
    }
    sum
}

/// Makes one step. Returns one more than the number of packets that it broadcasts, or 0 if it is refused, so that
/// refused steps change the number of a run.
fn sent(core: &mut Core, input: &Option<Input>, now: u64, sends: &mut Sends) -> u64 {
    let Some(input) = input else {
        return 0;
    };
    match core.step_into(input, now, sends) {
        Ok(()) => (sends.len() as u64).wrapping_add(1),
        Err(_) => 0,
    }
}

/// Makes `steps` steps, each by a `quiet_update` at tick 1. Returns the sum of the results of `sent`.
fn run_quiet(size: Size, core: &mut Core, steps: u32) -> u64 {
    let mut sends = Sends::new();
    let mut sum = 0u64;
    for i in 0..steps {
        sum = sum.wrapping_add(sent(core, &quiet_update(size, i), 1, &mut sends));
    }
    sum
}

/// As `run_quiet` with a small core, but each update is decoded from bytes; `None` if memory runs out.
fn run_quiet_bytes(alloc: Global, core: &mut Core, steps: u32) -> Option<u64> {
    let updates = quiet_bytes(alloc)?;
    let mut sends = Sends::new();
    let mut sum = 0u64;
    let mut at = 0;
    for _ in 0..steps {
        let (k, bytes) = updates.get(at)?;
        let input = decode(bytes.as_slice())
            .ok()
            .map(|packet| Input::Packet(*k, packet));
        sum = sum.wrapping_add(sent(core, &input, 1, &mut sends));
        at = if at + 1 < updates.len() { at + 1 } else { 0 };
    }
    Some(sum)
}

/// Makes `steps` steps, each by a `reacting_update` at tick 1. Returns the sum of the results of `sent`.
fn run_reacting(core: &mut Core, steps: u32) -> u64 {
    let mut sends = Sends::new();
    let mut sum = 0u64;
    for i in 0..steps {
        sum = sum.wrapping_add(sent(core, &reacting_update(i), 1, &mut sends));
    }
    sum
}

/// Takes the link to neighbour 8 down and up again, `steps / 2` times. Returns the sum of the results of `sent`.
fn run_links(core: &mut Core, steps: u32) -> u64 {
    let mut sends = Sends::new();
    let mut sum = 0u64;
    for i in 0..steps / 2 {
        let now = u64::from(i);
        sum = sum.wrapping_add(sent(core, &Some(Input::LinkDown(8)), now, &mut sends));
        sum = sum.wrapping_add(sent(core, &Some(Input::LinkUp(8)), now, &mut sends));
    }
    sum
}

/// A mix of inputs, packets or frames that is timed.
#[derive(Clone, Copy)]
enum Mix {
    Mixed(Size),
    Quiet(Size),
    /// `Quiet` with a small core, each update decoded from bytes.
    QuietBytes,
    Reacting,
    Links(Size),
    /// One packet at a time between two link ends.
    Link,
    /// A window of packets between two link ends of a version.
    Window(Version, Passed),
    /// Packets or frames that are encoded and decoded.
    Codec(Coded),
}

impl Mix {
    /// The name that the printed line begins with.
    fn name(self) -> &'static str {
        match self {
            Mix::Mixed(size) => size.name("core-mixed", "core-large-mixed"),
            Mix::Quiet(size) => size.name("core-quiet", "core-large-quiet"),
            Mix::QuietBytes => "core-quiet-bytes",
            Mix::Reacting => "core-reacting",
            Mix::Links(size) => size.name("core-links", "core-large-links"),
            Mix::Link => "link-packet",
            Mix::Window(Version::One, Passed::Frame) => "link-window",
            Mix::Window(Version::One, Passed::Bytes) => "link-window-bytes",
            Mix::Window(Version::Two, Passed::Frame) => "link-batch",
            Mix::Window(Version::Two, Passed::Bytes) => "link-batch-bytes",
            Mix::Codec(coded) => coded.name(),
        }
    }

    /// A new core for a run; for a mix that uses none, the least one. `None` if memory runs out.
    fn core(self, alloc: Global) -> Option<Core> {
        match self {
            Mix::Mixed(size) => fresh_core(alloc, size),
            Mix::Reacting => small_core(alloc),
            Mix::Quiet(size) | Mix::Links(size) => routed_core(alloc, size),
            Mix::QuietBytes => routed_core(alloc, Size::Small),
            Mix::Link | Mix::Window(_, _) | Mix::Codec(_) => fresh_core(alloc, Size::Least),
        }
    }

    /// Makes one run: over `inputs` for `Mixed`, and with about `steps` operations for another mix. Returns a number
    /// that depends on the results; 0 if memory runs out.
    fn run(self, alloc: Global, core: &mut Core, inputs: &[(u64, Input)], steps: u32) -> u64 {
        match self {
            Mix::Mixed(_) => run_mixed(core, inputs),
            Mix::Quiet(size) => run_quiet(size, core, steps),
            Mix::QuietBytes => run_quiet_bytes(alloc, core, steps).unwrap_or(0),
            Mix::Reacting => run_reacting(core, steps),
            Mix::Links(_) => run_links(core, steps),
            Mix::Link => run_link(alloc, steps).unwrap_or(0),
            Mix::Window(version, passed) => run_window(alloc, steps, version, passed).unwrap_or(0),
            Mix::Codec(coded) => coded.run(alloc, steps).unwrap_or(0),
        }
    }

    /// The number of operations by which the time of a run is divided: the inputs of `Mixed`, the updates or frames of
    /// `Codec`, and `steps` of any other mix.
    fn count(self, inputs: &[(u64, Input)], steps: u32) -> u64 {
        match self {
            Mix::Mixed(_) => inputs.len() as u64,
            Mix::Quiet(_) | Mix::QuietBytes | Mix::Reacting | Mix::Links(_) => u64::from(steps),
            Mix::Link | Mix::Window(_, _) => u64::from(steps),
            Mix::Codec(_) => codec::count(steps),
        }
    }
}

/// Times a mix, and prints its line: the best of `RUNS` runs. If memory runs out, prints a message on standard error
/// instead.
fn time(rt: &HostRuntime, mix: Mix, inputs: &[(u64, Input)], steps: u32) -> io::Result<()> {
    let mut best: Option<Duration> = None;
    let mut sum = 0u64;
    for _ in 0..RUNS {
        let Some(mut core) = mix.core(rt.alloc()) else {
            return rt.eprintln("tora_bench: memory");
        };
        let start = Instant::now(rt)?;
        sum = mix.run(rt.alloc(), &mut core, inputs, steps);
        let passed = start.elapsed(rt)?;
        best = Some(best.map_or(passed, |least| least.min(passed)));
    }
    print(rt, mix.name(), best, mix.count(inputs, steps), sum)
}

/// Times two nodes, and prints the line: the best of `RUNS` runs. If memory runs out, prints a message on standard
/// error instead.
fn time_nodes(rt: &HostRuntime, talk: Talk, steps: u32) -> io::Result<()> {
    let mut best: Option<Duration> = None;
    let mut datagrams = 0u64;
    for _ in 0..RUNS {
        let Some((count, passed)) = talk.run(rt, steps)? else {
            return rt.eprintln("tora_bench: memory");
        };
        datagrams = count;
        best = Some(best.map_or(passed, |least| least.min(passed)));
    }
    print(rt, talk.name(), best, datagrams, datagrams)
}

/// Prints the line of the best run of `count` operations.
fn print(
    rt: &HostRuntime,
    name: &str,
    best: Option<Duration>,
    count: u64,
    sum: u64,
) -> io::Result<()> {
    let nanoseconds = best.map_or(0, |least| least.as_nanos());
    let hundredths = nanoseconds.saturating_mul(100) / u128::from(count.max(1));
    let (whole, part) = (hundredths / 100, hundredths % 100);
    println!(rt; "{name} {whole}.{part:02} ns/op check {sum:016x}")
}

/// The size of the cores that the word `hold-least`, `hold-small` or `hold-large` makes; `None` for any other word.
fn size_named(word: &str) -> Option<Size> {
    match word {
        "hold-least" => Some(Size::Least),
        "hold-small" => Some(Size::Small),
        "hold-large" => Some(Size::Large),
        _ => None,
    }
}

/// Makes `count` cores and holds them all at once, for a script that measures the memory of the process.
fn hold(rt: &HostRuntime, size: Size, count: u32) -> io::Result<()> {
    let mut cores = Vec::new(rt.alloc());
    for _ in 0..count {
        let Some(core) = fresh_core(rt.alloc(), size) else {
            return rt.eprintln("tora_bench: memory");
        };
        cores.push(core)?;
    }
    let held = cores.len();
    println!(rt; "{held} cores")
}

/// Times, of the mixes that have a small and a large size, those whose names begin with a word.
fn time_sizes(rt: &HostRuntime, word: &str, steps: u32) -> io::Result<()> {
    for size in [Size::Small, Size::Large] {
        let inputs = mixed_inputs(rt.alloc(), size, steps)?;
        for mix in [Mix::Mixed(size), Mix::Quiet(size), Mix::Links(size)] {
            if mix.name().starts_with(word) {
                time(rt, mix, inputs.as_slice(), steps)?;
            }
        }
    }
    Ok(())
}

/// Times the other mixes, and the exchanges of two nodes, whose names begin with a word.
fn time_others(rt: &HostRuntime, word: &str, steps: u32) -> io::Result<()> {
    for mix in [
        Mix::QuietBytes,
        Mix::Reacting,
        Mix::Link,
        Mix::Window(Version::One, Passed::Frame),
        Mix::Window(Version::One, Passed::Bytes),
        Mix::Window(Version::Two, Passed::Frame),
        Mix::Window(Version::Two, Passed::Bytes),
        Mix::Codec(Coded::Packet),
        Mix::Codec(Coded::Frame),
        Mix::Codec(Coded::Batch),
    ] {
        if mix.name().starts_with(word) {
            time(rt, mix, &[], steps)?;
        }
    }
    for talk in [Talk::Hellos, Talk::Queries] {
        if talk.name().starts_with(word) {
            time_nodes(rt, talk, steps)?;
        }
    }
    Ok(())
}

/// Times what the first word names; without a word nothing happens. N is the second word, or `STEPS` if it is missing
/// or no number below 2^32. Errors are passed on.
fn main(rt: HostRuntime) -> io::Result<()> {
    let words = std::env::args(&rt)?.collect::<Vec<String>>(rt.alloc())?;
    let Some(word) = words.get(1) else {
        return Ok(());
    };
    let steps = match words.get(2) {
        Some(number) => number.as_str().parse::<u32>().unwrap_or(STEPS),
        None => STEPS,
    };
    if let Some(size) = size_named(word.as_str()) {
        return hold(&rt, size, steps);
    }
    if let Some(timed) = Timed::named(word.as_str()) {
        return timed.run(&rt, rt.alloc(), steps);
    }
    time_sizes(&rt, word.as_str(), steps)?;
    time_others(&rt, word.as_str(), steps)
}
