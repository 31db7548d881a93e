//! Times the queues (lanes) of a node: the one into the core, into which three threads put, and one to a neighbour.
use crate::threads::lane_runs::{run_core_lane, run_out_lane};
use std::alloc::Global;
use std::io;
use std::rt::Clock;
use std::sync::Wait;
use std::thread::Threads;
use std::time::{Duration, Instant};

/// How many times each run is made; the best one counts.
const RUNS: u32 = 7;

/// Prints the line of a bench: its name, nanoseconds an operation in the best run, and how many operations a run had.
fn line<R: Print>(rt: &R, name: &str, best: Option<Duration>, count: u64) -> io::Result<()> {
    let nanoseconds = best.map_or(0, |least| least.as_nanos());
    let hundredths = nanoseconds.saturating_mul(100) / u128::from(count.max(1));
    let (whole, part) = (hundredths / 100, hundredths % 100);
    println!(rt; "{name} {whole}.{part:02} ns/op count {count}")
}

/// What is timed.
#[derive(Clone, Copy)]
enum Lane {
    IntoCore,
    ToNeighbour,
}

impl Lane {
    /// The name that the printed line begins with.
    fn name(self) -> &'static str {
        match self {
            Lane::IntoCore => "lane-core",
            Lane::ToNeighbour => "lane-out",
        }
    }

    /// Makes a run, and returns how many operations it had: items taken, or messages received; 0 if memory runs out.
    fn run<R: Threads + Wait + Sync>(self, rt: &R, alloc: Global, count: u32) -> u64 {
        match self {
            Lane::IntoCore => run_core_lane(rt, alloc, count),
            Lane::ToNeighbour => run_out_lane(rt, alloc, count),
        }
    }
}

/// Times a queue, and prints its line.
fn time<R: Clock + Print + Threads + Wait + Sync>(
    rt: &R,
    alloc: Global,
    lane: Lane,
    count: u32,
) -> io::Result<()> {
    let mut best: Option<Duration> = None;
    let mut taken = 0;
    for _ in 0..RUNS {
        let start = Instant::now(rt)?;
        taken = lane.run(rt, alloc, count);
        let passed = start.elapsed(rt)?;
        best = Some(best.map_or(passed, |least| least.min(passed)));
    }
    line(rt, lane.name(), best, taken)
}

/// Times both queues: `count` items from each of three threads, and `count` outbound messages.
pub fn time_lanes<R: Clock + Print + Threads + Wait + Sync>(
    rt: &R,
    alloc: Global,
    count: u32,
) -> io::Result<()> {
    time(rt, alloc, Lane::IntoCore, count)?;
    time(rt, alloc, Lane::ToNeighbour, count)
}
