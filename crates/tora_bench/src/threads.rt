//! Times the queues (lanes) of a node and a link between two neighbours' threads.
mod lane_runs;
mod lanes;
mod link;
mod paced_hub;

use lanes::time_lanes;
use link::time_link;
use log::Log;
use std::alloc::Global;
use std::io;
use std::net::Net;
use std::sync::Wait;
use std::thread::Threads;
use std::time::Clock;

/// What is timed.
#[derive(Clone, Copy)]
pub enum Timed {
    Lanes,
    Link,
    KeyedLink,
}

impl Timed {
    /// The bench that a word names; `None` for a word other than `lanes`, `udp` and `udp-keyed`.
    pub fn named(word: &str) -> Option<Timed> {
        match word {
            "lanes" => Some(Timed::Lanes),
            "udp" => Some(Timed::Link),
            "udp-keyed" => Some(Timed::KeyedLink),
            _ => None,
        }
    }

    /// Runs the bench with this number of operations, and prints its lines.
    pub fn run<R: Clock + Log + Net + Print + Threads + Wait + Sync>(
        self,
        rt: &R,
        alloc: Global,
        count: u32,
    ) -> io::Result<()> {
        match self {
            Timed::Lanes => time_lanes(rt, alloc, count),
            Timed::Link => time_link(rt, alloc, count, false),
            Timed::KeyedLink => time_link(rt, alloc, count, true),
        }
    }
}
