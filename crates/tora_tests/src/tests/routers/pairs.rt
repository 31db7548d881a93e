//! Two routers, and the functions that pass the datagrams of each to the other.
use crate::tests::sees::sees;
use std::alloc::Global;
use std::process::Abort;
use tora_arq::Times;
use tora_core::{CoreLimits, Erasure};
use tora_frame::LONGEST_FRAME;
use tora_router::{Config, Router, RouterError};

/// The configuration of node 1.
pub const CONFIG_OF_ONE: Config = Config {
    me: 1,
    times: Times::STANDARD,
    erasure: Erasure::Plain,
    limits: CoreLimits::STANDARD,
};

/// The configuration of node 2.
const CONFIG_OF_TWO: Config = Config {
    me: 2,
    times: Times::STANDARD,
    erasure: Erasure::Plain,
    limits: CoreLimits::STANDARD,
};

/// The routers of the nodes 1 and 2, which are neighbours; 2 is the only destination.
#[derive(Drop)]
pub struct Pair {
    pub one: Router,
    pub two: Router,
}

/// The pair, with session numbers that begin at 5 and 9; an error means that memory ran out.
pub fn made(alloc: Global) -> Result<Pair, RouterError> {
    let one = Router::new(alloc, &CONFIG_OF_ONE, &[2], &[2], 5)?;
    let two = Router::new(alloc, &CONFIG_OF_TWO, &[1], &[2], 9)?;
    Ok(Pair { one, two })
}

/// The error of `Router::new` with these arguments; `None` if the router is made.
pub fn refusal(
    alloc: Global,
    config: &Config,
    neighbours: &[u32],
    destinations: &[u32],
    first_life: u64,
) -> Option<RouterError> {
    match Router::new(alloc, config, neighbours, destinations, first_life) {
        Ok(_) => None,
        Err(error) => Some(error),
    }
}

/// Passes the first datagram due of the router `from`, which is that of node `me`, to the router `to`. Returns false if
/// none is due.
fn passes(rt: &impl Abort, from: &mut Router, to: &mut Router, me: u32, now: u64) -> bool {
    let mut room = [0u8; LONGEST_FRAME];
    let Some((_, length)) = from.poll_datagram(now, &mut room) else {
        return false;
    };
    sees(
        rt,
        length <= LONGEST_FRAME,
        "the datagram stands in its room",
    );
    to.on_datagram(me, &room[..length], now);
    true
}

impl Pair {
    /// Passes each tick from `first` to `behind` - 1 to both routers and, at each tick, up to 16 datagrams of each to
    /// the other.
    pub fn runs(&mut self, rt: &impl Abort, first: u64, behind: u64) {
        for now in first..behind {
            self.one.on_tick(now);
            self.two.on_tick(now);
            for _ in 0..16 {
                passes(rt, &mut self.one, &mut self.two, 1, now);
                passes(rt, &mut self.two, &mut self.one, 2, now);
            }
        }
    }
}
