//! The work of a neighbour's thread.

use crate::log_hub::LogHub;
use crate::start::{NewLink, Start};
use crate::task::Task;
use log::{Log, info};
use std::sync::Wait;
use tora_life::Disk;
use tora_neighbour::{Clock, Finished, LaneHub, LinkFault, Tally, Wire, run_neighbour};

/// The result of a neighbour's thread.
#[derive(Clone, Copy)]
pub(crate) struct Outcome {
    pub(crate) fault: Option<LinkFault>,
    pub(crate) tally: Tally,
}

/// What a neighbour's thread returns at its end: its result, and its ends of the queues.
#[derive(Drop)]
pub(crate) struct LinkRest {
    pub(crate) outcome: Outcome,
    pub(crate) hub: LaneHub,
}

impl<D: Disk + Drop, W: Wire + Drop, C: Clock + Drop> Task<LinkRest> for Start<D, W, C> {
    ghost use Rattle.tora_node.specs.LinkRuns.{link_made};
    ghost use Rattle.tora_node.specs.Threads.{LinkLeaves};

    ghost leaves = { λ t rest. LinkLeaves W.did_send W.did_receive C.did_tell (link_made t.new) t.new.link.wire t.clock
        t.new.link.file.numbers.drawn t.hub rest };

    fn run<R: Wait + Log>(self, rt: &R) -> LinkRest {
        let Start { new, hub, clock } = self;
        let NewLink { link } = new;
        let peer = link.end.peer();
        let hub = LogHub { log: rt, peer, hub };
        let mut clock = clock;
        let Finished {
            link: _,
            hub,
            fault,
            tally,
        } = run_neighbour(rt, link, &mut clock, hub);
        let bad = bad_datagrams(&tally);
        info!(rt; "link {peer} bad datagrams {bad}");
        let LogHub {
            log: _,
            peer: _,
            hub,
        } = hub;
        LinkRest {
            outcome: Outcome { fault, tally },
            hub,
        }
    }
}

/// The number of datagrams that were not frames, at most 2^64 - 1.
fn bad_datagrams(tally: &Tally) -> u64 {
    let mut bad: u64 = 0;
    for number in 0..LAST_FRAME_ERROR {
        bad = bad.saturating_add(tally.of_bad(number + 1));
    }
    bad
}

/// The greatest number of a `FrameError`.
const LAST_FRAME_ERROR: u8 = 10;
