//! A node and its threads.
ghost use Rattle.std.specs.Prelude.{◌≡◌, [], length};
ghost use Rattle.tora_lane.specs.Ports.{IsPortOf};
ghost use Rattle.tora_node.specs.NewLinks.{IsOpened};
ghost use Rattle.tora_node.specs.NodeRuns.{tally_of, place_of, fault_of_link, first_link_fault, first_fault};
ghost use Rattle.tora_node.specs.Threads.{Each, HasEnds};
ghost use Rattle.tora_node.specs.Settled.{SettlesTo};
ghost use Rattle.tora_node.specs.WholeRuns.{NodeAnswers};

use crate::config::Config;
use crate::core_task::{CoreRest, new_core_start};
use crate::fault::NodeError;
use crate::link_task::{LinkRest, Outcome};
use crate::settle::settle_links;
use crate::starting::{new_ends, new_lanes, new_links, new_starts};
use crate::threads::{Rests, Tasks, run_threads};
use log::Log;
use std::alloc::Global;
use std::io::{Read, Write};
use std::marker::Model;
use std::sync::Wait;
use std::thread::Threads;
use tora_core::Core;
use tora_height::Id;
use tora_lane::{OutPuts, Settling, what_was_offered_was_sent};
use tora_life::Disk;
use tora_neighbour::{Clock, LinkFault, Tally, Wake, Wire};
use tora_seat::CoreSeat;

/// A node that has ended. Contracts see its core, the tally of each neighbour in ascending order, the items that the
/// core took, and whether its port returned `Gone`.
#[derive(Drop)]
pub struct Ended {
    seat: CoreSeat,
    outcomes: Vec<Outcome>,
    port: Settling,
}

impl Model for Ended {
    ghost use Rattle.std.specs.Prelude.{map};
    ghost use Rattle.tora_node.specs.NodeRuns.{EndedView};

    ghost Value = { EndedView };

    ghost view = { λ e. record {
      core = e.seat.core;
      tallies = map (λ o. o.tally) e.outcomes.items;
      taken = e.port.taken;
      gone = e.port.gone;
    } };
}

impl Ended {
    /// The core at the end.
    pub fn core(&self) -> &Core
        ensures { result.now ≡ self.now.core }
    {
        self.seat.core()
    }

    /// The counts of datagrams from a neighbour, by verdict or error; `None` if there is no such neighbour.
    pub fn tally(&self, peer: Id) -> Option<Tally>
        ensures { result ≡ tally_of self.now peer }
    {
        let place = place_of(self.seat.core().neighbours(), peer)?;
        self.outcomes.get(place).map(|outcome| outcome.tally)
    }
}

/// The index of `peer` among the neighbours, from 0; `None` if it is not one of them.
fn place_of(neighbours: &[Id], peer: Id) -> Option<usize>
    ensures { result ≡ place_of neighbours.now peer }
{
    neighbours.iter().position(|n| *n == peer)
}

/// The fault of a node for the fault of a neighbour's thread.
fn fault_of(peer: Id, fault: LinkFault) -> NodeError
    ensures { result ≡ fault_of_link peer fault }
{
    match fault {
        LinkFault::Life(error) => NodeError::Life(peer, error),
        LinkFault::Wire => NodeError::Wire(peer),
    }
}

/// The fault of the lowest neighbour whose thread ended by one; `None` if there is none.
#[tactic(auto, using(crate::proofs::Faults::fault_here, crate::proofs::Faults::fault_behind, crate::proofs::Faults::no_fault_behind, crate::proofs::Faults::no_outcome))]
fn first_link_fault(neighbours: &[Id], outcomes: &[Outcome]) -> Option<NodeError>
    ensures { result ≡ first_link_fault neighbours.now outcomes.now }
{
    for i in 0..neighbours.len() {
        match outcomes.get(i) {
            None => return None,
            Some(outcome) => match outcome.fault {
                None => {}
                Some(fault) => return Some(fault_of(neighbours[i], fault)),
            },
        }
    }
    None
}

/// The first fault: the core's, otherwise that of the lowest neighbour that has one; `None` if there is none.
fn first_fault(
    core: Option<NodeError>,
    neighbours: &[Id],
    outcomes: &[Outcome],
) -> Option<NodeError>
    ensures { result ≡ first_fault core neighbours.now outcomes.now }
{
    match core {
        Some(fault) => Some(fault),
        None => first_link_fault(neighbours, outcomes),
    }
}

/// Joins the ends of a node's queues after its threads have ended, and returns the first fault or the ended node, with
/// the writer. `outcomes` is empty before.
fn settled<Wr: Drop>(
    rests: Rests<CoreRest<Wr>, LinkRest>,
    outcomes: Vec<Outcome>,
) -> (Result<Ended, NodeError>, Wr)
    requires ends { Each (HasEnds rests.core.port.lane) rests.links.items rests.core.outs.ends.items }
    requires command { IsPortOf rests.core.port rests.command }
    requires new { outcomes.items ≡ [] }
    ensures settles { SettlesTo rests.core rests.links.items rests.command result.0 }
    ensures writer { result.1 ≡ rests.core.writer }
{
    let Rests {
        core,
        links,
        command,
        end: _,
    } = rests;
    let CoreRest {
        seat,
        port,
        outs,
        fault,
        writer,
    } = core;
    let OutPuts { ends } = outs;
    let mut port = port;
    let Some(outcomes) = settle_links(&mut port, ends, links, outcomes) else {
        return (Err(NodeError::Memory), writer);
    };
    port.settle(command);
    match first_fault(fault, seat.core().neighbours(), outcomes.as_slice()) {
        Some(fault) => (Err(fault), writer),
        None => {
            let ended = Ended {
                seat,
                outcomes,
                port,
            };
            (Ok(ended), writer)
        }
    }
}

/// What a node is made of: its configuration; a wire, a disk and a clock for each link, in ascending order of the
/// neighbours; and a clock for the commands.
#[derive(Drop)]
pub struct NodeParts<W, D, K, C> {
    /// The node, its neighbours and its destinations.
    pub config: Config,
    /// The wire of each link.
    pub wires: Vec<W>,
    /// The disk with the life file of each link.
    pub disks: Vec<D>,
    /// The wakers of the neighbours' threads, in the order of the wires. A thread without a waker is not woken.
    pub wakers: Vec<K>,
    /// The clock of each link.
    pub clocks: Vec<C>,
    /// The clock of the commands.
    pub command_clock: C,
}

/// Runs a node until its commands or a fault of its core end it, and returns the writer. The writer is `None` only if
/// the result is `Memory`.
///
/// First it makes the core, the link ends and the queues, and opens the life files in order; after a fault here no
/// thread starts. Then the core and each neighbour have a thread, and this thread reads the commands as `run_commands`
/// does. The core's thread prints their output, as `run_core` does. A link whose thread has ended by a fault is down
/// from then on, and the others go on.
///
/// The thread of a neighbour is woken when a message was put into its queue. No contract states that a thread is woken.
///
/// # Errors
/// Without a thread: `Lane` if there are no neighbours or more than there can be queues for, and `Life` with the
/// neighbour if its life file does not open. `Memory` may come at any point, also if a thread cannot be started. After
/// all threads have ended: the fault of the core (`Memory`, `Output`), otherwise that of the lowest neighbour (`Life`,
/// `Wire`).
pub fn run_node<
    R: Threads + Wait + Log + Sync,
    D: Disk + Send + Drop,
    W: Wire + Send + Drop,
    K: Wake + Send + Drop,
    C: Clock + Send + Drop,
    Rd: Read,
    Wr: Write + Send + Drop,
>(
    rt: &R,
    alloc: Global,
    parts: NodeParts<W, D, K, C>,
    reader: &mut Rd,
    writer: Wr,
) -> (Result<Ended, NodeError>, Option<Wr>)
    requires wires { length parts.wires.items ≡ length parts.config.neighbours }
    requires disks { length parts.disks.items ≡ length parts.config.neighbours }
    requires clocks { length parts.clocks.items ≡ length parts.config.neighbours }
    ensures { NodeAnswers W.did_send W.did_receive C.did_tell (IsOpened D.syncs D.reads D.writes) Wr.contents
        parts.config parts.wires.items parts.disks.items parts.clocks.items parts.command_clock
        (Rd.remaining reader.old) writer result.1 result.0 }
{
    what_was_offered_was_sent();
    let core = parts.config.into_core();
    let Some(ends) = new_ends(alloc, &core) else {
        return (Err(NodeError::Memory), Some(writer));
    };
    let lanes = match new_lanes(rt, alloc, core.neighbours().len()) {
        Ok(lanes) => lanes,
        Err(fault) => return (Err(fault), Some(writer)),
    };
    let new = match new_links(alloc, ends, parts.disks, parts.wires) {
        Ok(new) => new,
        Err(fault) => return (Err(fault), Some(writer)),
    };
    let Some(starts) = new_starts(alloc, new, lanes.links, parts.clocks) else {
        return (Err(NodeError::Memory), Some(writer));
    };
    let mut outcomes = Vec::new(alloc);
    let Ok(()) = outcomes.reserve(starts.len()) else {
        return (Err(NodeError::Memory), Some(writer));
    };
    let core = match new_core_start(alloc, core, lanes.core, lanes.outs, parts.wakers, writer) {
        Ok(core) => core,
        Err(writer) => return (Err(NodeError::Memory), Some(writer)),
    };
    let tasks = Tasks {
        core,
        links: starts,
        command: lanes.command,
    };
    let Some(rests) = run_threads(rt, alloc, tasks, parts.command_clock, reader) else {
        return (Err(NodeError::Memory), None);
    };
    let (ended, writer) = settled(rests, outcomes);
    (ended, Some(writer))
}
