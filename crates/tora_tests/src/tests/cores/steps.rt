//! Worked runs of cores as tables of steps, and the functions that make them.
use super::super::made::{Parts, clear, core_of, entry_of, query_for, update};
use super::super::sees::same_at;
use std::alloc::Global;
use std::process::Abort;
use tora_core::{Core, Input, Sends};
use tora_height::Id;
use tora_packet::Packet;

/// A node, its neighbours and the destinations of its table.
pub type Node = (Id, &'static [Id], &'static [Id]);

/// A packet: a query for a destination; an update for destination 4 with tau, oid, r, delta and id; or a clear for
/// destination 4 with tau and oid.
#[derive(Clone, Copy, Debug)]
pub enum Sent {
    Qry(Id),
    Upd(u64, Id, u8, i32, Id),
    Clr(u64, Id),
}

/// An input: the link to a neighbour comes up or goes down, a route to a destination is required, or a packet of a
/// neighbour arrives.
#[derive(Clone, Copy, Debug)]
pub enum Given {
    Up(Id),
    Down(Id),
    Need(Id),
    From(Id, Sent),
}

/// A step of a run: an action of a node at a tick, or an observation.
#[derive(Clone, Copy, Debug)]
pub enum Step {
    /// The node accepts an input at a tick, and broadcasts exactly these packets, in this order.
    Takes(Id, u64, Given, &'static [Sent]),
    /// The node refuses an input at a tick, with the error of this number.
    Refuses(Id, u64, Given, u8),
    /// The node has this height for destination 4; `None` is NULL.
    Has(Id, Option<Parts>),
    /// The node has this next hop to destination 4, or none.
    Goes(Id, Option<Id>),
    /// The node's table prints this text.
    Shows(Id, &'static str),
}

/// The packet that a row names.
pub fn packet_of(rt: &impl Abort, sent: Sent) -> Packet {
    match sent {
        Sent::Qry(destination) => query_for(rt, destination),
        Sent::Upd(tau, oid, r, delta, id) => update(rt, tau, oid, r, delta, id),
        Sent::Clr(tau, oid) => clear(rt, tau, oid),
    }
}

/// The input that a row names.
pub fn input_of(rt: &impl Abort, given: Given) -> Input {
    match given {
        Given::Up(k) => Input::LinkUp(k),
        Given::Down(k) => Input::LinkDown(k),
        Given::Need(d) => Input::Need(d),
        Given::From(k, sent) => Input::Packet(k, packet_of(rt, sent)),
    }
}

/// Steps an input at a core at tick `now`. Checks that exactly the packets of `Ok` are broadcast, or that the input is
/// refused with the error number of `Err` and nothing is broadcast.
fn steps(
    rt: &impl Abort,
    core: &mut Core,
    now: u64,
    given: Given,
    wanted: Result<&[Sent], u8>,
    row: &Step,
) {
    let (refusal, packets) = match wanted {
        Ok(packets) => (None, packets),
        Err(number) => (Some(number), [].as_slice()),
    };
    let mut sends = Sends::new();
    let answer = core.step_into(&input_of(rt, given), now, &mut sends);
    let number = answer.err().map(|error| error.number());
    same_at(rt, &number, &refusal, "the refusal", row);
    same_at(rt, &sends.len(), &packets.len(), "how many packets", row);
    for (packet, sent) in sends.iter().zip(packets.iter()) {
        same_at(rt, packet, &packet_of(rt, *sent), "the packet", row);
    }
}

/// The core of node `node` among `cores`; the test fails if there is none.
fn core_in<'a>(rt: &impl Abort, cores: &'a mut [Core], node: Id) -> &'a mut Core {
    let found = cores.iter_mut().find(|core| core.me() == node);
    found.expect(rt, "a node")
}

/// Makes one step of a table.
fn does(rt: &impl Abort, alloc: Global, cores: &mut [Core], row: &Step) {
    match *row {
        Step::Takes(node, now, given, sent) => {
            steps(rt, core_in(rt, cores, node), now, given, Ok(sent), row);
        }
        Step::Refuses(node, now, given, number) => {
            steps(rt, core_in(rt, cores, node), now, given, Err(number), row);
        }
        Step::Has(node, parts) => {
            let wanted = Some(entry_of(rt, parts));
            same_at(
                rt,
                &core_in(rt, cores, node).height(4),
                &wanted,
                "the height",
                row,
            );
        }
        Step::Goes(node, hop) => {
            same_at(
                rt,
                &core_in(rt, cores, node).next_hop(4),
                &hop,
                "the next hop",
                row,
            );
        }
        Step::Shows(node, text) => {
            let shown = core_in(rt, cores, node).show(alloc).expect(rt, "memory");
            same_at(rt, &shown.as_str(), &text, "the text", row);
        }
    }
}

/// The cores of these nodes, with no link up.
fn cores_of(rt: &impl Abort, alloc: Global, nodes: &[Node]) -> Vec<Core> {
    let mut cores = Vec::new(alloc);
    for (me, neighbours, destinations) in nodes {
        let core = core_of(rt, alloc, *me, neighbours, destinations).expect(rt, "a core");
        cores.push(core).expect(rt, "memory");
    }
    cores
}

/// Makes the steps of each table, one table after the other, at new cores of these nodes.
pub fn runs(rt: &impl Abort, alloc: Global, nodes: &[Node], tables: &[&[Step]]) {
    let mut cores = cores_of(rt, alloc, nodes);
    for table in tables {
        for row in *table {
            does(rt, alloc, cores.as_mut_slice(), row);
        }
    }
}
