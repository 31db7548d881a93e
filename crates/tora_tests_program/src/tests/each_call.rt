//! A call that fails at any place among the events of a run.
use super::sees::{sees, sees_at};
use std::alloc::{AllocError, Global};
use std::process::Abort;
use tora_arq::{Life, Times};
use tora_core::CoreError;
use tora_height::{Entry, Height, Id};
use tora_script::{
    Channel, ChannelTable, InFlight, Mark, Network, Parted, Simulator, WorldOptions, make_rounds,
};
use tora_sim::{Sim, Topology};
use tora_world::{Call, Event, Limits, SimError};

/// A simulator that stores the events that happen in it.
#[derive(Drop)]
struct Recorder {
    sim: Sim,
    events: Vec<Event>,
}

/// Appends `event` to `events`, `often` times. `Recorder::transmit` passes the number of new datagrams: each event that
/// sends a frame makes one, unless a send is armed to fail.
fn keep_often(events: &mut Vec<Event>, event: Event, often: u64) -> Result<(), AllocError> {
    for _ in 0..often {
        events.push(event)?;
    }
    Ok(())
}

impl Simulator for Recorder {
    ghost use Rattle.tora_sim.specs.Store.{world_of};

    ghost world = { λ recorder. world_of recorder.sim };

    fn start(
        alloc: Global,
        options: WorldOptions,
        links: &[(Id, Id)],
        dests: &[Id],
        marks: &[Mark],
        times: Times,
    ) -> Result<Recorder, CoreError> {
        let sim = <Sim as Simulator>::start(alloc, options, links, dests, marks, times)?;
        Ok(Recorder {
            sim,
            events: Vec::new(alloc),
        })
    }

    fn may_happen(&self, place: usize, event: &Event) -> bool {
        self.sim.may_happen(place, event)
    }

    fn is_quiet(&self) -> bool {
        self.sim.is_quiet()
    }

    fn may_turn(&self) -> bool {
        self.sim.may_turn()
    }

    fn has_ends(&self, ends: &[(Id, Id)]) -> bool {
        self.sim.has_ends(ends)
    }

    fn next_due(&self, place: usize) -> usize {
        self.sim.next_due(place)
    }

    fn settle(&mut self) {
        self.sim.settle();
    }

    fn happen(&mut self, event: &Event) -> Result<Option<SimError>, AllocError> {
        let refused = self.sim.happen(event)?;
        if refused.is_none() {
            self.events.push(*event)?;
        }
        Ok(refused)
    }

    fn transmit(&mut self, place: usize, end: (Id, Id), most: u64) -> Result<bool, AllocError> {
        let before = <Sim as Simulator>::datagrams(&self.sim);
        let some = <Sim as Simulator>::transmit(&mut self.sim, place, end, most)?;
        let sent = <Sim as Simulator>::datagrams(&self.sim).saturating_sub(before);
        keep_often(&mut self.events, Event::Transmit(end.0, end.1), sent)?;
        Ok(some)
    }

    fn deliver(&mut self, i: u64, most: u64) -> Result<bool, AllocError> {
        let some = <Sim as Simulator>::deliver(&mut self.sim, i, most)?;
        // if a datagram is delivered once, it can be delivered any number of times
        if some {
            keep_often(&mut self.events, Event::Deliver(i), most)?;
        }
        Ok(some)
    }

    fn cut(&mut self, n: Id, k: Id) {
        self.sim.cut(n, k);
    }

    fn nodes(&self, alloc: Global) -> Result<Vec<Id>, AllocError> {
        self.sim.nodes(alloc)
    }

    fn ends(&self, alloc: Global) -> Result<Vec<(Id, Id)>, AllocError> {
        self.sim.ends(alloc)
    }

    fn datagrams(&self) -> u64 {
        self.sim.datagrams()
    }

    fn datagram(&self, i: u64) -> Option<(Id, Id)> {
        <Sim as Simulator>::datagram(&self.sim, i)
    }

    fn height(&self, n: Id, d: Id) -> Option<Entry> {
        self.sim.height(n, d)
    }

    fn next_hop(&self, n: Id, d: Id) -> Option<Id> {
        self.sim.next_hop(n, d)
    }

    fn sent(&self, a: Id, b: Id, life: Life) -> usize {
        <Sim as Simulator>::sent(&self.sim, a, b, life)
    }

    fn taken(&self, b: Id, a: Id, life: Life) -> usize {
        <Sim as Simulator>::taken(&self.sim, b, a, life)
    }

    fn exact(&self, d: Id) -> bool {
        self.sim.exact(d)
    }

    fn walk(&self, alloc: Global, n: Id, d: Id) -> Result<Option<Vec<Id>>, AllocError> {
        <Sim as Simulator>::walk(&self.sim, alloc, n, d)
    }

    fn is_at_rest(&self) -> bool {
        self.sim.is_at_rest()
    }
}

/// The links of a row of four nodes.
const LINKS: [(Id, Id); 3] = [(1, 2), (2, 3), (3, 4)];

const NODES: [Id; 4] = [1, 2, 3, 4];

const ENDS: [(Id, Id); 6] = [(1, 2), (2, 1), (2, 3), (3, 2), (3, 4), (4, 3)];

/// Makes `count` rounds of the row of four nodes over `channel`, with no nodes parted. `in_flight` has the delayed
/// datagrams before and after.
fn rounds_over<S: Simulator>(
    sim: &mut S,
    count: u64,
    channel: Channel,
    in_flight: &mut InFlight,
) -> Result<(), AllocError> {
    let parted = Parted::new(*in_flight.later.allocator());
    let network = Network {
        nodes: &NODES,
        ends: &ENDS,
        parted: &parted,
        channel,
        table: &ChannelTable::none(),
    };
    make_rounds(sim, count, &network, in_flight)
}

/// Makes `count` rounds over a channel that delivers every datagram at once.
fn clear_rounds<S: Simulator>(sim: &mut S, alloc: Global, count: u64) -> Result<(), AllocError> {
    let mut in_flight = InFlight::new(alloc);
    rounds_over(sim, count, Channel::CLEAR, &mut in_flight)
}

/// The events of a need of node 1 and three rounds, after which the route is found.
fn recorded(rt: &impl Abort, alloc: Global) -> Vec<Event> {
    let started = <Recorder as Simulator>::start(
        alloc,
        WorldOptions::within(Limits::STANDARD),
        &LINKS,
        &[4],
        &[],
        Times::STANDARD,
    );
    let mut recorder = started.expect(rt, "a simulator");
    let needed = recorder.happen(&Event::Need(1, 4));
    sees(rt, matches!(needed, Ok(None)), "the need happens");
    let made = clear_rounds(&mut recorder, alloc, 3);
    sees(rt, made.is_ok(), "three rounds are made");
    let Recorder { sim, events } = recorder;
    sees(rt, has_routes(&sim), "the route is found");
    events
}

/// Whether node `n` has, for destination 4, the height (0,0,0,`delta`,`n`) and the next hop `hop`; `None` for no next
/// hop.
fn has_route(sim: &Sim, n: Id, delta: i32, hop: Option<Id>) -> bool {
    sim.height(n, 4) == Some(Height::new(0, 0, 0, delta, n).ok()) && sim.next_hop(n, 4) == hop
}

/// Whether nodes 1 to 4 have the route along the row to node 4: the deltas 3, 2, 1 and 0, and the next hops 2, 3, 4 and
/// none.
fn has_routes(sim: &Sim) -> bool {
    has_route(sim, 1, 3, Some(2))
        && has_route(sim, 2, 2, Some(3))
        && has_route(sim, 3, 1, Some(4))
        && has_route(sim, 4, 0, None)
}

/// Makes `events` happen one after another, and before the one at `place`, counted from 0, the event `arm`, which arms
/// a call to fail. Refused events are skipped. Then makes 60 rounds.
fn run_armed(rt: &impl Abort, alloc: Global, events: &[Event], place: usize, arm: &Event) -> Sim {
    let topology = Topology::new(alloc, &LINKS, &[4]).expect(rt, "a topology");
    let mut sim = Sim::new(alloc, &topology).expect(rt, "a simulator");
    for (at, event) in events.iter().enumerate() {
        if at == place {
            sees(rt, sim.step(arm).is_ok(), "a call is armed");
        }
        let _ = sim.step(event);
    }
    let made = clear_rounds(&mut sim, alloc, 60);
    sees(rt, made.is_ok(), "sixty rounds are made");
    sim
}

/// Whichever node's send or receive is armed to fail, before whichever event, the route to node 4 is there after 60
/// further rounds.
#[test]
fn each_call(rt: HostRuntime) {
    let events = recorded(&rt, rt.alloc());
    sees_at(&rt, events.len() > 100, &(events.len(), "events"));
    for place in 0..events.len() {
        for n in NODES {
            for call in [Call::SendLost, Call::SendGone, Call::Receive] {
                let arm = Event::Arm(n, call);
                let sim = run_armed(&rt, rt.alloc(), events.as_slice(), place, &arm);
                sees_at(
                    &rt,
                    has_routes(&sim),
                    &("a call of node", n, "armed before event", place),
                );
            }
        }
    }
}

/// A simulator after a need of node 1 and sixty rounds over a channel, and the datagrams that are still delayed.
fn over_channel(rt: &impl Abort, alloc: Global, channel: Channel) -> (Sim, InFlight) {
    let topology = Topology::new(alloc, &LINKS, &[4]).expect(rt, "a topology");
    let mut sim = Sim::new(alloc, &topology).expect(rt, "a simulator");
    sees(rt, sim.step(&Event::Need(1, 4)).is_ok(), "the need happens");
    let mut in_flight = InFlight::new(alloc);
    let made = rounds_over(&mut sim, 60, channel, &mut in_flight);
    sees(rt, made.is_ok(), "sixty rounds over a channel");
    (sim, in_flight)
}

/// If every datagram arrives twice, one or two rounds later, the route is found. If every one is lost, it is not.
#[test]
fn routes_over_channels(rt: HostRuntime) {
    let late = Channel {
        repeat: 1_000_000,
        least: 1,
        most: 2,
        ..Channel::CLEAR
    };
    let (sim, in_flight) = over_channel(&rt, rt.alloc(), late);
    sees(&rt, has_routes(&sim), "the route is found late");
    sees(&rt, in_flight.round == 60, "sixty rounds were made");
    let lost = Channel {
        loss: 1_000_000,
        ..Channel::CLEAR
    };
    let (sim, in_flight) = over_channel(&rt, rt.alloc(), lost);
    sees(&rt, !has_routes(&sim), "no route is found");
    sees(&rt, in_flight.later.is_empty(), "nothing is in flight");
}
