//! Pairs of nodes between which rounds deliver nothing.
use super::sees::sees;
use std::alloc::Global;
use std::process::Abort;
use tora_height::Id;
use tora_script::{Channel, ChannelTable, InFlight, Network, Parted, make_rounds};
use tora_sim::{Sim, Topology};
use tora_world::Event;

const NODES: [Id; 3] = [1, 2, 3];

const ENDS: [(Id, Id); 4] = [(1, 2), (2, 1), (2, 3), (3, 2)];

/// A pair is parted and mended whichever of its nodes is named first, and no other pair is.
#[test]
fn pairs_of_nodes(rt: HostRuntime) {
    let made = Parted::of(rt.alloc(), &[(2, 1), (7, 7)]);
    let mut parted = made.expect(&rt, "two pairs");
    sees(&rt, parted.is_parted(1, 2), "a pair, turned");
    sees(&rt, parted.is_parted(7, 7), "a node twice");
    sees(&rt, !parted.is_parted(1, 3), "no pair yet");
    sees(&rt, parted.part(3, 1).is_ok(), "a third pair");
    sees(&rt, parted.part(1, 3).is_ok(), "the same one");
    sees(&rt, parted.is_parted(1, 3), "a pair that was put");
    parted.mend(1, 2);
    sees(&rt, !parted.is_parted(2, 1), "a pair that was mended");
    parted.mend(1, 3);
    sees(&rt, !parted.is_parted(3, 1), "a pair that was put twice");
    sees(&rt, parted.is_parted(7, 7), "a pair that stays");
}

/// `Parted` has a bit for each pair of nodes up to 1,023. Pairs with a higher node are parted and mended, too.
#[test]
fn pairs_behind_the_bits(rt: HostRuntime) {
    let mut parted = Parted::of(rt.alloc(), &[]).expect(&rt, "no pairs");
    sees(
        &rt,
        parted.part(1_024, 1_023).is_ok(),
        "a pair without a bit",
    );
    sees(&rt, parted.part(1_023, 0).is_ok(), "a pair with one");
    sees(&rt, parted.is_parted(1_023, 1_024), "the first, turned");
    sees(&rt, parted.is_parted(0, 1_023), "the second, turned");
    sees(&rt, !parted.is_parted(0, 1_024), "no such pair");
    sees(&rt, !parted.is_parted(1_023, 1_023), "nor this one");
    parted.mend(1_023, 1_024);
    sees(&rt, !parted.is_parted(1_024, 1_023), "the first, mended");
    sees(&rt, parted.is_parted(1_023, 0), "the second stays");
}

/// A simulator of nodes 1, 2 and 3 in a row, after a need of node 1 for a route to node 3.
fn needing(rt: &impl Abort, alloc: Global) -> Sim {
    let topology = Topology::new(alloc, &[(1, 2), (2, 3)], &[3]).expect(rt, "a topology");
    let mut sim = Sim::new(alloc, &topology).expect(rt, "a simulator");
    sees(rt, sim.step(&Event::Need(1, 3)).is_ok(), "the need happens");
    sim
}

/// Makes sixty rounds with these pairs of nodes parted, and returns the next hop of node 1 to node 3; `None` if it has
/// none.
fn hop_behind(rt: &impl Abort, alloc: Global, sim: &mut Sim, parted: &[(Id, Id)]) -> Option<Id> {
    let mut in_flight = InFlight::new(alloc);
    let parted = Parted::of(alloc, parted).expect(rt, "the parted pairs");
    let network = Network {
        nodes: &NODES,
        ends: &ENDS,
        parted: &parted,
        channel: Channel::CLEAR,
        table: &ChannelTable::none(),
    };
    let made = make_rounds(sim, 60, &network, &mut in_flight);
    sees(rt, made.is_ok(), "sixty rounds are made");
    sim.next_hop(1, 3)
}

/// No route leads between parted nodes, and one does once they are mended.
#[test]
fn rounds_between_parted_nodes(rt: HostRuntime) {
    let mut sim = needing(&rt, rt.alloc());
    let parted = hop_behind(&rt, rt.alloc(), &mut sim, &[(3, 2)]);
    sees(&rt, parted.is_none(), "no next hop");
    let mended = hop_behind(&rt, rt.alloc(), &mut sim, &[]);
    sees(&rt, mended == Some(2), "a next hop");
}
