//! Topologies that are made or refused, as tables.
ghost use Rattle.std.specs.Prelude.{◌≡◌, ◌<◌, true};
ghost use Rattle.std.specs.List.{All};
ghost use Rattle.tora_world.specs.Topology.{Link};
ghost use Rattle.tora_sim.specs.Topologies.{links_in};

use super::super::made::Numbers::{Counted, These};
use super::super::made::{Numbers, are_numbers, list_of};
use super::super::sees::{same, same_at};
use std::alloc::{AllocError, Global};
use std::process::Abort;
use tora_core::CoreError;
use tora_core::CoreError::{OwnId, Repeated, TooMany};
use tora_height::Id;
use tora_sim::{Limits, SimError, Topology, topology_fault, topology_fault_within};

/// Whether no number in links is 0.
fn are_links(links: &[(Id, Id)]) -> bool
    ensures { result ≡ true → All (λ (link : Link). (0 < link.a) × (0 < link.b)) (links_in links.now) }
{
    for link in links {
        if link.0 == 0 || link.1 == 0 {
            return false;
        }
    }
    true
}

/// The topology with these links and destinations, or the error of `Topology::new`. The test fails if a number is 0.
pub fn made(
    rt: &impl Abort,
    alloc: Global,
    links: &[(Id, Id)],
    destinations: &[Id],
) -> Result<Topology, CoreError> {
    let links_are = are_links(links);
    let numbers_are = are_numbers(destinations);
    assert!(rt; links_are && numbers_are);
    Topology::new(alloc, links, destinations)
}

/// The topology with these limits, links and destinations, or the error of `Topology::with_limits`. The test fails if a
/// number is 0.
pub fn made_within(
    rt: &impl Abort,
    alloc: Global,
    limits: Limits,
    links: &[(Id, Id)],
    destinations: &[Id],
) -> Result<Topology, CoreError> {
    let links_are = are_links(links);
    let numbers_are = are_numbers(destinations);
    assert!(rt; links_are && numbers_are);
    Topology::with_limits(alloc, limits, links, destinations)
}

/// Links: listed ones; a chain of this many nodes; a star of node 1 with this many others, and more links after them;
/// or one link this many times.
#[derive(Clone, Copy)]
pub enum Links {
    Listed(&'static [(Id, Id)]),
    Chain(u32),
    Star(u32, &'static [(Id, Id)]),
    Often(u32, (Id, Id)),
}

/// The links as a vector; the error says that memory ran out.
pub fn links_of(alloc: Global, links: Links) -> Result<Vec<(Id, Id)>, AllocError> {
    let mut list = Vec::new(alloc);
    match links {
        Links::Listed(links) => return Vec::from_slice(alloc, links),
        Links::Chain(nodes) => {
            for n in 1..nodes {
                list.push((n, n + 1))?;
            }
        }
        Links::Star(others, more) => {
            for n in 0..others {
                list.push((n.saturating_add(2), 1))?;
            }
            for link in more {
                list.push(*link)?;
            }
        }
        Links::Often(count, link) => {
            for _ in 0..count {
                list.push(link)?;
            }
        }
    }
    Ok(list)
}

/// Checks that `topology_fault` and the making of the topology both give `cause`, or that the topology is made if that
/// is `None`; `row` names the row.
pub fn refused(
    rt: &impl Abort,
    alloc: Global,
    links: &[(Id, Id)],
    destinations: &[Id],
    cause: Option<CoreError>,
    row: usize,
) {
    let fault = topology_fault(links, destinations);
    same_at(rt, &fault, &cause, "the fault", &row);
    let error = made(rt, alloc, links, destinations).err();
    same_at(rt, &error, &cause, "the error", &row);
}

/// The links and the destinations of a topology, and the reason for its refusal, if any.
type Row = (Links, Numbers, Option<CoreError>);

/// Checks for each row that its topology is refused for its reason, or is made if that is `None`.
fn refuses(rt: &impl Abort, alloc: Global, rows: &[Row]) {
    for (i, (links, destinations, cause)) in rows.iter().enumerate() {
        let links = links_of(alloc, *links).expect(rt, "memory");
        let destinations = list_of(alloc, *destinations).expect(rt, "memory");
        refused(rt, alloc, &links, &destinations, *cause, i);
    }
}

/// The greatest numbers of nodes, links of a node and destinations, one fewer and one more of each.
const LIMITS: &[Row] = &[
    (Links::Chain(63), These(&[1]), None),
    (Links::Chain(64), These(&[1]), None),
    (Links::Chain(65), These(&[1]), Some(TooMany)),
    (Links::Star(31, &[]), These(&[1]), None),
    (Links::Star(32, &[]), These(&[1]), None),
    (Links::Star(33, &[]), These(&[1]), Some(TooMany)),
    (Links::Listed(&[(1, 2)]), Counted(1, 63), None),
    (Links::Listed(&[(1, 2)]), Counted(1, 64), None),
    (Links::Listed(&[(1, 2)]), Counted(1, 65), Some(TooMany)),
];

#[test]
fn too_many_are_refused(rt: HostRuntime) {
    refuses(&rt, rt.alloc(), LIMITS);
}

/// Limits of 3 nodes, 2 links of a node and 1 destination.
const SMALL: Limits = Limits {
    neighbours: 2,
    destinations: 1,
    nodes: 3,
};

/// Limits above the greatest ones.
const ABOVE: Limits = Limits {
    neighbours: 1000,
    destinations: 1000,
    nodes: 10000,
};

/// Limits, and a topology that they allow or refuse.
type RowWithin = (Limits, Row);

/// The numbers of nodes, links of a node and destinations that limits allow, one fewer and one more of each. A limit
/// above the greatest one means the greatest one.
const LIMITS_ASKED: &[RowWithin] = &[
    (SMALL, (Links::Chain(2), These(&[]), None)),
    (SMALL, (Links::Chain(3), These(&[1]), None)),
    (SMALL, (Links::Chain(4), These(&[1]), Some(TooMany))),
    (SMALL, (Links::Chain(3), These(&[1, 2]), Some(TooMany))),
    (SMALL, (Links::Star(3, &[]), These(&[1]), Some(TooMany))),
    // Two neighbours whose numbers have the same low ten bits.
    (
        SMALL,
        (Links::Listed(&[(1025, 1), (1, 2049)]), These(&[1]), None),
    ),
    (SMALL, (Links::Star(2, &[(1, 1)]), These(&[1]), Some(OwnId))),
    (
        SMALL,
        (Links::Star(2, &[(1, 2)]), These(&[1]), Some(Repeated)),
    ),
    (Limits::STANDARD, (Links::Chain(63), These(&[1]), None)),
    (Limits::STANDARD, (Links::Chain(64), These(&[1]), None)),
    (
        Limits::STANDARD,
        (Links::Chain(65), These(&[1]), Some(TooMany)),
    ),
    (Limits::GREATEST, (Links::Chain(65), These(&[1]), None)),
    (Limits::GREATEST, (Links::Chain(1023), These(&[1]), None)),
    (Limits::GREATEST, (Links::Chain(1024), These(&[1]), None)),
    (
        Limits::GREATEST,
        (Links::Chain(1025), These(&[1]), Some(TooMany)),
    ),
    (Limits::STANDARD, (Links::Star(31, &[]), These(&[1]), None)),
    (Limits::STANDARD, (Links::Star(32, &[]), These(&[1]), None)),
    (
        Limits::STANDARD,
        (Links::Star(33, &[]), These(&[1]), Some(TooMany)),
    ),
    (
        Limits::STANDARD,
        (Links::Listed(&[(1, 2)]), Counted(1, 63), None),
    ),
    (
        Limits::STANDARD,
        (Links::Listed(&[(1, 2)]), Counted(1, 64), None),
    ),
    (
        Limits::STANDARD,
        (Links::Listed(&[(1, 2)]), Counted(1, 65), Some(TooMany)),
    ),
    (Limits::GREATEST, (Links::Star(33, &[]), These(&[1]), None)),
    (Limits::GREATEST, (Links::Star(254, &[]), These(&[1]), None)),
    (Limits::GREATEST, (Links::Star(255, &[]), These(&[1]), None)),
    (
        Limits::GREATEST,
        (Links::Star(256, &[]), These(&[1]), Some(TooMany)),
    ),
    (
        Limits::GREATEST,
        (Links::Star(255, &[(1, 1)]), These(&[1]), Some(OwnId)),
    ),
    (
        Limits::GREATEST,
        (Links::Star(257, &[(1, 1)]), These(&[1]), Some(TooMany)),
    ),
    (
        Limits::GREATEST,
        (Links::Listed(&[(1, 2)]), Counted(1, 63), None),
    ),
    (
        Limits::GREATEST,
        (Links::Listed(&[(1, 2)]), Counted(1, 64), None),
    ),
    (
        Limits::GREATEST,
        (Links::Listed(&[(1, 2)]), Counted(1, 65), Some(TooMany)),
    ),
    (ABOVE, (Links::Chain(1024), These(&[1]), None)),
    (ABOVE, (Links::Chain(1025), These(&[1]), Some(TooMany))),
    (ABOVE, (Links::Star(255, &[]), These(&[1]), None)),
    (ABOVE, (Links::Star(256, &[]), These(&[1]), Some(TooMany))),
];

#[test]
fn more_than_limits_allow_are_refused(rt: HostRuntime) {
    let alloc = rt.alloc();
    for (i, (limits, (links, destinations, cause))) in LIMITS_ASKED.iter().enumerate() {
        let links = links_of(alloc, *links).expect(&rt, "memory");
        let destinations = list_of(alloc, *destinations).expect(&rt, "memory");
        let fault = topology_fault_within(*limits, &links, &destinations);
        same_at(&rt, &fault, cause, "the fault", &i);
        let error = made_within(&rt, alloc, *limits, &links, &destinations).err();
        same_at(&rt, &error, cause, "the error", &i);
    }
}

/// Links and destinations that are named twice, and a link of a node to itself.
const REPEATS: &[Row] = &[
    (
        Links::Listed(&[(1, 2), (2, 3), (1, 2)]),
        These(&[1]),
        Some(Repeated),
    ),
    (
        Links::Listed(&[(1, 2), (2, 3), (2, 1)]),
        These(&[1]),
        Some(Repeated),
    ),
    (
        Links::Listed(&[(1, 2), (2, 3)]),
        These(&[3, 1, 3]),
        Some(Repeated),
    ),
    (Links::Listed(&[(1, 2), (2, 2)]), These(&[1]), Some(OwnId)),
];

#[test]
fn repeats_and_own_links_are_refused(rt: HostRuntime) {
    refuses(&rt, rt.alloc(), REPEATS);
}

/// Topologies with more than one reason for a refusal: the first of `TooMany`, `Repeated` and `OwnId` is reported.
const CAUSES: &[Row] = &[
    (
        Links::Star(33, &[(1, 1), (1, 1)]),
        These(&[1, 1]),
        Some(TooMany),
    ),
    (
        Links::Listed(&[(1, 1), (1, 1)]),
        These(&[1]),
        Some(Repeated),
    ),
    (
        Links::Listed(&[(1, 1), (1, 2)]),
        These(&[1, 1]),
        Some(Repeated),
    ),
];

#[test]
fn first_cause_is_told(rt: HostRuntime) {
    refuses(&rt, rt.alloc(), CAUSES);
}

/// One link, 20000 times.
const LONG: &[Row] = &[(Links::Often(20000, (1, 2)), These(&[1]), Some(Repeated))];

#[test]
fn long_list_is_refused_soon(rt: HostRuntime) {
    refuses(&rt, rt.alloc(), LONG);
}

/// Checks that a topology has these links and these destinations, both in this order.
pub fn keeps(rt: &impl Abort, topology: &Topology, links: &[(Id, Id)], destinations: &[Id]) {
    same(rt, &topology.links(), &links, "the links");
    same(
        rt,
        &topology.destinations(),
        &destinations,
        "the destinations",
    );
}

/// The topology with these links and destinations; the test fails if it is not made.
pub fn topology_of(
    rt: &impl Abort,
    alloc: Global,
    links: &[(Id, Id)],
    destinations: &[Id],
) -> Topology {
    made(rt, alloc, links, destinations).expect(rt, "a topology")
}

#[test]
fn topology_keeps_its_lists(rt: HostRuntime) {
    let topology = topology_of(&rt, rt.alloc(), &[(3, 2), (1, 2)], &[3, 1]);
    keeps(&rt, &topology, &[(3, 2), (1, 2)], &[3, 1]);
    let empty = topology_of(&rt, rt.alloc(), &[], &[]);
    same(&rt, &empty.links().len(), &0, "no links");
}

/// Makes nodes of a topology speak only version 1, one after the other, and checks each result and the list of such
/// nodes.
pub fn ages(rt: &impl Abort, topology: &mut Topology, rows: &[(Id, Result<(), SimError>, &[Id])]) {
    for (n, answer, olds) in rows {
        same_at(rt, &topology.set_old(*n), answer, "the answer for node", n);
        same_at(rt, &topology.olds(), olds, "the old nodes behind", n);
    }
}

/// There is no node 4; nodes 3 and 1 are set to version 1, and 3 once more.
const OLD_NODES: &[(Id, Result<(), SimError>, &[Id])] = &[
    (4, Err(SimError::NoNode), &[]),
    (3, Ok(()), &[3]),
    (1, Ok(()), &[3, 1]),
    (3, Ok(()), &[3, 1]),
];

#[test]
fn old_nodes_are_kept(rt: HostRuntime) {
    let mut topology = topology_of(&rt, rt.alloc(), &[(3, 2), (1, 2)], &[3]);
    same(&rt, &topology.olds().len(), &0, "no old nodes");
    ages(&rt, &mut topology, OLD_NODES);
}
