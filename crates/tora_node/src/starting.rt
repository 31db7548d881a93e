//! Making the links and the queues of a node, before its threads are started.
ghost use Rattle.std.specs.Prelude.{◌≡◌, ◌⊎◌, ◌<◌, ◌≤◌, Err, IfErr, IfOk, IfSome, length, map};
ghost use Rattle.tora_lane.specs.NodeLanes.{AreLanes};
ghost use Rattle.tora_node.specs.declared.fault.NodeError.{NodeError};
ghost use Rattle.tora_node.specs.NewLinks.{IsOpened};
ghost use Rattle.tora_node.specs.LinkRuns.{name_of, link_ended, link_made, wire_made, OpenedOn, IsOpening, FailsToOpen};
ghost use Rattle.tora_node.specs.Threads.{Each, started, link_to_start, hub_started, hub_of, clock_started};

use crate::fault::NodeError;
use crate::start::{NewEnd, NewLink, Start};
use std::alloc::Global;
use std::sync::Wait;
use tora_arq::{LinkEnd, Times};
use tora_core::Core;
use tora_lane::{InPort, LaneError, Lanes, MOST_LINKS, OutTake, lanes};
use tora_life::{Disk, LifeError, LifeFile};
use tora_neighbour::{LaneHub, Link, Wire};

/// The link ends of a node, in ascending order of the neighbours, never opened. `None` if memory runs out.
pub(crate) fn new_ends(alloc: Global, core: &Core) -> Option<Vec<NewEnd>>
    ensures { IfSome result (λ ends. map link_ended ends.items ≡ map (name_of core.now.me) core.now.neighbours) }
{
    let me = core.me();
    let mut ends = Vec::new(alloc);
    for peer in core.neighbours() {
        let Ok(end) = LinkEnd::new(alloc, me, *peer, Times::STANDARD) else {
            return None;
        };
        let Ok(()) = ends.push(NewEnd { end }) else {
            return None;
        };
    }
    Some(ends)
}

/// The queues of a node with this many links. `Lane` if `links` is 0 or over `MOST_LINKS`; `Memory`.
pub(crate) fn new_lanes<R: Wait>(rt: &R, alloc: Global, links: usize) -> Result<Lanes, NodeError>
    ensures made { IfOk result (λ l. AreLanes links l.core l.command l.links.items l.outs.items × (0 < links)
        × (links ≤ MOST_LINKS)) }
    ensures refused { IfErr result (λ e. (e ≡ NodeError.Memory)
        ⊎ ((e ≡ NodeError.Lane) × ((links ≡ 0) ⊎ (MOST_LINKS < links)))) }
{
    match lanes(rt, alloc, links) {
        Ok(lanes) => Ok(lanes),
        Err(LaneError::Memory) => Err(NodeError::Memory),
        Err(LaneError::TooMany) => Err(NodeError::Lane),
    }
}

/// Opens the life files in the order of the ends, and puts the parts of each link together. `Life` with the neighbour
/// at the first file that does not open; `Memory` at any point.
pub(crate) fn new_links<D: Disk + Drop, W: Wire + Drop>(
    alloc: Global,
    ends: Vec<NewEnd>,
    disks: Vec<D>,
    wires: Vec<W>,
) -> Result<Vec<NewLink<D, W>>, NodeError>
    requires disks { length disks.items ≡ length ends.items }
    requires wires { length wires.items ≡ length ends.items }
    ensures made { IfOk result (λ links. map link_made links.items ≡ map link_ended ends.items) }
    ensures wired { IfOk result (λ links. map wire_made links.items ≡ wires.items) }
    ensures opened { IfOk result (λ links. Each (OpenedOn (IsOpened D.syncs D.reads D.writes)) disks.items
        links.items) }
    ensures fault { IfErr result (IsOpening (map link_ended ends.items)) }
    ensures failed { IfErr result (FailsToOpen (IsOpened D.syncs D.reads D.writes) (map link_ended ends.items)
        disks.items) }
{
    let mut links = Vec::new(alloc);
    let mut disks = disks.into_iter();
    let mut wires = wires.into_iter();
    for new in ends {
        let peer = new.end.peer();
        let Some(disk) = disks.next() else {
            unreachable!()
        };
        let Some(wire) = wires.next() else {
            unreachable!()
        };
        match new_link(new, disk, wire) {
            Ok(link) => {
                let Ok(()) = links.push(link) else {
                    return Err(NodeError::Memory);
                };
            }
            Err(error) => return Err(NodeError::Life(peer, error)),
        }
    }
    Ok(links)
}

/// Opens the life file of a link, and puts its parts together. The errors are those of `LifeFile::open`.
fn new_link<D: Disk + Drop, W: Wire + Drop>(
    new: NewEnd,
    disk: D,
    wire: W,
) -> Result<NewLink<D, W>, LifeError>
    ensures made { IfOk result (λ link. (link_made link ≡ link_ended new) × (wire_made link ≡ wire)
        × OpenedOn (IsOpened D.syncs D.reads D.writes) disk link) }
    ensures failed { IfErr result (λ error. IsOpened D.syncs D.reads D.writes new.end.settings.me new.end.settings.peer
        disk (Err error)) }
{
    let NewEnd { end } = new;
    match LifeFile::open(disk, end.me(), end.peer()) {
        Ok(file) => Ok(NewLink {
            link: Link { end, file, wire },
        }),
        Err(fault) => Err(fault.error),
    }
}

/// Puts the work of each neighbour's thread together. `None` if memory runs out.
pub(crate) fn new_starts<D: Disk + Drop, W: Wire + Drop, C: Drop>(
    alloc: Global,
    links: Vec<NewLink<D, W>>,
    hubs: Vec<(InPort, OutTake)>,
    clocks: Vec<C>,
) -> Option<Vec<Start<D, W, C>>>
    requires hubs { length hubs.items ≡ length links.items }
    requires clocks { length clocks.items ≡ length links.items }
    ensures links { IfSome result (λ starts. map started starts.items ≡ map link_to_start links.items) }
    ensures hubs { IfSome result (λ starts. map hub_started starts.items ≡ map hub_of hubs.items) }
    ensures clocks { IfSome result (λ starts. map clock_started starts.items ≡ clocks.items) }
{
    let mut starts = Vec::new(alloc);
    let mut hubs = hubs.into_iter();
    let mut clocks = clocks.into_iter();
    for new in links {
        let Some((port, outs)) = hubs.next() else {
            unreachable!()
        };
        let Some(clock) = clocks.next() else {
            unreachable!()
        };
        let hub = LaneHub { port, outs };
        let start = Start { new, hub, clock };
        let Ok(()) = starts.push(start) else {
            return None;
        };
    }
    Some(starts)
}
