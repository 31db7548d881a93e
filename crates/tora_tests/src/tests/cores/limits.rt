//! Cores that are made or refused within limits, and one with the greatest number of neighbours.
use super::super::made::Numbers::{Counted, These};
use super::super::made::{Numbers, core_within, list_of};
use super::super::sees::{same, sees};
use super::is_taken;
use super::steps::Given::From;
use super::steps::Sent::Qry;
use super::steps::input_of;
use std::alloc::Global;
use std::process::Abort;
use std::test::Fail;
use tora_core::CoreError::{OwnId, Repeated, TooMany};
use tora_core::{Core, CoreError, CoreLimits, Input};

/// The core of node 1 with these neighbours and destinations, within limits.
fn made(
    rt: &impl Abort,
    alloc: Global,
    limits: CoreLimits,
    neighbours: Numbers,
    destinations: Numbers,
) -> Result<Core, CoreError> {
    let Ok(neighbours) = list_of(alloc, neighbours) else {
        return Err(CoreError::Memory);
    };
    let Ok(destinations) = list_of(alloc, destinations) else {
        return Err(CoreError::Memory);
    };
    core_within(rt, alloc, limits, 1, &neighbours, &destinations)
}

/// Limits of 2 neighbours and 1 destination.
const SMALL: CoreLimits = CoreLimits {
    neighbours: 2,
    destinations: 1,
};

/// Limits above the greatest ones.
const ABOVE: CoreLimits = CoreLimits {
    neighbours: 1000,
    destinations: 1000,
};

/// Limits, the neighbours and the destinations of node 1, and the error for them, if any.
type Row = (CoreLimits, Numbers, Numbers, Option<CoreError>);

/// The numbers of neighbours and destinations that limits allow, one fewer and one more. A limit above the greatest one
/// means the greatest one.
const LIMITS: &[Row] = &[
    (SMALL, Counted(2, 1), These(&[]), None),
    (SMALL, Counted(2, 2), These(&[4]), None),
    (SMALL, Counted(2, 3), These(&[4]), Some(TooMany)),
    (SMALL, Counted(2, 2), Counted(1, 2), Some(TooMany)),
    (SMALL, These(&[2, 2]), These(&[4]), Some(Repeated)),
    (SMALL, These(&[1, 2]), These(&[4]), Some(OwnId)),
    (CoreLimits::STANDARD, Counted(2, 31), These(&[4]), None),
    (CoreLimits::STANDARD, Counted(2, 32), These(&[4]), None),
    (
        CoreLimits::STANDARD,
        Counted(2, 33),
        These(&[4]),
        Some(TooMany),
    ),
    (CoreLimits::STANDARD, Counted(2, 32), Counted(1, 63), None),
    (CoreLimits::STANDARD, Counted(2, 32), Counted(1, 64), None),
    (
        CoreLimits::STANDARD,
        Counted(2, 32),
        Counted(1, 65),
        Some(TooMany),
    ),
    (CoreLimits::GREATEST, Counted(2, 33), These(&[4]), None),
    (CoreLimits::GREATEST, Counted(2, 254), These(&[4]), None),
    (CoreLimits::GREATEST, Counted(2, 255), Counted(1, 63), None),
    (CoreLimits::GREATEST, Counted(2, 255), Counted(1, 64), None),
    (
        CoreLimits::GREATEST,
        Counted(2, 256),
        These(&[4]),
        Some(TooMany),
    ),
    (
        CoreLimits::GREATEST,
        Counted(2, 255),
        Counted(1, 65),
        Some(TooMany),
    ),
    (ABOVE, Counted(2, 255), Counted(1, 64), None),
    (ABOVE, Counted(2, 256), These(&[4]), Some(TooMany)),
    (ABOVE, These(&[2]), Counted(1, 65), Some(TooMany)),
];

#[test]
fn cores_are_taken_up_to_the_limits_that_are_asked(rt: HostRuntime) {
    for (limits, neighbours, destinations, error) in LIMITS {
        let found = made(&rt, rt.alloc(), *limits, *neighbours, *destinations).err();
        same(&rt, &found, error, "the error");
    }
}

// The links of node 1 to 255 neighbours come up, one of them the destination 256. Neighbour 2 sends a query, and one
// packet answers it. The links to all neighbours but 256 go down, and 256 is still the next hop.
#[test]
fn core_of_255_neighbours_finds_a_route(rt: HostRuntime) -> Result<(), Fail> {
    let (limits, alloc) = (CoreLimits::GREATEST, rt.alloc());
    let mut core = made(&rt, alloc, limits, Counted(2, 255), These(&[256]))?;
    for k in 2..257 {
        is_taken(&rt, &mut core, Input::LinkUp(k));
    }
    same(&rt, &core.up().len(), &255, "how many links are up");
    let query = input_of(&rt, From(2, Qry(256)));
    let sends = core.step(query, 2)?;
    same(&rt, &sends.len(), &1, "how many packets");
    let text = core.show(alloc)?;
    let text = text.as_str();
    same(&rt, &text.lines().count(), &256, "how many lines");
    let first = text.starts_with("to 256 height (0,0,0,1,1) flag 0 hop 256\nvia 2 - none\n");
    sees(&rt, first, "the first lines");
    let last = text.ends_with("\nvia 255 - none\nvia 256 (0,0,0,0,256) down\n");
    sees(&rt, last, "the last lines");
    for k in 2..256 {
        is_taken(&rt, &mut core, Input::LinkDown(k));
    }
    same(&rt, &core.up(), &[256].as_slice(), "the links that are up");
    same(&rt, &core.next_hop(256), &Some(256), "the next hop");
    Ok(())
}
