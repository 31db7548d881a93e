//! The tests of `tora_router`.
mod pairs;

use crate::tests::sees::{same, same_text, sees};
use pairs::{CONFIG_OF_ONE, Pair, made, refusal};
use std::alloc::Global;
use std::process::Abort;
use tora_arq::{Reason, Times};
use tora_core::StepError;
use tora_router::{Change, Config, GREATEST_LIFE, RouterError};

/// Checks that the router of node 1 reports exactly these changes, in this order.
fn tells(rt: &impl Abort, pair: &mut Pair, changes: &[Change]) {
    for change in changes {
        same(rt, &pair.one.poll_change(), &Some(*change), "a change");
    }
    same(rt, &pair.one.poll_change(), &None, "no change is left");
}

/// Node 1 asks for a route to 2, and both routers run for the ticks 0 to 5: checks that the link came up and that node
/// 2 is the next hop of node 1.
fn finds(rt: &impl Abort, pair: &mut Pair) {
    same(rt, &pair.one.need(2, 0), &Ok(()), "need");
    sees(rt, pair.one.flag(2), "a route is required");
    pair.runs(rt, 0, 6);
    tells(rt, pair, &[Change::LinkUp(2), Change::NextHop(2, Some(2))]);
    same(rt, &pair.one.next_hop(2), &Some(2), "the next hop");
    sees(rt, !pair.one.flag(2), "the route is there");
}

/// Cuts the link at node 1 at tick 6: checks that the link went down there, that node 1 has no next hop, and that its
/// link end is to be opened with the session number 6.
fn loses(rt: &impl Abort, pair: &mut Pair) {
    sees(rt, pair.one.cut(2, 6), "a neighbour is cut");
    let changes = [Change::LinkDown(2, Reason::Cut), Change::NextHop(2, None)];
    tells(rt, pair, &changes);
    same(rt, &pair.one.next_hop(2), &None, "no next hop");
    same(rt, &pair.one.next_due(), &0, "the end is to be opened");
    same(rt, &pair.one.next_life(), &6, "one number was given");
}

/// Checks that a router with this configuration, these neighbours, the destination 2 and this first session number is
/// refused with `wanted`, or made if that is `None`.
fn refused(
    rt: &impl Abort,
    alloc: Global,
    config: &Config,
    neighbours: &[u32],
    first_life: u64,
    wanted: Option<RouterError>,
) {
    same(
        rt,
        &refusal(alloc, config, neighbours, &[2], first_life),
        &wanted,
        "the cause",
    );
}

#[test]
fn two_routers_find_a_route_and_lose_it(rt: HostRuntime) {
    let alloc = rt.alloc();
    let mut pair = made(alloc).expect(&rt, "memory");
    finds(&rt, &mut pair);
    let one = pair.one.show(alloc).expect(&rt, "memory");
    let wanted = "to 2 height (0,0,0,1,1) flag 0 hop 2\nvia 2 (0,0,0,0,2) down\n";
    same_text(&rt, one.as_str(), wanted, "node 1");
    let two = pair.two.show(alloc).expect(&rt, "memory");
    let wanted = "to 2 height (0,0,0,0,2) flag 0 hop -\nvia 1 - none\n";
    same_text(&rt, two.as_str(), wanted, "node 2");
    loses(&rt, &mut pair);
}

#[test]
fn want_of_memory_is_answered(rt: HostRuntime) {
    match made(rt.alloc()) {
        Ok(mut pair) => {
            finds(&rt, &mut pair);
            loses(&rt, &mut pair);
        }
        Err(error) => same(&rt, &error, &RouterError::Memory, "the only error"),
    }
}

#[test]
fn routers_are_refused_for_the_first_cause(rt: HostRuntime) {
    let alloc = rt.alloc();
    let times = Times {
        hello: 0,
        ..Times::STANDARD
    };
    let no_time = Config {
        times,
        ..CONFIG_OF_ONE
    };
    let none = Config { me: 0, ..no_time };
    let fine = CONFIG_OF_ONE;
    refused(&rt, alloc, &none, &[1, 1], 0, Some(RouterError::Id));
    refused(&rt, alloc, &no_time, &[1, 1], 0, Some(RouterError::Times));
    refused(&rt, alloc, &fine, &[1, 1], 0, Some(RouterError::Life));
    let above = GREATEST_LIFE + 1;
    refused(&rt, alloc, &fine, &[1, 1], above, Some(RouterError::Life));
    refused(&rt, alloc, &fine, &[1, 1], 1, Some(RouterError::Repeated));
    refused(&rt, alloc, &fine, &[1], 1, Some(RouterError::OwnId));
    refused(&rt, alloc, &fine, &[2], 1, None);
}

#[test]
fn needs_and_cuts_of_others_change_nothing(rt: HostRuntime) {
    let mut pair = made(rt.alloc()).expect(&rt, "memory");
    let unknown = Err(StepError::UnknownDestination);
    same(&rt, &pair.one.need(9, 0), &unknown, "need");
    sees(&rt, !pair.one.cut(9, 0), "no neighbour is cut");
    sees(&rt, pair.one.tally(9).is_none(), "no neighbour has a tally");
}
