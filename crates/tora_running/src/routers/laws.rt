//! The laws of programs that embed routers. Each is the contract of a function that has no parameters and does nothing.
ghost use Rattle.tora_running.specs.Hosts.{IsHosted};
ghost use Rattle.tora_running.specs.RouterLaws.{AllHosts, AreAWorld, CoresFollow, HoldsOfSound, IsWithoutGap};
ghost use Rattle.tora_running.specs.RouterLaws.{RefusesOnlyUnknown, TakenBeginsSent};
ghost use Rattle.tora_running.specs.WorkedRouters.{start, first_calls, met, second_calls, met_again, last_calls, left};
ghost use Rattle.tora_running.specs.WorkedRouters.{HasMet, HasLeft, given_again, TakesTwice, new_life};
ghost use Rattle.tora_running.specs.Laws.{RestingEntriesAreHeights, RestingRoutesArrive, WalksArrive};
ghost use Rattle.tora_world.specs.Worked.{life, pair, times};

use crate::{
    running_cores_follow, running_cores_refuse_only_needs, running_entries_at_rest_are_heights,
    running_nodes_are_a_world, running_nodes_keep_the_no_gap_law,
    running_nodes_keep_the_prefix_law, running_routes_at_rest_arrive, running_walks_arrive,
};

/// Embedded routers are a world: for any calls that hosts make, some run of running nodes leads to a network with the
/// same cores, link ends and records. So some schedule of the free world leads to such a world.
///
/// Hosts may lose, repeat, reorder and delay datagrams, but must not forge one that a link end would accept. Ticks are
/// arbitrary. A new router starts with a session number above all that were used.
pub fn routers_are_a_world()
    ensures { AllHosts (λ t times hosts. AreAWorld t times hosts) }
{
    running_nodes_are_a_world();
}

/// The prefix law of embedded routers: the packets that the core of a node has taken from a neighbour in a session are
/// a prefix of those that the neighbour's core has sent in that session, over all routers of both nodes.
pub fn routers_keep_the_prefix_law()
    ensures { AllHosts (λ t times hosts. TakenBeginsSent hosts) }
{
    routers_are_a_world();
    running_nodes_keep_the_prefix_law();
}

/// The core of each embedded router has the state that TORA's rules give for the inputs that it accepted since the
/// router was made.
pub fn router_cores_follow()
    ensures { AllHosts (λ t times hosts. CoresFollow t hosts) }
{
    routers_are_a_world();
    running_cores_follow();
}

/// The no-gap law of embedded routers: while a session is current at a core, all that the core has broadcast since its
/// link came up was sent in that session, and nothing else.
pub fn routers_keep_the_no_gap_law()
    ensures { AllHosts (λ t times hosts. IsWithoutGap t hosts) }
{
    routers_are_a_world();
    running_nodes_keep_the_no_gap_law();
}

/// The core of an embedded router refuses only a need of a destination that is not in its table, and for that cause.
pub fn routers_refuse_only_unknown_needs()
    ensures { AllHosts (λ t times hosts. RefusesOnlyUnknown t hosts) }
{
    routers_are_a_world();
    router_cores_follow();
    running_cores_refuse_only_needs();
}

/// Exact entries give walks of embedded routers: if each entry for a destination is NULL or the current height of its
/// neighbour, the next hops lead from every node with a height to the destination.
pub fn router_walks_arrive()
    ensures { AllHosts (λ t times hosts. HoldsOfSound WalksArrive t times hosts) }
{
    routers_are_a_world();
    running_walks_arrive();
}

/// If embedded routers are at rest, each entry of a node for a neighbour whose link is up is NULL or the neighbour's
/// height, or the neighbour has no height.
pub fn router_entries_at_rest_are_heights()
    ensures { AllHosts (λ t times hosts. HoldsOfSound RestingEntriesAreHeights t times hosts) }
{
    routers_are_a_world();
    running_entries_at_rest_are_heights();
}

/// If embedded routers are at rest, the next hops lead from a node that has a height to the destination, if every node
/// that is reachable from it over links has a height.
pub fn router_routes_at_rest_arrive()
    ensures { AllHosts (λ t times hosts. HoldsOfSound RestingRoutesArrive t times hosts) }
{
    routers_are_a_world();
    running_routes_at_rest_arrive();
}

/// An example with two embedded routers, computed, so that the laws are not vacuous.
pub fn worked_routers_hold()
    // A datagram is lost and one arrives twice; the update of node 1 is sent and taken once, and node 1 has a route.
    ensures first { IsHosted pair times start first_calls }
    ensures met { HasMet life met }
    // Both routers are new, and an old datagram arrives first. In the second session the update is sent and taken once.
    ensures second { IsHosted pair times met second_calls }
    ensures met_again { HasMet new_life met_again }
    // The host of node 1 cuts the link, node 2 receives no frame for 60 ticks, and the route is lost.
    ensures last { IsHosted pair times met_again last_calls }
    ensures left { HasLeft left }
    // Rising session numbers are necessary: if new routers got the same numbers again, an old datagram would be taken a
    // second time.
    ensures numbers { TakesTwice given_again }
{}
