//! Simulation files: their output, and how they end.
use super::route_rows::*;
use super::runs::{Way, expect_files, expect_lines, expect_rows};
use super::simulation_faults::*;
use super::simulation_rows::*;

#[test]
fn route_is_found_and_lost(rt: HostRuntime) {
    expect_rows(&rt, Way::Simulation, ROUTE);
}

/// A write of a life file fails, so the node's ends stay closed until the node restarts.
#[test]
fn restart_mends_a_life_file(rt: HostRuntime) {
    expect_rows(&rt, Way::Simulation, MENDED_FILE);
}

/// Whichever node's send or receive is armed to fail, before the need or between rounds, the route to node 4 is found.
#[test]
fn route_is_found_whatever_call_fails(rt: HostRuntime) {
    expect_files(&rt, Way::Simulation, ARMED);
}

/// After a route was found, entries are exact and the walk is the route. A restart of a node ends both.
#[test]
fn exact_entries_give_a_walk(rt: HostRuntime) {
    expect_rows(&rt, Way::Simulation, WALK);
}

/// A line `exact` or `walk` is a fault if it names a node or a destination that does not exist, or has too few words.
#[test]
fn walks_of_others_are_faults(rt: HostRuntime) {
    expect_rows(&rt, Way::Simulation, WALKS);
}

/// `sent` prints how many packets one core sent to another in a session, and `taken` how many the other took. Each
/// names the session with the number of its own node first.
#[test]
fn packets_are_counted_by_life(rt: HostRuntime) {
    expect_rows(&rt, Way::Simulation, COUNTED);
}

/// After an accepted first line, line 2 must be a link. Any other first line is a fault.
#[test]
fn destinations_accepted_and_refused(rt: HostRuntime) {
    expect_rows(&rt, Way::Simulation, FIRST_LINES);
}

/// A refused topology is a fault of the line after the links, whatever that line is, or of the last link if the input
/// ends there.
#[test]
fn topologies_refused(rt: HostRuntime) {
    expect_rows(&rt, Way::Simulation, TOPOLOGIES);
}

/// A leaf of a star with 32 leaves, the most, asks for a route to another leaf; the other leaves hear the answer. A
/// star with 33 is refused.
#[test]
fn star_of_thirty_three(rt: HostRuntime) {
    expect_files(&rt, Way::Simulation, STARS);
}

/// 64 nodes are accepted, and 65 are refused.
#[test]
fn nodes_are_counted(rt: HostRuntime) {
    expect_files(&rt, Way::Simulation, LINES_OF_NODES);
}

/// More than 64 nodes and more than 32 neighbours are accepted in a large world, and more than 255 neighbours are not.
#[test]
fn large_worlds_are_taken(rt: HostRuntime) {
    expect_files(&rt, Way::LargeSimulation, LARGE_WORLDS);
}

#[test]
fn links_taken_and_not(rt: HostRuntime) {
    expect_rows(&rt, Way::Simulation, LINKS);
}

/// Lines of each kind after the links are accepted, and print what `TAKEN` says.
#[test]
fn lines_taken(rt: HostRuntime) {
    expect_lines(&rt, Way::Simulation, THREE, TAKEN);
}

#[test]
fn most_rounds(rt: HostRuntime) {
    expect_rows(&rt, Way::Simulation, MOST_ROUNDS);
}

/// A line that names a link or a destination that does not exist is a fault, directly after the links and between two
/// ticks.
#[test]
fn lines_of_other_links(rt: HostRuntime) {
    expect_rows(&rt, Way::Simulation, OTHERS);
    expect_files(&rt, Way::Simulation, OTHERS_BETWEEN_TICKS);
}

#[test]
fn events_that_are_faults(rt: HostRuntime) {
    expect_rows(&rt, Way::Simulation, EVENTS);
}

#[test]
fn calls_and_restarts_that_are_faults(rt: HostRuntime) {
    expect_rows(&rt, Way::Simulation, CALLS);
}

#[test]
fn orders_that_are_faults(rt: HostRuntime) {
    expect_rows(&rt, Way::Simulation, ORDERS);
}

/// The output before a fault is complete.
#[test]
fn fault_comes_behind_what_was_printed(rt: HostRuntime) {
    expect_rows(&rt, Way::Simulation, PRINTED_BEFORE_A_FAULT);
}

/// A line of 4,096 bytes is read, and one of 4,098 is a fault.
#[test]
fn longest_simulation_line(rt: HostRuntime) {
    expect_files(&rt, Way::Simulation, LONGEST_LINES);
}

/// Reports on standard error do not change the output.
#[test]
fn told_simulation_prints_the_same(rt: HostRuntime) {
    expect_rows(&rt, Way::ToldSimulation, TOLD);
}

/// A world is at rest before its links are up, and after a route is found. It is not while a need waits, nor if a link
/// is up at only one of its ends.
#[test]
fn rest_is_told(rt: HostRuntime) {
    expect_rows(&rt, Way::Simulation, RESTS);
}
