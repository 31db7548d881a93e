//! A simulated world of nodes, links and datagrams.
//!
//! `Sim` is a world of the prefix law as a value, with its cores, link ends, life files and queues. `step` makes one
//! event happen, or refuses it and changes nothing. Nothing happens without an event, and nothing is random. All
//! datagrams that were ever sent are kept, so that each can be delivered late, twice or never.
//!
//! ```rust
//! let topology = Topology::new(alloc, &[(1, 2)], &[2])?; // one link, and tables for the destination 2
//! let mut sim = Sim::new(alloc, &topology)?;
//! sim.run(&[Event::Open(1, 2), Event::Transmit(1, 2)])?; // the end of node 1 sends its first HELLO
//! assert_eq!(rt; sim.datagram(1), Some((1, 2)));
//! assert_eq!(rt; sim.step(&Event::Pull(1, 2)), Err(SimError::NotPossible)); // nothing waits to be pulled
//! assert_eq!(rt; sim.height(2, 2), Some(Some(Height::zero(2))));
//! ```
#![tactic(auto)]

mod cuts;
mod deadlines;
mod delivering;
mod due;
mod due_bits;
mod duplicates;
mod end_events;
mod end_keys;
mod files;
mod first;
mod idle_cores;
mod lanes;
mod link_calls;
mod link_keys;
mod link_nodes;
mod link_slot;
mod links;
mod looks;
mod node_events;
mod nodes;
mod places;
mod possible;
mod queue;
mod quiet;
mod quiet_ends;
mod readers;
mod rest;
mod restarts;
mod sending;
mod sim;
mod store;
mod taking;
mod ticking;
mod topology;
mod turns;
mod walks;
mod watching;

pub use sim::Sim;
pub use topology::{Topology, topology_fault, topology_fault_within};
pub use tora_world::{Call, Event, GREATEST_NODES, Limits, MOST_NODES, SimError};
// the laws that hold for every world of a simulator
pub use tora_world::{
    entries_at_rest_are_heights, events_run_out, exact_entries_give_walks, no_gap_law,
    only_needs_are_refused, prefix_law, routes_at_rest_arrive, simulator_runs_are_free_runs,
    steps_are_the_table, walks_at_rest_go_down,
};
