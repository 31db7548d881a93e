//! The simulated world of nodes, links and datagrams, and the laws of all its schedules.
#![tactic(auto)]

mod call;
mod event;
mod laws;
mod limit_values;
mod limits;
mod rest;
mod sim_error;
mod table;

pub use call::Call;
pub use event::Event;
pub use laws::{
    exact_entries_give_walks, life_files_become_what_crashes_leave, no_gap_law,
    only_needs_are_refused, prefix_law, simulator_runs_are_free_runs, worked_events_hold,
    worked_free_events_hold, worked_schedules_hold,
};
pub use limit_values::limits_have_their_values;
pub use limits::{GREATEST_NODES, Limits, MOST_NODES};
pub use rest::{
    entries_at_rest_are_heights, rest_is_computed, routes_at_rest_arrive, walks_at_rest_go_down,
};
pub use sim_error::SimError;
pub use table::{events_run_out, steps_are_the_table, worked_rows_of_the_table_hold};
