//! Files of lines: the simulation of a world, with its rounds, its trace and the causes of faults; and the replay of
//! the inputs of one node (`replay`).
//!
//! A simulation runs over any simulator (`Simulator`), such as `tora_sim::Sim`. Another simulator may wrap that one and
//! watch its events.
//!
//! ```rust
//! let ended = simulate_in::<Sim, R, W>(alloc, Times::STANDARD, &mut reader, &mut writer)?;
//! ```
#![tactic(auto)]

mod causes;
mod channel;
mod clear;
mod deliveries;
mod direction_counts;
mod done;
mod in_flight;
mod limit_values;
mod link_lines;
mod network;
mod node_marks;
mod pair_bits;
mod pair_record;
mod parse;
mod parted;
mod replays;
mod reported_simulation;
mod rounds;
mod running_simulation;
mod script_line;
mod setup;
mod simulation;
mod simulation_file;
mod simulator;
mod taking;
mod trace;
mod traced;
mod turns;
mod world_simulator;

pub use causes::{SimulationCause, simulation_cause, simulation_cause_within};
pub use channel::{
    Channel, ChannelLine, ChannelTable, Copies, LineCause, Parts, Place, TableError, channel_line,
    channel_parts, channel_table,
};
pub use clear::clear_channel_delivers_at_once;
pub use in_flight::InFlight;
pub use limit_values::limits_have_their_values;
pub use link_lines::LinkLines;
pub use network::Network;
pub use node_marks::{Mark, choices};
pub use parse::{
    erasure_word, is_word, link, mark, pair, simulation_line, simulation_lines_are_read_as_written,
};
pub use parted::{Parted, is_parted};
pub use replays::{
    ReplayCause, ReplayFile, replay, replay_cause, replay_fault_is_the_first,
    replay_first_lines_are_read_as_written, replay_lines_are_read_as_written, replay_with,
};
pub use reported_simulation::{
    FaultReports, Told, report_cause, simulate_and_report, simulate_last_and_report,
    simulate_with_reports,
};
pub use rounds::{MOST_PASSES, make_rounds};
pub use running_simulation::{Running, has_end};
pub use script_line::SimulationLine;
pub use setup::{Setup, WorldOptions};
pub use simulation::{Simulation, Stage};
pub use simulation_file::{
    first_line, simulate_in, simulation_fault_is_the_first, take_link, take_mark,
};
pub use simulator::Simulator;
pub use trace::{HeightText, HopText, Trace};
pub use traced::{TraceOut, Traced, Tracing, Watched, simulate_traced};
pub use turns::{
    EndTurn, MOST_TIMES, are_known, either, next_place, repeat, turn_cores, turn_end,
    turn_known_ends,
};
