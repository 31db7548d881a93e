//! A running node: the thread of its core, a thread for each neighbour, and the commands.
//!
//! The core's thread owns the core. It takes items from a queue and serves them one after another. Each neighbour's
//! thread runs its link end over a wire. The thread that starts the node reads the commands.
//!
//! ```rust
//! let config = Config::new(alloc, 1, &[3, 2], &[4])?; // node 1 between nodes 2 and 3, with destination 4
//! assert_eq!(rt; config.peers(), &[2, 3]);
//! assert_eq!(rt; command_of(b"need 4"), Command::Need(4));
//! ```
#![tactic(auto)]

mod commands;
mod config;
mod core_task;
mod core_thread;
mod fault;
mod limit_values;
mod link_task;
mod log_hub;
mod node;
mod settle;
mod start;
mod starting;
mod status;
mod task;
mod threads;
mod wake;
mod watch;
mod words;

pub use commands::{
    Command, CommandsEnd, LONGEST_COMMAND, command_of, commands_are_put_line_by_line, run_commands,
};
pub use config::Config;
pub use core_thread::{CoreEnd, run_core};
pub use fault::NodeError;
pub use limit_values::limits_have_their_values;
pub use log_hub::LogHub;
pub use node::{Ended, NodeParts, run_node};
pub use tora_neighbour::{
    Clock, Finished, FuseWire, Hub, Intake, LaneHub, Link, ListHub, MemWire, Tally, Wire,
    run_neighbour, take_in,
};
pub use tora_seat::{Answer, CoreSeat};
pub use wake::WakingLanes;
pub use words::commands_are_read_as_written;
