//! A node without threads, sockets and clocks, for programs that bring their own.
//!
//! [`Router`] is the core of a node with its link ends. Its host passes in received datagrams and the tick, and polls
//! the datagrams to send.
#![tactic(auto)]

mod change;
mod config;
mod hop;
mod intake;
mod limit_values;
mod link;
mod links;
mod making;
mod router;
mod router_error;
mod tally;

pub use change::Change;
pub use config::Config;
pub use intake::Intake;
pub use limit_values::limits_have_their_values;
pub use router::Router;
pub use router_error::RouterError;
pub use tally::Tally;

/// The greatest session number, 2^62.
pub const GREATEST_LIFE: u64 = 1 << 62;
