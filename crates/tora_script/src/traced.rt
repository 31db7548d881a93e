//! A simulation that writes a trace: a simulator whose events are recorded, and the simulation of a file in it.
//!
//! The module `trace` has the records, and the copies of cores from which they are computed.
mod ends;
mod trace_out;
mod traced_simulation;
mod traced_simulator;
mod watched;

pub use trace_out::TraceOut;
pub use traced_simulation::{Tracing, simulate_traced};
pub use traced_simulator::Traced;
pub use watched::Watched;
