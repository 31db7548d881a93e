//! Tests of the queues between threads, the neighbours' threads and the nodes; they start threads and wait.
//!
//! Each module tests the public names of one crate: `tora_lane`, `tora_neighbour` or `tora_node`. A crate with tests of
//! its own is proved a second time with them, so the tests have a crate of their own, which no other crate uses.
#![tactic(auto)]

#[cfg(test)]
mod tests;
