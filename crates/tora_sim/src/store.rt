//! What a simulated world keeps: the datagrams that were sent, and the outbound messages (`Cargo`) of its outbound
//! queues (`Lane`).
//!
//! The prefix law lets each datagram be delivered late, twice or never, so `Datagrams` keeps them all, in the order in
//! which they were sent. It stores the place of each datagram's frame; a HELLO that a link end repeats is stored once.
//! Readers return the frames that were sent.
//!
//! The prefix law also speaks about all outbound messages that were ever put into a queue, so a `Lane` keeps them all.
//! The waiting ones are stored uncompressed, the first few inline. Those that have left are compressed in
//! `KeptCargoes`, most of them to 12 bytes. Memory is requested before a core's step, so the step itself needs none: a
//! queue has a list of its own, or takes one from the pool `Pool`.

mod datagrams;
mod inline_cargoes;
mod kept_cargoes;
mod kept_frames;
mod kept_hellos;
mod kept_list;
mod lane;
mod packets;
mod pool;
mod room;

pub use datagrams::Datagrams;
pub use kept_cargoes::KeptCargoes;
pub use lane::Lane;
pub use packets::{count_kept, list_kept};
pub use pool::Pool;
pub use room::reserve_one;
