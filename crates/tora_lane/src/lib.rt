//! The lanes (queues) between the core's thread and the neighbours' threads.
//!
//! Each lane is a first-in, first-out queue, and contracts say so. The queue into the core is a channel: for each seat,
//! the items that the core took, followed by those in the queue, are the items that the seat put, numbered from 1
//! without gaps. The queue to a neighbour is a ring with one producer and one consumer: the outbound messages received,
//! followed by those in the queue, are the outbound messages sent. A call on the queue into the core may wait. A call
//! on the queue to a neighbour never waits and takes no memory.
//!
//! ```rust
//! let Lanes { mut core, mut links, mut outs, .. } = lanes(rt, alloc, 1)?;
//! let (mut port, mut take) = links.remove(0);
//! port.put(rt, 7, What::Beat)?; // by the thread of the link
//! let item = core.take(rt)?; // by the thread of the core
//! assert_eq!(rt; (item.seat, item.number, item.now), (0, 1, 7));
//! let cut = Cargo::Cut(Life { own: 5, peer: 9 });
//! assert_eq!(rt; outs[0].send(cut), Ok(())); // by the thread of the core
//! assert_eq!(rt; take.take(), Some(cut)); // by the thread of the link
//! assert_eq!(rt; take.take(), None);
//! ```
#![tactic(auto)]

mod errors;
mod laws;
mod limit_values;
mod limits;
mod making;
mod node_lanes;
mod out;
mod out_puts;
mod ports;
mod rule;

pub use errors::LaneError;
pub use laws::what_was_offered_was_sent;
pub use limit_values::limits_have_their_values;
pub use limits::{CORE_LANE_ROOM, MOST_IN_ALL, MOST_LINKS, OUT_LANE_ROOM};
pub use making::lanes;
pub use node_lanes::Lanes;
pub use out::{OutEnd, OutPut, OutTake, settle_out};
pub use out_puts::OutPuts;
pub use ports::{CorePort, Gone, InPort, Settled, Settling};
pub use tora_seat::{Cargo, Item, What};
