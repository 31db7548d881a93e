//! The end of a neighbour link: link sessions (lives), retransmission and link sensing.
//!
//! TORA needs links whose status is known and that deliver control packets once and in order
//! (draft-ietf-manet-tora-spec-04). This crate provides such links over datagrams that may be lost, repeated or
//! reordered.
//!
//! ```rust
//! let mut one = LinkEnd::new(alloc, 1, 2, Times::STANDARD)?;
//! let mut two = LinkEnd::new(alloc, 2, 1, Times::STANDARD)?;
//! one.open(5, 0); // session numbers, from their life files
//! two.open(9, 0);
//! for _ in 0..2 {
//!     while let Some(frame) = one.poll_transmit(0) {
//!         two.on_frame(&frame, 0);
//!     }
//!     while let Some(frame) = two.poll_transmit(0) {
//!         one.on_frame(&frame, 0);
//!     }
//! }
//! assert_eq!(rt; one.poll_event(), Some(LinkEvent::Up(Life { own: 5, peer: 9 })));
//! ```
#![tactic(auto)]

mod arq_error;
mod events;
mod facts;
mod growing_end;
mod held;
mod life;
mod limit_values;
mod link_end;
mod link_event;
mod phase;
mod queue;
mod queued_packet;
mod reason;
mod receive;
mod rings;
mod rooms;
mod settings;
mod state;
mod steady;
mod still;
mod submit_error;
mod times;
mod transmit;
mod verdict;

pub use arq_error::ArqError;
pub use facts::{
    acknowledged_counts_come_from_the_peer, calls_keep_an_end, data_frames_are_what_was_submitted,
    deliveries_are_in_order, events_of_a_life_are_in_order, flood_is_one_frame,
    link_ends_follow_the_table, lives_are_bound_once, old_hello_comes_right_after,
    packets_are_submitted_in_the_bound_life, polls_of_a_tick_end, refused_frames_change_nothing,
    standard_times, updates_are_of_the_peer,
};
pub use growing_end::GrowingEnd;
pub use life::Life;
pub use limit_values::limits_have_their_values;
pub use link_end::LinkEnd;
pub use link_event::LinkEvent;
pub use reason::Reason;
pub use steady::Steady;
pub use submit_error::SubmitError;
pub use times::Times;
pub use verdict::Verdict;

/// How many packets of a session may be transmitted and not acknowledged.
pub const WINDOW: u64 = 32;

/// How many events of a link end may wait to be polled: twice a window.
pub const EVENT_PLACES: usize = 2 * WINDOW as usize;

/// How many of the `EVENT_PLACES` must be free for a link end to take a frame; with fewer, the verdict is `Busy`,
/// unless it is `Foreign`. The value is 34: one for `Up`, a window for packets, and one for `Down`.
pub const PLACES_OF_A_FRAME: usize = WINDOW as usize + 2;

/// How many packets that arrived out of order are held at most: a window.
const HELD_PLACES: usize = WINDOW as usize;

/// The most packets of a session that may be unacknowledged, transmitted or not: 256. Submitting one more ends the
/// session (`Full`).
pub const QUEUE_PLACES: usize = 256;
