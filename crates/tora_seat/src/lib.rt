//! The messages between the neighbour links of a node and its core.
//!
//! A link gives the core items: a session that came up, its packets, and its end. The core gives a link outbound
//! messages: packets of the current session, and orders to cut a session. The seat of a core serves one item after
//! another over any queues (`OutLanes`), and reports the outcome of each:
//!
//! ```rust
//! let core = Core::new(alloc, 1, &[2, 3], &[4])?;
//! let mut seat = CoreSeat::new(alloc, core)?;
//! let item = Item { seat: 0, number: 1, now: 7, what: What::Up(life) };
//! let answer = seat.serve(&item, &mut lanes); // offers outbound messages to `lanes`
//! assert_eq!(rt; seat.inputs(), [Input::LinkUp(2)].as_slice());
//! assert_eq!(rt; seat.current(0), Some(life));
//! ```
#![tactic(auto)]

mod answer;
mod between;
mod cargo;
mod core_seat;
mod display;
mod inputs;
mod item;
mod lanes;
mod laws;
mod limit_values;
mod relation;
mod rows;
mod seat;
mod serving;
mod status;
mod stepped;
mod what;
mod worked;

pub use answer::Answer;
pub use between::{cut_bound, hand_in, what_of};
pub use cargo::Cargo;
pub use core_seat::CoreSeat;
pub use inputs::accepted_inputs_make_the_core;
pub use item::Item;
pub use lanes::OutLanes;
pub use laws::{
    handed_back_packets_end_their_lives, items_step_few_inputs,
    lives_are_current_where_links_are_up, lives_have_no_gap, offers_are_their_own_answers,
};
pub use limit_values::limits_have_their_values;
pub use relation::{cut_links_go_down, serving_is_the_relation};
pub use rows::LinkRow;
pub use seat::BareSeat;
pub use status::Status;
pub use stepped::Stepped;
pub use what::What;
pub use worked::worked_downs_hold;

/// The most items that the queue into a core can hold.
pub const MOST_ITEMS: usize = 1024;

/// The most outbound messages that the queue to a neighbour can hold.
pub const MOST_CARGOES: usize = 256;
