//! TORA's rules for the destinations of one node.
//!
//! For each destination of its table, a core has a view: the node's own height, whether a route is required, and the
//! heights that the neighbours sent. It takes inputs, each with its tick of 100 ms, and returns the packets to
//! broadcast to every neighbour whose link is up (Park and Corson 1997, section 3). The published texts do not say when
//! a query is answered and which entries a clear erases; those two rules are this project's choice.
//!
//! Only making a core, copying it and making its text take memory. A core has at most 32 neighbours, or up to 255 with
//! `Core::with_limits`, and 64 destinations.
//!
//! ```rust
//! let mut core = Core::new(alloc, 3, &[2, 4], &[4])?;
//! core.step(Input::LinkUp(2), 1)?;
//! core.step(Input::LinkUp(4), 1)?;
//! let sends = core.step(Input::Packet(2, Packet::qry(4)?), 2)?; // node 2 asks for a route to node 4
//! let height = Height::new(0, 0, 0, 1, 3)?;
//! assert_eq!(rt; sends.as_slice(), [Packet::Upd(Update::new(4, height)?)].as_slice());
//! assert_eq!(rt; core.next_hop(4), Some(4));
//! ```
#![tactic(auto)]

mod changes;
mod copies;
mod destination;
mod erasure;
mod errors;
mod facts;
mod laws;
mod levels;
mod limit_values;
mod limits;
mod links;
mod neighbour_places;
mod node;
pub mod numbers;
mod place_hints;
mod reactions;
mod refusals;
mod relation;
mod rows;
mod show;
mod sorted_lists;
mod storms;
mod table;
mod withdrawal;

use arrayvec::ArrayVec;
pub use changes::{
    all_are_cleared, all_are_erased, all_are_told, entries_are_taken, entries_are_withdrawn,
    marks_are_withdrawn, nothing_is_found, rows_come, rows_go,
};
pub use erasure::Erasure;
pub use errors::{CoreError, StepError};
pub use facts::{
    inputs_are_accepted, links_follow_inputs, numbers_are_put_in_order, numbers_come_and_go,
    other_views_stay, sends_ascend, tables_stay, up_links_are_of_neighbours,
};
pub use laws::{rules_are_kept, runs_are_kept};
pub use limit_values::limits_have_their_values;
pub use limits::CoreLimits;
pub use node::Core;
pub use relation::{
    accepted_inputs_react, rules_are_the_relation, words_are_computed, worked_rows_hold,
};
use std::fmt;
pub use storms::plain_nodes_may_never_rest;
use tora_height::Id;
use tora_packet::Packet;

/// The most neighbours of a node within the standard limits.
pub const MOST_NEIGHBOURS: usize = 32;

/// The most neighbours of a node within any limits.
pub const GREATEST_NEIGHBOURS: usize = 255;

/// The most destinations of a table.
pub const MOST_DESTINATIONS: usize = 64;

/// An input of a core.
#[derive(Clone, Copy, Debug, PartialEq, Eq, Hash)]
pub enum Input {
    /// The link to a neighbour came up.
    LinkUp(Id),
    /// The link to a neighbour went down.
    LinkDown(Id),
    /// A packet of a neighbour.
    Packet(Id, Packet),
    /// A route to a destination is needed.
    Need(Id),
}

/// Writes an input as `up 2`, `down 2`, `need 4`, or `from 2 ` and the packet.
impl fmt::Display for Input {
    ghost use Rattle.std.specs.Prelude.{Some};
    ghost use Rattle.tora_core.specs.InputText.{written_input};

    ghost output = { λ input. Some (written_input input) };

    fn fmt<W: fmt::Write>(&self, f: &mut fmt::Formatter<W>) -> fmt::Result {
        match self {
            Input::LinkUp(k) => {
                let k = *k;
                write!(f, "up {k}")
            }
            Input::LinkDown(k) => {
                let k = *k;
                write!(f, "down {k}")
            }
            Input::Packet(k, packet) => {
                let k = *k;
                write!(f, "from {k} {packet}")
            }
            Input::Need(d) => {
                let d = *d;
                write!(f, "need {d}")
            }
        }
    }
}

/// The packets to broadcast for one input, at most one for each destination, by ascending destination. Each goes to
/// every neighbour whose link is up after the input.
pub type Sends = ArrayVec<Packet, MOST_DESTINATIONS>;
