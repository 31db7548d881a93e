//! The hub of a neighbour's thread: where it puts items, and where it takes outbound messages.
ghost use Rattle.std.specs.Prelude.{◌≡◌, ◌++◌, ◌∷◌, [], true, Bool, ℕ, Option, Result, List, OnOk, OnErr};
ghost use Rattle.tora_arq.specs.LinkFacts.{list_of};
ghost use Rattle.tora_seat.specs.declared.cargo.Cargo.{Cargo};
ghost use Rattle.tora_seat.specs.declared.what.What.{What};
ghost use Rattle.tora_lane.specs.declared.ports.Gone.{Gone};
ghost use Rattle.tora_neighbour.specs.Puts.{put_of};
ghost use Rattle.tora_neighbour.specs.declared.hub.Put.{Put};

use std::sync::Wait;
use tora_lane::{Cargo, Gone, What};

/// An item that a neighbour's thread put, without its seat and number.
#[derive(Clone, Copy, Debug, PartialEq, Eq, Hash)]
pub struct Put {
    /// The tick of 100 ms at which it was put.
    pub now: u64,
    /// The content of the item.
    pub what: What,
}

/// The hub of a neighbour's thread: the thread puts what the link reports, and takes the outbound messages for the
/// link.
pub trait Hub {
    /// The items that were put since the hub was made, oldest first.
    ghost puts: { Self → List Put };

    /// The outbound messages that were taken since the hub was made, oldest first.
    ghost takes: { Self → List Cargo };

    /// Whether `put` has returned `Gone`.
    ghost gone: { Self → Bool };

    /// A put: old hub, tick, content, result, new hub.
    ghost did_put: { Self → ℕ → What → Result (Unit {0}) Gone → Self → Type 0 };

    /// A take: old hub, result, new hub.
    ghost did_take: { Self → Option Cargo → Self → Type 0 };

    /// Puts an item at the tick `now` of 100 ms. It may wait. `Gone` if the hub takes no more items; then nothing is
    /// put.
    fn put<R: Wait>(&mut self, rt: &R, now: u64, what: What) -> Result<(), Gone>
        ensures call { did_put self.old now what result self.new }
        ensures put { OnOk result (puts self.new ≡ puts self.old ++ put_of now what ∷ []) }
        ensures open { OnOk result (gone self.new ≡ gone self.old) }
        ensures refused { OnErr result (puts self.new ≡ puts self.old) }
        ensures gone { OnErr result (gone self.new ≡ true) }
        ensures takes { takes self.new ≡ takes self.old };

    /// Takes the next outbound message; `None` if the hub sees none now.
    fn take<R: Wait>(&mut self, rt: &R) -> Option<Cargo>
        ensures call { did_take self.old result self.new }
        ensures taken { takes self.new ≡ takes self.old ++ list_of result }
        ensures puts { puts self.new ≡ puts self.old }
        ensures gone { gone self.new ≡ gone self.old };
}
