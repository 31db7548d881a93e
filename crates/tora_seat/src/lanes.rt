//! The queues from a core to its neighbours, as the seat of the core uses them.
ghost use Rattle.std.specs.Prelude.{◌≡◌, ◌<◌, ℕ, Bool};
ghost use Rattle.tora_seat.specs.declared.cargo.Cargo.{Cargo};

use crate::Cargo;

/// The queues from a core to its neighbours, one for each, in ascending order of the neighbours. The code calls them
/// lanes.
pub trait OutLanes {
    /// How many queues there are.
    ghost count: { Self → ℕ };

    /// An offer: old queues, place, outbound message, whether it was put into the queue, new queues.
    ghost did_offer: { Self → ℕ → Cargo → Bool → Self → Type 0 };

    /// Offers an outbound message to the queue at a place, counted from 0. Returns `true` if the message was put at the
    /// back of the queue, and `false` if the queue did not take it.
    ///
    /// With `false` nothing changes. The call takes no memory and never waits.
    fn offer(&mut self, place: usize, cargo: Cargo) -> bool
        requires { place < count self.old }
        ensures count { count self.new ≡ count self.old }
        ensures offered { did_offer self.old place cargo result self.new };
}
