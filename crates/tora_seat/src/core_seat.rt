//! The seat of a core, which serves items. It has its own list for the packets of a step.
ghost use Rattle.std.specs.Prelude.{◌≡◌, ◌≤◌, List, length, [], None, IfOk, MatchOption, slice_get};
ghost use Rattle.tora_core.specs.Numbers.{IsAscending};
ghost use Rattle.tora_seat.specs.Serving.{Answers, Offer, serving_of};
ghost use Rattle.tora_seat.specs.Serves.{Serves};
ghost use Rattle.tora_seat.specs.Offers.{AreOffered, Follows};
ghost use Rattle.tora_seat.specs.Rows.{SeatView, current_of, pending_of, state_of, serving_at, first_seat};

use crate::seat::BareSeat;
use crate::{Answer, Item, OutLanes, Stepped};
use std::alloc::{AllocError, Global};
use std::marker::Model;
use tora_arq::Life;
use tora_core::{Core, Input, Sends};

/// The core of a node with the sessions of its links, and the list that holds the packets of a step.
#[derive(Drop)]
pub struct CoreSeat {
    seat: BareSeat,
    sends: Sends,
}

impl Model for CoreSeat {
    ghost use Rattle.tora_seat.specs.Rows.{SeatView};

    ghost Value = { SeatView };

    ghost view = { λ s. s.seat };
}

impl CoreSeat {
    /// The seat of a core, with no current session and no pending cut.
    ///
    /// # Errors
    /// Out of memory.
    pub fn new(alloc: Global, core: Core) -> Result<CoreSeat, AllocError>
        ensures { IfOk result (λ seat. seat ≡ first_seat core) }
    {
        let seat = BareSeat::new(alloc, core)?;
        Ok(CoreSeat {
            seat,
            sends: Sends::new(),
        })
    }

    /// The core.
    pub fn core(&self) -> &Core
        ensures { result.now ≡ self.now.core }
    {
        self.seat.core()
    }

    /// The inputs that the core accepted for the item served last, in order; none before the first item.
    pub fn inputs(&self) -> &[Input]
        ensures { result.now ≡ self.now.inputs }
    {
        self.seat.inputs()
    }

    /// The packet of a neighbour that was passed to the core for the item served last. `None` if the item was no
    /// packet, or its session was not the current one.
    pub fn stepped(&self) -> Option<Stepped>
        ensures { result ≡ self.now.stepped }
    {
        self.seat.stepped()
    }

    /// The current session of the neighbour at a place, counted from 0 in ascending order. `None` if it has none, or
    /// there is no such neighbour.
    pub fn current(&self, place: usize) -> Option<Life>
        ensures { MatchOption (slice_get self.now.core.neighbours place) (result ≡ None)
            (λ k. result ≡ current_of self.now.rows k) }
    {
        self.seat.current(place)
    }

    /// The session whose cut is not in the queue yet, of the neighbour at a place, counted from 0 in ascending order.
    /// `None` if there is none, or no such neighbour.
    pub fn pending(&self, place: usize) -> Option<Life>
        ensures { MatchOption (slice_get self.now.core.neighbours place) (result ≡ None)
            (λ k. result ≡ pending_of self.now.rows k) }
    {
        self.seat.pending(place)
    }

    /// Serves an item: offers each pending cut once, and then handles the item.
    ///
    /// It takes no memory and never waits. There must be a queue for each neighbour.
    pub fn serve<O: OutLanes>(&mut self, item: &Item, outs: &mut O) -> Answer
        requires { length self.old.core.neighbours ≤ O.count outs.old }
        ensures count { O.count outs.new ≡ O.count outs.old }
        ensures neighbours { self.new.core.neighbours ≡ self.old.core.neighbours }
        ensures served { (offers : List Offer)
            × AreOffered O.did_offer self.old.core.neighbours outs.old offers outs.new
            × ((answers : Answers) → Follows answers [] offers
            → serving_of answers self.old.core.neighbours (state_of self.old) item.entry.now
            ≡ serving_at item.entry.now.now self.new offers) }
        // The same result by the relation `Serves`, which has a case for each kind of item and each situation.
        ensures related { IsAscending self.old.core.neighbours → (offers : List Offer)
            × AreOffered O.did_offer self.old.core.neighbours outs.old offers outs.new
            × Serves self.old.core.neighbours (state_of self.old) item.entry.now
            (serving_at item.entry.now.now self.new offers) }
        ensures answer { result ≡ self.new.answer }
    {
        self.seat.serve(item, &mut self.sends, outs)
    }
}
