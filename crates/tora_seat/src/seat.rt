//! The seat of a core without the list that holds the packets of a step.
ghost use Rattle.std.specs.Prelude.{true, false, ◌≡◌, ◌<◌, ◌≤◌, ◌+◌, ◌*◌, ℕ, List, length, [], Option, None, Some};
ghost use Rattle.std.specs.Prelude.{IfOk, MatchOption, slice_get};
ghost use Rattle.tora_core.specs.Numbers.{has_number, IsAscending};
ghost use Rattle.tora_seat.specs.Serving.{Answers, Offer, first_cut, with_current, with_pending, serving_of};
ghost use Rattle.tora_seat.specs.Serves.{Serves};
ghost use Rattle.tora_seat.specs.Offers.{AreOffered, Follows};
ghost use Rattle.tora_seat.specs.Rows.{SeatView, current_of, pending_of, state_of, serving_at, first_seat};
ghost use Rattle.tora_seat.specs.Bodies.{IsSettled};

use crate::rows::{first_cut, new_rows, place_in, row_at};
use crate::{Answer, Item, LinkRow, OutLanes, Stepped, What};
use std::alloc::{AllocError, Global};
use std::marker::Model;
use tora_arq::Life;
use tora_core::{Core, Input, Sends};
use tora_height::Id;
use tora_packet::Packet;

/// The core of a node with the sessions of its links. Callers lend it the list for the packets of a step (`Sends`), so
/// that a simulator uses one list for many seats. `CoreSeat` has a list of its own.
#[derive(Drop)]
pub struct BareSeat {
    pub(crate) core: Core,
    pub(crate) rows: Vec<LinkRow>,
    pub(crate) inputs: Vec<Input>,
    pub(crate) stepped: Option<Stepped>,
    pub(crate) answer: Answer,
    /// If false, no cut is pending.
    pub(crate) has_pending: bool,
    /// If false, no link is up at the core without a current session.
    pub(crate) has_cut: bool,
}

impl Model for BareSeat {
    ghost use Rattle.std.specs.Prelude.{vec_capacity};
    ghost use Rattle.tora_seat.specs.Rows.{SeatView};
    ghost use Rattle.tora_seat.specs.Bodies.{IsSeat};

    ghost Value = { SeatView };

    ghost view = { λ s. record {
      core = s.core;
      rows = s.rows.items;
      inputs = s.inputs.items;
      stepped = s.stepped;
      answer = s.answer;
    } };

    ghost invariant = { λ s. IsSeat s.core s.rows.items (vec_capacity s.inputs) s.has_pending s.has_cut };
}

impl BareSeat {
    /// The neighbour at a place, counted from 0 in ascending order; `None` past the last one.
    pub(crate) fn neighbour(&self, place: usize) -> Option<Id>
        ensures { result ≡ slice_get self.now.core.neighbours place }
    {
        self.core.neighbours().get(place).copied()
    }

    /// Clears what the seat recorded for the item served last.
    fn begin(&mut self)
        ensures { self.new ≡ record self.old { inputs = []; stepped = None; answer = Answer.Nothing } }
    {
        self.inputs.clear();
        self.stepped = None;
        self.answer = Answer::Nothing;
    }

    /// The least neighbour whose link is up at the core without a current session; `None` if there is none.
    pub(crate) fn first_cut(&self) -> Option<Id>
        ensures { result ≡ first_cut (state_of self.now) self.now.core.neighbours }
    {
        first_cut(&self.core, &self.rows)
    }

    /// Whether the seat knows that no link is up at the core without a current session.
    pub(crate) fn is_settled(&self) -> bool
        ensures { result ≡ true → IsSettled self.now.core self.now.core.up self.now.rows }
    {
        !self.has_cut
    }

    /// Notes that no link is up at the core without a current session.
    pub(crate) fn note_settled(&mut self)
        requires { IsSettled self.old.core self.old.core.up self.old.rows }
        ensures { self.new ≡ self.old }
    {
        self.has_cut = false;
    }

    /// Sets the current session of neighbour `k`, which is at `place`; `None` removes it.
    pub(crate) fn set_current(&mut self, place: usize, k: Id, life: Option<Life>)
        requires { slice_get self.old.core.neighbours place ≡ Some k }
        ensures rest { self.new ≡ record self.old { rows = self.new.rows } }
        ensures set { (now : ℕ) (before : List Offer)
            → with_current (serving_at now self.old before) k life ≡ serving_at now self.new before }
    {
        self.has_cut = true;
        let row = &mut self.rows[place];
        row.current = life;
    }

    /// Sets the session whose cut is pending for neighbour `k`, which is at `place`; `None` if no cut is pending.
    pub(crate) fn set_pending(&mut self, place: usize, k: Id, life: Option<Life>)
        requires { slice_get self.old.core.neighbours place ≡ Some k }
        ensures rest { self.new ≡ record self.old { rows = self.new.rows } }
        ensures set { (now : ℕ) (before : List Offer)
            → with_pending (serving_at now self.old before) k life ≡ serving_at now self.new before }
    {
        self.has_pending = true;
        self.has_cut = true;
        let row = &mut self.rows[place];
        row.pending = life;
    }

    /// Notes a packet that is passed to the core.
    pub(crate) fn note_stepped(&mut self, stepped: &Stepped)
        ensures { self.new ≡ record self.old { stepped = Some stepped.now } }
    {
        self.stepped = Some(*stepped);
    }

    /// The place of neighbour `k`, counted from 0 in ascending order; `None` if there is no such neighbour.
    pub(crate) fn place(&self, k: Id) -> Option<usize>
        ensures { MatchOption result (has_number k self.now.core.neighbours ≡ false)
            (λ place. slice_get self.now.core.neighbours place ≡ Some k) }
    {
        place_in(self.core.neighbours(), k)
    }

    /// The seat of a core, with no current session and no pending cut.
    ///
    /// # Errors
    /// Out of memory.
    pub fn new(alloc: Global, core: Core) -> Result<BareSeat, AllocError>
        ensures { IfOk result (λ seat. seat ≡ first_seat core) }
    {
        let _me = core.me();
        let most = 2 * (core.neighbours().len() + 1);
        let rows = new_rows(alloc, core.neighbours())?;
        let inputs = Vec::with_capacity(alloc, most)?;
        Ok(BareSeat {
            core,
            rows,
            inputs,
            stepped: None,
            answer: Answer::Nothing,
            has_pending: true,
            has_cut: true,
        })
    }

    /// The core.
    pub fn core(&self) -> &Core
        ensures { result.now ≡ self.now.core }
    {
        &self.core
    }

    /// The inputs that the core accepted for the item served last, in order; none before the first item.
    pub fn inputs(&self) -> &[Input]
        ensures { result.now ≡ self.now.inputs }
    {
        self.inputs.as_slice()
    }

    /// The packet of a neighbour that was passed to the core for the item served last. `None` if the item was no
    /// packet, or its session was not the current one.
    pub fn stepped(&self) -> Option<Stepped>
        ensures { result ≡ self.now.stepped }
    {
        self.stepped
    }

    /// The current session of the neighbour at a place, counted from 0 in ascending order. `None` if it has none, or
    /// there is no such neighbour.
    pub fn current(&self, place: usize) -> Option<Life>
        ensures { MatchOption (slice_get self.now.core.neighbours place) (result ≡ None)
            (λ k. result ≡ current_of self.now.rows k) }
    {
        match row_at(&self.rows, place) {
            Some(row) => row.current,
            None => None,
        }
    }

    /// The session whose cut is not in the queue yet, of the neighbour at a place, counted from 0 in ascending order.
    /// `None` if there is none, or no such neighbour.
    pub fn pending(&self, place: usize) -> Option<Life>
        ensures { MatchOption (slice_get self.now.core.neighbours place) (result ≡ None)
            (λ k. result ≡ pending_of self.now.rows k) }
    {
        match row_at(&self.rows, place) {
            Some(row) => row.pending,
            None => None,
        }
    }

    /// Serves an item: offers each pending cut once, and then handles the item.
    ///
    /// It takes no memory and never waits. There must be a queue for each neighbour. `sends` is overwritten.
    pub fn serve<O: OutLanes>(&mut self, item: &Item, sends: &mut Sends, outs: &mut O) -> Answer
        requires { length self.old.core.neighbours ≤ O.count outs.old }
        ensures count { O.count outs.new ≡ O.count outs.old }
        ensures neighbours { self.new.core.neighbours ≡ self.old.core.neighbours }
        ensures served { (offers : List Offer)
            × AreOffered O.did_offer self.old.core.neighbours outs.old offers outs.new
            × ((answers : Answers) → Follows answers [] offers
            → serving_of answers self.old.core.neighbours (state_of self.old) item.entry.now
            ≡ serving_at item.entry.now.now self.new offers) }
        // The same result by the relation `Serves`, which has a case for each kind of item and each situation.
        ensures related { IsAscending self.old.core.neighbours → (offers : List Offer)
            × AreOffered O.did_offer self.old.core.neighbours outs.old offers outs.new
            × Serves self.old.core.neighbours (state_of self.old) item.entry.now
            (serving_at item.entry.now.now self.new offers) }
        ensures answer { result ≡ self.new.answer }
    {
        self.begin();
        self.try_cuts(item.now, outs);
        self.on_item(item, sends, outs);
        self.answer
    }
}
