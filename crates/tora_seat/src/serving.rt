//! How the seat of a core handles an item.
ghost use Rattle.std.specs.Prelude.{true, false, ◌≡◌, ◌<◌, ◌≤◌, ◌+◌, ◌*◌, length, None, Some, slice_get, is_some};
ghost use Rattle.std.specs.Prelude.{if◌then◌else◌};
ghost use Rattle.tora_core.specs.Numbers.{has_number};
ghost use Rattle.tora_core.specs.CoreRun.{up_after};
ghost use Rattle.tora_seat.specs.Serving.{Answers, with_pending, after_cuts_tried, after_step, after_settling};
ghost use Rattle.tora_seat.specs.Serving.{after_input, after_down, after_old_down, after_cut_asked, after_life_cut};
ghost use Rattle.tora_seat.specs.Serving.{after_up, after_packet, after_link_item, after_other_item, after_item_of};
ghost use Rattle.tora_seat.specs.Serving.{is_current};
ghost use Rattle.tora_seat.specs.Bodies.{IsSettled, SeatGoes, StepsQuietly};

use crate::rows::{broadcast_all, is_current, left_pending, try_cuts};
use crate::{Answer, BareSeat, Cargo, Item, OutLanes, Stepped, What};
use tora_arq::Life;
use tora_core::{Input, Sends};
use tora_height::Id;

/// A configured neighbour: its place among the neighbours, and its number.
#[derive(Clone, Copy)]
struct Neighbour {
    place: usize,
    id: Id,
}

impl BareSeat {
    /// Passes an input to the core, and sends the packets of the step. Returns whether the core accepted the input and
    /// no session ended by it. A refusal becomes the answer to the item.
    fn step<O: OutLanes>(
        &mut self,
        input: &Input,
        now: u64,
        sends: &mut Sends,
        outs: &mut O,
    ) -> bool
        requires lanes { length self.old.core.neighbours ≤ O.count outs.old }
        requires room { length self.old.inputs < 2 * (length self.old.core.neighbours + 1) }
        ensures count { O.count outs.new ≡ O.count outs.old }
        ensures stepped { length self.new.inputs ≤ length self.old.inputs + 1 }
        ensures goes { SeatGoes O.did_offer (λ answers ks. after_step answers ks input.now now)
            now self.old outs.old self.new outs.new }
        ensures quietly { StepsQuietly result input.now self.old self.new }
    {
        self.has_cut = true;
        match self.core.step_into(input, now, sends) {
            Ok(()) => {
                self.inputs.push_reserved(*input);
                let is_over = broadcast_all(&mut self.rows, sends.as_slice(), outs);
                self.has_pending |= is_over;
                !is_over
            }
            Err(error) => {
                self.answer = Answer::Refused(error);
                false
            }
        }
    }

    /// Takes down, at the core, each link that is up without a current session, the least neighbour first, until none
    /// is left.
    fn settle<O: OutLanes>(&mut self, now: u64, sends: &mut Sends, outs: &mut O)
        requires lanes { length self.old.core.neighbours ≤ O.count outs.old }
        requires room { length self.old.inputs + length self.old.core.neighbours
            ≤ 2 * (length self.old.core.neighbours + 1) }
        ensures count { O.count outs.new ≡ O.count outs.old }
        ensures stepped { length self.new.inputs ≤ length self.old.inputs + length self.old.core.neighbours }
        ensures goes { SeatGoes O.did_offer
            (λ answers ks. after_settling (length ks) answers ks now) now self.old outs.old self.new outs.new }
    {
        let most = self.core.neighbours().len();
        for _round in 0..most {
            match self.first_cut() {
                Some(k) => {
                    self.step(&Input::LinkDown(k), now, sends, outs);
                }
                None => {
                    self.note_settled();
                    return;
                }
            }
        }
    }

    /// Passes an input to the core, and then takes down the links whose sessions ended. It skips the search for them if
    /// no session ended by the input and the caller knows that the input leaves no other link up without a session
    /// (`is_settled`).
    fn take_in<O: OutLanes>(
        &mut self,
        input: &Input,
        now: u64,
        is_settled: bool,
        sends: &mut Sends,
        outs: &mut O,
    )
        requires settled { is_settled ≡ true
            → IsSettled self.old.core (up_after self.old.core.up input.now) self.old.rows }
        requires lanes { length self.old.core.neighbours ≤ O.count outs.old }
        requires room { length self.old.inputs ≤ length self.old.core.neighbours + 1 }
        ensures count { O.count outs.new ≡ O.count outs.old }
        ensures stepped { length self.new.inputs ≤ length self.old.inputs + length self.old.core.neighbours + 1 }
        ensures goes { SeatGoes O.did_offer (λ answers ks. after_input answers ks input.now now)
            now self.old outs.old self.new outs.new }
    {
        let is_quiet = self.step(input, now, sends, outs);
        if is_quiet && is_settled {
            self.note_settled();
        } else {
            self.settle(now, sends, outs);
        }
    }

    /// Passes an input that brings no link up or down to the core, as `take_in` does.
    fn take_in_calm<O: OutLanes>(
        &mut self,
        input: &Input,
        now: u64,
        sends: &mut Sends,
        outs: &mut O,
    )
        requires calm { up_after self.old.core.up input.now ≡ self.old.core.up }
        requires lanes { length self.old.core.neighbours ≤ O.count outs.old }
        requires room { length self.old.inputs ≤ length self.old.core.neighbours + 1 }
        ensures count { O.count outs.new ≡ O.count outs.old }
        ensures goes { SeatGoes O.did_offer (λ answers ks. after_input answers ks input.now now)
            now self.old outs.old self.new outs.new }
    {
        let is_settled = self.is_settled();
        self.take_in(input, now, is_settled, sends, outs);
    }

    /// Ends the current session of a neighbour at the core: its link goes down.
    fn on_end<O: OutLanes>(&mut self, peer: Neighbour, now: u64, sends: &mut Sends, outs: &mut O)
        requires place { slice_get self.old.core.neighbours peer.place ≡ Some peer.id }
        requires lanes { length self.old.core.neighbours ≤ O.count outs.old }
        requires room { length self.old.inputs ≤ length self.old.core.neighbours + 1 }
        ensures count { O.count outs.new ≡ O.count outs.old }
        ensures stepped { length self.new.inputs ≤ length self.old.inputs + length self.old.core.neighbours + 1 }
        ensures goes { SeatGoes O.did_offer (λ answers ks. after_down answers ks peer.id now)
            now self.old outs.old self.new outs.new }
    {
        let is_settled = self.is_settled();
        self.set_current(peer.place, peer.id, None);
        self.take_in(&Input::LinkDown(peer.id), now, is_settled, sends, outs);
    }

    /// Ends the current session of a neighbour at the core, as `on_end` does, if there is one.
    fn on_old_end<O: OutLanes>(
        &mut self,
        peer: Neighbour,
        now: u64,
        sends: &mut Sends,
        outs: &mut O,
    )
        requires place { slice_get self.old.core.neighbours peer.place ≡ Some peer.id }
        requires lanes { length self.old.core.neighbours ≤ O.count outs.old }
        requires room { length self.old.inputs ≤ 0 }
        ensures count { O.count outs.new ≡ O.count outs.old }
        ensures stepped { length self.new.inputs ≤ length self.old.core.neighbours + 1 }
        ensures goes { SeatGoes O.did_offer
            (λ answers ks v. after_old_down answers ks peer.id now v (v.seat.current peer.id))
            now self.old outs.old self.new outs.new }
    {
        if self.current(peer.place).is_some() {
            self.on_end(peer, now, sends, outs);
        }
    }

    /// Begins a session of a neighbour at the core: ends the current one, if there is one, and brings the link up.
    fn on_up<O: OutLanes>(
        &mut self,
        peer: Neighbour,
        life: Life,
        now: u64,
        sends: &mut Sends,
        outs: &mut O,
    )
        requires place { slice_get self.old.core.neighbours peer.place ≡ Some peer.id }
        requires lanes { length self.old.core.neighbours ≤ O.count outs.old }
        requires room { length self.old.inputs ≤ 0 }
        ensures count { O.count outs.new ≡ O.count outs.old }
        ensures goes { SeatGoes O.did_offer (λ answers ks v. after_up answers ks peer.id life now
            (after_old_down answers ks peer.id now v (v.seat.current peer.id)))
            now self.old outs.old self.new outs.new }
    {
        self.on_old_end(peer, now, sends, outs);
        let is_settled = self.is_settled();
        self.set_current(peer.place, peer.id, Some(life));
        self.take_in(&Input::LinkUp(peer.id), now, is_settled, sends, outs);
    }

    /// Passes a packet to the core if its session is the current one of its sender, the neighbour at a place. Otherwise
    /// nothing happens.
    fn on_packet<O: OutLanes>(
        &mut self,
        place: usize,
        stepped: &Stepped,
        now: u64,
        sends: &mut Sends,
        outs: &mut O,
    )
        requires place { slice_get self.old.core.neighbours place ≡ Some stepped.now.from }
        requires lanes { length self.old.core.neighbours ≤ O.count outs.old }
        requires room { length self.old.inputs ≤ 0 }
        requires first { self.old.stepped ≡ None }
        ensures count { O.count outs.new ≡ O.count outs.old }
        ensures goes { SeatGoes O.did_offer
            (λ answers ks v. if is_current stepped.now.life (v.seat.current stepped.now.from)
            then after_packet answers ks stepped.now.from stepped.now.life stepped.now.packet now v else v)
            now self.old outs.old self.new outs.new }
    {
        if is_current(&stepped.life, &self.current(place)) {
            self.note_stepped(stepped);
            self.take_in_calm(
                &Input::Packet(stepped.from, stepped.packet),
                now,
                sends,
                outs,
            );
        }
    }

    /// Handles the report that a session of a neighbour ended: takes the link down if the session is current, or
    /// withdraws its pending cut. Otherwise nothing happens.
    fn on_down<O: OutLanes>(
        &mut self,
        peer: Neighbour,
        life: &Life,
        now: u64,
        sends: &mut Sends,
        outs: &mut O,
    )
        requires place { slice_get self.old.core.neighbours peer.place ≡ Some peer.id }
        requires lanes { length self.old.core.neighbours ≤ O.count outs.old }
        requires room { length self.old.inputs ≤ 0 }
        ensures count { O.count outs.new ≡ O.count outs.old }
        ensures goes { SeatGoes O.did_offer (λ answers ks v. if is_current life.now (v.seat.current peer.id)
            then after_down answers ks peer.id now v else if is_current life.now (v.seat.pending peer.id)
            then with_pending v peer.id None else v) now self.old outs.old self.new outs.new }
    {
        if is_current(life, &self.current(peer.place)) {
            self.on_end(peer, now, sends, outs);
        } else if is_current(life, &self.pending(peer.place)) {
            self.set_pending(peer.place, peer.id, None);
        }
    }

    /// Offers the cut of a session to the queue to a neighbour. The cut is pending if the queue returns it. Either way
    /// an earlier pending cut of the neighbour is forgotten.
    fn ask_cut<O: OutLanes>(&mut self, peer: Neighbour, life: Life, now: u64, outs: &mut O)
        requires place { slice_get self.old.core.neighbours peer.place ≡ Some peer.id }
        requires lanes { length self.old.core.neighbours ≤ O.count outs.old }
        ensures count { O.count outs.new ≡ O.count outs.old }
        ensures rest { self.new ≡ record self.old { rows = self.new.rows } }
        ensures goes { SeatGoes O.did_offer (λ answers ks v. after_cut_asked answers v peer.id life)
            now self.old outs.old self.new outs.new }
    {
        let _me = self.core().me();
        let is_put = outs.offer(peer.place, Cargo::Cut(life));
        self.set_pending(peer.place, peer.id, left_pending(is_put, life));
    }

    /// Cuts the current session of a neighbour, if there is one.
    fn on_cut_at<O: OutLanes>(&mut self, peer: Neighbour, now: u64, sends: &mut Sends, outs: &mut O)
        requires place { slice_get self.old.core.neighbours peer.place ≡ Some peer.id }
        requires lanes { length self.old.core.neighbours ≤ O.count outs.old }
        requires room { length self.old.inputs ≤ 0 }
        ensures count { O.count outs.new ≡ O.count outs.old }
        ensures goes { SeatGoes O.did_offer
            (λ answers ks v. after_life_cut answers ks peer.id now v (v.seat.current peer.id))
            now self.old outs.old self.new outs.new }
    {
        if let Some(life) = self.current(peer.place) {
            self.ask_cut(peer, life, now, outs);
            self.on_end(peer, now, sends, outs);
        }
    }

    /// Cuts the current session of a neighbour, if there is such a neighbour and it has one.
    fn on_cut<O: OutLanes>(&mut self, k: Id, now: u64, sends: &mut Sends, outs: &mut O)
        requires lanes { length self.old.core.neighbours ≤ O.count outs.old }
        requires room { length self.old.inputs ≤ 0 }
        ensures count { O.count outs.new ≡ O.count outs.old }
        ensures goes { SeatGoes O.did_offer
            (λ answers ks v. if has_number k ks then after_life_cut answers ks k now v (v.seat.current k) else v)
            now self.old outs.old self.new outs.new }
    {
        if let Some(place) = self.place(k) {
            self.on_cut_at(Neighbour { place, id: k }, now, sends, outs);
        }
    }

    /// Handles an item of the link to a neighbour. `Cut` and `Beat` have no effect.
    fn on_link_item<O: OutLanes>(
        &mut self,
        peer: Neighbour,
        what: &What,
        now: u64,
        sends: &mut Sends,
        outs: &mut O,
    )
        requires place { slice_get self.old.core.neighbours peer.place ≡ Some peer.id }
        requires lanes { length self.old.core.neighbours ≤ O.count outs.old }
        requires room { length self.old.inputs ≤ 0 }
        requires first { self.old.stepped ≡ None }
        ensures count { O.count outs.new ≡ O.count outs.old }
        ensures goes { SeatGoes O.did_offer
            (λ answers ks. after_link_item answers ks peer.id now what.now) now self.old outs.old self.new outs.new }
    {
        match what {
            What::Up(life) => self.on_up(peer, *life, now, sends, outs),
            What::Packet(life, packet) => {
                let stepped = Stepped {
                    from: peer.id,
                    life: *life,
                    packet: *packet,
                };
                self.on_packet(peer.place, &stepped, now, sends, outs)
            }
            What::Down(life, _) => self.on_down(peer, life, now, sends, outs),
            What::Need(d) => self.take_in_calm(&Input::Need(*d), now, sends, outs),
            What::Cut(_) => {}
            What::Beat => {}
            What::Show => self.answer = Answer::Show,
            What::Status(_) => self.answer = Answer::Show,
            What::Quit => self.answer = Answer::Quit,
        }
    }

    /// Handles an item that no link put. `Up`, `Packet`, `Down` and `Beat` have no effect.
    fn on_other_item<O: OutLanes>(&mut self, what: &What, now: u64, sends: &mut Sends, outs: &mut O)
        requires lanes { length self.old.core.neighbours ≤ O.count outs.old }
        requires room { length self.old.inputs ≤ 0 }
        ensures count { O.count outs.new ≡ O.count outs.old }
        ensures goes { SeatGoes O.did_offer
            (λ answers ks. after_other_item answers ks now what.now) now self.old outs.old self.new outs.new }
    {
        match what {
            What::Need(d) => self.take_in_calm(&Input::Need(*d), now, sends, outs),
            What::Cut(k) => self.on_cut(*k, now, sends, outs),
            What::Show => self.answer = Answer::Show,
            What::Status(_) => self.answer = Answer::Show,
            What::Quit => self.answer = Answer::Quit,
            What::Up(_) => {}
            What::Packet(_, _) => {}
            What::Down(_, _) => {}
            What::Beat => {}
        }
    }

    /// Offers each pending cut once. It reads no row if none is pending.
    pub(crate) fn try_cuts<O: OutLanes>(&mut self, now: u64, outs: &mut O)
        requires lanes { length self.old.core.neighbours ≤ O.count outs.old }
        ensures count { O.count outs.new ≡ O.count outs.old }
        ensures rest { self.new ≡ record self.old { rows = self.new.rows } }
        ensures goes { SeatGoes O.did_offer after_cuts_tried now self.old outs.old self.new outs.new }
    {
        if self.has_pending {
            self.has_cut = true;
            self.has_pending = try_cuts(&mut self.rows, outs);
        }
    }

    /// Handles an item: as one of the link at the place `item.seat`, or as one that no link put if there is no such
    /// link.
    pub(crate) fn on_item<O: OutLanes>(&mut self, item: &Item, sends: &mut Sends, outs: &mut O)
        requires lanes { length self.old.core.neighbours ≤ O.count outs.old }
        requires room { length self.old.inputs ≤ 0 }
        requires first { self.old.stepped ≡ None }
        ensures count { O.count outs.new ≡ O.count outs.old }
        ensures goes { SeatGoes O.did_offer
            (λ answers ks. after_item_of answers ks (slice_get ks item.entry.now.seat)
            item.entry.now.now item.entry.now.what) item.entry.now.now self.old outs.old self.new outs.new }
    {
        match self.neighbour(item.seat) {
            Some(k) => {
                let peer = Neighbour {
                    place: item.seat,
                    id: k,
                };
                self.on_link_item(peer, &item.what, item.now, sends, outs)
            }
            None => self.on_other_item(&item.what, item.now, sends, outs),
        }
    }
}
