//! The calls of a stored link end, idle or not: on its outbound queue, its life file and its events.
ghost use Rattle.std.specs.Prelude.{◌≡◌, ◌<◌, ◌++◌, ◌∷◌, [], true, false, IsTrue, OnOk, IfOk, IfErr, length, is_some};
ghost use Rattle.std.specs.Prelude.{nat_lt, slice_get};
ghost use Rattle.tora_arq.specs.EndRange.{link_end_of};
ghost use Rattle.tora_arq.specs.LinkEnd.{after_poll_event, bound_life, first_end, first_event, is_closed};
ghost use Rattle.tora_seat.specs.Between.{after_cut_of_bound};
ghost use Rattle.tora_world.specs.Lists.{packets_of, parcels_in};
ghost use Rattle.tora_sim.specs.Lane.{AreOthersAsWhole, Fits};
ghost use Rattle.tora_sim.specs.Lanes.{HasRoom, after_offer_at, bare, has_place};
ghost use Rattle.tora_sim.specs.Links.{after_arm, after_open_at, after_pull_at, with_state};
ghost use Rattle.tora_sim.specs.Resting.{is_idle};
ghost use Rattle.tora_sim.specs.Restarts.{restarted};

use crate::SimError;
use crate::link_slot::{LinkSlot, keep, wake};
use crate::store::Pool;
use std::alloc::{AllocError, Global};
use tora_arq::{GrowingEnd, Life, LinkEvent};
use tora_height::Id;
use tora_life::DiskCall;
use tora_packet::Packet;
use tora_seat::Cargo;

impl LinkSlot {
    /// The node and the peer; the ends are in the order of these keys.
    pub fn key(&self) -> (Id, Id)
        ensures { result ≡ (self.now.node, self.now.peer) }
    {
        self.parts.key()
    }

    /// The index of the peer among the node's neighbours.
    pub fn seat(&self) -> usize
        ensures { result ≡ self.now.seat }
    {
        self.parts.seat()
    }

    /// Whether the end is closed; an idle end is open.
    #[inline(always)]
    pub fn is_closed(&self) -> bool
        ensures { result ≡ is_closed self.now.state }
    {
        self.steady.is_none() && self.parts.is_closed()
    }

    /// Whether the end has an event to give; an idle end has none.
    #[inline(always)]
    pub fn has_event(&self) -> bool
        ensures { result ≡ is_some (first_event self.now.state) }
    {
        self.steady.is_none() && self.parts.has_event()
    }

    /// The next event of the end, which stays there; `None` if there is none.
    pub fn next_event(&self) -> Option<LinkEvent>
        ensures { result ≡ first_event self.now.state }
    {
        self.parts.next_event()
    }

    /// Removes and returns the first event; `None` if there is none.
    pub fn take_event(&mut self) -> Option<LinkEvent>
        ensures event { result ≡ first_event self.old.state }
        ensures state { self.new ≡ with_state self.old (after_poll_event self.old.state) }
    {
        wake(&mut self.steady, &mut *self.parts);
        let event = self.parts.take_event();
        keep(&mut self.steady, &mut *self.parts);
        event
    }

    /// Takes a session number from the life file, and opens the closed end with it. The end stays closed if the file
    /// gives none.
    pub fn open(&mut self, now: u64)
        requires { IsTrue (is_closed self.old.state) }
        ensures { self.new ≡ after_open_at self.old now }
    {
        wake(&mut self.steady, &mut *self.parts);
        self.parts.open(now);
    }

    /// Makes the next call of this kind fail at the life file.
    pub fn arm(&mut self, call: DiskCall)
        ensures { self.new ≡ after_arm self.old call }
    {
        self.parts.arm(call);
    }

    /// Cuts the bound session, if there is one.
    pub fn cut_bound(&mut self)
        ensures { self.new ≡ with_state self.old (after_cut_of_bound self.old.state (bound_life self.old.state)) }
    {
        wake(&mut self.steady, &mut *self.parts);
        self.parts.cut_bound();
    }

    /// Whether an outbound message waits; at an idle end none does.
    #[inline(always)]
    pub fn has_cargo(&self) -> bool
        ensures { result ≡ nat_lt self.now.pulled (length self.now.put) }
    {
        self.steady.is_none() && self.parts.has_cargo()
    }

    /// Takes the first outbound message from the queue, and submits its packet or cuts its session. Returns `false` if
    /// memory runs out; nothing changes then.
    pub fn pull(&mut self) -> bool
        requires { self.old.pulled < length self.old.put }
        ensures pulled { result ≡ true → self.new ≡ after_pull_at self.old (slice_get self.old.put self.old.pulled) }
        ensures same { result ≡ false → self.new ≡ self.old }
    {
        wake(&mut self.steady, &mut *self.parts);
        self.parts.pull()
    }

    /// Allocates memory for all that one item of the node can put here.
    ///
    /// # Errors
    /// `Memory`. The end does not change.
    #[inline(always)]
    pub fn make_room(&mut self) -> Result<(), SimError>
        ensures same { bare self.new ≡ bare self.old }
        ensures room { OnOk result (HasRoom self.new) }
        ensures memory { IfErr result (λ e. e ≡ SimError.Memory) }
    {
        self.parts.make_room()
    }

    /// Puts an outbound message at the back of the queue, unless `MOST_CARGOES` wait, and returns whether it did. If
    /// the queue needs a list, it takes the one in the pool at the index `spare`.
    pub fn offer(&mut self, cargo: Cargo, pool: &mut Pool, spare: usize) -> bool
        requires { Fits self.old.pulled self.old.room pool.old spare }
        ensures put { result ≡ has_place self.old }
        ensures lane { bare self.new ≡ bare (after_offer_at self.old cargo result) }
        ensures step { self.new.step_room ≡ self.old.step_room }
        ensures room { Fits self.new.pulled self.new.room pool.new spare }
        ensures others { AreOthersAsWhole pool.old pool.new spare }
    {
        wake(&mut self.steady, &mut *self.parts);
        self.parts.offer(cargo, pool, spare)
    }

    /// A new, closed end of the same link, with the same version and times.
    ///
    /// # Errors
    /// `Memory`.
    pub fn new_end(&self, alloc: Global) -> Result<GrowingEnd, SimError>
        ensures fresh { IfOk result (λ end. end ≡ link_end_of self.now.settings first_end) }
        ensures memory { IfErr result (λ e. e ≡ SimError.Memory) }
    {
        self.parts.new_end(alloc)
    }

    /// Swaps its end with `end`, a new one, empties the outbound queue, crashes the disk of the life file as
    /// `MemDisk::crash` does with `torn`, and opens the file again.
    pub fn restart(&mut self, end: &mut GrowingEnd, torn: Option<[u8; 16]>)
        requires { end.old ≡ link_end_of self.old.settings first_end }
        ensures { self.new ≡ restarted torn self.old }
    {
        wake(&mut self.steady, &mut *self.parts);
        self.parts.restart(end, torn);
    }

    /// Records a packet that the node's core took from the peer, with its session. There must be room for it.
    pub fn note_step(&mut self, life: Life, packet: Packet)
        requires { length self.old.steps < self.old.step_room }
        ensures { self.new ≡ record self.old {
          steps = self.old.steps ++ record { life = life; packet = packet } ∷ [];
        } }
    {
        self.parts.note_step(life, packet);
    }

    /// Whether no message waits in the outbound queue, no event in the end, and all that was submitted is acknowledged.
    pub fn is_idle(&self) -> bool
        ensures { result ≡ is_idle self.now }
    {
        self.parts.is_idle()
    }

    /// The session in which the end is bound; `None` if it is not bound.
    pub fn life(&self) -> Option<Life>
        ensures { result ≡ bound_life self.now.state }
    {
        self.parts.life()
    }

    /// How many packets of a session were ever put into the outbound queue.
    pub fn sent_count(&self, life: Life) -> usize
        ensures { result ≡ length (packets_of life (parcels_in self.now.put)) }
    {
        self.parts.sent_count(life)
    }

    /// The packets of a session that were ever put into the outbound queue, in order.
    ///
    /// # Errors
    /// Memory ran out.
    pub fn sent(&self, alloc: Global, life: Life) -> Result<Vec<Packet>, AllocError>
        ensures { IfOk result (λ v. v.items ≡ packets_of life (parcels_in self.now.put)) }
    {
        self.parts.sent(alloc, life)
    }

    /// How many packets of the peer the node's core took in a session.
    pub fn taken_count(&self, life: Life) -> usize
        ensures { result ≡ length (packets_of life self.now.steps) }
    {
        self.parts.taken_count(life)
    }

    /// The packets of the peer that the node's core took in a session, in order.
    ///
    /// # Errors
    /// Memory ran out.
    pub fn taken(&self, alloc: Global, life: Life) -> Result<Vec<Packet>, AllocError>
        ensures { IfOk result (λ v. v.items ≡ packets_of life self.now.steps) }
    {
        self.parts.taken(alloc, life)
    }
}
