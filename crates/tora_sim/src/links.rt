//! The parts of a link end.
ghost use Rattle.tora_arq.specs.Settings.{IsTimes, settings_of};
ghost use Rattle.std.specs.Prelude.{◌≡◌, ◌≢◌, ◌<◌, ◌≤◌, ◌+◌, ◌++◌, ◌∷◌, [], ℕ, true, false, IsTrue, IfSome, OnOk, IfOk};
ghost use Rattle.std.specs.Prelude.{IfErr, length, is_some, nat_lt, slice_get};
ghost use Rattle.tora_seat.specs.Between.{after_cargo, after_cut_of_bound};
ghost use Rattle.tora_arq.specs.LinkEnd.{bound_life, is_closed, after_frame, after_tick, frame_due, after_transmit};
ghost use Rattle.tora_arq.specs.LinkEnd.{first_event, after_poll_event, first_end};
ghost use Rattle.tora_sim.specs.Links.{with_state, after_open_at, after_arm, after_pull_at, AreChanged};
ghost use Rattle.tora_frame.specs.FrameParts.{IsHeader, frame_of};
ghost use Rattle.tora_frame.specs.declared.parts.Body.{Body};
ghost use Rattle.tora_arq.specs.EndRange.{link_end_of};
ghost use Rattle.tora_sim.specs.Restarts.{restarted};
ghost use Rattle.tora_sim.specs.SteadyLinks.{IsSteadyLink};
ghost use Rattle.tora_arq.specs.Steady.{resumed};
ghost use Rattle.tora_sim.specs.Lane.{AreOthersAsWhole, Fits};
ghost use Rattle.tora_sim.specs.Lanes.{after_offer_at, has_place, bare, HasRoom};

use crate::SimError;
use crate::files::FileSlot;
use crate::link_slot::LinkSlot;
use crate::store::{KeptCargoes, Lane, Pool};
use std::alloc::Global;
use std::marker::Model;
use std::mem;
use tora_arq::{ArqError, GrowingEnd, Life, LinkEvent, Steady, Times, lives_are_bound_once};
use tora_frame::{BorrowedFrame, Header, Packets, Version};
use tora_height::Id;
use tora_life::{DiskCall, MemDisk, Owner};
use tora_packet::Packet;
use tora_seat::Cargo;

/// One end of a link: the link end, its life file, and the outbound queue from the node's core to it.
#[derive(Drop)]
pub struct LinkParts {
    /// Boxed, because it is seldom read.
    pub(crate) file: Box<FileSlot>,
    /// The index of the peer among the node's neighbours.
    pub(crate) seat: usize,
    pub(crate) end: GrowingEnd,
    /// The outbound queue from the node's core to this end.
    pub(crate) lane: Lane,
    /// The packets that the node's core ever took from the peer, each with its session.
    pub(crate) steps: KeptCargoes,
}

impl Model for LinkParts {
    ghost use Rattle.std.specs.Prelude.{◌≡◌, ◌≤◌, ◌+◌, length};
    ghost use Rattle.tora_world.specs.Lists.{parcels_in};
    ghost use Rattle.tora_life.specs.LifeRun.{owner_in};
    ghost use Rattle.tora_world.specs.World.{owner_of};
    ghost use Rattle.tora_sim.specs.Files.{disk_of, IsDrawn};
    ghost use Rattle.tora_sim.specs.Links.{LinkView, link_of};

    ghost Value = { LinkView };

    ghost view = { λ s. link_of s.end.settings.me s.end.settings.peer s.seat s.end (disk_of s.file.value) s.lane.put
        s.lane.pulled s.lane.room s.steps.items (length (parcels_in s.steps.items) + s.steps.places) };

    ghost invariant = { λ s. IsDrawn s.end.state.last_life (disk_of s.file.value) × (s.lane.pulled ≤ length s.lane.put)
        × (owner_in (disk_of s.file.value) ≡ owner_of s.end.settings.me s.end.settings.peer) };
}

impl LinkParts {
    /// The node and the peer; the ends are in the order of these keys.
    pub fn key(&self) -> (Id, Id)
        ensures { result ≡ (self.now.node, self.now.peer) }
    {
        (self.end.me(), self.end.peer())
    }

    /// The index of the peer among the node's neighbours.
    pub fn seat(&self) -> usize
        ensures { result ≡ self.now.seat }
    {
        self.seat
    }

    /// Whether the end is closed.
    pub fn is_closed(&self) -> bool
        ensures { result ≡ is_closed self.now.state }
    {
        self.end.is_closed()
    }

    /// Whether the end has an event to give.
    #[inline(always)]
    pub fn has_event(&self) -> bool
        ensures { result ≡ is_some (first_event self.now.state) }
    {
        self.end.has_event()
    }

    /// The next event of the end, which stays there; `None` if there is none.
    pub fn next_event(&self) -> Option<LinkEvent>
        ensures { result ≡ first_event self.now.state }
    {
        self.end.next_event()
    }

    /// Whether a frame is due at the tick `now`.
    pub fn has_frame_due(&self, now: u64) -> bool
        ensures { result ≡ is_some (frame_due self.now.settings self.now.state now) }
    {
        self.end.has_frame_due(now)
    }

    /// The tick before which no frame is due and no tick ends the session: 0 if a frame is owed at once, 2^64 - 1 if
    /// the end is closed.
    #[inline(always)]
    pub fn quiet_end_until(&self) -> u64
        ensures frames { (tick : ℕ) → tick < result → is_some (frame_due self.now.settings self.now.state tick)
            ≡ false }
        ensures ticks { (tick : ℕ) → tick < result → after_tick self.now.settings self.now.state tick ≡ self.now.state }
    {
        self.end.deadline()
    }

    /// Passes the tick `now` to the end.
    pub fn tick(&mut self, now: u64)
        ensures { self.new ≡ with_state self.old (after_tick self.old.settings self.old.state now) }
    {
        lives_are_bound_once();
        self.end.on_tick(now);
    }

    /// Returns the first frame due at the tick `now`, which counts as sent; `None` if no frame is due. Its packets are
    /// in `packets`, which is overwritten.
    #[inline(always)]
    pub fn send<'a>(&mut self, now: u64, packets: &'a mut Packets) -> Option<BorrowedFrame<'a>>
        ensures frame { result ≡ frame_due self.old.settings self.old.state now }
        ensures state { self.new ≡ with_state self.old (after_transmit self.old.settings self.old.state now) }
    {
        lives_are_bound_once();
        self.end.poll_transmit_into(now, packets)
    }

    /// Handles a frame. Returns `false` if memory runs out; nothing changes then.
    #[inline(always)]
    pub fn receive(&mut self, frame: &BorrowedFrame<'_>, now: u64) -> bool
        ensures state { result ≡ true → self.new ≡ with_state self.old
            (after_frame self.old.settings self.old.state frame.now now) }
        ensures same { result ≡ false → self.new ≡ self.old }
    {
        lives_are_bound_once();
        self.end.on_borrowed_frame(frame, now).is_ok()
    }

    /// Handles a HELLO, given by its header, as `receive` does.
    #[inline(always)]
    pub fn receive_hello(&mut self, header: &Header, now: u64) -> bool
        requires { IsHeader header.now }
        ensures state { result ≡ true → self.new ≡ with_state self.old
            (after_frame self.old.settings self.old.state (frame_of header.now Body.Hello) now) }
        ensures same { result ≡ false → self.new ≡ self.old }
    {
        lives_are_bound_once();
        self.end.on_hello(header, now).is_ok()
    }

    /// The fields that HELLOs read, if the end is idle and no outbound message waits; otherwise `None`.
    pub fn steady(&self) -> Option<Steady>
        ensures steady { IfSome result (λ steady. IsSteadyLink steady self.now) }
        ensures same { IfSome result (λ steady. with_state self.now (resumed steady self.now.state) ≡ self.now) }
    {
        if self.has_cargo() {
            return None;
        }
        self.end.steady()
    }

    /// Writes the idle fields back into the end.
    pub fn resume(&mut self, steady: &Steady)
        requires { IsSteadyLink steady.now self.old }
        ensures { self.new ≡ with_state self.old (resumed steady.now self.old.state) }
    {
        self.end.resume(steady);
    }

    /// Removes and returns the first event; `None` if there is none.
    pub fn take_event(&mut self) -> Option<LinkEvent>
        ensures event { result ≡ first_event self.old.state }
        ensures state { self.new ≡ with_state self.old (after_poll_event self.old.state) }
    {
        lives_are_bound_once();
        self.end.poll_event()
    }

    /// Takes a session number from the life file, and opens the closed end with it. The end stays closed if the file
    /// gives none.
    pub fn open(&mut self, now: u64)
        requires { IsTrue (is_closed self.old.state) }
        ensures { self.new ≡ after_open_at self.old now }
    {
        if let Some(number) = self.file.draw() {
            self.end.open(number, now);
        }
    }

    /// Makes the next call of this kind fail at the life file.
    pub fn arm(&mut self, call: DiskCall)
        ensures { self.new ≡ after_arm self.old call }
    {
        self.file.arm(call);
    }

    /// Whether an outbound message waits.
    pub fn has_cargo(&self) -> bool
        ensures { result ≡ nat_lt self.now.pulled (length self.now.put) }
    {
        self.lane.has_cargo()
    }

    /// Takes the first outbound message from the queue, and submits its packet or cuts its session. Returns `false` if
    /// memory runs out; nothing changes then.
    pub fn pull(&mut self) -> bool
        requires { self.old.pulled < length self.old.put }
        ensures pulled { result ≡ true → self.new ≡ after_pull_at self.old (slice_get self.old.put self.old.pulled) }
        ensures same { result ≡ false → self.new ≡ self.old }
    {
        lives_are_bound_once();
        let cargo = self.lane.next();
        if !hand_in(&mut self.end, &cargo) {
            return false;
        }
        self.lane.take();
        true
    }

    /// Allocates memory for all that one item of the node can put here: for `MOST_CARGOES` outbound messages, if the
    /// queue has a list, and for one packet that the core takes.
    ///
    /// # Errors
    /// `Memory`. The end does not change.
    pub fn make_room(&mut self) -> Result<(), SimError>
        ensures same { bare self.new ≡ bare self.old }
        ensures room { OnOk result (HasRoom self.new) }
        ensures memory { IfErr result (λ e. e ≡ SimError.Memory) }
    {
        if self.lane.make_room().is_err() {
            return Err(SimError::Memory);
        }
        if self.steps.reserve().is_err() {
            return Err(SimError::Memory);
        }
        Ok(())
    }

    /// Puts an outbound message at the back of the queue, unless `MOST_CARGOES` wait, and returns whether it did. If
    /// the queue needs a list, it takes the one in the pool at the index `spare`.
    #[inline(always)]
    pub fn offer(&mut self, cargo: Cargo, pool: &mut Pool, spare: usize) -> bool
        requires { Fits self.old.pulled self.old.room pool.old spare }
        ensures put { result ≡ has_place self.old }
        ensures lane { bare self.new ≡ bare (after_offer_at self.old cargo result) }
        ensures step { self.new.step_room ≡ self.old.step_room }
        ensures room { Fits self.new.pulled self.new.room pool.new spare }
        ensures others { AreOthersAsWhole pool.old pool.new spare }
    {
        if !self.lane.has_place() {
            return false;
        }
        self.lane.put(cargo, pool, spare);
        true
    }

    /// A new, closed end of the same link, with the same version and times.
    ///
    /// # Errors
    /// `Memory`.
    pub fn new_end(&self, alloc: Global) -> Result<GrowingEnd, SimError>
        ensures fresh { IfOk result (λ end. end ≡ link_end_of self.now.settings first_end) }
        ensures memory { IfErr result (λ e. e ≡ SimError.Memory) }
    {
        let peer = self.end.peer();
        let version = self.end.version();
        match end_of(alloc, version, self.end.me(), peer, self.end.times()) {
            Ok(end) => Ok(end),
            Err(_) => Err(SimError::Memory),
        }
    }

    /// Swaps its end with `end`, a new one, empties the outbound queue, crashes the disk of the life file as
    /// `MemDisk::crash` does with `torn`, and opens the file again.
    pub fn restart(&mut self, end: &mut GrowingEnd, torn: Option<[u8; 16]>)
        requires { end.old ≡ link_end_of self.old.settings first_end }
        ensures { self.new ≡ restarted torn self.old }
    {
        let owner = Owner {
            node: self.end.me(),
            peer: self.end.peer(),
        };
        mem::swap(&mut self.end, end);
        let file = mem::replace(&mut *self.file, FileSlot::Unopened(owner, MemDisk::new()));
        *self.file = file.restart(owner, torn);
        self.lane.take_all();
    }

    /// Records a packet that the node's core took from the peer, with its session. There must be room for it.
    pub fn note_step(&mut self, life: Life, packet: Packet)
        requires { length self.old.steps < self.old.step_room }
        ensures { self.new ≡ record self.old {
          steps = self.old.steps ++ record { life = life; packet = packet } ∷ [];
        } }
    {
        self.steps.push(&Cargo::Packet(life, packet));
    }
}

/// Submits the packet of an outbound message, or cuts its session. A packet whose session is not the bound one is
/// dropped. Returns `false` if memory runs out; nothing changes then.
fn hand_in(end: &mut GrowingEnd, cargo: &Cargo) -> bool
    ensures state { result ≡ true → end.new ≡ record end.old { state = after_cargo end.old.state cargo.now } }
    ensures same { result ≡ false → end.new ≡ end.old }
{
    match cargo {
        Cargo::Packet(life, packet) => end.submit(*life, *packet).is_ok(),
        Cargo::Cut(life) => {
            end.cut(*life);
            true
        }
    }
}

/// Cuts the session that the link end is bound to, if there is one.
pub fn cut_bound(end: &mut GrowingEnd)
    ensures { end.new ≡ record end.old { state = after_cut_of_bound end.old.state (bound_life end.old.state) } }
{
    if let Some(life) = end.life() {
        end.cut(life);
    }
}

/// A closed end of the link between node `me` and `peer`. It speaks the versions of frames up to this one.
///
/// # Errors
/// `Memory`.
pub fn end_of(
    alloc: Global,
    version: Version,
    me: Id,
    peer: Id,
    times: Times,
) -> Result<GrowingEnd, ArqError>
    requires me { 0 < me }
    requires peer { 0 < peer }
    requires other { me ≢ peer }
    requires times { IsTimes times }
    ensures { IfOk result (λ end. end ≡ link_end_of (settings_of version me peer times) first_end) }
{
    GrowingEnd::new(alloc, version, me, peer, times)
}

/// Makes the next call of this kind fail at the life file of each of the `count` ends from the index `first` on.
pub fn arm(links: &mut Vec<LinkSlot>, first: usize, count: usize, call: DiskCall)
    requires { first + count ≤ length links.old.items }
    ensures { AreChanged (λ link. after_arm link call) links.old.items links.new.items first count }
{
    for place in 0..count {
        let at = first + place;
        links[at].arm(call);
    }
}
