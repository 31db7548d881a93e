//! The state of a link end, and the effect of each call.
ghost use Rattle.std.specs.Prelude.{◌≡◌, ◌<◌, ◌≤◌, ◌+◌, ◌^◌, length, IfOk, IsOk, MatchOption};
ghost use Rattle.tora_arq.specs.LinkEnd.{after_open, after_end, after_bind, after_acknowledgement, after_delivery};
ghost use Rattle.tora_arq.specs.LinkEnd.{after_release, bound_life, first_end, is_closed, is_silent, after_tick};
ghost use Rattle.tora_arq.specs.LinkEnd.{on_submit, after_cut};
ghost use Rattle.tora_arq.specs.Steady.{resumed};
ghost use Rattle.tora_arq.specs.EndRange.{IsEndState};
ghost use Rattle.tora_arq.specs.Rooms.{HasEventPlace};
ghost use Rattle.tora_arq.specs.StateView.{rooms_in, rooms_of, settings_in, state_in};

use crate::events::EventQueue;
use crate::held::HeldPackets;
use crate::phase::Phase;
use crate::queue::SendQueue;
use crate::settings::{Settings, ticks_passed};
use crate::{Life, LinkEvent, QUEUE_PLACES, Reason, Steady, SubmitError};
use std::alloc::{AllocError, Global};
use tora_frame::GREATEST_NUMBER;
use tora_packet::Packet;

/// The state of a link end, with the room of its queues. The fields that a HELLO and a tick read come first.
#[derive(Debug, Drop)]
pub struct State {
    pub phase: Phase,
    /// Whether the peer is known to speak version 2.
    pub speaks_two: bool,
    pub owes_hello: bool,
    /// Whether the last HELLO was of version 2 and no HELLO of version 1 has followed it.
    pub owes_old_hello: bool,
    pub owes_ack: bool,
    /// The tick of the last HELLO of this session, not counting HELLOs of version 1 that follow one of version 2;
    /// `None` before the first.
    pub last_hello: Option<u64>,
    /// The tick of the peer's last frame in the bound session; before it, the tick of `open`.
    pub last_hearing: u64,
    /// The greatest session number of the peer that was noted, 0 for none.
    pub heard: u64,
    /// The greatest number of a packet that was transmitted in this session, 0 for none.
    pub transmitted: u64,
    /// How many packets the peer has acknowledged.
    pub acknowledged: u64,
    /// How many packets of the peer were delivered.
    pub accepted: u64,
    /// The own number of the last `open`, 0 before the first.
    pub last_life: u64,
    /// The packets submitted and not acknowledged.
    pub queue: SendQueue,
    /// The events that were not polled.
    pub events: EventQueue,
    /// Packets of the peer that arrived out of order.
    pub held: HeldPackets,
}

impl State {
    /// A closed end that had no session, with room for this many events, unacknowledged packets, and out-of-order
    /// packets. Fails only if memory runs out.
    pub fn new(
        alloc: Global,
        events: usize,
        packets: usize,
        early: usize,
    ) -> Result<State, AllocError>
        ensures state { IfOk result (λ s. state_in s ≡ first_end) }
        ensures rooms { IfOk result (λ s. rooms_in s ≡ rooms_of events packets early) }
    {
        let queue = SendQueue::new(alloc, packets)?;
        let held = HeldPackets::new(alloc, early)?;
        let events = EventQueue::new(alloc, events)?;
        Ok(State {
            phase: Phase::Closed,
            heard: 0,
            last_life: 0,
            queue,
            acknowledged: 0,
            transmitted: 0,
            accepted: 0,
            held,
            events,
            speaks_two: false,
            owes_hello: false,
            owes_old_hello: false,
            owes_ack: false,
            last_hello: None,
            last_hearing: 0,
        })
    }

    /// Whether the end is closed.
    pub fn is_closed(&self) -> bool
        ensures { result ≡ is_closed (state_in self.now) }
    {
        match self.phase {
            Phase::Closed => true,
            Phase::Unbound(_) => false,
            Phase::Bound(_) => false,
        }
    }

    /// The bound session; `None` if the end is not bound.
    pub fn life(&self) -> Option<Life>
        ensures { result ≡ bound_life (state_in self.now) }
    {
        match self.phase {
            Phase::Closed => None,
            Phase::Unbound(_) => None,
            Phase::Bound(life) => Some(life),
        }
    }

    /// Writes the fields of an idle end, which calls of `Steady` may have changed, back into it (`LinkEnd::resume`).
    pub fn resume(&mut self, steady: &Steady)
        ensures state { state_in self.new ≡ resumed steady.now (state_in self.old) }
        ensures rooms { rooms_in self.new ≡ rooms_in self.old }
    {
        self.last_hello = Some(steady.said);
        self.last_hearing = steady.heard;
        self.owes_old_hello = steady.owes_old_hello;
    }

    /// Ends the bound session `life`: closes the end, drops its packets and queues `Down`, for which a place must be
    /// free. It is a separate function because its callers seldom reach it.
    #[inline(never)]
    pub fn end(&mut self, life: Life, reason: Reason)
        requires { length self.old.events.items < self.old.events.capacity }
        ensures state { state_in self.new ≡ after_end (state_in self.old) life reason }
        ensures rooms { rooms_in self.new ≡ rooms_in self.old }
    {
        self.phase = Phase::Closed;
        self.queue.clear();
        self.held.clear();
        self.events.push(LinkEvent::Down(life, reason));
        self.owes_hello = false;
        self.owes_old_hello = false;
        self.owes_ack = false;
    }

    /// Binds a session in which nothing was sent or accepted, and queues `Up`, for which a place must be free. A HELLO
    /// is owed if the peer's number was not the noted one.
    pub fn bind(&mut self, life: Life)
        requires { length self.old.events.items < self.old.events.capacity }
        ensures state { state_in self.new ≡ after_bind (state_in self.old) life }
        ensures rooms { rooms_in self.new ≡ rooms_in self.old }
    {
        let is_changed = self.heard != life.peer;
        self.phase = Phase::Bound(life);
        self.heard = life.peer;
        self.queue.clear();
        self.acknowledged = 0;
        self.transmitted = 0;
        self.accepted = 0;
        self.held.clear();
        self.events.push(LinkEvent::Up(life));
        self.speaks_two = !is_changed && self.speaks_two;
        self.owes_hello = self.owes_hello || is_changed;
    }

    /// Notes a frame of the peer, which has accepted `count` packets: those up to `count` leave the queue. A `count`
    /// that has not grown changes only `last_hearing`.
    pub fn acknowledge(&mut self, count: u64, now: u64)
        ensures state { state_in self.new ≡ after_acknowledgement (state_in self.old) count now }
        ensures rooms { rooms_in self.new ≡ rooms_in self.old }
    {
        self.queue
            .remove_first(count.saturating_sub(self.acknowledged));
        self.acknowledged = self.acknowledged.max(count);
        self.last_hearing = now;
    }

    /// Counts the next packet as accepted and queues its `Deliver`, for which a place must be free.
    pub fn deliver(&mut self, life: Life, packet: Packet)
        requires room { length self.old.events.items < self.old.events.capacity }
        requires number { self.old.accepted + 1 < 2 ^ 64 }
        ensures state { state_in self.new ≡ after_delivery (state_in self.old) life packet self.old.held.items }
        ensures rooms { rooms_in self.new ≡ rooms_in self.old }
    {
        self.accepted += 1;
        self.events.push(LinkEvent::Deliver(life, packet));
    }

    /// Delivers the packets that are held, up to the first gap.
    pub fn release(&mut self, life: Life)
        requires room { length self.old.events.items + length self.old.held.items < self.old.events.capacity }
        requires number { self.old.accepted + length self.old.held.items < 2 ^ 64 }
        ensures state { state_in self.new ≡ after_release life (state_in self.old) self.old.held.items }
        ensures rooms { rooms_in self.new ≡ rooms_in self.old }
    {
        while let Some(packet) = self.held.take_first() {
            self.deliver(life, packet);
        }
    }

    /// Opens the end with an own session number.
    pub fn open(&mut self, life: u64, now: u64)
        ensures state { state_in self.new ≡ after_open (state_in self.old) life now }
        ensures rooms { rooms_in self.new ≡ rooms_in self.old }
    {
        self.phase = Phase::Unbound(life);
        self.heard = 0;
        self.last_life = life;
        self.queue.clear();
        self.acknowledged = 0;
        self.transmitted = 0;
        self.accepted = 0;
        self.held.clear();
        self.speaks_two = false;
        self.owes_hello = true;
        self.owes_old_hello = false;
        self.owes_ack = false;
        self.last_hello = None;
        self.last_hearing = now;
    }

    /// Whether no frame of the peer came for `silent` ticks, or a packet is given up.
    fn is_silent(&self, settings: &Settings, now: u64) -> bool
        requires { IsEndState (settings_in settings.now) (state_in self.now) }
        ensures { result ≡ is_silent (settings_in settings.now) (state_in self.now) now }
    {
        let times = &settings.times;
        ticks_passed(self.last_hearing, now) >= times.silent || self.queue.has_given_up(times, now)
    }

    /// Ends the bound session if it has timed out.
    #[tactic(auto, unfolding(crate::specs::LinkEnd::after_tick))]
    pub fn on_tick(&mut self, settings: &Settings, now: u64)
        requires end { IsEndState (settings_in settings.now) (state_in self.old) }
        requires room { HasEventPlace self.old.events.capacity (state_in self.old) }
        ensures state { state_in self.new ≡ after_tick (settings_in settings.now) (state_in self.old) now }
        ensures rooms { rooms_in self.new ≡ rooms_in self.old }
    {
        if let Phase::Bound(life) = self.phase {
            if self.is_silent(settings, now) {
                self.end(life, Reason::Silent);
            }
        }
    }

    /// As `LinkEnd::submit`.
    #[tactic(auto, unfolding(crate::specs::LinkEnd::on_submit))]
    pub fn submit(&mut self, life: Life, packet: Packet) -> Result<(), SubmitError>
        requires submitted { self.old.acknowledged + length self.old.queue.items ≤ GREATEST_NUMBER }
        requires room { HasEventPlace self.old.events.capacity (state_in self.old) }
        requires place { length self.old.queue.items < QUEUE_PLACES
            → length self.old.queue.items < self.old.queue.capacity }
        ensures answer { result ≡ (on_submit (state_in self.old) life packet).0 }
        ensures state { state_in self.new ≡ (on_submit (state_in self.old) life packet).1 }
        ensures rooms { rooms_in self.new ≡ rooms_in self.old }
    {
        let Phase::Bound(current) = self.phase else {
            return Err(SubmitError::WrongLife(packet));
        };
        if !current.is_same(life) {
            return Err(SubmitError::WrongLife(packet));
        }
        let waiting = self.queue.len();
        if self.acknowledged + waiting as u64 >= GREATEST_NUMBER {
            self.end(current, Reason::Spent);
            return Err(SubmitError::Spent);
        }
        if waiting >= QUEUE_PLACES {
            self.end(current, Reason::Full);
            return Err(SubmitError::Full);
        }
        self.queue.push(packet);
        Ok(())
    }

    /// Ends a session if it is the bound one.
    #[tactic(auto, unfolding(crate::specs::LinkEnd::after_cut))]
    pub fn cut(&mut self, life: Life)
        requires { HasEventPlace self.old.events.capacity (state_in self.old) }
        ensures state { state_in self.new ≡ after_cut (state_in self.old) life }
        ensures rooms { rooms_in self.new ≡ rooms_in self.old }
    {
        if let Phase::Bound(current) = self.phase {
            if current.is_same(life) {
                self.end(current, Reason::Cut);
            }
        }
    }
}
