//! A link end that takes memory only when packets and events have to be stored.
ghost use Rattle.std.specs.Prelude.{◌≡◌, ◌≢◌, ◌<◌, ◌≤◌, ℕ, false, IfErr, IfNone, IfOk, IfSome, IsTrue, OnErr};
ghost use Rattle.std.specs.Prelude.{is_some, length};
ghost use Rattle.tora_arq.specs.Settings.{IsTimes, settings_of};
ghost use Rattle.tora_arq.specs.LinkEnd.{first_end, is_closed, bound_life, after_open, verdict_of, after_frame};
ghost use Rattle.tora_arq.specs.LinkEnd.{after_tick, submit_answer, after_submit, after_cut, first_event};
ghost use Rattle.tora_arq.specs.LinkEnd.{after_poll_event, is_hello, frame_due, after_transmit};
ghost use Rattle.tora_arq.specs.EndRange.{IsEndState, link_end_of};
ghost use Rattle.tora_arq.specs.Still.{IsStillUntil};
ghost use Rattle.tora_arq.specs.Steady.{IsSteady, resumed, steady_of};
ghost use Rattle.tora_frame.specs.declared.parts.TheConstants.{GREATEST_NUMBER};
ghost use Rattle.tora_frame.specs.FrameParts.{IsHeader, frame_of};
ghost use Rattle.tora_frame.specs.declared.parts.Body.{Body};

use crate::settings::Settings;
use crate::state::State;
use crate::{ArqError, Life, LinkEvent, Steady, SubmitError, Times, Verdict};
use std::alloc::Global;
use std::marker::Model;
use tora_frame::{BorrowedFrame, Header, Packets, Version};
use tora_height::Id;
use tora_packet::Packet;

/// A link end like `LinkEnd`, which takes memory only when it has to store packets and events: a call that may queue
/// some makes room first. So a simulator can hold very many idle ends.
///
/// Its calls have the same effects as those of `LinkEnd`. A call that may take memory may fail, and then changes
/// nothing. A bound end always has a place for its `Down` event, so a tick and a cut cannot fail.
#[derive(Debug, Drop)]
pub struct GrowingEnd {
    settings: Settings,
    state: State,
}

impl Model for GrowingEnd {
    ghost use Rattle.tora_arq.specs.EndRange.{LinkEndView, IsEndState, link_end_of};
    ghost use Rattle.tora_arq.specs.Rooms.{HasEventPlace};
    ghost use Rattle.tora_arq.specs.StateView.{settings_in, state_in};

    ghost Value = { LinkEndView };

    ghost view = { λ e. link_end_of (settings_in e.settings) (state_in e.state) };

    ghost invariant = { λ e. IsEndState (settings_in e.settings) (state_in e.state)
        × HasEventPlace e.state.events.capacity (state_in e.state) };
}

impl GrowingEnd {
    /// A closed end for the link between node `me` and its neighbour `peer`, two different nodes. It speaks all
    /// versions up to `version`.
    ///
    /// Every time of `times` is at least 1.
    ///
    /// # Errors
    /// `Memory`.
    pub fn new(
        alloc: Global,
        version: Version,
        me: Id,
        peer: Id,
        times: Times,
    ) -> Result<GrowingEnd, ArqError>
        requires me { 0 < me }
        requires peer { 0 < peer }
        requires other { me ≢ peer }
        requires times { IsTimes times }
        ensures { IfOk result (λ end. end ≡ link_end_of (settings_of version me peer times) first_end) }
    {
        let Ok(state) = State::new(alloc, 0, 0, 0) else {
            return Err(ArqError::Memory);
        };
        let settings = Settings {
            version,
            me,
            peer,
            times,
        };
        Ok(GrowingEnd { settings, state })
    }

    /// The node at the other end.
    pub fn peer(&self) -> Id
        ensures peer { result ≡ self.now.settings.peer }
        ensures kept { IsEndState self.now.settings self.now.state }
    {
        self.settings.peer
    }

    /// The node of this end.
    pub fn me(&self) -> Id
        ensures { result ≡ self.now.settings.me }
    {
        self.settings.me
    }

    /// The newest version of frames that this end speaks.
    pub fn version(&self) -> Version
        ensures { result ≡ self.now.settings.version }
    {
        self.settings.version
    }

    /// The times of this end.
    pub fn times(&self) -> Times
        ensures { result ≡ self.now.settings.times }
    {
        self.settings.times
    }

    /// Whether the end is closed, and has to be opened.
    pub fn is_closed(&self) -> bool
        ensures { result ≡ is_closed self.now.state }
    {
        self.state.is_closed()
    }

    /// The bound session; `None` if the end is not bound.
    pub fn life(&self) -> Option<Life>
        ensures { result ≡ bound_life self.now.state }
    {
        self.state.life()
    }

    /// How many packets are not acknowledged.
    pub fn waiting(&self) -> usize
        ensures { result ≡ length self.now.state.queue }
    {
        self.state.queue.len()
    }

    /// Whether there is an event to poll.
    #[inline(always)]
    pub fn has_event(&self) -> bool
        ensures { result ≡ is_some (first_event self.now.state) }
    {
        self.state.events.has_first()
    }

    /// The next event, if there is one. It stays in the queue.
    pub fn next_event(&self) -> Option<LinkEvent>
        ensures { result ≡ first_event self.now.state }
    {
        self.state.events.first()
    }

    /// Whether a frame is due at the tick `now`.
    pub fn has_frame_due(&self, now: u64) -> bool
        ensures { result ≡ is_some (frame_due self.now.settings self.now.state now) }
    {
        self.state.is_frame_due(&self.settings, now)
    }

    /// As `LinkEnd::deadline`.
    #[inline(always)]
    pub fn deadline(&self) -> u64
        ensures exact { IsStillUntil self.now.settings self.now.state result }
        ensures frames { (tick : ℕ) → tick < result → is_some (frame_due self.now.settings self.now.state tick)
            ≡ false }
        ensures ticks { (tick : ℕ) → tick < result → after_tick self.now.settings self.now.state tick ≡ self.now.state }
    {
        self.state.deadline(&self.settings)
    }

    /// As `LinkEnd::steady`.
    pub fn steady(&self) -> Option<Steady>
        ensures given { result ≡ steady_of self.now.settings self.now.state }
        ensures steady { IfSome result (λ steady. IsSteady steady self.now.settings self.now.state) }
        ensures same { IfSome result (λ steady. resumed steady self.now.state ≡ self.now.state) }
    {
        self.state.steady(&self.settings)
    }

    /// As `LinkEnd::resume`.
    pub fn resume(&mut self, steady: &Steady)
        requires { IsSteady steady.now self.old.settings self.old.state }
        ensures { self.new ≡ record self.old { state = resumed steady.now self.old.state } }
    {
        self.state.resume(steady);
    }

    /// Opens a closed end with a session number that is above all earlier ones and at most 2^62.
    pub fn open(&mut self, life: u64, now: u64)
        requires closed { IsTrue (is_closed self.old.state) }
        requires above { self.old.state.last_life < life }
        requires within { life ≤ GREATEST_NUMBER }
        ensures { self.new ≡ record self.old { state = after_open self.old.state life now } }
    {
        self.state.open(life, now);
    }

    /// As `LinkEnd::on_tick`.
    pub fn on_tick(&mut self, now: u64)
        ensures { self.new ≡ record self.old { state = after_tick self.old.settings self.old.state now } }
    {
        self.state.on_tick(&self.settings, now);
    }

    /// Removes and returns the next event, if there is one.
    pub fn poll_event(&mut self) -> Option<LinkEvent>
        ensures event { result ≡ first_event self.old.state }
        ensures state { self.new ≡ record self.old { state = after_poll_event self.old.state } }
    {
        self.state.events.pop()
    }

    /// Ends a session if it is the bound one; otherwise nothing changes.
    pub fn cut(&mut self, life: Life)
        ensures { self.new ≡ record self.old { state = after_cut self.old.state life } }
    {
        self.state.cut(life);
    }

    /// As `LinkEnd::poll_transmit_into`.
    pub fn poll_transmit_into<'a>(
        &mut self,
        now: u64,
        packets: &'a mut Packets,
    ) -> Option<BorrowedFrame<'a>>
        ensures frame { result ≡ frame_due self.old.settings self.old.state now }
        ensures state { self.new ≡ record self.old { state = after_transmit self.old.settings self.old.state now } }
        ensures none { IfNone result (self.new ≡ self.old) }
    {
        self.state.poll_transmit(&self.settings, now, packets)
    }

    /// As `LinkEnd::poll_hello`.
    pub fn poll_hello(&mut self, now: u64) -> Option<Header>
        ensures frame { IfSome result (λ header. frame_due self.old.settings self.old.state now
            ≡ Some (frame_of header Body.Hello)) }
        ensures state { IfSome result (λ _. self.new ≡ record self.old {
          state =
              after_transmit self.old.settings self.old.state now;
        }) }
        ensures valid { IfSome result (λ header. IsHeader header) }
        ensures given { is_some result ≡ is_hello (frame_due self.old.settings self.old.state now) }
        ensures none { IfNone result (self.new ≡ self.old) }
    {
        self.state.poll_first_hello(&self.settings, now)
    }

    /// As `LinkEnd::on_borrowed_frame`.
    ///
    /// # Errors
    /// `Memory`; nothing changes then.
    pub fn on_borrowed_frame(
        &mut self,
        frame: &BorrowedFrame<'_>,
        now: u64,
    ) -> Result<Verdict, ArqError>
        ensures verdict { IfOk result (λ verdict. verdict ≡ verdict_of self.old.settings self.old.state frame.now now) }
        ensures state { IfOk result (λ _. self.new ≡ record self.old {
          state =
              after_frame self.old.settings self.old.state frame.now now;
        }) }
        ensures same { OnErr result (self.new ≡ self.old) }
    {
        match self.state.make_frame_room(frame) {
            Ok(()) => Ok(self.state.on_frame(&self.settings, frame, now)),
            Err(_) => Err(ArqError::Memory),
        }
    }

    /// As `LinkEnd::on_hello`.
    ///
    /// # Errors
    /// `Memory`; nothing changes then.
    #[inline(always)]
    pub fn on_hello(&mut self, header: &Header, now: u64) -> Result<Verdict, ArqError>
        requires { IsHeader header.now }
        ensures verdict { IfOk result (λ verdict. verdict ≡ verdict_of self.old.settings self.old.state
            (frame_of header.now Body.Hello) now) }
        ensures state { IfOk result (λ _. self.new ≡ record self.old {
          state =
              after_frame self.old.settings self.old.state (frame_of header.now Body.Hello) now;
        }) }
        ensures same { OnErr result (self.new ≡ self.old) }
    {
        match self.state.make_event_room(0) {
            Ok(()) => Ok(self.state.on_hello(&self.settings, header, now)),
            Err(_) => Err(ArqError::Memory),
        }
    }

    /// As `LinkEnd::submit`, which gives the inner result.
    ///
    /// # Errors
    /// `Memory`; nothing changes then.
    pub fn submit(
        &mut self,
        life: Life,
        packet: Packet,
    ) -> Result<Result<(), SubmitError>, ArqError>
        ensures answer { IfOk result (λ answer. answer ≡ submit_answer self.old.state life packet) }
        ensures state { IfOk result (λ _. self.new ≡ record self.old {
          state =
              after_submit self.old.state life packet;
        }) }
        ensures same { OnErr result (self.new ≡ self.old) }
    {
        match self.state.make_packet_room() {
            Ok(()) => Ok(self.state.submit(life, packet)),
            Err(_) => Err(ArqError::Memory),
        }
    }
}
