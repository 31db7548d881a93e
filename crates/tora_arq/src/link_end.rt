//! A link end, as its node sees it.
ghost use Rattle.std.specs.Prelude.{◌≡◌, ◌≢◌, ◌<◌, ◌≤◌, ℕ, IfOk, IfNone, IfSome, IsTrue, OnSome, Some, false};
ghost use Rattle.std.specs.Prelude.{is_some, length};
ghost use Rattle.tora_arq.specs.Settings.{IsTimes, settings_of};
ghost use Rattle.tora_arq.specs.LinkEnd.{first_end, is_closed, bound_life, after_open, verdict_of, after_frame};
ghost use Rattle.tora_arq.specs.LinkEnd.{after_tick, submit_answer, after_submit, after_cut, first_event};
ghost use Rattle.tora_arq.specs.LinkEnd.{after_poll_event, is_hello, frame_due, after_transmit};
ghost use Rattle.tora_arq.specs.EndRange.{IsEndState, link_end_of};
ghost use Rattle.tora_arq.specs.NextDue.{IsNextDue};
ghost use Rattle.tora_arq.specs.Still.{IsStillUntil};
ghost use Rattle.tora_arq.specs.Steady.{IsSteady, resumed, steady_of};
ghost use Rattle.tora_frame.specs.declared.parts.TheConstants.{GREATEST_NUMBER};
ghost use Rattle.tora_frame.specs.FrameParts.{IsHeader, frame_of};
ghost use Rattle.tora_frame.specs.declared.parts.Body.{Body};
ghost use Rattle.tora_frame.specs.declared.parts.Version.TheVariants.{One, Two};

use crate::settings::Settings;
use crate::state::State;
use crate::{
    ArqError, EVENT_PLACES, HELD_PLACES, Life, LinkEvent, QUEUE_PLACES, Steady, SubmitError, Times,
    Verdict,
};
use std::alloc::Global;
use std::marker::Model;
use tora_frame::{BorrowedFrame, Frame, Header, Packets, Version};
use tora_height::Id;
use tora_packet::Packet;

/// The end of a link to one neighbour.
///
/// It is closed at first. A caller opens it with a number above all numbers with which it was opened before. By HELLOs
/// the two ends then bind a session, in which each end delivers the other's packets once and in order. When the session
/// ends, the link end closes, and the caller opens it with the next number.
///
/// In each turn a caller with the tick `now` makes these calls, in this order:
/// 1. if `is_closed`, `open` with a new number;
/// 2. `on_tick`;
/// 3. `submit` each packet to send, or `cut` a session;
/// 4. `poll_transmit` until it returns `None`, and send each frame;
/// 5. `on_frame` with a frame that arrived;
/// 6. `poll_event` until it returns `None`.
///
/// Any other order is safe. A tick is 100 ms. If a tick is less than an earlier one, no time has passed. Only `new` and
/// `new_v1` take memory. A bound end always has a place for its `Down` event.
#[derive(Debug, Drop)]
pub struct LinkEnd {
    settings: Settings,
    state: State,
}

impl Model for LinkEnd {
    ghost use Rattle.tora_arq.specs.EndRange.{LinkEndView, IsEndState, link_end_of};
    ghost use Rattle.std.specs.Prelude.{◌≡◌};
    ghost use Rattle.tora_arq.specs.StateView.{rooms_in, settings_in, state_in, whole_rooms};

    ghost Value = { LinkEndView };

    ghost view = { λ e. link_end_of (settings_in e.settings) (state_in e.state) };

    ghost invariant = { λ e. IsEndState (settings_in e.settings) (state_in e.state)
        × (rooms_in e.state ≡ whole_rooms) };
}

impl LinkEnd {
    /// A closed end of the link between node `me` and its neighbour `peer`, two different nodes. It speaks both
    /// versions of frames: DATA and ACK frames are of version 2 while the peer is known to speak it, and otherwise of
    /// version 1.
    ///
    /// Every time of `times` is at least 1. The end makes room for `QUEUE_PLACES` unacknowledged packets and for
    /// `EVENT_PLACES` events.
    ///
    /// # Errors
    /// `Memory`.
    pub fn new(alloc: Global, me: Id, peer: Id, times: Times) -> Result<LinkEnd, ArqError>
        requires me { 0 < me }
        requires peer { 0 < peer }
        requires other { me ≢ peer }
        requires times { IsTimes times }
        ensures { IfOk result (λ end. end ≡ link_end_of (settings_of Two me peer times) first_end) }
    {
        LinkEnd::of(alloc, Version::Two, me, peer, times)
    }

    /// As `new`, but an end of version 1. Its verdict on a frame of version 2 is `Foreign`.
    ///
    /// # Errors
    /// `Memory`.
    pub fn new_v1(alloc: Global, me: Id, peer: Id, times: Times) -> Result<LinkEnd, ArqError>
        requires me { 0 < me }
        requires peer { 0 < peer }
        requires other { me ≢ peer }
        requires times { IsTimes times }
        ensures { IfOk result (λ end. end ≡ link_end_of (settings_of One me peer times) first_end) }
    {
        LinkEnd::of(alloc, Version::One, me, peer, times)
    }

    /// A closed end that speaks all versions up to `version`.
    fn of(
        alloc: Global,
        version: Version,
        me: Id,
        peer: Id,
        times: Times,
    ) -> Result<LinkEnd, ArqError>
        requires me { 0 < me }
        requires peer { 0 < peer }
        requires other { me ≢ peer }
        requires times { IsTimes times }
        ensures { IfOk result (λ end. end ≡ link_end_of (settings_of version me peer times) first_end) }
    {
        let Ok(state) = State::new(alloc, EVENT_PLACES, QUEUE_PLACES, HELD_PLACES) else {
            return Err(ArqError::Memory);
        };
        let settings = Settings {
            version,
            me,
            peer,
            times,
        };
        Ok(LinkEnd { settings, state })
    }

    /// Whether the end is closed, and has to be opened.
    pub fn is_closed(&self) -> bool
        ensures { result ≡ is_closed self.now.state }
    {
        self.state.is_closed()
    }

    /// The node at the other end.
    pub fn peer(&self) -> Id
        ensures peer { result ≡ self.now.settings.peer }
        ensures kept { IsEndState self.now.settings self.now.state }
    {
        self.settings.peer
    }

    /// The node of this end.
    pub fn me(&self) -> Id
        ensures { result ≡ self.now.settings.me }
    {
        self.settings.me
    }

    /// The newest version of frames that this end speaks.
    pub fn version(&self) -> Version
        ensures { result ≡ self.now.settings.version }
    {
        self.settings.version
    }

    /// The times of this end.
    pub fn times(&self) -> Times
        ensures { result ≡ self.now.settings.times }
    {
        self.settings.times
    }

    /// How many packets are not acknowledged, at most `QUEUE_PLACES`.
    pub fn waiting(&self) -> usize
        ensures waiting { result ≡ length self.now.state.queue }
        ensures within { result ≤ QUEUE_PLACES }
    {
        self.state.queue.len()
    }

    /// The number with which the end was last opened, 1 to 2^62; 0 before the first `open`.
    pub fn last_life(&self) -> u64
        ensures last { result ≡ self.now.state.last_life }
        ensures within { result ≤ GREATEST_NUMBER }
    {
        self.state.last_life
    }

    /// The bound session; `None` if the end is not bound.
    pub fn life(&self) -> Option<Life>
        ensures life { result ≡ bound_life self.now.state }
        // There is a place for the event that the session ended.
        ensures room { OnSome result (length self.now.state.events < EVENT_PLACES) }
    {
        self.state.life()
    }

    /// Opens a closed end with a session number that is above all earlier ones and at most 2^62.
    pub fn open(&mut self, life: u64, now: u64)
        requires closed { IsTrue (is_closed self.old.state) }
        requires above { self.old.state.last_life < life }
        requires within { life ≤ GREATEST_NUMBER }
        ensures { self.new ≡ record self.old { state = after_open self.old.state life now } }
    {
        self.state.open(life, now);
    }

    /// Receives a frame at the tick `now`. The first case that applies decides:
    /// 1. `Foreign`: the frame is not from the peer or not for this node, it is of version 2 and the end speaks only
    ///    version 1, or it has an update of a node other than the peer.
    /// 2. `Busy`: fewer than `PLACES_OF_A_FRAME` of the `EVENT_PLACES` places for events are free.
    /// 3. `Stale`: the end is closed.
    /// 4. The end is bound to a session with another number of the sender. If the frame's number is greater, the
    ///    session ends (`NewPeer`): `Accepted`. If it is smaller: `Stale`.
    /// 5. The number that the sender heard is not the end's own number. A HELLO at an unbound end: `Stale` if its
    ///    session number is below the noted one; otherwise the number is noted, and a HELLO is owed if it is greater:
    ///    `Accepted`. Any other frame: `Stale`.
    /// 6. The count is above the packets transmitted in this session: `Foreign`. At an unbound end, a session number
    ///    below the noted one: `Stale`. Otherwise an unbound end binds the session (`Up`), owes a HELLO if the number
    ///    was not noted before, and continues with case 7.
    /// 7. The tick counts as that of the peer's last frame, and the packets up to the count leave the queue. HELLO:
    ///    `Accepted`. ACK: `Accepted` if the count grew or the frame bound the session, otherwise `Repeated`. DATA:
    ///    `Repeated` if all its packets were accepted before, `Accepted` if the next packet is among them, otherwise
    ///    `Ahead`; an ACK is owed. Each packet of the frame is skipped if it was accepted before, held if it is within
    ///    the window and then delivered in order (`Deliver`), and otherwise dropped.
    ///
    /// The end has a mark that the peer speaks version 2. A frame that changes the noted number sets the mark if it is
    /// of version 2, and otherwise clears it. Any other frame of version 2 sets the mark in cases 5 to 7, unless its
    /// verdict is `Stale` or `Foreign`.
    ///
    /// `Foreign`, `Busy` and `Stale` change nothing.
    pub fn on_frame(&mut self, frame: &Frame, now: u64) -> Verdict
        ensures verdict { result ≡ verdict_of self.old.settings self.old.state frame.now now }
        ensures state { self.new ≡ record self.old {
          state = after_frame self.old.settings self.old.state frame.now now;
        } }
    {
        self.on_borrowed_frame(&frame.borrowed(), now)
    }

    /// As `on_frame`, for a frame that borrows its packets.
    pub fn on_borrowed_frame(&mut self, frame: &BorrowedFrame<'_>, now: u64) -> Verdict
        ensures verdict { result ≡ verdict_of self.old.settings self.old.state frame.now now }
        ensures state { self.new ≡ record self.old {
          state = after_frame self.old.settings self.old.state frame.now now;
        } }
    {
        self.state.on_frame(&self.settings, frame, now)
    }

    /// As `on_frame`, for a HELLO, which is given by its header. The fields of `header` are in their ranges.
    #[inline(always)]
    pub fn on_hello(&mut self, header: &Header, now: u64) -> Verdict
        requires { IsHeader header.now }
        ensures verdict { result ≡ verdict_of self.old.settings self.old.state (frame_of header.now Body.Hello) now }
        ensures state { self.new ≡ record self.old {
          state = after_frame self.old.settings self.old.state
              (frame_of header.now Body.Hello) now;
        } }
    {
        self.state.on_hello(&self.settings, header, now)
    }

    /// Ends the bound session (`Silent`) if no frame of the peer came for `silent` ticks, or if a packet is not
    /// acknowledged `retry` ticks after the last of its `tries` tries.
    pub fn on_tick(&mut self, now: u64)
        ensures { self.new ≡ record self.old { state = after_tick self.old.settings self.old.state now } }
    {
        self.state.on_tick(&self.settings, now);
    }

    /// Takes a packet to send in a session.
    ///
    /// # Errors
    /// In this order: `WrongLife` if the session is not the bound one, which changes nothing and returns the packet;
    /// `Spent` if 2^62 packets were submitted in this session, which ends it; `Full` if `QUEUE_PLACES` packets are not
    /// acknowledged, which ends it.
    pub fn submit(&mut self, life: Life, packet: Packet) -> Result<(), SubmitError>
        ensures answer { result ≡ submit_answer self.old.state life packet }
        ensures state { self.new ≡ record self.old { state = after_submit self.old.state life packet } }
    {
        self.state.submit(life, packet)
    }

    /// The next event, if there is one. It stays in the queue.
    pub fn next_event(&self) -> Option<LinkEvent>
        ensures { result ≡ first_event self.now.state }
    {
        self.state.events.first()
    }

    /// Removes and returns the next event, if there is one.
    pub fn poll_event(&mut self) -> Option<LinkEvent>
        ensures event { result ≡ first_event self.old.state }
        ensures state { self.new ≡ record self.old { state = after_poll_event self.old.state } }
    {
        self.state.events.pop()
    }

    /// Whether a frame is due at the tick `now`.
    pub fn has_frame_due(&self, now: u64) -> bool
        ensures { result ≡ is_some (frame_due self.now.settings self.now.state now) }
    {
        self.state.is_frame_due(&self.settings, now)
    }

    /// The first tick from `now` on at which a frame is due or the bound session times out, if there is no other call
    /// until then. `None` if there is no such tick below 2^64. It reads at most a window of packets.
    pub fn next_due(&self, now: u64) -> Option<u64>
        ensures { IsNextDue self.now.settings self.now.state now result }
    {
        self.state.next_due(&self.settings, now)
    }

    /// The first tick at which a frame is due or a tick ends the session; it may have passed. This holds at every later
    /// tick too; before it, no frame is due and a tick changes nothing. It is valid until another call. It is 0 if a
    /// frame is due whatever the tick is, and 2^64 - 1 if no smaller tick is such a tick, as at a closed end. It reads
    /// at most a window of packets.
    #[inline(always)]
    pub fn deadline(&self) -> u64
        ensures exact { IsStillUntil self.now.settings self.now.state result }
        ensures frames { (tick : ℕ) → tick < result → is_some (frame_due self.now.settings self.now.state tick)
            ≡ false }
        ensures ticks { (tick : ℕ) → tick < result → after_tick self.now.settings self.now.state tick ≡ self.now.state }
    {
        self.state.deadline(&self.settings)
    }

    /// The fields that HELLOs read, if the end is idle: it is open, has sent a HELLO, owes neither a HELLO at once nor
    /// an ACK, and has no unacknowledged packet and no event. Otherwise `None`. With `Some` the caller uses these
    /// fields instead of the end, and calls `resume` before any other call of the end.
    pub fn steady(&self) -> Option<Steady>
        ensures given { result ≡ steady_of self.now.settings self.now.state }
        ensures steady { IfSome result (λ steady. IsSteady steady self.now.settings self.now.state) }
        ensures same { IfSome result (λ steady. resumed steady self.now.state ≡ self.now.state) }
    {
        self.state.steady(&self.settings)
    }

    /// Writes the fields of an idle end back into it, which its `steady` returned and calls of `Steady` may have
    /// changed.
    pub fn resume(&mut self, steady: &Steady)
        requires { IsSteady steady.now self.old.settings self.old.state }
        ensures { self.new ≡ record self.old { state = resumed steady.now self.old.state } }
    {
        self.state.resume(steady);
    }

    /// Returns the first frame due, which counts as sent; `None` if no frame is due.
    ///
    /// The first of these is due:
    /// 1. a HELLO of version 1, if the last HELLO was of version 2 and the peer is not known to speak version 2;
    /// 2. a HELLO of the newest version that the end speaks, if one is owed or at least `hello` ticks have passed since
    ///    the last such HELLO;
    /// 3. at a bound end, a DATA frame, if a packet within the window was never transmitted, or was transmitted fewer
    ///    than `tries` times and the last time at least `retry` ticks ago;
    /// 4. at a bound end, an ACK, if one is owed; a DATA frame counts as an owed ACK.
    ///
    /// DATA and ACK are of version 2 if the peer is known to speak it. A DATA frame of version 2 carries the first
    /// packet due and the due packets that follow it directly within the window, at most sixteen in all.
    pub fn poll_transmit(&mut self, now: u64) -> Option<Frame>
        ensures frame { result ≡ frame_due self.old.settings self.old.state now }
        ensures state { self.new ≡ record self.old { state = after_transmit self.old.settings self.old.state now } }
        ensures none { IfNone result (self.new ≡ self.old) }
    {
        let mut packets = Packets::new();
        let frame = self.poll_transmit_into(now, &mut packets)?;
        Some(frame.to_frame())
    }

    /// As `poll_transmit`, but a DATA frame borrows its packets from `packets`, which is overwritten. After any other
    /// frame, or none, `packets` may have any packets.
    pub fn poll_transmit_into<'a>(
        &mut self,
        now: u64,
        packets: &'a mut Packets,
    ) -> Option<BorrowedFrame<'a>>
        ensures frame { result ≡ frame_due self.old.settings self.old.state now }
        ensures state { self.new ≡ record self.old { state = after_transmit self.old.settings self.old.state now } }
        ensures none { IfNone result (self.new ≡ self.old) }
    {
        self.state.poll_transmit(&self.settings, now, packets)
    }

    /// Like `poll_transmit`, but only for a HELLO, and returns its header. `None` if no frame is due or the first frame
    /// due is not a HELLO; then nothing changes.
    pub fn poll_hello(&mut self, now: u64) -> Option<Header>
        ensures frame { IfSome result (λ header. frame_due self.old.settings self.old.state now
            ≡ Some (frame_of header Body.Hello)) }
        ensures state { IfSome result (λ _. self.new ≡ record self.old {
          state =
              after_transmit self.old.settings self.old.state now;
        }) }
        ensures valid { IfSome result (λ header. IsHeader header) }
        ensures given { is_some result ≡ is_hello (frame_due self.old.settings self.old.state now) }
        ensures none { IfNone result (self.new ≡ self.old) }
    {
        self.state.poll_first_hello(&self.settings, now)
    }

    /// Ends a session if it is the bound one; otherwise nothing changes.
    pub fn cut(&mut self, life: Life)
        ensures { self.new ≡ record self.old { state = after_cut self.old.state life } }
    {
        self.state.cut(life);
    }
}
