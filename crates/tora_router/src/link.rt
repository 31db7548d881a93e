//! The state of a link in a router.
ghost use Rattle.std.specs.Prelude.{◌≡◌, ◌≢◌, ◌<◌, ◌≤◌, ◌++◌, ℕ, nat_le, true, Some, IfNone, IfOk, IfSome, drop};
ghost use Rattle.std.specs.Prelude.{is_some, length, option_map};
ghost use Rattle.tora_arq.specs.EndRange.{link_end_of};
ghost use Rattle.tora_arq.specs.LinkEnd.{first_end, is_closed};
ghost use Rattle.tora_arq.specs.Settings.{IsTimes, settings_of};
ghost use Rattle.tora_frame.specs.FrameGrammar.{frame_reading, frame_spelling};
ghost use Rattle.tora_frame.specs.declared.parts.Version.TheVariants.{Two};
ghost use Rattle.tora_router.specs.Links.{first_tally, given, polled, may_open, opened, ticked, intake_of, heard};
ghost use Rattle.tora_router.specs.Links.{frame_of_link, sent, cut, event_of, news_after, link_change, told};
ghost use Rattle.tora_router.specs.Links.{is_link_due};
ghost use Rattle.tora_arq.specs.Still.{last_tick};
ghost use Rattle.tora_router.specs.Router.{new_link};

use crate::GREATEST_LIFE;
use crate::change::{Change, News};
use crate::intake::Intake;
use crate::tally::Tally;
use arrayvec::ArrayVec;
use std::alloc::Global;
use tora_arq::{LinkEnd, LinkEvent, Times};
use tora_frame::{LONGEST_FRAME, Packets, decode_into, encode_into};
use tora_height::Id;
use tora_seat::{Cargo, cut_bound, hand_in};

/// A link of a router: its end, the counts of the neighbour's datagrams by outcome, and the latest change that was not
/// polled yet.
#[derive(Drop)]
pub struct Link {
    pub end: LinkEnd,
    pub tally: Tally,
    pub news: Option<News>,
}

impl Link {
    /// Passes an outbound message of the core to the end, as `hand_in` does.
    pub fn give(&mut self, cargo: &Cargo)
        ensures { self.new ≡ given cargo.now self.old }
    {
        hand_in(&mut self.end, cargo);
    }

    /// Whether the end has an event.
    #[inline(always)]
    pub fn has_event(&self) -> bool
        ensures { result ≡ is_some (event_of self.now) }
    {
        self.end.next_event().is_some()
    }

    /// Removes and returns the first event of the end, and notes the change of the link that the event reports. `None`
    /// if there is no event.
    pub fn poll(&mut self) -> Option<LinkEvent>
        ensures event { result ≡ event_of self.old }
        ensures none { IfNone result (self.new ≡ self.old) }
        ensures some { IfSome result (λ event. self.new ≡ polled event self.old) }
    {
        let Some(event) = self.end.next_event() else {
            return None;
        };
        let _ = self.end.poll_event();
        self.news = news_after(&event, self.news);
        Some(event)
    }

    /// Whether the end is closed, and this session number is above the last one of the end and at most `GREATEST_LIFE`.
    fn may_open(&self, number: u64) -> bool
        ensures value { result ≡ may_open number self.now }
        ensures closed { result ≡ true → is_closed self.now.end.state ≡ true }
        ensures above { result ≡ true → self.now.end.state.last_life < number }
        ensures within { result ≡ true → number ≤ GREATEST_LIFE }
    {
        let is_above = self.end.last_life() < number;
        let is_within = number <= GREATEST_LIFE;
        let is_closed = self.end.is_closed();
        is_closed && (is_above && is_within)
    }

    /// Opens the end with this session number if `may_open` allows it, and returns whether it did so.
    fn open(&mut self, number: u64, now: u64) -> bool
        ensures opened { self.new ≡ opened number now self.old }
        ensures answer { result ≡ may_open number self.old }
        ensures within { result ≡ true → number ≤ GREATEST_LIFE }
    {
        let may_open = self.may_open(number);
        if may_open {
            self.end.open(number, now);
        }
        may_open
    }

    /// Opens the end with this session number if `may_open` allows it, and then passes the tick to the end. Returns
    /// whether it opened the end.
    pub fn tick(&mut self, number: u64, now: u64) -> bool
        ensures ticked { self.new ≡ ticked number now self.old }
        ensures answer { result ≡ may_open number self.old }
        ensures within { result ≡ true → number ≤ GREATEST_LIFE }
    {
        let is_opened = self.open(number, now);
        self.end.on_tick(now);
        is_opened
    }

    /// Decodes a datagram, passes its frame to the end, and counts the outcome: `Bad` if the bytes are not a frame,
    /// otherwise `Seen`. `packets` is a buffer for the packets of the frame.
    pub fn hear(&mut self, datagram: &[u8], now: u64, packets: &mut Packets) -> Intake
        ensures intake { result ≡ intake_of self.old now (frame_reading datagram.now) }
        ensures heard { self.new ≡ heard now (frame_reading datagram.now) self.old }
    {
        let intake = match decode_into(datagram, packets) {
            Ok(frame) => Intake::Seen(self.end.on_borrowed_frame(&frame, now)),
            Err(error) => Intake::Bad(error),
        };
        self.tally.count(intake);
        intake
    }

    /// Writes the first frame due to the front of `out`, which has room for any frame, and returns its length in bytes.
    /// `None` if no frame is due; nothing changes then. `packets` and `bytes` are buffers for the frame's packets and
    /// bytes.
    pub fn send(
        &mut self,
        now: u64,
        packets: &mut Packets,
        bytes: &mut ArrayVec<u8, LONGEST_FRAME>,
        out: &mut [u8],
    ) -> Option<usize>
        requires { LONGEST_FRAME ≤ length out.old }
        ensures length { result ≡ option_map (λ frame. length (frame_spelling frame)) (frame_of_link now self.old) }
        ensures bytes { IfSome (frame_of_link now self.old) (λ frame.
            out.new ≡ frame_spelling frame ++ drop (length (frame_spelling frame)) out.old) }
        ensures within { IfSome result (λ count. count ≤ length out.new) }
        ensures sent { self.new ≡ sent now self.old }
        ensures none { IfNone result ((self.new ≡ self.old) × (out.new ≡ out.old)) }
    {
        if !self.end.has_frame_due(now) {
            return None;
        }
        let due = self.end.poll_transmit_into(now, packets);
        let Some(frame) = &due else {
            return None;
        };
        encode_into(frame, bytes);
        let count = bytes.len();
        out[..count].copy_from_slice(bytes.as_slice());
        Some(count)
    }

    /// Returns the latest change of the link, and marks it as polled. `None` if there was none since the last call.
    pub fn poll_news(&mut self) -> Option<Change>
        ensures change { result ≡ link_change self.old }
        ensures none { IfNone result (self.new ≡ self.old) }
        ensures some { IfSome result (λ _. self.new ≡ told self.old) }
    {
        let peer = self.end.peer();
        let news = self.news?;
        self.news = None;
        Some(match news {
            News::Up => Change::LinkUp(peer),
            News::Down(reason) => Change::LinkDown(peer, reason),
        })
    }

    /// The tick from which on a frame is due, the session times out, or the closed end can be opened with this session
    /// number. It is 0 if that is so at every tick, and 2^64 - 1 if it is so at no earlier tick.
    pub fn next_due(&self, number: u64) -> u64
        ensures { (tick : ℕ) → tick < last_tick → nat_le result tick ≡ is_link_due number tick self.now }
    {
        if self.may_open(number) {
            0
        } else {
            self.end.deadline()
        }
    }

    /// Cuts the session that the end is bound to, if there is one.
    pub fn cut(&mut self)
        ensures { self.new ≡ cut self.old }
    {
        cut_bound(&mut self.end);
    }
}

/// The latest change of a link after an event. A delivered packet leaves it as it was.
fn news_after(event: &LinkEvent, news: Option<News>) -> Option<News>
    ensures { result ≡ news_after event.now news }
{
    match event {
        LinkEvent::Up(_) => Some(News::Up),
        LinkEvent::Deliver(_, _) => news,
        LinkEvent::Down(_, reason) => Some(News::Down(*reason)),
    }
}

/// A new link, whose end is closed; `None` if memory runs out.
pub fn new_link(alloc: Global, me: Id, peer: Id, times: Times) -> Option<Link>
    requires me { 0 < me }
    requires peer { 0 < peer }
    requires other { me ≢ peer }
    requires times { IsTimes times }
    ensures { IfSome result (λ link. link ≡ new_link me times peer) }
{
    match LinkEnd::new(alloc, me, peer, times) {
        Ok(end) => Some(Link {
            end,
            tally: Tally::new(),
            news: None,
        }),
        Err(_) => None,
    }
}
