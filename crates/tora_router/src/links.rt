//! All links of a router. Their ends take the outbound messages of the core at once, without a queue.
ghost use Rattle.std.specs.Prelude.{◌≡◌, ◌<◌, ◌≤◌, ◌++◌, true, ℕ, nat_le, drop, slice_get, Option, Some, None};
ghost use Rattle.std.specs.Prelude.{IfNone, IfSome, MatchOption, is_some, length, option_map};
ghost use Rattle.tora_frame.specs.FrameGrammar.{frame_reading};
ghost use Rattle.tora_arq.specs.declared.link_event.LinkEvent.{LinkEvent as Event};
ghost use Rattle.tora_router.specs.declared.TheConstants.{GREATEST_LIFE};
ghost use Rattle.tora_router.specs.Links.{at_place, polled, ticked, heard, cut, event_of, first_in, to_peer, opens_at};
ghost use Rattle.tora_router.specs.Links.{intake_at, frame_of_link, sent, link_change, told, is_link_due, peer_at};
ghost use Rattle.tora_router.specs.declared.link.Link.{Link as One};
ghost use Rattle.std.specs.List.{list_any};
ghost use Rattle.tora_arq.specs.Still.{last_tick};
ghost use Rattle.tora_frame.specs.FrameParts.{FrameParts};
ghost use Rattle.tora_frame.specs.FrameGrammar.{frame_spelling};
ghost use Rattle.tora_router.specs.declared.change.Change.{Change as Changed};

use crate::change::Change;
use crate::intake::Intake;
use crate::link::Link;
use crate::tally::Tally;
use arrayvec::ArrayVec;
use std::marker::Model;
use tora_arq::LinkEvent;
use tora_frame::{LONGEST_FRAME, Packets};
use tora_height::Id;
use tora_seat::{Cargo, OutLanes};

/// The links of a router, by ascending neighbour.
#[derive(Drop)]
pub struct Links {
    list: Vec<Link>,
    /// Buffers for the frame that is decoded or encoded. They are reused, because making one writes all of it.
    packets: Packets,
    bytes: ArrayVec<u8, LONGEST_FRAME>,
}

impl Model for Links {
    ghost use Rattle.std.specs.Prelude.{List};
    ghost use Rattle.tora_router.specs.declared.link.Link.{Link};

    ghost Value = { List Link };

    ghost view = { λ l. l.list.items };
}

impl OutLanes for Links {
    ghost use Rattle.std.specs.Prelude.{◌≡◌, length};
    ghost use Rattle.tora_router.specs.Router.{TakesCargo};

    ghost count = { λ links. length links };

    ghost did_offer = { TakesCargo };

    fn offer(&mut self, place: usize, cargo: Cargo) -> bool {
        self.list[place].give(&cargo);
        true
    }
}

impl Links {
    /// The links in this list, which is in ascending order of the neighbours.
    pub(crate) fn of(list: Vec<Link>) -> Links
        ensures { result ≡ list.items }
    {
        Links {
            list,
            packets: Packets::new(),
            bytes: ArrayVec::new(),
        }
    }

    /// How many links there are.
    pub fn count(&self) -> usize
        ensures { result ≡ length self.now }
    {
        self.list.len()
    }

    /// The place of the link to neighbour `k`, counted from 0; `None` if there is no such link.
    pub fn place(&self, k: Id) -> Option<usize>
        ensures place { option_map (λ place. (place, tt)) result ≡ first_in (to_peer k) self.now }
        ensures within { IfSome result (λ at. at < length self.now) }
    {
        for place in 0..self.list.len() {
            if self.list[place].end.peer() == k {
                return Some(place);
            }
        }
        None
    }

    /// The neighbour of the link at a place.
    pub fn peer(&self, place: usize) -> Id
        requires { place < length self.now }
        ensures { result ≡ peer_at place self.now }
    {
        self.list[place].end.peer()
    }

    /// The counts of the datagrams of the neighbour at a place, by outcome.
    pub fn tally(&self, place: usize) -> Tally
        requires { place < length self.now }
        ensures { Some result ≡ option_map (λ (link : One). link.tally) (slice_get self.now place) }
    {
        self.list[place].tally
    }

    /// Whether the end of some link has an event.
    #[inline(always)]
    pub fn has_event(&self) -> bool
        ensures { result ≡ is_some (first_in event_of self.now) }
    {
        for place in 0..self.list.len() {
            if self.list[place].has_event() {
                return true;
            }
        }
        false
    }

    /// Removes and returns the first event of the first link that has one, with the place of the link; `None` if no
    /// link has an event.
    pub fn poll(&mut self) -> Option<(usize, LinkEvent)>
        ensures first { result ≡ first_in event_of self.old }
        ensures none { IfNone result (self.new ≡ self.old) }
        ensures some { IfSome result (λ (found : ℕ × Event). self.new ≡ at_place (polled found.1) found.0 self.old) }
    {
        for place in 0..self.list.len() {
            if let Some(event) = self.list[place].poll() {
                return Some((place, event));
            }
        }
        None
    }

    /// Opens the end of the link at a place with this session number, if `Link::may_open` allows it, and then passes
    /// the tick to the end. Returns whether it opened the end.
    pub fn tick(&mut self, place: usize, number: u64, now: u64) -> bool
        requires { place < length self.old }
        ensures ticked { self.new ≡ at_place (ticked number now) place self.old }
        ensures opened { result ≡ opens_at number place self.old }
        ensures within { result ≡ true → number ≤ GREATEST_LIFE }
    {
        self.list[place].tick(number, now)
    }

    /// Passes a datagram to the link at a place, and returns the outcome: `Bad` or `Seen`.
    pub fn hear(&mut self, place: usize, datagram: &[u8], now: u64) -> Intake
        requires { place < length self.old }
        ensures intake { result ≡ intake_at now (frame_reading datagram.now) place self.old }
        ensures heard { self.new ≡ at_place (heard now (frame_reading datagram.now)) place self.old }
    {
        self.list[place].hear(datagram, now, &mut self.packets)
    }

    /// Writes the first frame due of the first link that has one to the front of a buffer with room for any frame.
    /// Returns the place of the link and the length of the frame in bytes. `None` if no frame is due; nothing changes
    /// then.
    pub fn send(&mut self, now: u64, out: &mut [u8]) -> Option<(usize, usize)>
        requires { LONGEST_FRAME ≤ length out.old }
        ensures first { result ≡ option_map (λ (found : ℕ × FrameParts). (found.0, length (frame_spelling found.1)))
            (first_in (frame_of_link now) self.old) }
        ensures bytes { IfSome (first_in (frame_of_link now) self.old) (λ (found : ℕ × FrameParts).
            out.new ≡ frame_spelling found.1 ++ drop (length (frame_spelling found.1)) out.old) }
        ensures within { IfSome result (λ (found : ℕ × ℕ). found.1 ≤ length out.new) }
        ensures place { IfSome result (λ (found : ℕ × ℕ). found.0 < length self.old) }
        ensures sent { IfSome result (λ (found : ℕ × ℕ). self.new ≡ at_place (sent now) found.0 self.old) }
        ensures none { IfNone result ((self.new ≡ self.old) × (out.new ≡ out.old)) }
    {
        for place in 0..self.list.len() {
            let link = &mut self.list[place];
            if let Some(count) = link.send(now, &mut self.packets, &mut self.bytes, out) {
                return Some((place, count));
            }
        }
        None
    }

    /// Returns the change of the first link that has one to poll, with the index of the link, and marks it as polled.
    /// `None` if no link has one.
    pub fn poll_news(&mut self) -> Option<(usize, Change)>
        ensures first { result ≡ first_in link_change self.old }
        ensures none { IfNone result (self.new ≡ self.old) }
        ensures some { IfSome result (λ (found : ℕ × Changed). self.new ≡ at_place told found.0 self.old) }
    {
        for place in 0..self.list.len() {
            if let Some(change) = self.list[place].poll_news() {
                return Some((place, change));
            }
        }
        None
    }

    /// The least `Link::next_due` of all links with this session number; 2^64 - 1 if there is no link.
    pub fn next_due(&self, number: u64) -> u64
        ensures { (tick : ℕ) → tick < last_tick → nat_le result tick ≡ list_any (is_link_due number tick) self.now }
    {
        let mut next = u64::MAX;
        for link in &self.list {
            let here = link.next_due(number);
            if here < next {
                next = here;
            }
        }
        next
    }

    /// Cuts the bound session of the link at a place, if there is one.
    pub fn cut(&mut self, place: usize)
        requires { place < length self.old }
        ensures { self.new ≡ at_place cut place self.old }
    {
        self.list[place].cut();
    }
}
