//! How a link end receives a frame.
ghost use Rattle.std.specs.Prelude.{◌≡◌, ◌<◌, ◌≤◌, ◌+◌, ◌^◌, ◌⊎◌, length};
ghost use Rattle.tora_frame.specs.declared.parts.TheConstants.{GREATEST_NUMBER};
ghost use Rattle.tora_frame.specs.FrameParts.{IsFrame, batch, frame_of};
ghost use Rattle.tora_frame.specs.declared.parts.Body.{Body};
ghost use Rattle.tora_frame.specs.BorrowedFrames.{body_of};
ghost use Rattle.tora_arq.specs.Held.{hold_at};
ghost use Rattle.tora_arq.specs.LinkEnd.{count_of, passed, on_life_told, after_release, after_packet, after_packets};
ghost use Rattle.tora_arq.specs.LinkEnd.{on_data, on_matched, on_frame_in, on_frame};
ghost use Rattle.tora_arq.specs.EndRange.{IsNumbered};
ghost use Rattle.tora_arq.specs.Rooms.{HasLists, HasRoomFor, HasBodyRoom, HasFirstRoom, HasFrameRoom};
ghost use Rattle.tora_arq.specs.StateView.{rooms_in, settings_in, state_in};

use crate::phase::Phase;
use crate::settings::Settings;
use crate::state::State;
use crate::transmit::is_two;
use crate::{Life, Reason, Verdict, WINDOW};
use tora_frame::{BorrowedBody, BorrowedFrame, Header, Version};
use tora_packet::Packet;

/// The count that a frame with this body acknowledges; 0 for a HELLO.
fn count_of(body: BorrowedBody<'_>) -> u64
    ensures { result ≡ count_of (body_of body.entry) }
{
    match body {
        BorrowedBody::Hello => 0,
        BorrowedBody::Data(_, count, _) => count,
        BorrowedBody::Ack(count) => count,
    }
}

impl State {
    /// Sets the mark that the peer speaks version 2, if an accepted frame is of version 2.
    fn pass(&mut self, version: Version)
        ensures state { state_in self.new ≡ passed (state_in self.old) version }
        ensures rooms { rooms_in self.new ≡ rooms_in self.old }
    {
        self.speaks_two = is_two(version) || self.speaks_two;
    }

    /// Receives a frame that does not carry the end's own number, at an end that is not bound.
    fn on_life_told(&mut self, version: Version, life: u64, body: BorrowedBody<'_>) -> Verdict
        ensures verdict { result ≡ (on_life_told (state_in self.old) version life (body_of body.entry)).0 }
        ensures state { state_in self.new ≡ (on_life_told (state_in self.old) version life (body_of body.entry)).1 }
        ensures rooms { rooms_in self.new ≡ rooms_in self.old }
    {
        match body {
            BorrowedBody::Hello => {
                if life < self.heard {
                    return Verdict::Stale;
                }
                if life == self.heard {
                    self.pass(version);
                    return Verdict::Accepted;
                }
                self.heard = life;
                self.speaks_two = is_two(version);
                self.owes_hello = true;
                Verdict::Accepted
            }
            BorrowedBody::Data(_, _, _) => Verdict::Stale,
            BorrowedBody::Ack(_) => Verdict::Stale,
        }
    }

    /// Holds a packet at a place, and delivers the held packets up to the first gap.
    fn hold(&mut self, life: Life, place: usize, packet: Packet)
        requires place { place < self.old.held.capacity }
        requires near { place < WINDOW }
        requires held { length self.old.held.items ≤ WINDOW }
        requires room { length self.old.events.items + length self.old.held.items < self.old.events.capacity }
        requires place_room { length self.old.events.items + place + 1 < self.old.events.capacity }
        requires accepted { self.old.accepted ≤ 2 ^ 63 }
        ensures state { state_in self.new ≡ after_release life (record (state_in self.old) {
          held =
              hold_at place packet self.old.held.items;
        }) (hold_at place packet self.old.held.items) }
        ensures rooms { rooms_in self.new ≡ rooms_in self.old }
    {
        self.held.hold(place, packet);
        self.release(life);
    }

    /// Receives a packet of the bound session. `furthest` is the last number of the window.
    #[tactic(auto, using(crate::proofs::ReceiveLemmas::passed_over, crate::proofs::ReceiveLemmas::dropped))]
    fn on_packet(&mut self, life: Life, furthest: u64, number: u64, packet: Packet)
        requires room { HasRoomFor self.old.events.capacity self.old.held.capacity furthest number 1
            (state_in self.old) }
        requires accepted { self.old.accepted ≤ 2 ^ 63 }
        ensures state { state_in self.new ≡ after_packet life furthest (state_in self.old) number packet }
        ensures rooms { rooms_in self.new ≡ rooms_in self.old }
    {
        if number <= self.accepted || number > furthest {
            return;
        }
        let place = number - self.accepted - 1;
        if place == 0 && self.held.is_empty() {
            self.deliver(life, packet);
        } else {
            self.hold(life, place as usize, packet);
        }
    }

    /// Receives packets of the bound session, numbered in sequence from `number` on.
    fn on_packets(&mut self, life: Life, number: u64, packets: &[Packet])
        requires room { HasRoomFor self.old.events.capacity self.old.held.capacity (self.old.accepted + WINDOW) number
            (length packets.now) (state_in self.old) }
        requires accepted { self.old.accepted ≤ GREATEST_NUMBER }
        requires number { number + length packets.now ≤ GREATEST_NUMBER + 1 }
        ensures state { state_in self.new ≡ after_packets life (self.old.accepted + WINDOW) (state_in self.old) number
            packets.now }
        ensures rooms { rooms_in self.new ≡ rooms_in self.old }
    {
        let furthest = self.accepted + WINDOW;
        let mut next = number;
        for packet in packets {
            self.on_packet(life, furthest, next, *packet);
            next += 1;
        }
    }

    /// Receives a DATA frame of the bound session.
    #[tactic(auto, unfolding(crate::specs::LinkEnd::on_data))]
    fn on_data(&mut self, life: Life, number: u64, packets: &[Packet]) -> Verdict
        requires room { HasRoomFor self.old.events.capacity self.old.held.capacity (self.old.accepted + WINDOW) number
            (length packets.now) (state_in self.old) }
        requires accepted { self.old.accepted ≤ GREATEST_NUMBER }
        requires some { 0 < length packets.now }
        requires number { number + length packets.now ≤ GREATEST_NUMBER + 1 }
        ensures verdict { result ≡ (on_data WINDOW (state_in self.old) life number packets.now).0 }
        ensures state { state_in self.new ≡ (on_data WINDOW (state_in self.old) life number packets.now).1 }
        ensures rooms { rooms_in self.new ≡ rooms_in self.old }
    {
        let accepted = self.accepted;
        let last = number + packets.len() as u64 - 1;
        self.on_packets(life, number, packets);
        if last <= accepted {
            return Verdict::Repeated;
        }
        if number <= accepted + 1 {
            return Verdict::Accepted;
        }
        Verdict::Ahead
    }

    /// Receives a frame of the bound session. `binds` says whether this frame bound it.
    #[tactic(auto, unfolding(crate::specs::LinkEnd::on_matched))]
    fn on_matched(&mut self, life: Life, binds: bool, now: u64, body: BorrowedBody<'_>) -> Verdict
        requires numbered { IsNumbered (body_of body) }
        requires room { HasBodyRoom self.old.events.capacity self.old.held.capacity (body_of body) (state_in self.old) }
        requires accepted { self.old.accepted ≤ GREATEST_NUMBER }
        ensures verdict { result ≡ (on_matched WINDOW (state_in self.old) life binds now (body_of body.entry)).0 }
        ensures state { state_in self.new ≡ (on_matched WINDOW (state_in self.old) life binds now
            (body_of body.entry)).1 }
        ensures rooms { rooms_in self.new ≡ rooms_in self.old }
    {
        match body {
            BorrowedBody::Hello => {
                self.last_hearing = now;
                Verdict::Accepted
            }
            BorrowedBody::Data(number, count, packets) => {
                self.acknowledge(count, now);
                self.owes_ack = true;
                self.on_data(life, number, packets)
            }
            BorrowedBody::Ack(count) => {
                let is_news = binds || self.acknowledged < count;
                self.acknowledge(count, now);
                if is_news {
                    Verdict::Accepted
                } else {
                    Verdict::Repeated
                }
            }
        }
    }

    /// Receives a frame at an end that is not bound. If it carries the end's number `own`, it binds the session, unless
    /// it acknowledges a packet (`Foreign`) or its sender's number is below one heard before (`Stale`).
    #[tactic(auto, unfolding(crate::specs::LinkEnd::on_frame_in))]
    fn on_unbound_frame(&mut self, own: u64, frame: &BorrowedFrame<'_>, now: u64) -> Verdict
        requires place { length self.old.events.items < self.old.events.capacity }
        requires room { HasFirstRoom self.old.events.capacity self.old.held.capacity frame.now.body
            (state_in self.old) }
        ensures verdict { result ≡ (on_frame_in WINDOW (state_in self.old) frame.now now (Phase.Unbound own)).0 }
        ensures state { state_in self.new
            ≡ (on_frame_in WINDOW (state_in self.old) frame.now now (Phase.Unbound own)).1 }
        ensures rooms { rooms_in self.new ≡ rooms_in self.old }
    {
        let (header, body) = (frame.header(), frame.body());
        if header.heard != own {
            return self.on_life_told(header.version, header.life, body);
        }
        if count_of(body) > 0 {
            return Verdict::Foreign;
        }
        if header.life < self.heard {
            return Verdict::Stale;
        }
        let life = Life {
            own,
            peer: header.life,
        };
        self.bind(life);
        self.pass(header.version);
        self.on_matched(life, true, now, body)
    }

    /// Receives a frame at an end bound in the session `life`. If the sender's number is higher, the session ends. The
    /// verdict is `Stale` for a lower one or another heard number, `Foreign` for a count above the packets sent.
    #[tactic(auto, unfolding(crate::specs::LinkEnd::on_frame_in))]
    fn on_bound_frame(&mut self, life: Life, frame: &BorrowedFrame<'_>, now: u64) -> Verdict
        requires place { length self.old.events.items < self.old.events.capacity }
        requires room { HasBodyRoom self.old.events.capacity self.old.held.capacity frame.now.body (state_in self.old) }
        requires accepted { self.old.accepted ≤ GREATEST_NUMBER }
        ensures verdict { result ≡ (on_frame_in WINDOW (state_in self.old) frame.now now (Phase.Bound life)).0 }
        ensures state { state_in self.new
            ≡ (on_frame_in WINDOW (state_in self.old) frame.now now (Phase.Bound life)).1 }
        ensures rooms { rooms_in self.new ≡ rooms_in self.old }
    {
        let (header, body) = (frame.header(), frame.body());
        if header.life > life.peer {
            self.end(life, Reason::NewPeer);
            return Verdict::Accepted;
        }
        if header.life < life.peer || header.heard != life.own {
            return Verdict::Stale;
        }
        if count_of(body) > self.transmitted {
            return Verdict::Foreign;
        }
        self.pass(header.version);
        self.on_matched(life, false, now, body)
    }

    /// Receives a HELLO, given by its header, at an end that is not bound.
    #[inline(never)]
    #[tactic(auto, unfolding(crate::specs::LinkEnd::on_frame_in, crate::specs::LinkEnd::on_matched))]
    fn on_unbound_hello(&mut self, own: u64, header: &Header, now: u64) -> Verdict
        requires place { length self.old.events.items < self.old.events.capacity }
        ensures verdict { result ≡ (on_frame_in WINDOW (state_in self.old) (frame_of header.now Body.Hello) now
            (Phase.Unbound own)).0 }
        ensures state { state_in self.new ≡ (on_frame_in WINDOW (state_in self.old) (frame_of header.now Body.Hello) now
            (Phase.Unbound own)).1 }
        ensures rooms { rooms_in self.new ≡ rooms_in self.old }
    {
        if own != header.heard {
            return self.on_life_told(header.version, header.life, BorrowedBody::Hello);
        }
        if self.heard > header.life {
            return Verdict::Stale;
        }
        let life = Life {
            own,
            peer: header.life,
        };
        self.bind(life);
        self.pass(header.version);
        self.last_hearing = now;
        Verdict::Accepted
    }

    /// Receives a HELLO, given by its header, at a bound end.
    #[inline(always)]
    #[tactic(auto, unfolding(crate::specs::LinkEnd::on_frame_in, crate::specs::LinkEnd::on_matched))]
    fn on_bound_hello(&mut self, life: Life, header: &Header, now: u64) -> Verdict
        requires place { length self.old.events.items < self.old.events.capacity }
        ensures verdict { result ≡ (on_frame_in WINDOW (state_in self.old) (frame_of header.now Body.Hello) now
            (Phase.Bound life)).0 }
        ensures state { state_in self.new ≡ (on_frame_in WINDOW (state_in self.old) (frame_of header.now Body.Hello) now
            (Phase.Bound life)).1 }
        ensures rooms { rooms_in self.new ≡ rooms_in self.old }
    {
        if life.peer < header.life {
            self.end(life, Reason::NewPeer);
            return Verdict::Accepted;
        }
        if header.heard != life.own || header.life < life.peer {
            return Verdict::Stale;
        }
        self.pass(header.version);
        self.last_hearing = now;
        Verdict::Accepted
    }

    /// Receives a HELLO, given by its header. It has a path of its own because most frames are HELLOs.
    #[inline(always)]
    #[tactic(auto, unfolding(crate::specs::LinkEnd::on_frame, crate::specs::LinkEnd::on_frame_in))]
    pub fn on_hello(&mut self, settings: &Settings, header: &Header, now: u64) -> Verdict
        requires { HasLists self.old.events.capacity self.old.held.capacity
            ⊎ length self.old.events.items < self.old.events.capacity }
        ensures verdict { result ≡ (on_frame (settings_in settings.now) (state_in self.old)
            (frame_of header.now Body.Hello) now).0 }
        ensures state { state_in self.new ≡ (on_frame (settings_in settings.now) (state_in self.old)
            (frame_of header.now Body.Hello) now).1 }
        ensures rooms { rooms_in self.new ≡ rooms_in self.old }
    {
        if settings.is_foreign_hello(header) {
            return Verdict::Foreign;
        }
        if self.events.is_busy() {
            return Verdict::Busy;
        }
        match self.phase {
            Phase::Closed => Verdict::Stale,
            Phase::Unbound(own) => self.on_unbound_hello(own, header, now),
            Phase::Bound(life) => self.on_bound_hello(life, header, now),
        }
    }

    /// As `LinkEnd::on_borrowed_frame`.
    #[tactic(auto, unfolding(crate::specs::LinkEnd::on_frame, crate::specs::LinkEnd::on_frame_in))]
    pub fn on_frame(&mut self, settings: &Settings, frame: &BorrowedFrame<'_>, now: u64) -> Verdict
        requires accepted { self.old.accepted ≤ GREATEST_NUMBER }
        requires held { length self.old.held.items ≤ WINDOW }
        requires room { HasLists self.old.events.capacity self.old.held.capacity
            ⊎ HasFrameRoom self.old.events.capacity frame.now (state_in self.old) }
        ensures verdict { result ≡ (on_frame (settings_in settings.now) (state_in self.old) frame.now now).0 }
        ensures state { state_in self.new ≡ (on_frame (settings_in settings.now) (state_in self.old) frame.now now).1 }
        ensures rooms { rooms_in self.new ≡ rooms_in self.old }
        ensures valid { IsFrame frame.now }
    {
        if settings.is_foreign(frame) {
            return Verdict::Foreign;
        }
        if self.events.is_busy() {
            return Verdict::Busy;
        }
        match self.phase {
            Phase::Closed => Verdict::Stale,
            Phase::Unbound(own) => self.on_unbound_frame(own, frame, now),
            Phase::Bound(life) => self.on_bound_frame(life, frame, now),
        }
    }
}
