//! How a link end sends frames.
ghost use Rattle.std.specs.Prelude.{◌≡◌, ℕ, ◌<◌, ◌≤◌, ◌+◌, ◌^◌, ◌||◌, false, Option, Some, IfNone, IfSome, is_some};
ghost use Rattle.std.specs.Prelude.{length};
ghost use Rattle.tora_frame.specs.declared.parts.TheConstants.{GREATEST_NUMBER};
ghost use Rattle.tora_frame.specs.FrameParts.{FrameParts, frame_of, IsHeader, IsLifeNumber};
ghost use Rattle.tora_frame.specs.declared.parts.Body.{Body};
ghost use Rattle.tora_arq.specs.Settings.{IsLink};
ghost use Rattle.tora_arq.specs.LinkEnd.{EndState, is_two, data_version, most_packets, is_hello, is_hello_due};
ghost use Rattle.tora_arq.specs.LinkEnd.{is_old_hello_due, frame_sent, after_hello, after_old_hello, on_hello, due_of};
ghost use Rattle.tora_arq.specs.LinkEnd.{on_transmit_due, on_transmit};
ghost use Rattle.tora_arq.specs.EndRange.{IsEndState};
ghost use Rattle.tora_arq.specs.NextDue.{is_any_due, is_due_in, IsNextDue, has_begun};
ghost use Rattle.tora_arq.specs.StateView.{rooms_in, settings_in, state_in};

use crate::Life;
use crate::phase::Phase;
use crate::settings::{Settings, earlier, tick_behind, ticks_passed};
use crate::state::State;
use tora_frame::{BorrowedFrame, Header, MOST_PACKETS, Packets, Version};

impl Settings {
    /// The header of a frame of this end.
    fn header(&self, version: Version, life: u64, heard: u64) -> Header
        requires link { IsLink self.now.me self.now.peer }
        requires life { IsLifeNumber life }
        requires heard { heard ≤ GREATEST_NUMBER }
        ensures value { result ≡ record {
          version = version;
          sender = self.now.me;
          receiver = self.now.peer;
          life = life;
          heard = heard;
        } }
        ensures valid { IsHeader result }
    {
        Header {
            version,
            sender: self.me,
            receiver: self.peer,
            life,
            heard,
        }
    }
}

impl State {
    /// Whether a HELLO is owed, or `hello` ticks have passed since the last one.
    fn is_hello_due(&self, settings: &Settings, now: u64) -> bool
        ensures { result ≡ is_hello_due (settings_in settings.now) (state_in self.now) now }
    {
        match self.last_hello {
            Some(last) => self.owes_hello || ticks_passed(last, now) >= settings.times.hello,
            None => self.owes_hello,
        }
    }

    /// Whether a HELLO of version 1 is due after one of version 2.
    fn is_old_hello_due(&self) -> bool
        ensures { result ≡ is_old_hello_due (state_in self.now) }
    {
        self.owes_old_hello && !self.speaks_two
    }

    /// The version of the DATA frames and ACKs.
    fn data_version(&self) -> Version
        ensures { result ≡ data_version (state_in self.now) }
    {
        if self.speaks_two {
            Version::Two
        } else {
            Version::One
        }
    }

    /// Returns the header of a HELLO of the newest version, which counts as sent.
    fn take_hello(&mut self, settings: &Settings, life: u64, heard: u64, now: u64) -> Header
        requires link { IsLink settings.now.me settings.now.peer }
        requires life { IsLifeNumber life }
        requires heard { heard ≤ GREATEST_NUMBER }
        ensures frame { frame_of result Body.Hello ≡ frame_sent (settings_in settings.now) settings.now.version life
            heard Body.Hello }
        ensures valid { IsHeader result }
        ensures state { state_in self.new ≡ after_hello (settings_in settings.now) (state_in self.old) now }
        ensures rooms { rooms_in self.new ≡ rooms_in self.old }
    {
        self.owes_hello = false;
        self.owes_old_hello = is_two(settings.version);
        self.last_hello = Some(now);
        settings.header(settings.version, life, heard)
    }

    /// Returns the header of the HELLO of version 1 after one of version 2, which counts as sent.
    fn take_old_hello(&mut self, settings: &Settings, life: u64, heard: u64) -> Header
        requires link { IsLink settings.now.me settings.now.peer }
        requires life { IsLifeNumber life }
        requires heard { heard ≤ GREATEST_NUMBER }
        ensures frame { frame_of result Body.Hello ≡ frame_sent (settings_in settings.now) Version.One life heard
            Body.Hello }
        ensures valid { IsHeader result }
        ensures state { state_in self.new ≡ after_old_hello (state_in self.old) }
        ensures rooms { rooms_in self.new ≡ rooms_in self.old }
    {
        self.owes_old_hello = false;
        settings.header(Version::One, life, heard)
    }

    /// Returns a DATA frame of the first packets due, which replace the content of `packets`, or else an ACK if one is
    /// owed; it counts as sent. `None` if neither is due.
    fn take_due<'a>(
        &mut self,
        settings: &Settings,
        life: Life,
        now: u64,
        packets: &'a mut Packets,
    ) -> Option<BorrowedFrame<'a>>
        requires link { IsLink settings.now.me settings.now.peer }
        requires own { IsLifeNumber life.own }
        requires peer { IsLifeNumber life.peer }
        requires accepted { self.old.accepted ≤ GREATEST_NUMBER }
        requires submitted { self.old.acknowledged + length self.old.queue.items ≤ GREATEST_NUMBER }
        ensures frame { result ≡ (on_transmit_due (settings_in settings.now) (state_in self.old) life
            (due_of (settings_in settings.now) (state_in self.old) now)).0 }
        ensures state { state_in self.new ≡ (on_transmit_due (settings_in settings.now) (state_in self.old) life
            (due_of (settings_in settings.now) (state_in self.old) now)).1 }
        ensures rooms { rooms_in self.new ≡ rooms_in self.old }
    {
        let version = self.data_version();
        let header = settings.header(version, life.own, life.peer);
        let accepted = self.accepted;
        let most = most_packets(version);
        if let Some(place) = self.queue.take_due(&settings.times, now, most, packets) {
            let number = self.acknowledged + 1 + place as u64;
            let packets = packets.as_slice();
            let last = number + packets.len() as u64 - 1;
            self.transmitted = self.transmitted.max(last);
            self.owes_ack = false;
            return Some(BorrowedFrame::data(header, number, accepted, packets));
        }
        if self.owes_ack {
            self.owes_ack = false;
            return Some(BorrowedFrame::ack(header, accepted));
        }
        None
    }

    /// Whether a packet is due, or an ACK is owed.
    fn is_body_due(&self, settings: &Settings, now: u64) -> bool
        ensures { (life : Life) → result ≡ is_some (on_transmit_due (settings_in settings.now) (state_in self.now) life
            (due_of (settings_in settings.now) (state_in self.now) now)).0 }
    {
        self.queue.is_due(&settings.times, now) || self.owes_ack
    }

    /// Whether a HELLO of any version is due.
    fn is_any_hello_due(&self, settings: &Settings, now: u64) -> bool
        ensures { result ≡ is_hello_due (settings_in settings.now) (state_in self.now) now || is_old_hello_due
            (state_in self.now) }
    {
        self.is_hello_due(settings, now) || self.is_old_hello_due()
    }

    /// Whether a frame is due.
    #[tactic(auto, unfolding(crate::specs::LinkEnd::on_transmit, crate::specs::LinkEnd::on_transmit_in))]
    pub fn is_frame_due(&self, settings: &Settings, now: u64) -> bool
        ensures { result ≡ is_some (on_transmit (settings_in settings.now) (state_in self.now) now).0 }
    {
        match self.phase {
            Phase::Closed => false,
            Phase::Unbound(_) => self.is_any_hello_due(settings, now),
            Phase::Bound(_) => {
                self.is_any_hello_due(settings, now) || self.is_body_due(settings, now)
            }
        }
    }

    /// The first tick at which a HELLO is due: 0 if one is owed; `None` if there is none below 2^64.
    fn hello_tick(&self, settings: &Settings) -> Option<u64>
        requires { 0 < settings.now.times.hello }
        ensures { (tick : ℕ) → tick < 2 ^ 64 → has_begun result tick
            ≡ is_hello_due (settings_in settings.now) (state_in self.now) tick || is_old_hello_due (state_in self.now) }
    {
        if self.owes_hello || self.is_old_hello_due() {
            return Some(0);
        }
        tick_behind(self.last_hello?, settings.times.hello)
    }

    /// The first tick at which a frame of a bound end is due, or its session times out; `None` if there is none below
    /// 2^64.
    fn bound_tick(&self, settings: &Settings) -> Option<u64>
        requires { IsEndState (settings_in settings.now) (state_in self.now) }
        ensures { (life : Life) (tick : ℕ) → tick < 2 ^ 64 → has_begun result tick
            ≡ is_due_in (settings_in settings.now) (state_in self.now) life tick }
    {
        if self.owes_ack {
            return Some(0);
        }
        let times = &settings.times;
        let silent = tick_behind(self.last_hearing, times.silent);
        let packets = self.queue.due_tick(times);
        earlier(self.hello_tick(settings), earlier(packets, silent))
    }

    /// The first tick at which a frame is due, or a session times out; `None` if there is none below 2^64.
    #[tactic(auto, unfolding(crate::specs::LinkEnd::on_transmit, crate::specs::LinkEnd::on_transmit_in, crate::specs::LinkEnd::after_tick))]
    fn due_tick(&self, settings: &Settings) -> Option<u64>
        requires { IsEndState (settings_in settings.now) (state_in self.now) }
        ensures { (tick : ℕ) → tick < 2 ^ 64 → has_begun result tick
            ≡ is_any_due (settings_in settings.now) (state_in self.now) tick }
    {
        match self.phase {
            Phase::Closed => None,
            Phase::Unbound(_) => self.hello_tick(settings),
            Phase::Bound(_) => self.bound_tick(settings),
        }
    }

    /// As `LinkEnd::next_due`.
    pub fn next_due(&self, settings: &Settings, now: u64) -> Option<u64>
        requires { IsEndState (settings_in settings.now) (state_in self.now) }
        ensures { IsNextDue (settings_in settings.now) (state_in self.now) now result }
    {
        match self.due_tick(settings) {
            None => None,
            Some(first) => Some(first.max(now)),
        }
    }

    /// Returns the header of the first HELLO due, which counts as sent; `None`, and no change, if none is due.
    fn poll_hello(&mut self, settings: &Settings, life: u64, heard: u64, now: u64) -> Option<Header>
        requires link { IsLink settings.now.me settings.now.peer }
        requires life { IsLifeNumber life }
        requires heard { heard ≤ GREATEST_NUMBER }
        ensures frame { IfSome result (λ header. (other : Option FrameParts × EndState)
            → (on_hello (settings_in settings.now) (state_in self.old) life heard now other).0
            ≡ Some (frame_of header Body.Hello)) }
        ensures state { IfSome result (λ _. (other : Option FrameParts × EndState)
            → state_in self.new ≡ (on_hello (settings_in settings.now) (state_in self.old) life heard now other).1) }
        ensures rooms { rooms_in self.new ≡ rooms_in self.old }
        ensures valid { IfSome result (λ header. IsHeader header) }
        ensures none { IfNone result ((is_hello_due (settings_in settings.now) (state_in self.old) now ≡ false)
            × (is_old_hello_due (state_in self.old) ≡ false)) }
        ensures same { IfNone result (self.new ≡ self.old) }
    {
        if self.is_old_hello_due() {
            return Some(self.take_old_hello(settings, life, heard));
        }
        if self.is_hello_due(settings, now) {
            return Some(self.take_hello(settings, life, heard, now));
        }
        None
    }

    /// Sends the first frame due if it is a HELLO, and returns its header. `None` if no frame is due or the first one
    /// is not a HELLO.
    #[tactic(auto, unfolding(crate::specs::LinkEnd::on_transmit, crate::specs::LinkEnd::on_transmit_in), using(crate::proofs::DueLemmas::no_hello_behind))]
    pub fn poll_first_hello(&mut self, settings: &Settings, now: u64) -> Option<Header>
        requires { IsEndState (settings_in settings.now) (state_in self.old) }
        ensures frame { IfSome result (λ header. (on_transmit (settings_in settings.now) (state_in self.old) now).0
            ≡ Some (frame_of header Body.Hello)) }
        ensures state { IfSome result (λ _. state_in self.new ≡ (on_transmit (settings_in settings.now)
            (state_in self.old) now).1) }
        ensures rooms { rooms_in self.new ≡ rooms_in self.old }
        ensures valid { IfSome result (λ header. IsHeader header) }
        ensures given { is_some result ≡ is_hello (on_transmit (settings_in settings.now) (state_in self.old) now).0 }
        ensures same { IfNone result (self.new ≡ self.old) }
    {
        match self.phase {
            Phase::Closed => None,
            Phase::Unbound(own) => self.poll_hello(settings, own, self.heard, now),
            Phase::Bound(life) => self.poll_hello(settings, life.own, life.peer, now),
        }
    }

    /// As `LinkEnd::poll_transmit_into`.
    #[tactic(auto, unfolding(crate::specs::LinkEnd::on_transmit, crate::specs::LinkEnd::on_transmit_in))]
    pub fn poll_transmit<'a>(
        &mut self,
        settings: &Settings,
        now: u64,
        packets: &'a mut Packets,
    ) -> Option<BorrowedFrame<'a>>
        requires { IsEndState (settings_in settings.now) (state_in self.old) }
        ensures frame { result ≡ (on_transmit (settings_in settings.now) (state_in self.old) now).0 }
        ensures state { state_in self.new ≡ (on_transmit (settings_in settings.now) (state_in self.old) now).1 }
        ensures rooms { rooms_in self.new ≡ rooms_in self.old }
    {
        match self.phase {
            Phase::Closed => None,
            Phase::Unbound(own) => {
                let header = self.poll_hello(settings, own, self.heard, now)?;
                Some(BorrowedFrame::hello(header))
            }
            Phase::Bound(life) => {
                if let Some(header) = self.poll_hello(settings, life.own, life.peer, now) {
                    return Some(BorrowedFrame::hello(header));
                }
                self.take_due(settings, life, now, packets)
            }
        }
    }
}

/// Whether this is version 2.
pub fn is_two(version: Version) -> bool
    ensures { result ≡ is_two version }
{
    match version {
        Version::One => false,
        Version::Two => true,
    }
}

/// How many packets a DATA frame of a version carries at most.
fn most_packets(version: Version) -> usize
    ensures most { result ≡ most_packets version }
    ensures within { (0 < result) × (result ≤ MOST_PACKETS) }
{
    match version {
        Version::One => 1,
        Version::Two => MOST_PACKETS,
    }
}
