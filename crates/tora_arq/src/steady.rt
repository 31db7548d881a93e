//! The fields that HELLOs read, for a link end that is idle.
ghost use Rattle.std.specs.Prelude.{◌≡◌, ◌<◌, ◌≤◌, ◌==◌, ◌||◌, ℕ, true, false, not, is_some, IfSome, IfNone};
ghost use Rattle.tora_frame.specs.FrameParts.{IsHeader, frame_of};
ghost use Rattle.tora_frame.specs.declared.parts.Body.TheVariants.{Hello};
ghost use Rattle.tora_arq.specs.Settings.{Settings as EndSettings};
ghost use Rattle.tora_arq.specs.StateView.{settings_in, state_in};
ghost use Rattle.tora_arq.specs.LinkEnd.{EndState, after_frame, after_tick, after_transmit, frame_due};
ghost use Rattle.tora_arq.specs.Still.{IsStillUntil};
ghost use Rattle.tora_arq.specs.Steady.{IsSteady, resumed, header_of, owes_old, has_hello, is_at_ease, is_over};
ghost use Rattle.tora_arq.specs.Steady.{kept_of, on_send, is_told, steady_of, told_by, until_of};

use crate::phase::Phase;
use crate::settings::{Settings, ticks_passed};
use crate::state::State;
use crate::transmit::is_two;
use tora_frame::{Header, Version};
use tora_height::Id;

/// The fields of an idle link end that a HELLO reads, in 64 bytes. An end is idle if it is open, has sent a HELLO, owes
/// no HELLO at once and no ACK, has no unacknowledged packet, and has no event to report.
///
/// A caller with many link ends can store these fields close together and the ends elsewhere. `LinkEnd::steady` returns
/// the fields, the calls here do what the same calls of the end would do, and `LinkEnd::resume` writes the fields back
/// before any other call.
#[derive(Clone, Copy, Debug, PartialEq, Eq)]
pub struct Steady {
    /// The tick of the last HELLO, not counting HELLOs of version 1 that follow one of version 2.
    pub said: u64,
    /// The tick of the peer's last frame in the bound session; before it, the tick of `open`.
    pub heard: u64,
    /// The own number of the session; 0 if the value is `none()`.
    pub own: u64,
    /// The session number of the peer: that of the bound session, or the greatest that was noted; 0 for none.
    pub peer_life: u64,
    /// How many ticks of 100 ms after a HELLO the next one is due.
    pub hello: u64,
    /// After how many ticks of 100 ms without a frame of the peer the bound session ends.
    pub silent: u64,
    /// The node of the end.
    pub me: Id,
    /// The node at the other end.
    pub peer: Id,
    /// The newest version that the end speaks.
    pub version: Version,
    /// Whether a session is bound.
    pub is_bound: bool,
    /// Whether the peer is known to speak version 2.
    pub speaks_two: bool,
    /// Whether the last HELLO was of version 2 and no HELLO of version 1 has followed it.
    pub owes_old_hello: bool,
}

impl Steady {
    /// The value that marks the absence of a link end.
    pub fn none() -> Steady
        ensures { result.own ≡ 0 }
    {
        Steady {
            said: 0,
            heard: 0,
            own: 0,
            peer_life: 0,
            hello: 0,
            silent: 0,
            me: 0,
            peer: 0,
            version: Version::One,
            is_bound: false,
            speaks_two: false,
            owes_old_hello: false,
        }
    }

    /// Whether the fields are of no link end: `own` is 0, as in `none()`.
    #[inline(always)]
    pub fn is_none(&self) -> bool
        ensures { result ≡ (self.now.own == 0) }
    {
        self.own == 0
    }

    /// The header of a HELLO.
    #[inline(always)]
    fn header(&self, version: Version) -> Header
        ensures { result ≡ header_of self.now version }
    {
        Header {
            version,
            sender: self.me,
            receiver: self.peer,
            life: self.own,
            heard: self.peer_life,
        }
    }

    /// Whether a HELLO of version 1 is due after one of version 2.
    #[inline(always)]
    fn owes_old(&self) -> bool
        ensures { result ≡ owes_old self.now }
    {
        self.owes_old_hello && !self.speaks_two
    }

    /// Whether `hello` ticks have passed since the last HELLO.
    #[inline(always)]
    fn has_hello(&self, now: u64) -> bool
        ensures { result ≡ has_hello self.now now }
    {
        ticks_passed(self.said, now) >= self.hello
    }

    /// Returns the header of the first HELLO due, which counts as sent; `None` if none is due.
    #[inline(always)]
    fn take_hello(&mut self, now: u64) -> Option<Header>
        ensures header { result ≡ (on_send self.old now).0 }
        ensures kept { self.new ≡ (on_send self.old now).1 }
    {
        if self.owes_old() {
            self.owes_old_hello = false;
            return Some(self.header(Version::One));
        }
        if self.has_hello(now) {
            self.said = now;
            self.owes_old_hello = is_two(self.version);
            return Some(self.header(self.version));
        }
        None
    }

    /// Returns the header of the first frame due, which counts as sent; `None` if none is due. At an idle end only a
    /// HELLO can be due.
    #[inline(always)]
    pub fn send_hello(&mut self, now: u64) -> Option<Header>
        ensures frame { (s : EndSettings) (e : EndState) → IsSteady self.old s e
            → frame_due s (resumed self.old e) now ≡ told_by result }
        ensures state { (s : EndSettings) (e : EndState) → IsSteady self.old s e
            → after_transmit s (resumed self.old e) now ≡ resumed self.new e }
        ensures valid { (s : EndSettings) (e : EndState) → IsSteady self.old s e → IfSome result IsHeader }
        ensures steady { (s : EndSettings) (e : EndState) → IsSteady self.old s e → IsSteady self.new s e }
        ensures own { self.new.own ≡ self.old.own }
        ensures none { IfNone result (self.new ≡ self.old) }
    {
        self.take_hello(now)
    }

    /// Receives a HELLO of the bound session that changes only the tick of the last frame of the peer, and returns
    /// `true`. For any other HELLO it returns `false` and changes nothing; the end itself has to receive that HELLO.
    #[inline(always)]
    pub fn on_hello(&mut self, header: &Header, now: u64) -> bool
        ensures taken { (s : EndSettings) (e : EndState) → IsSteady self.old s e → result ≡ true
            → after_frame s (resumed self.old e) (frame_of header.now Hello) now ≡ resumed self.new e }
        ensures steady { (s : EndSettings) (e : EndState) → IsSteady self.old s e → IsSteady self.new s e }
        ensures own { self.new.own ≡ self.old.own }
        ensures same { result ≡ false → self.new ≡ self.old }
        ensures told { result ≡ is_told self.old header.now }
    {
        if !self.is_told(header) {
            return false;
        }
        self.heard = now;
        true
    }

    /// Whether a HELLO with this header is of the bound session and changes only the tick of the peer's last frame.
    #[inline(always)]
    fn is_told(&self, header: &Header) -> bool
        ensures { result ≡ is_told self.now header.now }
    {
        self.is_bound
            && header.sender == self.peer
            && header.receiver == self.me
            && header.life == self.peer_life
            && header.heard == self.own
            && (self.speaks_two || !is_two(header.version))
    }

    /// Whether a frame is due.
    #[inline(always)]
    pub fn has_frame_due(&self, now: u64) -> bool
        ensures { (s : EndSettings) (e : EndState) → IsSteady self.now s e
            → result ≡ is_some (frame_due s (resumed self.now e) now) }
    {
        self.owes_old() || self.has_hello(now)
    }

    /// Whether `on_tick` of the end would change nothing at `now`: the session has not timed out.
    #[inline(always)]
    pub fn is_calm(&self, now: u64) -> bool
        ensures same { (s : EndSettings) (e : EndState) → IsSteady self.now s e → result ≡ true
            → after_tick s (resumed self.now e) now ≡ resumed self.now e }
        ensures exact { result ≡ not (is_over self.now now) }
    {
        !self.is_over(now)
    }

    /// Whether no frame of the peer of the bound session came for `silent` ticks.
    #[inline(always)]
    fn is_over(&self, now: u64) -> bool
        ensures { result ≡ is_over self.now now }
    {
        self.is_bound && ticks_passed(self.heard, now) >= self.silent
    }

    /// The first tick at which a HELLO is due or a tick ends the session; it may have passed. This holds at every later
    /// tick too; before it, no frame is due and a tick changes nothing. It is valid until another call. It is 0 if a
    /// HELLO is due whatever the tick is, and 2^64 - 1 if no smaller tick is such a tick.
    #[inline(always)]
    pub fn deadline(&self) -> u64
        ensures exact { (s : EndSettings) (e : EndState) → IsSteady self.now s e
            → IsStillUntil s (resumed self.now e) result }
        ensures frames { (s : EndSettings) (e : EndState) (tick : ℕ) → IsSteady self.now s e → tick < result
            → is_some (frame_due s (resumed self.now e) tick) ≡ false }
        ensures ticks { (s : EndSettings) (e : EndState) (tick : ℕ) → IsSteady self.now s e → tick < result
            → after_tick s (resumed self.now e) tick ≡ resumed self.now e }
    {
        self.until()
    }

    /// Computes `deadline` from the fields.
    #[inline(always)]
    fn until(&self) -> u64
        ensures { result ≡ until_of self.now }
    {
        if self.owes_old() {
            return 0;
        }
        let hello = self.said.saturating_add(self.hello);
        if !self.is_bound {
            return hello;
        }
        hello.min(self.heard.saturating_add(self.silent))
    }
}

impl State {
    /// Whether the end owes no frame except the regular HELLOs, has no unacknowledged packet and has no event.
    fn is_at_ease(&self, settings: &Settings) -> bool
        ensures { result ≡ is_at_ease (settings_in settings.now) (state_in self.now) }
    {
        !self.owes_hello
            && !self.owes_ack
            && self.queue.len() == 0
            && self.events.len() == 0
            && (is_two(settings.version) || !self.speaks_two)
    }

    /// The fields of an end that sent its last HELLO at the tick `said`.
    fn kept(&self, settings: &Settings, said: u64, own: u64, is_bound: bool) -> Steady
        ensures { result ≡ kept_of (settings_in settings.now) (state_in self.now) said own is_bound }
    {
        Steady {
            said,
            heard: self.last_hearing,
            own,
            peer_life: self.heard,
            hello: settings.times.hello,
            silent: settings.times.silent,
            me: settings.me,
            peer: settings.peer,
            version: settings.version,
            is_bound,
            speaks_two: self.speaks_two,
            owes_old_hello: self.owes_old_hello,
        }
    }

    /// As `LinkEnd::steady`.
    pub fn steady(&self, settings: &Settings) -> Option<Steady>
        ensures { result ≡ steady_of (settings_in settings.now) (state_in self.now) }
    {
        let said = self.last_hello?;
        if !self.is_at_ease(settings) {
            return None;
        }
        match self.phase {
            Phase::Closed => None,
            Phase::Unbound(own) => Some(self.kept(settings, said, own, false)),
            Phase::Bound(life) => Some(self.kept(settings, said, life.own, true)),
        }
    }
}
