//! The wire of a link, with a key or without one.
ghost use Rattle.std.specs.Prelude.{◌≡◌, ◌≢◌, ◌+◌, ◌-◌, ◌^◌, min, length, None};
ghost use Rattle.tora_keyed.specs.Links.{over, cleared, let_in, after_letting_in, Writes};
ghost use Rattle.tora_neighbour.specs.Datagrams.{IsCut};

use crate::noticed_wire::Notices;
use log::Log;
use std::marker::Model;
use tora_frame::LONGEST_FRAME;
use tora_height::Id;
use tora_key::{Key, TAG};
use tora_neighbour::{Clock, Wire, WireError};

/// The size in bytes of the buffer for a datagram and its tag, with one more byte, so that a cut datagram is noticed.
const ROOM: usize = LONGEST_FRAME + 1 + TAG;

/// The wire of a link, over another wire. Without a key, it passes each call on. With a key, it appends a tag to each
/// datagram.
///
/// The rest holds with a key. A datagram of more than 560 bytes, which is not a frame, is not sent: the call fails, and
/// from then on contracts no longer say which datagrams were sent and received. A receive returns an authentic datagram
/// without its tag; it counts any other datagram, and returns `None`. Failed calls are counted, too. The counts begin
/// at 0 and stop at 2^64 - 1. No call allocates memory.
///
/// If datagrams arrive that are not authentic, the log has a line at most once a minute, or sooner if the clock goes
/// back: `link 2 unauthenticated datagrams 17`, with the count since the wire was made. At the end of the link, `close`
/// logs the last count and overwrites the key.
#[derive(Drop)]
pub struct LinkWire<'a, W: Wire, C, L> {
    wire: W,
    key: Option<Key>,
    room: [u8; ROOM],
    told: bool,
    unauthenticated: u64,
    failures: u64,
    notices: Notices<'a, C, L>,
}

impl<'a, W: Wire, C, L> Model for LinkWire<'a, W, C, L> {
    ghost use Rattle.std.specs.Prelude.{◌≡◌, length, None};
    ghost use Rattle.tora_keyed.specs.Links.{LinkView};

    ghost Value = { LinkView W };

    ghost view = { λ f. record
        { wire = f.wire; key = f.key; told = f.told; unauthenticated = f.unauthenticated; failures = f.failures } };

    ghost invariant = { λ f. (length f.room ≡ 577) × (f.key ≡ None → f.unauthenticated ≡ 0) };
}

impl<'a, W: Wire, C: Clock, L: Log> LinkWire<'a, W, C, L> {
    /// The wire of the link to `peer` over `wire`, with this key, or without one if `key` is `None`. It logs to `log`,
    /// and `clock` limits how often.
    pub fn new(wire: W, key: Option<Key>, peer: Id, clock: C, log: &'a L) -> LinkWire<'a, W, C, L>
        ensures { result ≡ over wire key }
    {
        LinkWire {
            wire,
            key,
            room: [0; ROOM],
            told: true,
            unauthenticated: 0,
            failures: 0,
            notices: Notices::new(peer, clock, log),
        }
    }

    /// How many datagrams arrived that were not authentic, at most 2^64 - 1; 0 without a key.
    pub fn unauthenticated(&self) -> u64
        ensures count { result ≡ self.now.unauthenticated }
        ensures plain { self.now.key ≡ None → result ≡ 0 }
    {
        self.unauthenticated
    }

    /// Closes a link with a key: logs how many datagrams were not authentic, and overwrites the key and the buffer with
    /// zeros. A later call uses a key of zeros. Without a key nothing happens.
    pub fn close(&mut self)
        ensures { self.new ≡ cleared self.old }
    {
        if let Some(key) = &mut self.key {
            self.notices.close(self.unauthenticated);
            key.clear();
            self.room = [0; ROOM];
        }
    }

    /// Adds 1 to the count of failures, at most 2^64 - 1.
    fn count(&mut self)
        ensures { self.new ≡ record self.old { failures = min (self.old.failures + 1) (2 ^ 64 - 1) } }
    {
        self.failures = self.failures.saturating_add(1);
    }

    /// Counts a datagram that was rejected (`written` is `None`), and logs the count if a line is due.
    fn note(&mut self, written: Option<usize>)
        requires { self.old.key ≢ None }
        ensures { self.new ≡ after_letting_in self.old written self.old.wire }
    {
        match written {
            Some(_) => self.notice(),
            None => {
                self.unauthenticated = self.unauthenticated.saturating_add(1);
                self.notice();
            }
        }
    }

    /// Logs the count of datagrams that were not authentic, if a line is due: see `Notices::notice`.
    fn notice(&mut self)
        ensures { self.new ≡ self.old }
    {
        self.notices.notice(self.unauthenticated);
    }
}

// Copies as much as fits, and returns how many bytes it copied.
fn copy_into(datagram: &[u8], buf: &mut [u8]) -> usize
    ensures count { result ≡ min (length buf.new) (length datagram.now) }
    ensures cut { IsCut datagram.now (length buf.new) result buf.new }
{
    let count = datagram.len().min(buf.len());
    buf[..count].copy_from_slice(&datagram[..count]);
    count
}

// Writes the message of an authentic datagram to the front of `buf`, and returns how many bytes it wrote; `None` for
// any other datagram.
fn let_in(key: &Key, datagram: &[u8], buf: &mut [u8]) -> Option<usize>
    ensures { Writes (let_in key.now datagram.now) result buf.new }
{
    if datagram.len() >= ROOM {
        return None;
    }
    match key.open(datagram) {
        Some(message) => Some(copy_into(message, buf)),
        None => None,
    }
}

impl<'a, W: Wire, C: Clock, L: Log> Wire for LinkWire<'a, W, C, L> {
    ghost use Rattle.tora_keyed.specs.Links.{tells_of, coming_of, failures_of, Sends, Receives};

    ghost tells = { λ f. tells_of W.tells f };

    ghost coming = { λ f. coming_of W.coming f };

    ghost tries = { λ f. coming_of W.tries f };

    ghost failures = { λ f. failures_of W.failures f };

    ghost did_send = { λ f bytes answer after. Sends W.did_send f bytes answer after };

    ghost did_receive = { λ f answer buffer after. Receives W.did_receive f answer buffer after };

    fn send(&mut self, bytes: &[u8]) -> Result<(), WireError> {
        let Some(key) = &self.key else {
            return self.wire.send(bytes);
        };
        if bytes.len() > LONGEST_FRAME {
            self.told = false;
            self.count();
            return Err(WireError);
        }
        let end = key.seal(bytes, &mut self.room);
        match self.wire.send(&self.room[..end]) {
            Ok(()) => Ok(()),
            Err(error) => {
                self.count();
                Err(error)
            }
        }
    }

    fn receive(&mut self, buf: &mut [u8]) -> Result<Option<usize>, WireError> {
        let Some(key) = &self.key else {
            return self.wire.receive(buf);
        };
        match self.wire.receive(&mut self.room) {
            Ok(Some(count)) => {
                let written = let_in(key, &self.room[..count], buf);
                self.note(written);
                Ok(written)
            }
            Ok(None) => {
                self.notice();
                Ok(None)
            }
            Err(error) => {
                self.count();
                self.notice();
                Err(error)
            }
        }
    }
}
