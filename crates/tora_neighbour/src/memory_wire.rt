//! A wire in memory, for tests.
ghost use Rattle.std.specs.Prelude.{◌≡◌, ◌≤◌, [], true, map, length};
ghost use Rattle.tora_neighbour.specs.MemoryWire.{bytes_of, sent_of};

use crate::wire::{Wire, WireError};
use arrayvec::ArrayVec;
use std::alloc::Global;
use std::marker::Model;
use tora_frame::LONGEST_FRAME;

/// The greatest length of a datagram that a wire in memory stores, in bytes.
pub const LONGEST: usize = LONGEST_FRAME;

/// A copy of a datagram that was sent, of at most `LONGEST` bytes.
#[derive(Clone, Copy, Debug)]
pub struct Sent {
    bytes: [u8; LONGEST],
    len: usize,
}

impl Default for Sent {
    ghost use Rattle.std.specs.Prelude.{◌≡◌, []};
    ghost use Rattle.tora_neighbour.specs.MemoryWire.{sent_of};

    ghost is_default = { λ s. sent_of s ≡ [] };

    fn default() -> Self {
        Sent {
            bytes: [0; LONGEST],
            len: 0,
        }
    }
}

/// A copy of a datagram of at most `LONGEST` bytes.
fn kept(bytes: &[u8]) -> Sent
    requires { length bytes.now ≤ LONGEST }
    ensures { sent_of result ≡ bytes.now }
{
    let mut there = [0; LONGEST];
    there[..bytes.len()].copy_from_slice(bytes);
    Sent {
        bytes: there,
        len: bytes.len(),
    }
}

/// For tests only: a wire that returns given datagrams in order, and then none. It stores up to N sent datagrams of at
/// most 560 bytes each, and takes no memory for them. Any other send fails, and after that contracts see no datagrams.
#[derive(Drop)]
pub struct MemWire<const N: usize> {
    coming: Vec<Vec<u8>>,
    next: usize,
    sent: ArrayVec<Sent, N>,
    told: bool,
    failures: u64,
}

impl<const N: usize> Model for MemWire<N> {
    ghost use Rattle.std.specs.Prelude.{◌≤◌, map, drop, length};
    ghost use Rattle.tora_neighbour.specs.MemoryWire.{MemoryWireView, bytes_of, sent_of};

    ghost Value = { MemoryWireView };

    ghost view = { λ w. record {
      tells = w.told;
      coming = map bytes_of (drop w.next w.coming.items);
      tries = map sent_of w.sent.items;
      failures = w.failures;
    } };

    ghost invariant = { λ w. w.next ≤ length w.coming.items };
}

impl<const N: usize> MemWire<N> {
    /// A wire that returns these datagrams, which may have any length.
    pub fn new(datagrams: Vec<Vec<u8>>) -> MemWire<N>
        ensures { result ≡ record { tells = true; coming = map bytes_of datagrams.items; tries = []; failures = 0 } }
    {
        MemWire {
            coming: datagrams,
            next: 0,
            sent: ArrayVec::new(),
            told: true,
            failures: 0,
        }
    }
}

impl<const N: usize> Wire for MemWire<N> {
    ghost use Rattle.tora_neighbour.specs.MemoryWire.{SendsToMemory, ReceivesFromMemory};

    ghost tells = { λ w. w.tells };

    ghost coming = { λ w. w.coming };

    ghost tries = { λ w. w.tries };

    ghost failures = { λ w. w.failures };

    ghost did_send = { λ w bytes answer after. SendsToMemory N w bytes answer after };

    ghost did_receive = { λ w answer buffer after. ReceivesFromMemory w answer buffer after };

    fn send(&mut self, bytes: &[u8]) -> Result<(), WireError> {
        if bytes.len() > LONGEST {
            self.told = false;
            self.failures = self.failures.saturating_add(1);
            return Err(WireError);
        }
        match self.sent.try_push(kept(bytes)) {
            Ok(()) => Ok(()),
            Err(_) => {
                self.told = false;
                self.failures = self.failures.saturating_add(1);
                Err(WireError)
            }
        }
    }

    fn receive(&mut self, buf: &mut [u8]) -> Result<Option<usize>, WireError> {
        if self.next >= self.coming.len() {
            return Ok(None);
        }
        let datagram = self.coming[self.next].as_slice();
        let count = datagram.len().min(buf.len());
        buf[..count].copy_from_slice(&datagram[..count]);
        self.next += 1;
        Ok(Some(count))
    }
}
