//! A wire whose calls fail on purpose, for tests.
ghost use Rattle.std.specs.Prelude.{◌≡◌, ◌+◌, ◌-◌, ◌^◌, min, Some, true};

use crate::wire::{Wire, WireError};
use std::marker::Model;
use tora_life::{Fuse, FuseMode};

/// For tests only: a wire around another wire. A given number of calls pass, and then one call fails, or all following
/// calls fail.
///
/// A call that the fuse fails is counted, and makes no call of the inner wire. Failed calls of the inner wire are
/// counted too. The count begins at 0. After a send that the fuse failed, contracts see no datagrams any more.
#[derive(Drop)]
pub struct FuseWire<W: Wire> {
    wire: W,
    fuse: Fuse,
    told: bool,
    failures: u64,
}

impl<W: Wire> Model for FuseWire<W> {
    ghost use Rattle.tora_neighbour.specs.FuseWire.{FuseView};

    ghost Value = { FuseView W };

    ghost view = { λ f. record { wire = f.wire; fuse = f.fuse; told = f.told; failures = f.failures } };
}

impl<W: Wire> FuseWire<W> {
    /// A wire around `wire` that lets `k` calls pass, sends and receives together. Then one call fails, or all
    /// following calls, by `mode`.
    pub fn new(wire: W, k: u64, mode: FuseMode) -> FuseWire<W>
        ensures { result
            ≡ record { wire = wire; fuse = record { mode = mode; left = Some k }; told = true; failures = 0 } }
    {
        FuseWire {
            wire,
            fuse: Fuse::new(k, mode),
            told: true,
            failures: 0,
        }
    }

    /// The inner wire.
    pub fn into_inner(self) -> W
        ensures { result ≡ self.wire }
    {
        let FuseWire {
            wire,
            fuse: _,
            told: _,
            failures: _,
        } = self;
        wire
    }

    /// Adds 1 to the count of failures, at most 2^64 - 1.
    fn count(&mut self)
        ensures { self.new ≡ record self.old { failures = min (self.old.failures + 1) (2 ^ 64 - 1) } }
    {
        self.failures = self.failures.saturating_add(1);
    }
}

impl<W: Wire> Wire for FuseWire<W> {
    ghost use Rattle.std.specs.Prelude.{◌&&◌};
    ghost use Rattle.tora_neighbour.specs.FuseWire.{SendsThroughFuse, ReceivesThroughFuse};

    ghost tells = { λ f. f.told && W.tells f.wire };

    ghost coming = { λ f. W.coming f.wire };

    ghost tries = { λ f. W.tries f.wire };

    ghost failures = { λ f. f.failures };

    ghost did_send = { λ f bytes answer after. SendsThroughFuse W.did_send f bytes answer after };

    ghost did_receive = { λ f answer buffer after. ReceivesThroughFuse W.did_receive f answer buffer after };

    fn send(&mut self, bytes: &[u8]) -> Result<(), WireError> {
        if !self.fuse.passes() {
            self.told = false;
            self.count();
            return Err(WireError);
        }
        match self.wire.send(bytes) {
            Ok(()) => Ok(()),
            Err(error) => {
                self.count();
                Err(error)
            }
        }
    }

    fn receive(&mut self, buf: &mut [u8]) -> Result<Option<usize>, WireError> {
        if !self.fuse.passes() {
            self.count();
            return Err(WireError);
        }
        match self.wire.receive(buf) {
            Ok(count) => Ok(count),
            Err(error) => {
                self.count();
                Err(error)
            }
        }
    }
}
