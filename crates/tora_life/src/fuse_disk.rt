//! A disk whose calls fail on purpose, for tests.
ghost use Rattle.std.specs.Prelude.{◌≡◌, ◌+◌, ◌-◌, ◌^◌, min, Some};

use crate::disk::{Disk, DiskError};
use crate::fuse::{Fuse, FuseMode};
use std::marker::Model;

/// For tests only: a disk around another disk. A given number of calls pass, and then one call fails, or all following
/// calls fail.
///
/// A call that the fuse fails is counted, and makes no call of the inner disk. Failed calls of the inner disk are
/// counted too. The count begins at 0. Contracts see the bytes if they see those of the inner disk.
#[derive(Drop)]
pub struct FuseDisk<D: Disk> {
    disk: D,
    fuse: Fuse,
    failures: u64,
}

impl<D: Disk> Model for FuseDisk<D> {
    ghost use Rattle.tora_life.specs.FuseDisk.{FuseView};

    ghost Value = { FuseView D };

    ghost view = { λ f. record { disk = f.disk; fuse = f.fuse; failures = f.failures } };
}

impl<D: Disk> FuseDisk<D> {
    /// A disk around `disk` that lets `k` calls pass, reads, writes and syncs together.
    pub fn new(disk: D, k: u64, mode: FuseMode) -> FuseDisk<D>
        ensures { result ≡ record { disk = disk; fuse = record { mode = mode; left = Some k }; failures = 0 } }
    {
        FuseDisk {
            disk,
            fuse: Fuse::new(k, mode),
            failures: 0,
        }
    }

    /// The inner disk.
    pub fn into_inner(self) -> D
        ensures { result ≡ self.disk }
    {
        let FuseDisk {
            disk,
            fuse: _,
            failures: _,
        } = self;
        disk
    }

    /// Adds 1 to the count of failures, at most 2^64 - 1.
    fn count(&mut self)
        ensures { self.new ≡ record self.old { failures = min (self.old.failures + 1) (2 ^ 64 - 1) } }
    {
        self.failures = self.failures.saturating_add(1);
    }
}

impl<D: Disk> Disk for FuseDisk<D> {
    ghost use Rattle.tora_life.specs.FuseDisk.{GoesThroughFuse, ReadsThroughFuse};

    ghost tells = { λ f. D.tells f.disk };

    ghost seen = { λ f. D.seen f.disk };

    ghost may_leave = { λ f. D.may_leave f.disk };

    ghost moment = { λ f. D.moment f.disk };

    ghost left_since = { λ f. D.left_since f.disk };

    ghost failures = { λ f. f.failures };

    ghost reads = { λ f at buf answer bytes new. ReadsThroughFuse D.reads f at buf answer bytes new };

    ghost writes = { λ f at bytes answer new. GoesThroughFuse (D.writes f.disk at bytes) f answer new };

    ghost syncs = { λ f answer new. GoesThroughFuse (D.syncs f.disk) f answer new };

    ghost seen_may_stay = { λ f tells. D.seen_may_stay f.disk tells };

    ghost counts_now = { λ f t c le now. D.counts_now f.disk t c le now };

    ghost only_now = { λ f c left. D.only_now f.disk c left };

    fn read(&mut self, at: usize, buf: &mut [u8]) -> Result<usize, DiskError> {
        if !self.fuse.passes() {
            self.count();
            return Err(DiskError);
        }
        match self.disk.read(at, buf) {
            Ok(count) => Ok(count),
            Err(error) => {
                self.count();
                Err(error)
            }
        }
    }

    fn write_at(&mut self, at: usize, bytes: &[u8]) -> Result<(), DiskError> {
        if !self.fuse.passes() {
            self.count();
            return Err(DiskError);
        }
        match self.disk.write_at(at, bytes) {
            Ok(()) => Ok(()),
            Err(error) => {
                self.count();
                Err(error)
            }
        }
    }

    fn sync(&mut self) -> Result<(), DiskError> {
        if !self.fuse.passes() {
            self.count();
            return Err(DiskError);
        }
        match self.disk.sync() {
            Ok(()) => Ok(()),
            Err(error) => {
                self.count();
                Err(error)
            }
        }
    }
}
