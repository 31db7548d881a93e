//! A disk in memory.
ghost use Rattle.std.specs.Prelude.{◌≡◌, ◌≤◌, [], length};

use crate::call_record::CallRecord;
use crate::disk::{Disk, DiskError};
use crate::lengths::DISK_LENGTH;
use crate::state::{DiskCall, State};
use std::marker::Model;

/// A disk of at most 80 bytes in memory, whose bytes contracts see. Its calls can be armed to fail, and it can be
/// crashed. It takes no memory.
///
/// A write past 80 bytes fails, marks nothing as written, and uses up an armed write. A write that is armed to fail
/// keeps the old bytes, but its range counts as written: a later crash tears it. A crash does not sync: a second crash
/// again tears all that was written since the last successful sync.
///
/// Contracts see its state, and the states before each of its calls, because some clauses of `Disk` are about each
/// moment of a call. The earlier states take no memory.
#[derive(Debug, Drop)]
pub struct MemDisk {
    state: State,
    past: CallRecord,
}

impl Model for MemDisk {
    ghost use Rattle.tora_life.specs.DiskView.{DiskView};

    ghost Value = { DiskView };

    ghost use Rattle.tora_life.specs.State.{IsWhole};

    ghost view = { λ d. record { state = d.state; past = d.past.states } };

    ghost invariant = { λ d. IsWhole d.state };
}

impl MemDisk {
    ghost use Rattle.std.specs.Prelude.{◌≡◌, ◌↔◌, ◌≤◌, ℕ, List, [], length, IfSome, IsSome};
    ghost use Rattle.tora_life.specs.State.{seen_of, IsWhole, MayLeave, armed, after_crash, fresh_state};

    /// An empty disk, with no call armed.
    pub fn new() -> MemDisk
        ensures { result.state ≡ fresh_state [] }
    {
        MemDisk {
            state: State::fresh([0; DISK_LENGTH], 0),
            past: CallRecord::new(),
        }
    }

    /// A disk with a file of these bytes, all synced, and no call armed. `None` if there are more than 80 bytes.
    pub fn of(bytes: &[u8]) -> Option<MemDisk>
        ensures some { IfSome result (λ disk. disk.state ≡ fresh_state bytes.now) }
        ensures seen { IfSome result (λ disk. seen_of disk.state ≡ bytes.now) }
        ensures fits { IsSome result ↔ (length bytes.now ≤ DISK_LENGTH) }
    {
        if bytes.len() > DISK_LENGTH {
            return None;
        }
        let mut there = [0; DISK_LENGTH];
        there[..bytes.len()].copy_from_slice(bytes);
        Some(MemDisk {
            state: State::fresh(there, bytes.len()),
            past: CallRecord::new(),
        })
    }

    /// Makes the next call of this kind fail. The call stays armed until then, also across a crash. Arming it twice has
    /// the same effect as once.
    pub fn arm(&mut self, call: DiskCall)
        ensures { self.new.state ≡ armed call self.old.state }
    {
        self.state.arm(call);
    }

    /// Crashes. With `Some`, each byte that was written since the last sync becomes the torn byte at its offset modulo
    /// 16, and the others are as at the last sync. The length becomes that of the last sync, or the end of the furthest
    /// write since if that is greater. With `None`, the bytes and the length are as at the last sync.
    pub fn crash(&mut self, torn: Option<[u8; 16]>)
        ensures after { self.new.state ≡ after_crash torn self.old.state }
        ensures left { MayLeave self.old.state (seen_of self.new.state) }
        ensures images { (c : List ℕ) → MayLeave self.new.state c → MayLeave self.old.state c }
    {
        self.past = CallRecord::with(&self.past, &self.state);
        self.state.crash(torn);
    }

    /// The bytes that a read returns, at most 80.
    pub fn bytes(&self) -> &[u8]
        ensures { result.now ≡ seen_of self.now.state }
    {
        &self.state.bytes[..self.state.len]
    }
}

impl Disk for MemDisk {
    ghost use Rattle.std.specs.Prelude.{◌≡◌, ◌≤◌, length, true, refl};
    ghost use Rattle.std.proofs.Common.{inl};
    ghost use Rattle.tora_life.specs.Past.{LeftSince, only_left};
    ghost use Rattle.tora_life.specs.State.{seen_of, MayLeave, read_answer, bytes_read, after_read, write_answer};
    ghost use Rattle.tora_life.specs.State.{after_write, sync_answer, after_sync};

    ghost tells = { λ d. true };

    ghost seen = { λ d. seen_of d.state };

    ghost may_leave = { λ d. MayLeave d.state };

    ghost moment = { λ d. length d.past };

    ghost left_since = { λ d. LeftSince d.past d.state };

    ghost failures = { λ d. d.state.failures };

    ghost reads = { λ d at buf answer bytes new. (answer ≡ read_answer d.state at buf)
        × (bytes ≡ bytes_read d.state at buf) × (new.state ≡ after_read d.state) };

    ghost writes = { λ d at bytes answer new. (answer ≡ write_answer d.state at bytes)
        × (new.state ≡ after_write d.state at bytes) };

    ghost syncs = { λ d answer new. (answer ≡ sync_answer d.state) × (new.state ≡ after_sync d.state) };

    ghost seen_may_stay = { λ d tells. inl refl };

    ghost counts_now = { λ d t c le now. inl now };

    ghost only_now = { λ d c left. only_left d.past d.state c left };

    fn read(&mut self, at: usize, buf: &mut [u8]) -> Result<usize, DiskError> {
        self.past = CallRecord::with(&self.past, &self.state);
        self.state.read(at, buf)
    }

    fn write_at(&mut self, at: usize, bytes: &[u8]) -> Result<(), DiskError> {
        self.past = CallRecord::with(&self.past, &self.state);
        self.state.write(at, bytes)
    }

    fn sync(&mut self) -> Result<(), DiskError> {
        self.past = CallRecord::with(&self.past, &self.state);
        self.state.sync()
    }
}
