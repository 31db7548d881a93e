//! A life file: numbers that rise across crashes.
ghost use Rattle.std.specs.Prelude.{◌≡◌, ◌≢◌, ◌⊎◌, ◌↔◌, ◌+◌, ◌<◌, ◌≤◌, ℕ, List, Ok, Err, is_ok, IsOk, IfOk, IfErr};
ghost use Rattle.std.specs.Prelude.{OnOk, IsErrOf, IsTrue, IsFalse};
ghost use Rattle.tora_life.specs.Disk.{HasCause, IsOnlyImage, LeavesOnly};
ghost use Rattle.tora_life.specs.LifeFile.{Covers, file_value, slot_of};
ghost use Rattle.tora_life.specs.Migration.{version_of, migrated};
ghost use Rattle.tora_life.specs.Numbers.{value_of, lesser_slot, Reserves, IsSpent, IsKept, numbers_after, numbers_of};
ghost use Rattle.tora_life.specs.Calls.{OpensBy, WritesAndSyncs, place_of};

use crate::disk::Disk;
use crate::mem_disk::MemDisk;
use crate::numbers::{LAST_NUMBER, LifeError, Numbers, RESERVED};
use crate::opening::open_file;
use crate::state::DiskCall;
use crate::tags::Owner;
use crate::writing::replace_slot;
use std::marker::Model;
use thiserror::Error;

/// Why a life file did not open, and its disk. `?` converts it to a `LifeError`, without the disk.
#[derive(Debug, Drop, Error)]
#[error("the life file did not open: {error}")]
pub struct OpenFault<D> {
    /// `Disk`, `Damaged` or `Foreign`.
    pub error: LifeError,
    /// The disk after the calls that `open` made.
    pub disk: D,
}

impl<D: Drop> From<OpenFault<D>> for LifeError {
    ghost use Rattle.std.specs.Prelude.{◌≡◌};

    ghost from_gives = { λ fault error. error ≡ fault.error };

    fn from(fault: OpenFault<D>) -> LifeError {
        fault.error
    }
}

/// An open life file on a disk, which draws numbers from 1 to 2^62.
///
/// It belongs to one end of a link: its two slots are followed by a tag with the node and the peer, so that a file that
/// was copied to another node is refused before a number is drawn from it.
///
/// Its value is the greater of the two bounds in its slots. Numbers are reserved sixteen at a time: when all numbers up
/// to the value v are drawn, v + 16 is written to the slot with the smaller bound (slot 0 at a tie) and synced, and
/// only then v + 1 to v + 16 are drawn. The other slot is not written meanwhile, so a torn write cannot lower the
/// value.
///
/// Contracts see its disk, its owner and its numbers. If they see the bytes of the disk, `IsKept` holds: whatever a
/// crash leaves opens for the owner, and its value is at least the greatest number drawn.
#[derive(Debug, Drop)]
pub struct LifeFile<D: Disk> {
    disk: D,
    owner: Owner,
    numbers: Numbers,
}

impl<D: Disk> Model for LifeFile<D> {
    ghost use Rattle.tora_life.specs.FileView.{FileView};

    ghost Value = { FileView D };

    ghost use Rattle.tora_life.specs.Numbers.{IsKept};

    ghost view = { λ f. record { disk = f.disk; owner = f.owner; numbers = f.numbers } };

    ghost invariant = { λ f. IsKept D.tells D.seen D.may_leave f.owner f.numbers f.disk };
}

impl<D: Disk> LifeFile<D> {
    /// Opens the life file of the node `me` for its link to `peer`, which are different and not 0: a sync, and then one
    /// read of 65 bytes. The first number to draw is the one after the file's value, 1 for an empty file. The sync
    /// comes first because a crash could lose bytes that are read but not on the disk.
    ///
    /// A file without a tag is of version 1, or was torn while it was migrated. It is migrated: one write from offset
    /// 32, or from the file's end if that is lower, to the end of the tag, and then a sync. Incomplete slots are filled
    /// up so that they count as 0, as before. No file that a crash leaves meanwhile has a smaller value.
    ///
    /// # Errors
    ///
    /// The error returns the disk. In this order: `Disk` if the sync or the read fails; `Damaged` if the file is longer
    /// than 64 bytes or has a tag of another kind; `Foreign` if it has the tag of another node or another peer; `Disk`
    /// if the write of the migration or its sync fails. At `Damaged` and `Foreign` nothing was written.
    pub fn open(disk: D, me: u32, peer: u32) -> Result<LifeFile<D>, OpenFault<D>>
        requires me { 0 < me }
        requires peer { 0 < peer }
        requires distinct { me ≢ peer }

        // The only image of the file is its first 32 bytes, filled up, followed by the tag.
        ensures numbers { IsTrue (D.tells disk) → IfOk result (λ file. file.numbers ≡ numbers_of (D.seen disk)) }
        ensures owner { IfOk result (λ file. file.owner ≡ record { node = me; peer = peer }) }
        ensures seen { IsTrue (D.tells disk) → IfOk result (λ file.
            D.seen file.disk ≡ migrated (record { node = me; peer = peer }) (D.seen disk)) }
        ensures only { IsTrue (D.tells disk) → IfOk result (λ file.
            IsOnlyImage (D.seen file.disk) (D.may_leave file.disk)) }
        ensures kept { IfOk result (λ file. IsKept D.tells D.seen D.may_leave file.owner file.numbers file.disk) }
        ensures sound { IfOk result (λ file. IsFalse file.numbers.failed) }

        // A crash at any moment of the call leaves one of the images from before the call, or a file whose value is at
        // least that of the file that was read.
        ensures any_moment { IsTrue (D.tells disk) → IfOk result (λ file.
            LeavesOnly D.moment D.left_since disk file.disk (λ c. D.may_leave disk c
            ⊎ (file_value (D.seen disk) ≤ file_value c))) }
        ensures any_moment_err { IsTrue (D.tells disk) → IfErr result (λ fault.
            LeavesOnly D.moment D.left_since disk fault.disk (λ c. D.may_leave disk c
            ⊎ (file_value (D.seen disk) ≤ file_value c))) }
        ensures tells { IfOk result (λ file. D.tells file.disk ≡ D.tells disk) }
        ensures tells_err { IfErr result (λ fault. D.tells fault.disk ≡ D.tells disk) }

        // When each error comes: `Damaged` and `Foreign` exactly if the bytes of the file say so, and then nothing was
        // written.
        ensures errors { IfErr result (λ fault. (fault.error ≡ LifeError.Disk)
            ⊎ ((fault.error ≡ LifeError.Damaged) ⊎ (fault.error ≡ LifeError.Foreign))) }
        ensures opens { IsTrue (D.tells disk) → OnOk result (IsOk
            (version_of (record { node = me; peer = peer }) (D.seen disk))) }
        ensures refused { IsTrue (D.tells disk) → IfErr result (λ fault. fault.error ≢ LifeError.Disk
            → (version_of (record { node = me; peer = peer }) (D.seen disk) ≡ Err fault.error)
            × IsOnlyImage (D.seen disk) (D.may_leave fault.disk)) }
        ensures disk { IfErr result (λ fault. fault.error ≡ LifeError.Disk
            → HasCause (D.failures disk) (D.failures fault.disk)) }

        // The calls of the disk: a sync, a read, and for a file without a tag a write and a sync.
        ensures calls { IfOk result (λ file. OpensBy D.syncs D.reads D.writes (record { node = me; peer = peer }) disk
            (Ok file.numbers) file.disk) }
        ensures calls_err { IfErr result (λ fault. OpensBy D.syncs D.reads D.writes (record { node = me; peer = peer })
            disk (Err fault.error) fault.disk) }
    {
        let mut disk = disk;
        let owner = Owner { node: me, peer };
        match open_file(&mut disk, owner) {
            Ok(numbers) => Ok(LifeFile {
                disk,
                owner,
                numbers,
            }),
            Err(error) => Err(OpenFault { error, disk }),
        }
    }

    /// Returns the disk, without a call of it. Any file that a crash leaves on it has a value of at least the greatest
    /// number drawn.
    pub fn close(self) -> D
        ensures disk { result ≡ self.disk }
        ensures kept { IsKept D.tells D.seen D.may_leave self.owner self.numbers result }
    {
        let LifeFile {
            disk,
            owner: _,
            numbers: _,
        } = self;
        disk
    }

    /// Draws the next number: the one after the last number drawn, or after the value with which the file was opened.
    /// After `Ok` a crash leaves only files that draw greater numbers. If the reserved numbers are used up, the call
    /// writes one slot and syncs; otherwise it makes no call of the disk.
    ///
    /// # Errors
    ///
    /// In this order: `Failed` if an earlier draw returned `Disk`, `Spent` if sixteen more numbers must be reserved and
    /// would exceed 2^62, `Disk` if the write or the sync fails. An error draws no number. After `Disk` every further
    /// draw returns `Failed`.
    pub fn draw(&mut self) -> Result<u64, LifeError>
        ensures drawn { IfOk result (λ n. n ≡ self.old.numbers.drawn + 1) }
        ensures numbers { self.new.numbers ≡ numbers_after result self.old.numbers }
        ensures owner { self.new.owner ≡ self.old.owner }
        ensures failures { OnOk result (D.failures self.new.disk ≡ D.failures self.old.disk) }
        ensures within { IfOk result (λ n. n ≤ LAST_NUMBER) }

        // After `Ok(n)` the value of each image is at least n. At each moment before that it is at least the greatest
        // number drawn before.
        ensures after { IsTrue (D.tells self.old.disk) → IfOk result (λ n. (c : List ℕ) → D.may_leave self.new.disk c
            → Covers self.old.owner n c) }
        ensures any_moment { IsTrue (D.tells self.old.disk) → LeavesOnly D.moment D.left_since self.old.disk
            self.new.disk (Covers self.old.owner self.old.numbers.drawn) }
        ensures tells { D.tells self.new.disk ≡ D.tells self.old.disk }
        ensures kept { IsKept D.tells D.seen D.may_leave self.new.owner self.new.numbers self.new.disk }

        // When each error comes.
        ensures failed { IsErrOf result LifeError.Failed ↔ IsTrue self.old.numbers.failed }
        ensures spent { IsErrOf result LifeError.Spent ↔ IsSpent self.old.numbers }
        ensures disk { IsErrOf result LifeError.Disk → Reserves self.old.numbers
            × HasCause (D.failures self.old.disk) (D.failures self.new.disk) }
        ensures damaged { IsErrOf result LifeError.Damaged → ⊥ }
        ensures foreign { IsErrOf result LifeError.Foreign → ⊥ }

        // The calls of the disk: none while there are reserved numbers, otherwise a write and a sync.
        ensures calls { Reserves self.old.numbers → WritesAndSyncs D.writes D.syncs
            (place_of (lesser_slot self.old.numbers)) (slot_of (value_of self.old.numbers + RESERVED)) self.old.disk
            (is_ok result) self.new.disk }
        ensures no_calls { (Reserves self.old.numbers → ⊥) → self.new.disk ≡ self.old.disk }
    {
        if self.numbers.failed {
            return Err(LifeError::Failed);
        }
        let value = self.numbers.value();
        if self.numbers.drawn < value {
            self.numbers.drawn += 1;
            return Ok(self.numbers.drawn);
        }
        if value > LAST_NUMBER - RESERVED {
            return Err(LifeError::Spent);
        }
        match replace_slot(&mut self.disk, self.numbers.lesser(), value + RESERVED) {
            Ok(()) => {
                self.numbers = self.numbers.with_more();
                self.numbers.drawn += 1;
                Ok(self.numbers.drawn)
            }
            Err(_) => {
                self.numbers.failed = true;
                Err(LifeError::Disk)
            }
        }
    }
}

impl LifeFile<MemDisk> {
    ghost use Rattle.std.specs.Prelude.{◌≡◌};
    ghost use Rattle.tora_life.specs.State.{armed};

    /// Makes the next call of this kind fail, as `MemDisk::arm` does.
    pub fn arm(&mut self, call: DiskCall)
        ensures disk { self.new.disk.state ≡ armed call self.old.disk.state }
        ensures numbers { self.new.numbers ≡ self.old.numbers }
        ensures owner { self.new.owner ≡ self.old.owner }
    {
        self.disk.arm(call);
    }
}
