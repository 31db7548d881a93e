//! Writes to a disk, each followed by a sync.
ghost use Rattle.std.specs.Prelude.{◌≡◌, ◌≤◌, List, ℕ, length, drop, is_ok, IsTrue, IsErr, OnOk};
ghost use Rattle.tora_life.specs.LifeFile.{file_value, slot_of, Covers};
ghost use Rattle.tora_life.specs.Migration.{migrated, migration_place, migration_bytes};
ghost use Rattle.tora_life.specs.Tags.{tag_of};
ghost use Rattle.tora_life.specs.Disk.{HasCause, Holds, IsOnlyImage, IsTornFrom, LeavesOnly};
ghost use Rattle.tora_life.specs.Slots.{kept_bound, IsReplaced};
ghost use Rattle.tora_life.specs.Calls.{place_of, WritesAndSyncs};
ghost use Rattle.tora_life.specs.declared.tags.Owner.{Owner as Whose};

use crate::disk::{Disk, DiskError};
use crate::lengths::{FILE_LENGTH, SLOTS_LENGTH};
use crate::migration::migrated_bytes;
use crate::slots::{Slot, slot_bytes};
use crate::tags::Owner;

/// Writes bytes at an offset of the disk: one write, and then, if it succeeded, a sync.
fn write_through<D: Disk>(disk: &mut D, at: usize, bytes: &[u8]) -> Result<(), DiskError>
    requires { IsTrue (D.tells disk.old) → at ≤ length (D.seen disk.old) }
    ensures held { IsTrue (D.tells disk.old) → OnOk result (Holds (D.seen disk.old) at bytes.now (D.seen disk.new)) }
    ensures only { IsTrue (D.tells disk.old) → OnOk result (IsOnlyImage (D.seen disk.new) (D.may_leave disk.new)) }
    ensures images { IsTrue (D.tells disk.old) → (c : List ℕ) → D.may_leave disk.new c
        → IsTornFrom at (length bytes.now) (D.may_leave disk.old) c }
    ensures any_moment { IsTrue (D.tells disk.old) → LeavesOnly D.moment D.left_since disk.old disk.new
        (IsTornFrom at (length bytes.now) (D.may_leave disk.old)) }
    ensures tells { D.tells disk.new ≡ D.tells disk.old }
    ensures calls { WritesAndSyncs D.writes D.syncs at bytes.now disk.old (is_ok result) disk.new }
    ensures counted { OnOk result (D.failures disk.new ≡ D.failures disk.old) }
    ensures failures { IsErr result → HasCause (D.failures disk.old) (D.failures disk.new) }
{
    match disk.write_at(at, bytes) {
        Ok(()) => disk.sync(),
        Err(error) => Err(error),
    }
}

/// Writes a bound to a slot on the disk: one write, and then, if it succeeded, a sync. The other slot and the tag are
/// unchanged, even if a call fails.
pub fn replace_slot<D: Disk>(disk: &mut D, slot: Slot, bound: u64) -> Result<(), DiskError>
    requires only { IsTrue (D.tells disk.old) → IsOnlyImage (D.seen disk.old) (D.may_leave disk.old) }
    requires place { IsTrue (D.tells disk.old) → place_of slot ≤ length (D.seen disk.old) }
    ensures ok { IsTrue (D.tells disk.old) → OnOk result (IsReplaced slot bound (D.seen disk.old) (D.seen disk.new)
        (D.may_leave disk.new)) }
    ensures images { IsTrue (D.tells disk.old) → (owner : Whose) → drop SLOTS_LENGTH (D.seen disk.old) ≡ tag_of owner
        → (c : List ℕ) → D.may_leave disk.new c → Covers owner (kept_bound slot (D.seen disk.old)) c }
    ensures any_moment { IsTrue (D.tells disk.old) → (owner : Whose)
        → drop SLOTS_LENGTH (D.seen disk.old) ≡ tag_of owner
        → LeavesOnly D.moment D.left_since disk.old disk.new (Covers owner (kept_bound slot (D.seen disk.old))) }
    ensures tells { D.tells disk.new ≡ D.tells disk.old }
    ensures calls { WritesAndSyncs D.writes D.syncs (place_of slot) (slot_of bound) disk.old (is_ok result) disk.new }
    ensures counted { OnOk result (D.failures disk.new ≡ D.failures disk.old) }
    ensures failures { IsErr result → HasCause (D.failures disk.old) (D.failures disk.new) }
{
    write_through(disk, slot.place(), &slot_bytes(bound))
}

/// Migrates the life file of an owner to version 2: one write from offset 32, or from the file's end if that is lower,
/// to the end of the tag, and then a sync. An incomplete slot counts as 0 before and after, and a complete one is
/// unchanged, so no file that a crash leaves meanwhile has a smaller value.
pub fn migrate<D: Disk>(disk: &mut D, owner: Owner, file: &[u8]) -> Result<(), DiskError>
    requires file { IsTrue (D.tells disk.old) → file.now ≡ D.seen disk.old }
    requires fits { length file.now ≤ FILE_LENGTH }
    requires only { IsTrue (D.tells disk.old) → IsOnlyImage (D.seen disk.old) (D.may_leave disk.old) }
    ensures seen { IsTrue (D.tells disk.old) → OnOk result (D.seen disk.new ≡ migrated owner file.now) }
    ensures ok { IsTrue (D.tells disk.old) → OnOk result (IsOnlyImage (D.seen disk.new) (D.may_leave disk.new)) }
    ensures any_moment { IsTrue (D.tells disk.old) → LeavesOnly D.moment D.left_since disk.old disk.new (λ c.
        file_value file.now ≤ file_value c) }
    ensures tells { D.tells disk.new ≡ D.tells disk.old }
    ensures calls { WritesAndSyncs D.writes D.syncs (migration_place file.now) (migration_bytes owner file.now) disk.old
        (is_ok result) disk.new }
    ensures counted { OnOk result (D.failures disk.new ≡ D.failures disk.old) }
    ensures failures { IsErr result → HasCause (D.failures disk.old) (D.failures disk.new) }
{
    let place = file.len().min(SLOTS_LENGTH);
    let whole = migrated_bytes(owner, file);
    write_through(disk, place, &whole[place..])
}
