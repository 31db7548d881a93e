//! How a life file is opened on a disk.
ghost use Rattle.std.specs.Prelude.{◌≡◌, ◌≢◌, ◌⊎◌, ◌≤◌, List, ℕ, Ok, Err, IsOk, IfOk, IfErr, OnOk, IsTrue, IsFalse};
ghost use Rattle.tora_life.specs.Calls.{Migrates, OpensBy};
ghost use Rattle.tora_life.specs.Disk.{HasCause, IsOnlyImage, LeavesOnly};
ghost use Rattle.tora_life.specs.LifeFile.{file_value};
ghost use Rattle.tora_life.specs.Migration.{version_of, migrated};
ghost use Rattle.tora_life.specs.Numbers.{numbers_of, value_of};

use crate::disk::Disk;
use crate::lengths::FIRST_READ;
use crate::migration::{Version, found_version};
use crate::numbers::{LifeError, Numbers};
use crate::tags::Owner;
use crate::writing::migrate;

/// Opens the life file of an owner on a disk, and returns its numbers: a sync, then one read of 65 bytes, and then, if
/// there is no tag, one write and a sync.
///
/// # Errors
///
/// In this order: `Disk` if the first sync or the read fails; `Damaged`; `Foreign`; `Disk` if the write or the second
/// sync fails.
pub fn open_file<D: Disk>(disk: &mut D, owner: Owner) -> Result<Numbers, LifeError>
    ensures numbers { IsTrue (D.tells disk.old) → IfOk result (λ numbers. numbers ≡ numbers_of (D.seen disk.old)) }
    ensures used { IfOk result (λ numbers. numbers.drawn ≡ value_of numbers) }
    ensures sound { IfOk result (λ numbers. IsFalse numbers.failed) }
    ensures seen { IsTrue (D.tells disk.old) → OnOk result (D.seen disk.new ≡ migrated owner (D.seen disk.old)) }
    ensures only { IsTrue (D.tells disk.old) → OnOk result (IsOnlyImage (D.seen disk.new) (D.may_leave disk.new)) }
    ensures any_moment { IsTrue (D.tells disk.old) → LeavesOnly D.moment D.left_since disk.old disk.new (λ c.
        D.may_leave disk.old c ⊎ (file_value (D.seen disk.old) ≤ file_value c)) }
    ensures opens { IsTrue (D.tells disk.old) → OnOk result (IsOk (version_of owner (D.seen disk.old))) }
    ensures refused { IsTrue (D.tells disk.old) → IfErr result (λ error. error ≢ LifeError.Disk
        → (version_of owner (D.seen disk.old) ≡ Err error) × IsOnlyImage (D.seen disk.old) (D.may_leave disk.new)) }
    ensures errors { IfErr result (λ error. (error ≡ LifeError.Disk)
        ⊎ ((error ≡ LifeError.Damaged) ⊎ (error ≡ LifeError.Foreign))) }
    ensures disk { IfErr result (λ error. error ≡ LifeError.Disk
        → HasCause (D.failures disk.old) (D.failures disk.new)) }
    ensures tells { D.tells disk.new ≡ D.tells disk.old }
    ensures calls { OpensBy D.syncs D.reads D.writes owner disk.old result disk.new }
{
    let Ok(()) = disk.sync() else {
        return Err(LifeError::Disk);
    };
    let mut bytes = [0; FIRST_READ];
    let Ok(count) = disk.read(0, &mut bytes) else {
        return Err(LifeError::Disk);
    };
    let file = &bytes[..count];
    match found_version(owner, file) {
        Ok(version) => open_version(disk, owner, file, version),
        Err(error) => Err(error),
    }
}

/// Opens a life file of this version after it was read: an `Untagged` file is migrated. The only error is `Disk`.
fn open_version<D: Disk>(
    disk: &mut D,
    owner: Owner,
    file: &[u8],
    version: Version,
) -> Result<Numbers, LifeError>
    requires version { version_of owner file.now ≡ Ok version }
    requires file { IsTrue (D.tells disk.old) → file.now ≡ D.seen disk.old }
    requires only { IsTrue (D.tells disk.old) → IsOnlyImage (D.seen disk.old) (D.may_leave disk.old) }
    ensures numbers { IfOk result (λ numbers. numbers ≡ numbers_of file.now) }
    ensures used { IfOk result (λ numbers. numbers.drawn ≡ value_of numbers) }
    ensures sound { IfOk result (λ numbers. IsFalse numbers.failed) }
    ensures seen { IsTrue (D.tells disk.old) → OnOk result (D.seen disk.new ≡ migrated owner file.now) }
    ensures only { IsTrue (D.tells disk.old) → OnOk result (IsOnlyImage (D.seen disk.new) (D.may_leave disk.new)) }
    ensures any_moment { IsTrue (D.tells disk.old) → LeavesOnly D.moment D.left_since disk.old disk.new (λ c.
        file_value file.now ≤ file_value c) }
    ensures errors { IfErr result (λ error. (error ≡ LifeError.Disk)
        × HasCause (D.failures disk.old) (D.failures disk.new)) }
    ensures tells { D.tells disk.new ≡ D.tells disk.old }
    ensures calls { Migrates D.writes D.syncs owner file.now (Ok version) disk.old result disk.new }
{
    match version {
        Version::Tagged => Ok(Numbers::read(file)),
        Version::Untagged => match migrate(disk, owner, file) {
            Ok(()) => Ok(Numbers::read(file)),
            Err(_) => Err(LifeError::Disk),
        },
    }
}
