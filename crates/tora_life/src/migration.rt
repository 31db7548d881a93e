//! Life files of both versions, and the migration of a file without a tag.
ghost use Rattle.std.specs.Prelude.{◌≡◌, ◌≤◌, length};
ghost use Rattle.tora_life.specs.Migration.{version_of, version_by, slot_filled, migrated};

use crate::lengths::{FILE_LENGTH, SLOT_LENGTH, SLOTS_LENGTH};
use crate::numbers::LifeError;
use crate::tags::{Owner, Tag, tag_bytes};

/// Whether a life file has the tag of its owner.
#[derive(Clone, Copy, Debug, PartialEq, Eq, Hash)]
pub enum Version {
    /// It has no tag: it is of version 1, or was torn while it was migrated.
    Untagged,
    /// It has the tag of its owner: it is of version 2.
    Tagged,
}

/// The version of a file with these bytes, opened for an owner.
///
/// # Errors
///
/// `Damaged` if there are over 64 bytes or the tag is of another kind, `Foreign` if the tag is of another owner.
pub fn found_version(owner: Owner, file: &[u8]) -> Result<Version, LifeError>
    ensures { result ≡ version_of owner file.now }
{
    if file.len() > FILE_LENGTH {
        return Err(LifeError::Damaged);
    }
    let (_, tag) = file.split_at(file.len().min(SLOTS_LENGTH));
    let own = tag_bytes(owner);
    if tag == own.as_slice() {
        return Ok(Version::Tagged);
    }
    version_by_tag(Tag::read(tag))
}

/// The version of a file that has at most 64 bytes and not its owner's tag: `Untagged` for `Absent`. The error is
/// `Damaged` for `Strange`, and `Foreign` for the tag of any owner.
fn version_by_tag(tag: Tag) -> Result<Version, LifeError>
    ensures { result ≡ version_by tag }
{
    match tag {
        Tag::Absent => Ok(Version::Untagged),
        Tag::Strange => Err(LifeError::Damaged),
        Tag::Of(_) => Err(LifeError::Foreign),
    }
}

/// A slot, at most sixteen bytes. An incomplete one is filled up to sixteen bytes so that it still counts as 0; a
/// complete one is unchanged.
#[tactic(auto, unfolding(crate::specs::Migration::slot_filled))]
fn filled_slot(slot: &[u8]) -> [u8; SLOT_LENGTH]
    requires { length slot.now ≤ SLOT_LENGTH }
    ensures { result ≡ slot_filled slot.now }
{
    let (front, back) = slot.split_at(slot.len().min(8));
    let mut first = [0u8; 8];
    first[..front.len()].copy_from_slice(front);
    let mut second = first;
    second[..back.len()].copy_from_slice(back);
    let mut filled = [0u8; SLOT_LENGTH];
    filled[..8].copy_from_slice(&first);
    filled[8..].copy_from_slice(&second);
    filled
}

/// The file of an owner after the migration: its first 32 bytes, filled up, and the tag.
pub fn migrated_bytes(owner: Owner, file: &[u8]) -> [u8; FILE_LENGTH]
    ensures { result ≡ migrated owner file.now }
{
    let (front, back) = file.split_at(file.len().min(SLOT_LENGTH));
    let mut whole = [0u8; FILE_LENGTH];
    let (slots, tag) = whole.split_at_mut(SLOTS_LENGTH);
    let (first, second) = slots.split_at_mut(SLOT_LENGTH);
    first.copy_from_slice(&filled_slot(front));
    second.copy_from_slice(&filled_slot(&back[..back.len().min(SLOT_LENGTH)]));
    tag.copy_from_slice(&tag_bytes(owner));
    whole
}
