//! The life file of a link end.
ghost use Rattle.std.specs.Prelude.{◌≡◌, ◌≢◌, ◌<◌, ◌≤◌, ℕ, IfSome, IfNone, MatchResult};
ghost use Rattle.tora_life.specs.LifeRun.{opened, after_event, drawn_by, owner_in};
ghost use Rattle.tora_life.specs.LifeRun.LifeEvent.{Draw, Arm};
ghost use Rattle.tora_life.specs.declared.numbers.TheConstants.{LAST_NUMBER};
ghost use Rattle.tora_world.specs.World.{reopened};
ghost use Rattle.tora_sim.specs.Files.{disk_of, IsDrawn};
ghost use Rattle.tora_arq.specs.LinkFacts.{list_of};

use crate::SimError;
use std::alloc::Global;
use tora_life::{DiskCall, LifeFile, MemDisk, Owner};

/// An open life file, or the disk of one that did not open for its owner.
#[derive(Drop)]
pub enum FileSlot {
    Opened(LifeFile<MemDisk>),
    Unopened(Owner, MemDisk),
}

/// Opens the life file on a disk for its owner; `Unopened` if it does not open, for any cause.
pub fn open(disk: MemDisk, owner: Owner) -> FileSlot
    requires node { 0 < owner.node }
    requires peer { 0 < owner.peer }
    requires distinct { owner.node ≢ owner.peer }
    ensures { disk_of result ≡ opened owner disk.state }
{
    match LifeFile::open(disk, owner.node, owner.peer) {
        Ok(file) => FileSlot::Opened(file),
        Err(fault) => FileSlot::Unopened(owner, fault.disk),
    }
}

/// A life file in a box.
///
/// # Errors
/// `Memory`.
pub fn apart(alloc: Global, file: FileSlot) -> Result<Box<FileSlot>, SimError>
    ensures { MatchResult result (λ place. place.value ≡ file) (λ e. e ≡ SimError.Memory) }
{
    match Box::new(alloc, file) {
        Ok(place) => Ok(place),
        Err(_) => Err(SimError::Memory),
    }
}

impl FileSlot {
    /// Takes the next session number from the file: it is above all earlier ones, and at most 2^62. `None` if the file
    /// is not open, if its numbers are used up, or if a call of the disk fails or failed before.
    pub fn draw(&mut self) -> Option<u64>
        ensures drawn { list_of result ≡ drawn_by Draw (disk_of self.old) }
        ensures disk { disk_of self.new ≡ after_event Draw (disk_of self.old) }
        ensures owner { owner_in (disk_of self.new) ≡ owner_in (disk_of self.old) }
        // The number is above every number that the file gave, and at most `LAST_NUMBER`.
        ensures above { IfSome result (λ n. (earlier : ℕ) → IsDrawn earlier (disk_of self.old) → earlier < n) }
        ensures within { IfSome result (λ n. n ≤ LAST_NUMBER) }
        ensures last { IfSome result (λ n. IsDrawn n (disk_of self.new)) }
        ensures kept { IfNone result ((earlier : ℕ) → IsDrawn earlier (disk_of self.old)
            → IsDrawn earlier (disk_of self.new)) }
    {
        match self {
            FileSlot::Opened(file) => match file.draw() {
                Ok(number) => Some(number),
                Err(_) => None,
            },
            FileSlot::Unopened(_, _) => None,
        }
    }

    /// Makes the next call of this kind fail at the disk of the file.
    pub fn arm(&mut self, call: DiskCall)
        ensures disk { disk_of self.new ≡ after_event (Arm call) (disk_of self.old) }
        ensures owner { owner_in (disk_of self.new) ≡ owner_in (disk_of self.old) }
        ensures kept { (earlier : ℕ) → IsDrawn earlier (disk_of self.old) → IsDrawn earlier (disk_of self.new) }
    {
        match self {
            FileSlot::Opened(file) => file.arm(call),
            FileSlot::Unopened(_, disk) => disk.arm(call),
        }
    }

    /// Crashes the disk, as `MemDisk::crash` does with `torn`, and opens the life file for its owner.
    pub fn restart(self, owner: Owner, torn: Option<[u8; 16]>) -> FileSlot
        requires same { owner ≡ owner_in (disk_of self) }
        requires node { 0 < owner.node }
        requires peer { 0 < owner.peer }
        requires distinct { owner.node ≢ owner.peer }
        ensures disk { disk_of result ≡ reopened torn (disk_of self) }
        ensures owner { owner_in (disk_of result) ≡ owner }
    {
        let mut disk = match self {
            FileSlot::Opened(file) => file.close(),
            FileSlot::Unopened(_, disk) => disk,
        };
        disk.crash(torn);
        open(disk, owner)
    }
}
