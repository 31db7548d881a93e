//! A disk over a file of the operating system.
ghost use Rattle.std.specs.Prelude.{◌≡◌};
ghost use Rattle.tora_life.specs.Disk.{failures_after};
ghost use Rattle.tora_life.specs.FileDisk.{Answers, OpensFile, SyncsFolder, folder_of};

use crate::disk::{Disk, DiskError};
use crate::system_file::{SystemFile, SystemFiles};
use crate::whole_read::read_whole;
use std::fs::File;
use std::io;
use std::marker::Model;
use std::path::Path;

/// A file of the operating system as a disk. It is read and written at offsets, and a sync includes its length.
///
/// Contracts do not see its bytes. They say which system calls it makes, which numbers are drawn, when each error
/// occurs and that failed calls are counted, but not what a crash leaves. That the file keeps what was synced, and that
/// nobody else writes it, are premises of the program. The file is locked while its disk exists, so that no second node
/// on this machine draws from it. The lock of a killed process is released.
#[derive(Debug, Drop)]
pub struct FileDisk<F = File> {
    file: F,
    failures: u64,
}

impl<F> Model for FileDisk<F> {
    ghost use Rattle.tora_life.specs.FileDisk.{FileDiskView};

    ghost Value = { FileDiskView F };

    ghost view = { λ d. record { file = d.file; failures = d.failures } };
}

/// The directory of the file at a path; `.` if the path names none.
fn folder_of(path: &str) -> &str
    ensures { result.now ≡ folder_of path.now }
{
    match Path::new(path).parent() {
        Some(folder) if folder.as_str() != "" => folder.as_str(),
        _ => ".",
    }
}

impl<F: SystemFile> FileDisk<F> {
    /// Opens the file at this path for reading and writing. A missing file is created empty. The file is locked, and it
    /// and then its directory are synced, so that it exists after a crash.
    ///
    /// # Errors
    ///
    /// Those of the operating system, in the order of these steps; `WouldBlock` if this or another process has locked
    /// the file.
    pub fn open<S: SystemFiles<File = F>>(files: S, path: &str) -> io::Result<FileDisk<F>>
        ensures { OpensFile S.did_open_file S.did_open_folder S.did_lock S.did_sync_all files path.now result }
    {
        let mut files = files;
        let mut file = match files.open_file_at(path) {
            Ok(file) => file,
            Err(error) => return Err(error),
        };
        match files.lock(&mut file) {
            Ok(()) => {}
            Err(error) => return Err(error),
        }
        match files.sync_all_of(&mut file) {
            Ok(()) => FileDisk::in_folder(files, folder_of(path), file),
            Err(error) => Err(error),
        }
    }

    /// Syncs the directory at this path, which has the file `file`, and returns the disk over that file.
    ///
    /// # Errors
    ///
    /// Those of the operating system, if the directory is not opened or not synced.
    fn in_folder<S: SystemFiles<File = F>>(files: S, path: &str, file: F) -> io::Result<FileDisk<F>>
        ensures { SyncsFolder S.did_open_folder S.did_sync_all files path.now file result }
    {
        let mut files = files;
        let mut folder = match files.open_folder_at(path) {
            Ok(folder) => folder,
            Err(error) => return Err(error),
        };
        match files.sync_all_of(&mut folder) {
            Ok(()) => Ok(FileDisk { file, failures: 0 }),
            Err(error) => Err(error),
        }
    }

    /// Returns the result of a call, with `DiskError` for any error, and counts a call that failed.
    fn counted<T: Drop>(&mut self, answer: io::Result<T>) -> Result<T, DiskError>
        ensures failures { self.new ≡ record self.old { failures = failures_after result self.old.failures } }
        ensures value { Answers answer result }
    {
        match answer {
            Ok(value) => Ok(value),
            Err(_) => {
                self.failures = self.failures.saturating_add(1);
                Err(DiskError)
            }
        }
    }
}

impl<F: SystemFile> Disk for FileDisk<F> {
    ghost use Rattle.std.specs.Prelude.{[], false};
    ghost use Rattle.std.proofs.Common.{rules};
    ghost use Rattle.tora_life.specs.FileDisk.{MakesCall};
    ghost use Rattle.tora_life.specs.WholeRead.{ReadsWhole};

    ghost tells = { λ d. false };

    ghost seen = { λ d. [] };

    ghost may_leave = { λ d c. ⊥ };

    ghost moment = { λ d. 0 };

    ghost left_since = { λ d t c. ⊥ };

    ghost failures = { λ d. d.failures };

    ghost reads = { λ d at buf answer bytes new. MakesCall (λ file said after.
        ReadsWhole F.did_read_at at file buf said after bytes) d answer new };

    ghost writes = { λ d at bytes answer new. MakesCall (λ file said after. F.did_write_all_at file at bytes said after)
        d answer new };

    ghost syncs = { λ d answer new. MakesCall F.did_sync_all d answer new };

    ghost seen_may_stay = { Prim.search rules };

    ghost counts_now = { λ d t c le now. now };

    ghost only_now = { λ d c left. left };

    fn read(&mut self, at: usize, buf: &mut [u8]) -> Result<usize, DiskError> {
        let count = read_whole(&mut self.file, at, buf);
        self.counted(count)
    }

    fn write_at(&mut self, at: usize, bytes: &[u8]) -> Result<(), DiskError> {
        let written = self.file.write_all_at(at as u64, bytes);
        self.counted(written)
    }

    fn sync(&mut self) -> Result<(), DiskError> {
        let synced = self.file.sync_all();
        self.counted(synced)
    }
}
