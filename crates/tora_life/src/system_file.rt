//! Files of the operating system, with calls that contracts see.
ghost use Rattle.std.specs.Prelude.{ℕ, List, Result};
ghost use Rattle.std.specs.declared.io.Error.{Error};

use crate::whole_read::ReadFrom;
use std::fs::{File, Files, OpenOptions};
use std::io;
use std::os::unix::fs::FileExt;

/// An open file of the system. Contracts see each call: its arguments, its result, and the file after it. Only making a
/// call proves that it was made. No clause says that a file keeps what was synced.
pub trait SystemFile: ReadFrom + Drop {
    /// Whether a write of all bytes was made: old file, offset, bytes, result, new file.
    ghost did_write_all_at: { Self → ℕ → List ℕ → Result (Unit {0}) Error → Self → Type 0 };

    /// Whether a sync was made: old file, result, new file.
    ghost did_sync_all: { Self → Result (Unit {0}) Error → Self → Type 0 };

    /// Writes all of `bytes` from the offset `at` on. After an error of the system, some of them may be written.
    fn write_all_at(&mut self, at: u64, bytes: &[u8]) -> io::Result<()>
        ensures { did_write_all_at self.old at bytes.now result self.new };

    /// Syncs the bytes and the length of the file. Errors are those of the system.
    fn sync_all(&mut self) -> io::Result<()>
        ensures { did_sync_all self.old result self.new };
}

impl SystemFile for File {
    ghost did_write_all_at = { λ file at bytes answer after. Unit {0} };

    ghost did_sync_all = { λ file answer after. Unit {0} };

    fn write_all_at(&mut self, at: u64, bytes: &[u8]) -> io::Result<()> {
        FileExt::write_all_at(self, bytes, at)
    }

    fn sync_all(&mut self) -> io::Result<()> {
        File::sync_all(self)
    }
}

/// The files of the system. Contracts see each call, as with `SystemFile`, and the order of the calls, because each
/// call leads to the next state. Every `Files` with files of the system implements it.
pub trait SystemFiles: Drop {
    /// An open file.
    type File: SystemFile;

    /// Whether a file was opened or created: old files, path, result, new files.
    ghost did_open_file: { Self → List ℕ → Result Self.File Error → Self → Type 0 };

    /// Whether a directory was opened: old files, path, result, new files.
    ghost did_open_folder: { Self → List ℕ → Result Self.File Error → Self → Type 0 };

    /// Whether a file was locked: old files, old file, result, new file, new files.
    ghost did_lock: { Self → Self.File → Result (Unit {0}) Error → Self.File → Self → Type 0 };

    /// Whether a file or a directory was synced: old files, old file, result, new file, new files.
    ghost did_sync_all: { Self → Self.File → Result (Unit {0}) Error → Self.File → Self → Type 0 };

    /// Opens the file at a path for reading and writing. A missing file is created empty. Errors are those of the
    /// system.
    fn open_file_at(&mut self, path: &str) -> io::Result<Self::File>
        ensures { did_open_file self.old path.now result self.new };

    /// Opens the directory at a path, for `sync_all_of`. Errors are those of the system.
    fn open_folder_at(&mut self, path: &str) -> io::Result<Self::File>
        ensures { did_open_folder self.old path.now result self.new };

    /// Locks a file for as long as it is open. If it is locked already, the call does not wait: the error is
    /// `WouldBlock`.
    fn lock(&mut self, file: &mut Self::File) -> io::Result<()>
        ensures { did_lock self.old file.old result file.new self.new };

    /// Syncs a file or a directory. Errors are those of the system.
    fn sync_all_of(&mut self, file: &mut Self::File) -> io::Result<()>
        ensures { did_sync_all self.old file.old result file.new self.new };
}

impl<R: Files<File = File> + Drop> SystemFiles for R {
    type File = File;

    ghost did_open_file = { λ files path answer after. Unit {0} };

    ghost did_open_folder = { λ files path answer after. Unit {0} };

    ghost did_lock = { λ files file answer locked after. Unit {0} };

    ghost did_sync_all = { λ files file answer synced after. Unit {0} };

    fn open_file_at(&mut self, path: &str) -> io::Result<File> {
        let mut how = OpenOptions::new();
        how.read(true).write(true).create(true).open(&*self, path)
    }

    fn open_folder_at(&mut self, path: &str) -> io::Result<File> {
        File::open(&*self, path)
    }

    fn lock(&mut self, file: &mut File) -> io::Result<()> {
        Ok(file.try_lock()?)
    }

    fn sync_all_of(&mut self, file: &mut File) -> io::Result<()> {
        File::sync_all(file)
    }
}
