//! Files by their paths, with calls whose results can be named in contracts.
ghost use Rattle.std.specs.Prelude.{◌≡◌, List, ℕ, Result, Ok, Err, IfOk, IfErr, IfSome, string_bytes};
ghost use Rattle.std.specs.declared.io.Error.{Error};
ghost use Rattle.std.specs.Io.{ReadsAtMost};
ghost use Rattle.std.specs.Io.KnownBytes.{ReadConsumes};
ghost use Rattle.tora_lines.specs.Reads.{Given, given_by, Gives};
ghost use Rattle.tora_simulate.specs.Paths.{IsRead, IsUnread};

use std::alloc::Global;
use std::io::Read;
use std::rt::Files;
use std::{fs, io};
use tora_lines::Input;

/// Files by their paths. A contract can name the file or the error that a call returned. Every `Files` implements it.
pub trait Paths: Files {
    /// Whether opening the file at a path can have this result.
    ghost did_open: { Self → List ℕ → Result Self.File Error → Type 0 };

    /// Whether creating the file at a path can have this result.
    ghost did_create: { Self → List ℕ → Result Self.File Error → Type 0 };

    /// Whether reading a file to its end can have this result.
    ghost did_read: { Self.File → Result (List ℕ) Error → Type 0 };

    /// Whether one read of a file can return these bytes or this error, and leave this file.
    ghost did_get: { Self.File → Given → Self.File → Type 0 };

    /// Opens the file at a path, to read it.
    fn open_path(&self, path: &str) -> io::Result<Self::File>
        ensures { did_open self.now path.now result };

    /// Creates the file at a path for writing, and empties it if it exists.
    fn create_path(&self, path: &str) -> io::Result<Self::File>
        ensures { did_create self.now path.now result };

    /// Reads a file to its end.
    fn read_bytes(&self, alloc: Global, file: Self::File) -> io::Result<Vec<u8>>
        ensures read { IfOk result (λ bytes. did_read file (Ok bytes.items)) }
        ensures failed { IfErr result (λ error. did_read file (Err error)) }
        ensures bytes { IfOk result (λ bytes. IfSome (Self.File.remaining file) (λ input. bytes.items ≡ input)) };

    /// Reads a file to its end as a text. Fails also if it is not UTF-8.
    fn read_text(&self, alloc: Global, file: Self::File) -> io::Result<String>
        ensures read { IfOk result (λ text. did_read file (Ok (string_bytes text))) }
        ensures failed { IfErr result (λ error. did_read file (Err error)) }
        ensures bytes { IfOk result (λ text. IfSome (Self.File.remaining file) (λ input. string_bytes text ≡ input)) };

    /// Reads some bytes of a file into the front of `buf`, as `Input::get_some` does.
    fn get_some_of(&self, file: &mut Self::File, buf: &mut [u8]) -> io::Result<usize>
        ensures call { did_get file.old (given_by result buf.new) file.new }
        ensures bound { ReadsAtMost result buf.new }
        ensures bytes { ReadConsumes (Self.File.remaining file.old) (Self.File.remaining file.new) result buf.new };
}

impl<T: Files> Paths for T {
    ghost did_open = { λ files path result. Unit {0} };

    ghost did_create = { λ files path result. Unit {0} };

    ghost did_read = { λ file result. Unit {0} };

    ghost did_get = { λ file given after. Gives (T.File.remaining file) given (T.File.remaining after) };

    fn open_path(&self, path: &str) -> io::Result<T::File> {
        fs::open(self, path)
    }

    fn create_path(&self, path: &str) -> io::Result<T::File> {
        fs::create(self, path)
    }

    fn read_bytes(&self, alloc: Global, file: T::File) -> io::Result<Vec<u8>> {
        let mut file = file;
        let mut bytes = Vec::new(alloc);
        file.read_to_end(&mut bytes)?;
        Ok(bytes)
    }

    fn read_text(&self, alloc: Global, file: T::File) -> io::Result<String> {
        io::read_to_string(alloc, file)
    }

    fn get_some_of(&self, file: &mut T::File, buf: &mut [u8]) -> io::Result<usize> {
        file.read(buf)
    }
}

/// A file that was opened by its path, as a reader whose calls can be named in contracts.
#[derive(Drop)]
pub struct Opened<'a, T: Paths> {
    rt: &'a T,
    pub file: T::File,
}

impl<'a, T: Paths> Opened<'a, T> {
    /// A reader of this file, from the position that the file has.
    pub fn new(rt: &'a T, file: T::File) -> Opened<'a, T>
        ensures { result.file ≡ file }
    {
        Opened { rt, file }
    }
}

impl<T: Paths> Input for Opened<'_, T> {
    ghost remaining = { λ opened. T.File.remaining opened.file };

    ghost did_read = { λ old given new. T.did_get old.file given new.file };

    fn get_some(&mut self, buf: &mut [u8]) -> io::Result<usize> {
        self.rt.get_some_of(&mut self.file, buf)
    }
}

/// The bytes of the file at a path.
pub fn bytes_at<T: Paths>(rt: &T, alloc: Global, path: &str) -> io::Result<Vec<u8>>
    ensures read { IfOk result (λ bytes. IsRead (T.did_open rt.now path.now) T.did_read T.File.remaining bytes.items) }
    ensures failed { IfErr result (IsUnread (T.did_open rt.now path.now) T.did_read) }
{
    let file = rt.open_path(path)?;
    rt.read_bytes(alloc, file)
}

/// The text of the file at a path. Fails if the file cannot be opened or read, or is not UTF-8.
pub fn text_at<T: Paths>(rt: &T, alloc: Global, path: &str) -> io::Result<String>
    ensures read { IfOk result (λ text. IsRead (T.did_open rt.now path.now) T.did_read T.File.remaining
        (string_bytes text)) }
    ensures failed { IfErr result (IsUnread (T.did_open rt.now path.now) T.did_read) }
{
    let file = rt.open_path(path)?;
    rt.read_text(alloc, file)
}
