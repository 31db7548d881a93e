//! The state of a disk in memory, and the effect of its calls.
use crate::disk::DiskError;
use crate::lengths::DISK_LENGTH;
use crate::tearing::tear;

/// The calls of a disk.
#[derive(Clone, Copy, Debug, PartialEq, Eq, Hash)]
pub enum DiskCall {
    /// `Disk::read`.
    Read,
    /// `Disk::write_at`.
    Write,
    /// `Disk::sync`.
    Sync,
}

/// The state of a disk in memory. The file is the first `len` bytes of `bytes`; at the last sync it was the first
/// `synced_len` bytes of `synced`. `written` marks the bytes that were written since, up to `reach`: the end of the
/// furthest write since, or the length at the last sync if that is greater.
#[derive(Clone, Copy, Debug)]
pub struct State {
    pub bytes: [u8; DISK_LENGTH],
    pub len: usize,
    pub synced: [u8; DISK_LENGTH],
    pub synced_len: usize,
    pub written: [bool; DISK_LENGTH],
    pub reach: usize,
    /// The next read fails.
    pub read_fails: bool,
    /// The next write fails.
    pub write_fails: bool,
    /// The next sync fails.
    pub sync_fails: bool,
    /// How many calls have failed, at most 2^64 - 1.
    pub failures: u64,
}

impl State {
    ghost use Rattle.std.specs.Prelude.{◌≡◌, ◌≤◌, take, length, List, ◌++◌, replicate, false};
    ghost use Rattle.tora_life.specs.State.{IsWhole, read_answer, bytes_read, after_read, write_answer, after_write};
    ghost use Rattle.tora_life.specs.State.{sync_answer, after_sync, armed, after_crash};

    /// The state of a file that is wholly on the disk, with no call armed.
    pub fn fresh(bytes: [u8; DISK_LENGTH], len: usize) -> State
        ensures { result ≡ record {
          bytes = bytes;
          len = len;
          synced = bytes;
          synced_len = len;
          written = replicate DISK_LENGTH false;
          reach = len;
          read_fails = false;
          write_fails = false;
          sync_fails = false;
          failures = 0;
        } }
    {
        State {
            bytes,
            len,
            synced: bytes,
            synced_len: len,
            written: [false; DISK_LENGTH],
            reach: len,
            read_fails: false,
            write_fails: false,
            sync_fails: false,
            failures: 0,
        }
    }

    /// Reads the bytes of the file from the offset `at` into the front of `buf`, and returns how many there were; 0
    /// from the end of the file on. Fails once, with `buf` unchanged, if a read is armed.
    pub fn read(&mut self, at: usize, buf: &mut [u8]) -> Result<usize, DiskError>
        requires { IsWhole self.old }
        ensures answer { result ≡ read_answer self.old at buf.old }
        ensures bytes { buf.new ≡ bytes_read self.old at buf.old }
        ensures after { self.new ≡ after_read self.old }
    {
        if self.read_fails {
            self.read_fails = false;
            self.failures = self.failures.saturating_add(1);
            return Err(DiskError);
        }
        let seen = &self.bytes[..self.len];
        let there = &seen[at.min(self.len)..];
        let count = there.len().min(buf.len());
        buf[..count].copy_from_slice(&there[..count]);
        Ok(count)
    }

    /// Writes bytes at an offset. Fails, and changes no byte, if they do not fit into `DISK_LENGTH`, or if a write is
    /// armed: then a crash may tear them. After a failure no write is armed.
    pub fn write(&mut self, at: usize, bytes: &[u8]) -> Result<(), DiskError>
        requires whole { IsWhole self.old }
        requires place { at ≤ self.old.len }
        ensures answer { result ≡ write_answer self.old at bytes.now }
        ensures after { self.new ≡ after_write self.old at bytes.now }
    {
        if bytes.len() > DISK_LENGTH - at {
            self.write_fails = false;
            self.failures = self.failures.saturating_add(1);
            return Err(DiskError);
        }
        let end = at + bytes.len();
        self.written[at..end].fill(true);
        self.reach = self.reach.max(end);
        if self.write_fails {
            self.write_fails = false;
            self.failures = self.failures.saturating_add(1);
            return Err(DiskError);
        }
        self.bytes[at..end].copy_from_slice(bytes);
        self.len = self.len.max(end);
        Ok(())
    }

    /// Syncs the file: a crash cannot lose or tear what was written before. Fails once, with no effect on the bytes, if
    /// a sync is armed.
    pub fn sync(&mut self) -> Result<(), DiskError>
        ensures answer { result ≡ sync_answer self.old }
        ensures after { self.new ≡ after_sync self.old }
    {
        if self.sync_fails {
            self.sync_fails = false;
            self.failures = self.failures.saturating_add(1);
            return Err(DiskError);
        }
        self.synced = self.bytes;
        self.synced_len = self.len;
        self.written = [false; DISK_LENGTH];
        self.reach = self.len;
        Ok(())
    }

    /// Arms the next call of this kind to fail.
    pub fn arm(&mut self, call: DiskCall)
        ensures { self.new ≡ armed call self.old }
    {
        match call {
            DiskCall::Read => self.read_fails = true,
            DiskCall::Write => self.write_fails = true,
            DiskCall::Sync => self.sync_fails = true,
        }
    }

    /// Crashes the disk. `None`: the file becomes what it was at the last sync. `Some`: it also extends to `reach`, and
    /// each byte written since is replaced by the torn byte at its offset modulo 16.
    pub fn crash(&mut self, torn: Option<[u8; 16]>)
        requires { IsWhole self.old }
        ensures { self.new ≡ after_crash torn self.old }
    {
        match torn {
            None => {
                self.bytes = self.synced;
                self.len = self.synced_len;
            }
            Some(torn) => {
                self.bytes = self.synced;
                tear(&torn, &self.written[..self.reach], &mut self.bytes);
                self.len = self.reach;
            }
        }
    }
}
