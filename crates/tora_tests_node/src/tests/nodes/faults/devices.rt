//! The wires, commands, outputs and disks of the nodes in the tests of faults, tallies and files.
ghost use Rattle.std.specs.Prelude.{◌≡◌};

use super::super::byte_disk::ByteDisk;
use super::super::streams::Page;
use std::io::{self, Error, ErrorKind, Read, Write};
use std::sync::atomic::{AtomicU64, Ordering};
use std::time::Duration;
use std::{thread, time};
use tora_life::{Disk, DiskError};
use tora_neighbour::{Wire, WireError};

/// Waits until this many wires are idle or broken, at most 10 s.
fn wait_for<R: time::Clock>(rt: &R, settled: &AtomicU64, count: u64) {
    for _ in 0..10_000 {
        if settled.load(Ordering::SeqCst) >= count {
            return;
        }
        thread::sleep(rt, Duration::from_millis(1));
    }
}

/// A wrapper of a wire that adds 1 to `settled` once, when the wire is idle or broken: a receive found no datagram, or
/// a hundred of its calls in a row failed.
#[derive(Drop)]
pub struct Settling<'a, R, W: Wire> {
    pub rt: &'a R,
    pub wire: W,
    /// How many wires must be idle or broken before its calls return.
    pub after: u64,
    /// How many wires are idle or broken.
    pub settled: &'a AtomicU64,
    pub failed: u64,
    pub is_settled: bool,
}

impl<'a, R: time::Clock, W: Wire> Settling<'a, R, W> {
    /// Waits until `after` wires are idle or broken.
    fn wait(&self) {
        wait_for(self.rt, self.settled, self.after);
    }

    /// Records a call: whether it failed, and whether it was a receive that found no datagram. After the latter it
    /// sleeps for 1 ms.
    fn note(&mut self, has_failed: bool, is_empty: bool)
        ensures { self.new.wire ≡ self.old.wire }
    {
        self.failed = if has_failed {
            self.failed.saturating_add(1)
        } else {
            0
        };
        if !self.is_settled && (is_empty || self.failed == 100) {
            self.is_settled = true;
            self.settled.fetch_add(1, Ordering::SeqCst);
        }
        if is_empty {
            thread::sleep(self.rt, Duration::from_millis(1));
        }
    }
}

impl<R: time::Clock, W: Wire> Wire for Settling<'_, R, W> {
    ghost use Rattle.std.specs.Prelude.{false, []};

    ghost tells = { λ w. false };

    ghost coming = { λ w. [] };

    ghost tries = { λ w. [] };

    ghost failures = { λ w. W.failures w.wire };

    ghost did_send = { λ w bytes answer after. Unit {0} };

    ghost did_receive = { λ w answer buffer after. Unit {0} };

    fn send(&mut self, bytes: &[u8]) -> Result<(), WireError> {
        self.wait();
        let answer = self.wire.send(bytes);
        self.note(answer.is_err(), false);
        answer
    }

    fn receive(&mut self, buf: &mut [u8]) -> Result<Option<usize>, WireError> {
        self.wait();
        let answer = self.wire.receive(buf);
        self.note(answer.is_err(), answer == Ok(None));
        answer
    }
}

/// The bytes `commands`, which arrive 50 ms after `count` wires are idle or broken, and then the end of the input. A
/// node that ends by itself has ended by then.
#[derive(Drop)]
pub struct Settled<'a, R> {
    pub rt: &'a R,
    pub settled: &'a AtomicU64,
    pub count: u64,
    pub commands: &'static [u8],
}

impl<R: time::Clock> Read for Settled<'_, R> {
    fn read(&mut self, buf: &mut [u8]) -> io::Result<usize> {
        wait_for(self.rt, self.settled, self.count);
        thread::sleep(self.rt, Duration::from_millis(50));
        let count = self.commands.len().min(buf.len());
        buf[..count].copy_from_slice(&self.commands[..count]);
        self.commands = &self.commands[count..];
        Ok(count)
    }
}

/// The behaviour of an output.
#[derive(Clone, Copy, Debug)]
pub enum Output {
    /// All writes succeed.
    Whole,
    /// Writes write nothing.
    Full,
    /// Writes fail.
    NoWrite,
    /// Writes succeed, and flushes fail.
    NoFlush,
}

/// An output that stores what is printed if writes succeed.
#[derive(Drop)]
pub struct Paper {
    pub page: Page,
    pub output: Output,
}

impl Write for Paper {
    fn write(&mut self, buf: &[u8]) -> io::Result<usize> {
        match self.output {
            Output::Full => Ok(0),
            Output::NoWrite => Err(Error::from(ErrorKind::BrokenPipe)),
            Output::Whole | Output::NoFlush => self.page.write(buf),
        }
    }

    fn flush(&mut self) -> io::Result<()> {
        match self.output {
            Output::NoFlush => Err(Error::from(ErrorKind::BrokenPipe)),
            _ => Ok(()),
        }
    }
}

/// The bytes 32 to 63 of a disk, as four numbers.
#[derive(Drop)]
pub struct Tag {
    pub words: [AtomicU64; 4],
}

impl Tag {
    /// A tag of zeros.
    pub fn new() -> Tag {
        Tag {
            words: [
                AtomicU64::new(0),
                AtomicU64::new(0),
                AtomicU64::new(0),
                AtomicU64::new(0),
            ],
        }
    }

    /// The bytes 32 to 63 of the disk at its last sync, as four numbers; zeros before the first sync.
    pub fn get(&self) -> [u64; 4] {
        [
            self.words[0].load(Ordering::SeqCst),
            self.words[1].load(Ordering::SeqCst),
            self.words[2].load(Ordering::SeqCst),
            self.words[3].load(Ordering::SeqCst),
        ]
    }
}

/// A disk that copies its bytes 32 to 63 to a shared tag at each sync.
#[derive(Drop)]
pub struct Shown<'a> {
    pub disk: ByteDisk,
    pub tag: &'a Tag,
}

impl Disk for Shown<'_> {
    ghost use Rattle.std.specs.Prelude.{[], false};
    ghost use Rattle.std.proofs.Common.{rules};

    ghost tells = { λ d. false };

    ghost seen = { λ d. [] };

    ghost may_leave = { λ d c. ⊥ };

    ghost moment = { λ d. 0 };

    ghost left_since = { λ d t c. ⊥ };

    ghost failures = { λ d. 0 };

    ghost reads = { λ d at buf answer bytes new. Unit {0} };

    ghost writes = { λ d at bytes answer new. Unit {0} };

    ghost syncs = { λ d answer new. Unit {0} };

    ghost seen_may_stay = { Prim.search rules };

    ghost counts_now = { λ d t c le now. now };

    ghost only_now = { λ d c left. left };

    fn read(&mut self, at: usize, buf: &mut [u8]) -> Result<usize, DiskError> {
        self.disk.read(at, buf)
    }

    fn write_at(&mut self, at: usize, bytes: &[u8]) -> Result<(), DiskError> {
        self.disk.write_at(at, bytes)
    }

    fn sync(&mut self) -> Result<(), DiskError> {
        for (word, number) in self.tag.words.iter().zip(self.disk.tag()) {
            word.store(number, Ordering::SeqCst);
        }
        self.disk.sync()
    }
}
