//! The inputs, outputs and wires of the nodes in a test.
ghost use Rattle.std.specs.Prelude.{◌≤◌};

use std::io::{self, Read, Write};
use std::sync::atomic::{AtomicU64, Ordering};
use std::time::Duration;
use std::{thread, time};
use tora_neighbour::{Wire, WireError};

/// The line that `show` prints if the core of node 3 has a route to node 4, its neighbour.
const FOUND: &[u8] = b"to 4 height (0,0,0,1,3) flag 0 hop 4";

/// What the two nodes of a test share.
#[derive(Drop)]
pub struct Course {
    /// 1 after something was printed.
    pub printed: AtomicU64,
    /// 1 after the route was printed.
    pub found: AtomicU64,
}

/// An output that looks for the route in what a node prints.
#[derive(Drop)]
pub struct Screen<'a> {
    pub course: &'a Course,
}

impl Write for Screen<'_> {
    fn write(&mut self, buf: &[u8]) -> io::Result<usize> {
        if buf.windows(FOUND.len()).any(|part| part == FOUND) {
            self.course.found.store(1, Ordering::SeqCst);
        }
        self.course.printed.store(1, Ordering::SeqCst);
        Ok(buf.len())
    }

    fn flush(&mut self) -> io::Result<()> {
        Ok(())
    }
}

/// Commands: the lines `first`, and then `show` every 100 ms until the route is found, at most a hundred times. Then
/// the input ends.
#[derive(Drop)]
pub struct Asking<'a, R> {
    pub rt: &'a R,
    pub first: &'a [u8],
    pub course: &'a Course,
    pub asked: u64,
}

impl<R: time::Clock> Read for Asking<'_, R> {
    fn read(&mut self, buf: &mut [u8]) -> io::Result<usize> {
        let text: &[u8] = if self.asked == 0 {
            self.first
        } else if self.asked <= 100 && self.course.found.load(Ordering::SeqCst) == 0 {
            thread::sleep(self.rt, Duration::from_millis(100));
            b"show\n"
        } else {
            return Ok(0);
        };
        self.asked = self.asked.saturating_add(1);
        let count = text.len().min(buf.len());
        for (to, from) in buf.iter_mut().zip(text) {
            *to = *from;
        }
        Ok(count)
    }
}

/// A wire on which nothing arrives. Its first `receive` sets `own` to 1 and waits until `other` is 1, at most 10 s: the
/// other wire's first `receive` has begun. If so, `met` rises by 1.
#[derive(Drop)]
pub struct Meeting<'a, R> {
    pub rt: &'a R,
    pub own: &'a AtomicU64,
    pub other: &'a AtomicU64,
    pub met: &'a AtomicU64,
}

impl<R: time::Clock> Wire for Meeting<'_, R> {
    ghost use Rattle.std.specs.Prelude.{false, []};

    ghost tells = { λ w. false };

    ghost coming = { λ w. [] };

    ghost tries = { λ w. [] };

    ghost failures = { λ w. 0 };

    ghost did_send = { λ w bytes answer after. Unit {0} };

    ghost did_receive = { λ w answer buffer after. Unit {0} };

    fn send(&mut self, _bytes: &[u8]) -> Result<(), WireError> {
        Ok(())
    }

    fn receive(&mut self, _buf: &mut [u8]) -> Result<Option<usize>, WireError> {
        if self.own.swap(1, Ordering::SeqCst) == 0 {
            for _ in 0..10_000 {
                if self.other.load(Ordering::SeqCst) == 1 {
                    self.met.fetch_add(1, Ordering::SeqCst);
                    break;
                }
                thread::sleep(self.rt, Duration::from_millis(1));
            }
        }
        Ok(None)
    }
}

/// An input without commands, which ends once both wires have met (`met` is 2), or after ten seconds.
#[derive(Drop)]
pub struct Waiting<'a, R> {
    pub rt: &'a R,
    pub met: &'a AtomicU64,
}

impl<R: time::Clock> Read for Waiting<'_, R> {
    fn read(&mut self, _buf: &mut [u8]) -> io::Result<usize> {
        for _ in 0..100 {
            if self.met.load(Ordering::SeqCst) == 2 {
                break;
            }
            thread::sleep(self.rt, Duration::from_millis(100));
        }
        Ok(0)
    }
}

/// An output of at most 640 bytes. Once they are full, a write accepts 0 bytes.
#[derive(Drop)]
pub struct Page {
    pub bytes: [u8; 640],
    pub length: usize,
    ghost within: { length ≤ 640 },
}

impl Write for Page {
    fn write(&mut self, buf: &[u8]) -> io::Result<usize> {
        let room = &mut self.bytes[self.length..];
        let count = room.len().min(buf.len());
        room[..count].copy_from_slice(&buf[..count]);
        self.length += count;
        Ok(count)
    }

    fn flush(&mut self) -> io::Result<()> {
        Ok(())
    }
}
