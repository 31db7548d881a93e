//! The thread of a neighbour, over wires and disks in memory.
ghost use Rattle.std.specs.Prelude.{◌≡◌, ◌≢◌, ◌<◌};
ghost use Rattle.tora_arq.specs.LinkEnd.{first_end};

use super::sees::{ends, same, same_at, sees, there};
use std::alloc::{AllocError, Global};
use std::process::Abort;
use std::sync::Wait;
use tora_arq::{Life, LinkEnd, Reason, Times, Verdict};
use tora_frame::FrameError;
use tora_height::Id;
use tora_lane::{Cargo, What};
use tora_life::{Disk, DiskCall, LifeError, LifeFile, MemDisk};
use tora_neighbour::*;

mod datagrams;
mod documented;
mod life_files;
mod runs;
mod sockets;

// A clock that advances by a number of ticks each time it is read.
#[derive(Drop)]
struct Leaping {
    now: u64,
    step: u64,
}

impl Clock for Leaping {
    ghost did_tell = { λ c tick after. Unit {0} };

    fn now(&mut self) -> u64 {
        let now = self.now;
        self.now = now.wrapping_add(self.step);
        now
    }
}

/// A clock at tick 0 that advances by `step` ticks each time it is read.
fn clock_of(step: u64) -> Leaping {
    Leaping { now: 0, step }
}

// The bytes of a frame of version 1 to node 1, by the table of formats. `kind` is 1 for HELLO, 2 for DATA and 3 for
// ACK; `life` is the sender's session number, and `heard` the one that it has heard, 0 for none.
fn frame_bytes(
    alloc: Global,
    kind: u8,
    sender: u32,
    life: u64,
    heard: u64,
    payload: &[u8],
) -> Result<Vec<u8>, AllocError> {
    let mut bytes = Vec::new(alloc);
    let length = u16::try_from(payload.len()).unwrap_or(0);
    bytes.extend_from_slice(&[1, kind])?;
    bytes.extend_from_slice(&length.to_be_bytes())?;
    bytes.extend_from_slice(&sender.to_be_bytes())?;
    bytes.extend_from_slice(&1u32.to_be_bytes())?;
    bytes.extend_from_slice(&life.to_be_bytes())?;
    bytes.extend_from_slice(&heard.to_be_bytes())?;
    bytes.extend_from_slice(payload)?;
    Ok(bytes)
}

// A HELLO of node 2 to node 1, with the sender's session number and the one that it has heard, 0 for none.
fn hello(alloc: Global, life: u64, heard: u64) -> Result<Vec<u8>, AllocError> {
    frame_bytes(alloc, 1, 2, life, heard, &[])
}

/// A new end of node `me` to node `peer`, closed, with the standard times. The test fails if memory runs out.
fn end_of(rt: &impl Abort, alloc: Global, me: Id, peer: Id) -> LinkEnd
    requires me { 0 < me }
    requires peer { 0 < peer }
    requires other { me ≢ peer }
    ensures { result.state ≡ first_end }
{
    LinkEnd::new(alloc, me, peer, Times::STANDARD).expect(rt, "memory")
}

/// Opens the life file of node 1 and peer 2 on a disk. The test fails if it does not open.
fn file_of(rt: &impl Abort, disk: MemDisk) -> LifeFile<MemDisk> {
    match LifeFile::open(disk, 1, 2) {
        Ok(file) => file,
        Err(fault) => panic!(rt; "the file does not open: {:?}", fault.error),
    }
}

// The end of node `me` to node `peer`, opened at tick 0 with the session number `life`. It has no event to poll.
fn open_end(rt: &impl Abort, alloc: Global, me: Id, peer: Id, life: u64) -> LinkEnd
    requires me { 0 < me }
    requires peer { 0 < peer }
    requires other { me ≢ peer }
    requires life { (0 < life) × (life < 100) }
{
    let mut end = end_of(rt, alloc, me, peer);
    assert!(rt; end.is_closed());
    assert!(rt; end.last_life() < life);
    end.open(life, 0);
    end
}

// Passes a datagram to an end at tick 0, and checks that the result of `take_in` is `wanted`.
fn takes(
    rt: &impl Abort,
    end: &mut LinkEnd,
    tally: &mut Tally,
    datagram: &[u8],
    wanted: Intake,
    what: &str,
) {
    same(rt, &take_in(end, tally, datagram, 0), &wanted, what);
}

// The number of datagrams that were counted, under all verdicts and as bad frames.
pub(super) fn total(tally: &Tally) -> u64 {
    let mut sum = 0u64;
    for verdict in [
        Verdict::Accepted,
        Verdict::Repeated,
        Verdict::Ahead,
        Verdict::Stale,
        Verdict::Foreign,
        Verdict::Busy,
    ] {
        sum = sum.saturating_add(tally.of_verdict(verdict));
    }
    for n in 0..=255u8 {
        sum = sum.saturating_add(tally.of_bad(n));
    }
    sum
}
