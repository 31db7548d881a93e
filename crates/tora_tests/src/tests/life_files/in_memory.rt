//! On a disk in memory, the results of a life file are a function of its numbers and the state of the disk.
ghost use Rattle.std.specs.Prelude.{◌≡◌, ◌≢◌, ◌<◌, ◌≤◌, Ok, Err, IfOk, IfErr};
ghost use Rattle.tora_life.specs.Numbers.{numbers_after};
ghost use Rattle.tora_life.specs.InMemory.{open_answer, open_state, draw_answer, draw_state};

use super::super::sees::same;
use super::steps::{file_in, not_opened};
use std::test::Fail;
use tora_life::{LifeError, LifeFile, MemDisk, OpenFault};

/// Opens a life file. Its contract states that the result and the state of the disk afterwards depend only on the owner
/// and the state of the disk before.
fn open_in_memory(
    disk: MemDisk,
    me: u32,
    peer: u32,
) -> Result<LifeFile<MemDisk>, OpenFault<MemDisk>>
    requires me { 0 < me }
    requires peer { 0 < peer }
    requires distinct { me ≢ peer }
    ensures owner { IfOk result (λ file. file.owner ≡ record { node = me; peer = peer }) }
    ensures ok { IfOk result (λ file. (open_answer (record { node = me; peer = peer }) disk.state ≡ Ok file.numbers)
        × (file.disk.state ≡ open_state (record { node = me; peer = peer }) disk.state)) }
    ensures err { IfErr result (λ fault. (open_answer (record { node = me; peer = peer }) disk.state ≡ Err fault.error)
        × (fault.disk.state ≡ open_state (record { node = me; peer = peer }) disk.state)) }
{
    LifeFile::open(disk, me, peer)
}

/// Draws a number. Its contract states that the result, the numbers and the state of the disk afterwards depend only on
/// the numbers and the state of the disk before.
fn draw_in_memory(file: &mut LifeFile<MemDisk>) -> Result<u64, LifeError>
    ensures answer { result ≡ draw_answer file.old.numbers file.old.disk.state }
    ensures owner { file.new.owner ≡ file.old.owner }
    ensures disk { file.new.disk.state ≡ draw_state file.old.numbers file.old.disk.state }
    ensures numbers { file.new.numbers ≡ numbers_after (draw_answer file.old.numbers file.old.disk.state)
        file.old.numbers }
{
    file.draw()
}

// Closes the file, crashes its disk, with `torn` in place of the bytes that were not synced, and opens it again. No
// number is drawn again, and the only error is `Disk`, if a call of the disk fails.
fn restart(
    file: LifeFile<MemDisk>,
    torn: Option<[u8; 16]>,
    me: u32,
    peer: u32,
) -> Result<LifeFile<MemDisk>, OpenFault<MemDisk>>
    requires me { 0 < me }
    requires peer { 0 < peer }
    requires distinct { me ≢ peer }
    requires owner { file.owner ≡ record { node = me; peer = peer } }
    ensures rises { IfOk result (λ opened. file.numbers.drawn ≤ opened.numbers.drawn) }
    ensures opens { IfErr result (λ fault. fault.error ≡ LifeError.Disk) }
{
    let mut disk = file.close();
    disk.crash(torn);
    LifeFile::open(disk, me, peer)
}

#[test]
fn a_restart_draws_on(rt: HostRuntime) -> Result<(), Fail> {
    let mut file = match open_in_memory(MemDisk::new(), 1, 2) {
        Ok(file) => file,
        Err(fault) => not_opened(&rt, fault.error),
    };
    same(&rt, &draw_in_memory(&mut file), &Ok(1), "the first draw");
    let mut file = file_in(&rt, restart(file, Some([9; 16]), 1, 2));
    same(&rt, &draw_in_memory(&mut file), &Ok(17), "the next draw");
    Ok(())
}
