//! The steps of a test over a life file of node 1 and peer 2, and the functions that make them.
use super::super::sees::{ends, same_at, same_bytes};
use std::process::Abort;
use tora_life::{Disk, DiskCall, LifeError, LifeFile, MemDisk, OpenFault};

/// A step of a test over a file on a disk in memory.
pub enum Step {
    /// Draws the numbers from the first to below the second.
    Draws(u64, u64),
    /// A draw fails for this reason.
    Fails(LifeError),
    /// Arms the next call of this kind at the disk to fail.
    Arms(DiskCall),
    /// Closes the file and opens it again.
    Reopens,
    /// Closes the file, crashes its disk, and opens it again. These bytes take the place of those that were not synced;
    /// with `None` the file is as at its last sync.
    Crashes(Option<[u8; 16]>),
    /// Closes the file, checks that the disk has exactly these bytes, and opens it again.
    Holds(&'static [u8]),
}

/// Makes the steps of each row, over a file with these bytes.
pub fn each_goes(rt: &impl Abort, rows: &[(&str, &[u8], &[Step])]) {
    for (row, bytes, steps) in rows {
        let mut file = opened(rt, disk_of(rt, bytes));
        for (at, step) in steps.iter().enumerate() {
            file = goes(rt, file, step, row, at);
        }
    }
}

/// Makes one step, and returns the file after it.
fn goes(
    rt: &impl Abort,
    file: LifeFile<MemDisk>,
    step: &Step,
    row: &str,
    at: usize,
) -> LifeFile<MemDisk> {
    let mut file = file;
    match step {
        Step::Draws(from, to) => draws(rt, &mut file, *from, *to, row),
        Step::Fails(error) => same_at(rt, &file.draw(), &Err(*error), row, &at),
        Step::Arms(call) => file.arm(*call),
        Step::Reopens => return opened(rt, file.close()),
        Step::Crashes(torn) => {
            let mut disk = file.close();
            disk.crash(*torn);
            return opened(rt, disk);
        }
        Step::Holds(bytes) => {
            let disk = file.close();
            same_bytes(rt, disk.bytes(), bytes, row);
            return opened(rt, disk);
        }
    }
    file
}

/// Draws from a file, and checks that the numbers are those from `from` to `to` - 1.
pub fn draws<D: Disk + Drop>(
    rt: &impl Abort,
    file: &mut LifeFile<D>,
    from: u64,
    to: u64,
    what: &str,
) {
    for n in from..to {
        same_at(rt, &file.draw(), &Ok(n), what, &n);
    }
}

/// Checks that the next draw fails with `Disk`, and the one after it with `Failed`.
pub fn fails<D: Disk + Drop>(rt: &impl Abort, file: &mut LifeFile<D>, k: u64) {
    for error in [LifeError::Disk, LifeError::Failed] {
        same_at(rt, &file.draw(), &Err(error), "a draw that fails", &k);
    }
}

/// The disk with a file of these bytes; the test fails if there are more than 80.
pub fn disk_of(rt: &impl Abort, bytes: &[u8]) -> MemDisk {
    MemDisk::of(bytes).expect(rt, "80 bytes at most")
}

/// Fails the test: a file did not open.
pub fn not_opened(rt: &impl Abort, error: LifeError) -> ! {
    panic!(rt; "not opened: {error:?}")
}

/// The file that was opened; the test fails if it was not.
pub fn file_in<D: Disk + Drop>(
    rt: &impl Abort,
    answer: Result<LifeFile<D>, OpenFault<D>>,
) -> LifeFile<D> {
    match answer {
        Ok(file) => file,
        Err(fault) => not_opened(rt, fault.error),
    }
}

/// Why a file did not open, with its disk; the test fails if it opened.
pub fn fault_in<D: Disk + Drop>(
    rt: &impl Abort,
    answer: Result<LifeFile<D>, OpenFault<D>>,
) -> OpenFault<D> {
    match answer {
        Ok(_) => ends(rt, "opened"),
        Err(fault) => fault,
    }
}

/// Opens the file of node 1 and peer 2 on this disk; the test fails if it does not open.
pub fn opened<D: Disk + Drop>(rt: &impl Abort, disk: D) -> LifeFile<D> {
    file_in(rt, LifeFile::open(disk, 1, 2))
}

/// Why the file of node 1 and peer 2 on this disk does not open; the test fails if it opens.
pub fn refused<D: Disk + Drop>(rt: &impl Abort, disk: D) -> OpenFault<D> {
    fault_in(rt, LifeFile::open(disk, 1, 2))
}

/// The first number that is drawn from a file with these bytes, or the error at its opening or its draw.
pub fn first_draw(rt: &impl Abort, bytes: &[u8]) -> Result<u64, LifeError> {
    match LifeFile::open(disk_of(rt, bytes), 1, 2) {
        Ok(mut file) => file.draw(),
        Err(fault) => Err(fault.error),
    }
}

/// Checks the first number drawn from the file of each row, or the error.
pub fn first_draws(rt: &impl Abort, rows: &[(&str, &[u8], Result<u64, LifeError>)]) {
    for (row, bytes, wanted) in rows {
        same_at(rt, &first_draw(rt, bytes), wanted, "the first draw", row);
    }
}
