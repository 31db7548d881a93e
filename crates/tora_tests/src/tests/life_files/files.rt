//! Life files in a real directory.
use super::super::sees::{same, same_at, sees};
use super::steps::refused;
use std::fs::{self, File, Files};
use std::io::ErrorKind;
use std::process::Abort;
use std::test::Fail;
use tora_life::{Disk, DiskError, FileDisk, LifeError, LifeFile};

const FOLDER: &str = "tora_life_test";

const PATH: &str = "tora_life_test/life-2";

const OTHER_FOLDER: &str = "tora_life_places_test";

const OTHER_PATH: &str = "tora_life_places_test/life-3";

const LOCKED_FOLDER: &str = "tora_life_locked_test";

const LOCKED_PATH: &str = "tora_life_locked_test/life-2";

/// Opens the life file at `PATH` for node 1 and peer 2. An error ends the test.
fn opened<R: Files<File = File>>(rt: &R) -> Result<LifeFile<FileDisk>, Fail> {
    Ok(LifeFile::open(FileDisk::open(rt, PATH)?, 1, 2)?)
}

// Removes the directory at this path, if there is one, and makes an empty one.
fn make_folder<R: Alloc + Files<File = File>>(rt: &R, folder: &str) -> Result<(), Fail> {
    let _ = fs::remove_dir_all(rt, folder);
    Ok(fs::create_dir(rt, folder)?)
}

// Draws `count` numbers, checks that each is greater than `greatest` and all before it, and returns the last one;
// `greatest` if `count` is 0.
fn draw_on(rt: &impl Abort, file: &mut LifeFile<FileDisk>, count: u64, greatest: u64) -> u64 {
    let mut greatest = greatest;
    for _ in 0..count {
        match file.draw() {
            Ok(n) => {
                sees(rt, n > greatest, "the next number is greater");
                greatest = n;
            }
            Err(error) => panic!(rt; "no number: {:?}", error),
        }
    }
    greatest
}

// Opens the file 20 times, and draws no number after the first opening, one after the second, and so on up to 19; all
// numbers rise. Each time the file is dropped without a close, as if the process were killed between two calls.
#[test]
fn drawn_numbers_rise_in_a_real_folder(rt: HostRuntime) -> Result<(), Fail> {
    make_folder(&rt, FOLDER)?;
    let mut greatest = 0;
    for count in 0..20 {
        greatest = draw_on(&rt, &mut opened(&rt)?, count, greatest);
    }
    same(
        &rt,
        &fs::metadata(&rt, PATH)?.len(),
        &64,
        "the size of the file",
    );
    fs::remove_dir_all(&rt, FOLDER)?;
    Ok(())
}

/// A call of a disk, and its result.
enum Call {
    /// A read at this offset into a buffer of six bytes, its result, and the buffer afterwards.
    Reads(usize, Result<usize, DiskError>, [u8; 6]),
    /// A write of bytes at this offset, and its result.
    Writes(usize, &'static [u8], Result<(), DiskError>),
    /// A sync that succeeds.
    Syncs,
}

/// The calls of a new file, which has 65 bytes in the end. All reads use one buffer, which has ones at first.
const PLACES: &[Call] = &[
    Call::Reads(0, Ok(0), [1; 6]),
    Call::Writes(0, b"abcd", Ok(())),
    Call::Writes(2, b"efg", Ok(())),
    Call::Syncs,
    Call::Reads(1, Ok(4), *b"befg\x01\x01"),
    Call::Reads(9, Ok(0), *b"befg\x01\x01"),
    Call::Reads(usize::MAX, Err(DiskError), *b"befg\x01\x01"),
    Call::Writes(usize::MAX, b"h", Err(DiskError)),
    Call::Writes(5, &[0; 60], Ok(())),
];

/// Makes the calls in order, and checks the result of each.
fn each_answers(rt: &impl Abort, disk: &mut FileDisk, calls: &[Call]) {
    let mut bytes = [1; 6];
    for (at, call) in calls.iter().enumerate() {
        match call {
            Call::Reads(place, wanted, then) => {
                same_at(rt, &disk.read(*place, &mut bytes), wanted, "a read", &at);
                same_at(rt, &bytes, then, "the bytes that were read", &at);
            }
            Call::Writes(place, bytes, wanted) => {
                same_at(rt, &disk.write_at(*place, bytes), wanted, "a write", &at);
            }
            Call::Syncs => same_at(rt, &disk.sync(), &Ok(()), "a sync", &at),
        }
    }
}

#[test]
fn a_file_is_read_and_written_at_places(rt: HostRuntime) -> Result<(), Fail> {
    make_folder(&rt, OTHER_FOLDER)?;
    let mut disk = FileDisk::open(&rt, OTHER_PATH)?;
    each_answers(&rt, &mut disk, PLACES);
    let fault = refused(&rt, disk);
    same(&rt, &fault.error, &LifeError::Damaged, "65 bytes");
    let none = FileDisk::open(&rt, "tora_life_places_test/none/life-3");
    sees(&rt, none.is_err(), "a file in no folder");
    fs::remove_dir_all(&rt, OTHER_FOLDER)?;
    Ok(())
}

/// Whether the file at `LOCKED_PATH` can be opened, in which case it is closed at once; false at `WouldBlock`. Other
/// errors are returned.
fn is_free<R: Files<File = File>>(rt: &R) -> Result<bool, Fail> {
    match FileDisk::open(rt, LOCKED_PATH) {
        Ok(_) => Ok(true),
        Err(error) if error.kind() == ErrorKind::WouldBlock => Ok(false),
        Err(error) => Err(error.into()),
    }
}

// A file is locked as long as its disk exists, and not afterwards.
#[test]
fn a_life_file_is_locked_by_its_disk(rt: HostRuntime) -> Result<(), Fail> {
    make_folder(&rt, LOCKED_FOLDER)?;
    sees(&rt, is_free(&rt)?, "free at first");
    let mut disk = FileDisk::open(&rt, LOCKED_PATH)?;
    sees(&rt, !is_free(&rt)?, "locked by its disk");
    each_answers(&rt, &mut disk, &[Call::Syncs]);
    sees(&rt, !is_free(&rt)?, "locked after a sync");
    drop(disk);
    sees(&rt, is_free(&rt)?, "free in the end");
    fs::remove_dir_all(&rt, LOCKED_FOLDER)?;
    Ok(())
}
