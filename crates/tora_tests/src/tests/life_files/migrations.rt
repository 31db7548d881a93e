//! Files of version 1, partly migrated ones and files of other owners, with a crash at each call of the disk.
ghost use Rattle.std.specs.Prelude.{◌≡◌, ◌<◌, ◌≢◌};

use super::super::sees::{ends, same, same_at, same_bytes, sees_at};
use super::steps::Step::{self, Draws, Holds};
use super::steps::{disk_of, draws, each_goes, fault_in, first_draw, first_draws, opened, refused};
use super::{SLOT_OF_16, SLOT_OF_32, SLOT_OF_900};
use std::process::Abort;
use tora_life::{
    Disk, DiskCall, FuseDisk, FuseMode, LifeError, LifeFile, MemDisk, Owner, Tag, tag_bytes,
};

const TAG_OF_1_AND_2: [u8; 32] = [
    0x54, 0x4f, 0x52, 0x41, 0x4c, 0x49, 0x46, 0x32, 0, 0, 0, 1, 0, 0, 0, 2, 0xab, 0xb0, 0xad, 0xbe,
    0xb3, 0xb6, 0xb9, 0xcd, 0xff, 0xff, 0xff, 0xfe, 0xff, 0xff, 0xff, 0xfd,
];

/// The slots of 16 and 32, as version 1 left them.
const TWO_SLOTS: [u8; 32] = [
    0, 0, 0, 0, 0, 0, 0, 0x10, 0xff, 0xff, 0xff, 0xff, 0xff, 0xff, 0xff, 0xef, 0, 0, 0, 0, 0, 0, 0,
    0x20, 0xff, 0xff, 0xff, 0xff, 0xff, 0xff, 0xff, 0xdf,
];

/// The slots of 48 and 32, as version 1 left them.
const THIRD_WRITE: [u8; 32] = [
    0, 0, 0, 0, 0, 0, 0, 0x30, 0xff, 0xff, 0xff, 0xff, 0xff, 0xff, 0xff, 0xcf, 0, 0, 0, 0, 0, 0, 0,
    0x20, 0xff, 0xff, 0xff, 0xff, 0xff, 0xff, 0xff, 0xdf,
];

/// The slots of 16 and 32, and the tag of node 1 and peer 2.
const TAGGED: [u8; 64] = [
    0, 0, 0, 0, 0, 0, 0, 0x10, 0xff, 0xff, 0xff, 0xff, 0xff, 0xff, 0xff, 0xef, 0, 0, 0, 0, 0, 0, 0,
    0x20, 0xff, 0xff, 0xff, 0xff, 0xff, 0xff, 0xff, 0xdf, 0x54, 0x4f, 0x52, 0x41, 0x4c, 0x49, 0x46,
    0x32, 0, 0, 0, 1, 0, 0, 0, 2, 0xab, 0xb0, 0xad, 0xbe, 0xb3, 0xb6, 0xb9, 0xcd, 0xff, 0xff, 0xff,
    0xfe, 0xff, 0xff, 0xff, 0xfd,
];

/// A file with the slots of 16 and 32, and this tag.
fn file_of(tag: [u8; 32]) -> [u8; 64] {
    let mut file = TAGGED;
    file[32..].copy_from_slice(&tag);
    file
}

/// Opens a file with these bytes for `owner`, and checks that it is refused with `wanted`, and that its bytes do not
/// change.
fn refusal_is(rt: &impl Abort, bytes: &[u8], owner: Owner, wanted: LifeError, what: &str)
    requires me { 0 < owner.node }
    requires peer { 0 < owner.peer }
    requires distinct { owner.node ≢ owner.peer }
{
    let answer = LifeFile::open(disk_of(rt, bytes), owner.node, owner.peer);
    let fault = fault_in(rt, answer);
    same_bytes(rt, fault.disk.bytes(), bytes, "what is left of the file");
    same(rt, &fault.error, &wanted, what);
}

/// The owner with these numbers.
fn owner_of(node: u32, peer: u32) -> Owner
    ensures { result ≡ record { node = node; peer = peer } }
{
    Owner { node, peer }
}

/// Reads a tag from `bytes`, and checks that the result is `wanted`; `what` and `place` name the case.
fn reads_as(rt: &impl Abort, bytes: &[u8], wanted: Tag, what: &str, place: usize) {
    same_at(rt, &Tag::read(bytes), &wanted, what, &place);
}

/// Opens a file with these bytes on a disk of which `k` calls succeed and all later ones fail, and checks that it does
/// not open. Then crashes the disk, with zeros in place of the bytes that were not synced, and opens the file.
fn torn_while_opened(rt: &impl Abort, bytes: &[u8], k: u64) -> LifeFile<MemDisk> {
    let fused = FuseDisk::new(disk_of(rt, bytes), k, FuseMode::Always);
    let mut disk = refused(rt, fused).disk.into_inner();
    disk.crash(Some([0; 16]));
    opened(rt, disk)
}

const OF_ITS_OWNER: &[(&str, &[u8], Result<u64, LifeError>)] = &[(
    "the file of the owner",
    &TAGGED,
    Ok(33),
)];

/// A file of version 1 with the slot of 16: the next number is 17, and then the file has the bytes `TAGGED`.
const MIGRATED: &[(&str, &[u8], &[Step])] = &[(
    "the migrated file",
    &SLOT_OF_16,
    &[Draws(17, 18), Holds(&TAGGED)],
)];

#[test]
fn life_file_is_tagged_and_migrated(rt: HostRuntime) {
    let owner = owner_of(1, 2);
    same_bytes(&rt, &tag_bytes(owner), &TAG_OF_1_AND_2, "the tag");
    reads_as(&rt, &TAG_OF_1_AND_2, Tag::Of(owner), "the owner", 32);
    first_draws(&rt, OF_ITS_OWNER);
    refusal_is(
        &rt,
        &TAGGED,
        owner_of(1, 3),
        LifeError::Foreign,
        "another peer",
    );
    refusal_is(
        &rt,
        &TAGGED,
        owner_of(2, 1),
        LifeError::Foreign,
        "another node",
    );
    each_goes(&rt, MIGRATED);
    // A crash between the write of the migration and its sync.
    let mut file = torn_while_opened(&rt, &SLOT_OF_16, 3);
    draws(&rt, &mut file, 17, 18, "the draw after the crash");
}

/// `TAG_OF_1_AND_2` with the lowest bit of the byte at this index inverted.
fn changed(place: usize) -> [u8; 32]
    requires { place < 32 }
{
    let mut tag = TAG_OF_1_AND_2;
    tag[place] ^= 1;
    tag
}

/// `TAG_OF_1_AND_2` with the lowest bit inverted in the byte at this index of its first half and of its second half, so
/// that the second half is still the complement.
fn changed_twice(place: usize) -> [u8; 32]
    requires { place < 16 }
{
    let mut tag = changed(place);
    tag[place + 16] ^= 1;
    tag
}

/// Checks that a file with the tag `changed_twice(place)` is refused: as `Damaged` if `place` is below 8, in the
/// beginning of the tag, and otherwise as `Foreign`, since a number of the owner differs.
fn tag_is_refused(rt: &impl Abort, place: usize)
    requires { place < 16 }
{
    let tag = changed_twice(place);
    let file = file_of(tag);
    if place < 8 {
        reads_as(rt, &tag, Tag::Strange, "another beginning", place);
        refusal_is(
            rt,
            &file,
            owner_of(1, 2),
            LifeError::Damaged,
            "the beginning",
        );
    } else {
        refusal_is(rt, &file, owner_of(1, 2), LifeError::Foreign, "the numbers");
    }
}

#[test]
fn tags_are_read(rt: HostRuntime) {
    for place in 0..32 {
        let part = &TAG_OF_1_AND_2[..place];
        reads_as(&rt, part, Tag::Absent, "a part of the tag", place);
        let other = changed(place);
        reads_as(&rt, &other, Tag::Absent, "a changed byte", place);
    }
    for place in 0..16 {
        tag_is_refused(&rt, place);
    }
}

/// The bytes that version 1 left after a number of draws (no byte, one slot, or two), and the next number.
const VERSION_1: &[(&str, &[u8], Result<u64, LifeError>)] = &[
    ("no byte", &[], Ok(1)),
    ("one slot", &SLOT_OF_16, Ok(17)),
    ("two slots", &TWO_SLOTS, Ok(33)),
    ("two slots after a third write", &THIRD_WRITE, Ok(49)),
];

const AFTER_A_THIRD_WRITE: &[(&str, &[u8], &[Step])] = &[(
    "after a third write",
    &THIRD_WRITE,
    &[Draws(49, 90)],
)];

#[test]
fn files_of_version_1_go_on_above_their_numbers(rt: HostRuntime) {
    first_draws(&rt, VERSION_1);
    each_goes(&rt, AFTER_A_THIRD_WRITE);
}

/// The tagged file with a changed byte in the second half of its tag.
const HALF_TAGGED: [u8; 64] = [
    0, 0, 0, 0, 0, 0, 0, 0x10, 0xff, 0xff, 0xff, 0xff, 0xff, 0xff, 0xff, 0xef, 0, 0, 0, 0, 0, 0, 0,
    0x20, 0xff, 0xff, 0xff, 0xff, 0xff, 0xff, 0xff, 0xdf, 0x54, 0x4f, 0x52, 0x41, 0x4c, 0x49, 0x46,
    0x32, 0, 0, 0, 1, 0, 0, 0, 2, 0, 0xb0, 0xad, 0xbe, 0xb3, 0xb6, 0xb9, 0xcd, 0xff, 0xff, 0xff,
    0xfe, 0xff, 0xff, 0xff, 0xfd,
];

/// Checks that the first number drawn from a file with these bytes is `wanted`, also if the file is opened and closed
/// once before.
fn goes_on(rt: &impl Abort, bytes: &[u8], wanted: u64) {
    let length = bytes.len();
    let number = first_draw(rt, bytes);
    same_at(rt, &number, &Ok(wanted), "the first number", &length);
    let file = opened(rt, disk_of(rt, bytes));
    let mut file = opened(rt, file.close());
    same_at(rt, &file.draw(), &Ok(wanted), "once reopened", &length);
}

// A slot that is not complete counts as 0, as in version 1, and a complete one stays. Bytes after the slots that are
// not a complete tag are overwritten.
#[test]
fn short_files_are_filled_up(rt: HostRuntime) {
    for length in 0..16 {
        goes_on(&rt, &TWO_SLOTS[..length], 1);
    }
    for length in 16..32 {
        goes_on(&rt, &TWO_SLOTS[..length], 17);
    }
    goes_on(&rt, &TWO_SLOTS, 33);
    for length in 33..65 {
        goes_on(&rt, &HALF_TAGGED[..length], 33);
    }
}

/// Opens the file on a disk and draws up to 40 numbers, until a call of the disk fails. Returns the disk, and the
/// greatest of the numbers drawn and of `drawn`.
fn run<D: Disk + Drop>(disk: D, drawn: u64) -> (D, u64) {
    let mut file = match LifeFile::open(disk, 1, 2) {
        Ok(file) => file,
        Err(fault) => return (fault.disk, drawn),
    };
    let mut greatest = drawn;
    for _ in 0..40 {
        match file.draw() {
            Ok(n) => greatest = n,
            Err(_) => break,
        }
    }
    (file.close(), greatest)
}

/// As `run`, with a call of this kind armed to fail: before the file is opened (`stop` 0), before the draw with the
/// number `stop` (1 to 40), or never (above 40).
fn run_armed(mut disk: MemDisk, stop: u64, call: DiskCall, drawn: u64) -> (MemDisk, u64) {
    if stop == 0 {
        disk.arm(call);
    }
    let mut file = match LifeFile::open(disk, 1, 2) {
        Ok(file) => file,
        Err(fault) => return (fault.disk, drawn),
    };
    let mut greatest = drawn;
    for step in 1..41 {
        if step == stop {
            file.arm(call);
        }
        match file.draw() {
            Ok(n) => greatest = n,
            Err(_) => break,
        }
    }
    (file.close(), greatest)
}

/// As `run`, on a disk of which `stop` calls succeed and all later ones fail. Returns the wrapped disk.
fn run_fused(disk: MemDisk, stop: u64, drawn: u64) -> (MemDisk, u64) {
    let (fused, greatest) = run(FuseDisk::new(disk, stop, FuseMode::Always), drawn);
    (fused.into_inner(), greatest)
}

/// Opens the file and draws a number, up to five times, since a call that is still armed may fail. The test fails if no
/// number is drawn.
fn next_number(rt: &impl Abort, mut disk: MemDisk) -> u64 {
    for _ in 0..5 {
        match LifeFile::open(disk, 1, 2) {
            Ok(mut file) => match file.draw() {
                Ok(n) => return n,
                Err(_) => disk = file.close(),
            },
            Err(fault) => disk = fault.disk,
        }
    }
    ends(rt, "no number is drawn")
}

/// The slots of 16 and 32, and eight zeros of a tag.
const HALF_MIGRATED: [u8; 40] = [
    0, 0, 0, 0, 0, 0, 0, 0x10, 0xff, 0xff, 0xff, 0xff, 0xff, 0xff, 0xff, 0xef, 0, 0, 0, 0, 0, 0, 0,
    0x20, 0xff, 0xff, 0xff, 0xff, 0xff, 0xff, 0xff, 0xdf, 0, 0, 0, 0, 0, 0, 0, 0,
];

/// Files that a crash may hit (new, of version 1, partly migrated, and tagged), and the greatest number that may have
/// been drawn from each.
const OLD: &[(&[u8], u64)] = &[
    (&[], 0),
    (&SLOT_OF_16, 16),
    (&TWO_SLOTS, 32),
    (&HALF_MIGRATED, 32),
    (&TAGGED, 32),
];

/// The bytes that a crash leaves in place of those that were not synced; with `None` the file is as at its last sync.
const PATTERNS: &[Option<[u8; 16]>] = &[None, Some([0; 16]), Some(SLOT_OF_32), Some(SLOT_OF_900)];

/// Draws up to 40 numbers until the disk fails, crashes it, and checks that the next number is above these and `drawn`.
/// The failure is that of `run_armed` with this call and `stop`, or for `None` that of `run_fused`. With `twice`, the
/// file is opened once more on a disk of which this many calls succeed, and the disk crashes again.
fn goes_on_after(
    rt: &impl Abort,
    (bytes, drawn): &(&[u8], u64),
    (call, stop): (Option<DiskCall>, u64),
    torn: Option<[u8; 16]>,
    twice: Option<u64>,
) {
    let disk = disk_of(rt, bytes);
    let (mut disk, greatest) = match call {
        Some(call) => run_armed(disk, stop, call, *drawn),
        None => run_fused(disk, stop, *drawn),
    };
    disk.crash(torn);
    if let Some(k) = twice {
        disk = run_fused(disk, k, 0).0;
        disk.crash(torn);
    }
    let is_above = next_number(rt, disk) > greatest;
    let place = (bytes.len(), call, stop, torn, twice);
    sees_at(rt, is_above, "above all before", &place);
}

/// Calls `goes_on_after` for each file of `OLD`, each of `PATTERNS`, and each of `twice`.
fn each_goes_on_after(rt: &impl Abort, fault: (Option<DiskCall>, u64), twice: &[Option<u64>]) {
    for old in OLD {
        for torn in PATTERNS {
            for again in twice {
                goes_on_after(rt, old, fault, *torn, *again);
            }
        }
    }
}

#[test]
fn each_crash(rt: HostRuntime) {
    for k in 0..12 {
        let twice = &[None, Some(0), Some(1), Some(2), Some(3)];
        each_goes_on_after(&rt, (None, k), twice);
    }
}

// A call of each kind is armed to fail before the opening, before each of 40 draws, or not at all, and then the disk
// crashes. A failed write may have written a part of its bytes.
#[test]
fn each_failed_call_and_crash(rt: HostRuntime) {
    for call in [DiskCall::Read, DiskCall::Write, DiskCall::Sync] {
        for stop in 0..42 {
            each_goes_on_after(&rt, (Some(call), stop), &[None, Some(1), Some(3)]);
        }
    }
}
