//! Life files on a disk in memory: the bytes of slots, the numbers drawn, writes that a crash tears, files with unusual
//! bytes, and texts.
use super::sees::{same_at, same_bytes, same_text, sees};
use std::alloc::Global;
use std::process::Abort;
use steps::Step::{self, Arms, Crashes, Draws, Fails, Reopens};
use steps::{disk_of, each_goes, first_draws};
use tora_life::{DiskCall, LifeError, MemDisk, bound_of, slot_bytes};

mod files;
mod fuses;
mod in_memory;
mod migrations;
mod reads;
mod steps;

const SLOT_OF_16: [u8; 16] = [
    0, 0, 0, 0, 0, 0, 0, 0x10, 0xff, 0xff, 0xff, 0xff, 0xff, 0xff, 0xff, 0xef,
];

const SLOT_OF_32: [u8; 16] = [
    0, 0, 0, 0, 0, 0, 0, 0x20, 0xff, 0xff, 0xff, 0xff, 0xff, 0xff, 0xff, 0xdf,
];

const SLOT_OF_900: [u8; 16] = [
    0, 0, 0, 0, 0, 0, 0x03, 0x84, 0xff, 0xff, 0xff, 0xff, 0xff, 0xff, 0xfc, 0x7b,
];

/// Slots, and the bound in each.
const SLOTS: &[([u8; 16], u64)] = &[(SLOT_OF_16, 16), (SLOT_OF_32, 32), (SLOT_OF_900, 900)];

/// Checks for each row that the slot of the bound has these bytes, and that the bound is read from them.
fn each_spells(rt: &impl Abort, rows: &[([u8; 16], u64)]) {
    for (slot, bound) in rows {
        same_at(rt, &slot_bytes(*bound), slot, "the slot", bound);
        same_at(rt, &bound_of(slot), bound, "the bound of the slot", bound);
    }
}

#[test]
fn slots_spell_their_bounds(rt: HostRuntime) {
    each_spells(&rt, SLOTS);
}

/// The name of each row, the bytes of its file and its steps. In the second and the third row a write fails after
/// sixteen draws, and a crash tears it.
const TORN: &[(&str, &[u8], &[Step])] = &[
    ("closed", &[], &[Draws(1, 4), Reopens, Draws(17, 18)]),
    (
        "torn to sevens",
        &[],
        &[
            Draws(1, 17),
            Arms(DiskCall::Write),
            Fails(LifeError::Disk),
            Fails(LifeError::Failed),
            Crashes(Some([7; 16])),
            Draws(17, 18),
        ],
    ),
    (
        "torn to the slot of 900",
        &[],
        &[
            Draws(1, 17),
            Arms(DiskCall::Write),
            Fails(LifeError::Disk),
            Fails(LifeError::Failed),
            Crashes(Some(SLOT_OF_900)),
            Draws(901, 902),
        ],
    ),
    (
        "not synced",
        &[],
        &[
            Arms(DiskCall::Sync),
            Fails(LifeError::Disk),
            Fails(LifeError::Failed),
        ],
    ),
];

#[test]
fn drawn_numbers_survive_torn_slots(rt: HostRuntime) {
    each_goes(&rt, TORN);
}

/// The name of each row, the bytes of its file, which are unusual, and the first number drawn from it or the error.
const ODD: &[(&str, &[u8], Result<u64, LifeError>)] = &[
    ("no byte", &[], Ok(1)),
    ("15 zeros", &[0; 15], Ok(1)),
    ("15 bytes of 255", &[0xff; 15], Ok(1)),
    (
        "15 bytes of a slot",
        &[
            0, 0, 0, 0, 0, 0, 0, 0x10, 0xff, 0xff, 0xff, 0xff, 0xff, 0xff, 0xff,
        ],
        Ok(1),
    ),
    (
        "a slot of zeros and 15 bytes",
        &[
            0, 0, 0, 0, 0, 0, 0, 0, 0, 0, 0, 0, 0, 0, 0, 0, 0xff, 0xff, 0xff, 0xff, 0xff, 0xff,
            0xff, 0xff, 0xff, 0xff, 0xff, 0xff, 0xff, 0xff, 0xff,
        ],
        Ok(1),
    ),
    ("the slot of 16", &SLOT_OF_16, Ok(17)),
    ("33 zeros", &[0; 33], Ok(1)),
    ("64 zeros", &[0; 64], Ok(1)),
    ("65 zeros", &[0; 65], Err(LifeError::Damaged)),
    (
        "the greatest bound",
        &[
            0xff, 0xff, 0xff, 0xff, 0xff, 0xff, 0xff, 0xff, 0, 0, 0, 0, 0, 0, 0, 0,
        ],
        Err(LifeError::Spent),
    ),
];

/// A file from which the last sixteen session numbers are drawn, 2^62 - 15 to 2^62; then each draw fails with `Spent`.
const LAST: &[(&str, &[u8], &[Step])] = &[(
    "the last numbers",
    &[
        0x3f, 0xff, 0xff, 0xff, 0xff, 0xff, 0xff, 0xf0, 0xc0, 0, 0, 0, 0, 0, 0, 0x0f,
    ],
    &[
        Draws(0x3fff_ffff_ffff_fff1, 0x4000_0000_0000_0001),
        Fails(LifeError::Spent),
        Fails(LifeError::Spent),
    ],
)];

#[test]
fn odd_life_files(rt: HostRuntime) {
    first_draws(&rt, ODD);
    each_goes(&rt, LAST);
}

#[test]
fn a_disk_holds_80_bytes(rt: HostRuntime) {
    sees(&rt, MemDisk::of(&[1; 81]).is_none(), "81 bytes are refused");
    same_bytes(&rt, disk_of(&rt, &[1; 80]).bytes(), &[1; 80], "80 bytes");
    same_bytes(&rt, MemDisk::new().bytes(), &[], "a new disk");
}

const DOCUMENTED: &[(&str, &[u8], &[Step])] = &[(
    "the documentation",
    &[],
    &[Draws(1, 2), Crashes(None), Draws(17, 18)],
)];

#[test]
fn example_of_the_documentation(rt: HostRuntime) {
    each_goes(&rt, DOCUMENTED);
}

const ERRORS: &[(LifeError, &str)] = &[
    (LifeError::Disk, "the disk failed"),
    (
        LifeError::Failed,
        "an earlier draw failed: the file is to be opened again",
    ),
    (LifeError::Spent, "no number is left"),
    (LifeError::Damaged, "the file is no life file"),
    (LifeError::Foreign, "the file is of another node or peer"),
];

/// Checks the text of each error.
fn each_says(rt: &impl Abort, alloc: Global, rows: &[(LifeError, &str)]) {
    for (error, text) in rows {
        let printed = format!(in alloc; "{error}").expect(rt, "memory");
        same_text(rt, printed.as_str(), text, "the text of an error");
    }
}

#[test]
fn errors_are_printed_with_their_cause(rt: HostRuntime) {
    each_says(&rt, rt.alloc(), ERRORS);
}
