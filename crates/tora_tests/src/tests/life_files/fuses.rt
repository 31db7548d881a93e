//! A disk whose calls fail on purpose.
use super::super::sees::same_at;
use super::steps::{draws, fails, opened, refused};
use std::process::Abort;
use tora_life::{DiskCall, FuseDisk, FuseMode, LifeError, MemDisk};

/// How many calls of a new disk succeed before all fail, and how many numbers are drawn before a draw fails. `None` if
/// the file does not open.
const FUSED: &[(u64, Option<u64>)] = &[
    (0, None),
    (1, None),
    (2, None),
    (3, None),
    (4, Some(0)),
    (5, Some(0)),
    (6, Some(16)),
];

/// A new disk in memory of which `k` calls succeed; then one fails, or all following ones, by `mode`.
fn fused(k: u64, mode: FuseMode) -> FuseDisk<MemDisk> {
    FuseDisk::new(MemDisk::new(), k, mode)
}

/// Checks that the file does not open, with the error `Disk`, on a disk of which `k` calls succeed and all later ones
/// fail.
fn gives_none(rt: &impl Abort, k: u64) {
    let fault = refused(rt, fused(k, FuseMode::Always));
    same_at(rt, &fault.error, &LifeError::Disk, "the fault", &k);
}

/// Opens the file on a disk of which `k` calls succeed and all later ones fail, and checks that `count` numbers are
/// drawn and that the next two draws fail with `Disk` and `Failed`.
fn gives_some(rt: &impl Abort, k: u64, count: u64) {
    let mut file = opened(rt, fused(k, FuseMode::Always));
    draws(rt, &mut file, 1, count.saturating_add(1), "a draw");
    fails(rt, &mut file, k);
}

/// Checks the result for the disk of each row.
fn each_gives(rt: &impl Abort, rows: &[(u64, Option<u64>)]) {
    for (k, drawn) in rows {
        match drawn {
            None => gives_none(rt, *k),
            Some(count) => gives_some(rt, *k, *count),
        }
    }
}

#[test]
fn fused_disk_fails_each_call(rt: HostRuntime) {
    each_gives(&rt, FUSED);
}

// In mode `Once` the calls after the failed one succeed, and a failure of the wrapped disk is passed on.
#[test]
fn one_call_fails(rt: HostRuntime) {
    let fault = refused(&rt, fused(1, FuseMode::Once));
    let mut inner = fault.disk.into_inner();
    inner.arm(DiskCall::Read);
    let fault = refused(&rt, FuseDisk::new(inner, 9, FuseMode::Once));
    draws(&rt, &mut opened(&rt, fault.disk), 1, 2, "the first draw");
}
