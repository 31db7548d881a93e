//! Runs over a life file that cannot give a session number, which end with its fault.
use super::runs::run_over;
use super::*;

/// Runs the link over this file, checks that nothing is put, and returns the fault.
fn fault_of<R: Wait + Abort>(
    rt: &R,
    alloc: Global,
    file: LifeFile<MemDisk>,
) -> Result<Option<LinkFault>, AllocError> {
    let wire = MemWire::<16>::new(Vec::new(alloc));
    let hub = ListHub::new(alloc, 2, Vec::new(alloc))?;
    let finished = run_over(rt, alloc, 1, file, wire, hub);
    same(rt, &finished.hub.kept().len(), &0, "how much was put");
    Ok(finished.fault)
}

/// Checks the fault of a run over the file of each row: the bytes of its disk, the call of the disk that is armed to
/// fail (`None` for none), whether a draw before the run meets that failure, and the wanted error of the file.
fn each_ends<R: Wait + Abort>(
    rt: &R,
    alloc: Global,
    rows: &[(&[u8], Option<DiskCall>, bool, LifeError)],
) {
    for (bytes, armed, is_drawn, reason) in rows {
        let mut file = file_of(rt, disk_of(rt, bytes));
        if let Some(call) = armed {
            file.arm(*call);
        }
        if *is_drawn {
            same(rt, &file.draw(), &Err(LifeError::Disk), "the draw");
        }
        let fault = there(rt, fault_of(rt, alloc, file).ok(), "memory");
        let wanted = Some(LinkFault::Life(*reason));
        same_at(rt, &fault, &wanted, "the fault", armed);
    }
}

/// The disk with a file of these bytes.
fn disk_of(rt: &impl Abort, bytes: &[u8]) -> MemDisk {
    there(rt, MemDisk::of(bytes), "the disk")
}

const BY_THE_DISK: &[(&[u8], Option<DiskCall>, bool, LifeError)] = &[
    (&[], Some(DiskCall::Write), false, LifeError::Disk),
    (&[], Some(DiskCall::Sync), false, LifeError::Disk),
];

#[test]
fn a_file_whose_disk_fails_ends_the_link(rt: HostRuntime) {
    each_ends(&rt, rt.alloc(), BY_THE_DISK);
}

const FAILED: &[(&[u8], Option<DiskCall>, bool, LifeError)] = &[(
    &[],
    Some(DiskCall::Write),
    true,
    LifeError::Failed,
)];

#[test]
fn a_file_that_has_failed_ends_the_link(rt: HostRuntime) {
    each_ends(&rt, rt.alloc(), FAILED);
}

const USED_UP: &[(&[u8], Option<DiskCall>, bool, LifeError)] = &[(
    &[
        255, 255, 255, 255, 255, 255, 255, 255, 0, 0, 0, 0, 0, 0, 0, 0,
    ],
    None,
    false,
    LifeError::Spent,
)];

#[test]
fn a_file_that_is_used_up_ends_the_link(rt: HostRuntime) {
    each_ends(&rt, rt.alloc(), USED_UP);
}

#[test]
fn a_damaged_file_gives_no_link(rt: HostRuntime) {
    match LifeFile::open(disk_of(&rt, &[0; 65]), 1, 2) {
        Ok(_) => ends(&rt, "it opens"),
        Err(fault) => same(&rt, &fault.error, &LifeError::Damaged, "the fault"),
    }
}
