//! The life files of a node's links.
ghost use Rattle.std.specs.Prelude.{◌≡◌, IfOk, IfErr, length};
ghost use Rattle.tora_commands.specs.Statuses.{status_of_fault, IsUnstarted};

use crate::configuration::LinkConfig;
use crate::node_command::{Fault, say};
use std::alloc::{AllocError, Global};
use std::fs::File;
use std::io::ErrorKind;
use std::rt::Files;
use std::{fs, io};
use tora_height::Id;
use tora_life::{Disk, FileDisk, LifeError, Owner, Tag};
use tora_simulate::report_at;

/// Reports on standard error why a life file cannot be opened.
fn report_file(rt: &impl Eprint, path: &str, error: &io::Error) {
    if error.kind() == ErrorKind::WouldBlock {
        report_at(rt, "life: ", path, &"a running node uses this file");
    } else {
        report_at(rt, "life: ", path, error);
    }
}

/// The path of the life file of the link to `peer`.
fn life_path(alloc: Global, folder: &str, peer: Id) -> Result<String, AllocError> {
    format!(in alloc; "{folder}/life-{peer}")
}

/// Creates the directory `folder` if it is missing, and opens the life file of each link in it, in the order of
/// `links`. `Life` at the first file that cannot be opened, `Memory` at any point; the cause is reported on standard
/// error.
pub(crate) fn open<R: Files<File = File> + Eprint>(
    rt: &R,
    alloc: Global,
    folder: &str,
    links: &[LinkConfig],
) -> Result<Vec<FileDisk>, Fault>
    ensures count { IfOk result (λ disks. length disks.items ≡ length links.now) }
    ensures fault { IfErr result (λ fault. IsUnstarted (status_of_fault fault)) }
{
    let mut disks = Vec::new(alloc);
    let _ = fs::create_dir_all(rt, folder);
    for link in links {
        let peer = link.peer;
        let Ok(path) = life_path(alloc, folder, peer) else {
            return Err(say(rt, Fault::Memory));
        };
        match FileDisk::open(rt, path.as_str()) {
            Ok(disk) => {
                let Ok(()) = disks.push(disk) else {
                    return Err(say(rt, Fault::Memory));
                };
            }
            Err(error) => {
                let fault = say(rt, Fault::Life);
                report_file(rt, path.as_str(), &error);
                return Err(fault);
            }
        }
    }
    Ok(disks)
}

/// The owner that the tag of a life file names; `None` if it has no such tag, or cannot be opened or read.
fn owner_in<R: Files<File = File>>(rt: &R, path: &str) -> Option<Owner> {
    let Ok(mut disk) = FileDisk::open(rt, path) else {
        return None;
    };
    let mut tag = [0; 32];
    let Ok(count) = disk.read(32, &mut tag) else {
        return None;
    };
    match Tag::read(&tag[..count]) {
        Tag::Of(owner) => Some(owner),
        Tag::Absent | Tag::Strange => None,
    }
}

/// Reports on standard error to which node and peer a life file belongs.
fn report_owner(rt: &impl Eprint, path: &str, owner: Owner) {
    let (node, peer) = (owner.node, owner.peer);
    let _ = rt.eprintln(format_args!(
        "tora: {path}: it is the file of node {node} for its link to {peer}"
    ));
}

/// Reports on standard error what is wrong with the life file of the link to `peer`. If `is_verbose` and the file
/// belongs to another node or peer, it also reports which.
pub(crate) fn report_life_file<R: Files<File = File> + AllocGlobal + Eprint>(
    rt: &R,
    folder: &str,
    peer: Id,
    error: LifeError,
    is_verbose: bool,
) {
    let Ok(path) = life_path(rt.alloc(), folder, peer) else {
        return;
    };
    report_at(rt, "life: ", path.as_str(), &error);
    if error != LifeError::Foreign || !is_verbose {
        return;
    }
    if let Some(owner) = owner_in(rt, path.as_str()) {
        report_owner(rt, path.as_str(), owner);
    }
}
