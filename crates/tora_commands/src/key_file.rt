//! Files with keys.
ghost use Rattle.std.specs.Prelude.{◌≡◌, IfErr};
ghost use Rattle.tora_commands.specs.Statuses.{status_of_fault, HasNoKey};

use crate::node_command::{Fault, say};
use std::fmt::Display;
use std::fs::File;
use std::io;
use std::io::Read;
use std::os::unix::fs::PermissionsExt;
use std::rt::Files;
use tora_keyed::{Key, LONGEST_KEY_FILE, key_in, overwrite};
use tora_simulate::{Paths, report_at};

/// The permissions by which the group or others may read a file.
const READ_BY_OTHERS: u32 = 0o044;

/// The message about a file without a key.
const NO_KEY: &str = "is no key: a key is 64 hexadecimal digits on one line";

/// Reads from a file until the buffer is full or the file is at its end. Returns the count of bytes. Errors, including
/// `Interrupted`, are passed on.
fn read_front(file: &mut File, buf: &mut [u8]) -> io::Result<usize> {
    let mut count = 0;
    for _ in 0..buf.len() {
        if count >= buf.len() {
            break;
        }
        let more = file.read(&mut buf[count..])?;
        if more == 0 {
            break;
        }
        count += more;
    }
    Ok(count)
}

/// Warns if users other than the owner may read the key file.
fn warn_of_readers(rt: &impl Eprint, file: &File, path: &str) {
    let Ok(about) = file.metadata() else {
        return;
    };
    if about.permissions().mode() & READ_BY_OTHERS != 0 {
        report_at(rt, "warning: ", path, &"others can read this key file");
    }
}

/// The key in the file at a path. Reports on standard error what is wrong, but never the content of the file; the error
/// is always `Config`. The buffer into which the file was read is overwritten at the end.
pub(crate) fn key_at<R: Paths + Files<File = File> + Eprint>(
    rt: &R,
    path: &str,
) -> Result<Key, Fault>
    ensures { IfErr result (λ fault. HasNoKey (R.did_open rt.now) (status_of_fault fault)) }
{
    let mut room = [0; LONGEST_KEY_FILE + 1];
    let key = read_key(rt, path, &mut room);
    overwrite(&mut room);
    key
}

/// Reads the file at a path into a buffer, and returns the key in it. Reports as `key_at` does.
fn read_key<R: Paths + Files<File = File> + Eprint>(
    rt: &R,
    path: &str,
    room: &mut [u8],
) -> Result<Key, Fault>
    ensures { IfErr result (λ fault. HasNoKey (R.did_open rt.now) (status_of_fault fault)) }
{
    let mut file = match rt.open_path(path) {
        Ok(file) => file,
        Err(error) => return Err(report_key_fault(rt, path, &error)),
    };
    warn_of_readers(rt, &file, path);
    let count = match read_front(&mut file, room) {
        Ok(count) => count,
        Err(error) => return Err(report_key_fault(rt, path, &error)),
    };
    match key_in(&room[..count.min(room.len())]) {
        Some(key) => Ok(key),
        None => Err(report_key_fault(rt, path, &NO_KEY)),
    }
}

/// Reports on standard error what is wrong with the key file at a path. Returns `Config`.
fn report_key_fault<D: Display>(rt: &impl Eprint, path: &str, cause: &D) -> Fault
    ensures { result ≡ Fault.Config }
{
    let fault = say(rt, Fault::Config);
    report_at(rt, "input: ", path, cause);
    fault
}
