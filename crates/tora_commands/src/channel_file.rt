//! `--channel-file` of `tora sim`.
ghost use Rattle.std.specs.Prelude.{◌≡◌, [], None, IfOk, IfErr};
ghost use Rattle.std.specs.Process.{exit_status};
ghost use Rattle.tora_script.specs.Table.{lines_of};
ghost use Rattle.tora_commands.specs.ChannelFiles.{IsTableFile, IsNoTable};

use crate::hashing::digest;
use crate::sim_command::refuse;
use crate::{INPUT, MEMORY, stop};
use std::process::ExitCode;
use tora_script::{ChannelTable, LineCause, TableError, channel_table};
use tora_simulate::{Paths, bytes_at};

/// The content of a channel file: its table, and the SHA-256 of its bytes as 64 hexadecimal digits. Without a file the
/// table is empty and there is no digest.
#[derive(Drop)]
pub struct ChannelFile {
    pub table: ChannelTable,
    pub digest: Option<String>,
}

impl ChannelFile {
    /// The content for a simulation without a channel file.
    pub fn none() -> ChannelFile
        ensures table { lines_of result.table ≡ [] }
        ensures digest { result.digest ≡ None }
    {
        ChannelFile {
            table: ChannelTable::none(),
            digest: None,
        }
    }
}

/// Reports which line of a channel file is at fault, counted from 1, and why. Returns the status 1.
fn refuse_line<T: Eprint>(rt: &T, path: &str, number: u64, cause: LineCause) -> ExitCode
    ensures { exit_status result ≡ 1 }
{
    let code = stop(rt, INPUT, "input");
    let _ = rt.eprintln(format_args!("tora: input: {path}: line {number}: {cause}"));
    code
}

/// Reads the channel file at a path. Reports on standard error what is wrong with it.
///
/// # Errors
/// The status 1 if the file cannot be read or a line is at fault, and 5 if memory ran out.
pub(crate) fn channel_file<T: Paths + AllocGlobal + Eprint>(
    rt: &T,
    path: &str,
) -> Result<ChannelFile, ExitCode>
    ensures table { IfOk result (λ file. IsTableFile (T.did_open rt.now path.now) T.did_read T.File.remaining
        (lines_of file.table)) }
    ensures refused { IfErr result (λ code. IsNoTable (T.did_open rt.now path.now) T.did_read T.File.remaining
        (exit_status code)) }
{
    let bytes = match bytes_at(rt, rt.alloc(), path) {
        Ok(bytes) => bytes,
        Err(error) => return Err(refuse(rt, path, &error)),
    };
    let table = match channel_table(rt.alloc(), &bytes) {
        Ok(table) => table,
        Err(TableError::Memory) => return Err(stop(rt, MEMORY, "memory")),
        Err(TableError::Line(number, cause)) => {
            return Err(refuse_line(rt, path, number, cause));
        }
    };
    match digest(rt.alloc(), &bytes) {
        Ok(digest) => Ok(ChannelFile {
            table,
            digest: Some(digest),
        }),
        Err(_) => Err(stop(rt, MEMORY, "memory")),
    }
}
