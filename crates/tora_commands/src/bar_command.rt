//! `tora sim --progress FILE`: a simulation of a file of lines, with a bar.
ghost use Rattle.std.specs.Process.{exit_status};
ghost use Rattle.tora_arq.specs.Settings.{IsTimes};
ghost use Rattle.tora_script.specs.Table.{lines_of};
ghost use Rattle.tora_script.specs.SimulationText.{rules_with};
ghost use Rattle.tora_simulate.specs.Endings.{EndsFile};

use crate::bar::{Paced, Wiping};
use crate::progress::rounds_of;
use crate::sim_command::{refuse, run_over};
use std::process::ExitCode;
use std::time::Clock;
use tora_lines::Output;
use tora_script::{ChannelTable, FaultReports, Setup, Simulator};
use tora_simulate::{Opened, Paths};

/// Simulates the lines of the file at a path as `sim_command::run` does, and draws the progress on standard error.
pub fn run<S: Simulator, T: Paths + AllocGlobal + Eprint + Clock, W: Output>(
    rt: &T,
    setup: Setup,
    table: ChannelTable,
    path: &str,
    is_verbose: bool,
    writer: &mut W,
) -> ExitCode
    requires { IsTimes setup.times }
    ensures { EndsFile (T.did_open rt.now) T.File.remaining T.did_get (rules_with setup (lines_of table)) W.contents
        W.did_write W.did_flush path.now writer.old writer.new (exit_status result) }
{
    let total = rounds_of(rt, path);
    match rt.open_path(path) {
        Ok(file) => {
            let reader = Paced::new(rt, total, setup.until, Opened::new(rt, file));
            let wiping = Wiping::new(rt);
            let reports = FaultReports {
                rt: &wiping,
                is_verbose,
            };
            run_over::<S, Wiping<'_, T>, Paced<'_, T, Opened<'_, T>>, W>(
                reports, setup, table, reader, writer,
            )
        }
        Err(error) => refuse(rt, path, &error),
    }
}
