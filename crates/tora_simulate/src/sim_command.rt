//! `tora sim [--times HELLO,SILENCE,RETRY,TRIES] FILE`: a simulation of a file of lines.
ghost use Rattle.std.specs.Prelude.{false};
ghost use Rattle.std.specs.Process.{exit_status};
ghost use Rattle.tora_simulate.specs.Endings.{EndsBy, EndsFile};
ghost use Rattle.tora_simulate.specs.Paths.{IsStatusOfError};
ghost use Rattle.tora_arq.specs.Settings.{IsTimes};
ghost use Rattle.tora_script.specs.Table.{lines_of};
ghost use Rattle.tora_script.specs.SimulationText.{rules_with};

use crate::flushing::simulate_last_and_flush;
use crate::paths::{Opened, Paths};
use crate::recent::Recent;
use crate::reporting::{report as report_error, report_at};
use crate::statuses::{INPUT, MEMORY, status, stop};
use std::io;
use std::io::ErrorKind;
use std::process::ExitCode;
use tora_lines::{Ended, Input, LONGEST_LINE, Output, ReplayError};
use tora_script::{ChannelTable, FaultReports, Setup, SimulationCause, Simulator, report_cause};

/// Reports why the file at a path cannot be opened or read. Returns the exit status, 5 (`MEMORY`) if memory ran out and
/// otherwise 1 (`INPUT`). Does not depend on `-v`.
pub fn refuse<R: Eprint>(rt: &R, path: &str, error: &io::Error) -> ExitCode
    ensures { IsStatusOfError error.now (exit_status result) }
{
    if error.kind() == ErrorKind::OutOfMemory {
        return stop(rt, MEMORY, "memory");
    }
    let code = stop(rt, INPUT, "input");
    report_at(rt, "input: ", path, error);
    code
}

/// Reports that a line is too long, or what failed. All other faults were reported when they came.
pub fn report_end<T: Eprint, R: Input>(
    rt: &T,
    reader: &Recent<R>,
    ended: Result<Ended, ReplayError>,
) {
    match ended {
        Ok(Ended::Whole) => {}
        Ok(Ended::Fault(number)) => {
            let len = reader.line(number).map_or(0, |line| line.len());
            if len > LONGEST_LINE {
                report_cause(rt, number, SimulationCause::TooLong);
            }
        }
        Err(error) => report_error(rt, &error),
    }
}

/// Simulates the lines of a reader with these settings, over a channel that the table changes by round, and returns a
/// status: 0 at the end of the input, 1 if a line is a fault or reading or writing failed, 5 if memory ran out. Reports
/// why a line is a fault and what failed, and, if asked to, why events are refused. The program ends afterwards, so the
/// memory of the world is not freed.
pub fn run_over<S: Simulator, T: AllocGlobal + Eprint, R: Input + Drop, W: Output>(
    reports: FaultReports<'_, T>,
    setup: Setup,
    table: ChannelTable,
    reader: R,
    writer: &mut W,
) -> ExitCode
    requires { IsTimes setup.times }
    ensures { EndsBy (rules_with setup (lines_of table)) R.remaining R.did_read W.contents W.did_write W.did_flush
        reader writer.old writer.new false (exit_status result) }
{
    let rt = reports.rt;
    let alloc = rt.alloc();
    let mut reader = Recent::new(alloc, reader);
    let result = simulate_last_and_flush::<S, T, Recent<R>, W>(
        reports,
        alloc,
        setup,
        table,
        &mut reader,
        writer,
    );
    report_end(rt, &reader, result);
    status(rt, result)
}

/// As `run_over`, for the lines of the file at a path. The status is 1 if the file cannot be opened, and 5 if memory
/// ran out for that; then nothing is written.
pub fn run<S: Simulator, T: Paths + AllocGlobal + Eprint, W: Output>(
    rt: &T,
    setup: Setup,
    table: ChannelTable,
    path: &str,
    is_verbose: bool,
    writer: &mut W,
) -> ExitCode
    requires { IsTimes setup.times }
    ensures { EndsFile (T.did_open rt.now) T.File.remaining T.did_get (rules_with setup (lines_of table)) W.contents
        W.did_write W.did_flush path.now writer.old writer.new (exit_status result) }
{
    match rt.open_path(path) {
        Ok(file) => run_over::<S, T, Opened<'_, T>, W>(
            FaultReports { rt, is_verbose },
            setup,
            table,
            Opened::new(rt, file),
            writer,
        ),
        Err(error) => refuse(rt, path, &error),
    }
}
