//! `tora sim --trace PATH FILE`: a simulation of a file of lines, and its trace.
ghost use Rattle.std.specs.Prelude.{◌≡◌, ◌≢◌, ◌⊎◌, is_some, Ok, Err, IfOk, IfErr, IfSome, OnOk};
ghost use Rattle.std.specs.Io.KnownBytes.{IsAtEnd};
ghost use Rattle.tora_lines.specs.Reads.{IsReadSo};
ghost use Rattle.tora_simulate.specs.Flushing.{IsFlushed};
ghost use Rattle.std.specs.Process.{exit_status};
ghost use Rattle.tora_arq.specs.Settings.{IsTimes};
ghost use Rattle.tora_simulate.specs.Endings.{EndsBy, EndsTraced};
ghost use Rattle.tora_simulate.specs.Paths.{IsFailed, IsStatusOfError};
ghost use Rattle.tora_script.specs.Table.{lines_of};
ghost use Rattle.tora_script.specs.SimulationText.{rules_with, SimulatesWith, IsBegunWith};
ghost use Rattle.tora_simulate.specs.Statuses.{traced_status};
ghost use Rattle.tora_script.specs.TraceOuts.{IsHandedOn};

use crate::bar::{Paced, Wiping};
use crate::channel_file::ChannelFile;
use crate::hashing::Hashing;
use crate::progress::rounds_of;
use crate::sim_command::{refuse, report_end};
use crate::{INPUT, MEMORY, Shown, SimulationOptions, status, stop};
use std::alloc::Global;
use std::io;
use std::io::{BufWriter, ErrorKind};
use std::process::ExitCode;
use std::time::Clock;
use tora_lines::{Ended, Input, Output, ReplayError, flushed};
use tora_script::{ChannelTable, FaultReports, Setup, TraceOut, Watched, simulate_traced};
use tora_simulate::{Opened, Paths, Recent, report_at};

/// Reports why the file of the trace or the record cannot be created at `path`, and returns the exit status: 5 if
/// memory ran out, otherwise 1.
pub fn refuse_trace<T: Eprint>(rt: &T, path: &str, error: &io::Error) -> ExitCode
    ensures { IsStatusOfError error.now (exit_status result) }
{
    if error.kind() == ErrorKind::OutOfMemory {
        return stop(rt, MEMORY, "memory");
    }
    let code = stop(rt, INPUT, "input");
    report_at(rt, "", path, error);
    code
}

/// Returns the status of the simulation, or 1 if that is 0 and the trace or the record could not be written. Reports
/// what failed; `path` names the trace or the record.
pub fn traced_status<T: Eprint, V: Output>(
    rt: &T,
    ended: Result<Ended, ReplayError>,
    out: &TraceOut<V>,
    path: &str,
) -> ExitCode
    ensures { exit_status result ≡ traced_status (is_some out.now.failure) ended }
{
    let Some(error) = out.failure() else {
        return status(rt, ended);
    };
    let code = match ended {
        Ok(Ended::Whole) => stop(rt, INPUT, "input"),
        Ok(Ended::Fault(_)) => stop(rt, INPUT, "input"),
        Err(ReplayError::Memory) => stop(rt, MEMORY, "memory"),
        Err(ReplayError::Read) => stop(rt, INPUT, "input"),
        Err(ReplayError::Write) => stop(rt, INPUT, "input"),
    };
    report_at(rt, "", path, error);
    code
}

/// Simulates with these settings, over a channel that the table changes by round, writes the trace, and flushes the
/// writer. The error is `Write` if only the flush fails.
fn simulate_and_flush<S: Watched, T: AllocGlobal + Eprint, R: Input, W: Output, V: Output>(
    reports: FaultReports<'_, T>,
    setup: Setup,
    table: ChannelTable,
    reader: &mut R,
    writer: &mut W,
    out: &mut TraceOut<V>,
) -> Result<Ended, ReplayError>
    requires { IsTimes setup.times }
    ensures whole { IfOk result (λ ended. IfSome (R.remaining reader.old) (λ input.
        SimulatesWith setup (lines_of table) input (W.contents writer.old) (W.contents writer.new) ended)) }
    ensures at_end { result ≡ Ok Ended.Whole → IsAtEnd (R.remaining reader.new) }
    ensures begun { IfErr result (λ e. e ≢ ReplayError.Write →
        IsBegunWith setup (lines_of table) (R.remaining reader.old) (R.remaining reader.new) (W.contents writer.old)
        (W.contents writer.new)) }
    ensures reads { IsReadSo R.did_read reader.old reader.new result }
    ensures flushed { IsFlushed W.did_write W.did_flush result writer.new }
{
    let result = simulate_traced::<S, T, R, W, V>(reports, setup, table, reader, writer, out);
    flushed(writer, result)
}

/// Writes the last record of a trace, with the digest of the input, if the whole input was read.
fn finish<R: Input + Drop, V: Output>(
    alloc: Global,
    reader: Hashing<R>,
    ended: Result<Ended, ReplayError>,
    out: &mut TraceOut<V>,
) {
    if ended != Ok(Ended::Whole) {
        return;
    }
    match reader.digest(alloc) {
        Ok(digest) => out.finish(alloc, &digest),
        Err(_) => out.fail(),
    }
}

/// Simulates the lines of a reader as asked, writes the trace to `out`, and flushes both. `path` only names the trace
/// in reports. Returns the exit status, as `traced_status` does.
pub fn run_over<S: Watched, T: AllocGlobal + Eprint, R: Input + Drop, W: Output, V: Output>(
    reports: FaultReports<'_, T>,
    asked: SimulationOptions,
    reader: R,
    writer: &mut W,
    path: &str,
    out: &mut TraceOut<V>,
) -> ExitCode
    requires { IsTimes asked.setup.times }
    ensures ends { EndsBy (rules_with asked.setup (lines_of asked.file.table)) R.remaining R.did_read W.contents
        W.did_write W.did_flush reader writer.old writer.new (is_some out.new.failure) (exit_status result) }
    ensures trace { (before : TraceOut V) × IsHandedOn V.did_flush before out.new }
{
    let rt = reports.rt;
    let alloc = rt.alloc();
    let mut reader = Hashing::new(Recent::new(alloc, reader));
    let SimulationOptions { setup, file } = asked;
    let ChannelFile { table, digest } = file;
    match &digest {
        None => out.begin(alloc, setup, None),
        Some(digest) => out.begin(alloc, setup, Some(digest.as_str())),
    }
    let result = simulate_and_flush::<S, T, Hashing<Recent<R>>, W, V>(
        reports,
        setup,
        table,
        &mut reader,
        writer,
        out,
    );
    report_end(rt, &reader.reader, result);
    finish(alloc, reader, result, out);
    out.flush();
    traced_status(rt, result, out, path)
}

/// Creates or empties the file of a trace at a path. If that fails, reports why, and the error is the exit status: 5 if
/// memory ran out, otherwise 1.
fn make_trace<T: Paths + AllocGlobal + Eprint>(
    rt: &T,
    path: &str,
) -> Result<TraceOut<BufWriter<T::File>>, ExitCode>
    ensures made { OnOk result ((made : T.File) × T.did_create rt.now path.now (Ok made)) }
    ensures refused { IfErr result (λ code. IsFailed (λ e. T.did_create rt.now path.now (Err e)) (exit_status code)
        ⊎ (exit_status code ≡ 5)) }
{
    let made = match rt.create_path(path) {
        Ok(made) => made,
        Err(error) => return Err(refuse_trace(rt, path, &error)),
    };
    match BufWriter::new(rt.alloc(), made) {
        Ok(records) => Ok(TraceOut::new(records)),
        Err(_) => Err(stop(rt, MEMORY, "memory")),
    }
}

/// Simulates the lines of the file at a path as asked, and writes the trace to the file at another path, which is
/// created or emptied.
///
/// The status is that of the simulation, or 1 if that is 0 and the trace could not be written; 1, before anything is
/// simulated, if the file cannot be opened, that of the trace cannot be created, or both paths are the same; 5 if
/// memory ran out.
pub fn run<S: Watched, T: Paths + AllocGlobal + Eprint + Clock, W: Output>(
    rt: &T,
    asked: SimulationOptions,
    path: &str,
    trace: &str,
    shown: Shown,
    writer: &mut W,
) -> ExitCode
    requires { IsTimes asked.setup.times }
    ensures ends { EndsTraced (T.did_open rt.now) (T.did_create rt.now) T.File.remaining T.did_get
        (rules_with asked.setup (lines_of asked.file.table)) W.contents W.did_write W.did_flush path.now trace.now
        writer.old writer.new (exit_status result) }
    ensures same { path.now ≡ trace.now → (exit_status result ≡ 1) × (writer.new ≡ writer.old) }
{
    let (is_verbose, has_bar) = (shown.is_verbose, shown.has_bar);
    if path == trace {
        let code = stop(rt, INPUT, "input");
        report_at(rt, "", path, &"the trace would overwrite this file");
        return code;
    }
    let total = if has_bar { rounds_of(rt, path) } else { None };
    let opened = match rt.open_path(path) {
        Ok(reader) => Opened::new(rt, reader),
        Err(error) => return refuse(rt, path, &error),
    };
    let mut out = match make_trace(rt, trace) {
        Ok(out) => out,
        Err(code) => return code,
    };
    if has_bar {
        let paced = Paced::new(rt, total, asked.setup.until, opened);
        let wiping = Wiping::new(rt);
        let reports = FaultReports {
            rt: &wiping,
            is_verbose,
        };
        return run_over::<S, Wiping<'_, T>, Paced<'_, T, Opened<'_, T>>, W, BufWriter<T::File>>(
            reports, asked, paced, writer, trace, &mut out,
        );
    }
    let reports = FaultReports { rt, is_verbose };
    run_over::<S, T, Opened<'_, T>, W, BufWriter<T::File>>(
        reports, asked, opened, writer, trace, &mut out,
    )
}
