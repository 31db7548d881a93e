//! `tora drive --record PATH [--times HELLO,SILENCE,RETRY,TRIES] [--large] [--erasure WORD]`: a simulated world that
//! another program drives, and its record.
ghost use Rattle.std.specs.Prelude.{◌≡◌, ◌≢◌, is_some, Ok, None, IfOk, IfErr, IfSome, option_map};
ghost use Rattle.std.specs.Io.KnownBytes.{IsAtEnd};
ghost use Rattle.std.specs.Process.{exit_status};
ghost use Rattle.tora_arq.specs.Settings.{IsTimes};
ghost use Rattle.tora_lines.specs.Reads.{IsReadSo};
ghost use Rattle.tora_simulate.specs.Flushing.{IsFlushed};
ghost use Rattle.tora_script.specs.TraceOuts.{IsHandedOn};
ghost use Rattle.tora_drive.specs.Recording.{DrivesRecorded, IsRecordedBegun};
ghost use Rattle.tora_commands.specs.Driving.{EndsRecorded, EndsRecordedTo};
ghost use Rattle.tora_commands.specs.SetupWords.{asked_options};
ghost use Rattle.tora_commands.specs.TimesWord.{asked_times};

use crate::drive_command::{DriveWords, greet};
use crate::setup_words::asked_options;
use crate::sim_command::report_end;
use crate::traced_command::{refuse_trace, traced_status};
use crate::{INPUT, MEMORY, SetupFault, USAGE, asked_times, stop};
use std::alloc::Global;
use std::io::BufWriter;
use std::process::ExitCode;
use tora_drive::{DriveSetup, Driven, drive_recorded};
use tora_lines::{Ended, Input, Output, ReplayError, flushed};
use tora_script::TraceOut;
use tora_sim::Sim;
use tora_simulate::{Paths, Recent};

/// Runs `tora drive` and writes its record, then flushes the writer. The error is `Write` if only the flush fails.
fn drive_and_flush<S: Driven, R: Input, W: Output, V: Output>(
    alloc: Global,
    setup: DriveSetup,
    reader: &mut R,
    writer: &mut W,
    out: &mut TraceOut<V>,
) -> Result<Ended, ReplayError>
    requires { IsTimes setup.times }
    ensures whole { IfOk result (λ ended. IfSome (R.remaining reader.old) (λ input.
        DrivesRecorded setup input (W.contents writer.old) (W.contents writer.new) ended)) }
    ensures at_end { result ≡ Ok Ended.Whole → IsAtEnd (R.remaining reader.new) }
    ensures begun { IfErr result (λ e. e ≢ ReplayError.Write →
        IsRecordedBegun setup (R.remaining reader.old) (R.remaining reader.new) (W.contents writer.old)
        (W.contents writer.new)) }
    ensures reads { IsReadSo R.did_read reader.old reader.new result }
    ensures flushed { IsFlushed W.did_write W.did_flush result writer.new }
{
    let result = drive_recorded::<S, R, W, V>(alloc, setup, reader, writer, out);
    flushed(writer, result)
}

/// Drives a world with these settings, writes the record to `out`, and flushes both. `path` only names the record in
/// reports. Returns the exit status, as `run` does.
pub fn run_over<T: AllocGlobal + Eprint, R: Input + Drop, W: Output, V: Output>(
    rt: &T,
    setup: DriveSetup,
    reader: R,
    writer: &mut W,
    path: &str,
    out: &mut TraceOut<V>,
) -> ExitCode
    requires { IsTimes setup.times }
    ensures { EndsRecorded setup R.remaining R.did_read W.contents W.did_write W.did_flush reader writer.old writer.new
        (is_some out.new.failure) (exit_status result) }
{
    match greet(writer) {
        Ok(()) => {}
        Err(_) => return stop(rt, INPUT, "input"),
    }
    let alloc = rt.alloc();
    let mut reader = Recent::new(alloc, reader);
    let result = drive_and_flush::<Sim, Recent<R>, W, V>(alloc, setup, &mut reader, writer, out);
    report_end(rt, &reader, result);
    out.flush();
    traced_status(rt, result, out, path)
}

/// Drives a world with these settings, and writes the record to the file at a path, which is created or emptied first.
/// Returns the exit status, as `run` does.
fn run_with<T: Paths + AllocGlobal + Eprint, R: Input + Drop, W: Output>(
    rt: &T,
    setup: DriveSetup,
    path: &str,
    reader: R,
    writer: &mut W,
) -> ExitCode
    requires { IsTimes setup.times }
    ensures { EndsRecordedTo (T.did_create rt.now path.now) setup R.remaining R.did_read W.contents
        W.did_write W.did_flush reader writer.old writer.new (exit_status result) }
{
    let made = match rt.create_path(path) {
        Ok(made) => made,
        Err(error) => return refuse_trace(rt, path, &error),
    };
    let Ok(lines) = BufWriter::new(rt.alloc(), made) else {
        return stop(rt, MEMORY, "memory");
    };
    let mut out = TraceOut::new(lines);
    run_over::<T, R, W, BufWriter<T::File>>(rt, setup, reader, writer, path, &mut out)
}

/// Drives a world by the lines of a reader, as `drive_command::run` does, and writes its record to the file at a path,
/// which is created or emptied first.
///
/// The status is that of the drive, or 1 if that is 0 and the record could not be written; 1, before anything is
/// written, if the file cannot be created; 5 if memory ran out. If the word for times or erasure is malformed, the
/// command line is at fault (2).
pub fn run<T: Paths + AllocGlobal + Eprint, R: Input + Drop, W: Output>(
    rt: &T,
    words: DriveWords<'_>,
    path: &str,
    reader: R,
    writer: &mut W,
) -> ExitCode
    ensures times { asked_times (option_map (λ w. w.now) words.entry.times) ≡ None
        → (exit_status result ≡ 2) × (writer.new ≡ writer.old) }
    ensures erasure { asked_options words.entry.is_large (option_map (λ w. w.now) words.entry.erasure) ≡ None
        → (exit_status result ≡ 2) × (writer.new ≡ writer.old) }
    ensures ends { IfSome (asked_times (option_map (λ w. w.now) words.entry.times)) (λ t.
        IfSome (asked_options words.entry.is_large (option_map (λ w. w.now) words.entry.erasure)) (λ o.
        EndsRecordedTo (T.did_create rt.now path.now) (record { options = o; times = t }) R.remaining R.did_read
        W.contents W.did_write W.did_flush reader writer.old writer.new (exit_status result))) }
{
    let Some(times) = asked_times(words.times) else {
        return stop(rt, USAGE, SetupFault::Times.cause());
    };
    let Some(options) = asked_options(words.is_large, words.erasure) else {
        return stop(rt, USAGE, SetupFault::Erasure.cause());
    };
    run_with(rt, DriveSetup { options, times }, path, reader, writer)
}
