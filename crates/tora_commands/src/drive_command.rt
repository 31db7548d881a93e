//! `tora drive [--times HELLO,SILENCE,RETRY,TRIES] [--large] [--erasure WORD]`: a simulated world that another program
//! drives, a line at a time.
ghost use Rattle.std.specs.Prelude.{◌≡◌, ◌≢◌, Ok, None, OnOk, OnErr, IfOk, IfErr, IfSome, option_map};
ghost use Rattle.std.specs.Io.KnownBytes.{Appends, IsAtEnd};
ghost use Rattle.std.specs.Process.{exit_status};
ghost use Rattle.tora_arq.specs.Settings.{IsTimes};
ghost use Rattle.tora_lines.specs.Reads.{IsReadSo};
ghost use Rattle.tora_drive.specs.DriveText.{greeting, Drives, IsDriveBegun};
ghost use Rattle.tora_simulate.specs.Flushing.{IsFlushed, FailedWriting};
ghost use Rattle.tora_commands.specs.Driving.{EndsDrive};
ghost use Rattle.tora_commands.specs.SetupWords.{asked_options};
ghost use Rattle.tora_commands.specs.TimesWord.{asked_times};

use crate::setup_words::asked_options;
use crate::sim_command::report_end;
use crate::{INPUT, SetupFault, USAGE, asked_times, status, stop};
use std::alloc::Global;
use std::io;
use std::process::ExitCode;
use tora_drive::{DriveSetup, Driven, drive_in};
use tora_lines::{Ended, Input, Output, ReplayError, flushed};
use tora_sim::Sim;
use tora_simulate::{Recent, write_through};

/// The words after the options of `tora drive`; `None` for an option that is not given.
#[derive(Clone, Copy)]
pub struct DriveWords<'a> {
    pub times: Option<&'a str>,
    /// The choice of erasure of the nodes.
    pub erasure: Option<&'a str>,
    /// Whether `--large` is given.
    pub is_large: bool,
}

/// Writes the greeting `tora drive 1`, then flushes the writer.
pub(crate) fn greet<W: Output>(writer: &mut W) -> io::Result<()>
    ensures greets { OnOk result (Appends (W.contents writer.old) (W.contents writer.new) greeting) }
    ensures failed { OnErr result (FailedWriting W.did_write W.did_flush writer.new) }
{
    write_through(writer, b"tora drive 1\n")
}

/// Runs `tora drive`, then flushes the writer. The error is `Write` if only the flush fails.
fn drive_and_flush<S: Driven, R: Input, W: Output>(
    alloc: Global,
    setup: DriveSetup,
    reader: &mut R,
    writer: &mut W,
) -> Result<Ended, ReplayError>
    requires { IsTimes setup.times }
    ensures whole { IfOk result (λ ended. IfSome (R.remaining reader.old) (λ input.
        Drives setup input (W.contents writer.old) (W.contents writer.new) ended)) }
    ensures at_end { result ≡ Ok Ended.Whole → IsAtEnd (R.remaining reader.new) }
    ensures begun { IfErr result (λ e. e ≢ ReplayError.Write →
        IsDriveBegun setup (R.remaining reader.old) (R.remaining reader.new) (W.contents writer.old)
        (W.contents writer.new)) }
    ensures reads { IsReadSo R.did_read reader.old reader.new result }
    ensures flushed { IsFlushed W.did_write W.did_flush result writer.new }
{
    let result = drive_in::<S, R, W>(alloc, setup, reader, writer);
    flushed(writer, result)
}

/// Writes the greeting, and drives a world with these settings. Returns the exit status, as `run` does.
fn run_with<T: AllocGlobal + Eprint, R: Input + Drop, W: Output>(
    rt: &T,
    setup: DriveSetup,
    reader: R,
    writer: &mut W,
) -> ExitCode
    requires { IsTimes setup.times }
    ensures { EndsDrive setup R.remaining R.did_read W.contents W.did_write W.did_flush reader writer.old
        writer.new (exit_status result) }
{
    match greet(writer) {
        Ok(()) => {}
        Err(_) => return stop(rt, INPUT, "input"),
    }
    let alloc = rt.alloc();
    let mut reader = Recent::new(alloc, reader);
    let result = drive_and_flush::<Sim, Recent<R>, W>(alloc, setup, &mut reader, writer);
    report_end(rt, &reader, result);
    status(rt, result)
}

/// Drives a world by the lines of a reader, and returns a status: 0 at the end of the input, 1 if reading or writing
/// failed, 5 if memory ran out. If the word for times or erasure is malformed, the command line is at fault (2), and
/// nothing is written.
///
/// The writer must pass on at once what is written, because the other program waits for it.
pub fn run<T: AllocGlobal + Eprint, R: Input + Drop, W: Output>(
    rt: &T,
    words: DriveWords<'_>,
    reader: R,
    writer: &mut W,
) -> ExitCode
    ensures times { asked_times (option_map (λ w. w.now) words.entry.times) ≡ None
        → (exit_status result ≡ 2) × (writer.new ≡ writer.old) }
    ensures erasure { asked_options words.entry.is_large (option_map (λ w. w.now) words.entry.erasure) ≡ None
        → (exit_status result ≡ 2) × (writer.new ≡ writer.old) }
    ensures ends { IfSome (asked_times (option_map (λ w. w.now) words.entry.times)) (λ t.
        IfSome (asked_options words.entry.is_large (option_map (λ w. w.now) words.entry.erasure)) (λ o.
        EndsDrive (record { options = o; times = t }) R.remaining R.did_read W.contents W.did_write W.did_flush reader
        writer.old writer.new (exit_status result))) }
{
    let Some(times) = asked_times(words.times) else {
        return stop(rt, USAGE, SetupFault::Times.cause());
    };
    let Some(options) = asked_options(words.is_large, words.erasure) else {
        return stop(rt, USAGE, SetupFault::Erasure.cause());
    };
    run_with(rt, DriveSetup { options, times }, reader, writer)
}
