//! The commands of the program `tora`, over any readers and writers, and their exit statuses.
//!
//! They are the command line (`command`), the replay of a reader (`replay_command`), the simulation of a file
//! (`simulate_file`), also with a trace (`traced_command`), a simulated world that another program drives
//! (`drive_command`, `record_command`), a new key (`key_command`), and the running node (`node_command`) with its
//! configuration file (`configuration`). This crate does not use the program's standard input and output; `main` passes
//! them in.
#![tactic(auto)]

ghost use Rattle.std.specs.Prelude.{◌≡◌, ◌≢◌, ◌⊎◌, [], true, None, is_ok, option_map, IfSome, IfOk, IfErr};
ghost use Rattle.std.specs.Process.{exit_status};
ghost use Rattle.clap.specs.Words.{kind_of};
ghost use Rattle.tora_script.specs.SimulationText.{rules_over, rules_with};
ghost use Rattle.tora_commands.specs.SetupWords.{asked_by};
ghost use Rattle.tora_arq.specs.Settings.{IsTimes};
ghost use Rattle.tora_script.specs.Table.{lines_of};
ghost use Rattle.tora_commands.specs.ChannelFiles.{IsTableFile, IsNoTable, IsTracePlace, EndsFiled};
ghost use Rattle.tora_simulate.specs.Endings.{EndsSimulated};

mod bar;
mod bar_command;
mod channel_file;
mod command_line;
pub mod configuration;
pub mod drive_command;
mod flushing;
mod hashing;
pub mod key_command;
mod key_file;
mod life_files;
mod link_wires;
mod log_lines;
pub mod node_command;
mod node_configuration;
mod progress;
pub mod record_command;
pub mod replay_command;
mod setup_words;
mod simulation_options;
mod times_word;
pub mod traced_command;

pub use bar::{Paced, Wiping};
pub use channel_file::ChannelFile;
use clap::error::ErrorKind;
pub use command_line::command;
pub use flushing::{replay_and_flush, simulate_and_flush, simulate_with_reports_and_flush};
pub use log_lines::LogLines;
pub use progress::{Progress, RoundCount};
pub use setup_words::{SetupFault, SetupWords, asked_setup};
pub use simulation_options::{Shown, SimulationOptions};
use std::process::ExitCode;
use std::time::Clock;
pub use times_word::asked_times;
use tora_lines::Output;
use tora_sim::Sim;
pub use tora_simulate::{
    INPUT, LIFE, MEMORY, SOCKET, USAGE, sim_command, simulate_report_and_flush, status, stop,
};
use tora_simulate::{Paths, report, report_at};

/// Reports which words of the command line are not a setup, and why. Returns the status 2.
fn refuse_setup<T: Eprint>(rt: &T, fault: SetupFault<'_>) -> ExitCode
    ensures { exit_status result ≡ 2 }
{
    match fault {
        SetupFault::Part(part) => {
            let part = str::from_utf8(part).unwrap_or("-");
            report_at(rt, "`--channel`: ", part, &fault.cause());
        }
        _ => report(rt, &fault.cause()),
    }
    ExitCode::from(USAGE)
}

/// Reports that the trace would replace the file at `path`, which is read. Returns the status 1.
fn refuse_place<T: Eprint>(rt: &T, path: &str) -> ExitCode
    ensures { exit_status result ≡ 1 }
{
    let code = stop(rt, INPUT, "input");
    report_at(rt, "", path, &"the trace would overwrite this file");
    code
}

/// The content of the channel file at `path`; an empty table without a path. The error is the exit status: 1 if the
/// trace would replace the file, or if the file cannot be read or has a line at fault; 5 if memory ran out.
fn asked_file<T: Paths + AllocGlobal + Eprint>(
    rt: &T,
    path: Option<&str>,
    trace: Option<&str>,
) -> Result<ChannelFile, ExitCode>
    ensures none { path.entry ≡ None → IfOk result (λ file. lines_of file.table ≡ []) }
    ensures reads { path.entry ≡ None → is_ok result ≡ true }
    ensures some { IfSome path.entry (λ p. IfOk result (λ file. IsTableFile (T.did_open rt.now p.now) T.did_read
        T.File.remaining (lines_of file.table))) }
    ensures refused { IfSome path.entry (λ p. IfErr result (λ code.
        IsNoTable (T.did_open rt.now p.now) T.did_read T.File.remaining (exit_status code)
        ⊎ IsTracePlace p.now (option_map (λ t. t.now) trace.entry) (exit_status code))) }
{
    let Some(path) = path else {
        return Ok(ChannelFile::none());
    };
    if trace == Some(path) {
        return Err(refuse_place(rt, path));
    }
    channel_file::channel_file(rt, path)
}

/// Simulates the lines of the file at a path as asked, and writes a trace if there is a path for one; with or without a
/// bar. Returns the exit status.
fn simulate_over<T: Paths + AllocGlobal + Eprint + Clock, W: Output>(
    rt: &T,
    asked: SimulationOptions,
    path: &str,
    trace: Option<&str>,
    shown: Shown,
    writer: &mut W,
) -> ExitCode
    requires { IsTimes asked.setup.times }
    ensures { EndsSimulated (T.did_open rt.now) (T.did_create rt.now) T.File.remaining T.did_get
        (rules_with asked.setup (lines_of asked.file.table)) W.contents W.did_write W.did_flush path.now
        (option_map (λ t. t.now) trace.entry) writer.old writer.new (exit_status result) }
{
    let (is_verbose, has_bar) = (shown.is_verbose, shown.has_bar);
    match trace {
        Some(trace) => traced_command::run::<Sim, T, W>(rt, asked, path, trace, shown, writer),
        None => {
            let SimulationOptions { setup, file } = asked;
            if has_bar {
                bar_command::run::<Sim, T, W>(rt, setup, file.table, path, is_verbose, writer)
            } else {
                sim_command::run::<Sim, T, W>(rt, setup, file.table, path, is_verbose, writer)
            }
        }
    }
}

/// Simulates the lines of the file at a path with the settings that words of the command line ask for, and writes a
/// trace if there is a path for one. Returns the exit status: 2 if a word is malformed, then that of the channel file
/// if it cannot be used, and otherwise that of the simulation, as `traced_command::run` or `sim_command::run` returns
/// it. In the first two cases nothing is written.
pub fn simulate_file<T: Paths + AllocGlobal + Eprint + Clock, W: Output>(
    rt: &T,
    words: SetupWords<'_>,
    path: &str,
    trace: Option<&str>,
    shown: Shown,
    writer: &mut W,
) -> ExitCode
    ensures usage { asked_by words.entry ≡ None → (exit_status result ≡ 2) × (writer.new ≡ writer.old) }
    ensures ends { words.entry.channel_file ≡ None → IfSome (asked_by words.entry) (λ s.
        EndsSimulated (T.did_open rt.now) (T.did_create rt.now) T.File.remaining T.did_get (rules_over s) W.contents
        W.did_write W.did_flush path.now (option_map (λ t. t.now) trace.entry) writer.old writer.new
        (exit_status result)) }
    ensures filed { IfSome words.entry.channel_file (λ p. IfSome (asked_by words.entry) (λ s.
        EndsFiled (T.did_open rt.now) (T.did_create rt.now) T.did_read T.File.remaining T.did_get s W.contents
        W.did_write W.did_flush p.now path.now (option_map (λ t. t.now) trace.entry) writer.old writer.new
        (exit_status result))) }
{
    let setup = match asked_setup(words) {
        Ok(setup) => setup,
        Err(fault) => return refuse_setup(rt, fault),
    };
    match asked_file(rt, words.channel_file, trace) {
        Ok(file) => {
            let asked = SimulationOptions { setup, file };
            simulate_over(rt, asked, path, trace, shown, writer)
        }
        Err(code) => code,
    }
}

/// Prints help, a version or a fault of usage, and returns the exit status: 0 for help or a version, 1 if these cannot
/// be printed, 2 for a fault of usage, 5 if memory ran out.
pub fn usage<R: Print + Eprint>(rt: &R, error: &clap::Error) -> ExitCode
    ensures memory { kind_of error.now ≡ ErrorKind.OutOfMemory → exit_status result ≡ 5 }
    ensures mistake { kind_of error.now ≢ ErrorKind.OutOfMemory → kind_of error.now ≢ ErrorKind.DisplayHelp
        → kind_of error.now ≢ ErrorKind.DisplayVersion → exit_status result ≡ 2 }
    ensures shown { (kind_of error.now ≡ ErrorKind.DisplayHelp) ⊎ (kind_of error.now ≡ ErrorKind.DisplayVersion)
        → (exit_status result ≡ 0) ⊎ (exit_status result ≡ 1) }
{
    if error.kind() == ErrorKind::OutOfMemory {
        return stop(rt, MEMORY, "memory");
    }
    let printed = error.print(rt);
    if error.use_stderr() {
        ExitCode::from(USAGE)
    } else if printed.is_err() {
        stop(rt, INPUT, "input")
    } else {
        ExitCode::SUCCESS
    }
}
