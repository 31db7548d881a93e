//! `tora replay`: a replay of the lines of a reader.
ghost use Rattle.std.specs.Prelude.{◌≡◌, false, None, IfSome, option_map};
ghost use Rattle.std.specs.Process.{exit_status};
ghost use Rattle.tora_simulate.specs.Endings.{EndsBy};
ghost use Rattle.tora_script.specs.ReplayText.{replay_rules_of};
ghost use Rattle.tora_commands.specs.SetupWords.{asked_erasure};

use crate::flushing::replay_and_flush;
use crate::setup_words::asked_erasure;
use crate::{SetupFault, USAGE, status, stop};
use std::fmt::Display;
use std::process::ExitCode;
use tora_core::Erasure;
use tora_lines::{Ended, Input, Output, ReplayError};
use tora_script::replay_cause;
use tora_simulate::{Recent, report as report_error};

/// Reports why a line is a fault.
fn report_line(rt: &impl Eprint, number: u64, cause: &impl Display) {
    let _ = rt.eprintln(format_args!("tora: line {number}: {cause}"));
}

/// Reports that the line at fault was not stored, because memory ran out.
fn report_lost_line(rt: &impl Eprint, number: u64) {
    let _ = rt.eprintln(format_args!("tora: line {number}: no memory was left to keep the line"));
}

/// Reports why a line is a fault, or what failed.
fn report_end<T: AllocGlobal + Eprint, R: Input>(
    rt: &T,
    reader: &Recent<R>,
    ended: Result<Ended, ReplayError>,
) {
    match ended {
        Ok(Ended::Whole) => {}
        Ok(Ended::Fault(number)) if reader.is_lossy() => {
            report_lost_line(rt, number);
        }
        Ok(Ended::Fault(number)) => {
            let cause = replay_cause(rt.alloc(), number, reader.line(number));
            report_line(rt, number, &cause);
        }
        Err(error) => report_error(rt, &error),
    }
}

/// Replays the lines of a reader for a node with this choice of erasure, and returns the status of the replay.
fn run_with<T: AllocGlobal + Eprint, R: Input + Drop, W: Output>(
    rt: &T,
    erasure: Erasure,
    reader: R,
    writer: &mut W,
) -> ExitCode
    ensures { EndsBy (replay_rules_of erasure) R.remaining R.did_read W.contents W.did_write W.did_flush reader
        writer.old writer.new false (exit_status result) }
{
    let alloc = rt.alloc();
    let mut reader = Recent::new(alloc, reader);
    let result = replay_and_flush(alloc, erasure, &mut reader, writer);
    let code = status(rt, result);
    report_end(rt, &reader, result);
    code
}

/// Replays the lines of a reader, and returns a status: 0 at the end of the input, 1 if a line is a fault or reading or
/// writing failed, 2 if the word for erasure is malformed, 5 if memory ran out. Reports why a line is a fault, and what
/// failed.
pub fn run<T: AllocGlobal + Eprint, R: Input + Drop, W: Output>(
    rt: &T,
    erasure: Option<&str>,
    reader: R,
    _is_verbose: bool,
    writer: &mut W,
) -> ExitCode
    ensures usage { asked_erasure (option_map (λ w. w.now) erasure.entry) ≡ None
        → (exit_status result ≡ 2) × (writer.new ≡ writer.old) }
    ensures ends { IfSome (asked_erasure (option_map (λ w. w.now) erasure.entry)) (λ e.
        EndsBy (replay_rules_of e) R.remaining R.did_read W.contents W.did_write W.did_flush reader writer.old
        writer.new false (exit_status result)) }
{
    let Some(erasure) = asked_erasure(erasure) else {
        return stop(rt, USAGE, SetupFault::Erasure.cause());
    };
    run_with(rt, erasure, reader, writer)
}
