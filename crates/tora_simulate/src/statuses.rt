//! The exit statuses of the program, and the line that it prints on standard error before it ends with one.
ghost use Rattle.std.specs.Prelude.{◌≡◌};
ghost use Rattle.std.specs.Process.{exit_status};
ghost use Rattle.tora_simulate.specs.Statuses.{status_of};

use crate::reporting::report;
use std::process::ExitCode;
use tora_lines::{Ended, ReplayError};

/// The exit status if the input or the configuration is at fault, if a file other than a life file cannot be opened, or
/// if a read or a write failed. 0 means an end without a fault.
pub const INPUT: u8 = 1;

/// The exit status of a wrong command line.
pub const USAGE: u8 = 2;

/// The exit status if a socket cannot be bound, or failed.
pub const SOCKET: u8 = 3;

/// The exit status if a life file cannot be opened, or draws no number.
pub const LIFE: u8 = 4;

/// The exit status if memory ran out.
pub const MEMORY: u8 = 5;

/// Writes `tora: CAUSE` to standard error, and returns the exit status `status`.
pub fn stop(rt: &impl Eprint, status: u8, cause: &str) -> ExitCode
    ensures { exit_status result ≡ status }
{
    report(rt, &cause);
    ExitCode::from(status)
}

/// The exit status of a replay or a simulation: 0 for `Whole`, 5 for `Memory`, otherwise 1. Unless it is 0, first
/// writes `tora: input` or `tora: memory` to standard error.
pub fn status(rt: &impl Eprint, ended: Result<Ended, ReplayError>) -> ExitCode
    ensures { exit_status result ≡ status_of ended }
{
    match ended {
        Ok(Ended::Whole) => ExitCode::SUCCESS,
        Ok(Ended::Fault(_)) => stop(rt, INPUT, "input"),
        Err(ReplayError::Memory) => stop(rt, MEMORY, "memory"),
        Err(ReplayError::Read) => stop(rt, INPUT, "input"),
        Err(ReplayError::Write) => stop(rt, INPUT, "input"),
    }
}
