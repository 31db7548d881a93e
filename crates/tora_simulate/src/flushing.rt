//! Simulations whose output is flushed at the end, and bytes that are written and flushed.
ghost use Rattle.std.specs.Prelude.{◌≡◌, ◌≢◌, Ok, OnOk, OnErr, IfOk, IfErr, IfSome};
ghost use Rattle.std.specs.Io.KnownBytes.{Appends, IsAtEnd};
ghost use Rattle.tora_arq.specs.Settings.{IsTimes};
ghost use Rattle.tora_script.specs.Table.{lines_of};
ghost use Rattle.tora_lines.specs.LineText.{fault_of};
ghost use Rattle.tora_script.specs.SimulationText.{first_fault_with, SimulatesWith, IsBegunWith};
ghost use Rattle.tora_lines.specs.Reads.{IsReadSo};
ghost use Rattle.tora_simulate.specs.Flushing.{IsFlushed, FailedWriting};

use std::alloc::Global;
use std::io;
use tora_lines::{Ended, Input, Output, ReplayError, flushed};
use tora_script::{
    ChannelTable, FaultReports, Setup, Simulator, simulate_and_report, simulate_last_and_report,
};

/// Simulates as `simulate_and_report` does, then flushes the writer. Reports why a line is a fault, unless it has more
/// than 4,096 bytes, and, if `reports` asks for it, why an event is refused.
///
/// # Errors
/// Those of `simulate_and_report`; `Write` if only the flush fails.
pub fn simulate_report_and_flush<S: Simulator, T: Eprint, R: Input, W: Output>(
    reports: FaultReports<'_, T>,
    alloc: Global,
    setup: Setup,
    table: ChannelTable,
    reader: &mut R,
    writer: &mut W,
) -> Result<Ended, ReplayError>
    requires { IsTimes setup.times }
    ensures whole { IfOk result (λ ended. IfSome (R.remaining reader.old) (λ input.
        SimulatesWith setup (lines_of table) input (W.contents writer.old) (W.contents writer.new) ended)) }
    ensures at_end { result ≡ Ok Ended.Whole → IsAtEnd (R.remaining reader.new) }
    ensures fault { IfOk result (λ ended. IfSome (R.remaining reader.old) (λ input.
        fault_of ended ≡ first_fault_with setup (lines_of table) input)) }
    ensures begun { IfErr result (λ e. e ≢ ReplayError.Write →
        IsBegunWith setup (lines_of table) (R.remaining reader.old) (R.remaining reader.new) (W.contents writer.old)
        (W.contents writer.new)) }
    ensures reads { IsReadSo R.did_read reader.old reader.new result }
    ensures flushed { IsFlushed W.did_write W.did_flush result writer.new }
{
    let ended = simulate_and_report::<S, T, R, W>(reports, alloc, setup, table, reader, writer);
    flushed(writer, ended)
}

/// As `simulate_report_and_flush`, for a program that ends afterwards: the memory of the world is not freed
/// (`simulate_last_and_report`).
pub fn simulate_last_and_flush<S: Simulator, T: Eprint, R: Input, W: Output>(
    reports: FaultReports<'_, T>,
    alloc: Global,
    setup: Setup,
    table: ChannelTable,
    reader: &mut R,
    writer: &mut W,
) -> Result<Ended, ReplayError>
    requires { IsTimes setup.times }
    ensures whole { IfOk result (λ ended. IfSome (R.remaining reader.old) (λ input.
        SimulatesWith setup (lines_of table) input (W.contents writer.old) (W.contents writer.new) ended)) }
    ensures at_end { result ≡ Ok Ended.Whole → IsAtEnd (R.remaining reader.new) }
    ensures fault { IfOk result (λ ended. IfSome (R.remaining reader.old) (λ input.
        fault_of ended ≡ first_fault_with setup (lines_of table) input)) }
    ensures begun { IfErr result (λ e. e ≢ ReplayError.Write →
        IsBegunWith setup (lines_of table) (R.remaining reader.old) (R.remaining reader.new) (W.contents writer.old)
        (W.contents writer.new)) }
    ensures reads { IsReadSo R.did_read reader.old reader.new result }
    ensures flushed { IsFlushed W.did_write W.did_flush result writer.new }
{
    let ended = simulate_last_and_report::<S, T, R, W>(
        reports, alloc, setup, table, reader, writer,
    );
    flushed(writer, ended)
}

/// Writes bytes, then flushes the writer.
pub fn write_through<W: Output>(writer: &mut W, bytes: &[u8]) -> io::Result<()>
    ensures bytes { OnOk result (Appends (W.contents writer.old) (W.contents writer.new) bytes.now) }
    ensures failed { OnErr result (FailedWriting W.did_write W.did_flush writer.new) }
{
    match writer.put_all(bytes) {
        Ok(()) => writer.hand_on(),
        Err(error) => Err(error),
    }
}
