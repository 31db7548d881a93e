//! Replays and simulations, each followed by a flush of the writer.
ghost use Rattle.std.specs.Prelude.{◌≡◌, ◌≢◌, Bool, Ok, IfOk, IfErr, IfSome};
ghost use Rattle.std.specs.Io.KnownBytes.{IsAtEnd, Keeps};
ghost use Rattle.tora_arq.specs.Settings.{IsTimes};
ghost use Rattle.tora_lines.specs.LineText.{fault_of};
ghost use Rattle.tora_script.specs.ReplayText.{first_fault_with, ReplaysWith, IsBegunWith};
ghost use Rattle.tora_script.specs.SimulationText.{first_simulation_fault, Simulates, IsSimulationBegun};
ghost use Rattle.tora_lines.specs.Flushing.{after_flush};
ghost use Rattle.tora_lines.specs.Reads.{IsReadSo};
ghost use Rattle.tora_simulate.specs.Flushing.{IsFlushed};

use std::alloc::Global;
use tora_arq::Times;
use tora_core::Erasure;
use tora_lines::{Ended, Input, Output, ReplayError, flushed};
use tora_script::{Simulator, replay_with, simulate_in, simulate_with_reports};

/// Replays for a node with this choice of erasure, then flushes the writer. The error is `Write` if only the flush
/// fails.
pub fn replay_and_flush<R: Input, W: Output>(
    alloc: Global,
    erasure: Erasure,
    reader: &mut R,
    writer: &mut W,
) -> Result<Ended, ReplayError>
    ensures whole { IfOk result (λ ended. IfSome (R.remaining reader.old) (λ input.
        ReplaysWith erasure input (W.contents writer.old) (W.contents writer.new) ended)) }
    ensures at_end { result ≡ Ok Ended.Whole → IsAtEnd (R.remaining reader.new) }
    ensures fault { IfOk result (λ ended. IfSome (R.remaining reader.old) (λ input.
        fault_of ended ≡ first_fault_with erasure input)) }
    ensures begun { IfErr result (λ e. e ≢ ReplayError.Write →
        IsBegunWith erasure (R.remaining reader.old) (R.remaining reader.new) (W.contents writer.old)
        (W.contents writer.new)) }
    ensures reads { IsReadSo R.did_read reader.old reader.new result }
    ensures flushed { IsFlushed W.did_write W.did_flush result writer.new }
{
    let result = replay_with(alloc, erasure, reader, writer);
    flushed(writer, result)
}

/// Simulates with these times of every link end, then flushes the writer. The error is `Write` if only the flush fails.
pub fn simulate_and_flush<S: Simulator, R: Input, W: Output>(
    alloc: Global,
    times: Times,
    reader: &mut R,
    writer: &mut W,
) -> Result<Ended, ReplayError>
    requires { IsTimes times }
    ensures whole { IfOk result (λ ended. IfSome (R.remaining reader.old) (λ input.
        Simulates times input (W.contents writer.old) (W.contents writer.new) ended)) }
    ensures at_end { result ≡ Ok Ended.Whole → IsAtEnd (R.remaining reader.new) }
    ensures fault { IfOk result (λ ended. IfSome (R.remaining reader.old) (λ input.
        fault_of ended ≡ first_simulation_fault times input)) }
    ensures begun { IfErr result (λ e. e ≢ ReplayError.Write →
        IsSimulationBegun times (R.remaining reader.old) (R.remaining reader.new) (W.contents writer.old)
        (W.contents writer.new)) }
    ensures reads { IsReadSo R.did_read reader.old reader.new result }
    ensures flushed { IsFlushed W.did_write W.did_flush result writer.new }
{
    let result = simulate_in::<S, R, W>(alloc, times, reader, writer);
    flushed(writer, result)
}

/// Simulates as `simulate_and_flush` does, and reports on standard error why events are refused, and why a line is a
/// fault, unless the line has more than 4,096 bytes.
pub fn simulate_with_reports_and_flush<S: Simulator, T: Eprint, R: Input, W: Output>(
    rt: &T,
    alloc: Global,
    times: Times,
    reader: &mut R,
    writer: &mut W,
) -> Result<Ended, ReplayError>
    requires { IsTimes times }
    ensures whole { IfOk result (λ ended. IfSome (R.remaining reader.old) (λ input.
        Simulates times input (W.contents writer.old) (W.contents writer.new) ended)) }
    ensures at_end { result ≡ Ok Ended.Whole → IsAtEnd (R.remaining reader.new) }
    ensures fault { IfOk result (λ ended. IfSome (R.remaining reader.old) (λ input.
        fault_of ended ≡ first_simulation_fault times input)) }
    ensures begun { IfErr result (λ e. e ≢ ReplayError.Write →
        IsSimulationBegun times (R.remaining reader.old) (R.remaining reader.new) (W.contents writer.old)
        (W.contents writer.new)) }
    ensures reads { IsReadSo R.did_read reader.old reader.new result }
    ensures flushed { IsFlushed W.did_write W.did_flush result writer.new }
{
    let result = simulate_with_reports::<S, T, R, W>(rt, alloc, times, reader, writer);
    flushed(writer, result)
}
