//! The simulation of a file of lines in the simulator of the program.
ghost use Rattle.std.specs.Prelude.{◌≡◌, ◌≢◌, Ok, IfOk, IfErr, IfSome};
ghost use Rattle.std.specs.Io.KnownBytes.{IsAtEnd};
ghost use Rattle.tora_arq.specs.declared.times.TheConstants.Times.{STANDARD};
ghost use Rattle.tora_arq.specs.Settings.{IsTimes};
ghost use Rattle.tora_lines.specs.LineText.{fault_of};
ghost use Rattle.tora_script.specs.SimulationText.{first_simulation_fault, Simulates, IsSimulationBegun};
ghost use Rattle.tora_lines.specs.Reads.{IsReadSo, IsUnwritten};

use std::alloc::Global;
use tora_arq::{Times, standard_times};
use tora_lines::{Ended, Input, Output, ReplayError};
use tora_script::simulate_in;
use tora_sim::Sim;

/// Reads the lines of a simulation file to the end of the input or to the first line that is a fault, and writes the
/// output of each line.
///
/// The first line is `dests LIST`. Lines `link A B` follow, at least one, then any lines `old N` and `erasure N WORD`,
/// and then the lines of `docs/formats.md`, "Simulation files". A line has at most 4,096 bytes without its LF. The
/// output of a line is written by one call of the writer's `write_all`.
///
/// The world keeps all that was ever sent, so its memory grows with the run. Its link ends have the times of the
/// program, `Times::STANDARD`. A fault is not an error: `fault N` is written, and the result is `Ended::Fault(N)`.
///
/// # Errors
/// `Memory` if memory ran out; `Read` if a read failed, or after 2^32 reads, interrupted ones included; `Write` if a
/// write failed. At `Memory` and `Read` the outputs of whole lines were written.
pub fn simulate<R: Input, W: Output>(
    alloc: Global,
    reader: &mut R,
    writer: &mut W,
) -> Result<Ended, ReplayError>
    // The written text is the output of the whole input, and the input ends as the result says.
    ensures whole { IfOk result (λ ended. IfSome (R.remaining reader.old) (λ input.
        Simulates STANDARD input (W.contents writer.old) (W.contents writer.new) ended)) }
    ensures at_end { result ≡ Ok Ended.Whole → IsAtEnd (R.remaining reader.new) }
    ensures fault { IfOk result (λ ended. IfSome (R.remaining reader.old) (λ input.
        fault_of ended ≡ first_simulation_fault STANDARD input)) }
    // The written text is a prefix of the output of the lines that were read.
    ensures begun { IfErr result (λ e. e ≢ ReplayError.Write →
        IsSimulationBegun STANDARD (R.remaining reader.old) (R.remaining reader.new) (W.contents writer.old)
        (W.contents writer.new)) }
    ensures reads { IsReadSo R.did_read reader.old reader.new result }
    ensures failed { IfErr result (λ e. e ≡ ReplayError.Write → IsUnwritten W.did_write writer.new) }
{
    standard_times();
    simulate_with(alloc, Times::STANDARD, reader, writer)
}

/// Simulates as `simulate` does, but in a world whose link ends have these times, none of which is 0.
///
/// # Errors
/// Those of `simulate`.
pub fn simulate_with<R: Input, W: Output>(
    alloc: Global,
    times: Times,
    reader: &mut R,
    writer: &mut W,
) -> Result<Ended, ReplayError>
    requires { IsTimes times }
    // The written text is the output of the whole input, and the input ends as the result says.
    ensures whole { IfOk result (λ ended. IfSome (R.remaining reader.old) (λ input.
        Simulates times input (W.contents writer.old) (W.contents writer.new) ended)) }
    ensures at_end { result ≡ Ok Ended.Whole → IsAtEnd (R.remaining reader.new) }
    ensures fault { IfOk result (λ ended. IfSome (R.remaining reader.old) (λ input.
        fault_of ended ≡ first_simulation_fault times input)) }
    // The written text is a prefix of the output of the lines that were read.
    ensures begun { IfErr result (λ e. e ≢ ReplayError.Write →
        IsSimulationBegun times (R.remaining reader.old) (R.remaining reader.new) (W.contents writer.old)
        (W.contents writer.new)) }
    ensures reads { IsReadSo R.did_read reader.old reader.new result }
    ensures failed { IfErr result (λ e. e ≡ ReplayError.Write → IsUnwritten W.did_write writer.new) }
{
    simulate_in::<Sim, R, W>(alloc, times, reader, writer)
}
