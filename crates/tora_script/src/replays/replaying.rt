//! The replay of the inputs of one node.
ghost use Rattle.std.specs.Prelude.{◌≡◌, ◌≢◌, ◌≤◌, ℕ, List, [], length, string_bytes, None, Some, Ok, IfOk, IfErr};
ghost use Rattle.std.specs.Prelude.{IfSome};
ghost use Rattle.std.specs.Option.{option_and_then};
ghost use Rattle.std.specs.Io.KnownBytes.{IsAtEnd};
ghost use Rattle.tora_lines.specs.declared.session.TheConstants.{LONGEST_LINE};
ghost use Rattle.tora_lines.specs.Gives.{Gives};
ghost use Rattle.tora_script.specs.ReplayLines.{header_of};
ghost use Rattle.tora_lines.specs.Pieces.{pieces_of};
ghost use Rattle.tora_lines.specs.LineText.{fault_of};
ghost use Rattle.tora_core.specs.declared.erasure.Erasure.{Erasure as AnyErasure};
ghost use Rattle.tora_script.specs.ReplayText.{core_of, next_reply, replay_reply, first_fault, Replays, IsBegun};
ghost use Rattle.tora_script.specs.ReplayText.{first_fault_with, IsFirstFaultWith, ReplaysWith, IsBegunWith};
ghost use Rattle.tora_script.specs.ReplayView.{replay_kind};
ghost use Rattle.tora_lines.specs.Reads.{IsReadSo, IsUnwritten};

use crate::replays::answer::answer;
use crate::replays::parse;
use std::alloc::{AllocError, Global};
use std::marker::Model;
use tora_core::{Core, CoreError, CoreLimits, Erasure, Sends};
use tora_lines::words::LineError;
use tora_lines::{Ended, FileKind, Input, Output, ReplayError, read_lines};

/// The replay of the core that the first line describes, with this treatment of erased levels. The error is `Fault` if
/// the line has another form, or a core within the standard limits refuses it; `Memory` if memory ran out.
#[tactic(auto, unfolding(crate::specs::ReplayText::core_of))]
fn first(alloc: Global, erasure: Erasure, line: &[u8]) -> Result<Replaying, LineError>
    ensures { Gives (λ core. core) result (option_and_then (core_of erasure) (header_of line.now)) }
{
    let header = parse::header(alloc, line)?;
    let limits = CoreLimits::STANDARD;
    match Core::with_erasure(
        alloc,
        erasure,
        limits,
        header.node,
        &header.links,
        &header.dests,
    ) {
        Ok(core) => Ok(Replaying {
            core,
            sends: Sends::new(),
        }),
        Err(CoreError::Memory) => Err(LineError::Memory),
        Err(_) => Err(LineError::Fault),
    }
}

/// The state of a replay between two lines: the core, and a list for the packets of a step. Contracts see only the
/// core.
#[derive(Drop)]
struct Replaying {
    core: Core,
    sends: Sends,
}

impl Model for Replaying {
    ghost use Rattle.tora_core.specs.CoreRun.{CoreView};

    ghost Value = { CoreView };

    ghost view = { λ r. r.core };
}

impl Replaying {
    /// Carries out a line after the first, and writes its output to an empty text. The error is `Fault`, with no
    /// change, for a text that is no such line, and `Memory` if memory ran out.
    fn next(&mut self, line: &[u8], text: &mut String) -> Result<(), LineError>
        requires short { length line.now ≤ LONGEST_LINE }
        requires empty { string_bytes text.old ≡ [] }
        ensures { Gives (λ _. (self.new, string_bytes text.new)) result (next_reply self.old line.now) }
    {
        let Some(line) = parse::line(line) else {
            return Err(LineError::Fault);
        };
        answer(&mut self.core, line, &mut self.sends, text)?;
        Ok(())
    }
}

/// A replay file in progress: the node's choice of erasure, and the node once the first line is read.
#[derive(Drop)]
pub struct ReplayFile {
    erasure: Erasure,
    replaying: Option<Replaying>,
}

/// Carries out a line, and writes its output to an empty text.
#[tactic(auto, unfolding(crate::specs::ReplayText::replay_reply))]
fn take_line(
    replaying: &mut Option<Replaying>,
    alloc: Global,
    erasure: Erasure,
    line: &[u8],
    text: &mut String,
) -> Result<(), LineError>
    requires short { length line.now ≤ LONGEST_LINE }
    requires empty { string_bytes text.old ≡ [] }
    ensures { Gives (λ _. (replaying.new, string_bytes text.new)) result (replay_reply erasure replaying.old line.now) }
{
    match replaying {
        Some(replaying) => replaying.next(line, text),
        None => {
            *replaying = Some(first(alloc, erasure, line)?);
            Ok(())
        }
    }
}

impl FileKind for ReplayFile {
    ghost kind = { replay_kind };

    #[tactic(auto, using(crate::proofs::ReplayLaws::takes))]
    fn take(&mut self, alloc: Global, line: &[u8], text: &mut String) -> Result<(), LineError> {
        let erasure = self.erasure;
        take_line(&mut self.replaying, alloc, erasure, line, text)
    }

    #[tactic(auto, unfolding(tora_lines::specs::LineText::text_from))]
    fn end(&self, _alloc: Global, number: u64) -> Result<Option<u64>, AllocError> {
        match &self.replaying {
            Some(_) => Ok(None),
            None => Ok(Some(number)),
        }
    }
}

/// Reads the lines of a replay file to the end of the input or to the first fault, and writes the output of each line,
/// for a node with `Erasure::Plain`.
///
/// The first line is `node I links LIST dests LIST`, and each further one `NOW up K`, `NOW down K`, `NOW need D`, `NOW
/// from K HEX` or `NOW show`. A line has at most 4,096 bytes without its LF. The output of a line is written by one
/// call of the writer's `write_all`. The memory that it takes does not grow with the number of lines.
///
/// A fault is not an error: `fault N` is written, and the result is `Ended::Fault(N)`.
///
/// # Errors
/// `Memory` if memory ran out; `Read` if a read failed, or after 2^32 reads (an interrupted read is repeated, and
/// counts); `Write` if a write failed. At `Memory` and `Read` the outputs of whole lines were written, never a part of
/// one.
pub fn replay<R: Input, W: Output>(
    alloc: Global,
    reader: &mut R,
    writer: &mut W,
) -> Result<Ended, ReplayError>
    // The written text is the output of the whole input, and the input ends as the result says.
    ensures whole { IfOk result (λ ended. IfSome (R.remaining reader.old) (λ input.
        Replays input (W.contents writer.old) (W.contents writer.new) ended)) }
    ensures at_end { result ≡ Ok Ended.Whole → IsAtEnd (R.remaining reader.new) }
    ensures fault { IfOk result (λ ended.
        IfSome (R.remaining reader.old) (λ input. fault_of ended ≡ first_fault input)) }
    // The written text is a prefix of the output of the lines that were read.
    ensures begun { IfErr result (λ e. e ≢ ReplayError.Write →
        IsBegun (R.remaining reader.old) (R.remaining reader.new) (W.contents writer.old) (W.contents writer.new)) }
    ensures reads { IsReadSo R.did_read reader.old reader.new result }
    ensures failed { IfErr result (λ e. e ≡ ReplayError.Write → IsUnwritten W.did_write writer.new) }
{
    replay_with(alloc, Erasure::Plain, reader, writer)
}

/// As `replay`, for a node with this treatment of erased levels.
///
/// # Errors
/// Those of `replay`.
#[tactic(auto, unfolding(tora_lines::specs::Engine::text_of))]
pub fn replay_with<R: Input, W: Output>(
    alloc: Global,
    erasure: Erasure,
    reader: &mut R,
    writer: &mut W,
) -> Result<Ended, ReplayError>
    ensures whole { IfOk result (λ ended. IfSome (R.remaining reader.old) (λ input.
        ReplaysWith erasure input (W.contents writer.old) (W.contents writer.new) ended)) }
    ensures at_end { result ≡ Ok Ended.Whole → IsAtEnd (R.remaining reader.new) }
    ensures fault { IfOk result (λ ended. IfSome (R.remaining reader.old) (λ input.
        fault_of ended ≡ first_fault_with erasure input)) }
    ensures begun { IfErr result (λ e. e ≢ ReplayError.Write →
        IsBegunWith erasure (R.remaining reader.old) (R.remaining reader.new) (W.contents writer.old)
        (W.contents writer.new)) }
    ensures reads { IsReadSo R.did_read reader.old reader.new result }
    ensures failed { IfErr result (λ e. e ≡ ReplayError.Write → IsUnwritten W.did_write writer.new) }
{
    let state = ReplayFile {
        erasure,
        replaying: None,
    };
    read_lines(alloc, state, reader, writer)
}

/// The line number of a fault is that of the first line that is a fault: all lines before it were carried out, and that
/// line was not.
pub fn replay_fault_is_the_first()
    ensures found { (erasure : AnyErasure) (bytes : List ℕ) (n : ℕ) → first_fault_with erasure bytes ≡ Some n
        → IsFirstFaultWith erasure None 1 (pieces_of bytes) n }
    ensures only { (erasure : AnyErasure) (bytes : List ℕ) (n : ℕ) → IsFirstFaultWith erasure None 1 (pieces_of bytes) n
        → first_fault_with erasure bytes ≡ Some n }
{}
