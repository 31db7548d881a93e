//! Why a line of a drive is a fault.
ghost use Rattle.std.specs.Prelude.{◌≡◌, ◌++◌, OnOk, string_bytes};
ghost use Rattle.tora_script.specs.SimulationView.{progress_of};
ghost use Rattle.tora_drive.specs.DriveText.{cause_of_line, cause_behind_links, cause_of, cause_words, fault_line};

use crate::line::drive_line;
use std::alloc::AllocError;
use tora_script::{LinkLines, Simulator, Stage};
use tora_sim::topology_fault_within;
use tora_world::Limits;

/// Why a line is a fault.
#[derive(Clone, Copy, Debug, PartialEq, Eq)]
pub enum Cause {
    /// No line `dests LIST` was accepted yet, and the line is none.
    Dests,
    /// The destinations were accepted, but no link yet, and the line is not `link A B`.
    NoLink,
    /// Links were accepted, the world is not made yet, and the links or the destinations are refused.
    Topology,
    /// After the links, the line has a known form, but names a node, a link or a destination that does not exist.
    Name,
    /// After the links, the line has none of the forms that are possible at its place, or it is `old N` or
    /// `erasure N WORD` for a node without a link.
    Word,
    /// The drive is recorded, and no line of a simulation file has the effect of this line.
    Recorded,
}

impl Cause {
    /// The cause in words, as it is printed.
    #[tactic(auto, unfolding(crate::specs::DriveText::cause_words))]
    fn words(self) -> &'static str
        ensures { result.now ≡ cause_words self }
    {
        match self {
            Cause::Dests => "the first line is `dests LIST`, the destinations",
            Cause::NoLink => "after the first line a line `link A B` is required",
            Cause::Topology => "the links and destinations are refused",
            Cause::Name => "it names a node, a link or a destination that does not exist",
            Cause::Word => "it is no line that may stand here",
            Cause::Recorded => "no line of a record corresponds to it",
        }
    }
}

/// The cause for a line after the links: `Name` if the line has a known form, otherwise `Word`.
fn cause_of_line(line: &[u8]) -> Cause
    ensures { result ≡ cause_of_line line.now }
{
    match drive_line(line) {
        Some(_) => Cause::Name,
        None => Cause::Word,
    }
}

/// The cause for a line after `dests LIST`, before the drive begins: `NoLink` if no link was read, `Topology` if the
/// links and destinations are refused, and otherwise that of `cause_of_line`.
fn cause_behind_links(limits: Limits, lines: &LinkLines, line: &[u8]) -> Cause
    ensures { result ≡ cause_behind_links limits lines.now.dests.items lines.now.links.items line.now }
{
    if lines.links.is_empty() {
        return Cause::NoLink;
    }
    match topology_fault_within(limits, &lines.links, &lines.dests) {
        None => cause_of_line(line),
        Some(_) => Cause::Topology,
    }
}

/// Why a line is a fault at this stage of a drive, if it is one. The limits are those for the links and destinations.
/// The result is never `Recorded`.
#[tactic(auto, unfolding(crate::specs::DriveText::cause_of))]
pub fn fault_cause<S: Simulator>(limits: Limits, stage: &Stage<S>, line: &[u8]) -> Cause
    ensures { result ≡ cause_of limits (progress_of S.world stage.now) line.now }
{
    match stage {
        Stage::First => Cause::Dests,
        Stage::Links(lines) => cause_behind_links(limits, lines, line),
        Stage::Runs(_) => cause_of_line(line),
    }
}

/// Appends `fault N CAUSE` to a text.
#[tactic(auto, unfolding(crate::specs::DriveText::fault_line))]
pub fn write_fault(out: &mut String, number: u64, cause: Cause) -> Result<(), AllocError>
    ensures { OnOk result (string_bytes out.new ≡ string_bytes out.old ++ fault_line number cause) }
{
    let words = cause.words();
    writeln!(out, "fault {number} {words}")
}
