//! The lines of a drive after the links.
ghost use Rattle.std.specs.Prelude.{◌≡◌};
ghost use Rattle.tora_drive.specs.DriveLines.{own_line_of, drive_line_of};
ghost use Rattle.tora_drive.specs.Recording.{says_notice};

use tora_height::Id;
use tora_lines::{after, words};
use tora_script::{SimulationLine, is_word, pair, simulation_line};

/// A line after the links.
#[derive(Clone, Copy, Debug)]
pub enum DriveLine {
    /// A line of a simulation file after the links; also `take`, as the delivery that it stands for.
    Script(SimulationLine),
    /// A round in which no datagram is delivered.
    Step,
    /// Prints `need N D` for each node N and each destination D to which the core of N requires a route.
    Needs,
    /// Ends the silence of the first node's end towards the second.
    Near(Id, Id),
    /// Makes the first node's end towards the second silent: it sends nothing in a step.
    Far(Id, Id),
    /// Cuts the session of the first node's end towards the second.
    Notice(Id, Id),
    /// Prints the bytes of the datagram with this number, from 1.
    Bytes(u64),
    /// Forgets the datagrams up to this number: they can no longer be named.
    Forget(u64),
}

/// Reads `near N K`, `far N K`, `notice N K`, `bytes ID` or `forget ID`; `None` for any other text.
#[tactic(auto, unfolding(crate::specs::DriveLines::own_line_of, crate::specs::DriveLines::for_number, tora_script::specs::SimulationLines::for_pair))]
fn own_line(text: &[u8]) -> Option<DriveLine>
    ensures { result ≡ own_line_of text.now }
{
    if let Some(rest) = after(b"near ", text) {
        let (n, k) = pair(rest)?;
        return Some(DriveLine::Near(n, k));
    }
    if let Some(rest) = after(b"far ", text) {
        let (n, k) = pair(rest)?;
        return Some(DriveLine::Far(n, k));
    }
    if let Some(rest) = after(b"notice ", text) {
        let (n, k) = pair(rest)?;
        return Some(DriveLine::Notice(n, k));
    }
    if let Some(rest) = after(b"bytes ", text) {
        return Some(DriveLine::Bytes(words::number(rest)?));
    }
    if let Some(rest) = after(b"forget ", text) {
        return Some(DriveLine::Forget(words::number(rest)?));
    }
    None
}

/// Reads a line after the links, other than `take A B HEX`, which `line_in` reads. `None` for any other text; the names
/// in a line are not checked.
#[tactic(auto, unfolding(crate::specs::DriveLines::drive_line_of))]
pub fn drive_line(text: &[u8]) -> Option<DriveLine>
    ensures { result ≡ drive_line_of text.now }
{
    if is_word(b"step", text) {
        return Some(DriveLine::Step);
    }
    if is_word(b"needs", text) {
        return Some(DriveLine::Needs);
    }
    match simulation_line(text) {
        Some(line) => Some(DriveLine::Script(line)),
        None => own_line(text),
    }
}

/// Whether a line is `notice N K`.
pub fn says_notice(text: &[u8]) -> bool
    ensures { result ≡ says_notice text.now }
{
    match drive_line(text) {
        Some(DriveLine::Notice(_, _)) => true,
        _ => false,
    }
}
