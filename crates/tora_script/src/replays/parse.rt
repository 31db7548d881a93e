//! Parses the lines of a replay file.
ghost use Rattle.tora_script.specs.ReplayGrammar.{SpellsHeader, SpellsLine};
ghost use Rattle.tora_script.specs.declared.replays.line.Line.{Line as AnyLine};
ghost use Rattle.std.specs.Prelude.{◌≡◌, Some, List, ℕ, ◌≤◌, ◌<◌, IfSome, IfOk, All, codes, length};
ghost use Rattle.std.specs.Option.{option_map};
ghost use Rattle.tora_lines.specs.declared.session.TheConstants.{LONGEST_LINE};
ghost use Rattle.tora_lines.specs.Words.{cut, number_of, id_of};
ghost use Rattle.tora_lines.specs.Gives.{Gives};
ghost use Rattle.tora_lines.specs.Fronts.{after};
ghost use Rattle.tora_script.specs.ReplayLines.{HeaderParts, header, header_of, from_of, is_show, order_of, line_of};

use crate::replays::line::{Header, Line, Order};
use crate::replays::packet_word::packet;
use std::alloc::Global;
use tora_height::Id;
use tora_lines::words::LineError;
use tora_lines::{after, behind, words};

/// The parts of the text before and after the first blank. The error is `Fault` if there is none.
fn word(text: &[u8]) -> Result<(&[u8], &[u8]), LineError>
    ensures { Gives (λ parts. (parts.0.now, parts.1.now)) result (cut 32 text.now) }
{
    match words::cut(b' ', text) {
        Some(parts) => Ok(parts),
        None => Err(LineError::Fault),
    }
}

/// Reads a node number, from 1 to 2^32 - 1. The error is `Fault` for any other text.
fn id(text: &[u8]) -> Result<Id, LineError>
    ensures value { Gives (λ n. n) result (id_of text.now) }
    ensures positive { IfOk result (λ n. 0 < n) }
{
    match words::id(text) {
        Some(n) => Ok(n),
        None => Err(LineError::Fault),
    }
}

/// Reads the first line, `node I links LIST dests LIST`. The error is `Fault` for any other text, and `Memory` if
/// memory ran out.
#[tactic(auto, unfolding(crate::specs::ReplayLines::header_of))]
pub fn header(alloc: Global, text: &[u8]) -> Result<Header, LineError>
    ensures value { Gives header result (header_of text.now) }
    ensures positive { IfOk result (λ h. (0 < h.node) × All (λ k. 0 < k) h.links.items
        × All (λ d. 0 < d) h.dests.items) }
{
    let (node, rest) = word(behind(b"node ", text)?)?;
    let node = id(node)?;
    let (links, rest) = word(behind(b"links ", rest)?)?;
    let links = words::list(alloc, links)?;
    let dests = words::list(alloc, behind(b"dests ", rest)?)?;
    Ok(Header { node, links, dests })
}

/// Reads `K HEX`, the rest of a line after `from `: the neighbour K, and the packet that HEX encodes, or why its bytes
/// are not a packet. `None` for any other text.
#[tactic(auto, unfolding(crate::specs::ReplayLines::from_of))]
fn from(text: &[u8]) -> Option<Order>
    requires { length text.now ≤ LONGEST_LINE }
    ensures { result ≡ from_of text.now }
{
    let (neighbour, rest) = words::cut(b' ', text)?;
    let neighbour = words::id(neighbour)?;
    let read = packet(rest)?;
    Some(Order::From(neighbour, read))
}

/// Whether the text is `show`.
#[tactic(auto, unfolding(crate::specs::ReplayLines::is_show))]
fn is_show(text: &[u8]) -> bool
    ensures { result ≡ is_show text.now }
{
    text.len() == 4 && after(b"show", text).is_some()
}

/// Reads the order of a line: `from K HEX`, `up K`, `down K`, `need D` or `show`; `None` for any other text.
#[tactic(auto, unfolding(crate::specs::ReplayLines::order_of, crate::specs::ReplayLines::with_id))]
fn order(text: &[u8]) -> Option<Order>
    requires { length text.now ≤ LONGEST_LINE }
    ensures { result ≡ order_of text.now }
{
    if let Some(rest) = after(b"from ", text) {
        return from(rest);
    }
    if let Some(rest) = after(b"up ", text) {
        return Some(Order::Up(words::id(rest)?));
    }
    if let Some(rest) = after(b"down ", text) {
        return Some(Order::Down(words::id(rest)?));
    }
    if let Some(rest) = after(b"need ", text) {
        return Some(Order::Need(words::id(rest)?));
    }
    if is_show(text) {
        Some(Order::Show)
    } else {
        None
    }
}

/// Reads a line after the first: its time in ticks of 100 ms, below 2^64, and its order. `None` for any other text.
#[tactic(auto, unfolding(crate::specs::ReplayLines::line_of))]
pub fn line(text: &[u8]) -> Option<Line>
    requires { length text.now ≤ LONGEST_LINE }
    ensures { result ≡ line_of text.now }
{
    let (now, rest) = words::cut(b' ', text)?;
    let now = words::number(now)?;
    let order = order(rest)?;
    Some(Line { now, order })
}

/// A line is read as a first line exactly if it has the documented form.
pub fn replay_first_lines_are_read_as_written()
    ensures found { (text : List ℕ) (h : HeaderParts) → header_of text ≡ Some h → SpellsHeader text h }
    ensures only { (text : List ℕ) (h : HeaderParts) → SpellsHeader text h → header_of text ≡ Some h }
{}

/// A line is read as a line after the first exactly if it has the documented form.
pub fn replay_lines_are_read_as_written()
    ensures found { (text : List ℕ) (line : AnyLine) → line_of text ≡ Some line → SpellsLine text line }
    ensures only { (text : List ℕ) (line : AnyLine) → SpellsLine text line → line_of text ≡ Some line }
{}
