//! A channel file.
ghost use Rattle.std.specs.Prelude.{◌≡◌, option_map};
ghost use Rattle.std.specs.Result.{result_ok};
ghost use Rattle.tora_lines.specs.Words.{cut};
ghost use Rattle.tora_script.specs.declared.channel.table_text.TableError.TheVariants.{Memory};
ghost use Rattle.tora_script.specs.TableText.{line_from, channel_line_of, channel_lines_of, IsRead, Numbers, Reads};

use crate::channel::line::ChannelLine;
use crate::channel::parts::{Parts, channel_parts};
use crate::channel::table::ChannelTable;
use std::alloc::{AllocError, AllocFailed, Global};
use std::fmt::{self, Display, Formatter, Write};
use tora_height::Id;
use tora_lines::words;

/// Why a line of a channel file is refused.
#[derive(Clone, Copy, Debug, PartialEq, Eq)]
pub enum LineCause {
    /// The line has fewer than four words.
    Words,
    /// The first word is not a number below 2^64 in decimal digits without leading zeros.
    Round,
    /// The second or the third word is not a node number, from 1 to 2^32 - 1 without leading zeros.
    Node,
    /// The two nodes are the same.
    OwnLink,
    /// The text after the nodes is not the parts of a channel.
    Parts,
}

impl Display for LineCause {
    fn fmt<W: Write>(&self, f: &mut Formatter<W>) -> fmt::Result {
        f.write_str(match self {
            LineCause::Words => "a line is `T A B PARTS`, with one blank between two words",
            LineCause::Round => "T is a round, a number below 2^64 without leading zeros",
            LineCause::Node => {
                "A and B are nodes, numbers from 1 to 4294967295 without leading zeros"
            }
            LineCause::OwnLink => "A and B are the same node",
            LineCause::Parts => {
                "PARTS are loss=SHARE and repeat=SHARE, from 0 to 1 with up to six digits after \
                 the point, and delay=ROUNDS or delay=LEAST-MOST, up to 10000, each at most \
                 once"
            }
        })
    }
}

/// Why a channel file can't be read.
#[derive(Clone, Copy, Debug, PartialEq, Eq)]
pub enum TableError {
    /// Memory ran out.
    Memory,
    /// The number of the first refused line, from 1, and the cause.
    Line(u64, LineCause),
}

impl From<AllocError> for TableError {
    ghost from_gives = { λ _ e. e ≡ Memory };

    fn from(_e: AllocError) -> TableError {
        TableError::Memory
    }
}

impl<T: Drop> From<AllocFailed<T>> for TableError {
    ghost from_gives = { λ _ e. e ≡ Memory };

    fn from(_e: AllocFailed<T>) -> TableError {
        TableError::Memory
    }
}

/// The line of two nodes. The error is `OwnLink` if they are the same.
fn line_between(round: u64, a: Id, b: Id, parts: Parts) -> Result<ChannelLine, LineCause>
    ensures { result_ok result ≡ line_from round a b parts }
{
    if a == b {
        return Err(LineCause::OwnLink);
    }
    Ok(ChannelLine {
        round,
        low: a.min(b),
        high: a.max(b),
        parts,
    })
}

/// The text before the first blank, and the text after it. The error is `Words` if there is no blank.
fn word(text: &[u8]) -> Result<(&[u8], &[u8]), LineCause>
    ensures { option_map (λ halves. (halves.0.now, halves.1.now)) (result_ok result) ≡ cut 32 text.now }
{
    words::cut(b' ', text).ok_or(LineCause::Words)
}

/// A line `T A B PARTS`.
///
/// # Errors
/// The first of these, from left to right: `Words` for a missing word, `Round` for T, `Node` for A and B, `Parts`; and
/// last `OwnLink` if A is B.
#[tactic(auto, unfolding(crate::specs::TableText::channel_line_of))]
pub fn channel_line(text: &[u8]) -> Result<ChannelLine, LineCause>
    ensures { result_ok result ≡ channel_line_of text.now }
{
    let (round, rest) = word(text)?;
    let round = words::number(round).ok_or(LineCause::Round)?;
    let (a, rest) = word(rest)?;
    let a = words::id(a).ok_or(LineCause::Node)?;
    let (b, rest) = word(rest)?;
    let b = words::id(b).ok_or(LineCause::Node)?;
    match channel_parts(rest) {
        Ok(parts) => line_between(round, a, b, parts),
        Err(_) => Err(LineCause::Parts),
    }
}

/// The line with this number, or why it is refused.
fn numbered_line(number: u64, text: &[u8]) -> Result<ChannelLine, TableError>
    ensures { Numbers number (channel_line_of text.now) result }
{
    match channel_line(text) {
        Ok(line) => Ok(line),
        Err(cause) => Err(TableError::Line(number, cause)),
    }
}

/// The lines of a channel file, each ended by LF; the last one needs none. The error is `Line` for the first line that
/// is refused, and `Memory`.
fn channel_lines(alloc: Global, text: &[u8]) -> Result<Vec<ChannelLine>, TableError>
    ensures { Reads result (channel_lines_of text.now) }
{
    let mut lines = Vec::new(alloc);
    let mut rest = text;
    while let Some((piece, after)) = words::cut(b'\n', rest) {
        match numbered_line(lines.len() as u64 + 1, piece) {
            Ok(line) => lines.push(line)?,
            Err(error) => return Err(error),
        }
        rest = after;
    }
    if rest.is_empty() {
        return Ok(lines);
    }
    match numbered_line(lines.len() as u64 + 1, rest) {
        Ok(line) => lines.push(line)?,
        Err(error) => return Err(error),
    }
    Ok(lines)
}

/// The table of a channel file: lines `T A B PARTS`, in any order, each ended by LF.
///
/// # Errors
/// `Line` for the first line that is invalid, and `Memory` if memory ran out.
pub fn channel_table(alloc: Global, text: &[u8]) -> Result<ChannelTable, TableError>
    ensures { IsRead result (channel_lines_of text.now) }
{
    let lines = channel_lines(alloc, text)?;
    Ok(ChannelTable::new(lines)?)
}
