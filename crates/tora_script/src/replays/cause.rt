//! Why a line is a fault, in plain words.
use crate::replays::parse;
use std::alloc::Global;
use std::error::Error;
use std::fmt;
use std::fmt::{Display, Formatter};
use tora_core::{Core, CoreError};
use tora_lines::{LONGEST_LINE, words};

/// Why a line is a fault.
#[derive(Clone, Copy, Debug, PartialEq, Eq)]
pub enum ReplayCause {
    Missing,
    TooLong,
    Empty,
    CarriageReturn,
    TrailingBlank,
    Header,
    HeaderNumber,
    Refused(CoreError),
    Time,
    NoOrder,
    Word,
    Id,
    From,
    Digits,
    Show,
    Other,
}

impl ReplayCause {
    /// The text of the cause. For a core that refuses the line, the core's error follows the text.
    fn words(self) -> &'static str {
        match self {
            ReplayCause::Missing => "the input ends where the first line is required",
            ReplayCause::TooLong => "it has more than 4096 bytes",
            ReplayCause::Empty => "it is empty",
            ReplayCause::CarriageReturn => "it ends with a carriage return",
            ReplayCause::TrailingBlank => "it ends with a blank",
            ReplayCause::Header => {
                "the first line is `node I links LIST dests LIST`, with one blank between two words"
            }
            ReplayCause::HeaderNumber => {
                "a node number is from 1 to 4294967295 without leading zeros; a list is such \
                 numbers separated by commas, or `-`"
            }
            ReplayCause::Refused(_) => "the first line is refused: ",
            ReplayCause::Time =>
                "a line begins with its time, a number below 2^64 without leading zeros",
            ReplayCause::NoOrder => "a word is missing after the time",
            ReplayCause::Word =>
                "its second word is none of `up`, `down`, `need`, `from` and `show`",
            ReplayCause::Id => {
                "`up`, `down` and `need` take one node number, from 1 to 4294967295 without leading zeros"
            }
            ReplayCause::From => {
                "`from` takes a node number, from 1 to 4294967295, and the bytes of a packet"
            }
            ReplayCause::Digits => {
                "the bytes of a packet are an even number of hexadecimal digits, or `-` for none"
            }
            ReplayCause::Show => "nothing follows `show`",
            ReplayCause::Other => "it is not a line of a replay file",
        }
    }
}

impl Display for ReplayCause {
    fn fmt<W: fmt::Write>(&self, f: &mut Formatter<W>) -> fmt::Result {
        f.write_str(self.words())?;
        match self {
            ReplayCause::Refused(error) => error.fmt(f),
            _ => Ok(()),
        }
    }
}

impl Error for ReplayCause {}

/// Why the first line is a fault.
fn first_cause(alloc: Global, line: &[u8]) -> ReplayCause {
    let header = match parse::header(alloc, line) {
        Ok(header) => header,
        Err(_) => return header_cause(line),
    };
    match Core::new(alloc, header.node, &header.links, &header.dests) {
        Ok(_) => ReplayCause::Other,
        Err(error) => ReplayCause::Refused(error),
    }
}

/// Why a first line of no known form is a fault.
fn header_cause(line: &[u8]) -> ReplayCause {
    let mut pieces = line.split(|byte| *byte == b' ');
    for name in [b"node".as_slice(), b"links".as_slice(), b"dests".as_slice()] {
        if pieces.next() != Some(name) || pieces.next().is_none() {
            return ReplayCause::Header;
        }
    }
    if pieces.next().is_none() {
        ReplayCause::HeaderNumber
    } else {
        ReplayCause::Header
    }
}

/// Why the text after `from` is a fault.
fn from_cause(text: &[u8]) -> ReplayCause {
    match words::cut(b' ', text) {
        Some((neighbour, _)) if words::id(neighbour).is_some() => ReplayCause::Digits,
        _ => ReplayCause::From,
    }
}

/// Why a line after the first is a fault.
fn next_cause(line: &[u8]) -> ReplayCause {
    let Some((now, rest)) = words::cut(b' ', line) else {
        return if words::number(line).is_some() {
            ReplayCause::NoOrder
        } else {
            ReplayCause::Time
        };
    };
    if words::number(now).is_none() {
        return ReplayCause::Time;
    }
    let (word, text) = words::cut(b' ', rest).unwrap_or((rest, b""));
    match word {
        b"up" | b"down" | b"need" => ReplayCause::Id,
        b"from" => from_cause(text),
        b"show" => ReplayCause::Show,
        _ => ReplayCause::Word,
    }
}

/// Why the line with this number, from 1, is a fault, if it is one. `None` in place of a line means that the input ends
/// before it; the cause is then `Missing`.
pub fn replay_cause(alloc: Global, number: u64, line: Option<&[u8]>) -> ReplayCause {
    let Some(line) = line else {
        return ReplayCause::Missing;
    };
    if line.is_empty() {
        return ReplayCause::Empty;
    }
    if line.len() > LONGEST_LINE {
        return ReplayCause::TooLong;
    }
    if line.ends_with(b"\r") {
        return ReplayCause::CarriageReturn;
    }
    if line.ends_with(b" ") {
        return ReplayCause::TrailingBlank;
    }
    if number == 1 {
        first_cause(alloc, line)
    } else {
        next_cause(line)
    }
}
