//! Why a line of a simulation file is a fault, in plain words.
use crate::link_lines::LinkLines;
use crate::parse::{mark, simulation_line};
use crate::parted::is_same_pair;
use crate::script_line::SimulationLine;
use crate::simulation::Stage;
use crate::simulation_file::is_linked;
use std::error::Error;
use std::fmt::{self, Display, Formatter, Write};
use tora_core::CoreError;
use tora_height::Id;
use tora_lines::words;
use tora_sim::{Limits, topology_fault_within};

/// Why a line of a simulation file is a fault.
#[derive(Clone, Copy, Debug, PartialEq, Eq)]
pub enum SimulationCause {
    Missing,
    TooLong,
    Empty,
    CarriageReturn,
    TrailingBlank,
    Dests,
    List,
    NoLink,
    TooMany,
    TooManyStandard,
    TooManyAtAll,
    Repeated,
    /// The numbers of two lines, from 1, with the same link, in either direction.
    RepeatedLink(u64, u64),
    /// A destination that occurs twice in the first line.
    RepeatedDestination(Id),
    OwnLink,
    Old,
    NoSuchNode,
    LateOld,
    Erasure,
    LateErasure,
    Word,
    Pair,
    Id,
    Tick,
    Rest,
    Deliver,
    Arm,
    Restart,
    Rounds,
    Life,
    LateDests,
    LateLink,
    NoSuchLink,
    NoSuchDestination,
    NoSuchWalk,
    Other,
}

impl SimulationCause {
    /// The text of the cause, without the numbers in it.
    fn words(self) -> &'static str {
        match self {
            Self::Missing => "the input ends where the first line is required",
            Self::TooLong => "it has more than 4096 bytes",
            Self::Empty => "it is empty",
            Self::CarriageReturn => "it ends with a carriage return",
            Self::TrailingBlank => "it ends with a blank",
            Self::Dests => "the first line is `dests LIST`, the destinations",
            Self::List =>
                "a list is node numbers, from 1 to 4294967295 without leading zeros, separated by commas, or `-`",
            Self::NoLink => "after the first line a line `link A B` is required",
            Self::TooMany =>
                "the links and destinations are refused: there are more than 64 nodes, 32 \
                 neighbours of a node or 64 destinations",
            Self::TooManyStandard =>
                "the links and destinations are refused: there are more than 64 nodes, 32 \
                 neighbours of a node or 64 destinations; with `--large` there may be 1024 nodes \
                 and 255 neighbours of a node",
            Self::TooManyAtAll =>
                "the links and destinations are refused: there are more than 1024 nodes, 255 \
                 neighbours of a node or 64 destinations",
            Self::Repeated =>
                "the links and destinations are refused: a link, in either direction, or a destination occurs twice",
            Self::RepeatedLink(_, _) => "the links and destinations are refused: ",
            Self::RepeatedDestination(_) => "the links and destinations are refused: ",
            Self::OwnLink =>
                "the links and destinations are refused: a link joins a node to itself",
            Self::Old => "`old` takes one node number, from 1 to 4294967295 without leading zeros",
            Self::NoSuchNode => "no link names this node",
            Self::LateOld => "a line `old N` comes directly after the links, before any other line",
            Self::Erasure =>
                "`erasure` takes a node number, from 1 to 4294967295 without leading zeros, and \
                 `plain` or `remembered`",
            Self::LateErasure =>
                "a line `erasure N WORD` comes directly after the links, before any other line",
            _ => self.words_behind_links(),
        }
    }

    /// The text of a cause of a line after the links.
    fn words_behind_links(self) -> &'static str {
        match self {
            Self::Word => "its first word is none of `need`, `tick`, `open`, `pull`, `transmit`, \
                 `deliver`, `pump`, `turn`, `arm`, `restart`, `rounds`, `part`, `mend`, \
                 `heights`, `sent`, `taken`, `exact`, `walk` and `rest`",
            Self::Pair =>
                "this word takes two node numbers, from 1 to 4294967295 without leading zeros",
            Self::Id =>
                "this word takes one node number, from 1 to 4294967295 without leading zeros",
            Self::Tick => "nothing follows `tick`",
            Self::Rest => "nothing follows `rest`",
            Self::Deliver =>
                "`deliver` takes the number of a datagram, below 2^64 without leading zeros",
            Self::Arm =>
                "`arm` takes a node number and `send-lost`, `send-gone`, `receive`, `read`, `write` or `sync`",
            Self::Restart => "`restart` takes a node number and 32 hexadecimal digits or `-`",
            Self::Rounds => "`rounds` takes a number, at most 10000, without leading zeros",
            Self::Life =>
                "`sent` and `taken` take two node numbers and the two numbers of a life, each from 1 to 2^62",
            Self::LateDests => "only the first line is `dests LIST`",
            Self::LateLink => "a line `link A B` comes after the first line or another link",
            Self::NoSuchLink => "there is no link between these nodes",
            Self::NoSuchDestination => "this destination is not in the list of the first line",
            Self::NoSuchWalk =>
                "no link names this node, or this destination is not in the list of the first line",
            _ => "it is not a line of a simulation file",
        }
    }
}

impl Display for SimulationCause {
    fn fmt<W: Write>(&self, f: &mut Formatter<W>) -> fmt::Result {
        f.write_str(self.words())?;
        match self {
            SimulationCause::RepeatedLink(a, b) => {
                write!(
                    f,
                    "lines {a} and {b} have the same link, in either direction"
                )
            }
            SimulationCause::RepeatedDestination(d) => {
                write!(f, "the destination {d} occurs twice in line 1")
            }
            _ => Ok(()),
        }
    }
}

impl Error for SimulationCause {}

/// The fault of a line that does not depend on its words: it is empty, or ends with a carriage return or a blank.
fn shape_cause(line: &[u8]) -> Option<SimulationCause> {
    if line.is_empty() {
        return Some(SimulationCause::Empty);
    }
    if line.ends_with(b"\r") {
        return Some(SimulationCause::CarriageReturn);
    }
    if line.ends_with(b" ") {
        return Some(SimulationCause::TrailingBlank);
    }
    None
}

/// Why a first line is a fault.
fn first_cause(line: &[u8]) -> SimulationCause {
    match shape_cause(line) {
        Some(cause) => cause,
        None if line.starts_with(b"dests ") => SimulationCause::List,
        None => SimulationCause::Dests,
    }
}

/// The words that a line may begin with, and for each why another line that begins with it is a fault.
const WORD_CAUSES: &[(&[u8], SimulationCause)] = &[
    (b"need", SimulationCause::Pair),
    (b"open", SimulationCause::Pair),
    (b"pull", SimulationCause::Pair),
    (b"transmit", SimulationCause::Pair),
    (b"pump", SimulationCause::Pair),
    (b"part", SimulationCause::Pair),
    (b"mend", SimulationCause::Pair),
    (b"walk", SimulationCause::Pair),
    (b"turn", SimulationCause::Id),
    (b"heights", SimulationCause::Id),
    (b"exact", SimulationCause::Id),
    (b"tick", SimulationCause::Tick),
    (b"rest", SimulationCause::Rest),
    (b"deliver", SimulationCause::Deliver),
    (b"arm", SimulationCause::Arm),
    (b"restart", SimulationCause::Restart),
    (b"rounds", SimulationCause::Rounds),
    (b"sent", SimulationCause::Life),
    (b"taken", SimulationCause::Life),
    (b"dests", SimulationCause::LateDests),
    (b"link", SimulationCause::LateLink),
    (b"old", SimulationCause::LateOld),
    (b"erasure", SimulationCause::LateErasure),
];

/// Why a line of no known form is a fault, by its first word.
fn word_cause(line: &[u8]) -> SimulationCause {
    let (word, _) = words::cut(b' ', line).unwrap_or((line, b""));
    match WORD_CAUSES.iter().find(|row| row.0 == word) {
        Some(row) => row.1,
        None => SimulationCause::Word,
    }
}

/// Why a line after the links is a fault.
fn line_cause(line: &[u8]) -> SimulationCause {
    if let Some(cause) = shape_cause(line) {
        return cause;
    }
    match simulation_line(line) {
        None => word_cause(line),
        Some(SimulationLine::Part(_, _) | SimulationLine::Mend(_, _)) => {
            SimulationCause::NoSuchLink
        }
        Some(SimulationLine::Sent(_, _, _) | SimulationLine::Taken(_, _, _)) => {
            SimulationCause::NoSuchLink
        }
        Some(SimulationLine::Heights(_) | SimulationLine::Exact(_)) => {
            SimulationCause::NoSuchDestination
        }
        Some(SimulationLine::Walk(_, _)) => SimulationCause::NoSuchWalk,
        Some(SimulationLine::Happens(_) | SimulationLine::Rounds(_) | SimulationLine::Rest) => {
            SimulationCause::Other
        }
    }
}

/// The number of the line with the link of this index: the links begin in line 2.
fn line_of(place: usize) -> u64 {
    (place as u64).saturating_add(2)
}

/// The line numbers of the first link that repeats an earlier one, in either direction, and of that one; `None` if no
/// link does.
fn repeated_link(links: &[(Id, Id)]) -> Option<SimulationCause> {
    for (place, link) in links.iter().enumerate() {
        for (before, other) in links.iter().enumerate() {
            if before < place && is_same_pair(*link, *other) {
                return Some(SimulationCause::RepeatedLink(line_of(before), line_of(place)));
            }
        }
    }
    None
}

/// The first destination that occurs twice.
fn repeated_destination(dests: &[Id]) -> Option<SimulationCause> {
    for d in dests {
        if dests.iter().filter(|other| **other == *d).count() > 1 {
            return Some(SimulationCause::RepeatedDestination(*d));
        }
    }
    None
}

/// Which link, or else which destination, occurs twice; `Repeated` if none does.
fn repeated_cause(lines: &LinkLines) -> SimulationCause {
    repeated_link(&lines.links)
        .or(repeated_destination(&lines.dests))
        .unwrap_or(SimulationCause::Repeated)
}

/// Which limits are exceeded: the standard limits alone, or the greatest ones too.
fn many_cause(limits: Limits, lines: &LinkLines) -> SimulationCause {
    match topology_fault_within(Limits::GREATEST, &lines.links, &lines.dests) {
        Some(CoreError::TooMany) if limits == Limits::STANDARD => SimulationCause::TooMany,
        Some(CoreError::TooMany) => SimulationCause::TooManyAtAll,
        _ => SimulationCause::TooManyStandard,
    }
}

/// Why the links and destinations are refused within the limits, if they are.
fn topology_cause(limits: Limits, lines: &LinkLines) -> Option<SimulationCause> {
    match topology_fault_within(limits, &lines.links, &lines.dests) {
        None => None,
        Some(CoreError::TooMany) => Some(many_cause(limits, lines)),
        Some(CoreError::Repeated) => Some(repeated_cause(lines)),
        Some(CoreError::OwnId) => Some(SimulationCause::OwnLink),
        Some(CoreError::Memory) => Some(SimulationCause::Other),
    }
}

/// Why a line `old N` or `erasure N WORD` is a fault: no link names the node, or else this cause.
fn mark_cause(lines: &LinkLines, line: &[u8], other: SimulationCause) -> SimulationCause {
    match mark(line) {
        Some(mark) if !is_linked(mark.node(), &lines.links) => SimulationCause::NoSuchNode,
        _ => other,
    }
}

/// Why a line after the links that is no link is a fault.
fn behind_links_cause(lines: &LinkLines, line: &[u8]) -> SimulationCause {
    match line_cause(line) {
        SimulationCause::LateOld => mark_cause(lines, line, SimulationCause::Old),
        SimulationCause::LateErasure => mark_cause(lines, line, SimulationCause::Erasure),
        cause => cause,
    }
}

/// Why a line after the first line or a link is a fault.
fn link_cause(limits: Limits, lines: &LinkLines, line: &[u8]) -> SimulationCause {
    let is_link = line.starts_with(b"link ");
    if lines.links.is_empty() {
        return match shape_cause(line) {
            Some(cause) => cause,
            None if is_link => SimulationCause::Pair,
            None => SimulationCause::NoLink,
        };
    }
    match topology_cause(limits, lines) {
        Some(cause) => cause,
        None if is_link && lines.marks.is_empty() => {
            shape_cause(line).unwrap_or(SimulationCause::Pair)
        }
        None => behind_links_cause(lines, line),
    }
}

/// Why a line is a fault within the standard limits.
pub fn simulation_cause<S>(stage: &Stage<S>, line: &[u8]) -> SimulationCause {
    simulation_cause_within(Limits::STANDARD, stage, line)
}

/// Why a line is a fault at this stage and within these limits, if it is one. The result is never `TooLong`: a line of
/// more than 4,096 bytes is taken as any other.
pub fn simulation_cause_within<S>(
    limits: Limits,
    stage: &Stage<S>,
    line: &[u8],
) -> SimulationCause {
    match stage {
        Stage::First => first_cause(line),
        Stage::Links(lines) => link_cause(limits, lines, line),
        Stage::Runs(_) => line_cause(line),
    }
}

/// Why the end of the input at this stage is a fault; `Other` if it is none.
pub fn end_cause<S>(limits: Limits, stage: &Stage<S>) -> SimulationCause {
    match stage {
        Stage::First => SimulationCause::Missing,
        Stage::Links(lines) if lines.links.is_empty() => SimulationCause::NoLink,
        Stage::Links(lines) => match topology_cause(limits, lines) {
            Some(cause) => cause,
            None => SimulationCause::Other,
        },
        Stage::Runs(_) => SimulationCause::Other,
    }
}
