//! The commands of a running node, one on each line.
ghost use Rattle.std.specs.Prelude.{◌≡◌, ◌<◌, ◌≤◌, ◌++◌, ◌∷◌, [], ℕ, List, IfOk, IfErr, IfSome, true, length, take};
ghost use Rattle.std.specs.Prelude.{codes};
ghost use Rattle.tora_lines.specs.Fronts.{after};
ghost use Rattle.std.specs.Io.KnownBytes.{Consumes};
ghost use Rattle.tora_node.specs.CommandText.{asked_by, cut_in};
ghost use Rattle.tora_node.specs.CommandRuns.{asked_in, put_for, put_from, IsLine, Commands, AreReadBy};
ghost use Rattle.tora_node.specs.CommandSteps.{Holds, DidPut, PutsAll, PutsLast, is_gone, EndsReading, ReadsOnce};

use crate::words::is_word;
use arrayvec::ArrayVec;
use log::{Log, info, warn};
use std::fmt::Display;
use std::io::ErrorKind;
use std::sync::Wait;
use tora_height::Id;
use tora_lane::{InPort, What};
use tora_lines::words::id;
use tora_lines::{Input, after};
use tora_neighbour::Clock;
use tora_seat::Status;

/// The most bytes of a command, without its LF.
pub const LONGEST_COMMAND: usize = 4096;

/// The list of commands, for the log.
const COMMANDS: &str = "commands are `need D`, `cut K`, `show`, `json`, `watch`, `quit` and `help`";

/// The most bytes of one read.
const CHUNK: usize = 512;

/// What a line requests from a node.
#[derive(Clone, Copy, Debug, PartialEq, Eq)]
pub enum Command {
    /// A route to a destination.
    Need(Id),
    /// A cut of the current session of a neighbour.
    Cut(Id),
    /// The table of the core.
    Show,
    /// `json` or `watch`: the state of the core, for a program.
    Status(Status),
    /// The end of the node.
    Quit,
    /// Nothing: the line is `help`, or no command.
    Unknown,
}

/// The command of a line: `show`, `json`, `watch`, `quit`, `need D` or `cut K`, where D and K are numbers from 1 to
/// 2^32 - 1 in decimal digits, without a sign and without leading zeros. `Unknown` for any other line.
#[tactic(auto, unfolding(crate::specs::CommandText::asked_by))]
pub fn command_of(line: &[u8]) -> Command
    ensures exact { result ≡ asked_by line.now }
    ensures above { (d : ℕ) → result ≡ Command.Need d → 0 < d }
    ensures above_cut { (k : ℕ) → result ≡ Command.Cut k → 0 < k }
{
    if is_word(b"show", line) {
        return Command::Show;
    }
    if is_word(b"json", line) {
        return Command::Status(Status::Json);
    }
    if is_word(b"watch", line) {
        return Command::Status(Status::Watch);
    }
    if is_word(b"quit", line) {
        return Command::Quit;
    }
    match after(b"need ", line) {
        None => cut_asked(line),
        Some(digits) => match id(digits) {
            Some(d) => Command::Need(d),
            None => Command::Unknown,
        },
    }
}

/// The command of a line that is none of the others: `cut K`, or `Unknown`.
fn cut_asked(line: &[u8]) -> Command
    ensures exact { result ≡ cut_in (after (codes "cut ") line.now) }
    ensures cut { (d : ℕ) → result ≡ Command.Need d → ⊥ }
    ensures above { (k : ℕ) → result ≡ Command.Cut k → 0 < k }
{
    match after(b"cut ", line) {
        None => Command::Unknown,
        Some(digits) => match id(digits) {
            Some(k) => Command::Cut(k),
            None => Command::Unknown,
        },
    }
}

/// Why reading commands has ended.
#[derive(Clone, Copy, Debug, PartialEq, Eq, Hash)]
pub enum CommandsEnd {
    /// A line was `quit`.
    Quit,
    /// The input is at its end.
    End,
    /// A read failed, other than by an interruption.
    Read,
    /// The core no longer takes items, or the port has put `MOST_IN_ALL` of them.
    Gone,
}

/// The line that is being read: at most its first 4,096 bytes, and whether it has more.
#[derive(Drop)]
struct Line {
    bytes: ArrayVec<u8, LONGEST_COMMAND>,
    is_too_long: bool,
}

impl Line {
    /// A line with no bytes read yet.
    fn new() -> Line
        ensures { Holds result [] }
    {
        Line {
            bytes: ArrayVec::new(),
            is_too_long: false,
        }
    }

    /// Whether no byte of the line was read.
    fn is_empty(&self) -> bool
        ensures { result ≡ true → (text : List ℕ) → Holds self.now text → text ≡ [] }
    {
        self.bytes.is_empty() && !self.is_too_long
    }

    /// Adds the next byte of the line. A byte after the first 4,096 only marks the line as too long.
    fn push(&mut self, byte: u8)
        ensures { (text : List ℕ) → Holds self.old text → Holds self.new (text ++ byte ∷ []) }
    {
        if self.bytes.try_push(byte).is_err() {
            self.is_too_long = true;
        }
    }

    /// Logs the commands if the line is `help`, and logs a line that is not a command.
    fn tell<R: Log>(&self, rt: &R) {
        let line = self.bytes.as_slice();
        if self.is_too_long {
            log_unknown(
                rt,
                format_args!("a line of more than {LONGEST_COMMAND} bytes"),
            );
        } else if is_word(b"help", line) {
            info!(rt; "{COMMANDS}");
        } else if command_of(line) == Command::Unknown {
            match str::from_utf8(line) {
                Ok(text) => log_unknown(rt, format_args!("{text:?}")),
                Err(_) => log_unknown(rt, "a line that is no text"),
            }
        }
    }

    /// Returns the command of the line, `Unknown` if the line is too long, and begins the next line.
    fn take(&mut self) -> Command
        ensures asked { (text : List ℕ) → Holds self.old text → result ≡ asked_in text }
        ensures next { Holds self.new [] }
    {
        let command = if self.is_too_long {
            Command::Unknown
        } else {
            command_of(self.bytes.as_slice())
        };
        self.bytes.clear();
        self.is_too_long = false;
        command
    }
}

/// Logs that this is not a command, and which the commands are.
fn log_unknown<R: Log, D: Display + Drop>(rt: &R, what: D) {
    warn!(rt; "{what} is no command; {COMMANDS}");
}

/// Puts the item of a command into the queue of the core; there is none for `Unknown`. Returns `Gone` if the port
/// refused the item, `Quit` after a `quit`, and otherwise `None`: further commands may follow.
fn put<R: Wait + Log, C: Clock>(
    rt: &R,
    clock: &mut C,
    port: &mut InPort,
    command: Command,
) -> Option<CommandsEnd>
    ensures { DidPut C.did_tell command (port.old, clock.old) (port.new, clock.new) result }
{
    let what = match command {
        Command::Need(d) => What::Need(d),
        Command::Cut(k) => What::Cut(k),
        Command::Show => What::Show,
        Command::Status(status) => What::Status(status),
        Command::Quit => What::Quit,
        Command::Unknown => return None,
    };
    match port.put(rt, clock.now(), what) {
        Err(_) => Some(CommandsEnd::Gone),
        Ok(()) if command == Command::Quit => Some(CommandsEnd::Quit),
        Ok(()) => None,
    }
}

/// Reads once, and returns the number of bytes: 0 if the read was interrupted and is to be repeated.
///
/// # Errors
/// `End` at the end of the input, and `Read` if the read failed.
fn read<Rd: Input>(reader: &mut Rd, chunk: &mut [u8; CHUNK]) -> Result<usize, CommandsEnd>
    ensures count { IfOk result (λ n. n ≤ 512) }
    ensures bytes { IfOk result (λ n. Consumes (Rd.remaining reader.old) (Rd.remaining reader.new) (take n chunk.new)) }
    ensures err { IfErr result (λ end. EndsReading end (Rd.remaining reader.old) (Rd.remaining reader.new)) }
    ensures call { ReadsOnce Rd.did_read reader.old reader.new result }
{
    match reader.get_some(chunk.as_mut_slice()) {
        Ok(count) => {
            if count == 0 {
                Err(CommandsEnd::End)
            } else {
                Ok(count)
            }
        }
        Err(error) => {
            if error.kind() == ErrorKind::Interrupted {
                Ok(0)
            } else {
                Err(CommandsEnd::Read)
            }
        }
    }
}

/// Puts the items of the lines that end in these bytes, and keeps the rest in `line`. Stops at the first `Quit` or
/// `Gone` that `put` returns, and returns it; otherwise `None`.
fn put_all<R: Wait + Log, C: Clock>(
    rt: &R,
    clock: &mut C,
    port: &mut InPort,
    line: &mut Line,
    bytes: &[u8],
) -> Option<CommandsEnd>
    ensures { (text : List ℕ) → Holds line.old text
        → PutsAll C.did_tell text bytes.now (port.old, clock.old) (port.new, clock.new) line.new result }
{
    for byte in bytes {
        if *byte == b'\n' {
            line.tell(rt);
            let end = put(rt, clock, port, line.take());
            if end.is_some() {
                return end;
            }
        } else {
            line.push(*byte);
        }
    }
    None
}

/// Puts the item of a last line without LF, if there is one, and then `Quit`. Returns `Quit`, or `Gone` if the port
/// refused an item.
fn put_last<R: Wait + Log, C: Clock>(
    rt: &R,
    clock: &mut C,
    port: &mut InPort,
    line: &mut Line,
) -> Option<CommandsEnd>
    ensures { (text : List ℕ) → Holds line.old text
        → PutsLast C.did_tell text (port.old, clock.old) (port.new, clock.new) result }
{
    if !line.is_empty() {
        line.tell(rt);
        let end = put(rt, clock, port, line.take());
        if end.is_some() {
            return end;
        }
    }
    put(rt, clock, port, Command::Quit)
}

/// Whether this is `Gone`.
fn is_gone(end: Option<CommandsEnd>) -> bool
    ensures { result ≡ is_gone end }
{
    match end {
        Some(CommandsEnd::Gone) => true,
        _ => false,
    }
}

/// Reads commands and puts their items into the queue of the core, until `quit`, the end of the input, a failed read,
/// or `Gone`. Returns why it ended.
///
/// A line that is not a command is logged and skipped; `help` logs the commands. The end of the input and a failed read
/// put `Quit`, after the command of a last line without LF. Each item has the tick of the clock when it is put. The
/// function waits while the queue is full.
pub fn run_commands<R: Wait + Log, Rd: Input, C: Clock>(
    rt: &R,
    reader: &mut Rd,
    clock: &mut C,
    port: &mut InPort,
) -> CommandsEnd
    ensures put { Commands C.did_tell (Rd.remaining reader.old) (Rd.remaining reader.new) (port.old, clock.old)
        (port.new, clock.new) result }
    // The reads determine the end: `Read` if one failed, and `End` if one gave nothing.
    ensures reads { AreReadBy Rd.did_read reader.old reader.new result }
{
    let mut chunk = [0; CHUNK];
    let mut line = Line::new();
    for _ in rt.forever() {
        match read(reader, &mut chunk) {
            Err(end) => {
                let last = put_last(rt, clock, port, &mut line);
                return if is_gone(last) {
                    CommandsEnd::Gone
                } else {
                    end
                };
            }
            Ok(count) => match put_all(rt, clock, port, &mut line, &chunk[..count]) {
                Some(end) => return end,
                None => {}
            },
        }
    }
    unreachable!()
}

/// The items for an input are those of its lines in order; after a last line without LF, `Quit` follows. This holds for
/// lines of at most 4,096 bytes, and `command_of` gives the command of each.
pub fn commands_are_put_line_by_line()
    ensures line { (line rest : List ℕ) → IsLine line → length line ≤ LONGEST_COMMAND
        → put_from [] (line ++ 10 ∷ rest) ≡ put_for (asked_by line) (put_from [] rest) }
    ensures last { (line : List ℕ) → IsLine line → length line ≤ LONGEST_COMMAND
        → put_from [] line ≡ put_for (asked_by line) (What.Quit ∷ []) }
{}
