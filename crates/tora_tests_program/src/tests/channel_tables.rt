//! Channel files: their lines, the channel of a link in a round, and simulations over them and up to a last round.
use super::failing_streams::{ArrayWriter, Fails, LinesReader};
use super::sees::{same_at, sees_at};
use std::alloc::Global;
use std::process::{Abort, ExitCode};
use tora_arq::Times;
use tora_commands::{MEMORY, sim_command};
use tora_script::{
    Channel, ChannelTable, FaultReports, LineCause, Place, Setup, TableError, channel_table,
};
use tora_sim::Sim;

/// Lines of three links, in no order; the last one has no LF.
const LINES: &str =
    "5 2 1 loss=0.2\n0 1 2 loss=0.1\n3 3 1 delay=4-6,repeat=1\n5 1 2 loss=0.3\n9 2 3 loss=1";

/// The channel of a link before the round of its first line, and of a link without a line: losses and repetitions are
/// per million datagrams, delays in rounds.
const BASE: Channel = Channel {
    seed: 5,
    loss: 7,
    repeat: 9,
    least: 1,
    most: 2,
};

/// A round, a sender and a receiver; then, of their channel in `LINES` over `BASE`, how many of a million datagrams are
/// lost, the least delay in rounds, and how many of a million arrive twice.
const LOOKS: &[((u64, u32, u32), (u32, u32, u32))] = &[
    ((0, 1, 2), (100_000, 0, 0)),
    ((4, 2, 1), (100_000, 0, 0)),
    ((5, 1, 2), (300_000, 0, 0)),
    ((1_000_000, 2, 1), (300_000, 0, 0)),
    ((2, 1, 3), (7, 1, 9)),
    ((3, 1, 3), (0, 4, 1_000_000)),
    ((8, 3, 2), (7, 1, 9)),
    ((9, 2, 3), (1_000_000, 0, 0)),
    ((9, 1, 4), (7, 1, 9)),
];

/// Channel files, the number of the first line that is invalid, and the cause.
const FAULTS: &[(&str, u64, LineCause)] = &[
    ("0 1 2 loss=0.1\n\n", 2, LineCause::Words),
    ("0 1 2", 1, LineCause::Words),
    ("x 1 2 loss=0", 1, LineCause::Round),
    ("0 1 2 loss=0\n01 1 2 loss=0", 2, LineCause::Round),
    ("0 0 2 loss=0", 1, LineCause::Node),
    ("0 1 4294967296 loss=0", 1, LineCause::Node),
    ("0 7 7 loss=0", 1, LineCause::OwnLink),
    ("0 1 2 loss=2", 1, LineCause::Parts),
    ("0 1 2 loss=0\r\n", 1, LineCause::Parts),
    ("0 1 2 loss=0 ", 1, LineCause::Parts),
];

/// The table of a channel file. If memory runs out, it is read once more.
fn table_of(alloc: Global, text: &str) -> Result<ChannelTable, TableError> {
    match channel_table(alloc, text.as_bytes()) {
        Err(TableError::Memory) => channel_table(alloc, text.as_bytes()),
        found => found,
    }
}

/// The loss, the least delay and the repetitions that a table over `BASE` has for a round, a sender and a receiver, in
/// the order of `LOOKS`.
fn looked_up(table: &ChannelTable, (round, sender, receiver): (u64, u32, u32)) -> (u32, u32, u32) {
    let place = Place {
        round,
        sender,
        receiver,
        before: 0,
    };
    let found = table.channel_on(BASE, place);
    (found.loss, found.least, found.repeat)
}

/// A line holds in both directions from its round on, the later of two lines for one round holds, and links without a
/// line for the round or an earlier one have the given channel.
#[test]
fn lines_hold_from_their_rounds(rt: HostRuntime) {
    let table = table_of(rt.alloc(), LINES).unwrap_or(ChannelTable::none());
    for (place, wanted) in LOOKS {
        same_at(&rt, &looked_up(&table, *place), wanted, place);
    }
}

/// Whether the first fault of a channel file is on this line, for this cause.
fn has_fault(alloc: Global, text: &str, number: u64, cause: LineCause) -> bool {
    matches!(table_of(alloc, text), Err(TableError::Line(n, c)) if n == number && c == cause)
}

/// The first faulty line is reported with its number and the cause.
#[test]
fn faults_are_told(rt: HostRuntime) {
    for (text, number, cause) in FAULTS {
        let is_told = has_fault(rt.alloc(), *text, *number, *cause);
        sees_at(&rt, is_told, text);
    }
}

/// A simulation file of five rounds. The two constants after it are its output if datagrams arrive, and if not.
const FIVE: &str = "dests 2\nlink 1 2\nneed 1 2\nrounds 5\nheights 2\n";

const FOUND: &str = "node 1 (0,0,0,1,1) hop 2\nnode 2 (0,0,0,0,2) hop -\n";

const LOST: &str = "node 1 - hop -\nnode 2 (0,0,0,0,2) hop -\n";

/// A channel file, the last round (`None`: no limit), a simulation file, its output, and its exit status.
const RUNS: &[(&str, Option<u64>, &str, &str, u8)] = &[
    ("", None, FIVE, FOUND, 0),
    ("0 2 1 loss=1\n", None, FIVE, LOST, 0),
    ("0 1 2 loss=1\n1 1 2 loss=0\n", None, FIVE, LOST, 0),
    ("5 1 2 loss=1\n0 1 3 loss=1\n", None, FIVE, FOUND, 0),
    ("", Some(6), FIVE, FOUND, 0),
    ("", Some(5), FIVE, "", 0),
    ("", Some(0), FIVE, "", 0),
    (
        "",
        Some(3),
        "dests 2\nlink 1 2\nheights 2\nrounds 9\nno line\n",
        LOST,
        0,
    ),
    (
        "",
        Some(3),
        "dests 2\nlink 1 2\nrounds 2\nno line\n",
        "fault 4\n",
        1,
    ),
];

/// Simulates `lines` once over the channel file `file`, up to the last round `until` (`None`: no limit). Writes the
/// output to `writer`, and returns the exit status.
fn simulated<T: AllocGlobal + Eprint>(
    rt: &T,
    (file, until, lines): (&str, Option<u64>, &'static str),
    writer: &mut ArrayWriter,
) -> ExitCode {
    let table = table_of(rt.alloc(), file).unwrap_or(ChannelTable::none());
    let setup = Setup {
        until,
        ..Setup::plain(Times::STANDARD)
    };
    let reader = LinesReader::new((lines, "", 0, ""));
    sim_command::run_over::<Sim, T, LinesReader<'_>, ArrayWriter>(
        FaultReports {
            rt,
            is_verbose: false,
        },
        setup,
        table,
        reader,
        writer,
    )
}

/// Whether a run has this output and this status. If memory runs out, it runs once more.
fn runs_so<T: AllocGlobal + Eprint + Abort>(
    rt: &T,
    (file, until, lines, text, status): (&str, Option<u64>, &'static str, &str, u8),
) -> bool {
    let mut writer = ArrayWriter::new(Fails::Never);
    let mut ended = simulated(rt, (file, until, lines), &mut writer);
    if ended == ExitCode::from(MEMORY) {
        writer = ArrayWriter::new(Fails::Never);
        ended = simulated(rt, (file, until, lines), &mut writer);
    }
    ended == ExitCode::from(status) && writer.text() == text.as_bytes()
}

/// A channel file changes which datagrams arrive. Once the last round is made, lines have no effect, and are not
/// faults.
#[test]
fn files_and_last_rounds(rt: HostRuntime) {
    for row in RUNS {
        sees_at(&rt, runs_so(&rt, *row), row);
    }
}
