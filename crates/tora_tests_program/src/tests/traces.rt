//! Traces of simulations.
use super::expected::{expect_ended, expect_written, is_memory};
use super::failing_streams::{ArrayWriter, Fails, LinesReader};
use super::route_rows::{FOUND_AND_LOST, FOUR_FOUND_AND_LOST};
use super::sees::{same_at, sees_at};
use std::process::Abort;
use tora_arq::Times;
use tora_lines::{Ended, ReplayError};
use tora_script::{ChannelTable, FaultReports, Setup, TraceOut, simulate_traced};
use tora_sim::Sim;

/// How a simulation is traced: where the writers of its output and its trace fail, and whether with `-v`.
type How = (Fails, Fails, bool);

const FINE: How = (Fails::Never, Fails::Never, false);

/// The results of a traced simulation: how it ended, its output, and its trace.
type Left = (
    Result<Ended, ReplayError>,
    ArrayWriter,
    TraceOut<ArrayWriter>,
);

/// Simulates the lines `front` and then `end` once, with writers of the output and the trace that fail in this way, and
/// flushes the trace.
fn traced_once<'a, T: AllocGlobal + Eprint>(
    rt: &T,
    (front, end): (&'a str, &'a str),
    (output, trace, is_verbose): How,
) -> Left {
    let mut reader = LinesReader::new((front, "", 0, end));
    let mut writer = ArrayWriter::new(output);
    let mut out = TraceOut::new(ArrayWriter::new(trace));
    let found = simulate_traced::<Sim, T, LinesReader<'_>, ArrayWriter, ArrayWriter>(
        FaultReports { rt, is_verbose },
        Setup::plain(Times::STANDARD),
        ChannelTable::none(),
        &mut reader,
        &mut writer,
        &mut out,
    );
    out.flush();
    (found, writer, out)
}

/// Simulates the front of an input and its end, and flushes the trace. If memory runs out, it simulates once more,
/// since only one request for memory fails.
fn traced<'a, T: AllocGlobal + Eprint>(rt: &T, lines: (&'a str, &'a str), how: How) -> Left {
    let left = traced_once(rt, lines, how);
    if is_memory(left.0) {
        return traced_once(rt, lines, how);
    }
    left
}

/// The text that was written: an output, or the records of a trace; empty if it is not UTF-8.
fn text_of(writer: &ArrayWriter) -> &str {
    str::from_utf8(writer.text()).unwrap_or("")
}

/// The front of a simulation and its end, their output, their trace, and how they end if the output does not fail.
type Row = (
    &'static str,
    &'static str,
    &'static str,
    &'static str,
    Ended,
);

/// Traces the lines of a row, and checks their output, that they end as the row says, or with `Write` if the output
/// fails, and that the trace is reported lost exactly if its writer fails. Returns the trace.
fn expect_trace_so<T: AllocGlobal + Eprint + Abort>(
    rt: &T,
    (front, end, text, _, ended): Row,
    how: How,
) -> ArrayWriter {
    let lines = (front, "", 0, end);
    let (found, writer, out) = traced(rt, (front, end), how);
    let wanted = if how.0 == Fails::Never {
        Ok(ended)
    } else {
        Err(ReplayError::Write)
    };
    expect_ended(rt, lines, found, wanted);
    expect_written(rt, lines, writer.text(), text);
    let fails = how.1 != Fails::Never;
    same_at(rt, &out.failure().is_some(), &fails, &lines);
    out.writer
}

/// Traces the lines of a row, and checks their output, their trace, and how they end.
fn expect_trace<T: AllocGlobal + Eprint + Abort>(rt: &T, row: Row, how: How) {
    let (front, end, _, trace, _) = row;
    let records = expect_trace_so(rt, row, how);
    expect_written(rt, (front, "", 0, end), records.text(), trace);
}

/// Checks the output, the trace and the end of each simulation, without `-v` and with it.
fn expect_traces<T: AllocGlobal + Eprint + Abort>(rt: &T, rows: &[Row]) {
    for row in rows {
        expect_trace(rt, *row, FINE);
        expect_trace(rt, *row, (Fails::Never, Fails::Never, true));
    }
}

/// The first six words of a line, separated by single spaces; empty words after the last one.
fn words(line: &str) -> [&str; 6] {
    let mut words = line.split(' ');
    [
        words.next().unwrap_or(""),
        words.next().unwrap_or(""),
        words.next().unwrap_or(""),
        words.next().unwrap_or(""),
        words.next().unwrap_or(""),
        words.next().unwrap_or(""),
    ]
}

/// The height and next hop in the last record `route` of a trace for node `n` and destination `d`, as written there;
/// `None` without such a record.
fn told<'a>(trace: &'a str, n: &str, d: &str) -> Option<(&'a str, &'a str)> {
    let mut last = None;
    for line in trace.lines() {
        let [_, word, node, destination, height, hop] = words(line);
        if word == "route" && node == n && destination == d {
            last = Some((height, hop));
        }
    }
    last
}

/// Whether a trace agrees with a printed line `node N H hop K` for destination `d`. Without a record of the route, the
/// line must be that of a new node: (0,0,0,0,N) at the destination and `-` elsewhere, with no next hop.
fn tells(trace: &str, line: &str, d: &str) -> bool {
    let [_, n, height, _, hop, _] = words(line);
    match told(trace, n, d) {
        Some(last) => last == (height, hop),
        None if n == d => height.starts_with("(0,0,0,0,") && hop == "-",
        None => height == "-" && hop == "-",
    }
}

/// The front of a simulation, a destination, the line that prints the heights for it, and how many nodes it prints.
type Run = (&'static str, &'static str, &'static str, usize);

/// Simulates a run, and checks that the trace agrees with each height and next hop that is printed, and that `count`
/// nodes are printed.
fn expect_told<T: AllocGlobal + Eprint + Abort>(rt: &T, (front, d, end, count): Run) {
    let (found, writer, out) = traced(rt, (front, end), FINE);
    expect_ended(rt, (front, "", 0, end), found, Ok(Ended::Whole));
    sees_at(rt, out.failure().is_none(), &front);
    let trace = text_of(&out.writer);
    let mut printed = 0usize;
    for line in text_of(&writer).lines() {
        if line.starts_with("node ") {
            printed = printed.saturating_add(1);
            sees_at(rt, tells(trace, line, d), &(front, line));
        }
    }
    same_at(rt, &printed, &count, &front);
}

/// Two nodes: a need that is not answered, since the link is not up.
const TWO_NODES: &[Row] = &[(
    "dests 2\nlink 1 2\nneed 1 2\nturn 1\nheights 2\n",
    "need 1 2\nneed 3 2\n",
    "node 1 - hop -\nnode 2 (0,0,0,0,2) hop -\nrefused 2\n",
    "0 need 1 2\n0 qry 1 2 0\n0 need 1 2\n",
    Ended::Whole,
)];

/// A need that is answered by the neighbour, which is the destination.
const ANSWERED: (&str, &str) = ("dests 2\nlink 1 2\nneed 1 2\n", "rounds 1\nheights 2\n");

/// The first records of the trace of `ANSWERED`.
const BOUND: &str = "0 need 1 2\n0 qry 1 2 0\n1 up 1 2 1 1\n1 upd 1 2 1 (0,0,0,1,1)\n\
    1 route 1 2 (0,0,0,1,1) 2\n1 up 2 1 1 1\n1 frames ";

/// Two nodes: a need that is not answered, and then one that the neighbour answers, which is the destination.
#[test]
fn trace_of_two_nodes(rt: HostRuntime) {
    expect_traces(&rt, TWO_NODES);
    let (front, end) = ANSWERED;
    let (found, _, out) = traced(&rt, ANSWERED, FINE);
    expect_ended(&rt, (front, "", 0, end), found, Ok(Ended::Whole));
    let records = text_of(&out.writer);
    sees_at(&rt, records.starts_with(BOUND), &records);
}

const PARTED: &[Row] = &[(
    "dests -\nlink 1 2\npart 1 2\npart 2 1\nrounds 1\nmend 2 1\n",
    "mend 2 1\npart 3 1\n",
    "fault 8\n",
    "0 part 1 2\n0 part 2 1\n1 frames 4 0 0 4\n1 mend 2 1\n1 mend 2 1\n",
    Ended::Fault(8),
)];

/// Over a parted link datagrams are sent and not delivered, and each line `part` and `mend` has its record, with its
/// tick.
#[test]
fn trace_of_a_parted_link(rt: HostRuntime) {
    expect_traces(&rt, PARTED);
}

const SINGLE_EVENTS: &[Row] = &[(
    "dests -\nlink 1 2\ntick\nopen 1 2\ntransmit 1 2\ntick\n",
    "arm 2 send-lost\nopen 2 1\ntransmit 2 1\ntick\n",
    "",
    "1 frames 1 0 0 0\n",
    Ended::Whole,
)];

/// Datagrams of single events: their record comes when the clock advances, and a datagram that is lost on sending does
/// not count.
#[test]
fn trace_of_single_events(rt: HostRuntime) {
    expect_traces(&rt, SINGLE_EVENTS);
}

/// Simulations whose traces are compared with the printed heights.
const RUNS: &[Run] = &[
    (
        "dests 4\nlink 1 2\nlink 2 3\nlink 3 4\nneed 1 4\n",
        "4",
        "heights 4\n",
        4,
    ),
    (
        "dests 4\nlink 1 2\nlink 2 3\nlink 3 4\nneed 1 4\nrounds 1\n",
        "4",
        "heights 4\n",
        4,
    ),
    (
        "dests 4\nlink 1 2\nlink 2 3\nlink 3 4\nneed 1 4\nrounds 3\n",
        "4",
        "heights 4\n",
        4,
    ),
    (
        "dests 4\nlink 1 2\nlink 2 3\nlink 3 4\nneed 1 4\nrounds 3\npart 3 4\nrounds 50\n",
        "4",
        "heights 4\n",
        4,
    ),
    (
        "dests 4\nlink 1 2\nlink 2 3\nlink 3 4\nneed 1 4\nrounds 3\npart 3 4\nrounds 60\n",
        "4",
        "heights 4\n",
        4,
    ),
    (
        "dests 4\nlink 1 2\nlink 2 3\nlink 3 4\nneed 1 4\nrounds 3\npart 3 4\nrounds 60\nmend 3 4\n\
        need 1 4\nrounds 3\n",
        "4",
        "heights 4\n",
        4,
    ),
    (
        "dests 4\nlink 1 2\nlink 2 3\nlink 3 4\nneed 1 4\nrounds 3\nrestart 2 -\n",
        "4",
        "heights 4\n",
        4,
    ),
    (
        "dests 4\nlink 1 2\nlink 2 3\nlink 3 4\nneed 1 4\nrounds 3\nrestart 2 -\nrounds 1\n",
        "4",
        "heights 4\n",
        4,
    ),
    (
        "dests 4\nlink 1 2\nlink 2 3\nlink 3 4\nneed 1 4\nrounds 3\nrestart 2 -\nneed 1 4\nrounds 9\n",
        "4",
        "heights 4\n",
        4,
    ),
    (
        "dests 4\nlink 1 2\nlink 2 3\nlink 3 4\nneed 1 4\nrounds 3\nrestart 4 -\nrounds 3\n",
        "4",
        "heights 4\n",
        4,
    ),
    (
        "dests 5,1\nlink 1 2\nlink 2 3\nlink 3 4\nlink 4 5\nlink 5 1\nlink 2 5\nneed 3 5\nneed 3 1\n\
        rounds 4\npart 2 5\nrounds 70\n",
        "5",
        "heights 5\n",
        5,
    ),
];

/// The trace gives every height that is printed: a route is found, lost and found again.
#[test]
fn trace_tells_each_height(rt: HostRuntime) {
    for run in RUNS {
        expect_told(&rt, *run);
    }
}

/// A route that is found and lost.
const LOST: Row = (FOUR_FOUND_AND_LOST, "", FOUND_AND_LOST, "", Ended::Whole);

/// How the writer of the trace fails: never, at the flush, or from its first, second or third write on.
const TRACES: &[Fails] = &[
    Fails::Never,
    Fails::Flush,
    Fails::Write(1),
    Fails::Write(2),
    Fails::Write(3),
];

/// If the trace cannot be written or flushed, the output is the same.
#[test]
fn trace_that_fails_stops_nothing(rt: HostRuntime) {
    for trace in TRACES {
        expect_trace_so(&rt, LOST, (Fails::Never, *trace, false));
    }
}

const STOPPED: &[Row] = &[
    (
        "dests 2\nlink 1 2\nneed 1 2\n",
        "turn 1\nturns 1\nneed 1 2\n",
        "fault 5\n",
        "0 need 1 2\n0 qry 1 2 0\n",
        Ended::Fault(5),
    ),
    ("dests 2\n", "need 1 2\n", "fault 2\n", "", Ended::Fault(2)),
];

/// A simulation, and its trace if the first write of the output fails, which is that of `heights 2`.
const UNWRITTEN: Row = (
    "dests 2\nlink 1 2\nneed 1 2\nturn 1\n",
    "heights 2\nneed 1 2\n",
    "",
    "0 need 1 2\n0 qry 1 2 0\n",
    Ended::Whole,
);

/// A simulation that stops at a fault, or because its output fails, has the records of what happened before.
#[test]
fn trace_of_a_simulation_that_stops(rt: HostRuntime) {
    expect_traces(&rt, STOPPED);
    expect_trace(&rt, UNWRITTEN, (Fails::Write(1), Fails::Never, false));
}
