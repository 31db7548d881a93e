//! Drives whose lines are recorded: the record, and the simulation of it.
ghost use Rattle.tora_arq.specs.Settings.{IsTimes};

use super::expected::{expect_ended, expect_written, is_memory};
use super::failing_streams::{ArrayWriter, Fails, LinesReader};
use super::runs::{Way, expect_run};
use super::sees::{same_at, sees, sees_at};
use std::fs::{self, File, Files};
use std::io::Read;
use std::process::{Abort, ExitCode};
use std::test::Fail;
use tora_arq::Times;
use tora_commands::drive_command::DriveWords;
use tora_commands::{INPUT, MEMORY, USAGE, record_command};
use tora_drive::{DriveSetup, drive_recorded};
use tora_lines::{Ended, ReplayError};
use tora_script::{TraceOut, WorldOptions};
use tora_sim::{Limits, Sim};

/// The lines of a drive, its answers, its record, and what a simulation of the record prints.
type Row = (&'static str, &'static str, &'static str, &'static str);

/// A link, and its first step, in which each end opens and sends a HELLO of each version.
const STEPPED: Row = (
    "dests 2\nlink 1 2\nneed 1 2\nstep\nheights 2\n",
    "ok\nok\nok\nsent 1 2 1 28\nsent 1 2 2 28\nsent 2 1 3 28\nsent 2 1 4 28\nok\n\
     node 1 - hop -\nnode 2 (0,0,0,0,2) hop -\nok\n",
    "dests 2\nlink 1 2\nneed 1 2\n\
     tick\nopen 1 2\nopen 2 1\nturn 1\ntransmit 1 2\ntransmit 1 2\ntransmit 2 1\ntransmit 2 1\n\
     heights 2\n",
    "node 1 - hop -\nnode 2 (0,0,0,0,2) hop -\n",
);

/// Lines of many kinds. Those that are refused or faults have no line in the record, nor have `far`, `near`, `needs`,
/// `bytes` and `forget`; `step` has the lines of its events, and `take` that of the delivery.
const EACH_KIND: Row = (
    "dests 2\nlink 1 2\nold 2\nneed 1 2\nfar 1 2\nstep\nneeds\nbytes 1\nturn 1\nforget 0\ndeliver 2\n\
     take 1 2 01010000000000020000000100000000000000010000000000000000\n\
     near 1 2\nnotice 1 2\nlink 2 3\npart 1 2\nrounds 1\nmend 1 2\nexact 2\nwalk 1 2\nrest\nsent 1 2 1 1\ntaken 2 1 1 1\n\
     arm 1 send-lost\nrestart 2 -\nrestart 2 000102030405060708090A0B0C0D0E0F\nheights 2\n",
    "ok\nok\nok\nok\nok\nsent 2 1 1 28\nok\nneed 1 2\nok\n\
     bytes 1 01010000000000020000000100000000000000010000000000000000\nok\n\
     refused 4\nok\nrefused 3\nok\nok\nfault 14 no line of a record corresponds to it\n\
     fault 15 it is no line that may stand here\nok\nsent 1 2 2 28\nsent 1 2 3 28\nok\nok\nexact 1\nok\nwalk -\nok\nrest yes\nok\n\
     count 0\nok\ncount 0\nok\nok\nok\nok\nnode 1 - hop -\nnode 2 (0,0,0,0,2) hop -\nok\n",
    "dests 2\nlink 1 2\nold 2\nneed 1 2\n\
     tick\nopen 1 2\nopen 2 1\nturn 1\ntransmit 2 1\n\
     deliver 1\npart 1 2\nrounds 1\nmend 1 2\nexact 2\nwalk 1 2\nrest\nsent 1 2 1 1\ntaken 2 1 1 1\n\
     arm 1 send-lost\nrestart 2 -\nrestart 2 000102030405060708090a0b0c0d0e0f\nheights 2\n",
    "exact 1\nwalk -\nrest yes\ncount 0\ncount 0\nnode 1 - hop -\nnode 2 (0,0,0,0,2) hop -\n",
);

/// A route that is found: the need waits until the link is up, and node 1 takes its height from its neighbour, the
/// destination.
const FOUND: Row = (
    "dests 2\nlink 1 2\nneed 1 2\nstep\ndeliver 1\ndeliver 2\ndeliver 3\ndeliver 4\nstep\ndeliver 5\ndeliver 6\nstep\nheights 2\n",
    "ok\nok\nok\nsent 1 2 1 28\nsent 1 2 2 28\nsent 2 1 3 28\nsent 2 1 4 28\nok\nok\nok\nok\nok\n\
     sent 1 2 5 28\nsent 2 1 6 28\nok\nok\nok\nsent 1 2 7 80\nhop 1 2 2\nok\n\
     node 1 (0,0,0,1,1) hop 2\nnode 2 (0,0,0,0,2) hop -\nok\n",
    "dests 2\nlink 1 2\nneed 1 2\n\
     tick\nopen 1 2\nopen 2 1\nturn 1\ntransmit 1 2\ntransmit 1 2\ntransmit 2 1\ntransmit 2 1\n\
     deliver 1\ndeliver 2\ndeliver 3\ndeliver 4\n\
     tick\ntransmit 1 2\ntransmit 2 1\n\
     deliver 5\ndeliver 6\n\
     tick\npump 1 2\npump 2 1\nturn 1\nturn 2\npull 1 2\ntransmit 1 2\nheights 2\n",
    "node 1 (0,0,0,1,1) hop 2\nnode 2 (0,0,0,0,2) hop -\n",
);

const ROWS: &[Row] = &[STEPPED, EACH_KIND, FOUND];

/// The results of a recorded drive: how it ended, its answers, and its record.
type Left = (
    Result<Ended, ReplayError>,
    ArrayWriter,
    TraceOut<ArrayWriter>,
);

/// The standard limits and times.
fn standard_setup() -> DriveSetup
    ensures { IsTimes result.times }
{
    DriveSetup {
        options: WorldOptions::within(Limits::STANDARD),
        times: Times::STANDARD,
    }
}

/// Drives once, with a writer of the record that fails in this way, and flushes the record.
fn recorded_once<T: AllocGlobal>(rt: &T, lines: &str, fails: Fails) -> Left {
    let mut reader = LinesReader::new((lines, "", 0, ""));
    let mut writer = ArrayWriter::new(Fails::Never);
    let mut out = TraceOut::new(ArrayWriter::new(fails));
    let found = drive_recorded::<Sim, LinesReader<'_>, ArrayWriter, ArrayWriter>(
        rt.alloc(),
        standard_setup(),
        &mut reader,
        &mut writer,
        &mut out,
    );
    out.flush();
    (found, writer, out)
}

/// Drives, with a writer of the record that fails in this way. If memory runs out, it drives once more, since only one
/// request for memory fails.
fn recorded<T: AllocGlobal>(rt: &T, lines: &str, fails: Fails) -> Left {
    let left = recorded_once(rt, lines, fails);
    if is_memory(left.0) {
        return recorded_once(rt, lines, fails);
    }
    left
}

/// Drives the lines of a row, with a writer of the record that fails in this way. Checks the answers, and that the
/// record is reported lost exactly if its writer fails. Returns the record.
fn expect_answers<T: AllocGlobal + Abort>(
    rt: &T,
    (lines, answers, _, _): Row,
    fails: Fails,
) -> ArrayWriter {
    let (found, writer, out) = recorded(rt, lines, fails);
    let place = (lines, "", 0, "");
    expect_ended(rt, place, found, Ok(Ended::Whole));
    expect_written(rt, place, writer.text(), answers);
    let is_lost = fails != Fails::Never;
    same_at(rt, &out.failure().is_some(), &is_lost, &place);
    out.writer
}

/// Drives the lines of a row, and checks the answers and the record.
fn expect_record<T: AllocGlobal + Abort>(rt: &T, row: Row) {
    let record = expect_answers(rt, row, Fails::Never);
    expect_written(rt, (row.0, "", 0, ""), record.text(), row.2);
}

/// Simulates the record of a row, and checks the output.
fn expect_simulated<T: AllocGlobal + Eprint + Abort>(rt: &T, (_, _, record, text): Row) {
    let lines = (record, "", 0, "");
    expect_run(
        rt,
        Way::Simulation,
        lines,
        Fails::Never,
        text,
        Ok(Ended::Whole),
    );
}

/// The record has the lines that repeat the drive in a simulation, and nothing for a line that is refused or a fault.
#[test]
fn taken_lines_are_recorded(rt: HostRuntime) {
    for row in ROWS {
        expect_record(&rt, *row);
    }
}

/// A simulation of the record prints what the drive answered to the same lines, above all the heights.
#[test]
fn records_are_simulated(rt: HostRuntime) {
    for row in ROWS {
        expect_simulated(&rt, *row);
    }
}

/// If the record cannot be written, the answers are the same.
#[test]
fn lost_records_change_no_answer(rt: HostRuntime) {
    for row in ROWS {
        expect_answers(&rt, *row, Fails::Write(1));
        expect_answers(&rt, *row, Fails::Write(3));
        expect_answers(&rt, *row, Fails::Flush);
    }
}

const FOLDER: &str = "tora_record_test";

const RECORD: &str = "tora_record_test/driven.sim";

const MISSING: &str = "tora_record_test/none/driven.sim";

/// Drives the lines of `STEPPED` once with the word `times` (`None`: the standard times), and records to the file at
/// `path`. Returns the exit status and the output.
fn command_once<T: Files + AllocGlobal + Eprint>(
    rt: &T,
    times: Option<&str>,
    path: &str,
) -> (ExitCode, ArrayWriter) {
    let mut writer = ArrayWriter::new(Fails::Never);
    let reader = LinesReader::new((STEPPED.0, "", 0, ""));
    let words = DriveWords {
        times,
        erasure: None,
        is_large: false,
    };
    let status = record_command::run(rt, words, path, reader, &mut writer);
    (status, writer)
}

/// Drives the lines of `STEPPED` as `command_once` does, and checks that the exit status is `wanted` and the output,
/// with the greeting, is `answers`. If memory runs out, it drives once more.
fn expect_command<T: Files + AllocGlobal + Eprint + Abort>(
    rt: &T,
    (times, path): (Option<&'static str>, &'static str),
    wanted: u8,
    answers: &str,
) {
    let (mut status, mut writer) = command_once(rt, times, path);
    if status == ExitCode::from(MEMORY) {
        (status, writer) = command_once(rt, times, path);
    }
    sees_at(rt, status == ExitCode::from(wanted), &(path, wanted));
    expect_written(rt, (path, "", 0, ""), writer.text(), answers);
}

/// Whether the file at `path` is the record of `STEPPED`; false if it cannot be read.
fn holds_record<R: Files<File = File>>(rt: &R, path: &str) -> bool {
    let mut bytes = [0; 512];
    let Ok(mut file) = fs::open(rt, path) else {
        return false;
    };
    match file.read(&mut bytes) {
        Ok(n) => bytes.get(..n) == Some(STEPPED.2.as_bytes()),
        Err(_) => false,
    }
}

/// The greeting of a drive, followed by the answers of `STEPPED`.
const GREETED: &str =
    "tora drive 1\nok\nok\nok\nsent 1 2 1 28\nsent 1 2 2 28\nsent 2 1 3 28\nsent 2 1 4 28\nok\n\
     node 1 - hop -\nnode 2 (0,0,0,0,2) hop -\nok\n";

/// The record is written to the named file. If the file cannot be created, or the word for times is malformed, nothing
/// is written.
#[test]
fn records_are_written_to_files(rt: HostRuntime) -> Result<(), Fail> {
    let _ = fs::remove_dir_all(&rt, FOLDER);
    fs::create_dir(&rt, FOLDER)?;
    expect_command(&rt, (None, MISSING), INPUT, "");
    expect_command(&rt, (None, FOLDER), INPUT, "");
    expect_command(&rt, (Some("10,50,5"), RECORD), USAGE, "");
    sees(&rt, fs::open(&rt, RECORD).is_err(), "no record of no drive");
    expect_command(&rt, (None, RECORD), 0, GREETED);
    sees(&rt, holds_record(&rt, RECORD), "the record");
    fs::remove_dir_all(&rt, FOLDER)?;
    Ok(())
}

/// The status of a drive whose writer of the record fails in this way.
fn failed_status<T: AllocGlobal + Eprint>(rt: &T, fails: Fails) -> ExitCode {
    let mut writer = ArrayWriter::new(Fails::Never);
    let mut out = TraceOut::new(ArrayWriter::new(fails));
    record_command::run_over(
        rt,
        standard_setup(),
        LinesReader::new((STEPPED.0, "", 0, "")),
        &mut writer,
        "record",
        &mut out,
    )
}

/// The status is 1 if the record cannot be written or flushed.
#[test]
fn statuses_of_lost_records(rt: HostRuntime) {
    for fails in [Fails::Write(1), Fails::Write(4), Fails::Flush] {
        let mut status = failed_status(&rt, fails);
        if status == ExitCode::from(MEMORY) {
            status = failed_status(&rt, fails);
        }
        sees_at(&rt, status == ExitCode::from(INPUT), &fails);
    }
}
