//! The program `tora`: it replays, simulates and runs TORA router nodes.
//!
//! `replay` reads the inputs of one node from standard input and writes what the node sends. `sim` simulates a file.
//! `drive` lets another program control a simulation. `node` runs a node over UDP. `key` prints a new key.
//! `tora_commands` has the commands.
#![tactic(auto)]

use clap::ArgMatches;
use log::{LevelFilter, Logged};
use std::io;
use std::io::{BufWriter, IsTerminal};
use std::process::ExitCode;
use tora_commands::drive_command::DriveWords;
use tora_commands::node_command::NodeOptions;
use tora_commands::{
    LogLines, MEMORY, SetupWords, Shown, USAGE, command, drive_command, key_command, node_command,
    record_command, replay_command, simulate_file, stop, usage,
};
pub use tora_lines::{Ended, ReplayError, numbers_are_read_as_printed};
pub use tora_script::{
    Simulator, replay, replay_fault_is_the_first, replay_first_lines_are_read_as_written,
    replay_lines_are_read_as_written, simulate_in, simulation_fault_is_the_first,
    simulation_lines_are_read_as_written,
};
pub use tora_simulate::{simulate, simulate_with};

/// Replays standard input for a node that treats erased levels as the word says: `plain`, which is the default, or
/// `remembered`. Returns the exit status.
fn replay_input(rt: &HostRuntime, erasure: Option<&str>, is_verbose: bool) -> ExitCode {
    let Ok(mut writer) = BufWriter::new(rt.alloc(), io::writer(rt)) else {
        return stop(rt, MEMORY, "memory");
    };
    replay_command::run(rt, erasure, rt.stdin(), is_verbose, &mut writer)
}

/// The options of `tora sim` that a simulation starts with.
fn setup_words<'a>(sim: &'a ArgMatches<'_>) -> SetupWords<'a> {
    SetupWords {
        times: sim.get_str("times"),
        channel: sim.get_str("channel"),
        seed: sim.get_str("seed"),
        has_notice: sim.get_flag("notice"),
        is_large: sim.get_flag("large"),
        until: sim.get_str("until"),
        erasure: sim.get_str("erasure"),
        channel_file: sim.get_str("channel-file"),
    }
}

/// Simulates the lines of a file, and writes to standard output.
fn simulate_to_output(rt: &HostRuntime, sim: &ArgMatches<'_>, is_verbose: bool) -> ExitCode {
    let path = sim.get_str("FILE").unwrap_or("");
    let has_bar = sim.get_flag("progress") && rt.stderr().is_terminal();
    let trace = sim.get_str("trace");
    let shown = Shown {
        is_verbose,
        has_bar,
    };
    let Ok(mut writer) = BufWriter::new(rt.alloc(), io::writer(rt)) else {
        return stop(rt, MEMORY, "memory");
    };
    simulate_file(rt, setup_words(sim), path, trace, shown, &mut writer)
}

/// Drives a world by the lines of standard input, and records it if a path for the record is given.
fn drive_input(rt: &HostRuntime, drive: &ArgMatches<'_>) -> ExitCode {
    let mut writer = io::writer(rt);
    let words = DriveWords {
        times: drive.get_str("times"),
        erasure: drive.get_str("erasure"),
        is_large: drive.get_flag("large"),
    };
    match drive.get_str("record") {
        None => drive_command::run(rt, words, rt.stdin(), &mut writer),
        Some(path) => record_command::run(rt, words, path, rt.stdin(), &mut writer),
    }
}

/// The runtime, with a log to standard error. `--log` gives the level of the log, `info` by default, and `--log-time`
/// puts the time before each line.
fn logging<R: Copy>(rt: R, node: &ArgMatches<'_>) -> Logged<R, LogLines<R>> {
    let level = node
        .get_one::<LevelFilter>("log")
        .unwrap_or(LevelFilter::Info);
    Logged::new(rt, level, LogLines::new(rt, node.get_flag("log-time")))
}

/// The words of the command line. An error is the exit status, after a line on standard error: 5 if memory ran out, 2
/// if the words cannot be read for another reason.
fn words_of(rt: &HostRuntime) -> Result<Vec<String>, ExitCode> {
    let words = match std::env::args(rt) {
        Ok(words) => words,
        Err(error) if error.kind() == io::ErrorKind::OutOfMemory => {
            return Err(stop(rt, MEMORY, "memory"));
        }
        Err(_) => return Err(stop(rt, USAGE, "a word of the command line is not UTF-8")),
    };
    match words.collect::<Vec<String>>(rt.alloc()) {
        Ok(words) => Ok(words),
        Err(_) => Err(stop(rt, MEMORY, "memory")),
    }
}

/// Runs the command that the words of the command line name: `node`, `sim`, `drive` or `key`, and otherwise `replay`.
/// Returns the exit status.
fn main(rt: HostRuntime) -> ExitCode {
    let words = match words_of(&rt) {
        Ok(words) => words,
        Err(code) => return code,
    };
    let Ok(command) = command(rt.alloc()) else {
        return stop(&rt, MEMORY, "memory");
    };
    let matches = match command.try_get_matches_from(words.as_slice()) {
        Ok(matches) => matches,
        Err(error) => return usage(&rt, &error),
    };
    let is_verbose = matches.get_flag("verbose");
    match matches.subcommand() {
        Some(("node", node)) => {
            let path = node.get_str("CONFIG").unwrap_or("");
            let options = NodeOptions {
                is_check: node.get_flag("check"),
                is_verbose,
            };
            let log = logging(rt, node);
            let (mut reader, writer) = (rt.stdin(), io::writer(&rt));
            let (code, _) = node_command::run(&rt, &log, path, options, &mut reader, writer);
            code
        }
        Some(("sim", sim)) => simulate_to_output(&rt, sim, is_verbose),
        Some(("drive", drive)) => drive_input(&rt, drive),
        Some(("key", _)) => key_command::run(&rt, &mut io::writer(&rt)),
        Some(("replay", replay)) => replay_input(&rt, replay.get_str("erasure"), is_verbose),
        _ => replay_input(&rt, None, is_verbose),
    }
}
