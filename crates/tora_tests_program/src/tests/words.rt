//! The words of a command line, parsed by the command of the program.
use super::expected::expect_few_refusals;
use super::sees::sees_at;
use clap::{ArgMatches, Error as WordError};
use std::alloc::Global;
use std::process::Abort;
use tora_commands::command;

/// The request in the words of a command line, or the fault; `None` if memory runs out for the command.
pub fn parsed<'a>(
    alloc: Global,
    words: &'a [&'a str],
) -> Option<Result<ArgMatches<'a>, WordError>> {
    let command = command(alloc).ok()?;
    Some(command.try_get_matches_from(words))
}

/// The request that words must have.
#[derive(Clone, Copy)]
pub enum Asked {
    /// None: the words are not a command line.
    Nothing,
    /// A command line with `-v` among its words, if true, or without it.
    Verbose(bool),
    /// A simulation of a file, with times and a trace, without `-v`.
    Sim(&'static str, Option<&'static str>, Option<&'static str>),
    /// A simulation of a file with `-v` alone.
    VerboseSim(&'static str),
}

/// Whether the words request a simulation of this file, with these times and this trace, and with `-v` or not.
fn is_sim(
    matches: &ArgMatches<'_>,
    is_verbose: bool,
    (file, times, trace): (&str, Option<&str>, Option<&str>),
) -> bool {
    match matches.subcommand() {
        Some(("sim", sim)) => {
            matches.get_flag("verbose") == is_verbose
                && sim.get_str("FILE") == Some(file)
                && sim.get_str("times") == times
                && sim.get_str("trace") == trace
        }
        _ => false,
    }
}

/// Whether the words have this request; `None` if they are not a command line, or memory runs out.
fn asks_for(alloc: Global, words: &[&str], wanted: Asked) -> Option<bool> {
    let matches = parsed(alloc, words)?.ok()?;
    Some(match wanted {
        Asked::Nothing => false,
        Asked::Verbose(is_verbose) => matches.get_flag("verbose") == is_verbose,
        Asked::Sim(file, times, trace) => is_sim(&matches, false, (file, times, trace)),
        Asked::VerboseSim(file) => is_sim(&matches, true, (file, None, None)),
    })
}

/// Checks that the words of each row have their request. For at most one row, parsing may fail, since one request for
/// memory may fail.
pub fn expect_words(rt: &impl Abort, alloc: Global, rows: &[(&[&str], Asked)]) {
    let mut refused = 0u64;
    for (words, wanted) in rows {
        let found = asks_for(alloc, *words, *wanted);
        if found.is_none() && !matches!(wanted, Asked::Nothing) {
            refused = refused.saturating_add(1);
        }
        sees_at(rt, found.is_none() || found == Some(true), words);
    }
    expect_few_refusals(rt, refused);
}

const VERBOSE: &[(&[&str], Asked)] = &[
    (&["tora", "-v", "replay"], Asked::Verbose(true)),
    (&["tora", "replay", "-v"], Asked::Verbose(true)),
    (&["tora", "replay", "--verbose"], Asked::Verbose(true)),
    (&["tora", "-v"], Asked::Verbose(true)),
    (&["tora", "replay"], Asked::Verbose(false)),
    (&["tora"], Asked::Verbose(false)),
];

/// `-v` or `--verbose` comes before or after the subcommand, or without one.
#[test]
fn verbose_words(rt: HostRuntime) {
    expect_words(&rt, rt.alloc(), VERBOSE);
}

const SIMULATIONS: &[(&[&str], Asked)] = &[
    (&["tora", "sim", "a.sim"], Asked::Sim("a.sim", None, None)),
    (&["tora", "-v", "sim", "a.sim"], Asked::VerboseSim("a.sim")),
    (&["tora", "sim", "-v", "a.sim"], Asked::VerboseSim("a.sim")),
    (&["tora", "sim", "a.sim", "-v"], Asked::VerboseSim("a.sim")),
    (&["tora", "sim"], Asked::Nothing),
    (&["tora", "sim", "a.sim", "b.sim"], Asked::Nothing),
    (&["tora", "a.sim"], Asked::Nothing),
];

#[test]
fn words_of_a_simulation(rt: HostRuntime) {
    expect_words(&rt, rt.alloc(), SIMULATIONS);
}

/// The options of `sim` in each order.
const OPTIONS: &[(&[&str], Asked)] = &[
    (
        &["tora", "sim", "--times", "1,2,3,4", "--trace", "t", "f"],
        Asked::Sim("f", Some("1,2,3,4"), Some("t")),
    ),
    (
        &["tora", "sim", "--trace", "t", "--times", "1,2,3,4", "f"],
        Asked::Sim("f", Some("1,2,3,4"), Some("t")),
    ),
    (
        &["tora", "sim", "f", "--times", "1,2,3,4", "--trace", "t"],
        Asked::Sim("f", Some("1,2,3,4"), Some("t")),
    ),
];

/// The options of `sim` come before or after its file.
#[test]
fn options_of_sim(rt: HostRuntime) {
    expect_words(&rt, rt.alloc(), OPTIONS);
}
