//! Simulations of nodes whose link ends speak only version 1 of frames, and of link ends with other times.
use super::route_rows::{FOUND, FOUND_AND_LOST, FOUR};
use super::runs::{Files, Row, SHORT_SILENCE, Way, expect_files, expect_rows};
use super::sees::same_at;
use super::words::{Asked, expect_words};
use std::process::Abort;
use tora_arq::Times;
use tora_commands::asked_times;
use tora_lines::Ended;

/// A row of four nodes, once for each of the 16 sets of old nodes, which speak only version 1 of frames. The output is
/// always that of a route to node 4 that is found and then lost.
const OLD_NODES: &[Files] = &[Files {
    front: FOUR,
    middles: &[
        "",
        "old 1\n",
        "old 2\n",
        "old 1\nold 2\n",
        "old 3\n",
        "old 1\nold 3\n",
        "old 2\nold 3\n",
        "old 1\nold 2\nold 3\n",
        "old 4\n",
        "old 1\nold 4\n",
        "old 2\nold 4\n",
        "old 1\nold 2\nold 4\n",
        "old 3\nold 4\n",
        "old 1\nold 3\nold 4\n",
        "old 2\nold 3\nold 4\n",
        "old 1\nold 2\nold 3\nold 4\n",
    ],
    times: 1,
    end: "need 1 4\nrounds 3\nheights 4\npart 3 4\nrounds 60\nheights 4\n",
    text: FOUND_AND_LOST,
    ended: Ended::Whole,
}];

/// Whichever nodes are old, the same route is found and lost.
#[test]
fn route_is_found_whatever_nodes_are_old(rt: HostRuntime) {
    expect_files(&rt, Way::Simulation, OLD_NODES);
}

/// Lines `old N` that are not in ascending order, or name a node twice; a route to node 4 is found.
const ORDERS: &[Row] = &[(
    &[FOUR],
    &[
        "old 3\nold 1\nold 3\nneed 1 4\nrounds 3\nheights 4\n",
        "old 1\nold 1\nneed 1 4\nrounds 3\nheights 4\n",
    ],
    FOUND,
    Ended::Whole,
)];

/// The order of the old nodes does not matter, and a node may be named twice.
#[test]
fn old_nodes_in_any_order(rt: HostRuntime) {
    expect_rows(&rt, Way::Simulation, ORDERS);
}

/// Two nodes, of which none or one is old, and what `SAID` prints: `refused 4` for a `transmit` when no frame is due,
/// `refused 3` for a datagram that does not exist.
const HELLOS: &[Row] = &[
    (
        &["dests 2\nlink 1 2\n", "dests 2\nlink 1 2\nold 2\n"],
        &[SAID],
        "refused 4\n",
        Ended::Whole,
    ),
    (
        &["dests 2\nlink 1 2\nold 1\n"],
        &[SAID],
        "refused 4\nrefused 3\nrefused 4\n",
        Ended::Whole,
    ),
];

const SAID: &str = "open 1 2\ntransmit 1 2\ntransmit 1 2\ndeliver 2\ntransmit 1 2\n";

/// A new node sends each HELLO in both versions until it has heard a frame of version 2; an old one sends version 1
/// alone.
#[test]
fn old_node_says_hello_once(rt: HostRuntime) {
    expect_rows(&rt, Way::Simulation, HELLOS);
}

/// Inputs of two parts: `FOUR` or another beginning, and then lines with `old`. One of these lines, or a link after
/// one, is the fault.
const NO_OLD: &[Row] = &[
    (
        &[FOUR],
        &[
            "old 5\nneed 1 4\n",
            "old 0\n",
            "old 01\n",
            "old 4294967296\n",
            "old 1 2\n",
            "old  1\n",
            "old 1 \n",
            "old -\n",
            "old\n",
            "old \n",
            "old 1,2\n",
        ],
        "fault 5\n",
        Ended::Fault(5),
    ),
    (
        &[FOUR],
        &[
            "old 1\nold 5\n",
            "old 1\nlink 4 5\n",
            "tick\nold 1\n",
            "rounds 0\nold 1\n",
        ],
        "fault 6\n",
        Ended::Fault(6),
    ),
    (
        &[FOUR],
        &["old 1\ntick\nold 2\n"],
        "fault 7\n",
        Ended::Fault(7),
    ),
    (&[""], &["old 1\n"], "fault 1\n", Ended::Fault(1)),
    (
        &["dests 4\n"],
        &["old 1\nlink 1 2\n"],
        "fault 2\n",
        Ended::Fault(2),
    ),
    (
        &["dests 4\nlink 1 1\n"],
        &["old 1\nold 1\n"],
        "fault 3\n",
        Ended::Fault(3),
    ),
    (
        &["dests 4\nlink 1 2\nlink 2 1\n"],
        &["old 1\ntick\n"],
        "fault 4\n",
        Ended::Fault(4),
    ),
];

/// A line `old N` is a fault if no link names the node, if it follows neither a link nor a line `old` or `erasure`, if
/// the links are refused, or if it is malformed. A link after it is a fault.
#[test]
fn old_nodes_that_are_faults(rt: HostRuntime) {
    expect_rows(&rt, Way::Simulation, NO_OLD);
}

const LAST_OLD: &[Row] = &[(&[FOUR], &["old 2\n", "old 2"], "", Ended::Whole)];

/// The input may end after a line `old N`.
#[test]
fn input_ends_behind_an_old_node(rt: HostRuntime) {
    expect_rows(&rt, Way::Simulation, LAST_OLD);
}

/// Lines after `FOUR`: a route to node 4 is found, and the link of nodes 3 and 4 is parted. The heights are printed
/// before that, and 30 rounds later.
const THIRTY_ROUNDS: &str = "need 1 4\nrounds 3\nheights 4\npart 3 4\nrounds 30\nheights 4\n";

const LOST: &[Row] = &[(&[FOUR], &[THIRTY_ROUNDS], FOUND_AND_LOST, Ended::Whole)];

const NOT_LOST: &[Row] = &[(
    &[FOUR],
    &[THIRTY_ROUNDS],
    "node 1 (0,0,0,3,1) hop 2\nnode 2 (0,0,0,2,2) hop 3\n\
    node 3 (0,0,0,1,3) hop 4\nnode 4 (0,0,0,0,4) hop -\n\
    node 1 (0,0,0,3,1) hop 2\nnode 2 (0,0,0,2,2) hop 3\n\
    node 3 (0,0,0,1,3) hop 4\nnode 4 (0,0,0,0,4) hop -\n",
    Ended::Whole,
)];

/// Within 30 rounds after `part 3 4`, the route to node 4 is lost if a link end is silent after 20 ticks, and not if it
/// is silent after 50, the standard number.
#[test]
fn route_is_lost_after_the_silence_asked_for(rt: HostRuntime) {
    expect_rows(&rt, Way::StandardTimes, NOT_LOST);
    expect_rows(&rt, Way::ShortSilence, LOST);
}

/// Checks the times that `asked_times` reads from the word of each row, as in `TIMES`.
fn expect_times(rt: &impl Abort, rows: &[(Option<&str>, Option<Times>)]) {
    for (word, times) in rows {
        same_at(rt, &asked_times(*word), times, word);
    }
}

const LONGEST_RETRY: Times = Times {
    hello: 1,
    silent: 2,
    retry: u64::MAX,
    tries: 1000,
};

/// Words after `--times`, and the times in them. The word `None` stands for a missing option, the times `None` for a
/// malformed word.
const TIMES: &[(Option<&str>, Option<Times>)] = &[
    (None, Some(Times::STANDARD)),
    (Some("10,50,5,8"), Some(Times::STANDARD)),
    (Some("1,2,18446744073709551615,1000"), Some(LONGEST_RETRY)),
    (Some(""), None),
    (Some(",,,"), None),
    (Some("10"), None),
    (Some("10,50,5"), None),
    (Some("10,50,5,"), None),
    (Some(",50,5,8"), None),
    (Some("10,50,5,8,"), None),
    (Some("10,50,5,8,1"), None),
    (Some("0,50,5,8"), None),
    (Some("10,0,5,8"), None),
    (Some("10,50,0,8"), None),
    (Some("10,50,5,0"), None),
    (Some("010,50,5,8"), None),
    (Some("+10,50,5,8"), None),
    (Some("-10,50,5,8"), None),
    (Some("10, 50,5,8"), None),
    (Some("10 50 5 8"), None),
    (Some("ten,50,5,8"), None),
    (Some("10,50,5,8s"), None),
    (Some("18446744073709551616,50,5,8"), None),
];

/// Checks `asked_times` for each row of `TIMES`: a word is four numbers from 1 to 2^64 - 1 with commas, and any other
/// word is malformed. Without a word the times are the standard ones.
#[test]
fn times_are_asked_for(rt: HostRuntime) {
    expect_times(&rt, TIMES);
}

/// The words after `--times` in `TIMES_ON_COMMAND_LINES`, and the times in them, with `None` as in `TIMES`.
const WORDS_OF_TIMES: &[(Option<&str>, Option<Times>)] = &[
    (None, Some(Times::STANDARD)),
    (Some("10,20,5,8"), Some(SHORT_SILENCE)),
    (Some("10,20,5"), None),
];

/// Command lines, and the simulation that each requests; `Nothing` for words that are not a command line.
const TIMES_ON_COMMAND_LINES: &[(&[&str], Asked)] = &[
    (&["tora", "sim", "a.sim"], Asked::Sim("a.sim", None, None)),
    (
        &["tora", "sim", "--times", "10,20,5,8", "a.sim"],
        Asked::Sim("a.sim", Some("10,20,5,8"), None),
    ),
    (
        &["tora", "sim", "--times=10,20,5,8", "a.sim"],
        Asked::Sim("a.sim", Some("10,20,5,8"), None),
    ),
    (
        &["tora", "sim", "a.sim", "--times", "10,20,5,8"],
        Asked::Sim("a.sim", Some("10,20,5,8"), None),
    ),
    (
        &["tora", "sim", "--times", "10,20,5", "a.sim"],
        Asked::Sim("a.sim", Some("10,20,5"), None),
    ),
    (&["tora", "sim", "--times", "a.sim"], Asked::Nothing),
    (&["tora", "sim", "a.sim", "--times"], Asked::Nothing),
    (&["tora", "--times", "10,50,5,8"], Asked::Nothing),
    (&["tora", "replay", "--times", "10,50,5,8"], Asked::Nothing),
];

#[test]
fn times_on_the_command_line(rt: HostRuntime) {
    expect_words(&rt, rt.alloc(), TIMES_ON_COMMAND_LINES);
    expect_times(&rt, WORDS_OF_TIMES);
}
