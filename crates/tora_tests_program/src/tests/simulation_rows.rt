//! Lines of simulation files that are accepted or faults, and their output.
use super::route_rows::{FOUR, STAR, STAR_OF_255};
use super::runs::{Files, NOTHING, Row};
use tora_lines::Ended;

/// Lines `exact` and `walk` that name a node or a destination that does not exist in `FOUR`, or have too few words.
const NO_WALKS: &[&str] = &[
    "exact 3\n",
    "walk 5 4\n",
    "walk 1 3\n",
    "exact\n",
    "walk 4\n",
];

pub const WALKS: &[Row] = &[
    (&[FOUR], NO_WALKS, "fault 5\n", Ended::Fault(5)),
    (
        &[FOUR],
        &["walk 4 4\nwalk 1 4\n"],
        "walk 4\nwalk -\n",
        Ended::Whole,
    ),
];

/// First lines that are accepted.
const DESTINATIONS: &[&str] = &[
    "dests -\n",
    "dests 4\n",
    "dests 4294967295\n",
    "dests 9,1,5\n",
    "dests 1,2,3,4,5,6,7,8,9,10,11,12,13,14,15,16,\
    17,18,19,20,21,22,23,24,25,26,27,28,29,30,31,32,\
    33,34,35,36,37,38,39,40,41,42,43,44,45,46,47,48,\
    49,50,51,52,53,54,55,56,57,58,59,60,61,62,63,64\n",
];

/// First lines that are faults.
const NO_DESTINATIONS: &[&str] = &[
    "",
    "\n",
    "dests\n",
    "dests \n",
    "dests 0\n",
    "dests 04\n",
    "dests 4294967296\n",
    "dests 4,\n",
    "dests ,4\n",
    "dests 4,,5\n",
    "dests 4 5\n",
    "dests 4 \n",
    "dests  4\n",
    " dests 4\n",
    "dests -,4\n",
    "dests --\n",
    "dests 4\r\n",
    "Dests 4\n",
    "dest 4\n",
    "link 1 2\n",
    "node 3 links 2 dests 4\n",
];

/// Accepted first lines, with a link as line 2, and without one, which is a fault of line 2; and faulty first lines
/// alone.
pub const FIRST_LINES: &[Row] = &[
    (
        DESTINATIONS,
        &["link 1 2", "link 1 2\ntick\n"],
        "",
        Ended::Whole,
    ),
    (DESTINATIONS, &["", "tick"], "fault 2\n", Ended::Fault(2)),
    (NO_DESTINATIONS, NOTHING, "fault 1\n", Ended::Fault(1)),
];

/// A first line and two links that are refused: the second link repeats the first or joins a node to itself, or the
/// first line repeats a destination or has 65 of them.
const TWO_LINKS: &[&str] = &[
    "dests 4\nlink 1 2\nlink 1 2",
    "dests 4\nlink 1 2\nlink 2 1",
    "dests 4\nlink 1 2\nlink 3 3",
    "dests 4,4\nlink 1 2\nlink 2 3",
    "dests 1,2,3,4,5,6,7,8,9,10,11,12,13,14,15,16,\
    17,18,19,20,21,22,23,24,25,26,27,28,29,30,31,32,\
    33,34,35,36,37,38,39,40,41,42,43,44,45,46,47,48,\
    49,50,51,52,53,54,55,56,57,58,59,60,61,62,63,64,\
    65\nlink 1 2\nlink 2 3",
];

/// The rest of an input after `TWO_LINKS`; its first line, whatever it is, is the fault, line 4.
const BEHIND_LINKS: &[&str] = &["\ntick\n", "\n\n", "\nlink 5 0\n", "\nheights 4\ntick\n"];

/// A refused topology is a fault of the line after the links, whatever that line is, or of the last link if the input
/// ends there. A node with 32 neighbours is accepted, and one with 33 is refused.
pub const TOPOLOGIES: &[Row] = &[
    (TWO_LINKS, NOTHING, "fault 3\n", Ended::Fault(3)),
    (TWO_LINKS, BEHIND_LINKS, "fault 4\n", Ended::Fault(4)),
    (&["dests 4\n"], &[STAR], "", Ended::Whole),
    (
        &["dests 4\nlink 34 1\n"],
        &[STAR],
        "fault 34\n",
        Ended::Fault(34),
    ),
];

/// A row of 64 nodes, which is accepted, and one of 65, which is a fault of its last link, line 65.
pub const LINES_OF_NODES: &[Files] = &[
    Files {
        front: "dests 4\n",
        middles: &[LINKS_OF_A_LINE],
        times: 1,
        end: "",
        text: "",
        ended: Ended::Whole,
    },
    Files {
        front: "dests 4\n",
        middles: &[LINKS_OF_A_LINE],
        times: 1,
        end: "link 64 65\n",
        text: "fault 65\n",
        ended: Ended::Fault(65),
    },
];

/// In a large world: a row of 65 nodes, which is accepted, so that the fault is a later line, which names a node 66;
/// stars with 33 and 255 leaves, which are accepted; and a star with 256, whose last link is the fault.
pub const LARGE_WORLDS: &[Files] = &[
    Files {
        front: "dests 4\n",
        middles: &[LINKS_OF_A_LINE],
        times: 1,
        end: "link 64 65\nold 65\nwalk 65 4\nwalk 66 4\n",
        text: "walk -\nfault 68\n",
        ended: Ended::Fault(68),
    },
    Files {
        front: "dests 2\n",
        middles: &[STAR],
        times: 1,
        end: "link 34 1\nrounds 1\nneed 34 2\nrounds 3\nwalk 34 2\n",
        text: "walk 34,1,2\n",
        ended: Ended::Whole,
    },
    Files {
        front: "dests 2\n",
        middles: &[STAR_OF_255],
        times: 1,
        end: "rounds 1\nneed 256 2\nrounds 3\nwalk 256 2\n",
        text: "walk 256,1,2\n",
        ended: Ended::Whole,
    },
    Files {
        front: "dests 2\n",
        middles: &[STAR_OF_255],
        times: 1,
        end: "link 257 1\n",
        text: "fault 257\n",
        ended: Ended::Fault(257),
    },
];

/// The links of a row of 64 nodes.
pub const LINKS_OF_A_LINE: &str = "link 1 2\nlink 2 3\nlink 3 4\nlink 4 5\nlink 5 6\nlink 6 7\n\
    link 7 8\nlink 8 9\nlink 9 10\nlink 10 11\nlink 11 12\nlink 12 13\n\
    link 13 14\nlink 14 15\nlink 15 16\nlink 16 17\nlink 17 18\nlink 18 19\n\
    link 19 20\nlink 20 21\nlink 21 22\nlink 22 23\nlink 23 24\nlink 24 25\n\
    link 25 26\nlink 26 27\nlink 27 28\nlink 28 29\nlink 29 30\nlink 30 31\n\
    link 31 32\nlink 32 33\nlink 33 34\nlink 34 35\nlink 35 36\nlink 36 37\n\
    link 37 38\nlink 38 39\nlink 39 40\nlink 40 41\nlink 41 42\nlink 42 43\n\
    link 43 44\nlink 44 45\nlink 45 46\nlink 46 47\nlink 47 48\nlink 48 49\n\
    link 49 50\nlink 50 51\nlink 51 52\nlink 52 53\nlink 53 54\nlink 54 55\n\
    link 55 56\nlink 56 57\nlink 57 58\nlink 58 59\nlink 59 60\nlink 60 61\n\
    link 61 62\nlink 62 63\nlink 63 64\n";

/// A first line with two destinations, and two links.
pub const THREE: &str = "dests 3,7\nlink 1 2\nlink 2 3\n";

/// Faulty lines directly after the links of `THREE`: malformed links, and a second line `dests`.
const NO_LINKS: &[&str] = &[
    "link\n",
    "link \n",
    "link 4\n",
    "link 4 \n",
    "link 4 5 6\n",
    "link 4 5 \n",
    "link 4  5\n",
    " link 4 5\n",
    "link 4 0\n",
    "link 0 4\n",
    "link 04 5\n",
    "link 4 05\n",
    "link 4 4294967296\n",
    "link 4,5\n",
    "link 4 -\n",
    "link 4 5\r\n",
    "Link 4 5\n",
    "dests 4\n",
];

pub const LINKS: &[Row] = &[
    (
        &[THREE],
        &["link 4294967295 1\n", "link 3 4", "link 1 3\n"],
        "",
        Ended::Whole,
    ),
    (&[THREE], NO_LINKS, "fault 4\n", Ended::Fault(4)),
    (
        &[THREE],
        &["tick\nlink 4 5\n"],
        "fault 5\n",
        Ended::Fault(5),
    ),
];

pub const MOST_ROUNDS: &[Row] = &[
    (
        &["dests -\nlink 1 2\nrounds "],
        &["10000"],
        "",
        Ended::Whole,
    ),
    (
        &["dests -\nlink 1 2\nrounds "],
        &["10001"],
        "fault 3\n",
        Ended::Fault(3),
    ),
];

/// Lines of each kind after the links of `THREE`, and their output: `refused 2` if there is no such node or link,
/// `refused 3` if there is no such datagram, `refused 4` if the event is not possible now.
pub const TAKEN: &[(&str, &str)] = &[
    ("need 1 3", ""),
    ("need 1 9", ""),
    ("need 9 3", "refused 2\n"),
    ("need 4294967295 4294967295", "refused 2\n"),
    ("tick", ""),
    ("open 1 2", ""),
    ("open 1 2\nopen 1 2", "refused 4\n"),
    ("open 1 3", "refused 2\n"),
    ("open 9 1", "refused 2\n"),
    ("pull 1 2", "refused 4\n"),
    ("pull 1 3", "refused 2\n"),
    ("transmit 1 2", "refused 4\n"),
    ("transmit 3 1", "refused 2\n"),
    ("open 1 2\ntransmit 1 2\ndeliver 1\ndeliver 1", ""),
    ("deliver 0", "refused 3\n"),
    ("deliver 1", "refused 3\n"),
    ("deliver 18446744073709551615", "refused 3\n"),
    ("pump 1 2", "refused 4\n"),
    ("pump 2 4", "refused 2\n"),
    ("turn 1", "refused 4\n"),
    ("turn 9", "refused 2\n"),
    ("need 1 3\nturn 1\nturn 1", "refused 4\n"),
    ("arm 1 send-lost", ""),
    ("arm 1 send-gone", ""),
    ("arm 1 receive", ""),
    ("arm 1 read", ""),
    ("arm 1 write", ""),
    ("arm 1 sync", ""),
    ("arm 9 sync", "refused 2\n"),
    ("restart 1 -", ""),
    ("restart 1 0123456789abcdefABCDEF0123456789", ""),
    ("restart 9 -", "refused 2\n"),
    ("rounds 0", ""),
    ("rounds 2", ""),
    ("part 1 2", ""),
    ("part 2 1\npart 1 2", ""),
    ("mend 1 2", ""),
    ("mend 3 2", ""),
    (
        "heights 3",
        "node 1 - hop -\nnode 2 - hop -\nnode 3 (0,0,0,0,3) hop -\n",
    ),
    (
        "heights 7",
        "node 1 - hop -\nnode 2 - hop -\nnode 3 - hop -\n",
    ),
    ("sent 1 2 1 4611686018427387904", "count 0\n"),
    ("taken 1 2 4611686018427387904 1", "count 0\n"),
];
