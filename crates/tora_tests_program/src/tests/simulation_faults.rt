//! Faulty lines after the links of simulation files.
use super::runs::{Files, NOTHING, Row};
use super::simulation_rows::THREE;
use tora_lines::Ended;

/// Lines that name a link or a destination that does not exist in `THREE`.
const OTHER_LINKS: &[&str] = &[
    "part 1 3",
    "part 1 1",
    "part 1 9",
    "mend 1 3",
    "mend 9 1",
    "sent 1 3 1 1",
    "sent 2 2 1 1",
    "taken 3 1 1 1",
    "taken 9 1 1 1",
    "heights 1",
    "heights 4",
];

/// Each of the lines `OTHER_LINKS` directly after the links: it is line 4, the fault.
pub const OTHERS: &[Row] = &[(&[THREE], OTHER_LINKS, "fault 4\n", Ended::Fault(4))];

/// Each of the lines `OTHER_LINKS` between two ticks: it is line 5, the fault.
pub const OTHERS_BETWEEN_TICKS: &[Files] = &[Files {
    front: "dests 3,7\nlink 1 2\nlink 2 3\ntick\n",
    middles: OTHER_LINKS,
    times: 1,
    end: "\ntick\n",
    text: "fault 5\n",
    ended: Ended::Fault(5),
}];

/// Malformed lines of the events with two numbers: `need`, `open`, `pull`, `transmit` and `pump`.
const NO_PAIRS: &[&str] = &[
    "need",
    "need ",
    "need 1",
    "need 1 ",
    "need 1 3 ",
    "need 1 3 4",
    "need 1  3",
    " need 1 3",
    "need 0 3",
    "need 1 0",
    "need 01 3",
    "need 1 03",
    "need 1 4294967296",
    "need -1 3",
    "need 1,3",
    "need 1 -",
    "Need 1 3",
    "needs 1 3",
    "1 need 3",
    "open 1",
    "open 1 2 3",
    "open 0 2",
    "open 1 0",
    "open 1 2 ",
    "open 01 2",
    "pull 1",
    "pull 1 2 3",
    "pull 0 2",
    "pull 1 02",
    "pull 1 2 ",
    "transmit 1",
    "transmit 1 2 3",
    "transmit 1 0",
    "transmit 01 2",
    "transmit 1 2 ",
    "pump 1",
    "pump 1 2 3",
    "pump 1 0",
    "pump 1 02",
    "pump 1 2 ",
];

/// Other faulty lines: blank ones, other words, and `tick`, `deliver` and `turn` with wrong words.
const NO_EVENTS: &[&str] = &[
    "\n",
    " ",
    "tick ",
    "tick 1",
    " tick",
    "Tick",
    "ticks",
    "1 tick",
    "tick\r",
    "deliver",
    "deliver ",
    "deliver 01",
    "deliver -1",
    "deliver 1 ",
    "deliver 1 2",
    "deliver 18446744073709551616",
    "deliver 1a",
    "turn",
    "turn ",
    "turn 0",
    "turn 01",
    "turn 1 ",
    "turn 1 2",
    "turn 4294967296",
    "\u{e9}",
    "tick\u{0}",
];

pub const EVENTS: &[Row] = &[
    (&[THREE], NO_PAIRS, "fault 4\n", Ended::Fault(4)),
    (&[THREE], NO_EVENTS, "fault 4\n", Ended::Fault(4)),
];

/// Malformed lines `arm` and `restart`.
const NO_CALLS: &[&str] = &[
    "arm",
    "arm 1",
    "arm 1 ",
    "arm 0 read",
    "arm 01 read",
    "arm read",
    "arm 1 read ",
    "arm 1 read write",
    "arm 1  read",
    "arm 1 Read",
    "arm 1 send",
    "arm 1 send-",
    "arm 1 lost",
    "arm 1 receives",
    "arm 1 syn",
    "restart",
    "restart 1",
    "restart 1 ",
    "restart 0 -",
    "restart 01 -",
    "restart 1 --",
    "restart 1 - ",
    "restart 1 - -",
    "restart 1  -",
    "restart 1 0123456789abcdef0123456789abcde",
    "restart 1 0123456789abcdef0123456789abcdef0",
    "restart 1 0123456789abcdef0123456789abcdef01",
    "restart 1 0123456789abcdef0123456789abcdeg",
    "restart 1 0123456789abcdef 123456789abcdef",
    "restart 1 0x23456789abcdef0123456789abcdef",
    "restart 1 0123456789abcdef0123456789abcdef ",
];

pub const CALLS: &[Row] = &[(&[THREE], NO_CALLS, "fault 4\n", Ended::Fault(4))];

/// Malformed lines `rounds`, `part`, `mend`, `heights`, `sent` and `taken`, and lines with a word that no simulation
/// file has.
const NO_ORDERS: &[&str] = &[
    "rounds",
    "rounds ",
    "rounds 01",
    "rounds -1",
    "rounds 10001",
    "rounds 1 ",
    "rounds 1 2",
    "rounds 18446744073709551616",
    "round 1",
    "part 1",
    "part 1 2 3",
    "part 0 2",
    "part 1 2 ",
    "part 01 2",
    "part 1 4294967298",
    "mend 1",
    "mend 1 2 3",
    "mend 1 0",
    "mend 1 2 ",
    "heights",
    "heights ",
    "heights 0",
    "heights 03",
    "heights 3 ",
    "heights 3,7",
    "heights -",
    "heights 3 7",
    "height 3",
    "sent 1 2",
    "sent 1 2 1",
    "sent 1 2 1 ",
    "sent 1 2 1 1 1",
    "sent 1 2 1 1 ",
    "sent 0 2 1 1",
    "sent 1 0 1 1",
    "sent 1 2 0 1",
    "sent 1 2 1 0",
    "sent 1 2 01 1",
    "sent 1 2 1 01",
    "sent 1 2 1 4611686018427387905",
    "sent 1 2 4611686018427387905 1",
    "sent 1 2  1 1",
    "taken 1 2",
    "taken 1 2 1",
    "taken 1 2 1 1 1",
    "taken 1 2 1 1 ",
    "taken 0 2 1 1",
    "taken 1 2 0 1",
    "taken 1 2 1 0",
    "taken 1 2 1 4611686018427387905",
    "show",
    "1 show",
    "quit",
];

pub const ORDERS: &[Row] = &[(&[THREE], NO_ORDERS, "fault 4\n", Ended::Fault(4))];

/// A first line of 4,096 bytes is read; it has too many destinations, which is a fault of line 3, after the link. A
/// first line of 4,098 bytes is a fault itself.
pub const LONGEST_LINES: &[Files] = &[
    Files {
        front: "dests 11",
        middles: &[",1"],
        times: 2044,
        end: "\nlink 1 2\ntick\n",
        text: "fault 3\n",
        ended: Ended::Fault(3),
    },
    Files {
        front: "dests 11",
        middles: &[",1"],
        times: 2045,
        end: "\nlink 1 2\ntick\n",
        text: "fault 1\n",
        ended: Ended::Fault(1),
    },
];
