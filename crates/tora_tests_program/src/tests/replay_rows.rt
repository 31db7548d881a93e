//! Lines of replay files, and what is printed for them.
use super::runs::{Files, NOTHING, Row};
use tora_core::CoreError;
use tora_lines::Ended;
use tora_script::ReplayCause;

pub const ROUTE: &str = "node 3 links 2,4 dests 4\n1 up 2\n1 up 4\n2 from 2 0101000000000004\n\
    3 from 2 0102000000000004000000000000000000000000000000000000000200000002\n";

pub const ROUTE_TEXT: &str =
    "send 0102000000000004000000000000000000000000000000000000000100000003\n";

const LOSS: &str = "7 down 4\n7 show\n\
    8 from 2 010200000000000400000000000000070000000300000000ffffffff00000002\n\
    9 from 2 010200000000000400000000000000070000000301000000ffffffff00000002\n9 show\n";

pub const ROUTE_AND_LOSS: &str =
    "node 3 links 2,4 dests 4\n1 up 2\n1 up 4\n2 from 2 0101000000000004\n\
    3 from 2 0102000000000004000000000000000000000000000000000000000200000002\n7 down 4\n7 show\n\
    8 from 2 010200000000000400000000000000070000000300000000ffffffff00000002\n\
    9 from 2 010200000000000400000000000000070000000301000000ffffffff00000002\n9 show\n";

pub const LOSS_TEXT: &str =
    "send 0102000000000004000000000000000000000000000000000000000100000003\n\
    send 0102000000000004000000000000000700000003000000000000000000000003\n\
    to 4 height (7,3,0,0,3) flag 0 hop 2\nvia 2 (0,0,0,2,2) down\n\
    send 0103000000000004000000000000000700000003\n\
    to 4 height - flag 0 hop -\nvia 2 - none\n";

pub const QUERY: &[Row] = &[(
    &[ROUTE],
    &["3 show\n"],
    "send 0102000000000004000000000000000000000000000000000000000100000003\n\
    to 4 height (0,0,0,1,3) flag 0 hop 4\nvia 2 (0,0,0,2,2) up\nvia 4 (0,0,0,0,4) down\n",
    Ended::Whole,
)];

pub const PARTITION: &[Row] = &[(&[ROUTE], &[LOSS], LOSS_TEXT, Ended::Whole)];

pub const DELTA_OUT_OF_RANGE: &[Row] = &[(
    &["node 2 links 3 dests 4\n1 up 3\n2 need 4\n"],
    &["3 from 3 0102000000000004000000000000000000000000000000004000000000000003\n3 show\n"],
    "send 0101000000000004\nto 4 height - flag 0 hop 3\nvia 3 (0,0,0,1073741824,3) down\n",
    Ended::Whole,
)];

pub const TOLD_NEIGHBOUR: &[Row] = &[(
    &[ROUTE],
    &["4 from 2 0101000000000004\n5 down 2\n6 up 2\n6 from 2 0101000000000004\n"],
    "send 0102000000000004000000000000000000000000000000000000000100000003\n\
    send 0102000000000004000000000000000000000000000000000000000100000003\n",
    Ended::Whole,
)];

pub const REFUSED_PACKETS: &[Row] = &[(
    &["node 3 links 2 dests 4\n1 up 2\n"],
    &[
        "2 from 2 -\n2 from 2 02\n2 from 2 01010000000000\n2 from 2 010100000000000400\n\
    2 from 2 0102000000000004000000000000000000000000000100000000000100000003\n\
    2 from 2 010200000000000400000000000000070000000300000000ffffffff00000002\n\
    2 from 2 010200000000000400000000000000000000000000000000ffffffff00000002\n",
    ],
    "bad 1\nbad 1\nbad 1\nbad 2\nbad 5\nbad 6\n",
    Ended::Whole,
)];

pub const REFUSED_INPUTS: &[Row] = &[(
    &["node 3 links 2,4 dests 4\n1 up 9\n1 down 2\n1 up 2\n1 up 2\n"],
    &[
        "1 from 4 0101000000000004\n1 need 99\n\
    1 from 2 0102000000000004000000000000000000000000000000000000000100000005\n",
    ],
    "refused 1\nrefused 3\nrefused 2\nrefused 3\nrefused 5\nrefused 4\n",
    Ended::Whole,
)];

pub const EMPTY: &[Row] = &[
    (&[""], &[""], "fault 1\n", Ended::Fault(1)),
    (&["\n"], &[""], "fault 1\n", Ended::Fault(1)),
];

pub const TWO_DESTINATIONS: &[Row] = &[(
    &["node 3 links 2,4 dests 5,4\n1 up 2\n"],
    &["1 need 5\n1 need 4\n2 up 4\n"],
    "send 0101000000000005\nsend 0101000000000004\n\
    send 0102000000000004000000000000000000000000000000000000000100000003\n\
    send 0101000000000005\n",
    Ended::Whole,
)];

/// First lines that are accepted.
const ACCEPTED: &[&str] = &[
    "node 3 links - dests -",
    "node 3 links - dests -\n",
    "node 4 links 2 dests 4",
    "node 3 links 4 dests 4",
    "node 4294967295 links 1 dests 1",
    "node 33 links 1,2,3,4,5,6,7,8,9,10,11,12,13,14,15,16,\
    17,18,19,20,21,22,23,24,25,26,27,28,29,30,31,32 dests \
    1,2,3,4,5,6,7,8,9,10,11,12,13,14,15,16,\
    17,18,19,20,21,22,23,24,25,26,27,28,29,30,31,32,\
    33,34,35,36,37,38,39,40,41,42,43,44,45,46,47,48,\
    49,50,51,52,53,54,55,56,57,58,59,60,61,62,63,64",
];

/// First lines that are faults.
const REFUSED: &[&str] = &[
    "node 0 links 2 dests 4",
    "node 03 links 2 dests 4",
    "node 4294967296 links 2 dests 4",
    "node 3 links 0 dests 4",
    "node 3 links 2, dests 4",
    "node 3 links ,2 dests 4",
    "node 3 links 2,,4 dests 4",
    "node 3 links 2 4 dests 4",
    "node 3 links -,2 dests 4",
    "node 3 links  dests 4",
    "node 3 links 2 dests",
    "node 3 links 2 dests ",
    "node 3 links 2 dests 4 ",
    "node 3 links 2  dests 4",
    " node 3 links 2 dests 4",
    "Node 3 links 2 dests 4",
    "node 3 links 2 dests 4\r",
    "node 3 links 2,2 dests 4",
    "node 3 links 2 dests 4,4",
    "node 3 links 3 dests 4",
    "node 34 links 1,2,3,4,5,6,7,8,9,10,11,12,13,14,15,16,\
    17,18,19,20,21,22,23,24,25,26,27,28,29,30,31,32,\
    33 dests 4",
    "node 3 links 2 dests 1,2,3,4,5,6,7,8,9,10,11,12,13,14,15,16,\
    17,18,19,20,21,22,23,24,25,26,27,28,29,30,31,32,\
    33,34,35,36,37,38,39,40,41,42,43,44,45,46,47,48,\
    49,50,51,52,53,54,55,56,57,58,59,60,61,62,63,64,\
    65",
    "1 show",
];

/// Accepted and faulty first lines, without a further line.
pub const FIRST_LINES: &[Row] = &[
    (ACCEPTED, NOTHING, "", Ended::Whole),
    (REFUSED, NOTHING, "fault 1\n", Ended::Fault(1)),
];

pub const FIRST: &str = "node 3 links 2 dests 4\n";

/// Faulty lines after the first line.
const NO_LINES: &[&str] = &[
    "\n",
    " ",
    "1",
    "1 ",
    " 1 show",
    "1  show",
    "1 show ",
    "1 show 4",
    "1 shows",
    "1 Show",
    "1\tshow",
    "01 show",
    "+1 show",
    "-1 show",
    "1a show",
    "18446744073709551616 show",
    "99999999999999999999 show",
    "1 up",
    "1 up ",
    "1 up 0",
    "1 up 02",
    "1 up 2 ",
    "1 up 2 4",
    "1 up -",
    "1 up 4294967296",
    "1 down 0",
    "1 need 0",
    "1 need 4,5",
    "1 from 2",
    "1 from 2 ",
    "1 from 2 0",
    "1 from 2 0g",
    "1 from 2 --",
    "1 from 2 01 02",
    "1 from 0 -",
    "1 drop 2",
    "1 show\r",
    "node 3 links 2 dests 4",
    "1 show\u{e9}",
    "\u{fffd}",
];

pub const FAULTS: &[Row] = &[(&[FIRST], NO_LINES, "fault 2\n", Ended::Fault(2))];

/// Lines after `FIRST` with the least or greatest numbers, or with digits of both cases, and their output.
pub const ENDS_OF_RANGES: &[(&str, &str)] = &[
    ("0 show", "to 4 height - flag 0 hop -\n"),
    (
        "18446744073709551615 show\n",
        "to 4 height - flag 0 hop -\n",
    ),
    ("1 up 4294967295", "refused 1\n"),
    ("1 from 4294967295 -", "bad 1\n"),
    ("1 from 1 0A0a", "bad 3\n"),
    ("1 from 2 0101000000000004", "refused 3\n"),
];

pub const EMPTY_LINE: &[Row] = &[(
    &[FIRST],
    &["1 show\n\n"],
    "to 4 height - flag 0 hop -\nfault 3\n",
    Ended::Fault(3),
)];

/// A line of 4,096 bytes, which is read, and one of 4,097, which is a fault.
pub const LONGEST_LINES: &[Files] = &[
    Files {
        front: "node 3 links 2 dests 4\n12 from 2 ",
        middles: &["0"],
        times: 4086,
        end: "",
        text: "bad 3\n",
        ended: Ended::Whole,
    },
    Files {
        front: "node 3 links 2 dests 4\n123 from 2 ",
        middles: &["0"],
        times: 4086,
        end: "",
        text: "fault 2\n",
        ended: Ended::Fault(2),
    },
];

/// Lines after the first line, and why they are faults.
pub const CAUSES: &[(Option<&str>, ReplayCause)] = &[
    (Some(""), ReplayCause::Empty),
    (Some("1 show\r"), ReplayCause::CarriageReturn),
    (Some("1 show "), ReplayCause::TrailingBlank),
    (Some("show"), ReplayCause::Time),
    (Some("01 show"), ReplayCause::Time),
    (Some("18446744073709551616 show"), ReplayCause::Time),
    (Some("1"), ReplayCause::NoOrder),
    (Some("1 open 2"), ReplayCause::Word),
    (Some("1 up 0"), ReplayCause::Id),
    (Some("1 down"), ReplayCause::Id),
    (Some("1 need 4294967296"), ReplayCause::Id),
    (Some("1 from 2"), ReplayCause::From),
    (Some("1 from 0 -"), ReplayCause::From),
    (Some("1 from 2 0g"), ReplayCause::Digits),
    (Some("1 from 2 010"), ReplayCause::Digits),
    (Some("1 show 4"), ReplayCause::Show),
];

/// First lines (`None`: the input is empty), and why they are faults.
pub const FIRST_CAUSES: &[(Option<&str>, ReplayCause)] = &[
    (None, ReplayCause::Missing),
    (Some("1 show"), ReplayCause::Header),
    (Some("node 3 links 2 dests 4 5"), ReplayCause::Header),
    (Some("node 3 links 2  dests 4"), ReplayCause::Header),
    (Some("node 0 links 2 dests 4"), ReplayCause::HeaderNumber),
    (Some("node 3 links 2, dests 4"), ReplayCause::HeaderNumber),
    (
        Some("node 3 links 2,2 dests 4"),
        ReplayCause::Refused(CoreError::Repeated),
    ),
    (
        Some("node 3 links 3 dests 4"),
        ReplayCause::Refused(CoreError::OwnId),
    ),
    (
        Some(
            "node 34 links 1,2,3,4,5,6,7,8,9,10,11,12,13,14,15,16,\
    17,18,19,20,21,22,23,24,25,26,27,28,29,30,31,32,\
    33 dests 4",
        ),
        ReplayCause::Refused(CoreError::TooMany),
    ),
];
