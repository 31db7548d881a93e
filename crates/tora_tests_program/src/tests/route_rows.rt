//! Simulation files in which a route is found and lost, and what is printed for them.
use super::runs::{Files, NOTHING, Row};
use tora_lines::Ended;

/// The first line, with the destination 4, and the links of a row of four nodes.
pub const FOUR: &str = "dests 4\nlink 1 2\nlink 2 3\nlink 3 4\n";

/// The heights and next hops of the nodes in `FOUR`, with a route to 4.
pub const FOUND: &str = "node 1 (0,0,0,3,1) hop 2\nnode 2 (0,0,0,2,2) hop 3\n\
    node 3 (0,0,0,1,3) hop 4\nnode 4 (0,0,0,0,4) hop -\n";

/// The route to 4 is found and lost in `FOUR`.
pub const FOUR_FOUND_AND_LOST: &str = "dests 4\nlink 1 2\nlink 2 3\nlink 3 4\nneed 1 4\nrounds 3\n\
    heights 4\npart 3 4\nrounds 60\nheights 4\n";

/// The output of `FOUR_FOUND_AND_LOST`.
pub const FOUND_AND_LOST: &str = "node 1 (0,0,0,3,1) hop 2\nnode 2 (0,0,0,2,2) hop 3\n\
    node 3 (0,0,0,1,3) hop 4\nnode 4 (0,0,0,0,4) hop -\n\
    node 1 - hop -\nnode 2 - hop -\nnode 3 - hop -\nnode 4 (0,0,0,0,4) hop -\n";

pub const ROUTE: &[Row] = &[(&[FOUR_FOUND_AND_LOST], &[""], FOUND_AND_LOST, Ended::Whole)];

pub const MENDED_FILE: &[Row] = &[(
    &[FOUR],
    &["need 1 4\narm 2 write\nrounds 3\nheights 4\nrestart 2 -\nrounds 60\nheights 4\n"],
    "node 1 - hop -\nnode 2 - hop -\nnode 3 - hop 4\nnode 4 (0,0,0,0,4) hop -\n\
    node 1 (0,0,0,3,1) hop 2\nnode 2 (0,0,0,2,2) hop 3\nnode 3 (0,0,0,1,3) hop 4\n\
    node 4 (0,0,0,0,4) hop -\n",
    Ended::Whole,
)];

/// Lines that arm a call of a node to fail: both kinds of a failing send, and a receive, of each of four nodes.
const ARMS: &[&str] = &[
    "arm 1 send-lost\n",
    "arm 1 send-gone\n",
    "arm 1 receive\n",
    "arm 2 send-lost\n",
    "arm 2 send-gone\n",
    "arm 2 receive\n",
    "arm 3 send-lost\n",
    "arm 3 send-gone\n",
    "arm 3 receive\n",
    "arm 4 send-lost\n",
    "arm 4 send-gone\n",
    "arm 4 receive\n",
];

/// Each line of `ARMS` at five places: before the need, after it, and after one, two and three rounds. At least 60
/// rounds follow, and the route is found.
pub const ARMED: &[Files] = &[
    Files {
        front: "dests 4\nlink 1 2\nlink 2 3\nlink 3 4\n",
        middles: ARMS,
        times: 1,
        end: "need 1 4\nrounds 63\nheights 4\n",
        text: FOUND,
        ended: Ended::Whole,
    },
    Files {
        front: "dests 4\nlink 1 2\nlink 2 3\nlink 3 4\nneed 1 4\n",
        middles: ARMS,
        times: 1,
        end: "rounds 63\nheights 4\n",
        text: FOUND,
        ended: Ended::Whole,
    },
    Files {
        front: "dests 4\nlink 1 2\nlink 2 3\nlink 3 4\nneed 1 4\nrounds 1\n",
        middles: ARMS,
        times: 1,
        end: "rounds 62\nheights 4\n",
        text: FOUND,
        ended: Ended::Whole,
    },
    Files {
        front: "dests 4\nlink 1 2\nlink 2 3\nlink 3 4\nneed 1 4\nrounds 2\n",
        middles: ARMS,
        times: 1,
        end: "rounds 61\nheights 4\n",
        text: FOUND,
        ended: Ended::Whole,
    },
    Files {
        front: "dests 4\nlink 1 2\nlink 2 3\nlink 3 4\nneed 1 4\nrounds 3\n",
        middles: ARMS,
        times: 1,
        end: "rounds 60\nheights 4\n",
        text: FOUND,
        ended: Ended::Whole,
    },
];

pub const WALK: &[Row] = &[(
    &[FOUR],
    &["need 1 4\nrounds 3\nheights 4\nexact 4\nwalk 1 4\nrestart 2 -\nexact 4\nwalk 1 4\n"],
    "node 1 (0,0,0,3,1) hop 2\nnode 2 (0,0,0,2,2) hop 3\nnode 3 (0,0,0,1,3) hop 4\n\
    node 4 (0,0,0,0,4) hop -\nexact 1\nwalk 1,2,3,4\nexact 0\nwalk -\n",
    Ended::Whole,
)];

pub const COUNTED: &[Row] = &[
    (
        &["dests 2\nlink 1 2\nneed 1 2\nrounds 3\n"],
        &["sent 1 2 1 1\ntaken 2 1 1 1\nsent 1 2 1 2\ntaken 1 2 2 1\n"],
        "count 1\ncount 1\ncount 0\ncount 0\n",
        Ended::Whole,
    ),
    (
        &[FOUR],
        &["need 1 4\nrounds 3\nsent 1 2 1 1\ntaken 2 1 1 1\nsent 2 1 1 1\ntaken 1 2 1 1\n"],
        "count 2\ncount 2\ncount 2\ncount 2\n",
        Ended::Whole,
    ),
];

/// A node with 32 neighbours.
pub const STAR: &str =
    "link 1 2\nlink 1 3\nlink 1 4\nlink 1 5\nlink 1 6\nlink 1 7\nlink 1 8\nlink 1 9\n\
    link 1 10\nlink 1 11\nlink 1 12\nlink 1 13\nlink 1 14\nlink 1 15\nlink 1 16\nlink 1 17\n\
    link 1 18\nlink 1 19\nlink 1 20\nlink 1 21\nlink 1 22\nlink 1 23\nlink 1 24\nlink 1 25\n\
    link 1 26\nlink 1 27\nlink 1 28\nlink 1 29\nlink 1 30\nlink 1 31\nlink 1 32\nlink 1 33\n";

/// A node with 255 neighbours.
pub const STAR_OF_255: &str =
    "link 1 2\nlink 1 3\nlink 1 4\nlink 1 5\nlink 1 6\nlink 1 7\nlink 1 8\nlink 1 9\nlink 1 10\nlink 1 11\nlink 1 12\nlink 1 13\nlink 1 14\n\
    link 1 15\nlink 1 16\nlink 1 17\nlink 1 18\nlink 1 19\nlink 1 20\nlink 1 21\nlink 1 22\nlink 1 23\nlink 1 24\nlink 1 25\nlink 1 26\n\
    link 1 27\nlink 1 28\nlink 1 29\nlink 1 30\nlink 1 31\nlink 1 32\nlink 1 33\nlink 1 34\nlink 1 35\nlink 1 36\nlink 1 37\nlink 1 38\n\
    link 1 39\nlink 1 40\nlink 1 41\nlink 1 42\nlink 1 43\nlink 1 44\nlink 1 45\nlink 1 46\nlink 1 47\nlink 1 48\nlink 1 49\nlink 1 50\n\
    link 1 51\nlink 1 52\nlink 1 53\nlink 1 54\nlink 1 55\nlink 1 56\nlink 1 57\nlink 1 58\nlink 1 59\nlink 1 60\nlink 1 61\nlink 1 62\n\
    link 1 63\nlink 1 64\nlink 1 65\nlink 1 66\nlink 1 67\nlink 1 68\nlink 1 69\nlink 1 70\nlink 1 71\nlink 1 72\nlink 1 73\nlink 1 74\n\
    link 1 75\nlink 1 76\nlink 1 77\nlink 1 78\nlink 1 79\nlink 1 80\nlink 1 81\nlink 1 82\nlink 1 83\nlink 1 84\nlink 1 85\nlink 1 86\n\
    link 1 87\nlink 1 88\nlink 1 89\nlink 1 90\nlink 1 91\nlink 1 92\nlink 1 93\nlink 1 94\nlink 1 95\nlink 1 96\nlink 1 97\nlink 1 98\n\
    link 1 99\nlink 1 100\nlink 1 101\nlink 1 102\nlink 1 103\nlink 1 104\nlink 1 105\nlink 1 106\nlink 1 107\nlink 1 108\nlink 1 109\n\
    link 1 110\nlink 1 111\nlink 1 112\nlink 1 113\nlink 1 114\nlink 1 115\nlink 1 116\nlink 1 117\nlink 1 118\nlink 1 119\nlink 1 120\n\
    link 1 121\nlink 1 122\nlink 1 123\nlink 1 124\nlink 1 125\nlink 1 126\nlink 1 127\nlink 1 128\nlink 1 129\nlink 1 130\nlink 1 131\n\
    link 1 132\nlink 1 133\nlink 1 134\nlink 1 135\nlink 1 136\nlink 1 137\nlink 1 138\nlink 1 139\nlink 1 140\nlink 1 141\nlink 1 142\n\
    link 1 143\nlink 1 144\nlink 1 145\nlink 1 146\nlink 1 147\nlink 1 148\nlink 1 149\nlink 1 150\nlink 1 151\nlink 1 152\nlink 1 153\n\
    link 1 154\nlink 1 155\nlink 1 156\nlink 1 157\nlink 1 158\nlink 1 159\nlink 1 160\nlink 1 161\nlink 1 162\nlink 1 163\nlink 1 164\n\
    link 1 165\nlink 1 166\nlink 1 167\nlink 1 168\nlink 1 169\nlink 1 170\nlink 1 171\nlink 1 172\nlink 1 173\nlink 1 174\nlink 1 175\n\
    link 1 176\nlink 1 177\nlink 1 178\nlink 1 179\nlink 1 180\nlink 1 181\nlink 1 182\nlink 1 183\nlink 1 184\nlink 1 185\nlink 1 186\n\
    link 1 187\nlink 1 188\nlink 1 189\nlink 1 190\nlink 1 191\nlink 1 192\nlink 1 193\nlink 1 194\nlink 1 195\nlink 1 196\nlink 1 197\n\
    link 1 198\nlink 1 199\nlink 1 200\nlink 1 201\nlink 1 202\nlink 1 203\nlink 1 204\nlink 1 205\nlink 1 206\nlink 1 207\nlink 1 208\n\
    link 1 209\nlink 1 210\nlink 1 211\nlink 1 212\nlink 1 213\nlink 1 214\nlink 1 215\nlink 1 216\nlink 1 217\nlink 1 218\nlink 1 219\n\
    link 1 220\nlink 1 221\nlink 1 222\nlink 1 223\nlink 1 224\nlink 1 225\nlink 1 226\nlink 1 227\nlink 1 228\nlink 1 229\nlink 1 230\n\
    link 1 231\nlink 1 232\nlink 1 233\nlink 1 234\nlink 1 235\nlink 1 236\nlink 1 237\nlink 1 238\nlink 1 239\nlink 1 240\nlink 1 241\n\
    link 1 242\nlink 1 243\nlink 1 244\nlink 1 245\nlink 1 246\nlink 1 247\nlink 1 248\nlink 1 249\nlink 1 250\nlink 1 251\nlink 1 252\n\
    link 1 253\nlink 1 254\nlink 1 255\nlink 1 256\n";

pub const STAR_FOUND: &str = "node 1 (0,0,0,1,1) hop 2\nnode 2 (0,0,0,0,2) hop -\n\
    node 3 - hop 1\nnode 4 - hop 1\nnode 5 - hop 1\nnode 6 - hop 1\nnode 7 - hop 1\n\
    node 8 - hop 1\nnode 9 - hop 1\nnode 10 - hop 1\nnode 11 - hop 1\nnode 12 - hop 1\n\
    node 13 - hop 1\nnode 14 - hop 1\nnode 15 - hop 1\nnode 16 - hop 1\nnode 17 - hop 1\n\
    node 18 - hop 1\nnode 19 - hop 1\nnode 20 - hop 1\nnode 21 - hop 1\nnode 22 - hop 1\n\
    node 23 - hop 1\nnode 24 - hop 1\nnode 25 - hop 1\nnode 26 - hop 1\nnode 27 - hop 1\n\
    node 28 - hop 1\nnode 29 - hop 1\nnode 30 - hop 1\nnode 31 - hop 1\nnode 32 - hop 1\n\
    node 33 (0,0,0,2,33) hop 1\n";

/// A leaf of a star with 32 leaves, the most, asks for a route to another leaf; the second star has 33 and is refused
/// at the line after the links.
pub const STARS: &[Files] = &[
    Files {
        front: "dests 2\n",
        middles: &[STAR],
        times: 1,
        end: "rounds 1\nneed 33 2\nrounds 3\nheights 2\n",
        text: STAR_FOUND,
        ended: Ended::Whole,
    },
    Files {
        front: "dests 2\n",
        middles: &[STAR],
        times: 1,
        end: "link 1 34\nrounds 1\nneed 33 2\nrounds 3\nheights 2\n",
        text: "fault 35\n",
        ended: Ended::Fault(35),
    },
];

pub const PRINTED_BEFORE_A_FAULT: &[Row] = &[(
    &[FOUR],
    &["need 1 4\nrounds 3\nheights 4\nturn 9\nheights 3\ntick\n"],
    "node 1 (0,0,0,3,1) hop 2\nnode 2 (0,0,0,2,2) hop 3\nnode 3 (0,0,0,1,3) hop 4\n\
    node 4 (0,0,0,0,4) hop -\nrefused 2\nfault 9\n",
    Ended::Fault(9),
)];

pub const TOLD: &[Row] = &[
    (&[FOUR_FOUND_AND_LOST], &[""], FOUND_AND_LOST, Ended::Whole),
    (
        &["dests 4\nlink 1 2\nturn 1\nheights 5\n"],
        &[""],
        "refused 4\nfault 4\n",
        Ended::Fault(4),
    ),
    (&[""], &[""], "fault 1\n", Ended::Fault(1)),
    (
        &["dests 4\nlink 1 1\n"],
        &[""],
        "fault 2\n",
        Ended::Fault(2),
    ),
];

/// A world is at rest before its links are up, and after a route is found. It is not while a need waits, nor if a link
/// is up at only one of its ends.
pub const RESTS: &[Row] = &[(
    &[FOUR],
    &["rest\nneed 1 4\nrest\nrounds 3\nrest\nrestart 2 -\nrest\nrounds 60\nrest\n"],
    "rest yes\nrest no\nrest yes\nrest no\nrest yes\n",
    Ended::Whole,
)];

/// Lines that are faults: `rest` with a further word, or misspelled.
pub const NO_RESTS: &[Row] = &[(
    &[FOUR],
    &["rest 4\n", "rest yes\n", "rests\n", "Rest\n"],
    "fault 5\n",
    Ended::Fault(5),
)];
