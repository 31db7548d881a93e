//! Drives: the answers to their lines, line by line.
use super::runs::{Files, NOTHING, Row, Way, expect_files, expect_rows};
use super::simulation_rows::LINKS_OF_A_LINE;
use tora_lines::Ended;

/// A link, and its first step, in which each end sends a HELLO of each version.
const STEPPED: &str = "dests 2\nlink 1 2\nneed 1 2\nstep\n";

/// The output of `STEPPED`.
const STEPPED_TEXT: &str =
    "ok\nok\nok\nsent 1 2 1 28\nsent 1 2 2 28\nsent 2 1 3 28\nsent 2 1 4 28\nok\n";

/// Lines at each stage of a drive, and the answers.
const ANSWERS: &[Row] = &[
    (NOTHING, NOTHING, "", Ended::Whole),
    // The input may end anywhere without a fault, and a last line without LF is a line.
    (&["dests 2"], &["", "\n"], "ok\n", Ended::Whole),
    (
        &["dests 2\nlink 1 2\nneed 1 2"],
        &["", "\n"],
        "ok\nok\nok\n",
        Ended::Whole,
    ),
    // A fault changes nothing, and the drive continues.
    (
        &["dest 2\n\ndests 2\nlink 1\nlink 1 2\nold 3\nold 2\nlink 2 3\nheights 3\nheights 2\n"],
        NOTHING,
        "fault 1 the first line is `dests LIST`, the destinations\n\
         fault 2 the first line is `dests LIST`, the destinations\n\
         ok\nfault 4 after the first line a line `link A B` is required\nok\n\
         fault 6 it is no line that may stand here\nok\nfault 8 it is no line that may stand here\n\
         fault 9 it names a node, a link or a destination that does not exist\n\
         node 1 - hop -\nnode 2 (0,0,0,0,2) hop -\nok\n",
        Ended::Whole,
    ),
    (
        &["dests 2,2\nlink 1 2\n"],
        &["step\n", "old 1\n", "needs\n"],
        "ok\nok\nfault 3 the links and destinations are refused\n",
        Ended::Whole,
    ),
];

/// Lines that only a drive has, after the first step.
const OWN_LINES: &[Row] = &[
    (&[STEPPED], NOTHING, STEPPED_TEXT, Ended::Whole),
    // The input ends after a line, before its LF, and within a word.
    (
        &[STEPPED],
        &["needs\n", "needs"],
        "ok\nok\nok\nsent 1 2 1 28\nsent 1 2 2 28\nsent 2 1 3 28\nsent 2 1 4 28\nok\nneed 1 2\nok\n",
        Ended::Whole,
    ),
    (
        &[STEPPED],
        &[
            "ste", "need", "byte", "bytes", "take 1 2", "notice 1", "forget",
        ],
        "ok\nok\nok\nsent 1 2 1 28\nsent 1 2 2 28\nsent 2 1 3 28\nsent 2 1 4 28\nok\n\
         fault 5 it is no line that may stand here\n",
        Ended::Whole,
    ),
    // Datagrams that do not exist, and datagrams that are forgotten.
    (
        &[STEPPED],
        &[
            "deliver 5\ndeliver 0\nforget 5\nforget 2\ndeliver 2\nbytes 1\nforget 1\nbytes 2\ndeliver 3\n",
        ],
        "ok\nok\nok\nsent 1 2 1 28\nsent 1 2 2 28\nsent 2 1 3 28\nsent 2 1 4 28\nok\n\
         refused 3\nrefused 3\nrefused 3\nok\nrefused 3\nrefused 3\nok\nrefused 3\nok\n",
        Ended::Whole,
    ),
    // The numbers of datagrams continue after those that are forgotten.
    (
        &[STEPPED],
        &[
            "deliver 1\ndeliver 2\ndeliver 3\ndeliver 4\nforget 3\nbytes 4\nforget 4\nstep\nbytes 4\nforget 7\n\
           deliver 5\ndeliver 6\nforget 6\nstep\ndeliver 0\ndeliver 6\ndeliver 7\n",
        ],
        "ok\nok\nok\nsent 1 2 1 28\nsent 1 2 2 28\nsent 2 1 3 28\nsent 2 1 4 28\nok\n\
         ok\nok\nok\nok\nok\nbytes 4 01010000000000020000000100000000000000010000000000000000\nok\nok\n\
         sent 1 2 5 28\nsent 2 1 6 28\nok\nrefused 3\nrefused 3\n\
         ok\nok\nok\nsent 1 2 7 80\nhop 1 2 2\nok\nrefused 3\nrefused 3\nok\n",
        Ended::Whole,
    ),
    // The bytes of node 2's HELLO of version 1: node 1 takes them from node 2. For other nodes or bytes `take` is
    // refused.
    (
        &[STEPPED],
        &[
            "bytes 4\n\
           take 1 2 01010000000000020000000100000000000000010000000000000000\n\
           take 2 1 01010000000000020000000100000000000000010000000000000000\n\
           take 1 2 01010000000000020000000100000000000000010000000000000001\n\
           take 1 2 0\ntake 1 2\nforget 4\n\
           take 1 2 01010000000000020000000100000000000000010000000000000000\n",
        ],
        "ok\nok\nok\nsent 1 2 1 28\nsent 1 2 2 28\nsent 2 1 3 28\nsent 2 1 4 28\nok\n\
         bytes 4 01010000000000020000000100000000000000010000000000000000\nok\n\
         ok\nrefused 3\nrefused 3\n\
         fault 9 it is no line that may stand here\nfault 10 it is no line that may stand here\nok\n\
         refused 3\n",
        Ended::Whole,
    ),
    // An end that `far` makes silent sends nothing in a step. In the first step after `near`, it sends what was due.
    (
        &["dests 2\nlink 1 2\nfar 1 2\nfar 1 2\nfar 2 3\nnear 3 1\nstep\nnear 1 2\nstep\n"],
        NOTHING,
        "ok\nok\nok\nok\nfault 5 it names a node, a link or a destination that does not exist\n\
         fault 6 it names a node, a link or a destination that does not exist\n\
         sent 2 1 1 28\nsent 2 1 2 28\nok\nok\nsent 1 2 3 28\nsent 1 2 4 28\nok\n",
        Ended::Whole,
    ),
    // A notice cuts the session of an end, and the node loses its next hop in the following step. It is refused if the
    // end is not bound, and a fault if there is no such end.
    (
        &[
            "dests 2\nlink 1 2\nneed 1 2\nstep\nnotice 1 2\ndeliver 1\ndeliver 2\ndeliver 3\ndeliver 4\nstep\ndeliver 5\ndeliver 6\nstep\n",
        ],
        &["notice 1 2\nnotice 1 2\nnotice 2 2\nnotice 2 3\nnotice 1\nnotice 2 1\nstep\n"],
        "ok\nok\nok\nsent 1 2 1 28\nsent 1 2 2 28\nsent 2 1 3 28\nsent 2 1 4 28\nok\nrefused 4\nok\nok\nok\nok\n\
         sent 1 2 5 28\nsent 2 1 6 28\nok\nok\nok\nsent 1 2 7 80\nhop 1 2 2\nok\n\
         ok\nrefused 4\nfault 16 it names a node, a link or a destination that does not exist\n\
         fault 17 it names a node, a link or a destination that does not exist\n\
         fault 18 it is no line that may stand here\nok\n\
         sent 1 2 8 28\nsent 1 2 9 28\nsent 2 1 10 28\nsent 2 1 11 28\nhop 1 2 -\nok\n",
        Ended::Whole,
    ),
    // Events that are refused, each for its cause, and lines that have no valid form.
    (
        &[
            "dests 2\nlink 1 2\nturn 1\nturn 3\npump 1 2\nstep 1\nneeds \nnear 1\nfar 1 2 3\nbytes x\nforget -1\nTake 1 2 00\n",
        ],
        NOTHING,
        "ok\nok\nrefused 4\nrefused 2\nrefused 4\n\
         fault 6 it is no line that may stand here\nfault 7 it is no line that may stand here\n\
         fault 8 it is no line that may stand here\nfault 9 it is no line that may stand here\n\
         fault 10 it is no line that may stand here\nfault 11 it is no line that may stand here\n\
         fault 12 it is no line that may stand here\n",
        Ended::Whole,
    ),
];

/// A line that is too long is always a fault, and the drive goes on.
const LONG: &[Files] = &[
    Files {
        front: "dests 2\n",
        middles: &["x"],
        times: 4097,
        end: "\nlink 1 2\n",
        text: "ok\nfault 2 after the first line a line `link A B` is required\nok\n",
        ended: Ended::Whole,
    },
    Files {
        front: "",
        middles: &["dests 2,"],
        times: 131_072,
        end: "\ndests 2\n",
        text: "fault 1 the first line is `dests LIST`, the destinations\nok\n",
        ended: Ended::Whole,
    },
    // The long line does not change the world: `needs` answers as before it.
    Files {
        front: STEPPED,
        middles: &["xxxxxxxx", "notice 1"],
        times: 131_072,
        end: "\nneeds\n",
        text: "ok\nok\nok\nsent 1 2 1 28\nsent 1 2 2 28\nsent 2 1 3 28\nsent 2 1 4 28\nok\n\
               fault 5 it is no line that may stand here\nneed 1 2\nok\n",
        ended: Ended::Whole,
    },
    // A last line without LF is a line, too.
    Files {
        front: STEPPED,
        middles: &["x"],
        times: 4097,
        end: "",
        text: "ok\nok\nok\nsent 1 2 1 28\nsent 1 2 2 28\nsent 2 1 3 28\nsent 2 1 4 28\nok\n\
               fault 5 it is no line that may stand here\n",
        ended: Ended::Whole,
    },
    // A line of 4,096 bytes is taken whole, and one of 4,097 is too long.
    Files {
        front: "dests 2\nlink 1 2\nneed 1 2\nstep\ntake 1 32 ",
        middles: &["00"],
        times: 2043,
        end: "\nneeds\n",
        text: "ok\nok\nok\nsent 1 2 1 28\nsent 1 2 2 28\nsent 2 1 3 28\nsent 2 1 4 28\nok\n\
               refused 3\nneed 1 2\nok\n",
        ended: Ended::Whole,
    },
    Files {
        front: "dests 2\nlink 1 2\nneed 1 2\nstep\ntake 10 32 ",
        middles: &["00"],
        times: 2043,
        end: "\nneeds\n",
        text: "ok\nok\nok\nsent 1 2 1 28\nsent 1 2 2 28\nsent 2 1 3 28\nsent 2 1 4 28\nok\n\
               fault 5 it is no line that may stand here\nneed 1 2\nok\n",
        ended: Ended::Whole,
    },
];

/// A row of 65 nodes, which is refused within the standard limits.
const LONG_LINE: &[Files] = &[Files {
    front: "dests 4\n",
    middles: &[LINKS_OF_A_LINE],
    times: 1,
    end: "link 64 65\nwalk 65 4\nold 65\n",
    text: "ok\nok\nok\nok\nok\nok\nok\nok\nok\nok\nok\nok\nok\nok\nok\nok\nok\nok\nok\nok\nok\nok\nok\nok\n\
         ok\nok\nok\nok\nok\nok\nok\nok\nok\nok\nok\nok\nok\nok\nok\nok\nok\nok\nok\nok\nok\nok\nok\nok\n\
         ok\nok\nok\nok\nok\nok\nok\nok\nok\nok\nok\nok\nok\nok\nok\nok\nok\n\
         fault 66 the links and destinations are refused\n\
         fault 67 the links and destinations are refused\n",
    ended: Ended::Whole,
}];

/// A row of 65 nodes, which only the greatest limits allow.
const LARGE_WORLD: &[Files] = &[Files {
    front: "dests 4\n",
    middles: &[LINKS_OF_A_LINE],
    times: 1,
    end: "link 64 65\nold 65\nwalk 65 4\nwalk 66 4\n",
    text: "ok\nok\nok\nok\nok\nok\nok\nok\nok\nok\nok\nok\nok\nok\nok\nok\nok\nok\nok\nok\nok\nok\nok\nok\n\
         ok\nok\nok\nok\nok\nok\nok\nok\nok\nok\nok\nok\nok\nok\nok\nok\nok\nok\nok\nok\nok\nok\nok\nok\n\
         ok\nok\nok\nok\nok\nok\nok\nok\nok\nok\nok\nok\nok\nok\nok\nok\nok\nok\n\
         walk -\nok\nfault 68 it names a node, a link or a destination that does not exist\n",
    ended: Ended::Whole,
}];

#[test]
fn each_line_is_answered(rt: HostRuntime) {
    expect_rows(&rt, Way::Drive, ANSWERS);
}

#[test]
fn own_lines_are_answered(rt: HostRuntime) {
    expect_rows(&rt, Way::Drive, OWN_LINES);
}

/// A line of 4,096 bytes is taken; lines of 4,097 bytes and of a MiB are faults.
#[test]
fn long_lines_are_faults_of_a_drive(rt: HostRuntime) {
    expect_files(&rt, Way::Drive, LONG);
}

/// More than 64 nodes are accepted only in a large world.
#[test]
fn large_worlds_are_driven(rt: HostRuntime) {
    expect_files(&rt, Way::Drive, LONG_LINE);
    expect_files(&rt, Way::LargeDrive, LARGE_WORLD);
}
