//! Rows of the table of events on which no law depends, each tested by simulation files. Their output was worked out by
//! hand from the document on the simulated world.
use super::runs::{Files, Way, expect_files};
use tora_lines::Ended;

/// Lines that open both ends of the link of nodes 1 and 2, and bind it by the first two datagrams.
const BOUND: &str = "open 1 2\nopen 2 1\ntransmit 1 2\ndeliver 1\ntransmit 2 1\ndeliver 2\n";

const TORN: &[Files] = &[Files {
    front: "dests 9\nlink 1 2\narm 1 sync\nopen 1 2\ntransmit 1 2\n\
        restart 1 0000000000000384fffffffffffffc7b\n",
    middles: &[BOUND],
    times: 1,
    end: "pump 1 2\nturn 1\nneed 1 9\nturn 1\nsent 1 2 901 1\nsent 1 2 1 1\nsent 1 2 917 1\n",
    text: "refused 4\ncount 1\ncount 0\ncount 0\n",
    ended: Ended::Whole,
}];

/// A slot of a life file that was written and not synced has, after `restart`, the bytes that this line gives. It
/// counts if they form a slot: its bound is 900, so the next session number is 901.
#[test]
fn torn_slot_counts(rt: HostRuntime) {
    expect_files(&rt, Way::Simulation, TORN);
}

const ARMED: &[Files] = &[
    Files {
        front: "dests 2\nlink 1 2\narm 1 sync\n",
        middles: &["restart 1 -\nopen 1 2\ntransmit 1 2\n"],
        times: 2,
        end: "transmit 1 2\ntransmit 1 2\n",
        text: "refused 4\nrefused 4\n",
        ended: Ended::Whole,
    },
    Files {
        front: "dests 2\nlink 1 2\narm 1 read\n",
        middles: &["restart 1 -\nopen 1 2\ntransmit 1 2\n"],
        times: 2,
        end: "transmit 1 2\ntransmit 1 2\n",
        text: "refused 4\nrefused 4\n",
        ended: Ended::Whole,
    },
];

/// An armed read or sync stays armed over a restart, and fails when a link end is opened, which uses its life file. The
/// end then stays closed until the next restart, after which it opens.
#[test]
fn arms_outlive_a_restart(rt: HostRuntime) {
    expect_files(&rt, Way::Simulation, ARMED);
}

const FULL_LANE: &[Files] = &[Files {
    front: "dests 2\nlink 1 2\nlink 1 3\nopen 1 2\nopen 2 1\nopen 1 3\nopen 3 1\n\
        transmit 1 2\ndeliver 1\ntransmit 2 1\ndeliver 2\ntransmit 1 3\ndeliver 3\ntransmit 3 1\ndeliver 4\n",
    middles: &["need 1 2\n"],
    times: 1023,
    end: "pump 1 2\npump 1 3\nneed 1 2\nturn 1\nneed 1 2\nneed 1 2\npump 1 3\nturn 1\npump 1 3\npump 1 3\n",
    text: "refused 4\nrefused 4\nrefused 4\nrefused 4\nrefused 4\n",
    ended: Ended::Whole,
}];

/// The queue into a core has room for 1,024 items. After 1,023 needs there is room for one item, which a pump puts;
/// then a pump and a need are refused, and after a turn there is room for one item again.
#[test]
fn lane_into_a_core_fills(rt: HostRuntime) {
    expect_files(&rt, Way::Simulation, FULL_LANE);
}

const LOST_SEND: &[Files] = &[Files {
    front: "dests 9\nlink 1 2\nopen 1 2\nopen 2 1\ntransmit 1 2\ntransmit 1 2\ntransmit 1 2\ndeliver 1\n\
        transmit 2 1\ndeliver 3\ntransmit 1 2\ndeliver 4\npump 1 2\nturn 1\nneed 1 9\nturn 1\npull 1 2\n\
        arm 1 send-lost\ntransmit 1 2\ndeliver 5\ntransmit 1 2\n",
    middles: &[
        "tick\ntick\ntick\ntick\ntick\ntransmit 1 2\ntransmit 1 2\n\
        tick\ntick\ntick\ntick\ntick\ntransmit 1 2\ntransmit 1 2\ntransmit 1 2\n",
    ],
    times: 3,
    end: "tick\ntick\ntick\ntick\ntick\ntransmit 1 2\ntransmit 1 2\n\
        tick\ntick\ntick\ntick\npump 1 2\ntick\npump 1 2\npump 1 2\n",
    text: "refused 4\nrefused 3\nrefused 4\n\
        refused 4\nrefused 4\nrefused 4\nrefused 4\nrefused 4\nrefused 4\nrefused 4\n\
        refused 4\nrefused 4\n",
    ended: Ended::Whole,
}];

/// A lost send counts as a try of its packet. Seven more tries follow, one every five ticks, and the session ends at
/// tick 40, not before. At ticks 10, 20 and 30 a HELLO is due, too.
#[test]
fn lost_send_is_a_try(rt: HostRuntime) {
    expect_files(&rt, Way::Simulation, LOST_SEND);
}

/// Node 2 restarts, so its link has the session {1, 17}. Node 1 needs 51 destinations, which puts 51 queries into the
/// queue to node 2; nothing is pulled from it. Each of four sessions with node 3 that come up puts 51 more, so 255
/// wait. Of the 51 queries of a fifth one, one is put, which fills the queue, and the session with node 2 is cut.
const FILLED: &str = "dests 10,11,12,13,14,15,16,17,18,19,20,21,22,23,24,25,26,\
    27,28,29,30,31,32,33,34,35,36,37,38,39,40,41,42,43,\
    44,45,46,47,48,49,50,51,52,53,54,55,56,57,58,59,60\n\
    link 1 2\nlink 1 3\nopen 2 1\nrestart 2 -\n\
    open 1 2\nopen 2 1\ntransmit 1 2\ndeliver 1\ntransmit 2 1\ndeliver 2\npump 1 2\nturn 1\n\
    need 1 10\nturn 1\nneed 1 11\nturn 1\nneed 1 12\nturn 1\nneed 1 13\nturn 1\nneed 1 14\nturn 1\nneed 1 15\nturn 1\n\
    need 1 16\nturn 1\nneed 1 17\nturn 1\nneed 1 18\nturn 1\nneed 1 19\nturn 1\nneed 1 20\nturn 1\nneed 1 21\nturn 1\n\
    need 1 22\nturn 1\nneed 1 23\nturn 1\nneed 1 24\nturn 1\nneed 1 25\nturn 1\nneed 1 26\nturn 1\nneed 1 27\nturn 1\n\
    need 1 28\nturn 1\nneed 1 29\nturn 1\nneed 1 30\nturn 1\nneed 1 31\nturn 1\nneed 1 32\nturn 1\nneed 1 33\nturn 1\n\
    need 1 34\nturn 1\nneed 1 35\nturn 1\nneed 1 36\nturn 1\nneed 1 37\nturn 1\nneed 1 38\nturn 1\nneed 1 39\nturn 1\n\
    need 1 40\nturn 1\nneed 1 41\nturn 1\nneed 1 42\nturn 1\nneed 1 43\nturn 1\nneed 1 44\nturn 1\nneed 1 45\nturn 1\n\
    need 1 46\nturn 1\nneed 1 47\nturn 1\nneed 1 48\nturn 1\nneed 1 49\nturn 1\nneed 1 50\nturn 1\nneed 1 51\nturn 1\n\
    need 1 52\nturn 1\nneed 1 53\nturn 1\nneed 1 54\nturn 1\nneed 1 55\nturn 1\nneed 1 56\nturn 1\nneed 1 57\nturn 1\n\
    need 1 58\nturn 1\nneed 1 59\nturn 1\nneed 1 60\nturn 1\n\
    sent 1 2 1 17\n\
    open 3 1\nopen 1 3\ntransmit 1 3\ndeliver 3\ntransmit 3 1\ndeliver 4\npump 1 3\nturn 1\nsent 1 2 1 17\n\
    restart 3 -\nopen 3 1\ntransmit 3 1\ndeliver 5\nopen 1 3\npump 1 3\nturn 1\n\
    transmit 1 3\ndeliver 6\ntransmit 3 1\ndeliver 7\npump 1 3\nturn 1\nsent 1 2 1 17\n\
    restart 3 -\nopen 3 1\ntransmit 3 1\ndeliver 8\nopen 1 3\npump 1 3\nturn 1\n\
    transmit 1 3\ndeliver 9\ntransmit 3 1\ndeliver 10\npump 1 3\nturn 1\nsent 1 2 1 17\n\
    restart 3 -\nopen 3 1\ntransmit 3 1\ndeliver 11\nopen 1 3\npump 1 3\nturn 1\n\
    transmit 1 3\ndeliver 12\ntransmit 3 1\ndeliver 13\npump 1 3\nturn 1\nsent 1 2 1 17\n\
    restart 3 -\nopen 3 1\ntransmit 3 1\ndeliver 14\nopen 1 3\npump 1 3\nturn 1\n\
    transmit 1 3\ndeliver 15\ntransmit 3 1\ndeliver 16\npump 1 3\nturn 1\nsent 1 2 1 17\nsent 1 3 5 65\n";

/// The output of `FILLED`.
const FILLED_COUNTS: &str =
    "count 51\ncount 102\ncount 153\ncount 204\ncount 255\ncount 256\ncount 51\n";

const LAST_PLACE: &[Files] = &[Files {
    front: FILLED,
    middles: &[""],
    times: 0,
    end: "",
    text: FILLED_COUNTS,
    ended: Ended::Whole,
}];

/// The messages that one turn puts into a queue count at once: of its 51 queries, one takes the last of the 256 places,
/// and no other is put.
#[test]
fn last_place_of_a_lane_is_taken_once(rt: HostRuntime) {
    expect_files(&rt, Way::Simulation, LAST_PLACE);
}

const CUT: &[Files] = &[Files {
    front: FILLED,
    middles: &["pull 1 2\n"],
    times: 256,
    end: "pull 1 2\npump 1 2\nneed 1 10\nturn 1\npull 1 2\npull 1 2\npump 1 2\npump 1 2\ntransmit 1 2\n",
    text: "count 51\ncount 102\ncount 153\ncount 204\ncount 255\ncount 256\ncount 51\n\
        refused 4\nrefused 4\nrefused 4\nrefused 4\nrefused 4\n",
    ended: Ended::Whole,
}];

/// The message that cuts the session {1, 17} is put by the next turn, here once the queries were pulled. When it is
/// pulled, it ends the session: the link end has one event, and no frame is due.
#[test]
fn cut_ends_a_life_of_unequal_numbers(rt: HostRuntime) {
    expect_files(&rt, Way::Simulation, CUT);
}

const LATE_ITEM: &[Files] = &[Files {
    front: "dests 2\nlink 1 2\nlink 1 3\nneed 3 2\nrounds 10\nheights 2\n",
    middles: &["tick\n"],
    times: 52,
    end: "pump 1 2\ntick\ntick\nturn 1\nheights 2\n",
    text: "node 1 (0,0,0,1,1) hop 2\nnode 2 (0,0,0,0,2) hop -\nnode 3 (0,0,0,2,3) hop 1\n\
        node 1 (62,1,0,0,1) hop 3\nnode 2 (0,0,0,0,2) hop -\nnode 3 (0,0,0,2,3) hop 1\n",
    ended: Ended::Whole,
}];

/// An item has the tick of its pump: the session ended at tick 60 at the latest, the item `Down` was pumped at tick 62
/// and taken by the core at tick 64, and the new level has tick 62. Node 3, which is lower now, is the next hop.
#[test]
fn item_has_the_tick_of_its_pump(rt: HostRuntime) {
    expect_files(&rt, Way::Simulation, LATE_ITEM);
}

const TICKS: &[Files] = &[Files {
    front: "dests 2\nlink 1 2\nopen 1 2\nopen 2 1\n\
        transmit 1 2\ntransmit 1 2\ntransmit 1 2\ntransmit 2 1\ntransmit 2 1\ntransmit 2 1\n\
        tick\ntick\ntick\ntick\ntick\ntick\ntick\ntick\ntick\ntransmit 1 2\ntransmit 2 1\ntick\n",
    middles: &[
        "transmit 1 2\ntransmit 1 2\ntransmit 1 2\ntransmit 2 1\ntransmit 2 1\ntransmit 2 1\n",
    ],
    times: 1,
    end: "",
    text: "refused 4\nrefused 4\nrefused 4\nrefused 4\nrefused 4\nrefused 4\n",
    ended: Ended::Whole,
}];

/// A tick reaches every end, and each end has the new clock: ten ticks after its last HELLO, each of two ends sends a
/// HELLO of each version.
#[test]
fn every_end_ticks(rt: HostRuntime) {
    expect_files(&rt, Way::Simulation, TICKS);
}
