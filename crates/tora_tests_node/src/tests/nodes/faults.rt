//! The fault of a node whose output, wires or both fail, its tallies, and the tags of its life files.
//! Each node is node 1 between nodes 2 and 3, with the destination 4. Its commands end once each of its wires is idle
//! or broken: all datagrams have arrived, or a hundred calls failed. The wire to 3 comes first.
use super::super::sees::same_text;
use super::*;
use devices::{Output, Paper, Settled, Settling, Shown, Tag};
use hex::decode_to_slice;
use tora_life::Disk;
use tora_neighbour::{FuseMode, FuseWire};

mod devices;
mod tallies;

/// A node between two neighbours.
struct Run {
    /// How many calls of the wires to 2 and to 3 succeed before all fail.
    fuses: (u64, u64),
    /// The behaviour of its output.
    output: Output,
    /// Its commands, once all wires are idle or broken.
    commands: &'static [u8],
    /// The fault with which it ends.
    fault: Option<NodeError>,
    /// Its output.
    printed: &'static [u8],
}

/// The fuse of a wire that does not break.
const WHOLE: u64 = u64::MAX;

/// The fuse of a wire that breaks after a HELLO of each version was sent, and before the first receive.
const BROKEN: u64 = 2;

/// How often a datagram arrives, and its hexadecimal digits.
type Coming = (u8, &'static str);

/// The datagram with these digits, of at most 64 bytes.
fn datagram_of(rt: &impl Abort, alloc: Global, digits: &str) -> Vec<u8> {
    let mut bytes = [0u8; 64];
    let size = (digits.len() / 2).min(64);
    let is_spelt = decode_to_slice(digits, &mut bytes[..size]).is_ok();
    sees(rt, is_spelt, digits);
    let mut datagram = Vec::new(alloc);
    let is_whole = datagram.extend_from_slice(&bytes[..size]).is_ok();
    sees(rt, is_whole, "memory for a datagram");
    datagram
}

/// The datagrams of these rows, in order.
fn datagrams_of(rt: &impl Abort, alloc: Global, rows: &[Coming]) -> Vec<Vec<u8>> {
    let mut datagrams = Vec::new(alloc);
    for (times, digits) in rows {
        for _ in 0..*times {
            let datagram = datagram_of(rt, alloc, digits);
            let is_whole = datagrams.push(datagram).is_ok();
            sees(rt, is_whole, "memory for datagrams");
        }
    }
    datagrams
}

/// A wire that waits until other wires are idle or broken, and of which a number of calls succeed.
type FusedWire<'a, R> = Settling<'a, R, FuseWire<MemWire<32>>>;

/// A wire on which these datagrams arrive, and of which this many calls succeed.
fn wire_of<'a, R: Abort>(
    rt: &'a R,
    alloc: Global,
    fuse: u64,
    after: u64,
    rows: &[Coming],
    settled: &'a AtomicU64,
) -> FusedWire<'a, R> {
    let wire = MemWire::<32>::new(datagrams_of(rt, alloc, rows));
    Settling {
        rt,
        wire: FuseWire::new(wire, fuse, FuseMode::Always),
        after,
        settled,
        failed: 0,
        is_settled: false,
    }
}

/// A list with two items.
fn list_of_two<T: Drop>(rt: &impl Abort, alloc: Global, first: T, second: T) -> Vec<T> {
    let mut list = list_of(rt, alloc, first);
    sees(rt, list.push(second).is_ok(), "memory for a list of two");
    list
}

/// Commands that arrive once both wires are idle or broken.
fn settled_commands<'a, R>(
    rt: &'a R,
    settled: &'a AtomicU64,
    commands: &'static [u8],
) -> Settled<'a, R> {
    Settled {
        rt,
        settled,
        count: 2,
        commands,
    }
}

/// Runs node 1 over these wires and disks, until these commands end it.
fn run_settled<
    'a,
    R: Threads + Wait + Sync + time::Clock + log::Log + Abort,
    D: Disk + Send + Drop,
>(
    rt: &'a R,
    alloc: Global,
    wires: Vec<FusedWire<'a, R>>,
    disks: Vec<D>,
    commands: &mut Settled<'a, R>,
    paper: &mut Paper,
) -> Result<Ended, NodeError> {
    let node = NewNode {
        config: config_of(rt, alloc, 1, &[3, 2]),
        wires,
        disks,
    };
    run_over(rt, alloc, node, commands, paper)
}

/// An output with an empty page.
fn paper_of(output: Output) -> Paper {
    let page = Page {
        bytes: [0; 640],
        length: 0,
    };
    Paper { page, output }
}

/// Two empty disks.
fn new_disks(rt: &impl Abort, alloc: Global) -> Vec<ByteDisk> {
    list_of_two(rt, alloc, ByteDisk::of_zeros(0), ByteDisk::of_zeros(0))
}

/// The fault of a run.
fn fault_of<'a, R: Threads + Wait + Sync + time::Clock + log::Log + Abort>(
    rt: &'a R,
    alloc: Global,
    run: &Run,
    settled: &'a AtomicU64,
    paper: &mut Paper,
) -> Option<NodeError> {
    let second = wire_of(rt, alloc, run.fuses.0, 1, &[], settled);
    let third = wire_of(rt, alloc, run.fuses.1, 0, &[], settled);
    let wires = list_of_two(rt, alloc, second, third);
    let disks = new_disks(rt, alloc);
    let mut commands = settled_commands(rt, settled, run.commands);
    run_settled(rt, alloc, wires, disks, &mut commands, paper).err()
}

/// Makes a run, and checks its fault and its output.
fn ends_so<R: Threads + Wait + Sync + time::Clock + log::Log + Abort>(
    rt: &R,
    alloc: Global,
    run: &Run,
) {
    let settled = AtomicU64::new(0);
    let mut paper = paper_of(run.output);
    let fault = fault_of(rt, alloc, run, &settled, &mut paper);
    same_at(rt, &fault, &run.fault, "the fault", &run.commands);
    let printed = &paper.page.bytes[..paper.page.length];
    same_at(rt, &printed, &run.printed, "what is printed", &run.commands);
}

/// Makes each run of a table.
fn each_ends_so<R: Threads + Wait + Sync + time::Clock + log::Log + Abort>(
    rt: &R,
    alloc: Global,
    runs: &[Run],
) {
    for run in runs {
        ends_so(rt, alloc, run);
    }
}

/// Outputs that fail at the first output.
const OUTPUTS: &[Run] = &[
    Run {
        fuses: (WHOLE, WHOLE),
        output: Output::NoWrite,
        commands: b"show\n",
        fault: Some(NodeError::Output),
        printed: b"",
    },
    Run {
        fuses: (WHOLE, WHOLE),
        output: Output::Full,
        commands: b"need 9\nquit\n",
        fault: Some(NodeError::Output),
        printed: b"",
    },
    Run {
        fuses: (WHOLE, WHOLE),
        output: Output::NoFlush,
        commands: b"need 9\nshow\n",
        fault: Some(NodeError::Output),
        printed: b"refused 5\n",
    },
    // A need that is not refused prints nothing, and nothing is printed after `quit`.
    Run {
        fuses: (WHOLE, WHOLE),
        output: Output::NoWrite,
        commands: b"need 4\nquit\nshow\n",
        fault: None,
        printed: b"",
    },
];

#[test]
fn an_output_that_fails_ends_a_node(rt: HostRuntime) {
    each_ends_so(&rt, rt.alloc(), OUTPUTS);
}

/// Wires that break. The node goes on until its commands end, and then returns the fault of the lowest neighbour that
/// has one.
const WIRES: &[Run] = &[
    Run {
        fuses: (BROKEN, WHOLE),
        output: Output::Whole,
        commands: b"show\nneed 9\nquit\n",
        fault: Some(NodeError::Wire(2)),
        printed: b"to 4 height - flag 0 hop -\nrefused 5\n",
    },
    Run {
        fuses: (WHOLE, BROKEN),
        output: Output::Whole,
        commands: b"need 9\nshow\n",
        fault: Some(NodeError::Wire(3)),
        printed: b"refused 5\nto 4 height - flag 0 hop -\n",
    },
    // The wire to 3 broke before that to 2.
    Run {
        fuses: (BROKEN, BROKEN),
        output: Output::Whole,
        commands: b"show\n",
        fault: Some(NodeError::Wire(2)),
        printed: b"to 4 height - flag 0 hop -\n",
    },
];

#[test]
fn a_broken_wire_is_answered_once_a_node_is_told_to_end(rt: HostRuntime) {
    each_ends_so(&rt, rt.alloc(), WIRES);
}

/// An output that fails after the wires broke: the node returns the fault of the core.
const BOTH: &[Run] = &[
    Run {
        fuses: (BROKEN, WHOLE),
        output: Output::NoWrite,
        commands: b"show\n",
        fault: Some(NodeError::Output),
        printed: b"",
    },
    Run {
        fuses: (BROKEN, BROKEN),
        output: Output::Full,
        commands: b"need 9\n",
        fault: Some(NodeError::Output),
        printed: b"",
    },
];

#[test]
fn the_fault_of_the_core_is_answered_before_those_of_links(rt: HostRuntime) {
    each_ends_so(&rt, rt.alloc(), BOTH);
}

/// Runs the node over two empty disks, whose tags are read.
fn run_shown<'a, R: Threads + Wait + Sync + time::Clock + log::Log + Abort>(
    rt: &'a R,
    alloc: Global,
    second: &'a Tag,
    third: &'a Tag,
    settled: &'a AtomicU64,
) -> Option<NodeError> {
    let wires = list_of_two(
        rt,
        alloc,
        wire_of(rt, alloc, WHOLE, 1, &[], settled),
        wire_of(rt, alloc, WHOLE, 0, &[], settled),
    );
    let disk = Shown {
        disk: ByteDisk::of_zeros(0),
        tag: second,
    };
    let other = Shown {
        disk: ByteDisk::of_zeros(0),
        tag: third,
    };
    let disks = list_of_two(rt, alloc, disk, other);
    let mut paper = paper_of(Output::Whole);
    let mut commands = settled_commands(rt, settled, b"quit\n");
    run_settled(rt, alloc, wires, disks, &mut commands, &mut paper).err()
}

/// The tags of node 1 and its peers 2 and 3: the text `TORALIF2`, the node and the peer, and the complement of these
/// bytes.
const TAGS: [[u64; 4]; 2] = [
    [
        0x544f_5241_4c49_4632,
        0x0000_0001_0000_0002,
        0xabb0_adbe_b3b6_b9cd,
        0xffff_fffe_ffff_fffd,
    ],
    [
        0x544f_5241_4c49_4632,
        0x0000_0001_0000_0003,
        0xabb0_adbe_b3b6_b9cd,
        0xffff_fffe_ffff_fffc,
    ],
];

#[test]
fn a_node_tags_its_life_files(rt: HostRuntime) {
    let settled = AtomicU64::new(0);
    let (second, third) = (Tag::new(), Tag::new());
    let fault = run_shown(&rt, rt.alloc(), &second, &third, &settled);
    same(&rt, &fault, &None, "the fault");
    same(&rt, &second.get(), &TAGS[0], "the tag for 2");
    same(&rt, &third.get(), &TAGS[1], "the tag for 3");
}

const ERRORS: &[(NodeError, &str)] = &[
    (NodeError::Memory, "out of memory"),
    (NodeError::Lane, "there are no lanes for so many links"),
    (
        NodeError::Life(2, LifeError::Spent),
        "the life file of the link to 2: no number is left",
    ),
    (
        NodeError::Wire(2),
        "a hundred calls in a row of the wire to 2 failed",
    ),
    (NodeError::Output, "the output failed"),
];

/// Checks the text of each error.
fn each_says(rt: &impl Abort, alloc: Global, rows: &[(NodeError, &str)]) {
    for (error, text) in rows {
        let printed = there(rt, format!(in alloc; "{error}").ok(), "memory");
        same_text(rt, printed.as_str(), text, "the text of an error");
    }
}

#[test]
fn errors_say_what_they_are(rt: HostRuntime) {
    each_says(&rt, rt.alloc(), ERRORS);
}
