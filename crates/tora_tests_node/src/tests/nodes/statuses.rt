//! The output of the core's thread for programs.
use super::streams::Page;
use crate::tests::sees::{as_many, same, same_text, sees_at, there};
use std::alloc::Global;
use std::process::Abort;
use std::sync::Wait;
use tora_arq::{Life, Reason};
use tora_core::Core;
use tora_lane::{InPort, Lanes, OutPuts, lanes};
use tora_node::{NodeError, run_core};
use tora_packet::Packet;
use tora_seat::{CoreSeat, Status, What};

/// The session of the link of node 3 to node 2.
const LIFE_TO_2: Life = Life { own: 18, peer: 34 };

/// The session of the link of node 3 to node 4.
const LIFE_TO_4: Life = Life { own: 17, peer: 33 };

/// The first items, each with its seat, put at tick 5 and one tick later each. The seats 0 and 1 are those of the links
/// to 2 and 4, and 2 is that of the commands.
const FIRST_ITEMS: [(usize, What); 3] = [
    (2, What::Status(Status::Watch)),
    (1, What::Up(LIFE_TO_4)),
    (0, What::Up(LIFE_TO_2)),
];

/// The last items, from tick 9 on, after node 2 has sent its query for 4.
const LAST_ITEMS: [(usize, What); 4] = [
    (2, What::Need(9)),
    (2, What::Status(Status::Json)),
    (1, What::Down(LIFE_TO_4, Reason::Silent)),
    (2, What::Quit),
];

/// The last items, in which the session of the link to 4 is cut and does not end by silence.
const CUT_ITEMS: [(usize, What); 4] = [
    (2, What::Need(9)),
    (2, What::Status(Status::Json)),
    (2, What::Cut(4)),
    (2, What::Quit),
];

/// The output for `FIRST_ITEMS`, the query of node 2, and either list of last items.
const TEXT: &str = "\
height 4 -
hop 4 -
hop 4 4
height 4 (0,0,0,1,3)
refused 5
{\"node\":3,\"tick\":10,\"destinations\":[{\"to\":4,\"height\":[0,0,0,1,3],\"required\":false,\"hop\":4,\"via\":[\
{\"node\":2,\"height\":null,\"direction\":\"none\"},{\"node\":4,\"height\":[0,0,0,0,4],\"direction\":\"down\"}]}],\
\"links\":[{\"peer\":2,\"life\":[18,34],\"cut\":null},{\"peer\":4,\"life\":[17,33],\"cut\":null}]}
height 4 -
hop 4 -
";

/// Puts an item at a tick, at the port of this seat.
fn put_one<R: Wait + Abort>(rt: &R, ports: &mut [InPort], now: u64, seat: usize, what: &What) {
    let is_put = match ports.get_mut(seat) {
        Some(port) => port.put(rt, now, *what).is_ok(),
        None => false,
    };
    sees_at(rt, is_put, "an item is put", &now);
}

/// Puts `FIRST_ITEMS` at ticks 5 to 7, the query of node 2 for destination 4 at tick 8, and the items `last` from tick
/// 9 on.
fn put_all<R: Wait + Abort>(rt: &R, ports: &mut [InPort], last: &[(usize, What)]) {
    let asks = there(rt, Packet::qry(4).ok(), "a query");
    for (at, (seat, what)) in FIRST_ITEMS.iter().enumerate() {
        put_one(rt, ports, 5 + at as u64, *seat, what);
    }
    put_one(rt, ports, 8, 0, &What::Packet(LIFE_TO_2, asks));
    for (at, (seat, what)) in last.iter().enumerate() {
        put_one(rt, ports, 9 + at as u64, *seat, what);
    }
}

/// Puts all items into these queues, runs the core of node 3 over them, and returns its fault. Without a fault, checks
/// that the output is `TEXT`. Returns `None` also if memory runs out before the core runs.
fn is_told<R: Wait + Abort>(
    rt: &R,
    alloc: Global,
    core: Core,
    made: Lanes,
    last: &[(usize, What)],
) -> Option<NodeError> {
    let Lanes {
        core: port,
        command,
        links,
        outs,
    } = made;
    let mut ports = Vec::new(alloc);
    for (port, _) in links {
        ports.push(port).ok()?;
    }
    ports.push(command).ok()?;
    put_all(rt, &mut ports, last);
    let seat = CoreSeat::new(alloc, core).ok()?;
    as_many(rt, outs.len(), seat.core().neighbours().len());
    let mut page = Page {
        bytes: [0; 640],
        length: 0,
    };
    let end = run_core(rt, alloc, seat, port, OutPuts { ends: outs }, &mut page);
    if end.fault.is_none() {
        let text = str::from_utf8(&page.bytes[..page.length]).ok();
        same_text(rt, there(rt, text, "a text"), TEXT, "what is printed");
    }
    end.fault
}

/// Checks what the core of node 3 prints after `watch` and `json` if `FIRST_ITEMS`, a query of node 2 and then the
/// items `last` are put. If memory runs out, only the fault is checked.
fn is_told_of<R: Wait + Abort>(rt: &R, alloc: Global, last: &[(usize, What)]) {
    if let (Ok(core), Ok(made)) = (Core::new(alloc, 3, &[2, 4], &[4]), lanes(rt, alloc, 2)) {
        match is_told(rt, alloc, core, made, last) {
            None => {}
            Some(fault) => same(rt, &fault, &NodeError::Memory, "no memory"),
        }
    }
}

#[test]
fn programs_are_told_the_state_and_its_changes(rt: HostRuntime) {
    is_told_of(&rt, rt.alloc(), &LAST_ITEMS);
}

#[test]
fn programs_are_told_what_a_cut_changes(rt: HostRuntime) {
    is_told_of(&rt, rt.alloc(), &CUT_ITEMS);
}
