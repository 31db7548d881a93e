//! The line of four nodes, 1 - 2 - 3 - 4, with items made by the test: the packets that a seat offers to a neighbour
//! are passed to that neighbour's seat.
use super::super::made::{Parts, core_of, entry_of};
use super::super::sees::{same, same_at, sees};
use super::TestLanes;
use std::alloc::Global;
use std::process::Abort;
use std::test::Fail;
use tora_arq::{Life, Reason};
use tora_height::Id;
use tora_seat::{Answer, Cargo, CoreSeat, Item, What};

/// The session of every link, as both ends write it.
const LIFE: Life = Life { own: 1, peer: 1 };

/// A node of the line, with the messages that its seat has offered and that were not passed on yet.
#[derive(Drop)]
struct Node {
    me: Id,
    seat: CoreSeat,
    lanes: TestLanes,
}

impl Node {
    /// Node `me` with these neighbours, no link up, and the destination 4. An error ends the test.
    fn new(rt: &impl Abort, alloc: Global, me: Id, neighbours: &[Id]) -> Result<Node, Fail> {
        let core = core_of(rt, alloc, me, neighbours, &[4])?;
        Ok(Node {
            me,
            seat: CoreSeat::new(alloc, core)?,
            lanes: TestLanes::new(alloc),
        })
    }

    /// The index of neighbour `k` among the neighbours, counted from 0; the test fails if it is no neighbour.
    fn place(&self, rt: &impl Abort, k: Id) -> usize {
        let mut place = 0usize;
        for n in self.seat.core().neighbours() {
            if *n == k {
                return place;
            }
            place = place.saturating_add(1);
        }
        sees(rt, false, "a neighbour");
        place
    }

    /// Serves an item at tick `now`, and checks that the answer is `Nothing`. `seat` is the index of the neighbour
    /// whose link the item is from, or the number of neighbours for a command.
    fn serves(&mut self, rt: &impl Abort, seat: usize, now: u64, what: What) {
        assert!(rt; self.seat.core().neighbours().len() <= 2);
        let item = Item {
            seat,
            number: 1,
            now,
            what,
        };
        let answer = self.seat.serve(&item, &mut self.lanes);
        same_at(
            rt,
            &answer,
            &Answer::Nothing,
            "the answer at node",
            &self.me,
        );
    }

    /// Serves an item of the link to neighbour `from` at tick `now`, as `serves` does.
    fn hears(&mut self, rt: &impl Abort, from: Id, now: u64, what: What) {
        let place = self.place(rt, from);
        self.serves(rt, place, now, what);
    }

    /// Removes the first message that was offered, and returns it with the neighbour that it is for; `None` if there is
    /// none.
    fn gives(&mut self, rt: &impl Abort) -> Option<(Id, Cargo)> {
        if self.lanes.offers.is_empty() {
            return None;
        }
        let offered = self.lanes.offers.remove(0);
        let k = self.seat.core().neighbours().get(offered.place).copied();
        Some((k.expect(rt, "a neighbour"), offered.cargo))
    }
}

/// Passes on the packets that were offered, in 100 rounds of one message of each node, and checks that none is left. A
/// cut is dropped.
fn hands_on(rt: &impl Abort, line: &mut [Node], now: u64) {
    for _ in 0..100 {
        for i in 0..line.len() {
            let from = line[i].me;
            if let Some((to, Cargo::Packet(life, packet))) = line[i].gives(rt) {
                let node = line.iter_mut().find(|node| node.me == to);
                let node = node.expect(rt, "a node");
                node.hears(rt, from, now, What::Packet(life, packet));
            }
        }
    }
    for node in line.iter() {
        same_at(
            rt,
            &node.lanes.offers.len(),
            &0,
            "no cargo is left at node",
            &node.me,
        );
    }
}

/// The four nodes, with every link up, after node 1 has found a route to 4.
fn joined(rt: &impl Abort, alloc: Global) -> Result<[Node; 4], Fail> {
    let mut line = [
        Node::new(rt, alloc, 1, &[2])?,
        Node::new(rt, alloc, 2, &[1, 3])?,
        Node::new(rt, alloc, 3, &[2, 4])?,
        Node::new(rt, alloc, 4, &[3])?,
    ];
    for node in &mut line {
        for seat in 0..node.seat.core().neighbours().len() {
            node.serves(rt, seat, 0, What::Up(LIFE));
        }
    }
    line[0].serves(rt, 1, 1, What::Need(4));
    hands_on(rt, &mut line, 1);
    Ok(line)
}

/// Checks the height of a node for destination 4 (`None` is NULL) and its next hop.
fn has(rt: &impl Abort, node: &Node, parts: Option<Parts>, hop: Option<Id>) {
    let core = node.seat.core();
    let wanted = Some(entry_of(rt, parts));
    same_at(rt, &core.height(4), &wanted, "the height at node", &node.me);
    same_at(
        rt,
        &core.next_hop(4),
        &hop,
        "the next hop at node",
        &node.me,
    );
}

/// Checks the height for destination 4 (`None` is NULL) and the next hop of each node, one row a node.
fn have(rt: &impl Abort, line: &[Node], rows: &[(Option<Parts>, Option<Id>)]) {
    same(rt, &line.len(), &rows.len(), "how many nodes");
    for (node, (parts, hop)) in line.iter().zip(rows.iter()) {
        has(rt, node, *parts, *hop);
    }
}

/// The height and the next hop of each node if every node has a route to 4.
const JOINED: &[(Option<Parts>, Option<Id>)] = &[
    (Some((0, 0, 0, 3, 1)), Some(2)),
    (Some((0, 0, 0, 2, 2)), Some(3)),
    (Some((0, 0, 0, 1, 3)), Some(4)),
    (Some((0, 0, 0, 0, 4)), None),
];

#[test]
fn line_of_four_joins(rt: HostRuntime) -> Result<(), Fail> {
    have(&rt, &joined(&rt, rt.alloc())?, JOINED);
    Ok(())
}

/// The height and the next hop of each node after the partition: no node but the destination has a height.
const PARTED: &[(Option<Parts>, Option<Id>)] = &[
    (None, None),
    (None, None),
    (None, None),
    (Some((0, 0, 0, 0, 4)), None),
];

// Node 3 loses its link to 4: it defines a level, 2 propagates it, 1 reflects it, and 3 detects the partition and
// clears.
#[test]
fn line_of_four_detects_a_partition(rt: HostRuntime) -> Result<(), Fail> {
    let mut line = joined(&rt, rt.alloc())?;
    line[2].hears(&rt, 4, 7, What::Down(LIFE, Reason::Silent));
    let defined = Some(entry_of(&rt, Some((7, 3, 0, 0, 3))));
    same(
        &rt,
        &line[2].seat.core().height(4),
        &defined,
        "the height of 3",
    );
    hands_on(&rt, &mut line, 7);
    have(&rt, &line, PARTED);
    Ok(())
}
