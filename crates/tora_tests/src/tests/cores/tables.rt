//! The steps of the worked runs: inputs, and the effects that the rules prescribe.
use super::steps::Given::{Down, From, Need, Up};
use super::steps::Sent::{Clr, Qry, Upd};
use super::steps::Step::{Goes, Has, Refuses, Shows, Takes};
use super::steps::{Node, Step};

/// The nodes of the line 1 - 2 - 3 - 4, with the destination 4.
pub const LINE: &[Node] = &[
    (1, &[2], &[4]),
    (2, &[1, 3], &[4]),
    (3, &[2, 4], &[4]),
    (4, &[3], &[4]),
];

/// The links of the line come up.
pub const LINE_UP: &[Step] = &[
    Takes(1, 1, Up(2), &[]),
    Takes(2, 1, Up(1), &[]),
    Takes(2, 1, Up(3), &[]),
    Takes(3, 1, Up(2), &[]),
    Takes(3, 1, Up(4), &[]),
    Takes(4, 1, Up(3), &[]),
];

/// Node 1 needs a route to 4: its query goes along the line to 3, and updates come back to 1.
pub const JOINING: &[Step] = &[
    Takes(1, 2, Need(4), &[Qry(4)]),
    Takes(2, 2, From(1, Qry(4)), &[Qry(4)]),
    Takes(1, 2, From(2, Qry(4)), &[]),
    Takes(3, 2, From(2, Qry(4)), &[Upd(0, 0, 0, 1, 3)]),
    Takes(2, 2, From(3, Upd(0, 0, 0, 1, 3)), &[Upd(0, 0, 0, 2, 2)]),
    Takes(4, 2, From(3, Upd(0, 0, 0, 1, 3)), &[]),
    Takes(1, 2, From(2, Upd(0, 0, 0, 2, 2)), &[Upd(0, 0, 0, 3, 1)]),
    Takes(3, 2, From(2, Upd(0, 0, 0, 2, 2)), &[]),
    Takes(2, 2, From(1, Upd(0, 0, 0, 3, 1)), &[]),
];

/// The heights and next hops of the nodes once every node has a route to 4; node 4 itself has no next hop.
pub const JOINED: &[Step] = &[
    Has(1, Some((0, 0, 0, 3, 1))),
    Goes(1, Some(2)),
    Has(2, Some((0, 0, 0, 2, 2))),
    Goes(2, Some(3)),
    Has(3, Some((0, 0, 0, 1, 3))),
    Goes(3, Some(4)),
    Has(4, Some((0, 0, 0, 0, 4))),
    Goes(4, None),
];

/// Nodes 3 and 4 lose their link. The new reference level of 3 is propagated, reflected, and sent back.
pub const PARTING: &[Step] = &[
    Takes(4, 7, Down(3), &[]),
    Takes(3, 7, Down(4), &[Upd(7, 3, 0, 0, 3)]),
    Takes(2, 7, From(3, Upd(7, 3, 0, 0, 3)), &[Upd(7, 3, 0, -1, 2)]),
    Takes(1, 7, From(2, Upd(7, 3, 0, -1, 2)), &[Upd(7, 3, 1, 0, 1)]),
    Takes(3, 7, From(2, Upd(7, 3, 0, -1, 2)), &[]),
    Takes(2, 7, From(1, Upd(7, 3, 1, 0, 1)), &[Upd(7, 3, 1, -1, 2)]),
    Takes(1, 7, From(2, Upd(7, 3, 1, -1, 2)), &[]),
];

/// Node 3 detects the partition, and the line erases the reference level.
pub const ERASING: &[Step] = &[
    Takes(3, 7, From(2, Upd(7, 3, 1, -1, 2)), &[Clr(7, 3)]),
    Takes(2, 7, From(3, Clr(7, 3)), &[Clr(7, 3)]),
    Takes(1, 7, From(2, Clr(7, 3)), &[Clr(7, 3)]),
    Takes(3, 7, From(2, Clr(7, 3)), &[]),
    Takes(2, 7, From(1, Clr(7, 3)), &[]),
];

/// No node but the destination has a height, and no node has a next hop.
pub const ERASED: &[Step] = &[
    Has(1, None),
    Goes(1, None),
    Has(2, None),
    Goes(2, None),
    Has(3, None),
    Goes(3, None),
    Has(4, Some((0, 0, 0, 0, 4))),
    Goes(4, None),
];

/// Node 2 with the neighbours 1 and 3 and the destination 4.
pub const MIDDLE: &[Node] = &[(2, &[1, 3], &[4])];

/// Node 2 gets a route through 3. It loses the route when both neighbours have the reflected level (7,9,1), which node
/// 9 defined, and defines the level (8,2,0).
pub const FOREIGN_REFLECTION: &[Step] = &[
    Takes(2, 1, Up(1), &[]),
    Takes(2, 1, Up(3), &[]),
    Takes(2, 2, Need(4), &[Qry(4)]),
    Takes(2, 3, From(3, Upd(0, 0, 0, 1, 3)), &[Upd(0, 0, 0, 2, 2)]),
    Takes(2, 4, From(1, Upd(7, 9, 1, 0, 1)), &[]),
    Takes(2, 8, From(3, Upd(7, 9, 1, -1, 3)), &[Upd(8, 2, 0, 0, 2)]),
];

/// Node 2 has the height of the level (8,2,0), which it defined.
pub const NEW_LEVEL: &[Step] = &[Has(2, Some((8, 2, 0, 0, 2)))];

/// After an update of node 1 at the level (9,1,0), node 3 clears the foreign level: node 2 defines the level (10,2,0).
pub const CLEARED_BESIDE_ANOTHER: &[Step] = &[
    Takes(2, 9, From(1, Upd(9, 1, 0, 0, 1)), &[]),
    Takes(2, 9, From(3, Clr(7, 9)), &[Upd(10, 2, 0, 0, 2)]),
];

/// Node 3 clears the foreign level while both entries are at it: node 2 has no height left.
pub const CLEARED_ALONE: &[Step] = &[Takes(2, 9, From(3, Clr(7, 9)), &[]), Has(2, None)];

/// Node 3 with the neighbours 2 and 4 and the destination 4.
pub const NEXT: &[Node] = &[(3, &[2, 4], &[4])];

/// Node 3 answers a query of 2 for 4.
pub const ANSWERING: &[Step] = &[
    Takes(3, 1, Up(2), &[]),
    Takes(3, 1, Up(4), &[]),
    Takes(3, 2, From(2, Qry(4)), &[Upd(0, 0, 0, 1, 3)]),
];

/// Node 3 defines a level above that of node 2, whose clock is ahead.
pub const CLOCK_BEHIND: &[Step] = &[
    Takes(3, 3, From(2, Upd(7, 9, 0, 0, 2)), &[]),
    Takes(3, 3, Down(4), &[Upd(8, 3, 0, 0, 3)]),
];

/// Node 2 asks again and gets no answer, since the update was broadcast while its link was up. After the link went down
/// and came up, it asks and gets an answer.
pub const TOLD: &[Step] = &[
    Takes(3, 3, From(2, Upd(0, 0, 0, 2, 2)), &[]),
    Takes(3, 4, From(2, Qry(4)), &[]),
    Takes(3, 5, Down(2), &[]),
    Takes(3, 6, Up(2), &[]),
    Takes(3, 6, From(2, Qry(4)), &[Upd(0, 0, 0, 1, 3)]),
];

/// The text of the table of node 3, which is below 2 and above 4.
const BETWEEN: &str = "to 4 height (0,0,0,1,3) flag 0 hop 4
via 2 (0,0,0,2,2) up
via 4 (0,0,0,0,4) down
";

/// An update of node 2 puts it above node 3; the table shows the link to 2 as upstream and that to 4 as downstream.
pub const DIRECTIONS: &[Step] = &[
    Takes(3, 3, From(2, Upd(0, 0, 0, 2, 2)), &[]),
    Shows(3, BETWEEN),
];

/// Node 3 has the next hop 4 to destination 4.
pub const HOP: &[Step] = &[Goes(3, Some(4))];

/// Node 4 with the neighbour 3 and the destination 4, itself.
pub const DESTINATION: &[Node] = &[(4, &[3], &[4])];

/// The destination stores no entry for an update of its neighbour.
pub const OWN_TEXT: &[Step] = &[
    Takes(4, 1, Up(3), &[]),
    Takes(4, 3, From(3, Upd(0, 0, 0, 1, 3)), &[]),
    Shows(4, "to 4 height (0,0,0,0,4) flag 0 hop -\nvia 3 - none\n"),
];

/// Node 2 with the neighbour 3 and the destination 4.
pub const LEAF: &[Node] = &[(2, &[3], &[4])];

/// Node 3 sends a height with the greatest delta, 2^30. Node 2 would need a greater one, so its height is NULL, but 3
/// is its next hop.
pub const GREATEST_DELTA: &[Step] = &[
    Takes(2, 1, Up(3), &[]),
    Takes(2, 2, Need(4), &[Qry(4)]),
    Takes(2, 3, From(3, Upd(0, 0, 0, 1073741824, 3)), &[]),
    Shows(
        2,
        "to 4 height - flag 0 hop 3\nvia 3 (0,0,0,1073741824,3) down\n",
    ),
];

/// Each refusal, by the number of its error, at node 3 with the link to 2 up; the table does not change.
pub const REFUSALS: &[Step] = &[
    Takes(3, 1, Up(2), &[]),
    Refuses(3, 2, Up(9), 1),
    Shows(3, "to 4 height - flag 0 hop -\nvia 2 - none\n"),
    Refuses(3, 2, Up(2), 2),
    Shows(3, "to 4 height - flag 0 hop -\nvia 2 - none\n"),
    Refuses(3, 2, From(4, Qry(4)), 3),
    Shows(3, "to 4 height - flag 0 hop -\nvia 2 - none\n"),
    Refuses(3, 2, From(2, Upd(0, 0, 0, 1, 3)), 4),
    Shows(3, "to 4 height - flag 0 hop -\nvia 2 - none\n"),
    Refuses(3, 2, Need(99), 5),
    Shows(3, "to 4 height - flag 0 hop -\nvia 2 - none\n"),
];

/// Node 3 with the neighbours 2 and 4 and the destinations 5 and 4.
pub const TWO_DESTINATIONS: &[Node] = &[(3, &[2, 4], &[5, 4])];

/// The link to 4 comes up while routes to 5 and 4 are required: a packet for each is broadcast, first that for 4.
pub const TWO_PACKETS: &[Step] = &[
    Takes(3, 1, Up(2), &[]),
    Takes(3, 1, Need(5), &[Qry(5)]),
    Takes(3, 1, Need(4), &[Qry(4)]),
    Takes(3, 2, Up(4), &[Upd(0, 0, 0, 1, 3), Qry(5)]),
];

/// Node 2 with the neighbours 1, 3 and 5 and the destination 4.
pub const FORK: &[Node] = &[(2, &[1, 3, 5], &[4])];

/// The entries of 1 and 5 are at the greatest level, with the deltas 5 and 3: node 2 takes this level, with the delta
/// 2, one below the lower of both.
pub const LEAST_DELTA: &[Step] = &[
    Takes(2, 1, Up(1), &[]),
    Takes(2, 1, Up(3), &[]),
    Takes(2, 1, Up(5), &[]),
    Takes(2, 2, Need(4), &[Qry(4)]),
    Takes(2, 3, From(3, Upd(0, 0, 0, 1, 3)), &[Upd(0, 0, 0, 2, 2)]),
    Takes(2, 4, From(1, Upd(7, 9, 0, 5, 1)), &[]),
    Takes(2, 4, From(5, Upd(7, 9, 0, 3, 5)), &[]),
    Takes(2, 5, From(3, Upd(7, 8, 0, 0, 3)), &[Upd(7, 9, 0, 2, 2)]),
];
