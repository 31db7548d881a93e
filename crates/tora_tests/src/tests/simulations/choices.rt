//! How the nodes of a topology treat erased levels.
use super::super::sees::same_at;
use super::topologies::topology_of;
use std::process::Abort;
use tora_core::Erasure;
use tora_core::Erasure::{Plain, Remembered};
use tora_height::Id;
use tora_sim::{SimError, Topology};

/// A node's choice and the result, and then how nodes 1 to 3 treat erased levels.
type Row = (Id, Erasure, Result<(), SimError>, [Erasure; 3]);

/// Makes the choice of each row in turn, and checks the result and then how nodes 1 to 3 treat erased levels.
fn chooses(rt: &impl Abort, topology: &mut Topology, rows: &[Row]) {
    for row in rows {
        let (n, erasure, answer, made) = row;
        same_at(
            rt,
            &topology.choose(*n, *erasure),
            answer,
            "the answer",
            row,
        );
        for (n, wanted) in (1u32..4).zip(made.iter()) {
            same_at(
                rt,
                &topology.erasure_of(n),
                wanted,
                "the choice of a node",
                row,
            );
        }
    }
}

#[test]
fn nodes_choose_what_they_make_of_erased_levels(rt: HostRuntime) {
    // There is no node 4, and the last choice of a node counts.
    let choices: [Row; 5] = [
        (4, Remembered, Err(SimError::NoNode), [Plain, Plain, Plain]),
        (2, Remembered, Ok(()), [Plain, Remembered, Plain]),
        (1, Plain, Ok(()), [Plain, Remembered, Plain]),
        (3, Remembered, Ok(()), [Plain, Remembered, Remembered]),
        (2, Plain, Ok(()), [Plain, Plain, Remembered]),
    ];
    let mut topology = topology_of(&rt, rt.alloc(), &[(3, 2), (1, 2)], &[3]);
    chooses(&rt, &mut topology, &choices);
    let mut topology = topology_of(&rt, rt.alloc(), &[(3, 2), (1, 2)], &[3]);
    topology.set_erasure(Remembered);
    let row = (2, Plain, Ok(()), [Remembered, Plain, Remembered]);
    chooses(&rt, &mut topology, &[row]);
}
