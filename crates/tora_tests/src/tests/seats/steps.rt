//! Items that a seat serves and their effects, as tables of steps, and the functions that make them.
use super::super::made::{core_of, query_for};
use super::super::sees::same_at;
use super::{Offered, TestLanes};
use std::alloc::Global;
use std::process::Abort;
use tora_arq::Life;
use tora_core::Input;
use tora_height::Id;
use tora_seat::{Answer, Cargo, CoreSeat, Item, Stepped, What};

/// The content of an item; a packet is the query for a destination.
#[derive(Clone, Copy, Debug)]
pub enum Told {
    Up(Life),
    Packet(Life, Id),
    Beat,
    Need(Id),
    Cut(Id),
}

/// An outbound message: a packet of a session, which is the query for a destination, or the cut of a session.
#[derive(Clone, Copy, Debug)]
pub enum Given {
    Packet(Life, Id),
    Cut(Life),
}

/// An input of the core; a packet has the neighbour and the destination of its query.
#[derive(Clone, Copy, Debug)]
pub enum Handed {
    Up(Id),
    Down(Id),
    Need(Id),
    Packet(Id, Id),
}

/// A step of a run: an action, or an observation with its expected result.
#[derive(Clone, Copy, Debug)]
pub enum Step {
    /// An item is served, and the answer is `Nothing`. The index is 0 for the link to 2, 1 for the link to 3, and 2 for
    /// a command.
    Serves(usize, Told),
    /// Exactly these messages were offered since the last check, each with the index of its queue and whether it was
    /// put.
    Offers(&'static [(usize, Given, bool)]),
    /// This many messages were offered since the last check.
    Counts(usize),
    /// Sets how many messages wait in the first queue.
    Fills(usize),
    /// This many messages wait in the first queue.
    Waits(usize),
    /// The core accepted exactly these inputs for the item served last, in this order.
    Hands(&'static [Handed]),
    /// The query that was passed to the core for the item served last: its sender, its session and its destination;
    /// `None` if there was none.
    Steps(Option<(Id, Life, Id)>),
    /// The current session of the link at an index; `None` if there is none.
    Lives(usize, Option<Life>),
    /// The session of the link at an index whose cut is not in the queue yet; `None` if there is none.
    Cuts(usize, Option<Life>),
}

/// The seat of node 1 between 2 and 3, and its queues; `None` if memory runs out.
pub fn made(rt: &impl Abort, alloc: Global, destinations: &[Id]) -> Option<(CoreSeat, TestLanes)> {
    let core = core_of(rt, alloc, 1, &[2, 3], destinations).ok()?;
    let seat = CoreSeat::new(alloc, core).ok()?;
    Some((seat, TestLanes::new(alloc)))
}

/// Serves an item of the source with index `at` (see `Step::Serves`), and checks that the answer is `Nothing`.
fn serves(rt: &impl Abort, seat: &mut CoreSeat, lanes: &mut TestLanes, at: usize, told: Told) {
    let what = match told {
        Told::Up(life) => What::Up(life),
        Told::Packet(life, d) => What::Packet(life, query_for(rt, d)),
        Told::Beat => What::Beat,
        Told::Need(d) => What::Need(d),
        Told::Cut(k) => What::Cut(k),
    };
    let item = Item {
        seat: at,
        number: 1,
        now: 1,
        what,
    };
    assert!(rt; seat.core().neighbours().len() == 2);
    let answer = seat.serve(&item, lanes);
    same_at(rt, &answer, &Answer::Nothing, "the answer", &item);
}

/// Checks that exactly these messages were offered since the last check, in this order.
fn offers(rt: &impl Abort, lanes: &TestLanes, rows: &[(usize, Given, bool)], row: &Step) {
    same_at(
        rt,
        &lanes.offers.len(),
        &rows.len(),
        "how many cargoes",
        row,
    );
    for ((place, given, put), offered) in rows.iter().zip(lanes.offers.iter()) {
        let cargo = match *given {
            Given::Packet(life, d) => Cargo::Packet(life, query_for(rt, d)),
            Given::Cut(life) => Cargo::Cut(life),
        };
        let wanted = Offered {
            place: *place,
            cargo,
            put: *put,
        };
        same_at(rt, offered, &wanted, "the cargo", row);
    }
}

/// Checks that the core accepted exactly these inputs for the item served last, in this order.
fn hands(rt: &impl Abort, seat: &CoreSeat, rows: &[Handed], row: &Step) {
    same_at(
        rt,
        &seat.inputs().len(),
        &rows.len(),
        "how many inputs",
        row,
    );
    for (handed, input) in rows.iter().zip(seat.inputs().iter()) {
        let wanted = match *handed {
            Handed::Up(k) => Input::LinkUp(k),
            Handed::Down(k) => Input::LinkDown(k),
            Handed::Need(d) => Input::Need(d),
            Handed::Packet(k, d) => Input::Packet(k, query_for(rt, d)),
        };
        same_at(rt, input, &wanted, "the input", row);
    }
}

/// Checks which query was passed to the core for the item served last, or for `None` that there was none.
fn steps(rt: &impl Abort, seat: &CoreSeat, stepped: Option<(Id, Life, Id)>, row: &Step) {
    let wanted = match stepped {
        None => None,
        Some((from, life, d)) => Some(Stepped {
            from,
            life,
            packet: query_for(rt, d),
        }),
    };
    same_at(rt, &seat.stepped(), &wanted, "what was stepped", row);
}

/// Makes one step of a table.
fn does(rt: &impl Abort, seat: &mut CoreSeat, lanes: &mut TestLanes, row: &Step) {
    match *row {
        Step::Serves(at, told) => serves(rt, seat, lanes, at, told),
        Step::Offers(rows) => {
            offers(rt, lanes, rows, row);
            lanes.offers.clear();
        }
        Step::Counts(count) => {
            same_at(rt, &lanes.offers.len(), &count, "how many cargoes", row);
            lanes.offers.clear();
        }
        Step::Fills(count) => lanes.first = count,
        Step::Waits(count) => same_at(rt, &lanes.first, &count, "how many wait", row),
        Step::Hands(rows) => hands(rt, seat, rows, row),
        Step::Steps(stepped) => steps(rt, seat, stepped, row),
        Step::Lives(at, life) => same_at(rt, &seat.current(at), &life, "the life", row),
        Step::Cuts(at, life) => same_at(rt, &seat.pending(at), &life, "the life to cut", row),
    }
}

/// Makes the steps of a table, in order.
pub fn runs(rt: &impl Abort, seat: &mut CoreSeat, lanes: &mut TestLanes, rows: &[Step]) {
    for row in rows {
        does(rt, seat, lanes, row);
    }
}
