//! The rows of the core's seat, one for each neighbour.
ghost use Rattle.std.specs.Prelude.{◌≡◌, ◌<◌, ◌≤◌, ℕ, List, length, false, Option, None, Some, IfOk, slice_get, map};
ghost use Rattle.std.specs.Prelude.{position, ◌==◌, if◌then◌else◌};
ghost use Rattle.tora_core.specs.Numbers.{has_number, has_repeat};
ghost use Rattle.tora_core.specs.CoreRun.{CoreView};
ghost use Rattle.tora_seat.specs.Serving.{after_cuts_tried, after_broadcast, after_broadcasts, first_cut, is_current};
ghost use Rattle.tora_seat.specs.Rows.{neighbours_of, current_of, pending_of, any_pending, new_row, is_cut};
ghost use Rattle.tora_seat.specs.Rows.{first_cut_of};
ghost use Rattle.tora_seat.specs.Bodies.{TriesCut, SendsTo, EndsLife, EndsLives, RowsGo};

use crate::{Cargo, OutLanes};
use std::alloc::{AllocError, Global};
use tora_arq::Life;
use tora_core::Core;
use tora_height::Id;
use tora_packet::Packet;

/// The state of one neighbour in the seat of a core.
#[derive(Clone, Copy, Debug, PartialEq, Eq, Hash)]
pub struct LinkRow {
    /// The neighbour.
    pub neighbour: Id,
    /// The current session, if there is one.
    pub current: Option<Life>,
    /// The session that is over and whose cut is not in the queue yet, if there is one.
    pub pending: Option<Life>,
}

/// Offers the pending cut of a row, if there is one, to the queue at `place`. A cut that is put is no longer pending.
fn try_cut<O: OutLanes>(row: &mut LinkRow, place: usize, outs: &mut O)
    requires { place < O.count outs.old }
    ensures count { O.count outs.new ≡ O.count outs.old }
    ensures tries { TriesCut O.did_offer place row.old row.old.pending outs.old row.new outs.new }
{
    if let Some(life) = row.pending {
        if outs.offer(place, Cargo::Cut(life)) {
            row.pending = None;
        }
    }
}

/// Offers each pending cut once, and returns whether one is still pending.
pub fn try_cuts<O: OutLanes>(rows: &mut [LinkRow], outs: &mut O) -> bool
    requires lanes { length rows.old ≤ O.count outs.old }
    requires different { has_repeat (neighbours_of rows.old) ≡ false }
    ensures count { O.count outs.new ≡ O.count outs.old }
    ensures goes { RowsGo O.did_offer after_cuts_tried rows.old outs.old rows.new outs.new }
    ensures left { result ≡ any_pending rows.new }
{
    let mut is_left = false;
    for (place, row) in rows.iter_mut().enumerate() {
        try_cut(row, place, outs);
        is_left |= row.pending.is_some();
    }
    is_left
}

/// Offers a packet to the queue at `place` in the row's current session; does nothing if there is none. Returns whether
/// the queue returned the packet: then the session is over, and its cut is pending.
fn send<O: OutLanes>(row: &mut LinkRow, place: usize, packet: &Packet, outs: &mut O) -> bool
    requires { place < O.count outs.old }
    ensures count { O.count outs.new ≡ O.count outs.old }
    ensures sends { SendsTo O.did_offer place packet.now row.old row.old.current outs.old row.new outs.new }
    ensures ends { EndsLife result row.old row.new }
{
    if let Some(life) = row.current {
        if !outs.offer(place, Cargo::Packet(life, *packet)) {
            row.current = None;
            row.pending = Some(life);
            return true;
        }
    }
    false
}

/// Sends a packet to each neighbour that has a current session, in ascending order. Returns whether a queue returned
/// it.
fn broadcast<O: OutLanes>(rows: &mut [LinkRow], packet: &Packet, outs: &mut O) -> bool
    requires lanes { length rows.old ≤ O.count outs.old }
    requires different { has_repeat (neighbours_of rows.old) ≡ false }
    ensures count { O.count outs.new ≡ O.count outs.old }
    ensures goes { RowsGo O.did_offer (λ answers ks. after_broadcast answers packet.now ks)
        rows.old outs.old rows.new outs.new }
    ensures ends { EndsLives result rows.old rows.new }
{
    let mut is_over = false;
    for (place, row) in rows.iter_mut().enumerate() {
        is_over |= send(row, place, packet, outs);
    }
    is_over
}

/// Sends the packets one after another, each to every neighbour that has a current session, in ascending order. Returns
/// whether a queue returned one; if not, the rows are unchanged.
pub fn broadcast_all<O: OutLanes>(rows: &mut [LinkRow], packets: &[Packet], outs: &mut O) -> bool
    requires lanes { length rows.old ≤ O.count outs.old }
    requires different { has_repeat (neighbours_of rows.old) ≡ false }
    ensures count { O.count outs.new ≡ O.count outs.old }
    ensures goes { RowsGo O.did_offer (λ answers ks. after_broadcasts answers ks packets.now)
        rows.old outs.old rows.new outs.new }
    ensures ends { EndsLives result rows.old rows.new }
{
    let mut is_over = false;
    for packet in packets {
        is_over |= broadcast(rows, packet, outs);
    }
    is_over
}

/// The row at a place, counted from 0; `None` past the last one.
pub fn row_at(rows: &[LinkRow], place: usize) -> Option<LinkRow>
    ensures { result ≡ slice_get rows.now place }
{
    rows.get(place).copied()
}

/// The place of neighbour `k`, counted from 0; `None` if it is none of these.
pub fn place_in(neighbours: &[Id], k: Id) -> Option<usize>
    ensures { result ≡ position (λ n. n == k) neighbours.now }
{
    neighbours.iter().position(|n| *n == k)
}

/// The neighbour of the first row whose link is up at the core without a current session; `None` if there is no such
/// row.
pub fn first_cut(core: &Core, rows: &[LinkRow]) -> Option<Id>
    ensures { result ≡ first_cut_of core.now rows.now }
{
    rows.iter()
        .find(|row| is_cut(core, row))
        .map(|row| row.neighbour)
}

/// Whether the link of a row is up at the core without a current session. The core is read last, because it searches
/// its links, and most links have a session.
fn is_cut(core: &Core, row: &LinkRow) -> bool
    ensures { result ≡ is_cut core.now row.now }
{
    if row.current.is_some() {
        return false;
    }
    core.is_up(row.neighbour)
}

/// The pending cut of a session after the cut was offered: `None` if it was put.
pub fn left_pending(is_put: bool, life: Life) -> Option<Life>
    ensures { result ≡ (if is_put then None else Some life) }
{
    if is_put { None } else { Some(life) }
}

/// Whether a session is the current one; `false` if there is none.
pub fn is_current(life: &Life, current: &Option<Life>) -> bool
    ensures { result ≡ is_current life.now current.now }
{
    match current {
        Some(other) => life.own == other.own && life.peer == other.peer,
        None => false,
    }
}

/// The row of a neighbour, without a current session and without a pending cut.
fn new_row(neighbour: Id) -> LinkRow
    ensures { result ≡ new_row neighbour }
{
    LinkRow {
        neighbour,
        current: None,
        pending: None,
    }
}

/// The rows of these neighbours, without current sessions and without pending cuts.
///
/// # Errors
/// Memory ran out.
pub fn new_rows(alloc: Global, neighbours: &[Id]) -> Result<Vec<LinkRow>, AllocError>
    ensures { IfOk result (λ rows. rows.items ≡ map new_row neighbours.now) }
{
    neighbours.iter().map(|k| new_row(*k)).collect(alloc)
}
