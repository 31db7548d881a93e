//! The views of a node's destinations, by ascending destination.
ghost use Rattle.std.specs.Prelude.{◌≡◌, ◌≤◌, ◌<◌, length, map, filter_map, position, ◌==◌, All, true, Some, IfOk, []};
ghost use Rattle.std.specs.Prelude.{◌++◌};
ghost use Rattle.std.specs.List.{cons_option};
ghost use Rattle.arrayvec.specs.ArrayVec.{array_vec_len};
ghost use Rattle.tora_core.specs.Numbers.{IsAscending, has_number};
ghost use Rattle.tora_core.specs.View.{up_neighbours};
ghost use Rattle.tora_core.specs.Table.{first_in, next_in, views_in};
ghost use Rattle.tora_core.specs.Links.{IsOnlyPlace};
ghost use Rattle.tora_core.specs.CoreRun.{concerns, has_destination, is_of, next_packet, own_destination};
ghost use Rattle.tora_core.specs.Kept.{CanTake, IsLinked, IsOfOne, destinations_of};
ghost use Rattle.tora_packet.specs.PacketParts.{IsId};

use crate::destination::Destination;
use crate::erasure::Erasure;
use crate::numbers::place_near;
use crate::place_hints::PlaceHints;
use crate::{GREATEST_NEIGHBOURS, Input, MOST_DESTINATIONS, Sends};
use std::alloc::{AllocError, Global};
use tora_height::Id;
use tora_packet::Packet;

/// New views of the destinations, each with a place for each of these neighbours, which are in ascending order. Fails
/// only if memory runs out.
pub fn first_views(
    alloc: Global,
    erasure: Erasure,
    me: Id,
    destinations: &[Id],
    neighbours: &[Id],
) -> Result<Vec<Destination>, AllocError>
    requires me { 0 < me }
    requires destinations { All (λ d. 0 < d) destinations.now }
    requires few { length neighbours.now ≤ GREATEST_NEIGHBOURS }
    requires ascending { IsAscending neighbours.now }
    ensures { IfOk result (λ views. views.items ≡ map (first_in neighbours.now erasure me) destinations.now) }
{
    let mut views = Vec::with_capacity(alloc, destinations.len())?;
    for destination in destinations {
        views.push(Destination::new(alloc, erasure, me, *destination, neighbours)?)?;
    }
    Ok(views)
}

/// Guesses at the places of a table's neighbours and destinations.
#[derive(Clone, Copy, Debug, PartialEq, Eq)]
pub struct TableHints {
    pub neighbours: PlaceHints,
    pub destinations: PlaceHints,
}

/// The numbers in a table, in ascending order: the destination of each view, and the neighbour at each place of a view;
/// and guesses at their places.
#[derive(Clone, Copy)]
pub struct TableNames<'a> {
    pub destinations: &'a [Id],
    pub neighbours: &'a [Id],
    pub hints: &'a TableHints,
}

/// Applies an input, and appends the packets to broadcast. It takes no memory.
pub fn step(
    views: &mut [Destination],
    names: TableNames<'_>,
    input: &Input,
    now: u64,
    sends: &mut Sends,
)
    requires may { All (λ t. CanTake input.now t.view) views.old }
    requires few { length views.old ≤ MOST_DESTINATIONS }
    requires ascending { IsAscending names.destinations.now }
    requires names { names.destinations.now ≡ destinations_of (views_in views.old) }
    requires sorted { IsAscending names.neighbours.now }
    requires places { All (λ t. t.neighbours ≡ names.neighbours.now) views.old }
    requires known { IsOfOne input.now names.neighbours.now }
    requires linked { All (λ t. IsLinked input.now (up_neighbours t.view)) views.old }
    requires empty { sends.old.items ≡ [] }
    ensures views { views.new ≡ map (next_in input.now now) views.old }
    ensures sends { sends.new.items ≡ filter_map (next_packet input.now now) (views_in views.old) }
{
    match input {
        Input::LinkUp(k) => link_up(views, *k, place_in(*k, names), sends),
        Input::LinkDown(k) => link_down(views, *k, place_in(*k, names), now, sends),
        Input::Need(d) => list(step_need(*d, views, names, now), sends),
        Input::Packet(k, packet) => {
            let row = place_in(*k, names);
            list(step_packet(*k, row, packet, views, names, now), sends)
        }
    }
}

/// The place of the neighbour `k` among the neighbours, of which it is one, counted from 0.
fn place_in(k: Id, names: TableNames<'_>) -> usize
    requires { IsAscending names.neighbours.now × (has_number k names.neighbours.now ≡ true) }
    ensures { IsOnlyPlace k result names.entry.neighbours.now }
{
    let neighbours = names.neighbours;
    place_near(names.hints.neighbours.place(k), k, neighbours).unwrap_or(neighbours.len())
}

/// Passes a link that came up to every view; the neighbour is at `place`.
fn link_up(views: &mut [Destination], k: Id, place: usize, sends: &mut Sends)
    requires may { All (λ t. CanTake (Input.LinkUp k) t.view) views.old }
    requires few { length views.old ≤ MOST_DESTINATIONS }
    requires places { All (λ t. IsOnlyPlace k place t.neighbours) views.old }
    requires empty { sends.old.items ≡ [] }
    ensures views { views.new ≡ map (next_in (Input.LinkUp k) 0) views.old }
    ensures sends { sends.new.items ≡ filter_map (next_packet (Input.LinkUp k) 0) (views_in views.old) }
{
    for view in views.iter_mut() {
        list(view.link_up(k, place), sends);
    }
}

/// Passes a link that went down to every view; the neighbour is at `place`.
fn link_down(views: &mut [Destination], k: Id, place: usize, now: u64, sends: &mut Sends)
    requires may { All (λ t. CanTake (Input.LinkDown k) t.view) views.old }
    requires few { length views.old ≤ MOST_DESTINATIONS }
    requires places { All (λ t. IsOnlyPlace k place t.neighbours) views.old }
    requires empty { sends.old.items ≡ [] }
    ensures views { views.new ≡ map (next_in (Input.LinkDown k) now) views.old }
    ensures sends { sends.new.items ≡ filter_map (next_packet (Input.LinkDown k) now) (views_in views.old) }
{
    for view in views.iter_mut() {
        list(view.link_down(k, place, now), sends);
    }
}

/// Passes a need to the view of its destination only, and returns the packet to broadcast. The result does not depend
/// on the tick `now`.
fn step_need(d: Id, views: &mut [Destination], names: TableNames<'_>, now: u64) -> Option<Packet>
    requires may { All (λ t. CanTake (Input.Need d) t.view) views.old }
    requires ascending { IsAscending names.destinations.now }
    requires names { names.destinations.now ≡ destinations_of (views_in views.old) }
    ensures views { views.new ≡ map (next_in (Input.Need d) now) views.old }
    ensures packet { cons_option result [] ≡ filter_map (next_packet (Input.Need d) now) (views_in views.old) }
{
    let Some(place) = place_near(names.hints.destinations.place(d), d, names.destinations) else {
        return None;
    };
    views[place].need()
}

/// Passes a packet of neighbour `k`, whose rows are at `row` in all views, to the view of its destination only, and
/// returns the packet to broadcast. `None` if there is none, or if the table does not have the destination.
fn step_packet(
    k: Id,
    row: usize,
    packet: &Packet,
    views: &mut [Destination],
    names: TableNames<'_>,
    now: u64,
) -> Option<Packet>
    requires may { All (λ t. CanTake (Input.Packet k packet.now) t.view) views.old }
    requires ascending { IsAscending names.destinations.now }
    requires names { names.destinations.now ≡ destinations_of (views_in views.old) }
    requires places { All (λ t. IsOnlyPlace k row t.neighbours) views.old }
    requires up { All (λ t. has_number k (up_neighbours t.view) ≡ true) views.old }
    ensures views { views.new ≡ map (next_in (Input.Packet k packet.now) now) views.old }
    ensures packet { cons_option result [] ≡ filter_map (next_packet (Input.Packet k packet.now) now)
        (views_in views.old) }
{
    let d = packet.destination();
    let Some(place) = place_near(names.hints.destinations.place(d), d, names.destinations) else {
        return None;
    };
    views[place].packet(k, row, packet, now)
}

/// Appends a packet, if there is one.
fn list(packet: Option<Packet>, sends: &mut Sends)
    requires { array_vec_len sends.old < MOST_DESTINATIONS }
    ensures { sends.new.items ≡ sends.old.items ++ cons_option packet [] }
{
    if let Some(packet) = packet {
        sends.push(packet);
    }
}
