//! The places of a destination's rows, one for each neighbour of the node, and the marks of the links that are up.
ghost use Rattle.std.specs.Prelude.{◌≡◌, ◌==◌, ◌<◌, ◌∷◌, ◌++◌, [], false, find, if◌then◌else◌, length, map, option_map};
ghost use Rattle.std.specs.Prelude.{position, replicate, slice_index_or, slice_set, IfOk, OnOk};
ghost use Rattle.tora_core.specs.Links.{directions_of, empty_place, rows_up};
ghost use Rattle.tora_core.specs.Numbers.{IsAscending};
ghost use Rattle.tora_core.specs.View.{neighbours_of};

use crate::rows::{Row, link_row, row_at};
use std::alloc::{AllocError, Global};
use tora_height::{Direction, Entry, Id, status};

/// A place for each neighbour, without an entry.
///
/// # Errors
/// Out of memory.
pub fn empty_places(alloc: Global, neighbours: &[Id]) -> Result<Vec<Row>, AllocError>
    ensures { IfOk result (λ places. places.items ≡ map empty_place neighbours.now) }
{
    let mut places = Vec::with_capacity(alloc, neighbours.len())?;
    for neighbour in neighbours {
        places.push(link_row(*neighbour, None))?;
    }
    Ok(places)
}

/// Marks for `count` places: no link is up.
///
/// # Errors
/// Out of memory.
pub fn none_up(alloc: Global, count: usize) -> Result<Vec<bool>, AllocError>
    ensures { IfOk result (λ up. up.items ≡ replicate count false) }
{
    let mut up = Vec::with_capacity(alloc, count)?;
    up.resize(count, false)?;
    Ok(up)
}

/// The direction of the link of each row.
///
/// # Errors
/// Out of memory.
pub fn directed(alloc: Global, own: &Entry, rows: &[Row]) -> Result<Vec<Direction>, AllocError>
    ensures { IfOk result (λ directions. directions.items ≡ directions_of own.now rows.now) }
{
    let mut directions = Vec::with_capacity(alloc, rows.len())?;
    for row in rows {
        directions.push(status(*own, row.entry))?;
    }
    Ok(directions)
}

/// The rows of the marked places.
///
/// # Errors
/// Out of memory.
pub fn rows_up(alloc: Global, up: &[bool], places: &[Row]) -> Result<Vec<Row>, AllocError>
    requires { length up.now ≡ length places.now }
    ensures { IfOk result (λ rows. rows.items ≡ rows_up up.now places.now) }
{
    let mut rows = Vec::with_capacity(alloc, places.len())?;
    for i in 0..places.len() {
        let mark = is_marked(i, up);
        let row = *row_at(i, places);
        push_marked(mark, row, &mut rows)?;
    }
    Ok(rows)
}

/// Appends an item if `mark` is set. Fails only if memory runs out.
fn push_marked<T: Copy>(mark: bool, item: T, items: &mut Vec<T>) -> Result<(), AllocError>
    ensures { OnOk result (items.new.items ≡ items.old.items ++ (if mark then item ∷ [] else [])) }
{
    if mark {
        items.push(item)?;
    }
    Ok(())
}

/// Whether a place is marked.
fn is_marked(place: usize, up: &[bool]) -> bool
    requires { place < length up.now }
    ensures { result ≡ slice_index_or up.now place result }
{
    up[place]
}

/// The place of a neighbour, counted from 0, if it has one.
fn place_of_row(k: Id, places: &[Row]) -> Option<usize>
    ensures { result ≡ position (λ row. row.neighbour == k) places.now }
{
    places.iter().position(|row| row.neighbour == k)
}

/// The entry of a neighbour whose link is up: `Some(None)` if the entry is NULL; `None` if the link is not up or `k`
/// has no place.
pub fn entry_of(k: Id, up: &[bool], places: &[Row]) -> Option<Entry>
    requires ascending { IsAscending (neighbours_of places.now) }
    requires lengths { length up.now ≡ length places.now }
    ensures { result ≡ option_map (λ row. row.entry) (find (λ row. row.neighbour == k) (rows_up up.now places.now)) }
{
    let Some(place) = place_of_row(k, places) else {
        return None;
    };
    if is_marked(place, up) {
        Some(row_at(place, places).entry)
    } else {
        None
    }
}

/// Writes an item to its place.
pub fn put<T: Copy>(place: usize, item: T, items: &mut [T])
    requires { place < length items.old }
    ensures { items.new ≡ slice_set items.old place item }
{
    items[place] = item;
}
